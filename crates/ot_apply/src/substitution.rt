//! The lookups that substitute glyphs, applied to a text stage by stage, and what the shaper of its script does between two stages.

ghost use Rattle.std.specs.Prelude.{◌≡◌, ◌<◌, true, false, IfOk, None, Ok};
ghost use Rattle.glyph_lists.specs.Clusters.{clusters};
ghost use Rattle.ot_layout.specs.Budget.{IsNotMore};
ghost use Rattle.ot_gsub.specs.Nested.{now_of};
ghost use Rattle.shaping_buffer.specs.ClusterStep.{any_order, both};
ghost use Rattle.shaping_buffer.specs.KeepsClusters.{KeepsClusters};
ghost use Rattle.ot_plan.specs.Shapers.{orders_syllables};
ghost use Rattle.ot_apply.specs.ClusterOrder.{IsCourseOf, KeepsStage};
ghost use Rattle.ot_apply.specs.Stages as by_stage;
ghost use Rattle.ot_apply.specs.Stages.{AreRuns, AreStagesDone, HasSeen, IsDoneByStages, IsPlannedRun};
ghost use Rattle.shaping_passes.specs.Refusals.{IsRefusal};

use crate::cluster_order::ClusterCourse;
use crate::forms_of_font::{fail_if_spent, work_on_syllables};
use crate::joined_syllables::keep_joined;
use crate::seen_glyphs::{digest_of, see_after, see_changes};
use aat_substitution::{ChainFlags, Substitution, remove_deleted_glyphs};
use font_face::Face;
use font_functions::FontFunctions;
use font_tables::gdef::Gdef;
use glyph_digests::Digest;
use ot_gsub::{Progress, Substitutions};
use ot_layout::LookupOptions;
use ot_lookups::LookupList;
use ot_lookups::lookup_list::SUBSTITUTION_EXTENSION;
use ot_map::{LayoutPlan, Pause, PlannedLookup};
use ot_plan::{Step, TextPlan, Watch, budget_of};
use script_joining::FallbackLookups;
use shaping_buffer::hb_buffer_t;
use std::alloc::AllocError;

/// Applies the lookups of `GSUB`, stage by stage, and lets clusters run as they ran before, also where the shaper of the script
/// puts the glyphs of syllables in another order. `Ok(false)` where a call was refused for length. Where the budget of the lookups is
/// spent, `buffer.shaping_failed` says so.
pub fn substitute<F: FontFunctions, W: Watch>(
    buffer: &mut hb_buffer_t,
    face: &Face,
    font: &F,
    plan: &TextPlan,
    watch: &mut W,
) -> Result<bool, AllocError>
    requires { buffer.old.have_output ≡ false }
    ensures closed { IfOk result (λ done. done ≡ true → buffer.new.have_output ≡ false) }
    ensures refusal { IsRefusal false result buffer.new }
    ensures keeps { IfOk result (λ done. done ≡ true → KeepsClusters buffer.old buffer.new) }
    ensures stages { result ≡ Ok true → plan.now.chain_flags ≡ None → buffer.new.shaping_failed ≡ false
        → IsDoneByStages face.now plan.now buffer.old buffer.new }
{
    if let Some(flags) = &plan.chain_flags {
        return substitute_by_morx(buffer, face, flags, plan.shape.apply_gpos);
    }
    let course = course_of_syllables(buffer, plan);
    let mut progress = Progress::new(budget_of(buffer));
    if !apply_stages(buffer, face, font, plan, &mut progress, watch)? {
        return Ok(false);
    }
    course.restore(buffer);
    fail_if_spent(buffer, &progress.search.budget);
    Ok(true)
}

/// Substitutes glyphs by Apple's table `morx`. Those that it deletes are taken out at once where `GPOS` is to position the glyphs.
/// `Ok(false)` where a call was refused for length.
fn substitute_by_morx(
    buffer: &mut hb_buffer_t,
    face: &Face,
    flags: &ChainFlags,
    removes_deleted: bool,
) -> Result<bool, AllocError>
    requires { buffer.old.have_output ≡ false }
    ensures closed { IfOk result (λ done. done ≡ true → buffer.new.have_output ≡ false) }
    ensures refusal { IsRefusal false result buffer.new }
    ensures keeps { IfOk result (λ done. done ≡ true → KeepsClusters buffer.old buffer.new) }
{
    let substitution = Substitution {
        table: &face.lookups.morx,
        flags,
        gdef: &face.gdef,
    };
    if !aat_substitution::substitute(buffer, &substitution)? {
        return Ok(false);
    }
    remove_deleted(buffer, removes_deleted);
    Ok(true)
}

/// Takes out glyphs that were deleted, where this is said.
fn remove_deleted(buffer: &mut hb_buffer_t, removes: bool)
    requires { buffer.old.have_output ≡ false }
    ensures closed { buffer.new.have_output ≡ false }
    ensures keeps { KeepsClusters buffer.old buffer.new }
{
    if removes {
        remove_deleted_glyphs(buffer);
    }
}

/// How the clusters of a text run, where the shaper of the script puts the glyphs of syllables in another order. Else none are to be
/// put in order.
fn course_of_syllables(buffer: &hb_buffer_t, plan: &TextPlan) -> ClusterCourse
    requires { buffer.now.have_output ≡ false }
    ensures ordered { orders_syllables plan.now.syllables ≡ true → any_order buffer.now ≡ false
        → IsCourseOf result (clusters (both buffer.now)) }
    ensures unordered { orders_syllables plan.now.syllables ≡ false → result ≡ ClusterCourse.Neither }
{
    if !plan.orders_syllables() {
        return ClusterCourse::Neither;
    }
    ClusterCourse::of(buffer)
}

/// Applies the lookups of all stages, with what is done between them. `Ok(false)` where a call was refused for length.
#[tactic(auto, using(crate::proofs::StageLemmas::stages))]
fn apply_stages<F: FontFunctions, W: Watch>(
    buffer: &mut hb_buffer_t,
    face: &Face,
    font: &F,
    plan: &TextPlan,
    progress: &mut Progress,
    watch: &mut W,
) -> Result<bool, AllocError>
    requires { buffer.old.have_output ≡ false }
    ensures closed { IfOk result (λ done. done ≡ true → buffer.new.have_output ≡ false) }
    ensures refusal { IsRefusal false result buffer.new }
    ensures keeps { KeepsStage plan.now.syllables buffer.old buffer.new }
    ensures stages { result ≡ Ok true → 0 < progress.new.search.budget.steps
        → AreStagesDone face.now plan.now plan.now.shape.layout.stages.items 0 (now_of buffer.old progress.old)
        (now_of buffer.new progress.new) }
{
    progress.has_changed = false;
    let mut glyphs = digest_of(buffer);
    let mut start = 0;
    let stages = plan.shape.layout.stages.as_slice();
    for stage in stages {
        let lookups = lookups_of(&plan.shape.layout, start, stage.end);
        keep_joined(buffer, face, plan, lookups, &mut glyphs);
        if !apply_stage(buffer, face, lookups, &mut glyphs, progress, watch)? {
            return Ok(false);
        }
        if !pause(buffer, face, font, plan, stage.pause, progress)? {
            return Ok(false);
        }
        see_after(buffer, stage.pause, &mut glyphs, progress);
        start = stage.end;
    }
    Ok(true)
}

/// The lookups of a stage, from its first place in the list of all to its end.
#[inline]
fn lookups_of(layout: &LayoutPlan, start: usize, end: usize) -> &[PlannedLookup]
    ensures { result.now ≡ by_stage.lookups_of layout.now.gsub_lookups.items start end }
{
    if start <= end && end <= layout.gsub_lookups.len() {
        &layout.gsub_lookups[start..end]
    } else {
        &[]
    }
}

/// Applies the lookups of a stage. `Ok(false)` where a call was refused for length.
#[tactic(auto, using(shaping_buffer::proofs::ClosedKeepsLemmas::kept))]
fn apply_stage<W: Watch>(
    buffer: &mut hb_buffer_t,
    face: &Face,
    lookups: &[PlannedLookup],
    glyphs: &mut Digest,
    progress: &mut Progress,
    watch: &mut W,
) -> Result<bool, AllocError>
    requires closed { buffer.old.have_output ≡ false }
    requires seen { HasSeen glyphs.old progress.old.has_changed buffer.old }
    ensures runs { result ≡ Ok true → 0 < progress.new.search.budget.steps
        → AreRuns face.now lookups.now (now_of buffer.old progress.old) (now_of buffer.new progress.new) }
    ensures seen { result ≡ Ok true → HasSeen glyphs.new progress.new.has_changed buffer.new }
    ensures closed { IfOk result (λ done. done ≡ true → buffer.new.have_output ≡ false) }
    ensures spent { IsNotMore progress.old.search.budget progress.new.search.budget }
    ensures refusal { IsRefusal false result buffer.new }
    ensures keeps { KeepsClusters buffer.old buffer.new }
{
    for planned in lookups {
        if !apply_planned(buffer, face, planned, glyphs, progress)? {
            return Ok(false);
        }
        watch.step(Step::Substituted(planned.index), buffer)?;
    }
    Ok(true)
}

/// Applies a lookup of the plan if it may be for one of the glyphs, and where it changed some sees which there are now.
/// `Ok(false)` where a call was refused for length.
#[inline]
#[tactic(auto, using(shaping_buffer::proofs::ClosedKeepsLemmas::kept))]
fn apply_planned(
    buffer: &mut hb_buffer_t,
    face: &Face,
    planned: &PlannedLookup,
    glyphs: &mut Digest,
    progress: &mut Progress,
) -> Result<bool, AllocError>
    requires closed { buffer.old.have_output ≡ false }
    requires seen { HasSeen glyphs.old progress.old.has_changed buffer.old }
    ensures run { result ≡ Ok true → 0 < progress.new.search.budget.steps
        → IsPlannedRun face.now planned.now (now_of buffer.old progress.old) (now_of buffer.new progress.new) }
    ensures seen { result ≡ Ok true → HasSeen glyphs.new progress.new.has_changed buffer.new }
    ensures closed { IfOk result (λ done. done ≡ true → buffer.new.have_output ≡ false) }
    ensures spent { IsNotMore progress.old.search.budget progress.new.search.budget }
    ensures refusal { IsRefusal false result buffer.new }
    ensures keeps { KeepsClusters buffer.old buffer.new }
{
    prove!(buffer.out_len() == 0);
    let substitutions = substitutions_of(face, planned);
    if !substitutions.list.may_apply(planned.index, glyphs) {
        return Ok(true);
    }
    if !ot_gsub::substitute(buffer, &substitutions, planned.index, progress)? {
        return Ok(false);
    }
    see_changes(buffer, glyphs, progress);
    Ok(true)
}

/// The lookups of a font, and how one of the plan is applied.
#[inline]
fn substitutions_of<'a>(face: &'a Face<'a>, planned: &PlannedLookup) -> Substitutions<'a>
    ensures list { result.list.now ≡ face.now.lookups.substitutions }
    ensures gdef { result.gdef.now ≡ face.now.gdef }
    ensures options { result.options ≡ by_stage.options_of planned.now }
{
    Substitutions {
        list: &face.lookups.substitutions,
        gdef: &face.gdef,
        options: LookupOptions {
            mask: planned.mask,
            auto_zwnj: planned.auto_zwnj,
            auto_zwj: planned.auto_zwj,
            per_syllable: planned.per_syllable,
            random: planned.random,
        },
    }
}

/// What is done after a stage. `Ok(false)` where a call was refused for length.
#[tactic(auto, using(crate::proofs::StageLemmas::stages))]
fn pause<F: FontFunctions>(
    buffer: &mut hb_buffer_t,
    face: &Face,
    font: &F,
    plan: &TextPlan,
    pause: Pause,
    progress: &mut Progress,
) -> Result<bool, AllocError>
    requires { buffer.old.have_output ≡ false }
    ensures nothing { pause ≡ Pause.Nothing → (result ≡ Ok true) × (buffer.new ≡ buffer.old) × (progress.new ≡ progress.old) }
    ensures closed { IfOk result (λ done. done ≡ true → buffer.new.have_output ≡ false) }
    ensures spent { IsNotMore progress.old.search.budget progress.new.search.budget }
    ensures refusal { IsRefusal false result buffer.new }
    ensures keeps { KeepsStage plan.now.syllables buffer.old buffer.new }
{
    match pause {
        Pause::RecordStch => {
            plan.script.record_stch(buffer);
            Ok(true)
        }
        Pause::ArabicFallback => match &plan.fallback {
            Some(fallback) => apply_fallback(buffer, face, fallback, progress),
            None => Ok(true),
        },
        Pause::SetUpSyllables
        | Pause::InitialReordering
        | Pause::FinalReordering
        | Pause::ClearSubstitutionFlags
        | Pause::RecordRphf
        | Pause::RecordPref => work_on_syllables(buffer, face, font, plan, pause),
        Pause::Nothing => Ok(true),
    }
}

/// Joins Arabic letters of a font that has their forms as characters, and no features for them, by the lookups of a fallback.
/// `Ok(false)` where a call was refused for length.
fn apply_fallback(
    buffer: &mut hb_buffer_t,
    face: &Face,
    fallback: &FallbackLookups,
    progress: &mut Progress,
) -> Result<bool, AllocError>
    requires { buffer.old.have_output ≡ false }
    ensures closed { IfOk result (λ done. done ≡ true → buffer.new.have_output ≡ false) }
    ensures spent { IsNotMore progress.old.search.budget progress.new.search.budget }
    ensures refusal { IsRefusal false result buffer.new }
    ensures keeps { KeepsClusters buffer.old buffer.new }
{
    let list = LookupList::new(
        face.alloc,
        fallback.table.as_slice(),
        SUBSTITUTION_EXTENSION,
        &face.gdef,
    )?;
    let lookups = MaskedLookups {
        list: &list,
        gdef: &face.gdef,
        masks: fallback.masks.as_slice(),
    };
    lookups.apply(buffer, progress)
}

/// Lookups, each with the mask of the glyphs that it is applied to.
#[derive(Clone, Copy)]
struct MaskedLookups<'a, 'list, 'gdef> {
    list: &'a LookupList<'list>,
    gdef: &'a Gdef<'gdef>,
    masks: &'a [u32],
}

impl MaskedLookups<'_, '_, '_> {
    /// Applies each of them. `Ok(false)` where a call was refused for length.
    #[tactic(auto, using(shaping_buffer::proofs::ClosedKeepsLemmas::kept))]
    fn apply(&self, buffer: &mut hb_buffer_t, progress: &mut Progress) -> Result<bool, AllocError>
        requires { buffer.old.have_output ≡ false }
        ensures closed { IfOk result (λ done. done ≡ true → buffer.new.have_output ≡ false) }
        ensures spent { IsNotMore progress.old.search.budget progress.new.search.budget }
        ensures refusal { IsRefusal false result buffer.new }
        ensures keeps { KeepsClusters buffer.old buffer.new }
    {
        for index in 0..self.masks.len() {
            let substitutions = Substitutions {
                list: self.list,
                gdef: self.gdef,
                options: options_of_fallback(self.masks[index]),
            };
            let index = u16::try_from(index).unwrap_or(0);
            if !ot_gsub::substitute(buffer, &substitutions, index, progress)? {
                return Ok(false);
            }
        }
        Ok(true)
    }
}

/// How a lookup of the fallback is applied.
fn options_of_fallback(mask: u32) -> LookupOptions {
    LookupOptions {
        mask,
        auto_zwnj: true,
        auto_zwj: true,
        per_syllable: false,
        random: false,
    }
}
