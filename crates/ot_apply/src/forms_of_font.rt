//! What the shapers of syllables ask of a font.

ghost use Rattle.std.specs.Prelude.{◌≡◌, ◌<◌, true, false, IfOk};
ghost use Rattle.ot_apply.specs.ClusterOrder.{KeepsStage};
ghost use Rattle.shaping_buffer.specs.KeepsClusters.{KeepsClusters};
ghost use Rattle.shaping_passes.specs.Refusals.{IsRefusal};

use font_face::Face;
use font_functions::FontFunctions;
use ot_layout::Budget;
use ot_map::{LayoutPlan, Pause};
use ot_plan::{FormPlaces, TextPlan, budget_of};
use ot_substitution::would_substitute;
use script_syllables::{FontForms, FormFeature};
use shaping_buffer::hb_buffer_t;
use std::alloc::AllocError;

/// A font with the features of a text.
#[derive(Drop)]
struct Forms<'a, F> {
    face: &'a Face<'a>,
    font: &'a F,
    layout: &'a LayoutPlan,
    /// Where the lookups of each feature stand.
    places: &'a FormPlaces,
    /// Whether a rule with context is not taken.
    wants_no_context: bool,
    /// What the questions may cost.
    budget: Budget,
}

impl<F: FontFunctions> FontForms for Forms<'_, F> {
    fn glyph_of(&self, character: u32) -> Option<u32> {
        match self.font.nominal_glyph(character) {
            Some(glyph) => Some(u32::from(glyph.0)),
            None => None,
        }
    }

    fn would_substitute(&mut self, feature: FormFeature, glyphs: &[u32]) -> bool {
        let list = &self.face.lookups.substitutions;
        let lookups = self.layout.gsub_lookups.get(self.places.of(feature));
        for planned in lookups.unwrap_or(&[]) {
            if let Some(lookup) = list.lookup(planned.index)
                && would_substitute(
                    list,
                    lookup,
                    glyphs,
                    self.wants_no_context,
                    &mut self.budget,
                )
            {
                return true;
            }
        }
        false
    }
}

/// Works on the syllables of a text at a pause. `Ok(false)` where a call was refused for length.
#[tactic(auto, using(crate::proofs::StageLemmas::stages))]
pub(crate) fn work_on_syllables<F: FontFunctions>(
    buffer: &mut hb_buffer_t,
    face: &Face,
    font: &F,
    plan: &TextPlan,
    pause: Pause,
) -> Result<bool, AllocError>
    requires { buffer.old.have_output ≡ false }
    ensures closed { IfOk result (λ done. done ≡ true → buffer.new.have_output ≡ false) }
    ensures refusal { IsRefusal false result buffer.new }
    ensures keeps { KeepsStage plan.now.syllables buffer.old buffer.new }
{
    if !plan.orders_syllables() {
        return Ok(true);
    }
    let mut forms = Forms {
        face,
        font,
        layout: &plan.shape.layout,
        places: &plan.forms,
        wants_no_context: plan.syllables.wants_no_context(),
        budget: budget_of(buffer),
    };
    if !plan.syllables.pause(face.alloc, buffer, &mut forms, pause)? {
        return Ok(false);
    }
    fail_if_spent(buffer, &forms.budget);
    Ok(true)
}

/// Says that shaping was given up where the budget is spent.
pub(crate) fn fail_if_spent(buffer: &mut hb_buffer_t, budget: &Budget)
    ensures same_output { buffer.new.have_output ≡ buffer.old.have_output }
    ensures keeps { KeepsClusters buffer.old buffer.new }
    ensures says { budget.now.steps ≡ 0 → buffer.new.shaping_failed ≡ true }
    ensures same { 0 < budget.now.steps → buffer.new ≡ buffer.old }
{
    if budget.is_spent() {
        buffer.shaping_failed = true;
    }
}
