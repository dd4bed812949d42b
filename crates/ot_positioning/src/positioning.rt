//! The positions of the glyphs of a text, step by step.

ghost use Rattle.std.specs.Prelude.{◌≡◌, ◌↔◌, false, IfOk, IsSome, IsTrue};
ghost use Rattle.ot_positioning.specs.Stays.{Stays};
ghost use Rattle.script_shapers.specs.Shapers.{width_of};
ghost use Rattle.shaping_buffer.specs.KeepsClusters.{KeepsClusters};
ghost use Rattle.shaping_buffer.specs.State.{HasPositions};

use crate::fallback_marks::position_marks;
use crate::lookups::position_by_lookups;
use font_face::Face;
use font_functions::FontFunctions;
use ot_attachments::position_finish_offsets;
use ot_map::OtShapePlan;
use ot_plan::{Step, TextPlan, Watch};
use ot_positions::{
    position_glyphs, track, zero_mark_widths, zero_width_default_ignorables,
    zero_width_deleted_glyphs,
};
use script_shapers::ZeroWidthMarks;
use shaping_buffer::{Direction, hb_buffer_t};
use std::alloc::AllocError;

/// Positions the glyphs: by the font's advances, by its lookups, and marks without a width of their own. `direction` is the way in
/// which the line was said to run.
#[tactic(auto, using(shaping_buffer::proofs::ClosedKeepsLemmas::kept))]
pub fn position<F: FontFunctions, W: Watch>(
    buffer: &mut hb_buffer_t,
    face: &Face,
    font: &F,
    plan: &TextPlan,
    direction: Direction,
    watch: &mut W,
) -> Result<(), AllocError>
    requires { buffer.old.have_output ≡ false }
    ensures closed { IfOk result (λ _. buffer.new.have_output ≡ false) }
    ensures placed { IfOk result (λ _. IsSome buffer.new.positions) }
    ensures keeps { KeepsClusters buffer.old buffer.new }
{
    position_glyphs(buffer, face, font)?;
    watch.step(Step::Advances, buffer)?;
    let adjusts = adjusts_marks(buffer, &plan.shape);
    zero_marks(buffer, zeroes_marks(plan, ZeroWidthMarks::Early), adjusts);
    position_by_lookups(buffer, face, font, &plan.shape, watch)?;
    track(buffer, face, plan.trak_mask);
    zero_marks(buffer, zeroes_marks(plan, ZeroWidthMarks::Late), adjusts);
    zero_deleted(buffer, plan);
    finish_positions(buffer, face, font, &plan.shape, direction)
}

/// Whether marks lose their width at this step.
fn zeroes_marks(plan: &TextPlan, step: ZeroWidthMarks) -> bool
    ensures { IsTrue result
        ↔ (IsTrue plan.now.shape.zero_marks) × (width_of plan.now.script.shaper ≡ step) }
{
    plan.shape.zero_marks && plan.script.shaper.zero_width_marks() == step
}

/// Whether a mark that loses its width is moved back by it.
fn adjusts_marks(buffer: &hb_buffer_t, plan: &OtShapePlan) -> bool {
    plan.adjust_mark_positioning_when_zeroing && buffer.direction.is_forward()
}

/// Takes the width of what is not to be seen, and places the glyphs that stand by others.
#[tactic(auto, using(shaping_buffer::proofs::ClosedKeepsLemmas::kept))]
fn finish_positions<F: FontFunctions>(
    buffer: &mut hb_buffer_t,
    face: &Face,
    font: &F,
    plan: &OtShapePlan,
    direction: Direction,
) -> Result<(), AllocError>
    requires placed { HasPositions buffer.old }
    ensures closed { IfOk result (λ _. buffer.new.have_output ≡ false) }
    ensures placed { IfOk result (λ _. IsSome buffer.new.positions) }
    ensures keeps { KeepsClusters buffer.old buffer.new }
{
    let adjusts = adjusts_marks(buffer, plan);
    zero_width_default_ignorables(buffer);
    position_finish_offsets(buffer);
    if plan.fallback_mark_positioning {
        position_marks(buffer, face, font, direction, adjusts)?;
    }
    Ok(())
}

/// Takes the width of glyphs that were deleted by Apple's table `morx`.
fn zero_deleted(buffer: &mut hb_buffer_t, plan: &TextPlan)
    requires placed { HasPositions buffer.old }
    ensures stays { Stays buffer.old buffer.new }
{
    if plan.chain_flags.is_some() {
        zero_width_deleted_glyphs(buffer);
    }
}

/// Takes the width of marks, where that is said.
fn zero_marks(buffer: &mut hb_buffer_t, zeroes: bool, adjusts: bool)
    requires placed { HasPositions buffer.old }
    ensures stays { Stays buffer.old buffer.new }
{
    if zeroes {
        zero_mark_widths(buffer, adjusts);
    }
}
