//! The last steps of shaping: what is taken out, hidden or stretched, and the glyph flags of clusters.

ghost use Rattle.std.specs.Prelude.{◌≡◌, None, if◌then◌else◌};
ghost use Rattle.ot_positions.specs.ClusterFlags.{propagate_flags};
ghost use Rattle.ot_positions.specs.Ending.{Hides, show_variation_selectors};
ghost use Rattle.shaping_buffer.specs.ClusterStep.{unsafe_to_break};
ghost use Rattle.shaping_buffer.specs.State.{HasPositions};
ghost use Rattle.ot_shape.specs.Shaped.{Stays, StaysUnlessRefused};

use aat_substitution::remove_deleted_glyphs;
use font_face::Face;
use font_functions::FontFunctions;
use ot_plan::{FaceGlyphs, TextPlan};
use ot_positions::{
    hide_ignorables, mark_given_up, propagate_flags, share_flags, show_variation_selectors,
};
use script_shapers::ScriptPlan;
use shaping_buffer::hb_buffer_t;
use std::alloc::AllocError;

/// The last steps: what is not to be seen is hidden, marks are stretched, and the glyphs of a cluster have the same
/// flags. `Ok(false)` where a call was refused for length.
#[tactic(auto, using(shaping_buffer::proofs::ClosedKeepsLemmas::kept))]
pub(crate) fn finish_glyphs<F: FontFunctions>(
    buffer: &mut hb_buffer_t,
    face: &Face,
    font: &F,
    plan: &TextPlan,
) -> Result<bool, AllocError>
    requires placed { HasPositions buffer.old }
    ensures { StaysUnlessRefused result buffer.old buffer.new }
{
    hide_glyphs(buffer, font, plan);
    if !stretch_marks(buffer, face, font, &plan.script)? {
        return Ok(false);
    }
    end_flags(buffer);
    Ok(true)
}

/// Marks a text of which shaping was given up, and then gives the glyphs of a cluster the same flags.
#[tactic(auto, using(shaping_buffer::proofs::ClosedKeepsLemmas::kept))]
fn end_flags(buffer: &mut hb_buffer_t)
    requires placed { HasPositions buffer.old }
    ensures is { buffer.new ≡ propagate_flags
        (if buffer.old.shaping_failed then unsafe_to_break None None buffer.old else buffer.old) }
    ensures stays { Stays buffer.old buffer.new }
{
    mark_given_up(buffer);
    propagate_flags(buffer);
}

/// Takes out glyphs that were deleted, and hides what is not to be seen.
#[tactic(auto, using(shaping_buffer::proofs::ClosedKeepsLemmas::kept))]
fn hide_glyphs<F: FontFunctions>(buffer: &mut hb_buffer_t, font: &F, plan: &TextPlan)
    requires placed { HasPositions buffer.old }
    ensures stays { Stays buffer.old buffer.new }
{
    remove_deleted(buffer, plan);
    hide_unseen(buffer, font);
}

/// Shows the variation selectors that the font does not know, and hides what is not to be seen.
#[tactic(auto, using(shaping_buffer::proofs::ClosedKeepsLemmas::kept))]
fn hide_unseen<F: FontFunctions>(buffer: &mut hb_buffer_t, font: &F)
    requires placed { HasPositions buffer.old }
    ensures hides { Hides (F.has font.now) (F.may_have font.now) (show_variation_selectors buffer.old) buffer.new }
    ensures stays { Stays buffer.old buffer.new }
{
    show_variation_selectors(buffer);
    hide_ignorables(buffer, font);
}

/// Stretches the marks of a text that is shaped, as the shaper of its script says. `Ok(false)` where a call was refused for length.
#[tactic(auto, using(shaping_buffer::proofs::ClosedKeepsLemmas::kept))]
fn stretch_marks<F: FontFunctions>(
    buffer: &mut hb_buffer_t,
    face: &Face,
    font: &F,
    script: &ScriptPlan,
) -> Result<bool, AllocError>
    requires placed { HasPositions buffer.old }
    ensures { StaysUnlessRefused result buffer.old buffer.new }
{
    script.postprocess_glyphs(face.alloc, buffer, &FaceGlyphs { face, font })
}

/// Takes out glyphs that were deleted by Apple's table `morx`, unless `GPOS` positioned the others without them.
fn remove_deleted(buffer: &mut hb_buffer_t, plan: &TextPlan)
    requires placed { HasPositions buffer.old }
    ensures stays { Stays buffer.old buffer.new }
{
    if plan.chain_flags.is_some() && !plan.shape.apply_gpos {
        share_flags(buffer);
        remove_deleted_glyphs(buffer);
    }
}
