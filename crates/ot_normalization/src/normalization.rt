//! Normalization with a font, in HarfBuzz's three rounds (HarfBuzz's documentation, "Normalization"): characters are
//! taken apart where the font lacks them, marks are put in order, and pairs are composed where the font has the
//! composed character.

ghost use Rattle.std.specs.Prelude.{◌≡◌, ◌<◌, true, false, length, IfOk};
ghost use Rattle.shaping_passes.specs.Left.{Closes, HasCurrent, StaysClosed, StaysOpen};

mod composed_again;
mod decomposition;
mod pairs;
mod parts;
mod recomposition;
mod reordering;
mod variations;

use composed_again::keep_composed_again;
use decomposition::decompose_all;
use font_functions::FontFunctions;
use pairs::Composing;
use recomposition::recompose_all;
use reordering::{reorder_marks, unhide_joiners};
use script_items::allows_any_order;
use script_items::item::is_unicode_mark;
use script_shapers::{NormalizationMode, ScriptPlan};
use shaping_buffer::{HB_BUFFER_SCRATCH_FLAG_HAS_CGJ, hb_buffer_t, hb_glyph_info_t};
use std::alloc::AllocError;

/// Normalizes the characters of a text and finds a glyph for each, whose number is then its `glyph_index`. `Ok(false)`
/// where a call was refused for length.
///
/// A script's shaper says whether characters are composed, what they compose to and in which order marks stand. The characters are to have
/// the properties that `set_unicode_props` gives them. Requires that no output is open. `Err(AllocError)` where memory runs out.
#[tactic(auto, using(shaping_buffer::proofs::ClosedKeepsLemmas::kept))]
pub fn normalize<F: FontFunctions>(
    buffer: &mut hb_buffer_t,
    font: &F,
    script: &ScriptPlan,
) -> Result<bool, AllocError>
    requires { buffer.old.have_output ≡ false }
    ensures { Closes result buffer.old buffer.new }
{
    let has_marks = has_marks(buffer.info());
    keep_composed_again(buffer, font, script, has_marks);
    let composes = script.shaper.normalization_mode() != NormalizationMode::Nothing;
    if !decompose_all(buffer, font, script.shaper)? {
        return Ok(false);
    }
    if !has_marks {
        unhide_if_any(buffer);
        return Ok(true);
    }
    reorder_marks(buffer, script.shaper);
    unhide_if_any(buffer);
    if !composes {
        return Ok(true);
    }
    recompose_all(buffer, &Composing::new(font, script))
}

/// Shows the grapheme joiners that marks may have passed, where the text has any.
fn unhide_if_any(buffer: &mut hb_buffer_t)
    requires { buffer.old.have_output ≡ false }
    ensures { StaysClosed buffer.old buffer.new }
{
    if buffer.scratch_flags & HB_BUFFER_SCRATCH_FLAG_HAS_CGJ != 0 {
        unhide_joiners(buffer);
    }
}

/// Whether a mark stands behind another character.
fn has_marks(infos: &[hb_glyph_info_t]) -> bool {
    match infos {
        [_, behind @ ..] => behind.iter().any(|info| is_unicode_mark(info)),
        [] => false,
    }
}

/// Drops the current character, of which another one in its cluster stands before it.
fn drop_behind(buffer: &mut hb_buffer_t)
    requires { HasCurrent buffer.old }
    ensures { StaysOpen buffer.old buffer.new }
{
    if buffer.out_len() > 0 && buffer.prev().cluster == buffer.cur(0).cluster {
        buffer.skip_glyph();
    } else if allows_any_order(buffer) {
        buffer.skip_glyph();
    } else {
        buffer.delete_glyph();
    }
}
