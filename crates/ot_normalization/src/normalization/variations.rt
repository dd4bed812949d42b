//! A base and its marks, with a variation selector among them.

ghost use Rattle.std.specs.Prelude.{◌≡◌, ◌+◌, ◌<◌, ◌≤◌, true, false, length, IfOk};
ghost use Rattle.shaping_passes.specs.Left.{HasCurrent, StaysOpen, StaysOpenAndTells};

use super::decomposition::{is_variation_selector, set_current_glyph};
use font_functions::FontFunctions;
use script_items::glyph_info::{clear_default_ignorable, set_variation_selector};
use shaping_buffer::{
    HB_BUFFER_SCRATCH_FLAG_HAS_VARIATION_SELECTOR_FALLBACK, hb_buffer_t, hb_glyph_info_t,
};
use std::alloc::AllocError;

/// Reads so many characters. A character and a variation selector behind it become one where the font has a glyph for
/// the two; nothing is taken apart.
#[tactic(auto, using(shaping_buffer::proofs::ClosedKeepsLemmas::kept))]
pub(crate) fn read_variations<F: FontFunctions>(
    buffer: &mut hb_buffer_t,
    font: &F,
    count: usize,
) -> Result<bool, AllocError>
    requires { buffer.old.have_output ≡ true }
    ensures { StaysOpenAndTells false result buffer.old buffer.new }
{
    let end = buffer.idx().saturating_add(count);
    for _turn in 0..count {
        if buffer.idx() >= end || buffer.lookahead_len() == 0 {
            break;
        }
        if !read_next(buffer, font, end)? {
            return Ok(false);
        }
    }
    Ok(true)
}

/// Reads a character, and the variation selectors behind it that stand before a place of the input.
#[tactic(auto, using(shaping_buffer::proofs::ClosedKeepsLemmas::kept))]
fn read_next<F: FontFunctions>(
    buffer: &mut hb_buffer_t,
    font: &F,
    end: usize,
) -> Result<bool, AllocError>
    requires { HasCurrent buffer.old }
    ensures { StaysOpenAndTells false result buffer.old buffer.new }
{
    if buffer.idx().saturating_add(1) >= end
        || buffer.lookahead_len() == 1
        || !is_variation_selector(buffer.cur(1).glyph_id)
    {
        return buffer.next_glyph();
    }
    if !read_variation(buffer, font)? {
        return Ok(false);
    }
    keep_selectors(buffer, end)
}

/// Reads a character and the variation selector behind it.
#[tactic(auto, using(shaping_buffer::proofs::ClosedKeepsLemmas::kept))]
fn read_variation<F: FontFunctions>(buffer: &mut hb_buffer_t, font: &F) -> Result<bool, AllocError>
    requires opened { buffer.old.have_output ≡ true }
    requires glyphs { 1 < length buffer.old.input }
    ensures { StaysOpenAndTells false result buffer.old buffer.new }
{
    let character = buffer.cur(0).glyph_id;
    let selector = buffer.cur(1).glyph_id;
    match font.variation_glyph(character, selector) {
        Some(glyph) => {
            set_current_glyph(buffer, u32::from(glyph.0));
            buffer.replace_glyphs(2, 1, &[character])
        }
        None => keep_both(buffer),
    }
}

/// Reads a character and a variation selector that the font does not know.
#[tactic(auto, using(shaping_buffer::proofs::ClosedKeepsLemmas::kept))]
fn keep_both(buffer: &mut hb_buffer_t) -> Result<bool, AllocError>
    requires opened { buffer.old.have_output ≡ true }
    requires glyphs { 1 < length buffer.old.input }
    ensures { StaysOpenAndTells false result buffer.old buffer.new }
{
    if !buffer.next_glyph()? {
        return Ok(false);
    }
    buffer.scratch_flags = buffer.scratch_flags
        | HB_BUFFER_SCRATCH_FLAG_HAS_VARIATION_SELECTOR_FALLBACK;
    let is_shown = buffer.not_found_variation_selector.is_some();
    note_selector(buffer, is_shown);
    buffer.next_glyph()
}

/// Says that the current character is a variation selector that the font does not know, and whether it is shown.
fn note_selector(buffer: &mut hb_buffer_t, is_shown: bool)
    requires { HasCurrent buffer.old }
    ensures input { length buffer.new.input ≡ length buffer.old.input }
    ensures stays { StaysOpen buffer.old buffer.new }
{
    note(buffer.cur_mut(0), is_shown);
}

/// Says that a character is a variation selector that the font does not know, and whether it is shown.
fn note(info: &mut hb_glyph_info_t, is_shown: bool)
    ensures { info.new.cluster ≡ info.old.cluster }
{
    set_variation_selector(info);
    if is_shown {
        clear_default_ignorable(info);
    }
}

/// Reads the variation selectors that are left before a place of the input.
#[tactic(auto, using(shaping_buffer::proofs::ClosedKeepsLemmas::kept))]
fn keep_selectors(buffer: &mut hb_buffer_t, end: usize) -> Result<bool, AllocError>
    requires { buffer.old.have_output ≡ true }
    ensures { StaysOpenAndTells false result buffer.old buffer.new }
{
    for _turn in buffer.idx()..end {
        if buffer.idx() >= end
            || buffer.lookahead_len() == 0
            || !is_variation_selector(buffer.cur(0).glyph_id)
        {
            break;
        }
        if !buffer.next_glyph()? {
            return Ok(false);
        }
    }
    Ok(true)
}
