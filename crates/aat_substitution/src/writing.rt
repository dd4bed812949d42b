//! What subtables write beside the calls of the buffer: glyphs and their properties. No cluster changes by it.

ghost use Rattle.std.specs.Prelude.{◌≡◌, ◌≢◌, ◌<◌, ℕ, true, false, length, slice_index_or};
ghost use Rattle.shaping_buffer.specs.Clusters.{clusters, zero_glyph};
ghost use Rattle.aat_substitution.specs.Left.{Stays, Works};

use crate::work::{Done, Work};
use font_tables::gdef::Gdef;
use rb_common::GlyphId;
use rb_glyph::hb_glyph_info_t;
use shaping_buffer::hb_buffer_t;

/// The Unicode property of a character that is invisible by default.
const IGNORABLE: u16 = 0x0020;

/// Puts a glyph in the place of another, with the properties that the font gives it.
pub(crate) fn set_glyph(glyphs: &mut [hb_glyph_info_t], place: usize, glyph: u16, gdef: &Gdef)
    ensures clusters { clusters glyphs.new ≡ clusters glyphs.old }
    ensures glyph { place < length glyphs.old → (slice_index_or glyphs.new place zero_glyph).glyph_id ≡ glyph }
    ensures others { (k : ℕ) → k ≢ place → slice_index_or glyphs.new k zero_glyph ≡ slice_index_or glyphs.old k zero_glyph }
{
    if place < glyphs.len() {
        glyphs[place].glyph_id = u32::from(glyph);
        if gdef.has_glyph_classes() {
            glyphs[place].set_glyph_props(gdef.glyph_props(GlyphId(glyph)));
        }
    }
}

/// Puts a glyph in the place of that at a place of the buffer.
pub(crate) fn replace_at(buffer: &mut hb_buffer_t, place: usize, glyph: u16, gdef: &Gdef)
    requires { buffer.old.have_output ≡ false }
    ensures { Stays buffer.old buffer.new }
{
    set_glyph(buffer.info_slice_mut(), place, glyph, gdef);
}

/// Hides the current glyph, as one that is invisible by default.
pub(crate) fn hide_current(buffer: &mut hb_buffer_t)
    requires opened { buffer.old.have_output ≡ true }
    requires glyph { 0 < length buffer.old.input }
    ensures same_length { length buffer.new.input ≡ length buffer.old.input }
    ensures stays { Stays buffer.old buffer.new }
{
    let written = buffer.cur_mut(0);
    written.set_unicode_props(written.unicode_props() | IGNORABLE);
}

/// Says that shaping met a limit.
pub(crate) fn fail(buffer: &mut hb_buffer_t)
    ensures failed { buffer.new.shaping_failed ≡ true }
    ensures stays { Stays buffer.old buffer.new }
{
    buffer.shaping_failed = true;
}

/// Moves the cursor to a place of both sides, or as near to it as there are glyphs.
pub(crate) fn go_to(buffer: &mut hb_buffer_t, place: usize, work: &mut Work) -> Done
    requires { buffer.old.have_output ≡ true }
    ensures { Works false result buffer.old buffer.new work.old work.new }
{
    let out_len = buffer.out_len();
    work.budget.pay_for(out_len.abs_diff(place));
    let last = out_len.saturating_add(buffer.lookahead_len());
    buffer.move_to(place.min(last))
}
