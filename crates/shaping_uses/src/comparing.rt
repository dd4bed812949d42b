//! Two shapings, compared by their texts.

ghost use Rattle.std.specs.Prelude.{◌≡◌, ◌↔◌, ◌^◌, ◌<◌, ◌≤◌, length, map, nat_abs};
ghost use Rattle.std.specs.List.{All, zip};
ghost use Rattle.glyph_text.specs.Text.{Font};
ghost use Rattle.glyph_text.specs.TextReading.{numbers_and_flags, told_of, FitsItsFields};
ghost use Rattle.shaping_buffer.specs.Text.{glyphs_of, text_of};

use glyph_text::laws::equal_texts_tell_of_equal_glyphs;
use shaping_buffer::{GlyphBuffer, GlyphPosition, hb_glyph_info_t};

/// Two shapings have equal texts under `NO_GLYPH_NAMES` and `GLYPH_FLAGS` exactly where they have as many glyphs, with
/// equal numbers, clusters, offsets, advances and glyph flags, whatever the fonts are. So their texts may be compared
/// in place of them.
pub fn equal_texts_mean_equal_glyphs(one: &GlyphBuffer, other: &GlyphBuffer)
    ensures { (first second : Font)
        → (text_of first numbers_and_flags one.now ≡ text_of second numbers_and_flags other.now)
        ↔ (map told_of (glyphs_of one.now) ≡ map told_of (glyphs_of other.now)) }
{
    glyphs_fit(one.glyph_infos(), one.glyph_positions());
    glyphs_fit(other.glyph_infos(), other.glyph_positions());
    equal_texts_tell_of_equal_glyphs();
}

/// The numbers of all glyphs fit their fields.
fn glyphs_fit(glyphs: &[hb_glyph_info_t], positions: &[GlyphPosition])
    requires { length positions.now ≡ length glyphs.now }
    ensures { All FitsItsFields (zip glyphs.now positions.now) }
{
    for (i, glyph) in glyphs.iter().enumerate() {
        glyph_fits(glyph, &positions[i]);
    }
}

/// Those of one glyph.
fn glyph_fits(glyph: &hb_glyph_info_t, position: &GlyphPosition)
    ensures { FitsItsFields (glyph.now, position.now) }
{
    word_fits(glyph.glyph_id);
    word_fits(glyph.cluster);
    signed_fits(position.x_offset);
    signed_fits(position.y_offset);
    signed_fits(position.x_advance);
    signed_fits(position.y_advance);
}

fn word_fits(number: u32)
    ensures { number < 2 ^ 32 }
{}

fn signed_fits(number: i32)
    ensures { nat_abs number ≤ 2 ^ 31 }
{}
