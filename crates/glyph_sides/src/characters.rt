//! The glyphs of a text, at the end of a list.

ghost use Rattle.std.specs.Prelude.{◌≡◌, ◌+◌, ◌≤◌, ◌++◌, length, vec_len, vec_capacity, chars};
ghost use Rattle.glyph_sides.specs.TextGlyphs.{glyphs_at};

use rb_glyph::hb_glyph_info_t;

pub(crate) fn append_characters(info: &mut Vec<hb_glyph_info_t>, text: &str)
    requires { vec_len info.old + length (chars text.now) ≤ vec_capacity info.old }
    ensures is { info.new.items ≡ info.old.items ++ glyphs_at 0 (chars text.now) }
    ensures capacity { vec_capacity info.new ≡ vec_capacity info.old }
{
    for (i, c) in text.char_indices() {
        info.push_reserved(hb_glyph_info_t {
            glyph_id: c as u32,
            mask: 0,
            cluster: (i % 0x1_0000_0000) as u32,
            var1: 0,
            var2: 0,
        });
    }
}
