//! Glyphs that are lent on.

ghost use Rattle.std.specs.Prelude.{◌≡◌, ◌≤◌, vec_len, take};
ghost use Rattle.std.specs.Borrow.{sem};
ghost use Rattle.glyph_sides.specs.LendingLists.{LendsStart, LendsFront};

use rb_glyph::hb_glyph_info_t;

/// The first glyphs, to be written. A slice keeps its length, so no other glyph changes.
pub(crate) fn front_mut(glyphs: &mut Vec<hb_glyph_info_t>, n: usize) -> &mut [hb_glyph_info_t]
    requires { n ≤ vec_len glyphs.old }
    ensures* writes_back { sem 𝓛 (LendsFront glyphs.entry n result) }
    ensures value { result.now ≡ take n glyphs.old.items }
{
    start_mut(glyphs, n)
}

fn start_mut(glyphs: &mut Vec<hb_glyph_info_t>, n: usize) -> &mut [hb_glyph_info_t]
    requires { n ≤ vec_len glyphs.old }
    ensures* writes_back { sem 𝓛 (LendsStart glyphs.entry result) }
    ensures value { result.now ≡ take n glyphs.old.items }
{
    glyphs.slice_mut(..n)
}
