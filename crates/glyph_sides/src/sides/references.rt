//! Single glyphs and whole sides, to be read and to be written.

ghost use Rattle.std.specs.Prelude.{◌≡◌, ◌<◌, ◌-◌, false, length, slice_index_or};
ghost use Rattle.glyph_sides.specs.TwoLists.{lookahead_len};
ghost use Rattle.glyph_sides.specs.Lending.{place_of};

use super::Sides;
use crate::lend::front_mut;
use rb_glyph::hb_glyph_info_t;

impl Sides {
    ghost use Rattle.std.specs.Borrow.{sem};
    ghost use Rattle.glyph_sides.specs.Lending.{LendsCur, LendsLast, LendsInput, LendsOut};

    /// The glyph `i` places after the cursor. Requires that there is one.
    #[inline(always)]
    pub fn cur(&self, i: usize) -> &hb_glyph_info_t
        requires { i < lookahead_len self.now }
        ensures { result.now ≡ slice_index_or self.now.input (place_of self.now i) result.now }
    {
        &self.info[self.cursor + i]
    }

    /// The glyph `i` places after the cursor, to be written.
    #[inline(always)]
    pub fn cur_mut(&mut self, i: usize) -> &mut hb_glyph_info_t
        requires { i < lookahead_len self.old }
        ensures* writes_back { sem 𝓛 (LendsCur self.entry i result) }
        ensures value { result.now
            ≡ slice_index_or self.old.input (place_of self.old i) result.now }
    {
        &mut self.info[self.cursor + i]
    }

    /// The last glyph that was put out, to be written.
    #[inline(always)]
    pub fn last_mut(&mut self) -> &mut hb_glyph_info_t
        requires { 0 < length self.old.out }
        ensures* writes_back { sem 𝓛 (LendsLast self.entry result) }
        ensures value { result.now
            ≡ slice_index_or self.old.out (length self.old.out - 1) result.now }
    {
        if self.is_separate {
            let last = self.out_info.len() - 1;
            return &mut self.out_info[last];
        }
        let last = self.placed() - 1;
        &mut self.info[last]
    }

    /// The glyphs that were put out, to be written.
    #[inline(always)]
    pub fn out_mut(&mut self) -> &mut [hb_glyph_info_t]
        ensures* writes_back { sem 𝓛 (LendsOut self.entry result) }
        ensures value { result.now ≡ self.old.out }
    {
        if self.is_separate {
            return &mut self.out_info;
        }
        let placed = self.placed();
        front_mut(&mut self.info, placed)
    }

    /// The list, to be written. Requires that no output is open.
    #[inline(always)]
    pub fn list_mut(&mut self) -> &mut [hb_glyph_info_t]
        requires { self.old.is_open ≡ false }
        ensures* writes_back { sem 𝓛 (LendsInput self.entry result) }
        ensures value { result.now ≡ self.old.input }
    {
        &mut self.info
    }
}
