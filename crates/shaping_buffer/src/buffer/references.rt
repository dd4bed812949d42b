//! Single glyphs and whole slices, to be read and to be written.

ghost use Rattle.std.specs.Prelude.{◌≡◌, ◌<◌, ◌-◌, false, Some, length, IsSome, slice_index_or, unwrap_or, []};
ghost use Rattle.shaping_buffer.specs.State.{lookahead_len, len, place_of};

use super::hb_buffer_t;
use rb_glyph::{GlyphPosition, hb_glyph_info_t};

impl hb_buffer_t {
    ghost use Rattle.std.specs.Borrow.{sem};
    ghost use Rattle.shaping_buffer.specs.Lending.{LendsCur, LendsPrev, LendsInput, LendsOut};
    ghost use Rattle.shaping_buffer.specs.Lending.{LendsCurPos, LendsPositions};

    /// The glyph `i` places after the cursor. Requires that there is one.
    pub fn cur(&self, i: usize) -> &hb_glyph_info_t
        requires { i < lookahead_len self.now }
        ensures { result.now ≡ slice_index_or self.now.input (place_of self.now i) result.now }
    {
        self.sides.cur(i)
    }

    /// The glyph `i` places after the cursor, to be written: that glyph alone changes. Requires that there is one.
    pub fn cur_mut(&mut self, i: usize) -> &mut hb_glyph_info_t
        requires { i < lookahead_len self.old }
        ensures* writes_back { sem 𝓛 (LendsCur self.entry i result) }
        ensures value { result.now
            ≡ slice_index_or self.old.input (place_of self.old i) result.now }
    {
        self.sides.cur_mut(i)
    }

    /// The last glyph that was put out. Requires that there is one.
    pub fn prev(&self) -> &hb_glyph_info_t
        requires { 0 < length self.now.out }
        ensures { result.now ≡ slice_index_or self.now.out (length self.now.out - 1) result.now }
    {
        let out = self.sides.out();
        &out[out.len() - 1]
    }

    /// The last glyph that was put out, to be written: that glyph alone changes. Requires that there is one.
    pub fn prev_mut(&mut self) -> &mut hb_glyph_info_t
        requires { 0 < length self.old.out }
        ensures* writes_back { sem 𝓛 (LendsPrev self.entry result) }
        ensures value { result.now
            ≡ slice_index_or self.old.out (length self.old.out - 1) result.now }
    {
        self.sides.last_mut()
    }

    /// The glyphs that were put out, to be written: nothing but them changes.
    pub fn out_info_mut(&mut self) -> &mut [hb_glyph_info_t]
        ensures* writes_back { sem 𝓛 (LendsOut self.entry result) }
        ensures value { result.now ≡ self.old.out }
    {
        self.sides.out_mut()
    }

    /// The list, to be written: nothing but its glyphs changes. Requires that no output is open.
    pub fn info_slice_mut(&mut self) -> &mut [hb_glyph_info_t]
        requires { self.old.have_output ≡ false }
        ensures* writes_back { sem 𝓛 (LendsInput self.entry result) }
        ensures value { result.now ≡ self.old.input }
    {
        self.sides.list_mut()
    }

    /// The position at the cursor, to be written: it alone changes. Requires positions, and a glyph at the cursor.
    pub fn cur_pos_mut(&mut self) -> &mut GlyphPosition
        requires placed { IsSome self.old.positions }
        requires glyph { 0 < lookahead_len self.old }
        ensures* writes_back { sem 𝓛 (LendsCurPos self.entry result) }
        ensures value { result.now
            ≡ slice_index_or (unwrap_or self.old.positions []) self.old.idx result.now }
    {
        let at = self.sides.idx();
        &mut self.pos[at]
    }

    /// The position of each glyph, to be written: nothing but positions changes. Requires positions.
    pub fn pos_mut(&mut self) -> &mut [GlyphPosition]
        requires { IsSome self.old.positions }
        ensures* writes_back { sem 𝓛 (LendsPositions self.entry result) }
        ensures value { Some result.now ≡ self.old.positions }
        ensures as_many { length result.now ≡ len self.old }
    {
        &mut self.pos
    }
}
