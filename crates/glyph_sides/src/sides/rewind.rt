//! Rewinds: glyphs that were put out are to be read again.

ghost use Rattle.std.specs.Prelude.{◌≡◌, ◌+◌, ◌-◌, ◌<◌, ◌≤◌, true, false, length};
ghost use Rattle.glyph_sides.specs.TwoLists as lists;
ghost use Rattle.glyph_sides.specs.TwoLists.{Makes};

use super::Sides;
use crate::shifts::{open_gap, reserve_ample, shift_up, write_before};
use std::alloc::AllocError;

impl Sides {
    /// Rewinds to place `i`: all but the first `i` glyphs that were put out are to be read again. In place they move up to
    /// the cursor, over themselves if few were dropped; if none was, only the cursor moves. Requires that there are more
    /// than `i`.
    #[inline(always)]
    #[tactic(auto, using(crate::proofs::NoGapLemmas::moves))]
    pub fn rewind(&mut self, i: usize) -> Result<(), AllocError>
        requires { i < length self.old.out }
        ensures { Makes (lists.rewind i self.old) self.old result self.new }
    {
        if self.is_separate {
            return self.rewind_separate(i);
        }
        if self.gap == 0 {
            self.cursor = i;
            return Ok(());
        }
        shift_up(&mut self.info, i, self.cursor - self.gap, self.cursor);
        self.cursor = i + self.gap;
        Ok(())
    }

    /// Does so where the output is separate: the glyphs go into the places before the cursor. If these are too few, the
    /// input first moves up by as many places as it has glyphs, or as come back to it, so that many rewinds cost no more
    /// than the glyphs that they move. Memory is asked for only if the vector lacks room for the missing places; if it
    /// has room for no more than these, the input moves up by these alone.
    fn rewind_separate(&mut self, i: usize) -> Result<(), AllocError>
        requires separate { self.old.is_separate ≡ true }
        requires behind { i < length self.old.out }
        ensures { Makes (lists.rewind i self.old) self.old result self.new }
    {
        let count = self.out_info.len() - i;
        if count > self.cursor {
            let ample = count.max(self.info.len() - self.cursor);
            let more = reserve_ample(&mut self.info, count - self.cursor, ample)?;
            open_gap(&mut self.info, self.cursor, more);
            self.cursor += more;
            write_before(&mut self.info, self.cursor, &self.out_info[i..]);
            self.cursor -= count;
            self.front = self.cursor;
        } else {
            write_before(&mut self.info, self.cursor, &self.out_info[i..]);
            self.cursor -= count;
            self.front = self.front.min(self.cursor);
        }
        self.out_info.truncate(i);
        Ok(())
    }
}
