//! Several glyphs give way to copies of the first.

ghost use Rattle.std.specs.Prelude.{◌≡◌, ◌+◌, ◌<◌, ◌≤◌, true, false, length, OnOk};
ghost use Rattle.glyph_lists.specs.ClusterOrder.{is_any};
ghost use Rattle.glyph_lists.specs.Replacement.{copies};
ghost use Rattle.glyph_sides.specs.TwoLists as lists;
ghost use Rattle.glyph_sides.specs.TwoLists.{Makes, len, replaced};

use super::Sides;
use crate::copies::{append_copies, write_copies};
use crate::merged_copies::{append_merged, write_merged};
use crate::shifts::leave;
use glyph_lists::cluster_order::ClusterOrder;
use glyph_lists::merged_head::{keeps_head, lowered_head};
use rb_glyph::hb_glyph_info_t;
use std::alloc::AllocError;

impl Sides {
    /// Puts copies of the current glyph out in place of the first `count` glyphs of the input, one under each id, where
    /// the merge of these glyphs leaves it as it is and the copies have room. Answers whether it did: else nothing
    /// changes. The out side then holds at most `max_len` glyphs: in place it has no more than were read. Requires an
    /// open output, a glyph at the cursor and as many glyphs there, and that neither side holds more than `max_len`.
    #[inline(always)]
    pub fn replace_kept(
        &mut self,
        count: usize,
        ids: &[u32],
        order: ClusterOrder,
        max_len: usize,
    ) -> bool
        requires opened { self.old.is_open ≡ true }
        requires glyph { 0 < length self.old.input }
        requires within { count ≤ length self.old.input }
        requires out { length self.old.out ≤ max_len }
        requires input { len self.old ≤ max_len }
        ensures done { result ≡ true → self.new ≡ replaced (is_any order) count ids.now self.old }
        ensures out_len { result ≡ true
            → length self.new.out ≡ length self.old.out + length ids.now }
        ensures input_len { result ≡ true
            → length self.new.input + count ≡ length self.old.input }
        ensures fits { result ≡ true → length self.old.out + length ids.now ≤ max_len }
        ensures unmarked { result ≡ true → is_any order ≡ true → count < 2 }
        ensures same { result ≡ false → self.new ≡ self.old }
    {
        // Read before the test, the glyph is kept in one piece for the copies.
        let head = self.info[self.cursor];
        if !keeps_head(&self.info[self.cursor..], count, order) {
            return false;
        }
        if self.is_separate && ids.len() > max_len - self.out_info.len() {
            return false;
        }
        self.put_copies(head, ids, count)
    }

    /// Puts a copy of a glyph out under each id, where they have room, and reads some. Answers whether it did: else
    /// nothing changes.
    #[inline(always)]
    fn put_copies(&mut self, glyph: hb_glyph_info_t, ids: &[u32], read: usize) -> bool
        requires opened { self.old.is_open ≡ true }
        requires within { read ≤ length self.old.input }
        ensures done { result ≡ true
            → self.new ≡ lists.put (copies glyph ids.now) (lists.skip read self.old) }
        ensures in_place { result ≡ true → self.old.is_separate ≡ false
            → length self.old.out + length ids.now ≤ self.old.idx + read }
        ensures same { result ≡ false → self.new ≡ self.old }
    {
        if self.is_separate {
            if self.out_info.len() + ids.len() > self.out_info.capacity() {
                return false;
            }
            append_copies(&mut self.out_info, glyph, ids);
            self.cursor += read;
            return true;
        }
        let (gap, cursor) = (self.gap, self.cursor);
        if ids.len() > gap + read {
            return false;
        }
        write_copies(&mut self.info, cursor - gap, glyph, ids);
        self.gap = gap + read - ids.len();
        self.cursor = cursor + read;
        true
    }

    /// Merges, or marks, the first `count` glyphs of the input, and puts out copies of the first as it then stands in
    /// place of them, one under each id. Requires an open output, a glyph at the cursor and as many glyphs there.
    #[tactic(auto, using(crate::proofs::ReplacementLemmas::lengths))]
    pub fn replace(
        &mut self,
        count: usize,
        ids: &[u32],
        order: ClusterOrder,
    ) -> Result<(), AllocError>
        requires opened { self.old.is_open ≡ true }
        requires glyph { 0 < length self.old.input }
        requires within { count ≤ length self.old.input }
        ensures made { Makes (replaced (is_any order) count ids.now self.old) self.old result self.new }
        ensures out_len { OnOk result
            (length self.new.out ≡ length self.old.out + length ids.now) }
        ensures input_len { OnOk result
            (length self.new.input + count ≡ length self.old.input) }
    {
        if let Some(head) = lowered_head(self.out(), self.input(), count, order)
            && self.put_copies(head, ids, count)
        {
            return Ok(());
        }
        self.replace_merged(count, ids, order)
    }

    /// Replaces as `replace` does, whatever the merge changes.
    fn replace_merged(
        &mut self,
        count: usize,
        ids: &[u32],
        order: ClusterOrder,
    ) -> Result<(), AllocError>
        requires opened { self.old.is_open ≡ true }
        requires glyph { 0 < length self.old.input }
        requires within { count ≤ length self.old.input }
        ensures { Makes (replaced (is_any order) count ids.now self.old) self.old result self.new }
    {
        if self.is_separate || ids.len() > self.gap + count {
            return self.replace_separate(count, ids, order);
        }
        self.replace_in_place(count, ids, order);
        Ok(())
    }

    fn replace_separate(
        &mut self,
        count: usize,
        ids: &[u32],
        order: ClusterOrder,
    ) -> Result<(), AllocError>
        requires opened { self.old.is_open ≡ true }
        requires glyph { 0 < length self.old.input }
        requires within { count ≤ length self.old.input }
        requires separate { self.old.is_separate ≡ false
            → self.old.idx + count < length self.old.out + length ids.now }
        ensures { Makes (replaced (is_any order) count ids.now self.old) self.old result self.new }
    {
        let at = self.cursor;
        let placed = if self.is_separate { 0 } else { at - self.gap };
        leave(&mut self.out_info, &self.info[..placed], ids.len())?;
        append_merged(&mut self.out_info, &mut self.info[at..], count, ids, order);
        self.gap = 0;
        self.is_separate = true;
        self.cursor = at + count;
        Ok(())
    }

    fn replace_in_place(&mut self, count: usize, ids: &[u32], order: ClusterOrder)
        requires opened { self.old.is_open ≡ true }
        requires in_place { self.old.is_separate ≡ false }
        requires glyph { 0 < length self.old.input }
        requires within { count ≤ length self.old.input }
        requires room { length self.old.out + length ids.now ≤ self.old.idx + count }
        ensures { self.new ≡ replaced (is_any order) count ids.now self.old }
    {
        let (gap, cursor) = (self.gap, self.cursor);
        write_merged(&mut self.info, cursor - gap..cursor, count, ids, order);
        self.gap = gap + count - ids.len();
        self.cursor = cursor + count;
    }
}
