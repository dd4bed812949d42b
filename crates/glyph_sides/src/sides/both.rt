//! Both sides as one list: merges and glyph flags of a range of it, and deletion of the current glyph.

ghost use Rattle.std.specs.Prelude.{◌≡◌, ◌+◌, ◌-◌, ◌<◌, ◌≤◌, true, false, length, drop};
ghost use Rattle.glyph_lists.specs.ClusterOrder.{is_any};
ghost use Rattle.glyph_lists.specs.Clusters.{run_merge};
ghost use Rattle.glyph_lists.specs.Deletion.{merge_or_mark};
ghost use Rattle.glyph_lists.specs.Parts.{on_part};
ghost use Rattle.glyph_lists.specs.RangeChange.{changed};
ghost use Rattle.glyph_lists.specs.Scans.{scan_of};
ghost use Rattle.glyph_sides.specs.TwoLists.{both, with_both, input_place, len, input_merged, head_deleted};

use super::Sides;
use crate::one_slice;
use glyph_lists::cluster_order::ClusterOrder;
use glyph_lists::range_change::{self, RangeChange};
use glyph_lists::{deletion, glyph_flags, merging};

impl Sides {
    /// Merges the input's glyphs from `start` to `end`, counted from its start, or in any order of clusters marks them. With
    /// an output open, `start` is at the cursor or after it. With none the range is not widened past the cursor.
    #[inline(always)]
    pub fn merge_input(&mut self, start: usize, end: usize, order: ClusterOrder)
        requires from_cursor { self.old.is_open ≡ true → self.old.idx ≤ start }
        requires range { start ≤ end }
        requires within { end ≤ len self.old }
        ensures is { self.new ≡ input_merged (is_any order) start end self.old }
        ensures out_len { length self.new.out ≡ length self.old.out }
        ensures input_len { length self.new.input ≡ length self.old.input }
    {
        if !self.is_open {
            self.merge_list(start, end, order);
            return;
        }
        let at = self.cursor;
        let from = self.front + start - at;
        let to = self.front + end - at;
        if self.is_separate {
            merging::merge_input(&mut self.out_info, &mut self.info[at..], from, to, order);
            return;
        }
        one_slice::merge_input(&mut self.info, at - self.gap..at, from, to, order);
    }

    /// Merges, or marks, the glyphs of the list from `start` to `end`. Requires that no output is open.
    #[inline(always)]
    fn merge_list(&mut self, start: usize, end: usize, order: ClusterOrder)
        requires closed { self.old.is_open ≡ false }
        requires range { start ≤ end }
        requires within { end ≤ length self.old.input }
        ensures { self.new ≡ record self.old {
          input = merge_or_mark (is_any order) self.old.input start end self.old.idx;
        } }
    {
        merging::merge_slice(&mut self.info, start, end, self.cursor, order);
    }

    /// Merges the glyphs of the out side from `start` to `end`. Requires an open output.
    #[inline(always)]
    pub fn merge_out(&mut self, start: usize, end: usize)
        requires opened { self.old.is_open ≡ true }
        requires range { start ≤ end }
        requires within { end ≤ length self.old.out }
        ensures is { self.new ≡ with_both (run_merge (both self.old) start end 0) self.old }
        ensures out_len { length self.new.out ≡ length self.old.out }
        ensures input_len { length self.new.input ≡ length self.old.input }
    {
        let at = self.cursor;
        if self.is_separate {
            merging::merge_out(&mut self.out_info, &mut self.info[at..], start, end);
            return;
        }
        one_slice::merge_out(&mut self.info, at - self.gap..at, start, end);
    }

    /// Changes the glyph flags of the glyphs from place `from` to place `to`, which is in the input.
    #[inline(always)]
    pub fn change_range(&mut self, from: usize, to: usize, change: RangeChange)
        requires past_out { length self.old.out ≤ to }
        requires range { from ≤ to }
        requires within { to ≤ length (both self.old) }
        ensures is { self.new ≡ with_both
            (changed change (length self.old.out) (both self.old) from to) self.old }
        ensures out_len { length self.new.out ≡ length self.old.out }
        ensures input_len { length self.new.input ≡ length self.old.input }
    {
        let at = if self.is_open { self.cursor } else { 0 };
        if self.is_separate {
            let input = &mut self.info[at..];
            range_change::change(&mut self.out_info, input, from, to, change);
            return;
        }
        one_slice::change(&mut self.info, at - self.gap..at, from, to, change);
    }

    /// Scans the input's glyphs from `start` to `end`, counted from its start. With an output open, `start` is at the
    /// cursor or after it. The range lies in the one slice, whatever stands on the out side.
    #[inline(always)]
    pub fn scan_input(&mut self, start: usize, end: usize, bits: u32, order: ClusterOrder)
        requires from_cursor { self.old.is_open ≡ true → self.old.idx ≤ start }
        requires range { start ≤ end }
        requires within { end ≤ len self.old }
        ensures is { self.new ≡ record self.old {
          input = on_part (scan_of (is_any order) bits) self.old.input
              (input_place start self.old) (input_place end self.old);
        } }
        ensures out_len { length self.new.out ≡ length self.old.out }
        ensures input_len { length self.new.input ≡ length self.old.input }
    {
        let from = self.front + start;
        let to = self.front + end;
        glyph_flags::scan_slice(&mut self.info[from..to], bits, order);
    }

    /// Drops the current glyph, and keeps its cluster. Requires an open output, and a glyph at the cursor.
    #[inline(always)]
    pub fn delete_head(&mut self, order: ClusterOrder)
        requires opened { self.old.is_open ≡ true }
        requires glyph { 0 < length self.old.input }
        ensures is { self.new ≡ head_deleted (is_any order) self.old }
        ensures out_len { length self.new.out ≡ length self.old.out }
        ensures input_len { length self.new.input + 1 ≡ length self.old.input }
    {
        if self.is_separate {
            let at = self.cursor;
            deletion::keep_cluster(&mut self.out_info, &mut self.info[at..], order);
            self.cursor += 1;
            return;
        }
        let (gap, cursor) = (self.gap, self.cursor);
        one_slice::keep_cluster(&mut self.info, cursor - gap..cursor, order);
        self.gap = gap + 1;
        self.cursor = cursor + 1;
    }
}
