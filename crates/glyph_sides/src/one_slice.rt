//! Merges, glyph flags and deletion where both sides lie in one slice: the out side before the places of `gap`, which stand
//! free, and the input behind them. No glyph of one side is read as one of the other.

ghost use Rattle.std.specs.Prelude.{◌≡◌, ◌+◌, ◌-◌, ◌<◌, ◌≤◌, ◌++◌, length, take, drop, slice_index_or};
ghost use Rattle.glyph_lists.specs.ClusterOrder.{is_any};
ghost use Rattle.glyph_lists.specs.Clusters.{run_merge, zero_glyph};
ghost use Rattle.glyph_lists.specs.Deletion.{deletion, merge_or_mark};
ghost use Rattle.glyph_lists.specs.RangeChange.{changed};

use glyph_lists::cluster_order::ClusterOrder;
use glyph_lists::range_change::{self, RangeChange};
use glyph_lists::{deletion, merging};
use rb_glyph::hb_glyph_info_t;
use std::ops::Range;

/// Merges, or marks, the glyphs of the input from `start` to `end`, as `merging::merge_input` does.
#[inline(always)]
pub(crate) fn merge_input(
    info: &mut [hb_glyph_info_t],
    gap: Range<usize>,
    start: usize,
    end: usize,
    order: ClusterOrder,
)
    requires gap { gap.start ≤ gap.end }
    requires gap_within { gap.end ≤ length info.old }
    requires range { start ≤ end }
    requires within { end ≤ length info.old - gap.end }
    ensures out { take gap.start info.new ≡ take gap.start (merge_or_mark (is_any order)
        (take gap.start info.old ++ drop gap.end info.old) (gap.start + start) (gap.start + end) 0) }
    ensures input { drop gap.end info.new ≡ drop gap.start (merge_or_mark (is_any order)
        (take gap.start info.old ++ drop gap.end info.old) (gap.start + start) (gap.start + end) 0) }
{
    let (front, input) = info.split_at_mut(gap.end);
    merging::merge_input(&mut front[..gap.start], input, start, end, order);
}

/// Merges the glyphs of the out side from `start` to `end`, as `merging::merge_out` does.
#[inline(always)]
pub(crate) fn merge_out(info: &mut [hb_glyph_info_t], gap: Range<usize>, start: usize, end: usize)
    requires gap { gap.start ≤ gap.end }
    requires gap_within { gap.end ≤ length info.old }
    requires range { start ≤ end }
    requires within { end ≤ gap.start }
    ensures out { take gap.start info.new ≡ take gap.start
        (run_merge (take gap.start info.old ++ drop gap.end info.old) start end 0) }
    ensures input { drop gap.end info.new ≡ drop gap.start
        (run_merge (take gap.start info.old ++ drop gap.end info.old) start end 0) }
{
    let (front, input) = info.split_at_mut(gap.end);
    merging::merge_out(&mut front[..gap.start], input, start, end);
}

/// Changes the glyphs from `start` to `end` of the two sides as one list, as `range_change::change` does.
#[inline(always)]
pub(crate) fn change(
    info: &mut [hb_glyph_info_t],
    gap: Range<usize>,
    start: usize,
    end: usize,
    change: RangeChange,
)
    requires gap { gap.start ≤ gap.end }
    requires gap_within { gap.end ≤ length info.old }
    requires past_out { gap.start ≤ end }
    requires range { start ≤ end }
    requires within { end ≤ gap.start + (length info.old - gap.end) }
    ensures out { take gap.start info.new ≡ take gap.start
        (changed change gap.start (take gap.start info.old ++ drop gap.end info.old) start end) }
    ensures input { drop gap.end info.new ≡ drop gap.start
        (changed change gap.start (take gap.start info.old ++ drop gap.end info.old) start end) }
{
    let (front, input) = info.split_at_mut(gap.end);
    range_change::change(&mut front[..gap.start], input, start, end, change);
}

/// Keeps the cluster of the first glyph of the input, which then leaves it, as `deletion::keep_cluster` does.
#[inline(always)]
pub(crate) fn keep_cluster(info: &mut [hb_glyph_info_t], gap: Range<usize>, order: ClusterOrder)
    requires gap { gap.start ≤ gap.end }
    requires glyph { gap.end < length info.old }
    ensures out { take gap.start info.new ≡ (deletion (is_any order) (take gap.start info.old)
        (slice_index_or (drop gap.end info.old) 0 zero_glyph)
        (drop 1 (drop gap.end info.old))).out }
    ensures rest { drop (gap.end + 1) info.new ≡ (deletion (is_any order) (take gap.start info.old)
        (slice_index_or (drop gap.end info.old) 0 zero_glyph)
        (drop 1 (drop gap.end info.old))).rest }
{
    let (front, input) = info.split_at_mut(gap.end);
    deletion::keep_cluster(&mut front[..gap.start], input, order);
}
