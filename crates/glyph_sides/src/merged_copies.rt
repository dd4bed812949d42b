//! Glyphs that give way to copies of their first one, once they are merged.

ghost use Rattle.std.specs.Prelude.{◌≡◌, ◌+◌, ◌-◌, ◌<◌, ◌≤◌, ◌++◌, length, take, drop, vec_capacity};
ghost use Rattle.std.specs.Prelude.{slice_index_or};
ghost use Rattle.glyph_lists.specs.ClusterOrder.{is_any};
ghost use Rattle.glyph_lists.specs.Clusters.{zero_glyph};
ghost use Rattle.glyph_lists.specs.MergedHead.{front_merged};
ghost use Rattle.glyph_lists.specs.Replacement.{copies};

use crate::copies::{append_copies, write_copies};
use crate::one_slice;
use glyph_lists::cluster_order::ClusterOrder;
use glyph_lists::merging::merge_input;
use rb_glyph::hb_glyph_info_t;
use std::ops::Range;

/// Merges, or marks, the first `count` glyphs of the input, and puts copies of the first of them as it then stands after
/// `out`, where there is room.
pub(crate) fn append_merged(
    out: &mut Vec<hb_glyph_info_t>,
    input: &mut [hb_glyph_info_t],
    count: usize,
    ids: &[u32],
    order: ClusterOrder,
)
    requires glyph { 0 < length input.old }
    requires within { count ≤ length input.old }
    requires room { length out.old.items + length ids.now ≤ vec_capacity out.old }
    ensures out { let l = front_merged (is_any order) count out.old.items input.old in
        out.new.items ≡ take (length out.old.items) l
        ++ copies (slice_index_or (drop (length out.old.items) l) 0 zero_glyph) ids.now }
    ensures input { input.new ≡ drop (length out.old.items)
        (front_merged (is_any order) count out.old.items input.old) }
    ensures capacity { vec_capacity out.new ≡ vec_capacity out.old }
{
    merge_input(out, input, 0, count, order);
    append_copies(out, input[0], ids);
}

/// Does the same where both sides lie in one slice, the places of `gap` between them, and the copies have room there.
pub(crate) fn write_merged(
    info: &mut [hb_glyph_info_t],
    gap: Range<usize>,
    count: usize,
    ids: &[u32],
    order: ClusterOrder,
)
    requires gap { gap.start ≤ gap.end }
    requires glyph { gap.end < length info.old }
    requires within { count ≤ length info.old - gap.end }
    requires room { gap.start + length ids.now ≤ gap.end + count }
    ensures out { let k = gap.start in
        let l = front_merged (is_any order) count (take k info.old) (drop gap.end info.old) in
        take (k + length ids.now) info.new
        ≡ take k l ++ copies (slice_index_or (drop k l) 0 zero_glyph) ids.now }
    ensures input { drop (gap.end + count) info.new ≡ drop count (drop gap.start
        (front_merged (is_any order) count (take gap.start info.old) (drop gap.end info.old))) }
{
    let (placed, cursor) = (gap.start, gap.end);
    one_slice::merge_input(info, gap, 0, count, order);
    let glyph = info[cursor];
    write_copies(info, placed, glyph, ids);
}
