//! Merges: glyphs of several clusters become one cluster, or in any order of clusters are marked instead.

ghost use Rattle.std.specs.Prelude.{◌≡◌, ◌+◌, ◌<◌, ◌≤◌, ◌++◌, true, false, length, take, drop};
ghost use Rattle.glyph_lists.specs.ClusterOrder.{is_any};
ghost use Rattle.glyph_lists.specs.Clusters.{clusters, run_merge, NoRunCrosses};
ghost use Rattle.glyph_lists.specs.Deletion.{merge_or_mark};
ghost use Rattle.glyph_lists.specs.Marks.{mark};
ghost use Rattle.glyph_lists.specs.Parts.{on_part};

use crate::cluster_order::ClusterOrder;
use crate::cluster_reads::ClusterReads;
use crate::clusters::{set_cluster, set_range, set_sides};
use crate::glyph_flags::{BREAK_BITS, scan_slice};
use crate::merge_range::{PairChange, merge_range, pair_change};
use rb_glyph::hb_glyph_info_t;

/// Merges the glyphs from `start` to `end` of one list. It stands out of line, as most merges are of two glyphs.
#[inline(never)]
#[tactic(auto, using(crate::proofs::RunMergeLemmas::map_range_is_run_merge))]
fn merge_many(info: &mut [hb_glyph_info_t], start: usize, end: usize, floor: usize)
    requires some { start + 2 ≤ end }
    requires within { end ≤ length info.old }
    ensures { info.new ≡ run_merge info.old start end floor }
{
    let whole = &info[..];
    let mut reads = ClusterReads::new(&[], whole);
    let (cluster, from, to) = merge_range(&mut reads, start, end, floor);
    set_range(info, from, to, cluster, 0);
}

/// Merges the two glyphs from `start` on. Mostly one of them changes, and no other glyph.
#[inline(always)]
fn merge_two(info: &mut [hb_glyph_info_t], start: usize, floor: usize)
    requires within { start + 2 ≤ length info.old }
    ensures { info.new ≡ run_merge info.old start (start + 2) floor }
{
    let whole = &info[..];
    let mut reads = ClusterReads::new(&[], whole);
    match pair_change(&mut reads, start, start + 2, floor) {
        PairChange::Nothing => {}
        PairChange::Second(cluster) => set_cluster(&mut info[start + 1], cluster, 0),
        PairChange::First(cluster) => set_cluster(&mut info[start], cluster, 0),
        PairChange::Run => merge_many(info, start, start + 2, floor),
    }
}

/// Marks the glyphs from `start` to `end` that a merge would put into another cluster.
#[inline(never)]
#[tactic(auto, unfolding(crate::specs::Scans::scan_of))]
fn mark_instead(info: &mut [hb_glyph_info_t], start: usize, end: usize)
    requires range { start ≤ end }
    requires within { end ≤ length info.old }
    ensures { info.new ≡ on_part (mark BREAK_BITS) info.old start end }
{
    scan_slice(&mut info[start..end], BREAK_BITS, ClusterOrder::Any);
}

/// Merges the glyphs from `start` to `end` of one list, mostly two. The range is widened through the runs at its ends,
/// its start not below `floor`. In any order of clusters those outside the least cluster of the range get both break
/// flags instead, and keep their clusters.
#[inline(always)]
#[tactic(auto, using(crate::proofs::SidesLemmas::merges))]
pub fn merge_slice(
    info: &mut [hb_glyph_info_t],
    start: usize,
    end: usize,
    floor: usize,
    order: ClusterOrder,
)
    requires range { start ≤ end }
    requires within { end ≤ length info.old }
    ensures { info.new ≡ merge_or_mark (is_any order) info.old start end floor }
{
    if end - start < 2 {
        return;
    }
    match order {
        ClusterOrder::Monotone if end - start == 2 => merge_two(info, start, floor),
        ClusterOrder::Monotone => merge_many(info, start, end, floor),
        ClusterOrder::Any => mark_instead(info, start, end),
    }
}

/// Merges the glyphs from `start` to `end` of the two sides as one list, `out` first.
#[inline(never)]
#[tactic(auto, using(crate::proofs::RunMergeLemmas::map_range_is_run_merge))]
fn merge_across(
    out: &mut [hb_glyph_info_t],
    input: &mut [hb_glyph_info_t],
    start: usize,
    end: usize,
)
    requires some { start + 2 ≤ end }
    requires within { end ≤ length out.old + length input.old }
    ensures out { out.new ≡ take (length out.old) (run_merge (out.old ++ input.old) start end 0) }
    ensures input { input.new
        ≡ drop (length out.old) (run_merge (out.old ++ input.old) start end 0) }
{
    let mut reads = ClusterReads::new(out, input);
    let (cluster, from, to) = merge_range(&mut reads, start, end, 0);
    set_sides(out, input, from, to, cluster);
}

/// Whether a run goes on from `out` into `input`.
#[inline(always)]
fn run_crosses(out: &[hb_glyph_info_t], input: &[hb_glyph_info_t]) -> bool
    ensures { result ≡ false → NoRunCrosses (clusters out.now) (clusters input.now) }
{
    !out.is_empty() && !input.is_empty() && out[out.len() - 1].cluster == input[0].cluster
}

/// Merges the glyphs from `start` to `end` of `out`. The run of the last may go on into `input`.
#[inline(never)]
#[tactic(auto, using(crate::proofs::SeamLemmas::seams))]
pub fn merge_out(
    out: &mut [hb_glyph_info_t],
    input: &mut [hb_glyph_info_t],
    start: usize,
    end: usize,
)
    requires range { start ≤ end }
    requires within { end ≤ length out.old }
    ensures out { out.new ≡ take (length out.old) (run_merge (out.old ++ input.old) start end 0) }
    ensures input { input.new
        ≡ drop (length out.old) (run_merge (out.old ++ input.old) start end 0) }
{
    if end - start < 2 {
        return;
    }
    if run_crosses(out, input) {
        merge_across(out, input, start, end);
    } else {
        merge_many(out, start, end, 0);
    }
}

/// Merges, or marks, the glyphs from `start` to `end` of `input` as `merge_slice` does. The run of the first may begin in
/// `out`.
#[inline(never)]
#[tactic(auto, using(crate::proofs::SidesLemmas::merges, crate::proofs::SeamLemmas::seams))]
pub fn merge_input(
    out: &mut [hb_glyph_info_t],
    input: &mut [hb_glyph_info_t],
    start: usize,
    end: usize,
    order: ClusterOrder,
)
    requires range { start ≤ end }
    requires within { end ≤ length input.old }
    ensures out { out.new ≡ take (length out.old) (merge_or_mark (is_any order)
        (out.old ++ input.old) (length out.old + start) (length out.old + end) 0) }
    ensures input { input.new ≡ drop (length out.old) (merge_or_mark (is_any order)
        (out.old ++ input.old) (length out.old + start) (length out.old + end) 0) }
{
    if end - start < 2 {
        return;
    }
    match order {
        ClusterOrder::Any => mark_instead(input, start, end),
        ClusterOrder::Monotone => {
            if run_crosses(out, input) {
                merge_across(out, input, out.len() + start, out.len() + end);
            } else {
                merge_many(input, start, end, 0);
            }
        }
    }
}
