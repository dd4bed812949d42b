//! A glyph that leaves the input, and its cluster, which is kept where it is lower than its neighbour's.

ghost use Rattle.std.specs.Prelude.{◌≡◌, ◌<◌, ◌≤◌, ◌==◌, ◌&&◌, length, drop};
ghost use Rattle.std.specs.Prelude.{slice_index_or};
ghost use Rattle.glyph_lists.specs.ClusterOrder.{is_any};
ghost use Rattle.glyph_lists.specs.Clusters.{clusters, run_start, zero_glyph};
ghost use Rattle.glyph_lists.specs.Deletion.{begins_with, is_not_empty, last_cluster, has_neighbour_in, lowers_run};
ghost use Rattle.glyph_lists.specs.Deletion.{merges_next, with_trailing_run, deletion};

use crate::cluster_order::ClusterOrder;
use crate::clusters::set_range;
use crate::merging::merge_input;
use rb_glyph::hb_glyph_info_t;

/// Whether the first glyph is in the cluster.
#[inline]
#[tactic(auto, using(crate::proofs::DeletionCases::neighbours))]
fn first_is_in(info: &[hb_glyph_info_t], cluster: u32) -> bool
    ensures { result ≡ begins_with cluster info.now }
{
    !info.is_empty() && info[0].cluster == cluster
}

/// Whether the last glyph is in the cluster.
#[inline]
#[tactic(auto, using(crate::proofs::DeletionCases::neighbours))]
fn last_is_in(info: &[hb_glyph_info_t], cluster: u32) -> bool
    ensures { result ≡ (is_not_empty info.now && (last_cluster info.now == cluster)) }
{
    !info.is_empty() && info[info.len() - 1].cluster == cluster
}

/// Whether a neighbour on either side has the cluster of the first glyph of the input.
#[inline]
fn has_neighbour_in_cluster(out: &[hb_glyph_info_t], input: &[hb_glyph_info_t]) -> bool
    requires { 0 < length input.now }
    ensures { result ≡ has_neighbour_in (slice_index_or input.now 0 zero_glyph).cluster
        out.now (drop 1 input.now) }
{
    let cluster = input[0].cluster;
    first_is_in(&input[1..], cluster) || last_is_in(out, cluster)
}

/// Whether the trailing run of `out` takes the cluster of the first glyph of the input before that goes.
#[inline]
#[tactic(auto, using(crate::proofs::DeletionCases::neighbours), unfolding(crate::specs::Deletion::lowers_run))]
fn lowers_run(out: &[hb_glyph_info_t], input: &[hb_glyph_info_t]) -> bool
    requires { 0 < length input.now }
    ensures { result
        ≡ lowers_run out.now (slice_index_or input.now 0 zero_glyph) (drop 1 input.now) }
{
    !has_neighbour_in_cluster(out, input)
        && !out.is_empty()
        && input[0].cluster < out[out.len() - 1].cluster
}

/// Whether the first glyph of the input is merged with the next one before it goes.
#[inline]
#[tactic(auto, using(crate::proofs::DeletionCases::neighbours), unfolding(crate::specs::Deletion::merges_next))]
pub fn merges_next(out: &[hb_glyph_info_t], input: &[hb_glyph_info_t]) -> bool
    requires { 0 < length input.now }
    ensures { result
        ≡ merges_next out.now (slice_index_or input.now 0 zero_glyph) (drop 1 input.now) }
{
    out.is_empty() && input.len() > 1 && !has_neighbour_in_cluster(out, input)
}

/// Where the run of `cluster` begins that ends the list.
#[inline]
#[tactic(auto, using(crate::proofs::RunsLemmas::list_walks))]
fn trailing_run_start(info: &[hb_glyph_info_t], cluster: u32) -> usize
    ensures is { result ≡ run_start (clusters info.now) cluster 0 (length info.now) }
    ensures within { result ≤ length info.now }
{
    let mut start = info.len();
    while start > 0 && info[start - 1].cluster == cluster {
        start -= 1;
    }
    start
}

/// Puts the trailing run into a cluster, with the glyph flags of `mask` where that changes theirs.
#[inline]
#[tactic(auto, using(crate::proofs::DeletionCases::trailing))]
pub fn set_trailing_run(out: &mut [hb_glyph_info_t], cluster: u32, mask: u32)
    requires { 0 < length out.old }
    ensures { out.new ≡ with_trailing_run cluster mask out.old }
{
    let len = out.len();
    let last = out[len - 1].cluster;
    let start = trailing_run_start(out, last);
    set_range(out, start, len, cluster, mask);
}

/// Keeps the cluster of the first glyph of the input, which then leaves it: what stands there afterwards is left open.
#[inline(always)]
#[tactic(auto, using(crate::proofs::DeletionCases::kept))]
pub fn keep_cluster(out: &mut [hb_glyph_info_t], input: &mut [hb_glyph_info_t], order: ClusterOrder)
    requires { 0 < length input.old }
    ensures out { out.new ≡ (deletion (is_any order)
        out.old (slice_index_or input.old 0 zero_glyph) (drop 1 input.old)).out }
    ensures rest { drop 1 input.new ≡ (deletion (is_any order)
        out.old (slice_index_or input.old 0 zero_glyph) (drop 1 input.old)).rest }
{
    // A glyph before it whose cluster is no higher is what most deletions find, and nothing changes then.
    if !out.is_empty() && out[out.len() - 1].cluster <= input[0].cluster {
        return;
    }
    keep_in_neighbour(out, input, order);
}

/// Keeps the cluster of the first glyph of the input as `keep_cluster` does, whatever stands before it. It stands out of
/// line, as most deletions need no more than one test.
#[inline(never)]
#[tactic(auto, using(crate::proofs::DeletionCases::cases))]
fn keep_in_neighbour(
    out: &mut [hb_glyph_info_t],
    input: &mut [hb_glyph_info_t],
    order: ClusterOrder,
)
    requires { 0 < length input.old }
    ensures out { out.new ≡ (deletion (is_any order)
        out.old (slice_index_or input.old 0 zero_glyph) (drop 1 input.old)).out }
    ensures rest { drop 1 input.new ≡ (deletion (is_any order)
        out.old (slice_index_or input.old 0 zero_glyph) (drop 1 input.old)).rest }
{
    let head = input[0];
    if lowers_run(out, input) {
        set_trailing_run(out, head.cluster, head.mask);
        return;
    }
    if merges_next(out, input) {
        merge_input(out, input, 0, 2, order);
    }
}
