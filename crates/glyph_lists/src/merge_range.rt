//! The range of glyphs that a merge changes, found by reading little more than that range.

ghost use Rattle.std.specs.Prelude.{◌≡◌, ◌+◌, ◌-◌, ◌<◌, ◌≤◌, ◌++◌, length, slice_index};
ghost use Rattle.glyph_lists.specs.ClusterReads.{both_clusters, FewReads, SameLists};
ghost use Rattle.glyph_lists.specs.Clusters.{range_least, run_start, run_end, widened_start, widened_end};
ghost use Rattle.glyph_lists.specs.Clusters.{run_merge};
ghost use Rattle.glyph_lists.specs.PairChange.{pair_changed};
ghost use Rattle.glyph_lists.specs.declared.merge_range.PairChange.TheVariants.{Run};

use crate::cluster_reads::ClusterReads;

/// The least cluster of a range of two glyphs or more, of which the first and the last were read.
#[inline(always)]
#[tactic(auto, using(crate::proofs::MergeRangeLemmas::walks))]
fn least_cluster(reads: &mut ClusterReads, start: usize, end: usize, first: u32, last: u32) -> u32
    requires some { start + 2 ≤ end }
    requires within { end ≤ length (both_clusters reads.old) }
    requires first { first ≡ slice_index (both_clusters reads.old) start }
    requires last { last ≡ slice_index (both_clusters reads.old) (end - 1) }
    requires few { FewReads reads.old }
    ensures is { result ≡ range_least (both_clusters reads.old) start end }
    ensures same { SameLists reads.old reads.new }
    ensures cost { reads.new.reads ≡ reads.old.reads + (end - 2 - start) }
{
    let mut least = first;
    for i in start + 1..end - 1 {
        least = least.min(reads.cluster(i));
    }
    least.min(last)
}

/// Where the run of `cluster` begins that ends before `end`, not below `floor`.
#[inline(always)]
#[tactic(auto, using(crate::proofs::RunsLemmas::walks))]
fn run_start_before(reads: &mut ClusterReads, cluster: u32, floor: usize, end: usize) -> usize
    requires within { end ≤ length (both_clusters reads.old) }
    requires few { FewReads reads.old }
    ensures is { result ≡ run_start (both_clusters reads.old) cluster floor end }
    ensures below { result ≤ end }
    ensures same { SameLists reads.old reads.new }
    ensures cost { reads.new.reads ≤ reads.old.reads + (end - result) + 1 }
{
    let mut start = end;
    while start > floor && reads.cluster(start - 1) == cluster {
        start -= 1;
    }
    start
}

/// Where the run of `cluster` ends that begins at `start`.
#[inline(always)]
#[tactic(auto, using(crate::proofs::RunsLemmas::walks))]
fn run_end_after(reads: &mut ClusterReads, cluster: u32, start: usize) -> usize
    requires within { start ≤ length (both_clusters reads.old) }
    requires few { FewReads reads.old }
    ensures is { result ≡ run_end (both_clusters reads.old) cluster start }
    ensures above { start ≤ result }
    ensures range_within { result ≤ length (both_clusters reads.old) }
    ensures same { SameLists reads.old reads.new }
    ensures cost { reads.new.reads ≤ reads.old.reads + (result - start) + 1 }
{
    let len = reads.len();
    let mut end = start;
    while end < len && reads.cluster(end) == cluster {
        end += 1;
    }
    end
}

/// The least cluster of the range from `start` to `end` of two lists as one, and the range widened through the runs at
/// its ends: its start, not below `floor`, and its end, which is not in it. It reads no more clusters than the widened
/// range has, and two.
#[inline(always)]
#[tactic(auto, using(crate::proofs::RunsLemmas::widenings))]
pub fn merge_range(
    reads: &mut ClusterReads,
    start: usize,
    end: usize,
    floor: usize,
) -> (u32, usize, usize)
    requires fresh { reads.old.reads ≡ 0 }
    requires some { start + 2 ≤ end }
    requires within { end ≤ length reads.old.out + length reads.old.input }
    ensures least { result.0 ≡ range_least (both_clusters reads.old) start end }
    ensures from { result.1 ≡ widened_start (both_clusters reads.old) start end floor }
    ensures to { result.2 ≡ widened_end (both_clusters reads.old) start end }
    ensures below { result.1 ≤ start }
    ensures above { end ≤ result.2 }
    ensures range_within { result.2 ≤ length reads.old.out + length reads.old.input }
    ensures same { SameLists reads.old reads.new }
    ensures cost { reads.new.reads ≤ result.2 - result.1 + 2 }
{
    let first = reads.cluster(start);
    let last = reads.cluster(end - 1);
    let least = least_cluster(reads, start, end, first, last);
    // Of two glyphs one is the least, so that a merge of two walks one run in either branch.
    if last == least {
        let from = if first == least {
            start
        } else {
            run_start_before(reads, first, floor, start)
        };
        return (least, from, end);
    }
    let to = run_end_after(reads, last, end);
    let from = if first == least {
        start
    } else {
        run_start_before(reads, first, floor, start)
    };
    (least, from, to)
}

/// What a merge of two glyphs changes.
#[derive(Clone, Copy, PartialEq, Eq)]
pub enum PairChange {
    /// Nothing: they share a cluster.
    Nothing,
    /// The second alone goes to this cluster.
    Second(u32),
    /// The first alone goes to this cluster.
    First(u32),
    /// A run of several goes to the cluster of the other glyph.
    Run,
}

/// What a merge of the two glyphs from `start` to `end` changes, the range not widened below `floor`. It is a run only
/// where the widened range has a third glyph. It reads three clusters at most.
#[inline(always)]
#[tactic(auto, using(crate::proofs::RunMergeLemmas::merges_of_two))]
pub fn pair_change(reads: &mut ClusterReads, start: usize, end: usize, floor: usize) -> PairChange
    requires fresh { reads.old.reads ≡ 0 }
    requires pair { end ≡ start + 2 }
    requires within { end ≤ length (reads.old.out ++ reads.old.input) }
    ensures is { run_merge (reads.old.out ++ reads.old.input) start end floor
        ≡ pair_changed result start floor (reads.old.out ++ reads.old.input) }
    ensures several { result ≡ Run → widened_start (both_clusters reads.old) start end floor + 2
        < widened_end (both_clusters reads.old) start end }
    ensures same { SameLists reads.old reads.new }
    ensures cost { reads.new.reads ≤ 3 }
{
    let first = reads.cluster(start);
    let second = reads.cluster(end - 1);
    if first < second {
        if end >= reads.len() || reads.cluster(end) != second {
            return PairChange::Second(first);
        }
        return PairChange::Run;
    }
    if second < first {
        if start <= floor || reads.cluster(start - 1) != first {
            return PairChange::First(second);
        }
        return PairChange::Run;
    }
    PairChange::Nothing
}
