//! The current glyph after a merge that changes no glyph behind it: mostly there is no need to write the others.

ghost use Rattle.std.specs.Prelude.{◌≡◌, ◌≢◌, ◌+◌, ◌-◌, ◌<◌, ◌≤◌, ◌++◌, [], true, false, List, length, slice_index};
ghost use Rattle.std.specs.Prelude.{slice_index_or, IfSome};
ghost use Rattle.glyph_lists.specs.ClusterOrder.{is_any};
ghost use Rattle.glyph_lists.specs.ClusterReads.{both_clusters, SameLists};
ghost use Rattle.glyph_lists.specs.Clusters.{zero_glyph};
ghost use Rattle.glyph_lists.specs.MergedHead.{LeavesHead};

use crate::cluster_order::ClusterOrder;
use crate::cluster_reads::ClusterReads;
use crate::clusters::set_cluster;
use rb_glyph::hb_glyph_info_t;

/// Whether the merge of the first two glyphs of the input leaves the first as it is, and all others that stay: its
/// cluster is not the higher one, and that of the second, where it is, goes on in no run behind it. It reads three
/// clusters at most, fewer than the merge may.
#[inline(always)]
fn pair_keeps_head(reads: &mut ClusterReads) -> bool
    requires fresh { reads.old.reads ≡ 0 }
    requires input_alone { reads.old.out ≡ [] }
    requires pair { 2 ≤ length reads.old.input }
    ensures keeps { result ≡ true → (out : List hb_glyph_info_t)
        → LeavesHead false 2 out reads.old.input (slice_index_or reads.old.input 0 zero_glyph) }
    ensures same { SameLists reads.old reads.new }
    ensures cost { reads.new.reads ≤ 3 }
{
    let head = reads.cluster(0);
    let next = reads.cluster(1);
    if head < next {
        return reads.len() == 2 || reads.cluster(2) != next;
    }
    head == next
}

/// Whether the merge of the first `count` glyphs of the input leaves the first as it is, and all others that stay, and
/// marks nothing. It says so of at most two glyphs.
#[inline(always)]
pub fn keeps_head(input: &[hb_glyph_info_t], count: usize, order: ClusterOrder) -> bool
    requires { count ≤ length input.now }
    ensures { result ≡ true → (out : List hb_glyph_info_t)
        → LeavesHead (is_any order) count out input.now (slice_index_or input.now 0 zero_glyph) }
{
    if count < 2 {
        return true;
    }
    count == 2 && !order.is_any() && pair_keeps_head(&mut ClusterReads::new(&[], input))
}

/// Whether the merge of the two glyphs from `at` on lowers the first and no glyph before it: its cluster is the higher
/// one, and no run of it ends before it. It reads three clusters at most, fewer than the merge may.
#[inline(always)]
fn pair_lowers_head(reads: &mut ClusterReads, at: usize) -> bool
    requires fresh { reads.old.reads ≡ 0 }
    requires within { at ≤ length reads.old.out + length reads.old.input }
    ensures falls { result ≡ true → slice_index (both_clusters reads.old) (at + 1)
        < slice_index (both_clusters reads.old) at }
    ensures begins { result ≡ true → 0 < at → slice_index (both_clusters reads.old) (at - 1)
        ≢ slice_index (both_clusters reads.old) at }
    ensures same { SameLists reads.old reads.new }
    ensures cost { reads.new.reads ≤ 3 }
{
    if reads.len() - at < 2 {
        return false;
    }
    let head = reads.cluster(at);
    reads.cluster(at + 1) < head && (at == 0 || reads.cluster(at - 1) != head)
}

/// The current glyph as the merge of the input's first two glyphs lowers it. `None` where it does not, where the run of
/// the first goes on into `out`, where it marks, and of other counts.
#[inline(always)]
pub fn lowered_head(
    out: &[hb_glyph_info_t],
    input: &[hb_glyph_info_t],
    count: usize,
    order: ClusterOrder,
) -> Option<hb_glyph_info_t>
    requires { count ≤ length input.now }
    ensures { IfSome result (LeavesHead (is_any order) count out.now input.now) }
{
    if count != 2 || order.is_any() {
        return None;
    }
    let mut reads = ClusterReads::new(out, input);
    if !pair_lowers_head(&mut reads, out.len()) {
        return None;
    }
    let mut head = input[0];
    set_cluster(&mut head, input[1].cluster, 0);
    Some(head)
}
