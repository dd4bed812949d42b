//! Marks glyphs as unsafe to break before.
//!
//! A scan adds bits to the masks of the glyphs that are not in the least cluster of their range. In any order of
//! clusters it reads every cluster. Else it goes by the clusters at the ends, and stops at the first glyph of the
//! least of these.

ghost use Rattle.std.specs.Prelude.{◌≡◌, ◌+◌, ◌-◌, ◌<◌, ◌≤◌, ◌==◌, ◌++◌, not, length, take, drop, map};
ghost use Rattle.std.specs.Prelude.{slice_index, if◌then◌else◌};
ghost use Rattle.std.specs.List.{prefix_len, suffix_len};
ghost use Rattle.glyph_lists.specs.Parts.{map_range};
ghost use Rattle.glyph_lists.specs.ClusterOrder.{is_any};
ghost use Rattle.glyph_lists.specs.Clusters.{clusters, least};
ghost use Rattle.glyph_lists.specs.Marks.{with_glyph_flags, mark, mark_others, mark_part, ends, ends_least};
ghost use Rattle.glyph_lists.specs.Scans.{scan_of, part_scan, scan_least};

use crate::cluster_order::ClusterOrder;
use rb_glyph::{glyph_flag, hb_glyph_info_t};

/// What `unsafe_to_break` adds, and a merge in any order of clusters: what is unsafe to break is unsafe to concatenate.
pub const BREAK_BITS: u32 = glyph_flag::UNSAFE_TO_BREAK | glyph_flag::UNSAFE_TO_CONCAT;

/// A law with no code: these are bit 0, unsafe to break, and bit 1, unsafe to concatenate.
pub fn break_bits_have_their_number()
    ensures { BREAK_BITS ≡ 3 }
{}

/// Adds the bits to the glyph's mask.
#[inline]
#[tactic(auto, unfolding(crate::specs::Marks::with_glyph_flags))]
fn mark(glyph: &mut hb_glyph_info_t, bits: u32)
    ensures { glyph.new ≡ with_glyph_flags bits glyph.old }
{
    glyph.mask |= bits;
}

/// Adds the bits to the glyph's mask, unless it is in the cluster.
#[inline]
fn mark_unless_in(glyph: &mut hb_glyph_info_t, bits: u32, cluster: u32)
    ensures { glyph.new ≡ (if glyph.old.cluster == cluster then glyph.old
        else with_glyph_flags bits glyph.old) }
{
    if glyph.cluster != cluster {
        mark(glyph, bits);
    }
}

/// Adds the bits to the mask of each glyph.
#[inline]
#[tactic(auto, using(crate::proofs::MapLemmas::walks))]
fn mark_all(info: &mut [hb_glyph_info_t], bits: u32)
    ensures { info.new ≡ map (with_glyph_flags bits) info.old }
{
    for glyph in info.iter_mut() {
        mark(glyph, bits);
    }
}

/// Adds the bits to the mask of each glyph from `start` to `end`.
#[inline]
fn mark_slice(info: &mut [hb_glyph_info_t], start: usize, end: usize, bits: u32)
    requires order { start ≤ end }
    requires within { end ≤ length info.old }
    ensures { info.new ≡ map_range (with_glyph_flags bits) info.old start end }
{
    mark_all(&mut info[start..end], bits);
}

/// Adds the bits to the mask of each glyph from `start` to `end` of the two sides as one list, `out` first.
#[inline]
#[tactic(auto, using(crate::proofs::SidesLemmas::sides))]
pub(crate) fn mark_range(
    out: &mut [hb_glyph_info_t],
    input: &mut [hb_glyph_info_t],
    start: usize,
    end: usize,
    bits: u32,
)
    requires order { start ≤ end }
    requires within { end ≤ length out.old + length input.old }
    ensures out { out.new ≡ take (length out.old)
        (map_range (with_glyph_flags bits) (out.old ++ input.old) start end) }
    ensures input { input.new ≡ drop (length out.old)
        (map_range (with_glyph_flags bits) (out.old ++ input.old) start end) }
{
    let len = out.len();
    if start < len {
        mark_slice(out, start, end.min(len), bits);
    }
    if end > len {
        mark_slice(input, start.saturating_sub(len), end - len, bits);
    }
}

/// Adds the bits to the mask of each glyph that is not in the cluster.
#[inline]
#[tactic(auto, using(crate::proofs::MapLemmas::walks))]
fn mark_others(info: &mut [hb_glyph_info_t], bits: u32, cluster: u32)
    ensures { info.new ≡ mark_others bits cluster info.old }
{
    for glyph in info.iter_mut() {
        mark_unless_in(glyph, bits, cluster);
    }
}

/// Adds the bits to the glyphs before the first one of the cluster, from the start on. The last glyph is in the cluster,
/// and is not read.
#[inline]
#[tactic(auto, using(crate::proofs::ScanEndsLemmas::walks_up))]
fn mark_before_first(info: &mut [hb_glyph_info_t], bits: u32, cluster: u32)
    requires some { 0 < length info.old }
    requires last { slice_index (clusters info.old) (length info.old - 1) ≡ cluster }
    ensures { info.new ≡ map_range (with_glyph_flags bits) info.old
        0 (prefix_len (λ c. not (c == cluster)) (clusters info.old)) }
{
    let mut end = 0;
    while end + 1 < info.len() && info[end].cluster != cluster {
        mark(&mut info[end], bits);
        end += 1;
    }
}

/// Adds the bits to the glyphs after the last one of the cluster, from the end down. The first glyph is in the cluster,
/// and is not read.
#[inline]
#[tactic(auto, using(crate::proofs::ScanEndsLemmas::walks_down))]
fn mark_after_last(info: &mut [hb_glyph_info_t], bits: u32, cluster: u32)
    requires some { 0 < length info.old }
    requires first { slice_index (clusters info.old) 0 ≡ cluster }
    ensures { info.new ≡ map_range (with_glyph_flags bits) info.old
        (length info.old - suffix_len (λ c. not (c == cluster)) (clusters info.old))
        (length info.old) }
{
    let mut start = info.len();
    while start > 1 && info[start - 1].cluster != cluster {
        start -= 1;
        mark(&mut info[start], bits);
    }
}

/// Scans one part by its ends, `least` being the least cluster of all ends: from the end that is not of the least
/// cluster up to the first glyph of it.
#[inline]
#[tactic(auto, using(crate::proofs::ScanEndsLemmas::parts))]
fn mark_part(info: &mut [hb_glyph_info_t], bits: u32, least: u32)
    ensures { info.new ≡ mark_part bits least info.old }
{
    let len = info.len();
    if len == 0 {
        return;
    }
    if info[0].cluster == least {
        mark_after_last(info, bits, least);
    } else if info[len - 1].cluster == least {
        mark_before_first(info, bits, least);
    } else {
        mark_others(info, bits, least);
    }
}

/// The lesser of the first cluster and the last, 0 where there is no glyph.
#[inline]
#[tactic(auto, using(crate::proofs::ScanEndsLemmas::ends_of))]
fn least_end(info: &[hb_glyph_info_t]) -> u32
    ensures { result ≡ least (ends (clusters info.now)) }
{
    let len = info.len();
    if len == 0 {
        return 0;
    }
    info[0].cluster.min(info[len - 1].cluster)
}

/// The least of the first and last clusters of two parts, 0 where both are empty.
#[inline]
#[tactic(auto, using(crate::proofs::ScanEndsLemmas::ends_of))]
fn least_of_ends(out: &[hb_glyph_info_t], input: &[hb_glyph_info_t]) -> u32
    ensures { result ≡ ends_least out.now input.now }
{
    if out.is_empty() {
        return least_end(input);
    }
    if input.is_empty() {
        return least_end(out);
    }
    least_end(out).min(least_end(input))
}

/// The least cluster, 0 where there is no glyph.
#[tactic(auto, using(crate::proofs::MergeRangeLemmas::walks))]
fn least_of(info: &[hb_glyph_info_t]) -> u32
    ensures { result ≡ least (clusters info.now) }
{
    if info.is_empty() {
        return 0;
    }
    let mut least = info[0].cluster;
    for i in 1..info.len() {
        least = least.min(info[i].cluster);
    }
    least
}

/// The least cluster of two parts, 0 where both are empty.
#[tactic(auto, using(crate::proofs::ScanEndsLemmas::leasts))]
fn least_of_both(out: &[hb_glyph_info_t], input: &[hb_glyph_info_t]) -> u32
    ensures { result ≡ least (clusters (out.now ++ input.now)) }
{
    if out.is_empty() {
        return least_of(input);
    }
    if input.is_empty() {
        return least_of(out);
    }
    least_of(out).min(least_of(input))
}

/// Scans one list in any order of clusters. It stands out of line, as most scans go by the ends.
#[inline(never)]
#[tactic(auto, unfolding(crate::specs::Marks::mark))]
fn mark_outside_least(info: &mut [hb_glyph_info_t], bits: u32)
    ensures { info.new ≡ mark bits info.old }
{
    let least = least_of(info);
    mark_others(info, bits, least);
}

/// Scans one list.
#[inline]
#[tactic(auto, unfolding(crate::specs::Scans::scan_of, crate::specs::Marks::end_mark))]
pub fn scan_slice(info: &mut [hb_glyph_info_t], bits: u32, order: ClusterOrder)
    ensures { info.new ≡ scan_of (is_any order) bits info.old }
{
    match order {
        ClusterOrder::Any => mark_outside_least(info, bits),
        ClusterOrder::Monotone => {
            let least = least_end(info);
            mark_part(info, bits, least);
        }
    }
}

/// Scans one part, by the least cluster of all parts.
#[inline]
fn scan_part(info: &mut [hb_glyph_info_t], bits: u32, least: u32, order: ClusterOrder)
    ensures { info.new ≡ part_scan (is_any order) bits least info.old }
{
    match order {
        ClusterOrder::Any => mark_others(info, bits, least),
        ClusterOrder::Monotone => mark_part(info, bits, least),
    }
}

/// The least cluster that a scan of two parts goes by.
#[inline]
fn least_for_scan(first: &[hb_glyph_info_t], second: &[hb_glyph_info_t], order: ClusterOrder) -> u32
    ensures { result ≡ scan_least (is_any order) first.now second.now }
{
    match order {
        ClusterOrder::Any => least_of_both(first, second),
        ClusterOrder::Monotone => least_of_ends(first, second),
    }
}

/// Scans two parts, by the least cluster of both.
#[inline]
pub(crate) fn scan_parts(
    first: &mut [hb_glyph_info_t],
    second: &mut [hb_glyph_info_t],
    bits: u32,
    order: ClusterOrder,
)
    ensures first { first.new ≡ part_scan (is_any order) bits
        (scan_least (is_any order) first.old second.old) first.old }
    ensures second { second.new ≡ part_scan (is_any order) bits
        (scan_least (is_any order) first.old second.old) second.old }
{
    let least = least_for_scan(first, second, order);
    scan_part(first, bits, least, order);
    scan_part(second, bits, least, order);
}
