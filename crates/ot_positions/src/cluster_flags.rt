//! Glyph flags of whole clusters (HarfBuzz, `hb_propagate_flags`).

ghost use Rattle.std.specs.Prelude.{◌≡◌, ◌<◌, ◌≤◌, ◌+◌, false, length, drop, map, slice_index_or, IsSome};
ghost use Rattle.glyph_lists.specs.Clusters.{zero_glyph};
ghost use Rattle.glyph_lists.specs.Marks.{with_glyph_flags};
ghost use Rattle.glyph_lists.specs.Masks.{with_mask};
ghost use Rattle.glyph_lists.specs.Parts.{part, map_range};
ghost use Rattle.ot_positions.specs.ClusterFlags as cluster_flags;
ghost use Rattle.ot_positions.specs.ClusterFlags.{by_clusters, first_len, flags_of, len_in, propagated, shared, shared_flags};
ghost use Rattle.shaping_buffer.specs.KeepsClusters.{KeepsClusters};

use shaping_buffer::{
    BufferFlags, Flags, HB_BUFFER_SCRATCH_FLAG_HAS_GLYPH_FLAGS, glyph_flag, hb_buffer_t,
    hb_glyph_info_t,
};

/// Gives all glyphs of a cluster the glyph flags that one of them has, if one is unsafe to break: so a glyph that is taken out leaves its
/// own. Requires positions, and that no output is open.
pub fn share_flags(buffer: &mut hb_buffer_t)
    requires closed { buffer.old.have_output ≡ false }
    requires placed { IsSome buffer.old.positions }
    ensures is { buffer.new ≡ cluster_flags.share_flags buffer.old }
    ensures closed { buffer.new.have_output ≡ false }
    ensures placed { IsSome buffer.new.positions }
    ensures keeps { KeepsClusters buffer.old buffer.new }
{
    if has_glyph_flags(buffer) {
        share_in(buffer);
    }
}

/// Whether some glyphs have glyph flags.
fn has_glyph_flags(buffer: &hb_buffer_t) -> bool
    ensures { result ≡ cluster_flags.has_glyph_flags buffer.now }
{
    buffer.scratch_flags & HB_BUFFER_SCRATCH_FLAG_HAS_GLYPH_FLAGS != 0
}

/// Shares the glyph flags of each cluster of a buffer.
fn share_in(buffer: &mut hb_buffer_t)
    requires closed { buffer.old.have_output ≡ false }
    requires placed { IsSome buffer.old.positions }
    ensures is { buffer.new ≡ record buffer.old { input = by_clusters shared buffer.old.input } }
    ensures placed { IsSome buffer.new.positions }
    ensures keeps { KeepsClusters buffer.old buffer.new }
{
    share_all(buffer.info_slice_mut());
}

/// Shares the glyph flags of each cluster.
fn share_all(infos: &mut [hb_glyph_info_t])
    ensures { infos.new ≡ by_clusters shared infos.old }
{
    let mut start = 0;
    while start < infos.len() {
        let end = cluster_end(infos, start);
        share_from(infos, start, end);
        start = end;
    }
}

/// Gives the glyphs from a place to another one the glyph flags that one of them has, if one is unsafe to break.
fn share_from(infos: &mut [hb_glyph_info_t], start: usize, end: usize)
    requires order { start ≤ end }
    requires within { end ≤ length infos.old }
    ensures { infos.new ≡ map_range (shared (part infos.old start end)) infos.old start end }
{
    let flags = shared_flags(&infos[start..end]);
    add_flags(&mut infos[start..end], flags);
}

/// All glyph flags of some glyphs, if one is unsafe to break.
fn shared_flags(infos: &[hb_glyph_info_t]) -> u32
    ensures { result ≡ shared_flags infos.now }
{
    let flags = all_flags(infos);
    if flags & glyph_flag::UNSAFE_TO_BREAK != 0 {
        flags
    } else {
        0
    }
}

/// Adds glyph flags to those of each glyph.
#[tactic(auto, using(glyph_lists::proofs::MapLemmas::walks))]
fn add_flags(infos: &mut [hb_glyph_info_t], flags: u32)
    ensures { infos.new ≡ map (with_glyph_flags flags) infos.old }
{
    for info in infos.iter_mut() {
        add_flags_to(info, flags);
    }
}

/// Adds glyph flags to those of a glyph.
#[tactic(auto, unfolding(glyph_lists::specs::Marks::with_glyph_flags))]
fn add_flags_to(info: &mut hb_glyph_info_t, flags: u32)
    ensures { info.new ≡ with_glyph_flags flags info.old }
{
    info.mask |= flags;
}

/// Gives all glyphs of a cluster the same glyph flags, and takes away those that the buffer was not asked for. Requires positions, and
/// that no output is open.
pub fn propagate_flags(buffer: &mut hb_buffer_t)
    requires closed { buffer.old.have_output ≡ false }
    requires placed { IsSome buffer.old.positions }
    ensures is { buffer.new ≡ cluster_flags.propagate_flags buffer.old }
    ensures closed { buffer.new.have_output ≡ false }
    ensures placed { IsSome buffer.new.positions }
    ensures keeps { KeepsClusters buffer.old buffer.new }
{
    if has_glyph_flags(buffer) {
        let flags = buffer.flags;
        propagate_in(buffer, flags);
    }
}

/// Gives all glyphs of each cluster of a buffer the same glyph flags.
fn propagate_in(buffer: &mut hb_buffer_t, flags: BufferFlags)
    requires closed { buffer.old.have_output ≡ false }
    requires placed { IsSome buffer.old.positions }
    ensures is { buffer.new ≡ record buffer.old { input = by_clusters (propagated flags) buffer.old.input } }
    ensures placed { IsSome buffer.new.positions }
    ensures keeps { KeepsClusters buffer.old buffer.new }
{
    propagate_all(buffer.info_slice_mut(), flags);
}

/// Gives all glyphs of each cluster the same glyph flags.
fn propagate_all(infos: &mut [hb_glyph_info_t], flags: BufferFlags)
    ensures { infos.new ≡ by_clusters (propagated flags) infos.old }
{
    let mut start = 0;
    while start < infos.len() {
        let end = cluster_end(infos, start);
        propagate_from(infos, start, end, flags);
        start = end;
    }
}

/// Gives the glyphs from a place to another one the same glyph flags.
#[inline]
fn propagate_from(infos: &mut [hb_glyph_info_t], start: usize, end: usize, flags: BufferFlags)
    requires order { start ≤ end }
    requires within { end ≤ length infos.old }
    ensures { infos.new ≡ map_range (propagated flags (part infos.old start end)) infos.old start end }
{
    let mask = flags_of_cluster(all_flags(&infos[start..end]), flags);
    set_masks(&mut infos[start..end], mask);
}

/// All glyph flags of some glyphs.
#[inline]
#[tactic(auto, using(std::proofs::lemmas::List::Sums::fold_more))]
fn all_flags(infos: &[hb_glyph_info_t]) -> u32
    ensures { result ≡ flags_of infos.now }
{
    let mut all = 0;
    for info in infos.iter() {
        all = all | info.mask & glyph_flag::DEFINED;
    }
    all
}

/// Gives glyphs this mask.
#[inline]
#[tactic(auto, using(glyph_lists::proofs::MapLemmas::walks), unfolding(glyph_lists::specs::Masks::with_mask))]
fn set_masks(infos: &mut [hb_glyph_info_t], mask: u32)
    ensures { infos.new ≡ map (with_mask mask) infos.old }
{
    for info in infos.iter_mut() {
        info.mask = mask;
    }
}

/// Where the cluster ends whose first glyph is at a place.
#[inline]
fn cluster_end(infos: &[hb_glyph_info_t], start: usize) -> usize
    requires { start < length infos.now }
    ensures is { result ≡ start + first_len (drop start infos.now) }
    ensures order { start < result }
    ensures within { result ≤ length infos.now }
{
    let cluster = cluster_at(infos, start);
    start + 1 + len_of_cluster(&infos[start + 1..], cluster)
}

/// The cluster of the glyph at a place.
#[inline]
fn cluster_at(infos: &[hb_glyph_info_t], place: usize) -> u32
    requires { place < length infos.now }
    ensures { result ≡ (slice_index_or infos.now place zero_glyph).cluster }
{
    infos[place].cluster
}

/// How many glyphs at the beginning are of a cluster.
#[inline]
#[tactic(auto, unfolding(crate::specs::ClusterFlags::len_in))]
fn len_of_cluster(infos: &[hb_glyph_info_t], cluster: u32) -> usize
    ensures is { result ≡ len_in cluster infos.now }
    ensures within { result ≤ length infos.now }
{
    infos
        .iter()
        .take_while(|info| info.cluster == cluster)
        .count()
}

/// The glyph flags of a cluster, from all those of its glyphs. A place that is unsafe to break is not safe to insert a
/// tatweel at, and one that is safe to insert a tatweel at is unsafe to break.
fn flags_of_cluster(all: u32, flags: BufferFlags) -> u32
    ensures { result ≡ cluster_flags.flags_of_cluster all flags }
{
    let mask = if flags.contains(BufferFlags::PRODUCE_SAFE_TO_INSERT_TATWEEL) {
        with_tatweel(all)
    } else {
        all
    };
    if flags.contains(BufferFlags::PRODUCE_UNSAFE_TO_CONCAT) {
        mask
    } else {
        mask & !glyph_flag::UNSAFE_TO_CONCAT
    }
}

/// The same, where it is asked for where a tatweel may be inserted.
fn with_tatweel(mask: u32) -> u32
    ensures { result ≡ cluster_flags.with_tatweel mask }
{
    if mask & glyph_flag::UNSAFE_TO_BREAK != 0 {
        mask & !glyph_flag::SAFE_TO_INSERT_TATWEEL
    } else if mask & glyph_flag::SAFE_TO_INSERT_TATWEEL != 0 {
        mask | glyph_flag::UNSAFE_TO_BREAK | glyph_flag::UNSAFE_TO_CONCAT
    } else {
        mask
    }
}
