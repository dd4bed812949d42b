//! Masks of features, set over ranges of clusters.

ghost use Rattle.std.specs.Prelude.{◌≡◌, if◌then◌else◌};
ghost use Rattle.glyph_lists.specs.Masks.{with_mask, reset_masks, in_clusters, with_bits, set_masks};

use rb_glyph::hb_glyph_info_t;

/// Gives the glyph a mask.
#[inline]
#[tactic(auto, unfolding(crate::specs::Masks::with_mask))]
fn set_mask(glyph: &mut hb_glyph_info_t, mask: u32)
    ensures { glyph.new ≡ with_mask mask glyph.old }
{
    glyph.mask = mask;
}

/// Gives each glyph the mask.
#[tactic(auto, using(crate::proofs::MapLemmas::walks), unfolding(crate::specs::Masks::reset_masks))]
pub fn reset_masks(info: &mut [hb_glyph_info_t], mask: u32)
    ensures { info.new ≡ reset_masks mask info.old }
{
    for glyph in info.iter_mut() {
        set_mask(glyph, mask);
    }
}

/// Whether the range of clusters from `start` up to `end` holds the cluster; 0 to the largest number holds all.
#[inline]
fn is_in_clusters(cluster: u32, start: u32, end: u32) -> bool
    ensures { result ≡ in_clusters start end cluster }
{
    (start == 0 && end == u32::MAX) || (start <= cluster && cluster < end)
}

/// Gives the bits of `mask` those of `value`.
#[inline]
#[tactic(auto, unfolding(crate::specs::Masks::with_bits))]
fn set_bits(glyph: &mut hb_glyph_info_t, value: u32, mask: u32)
    ensures { glyph.new ≡ with_bits value mask glyph.old }
{
    glyph.mask = (glyph.mask & !mask) | (value & mask);
}

/// Gives the bits of `mask` those of `value`, if the range of clusters holds the glyph's.
#[inline]
fn set_bits_in(glyph: &mut hb_glyph_info_t, value: u32, mask: u32, start: u32, end: u32)
    ensures { glyph.new ≡ (if in_clusters start end glyph.old.cluster
        then with_bits value mask glyph.old else glyph.old) }
{
    if is_in_clusters(glyph.cluster, start, end) {
        set_bits(glyph, value, mask);
    }
}

/// Gives the bits of `mask` those of `value`, in each glyph whose cluster is in the range. The mask 0 sets nothing.
#[tactic(auto, using(crate::proofs::MasksLemmas::masks))]
pub fn set_masks(
    info: &mut [hb_glyph_info_t],
    value: u32,
    mask: u32,
    cluster_start: u32,
    cluster_end: u32,
)
    ensures { info.new ≡ set_masks value mask cluster_start cluster_end info.old }
{
    if mask == 0 {
        return;
    }
    for glyph in info.iter_mut() {
        set_bits_in(glyph, value, mask, cluster_start, cluster_end);
    }
}
