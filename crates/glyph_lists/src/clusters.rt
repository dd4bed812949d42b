//! Glyphs that are put into a cluster.

ghost use Rattle.std.specs.Prelude.{◌≡◌, ◌+◌, ◌≤◌, ◌++◌, length, take, drop, map};
ghost use Rattle.glyph_lists.specs.Parts.{map_range};
ghost use Rattle.glyph_lists.specs.Clusters.{with_cluster};

use rb_glyph::{glyph_flag, hb_glyph_info_t};

/// Puts the glyph into a cluster. Where that changes its cluster, its glyph flags become those of `mask`.
#[inline]
#[tactic(auto, unfolding(crate::specs::Clusters::with_cluster))]
pub fn set_cluster(info: &mut hb_glyph_info_t, cluster: u32, mask: u32)
    ensures { info.new ≡ with_cluster cluster mask info.old }
{
    if info.cluster != cluster {
        info.mask = (info.mask & !glyph_flag::DEFINED) | (mask & glyph_flag::DEFINED);
        info.cluster = cluster;
    }
}

/// Puts each glyph into a cluster, with the glyph flags of `mask` where that changes its cluster.
#[inline]
#[tactic(auto, using(crate::proofs::MapLemmas::walks))]
fn set_clusters(info: &mut [hb_glyph_info_t], cluster: u32, mask: u32)
    ensures { info.new ≡ map (with_cluster cluster mask) info.old }
{
    for glyph in info.iter_mut() {
        set_cluster(glyph, cluster, mask);
    }
}

/// Puts the glyphs of a range into a cluster, with the glyph flags of `mask` where that changes theirs.
#[inline]
pub(crate) fn set_range(
    info: &mut [hb_glyph_info_t],
    start: usize,
    end: usize,
    cluster: u32,
    mask: u32,
)
    requires order { start ≤ end }
    requires within { end ≤ length info.old }
    ensures { info.new ≡ map_range (with_cluster cluster mask) info.old start end }
{
    set_clusters(&mut info[start..end], cluster, mask);
}

/// Puts the glyphs from `start` to `end` of the two sides as one list, `out` first, into a cluster. A glyph that changes
/// its cluster loses its glyph flags.
#[inline]
#[tactic(auto, using(crate::proofs::SidesLemmas::sides))]
pub fn set_sides(
    out: &mut [hb_glyph_info_t],
    input: &mut [hb_glyph_info_t],
    start: usize,
    end: usize,
    cluster: u32,
)
    requires order { start ≤ end }
    requires within { end ≤ length out.old + length input.old }
    ensures out { out.new ≡ take (length out.old)
        (map_range (with_cluster cluster 0) (out.old ++ input.old) start end) }
    ensures input { input.new ≡ drop (length out.old)
        (map_range (with_cluster cluster 0) (out.old ++ input.old) start end) }
{
    let len = out.len();
    if start < len {
        set_range(out, start, end.min(len), cluster, 0);
    }
    if end > len {
        set_range(input, start.saturating_sub(len), end - len, cluster, 0);
    }
}
