//! Clusters that are numbered anew.

ghost use Rattle.std.specs.Prelude.{◌≡◌};
ghost use Rattle.glyph_lists.specs.ClusterNumbers.{reset_clusters};

use rb_glyph::hb_glyph_info_t;

/// Makes each glyph a cluster of its own, numbered by its place modulo 2³².
#[tactic(auto, using(crate::proofs::ClusterNumberLemmas::slice_set_reset_below))]
pub fn reset_clusters(info: &mut [hb_glyph_info_t])
    ensures { info.new ≡ reset_clusters 0 info.old }
{
    for (i, glyph) in info.iter_mut().enumerate() {
        glyph.cluster = (i % 0x1_0000_0000) as u32;
    }
}
