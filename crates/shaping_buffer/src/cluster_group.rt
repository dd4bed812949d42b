//! The test of two neighbours for the calls that take groups.

ghost use Rattle.std.specs.Prelude.{◌≡◌};
ghost use Rattle.glyph_lists.specs.Groups.{share_cluster};

use rb_glyph::hb_glyph_info_t;

/// Whether two glyphs are in one cluster, for the calls that take groups.
pub fn _cluster_group_func(a: &hb_glyph_info_t, b: &hb_glyph_info_t) -> bool
    ensures { result ≡ share_cluster a.now b.now }
{
    a.cluster == b.cluster
}
