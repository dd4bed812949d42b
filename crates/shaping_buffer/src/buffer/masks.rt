//! Masks of features, as HarfBuzz's `hb_buffer_t` sets them over the ranges of clusters of an `hb_feature_t`.

ghost use Rattle.std.specs.Prelude.{◌≡◌, false};
ghost use Rattle.shaping_buffer.specs.ClusterStep as step;
ghost use Rattle.shaping_buffer.specs.KeepsClusters.{KeepsClusters};

use super::hb_buffer_t;
use glyph_lists::masks;

impl hb_buffer_t {
    /// Gives each glyph this mask. Requires that no output is open.
    pub fn reset_masks(&mut self, mask: u32)
        requires { self.old.have_output ≡ false }
        ensures is { self.new ≡ step.reset_masks mask self.old }
        ensures keeps { KeepsClusters self.old self.new }
    {
        masks::reset_masks(self.sides.list_mut(), mask);
    }

    /// Gives the bits of `mask` those of `value`, in each glyph whose cluster is at least `cluster_start` and below
    /// `cluster_end`. The range from 0 to `u32::MAX` is all clusters, and the mask 0 changes nothing. Requires that no
    /// output is open.
    pub fn set_masks(&mut self, value: u32, mask: u32, cluster_start: u32, cluster_end: u32)
        requires { self.old.have_output ≡ false }
        ensures is { self.new ≡ step.set_masks value mask cluster_start cluster_end self.old }
        ensures keeps { KeepsClusters self.old self.new }
    {
        masks::set_masks(
            self.sides.list_mut(),
            value,
            mask,
            cluster_start,
            cluster_end,
        );
    }
}
