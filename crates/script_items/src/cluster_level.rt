//! The cluster level of a buffer, as the steps of shaping ask for it.

ghost use Rattle.std.specs.Prelude.{◌≡◌};
ghost use Rattle.shaping_buffer.specs.ClusterStep.{any_order};

use shaping_buffer::cluster_level::{
    HB_BUFFER_CLUSTER_LEVEL_CHARACTERS, HB_BUFFER_CLUSTER_LEVEL_GRAPHEMES,
};
use shaping_buffer::hb_buffer_t;

/// Whether clusters may stand in any order at the buffer's level.
pub fn allows_any_order(buffer: &hb_buffer_t) -> bool
    ensures { result ≡ any_order buffer.now }
{
    buffer.cluster_level == HB_BUFFER_CLUSTER_LEVEL_CHARACTERS
        || buffer.cluster_level == HB_BUFFER_CLUSTER_LEVEL_GRAPHEMES
}
