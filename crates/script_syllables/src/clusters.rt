//! Clusters of syllables.

ghost use Rattle.std.specs.Prelude.{◌≡◌, false};
ghost use Rattle.shaping_passes.specs.Left.{StaysClosed};
ghost use Rattle.script_syllables.specs.Moves.{merged};

use shaping_buffer::hb_buffer_t;

/// Merges the clusters of the items from a place to another, where they lie in the text.
#[tactic(auto, using(crate::proofs::MergedLemmas::steps, shaping_buffer::proofs::ClosedKeepsLemmas::kept))]
pub fn merge(buffer: &mut hb_buffer_t, start: usize, end: usize)
    requires { buffer.old.have_output ≡ false }
    ensures is { buffer.new ≡ merged start end buffer.old }
    ensures stays { StaysClosed buffer.old buffer.new }
{
    if start <= end && end <= buffer.len() {
        buffer.merge_clusters(start, end);
    }
}
