//! Both sides as one list: what was put out, and then what is left to read.

ghost use Rattle.std.specs.Prelude.{◌≡◌, ◌+◌, ◌≤◌, length};
ghost use Rattle.shaping_buffer.specs.State.{len};
ghost use Rattle.shaping_buffer.specs.ClusterStep as step;

use super::hb_buffer_t;

impl hb_buffer_t {
    /// Where glyph `k` of the input stands in the one list.
    pub(super) fn both_place(&self, k: usize) -> usize
        requires from_start { step.input_start self.now ≤ k }
        requires within { k ≤ len self.now }
        ensures { result ≡ step.both_place self.now k }
    {
        self.sides.place(k)
    }
}
