//! Positions: where each glyph is drawn.

ghost use Rattle.std.specs.Prelude.{◌≡◌, false, Some, length, IsSome};
ghost use Rattle.shaping_buffer.specs.State.{len};
ghost use Rattle.shaping_buffer.specs.Positions.{with_zero_positions};
ghost use Rattle.shaping_buffer.specs.KeepsClusters.{KeepsClusters};

use super::hb_buffer_t;
use rb_glyph::GlyphPosition;

impl hb_buffer_t {
    /// The position of each glyph. Requires that positions are on.
    pub fn pos(&self) -> &[GlyphPosition]
        requires { IsSome self.now.positions }
        ensures positions { Some result.now ≡ self.now.positions }
        ensures as_many { length result.now ≡ len self.now }
    {
        &self.pos
    }

    /// Turns positions on, all 0, one for each glyph. It takes no memory. Requires that no output is open.
    pub fn clear_positions(&mut self)
        requires { self.old.have_output ≡ false }
        ensures is { self.new ≡ with_zero_positions self.old }
        ensures keeps { KeepsClusters self.old self.new }
    {
        let zero = GlyphPosition {
            x_advance: 0,
            y_advance: 0,
            x_offset: 0,
            y_offset: 0,
            var: 0,
        };
        self.pos.clear();
        // This takes no memory: each call that grows the list, and `sync`, reserved room for as many positions.
        self.pos.resize(self.sides.len(), zero).unwrap();
        self.have_positions = true;
    }
}
