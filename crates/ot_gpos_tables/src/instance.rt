//! A font at a size, and at a place in its variations.

ghost use Rattle.std.specs.Prelude.{◌≡◌};
ghost use Rattle.font_variations.specs.Rounding.{rounded};
ghost use Rattle.ot_gpos_tables.specs.Instance.{scaled_delta};

use font_tables::scale::Scale;
use font_variations::Deltas;
use font_variations::rounding::{float, rounded};

/// A font at a size, and at a place in its variations.
#[derive(Clone, Copy)]
pub struct Instance<'a> {
    /// The size.
    pub scale: Scale,
    /// The deltas of the font's lookups at the place that is chosen.
    pub deltas: Deltas<'a>,
}

impl Instance<'_> {
    ghost use Rattle.ot_gpos_tables.specs.Instance.{x_delta, y_delta};

    /// How far a delta set moves a point to the right, at this size; not at all where no variations are chosen.
    pub fn x_delta(&self, index: u32) -> i32
        ensures { result ≡ x_delta self.now index }
    {
        if self.deltas.is_varied() {
            scaled_delta(
                self.deltas.delta(index),
                self.scale.x,
                self.scale.units_per_em,
            )
        } else {
            0
        }
    }

    /// How far a delta set moves a point upwards, at this size; not at all where no variations are chosen.
    pub fn y_delta(&self, index: u32) -> i32
        ensures { result ≡ y_delta self.now index }
    {
        if self.deltas.is_varied() {
            scaled_delta(
                self.deltas.delta(index),
                self.scale.y,
                self.scale.units_per_em,
            )
        } else {
            0
        }
    }
}

/// A number of font units where an em is `size` long, to the nearest whole number.
fn scaled_delta(delta: f32, size: i32, units_per_em: u16) -> i32
    ensures { result ≡ scaled_delta delta size units_per_em }
{
    rounded(delta * (float(size) / float(i32::from(units_per_em))))
}
