//! The box of a bitmap, in pixels.

ghost use Rattle.std.specs.Prelude.{◌≡◌};
ghost use Rattle.font_colors.specs.Pixels.{units};

use font_variations::rounding::{float, rounded};
use rb_glyph::GlyphExtents;

/// The box of a bitmap.
#[derive(Clone, Copy)]
pub struct PixelBox {
    /// The box, in pixels.
    pub extents: GlyphExtents,
    /// How many pixels an em has across.
    pub x_ppem: u16,
    /// How many pixels an em has upwards.
    pub y_ppem: u16,
}

impl PixelBox {
    ghost use Rattle.font_colors.specs.Pixels.{in_units};

    /// The box in font units, of which an em has so many: each number is the nearest one, and the greater one between two.
    pub fn in_units(&self, units_per_em: u16) -> GlyphExtents
        ensures { result ≡ in_units self.now units_per_em }
    {
        let extents = &self.extents;
        GlyphExtents {
            x_bearing: units(units_per_em, self.x_ppem, extents.x_bearing),
            y_bearing: units(units_per_em, self.y_ppem, extents.y_bearing),
            width: units(units_per_em, self.x_ppem, extents.width),
            height: units(units_per_em, self.y_ppem, extents.height),
        }
    }
}

/// So many pixels in font units.
fn units(units_per_em: u16, ppem: u16, pixels: i32) -> i32
    ensures { result ≡ units units_per_em ppem pixels }
{
    let pixel = float(i32::from(units_per_em)) / float(i32::from(ppem));
    rounded(float(pixels) * pixel)
}
