//! What a font says of its glyphs.

use rb_common::GlyphId;

/// The box around a glyph's outline, in font units.
#[derive(Clone, Copy, Debug, Default)]
pub struct GlyphExtents {
    /// The left side of the box, from the glyph's origin.
    pub x_bearing: i32,
    /// The top of the box, from the glyph's origin.
    pub y_bearing: i32,
    /// The distance from the left side to the right side.
    pub width: i32,
    /// The distance from the top to the bottom, which is negative where the y axis points up.
    pub height: i32,
}

/// A font, as far as the text of shaped glyphs asks it.
pub trait GlyphNames {
    ghost use Rattle.std.specs.Prelude.{◌≡◌, ℕ, List, Option};
    ghost use Rattle.std.specs.Option.{option_copied};
    ghost use Rattle.rb_glyph.specs.declared.names.GlyphExtents.{GlyphExtents};

    // The bytes of a glyph's name, by the glyph's number.
    ghost name_of: { Self → ℕ → Option (List ℕ) };

    // A glyph's extents, by the glyph's number.
    ghost extents_of: { Self → ℕ → Option GlyphExtents };

    /// The name of a glyph, where it has one.
    fn glyph_name(&self, glyph: GlyphId) -> Option<&str>
        ensures { option_copied result ≡ name_of self.now glyph.0 };

    /// The extents of a glyph, where they are known.
    fn glyph_extents(&self, glyph: GlyphId) -> Option<GlyphExtents>
        ensures { result ≡ extents_of self.now glyph.0 };
}

/// A font that knows nothing: no glyph of it has a name, nor extents.
///
/// It is the font to pass where glyphs are written by their numbers alone.
#[derive(Clone, Copy, Debug, Default)]
pub struct NoGlyphNames;

impl GlyphNames for NoGlyphNames {
    ghost use Rattle.std.specs.Prelude.{None};

    ghost name_of = { λ _ _. None };

    ghost extents_of = { λ _ _. None };

    fn glyph_name(&self, _glyph: GlyphId) -> Option<&str> {
        None
    }

    fn glyph_extents(&self, _glyph: GlyphId) -> Option<GlyphExtents> {
        None
    }
}
