//! The functions of a font (HarfBuzz's `hb_font_funcs_t`).

ghost use Rattle.std.specs.Prelude.{◌≡◌, is_some};

use rb_common::GlyphId;
use rb_glyph::GlyphExtents;
use std::alloc::AllocError;

/// What a font answers. All measures are at the size at which the font is used. Each time that a character is asked for, there is
/// a glyph or there is none; all else may be answered otherwise each time. HarfBuzz's name is `hb_font_funcs_t`.
pub trait FontFunctions {
    ghost use Rattle.std.specs.Prelude.{ℕ, ℤ, Bool, Option, option_map};

    // whether the font has a glyph for a character
    ghost has: { Self → ℕ → Bool };

    // the glyphs, or none, that a character may have
    ghost may_have: { Self → ℕ → Option ℕ → Type 0 };

    // the advances that a glyph may have in horizontal lines
    ghost may_advance: { Self → ℕ → ℤ → Type 0 };

    /// The glyph of a character; `None` where the font has none.
    fn nominal_glyph(&self, character: u32) -> Option<GlyphId>
        ensures there { is_some result ≡ has self.now character }
        ensures glyph { may_have self.now character (option_map (λ glyph. glyph.0) result) };

    /// The glyph of a character before a variation selector; `None` where the font does not have the two.
    fn variation_glyph(&self, character: u32, selector: u32) -> Option<GlyphId>;

    /// How far a glyph moves the pen to the right in horizontal lines.
    fn glyph_h_advance(&self, glyph: GlyphId) -> i32
        ensures { may_advance self.now glyph.0 result };

    /// How far a glyph moves the pen up in vertical lines, which mostly is a negative number.
    fn glyph_v_advance(&self, glyph: GlyphId) -> i32;

    /// Where a glyph's origin in vertical lines stands, from its origin in horizontal ones.
    fn glyph_v_origin(&self, glyph: GlyphId) -> Result<(i32, i32), AllocError>;

    /// The bounds of a glyph; `None` where the font has none of it.
    fn glyph_extents(&self, glyph: GlyphId) -> Result<Option<GlyphExtents>, AllocError>;

    /// Where a point of a glyph's outline is, to the right and upwards; `None` where the font does not know it. It is asked for at
    /// sizes in pixels, for anchors of format 2.
    fn glyph_contour_point(&self, glyph: GlyphId, point: u16) -> Option<(i32, i32)>;
}
