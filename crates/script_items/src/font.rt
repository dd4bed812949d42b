//! What a shaper asks of a font.

ghost use Rattle.std.specs.Prelude.{◌≡◌};

/// A font, as far as the shapers of scripts ask it.
pub trait FontGlyphs {
    ghost use Rattle.std.specs.Prelude.{ℕ, Bool};

    // whether the font has a glyph for a character
    ghost has: { Self → ℕ → Bool };

    /// Whether the font has a glyph for the character.
    fn has_glyph(&self, character: u32) -> bool
        ensures { result ≡ has self.now character };

    /// The glyph of the character; `None` where the font has none.
    fn glyph_of(&self, character: u32) -> Option<u16>;

    /// How far the line goes on behind the glyph, in horizontal lines, at the font's scale.
    fn horizontal_advance(&self, glyph: u32) -> i32;

    /// Whether the font's scale across is negative, so that glyphs are mirrored and widths are negative.
    fn is_mirrored(&self) -> bool;
}

/// Whether the font has a glyph without width for the character.
pub fn has_no_width<F: FontGlyphs>(font: &F, character: u32) -> bool {
    match font.glyph_of(character) {
        Some(glyph) => font.horizontal_advance(u32::from(glyph)) == 0,
        None => false,
    }
}
