//! What the shapers of syllables ask of a font.

/// A feature that a shaper asks of, whether it would substitute glyphs.
#[derive(Clone, Copy, PartialEq, Eq)]
pub enum FormFeature {
    /// A RA and a halant as a reph.
    Rphf,
    /// A RA that stands before the base.
    Pref,
    /// Forms below the base.
    Blwf,
    /// Forms behind the base.
    Pstf,
    /// Consonants with a RA below them.
    Vatu,
}

/// A font, as far as the shapers of syllables ask it.
pub trait FontForms {
    /// The glyph of a character; `None` where the font has none.
    fn glyph_of(&self, character: u32) -> Option<u32>;

    /// Whether a lookup of a feature has a rule for just these glyphs.
    fn would_substitute(&mut self, feature: FormFeature, glyphs: &[u32]) -> bool;
}
