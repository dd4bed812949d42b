//! What normalization asks of a font and of the rules of a script.

use super::parts::{class_of, composed_of, parts_of};
use shaping_buffer::{CombiningClasses, Compositions, Decompositions, hb_glyph_info_t};

/// A font and the rules by which characters are taken apart.
pub trait FontCharacters {
    ghost use Rattle.std.specs.Prelude.{◌≡◌};
    ghost use Rattle.shaping_passes.specs.NormalizationDecomposition.{Font};

    // What is asked of it.
    ghost font: { Self → Font };

    /// Whether the font has a glyph for the character.
    fn has_glyph(&self, character: u32) -> bool
        ensures { result ≡ (font self.now).has character };

    /// The two parts that a character is taken into, the second U+0000 where there is none.
    fn parts_of(&self, character: u32) -> Option<(u32, u32)>
        ensures { result ≡ (font self.now).parts character };

    /// Whether characters are taken apart as little as the font needs, and not as far as it can.
    fn takes_fewest(&self) -> bool
        ensures { result ≡ (font self.now).fewest };
}

/// A table is as good as a font that has every glyph.
impl<'a> FontCharacters for Decompositions<'a> {
    ghost use Rattle.shaping_passes.specs.NormalizationDecomposition.{every_glyph};

    ghost font = { every_glyph };

    fn has_glyph(&self, _character: u32) -> bool {
        true
    }

    fn parts_of(&self, character: u32) -> Option<(u32, u32)> {
        parts_of(self, character)
    }

    fn takes_fewest(&self) -> bool {
        false
    }
}

/// The classes by which marks are put in order. A table has those of Unicode, and a shaper may have others in its glyphs.
pub trait MarkClasses {
    ghost use Rattle.std.specs.Prelude.{◌≡◌};
    ghost use Rattle.shaping_passes.specs.NormalizationOrder.{Classes, ReadsCores};

    // The class of each glyph; of a starter it is 0.
    ghost classes: { Self → Classes };

    /// The class of a mark, and 0 of any other character.
    fn class_of(&self, info: &hb_glyph_info_t) -> u16
        ensures { result ≡ classes self.now info.now };

    // Neither its cluster nor its mask matters.
    ghost alike: { (s : Self) → ReadsCores (classes s) };
}

impl<'a> MarkClasses for CombiningClasses<'a> {
    ghost use Rattle.std.specs.Prelude.{refl};
    ghost use Rattle.shaping_passes.specs.NormalizationOrder.{class_at};

    ghost classes = { class_at };

    ghost alike = { λ rows g. refl };

    fn class_of(&self, info: &hb_glyph_info_t) -> u16 {
        u16::from(class_of(self, info.glyph_id))
    }
}

/// What pairs of characters compose to.
pub trait CharacterPairs {
    ghost use Rattle.std.specs.Prelude.{◌≡◌};
    ghost use Rattle.shaping_passes.specs.NormalizationComposition.{Pairs, PairsReadCores};

    // What each pair composes to.
    ghost pairs: { Self → Pairs };

    /// The character that a starter and another character compose to; `None` where they do not, or the font lacks it.
    fn composed_of(&self, starter: &hb_glyph_info_t, info: &hb_glyph_info_t) -> Option<u32>
        ensures { result ≡ pairs self.now starter.now info.now };

    // Neither clusters nor masks matter.
    ghost alike: { (s : Self) → PairsReadCores (pairs s) };
}

impl<'a> CharacterPairs for Compositions<'a> {
    ghost use Rattle.std.specs.Prelude.{refl};
    ghost use Rattle.shaping_passes.specs.NormalizationComposition.{pair_in};

    ghost pairs = { pair_in };

    ghost alike = { λ rows starter g. refl };

    fn composed_of(&self, starter: &hb_glyph_info_t, info: &hb_glyph_info_t) -> Option<u32> {
        composed_of(self, starter.glyph_id, info.glyph_id)
    }
}
