//! What a character is in a syllable of the universal shaper.
#![tactic(auto)]

mod rows;

use rb_glyph::row_search::{range_order, row_at};
use rows::ROWS;

/// What a character is in a syllable (OpenType, "Creating and supporting OpenType fonts for the Universal Shaping Engine", "Character
/// classification").
#[derive(Clone, Copy, PartialEq, Eq)]
pub enum UniversalCategory {
    /// None of those below.
    Other,
    /// A letter, a digit or another base.
    Base,
    /// A digit that a joiner of numbers stands behind.
    Number,
    /// A character that takes signs as a letter does.
    BaseOther,
    /// A joiner, a variation selector, or the combining grapheme joiner: syllables pass over it.
    GraphemeJoiner,
    /// A subjoined consonant.
    Subjoined,
    /// A halant.
    Halant,
    /// A joiner of numbers.
    HalantNumber,
    /// A zero width non-joiner.
    NonJoiner,
    /// A character that is invisible by default, or none yet.
    WordJoiner,
    /// A reph.
    Repha,
    /// A consonant that stacks the next one below it.
    ConsonantWithStacker,
    /// A halant that is never seen.
    InvisibleStacker,
    /// The Tai Tham sign sakot.
    Sakot,
    /// A hieroglyph.
    Hieroglyph,
    /// A joiner of hieroglyphs.
    HieroglyphJoiner,
    /// The start of a group of hieroglyphs.
    SegmentBegin,
    /// The end of a group of hieroglyphs.
    SegmentEnd,
    /// The Sinhala halant, which may stand behind a vowel sign.
    HalantOrVowelModifier,
    /// A modifier of a hieroglyph.
    HieroglyphModifier,
    /// The mirror sign of a hieroglyph.
    HieroglyphMirror,
    /// A killer of vowels that stands in another order.
    ReorderingKiller,
    /// A final consonant above.
    FinalAbove,
    /// A final consonant below.
    FinalBelow,
    /// A final consonant behind.
    FinalPost,
    /// A medial consonant above.
    MedialAbove,
    /// A medial consonant below.
    MedialBelow,
    /// A medial consonant behind.
    MedialPost,
    /// A medial consonant in front.
    MedialPre,
    /// A modifier of a consonant above.
    ModifierAbove,
    /// A modifier of a consonant below.
    ModifierBelow,
    /// A vowel sign above.
    VowelAbove,
    /// A vowel sign below.
    VowelBelow,
    /// A vowel sign behind.
    VowelPost,
    /// A vowel sign in front.
    VowelPre,
    /// A modifier of a vowel above.
    VowelModifierAbove,
    /// A modifier of a vowel below.
    VowelModifierBelow,
    /// A modifier of a vowel behind.
    VowelModifierPost,
    /// A modifier of a vowel in front.
    VowelModifierPre,
    /// A modifier of a symbol above.
    SymbolModifierAbove,
    /// A modifier of a symbol below.
    SymbolModifierBelow,
    /// A modifier of the syllable above.
    FinalModifierAbove,
    /// A modifier of the syllable below.
    FinalModifierBelow,
    /// A modifier of the syllable behind.
    FinalModifierPost,
}

/// The category of a character.
pub fn universal_category_of(character: u32) -> UniversalCategory {
    match row_at(&ROWS, |row| range_order(row.0, row.1, character)) {
        Some(row) => row.2,
        None => UniversalCategory::Other,
    }
}
