//! Canonical composition and decomposition in one step, by the data of the kit (Unicode Standard, section 3.11).

ghost use Rattle.std.specs.Prelude.{◌≡◌, ℕ, Some};
ghost use Rattle.rb_glyph.specs.Hangul.{HangulComposes};
ghost use Rattle.ucd_normal.specs.Composition.{composite};
ghost use Rattle.ucd_normal.specs.Decomposition.{canonical_mapping};
ghost use Rattle.unicode_tables.specs.Mapping.{parts_of};

use crate::mapping::mapping;
use rb_glyph::{compose_hangul, decompose_hangul};
use ucd_normal::composite;

/// The character that two characters compose to: a Hangul syllable by the rule of the Unicode Standard, section 3.12,
/// and any other by Unicode's data.
pub fn compose(a: char, b: char) -> Option<char>
    ensures hangul { (s : ℕ) → HangulComposes s a b → result ≡ Some s }
    ensures data { ((s : ℕ) → ¬ HangulComposes s a b) → result ≡ composite a b }
{
    if let Some(syllable) = compose_hangul(a, b) {
        return Some(syllable);
    }
    composite(a, b)
}

/// The one or two characters that a character decomposes to in one step: a Hangul syllable by the rule of the Unicode
/// Standard, section 3.12, and any other by Unicode's data.
pub fn decompose(ab: char) -> Option<(char, Option<char>)>
    ensures hangul { (a b : ℕ) → HangulComposes ab a b → result ≡ Some (a, Some b) }
    ensures data { ((a b : ℕ) → ¬ HangulComposes ab a b)
        → result ≡ parts_of (canonical_mapping ab) }
{
    if let Some(pair) = decompose_hangul(ab) {
        return Some((pair.0, Some(pair.1)));
    }
    mapping(ab)
}
