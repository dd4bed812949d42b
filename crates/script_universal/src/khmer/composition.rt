//! Characters that are taken apart otherwise than by Unicode's canonical mappings.

ghost use Rattle.std.specs.Prelude.{◌≡◌, ℕ, true, false, Some};
ghost use Rattle.rb_glyph.specs.Hangul.{HangulComposes};
ghost use Rattle.ucd_normal.specs.Decomposition.{canonical_mapping};
ghost use Rattle.unicode_tables.specs.Mapping.{parts_of};
ghost use Rattle.script_universal.specs.Composition.{is_two_part};

/// The one or two characters that a character decomposes to. Of vowel signs on both sides of a letter, the left part is apart, and what
/// is left keeps the number of the whole.
pub fn decompose(character: char) -> Option<(char, Option<char>)>
    ensures parts { is_two_part character ≡ true → result ≡ Some (0x17C1, Some character) }
    ensures hangul { is_two_part character ≡ false → (a b : ℕ) → HangulComposes character a b → result ≡ Some (a, Some b) }
    ensures data { is_two_part character ≡ false → ((a b : ℕ) → ¬ HangulComposes character a b)
        → result ≡ parts_of (canonical_mapping character) }
{
    match character {
        '\u{17BE}' | '\u{17BF}' | '\u{17C0}' | '\u{17C4}' | '\u{17C5}' => {
            Some(('\u{17C1}', Some(character)))
        }
        _ => unicode_tables::decompose(character),
    }
}
