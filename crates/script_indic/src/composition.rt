//! Characters that are taken apart and composed otherwise than by Unicode's canonical mappings.

ghost use Rattle.std.specs.Prelude.{◌≡◌, ℕ, true, false, Some, None};
ghost use Rattle.rb_glyph.specs.Hangul.{HangulComposes};
ghost use Rattle.ucd_normal.specs.Composition.{composite};
ghost use Rattle.ucd_normal.specs.Decomposition.{canonical_mapping};
ghost use Rattle.unicode_tables.specs.Mapping.{parts_of};
ghost use Rattle.script_syllables.specs.Composition.{is_mark};
ghost use Rattle.script_indic.specs.Composition.{is_yya, stays_whole};

/// The one or two characters that a character decomposes to. Some letters stay whole, since fonts have glyphs for them.
pub fn decompose(character: char) -> Option<(char, Option<char>)>
    ensures whole { stays_whole character ≡ true → result ≡ None }
    ensures hangul { stays_whole character ≡ false → (a b : ℕ) → HangulComposes character a b → result ≡ Some (a, Some b) }
    ensures data { stays_whole character ≡ false → ((a b : ℕ) → ¬ HangulComposes character a b)
        → result ≡ parts_of (canonical_mapping character) }
{
    match character {
        '\u{931}' | '\u{9DC}' | '\u{9DD}' | '\u{B94}' => None,
        _ => unicode_tables::decompose(character),
    }
}

/// What a character and the next one compose to. Vowel signs of several parts stay apart; the Bengali letter YYA is composed, though
/// canonical composition leaves it out.
pub fn compose(a: char, b: char) -> Option<char>
    ensures letter { is_yya a b ≡ true → result ≡ Some 0x9DF }
    ensures marks { is_yya a b ≡ false → is_mark a ≡ true → result ≡ None }
    ensures hangul { is_yya a b ≡ false → is_mark a ≡ false → (s : ℕ) → HangulComposes s a b → result ≡ Some s }
    ensures data { is_yya a b ≡ false → is_mark a ≡ false → ((s : ℕ) → ¬ HangulComposes s a b)
        → result ≡ composite a b }
{
    if a == '\u{9AF}' && b == '\u{9BC}' {
        return Some('\u{9DF}');
    }
    script_syllables::composition::compose(a, b)
}
