//! What characters of scripts in syllables compose to.

ghost use Rattle.std.specs.Prelude.{◌≡◌, ℕ, true, false, Some, None};
ghost use Rattle.rb_glyph.specs.Hangul.{HangulComposes};
ghost use Rattle.ucd_normal.specs.Composition.{composite};
ghost use Rattle.script_syllables.specs.Composition.{is_mark};

use rb_glyph::{CharExt, GeneralCategoryExt};

/// What a character and the next one compose to. Vowel signs of several parts stay apart.
pub fn compose(a: char, b: char) -> Option<char>
    ensures marks { is_mark a ≡ true → result ≡ None }
    ensures hangul { is_mark a ≡ false → (s : ℕ) → HangulComposes s a b → result ≡ Some s }
    ensures data { is_mark a ≡ false → ((s : ℕ) → ¬ HangulComposes s a b) → result ≡ composite a b }
{
    if a.general_category().is_mark() {
        return None;
    }
    unicode_tables::compose(a, b)
}
