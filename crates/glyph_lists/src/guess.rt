//! The script and the direction of a text, guessed from its characters.

ghost use Rattle.std.specs.Prelude.{◌≡◌};
ghost use Rattle.glyph_lists.specs.Guess.{AreCharacters, is_neutral, guessed_script, guessed_direction};

use rb_common::{Direction, Script, script};
use rb_glyph::{CharExt, hb_glyph_info_t};

/// Whether the script says nothing of the text: punctuation and digits are common to many, marks
/// inherit the script of what they stand on, and some characters have none.
fn is_neutral(script: Script) -> bool
    ensures { result ≡ is_neutral script }
{
    matches!(script, script::COMMON | script::INHERITED | script::UNKNOWN)
}

/// The script of the first character that has one of its own.
pub fn first_script(info: &[hb_glyph_info_t]) -> Option<Script>
    requires { AreCharacters info.now }
    ensures { result ≡ guessed_script info.now }
{
    info.iter()
        .map(|glyph| glyph.as_char().script())
        .find(|script| !is_neutral(*script))
}

/// The direction in which the script is written: from left to right where there is none, and for
/// a script that is written either way.
pub fn guess_direction(script: Option<Script>) -> Direction
    ensures { result ≡ guessed_direction script }
{
    script
        .and_then(Direction::from_script)
        .unwrap_or(Direction::LeftToRight)
}
