//! The codes by which a subtable knows characters.

ghost use Rattle.std.specs.Prelude.{◌≡◌};
ghost use Rattle.font_cmap.specs.Codes.{own_code, other_code};

use crate::legacy_codes::{macintosh_roman_code, simplified_arabic_code, traditional_arabic_code};

/// What the codes of a subtable stand for (OpenType specification, `cmap`, "Encoding records and encodings").
#[derive(Clone, Copy, PartialEq, Eq)]
pub enum Encoding {
    /// Characters of Unicode, or symbols whose codes are taken as they are.
    Unicode,
    /// Symbols: a character up to U+00FF may also have the code 0xF000 above it.
    Symbol,
    /// Simplified Arabic of Windows 3.1, whose characters may have codes of the private use area.
    SimplifiedArabic,
    /// Traditional Arabic of Windows 3.1, whose characters may have codes of the private use area.
    TraditionalArabic,
    /// Macintosh Roman.
    MacintoshRoman,
    /// Another encoding of the Macintosh, of which ASCII is read.
    Macintosh,
}

/// The character's own number, if it is a code of the encoding.
#[tactic(auto, unfolding(crate::specs::Codes::own_code))]
pub(crate) fn own_code(encoding: Encoding, character: u32) -> Option<u32>
    ensures { result ≡ own_code encoding character }
{
    match encoding {
        Encoding::MacintoshRoman | Encoding::Macintosh if character >= 128 => None,
        _ => Some(character),
    }
}

/// Another number that the encoding has for a character.
#[tactic(auto, unfolding(crate::specs::Codes::other_code))]
pub(crate) fn other_code(encoding: Encoding, character: u32) -> Option<u32>
    ensures { result ≡ other_code encoding character }
{
    match encoding {
        Encoding::Symbol if character < 256 => Some(0xF000 + character),
        Encoding::SimplifiedArabic => simplified_arabic_code(character),
        Encoding::TraditionalArabic => traditional_arabic_code(character),
        Encoding::MacintoshRoman => macintosh_roman_code(character),
        Encoding::Symbol | Encoding::Unicode | Encoding::Macintosh => None,
    }
}
