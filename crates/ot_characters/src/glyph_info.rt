//! What the steps of shaping ask of a character, and set: its Unicode properties, in the bits that HarfBuzz's
//! `hb-ot-layout.hh` gives them.

ghost use Rattle.std.specs.Prelude.{◌≡◌, ◌==◌, ◌&&◌, nat_le};
ghost use Rattle.script_items.specs.Marks.{category};
ghost use Rattle.script_items.specs.Graphemes.{is_same_grapheme};
ghost use Rattle.ot_characters.specs.Numbers as numbers;
ghost use Rattle.ot_characters.specs.Properties as properties;

use script_items::glyph_info::is_continuation;
use script_items::item::general_category;
use shaping_buffer::rb_glyph::hb_gc::{
    RB_UNICODE_GENERAL_CATEGORY_DECIMAL_NUMBER, RB_UNICODE_GENERAL_CATEGORY_FORMAT,
    RB_UNICODE_GENERAL_CATEGORY_LOWERCASE_LETTER, RB_UNICODE_GENERAL_CATEGORY_UPPERCASE_LETTER,
};
use shaping_buffer::{Flags, UnicodeProps, hb_glyph_info_t};

/// Whether the character is a letter.
pub(crate) fn is_letter(info: &hb_glyph_info_t) -> bool
    ensures { result ≡ numbers.is_letter info.now }
{
    let category = general_category(info);
    RB_UNICODE_GENERAL_CATEGORY_LOWERCASE_LETTER <= category
        && category <= RB_UNICODE_GENERAL_CATEGORY_UPPERCASE_LETTER
}

/// Whether the character is a decimal digit.
pub fn is_decimal_number(info: &hb_glyph_info_t) -> bool
    ensures { result ≡ (category info.now == 13) }
{
    general_category(info) == RB_UNICODE_GENERAL_CATEGORY_DECIMAL_NUMBER
}

/// Whether the character is a regional indicator, two of which make a flag.
pub(crate) fn is_regional_indicator(info: &hb_glyph_info_t) -> bool
    ensures { result ≡ (nat_le 0x1F1E6 info.now.glyph_id && nat_le info.now.glyph_id 0x1F1FF) }
{
    0x1F1E6 <= info.glyph_id && info.glyph_id <= 0x1F1FF
}

/// Whether the character is a digit or a regional indicator.
pub(crate) fn is_number(info: &hb_glyph_info_t) -> bool
    ensures { result ≡ numbers.is_number info.now }
{
    is_decimal_number(info) || is_regional_indicator(info)
}

/// Says that the character goes on with the grapheme before it.
pub(crate) fn set_continuation(info: &mut hb_glyph_info_t)
    ensures is { info.new ≡ properties.continued info.old }
    ensures cluster { info.new.cluster ≡ info.old.cluster }
{
    info.set_unicode_props(info.unicode_props() | UnicodeProps::CONTINUATION.bits());
}

/// Whether the second item goes on with the grapheme of the first.
pub(crate) fn is_same_grapheme(_first: &hb_glyph_info_t, second: &hb_glyph_info_t) -> bool
    ensures { result ≡ is_same_grapheme _first.now second.now }
{
    is_continuation(second)
}

/// Whether the character is the zero width joiner.
pub(crate) fn is_zwj(info: &hb_glyph_info_t) -> bool
    ensures { result ≡ properties.is_zwj info.now }
{
    general_category(info) == RB_UNICODE_GENERAL_CATEGORY_FORMAT
        && info.unicode_props() & UnicodeProps::CF_ZWJ.bits() != 0
}
