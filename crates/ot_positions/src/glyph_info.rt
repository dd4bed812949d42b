//! What is asked of a glyph where it is placed: what its font and its lookups say of it.

ghost use Rattle.std.specs.Prelude.{◌≡◌};
ghost use Rattle.ot_positions.specs.FontPositions as font_positions;
ghost use Rattle.ot_positions.specs.Widths as widths;

use shaping_buffer::{Flags, GlyphPropsFlags, UnicodeProps, hb_glyph_info_t};

/// Whether the glyph is that of a character which is invisible by default, and no lookup put it there.
#[tactic(auto, unfolding(crate::specs::Widths::is_default_ignorable))]
pub(crate) fn is_default_ignorable(info: &hb_glyph_info_t) -> bool
    ensures { result ≡ widths.is_default_ignorable info.now }
{
    info.unicode_props() & UnicodeProps::IGNORABLE.bits() != 0
        && info.glyph_props() & GlyphPropsFlags::SUBSTITUTED.bits() == 0
}

/// Whether the glyph is a mark by its font.
pub(crate) fn is_mark(info: &hb_glyph_info_t) -> bool
    ensures { result ≡ widths.is_mark info.now }
{
    info.glyph_props() & GlyphPropsFlags::MARK.bits() != 0
}

/// Whether a lookup made the glyph from several, and did not take it apart again.
pub(crate) fn has_ligated(info: &hb_glyph_info_t) -> bool
    ensures { result ≡ font_positions.has_ligated info.now }
{
    info.glyph_props() & GlyphPropsFlags::LIGATED.bits() != 0
}
