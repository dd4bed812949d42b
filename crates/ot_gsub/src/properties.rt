//! The properties of glyphs that lookups put in the place of others.

ghost use Rattle.std.specs.Prelude.{◌≡◌};
ghost use Rattle.ot_gsub.specs.Properties.{marked_props, substituted_props};

use font_tables::gdef::Gdef;
use rb_common::GlyphId;

/// The property of a base.
pub(crate) const BASE: u16 = 0x0002;

/// The property of a ligature.
pub(crate) const LIGATURE: u16 = 0x0004;

/// The property of a mark.
pub(crate) const MARK: u16 = 0x0008;

/// The property of a glyph that came by a substitution.
const SUBSTITUTED: u16 = 0x0010;

/// The property of a glyph that came by a ligature.
const LIGATED: u16 = 0x0020;

/// The property of a glyph that came by a multiple substitution.
const MULTIPLIED: u16 = 0x0040;

/// The properties that stay while the glyph's class changes.
const PRESERVED: u16 = 0x0070;

/// How a glyph comes into the place of another one.
#[derive(Clone, Copy, PartialEq, Eq)]
pub(crate) enum Way {
    /// One for one.
    Replaced,
    /// As a ligature.
    Ligated,
    /// As one of several.
    Multiplied,
}

/// The properties of a glyph that comes into the place of one with these (HarfBuzz, `_set_glyph_class`): what became of it
/// before and becomes of it now, and its class in the font; where the font has no classes, the guessed one, or where
/// nothing is guessed, that of the glyph before it.
pub(crate) fn substituted_props(gdef: &Gdef, old: u16, glyph: u16, way: Way, guess: u16) -> u16
    ensures { result ≡ substituted_props gdef.now.table.now old glyph way guess }
{
    let marked = marked_props(old, way);
    if gdef.has_glyph_classes() {
        marked & PRESERVED | gdef.glyph_props(GlyphId(glyph))
    } else if guess != 0 {
        marked & PRESERVED | guess
    } else {
        marked
    }
}

/// The properties with what becomes of the glyph. A ligature is no part of a multiple substitution any more.
fn marked_props(old: u16, way: Way) -> u16
    ensures { result ≡ marked_props old way }
{
    let substituted = old | SUBSTITUTED;
    match way {
        Way::Replaced => substituted,
        Way::Ligated => (substituted | LIGATED) & !MULTIPLIED,
        Way::Multiplied => substituted | MULTIPLIED,
    }
}
