//! The part of a glyph in a ligature, as HarfBuzz keeps it in the ligature properties: the number of the ligature in bits
//! 5 to 7, and below it for the ligature itself bit 4 and how many components it has, and for a mark the component that
//! it belongs to.

ghost use Rattle.std.specs.Prelude.{◌≡◌};
ghost use Rattle.ot_layout.specs.LigatureParts as parts;

use rb_glyph::hb_glyph_info_t;

/// The bit of a ligature itself.
const IS_LIGATURE_BASE: u8 = 0x10;

/// The bits of a component, or of the count of components.
const COMPONENT: u8 = 0x0F;

/// The glyph property of a ligature.
const LIGATURE: u16 = 0x0004;

/// The number of the ligature that a glyph is or belongs to, or 0.
pub fn ligature_id(glyph: &hb_glyph_info_t) -> u8
    ensures { result ≡ parts.ligature_id glyph.now }
{
    glyph.lig_props() / 32
}

/// The component that a glyph belongs to, or 0.
pub fn ligature_component(glyph: &hb_glyph_info_t) -> u8
    ensures { result ≡ parts.ligature_component glyph.now }
{
    let properties = glyph.lig_props();
    if properties & IS_LIGATURE_BASE != 0 {
        0
    } else {
        properties & COMPONENT
    }
}

/// How many components a glyph has: 1 where it is no ligature.
pub fn component_count(glyph: &hb_glyph_info_t) -> u8
    ensures { result ≡ parts.component_count glyph.now }
{
    let properties = glyph.lig_props();
    if glyph.glyph_props() & LIGATURE != 0 && properties & IS_LIGATURE_BASE != 0 {
        properties & COMPONENT
    } else {
        1
    }
}

/// The ligature properties of a ligature with this number and so many components.
pub fn ligature_properties(id: u8, components: u8) -> u8
    ensures { result ≡ parts.ligature_properties id components }
{
    id % 8 * 32 | IS_LIGATURE_BASE | components & COMPONENT
}

/// The ligature properties of a mark that belongs to a component of the ligature with this number.
pub fn mark_properties(id: u8, component: u8) -> u8
    ensures { result ≡ parts.mark_properties id component }
{
    id % 8 * 32 | component & COMPONENT
}
