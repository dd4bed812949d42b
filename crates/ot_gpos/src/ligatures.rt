//! Which part of a ligature a mark belongs to, and which glyphs came of one.

ghost use Rattle.std.specs.Prelude.{◌≡◌};
ghost use Rattle.ot_gpos.specs.Attachments as marks;

use crate::marks::is_mark;
use font_tables::bytes::u16_at;
use ot_layout::ligature_parts::{ligature_component, ligature_id};
use rb_glyph::{Flags, GlyphPropsFlags, hb_glyph_info_t};

/// Whether two marks belong to the same base or to the same component of a ligature, or one of them is a ligature itself.
pub(crate) fn are_of_one_part(mark: &hb_glyph_info_t, other: &hb_glyph_info_t) -> bool
    ensures { result ≡ marks.are_of_one_part mark.now other.now }
{
    let (id, other_id) = (ligature_id(mark), ligature_id(other));
    let (component, other_component) = (ligature_component(mark), ligature_component(other));
    if id == other_id {
        id == 0 || component == other_component
    } else {
        id > 0 && component == 0 || other_id > 0 && other_component == 0
    }
}

/// The row of a ligature's matrix for a mark: that of the component it belongs to, or the last one. `None` where the ligature has no
/// components.
#[tactic(auto, unfolding(crate::specs::Attachments::ligature_row))]
pub(crate) fn ligature_row(
    matrix: &[u8],
    ligature: &hb_glyph_info_t,
    mark: &hb_glyph_info_t,
) -> Option<u32>
    ensures { result ≡ marks.ligature_row matrix.now ligature.now mark.now }
{
    let count = u32::from(u16_at(matrix, 0)?);
    let id = ligature_id(ligature);
    let component = u32::from(ligature_component(mark));
    let number = if id != 0 && id == ligature_id(mark) && component != 0 {
        count.min(component)
    } else {
        count
    };
    number.checked_sub(1)
}

/// Whether the glyph at a place is the first glyph of a multiple substitution, or comes of none. Behind a mark in such a sequence a
/// new one begins.
#[tactic(auto, unfolding(crate::specs::Attachments::is_first_of_many))]
pub(crate) fn is_first_of_many(glyphs: &[hb_glyph_info_t], place: usize) -> bool
    ensures { result ≡ marks.is_first_of_many glyphs.now place }
{
    if place == 0 || place >= glyphs.len() {
        return true;
    }
    let (before, glyph) = (&glyphs[place - 1], &glyphs[place]);
    !is_multiplied(glyph) || ligature_component(glyph) == 0 || !goes_on(before, glyph)
}

/// Whether a sequence goes on at a glyph.
fn goes_on(before: &hb_glyph_info_t, glyph: &hb_glyph_info_t) -> bool
    ensures { result ≡ marks.goes_on before.now glyph.now }
{
    !is_mark(before)
        && is_multiplied(before)
        && ligature_id(glyph) == ligature_id(before)
        && u16::from(ligature_component(glyph)) == u16::from(ligature_component(before)) + 1
}

/// Whether a glyph comes of a multiple substitution.
fn is_multiplied(glyph: &hb_glyph_info_t) -> bool
    ensures { result ≡ marks.is_multiplied glyph.now }
{
    glyph.glyph_props() & GlyphPropsFlags::MULTIPLIED.bits() != 0
}
