//! Where glyphs stand before any lookup moves them.

ghost use Rattle.std.specs.Prelude.{◌≡◌, ◌<◌, Bool, true, false, replicate, slice_index_or, length, IfOk, IfSome, IsSome, Some};
ghost use Rattle.glyph_lists.specs.Clusters.{zero_glyph};
ghost use Rattle.ot_positions.specs.ChangedAt.{changed_at, position_changed};
ghost use Rattle.ot_positions.specs.FontPositions as font_positions;
ghost use Rattle.ot_positions.specs.FontPositions.{AreAdvanced, AreTheFonts, IsAdvanced, IsPlaced, has_fallback_spaces};
ghost use Rattle.rb_common.specs.Direction.{is_horizontal};
ghost use Rattle.shaping_buffer.specs.KeepsClusters.{KeepsClusters};
ghost use Rattle.shaping_buffer.specs.Positions.{zero_position};

use crate::fallback_spaces::{is_fallback_space, space_advance};
use crate::kept_positions::FontPositions;
use font_face::Face;
use font_functions::FontFunctions;
use rb_common::GlyphId;
use shaping_buffer::{
    GlyphPosition, HB_BUFFER_SCRATCH_FLAG_HAS_SPACE_FALLBACK, hb_buffer_t, hb_glyph_info_t,
};
use std::alloc::AllocError;

/// Gives each glyph the font's advance at the size of its face, and in vertical lines its vertical origin. A space that the font has no glyph for
/// is as wide as its kind says. Requires that no output is open. `Err(AllocError)` where memory runs out for the points of an outline
/// that varies.
#[tactic(auto, using(crate::proofs::WidthsLemmas::keeps_positions, crate::proofs::AdvanceLemmas::advanced_none))]
pub fn position_glyphs<F: FontFunctions>(
    buffer: &mut hb_buffer_t,
    face: &Face,
    font: &F,
) -> Result<(), AllocError>
    requires { buffer.old.have_output ≡ false }
    ensures advances { is_horizontal buffer.old.direction ≡ true → IfOk result (λ _. IfSome buffer.new.positions
        (AreAdvanced (F.may_advance font.now) (has_fallback_spaces buffer.old) buffer.old.input)) }
    ensures rest { buffer.new ≡ record buffer.old { positions = buffer.new.positions } }
    ensures closed { buffer.new.have_output ≡ false }
    ensures placed { IsSome buffer.new.positions }
    ensures keeps { KeepsClusters buffer.old buffer.new }
{
    let is_horizontal = is_horizontal_line(buffer);
    let has_spaces = has_fallback_spaces(buffer);
    buffer.clear_positions();
    let is_varied = !face.coordinates().is_empty();
    if is_horizontal && !has_spaces && !is_varied {
        advance_glyphs(buffer, font);
        return Ok(());
    }
    let mut positions = FontPositions::new(face, font, is_horizontal);
    place_glyphs(buffer, &mut positions, has_spaces)
}

/// Whether the line is horizontal.
pub(crate) fn is_horizontal_line(buffer: &hb_buffer_t) -> bool
    ensures { result ≡ is_horizontal buffer.now.direction }
{
    buffer.direction.is_horizontal()
}

/// Whether some character is a space that the font has no glyph for.
fn has_fallback_spaces(buffer: &hb_buffer_t) -> bool
    ensures { result ≡ has_fallback_spaces buffer.now }
{
    buffer.scratch_flags & HB_BUFFER_SCRATCH_FLAG_HAS_SPACE_FALLBACK != 0
}

/// Gives each glyph its position; a space that the font has no glyph for is as wide as its kind says, if there may be some.
#[tactic(auto, using(crate::proofs::AdvanceLemmas::walks))]
fn place_glyphs<F: FontFunctions>(
    buffer: &mut hb_buffer_t,
    positions: &mut FontPositions<F>,
    has_spaces: bool,
) -> Result<(), AllocError>
    requires closed { buffer.old.have_output ≡ false }
    requires zero { buffer.old.positions ≡ Some (replicate (length buffer.old.input) zero_position) }
    requires kept { AreTheFonts (F.may_advance positions.old.font.now) positions.old.is_horizontal positions.old.kept }
    ensures advances { positions.old.is_horizontal ≡ true → IfOk result (λ _. IfSome buffer.new.positions
        (AreAdvanced (F.may_advance positions.old.font.now) has_spaces buffer.old.input)) }
    ensures rest { buffer.new ≡ record buffer.old { positions = buffer.new.positions } }
    ensures placed { IsSome buffer.new.positions }
{
    let invisible = buffer.invisible;
    for i in 0..buffer.len() {
        let position = position_of(info_at(buffer.info(), i), positions, has_spaces, invisible)?;
        set_position(buffer, i, position);
    }
    Ok(())
}

/// The position of an item; if it may be a space that the font has no glyph for, as wide as its kind says.
fn position_of<F: FontFunctions>(
    info: &hb_glyph_info_t,
    positions: &mut FontPositions<F>,
    may_be_space: bool,
    invisible: Option<GlyphId>,
) -> Result<GlyphPosition, AllocError>
    requires { AreTheFonts (F.may_advance positions.old.font.now) positions.old.is_horizontal positions.old.kept }
    ensures kept { AreTheFonts (F.may_advance positions.new.font.now) positions.new.is_horizontal positions.new.kept }
    ensures font { positions.new.font ≡ positions.old.font }
    ensures direction { positions.new.is_horizontal ≡ positions.old.is_horizontal }
    ensures position { positions.old.is_horizontal ≡ true → IfOk result
        (IsPlaced (F.may_advance positions.old.font.now) may_be_space info.now) }
{
    let mut position = positions.position(glyph_of(info))?;
    let is_space = is_fallback_space(info, may_be_space);
    if !is_space {
        return Ok(position);
    }
    if positions.is_horizontal {
        position.x_advance = space_advance(info, position.x_advance, positions, invisible)?;
        return Ok(position);
    }
    position.y_advance = space_advance(info, position.y_advance, positions, invisible)?;
    Ok(position)
}

/// Gives each glyph of a horizontal line the font's advance.
#[tactic(auto, using(crate::proofs::AdvanceLemmas::walks))]
fn advance_glyphs<F: FontFunctions>(buffer: &mut hb_buffer_t, font: &F)
    requires closed { buffer.old.have_output ≡ false }
    requires zero { buffer.old.positions ≡ Some (replicate (length buffer.old.input) zero_position) }
    ensures advances { (lacks : Bool) → IfSome buffer.new.positions (AreAdvanced (F.may_advance font.now) lacks buffer.old.input) }
    ensures rest { buffer.new ≡ record buffer.old { positions = buffer.new.positions } }
    ensures placed { IsSome buffer.new.positions }
{
    for i in 0..buffer.len() {
        let position = advanced(font, glyph_of(info_at(buffer.info(), i)));
        set_position(buffer, i, position);
    }
}

/// The position of a glyph of a horizontal line.
#[inline]
pub(crate) fn advanced<F: FontFunctions>(font: &F, glyph: GlyphId) -> GlyphPosition
    ensures { IsAdvanced (F.may_advance font.now) glyph.0 result }
{
    GlyphPosition {
        x_advance: font.glyph_h_advance(glyph),
        ..GlyphPosition::default()
    }
}

/// The item at a place.
#[inline]
fn info_at(infos: &[hb_glyph_info_t], place: usize) -> &hb_glyph_info_t
    requires { place < length infos.now }
    ensures { result.now ≡ slice_index_or infos.now place zero_glyph }
{
    &infos[place]
}

/// The glyph of an item.
#[inline]
fn glyph_of(info: &hb_glyph_info_t) -> GlyphId
    ensures { result.0 ≡ font_positions.glyph_of info.now }
{
    GlyphId(u16::try_from(info.glyph_id).unwrap_or(0))
}

/// Sets the position at a place. Requires positions, and that no output is open.
#[inline]
#[tactic(auto, using(crate::proofs::WidthsLemmas::written))]
pub fn set_position(buffer: &mut hb_buffer_t, place: usize, position: GlyphPosition)
    requires closed { buffer.old.have_output ≡ false }
    requires placed { IsSome buffer.old.positions }
    ensures is { buffer.new ≡ position_changed (λ _. position) place buffer.old }
    ensures placed { IsSome buffer.new.positions }
{
    set_in(buffer.pos_mut(), place, position);
}

/// Sets the position at a place of these.
#[inline]
fn set_in(positions: &mut [GlyphPosition], place: usize, position: GlyphPosition)
    ensures { positions.new ≡ changed_at (λ _. position) place positions.old }
{
    if place < positions.len() {
        positions[place] = position;
    }
}
