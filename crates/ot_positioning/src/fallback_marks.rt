//! Marks in a font that does not position them: each is put over or under its base by the bounds of both and by the combining
//! class of the mark (HarfBuzz's `_hb_ot_shape_fallback_mark_position`; Unicode Standard, "Combining Classes").

ghost use Rattle.std.specs.Prelude.{◌≡◌, ◌<◌, ◌≤◌, false, length, slice_index_or, pos, int_div, IfOk, IfSome, IsSome, if◌then◌else◌};
ghost use Rattle.std.specs.List.{prefix_len};
ghost use Rattle.ot_attachments.specs.Flags.{break_marked, untouched};
ghost use Rattle.ot_lookups.specs.LookupProps.{glyph_at};
ghost use Rattle.ot_positions.specs.Widths.{without_advance};
ghost use Rattle.script_items.specs.Marks.{is_mark, is_nonspacing};
ghost use Rattle.ot_positioning.specs.MarkPlacing as placing;
ghost use Rattle.ot_positioning.specs.MarkPlacing.{AreDone, AreMarksPlaced, IsBase, IsBegun, IsBehind, IsDoneAt, IsPlaced, IsPlacedAt, IsPutAround};
ghost use Rattle.ot_positioning.specs.MarkPlacing.{marks_end, position_at};
ghost use Rattle.shaping_buffer.specs.KeepsClusters.{KeepsClusters};
ghost use Rattle.shaping_buffer.specs.Positions.{zero_position};

use crate::mark_placing::{Line, Marks};
use font_face::Face;
use font_functions::FontFunctions;
use ot_attachments::flags::mark_break;
use ot_layout::ligature_parts::{component_count, ligature_id};
use ot_positions::{set_position, zero_mark_width};
use rb_common::{Direction, GlyphId, Script};
use rb_glyph::GlyphExtents;
use script_items::glyph_info::is_nonspacing_mark;
use script_items::item::{is_unicode_mark, modified_combining_class};
use shaping_buffer::{GlyphPosition, hb_buffer_t, hb_glyph_info_t};
use std::alloc::AllocError;

/// Positions the marks behind each base. `direction` is the way in which the line was said to run. The advances of marks are
/// taken; where the font has no bounds of a base, its marks are moved back by theirs if `adjusts` says so. Requires positions, and that no
/// output is open. `Err(AllocError)` where memory runs out for the points of an outline that varies.
#[tactic(auto, using(shaping_buffer::proofs::ClosedKeepsLemmas::kept))]
pub fn position_marks<F: FontFunctions>(
    buffer: &mut hb_buffer_t,
    face: &Face,
    font: &F,
    direction: Direction,
    adjusts: bool,
) -> Result<(), AllocError>
    requires closed { buffer.old.have_output ≡ false }
    requires placed { IsSome buffer.old.positions }
    ensures is { IfOk result (λ _. AreMarksPlaced (F.may_advance font.now)
        (placing.line_of direction (int_div face.now.scale.y (pos 16)) buffer.old) adjusts buffer.old buffer.new) }
    ensures closed { buffer.new.have_output ≡ false }
    ensures placed { IsSome buffer.new.positions }
    ensures keeps { KeepsClusters buffer.old buffer.new }
{
    let line = line_of(buffer, direction, face);
    mark_baseless(buffer);
    place_all(buffer, font, line, adjusts)
}

/// Positions the marks behind each base, one base after the other.
#[tactic(auto, using(shaping_buffer::proofs::ClosedKeepsLemmas::kept))]
fn place_all<F: FontFunctions>(
    buffer: &mut hb_buffer_t,
    font: &F,
    line: Line,
    adjusts: bool,
) -> Result<(), AllocError>
    requires closed { buffer.old.have_output ≡ false }
    requires placed { IsSome buffer.old.positions }
    ensures is { IfOk result (λ _.
        AreDone (F.may_advance font.now) line adjusts (length buffer.old.input) 0 buffer.old buffer.new) }
    ensures closed { buffer.new.have_output ≡ false }
    ensures placed { IsSome buffer.new.positions }
    ensures keeps { KeepsClusters buffer.old buffer.new }
{
    for place in 0..buffer.len() {
        place_behind(buffer, font, line, place, adjusts)?;
    }
    Ok(())
}

/// Positions the marks behind the item at a place, if it is a base that has some: the text is not to be broken between them.
#[tactic(auto, using(shaping_buffer::proofs::ClosedKeepsLemmas::kept))]
fn place_behind<F: FontFunctions>(
    buffer: &mut hb_buffer_t,
    font: &F,
    line: Line,
    place: usize,
    adjusts: bool,
) -> Result<(), AllocError>
    requires closed { buffer.old.have_output ≡ false }
    requires placed { IsSome buffer.old.positions }
    requires within { place < length buffer.old.input }
    ensures is { IfOk result (λ _. IsDoneAt (F.may_advance font.now) line adjusts place buffer.old buffer.new) }
    ensures closed { buffer.new.have_output ≡ false }
    ensures placed { IsSome buffer.new.positions }
    ensures same_length { length buffer.new.input ≡ length buffer.old.input }
    ensures keeps { KeepsClusters buffer.old buffer.new }
{
    let end = marks_end(buffer.info(), place);
    let has_none = end - place == 1;
    if has_none {
        return Ok(());
    }
    keep_together(buffer, place, end);
    place_around(buffer, font, line, (place, end), adjusts)
}

/// Says that the text is not to be broken between these places.
fn keep_together(buffer: &mut hb_buffer_t, start: usize, end: usize)
    requires closed { buffer.old.have_output ≡ false }
    requires placed { IsSome buffer.old.positions }
    ensures is { buffer.new ≡ break_marked start end buffer.old }
    ensures closed { buffer.new.have_output ≡ false }
    ensures placed { IsSome buffer.new.positions }
    ensures rest { untouched buffer.new ≡ untouched buffer.old }
    ensures keeps { KeepsClusters buffer.old buffer.new }
{
    prove!(buffer.out_len() == 0);
    mark_break(buffer, start, end);
    prove!(buffer.out_len() == 0);
}

/// Where the marks end that stand behind the item at a place; behind a mark there are none of its own.
fn marks_end(infos: &[hb_glyph_info_t], place: usize) -> usize
    requires { place < length infos.now }
    ensures is { result ≡ marks_end infos.now place }
    ensures order { place < result }
{
    if is_unicode_mark(&info_at(infos, place)) {
        place + 1
    } else {
        place + 1 + first_marks(&infos[place + 1..])
    }
}

/// Marks those that begin the text, and have no base, as unsafe to concatenate: behind another text they might have one.
fn mark_baseless(buffer: &mut hb_buffer_t)
    requires closed { buffer.old.have_output ≡ false }
    requires placed { IsSome buffer.old.positions }
    ensures is { buffer.new ≡ placing.baseless_marked buffer.old }
    ensures closed { buffer.new.have_output ≡ false }
    ensures placed { IsSome buffer.new.positions }
    ensures keeps { KeepsClusters buffer.old buffer.new }
{
    let end = first_marks(buffer.info());
    buffer.unsafe_to_concat(Some(0), Some(end));
}

/// How many marks begin a text.
fn first_marks(infos: &[hb_glyph_info_t]) -> usize
    ensures is { result ≡ prefix_len is_mark infos.now }
    ensures within { result ≤ length infos.now }
{
    infos
        .iter()
        .take_while(|info| is_unicode_mark(info))
        .count()
}

/// How a line runs.
fn line_of(buffer: &hb_buffer_t, direction: Direction, face: &Face) -> Line
    ensures { result ≡ placing.line_of direction (int_div face.now.scale.y (pos 16)) buffer.now }
{
    Line {
        direction: buffer.direction,
        components_run_right: runs_right(horizontal_direction(direction, buffer.script)),
        gap: face.scale.y / 16,
    }
}

/// The way in which the components of a ligature stand: in vertical lines that of the script, from left to right where the text has none.
fn horizontal_direction(direction: Direction, script: Option<Script>) -> Option<Direction>
    ensures { result ≡ placing.horizontal_direction direction script }
{
    if direction.is_horizontal() {
        return Some(direction);
    }
    match script {
        Some(script) => Direction::from_script(script),
        None => Some(Direction::LeftToRight),
    }
}

/// Whether this way is from left to right.
fn runs_right(direction: Option<Direction>) -> bool
    ensures { result ≡ placing.runs_right direction }
{
    match direction {
        Some(direction) => is_left_to_right(direction),
        None => false,
    }
}

/// Whether a direction is from left to right.
fn is_left_to_right(direction: Direction) -> bool
    ensures { result ≡ placing.is_left_to_right direction }
{
    matches!(direction, Direction::LeftToRight)
}

/// Positions the marks of a base, which stand behind it up to the end of `range`.
fn place_around<F: FontFunctions>(
    buffer: &mut hb_buffer_t,
    font: &F,
    line: Line,
    range: (usize, usize),
    adjusts: bool,
) -> Result<(), AllocError>
    requires closed { buffer.old.have_output ≡ false }
    requires placed { IsSome buffer.old.positions }
    requires order { range.0 < range.1 }
    ensures is { IfOk result (λ _.
        IsPutAround (F.may_advance font.now) line adjusts range.0 range.1 buffer.old buffer.new) }
    ensures rest { buffer.new ≡ record buffer.old { positions = buffer.new.positions } }
    ensures placed { IsSome buffer.new.positions }
{
    let mut marks = marks_of(buffer, font, line, range.0)?;
    for place in range.0 + 1..range.1 {
        place_at(buffer, font, &mut marks, place, adjusts)?;
    }
    Ok(())
}

/// The item at a place as a base, with no marks yet; `None` where the font has no bounds of it.
fn marks_of<F: FontFunctions>(
    buffer: &hb_buffer_t,
    font: &F,
    line: Line,
    place: usize,
) -> Result<Option<Marks>, AllocError>
    requires { IsSome buffer.now.positions }
    ensures { IfOk result (IsBegun (F.may_advance font.now) line (glyph_at buffer.now.input place) (position_at place buffer.now)) }
{
    let info = info_at(buffer.info(), place);
    let position = position_at(buffer.pos(), place);
    marks_around(font, line, &info, &position)
}

/// The base of an item at a position, with no marks yet.
fn marks_around<F: FontFunctions>(
    font: &F,
    line: Line,
    info: &hb_glyph_info_t,
    position: &GlyphPosition,
) -> Result<Option<Marks>, AllocError>
    ensures { IfOk result (IsBegun (F.may_advance font.now) line info.now position.now) }
{
    let Some(glyph) = glyph_of(info) else {
        return Ok(None);
    };
    let Some(bounds) = font.glyph_extents(glyph)? else {
        return Ok(None);
    };
    let base = base_of(font, glyph, bounds, position);
    let parts = (ligature_id(info), component_count(info));
    Ok(Some(Marks::new(line, base, position, parts)))
}

/// Positions the item at a place behind a base.
fn place_at<F: FontFunctions>(
    buffer: &mut hb_buffer_t,
    font: &F,
    marks: &mut Option<Marks>,
    place: usize,
    adjusts: bool,
) -> Result<(), AllocError>
    requires closed { buffer.old.have_output ≡ false }
    requires placed { IsSome buffer.old.positions }
    ensures is { IfOk result (λ _. IsPlacedAt adjusts place buffer.old marks.old buffer.new marks.new) }
    ensures rest { buffer.new ≡ record buffer.old { positions = buffer.new.positions } }
    ensures placed { IsSome buffer.new.positions }
{
    let info = info_at(buffer.info(), place);
    let mut position = position_at(buffer.pos(), place);
    place_one(marks, font, &info, &mut position, adjusts)?;
    set_position(buffer, place, position);
    Ok(())
}

/// The item at a place.
fn info_at(infos: &[hb_glyph_info_t], place: usize) -> hb_glyph_info_t
    ensures { result ≡ glyph_at infos.now place }
{
    if place < infos.len() {
        infos[place]
    } else {
        hb_glyph_info_t::default()
    }
}

/// The position at a place.
fn position_at(positions: &[GlyphPosition], place: usize) -> GlyphPosition
    ensures { result ≡ slice_index_or positions.now place zero_position }
{
    if place < positions.len() {
        positions[place]
    } else {
        GlyphPosition::default()
    }
}

/// Positions an item behind a base; where there is nothing to put marks around, those without width take no room.
fn place_one<F: FontFunctions>(
    marks: &mut Option<Marks>,
    font: &F,
    info: &hb_glyph_info_t,
    position: &mut GlyphPosition,
    adjusts: bool,
) -> Result<(), AllocError>
    ensures { IfOk result (λ _. IsBehind adjusts info.now marks.old position.old marks.new position.new) }
{
    match marks {
        Some(marks) => position_mark(marks, font, info, position),
        None => {
            narrow(info, position, adjusts);
            Ok(())
        }
    }
}

/// Takes the advance of a mark without width.
fn narrow(info: &hb_glyph_info_t, position: &mut GlyphPosition, adjusts: bool)
    ensures { position.new
        ≡ (if is_nonspacing info.now then without_advance adjusts position.old else position.old) }
{
    if is_nonspacing_mark(info) {
        zero_mark_width(position, adjusts);
    }
}

/// What marks are put around, by the bounds of the base: it is as wide as its advance, and stands as much higher as it was moved up.
fn base_of<F: FontFunctions>(
    font: &F,
    glyph: GlyphId,
    bounds: GlyphExtents,
    position: &GlyphPosition,
) -> GlyphExtents
    ensures { IsBase (F.may_advance font.now glyph.0) bounds position.now result }
{
    GlyphExtents {
        x_bearing: 0,
        y_bearing: bounds.y_bearing.wrapping_add(position.y_offset),
        width: font.glyph_h_advance(glyph),
        height: bounds.height,
    }
}

/// The glyph of an item, which has 16 bits.
fn glyph_of(info: &hb_glyph_info_t) -> Option<GlyphId>
    ensures { IfSome result (λ glyph. glyph.0 ≡ info.now.glyph_id) }
{
    match u16::try_from(info.glyph_id) {
        Ok(number) => Some(GlyphId(number)),
        Err(_) => None,
    }
}

/// Positions an item behind a base: a mark with a class by that class. The next marks stand behind any other item.
fn position_mark<F: FontFunctions>(
    marks: &mut Marks,
    font: &F,
    info: &hb_glyph_info_t,
    position: &mut GlyphPosition,
) -> Result<(), AllocError>
    ensures { IfOk result (λ _. IsPlaced info.now marks.old position.old marks.new position.new) }
{
    if modified_combining_class(info) == 0 {
        marks.pass(position);
        return Ok(());
    }
    let bounds = bounds_of(font, info)?;
    marks.place(info, bounds, position);
    Ok(())
}

/// The bounds that the font has of an item's glyph.
fn bounds_of<F: FontFunctions>(
    font: &F,
    info: &hb_glyph_info_t,
) -> Result<Option<GlyphExtents>, AllocError> {
    match glyph_of(info) {
        Some(glyph) => font.glyph_extents(glyph),
        None => Ok(None),
    }
}
