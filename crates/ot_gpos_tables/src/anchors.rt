//! Anchors: points of glyphs, at which others are attached, and the arrays in which they stand (OpenType specification, "GPOS -
//! Glyph Positioning Table", "Anchor tables", "Mark array table").

ghost use Rattle.std.specs.Prelude.{◌≡◌, ◌≤◌, ◌<◌, ◌+◌, ◌*◌, length};
ghost use Rattle.std.specs.Prelude.{◌-ℤ◌};
ghost use Rattle.std.specs.Int.{w32, int_wrapping_add, int_wrapping_sub};
ghost use Rattle.std.specs.Option.{option_copied};
ghost use Rattle.ot_gpos_tables.specs.Anchors.{anchor, known_anchor, anchor_size, device_offset, coordinate, between, anchor_in, mark_class, mark_anchor};
ghost use Rattle.ot_gpos_tables.specs.Anchors.{ligature_matrix, placed, named_point, at_point, moved_to};

use crate::contour_points::ContourPoint;
use crate::devices::{x_correction, y_correction};
use crate::instance::Instance;
use font_tables::bytes::{i16_at, table_at_16, u16_at};
use font_tables::scale::Scale;

/// A point of a glyph.
#[derive(Clone, Copy)]
pub struct Anchor {
    /// To the right, in font units.
    pub x: i16,
    /// Upwards, in font units.
    pub y: i16,
    /// How far it is moved to the right where glyphs are drawn in pixels, or where variations are chosen.
    pub x_delta: i32,
    /// How far it is moved upwards where glyphs are drawn in pixels, or where variations are chosen.
    pub y_delta: i32,
}

impl Anchor {
    /// The anchor in a table. One of an unknown format is the origin; `None` where the table is cut short. In pixels one of format 2
    /// is the point of the outline that `named_point` names, where the font knows it.
    #[tactic(auto, unfolding(crate::specs::Anchors::anchor))]
    pub fn read(
        table: &[u8],
        instance: &Instance<'_>,
        point: Option<ContourPoint>,
    ) -> Option<Anchor>
        ensures { result ≡ anchor table.now instance.now point }
    {
        let format = u16_at(table, 0)?;
        if 1 <= format && format <= 3 {
            let own = known_anchor(table, format, instance)?;
            Some(moved_to(own, format, &instance.scale, point))
        } else {
            Some(Anchor {
                x: 0,
                y: 0,
                x_delta: 0,
                y_delta: 0,
            })
        }
    }

    /// How far it is to the right, at this size.
    pub fn x_at(&self, scale: &Scale) -> i32
        ensures { result ≡ placed self.now.x self.now.x_delta scale.now.x scale.now.units_per_em }
    {
        scale
            .distance_x(i32::from(self.x))
            .wrapping_add(self.x_delta)
    }

    /// How far up it is, at this size.
    pub fn y_at(&self, scale: &Scale) -> i32
        ensures { result ≡ placed self.now.y self.now.y_delta scale.now.y scale.now.units_per_em }
    {
        scale
            .distance_y(i32::from(self.y))
            .wrapping_add(self.y_delta)
    }

    /// How far another point is to the right of this one, at this size.
    pub fn x_to(&self, other: &Anchor, scale: &Scale) -> i32
        ensures { result ≡ between self.now.x self.now.x_delta other.now.x other.now.x_delta scale.now.x scale.now.units_per_em }
    {
        let distance = scale.distance_x(difference(self.x, other.x));
        moved(distance, other.x_delta, self.x_delta)
    }

    /// How far another point is above this one, at this size.
    pub fn y_to(&self, other: &Anchor, scale: &Scale) -> i32
        ensures { result ≡ between self.now.y self.now.y_delta other.now.y other.now.y_delta scale.now.y scale.now.units_per_em }
    {
        let distance = scale.distance_y(difference(self.y, other.y));
        moved(distance, other.y_delta, self.y_delta)
    }
}

/// The point of an outline that is the anchor of format 2 where glyphs are drawn in pixels; `None` where a table names none.
pub fn named_point(table: &[u8], scale: &Scale) -> Option<u16>
    ensures { result ≡ named_point table.now scale.now }
{
    if matches!(u16_at(table, 0), Some(2)) && (scale.x_ppem > 0 || scale.y_ppem > 0) {
        u16_at(table, 6)
    } else {
        None
    }
}

/// An anchor of this format, which in format 2 is at the point where there is one.
fn moved_to(own: Anchor, format: u16, scale: &Scale, point: Option<ContourPoint>) -> Anchor
    ensures { result ≡ moved_to own format scale.now point }
{
    match point {
        Some(point) if format == 2 => at_point(own, scale, point),
        _ => own,
    }
}

/// The anchor at a point, in the directions that have pixels.
fn at_point(own: Anchor, scale: &Scale, point: ContourPoint) -> Anchor
    ensures { result ≡ at_point own scale.now point }
{
    let (x, x_delta) = if scale.x_ppem > 0 {
        (0, point.x)
    } else {
        (own.x, own.x_delta)
    };
    let (y, y_delta) = if scale.y_ppem > 0 {
        (0, point.y)
    } else {
        (own.y, own.y_delta)
    };
    Anchor {
        x,
        y,
        x_delta,
        y_delta,
    }
}

/// From one number to another.
fn difference(from: i16, to: i16) -> i32
    ensures { result ≡ to -ℤ from }
{
    i32::from(to) - i32::from(from)
}

/// A distance whose ends are moved.
fn moved(distance: i32, end: i32, start: i32) -> i32
    ensures { result ≡ int_wrapping_sub w32 (int_wrapping_add w32 distance end) start }
{
    distance.wrapping_add(end).wrapping_sub(start)
}

/// The anchor of a known format.
fn known_anchor(table: &[u8], format: u16, instance: &Instance<'_>) -> Option<Anchor>
    ensures { result ≡ known_anchor table.now format instance.now }
{
    if table.len() < anchor_size(format) {
        return None;
    }
    Some(Anchor {
        x: coordinate(table, 2),
        y: coordinate(table, 4),
        x_delta: x_correction(table, device_offset(table, format, 6), instance),
        y_delta: y_correction(table, device_offset(table, format, 8), instance),
    })
}

/// The signed number at a place, and 0 outside of the table.
#[tactic(auto, unfolding(crate::specs::Anchors::coordinate))]
fn coordinate(table: &[u8], at: usize) -> i16
    ensures { result ≡ coordinate table.now at }
{
    i16_at(table, at).unwrap_or(0)
}

/// How many bytes an anchor of a known format has.
fn anchor_size(format: u16) -> usize
    ensures { result ≡ anchor_size format }
{
    match format {
        1 => 6,
        2 => 8,
        _ => 10,
    }
}

/// The offset of a device table at a place; 0 where the format has none.
fn device_offset(table: &[u8], format: u16, at: usize) -> u16
    ensures { result ≡ device_offset table.now format at }
{
    if format == 3 {
        u16_at(table, at).unwrap_or(0)
    } else {
        0
    }
}

/// The table of the anchor in a row and a column of a matrix with so many columns; `None` where there is none.
pub fn anchor_in(matrix: &[u8], row: u32, column: u16, columns: u16) -> Option<&[u8]>
    ensures { option_copied result ≡ anchor_in matrix.now row column columns }
{
    let rows = u32::from(u16_at(matrix, 0).unwrap_or(0));
    if row < rows && column < columns {
        let place = row as usize * usize::from(columns) + usize::from(column);
        table_at_16(matrix, 2 + 2 * place)
    } else {
        None
    }
}

/// The class of a mark, by its coverage index. One that the array does not have is of class 0.
pub fn mark_class(marks: &[u8], index: u32) -> u16
    ensures { result ≡ mark_class marks.now index }
{
    if index < u32::from(u16_at(marks, 0).unwrap_or(0)) {
        u16_at(marks, 2 + 4 * index as usize).unwrap_or(0)
    } else {
        0
    }
}

/// The table of a mark's anchor, by the mark's coverage index; an empty one where there is none.
pub fn mark_anchor(marks: &[u8], index: u32) -> &[u8]
    ensures { result.now ≡ mark_anchor marks.now index }
{
    if index < u32::from(u16_at(marks, 0).unwrap_or(0)) {
        table_at_16(marks, 4 + 4 * index as usize).unwrap_or(&[])
    } else {
        &[]
    }
}

/// The matrix of a ligature, with a row for each of its components, by the ligature's coverage index.
pub fn ligature_matrix(ligatures: &[u8], index: u32) -> Option<&[u8]>
    ensures { option_copied result ≡ ligature_matrix ligatures.now index }
{
    if index < u32::from(u16_at(ligatures, 0).unwrap_or(0)) {
        table_at_16(ligatures, 2 + 2 * index as usize)
    } else {
        None
    }
}
