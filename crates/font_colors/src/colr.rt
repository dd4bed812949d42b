//! Boxes that glyphs drawn in colours are clipped to (OpenType specification, "COLR - Color Table", "ClipList table").

ghost use Rattle.std.specs.Prelude.{◌≡◌, ◌<◌, ◌≤◌, IsTrue};
ghost use Rattle.font_tables.specs.Rows.{Rises};
ghost use Rattle.font_colors.specs.Colr.{box_between, box_of, box_of_sides, clip_bytes, clip_count, clip_list, clip_of, delta_set, distance, last_glyph, moved, part_at, side, varies};

use font_tables::bytes::{i16_at, table_at_32, tail, u8_at, u16_at, u24_at, u32_at};
use font_tables::rows::{Keys16, first_row, rises, rows_within};
use font_variations::VariationStore;
use font_variations::index_map::{DeltaSetIndex, IndexMap};
use font_variations::rounding::{float, rounded};
use outline_tables::glyf::NO_BOX;
use rb_common::GlyphId;
use rb_glyph::GlyphExtents;
use std::num::saturating_f32_to_i32;

/// The table of a font with glyphs that are drawn in colours, as far as it says boxes of them.
#[derive(Clone, Copy)]
pub struct ColrTable<'a> {
    /// The bytes of the table.
    pub table: &'a [u8],
    clips: &'a [u8],
    count: u32,
    are_rising: bool,
    ghost is_list: { clips.now ≡ clip_list table.now },
    ghost counts: { count ≡ clip_count clips.now },
    ghost rise: { IsTrue are_rising → Rises (last_glyph clips.now) count },
}

impl<'a> ColrTable<'a> {
    ghost use Rattle.font_colors.specs.Colr.{clip_box};

    /// The table in these bytes.
    pub fn new(table: &'a [u8]) -> Self
        ensures { result.table.now ≡ table.now }
    {
        let clips = clip_list(table);
        let count = clip_count(clips);
        ColrTable {
            table,
            clips,
            count,
            are_rising: rises(&last_glyphs(clips), count as usize),
        }
    }

    /// The box that a glyph is clipped to, in font units, at these coordinates; `None` where the font says none.
    #[tactic(auto, unfolding(crate::specs::Colr::clip_box))]
    pub fn clip_box(&self, glyph: GlyphId, coordinates: &[i32]) -> Option<GlyphExtents>
        ensures { result ≡ clip_box self.now.table.now glyph.0 coordinates.now }
    {
        let row = clip_of(self.clips, self.count, self.are_rising, glyph)?;
        box_of(clip_bytes(self.clips, row), self.table, coordinates)
    }
}

/// The table that an offset of `COLR` leads to; an empty one where there is none.
pub(crate) fn part_at(colr: &[u8], at: usize) -> &[u8]
    ensures { result.now ≡ part_at colr.now at }
{
    if u16_at(colr, 0).unwrap_or(0) > 0 {
        table_at_32(colr, at).unwrap_or(&[])
    } else {
        &[]
    }
}

/// The list of boxes.
fn clip_list(colr: &[u8]) -> &[u8]
    ensures { result.now ≡ clip_list colr.now }
{
    part_at(colr, 22)
}

/// How many records of the list lie in it.
fn clip_count(list: &[u8]) -> u32
    ensures { result ≡ clip_count list.now }
{
    let declared = u32_at(list, 1).unwrap_or(0);
    rows_within(list, 5, 7, declared as usize) as u32
}

/// The last glyphs of the records.
fn last_glyphs(list: &[u8]) -> Keys16<'_>
    ensures { result ≡ record { table = list.entry; start = 7; size = 7 } }
{
    Keys16 {
        table: list,
        start: 7,
        size: 7,
    }
}

/// The record of a glyph, by its number.
fn clip_of(list: &[u8], count: u32, are_rising: bool, glyph: GlyphId) -> Option<u32>
    requires counts { count ≡ clip_count list.now }
    requires rise { IsTrue are_rising → Rises (last_glyph list.now) count }
    ensures { result ≡ clip_of list.now glyph.0 }
{
    let rows = last_glyphs(list);
    let row = first_row(&rows, count as usize, u32::from(glyph.0), are_rising)?;
    if u16_at(list, 5 + 7 * row)? <= glyph.0 {
        Some(row as u32)
    } else {
        None
    }
}

/// The bytes of a record's box.
fn clip_bytes(list: &[u8], row: u32) -> &[u8]
    ensures { result.now ≡ clip_bytes list.now row }
{
    let offset = u24_at(list, 9 + 7 * row as usize).unwrap_or(0);
    if offset == 0 {
        &[]
    } else {
        tail(list, offset as usize)
    }
}

/// A box by its bytes: an empty one where its format is unknown, and none where it is cut short.
fn box_of(bytes: &[u8], colr: &[u8], coordinates: &[i32]) -> Option<GlyphExtents>
    ensures { result ≡ box_of bytes.now colr.now coordinates.now }
{
    match u8_at(bytes, 0) {
        Some(1 | 2) => box_of_sides(bytes, colr, coordinates),
        _ => Some(NO_BOX),
    }
}

/// A box of the two formats, by its sides.
fn box_of_sides(bytes: &[u8], colr: &[u8], coordinates: &[i32]) -> Option<GlyphExtents>
    ensures { result ≡ box_of_sides bytes.now colr.now coordinates.now }
{
    let left = side(bytes, colr, coordinates, 0)?;
    let low = side(bytes, colr, coordinates, 1)?;
    let right = side(bytes, colr, coordinates, 2)?;
    let top = side(bytes, colr, coordinates, 3)?;
    Some(GlyphExtents {
        x_bearing: left,
        y_bearing: top,
        width: distance(left, right),
        height: distance(top, low),
    })
}

/// How far it is from one side to another.
fn distance(from: i32, to: i32) -> i32
    ensures { result ≡ distance from to }
{
    to.saturating_sub(from)
}

/// A side of a box, by its number.
fn side(bytes: &[u8], colr: &[u8], coordinates: &[i32], corner: u8) -> Option<i32>
    ensures { result ≡ side bytes.now colr.now coordinates.now corner }
{
    let at = 1 + 2 * usize::from(corner);
    if varies(bytes, coordinates) {
        let first = u32_at(bytes, 9)?;
        let number = i32::from(i16_at(bytes, at)?);
        Some(moved(number, delta_set(first, corner), colr, coordinates))
    } else {
        i16_at(bytes, at).map(i32::from)
    }
}

/// Whether a box varies at these coordinates.
fn varies(bytes: &[u8], coordinates: &[i32]) -> bool
    ensures { result ≡ varies bytes.now coordinates.now }
{
    matches!(u8_at(bytes, 0), Some(2)) && !coordinates.is_empty()
}

/// The number of a side in the map of delta sets, by that of the first one; the number of no variation stays.
pub(crate) fn delta_set(first: u32, corner: u8) -> u32
    ensures { result ≡ delta_set first corner }
{
    if first == u32::MAX {
        first
    } else {
        first.wrapping_add(u32::from(corner))
    }
}

/// A number with its delta.
fn moved(number: i32, set: DeltaSetIndex, colr: &[u8], coordinates: &[i32]) -> i32
    ensures { result ≡ moved number set colr.now coordinates.now }
{
    let index = IndexMap::new(part_at(colr, 26)).index_of(set);
    let delta = VariationStore::new(part_at(colr, 30)).delta(index, coordinates);
    saturating_f32_to_i32(float(number) + float(rounded(delta)))
}
