//! Ranges of glyphs, each with a value, as coverage tables and class definitions of format 2 have them: six bytes each,
//! from the byte 4 on.

ghost use Rattle.std.specs.Prelude.{◌≡◌, ◌<◌, ◌+◌, ◌*◌, ◌≤◌, ◌-◌, ◌^◌, ℕ, IsTrue, option_and_then, option_map, unwrap_or, IfSome};
ghost use Rattle.font_tables.specs.Bytes.{number_16};
ghost use Rattle.font_tables.specs.Rows.{Rises, first_row};
ghost use Rattle.font_tables.specs.Run.{IsRunFrom, value_in};
ghost use Rattle.font_tables.specs.GlyphRanges.{range_count, range_first, range_last, range_value};
ghost use Rattle.font_tables.specs.ClassDefinition.{ranged_class};
ghost use Rattle.font_tables.specs.Coverage.{ranged_index};

use crate::bytes::{part, tail, u16_at};
use crate::rows::{Rows, SHORT, first_row, rows_within};
use rb_common::GlyphId;

/// Ranges that lie whole in the table.
#[derive(Clone, Copy)]
struct Ranges<'a>(&'a [[u8; 6]]);

impl Rows for Ranges<'_> {
    ghost use Rattle.font_tables.specs.Bytes.{number_16};
    ghost use Rattle.std.specs.Prelude.{slice_get, option_and_then};

    ghost last_of = { λ ranges row. option_and_then (λ range. number_16 range 2) (slice_get ranges.0.now row) };

    fn last(&self, row: usize) -> Option<u32> {
        u16_at(self.0.get(row)?, 2).map(u32::from)
    }
}

/// How many of the ranges lie in the table.
pub(crate) fn range_count(table: &[u8]) -> u16
    ensures { result ≡ range_count table.now }
{
    let declared = u16_at(table, 2).unwrap_or(0);
    rows_within(table, 4, 6, usize::from(declared)) as u16
}

/// Whether the last glyphs of the ranges rise.
pub(crate) fn ranges_rise(table: &[u8], count: u16) -> bool
    requires { count ≡ range_count table.now }
    ensures { IsTrue result → Rises (range_last table.now) count }
{
    if count <= SHORT {
        return false;
    }
    let (ranges, _) = part(table, 4, 6 * usize::from(count)).as_chunks::<6>();
    let mut before = 0;
    let mut falls = false;
    for range in ranges {
        match u16_at(range, 2) {
            Some(last) => {
                falls |= last < before;
                before = last;
            }
            None => falls = true,
        }
    }
    !falls
}

/// The first range that does not end before a glyph.
fn first_range(table: &[u8], count: u16, are_rising: bool, glyph: GlyphId) -> Option<usize>
    requires counts { count ≡ range_count table.now }
    requires rise { IsTrue are_rising → Rises (range_last table.now) count }
    ensures is { result ≡ first_row (range_last table.now) glyph.0 (range_count table.now) }
    ensures within { IfSome result (λ row. row < count) }
{
    let (ranges, _) = tail(table, 4).as_chunks::<6>();
    first_row(
        &Ranges(ranges),
        usize::from(count),
        u32::from(glyph.0),
        are_rising,
    )
}

/// A range: its first glyph, and its value.
#[derive(Clone, Copy)]
pub(crate) struct Range {
    pub(crate) first: u16,
    pub(crate) value: u16,
}

/// The number at a byte of a range.
fn number_of(table: &[u8], row: usize, place: usize) -> Option<u16>
    requires row { row < range_count table.now }
    requires place { place ≤ 4 }
    ensures { result ≡ number_16 table.now (4 + place + 6 * row) }
{
    let (ranges, _) = tail(table, 4).as_chunks::<6>();
    u16_at(&ranges[row], place)
}

/// The range with a number.
fn range_at(table: &[u8], row: usize) -> Option<Range>
    requires { row < range_count table.now }
    ensures { option_map {U = ℕ × ℕ} (λ range. (range.first, range.value)) result
        ≡ option_and_then (λ first. option_map (λ value. (first, value)) (range_value table.now row)) (range_first table.now row) }
{
    let first = number_of(table, row, 0)?;
    let value = number_of(table, row, 4)?;
    Some(Range { first, value })
}

/// The range that holds a glyph.
pub(crate) fn range_of(table: &[u8], count: u16, are_rising: bool, glyph: GlyphId) -> Option<Range>
    requires counts { count ≡ range_count table.now }
    requires rise { IsTrue are_rising → Rises (range_last table.now) count }
    ensures class { option_map (λ range. range.value) result ≡ ranged_class table.now glyph.0 }
    ensures index { option_map (λ range. range.value + (glyph.0 - range.first)) result ≡ ranged_index table.now glyph.0 }
    ensures first { IfSome result (λ range. range.first ≤ glyph.0) }
{
    let row = first_range(table, count, are_rising, glyph)?;
    let range = range_at(table, row)?;
    if range.first <= glyph.0 {
        Some(range)
    } else {
        None
    }
}

/// The glyphs from one on that one range has, or none: all below `end` have the value, but for those before `first`, which have 0.
#[derive(Clone, Copy)]
pub(crate) struct Run {
    pub(crate) first: u32,
    pub(crate) end: u32,
    pub(crate) value: u16,
}

impl Run {
    /// The value of a glyph before the end.
    pub(crate) fn value_of(&self, glyph: u32) -> u16
        ensures { result ≡ value_in self.now glyph }
    {
        if self.first <= glyph { self.value } else { 0 }
    }
}

/// The run of a glyph.
pub(crate) fn run_from(table: &[u8], count: u16, are_rising: bool, glyph: GlyphId) -> Run
    requires counts { count ≡ range_count table.now }
    requires rise { IsTrue are_rising → Rises (range_last table.now) count }
    ensures goes { glyph.0 < result.end }
    ensures values { IsRunFrom table.now result glyph.0 }
{
    match first_range(table, count, are_rising, glyph) {
        Some(row) => run_of(table, row),
        None => Run {
            first: 0,
            end: u32::MAX,
            value: 0,
        },
    }
}

/// The run of the glyphs of a range, and of those before it.
fn run_of(table: &[u8], row: usize) -> Run
    requires { row < range_count table.now }
    ensures first { result.first ≡ unwrap_or (range_first table.now row) (2 ^ 32 - 1) }
    ensures end { result.end ≡ unwrap_or (range_last table.now row) 0 + 1 }
    ensures value { result.value ≡ unwrap_or (range_value table.now row) 0 }
    ensures small { result.end ≤ 65536 }
{
    let first = match number_of(table, row, 0) {
        Some(first) => u32::from(first),
        None => u32::MAX,
    };
    Run {
        first,
        end: u32::from(number_of(table, row, 2).unwrap_or(0)) + 1,
        value: number_of(table, row, 4).unwrap_or(0),
    }
}
