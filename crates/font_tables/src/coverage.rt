//! Coverage tables: the glyphs that a lookup is for, each with an index (OpenType specification, "OpenType Layout Common
//! Table Formats", "Coverage table").

ghost use Rattle.std.specs.Prelude.{◌≡◌, ◌<◌, ◌≤◌, ◌+◌, ◌*◌, ◌-◌, ℕ, IsTrue, IfSome, Some, is_some, true, unwrap_or};
ghost use Rattle.font_tables.specs.Bytes.{number_16};
ghost use Rattle.font_tables.specs.Rows.{Rises, first_row};
ghost use Rattle.font_tables.specs.Coverage.{listed_glyph, listed_count, listed_index, ranged_index};
ghost use Rattle.font_tables.specs.GlyphRanges.{range_last, range_count};

use crate::bytes::{part, tail, u16_at};
use crate::glyph_ranges::{range_count, range_of, ranges_rise};
use crate::rows::{FEW_ROWS, Numbers16, SHORT, first_row, rows_within};
use rb_common::GlyphId;

/// Of more rows the highest glyph is told.
const MANY_ROWS: u16 = 128;

/// A coverage table.
///
/// By the specification the glyphs of a list rise, and so do ranges: an index is then found by bisection. Where they do
/// not, it is found by a walk.
#[derive(Clone, Copy)]
pub struct Coverage<'a> {
    /// The bytes of the table.
    pub table: &'a [u8],
    format: u16,
    count: u16,
    are_rising: bool,
    ghost is_format: { format ≡ unwrap_or (number_16 table.now 0) 0 },
    ghost lists: { format ≡ 1 → count ≡ listed_count table.now },
    ghost ranges: { format ≡ 2 → count ≡ range_count table.now },
    ghost list_rises: { IsTrue are_rising → format ≡ 1 → Rises (listed_glyph table.now) count },
    ghost ranges_rise: { IsTrue are_rising → format ≡ 2 → Rises (range_last table.now) count },
}

impl<'a> Coverage<'a> {
    ghost use Rattle.font_tables.specs.Coverage.{coverage_index};

    /// The coverage table in these bytes. One that is empty, or of another format than 1 and 2, covers no glyph.
    pub fn new(table: &'a [u8]) -> Self
        ensures { result.table.now ≡ table.now }
    {
        let format = u16_at(table, 0).unwrap_or(0);
        let (count, are_rising) = match format {
            1 => {
                let count = listed_count(table);
                (count, list_rises(table, count))
            }
            2 => {
                let count = range_count(table);
                (count, ranges_rise(table, count))
            }
            _ => (0, false),
        };
        Coverage {
            table,
            format,
            count,
            are_rising,
        }
    }

    /// Whether a glyph is found soon: there are few rows, or they rise, as the specification says.
    pub fn is_quick(&self) -> bool
        ensures list { IsTrue result → unwrap_or (number_16 self.now.table.now 0) 0 ≡ 1 → 64 < listed_count self.now.table.now
            → Rises (listed_glyph self.now.table.now) (listed_count self.now.table.now) }
        ensures ranges { IsTrue result → unwrap_or (number_16 self.now.table.now 0) 0 ≡ 2 → 64 < range_count self.now.table.now
            → Rises (range_last self.now.table.now) (range_count self.now.table.now) }
    {
        self.count <= FEW_ROWS || self.are_rising
    }

    /// A glyph above which none is covered, where many rows rise; `None` where there are few rows, or they do not rise.
    pub fn highest(&self) -> Option<u16>
        ensures { (highest glyph : ℕ) → result ≡ Some highest → is_some (coverage_index self.now.table.now glyph) ≡ true
            → glyph ≤ highest }
    {
        if self.count <= MANY_ROWS || !self.are_rising {
            return None;
        }
        let row = usize::from(self.count) - 1;
        match self.format {
            1 => u16_at(self.table, 4 + 2 * row),
            2 => u16_at(self.table, 6 + 6 * row),
            _ => None,
        }
    }

    /// The coverage index of a glyph; `None` where the table does not cover it.
    #[tactic(auto, unfolding(crate::specs::Coverage::coverage_index))]
    pub fn index(&self, glyph: GlyphId) -> Option<u32>
        ensures { result ≡ coverage_index self.now.table.now glyph.0 }
    {
        match self.format {
            1 => listed_index(self.table, self.count, self.are_rising, glyph),
            2 => ranged_index(self.table, self.count, self.are_rising, glyph),
            _ => None,
        }
    }
}

/// Whether the glyphs of a list rise.
fn list_rises(table: &[u8], count: u16) -> bool
    requires { count ≡ listed_count table.now }
    ensures { IsTrue result → Rises (listed_glyph table.now) count }
{
    if count <= SHORT {
        return false;
    }
    let (glyphs, _) = part(table, 4, 2 * usize::from(count)).as_chunks::<2>();
    let mut before = 0;
    let mut falls = false;
    for glyph in glyphs {
        match u16_at(glyph, 0) {
            Some(next) => {
                falls |= next < before;
                before = next;
            }
            None => falls = true,
        }
    }
    !falls
}

/// How many of the glyphs of a list lie in the table.
fn listed_count(table: &[u8]) -> u16
    ensures { result ≡ listed_count table.now }
{
    let declared = u16_at(table, 2).unwrap_or(0);
    rows_within(table, 4, 2, usize::from(declared)) as u16
}

/// The place of the first glyph of a list that is not below a glyph.
fn first_listed(table: &[u8], count: u16, are_rising: bool, glyph: GlyphId) -> Option<usize>
    requires counts { count ≡ listed_count table.now }
    requires rise { IsTrue are_rising → Rises (listed_glyph table.now) count }
    ensures is { result ≡ first_row (listed_glyph table.now) glyph.0 (listed_count table.now) }
    ensures within { IfSome result (λ row. row < count) }
{
    let (glyphs, _) = tail(table, 4).as_chunks::<2>();
    first_row(
        &Numbers16(glyphs),
        usize::from(count),
        u32::from(glyph.0),
        are_rising,
    )
}

/// A glyph of a list, by its place.
fn listed_at(table: &[u8], row: usize) -> Option<u16>
    requires { row < listed_count table.now }
    ensures { result ≡ listed_glyph table.now row }
{
    let (glyphs, _) = tail(table, 4).as_chunks::<2>();
    u16_at(&glyphs[row], 0)
}

/// The place of a glyph in a list.
fn listed_index(table: &[u8], count: u16, are_rising: bool, glyph: GlyphId) -> Option<u32>
    requires counts { count ≡ listed_count table.now }
    requires rise { IsTrue are_rising → Rises (listed_glyph table.now) count }
    ensures { result ≡ listed_index table.now glyph.0 }
{
    let row = first_listed(table, count, are_rising, glyph)?;
    if listed_at(table, row)? <= glyph.0 {
        Some(row as u32)
    } else {
        None
    }
}

/// The index of a glyph in ranges: that of the range's first glyph, and how far the glyph is behind it.
fn ranged_index(table: &[u8], count: u16, are_rising: bool, glyph: GlyphId) -> Option<u32>
    requires counts { count ≡ range_count table.now }
    requires rise { IsTrue are_rising → Rises (range_last table.now) count }
    ensures { result ≡ ranged_index table.now glyph.0 }
{
    let range = range_of(table, count, are_rising, glyph)?;
    Some(u32::from(range.value) + u32::from(glyph.0 - range.first))
}
