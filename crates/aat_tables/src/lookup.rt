//! Lookup tables: a value of 16 bits for some glyphs, as a class or another glyph (Apple's TrueType Reference Manual, "Font
//! tables", "Lookup tables"). Of format 10 no value is read, as by HarfBuzz where a value has 16 bits.

ghost use Rattle.std.specs.Prelude.{◌≡◌, ◌<◌, ◌≤◌, ◌+◌, ◌*◌, ℕ, None, IfSome, true, unwrap_or};
ghost use Rattle.font_tables.specs.Bytes.{is_number, number_16};
ghost use Rattle.aat_tables.specs.GlyphRows.{Holds};
ghost use Rattle.aat_tables.specs.Lookup.{
  IsRowValue,
  IsValueOf,
  ends_rows,
  format_of,
  has_rows,
  least_size,
  listed_value,
  row_count,
  row_size,
  skip_of,
  trimmed_value,
  value_in_row,
};

use crate::glyph_rows::GlyphRows;
use font_tables::bytes::u16_at;
use font_tables::rows::rows_within;
use glyph_digests::Digest;
use glyph_digests::summary::Summary;

/// The glyph that stands for one that was deleted, and the end of rows.
pub const DELETED_GLYPH: u16 = 0xFFFF;

/// A lookup table.
#[derive(Clone, Copy)]
pub struct Lookup<'a> {
    /// The bytes of the table.
    pub table: &'a [u8],
    /// How many glyphs the font has.
    pub glyph_count: u16,
}

impl<'a> Lookup<'a> {
    /// The lookup table in these bytes, of a font with so many glyphs.
    pub fn new(table: &'a [u8], glyph_count: u16) -> Self
        ensures table { result.table.now ≡ table.now }
        ensures glyphs { result.glyph_count ≡ glyph_count }
    {
        Lookup { table, glyph_count }
    }

    /// The format of the table; one that is empty has the format 0.
    fn format(&self) -> u16
        ensures { result ≡ format_of self.now.table.now }
    {
        u16_at(self.table, 0).unwrap_or(0)
    }

    /// The value of a glyph; `None` where the table gives it none.
    pub fn value(&self, glyph: u16) -> Option<u16>
        ensures { IsValueOf self.now.table.now self.now.glyph_count glyph result }
    {
        match self.format() {
            0 => listed_value(self.table, self.glyph_count, glyph),
            2 | 4 | 6 => self.value_by_rows(glyph),
            8 => trimmed_value(self.table, glyph),
            _ => None,
        }
    }

    /// The rows of a table that has some.
    pub fn rows(&self) -> GlyphRows<'a>
        ensures table { result.table.now ≡ self.now.table.now }
        ensures size { result.size ≡ row_size self.now.table.now }
        ensures skip { result.skip ≡ skip_of (format_of self.now.table.now) }
        ensures count { result.count ≡ row_count self.now.table.now }
    {
        GlyphRows {
            table: self.table,
            size: u16_at(self.table, 2).unwrap_or(0),
            skip: if self.format() == 6 { 0 } else { 2 },
            count: self.row_count(),
        }
    }

    /// How many rows there are: of those that are declared, those that lie in the table, without a last one that ends them.
    fn row_count(&self) -> u16
        ensures { result ≡ row_count self.now.table.now }
    {
        let size = u16_at(self.table, 2).unwrap_or(0);
        if size < if self.format() == 6 { 4 } else { 6 } {
            return 0;
        }
        let declared = u16_at(self.table, 4).unwrap_or(0);
        let count = rows_within(self.table, 12, usize::from(size), usize::from(declared)) as u16;
        if count > 0 && self.ends_rows(size, count - 1) {
            count - 1
        } else {
            count
        }
    }

    /// Whether a row ends the rows, and is none of them.
    fn ends_rows(&self, size: u16, row: u16) -> bool
        requires { size ≡ row_size self.now.table.now }
        ensures { result ≡ ends_rows self.now.table.now row }
    {
        let at = 12 + usize::from(size) * usize::from(row);
        is_number(u16_at(self.table, at), DELETED_GLYPH)
            && (self.format() == 6 || is_number(u16_at(self.table, at + 2), DELETED_GLYPH))
    }

    /// The value of a glyph in a table of rows.
    fn value_by_rows(&self, glyph: u16) -> Option<u16>
        ensures { IsRowValue self.now.table.now glyph result }
    {
        let row = self.rows().row_of(glyph)?;
        self.value_in_row(glyph, row)
    }

    /// The value that a row gives a glyph which it holds.
    fn value_in_row(&self, glyph: u16, row: usize) -> Option<u16>
        requires { row < 65536 }
        ensures { result ≡ value_in_row self.now.table.now glyph row }
    {
        let at = 12 + usize::from(u16_at(self.table, 2).unwrap_or(0)) * row;
        match self.format() {
            6 => u16_at(self.table, at + 2),
            4 => {
                let offset = u16_at(self.table, at + 4)?;
                let first = u16_at(self.table, at + 2)?;
                u16_at(
                    self.table,
                    usize::from(offset) + 2 * usize::from(glyph.saturating_sub(first)),
                )
            }
            _ => u16_at(self.table, at + 4),
        }
    }

    /// The digest of the glyphs that the table may give a value, as HarfBuzz takes them together.
    pub fn digest(&self) -> Digest {
        let mut digest = Digest::new();
        match self.format() {
            0 => digest.add_range(0, u32::from(self.glyph_count.saturating_sub(1))),
            2 | 4 | 6 => add_rows(&mut digest, &self.rows()),
            8 => add_trimmed(&mut digest, self.table, 2, 4),
            10 => add_trimmed(&mut digest, self.table, 4, 6),
            _ => {}
        }
        digest
    }

    /// How many rows the digest of the table is made of.
    pub fn cost(&self) -> usize {
        match self.format() {
            2 | 4 | 6 => usize::from(self.rows().count),
            _ => 1,
        }
    }
}

/// Adds the glyphs of rows to a digest.
fn add_rows(digest: &mut Digest, rows: &GlyphRows) {
    for row in 0..usize::from(rows.count) {
        if let (Some(first), Some(last)) = (rows.first(row), rows.last(row))
            && first != DELETED_GLYPH
        {
            digest.add_range(u32::from(first), u32::from(last));
        }
    }
}

/// Adds so many glyphs from a first one on to a digest: both numbers stand at places of a table.
fn add_trimmed(digest: &mut Digest, table: &[u8], first: usize, count: usize) {
    let first = u16_at(table, first).unwrap_or(DELETED_GLYPH);
    let count = u16_at(table, count).unwrap_or(0);
    if count > 0 && first != DELETED_GLYPH {
        let last = u32::from(first) + u32::from(count) - 1;
        digest.add_range(u32::from(first), last);
    }
}

/// The value of a glyph in a list of those of all glyphs.
fn listed_value(table: &[u8], glyph_count: u16, glyph: u16) -> Option<u16>
    ensures { result ≡ listed_value table.now glyph_count glyph }
{
    if glyph < glyph_count {
        u16_at(table, 2 + 2 * usize::from(glyph))
    } else {
        None
    }
}

/// The value of a glyph in a list of those of some glyphs, from a first one on.
fn trimmed_value(table: &[u8], glyph: u16) -> Option<u16>
    ensures { result ≡ trimmed_value table.now glyph }
{
    let first = u16_at(table, 2)?;
    let count = u16_at(table, 4)?;
    if first <= glyph && glyph - first < count {
        u16_at(table, 6 + 2 * usize::from(glyph - first))
    } else {
        None
    }
}

/// Whether a number is there, and is this one.
fn is_number(found: Option<u16>, number: u16) -> bool
    ensures { result ≡ is_number found number }
{
    match found {
        Some(found) => found == number,
        None => false,
    }
}
