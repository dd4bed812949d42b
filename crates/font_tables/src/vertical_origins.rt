//! Where glyphs stand on a vertical line (OpenType specification, "VORG - Vertical Origin Table").

ghost use Rattle.std.specs.Prelude.{◌≡◌, ◌<◌, ◌≤◌, ◌+◌, ◌*◌, ℕ, IsTrue, IfSome, unwrap_or};
ghost use Rattle.font_tables.specs.Bytes.{number_16};
ghost use Rattle.font_tables.specs.Rows.{Rises};
ghost use Rattle.font_tables.specs.VerticalOrigins.{is_vorg, origin_glyph, origin_count, row_of};

use crate::bytes::{i16_at, u16_at};
use crate::rows::{Keys16, first_row, rises, rows_within};
use rb_common::GlyphId;

/// A table `VORG`.
#[derive(Clone, Copy)]
pub struct VerticalOrigins<'a> {
    /// The bytes of the table.
    pub table: &'a [u8],
    is_there: bool,
    count: u16,
    are_rising: bool,
    ghost is_table: { is_there ≡ is_vorg table.now },
    ghost counts: { count ≡ origin_count table.now },
    ghost rise: { IsTrue are_rising → Rises (origin_glyph table.now) count },
}

impl<'a> VerticalOrigins<'a> {
    ghost use Rattle.font_tables.specs.VerticalOrigins.{y_origin};

    /// The table `VORG` in these bytes.
    pub fn new(table: &'a [u8]) -> Self
        ensures { result.table.now ≡ table.now }
    {
        let count = origin_count(table);
        let are_rising = rises(&origin_glyphs(table), usize::from(count));
        VerticalOrigins {
            table,
            is_there: is_vorg(table),
            count,
            are_rising,
        }
    }

    /// The y coordinate of a glyph's vertical origin, in font units; `None` where the font has no such table.
    #[tactic(auto, unfolding(crate::specs::VerticalOrigins::y_origin))]
    pub fn y_origin(&self, glyph: GlyphId) -> Option<i16>
        ensures { result ≡ y_origin self.now.table.now glyph.0 }
    {
        if !self.is_there {
            return None;
        }
        match row_of(self.table, self.count, self.are_rising, glyph) {
            Some(row) => i16_at(self.table, 10 + 4 * usize::from(row)),
            None => i16_at(self.table, 4),
        }
    }
}

/// Whether these are the bytes of a table `VORG`.
fn is_vorg(vorg: &[u8]) -> bool
    ensures { result ≡ is_vorg vorg.now }
{
    vorg.len() >= 8 && matches!(u16_at(vorg, 0), Some(1))
}

/// The glyphs of the rows.
fn origin_glyphs(vorg: &[u8]) -> Keys16<'_>
    ensures { result ≡ record { table = vorg.entry; start = 8; size = 4 } }
{
    Keys16 {
        table: vorg,
        start: 8,
        size: 4,
    }
}

/// How many of the rows lie in the table.
fn origin_count(vorg: &[u8]) -> u16
    ensures { result ≡ origin_count vorg.now }
{
    let declared = u16_at(vorg, 6).unwrap_or(0);
    rows_within(vorg, 8, 4, usize::from(declared)) as u16
}

/// The row of a glyph, by its number.
fn row_of(vorg: &[u8], count: u16, are_rising: bool, glyph: GlyphId) -> Option<u16>
    requires counts { count ≡ origin_count vorg.now }
    requires rise { IsTrue are_rising → Rises (origin_glyph vorg.now) count }
    ensures { result ≡ row_of vorg.now glyph.0 }
{
    let rows = origin_glyphs(vorg);
    let row = first_row(&rows, usize::from(count), u32::from(glyph.0), are_rising)?;
    if u16_at(vorg, 8 + 4 * row)? <= glyph.0 {
        Some(row as u16)
    } else {
        None
    }
}
