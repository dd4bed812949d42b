//! Advances and side bearings of glyphs (OpenType specification, "hmtx - Horizontal Metrics Table" and "vmtx - Vertical
//! Metrics Table").

ghost use Rattle.std.specs.Prelude.{◌≡◌, ◌<◌, ◌≤◌, ◌+◌, ◌*◌, ◌-◌, ℕ};
ghost use Rattle.font_tables.specs.Bytes.{number_16};
ghost use Rattle.font_tables.specs.MetricRows.{long_count, bearing_count};

use crate::bytes::{i16_at, u16_at};
use crate::rows::rows_within;
use rb_common::GlyphId;

/// A table `hmtx` or `vmtx`.
#[derive(Clone, Copy)]
pub struct Metrics<'a> {
    /// The bytes of the table.
    pub table: &'a [u8],
    /// How many glyphs have an advance of their own, as `hhea` or `vhea` says it.
    pub declared: u16,
    /// How many glyphs the font has.
    pub glyph_count: u16,
    /// The advance of each glyph where the font has no such table. HarfBuzz takes half of the units of an em for horizontal
    /// lines, and all of them for vertical ones.
    pub default_advance: u16,
    long: u16,
    bearings: u16,
    ghost counts_long: { long ≡ long_count table.now declared },
    ghost counts_bearings: { bearings ≡ bearing_count table.now declared glyph_count },
}

impl<'a> Metrics<'a> {
    ghost use Rattle.font_tables.specs.Metrics.{advance, side_bearing, has_bearing};

    /// The metrics in these bytes.
    pub fn new(table: &'a [u8], declared: u16, glyph_count: u16, default_advance: u16) -> Self
        ensures table { result.table.now ≡ table.now }
        ensures declared { result.declared ≡ declared }
        ensures glyphs { result.glyph_count ≡ glyph_count }
        ensures default { result.default_advance ≡ default_advance }
    {
        let long = long_count(table, declared);
        let bearings = bearing_count(table, declared, glyph_count);
        Metrics {
            table,
            declared,
            glyph_count,
            default_advance,
            long,
            bearings,
        }
    }

    /// Whether the table has an advance for a glyph.
    pub fn has_advance(&self, glyph: GlyphId) -> bool
        ensures { result ≡ has_bearing self.now glyph.0 }
    {
        glyph.0 < self.bearings
    }

    /// How far a glyph moves the pen, in font units. The last advance goes on for the glyphs behind it.
    #[tactic(auto, unfolding(crate::specs::Metrics::advance))]
    pub fn advance(&self, glyph: GlyphId) -> u16
        ensures { result ≡ advance self.now glyph.0 }
    {
        if self.has_advance(glyph) {
            let row = glyph.0.min(self.long - 1);
            u16_at(self.table, 4 * usize::from(row)).unwrap_or(0)
        } else if self.long == 0 && self.table.len() / 2 <= usize::from(self.glyph_count) {
            self.default_advance
        } else {
            0
        }
    }

    /// How far a glyph's bounds begin behind the pen, in font units: at its left in `hmtx`, at its top in `vmtx`.
    #[tactic(auto, unfolding(crate::specs::Metrics::side_bearing))]
    pub fn side_bearing(&self, glyph: GlyphId) -> Option<i16>
        ensures { result ≡ side_bearing self.now glyph.0 }
    {
        if !self.has_advance(glyph) {
            None
        } else if glyph.0 < self.long {
            i16_at(self.table, 4 * usize::from(glyph.0) + 2)
        } else {
            let behind = usize::from(glyph.0 - self.long);
            i16_at(self.table, 4 * usize::from(self.long) + 2 * behind)
        }
    }
}

/// How many of the declared advances lie in the table.
fn long_count(table: &[u8], declared: u16) -> u16
    ensures { result ≡ long_count table.now declared }
{
    rows_within(table, 0, 4, usize::from(declared)) as u16
}

/// How many glyphs have a side bearing in a table with so many advances.
fn bearing_count(table: &[u8], declared: u16, glyph_count: u16) -> u16
    ensures { result ≡ bearing_count table.now declared glyph_count }
{
    let long = long_count(table, declared);
    if long == 0 {
        return 0;
    }
    let listed = usize::from(long) + (table.len() - 4 * usize::from(long)) / 2;
    usize::from(glyph_count.max(long)).min(listed) as u16
}
