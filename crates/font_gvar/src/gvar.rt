//! The table `gvar` (OpenType specification, "gvar - Glyph Variations Table").

ghost use Rattle.std.specs.Prelude.{◌≡◌, ◌+◌, ◌<◌, ◌≤◌, ◌^◌, [], if◌then◌else◌};
ghost use Rattle.font_gvar.specs.Glyphs.{has_long_offsets, is_whole, with_header};

use font_tables::bytes::{part, tail, u16_at, u32_at};
use rb_common::GlyphId;

/// A table `gvar`.
#[derive(Clone, Copy)]
pub struct GlyphVariations<'a> {
    /// The bytes of the table; none where it is broken.
    table: &'a [u8],
    /// The tuples of coordinates that glyphs share, one after the other.
    pub(crate) shared: &'a [u8],
    /// How many tuples glyphs share.
    pub(crate) shared_count: u16,
    /// How many coordinates a tuple has.
    pub(crate) axis_count: u16,
    /// How many glyphs have variations.
    glyph_count: u16,
}

impl<'a> GlyphVariations<'a> {
    ghost use Rattle.font_gvar.specs.Glyphs.{data_of, offset};

    /// The table in these bytes, of a font with so many glyphs. One that is empty, broken, or of another major version than 1 has
    /// no variations.
    pub fn new(table: &'a [u8], glyph_count: u16) -> Self
        ensures table { result.table.now ≡ (if is_whole table.now glyph_count then table.now else []) }
        ensures glyphs { result.glyph_count ≡ (if is_whole table.now glyph_count then glyph_count else 0) }
    {
        let is_whole = is_whole(table, glyph_count);
        GlyphVariations {
            table: if is_whole { table } else { &[] },
            shared: shared_tuples(table),
            shared_count: u16_at(table, 6).unwrap_or(0),
            axis_count: u16_at(table, 4).unwrap_or(0),
            glyph_count: if is_whole { glyph_count } else { 0 },
        }
    }

    /// The variations of a glyph, as they stand in the table; none where it has none.
    #[tactic(auto, unfolding(crate::specs::Glyphs::data_of))]
    pub(crate) fn data_of(&self, glyph: GlyphId) -> &'a [u8]
        ensures { result.now ≡ data_of self.now glyph.0 }
    {
        let start = self.offset(u32::from(glyph.0));
        let end = self.offset(u32::from(glyph.0) + 1);
        if glyph.0 < self.glyph_count && start <= end {
            let first = u32_at(self.table, 16).unwrap_or(0) as usize;
            with_header(part(self.table, first + start as usize, (end - start) as usize))
        } else {
            &[]
        }
    }

    /// The offset of a number, from the first byte of variations on.
    fn offset(&self, number: u32) -> u32
        ensures { result ≡ offset self.now.table.now number }
    {
        if has_long_offsets(self.table) {
            u32_at(self.table, 20 + 4 * number as usize).unwrap_or(0)
        } else {
            2 * u32::from(u16_at(self.table, 20 + 2 * number as usize).unwrap_or(0))
        }
    }
}

/// Bytes that hold the numbers at the front of a glyph's variations; none where they are too few.
fn with_header(bytes: &[u8]) -> &[u8]
    ensures { result.now ≡ with_header bytes.now }
{
    if bytes.len() < 4 { &[] } else { bytes }
}

/// Whether a table of a font with so many glyphs is of major version 1, and holds its shared tuples and its offsets.
#[tactic(auto, unfolding(crate::specs::Glyphs::is_whole))]
fn is_whole(table: &[u8], glyph_count: u16) -> bool
    ensures { result ≡ is_whole table.now glyph_count }
{
    let axis_count = u16_at(table, 4).unwrap_or(0);
    let shared_count = u16_at(table, 6).unwrap_or(0);
    let offset_size = if has_long_offsets(table) { 4 } else { 2 };
    matches!(u16_at(table, 0), Some(1))
        && shared_tuples(table).len() / 2 >= usize::from(axis_count) * usize::from(shared_count)
        && table.len() >= 20 + offset_size * (usize::from(glyph_count) + 1)
}

/// The tuples of coordinates that glyphs share.
fn shared_tuples(table: &[u8]) -> &[u8]
    ensures { result.now ≡ Rattle.font_gvar.specs.Glyphs.shared_tuples table.now }
{
    tail(table, u32_at(table, 8).unwrap_or(0) as usize)
}

/// Whether offsets have 32 bits, and do not count pairs of bytes in 16 bits.
fn has_long_offsets(table: &[u8]) -> bool
    ensures { result ≡ has_long_offsets table.now }
{
    u16_at(table, 14).unwrap_or(0) % 2 == 1
}
