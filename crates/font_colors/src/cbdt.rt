//! Bitmaps of the tables `CBLC` and `CBDT` (OpenType specification, "CBLC - Color Bitmap Location Table" and "CBDT - Color
//! Bitmap Data Table").

ghost use Rattle.std.specs.Prelude.{◌≡◌, ◌≤◌, ◌<◌, ◌^◌, IfSome};
ghost use Rattle.std.specs.Option.{option_copied};
ghost use Rattle.font_tables.specs.Rows.{first_below};
ghost use Rattle.font_colors.specs.Cbdt.{box_in_strike, first_glyph, has_pixels, head_size, holds, image, image_box, image_offset, is_known, metrics_box, ppem_x, ppem_y, record_count, records, strike_count, strike_of, strike_size};

use crate::pixels::PixelBox;
use crate::strikes::{Strikes, best_strike};
use font_tables::bytes::{part, table_at_32, tail, u8_at, u16_at, u32_at};
use font_tables::rows::rows_within;
use rb_common::GlyphId;
use rb_glyph::GlyphExtents;

/// The tables of a font with bitmaps of `CBDT`, and the strike that is used.
#[derive(Clone, Copy)]
pub struct CbdtTables<'a> {
    /// The table `CBLC`, which says where bitmaps lie.
    pub cblc: &'a [u8],
    /// The table `CBDT`, which has them.
    pub cbdt: &'a [u8],
    /// The size in pixels for which the strike is chosen.
    pub wanted: u32,
    strike: u32,
    ghost fits: { strike ≡ strike_of cblc.now wanted },
}

impl<'a> CbdtTables<'a> {
    ghost use Rattle.font_colors.specs.Cbdt.{cbdt_box};

    /// These tables, with the strike that fits a size best.
    pub fn new(cblc: &'a [u8], cbdt: &'a [u8], wanted: u32) -> Self
        ensures places { result.cblc.now ≡ cblc.now }
        ensures images { result.cbdt.now ≡ cbdt.now }
        ensures size { result.wanted ≡ wanted }
    {
        CbdtTables {
            cblc,
            cbdt,
            wanted,
            strike: best_strike(&BitmapSizes { cblc }, strike_count(cblc), wanted),
        }
    }

    /// The box of a glyph's bitmap; `None` where the font has no bitmap of it with metrics of its own (image formats 17 and 18,
    /// index subtable formats 1 and 3).
    #[tactic(auto, unfolding(crate::specs::Cbdt::cbdt_box))]
    pub fn glyph_box(&self, glyph: GlyphId) -> Option<PixelBox>
        ensures { result ≡ cbdt_box self.now.cblc.now self.now.cbdt.now self.now.wanted glyph.0 }
    {
        if is_known(self.cbdt)
            && strike_count(self.cblc) > 0
            && has_pixels(self.cblc, self.strike)
        {
            Some(PixelBox {
                extents: box_in_strike(self.cblc, self.cbdt, self.strike, glyph)?,
                x_ppem: u16::from(ppem_x(self.cblc, self.strike)),
                y_ppem: u16::from(ppem_y(self.cblc, self.strike)),
            })
        } else {
            None
        }
    }
}

/// The strikes of a table `CBLC`.
#[derive(Clone, Copy)]
struct BitmapSizes<'a> {
    cblc: &'a [u8],
}

impl Strikes for BitmapSizes<'_> {
    ghost size_of = { λ sizes strike. strike_size sizes.cblc.now strike };

    fn size(&self, strike: u32) -> u16 {
        u16::from(ppem_x(self.cblc, strike).max(ppem_y(self.cblc, strike)))
    }
}

/// Whether a table is of a version that is read.
fn is_known(table: &[u8]) -> bool
    ensures { result ≡ is_known table.now }
{
    matches!(u16_at(table, 0), Some(2 | 3))
}

/// How many strikes there are.
fn strike_count(cblc: &[u8]) -> u32
    ensures { result ≡ strike_count cblc.now }
{
    if is_known(cblc) {
        let declared = u32_at(cblc, 4).unwrap_or(0);
        rows_within(cblc, 8, 48, declared as usize) as u32
    } else {
        0
    }
}

/// How many pixels an em has across in a strike.
fn ppem_x(cblc: &[u8], strike: u32) -> u8
    ensures { result ≡ ppem_x cblc.now strike }
{
    u8_at(cblc, 52 + 48 * strike as usize).unwrap_or(0)
}

/// How many pixels an em has upwards in a strike.
fn ppem_y(cblc: &[u8], strike: u32) -> u8
    ensures { result ≡ ppem_y cblc.now strike }
{
    u8_at(cblc, 53 + 48 * strike as usize).unwrap_or(0)
}

/// Whether an em has pixels in a strike.
fn has_pixels(cblc: &[u8], strike: u32) -> bool
    ensures { result ≡ has_pixels cblc.now strike }
{
    ppem_x(cblc, strike) > 0 && ppem_y(cblc, strike) > 0
}

/// The records of a strike's glyphs.
fn records(cblc: &[u8], strike: u32) -> &[u8]
    ensures { result.now ≡ records cblc.now strike }
{
    let offset = u32_at(cblc, 8 + 48 * strike as usize).unwrap_or(0);
    tail(cblc, offset as usize)
}

/// How many records a strike has.
fn record_count(cblc: &[u8], strike: u32) -> u32
    ensures { result ≡ record_count cblc.now strike }
{
    let declared = u32_at(cblc, 16 + 48 * strike as usize).unwrap_or(0);
    rows_within(records(cblc, strike), 0, 8, declared as usize) as u32
}

/// The first glyph of a record.
fn first_glyph(records: &[u8], row: u32) -> u16
    ensures { result ≡ first_glyph records.now row }
{
    u16_at(records, 8 * row as usize).unwrap_or(0)
}

/// Whether a record holds a glyph.
fn holds(records: &[u8], glyph: GlyphId, row: u32) -> bool
    ensures { result ≡ holds records.now glyph.0 row }
{
    let last = u16_at(records, 8 * row as usize + 2).unwrap_or(0);
    first_glyph(records, row) <= glyph.0 && glyph.0 <= last
}

/// The first of so many records that holds a glyph.
fn record_of(records: &[u8], count: u32, glyph: GlyphId) -> Option<u32>
    ensures is { result ≡ first_below (holds records.now glyph.0) count }
    ensures holds { IfSome result (λ row. first_glyph records.now row ≤ glyph.0) }
{
    for row in 0..count {
        if holds(records, glyph, row) {
            return Some(row);
        }
    }
    None
}

/// The box of a glyph in a strike.
#[tactic(auto, unfolding(crate::specs::Cbdt::box_in_strike))]
fn box_in_strike(cblc: &[u8], cbdt: &[u8], strike: u32, glyph: GlyphId) -> Option<GlyphExtents>
    ensures { result ≡ box_in_strike cblc.now cbdt.now strike glyph.0 }
{
    let rows = records(cblc, strike);
    let row = record_of(rows, record_count(cblc, strike), glyph)?;
    let subtable = table_at_32(rows, 8 * row as usize + 4)?;
    image_box(subtable, cbdt, glyph.0 - first_glyph(rows, row))
}

/// The box of the image at a place of a subtable.
fn image_box(subtable: &[u8], cbdt: &[u8], place: u16) -> Option<GlyphExtents>
    ensures { result ≡ image_box subtable.now cbdt.now place }
{
    let size = head_size(subtable)?;
    let image = image(subtable, cbdt, place)?;
    if size <= image.len() {
        Some(metrics_box(image))
    } else {
        None
    }
}

/// How many bytes stand before the images of a subtable.
fn head_size(subtable: &[u8]) -> Option<usize>
    ensures { result ≡ head_size subtable.now }
{
    match u16_at(subtable, 2) {
        Some(17) => Some(9),
        Some(18) => Some(12),
        _ => None,
    }
}

/// The bytes of the image at a place of a subtable.
fn image<'a>(subtable: &[u8], cbdt: &'a [u8], place: u16) -> Option<&'a [u8]>
    ensures { option_copied result ≡ image subtable.now cbdt.now place }
{
    let start = image_offset(subtable, u32::from(place))? as usize;
    let end = image_offset(subtable, u32::from(place) + 1)? as usize;
    let base = u32_at(subtable, 4).unwrap_or(0) as usize;
    if start < end && base + end <= cbdt.len() {
        Some(part(cbdt, base + start, end - start))
    } else {
        None
    }
}

/// Where the image at a place of a subtable begins.
fn image_offset(subtable: &[u8], place: u32) -> Option<u32>
    requires { place ≤ 65536 }
    ensures { result ≡ image_offset subtable.now place }
{
    match u16_at(subtable, 0) {
        Some(1) => u32_at(subtable, 8 + 4 * place as usize),
        Some(3) => u16_at(subtable, 8 + 2 * place as usize).map(u32::from),
        _ => None,
    }
}

/// The box that the metrics before an image say.
fn metrics_box(metrics: &[u8]) -> GlyphExtents
    ensures { result ≡ metrics_box metrics.now }
{
    GlyphExtents {
        x_bearing: i32::from(byte(metrics, 2).cast_signed()),
        y_bearing: i32::from(byte(metrics, 3).cast_signed()),
        width: i32::from(byte(metrics, 1)),
        height: -i32::from(byte(metrics, 0)),
    }
}

/// A byte of metrics.
fn byte(metrics: &[u8], at: usize) -> u8
    ensures { result ≡ Rattle.font_colors.specs.Cbdt.byte metrics.now at }
{
    u8_at(metrics, at).unwrap_or(0)
}
