//! Bitmaps of the table `sbix` (OpenType specification, "sbix - Standard Bitmap Graphics Table").

ghost use Rattle.std.specs.Prelude.{◌≡◌, ◌<◌, ◌^◌};
ghost use Rattle.std.specs.Option.{option_copied};
ghost use Rattle.font_colors.specs.Sbix.{data_between, glyph_data, graphic, graphic_box, is_of_type, png_box, png_number, ppem, strike_at, strike_count, strike_of, strike_size};

use crate::pixels::PixelBox;
use crate::strikes::{Strikes, best_strike};
use font_tables::bytes::{i16_at, part, table_at_32, u16_at, u32_at};
use font_tables::rows::rows_within;
use rb_common::{GlyphId, Tag};
use rb_glyph::GlyphExtents;

/// How many glyphs are asked for a graphic that each takes from the next, as HarfBuzz asks them.
const MOST_GLYPHS: u8 = 9;

/// The table of a font with bitmaps of `sbix`, and the strike that is used.
#[derive(Clone, Copy)]
pub struct SbixTable<'a> {
    /// The bytes of the table.
    pub table: &'a [u8],
    /// How many glyphs the font has.
    pub glyph_count: u16,
    /// The size in pixels for which the strike is chosen.
    pub wanted: u32,
    strike: &'a [u8],
    ghost fits: { strike.now ≡ strike_of table.now wanted },
}

impl<'a> SbixTable<'a> {
    ghost use Rattle.font_colors.specs.Sbix.{sbix_box};

    /// This table of a font with so many glyphs, with the strike that fits a size best.
    pub fn new(table: &'a [u8], glyph_count: u16, wanted: u32) -> Self
        ensures table { result.table.now ≡ table.now }
        ensures glyphs { result.glyph_count ≡ glyph_count }
        ensures size { result.wanted ≡ wanted }
    {
        SbixTable {
            table,
            glyph_count,
            wanted,
            strike: strike_of(table, wanted),
        }
    }

    /// The box of a glyph's bitmap; `None` where the font has none of it that is a PNG.
    #[tactic(auto, unfolding(crate::specs::Sbix::sbix_box))]
    pub fn glyph_box(&self, glyph: GlyphId) -> Option<PixelBox>
        ensures { result ≡ sbix_box self.now.table.now self.now.glyph_count self.now.wanted glyph.0 }
    {
        let ppem = ppem(self.strike);
        if ppem == 0 {
            return None;
        }
        let graphic = graphic(self.strike, self.glyph_count, MOST_GLYPHS, glyph)?;
        Some(PixelBox {
            extents: graphic_box(graphic)?,
            x_ppem: ppem,
            y_ppem: ppem,
        })
    }
}

/// The strikes of a table `sbix`.
#[derive(Clone, Copy)]
struct GraphicSizes<'a> {
    sbix: &'a [u8],
}

impl Strikes for GraphicSizes<'_> {
    ghost size_of = { λ sizes strike. strike_size sizes.sbix.now strike };

    fn size(&self, strike: u32) -> u16 {
        ppem(strike_at(self.sbix, strike))
    }
}

/// How many strikes there are.
fn strike_count(sbix: &[u8]) -> u32
    ensures { result ≡ strike_count sbix.now }
{
    if u16_at(sbix, 0).unwrap_or(0) > 0 {
        let declared = u32_at(sbix, 4).unwrap_or(0);
        rows_within(sbix, 8, 4, declared as usize) as u32
    } else {
        0
    }
}

/// A strike.
fn strike_at(sbix: &[u8], strike: u32) -> &[u8]
    ensures { result.now ≡ strike_at sbix.now strike }
{
    table_at_32(sbix, 8 + 4 * strike as usize).unwrap_or(&[])
}

/// How many pixels an em has in a strike.
fn ppem(strike: &[u8]) -> u16
    ensures { result ≡ ppem strike.now }
{
    u16_at(strike, 0).unwrap_or(0)
}

/// The strike that fits a size best; an empty one where there are none.
fn strike_of(sbix: &[u8], wanted: u32) -> &[u8]
    ensures { result.now ≡ strike_of sbix.now wanted }
{
    let count = strike_count(sbix);
    if count > 0 {
        strike_at(sbix, best_strike(&GraphicSizes { sbix }, count, wanted))
    } else {
        &[]
    }
}

/// The data of a glyph that are a graphic, by way of so many glyphs.
#[tactic(auto, unfolding(crate::specs::Sbix::graphic))]
fn graphic(strike: &[u8], count: u16, most: u8, glyph: GlyphId) -> Option<&[u8]>
    ensures { option_copied result ≡ graphic strike.now count most glyph.0 }
{
    if most == 0 {
        return None;
    }
    let data = glyph_data(strike, count, glyph)?;
    if is_of_type(data, Tag::from_bytes(b"dupe")) {
        graphic(strike, count, most - 1, GlyphId(u16_at(data, 8)?))
    } else {
        Some(data)
    }
}

/// The data of a glyph.
fn glyph_data(strike: &[u8], count: u16, glyph: GlyphId) -> Option<&[u8]>
    ensures { option_copied result ≡ glyph_data strike.now count glyph.0 }
{
    if glyph.0 < count {
        let start = u32_at(strike, 4 * usize::from(glyph.0) + 4)?;
        let end = u32_at(strike, 4 * usize::from(glyph.0) + 8)?;
        data_between(strike, start as usize, end as usize)
    } else {
        None
    }
}

/// The data between two offsets, where they are longer than what stands before a graphic.
fn data_between(strike: &[u8], start: usize, end: usize) -> Option<&[u8]>
    requires { start < 2 ^ 32 }
    ensures { option_copied result ≡ data_between strike.now start end }
{
    if start + 8 < end && end <= strike.len() {
        Some(part(strike, start, end - start))
    } else {
        None
    }
}

/// Whether data are of a type.
fn is_of_type(bytes: &[u8], kind: Tag) -> bool
    ensures { result ≡ is_of_type bytes.now kind.0 }
{
    match u32_at(bytes, 4) {
        Some(number) => number == kind.0,
        None => false,
    }
}

/// The box of a graphic that is a PNG.
fn graphic_box(graphic: &[u8]) -> Option<GlyphExtents>
    ensures { result ≡ graphic_box graphic.now }
{
    let width = png_number(graphic, 24);
    let height = png_number(graphic, 28);
    if is_of_type(graphic, Tag::from_bytes(b"png ")) && width < 65536 && height < 65536 {
        Some(png_box(graphic, width as u16, height as u16))
    } else {
        None
    }
}

/// The box of a PNG of a width and a height.
fn png_box(graphic: &[u8], width: u16, height: u16) -> GlyphExtents
    requires width { width ≡ png_number graphic.now 24 }
    requires height { height ≡ png_number graphic.now 28 }
    ensures { result ≡ png_box graphic.now }
{
    let height = i32::from(height);
    GlyphExtents {
        x_bearing: i32::from(i16_at(graphic, 0).unwrap_or(0)),
        y_bearing: height + i32::from(i16_at(graphic, 2).unwrap_or(0)),
        width: i32::from(width),
        height: -height,
    }
}

/// A number in the header of a PNG; 0 where the header is cut short.
fn png_number(graphic: &[u8], at: usize) -> u32
    ensures { result ≡ png_number graphic.now at }
{
    if graphic.len() >= 37 {
        u32_at(graphic, at).unwrap_or(0)
    } else {
        0
    }
}
