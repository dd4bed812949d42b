//! Bounds of bitmaps, and of glyphs that are drawn in colours.

ghost use Rattle.std.specs.Prelude.{◌≡◌};
ghost use Rattle.font_colors.specs.Strikes.{wanted_size};
ghost use Rattle.font_face.specs.Face.{AreColorsOf};
ghost use Rattle.font_face.specs.Measures.{color_bounds};

use crate::directory::Directory;
use crate::measures::scaled_bounds;
use font_colors::strikes::wanted_size;
use font_colors::{CbdtTables, ColrTable, PixelBox, SbixTable};
use font_tables::scale::Scale;
use rb_common::{GlyphId, Tag};
use rb_glyph::GlyphExtents;

/// The tables of a font with bitmaps, and with glyphs that are drawn in colours.
#[derive(Clone, Copy)]
pub struct ColorTables<'a> {
    /// Bitmaps of the table `sbix`.
    pub sbix: SbixTable<'a>,
    /// Bitmaps of the tables `CBLC` and `CBDT`.
    pub cbdt: CbdtTables<'a>,
    /// Boxes that glyphs are clipped to, of the table `COLR`.
    pub colr: ColrTable<'a>,
}

impl<'a> ColorTables<'a> {
    /// Those of a font with so many glyphs, where an em has so many pixels across and upwards.
    pub(crate) fn new(tables: &Directory<'a>, glyph_count: u16, x_ppem: u16, y_ppem: u16) -> Self
        ensures { AreColorsOf result tables.now.tables glyph_count (wanted_size x_ppem y_ppem) }
    {
        let wanted = wanted_size(x_ppem, y_ppem);
        let cblc = tables.table(Tag::from_bytes(b"CBLC"));
        let cbdt = tables.table(Tag::from_bytes(b"CBDT"));
        ColorTables {
            sbix: SbixTable::new(tables.table(Tag::from_bytes(b"sbix")), glyph_count, wanted),
            cbdt: CbdtTables::new(cblc, cbdt, wanted),
            colr: ColrTable::new(tables.table(Tag::from_bytes(b"COLR"))),
        }
    }

    /// The bounds of a glyph at a size and at a place in the variations; `None` where these tables have none of it. Of a bitmap
    /// of `CBDT` the pixels are brought to the size before they become font units, as HarfBuzz does.
    pub(crate) fn bounds(
        &self,
        glyph: GlyphId,
        coordinates: &[i32],
        scale: &Scale,
    ) -> Option<GlyphExtents>
        ensures { result ≡ color_bounds self.now glyph.0 coordinates.now scale.now }
    {
        if let Some(found) = self.sbix.glyph_box(glyph) {
            return Some(scaled_bounds(found.in_units(scale.units_per_em), scale));
        }
        if let Some(found) = self.cbdt.glyph_box(glyph) {
            let extents = scaled_bounds(found.extents, scale);
            return Some(PixelBox { extents, ..found }.in_units(scale.units_per_em));
        }
        let clip = self.colr.clip_box(glyph, coordinates)?;
        Some(scaled_bounds(clip, scale))
    }
}
