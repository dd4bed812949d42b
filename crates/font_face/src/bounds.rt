//! The bounds of glyphs at the size at which a font is used, and at the place that is chosen in its variations.

ghost use Rattle.std.specs.Prelude.{◌≡◌, [], Ok, Some, IfSome};
ghost use Rattle.font_tables.specs.Metrics.{side_bearing};
ghost use Rattle.outline_tables.specs.Glyf.{glyf_extents};
ghost use Rattle.font_face.specs.Measures.{color_bounds};

use crate::color::ColorTables;
use crate::face::Face;
use crate::measures::scaled_bounds;
use font_colors::DrawnOutlines;
use font_gvar::{GlyphSources, GlyphVariations, varied_outline};
use font_outlines::{Cff2Table, Outlines};
use font_tables::metrics::Metrics;
use font_tables::scale::Scale;
use rb_common::GlyphId;
use rb_glyph::GlyphExtents;
use std::alloc::{AllocError, Global};

/// What the bounds of a font's glyphs are found from.
#[derive(Clone, Copy)]
pub(crate) struct BoundsSource<'a> {
    /// Bitmaps, and glyphs that are drawn in colours.
    pub color: ColorTables<'a>,
    /// The outlines.
    pub outlines: Outlines<'a>,
    /// The outlines of the table `CFF2`, where the font has one.
    pub outlines_2: Option<Cff2Table<'a>>,
    /// The variations of outlines of the table `glyf`.
    pub variations: GlyphVariations<'a>,
    /// Advances and side bearings in horizontal lines.
    pub horizontal: Metrics<'a>,
    /// Advances and side bearings in vertical lines.
    pub vertical: Metrics<'a>,
    /// The size.
    pub scale: Scale,
}

impl<'a> BoundsSource<'a> {
    /// What the bounds of a font's glyphs are found from.
    pub(crate) fn new(face: &Face<'a>) -> Self
        ensures color { result.color ≡ face.now.color }
        ensures outlines { result.outlines ≡ face.now.outlines }
        ensures outlines_2 { result.outlines_2 ≡ face.now.variations.outlines_2 }
        ensures variations { result.variations ≡ face.now.variations.glyphs }
        ensures horizontal { result.horizontal ≡ face.now.horizontal }
        ensures vertical { result.vertical ≡ face.now.vertical }
        ensures scale { result.scale ≡ face.now.scale }
    {
        BoundsSource {
            color: face.color,
            outlines: face.outlines,
            outlines_2: face.variations.outlines_2,
            variations: face.variations.glyphs,
            horizontal: face.horizontal,
            vertical: face.vertical,
            scale: face.scale,
        }
    }

    /// The tables of outlines and their variations.
    pub(crate) fn glyph_sources(&self) -> GlyphSources<'a>
        ensures outlines { result.outlines ≡ self.now.outlines.glyf }
        ensures variations { result.variations ≡ self.now.variations }
        ensures horizontal { result.horizontal ≡ self.now.horizontal }
        ensures vertical { result.vertical ≡ self.now.vertical }
    {
        GlyphSources {
            outlines: self.outlines.glyf,
            variations: self.variations,
            horizontal: self.horizontal,
            vertical: self.vertical,
        }
    }

    /// The outlines as they are drawn.
    fn drawn(&self) -> DrawnOutlines<'a>
        ensures glyf { result.sources.outlines ≡ self.now.outlines.glyf }
        ensures cff_2 { result.cff_2 ≡ self.now.outlines_2 }
        ensures cff { result.cff ≡ self.now.outlines.cff }
        ensures scale { result.scale ≡ self.now.scale }
    {
        DrawnOutlines {
            sources: self.glyph_sources(),
            cff_2: self.outlines_2,
            cff: self.outlines.cff,
            scale: self.scale,
        }
    }

    /// The bounds of a glyph at a place in the variations: of its bitmap, or else of its colours, or of its outline; `None` where
    /// the font has none of these.
    pub(crate) fn bounds(
        &self,
        alloc: Global,
        glyph: GlyphId,
        coordinates: &[i32],
    ) -> Result<Option<GlyphExtents>, AllocError>
        ensures { IfSome (color_bounds self.now.color glyph.0 coordinates.now self.now.scale) (λ bounds. result ≡ Ok (Some bounds)) }
    {
        if let Some(found) = self.color.bounds(glyph, coordinates, &self.scale) {
            return Ok(Some(found));
        }
        let drawn = self.drawn();
        if let Some(found) = self
            .color
            .colr
            .painted_extents(alloc, glyph, &drawn, coordinates)?
        {
            return Ok(Some(found));
        }
        let found = self.outline_extents(alloc, glyph, coordinates)?;
        Ok(found.map(|extents| scaled_bounds(extents, &self.scale)))
    }

    /// The bounds of a glyph's outline, in font units: of that in the table `glyf`, or else in `CFF2`, or in `CFF `.
    fn outline_extents(
        &self,
        alloc: Global,
        glyph: GlyphId,
        coordinates: &[i32],
    ) -> Result<Option<GlyphExtents>, AllocError> {
        let drawn = self.glyf_extents(alloc, glyph, coordinates)?;
        Ok(match drawn {
            Some(extents) => Some(extents),
            None => self.charstring_extents(glyph, coordinates),
        })
    }

    /// The bounds of a glyph's outline in the table `glyf`, in font units.
    fn glyf_extents(
        &self,
        alloc: Global,
        glyph: GlyphId,
        coordinates: &[i32],
    ) -> Result<Option<GlyphExtents>, AllocError>
        ensures { coordinates.now ≡ [] → let glyf = self.now.outlines.glyf in
            result ≡ Ok (glyf_extents glyf.glyf.now glyf.loca.now glyf.has_long_offsets glyf.glyph_count glyph.0 (side_bearing self.now.horizontal glyph.0)) }
    {
        if coordinates.is_empty() {
            let bearing = self.horizontal.side_bearing(glyph);
            return Ok(self.outlines.glyf.glyph_extents(glyph, bearing));
        }
        let outline = varied_outline(alloc, &self.glyph_sources(), glyph, coordinates)?;
        Ok(outline.map(|outline| outline.extents))
    }

    /// The bounds of what a glyph's charstring draws, in font units.
    fn charstring_extents(&self, glyph: GlyphId, coordinates: &[i32]) -> Option<GlyphExtents> {
        if let Some(table) = self.outlines_2
            && let Some(extents) = table.glyph_extents(glyph, coordinates)
        {
            return Some(extents);
        }
        self.outlines.cff?.glyph_extents(glyph)
    }
}
