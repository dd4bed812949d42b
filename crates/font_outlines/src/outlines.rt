//! The outlines of a font, of either kind.

use crate::cff::CffTable;
use outline_tables::GlyfTables;
use rb_common::GlyphId;
use rb_glyph::GlyphExtents;

/// The outlines of a font: those of `glyf`, and of `CFF ` for the glyphs that `glyf` does not have.
///
/// Variations and the table `CFF2` are not read.
#[derive(Clone, Copy)]
pub struct Outlines<'a> {
    /// The tables `glyf` and `loca`.
    pub glyf: GlyfTables<'a>,
    /// The table `CFF `, where the font has one.
    pub cff: Option<CffTable<'a>>,
}

impl<'a> Outlines<'a> {
    ghost use Rattle.std.specs.Prelude.{◌≡◌, option_and_then, IsSome};
    ghost use Rattle.std.specs.Option.{option_copied};
    ghost use Rattle.font_outlines.specs.Outlines.{glyf_box, cff_name};

    /// The outlines in these tables, which are empty where the font has none, of a font with so many glyphs.
    pub fn new(glyf: GlyfTables<'a>, cff: &'a [u8]) -> Self
        ensures { result.glyf ≡ glyf.entry }
    {
        Outlines {
            glyf,
            cff: CffTable::parse(cff, glyf.glyph_count),
        }
    }

    /// The box of a glyph, in font units, by its left side bearing in `hmtx`, where it has one; `None` where the font has no
    /// outlines for the glyph.
    pub fn glyph_extents(
        &self,
        glyph: GlyphId,
        left_side_bearing: Option<i16>,
    ) -> Option<GlyphExtents>
        ensures { IsSome (glyf_box self.now glyph.0 left_side_bearing) → result ≡ glyf_box self.now glyph.0 left_side_bearing }
    {
        match self.glyf.glyph_extents(glyph, left_side_bearing) {
            Some(extents) => Some(extents),
            None => self.cff?.glyph_extents(glyph),
        }
    }

    /// The name of a glyph in the table `CFF `, which is ASCII by the specification; `None` where it has none.
    pub fn glyph_name(&self, glyph: GlyphId) -> Option<&'a [u8]>
        ensures { option_copied result ≡ option_and_then (λ cff. cff_name cff glyph.0) self.now.cff }
    {
        self.cff?.glyph_name(glyph)
    }
}
