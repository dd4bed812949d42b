//! The boxes of outlines, as they are drawn.

ghost use Rattle.std.specs.Prelude.{◌≡◌};
ghost use Rattle.font_colors.specs.Paints.{box_in_size, in_font_units, path_box, points_box, root};

use crate::extents::Extents;
use font_gvar::{GlyphSources, PointBounds, varied_outline};
use font_outlines::path::Bounds as PathBounds;
use font_outlines::{Cff2Table, CffTable};
use font_tables::scale::Scale;
use rb_common::GlyphId;
use std::alloc::{AllocError, Global};
use std::num::nearest_i64_to_f32;

/// What outlines of glyphs are drawn from.
#[derive(Clone, Copy)]
pub struct DrawnOutlines<'a> {
    /// The outlines of `glyf`, and their variations.
    pub sources: GlyphSources<'a>,
    /// The outlines of `CFF2`, where the font has it.
    pub cff_2: Option<Cff2Table<'a>>,
    /// The outlines of `CFF `, where the font has it.
    pub cff: Option<CffTable<'a>>,
    /// The size.
    pub scale: Scale,
}

impl DrawnOutlines<'_> {
    /// The box around the points of an outline at a place in the variations, those that control its curves too, at the size; the
    /// box around nothing where there is no outline. `Err(AllocError)` where memory runs out for the points.
    pub(crate) fn extents(
        &self,
        alloc: Global,
        glyph: GlyphId,
        coordinates: &[i32],
    ) -> Result<Extents, AllocError> {
        let outline = varied_outline(alloc, &self.sources, glyph, coordinates)?;
        Ok(match outline {
            Some(outline) => self.of_points(&outline.bounds),
            None => match self.path_bounds(glyph, coordinates) {
                Some(bounds) => self.of_path(&bounds),
                None => Extents::VOID,
            },
        })
    }

    /// The bounds of what a charstring draws.
    fn path_bounds(&self, glyph: GlyphId, coordinates: &[i32]) -> Option<PathBounds> {
        if let Some(table) = self.cff_2
            && let Some(bounds) = table.path_bounds(glyph, coordinates)
        {
            return Some(bounds);
        }
        self.cff?.path_bounds(glyph)
    }

    /// The box of points in font units.
    #[tactic(auto, using(crate::proofs::FloatLemmas::sides))]
    fn of_points(&self, bounds: &PointBounds) -> Extents
        ensures { result ≡ points_box self.now.scale bounds.now }
    {
        if bounds.min.x > bounds.max.x {
            return Extents::VOID;
        }
        self.scaled((bounds.min.x, bounds.min.y), (bounds.max.x, bounds.max.y))
    }

    /// The box of a path.
    #[tactic(auto, using(crate::proofs::FloatLemmas::sides))]
    fn of_path(&self, bounds: &PathBounds) -> Extents
        ensures { result ≡ path_box self.now.scale bounds.now }
    {
        if bounds.min.x > bounds.max.x {
            return Extents::VOID;
        }
        self.scaled(
            (units(bounds.min.x), units(bounds.min.y)),
            (units(bounds.max.x), units(bounds.max.y)),
        )
    }

    /// The box between two corners in font units at the size.
    fn scaled(&self, low: (f32, f32), high: (f32, f32)) -> Extents
        ensures { result ≡ box_in_size self.now.scale low.0 low.1 high.0 high.1 }
    {
        let x = root(self.scale.x, self.scale.units_per_em);
        let y = root(self.scale.y, self.scale.units_per_em);
        Extents::at(low.0 * x, low.1 * y).joined(&Extents::at(high.0 * x, high.1 * y))
    }
}

/// How long a font unit is where an em is so long.
#[tactic(auto, using(font_variations::proofs::FloatLemmas::literals))]
pub(crate) fn root(size: i32, units_per_em: u16) -> f32
    ensures { result ≡ root size units_per_em }
{
    nearest_i64_to_f32(i64::from(size)) / nearest_i64_to_f32(i64::from(units_per_em))
}

/// A number of 65,536ths of a font unit, in font units.
#[tactic(auto, using(font_variations::proofs::FloatLemmas::powers))]
fn units(number: i64) -> f32
    ensures { result ≡ in_font_units number }
{
    nearest_i64_to_f32(number) / 65536.0
}
