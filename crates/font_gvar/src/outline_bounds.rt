//! The bounds of glyphs at a place in the variations of a font.

ghost use Rattle.std.specs.Prelude.{◌≡◌, ◌-◌, length, take};
ghost use Rattle.font_gvar.specs.Points.{all_moved, bounds_of, including, to_origin, whole_box};

use crate::outlines::last_phantoms;
use crate::phantoms::{DEEPEST_GLYPH, MOST_GLYPHS, Phantoms};
use crate::points::{OutlinePoint, Point};
use crate::sources::{GlyphSources, PointSource};
use font_variations::rounding::{float, greater, lesser, rounded};
use outline_tables::glyf::NO_BOX;
use rb_common::GlyphId;
use rb_glyph::GlyphExtents;
use std::alloc::{AllocError, Global};

/// An outline at a place in the variations of a font.
#[derive(Clone, Copy)]
pub struct VariedOutline {
    /// The box around its points, in whole font units.
    pub extents: GlyphExtents,
    /// The box around its points.
    pub bounds: PointBounds,
    /// Its phantom points.
    pub phantoms: Phantoms,
}

/// The outline of a glyph at these coordinates, moved so that its origin in horizontal lines is at 0. `None` where the font has no
/// outline of the glyph, or it is broken; `Err(AllocError)` where memory runs out.
pub fn varied_outline(
    alloc: Global,
    sources: &GlyphSources<'_>,
    glyph: GlyphId,
    coordinates: &[i32],
) -> Result<Option<VariedOutline>, AllocError> {
    let mut points = Vec::new(alloc);
    let mut steps = MOST_GLYPHS;
    let source = PointSource {
        alloc,
        sources,
        coordinates,
    };
    if !source.push_glyph(glyph, DEEPEST_GLYPH, &mut steps, &mut points)? {
        return Ok(None);
    }
    let all = points.as_slice();
    Ok(Some(outline_of(all, &last_phantoms(all))))
}

/// The outline of these points, of which the last four are its phantom points.
#[tactic(auto, using(font_variations::proofs::FloatLemmas::literals))]
fn outline_of(points: &[OutlinePoint], phantoms: &Phantoms) -> VariedOutline
    ensures bounds { result.bounds ≡ bounds_of (to_origin phantoms.now) (take (length points.now - 4) points.now) }
    ensures extents { result.extents ≡ whole_box result.bounds }
    ensures phantoms { result.phantoms ≡ all_moved phantoms.now (to_origin phantoms.now) }
{
    let by = Point {
        x: -phantoms.left.x,
        y: 0.0,
    };
    let bounds = bounds_of(&points[..points.len().saturating_sub(4)], by);
    VariedOutline {
        extents: bounds.extents(),
        bounds,
        phantoms: Phantoms {
            left: phantoms.left.moved(by),
            right: phantoms.right.moved(by),
            top: phantoms.top.moved(by),
            bottom: phantoms.bottom.moved(by),
        },
    }
}

/// The box around points, each moved by a distance.
#[tactic(auto, using(crate::proofs::BoundsLemmas::bounds), unfolding(crate::specs::Points::bounds_of))]
fn bounds_of(points: &[OutlinePoint], by: Point) -> PointBounds
    ensures { result ≡ bounds_of by points.now }
{
    let mut bounds = PointBounds::EMPTY;
    for point in points {
        bounds = bounds.including(point.at.moved(by));
    }
    bounds
}

/// The box around points: one without points ends before it begins.
#[derive(Clone, Copy)]
pub struct PointBounds {
    /// The left and lower corner.
    pub min: Point,
    /// The right and upper corner.
    pub max: Point,
}

impl PointBounds {
    /// The box around no point: from the greatest float down to the least.
    const EMPTY: PointBounds = PointBounds {
        min: Point {
            x: f32::MAX,
            y: f32::MAX,
        },
        max: Point {
            x: f32::MIN,
            y: f32::MIN,
        },
    };

    /// The least box around this one and a point.
    fn including(self, point: Point) -> PointBounds
        ensures { result ≡ including self point }
    {
        PointBounds {
            min: Point {
                x: lesser(self.min.x, point.x),
                y: lesser(self.min.y, point.y),
            },
            max: Point {
                x: greater(self.max.x, point.x),
                y: greater(self.max.y, point.y),
            },
        }
    }

    /// The box in whole font units: its left side and its top are rounded, and so is how far it is from there to the other sides.
    #[tactic(auto, using(font_variations::proofs::FloatLemmas::literals))]
    fn extents(self) -> GlyphExtents
        ensures { result ≡ whole_box self }
    {
        if self.min.x >= self.max.x || self.min.y >= self.max.y {
            return NO_BOX;
        }
        let x_bearing = rounded(self.min.x);
        let y_bearing = rounded(self.max.y);
        GlyphExtents {
            x_bearing,
            y_bearing,
            width: rounded(self.max.x - float(x_bearing)),
            height: rounded(self.min.y - float(y_bearing)),
        }
    }
}
