//! How far a graph of paints reaches (OpenType specification, "COLR - Color Table", "Glyph metrics and boundedness").

ghost use Rattle.std.specs.Prelude.{◌≡◌, ◌≤◌, ◌∷◌, [], IfOk, IfSome, option_map};
ghost use Rattle.font_colors.specs.Paints.{behind, clipped, extents_of, filled, first_set, inverse_root, inverse_root_transform, matrix_numbers, matrix_of, numbers_of, root_transform, transform_of, turned_by, value_count};
ghost use Rattle.font_colors.specs.Paints.{center_x, center_y};

use crate::bounds::Bounds;
use crate::colr::ColrTable;
use crate::extents::Extents;
use crate::outlines::{DrawnOutlines, root};
use crate::paint_values::PaintValues;
use crate::transform::Transform;
use font_tables::bytes::{tail, u8_at, u16_at, u24_at, u32_at};
use font_variations::rounding::float;
use rb_common::GlyphId;
use rb_glyph::GlyphExtents;
use std::alloc::{AllocError, Global};
use std::num::nearest_i64_to_f32;

/// How deep paints may be nested, as in HarfBuzz.
pub(crate) const DEEPEST_PAINT: u8 = 64;

/// How many paints of a glyph are followed, as in HarfBuzz.
pub(crate) const MOST_PAINTS: u32 = 2048;

/// What paints are painted on.
#[derive(Clone, Copy)]
pub(crate) struct Canvas {
    /// The transform that holds.
    pub transform: Transform,
    /// What is not cut off.
    pub clip: Bounds,
}

impl Canvas {
    /// The same canvas, of which all but a box is cut off.
    pub(crate) fn clipped(&self, extents: &Extents) -> Canvas
        ensures { result ≡ clipped self.now extents.now }
    {
        let extents = self.transform.transformed(extents);
        Canvas {
            transform: self.transform,
            clip: Bounds::of(extents).intersected(&self.clip),
        }
    }

    /// The same canvas with another transform.
    fn turned(&self, transform: Transform) -> Canvas
        ensures { result ≡ record self.now { transform = transform } }
    {
        Canvas {
            transform,
            clip: self.clip,
        }
    }
}

/// What a walk through paints has met.
#[derive(Drop)]
pub(crate) struct Visits {
    /// How many paints may still be followed.
    left: u32,
    /// The glyphs that are being painted.
    glyphs: Vec<u16>,
    /// The layers that are being painted.
    layers: Vec<u32>,
}

impl Visits {
    /// A walk that has met a glyph.
    pub(crate) fn new(alloc: Global, glyph: GlyphId) -> Result<Self, AllocError>
        ensures left { IfOk result (λ visits. visits.left ≡ 2048) }
        ensures glyphs { IfOk result (λ visits. visits.glyphs.items ≡ glyph.0 ∷ []) }
        ensures layers { IfOk result (λ visits. visits.layers.items ≡ []) }
    {
        let mut glyphs = Vec::new(alloc);
        glyphs.push(glyph.0)?;
        Ok(Visits {
            left: MOST_PAINTS,
            glyphs,
            layers: Vec::new(alloc),
        })
    }
}

/// What finds how far paints reach.
#[derive(Clone, Copy)]
pub(crate) struct Painter<'p> {
    /// What gives the memory.
    pub alloc: Global,
    /// The table of the paints.
    pub colr: &'p ColrTable<'p>,
    /// The outlines of the glyphs.
    pub outlines: &'p DrawnOutlines<'p>,
    /// The place in the variations.
    pub coordinates: &'p [i32],
}

impl<'p> Painter<'p> {
    /// The bounds of what is painted so far, and of a paint that is painted on it.
    #[cycle(paint)]
    pub(crate) fn painted(
        self,
        depth: u8,
        paint: &'p [u8],
        canvas: &Canvas,
        group: Bounds,
        visits: &mut Visits,
    ) -> Result<Bounds, AllocError> {
        if depth == 0 || visits.left == 0 {
            return Ok(group);
        }
        visits.left -= 1;
        match u8_at(paint, 0) {
            Some(1) => self.layers(depth - 1, paint, canvas, group, visits),
            Some(2..=9) => Ok(filled(paint, canvas, group)),
            Some(10) => self.glyph(depth - 1, paint, canvas, group, visits),
            Some(11) => self.color_glyph(depth - 1, paint, canvas, group, visits),
            Some(32) => self.composite(depth - 1, paint, canvas, group, visits),
            _ => match self.transform(paint, &canvas.transform) {
                Some(transform) => {
                    let canvas = canvas.turned(transform);
                    self.painted(depth - 1, behind(paint, 1), &canvas, group, visits)
                }
                None => Ok(group),
            },
        }
    }

    /// The same of layers, one on the other.
    #[cycle(paint)]
    fn layers(
        self,
        depth: u8,
        paint: &'p [u8],
        canvas: &Canvas,
        group: Bounds,
        visits: &mut Visits,
    ) -> Result<Bounds, AllocError> {
        let (Some(count), Some(first)) = (u8_at(paint, 1), u32_at(paint, 2)) else {
            return Ok(group);
        };
        let mut group = group;
        for layer in 0..u32::from(count) {
            let layer = first.saturating_add(layer);
            if visits.layers.as_slice().contains(&layer) {
                continue;
            }
            visits.layers.push(layer)?;
            let source = self.colr.layer(layer);
            let source = self.painted(depth, source, canvas, Bounds::EMPTY, visits)?;
            group = group.united(&source);
            let _ = visits.layers.pop();
        }
        Ok(group)
    }

    /// The same of a paint that fills a glyph's outline.
    #[cycle(paint)]
    fn glyph(
        self,
        depth: u8,
        paint: &'p [u8],
        canvas: &Canvas,
        group: Bounds,
        visits: &mut Visits,
    ) -> Result<Bounds, AllocError> {
        let Some(glyph) = u16_at(paint, 4) else {
            return Ok(group);
        };
        let extents = self
            .outlines
            .extents(self.alloc, GlyphId(glyph), self.coordinates)?;
        let inverse = canvas.transform.after(&self.inverse_root_transform());
        let canvas = canvas.turned(inverse).clipped(&extents);
        let canvas = canvas.turned(inverse.after(&self.root_transform()));
        self.painted(depth, behind(paint, 1), &canvas, group, visits)
    }

    /// The same of a paint that is that of another glyph.
    #[cycle(paint)]
    fn color_glyph(
        self,
        depth: u8,
        paint: &'p [u8],
        canvas: &Canvas,
        group: Bounds,
        visits: &mut Visits,
    ) -> Result<Bounds, AllocError> {
        let Some(glyph) = u16_at(paint, 1) else {
            return Ok(group);
        };
        if visits.glyphs.as_slice().contains(&glyph) {
            return Ok(group);
        }
        visits.glyphs.push(glyph)?;
        let canvas = match self.colr.clip_box(GlyphId(glyph), self.coordinates) {
            Some(clip) => canvas.clipped(&extents_of(clip)),
            None => *canvas,
        };
        let group = match self.colr.base_paint(GlyphId(glyph)) {
            Some(paint) => self.painted(depth, paint, &canvas, group, visits)?,
            None => group,
        };
        let _ = visits.glyphs.pop();
        Ok(group)
    }

    /// The same of a source that is put on a backdrop by a composite mode.
    #[cycle(paint)]
    fn composite(
        self,
        depth: u8,
        paint: &'p [u8],
        canvas: &Canvas,
        group: Bounds,
        visits: &mut Visits,
    ) -> Result<Bounds, AllocError> {
        let (Some(mode), Some(_)) = (u8_at(paint, 4), u24_at(paint, 5)) else {
            return Ok(group);
        };
        let backdrop = self.painted(depth, behind(paint, 5), canvas, group, visits)?;
        let source = self.painted(depth, behind(paint, 1), canvas, Bounds::EMPTY, visits)?;
        Ok(backdrop.composed(&source, mode))
    }

    /// The transform that brings font units to the size.
    #[tactic(auto, using(font_variations::proofs::FloatLemmas::literals))]
    pub(crate) fn root_transform(self) -> Transform
        ensures { result ≡ root_transform self.entry.outlines.now.scale }
    {
        let scale = &self.outlines.scale;
        Transform::IDENTITY.scaled(
            root(scale.x, scale.units_per_em),
            root(scale.y, scale.units_per_em),
        )
    }

    /// The transform that brings the size to font units.
    #[tactic(auto, using(font_variations::proofs::FloatLemmas::literals))]
    fn inverse_root_transform(self) -> Transform
        ensures { result ≡ inverse_root_transform self.entry.outlines.now.scale }
    {
        let scale = &self.outlines.scale;
        Transform::IDENTITY.scaled(
            inverse_root(scale.x, scale.units_per_em),
            inverse_root(scale.y, scale.units_per_em),
        )
    }

    /// A transform after that of a paint; `None` where the paint has none, or is cut short.
    #[tactic(auto, unfolding(crate::specs::Paints::transform_of))]
    fn transform(self, paint: &'p [u8], to: &Transform) -> Option<Transform>
        ensures { result ≡ transform_of self.entry.colr.now.table.now self.entry.coordinates.now paint.now to.now }
    {
        let format = u8_at(paint, 0)?;
        if format / 2 == 6 {
            u24_at(paint, 4)?;
            return Some(to.after(&self.matrix(behind(paint, 4), format == 13)));
        }
        let values = self.values(paint, format)?;
        let (x, y) = center_of(&values, format);
        let to = turned_by(&to.translated(x, y), &values, format);
        Some(to.translated(-x, -y))
    }

    /// The transform of a matrix.
    fn matrix(self, matrix: &'p [u8], varies: bool) -> Transform
        ensures { result ≡ matrix_of (matrix_numbers self.entry.colr.now.table.now self.entry.coordinates.now matrix.now varies) }
    {
        let first = if varies {
            u32_at(matrix, 24).unwrap_or(0)
        } else {
            u32::MAX
        };
        let values = self.numbers(matrix, first);
        Transform {
            xx: values.factor(0),
            yx: values.factor(1),
            xy: values.factor(2),
            yy: values.factor(3),
            dx: values.factor(4),
            dy: values.factor(5),
        }
    }

    /// The numbers of a paint that moves, scales, turns or slants; `None` where it is none, or is cut short.
    fn values(self, paint: &'p [u8], format: u8) -> Option<PaintValues<'p>>
        ensures first { option_map (λ values. values.first) result ≡ first_set paint.now format }
        ensures numbers { IfSome result (λ values. numbers_of values ≡ record {
          colr = self.entry.colr.now.table.now;
          coordinates = self.entry.coordinates.now;
          bytes = paint.now;
          first = values.first;
        }) }
    {
        let end = 4 + 2 * value_count(format)?;
        let first = if format % 2 == 1 {
            u32_at(paint, end)?
        } else if paint.len() < end {
            return None;
        } else {
            u32::MAX
        };
        Some(self.numbers(paint, first))
    }

    /// The numbers of a paint or of a matrix, of which the first has this delta set.
    fn numbers(self, paint: &'p [u8], first: u32) -> PaintValues<'p>
        ensures { result ≡ record { colr = self.entry.colr; coordinates = self.entry.coordinates; paint = paint.entry; first = first } }
    {
        PaintValues {
            colr: self.colr,
            coordinates: self.coordinates,
            paint,
            first,
        }
    }
}

/// The center of a paint that scales, turns or slants around one, and else the origin.
#[tactic(auto, using(font_variations::proofs::FloatLemmas::literals))]
fn center_of(values: &PaintValues<'_>, format: u8) -> (f32, f32)
    ensures x { result.0 ≡ center_x format (numbers_of values.now) }
    ensures y { result.1 ≡ center_y format (numbers_of values.now) }
{
    match format / 2 {
        9 | 15 => (values.distance(2), values.distance(3)),
        11 | 13 => (values.distance(1), values.distance(2)),
        _ => (0.0, 0.0),
    }
}

/// A transform after what a paint does.
#[tactic(auto, unfolding(crate::specs::Paints::turned_by))]
fn turned_by(to: &Transform, values: &PaintValues<'_>, format: u8) -> Transform
    ensures { result ≡ turned_by format (numbers_of values.now) to.now }
{
    match format / 2 {
        7 => to.translated(values.distance(0), values.distance(1)),
        8 | 9 => to.scaled(values.ratio(0), values.ratio(1)),
        10 | 11 => to.scaled(values.ratio(0), values.ratio(0)),
        12 | 13 => to.rotated(values.ratio(0)),
        _ => to.skewed(values.ratio(0), values.ratio(1)),
    }
}

/// How many numbers a paint of a format has; `None` where it neither moves, scales, turns nor slants.
fn value_count(format: u8) -> Option<usize>
    ensures is { result ≡ value_count format }
    ensures low { IfSome result (λ count. count ≤ 4) }
{
    match format / 2 {
        7 | 8 | 14 => Some(2),
        9 | 15 => Some(4),
        10 | 12 => Some(1),
        11 | 13 => Some(3),
        _ => None,
    }
}

/// The paint or the matrix that an offset of a paint leads to; an empty one where it leads nowhere.
fn behind(paint: &[u8], at: usize) -> &[u8]
    ensures { result.now ≡ behind paint.now at }
{
    match u24_at(paint, at) {
        Some(0) | None => &[],
        Some(offset) => tail(paint, offset as usize),
    }
}

/// The bounds of what is painted so far, and of a paint that fills all that is not cut off.
fn filled(paint: &[u8], canvas: &Canvas, group: Bounds) -> Bounds
    ensures { result ≡ filled paint.now canvas.now group }
{
    let size = match u8_at(paint, 0) {
        Some(2) => 5,
        Some(3) => 9,
        Some(4 | 6 | 9) => 16,
        Some(8) => 12,
        _ => 20,
    };
    if paint.len() < size {
        group
    } else {
        group.united(&canvas.clip)
    }
}

/// How many font units are as long as one of the size.
#[tactic(auto, using(font_variations::proofs::FloatLemmas::literals))]
fn inverse_root(size: i32, units_per_em: u16) -> f32
    ensures { result ≡ inverse_root size units_per_em }
{
    if size == 0 {
        1.0
    } else {
        nearest_i64_to_f32(i64::from(units_per_em)) / nearest_i64_to_f32(i64::from(size))
    }
}

/// The sides of a box of a glyph.
#[tactic(auto, using(font_variations::proofs::FloatLemmas::literals))]
pub(crate) fn extents_of(found: GlyphExtents) -> Extents
    ensures { result ≡ extents_of found }
{
    let right = found.x_bearing.saturating_add(found.width);
    let low = found.y_bearing.saturating_add(found.height);
    Extents {
        x_min: float(found.x_bearing),
        y_min: float(low),
        x_max: float(right),
        y_max: float(found.y_bearing),
    }
}
