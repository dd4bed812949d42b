//! The points of an outline, moved by its variations.

use crate::inference::infer_deltas;
use crate::points::{Delta, OutlinePoint};
use crate::sources::PointSource;
use crate::tuple_deltas::TupleDeltas;
use crate::tuple_scalar::tuple_scalar;
use crate::tuples::{Tuple, Tuples};
use rb_common::GlyphId;
use std::alloc::{AllocError, Global};

/// Points of an outline, and by how much they are still to be moved.
#[derive(Drop)]
struct VariedPoints<'p> {
    /// The points, as they are moved so far.
    points: &'p mut [OutlinePoint],
    /// The points where nothing varies.
    original: Vec<OutlinePoint>,
    /// By how much they are still to be moved.
    deltas: Vec<Delta>,
    is_pending: bool,
}

impl PointSource<'_> {
    /// Moves points of a glyph, its phantom points among them, by the variations of the glyph. Where a tuple of these is broken, it and
    /// those behind it are passed over.
    pub(crate) fn vary_points(
        self,
        glyph: GlyphId,
        points: &mut [OutlinePoint],
    ) -> Result<(), AllocError> {
        if self.coordinates.is_empty() {
            return Ok(());
        }
        let data = self.sources.variations.data_of(glyph);
        let Some(tuples) = Tuples::new(&self.sources.variations, data) else {
            return Ok(());
        };
        let mut varied = VariedPoints::new(self.alloc, points)?;
        self.move_by(tuples, data, &mut varied);
        Ok(())
    }

    /// Moves points by the tuples in these bytes.
    fn move_by(self, mut tuples: Tuples<'_>, data: &[u8], varied: &mut VariedPoints<'_>) {
        for _ in data {
            let Some(tuple) = tuples.next() else {
                break;
            };
            let scalar = tuple_scalar(&self.sources.variations, &tuple, self.coordinates);
            if scalar != 0.0 && varied.add(&tuple, scalar).is_none() {
                return;
            }
        }
        varied.settle();
    }
}

impl<'p> VariedPoints<'p> {
    /// Points that are not moved yet.
    fn new(alloc: Global, points: &'p mut [OutlinePoint]) -> Result<Self, AllocError> {
        let original = Vec::from_slice(alloc, points)?;
        let mut deltas = Vec::new(alloc);
        deltas.resize(points.len(), Delta::default())?;
        Ok(VariedPoints {
            points,
            original,
            deltas,
            is_pending: false,
        })
    }

    /// Moves the points by all that they are still to be moved by.
    fn settle(&mut self) {
        if self.is_pending {
            move_all(self.points, self.deltas.as_slice());
        }
        for delta in self.deltas.iter_mut() {
            *delta = Delta::default();
        }
        self.is_pending = false;
    }

    /// Adds a tuple's deltas; `None` where it is broken.
    fn add(&mut self, tuple: &Tuple<'_>, scalar: f32) -> Option<()> {
        let count = u32::try_from(self.deltas.len()).ok()?;
        let found = TupleDeltas::new(tuple, count, 0)?;
        if !found.is_for_all {
            self.settle();
        }
        add_all(self.deltas.as_mut_slice(), found, scalar);
        if !found.is_for_all {
            infer_deltas(self.original.as_slice(), self.deltas.as_mut_slice());
        }
        self.is_pending = true;
        Some(())
    }
}

/// Moves each point by its delta.
fn move_all(points: &mut [OutlinePoint], deltas: &[Delta]) {
    for (point, delta) in points.iter_mut().zip(deltas) {
        point.at = point.at.moved(delta.by);
    }
}

/// Adds a tuple's deltas to those of the points.
fn add_all(deltas: &mut [Delta], mut found: TupleDeltas<'_>, scalar: f32) {
    for _ in 0..found.left() {
        if let Some((point, by)) = found.next()
            && let Some(delta) = deltas.get_mut(point as usize)
        {
            delta.by = delta.by.moved(by.times(scalar));
            delta.is_said = true;
        }
    }
}
