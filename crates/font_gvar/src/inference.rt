//! Deltas of points of which a font says none, inferred from those of their contour of which it does (OpenType specification, "gvar -
//! Glyph Variations Table", "Inferred deltas for un-referenced point numbers").

ghost use Rattle.std.specs.Prelude.{◌≡◌, ◌<◌, IfSome, length};
ghost use Rattle.font_gvar.specs.Points.{inferred};

use crate::points::{Delta, OutlinePoint, Point};

/// Infers the deltas that are not said, contour by contour. Points behind the last contour have no other deltas than those that are
/// said.
pub(crate) fn infer_deltas(points: &[OutlinePoint], deltas: &mut [Delta]) {
    let mut start = 0;
    for end in 0..points.len().min(deltas.len()) {
        if points[end].is_end {
            infer_contour(&points[start..=end], &mut deltas[start..=end]);
            start = end + 1;
        }
    }
}

/// Infers the deltas of a contour's points: from the nearest two of which one is said, around the contour. Nothing where none is.
fn infer_contour(points: &[OutlinePoint], deltas: &mut [Delta]) {
    let Some(first) = first_said(deltas) else {
        return;
    };
    let mut before = first;
    for behind in first + 1..deltas.len() {
        if deltas[behind].is_said {
            fill(points, deltas, (before, behind), (before + 1, behind));
            before = behind;
        }
    }
    let len = points.len();
    fill(points, deltas, (before, first), (before + 1, len));
    fill(points, deltas, (before, first), (0, first));
}

/// The first point whose delta is said.
fn first_said(deltas: &[Delta]) -> Option<usize>
    ensures { IfSome result (λ place. place < length deltas.now) }
{
    for place in 0..deltas.len() {
        if deltas[place].is_said {
            return Some(place);
        }
    }
    None
}

/// Infers the deltas of the points from a place up to another one, from two points whose deltas are said.
fn fill(
    points: &[OutlinePoint],
    deltas: &mut [Delta],
    (before, behind): (usize, usize),
    (start, end): (usize, usize),
) {
    let (Some(low), Some(high)) = (points.get(before), points.get(behind)) else {
        return;
    };
    let (Some(low_delta), Some(high_delta)) = (deltas.get(before), deltas.get(behind)) else {
        return;
    };
    let ends = Ends {
        before: low.at,
        behind: high.at,
        before_delta: low_delta.by,
        behind_delta: high_delta.by,
    };
    for place in start..end {
        if let Some(point) = points.get(place)
            && let Some(delta) = deltas.get_mut(place)
        {
            delta.by = ends.inferred(point.at);
        }
    }
}

/// Two points, and their deltas.
#[derive(Clone, Copy)]
struct Ends {
    before: Point,
    behind: Point,
    before_delta: Point,
    behind_delta: Point,
}

impl Ends {
    /// The delta of a point.
    fn inferred(&self, point: Point) -> Point {
        Point {
            x: inferred(
                point.x,
                (self.before.x, self.before_delta.x),
                (self.behind.x, self.behind_delta.x),
            ),
            y: inferred(
                point.y,
                (self.before.y, self.before_delta.y),
                (self.behind.y, self.behind_delta.y),
            ),
        }
    }
}

/// The delta of a coordinate, from two others with their deltas: evenly between them, and outside that of the nearer one.
#[tactic(auto, using(font_variations::proofs::FloatLemmas::literals))]
fn inferred(target: f32, before: (f32, f32), behind: (f32, f32)) -> f32
    ensures { result ≡ inferred target before.0 before.1 behind.0 behind.1 }
{
    let (low, high) = if before.0 < behind.0 {
        (before, behind)
    } else {
        (behind, before)
    };
    if before.0 == behind.0 {
        if before.1 == behind.1 { before.1 } else { 0.0 }
    } else if target <= low.0 {
        low.1
    } else if target >= high.0 {
        high.1
    } else {
        let ratio = (target - before.0) / (behind.0 - before.0);
        before.1 + ratio * (behind.1 - before.1)
    }
}
