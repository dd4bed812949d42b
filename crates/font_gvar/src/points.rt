//! Points of outlines.

ghost use Rattle.std.specs.Prelude.{◌≡◌};

/// A point, or by how much a point moves, in font units.
#[derive(Clone, Copy, PartialEq, Default)]
pub struct Point {
    /// To the right.
    pub x: f32,
    /// Upwards.
    pub y: f32,
}

impl Point {
    ghost use Rattle.font_gvar.specs.Points.{from, moved, times};

    /// The point that lies so far from this one.
    pub fn moved(self, by: Point) -> Point
        ensures { result ≡ moved self by }
    {
        Point {
            x: self.x + by.x,
            y: self.y + by.y,
        }
    }

    /// The point so many times as far from the origin.
    pub fn times(self, factor: f32) -> Point
        ensures { result ≡ times self factor }
    {
        Point {
            x: self.x * factor,
            y: self.y * factor,
        }
    }

    /// How far it is from another point to this one.
    pub fn from(self, other: Point) -> Point
        ensures { result ≡ from self other }
    {
        Point {
            x: self.x - other.x,
            y: self.y - other.y,
        }
    }
}

/// A point of an outline.
#[derive(Clone, Copy)]
pub(crate) struct OutlinePoint {
    /// Where it is.
    pub at: Point,
    /// Whether a contour ends with it.
    pub is_end: bool,
}

/// By how much a point moves.
#[derive(Clone, Copy, Default)]
pub(crate) struct Delta {
    /// By how much.
    pub by: Point,
    /// Whether the font says it, and it is not inferred from other points.
    pub is_said: bool,
}
