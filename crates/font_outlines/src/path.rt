//! The path that a charstring draws, and its bounds.

ghost use Rattle.std.specs.Prelude.{◌≡◌};

/// A point, or how far it is from one point to another, in 65,536ths of a font unit.
#[derive(Clone, Copy)]
pub struct Point {
    /// To the right.
    pub x: i64,
    /// Upwards.
    pub y: i64,
}

impl Point {
    ghost use Rattle.font_outlines.specs.Path.{moved, to};

    /// The point that lies so far from this one.
    ///
    /// Numbers of a charstring are below 2³¹, and its steps are at most 200,000: so no sum is cut off at the limits.
    #[tactic(auto, using(outline_tables::proofs::SignedLemmas::signed))]
    pub(crate) fn moved(self, by: Point) -> Point
        ensures { result ≡ moved self by }
    {
        Point {
            x: self.x.saturating_add(by.x),
            y: self.y.saturating_add(by.y),
        }
    }

    /// How far it is from this point to another.
    #[tactic(auto, using(outline_tables::proofs::SignedLemmas::signed))]
    pub(crate) fn to(self, other: Point) -> Point
        ensures { result ≡ to self other }
    {
        Point {
            x: other.x.saturating_sub(self.x),
            y: other.y.saturating_sub(self.y),
        }
    }
}

/// A box around points: one without points, as `Bounds::EMPTY`, ends before it begins.
#[derive(Clone, Copy)]
pub struct Bounds {
    /// The left and lower corner.
    pub min: Point,
    /// The right and upper corner.
    pub max: Point,
}

impl Bounds {
    ghost use Rattle.font_outlines.specs.Path.{including, is_empty, merged, moved_box};

    /// The box around no point: from the greatest coordinate down to the least, as HarfBuzz has it.
    pub(crate) const EMPTY: Bounds = Bounds {
        min: Point {
            x: 140737488289792,
            y: 140737488289792,
        },
        max: Point {
            x: -140737488355328,
            y: -140737488355328,
        },
    };

    /// Whether the box has no width or no height.
    pub(crate) fn is_empty(self) -> bool
        ensures { result ≡ is_empty self }
    {
        self.min.x >= self.max.x || self.min.y >= self.max.y
    }

    /// The least box around this one and a point.
    pub(crate) fn including(self, point: Point) -> Bounds
        ensures { result ≡ including self point }
    {
        Bounds {
            min: Point {
                x: self.min.x.min(point.x),
                y: self.min.y.min(point.y),
            },
            max: Point {
                x: self.max.x.max(point.x),
                y: self.max.y.max(point.y),
            },
        }
    }

    /// The least box around this one and another, where an empty box counts for nothing.
    pub(crate) fn merged(self, other: Bounds) -> Bounds
        ensures { result ≡ merged self other }
    {
        if self.is_empty() {
            other
        } else if other.is_empty() {
            self
        } else {
            self.including(other.min).including(other.max)
        }
    }

    /// The box that lies so far from this one; an empty one stays.
    pub(crate) fn moved(self, by: Point) -> Bounds
        ensures { result ≡ moved_box self by }
    {
        if self.is_empty() {
            self
        } else {
            Bounds {
                min: self.min.moved(by),
                max: self.max.moved(by),
            }
        }
    }
}

/// A path, as far as its bounds ask for it: they include the points that control its curves.
#[derive(Clone, Copy)]
pub(crate) struct Path {
    /// The current point.
    pub point: Point,
    /// Whether something was drawn since the last move.
    pub is_open: bool,
    /// The bounds of what was drawn.
    pub bounds: Bounds,
}

impl Path {
    ghost use Rattle.font_outlines.specs.Path.{curve, line, move_by, opened};

    /// A path that begins at the glyph's origin.
    pub(crate) const EMPTY: Path = Path {
        point: Point { x: 0, y: 0 },
        is_open: false,
        bounds: Bounds::EMPTY,
    };

    /// Moves to a point without drawing.
    pub(crate) fn move_by(&mut self, by: Point)
        ensures { self.new ≡ move_by self.old by }
    {
        self.is_open = false;
        self.point = self.point.moved(by);
    }

    /// Draws a line.
    #[tactic(auto, unfolding(crate::specs::Path::line))]
    pub(crate) fn line_by(&mut self, by: Point)
        ensures { self.new ≡ line self.old by }
    {
        self.open();
        self.point = self.point.moved(by);
        self.bounds = self.bounds.including(self.point);
    }

    /// Draws a curve by way of two points that control it, each as it lies from the point before.
    #[tactic(auto, unfolding(crate::specs::Path::curve))]
    pub(crate) fn curve_by(&mut self, first: Point, second: Point, end: Point)
        ensures { self.new ≡ curve self.old first second end }
    {
        self.line_by(first);
        self.line_by(second);
        self.line_by(end);
    }

    /// Begins to draw at the current point.
    fn open(&mut self)
        ensures { self.new ≡ opened self.old }
    {
        if !self.is_open {
            self.is_open = true;
            self.bounds = self.bounds.including(self.point);
        }
    }
}
