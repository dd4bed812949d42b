//! Affine transforms of what is painted, in floats of 32 bits (OpenType specification, "COLR - Color Table", "Paint tables").

ghost use Rattle.std.specs.Prelude.{◌≡◌};

use crate::angles::{sine_and_cosine, tangent};
use crate::extents::Extents;

/// An affine transform: a point `(x, y)` is brought to `(xx x + xy y + dx, yx x + yy y + dy)`.
#[derive(Clone, Copy)]
pub(crate) struct Transform {
    /// How far right a step to the right leads.
    pub xx: f32,
    /// How far up a step to the right leads.
    pub yx: f32,
    /// How far right a step upwards leads.
    pub xy: f32,
    /// How far up a step upwards leads.
    pub yy: f32,
    /// How far right the origin is moved.
    pub dx: f32,
    /// How far up the origin is moved.
    pub dy: f32,
}

impl Transform {
    ghost use Rattle.font_colors.specs.Transform.{after, point, rotated, scaled, skewed, transformed, translated};

    /// The transform that leaves all as it is.
    pub(crate) const IDENTITY: Transform = Transform {
        xx: 1.0,
        yx: 0.0,
        xy: 0.0,
        yy: 1.0,
        dx: 0.0,
        dy: 0.0,
    };

    /// This transform after another one.
    #[tactic(auto, unfolding(crate::specs::Transform::after))]
    pub(crate) fn after(&self, other: &Transform) -> Transform
        ensures { result ≡ after self.now other.now }
    {
        Transform {
            xx: other.xx * self.xx + other.yx * self.xy,
            yx: other.xx * self.yx + other.yx * self.yy,
            xy: other.xy * self.xx + other.yy * self.xy,
            yy: other.xy * self.yx + other.yy * self.yy,
            dx: other.dx * self.xx + other.dy * self.xy + self.dx,
            dy: other.dx * self.yx + other.dy * self.yy + self.dy,
        }
    }

    /// This transform after a scaling.
    #[tactic(auto, using(font_variations::proofs::FloatLemmas::literals), unfolding(crate::specs::Transform::scaled))]
    pub(crate) fn scaled(&self, x: f32, y: f32) -> Transform
        ensures { result ≡ scaled self.now x y }
    {
        if x == 1.0 && y == 1.0 {
            return *self;
        }
        self.after(&Transform {
            xx: x,
            yy: y,
            ..Transform::IDENTITY
        })
    }

    /// This transform after a move.
    #[tactic(auto, using(font_variations::proofs::FloatLemmas::literals), unfolding(crate::specs::Transform::translated))]
    pub(crate) fn translated(&self, x: f32, y: f32) -> Transform
        ensures { result ≡ translated self.now x y }
    {
        if x == 0.0 && y == 0.0 {
            return *self;
        }
        self.after(&Transform {
            dx: x,
            dy: y,
            ..Transform::IDENTITY
        })
    }

    /// This transform after a turn to the left by so many halves of a circle.
    #[tactic(auto, using(font_variations::proofs::FloatLemmas::literals), unfolding(crate::specs::Transform::rotated))]
    pub(crate) fn rotated(&self, angle: f32) -> Transform
        ensures { result ≡ rotated self.now angle }
    {
        if angle == 0.0 {
            return *self;
        }
        let (sine, cosine) = sine_and_cosine(angle);
        self.after(&Transform {
            xx: cosine,
            yx: sine,
            xy: -sine,
            yy: cosine,
            ..Transform::IDENTITY
        })
    }

    /// This transform after what slants the two axes, each by so many halves of a circle.
    #[tactic(auto, using(font_variations::proofs::FloatLemmas::literals), unfolding(crate::specs::Transform::skewed))]
    pub(crate) fn skewed(&self, x: f32, y: f32) -> Transform
        ensures { result ≡ skewed self.now x y }
    {
        if x == 0.0 && y == 0.0 {
            return *self;
        }
        self.after(&Transform {
            yx: tangent(y),
            xy: tangent(-x),
            ..Transform::IDENTITY
        })
    }

    /// The least box around the corners of a box, where this transform brings them.
    pub(crate) fn transformed(&self, extents: &Extents) -> Extents
        ensures { result ≡ transformed self.now extents.now }
    {
        let (left, low) = (extents.x_min, extents.y_min);
        let (right, top) = (extents.x_max, extents.y_max);
        self.point(left, low)
            .joined(&self.point(left, top))
            .joined(&self.point(right, low))
            .joined(&self.point(right, top))
    }

    /// The box of a point, where this transform brings it.
    fn point(&self, x: f32, y: f32) -> Extents
        ensures { result ≡ point self.now x y }
    {
        let (x, y) = (
            self.xx * x + self.xy * y + self.dx,
            self.yx * x + self.yy * y + self.dy,
        );
        Extents {
            x_min: x,
            y_min: y,
            x_max: x,
            y_max: y,
        }
    }
}
