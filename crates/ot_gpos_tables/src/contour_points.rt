//! Points of outlines, at which anchors of format 2 stand.

/// Where a point of a glyph's outline is, at the size at which the font is used.
#[derive(Clone, Copy)]
pub struct ContourPoint {
    /// To the right.
    pub x: i32,
    /// Upwards.
    pub y: i32,
}

/// A font, as far as it is asked for points of outlines.
pub trait ContourPoints {
    /// Where a point of a glyph's outline is; `None` where the font does not know it.
    fn contour_point(&self, glyph: u32, point: u16) -> Option<ContourPoint>;
}

/// A font that knows no points, as HarfBuzz's own functions know none.
#[derive(Clone, Copy)]
pub struct NoPoints;

impl ContourPoints for NoPoints {
    fn contour_point(&self, _glyph: u32, _point: u16) -> Option<ContourPoint> {
        None
    }
}
