//! Parts of the space of variations in which deltas hold (OpenType specification, "OpenType Font Variations Common Table
//! Formats", "Variation regions").

ghost use Rattle.std.specs.Prelude.{◌≡◌, ◌<◌, ◌+◌, ◌*◌, ◌^◌, option_map};
ghost use Rattle.font_variations.specs.Regions.{axis_scalar, coordinate, inner_scalar, is_at_peak, is_disordered, is_outside, scalar_at};

use crate::rounding::float;
use font_tables::bytes::{i16_at, u16_at};

/// The regions of an item variation store.
#[derive(Clone, Copy)]
pub struct RegionList<'a> {
    /// The bytes of the table.
    pub table: &'a [u8],
}

impl RegionList<'_> {
    ghost use Rattle.font_variations.specs.Regions.{factor, region_scalar};

    /// How much of a region's deltas holds at these coordinates: the product over all axes. Nothing where the table does not hold
    /// the region.
    #[tactic(auto, using(crate::proofs::RegionLemmas::factors), unfolding(crate::specs::Regions::region_scalar))]
    pub fn scalar(&self, region: u16, coordinates: &[i32]) -> f32
        ensures { result ≡ region_scalar self.now.table.now region coordinates.now }
    {
        let axes = u16_at(self.table, 0).unwrap_or(0);
        if region >= u16_at(self.table, 2).unwrap_or(0) {
            return 0.0;
        }
        let mut scalar = 1.0;
        for axis in 0..axes {
            let factor = self.factor(region, coordinates, axis);
            if factor == 0.0 {
                return 0.0;
            }
            scalar *= factor;
        }
        scalar
    }

    /// How much of a region's deltas an axis leaves. Nothing where the table does not hold the axis.
    #[tactic(auto, using(crate::proofs::FloatLemmas::literals))]
    fn factor(&self, region: u16, coordinates: &[i32], axis: u16) -> f32
        ensures { result ≡ factor self.now.table.now region coordinates.now axis }
    {
        let axes = usize::from(u16_at(self.table, 0).unwrap_or(0));
        let at = 4 + 6 * axes * usize::from(region) + 6 * usize::from(axis);
        scalar_at(self.table, at, coordinate(coordinates, usize::from(axis))).unwrap_or(0.0)
    }
}

/// The coordinate of an axis; 0 where there is none.
pub fn coordinate(coordinates: &[i32], axis: usize) -> i32
    ensures { result ≡ coordinate coordinates.now axis }
{
    coordinates.get(axis).copied().unwrap_or(0)
}

/// How much of a region's deltas the axis of the three numbers at a place leaves; `None` where the table does not hold them.
fn scalar_at(table: &[u8], at: usize, coordinate: i32) -> Option<f32>
    requires { at < 2 ^ 35 }
    ensures { result ≡ scalar_at table.now at coordinate }
{
    let start = i16_at(table, at)?;
    let peak = i16_at(table, at + 2)?;
    let end = i16_at(table, at + 4)?;
    Some(axis_scalar(start, peak, end, coordinate))
}

/// How much of a region's deltas holds at a coordinate of an axis: all at the peak, none at the start and the end, and evenly
/// between. An axis whose peak is 0 takes nothing away, and nor does one with numbers out of order.
#[tactic(auto, using(crate::proofs::FloatLemmas::literals), unfolding(crate::specs::Regions::axis_scalar))]
pub fn axis_scalar(start: i16, peak: i16, end: i16, coordinate: i32) -> f32
    ensures { result ≡ axis_scalar start peak end coordinate }
{
    let middle = i32::from(peak);
    if is_at_peak(middle, coordinate) {
        1.0
    } else if coordinate == 0 {
        0.0
    } else if is_disordered(i32::from(start), middle, i32::from(end)) {
        1.0
    } else {
        inner_scalar(start, peak, end, coordinate)
    }
}

/// Whether a coordinate is the peak of an axis, or the peak is the default.
pub fn is_at_peak(peak: i32, coordinate: i32) -> bool
    ensures { result ≡ is_at_peak peak coordinate }
{
    peak == 0 || coordinate == peak
}

/// How much of a region's deltas holds at a coordinate that is neither the peak of the axis nor the default: none at the start, the
/// end and outside of them, and evenly between.
#[tactic(auto, using(crate::proofs::FloatLemmas::literals))]
fn inner_scalar(start: i16, peak: i16, end: i16, coordinate: i32) -> f32
    ensures { result ≡ inner_scalar start peak end coordinate }
{
    let (start, peak, end) = (i32::from(start), i32::from(peak), i32::from(end));
    if is_outside(start, end, coordinate) {
        0.0
    } else if coordinate < peak {
        float(coordinate - start) / float(peak - start)
    } else {
        float(end - coordinate) / float(end - peak)
    }
}

/// Whether a coordinate does not lie between the start and the end of an axis.
fn is_outside(start: i32, end: i32, coordinate: i32) -> bool
    ensures { result ≡ is_outside start end coordinate }
{
    coordinate <= start || end <= coordinate
}

/// Whether the numbers of an axis are out of order, or lie on both sides of the default.
pub fn is_disordered(start: i32, peak: i32, end: i32) -> bool
    ensures { result ≡ is_disordered start peak end }
{
    start > peak || peak > end || start < 0 && end > 0
}
