//! Parts of the space of variations in which the deltas of a tuple hold, and how much of them holds at a place (OpenType specification,
//! "OpenType Font Variations Common Table Formats", "Algorithm for interpolation of instance values").

ghost use Rattle.std.specs.Prelude.{◌≡◌, ◌+◌, ◌<◌, ◌^◌, false};
ghost use Rattle.std.specs.Option.{option_copied};
ghost use Rattle.font_variations.specs.Tents.{double, factor_between, factor_to, is_beyond, is_outside, number, slope};

use crate::regions::{coordinate, is_at_peak, is_disordered};
use font_tables::bytes::i16_at;
use std::num::{nearest_f64_to_f32_with_nan, nearest_i64_to_f64};

/// The tuples of coordinates of a part of the space of variations.
#[derive(Clone, Copy)]
pub struct Tent<'a> {
    /// Where the deltas hold in full.
    pub peaks: &'a [u8],
    /// Where they begin to hold, and behind that where they end, where that is said.
    pub ends: Option<&'a [u8]>,
    /// How many coordinates each tuple has.
    pub axis_count: u16,
}

impl Tent<'_> {
    ghost use Rattle.font_variations.specs.Tents.{axis_factor, factor, scalar};

    /// How much of the deltas holds at these coordinates: the product over all axes.
    #[tactic(auto, using(crate::proofs::TentLemmas::factors), unfolding(crate::specs::Tents::scalar))]
    pub fn scalar(&self, coordinates: &[i32]) -> f32
        ensures { result ≡ scalar self.now.peaks.now (option_copied self.now.ends) self.now.axis_count coordinates.now }
    {
        let mut scalar = 1.0;
        for axis in 0..self.axis_count {
            let factor = self.factor(coordinates, axis);
            if factor == 0.0 {
                return 0.0;
            }
            scalar *= factor;
        }
        nearest_f64_to_f32_with_nan(scalar)
    }

    /// How much of the deltas an axis leaves.
    fn factor(&self, coordinates: &[i32], axis: u16) -> f64
        ensures { result ≡ factor self.now.peaks.now (option_copied self.now.ends) self.now.axis_count coordinates.now axis }
    {
        self.axis_factor(axis, coordinate(coordinates, usize::from(axis)))
    }

    /// How much of the deltas an axis leaves at a coordinate.
    #[tactic(auto, using(crate::proofs::TentLemmas::literals), unfolding(crate::specs::Tents::axis_factor))]
    fn axis_factor(&self, axis: u16, coordinate: i32) -> f64
        ensures { result ≡ axis_factor self.now.peaks.now (option_copied self.now.ends) self.now.axis_count axis coordinate }
    {
        let axis = usize::from(axis);
        let peak = number(self.peaks, axis);
        if is_at_peak(i32::from(peak), coordinate) {
            return 1.0;
        }
        match self.ends {
            Some(ends) => {
                let start = number(ends, axis);
                let end = number(ends, usize::from(self.axis_count) + axis);
                factor_between(start, peak, end, coordinate)
            }
            None => factor_to(peak, coordinate),
        }
    }
}

/// The coordinate of an axis in tuples.
fn number(tuples: &[u8], axis: usize) -> i16
    requires { axis < 2 ^ 17 }
    ensures { result ≡ number tuples.now axis }
{
    i16_at(tuples, 2 * axis).unwrap_or(0)
}

/// How much of the deltas an axis leaves at a coordinate, where only its peak is said: evenly from the default up to the peak.
#[tactic(auto, using(crate::proofs::TentLemmas::literals))]
fn factor_to(peak: i16, coordinate: i32) -> f64
    ensures { result ≡ factor_to peak coordinate }
{
    let peak = i32::from(peak);
    if is_beyond(peak, coordinate) {
        0.0
    } else {
        double(coordinate) / double(peak)
    }
}

/// Whether a coordinate does not lie between the default and the peak of an axis, or is the default.
fn is_beyond(peak: i32, coordinate: i32) -> bool
    ensures { result ≡ is_beyond peak coordinate }
{
    coordinate == 0 || coordinate < peak.min(0) || coordinate > peak.max(0)
}

/// The same, between where the deltas begin and end to hold. Numbers out of order leave all.
#[tactic(auto, using(crate::proofs::TentLemmas::literals))]
fn factor_between(start: i16, peak: i16, end: i16, coordinate: i32) -> f64
    ensures { result ≡ factor_between start peak end coordinate }
{
    if is_disordered(i32::from(start), i32::from(peak), i32::from(end)) {
        1.0
    } else if is_outside(i32::from(start), i32::from(end), coordinate) {
        0.0
    } else {
        slope(start, peak, end, coordinate)
    }
}

/// Whether a coordinate lies before the start or behind the end of an axis.
fn is_outside(start: i32, end: i32, coordinate: i32) -> bool
    ensures { result ≡ is_outside start end coordinate }
{
    coordinate < start || end < coordinate
}

/// Evenly up to the peak and down from it.
#[tactic(auto, using(crate::proofs::TentLemmas::literals))]
fn slope(start: i16, peak: i16, end: i16, coordinate: i32) -> f64
    requires { is_outside start end coordinate ≡ false }
    ensures { result ≡ slope start peak end coordinate }
{
    let (start, peak, end) = (i32::from(start), i32::from(peak), i32::from(end));
    if coordinate < peak {
        double(coordinate - start) / double(peak - start)
    } else {
        double(end - coordinate) / double(end - peak)
    }
}

/// The float of 64 bits of a whole number.
fn double(number: i32) -> f64
    ensures { result ≡ double number }
{
    nearest_i64_to_f64(i64::from(number))
}
