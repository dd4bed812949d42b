//! The numbers of a paint, with their deltas (OpenType specification, "COLR - Color Table", "Paint tables").

ghost use Rattle.std.specs.Prelude.{◌≡◌};
ghost use Rattle.font_colors.specs.Paints.{distance, factor, numbers_of, own_delta, ratio};

use crate::colr::ColrTable;
use font_tables::bytes::{i16_at, u32_at};
use font_variations::rounding::float;

/// The numbers of a paint, and where they vary.
#[derive(Clone, Copy)]
pub(crate) struct PaintValues<'p> {
    /// The table that has the deltas.
    pub colr: &'p ColrTable<'p>,
    /// The place in the variations.
    pub coordinates: &'p [i32],
    /// The bytes of the paint.
    pub paint: &'p [u8],
    /// The number of the first delta set.
    pub first: u32,
}

impl PaintValues<'_> {
    /// A number of font units, by its place among the paint's numbers.
    #[tactic(auto, using(font_variations::proofs::FloatLemmas::literals), unfolding(crate::specs::Paints::distance))]
    pub(crate) fn distance(&self, place: u8) -> f32
        ensures { result ≡ distance (numbers_of self.now) place }
    {
        let number = i16_at(self.paint, 4 + 2 * usize::from(place)).unwrap_or(0);
        float(i32::from(number)) + self.delta(place)
    }

    /// A number of 16,384ths.
    #[tactic(auto, using(font_variations::proofs::FloatLemmas::powers), unfolding(crate::specs::Paints::ratio))]
    pub(crate) fn ratio(&self, place: u8) -> f32
        ensures { result ≡ ratio (numbers_of self.now) place }
    {
        self.distance(place) / 16384.0
    }

    /// A number of a matrix, in 65,536ths.
    #[tactic(auto, using(font_variations::proofs::FloatLemmas::powers), unfolding(crate::specs::Paints::factor))]
    pub(crate) fn factor(&self, place: u8) -> f32
        ensures { result ≡ factor (numbers_of self.now) place }
    {
        let number = u32_at(self.paint, 4 * usize::from(place))
            .unwrap_or(0)
            .cast_signed();
        (float(number) + self.delta(place)) / 65536.0
    }

    /// The delta of a number.
    fn delta(&self, place: u8) -> f32
        ensures { result ≡ own_delta (numbers_of self.now) place }
    {
        self.colr.delta(self.first, place, self.coordinates)
    }
}
