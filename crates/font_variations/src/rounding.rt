//! Floats of whole numbers, whole numbers of floats, and which of two floats is the lesser.

ghost use Rattle.std.specs.Prelude.{◌≡◌};
ghost use Rattle.std.specs.Float.Ieee.{of_int, binary32};
ghost use Rattle.font_variations.specs.Rounding.{greater, lesser, rounded};

use std::num::{nearest_i64_to_f32, saturating_f32_to_i32};

/// One half.
const HALF: f32 = 0.5;

/// The float that is nearest to a whole number.
pub fn float(number: i32) -> f32
    ensures { result ≡ of_int binary32 number }
{
    nearest_i64_to_f32(i64::from(number))
}

/// The whole number that is nearest, and the greater one between two: the whole part of half more. One that is past 32 bits
/// is the nearest number of as many bits.
#[tactic(auto, using(crate::proofs::FloatLemmas::of_bits_half))]
pub fn rounded(number: f32) -> i32
    ensures { result ≡ rounded number }
{
    saturating_f32_to_i32((number + HALF).floor())
}

/// The lesser of two floats; the second one where they are not ordered.
pub fn lesser(one: f32, other: f32) -> f32
    ensures { result ≡ lesser one other }
{
    if one <= other { one } else { other }
}

/// The greater of two floats; the second one where they are not ordered.
pub fn greater(one: f32, other: f32) -> f32
    ensures { result ≡ greater one other }
{
    if one >= other { one } else { other }
}
