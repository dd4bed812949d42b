//! The variations that a user chooses, each a value on an axis.

ghost use Rattle.std.specs.Prelude.{◌≡◌};
ghost use Rattle.font_variations.specs.UserVariations.{last_with_tag, value_for, value_on};

use crate::axes::{Axis, VariationAxes};
use rb_common::Tag;

/// A value on an axis of a font: HarfBuzz's `hb_variation_t`.
#[derive(Clone, Copy, PartialEq)]
pub struct Variation {
    /// The tag of the axis.
    pub tag: Tag,
    /// The value, in the units of the axis.
    pub value: f32,
}

/// The value on an axis: the last one that is chosen with its tag, else that of a named instance, and else the default.
pub fn value_on(
    axes: &VariationAxes<'_>,
    number: u16,
    axis: &Axis,
    instance: Option<u32>,
    variations: &[Variation],
) -> f32
    ensures { result ≡ value_on axes.now number axis.now instance variations.now }
{
    match last_with_tag(variations, axis.tag) {
        Some(value) => value,
        None => match instance {
            Some(instance) => axes
                .instance_value(instance, number)
                .unwrap_or(axis.default),
            None => axis.default,
        },
    }
}

/// The last value that is chosen with a tag.
pub fn last_with_tag(variations: &[Variation], tag: Tag) -> Option<f32>
    ensures { result ≡ last_with_tag variations.now tag.0 }
{
    let mut found = None;
    for variation in variations {
        found = value_for(tag, variation).or(found);
    }
    found
}

/// The value of a variation, if it is for a tag.
fn value_for(tag: Tag, variation: &Variation) -> Option<f32>
    ensures { result ≡ value_for tag.0 variation.now }
{
    if variation.tag == tag {
        Some(variation.value)
    } else {
        None
    }
}
