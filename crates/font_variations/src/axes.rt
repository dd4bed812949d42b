//! The axes of a font, and its named instances (OpenType specification, "fvar - Font Variations Table").

ghost use Rattle.std.specs.Prelude.{◌≡◌, ◌+◌, ◌*◌, [], take, drop, if◌then◌else◌};
ghost use Rattle.std.specs.Float.Ieee.{sub, binary32};
ghost use Rattle.font_variations.specs.Axes.{axes_from, axis_count, axis_of, instance_count, instance_size, is_fvar, is_whole, normalized_within, part_of, value_at};

use crate::rounding::{float, rounded};
use font_tables::bytes::{part, tail, u16_at, u32_at};
use rb_common::Tag;

/// The axes of a font: those of its table `fvar`.
#[derive(Clone, Copy)]
pub struct VariationAxes<'a> {
    /// The records of the axes, each of 20 bytes.
    pub axes: &'a [u8],
    /// The records of the named instances.
    pub instances: &'a [u8],
    /// How many axes the font has.
    pub axis_count: u16,
    /// How many named instances the font has.
    pub instance_count: u16,
    /// How many bytes the record of an instance has.
    pub instance_size: u16,
}

/// An axis of a font.
#[derive(Clone, Copy, PartialEq)]
pub struct Axis {
    /// Its tag, such as `wght`.
    pub tag: Tag,
    /// The least value, which is not above the default.
    pub minimum: f32,
    /// The value where nothing varies.
    pub default: f32,
    /// The greatest value, which is not below the default.
    pub maximum: f32,
}

impl<'a> VariationAxes<'a> {
    ghost use Rattle.font_variations.specs.Axes.{axis, instance_value};

    /// The axes of a table; none where it is of another major version than 1, or does not hold all that it declares.
    pub fn new(fvar: &'a [u8]) -> Self
        ensures axes { result.axes.now ≡ (if is_whole fvar.now then take (20 * axis_count fvar.now) (axes_from fvar.now) else []) }
        ensures instances { result.instances.now ≡ (if is_whole fvar.now then drop (20 * axis_count fvar.now) (axes_from fvar.now) else []) }
        ensures axis_count { result.axis_count ≡ (if is_whole fvar.now then axis_count fvar.now else 0) }
        ensures instance_count { result.instance_count ≡ (if is_whole fvar.now then instance_count fvar.now else 0) }
        ensures instance_size { result.instance_size ≡ (if is_whole fvar.now then instance_size fvar.now else 0) }
    {
        if !is_whole(fvar) {
            return VariationAxes::NONE;
        }
        let axes = axes_from(fvar);
        let length = 20 * usize::from(axis_count(fvar));
        VariationAxes {
            axes: part(axes, 0, length),
            instances: tail(axes, length),
            axis_count: axis_count(fvar),
            instance_count: instance_count(fvar),
            instance_size: instance_size(fvar),
        }
    }

    /// No axes.
    pub const NONE: VariationAxes<'static> = VariationAxes {
        axes: &[],
        instances: &[],
        axis_count: 0,
        instance_count: 0,
        instance_size: 0,
    };

    /// The axis with this number; `None` where the font has none.
    #[tactic(auto, unfolding(crate::specs::Axes::axis))]
    pub fn axis(&self, number: u16) -> Option<Axis>
        ensures { result ≡ axis self.now.axes.now number }
    {
        axis_of(part(self.axes, 20 * usize::from(number), 20))
    }

    /// The value that a named instance has on an axis; `None` where the font has no such instance or no such axis.
    #[tactic(auto, unfolding(crate::specs::Axes::instance_value))]
    pub fn instance_value(&self, instance: u32, axis: u16) -> Option<f32>
        ensures { result ≡ instance_value self.now instance axis }
    {
        if instance >= u32::from(self.instance_count) || axis >= self.axis_count {
            return None;
        }
        let record = instance as usize * usize::from(self.instance_size);
        value_at(self.instances, record + 4 + 4 * usize::from(axis))
    }
}

/// The axis of a record; `None` where it is cut short.
fn axis_of(bytes: &[u8]) -> Option<Axis>
    ensures { result ≡ axis_of bytes.now }
{
    let tag = Tag(u32_at(bytes, 0)?);
    let default = value_at(bytes, 8)?;
    let first = value_at(bytes, 4)?;
    let last = value_at(bytes, 12)?;
    Some(Axis {
        tag,
        minimum: if first < default { first } else { default },
        default,
        maximum: if last > default { last } else { default },
    })
}

impl Axis {
    ghost use Rattle.font_variations.specs.Axes.{normalized, within};

    /// The normalized coordinate of a value: -16384 at the least value and below, 0 at the default, 16384 at the greatest
    /// and above, and evenly between, rounded to the nearest number.
    #[tactic(auto, unfolding(crate::specs::Axes::normalized))]
    pub fn normalized(&self, value: f32) -> i32
        ensures { result ≡ normalized self.now value }
    {
        self.normalized_within(self.within(value))
    }

    /// The normalized coordinate of a value between the least and the greatest.
    fn normalized_within(&self, value: f32) -> i32
        ensures { result ≡ normalized_within self.now value }
    {
        if value == self.default {
            0
        } else if value < self.default {
            rounded(part_of(value, self.default, self.default - self.minimum))
        } else {
            rounded(part_of(value, self.default, self.maximum - self.default))
        }
    }

    /// A value, no less than the least and no greater than the greatest.
    fn within(&self, value: f32) -> f32
        ensures { result ≡ within self.now value }
    {
        let value = if value >= self.minimum {
            value
        } else {
            self.minimum
        };
        if value <= self.maximum {
            value
        } else {
            self.maximum
        }
    }
}

/// How far a value lies from the default to one end of an axis, which is so far from it, in 16384ths.
#[tactic(auto, using(crate::proofs::FloatLemmas::powers))]
fn part_of(value: f32, default: f32, length: f32) -> f32
    ensures { result ≡ part_of value default length }
{
    (value - default) / length * 16384.0
}

/// From the records of axes on.
fn axes_from(fvar: &[u8]) -> &[u8]
    ensures { result.now ≡ axes_from fvar.now }
{
    tail(fvar, usize::from(u16_at(fvar, 4).unwrap_or(0)))
}

/// How many axes a table declares.
fn axis_count(fvar: &[u8]) -> u16
    ensures { result ≡ axis_count fvar.now }
{
    u16_at(fvar, 8).unwrap_or(0)
}

/// How many named instances a table declares.
fn instance_count(fvar: &[u8]) -> u16
    ensures { result ≡ instance_count fvar.now }
{
    u16_at(fvar, 12).unwrap_or(0)
}

/// How many bytes the record of a named instance has.
fn instance_size(fvar: &[u8]) -> u16
    ensures { result ≡ instance_size fvar.now }
{
    u16_at(fvar, 14).unwrap_or(0)
}

/// Whether a table holds the records that it declares.
#[tactic(auto, unfolding(crate::specs::Axes::is_whole))]
fn is_whole(fvar: &[u8]) -> bool
    ensures { result ≡ is_whole fvar.now }
{
    let axes = axes_from(fvar);
    let length = 20 * usize::from(axis_count(fvar));
    let size = usize::from(instance_size(fvar));
    is_fvar(fvar)
        && length <= axes.len()
        && 4 * usize::from(axis_count(fvar)) + 4 <= size
        && usize::from(instance_count(fvar)) * size <= tail(axes, length).len()
}

/// Whether these are the bytes of a table `fvar` whose records of axes have the known size.
fn is_fvar(fvar: &[u8]) -> bool
    ensures { result ≡ is_fvar fvar.now }
{
    fvar.len() >= 16 && matches!(u16_at(fvar, 0), Some(1)) && matches!(u16_at(fvar, 10), Some(20))
}

/// The number of 65536ths at a place.
#[tactic(auto, using(crate::proofs::FloatLemmas::powers))]
fn value_at(table: &[u8], at: usize) -> Option<f32>
    ensures { result ≡ value_at table.now at }
{
    Some(float(u32_at(table, at)?.cast_signed()) / 65536.0)
}
