//! Value records: by how much a glyph is moved, and its advance changed (OpenType specification, "GPOS - Glyph Positioning
//! Table", "Value record").

ghost use Rattle.std.specs.Prelude.{◌≡◌, ◌≤◌, ◌<◌, ◌+◌, ◌*◌, ◌%◌, ◌&&◌, ◌||◌, ℕ, List, true, not, nat_eq, pos, length, if◌then◌else◌};
ghost use Rattle.std.specs.Ordering.{int_eq};
ghost use Rattle.ot_gpos_tables.specs.Values.{no_values, field, fields, names, record_size, value_record, moved, moved_x, moved_y, moved_back};
ghost use Rattle.ot_gpos_tables.specs.Values.{across, plus, minus, has_corrections, has_effect, EffectIsTold};

use crate::devices::{x_correction, y_correction};
use crate::instance::Instance;
use font_tables::bytes::u16_at;
use rb_glyph::GlyphPosition;

/// By how much a glyph is moved, and its advance changed, in font units. What a record does not name is 0.
#[derive(Clone, Copy)]
pub struct ValueRecord {
    /// To the right.
    pub x_placement: i16,
    /// Upwards.
    pub y_placement: i16,
    /// The advance to the right, in horizontal lines.
    pub x_advance: i16,
    /// The advance downwards, in vertical lines.
    pub y_advance: i16,
    /// The offset of the device table of `x_placement`, or 0.
    pub x_placement_device: u16,
    /// The offset of the device table of `y_placement`, or 0.
    pub y_placement_device: u16,
    /// The offset of the device table of `x_advance`, or 0.
    pub x_advance_device: u16,
    /// The offset of the device table of `y_advance`, or 0.
    pub y_advance_device: u16,
}

impl ValueRecord {
    /// The record of a format at a place; `None` unless the table holds all of it.
    #[tactic(auto, using(crate::proofs::ValueLemmas::no_values_are_fields), unfolding(crate::specs::Values::value_record))]
    pub fn read(table: &[u8], format: u16, at: usize) -> Option<Self>
        ensures { result ≡ value_record table.now format at }
    {
        if at > table.len() || table.len() - at < record_size(format) {
            return None;
        }
        Some(if format == 0 {
            no_values()
        } else {
            fields(table, format, at)
        })
    }

    /// Moves a glyph of a horizontal or a vertical line. Offsets of device tables are counted from the start of `base`.
    pub fn move_glyph(
        &self,
        base: &[u8],
        instance: &Instance<'_>,
        is_horizontal: bool,
        position: &mut GlyphPosition,
    )
        ensures { position.new ≡ moved base.now instance.now is_horizontal self.now position.old }
    {
        let x = moved_x(
            base,
            instance,
            self.x_placement,
            self.x_placement_device,
            position.x_offset,
        );
        let y = moved_y(
            base,
            instance,
            self.y_placement,
            self.y_placement_device,
            position.y_offset,
        );
        position.x_offset = x;
        position.y_offset = y;
        if is_horizontal {
            let advance = moved_x(
                base,
                instance,
                self.x_advance,
                self.x_advance_device,
                position.x_advance,
            );
            position.x_advance = advance;
        } else {
            let advance = moved_back(
                base,
                instance,
                self.y_advance,
                self.y_advance_device,
                position.y_advance,
            );
            position.y_advance = advance;
        }
    }

    /// Whether the record has a number other than 0 for a horizontal or a vertical line, or the offset of a device table
    /// where there are pixels or variations. A pair that is moved by such a record may not be parted.
    #[tactic(auto, unfolding(crate::specs::Values::has_effect))]
    pub fn has_effect(&self, instance: &Instance<'_>, is_horizontal: bool) -> bool
        ensures { result ≡ has_effect instance.now is_horizontal self.now }
    {
        let (x, y) = (uses_devices(instance, true), uses_devices(instance, false));
        may_move(self.x_placement, self.x_placement_device, x)
            || may_move(self.y_placement, self.y_placement_device, y)
            || if is_horizontal {
                may_move(self.x_advance, self.x_advance_device, x)
            } else {
                may_move(self.y_advance, self.y_advance_device, y)
            }
    }
}

/// The position of a glyph of a horizontal line that is moved by a record of this advance to the right, and of nothing else.
#[inline]
pub fn advanced(advance: i16, instance: &Instance<'_>, position: GlyphPosition) -> GlyphPosition
    ensures { (base : List ℕ) → result ≡ moved base instance.now true (across advance) position }
{
    let length = instance.scale.em_scale_x(i32::from(advance));
    let mut moved = position;
    moved.x_advance = position.x_advance.wrapping_add(length);
    moved
}

/// A record without an effect moves no glyph, and changes no advance.
pub fn records_without_effect_move_nothing()
    ensures { EffectIsTold }
{}

/// The record that names nothing.
fn no_values() -> ValueRecord
    ensures { result ≡ no_values }
{
    ValueRecord {
        x_placement: 0,
        y_placement: 0,
        x_advance: 0,
        y_advance: 0,
        x_placement_device: 0,
        y_placement_device: 0,
        x_advance_device: 0,
        y_advance_device: 0,
    }
}

/// The record of a format at a place, field by field.
#[tactic(auto, unfolding(crate::specs::Values::fields))]
fn fields(table: &[u8], format: u16, at: usize) -> ValueRecord
    requires within { at ≤ length table.now }
    ensures { result ≡ fields table.now format at }
{
    ValueRecord {
        x_placement: field(table, format, 1, at).cast_signed(),
        y_placement: field(table, format, 2, at).cast_signed(),
        x_advance: field(table, format, 4, at).cast_signed(),
        y_advance: field(table, format, 8, at).cast_signed(),
        x_placement_device: field(table, format, 16, at),
        y_placement_device: field(table, format, 32, at),
        x_advance_device: field(table, format, 64, at),
        y_advance_device: field(table, format, 128, at),
    }
}

/// Whether a value moves a number, or its device table may, where device tables are asked.
fn may_move(value: i16, device: u16, uses_devices: bool) -> bool
    ensures { result ≡ not (int_eq value (pos 0)) || (not (nat_eq device 0) && uses_devices) }
{
    value != 0 || device != 0 && uses_devices
}

/// Whether device tables correct numbers across, or upwards: whether there are pixels or variations.
fn uses_devices(instance: &Instance<'_>, is_horizontal: bool) -> bool
    ensures { result ≡ has_corrections instance.now
        (if is_horizontal then instance.now.scale.x_ppem else instance.now.scale.y_ppem) }
{
    let ppem = if is_horizontal {
        instance.scale.x_ppem
    } else {
        instance.scale.y_ppem
    };
    ppem != 0 || instance.deltas.is_varied()
}

/// A number across, moved by a value and its device table.
#[tactic(auto, using(crate::proofs::ValueLemmas::unmoved))]
fn moved_x(base: &[u8], instance: &Instance<'_>, value: i16, device: u16, number: i32) -> i32
    ensures { result ≡ moved_x base.now instance.now value device number }
{
    if value == 0 && device == 0 {
        number
    } else {
        scaled_x(base, instance, value, device, number)
    }
}

/// A number across, moved by a value of any length and its device table.
#[tactic(auto, unfolding(crate::specs::Values::moved_x))]
fn scaled_x(base: &[u8], instance: &Instance<'_>, value: i16, device: u16, number: i32) -> i32
    ensures { result ≡ moved_x base.now instance.now value device number }
{
    let length = instance.scale.em_scale_x(i32::from(value));
    plus(number, length, x_correction(base, device, instance))
}

/// A number upwards, moved by a value and its device table.
#[tactic(auto, using(crate::proofs::ValueLemmas::unmoved))]
fn moved_y(base: &[u8], instance: &Instance<'_>, value: i16, device: u16, number: i32) -> i32
    ensures { result ≡ moved_y base.now instance.now value device number }
{
    if value == 0 && device == 0 {
        number
    } else {
        scaled_y(base, instance, value, device, number)
    }
}

/// A number upwards, moved by a value of any length and its device table.
#[tactic(auto, unfolding(crate::specs::Values::moved_y))]
fn scaled_y(base: &[u8], instance: &Instance<'_>, value: i16, device: u16, number: i32) -> i32
    ensures { result ≡ moved_y base.now instance.now value device number }
{
    let length = instance.scale.em_scale_y(i32::from(value));
    plus(number, length, y_correction(base, device, instance))
}

/// A number downwards, moved by a value and its device table.
#[tactic(auto, unfolding(crate::specs::Values::moved_back))]
fn moved_back(base: &[u8], instance: &Instance<'_>, value: i16, device: u16, number: i32) -> i32
    ensures { result ≡ moved_back base.now instance.now value device number }
{
    let length = instance.scale.em_scale_y(i32::from(value));
    minus(number, length, y_correction(base, device, instance))
}

/// A number, with a length and its correction added.
fn plus(number: i32, length: i32, delta: i32) -> i32
    ensures { result ≡ plus number length delta }
{
    number.wrapping_add(length).wrapping_add(delta)
}

/// A number, with a length and its correction taken away.
fn minus(number: i32, length: i32, delta: i32) -> i32
    ensures { result ≡ minus number length delta }
{
    number.wrapping_sub(length).wrapping_sub(delta)
}

/// How many bytes a record of a format has.
pub fn record_size(format: u16) -> usize
    ensures is { result ≡ record_size format }
    ensures few { result ≤ 32 }
{
    2 * format.count_ones() as usize
}

/// The field of a bit in the record at a place, and 0 where the format does not name it.
fn field(table: &[u8], format: u16, bit: u16, at: usize) -> u16
    requires some { 0 < bit }
    requires within { at ≤ length table.now }
    ensures { result ≡ field table.now format bit at }
{
    if format / bit % 2 == 1 {
        u16_at(table, at + 2 * (format % bit).count_ones() as usize).unwrap_or(0)
    } else {
        0
    }
}
