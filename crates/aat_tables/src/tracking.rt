//! The table `trak`: how much is added between glyphs, by the size of a font in points (Apple's TrueType Reference Manual, "The
//! 'trak' table"). Of its tracks that of normal spacing is read, which has the value 0, as by HarfBuzz.

ghost use Rattle.std.specs.Prelude.{◌≡◌, ◌<◌, ◌≤◌, ◌+◌, ◌*◌, IfSome, option_copied};
ghost use Rattle.font_tables.specs.Bytes.{is_number, number_16};
ghost use Rattle.aat_tables.specs.Tracking.{
  between,
  is_at_least,
  is_normal,
  normal_track,
  normal_values,
  part_of_way,
  scaled,
  size_at,
  size_place,
  track_data,
  track_value,
  tracked,
  tracking_at,
  value_at,
  value_between,
  value_of,
};

use font_tables::bytes::{i16_at, tail, u16_at, u32_at};
use font_variations::rounding::{float, rounded};

/// Where the table says where its part for horizontal lines is.
const HORIZONTAL: usize = 6;

/// Where the table says where its part for vertical lines is.
const VERTICAL: usize = 8;

/// The tracks of a font.
#[derive(Clone, Copy)]
pub struct Tracking<'a> {
    /// The bytes of the table.
    pub table: &'a [u8],
}

impl<'a> Tracking<'a> {
    /// The tracks of a table `trak`.
    pub fn new(table: &'a [u8]) -> Self
        ensures { result.table.now ≡ table.now }
    {
        Tracking { table }
    }

    /// Whether the table is there, with the version 1.
    pub fn is_there(&self) -> bool
        ensures { result ≡ is_number (number_16 self.now.table.now 0) 1 }
    {
        match u16_at(self.table, 0) {
            Some(version) => version == 1,
            None => false,
        }
    }

    /// How many font units are added to the advance of each glyph at a size in points; 0 where the font does not say.
    pub fn at(&self, is_horizontal: bool, points: f32) -> i32
        ensures { result ≡ tracking_at self.now.table.now is_horizontal points }
    {
        if !self.is_there() {
            return 0;
        }
        let tracked = match self.data(if is_horizontal { HORIZONTAL } else { VERTICAL }) {
            Some(tracks) => self.tracked(tracks, points),
            None => None,
        };
        tracked.unwrap_or(0)
    }

    /// A number of font units where an em is `size` long, to the nearest whole number.
    pub fn scaled(&self, units: i32, size: i32, units_per_em: u16) -> i32
        ensures { result ≡ scaled units size units_per_em }
    {
        rounded(float(units) * (float(size) / float(i32::from(units_per_em))))
    }

    /// The part of the table that the number at a place leads to.
    fn data(&self, at: usize) -> Option<&'a [u8]>
        ensures { option_copied result ≡ track_data self.now.table.now at }
    {
        let offset = u16_at(self.table, at).unwrap_or(0);
        if offset == 0 {
            None
        } else {
            Some(tail(self.table, usize::from(offset)))
        }
    }

    /// What is added by a part of the table.
    fn tracked(&self, tracks: &[u8], points: f32) -> Option<i32>
        ensures { result ≡ tracked self.now.table.now tracks.now points }
    {
        let values = self.normal_values(tracks)?;
        let count = u16_at(tracks, 2)?;
        let sizes = tail(self.table, u32_at(tracks, 4)? as usize);
        value_of(values, sizes, count, points)
    }

    /// The values of the first track of normal spacing, one for each size.
    fn normal_values(&self, tracks: &[u8]) -> Option<&'a [u8]>
        ensures { option_copied result ≡ normal_values self.now.table.now tracks.now }
    {
        let track = usize::from(normal_track(tracks, u16_at(tracks, 0)?)?);
        u32_at(tracks, 8 + 8 * track)?;
        Some(tail(self.table, usize::from(u16_at(tracks, 14 + 8 * track)?)))
    }
}

/// The first of so many tracks that is of normal spacing.
fn normal_track(tracks: &[u8], count: u16) -> Option<u16>
    ensures { result ≡ normal_track tracks.now count }
{
    for track in 0..count {
        if is_normal(u32_at(tracks, 8 + 8 * usize::from(track))) {
            return Some(track);
        }
    }
    None
}

/// Whether a track of this value is of normal spacing, or is cut short.
fn is_normal(value: Option<u32>) -> bool
    ensures { result ≡ is_normal value }
{
    match value {
        Some(value) => value == 0,
        None => true,
    }
}

/// The value at a size, by so many sizes and their values.
fn value_of(values: &[u8], sizes: &[u8], count: u16, points: f32) -> Option<i32>
    ensures { result ≡ value_of values.now sizes.now count points }
{
    match count {
        0 => None,
        1 => value_at(values, 0),
        _ => value_between(
            values,
            sizes,
            size_place(sizes, count, points).max(1),
            points,
        ),
    }
}

/// Between the values of two sizes, of which the second stands at a place.
fn value_between(values: &[u8], sizes: &[u8], place: u16, points: f32) -> Option<i32>
    requires { 1 ≤ place }
    ensures { result ≡ value_between values.now sizes.now place points }
{
    let from = size_at(sizes, place - 1)?;
    let to = size_at(sizes, place)?;
    let low = value_at(values, place - 1)?;
    let high = value_at(values, place)?;
    Some(between(part_of_way(from, to, points), low, high))
}

/// The value for a size.
fn value_at(values: &[u8], place: u16) -> Option<i32>
    ensures { result ≡ value_at values.now place }
{
    i16_at(values, 2 * usize::from(place)).map(|value| i32::from(value))
}

/// The size at a place, in points.
fn size_at(sizes: &[u8], place: u16) -> Option<f32>
    ensures { result ≡ size_at sizes.now place }
{
    let size = u32_at(sizes, 4 * usize::from(place))?;
    Some(float(size.cast_signed()) / float(65536))
}

/// The place of the first of so many sizes that is not below this one, or of the last.
fn size_place(sizes: &[u8], count: u16, points: f32) -> u16
    requires { 1 ≤ count }
    ensures { result ≡ size_place sizes.now count points }
{
    for place in 0..count - 1 {
        if is_at_least(points, size_at(sizes, place)) {
            return place;
        }
    }
    count - 1
}

/// Whether a size is not below this one, or is cut short.
fn is_at_least(points: f32, size: Option<f32>) -> bool
    ensures { result ≡ is_at_least points size }
{
    match size {
        Some(size) => points <= size,
        None => true,
    }
}

/// How far a number is on the way from one number to another: 0 where these are one number.
fn part_of_way(from: f32, to: f32, at: f32) -> f32
    ensures { result ≡ part_of_way from to at }
{
    if from == to {
        0.0
    } else {
        (at - from) / (to - from)
    }
}

/// So many parts of the way from one number to another, to the nearest whole number.
fn between(part: f32, from: i32, to: i32) -> i32
    ensures { result ≡ between part from to }
{
    rounded(part * float(to) + (1.0 - part) * float(from))
}
