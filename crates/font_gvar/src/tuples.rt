//! The tuples of a glyph's variations: each a part of the space of variations, with deltas of points (OpenType specification,
//! "OpenType Font Variations Common Table Formats", "Tuple variation store").

ghost use Rattle.std.specs.Prelude.{◌≡◌, ◌+◌, ◌%◌, ◌≤◌, IfSome, Some, drop, option_map, take};
ghost use Rattle.std.specs.Option.{option_copied};
ghost use Rattle.font_tables.specs.Bytes.{number_16};
ghost use Rattle.font_gvar.specs.Tuples.{data_size, data_within, next_flags, own_size};

use crate::flags::has_flag;
use crate::gvar::GlyphVariations;
use font_tables::bytes::{part, tail, u16_at};
use font_variations::packed_points::PackedPoints;

/// The tuples of a glyph, which are read one after the other.
#[derive(Clone, Copy)]
pub(crate) struct Tuples<'a> {
    /// The points that tuples without points of their own are for.
    shared_points: PackedPoints<'a>,
    /// The headers that are not read yet.
    headers: &'a [u8],
    /// Their deltas.
    data: &'a [u8],
    /// How many tuples are not read yet.
    left: u16,
    /// How many coordinates a tuple has.
    axis_count: u16,
}

/// A tuple of a glyph's variations.
#[derive(Clone, Copy)]
pub(crate) struct Tuple<'a> {
    /// Its flags, and the number of a shared tuple of coordinates.
    pub flags: u16,
    /// Its own tuples of coordinates.
    pub coordinates: &'a [u8],
    /// The points that it is for, unless it has points of its own.
    pub shared_points: PackedPoints<'a>,
    /// Its points, where it has its own, and its deltas; `None` where they do not lie in the variations of the glyph.
    pub data: Option<&'a [u8]>,
}

impl Tuple<'_> {
    ghost use Rattle.font_gvar.specs.Tuples.{has_ends, has_peak, has_points};

    /// Whether its peak is a tuple of its own.
    pub(crate) fn has_peak(&self) -> bool
        ensures { result ≡ has_peak self.now.flags }
    {
        self.flags >= OWN_PEAK
    }

    /// Whether it has tuples of its own for where it begins and ends.
    pub(crate) fn has_ends(&self) -> bool
        ensures { result ≡ has_ends self.now.flags }
    {
        has_flag(self.flags, OWN_ENDS)
    }

    /// Whether it has points of its own.
    pub(crate) fn has_points(&self) -> bool
        ensures { result ≡ has_points self.now.flags }
    {
        has_flag(self.flags, OWN_POINTS)
    }
}

const OWN_PEAK: u16 = 0x8000;

const OWN_ENDS: u16 = 0x4000;

const OWN_POINTS: u16 = 0x2000;

impl<'a> Tuples<'a> {
    /// The tuples of a glyph's variations; `None` where there are none, or the points that they share are broken.
    pub(crate) fn new(variations: &GlyphVariations<'a>, bytes: &'a [u8]) -> Option<Self>
        ensures axes { IfSome result (λ tuples. tuples.axis_count ≡ variations.now.axis_count) }
        ensures left { IfSome result (λ tuples. Some tuples.left ≡ option_map (λ count. count % 0x1000) (number_16 bytes.now 0)) }
        ensures headers { IfSome result (λ tuples. tuples.headers.now ≡ drop 4 bytes.now) }
    {
        let count = u16_at(bytes, 0)?;
        let data = tail(bytes, usize::from(u16_at(bytes, 2)?));
        let (shared_points, data) = if count >= 0x8000 {
            let points = PackedPoints::new(data)?;
            (points, points.behind()?)
        } else {
            (PackedPoints::NONE, data)
        };
        Some(Tuples {
            shared_points,
            headers: tail(bytes, 4),
            data,
            left: count % 0x1000,
            axis_count: variations.axis_count,
        })
    }

    /// The next tuple; `None` where there is none, or its header does not lie in the variations.
    pub(crate) fn next(&mut self) -> Option<Tuple<'a>>
        ensures flags { option_map (λ tuple. tuple.flags) result ≡ next_flags self.old.left self.old.axis_count self.old.headers.now }
        ensures own { IfSome result (λ tuple. tuple.coordinates.now ≡ take (own_size self.old.axis_count tuple.flags) (drop 4 self.old.headers.now)) }
        ensures deltas { IfSome result (λ tuple. option_copied tuple.«data» ≡ data_within self.old.«data».now (data_size self.old.headers.now)) }
        ensures taken { IfSome result (λ _. self.new.left + 1 ≡ self.old.left) }
        ensures behind { IfSome result (λ tuple. self.new.headers.now ≡ drop (4 + own_size self.old.axis_count tuple.flags) self.old.headers.now) }
        ensures rest { IfSome result (λ _. self.new.«data».now ≡ drop (data_size self.old.headers.now) self.old.«data».now) }
    {
        if self.left == 0 {
            return None;
        }
        let size = usize::from(u16_at(self.headers, 0)?);
        let flags = u16_at(self.headers, 2)?;
        let own = own_size(self.axis_count, flags);
        if self.headers.len() < size.max(4 + own) {
            return None;
        }
        let data = part(self.data, 0, size);
        let tuple = Tuple {
            flags,
            coordinates: part(self.headers, 4, own),
            shared_points: self.shared_points,
            data: if data.len() == size { Some(data) } else { None },
        };
        self.headers = tail(self.headers, 4 + own);
        self.data = tail(self.data, size);
        self.left -= 1;
        Some(tuple)
    }
}

/// How many bytes the own tuples of coordinates have, by the flags of a tuple.
fn own_size(axis_count: u16, flags: u16) -> usize
    ensures is { result ≡ own_size axis_count flags }
    ensures low { result ≤ 393210 }
{
    let peak = if flags >= OWN_PEAK { 1 } else { 0 };
    let ends = if has_flag(flags, OWN_ENDS) { 2 } else { 0 };
    2 * usize::from(axis_count) * (peak + ends)
}
