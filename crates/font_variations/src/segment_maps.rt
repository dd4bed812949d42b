//! Where normalized coordinates are moved on their axes (OpenType specification, "avar - Axis Variations Table").

ghost use Rattle.std.specs.Prelude.{◌≡◌, ℕ, ◌+◌, ◌<◌, ◌≤◌, [], drop, length, pos, slice_index_or, is_some, option_map, unwrap_or, if◌then◌else◌, IfSome};
ghost use Rattle.font_tables.specs.Bytes.{number_16};
ghost use Rattle.font_variations.specs.SegmentMaps.{behind_map, between, end_of, end_of_map, from_at, in_segment, is_up_to, is_up_to_first, is_whole, mapped, second_of, segment_of, shifted, tables_at, tables_of, to_at};

use crate::index_map::IndexMap;
use crate::regions::coordinate;
use crate::rounding::{float, rounded};
use crate::variation_store::VariationStore;
use font_tables::bytes::{i16_at, table_at_32, tail, u16_at};

/// The maps of a table `avar`.
#[derive(Clone, Copy)]
pub struct AxisMaps<'a> {
    /// The segment maps of the axes, one behind the other.
    pub maps: &'a [u8],
    /// How many axes have a segment map.
    pub count: u16,
    /// What moves coordinates after that, in version 2 of the table.
    pub second: Option<SecondMap<'a>>,
}

/// The second step of version 2: deltas of coordinates, by all the coordinates.
#[derive(Clone, Copy)]
pub struct SecondMap<'a> {
    /// Which delta set is for which axis.
    pub indices: IndexMap<'a>,
    /// The deltas.
    pub store: VariationStore<'a>,
}

impl<'a> AxisMaps<'a> {
    ghost use Rattle.font_variations.specs.SegmentMaps.{moved_by_all, moved_on};

    /// The maps of a table; none where it is of another major version than 1 and 2, or cut short.
    #[tactic(auto, unfolding(crate::specs::SegmentMaps::is_whole, crate::specs::SegmentMaps::second_of))]
    pub fn new(avar: &'a [u8]) -> Self
        ensures maps { result.maps.now ≡ (if is_whole avar.now then drop 8 avar.now else []) }
        ensures count { result.count ≡ (if is_whole avar.now then unwrap_or (number_16 avar.now 6) 0 else 0) }
        ensures second { option_map tables_of result.second ≡ second_of avar.now }
    {
        let count = u16_at(avar, 6).unwrap_or(0);
        let maps = tail(avar, 8);
        let version = u16_at(avar, 0).unwrap_or(0);
        if version != 1 && version != 2 {
            return AxisMaps::NONE;
        }
        let Some(behind) = behind_maps(maps, count) else {
            return AxisMaps::NONE;
        };
        AxisMaps {
            maps,
            count,
            second: if version == 2 {
                second_map(avar, behind)
            } else {
                None
            },
        }
    }

    /// No maps: a coordinate stays where it is.
    pub const NONE: AxisMaps<'static> = AxisMaps {
        maps: &[],
        count: 0,
        second: None,
    };

    /// Moves each coordinate by the segment map of its axis.
    pub fn map_segments(&self, coordinates: &mut [i32])
        ensures { (axis : ℕ) → axis < length coordinates.new
            → slice_index_or coordinates.new axis (pos 0)
            ≡ moved_on self.now.maps.now self.now.count axis (slice_index_or coordinates.old axis (pos 0)) }
    {
        let mut rest = self.maps;
        for axis in 0..coordinates.len().min(usize::from(self.count)) {
            coordinates[axis] = mapped(rest, coordinates[axis]);
            rest = behind_map(rest);
        }
    }

    /// Whether coordinates are moved by all the coordinates together, after the segment maps.
    pub fn has_second_map(&self) -> bool
        ensures { result ≡ is_some self.now.second }
    {
        self.second.is_some()
    }

    /// Where the coordinate of an axis is moved to by all the coordinates together, which stand as the segment maps left them.
    #[tactic(auto, unfolding(crate::specs::SegmentMaps::moved_by_all))]
    pub fn mapped_by_all(&self, axis: u16, coordinates: &[i32]) -> i32
        ensures { result ≡ moved_by_all self.now axis coordinates.now }
    {
        let coordinate = coordinate(coordinates, usize::from(axis));
        match self.second {
            Some(second) => {
                let index = second.indices.index_of(u32::from(axis));
                let delta = rounded(second.store.delta(index, coordinates));
                coordinate.saturating_add(delta).clamp(-16384, 16384)
            }
            None => coordinate,
        }
    }
}

/// The second step of a table of version 2, whose offsets stand behind the segment maps.
fn second_map<'a>(avar: &'a [u8], behind: usize) -> Option<SecondMap<'a>>
    requires { behind ≤ length avar.now }
    ensures { option_map tables_of result ≡ tables_at avar.now (8 + behind) }
{
    let at = 8 + behind;
    if at + 8 > avar.len() {
        return None;
    }
    Some(SecondMap {
        indices: IndexMap::new(table_at_32(avar, at).unwrap_or(&[])),
        store: VariationStore::new(table_at_32(avar, at + 4).unwrap_or(&[])),
    })
}

/// How many bytes so many segment maps have; `None` where they are not all there.
fn behind_maps(maps: &[u8], count: u16) -> Option<usize>
    ensures is { result ≡ end_of maps.now count }
    ensures inside { IfSome result (λ end. end ≤ length maps.now) }
{
    let mut at = 0usize;
    for _map in 0..count {
        at = end_of_map(maps, at)?;
    }
    Some(at)
}

/// Where the segment map at a place ends; `None` where it is not all there.
fn end_of_map(maps: &[u8], at: usize) -> Option<usize>
    requires { at ≤ length maps.now }
    ensures is { result ≡ end_of_map maps.now at }
    ensures inside { IfSome result (λ end. end ≤ length maps.now) }
{
    let end = at + 2 + 4 * usize::from(u16_at(maps, at)?);
    if end <= maps.len() { Some(end) } else { None }
}

/// The segment maps behind the first one.
fn behind_map(maps: &[u8]) -> &[u8]
    ensures { result.now ≡ behind_map maps.now }
{
    let pairs = u16_at(maps, 0).unwrap_or(0);
    tail(maps, 2 + 4 * usize::from(pairs))
}

/// A pair of a segment map: the coordinate that is moved, and where it is moved to.
#[derive(Clone, Copy)]
struct Pair {
    from: i32,
    to: i32,
}

/// The pair of a segment map with this number.
fn pair_at(map: &[u8], number: u16) -> Pair
    ensures from { result.from ≡ from_at map.now number }
    ensures to { result.to ≡ to_at map.now number }
{
    let at = 2 + 4 * usize::from(number);
    Pair {
        from: i32::from(i16_at(map, at).unwrap_or(0)),
        to: i32::from(i16_at(map, at + 2).unwrap_or(0)),
    }
}

/// Where a segment map moves a coordinate: evenly between two pairs, and outside of all as far as it moves the nearest.
#[tactic(auto, using(crate::proofs::FloatLemmas::literals), unfolding(crate::specs::SegmentMaps::mapped))]
fn mapped(map: &[u8], coordinate: i32) -> i32
    ensures { result ≡ mapped map.now coordinate }
{
    let count = u16_at(map, 0).unwrap_or(0);
    if count == 0 {
        return coordinate;
    }
    if is_up_to_first(map, coordinate) {
        return shifted(coordinate, pair_at(map, 0));
    }
    in_segment(map, segment_of(map, count - 1, coordinate), coordinate)
}

/// Whether a segment map has one pair alone, or a coordinate is not above that of its first.
fn is_up_to_first(map: &[u8], coordinate: i32) -> bool
    ensures { result ≡ is_up_to_first map.now coordinate }
{
    u16_at(map, 0).unwrap_or(0) == 1 || coordinate <= pair_at(map, 0).from
}

/// Where a coordinate is moved in the segment that ends with a pair. From that pair on, it is moved as far as the pair moves its own.
fn in_segment(map: &[u8], number: u16, coordinate: i32) -> i32
    requires { 1 ≤ number }
    ensures { result ≡ in_segment map.now number coordinate }
{
    let (low, high) = (pair_at(map, number - 1), pair_at(map, number));
    if coordinate >= high.from {
        shifted(coordinate, high)
    } else if low.from == high.from {
        low.to
    } else {
        between(low, high, coordinate)
    }
}

/// The first pair behind pair 0 that a coordinate is not above, or the last one.
fn segment_of(map: &[u8], last: u16, coordinate: i32) -> u16
    requires { 1 ≤ last }
    ensures is { result ≡ segment_of map.now last coordinate }
    ensures some { 1 ≤ result }
{
    for number in 1..last {
        if is_up_to(map, number, coordinate) {
            return number;
        }
    }
    last
}

/// Whether a coordinate is not above that of a pair behind pair 0.
fn is_up_to(map: &[u8], number: u16, coordinate: i32) -> bool
    ensures { result ≡ is_up_to map.now coordinate number }
{
    number >= 1 && coordinate <= pair_at(map, number).from
}

/// A coordinate, moved as far as a pair moves its own.
#[tactic(auto, using(crate::proofs::FloatLemmas::literals))]
fn shifted(coordinate: i32, pair: Pair) -> i32
    ensures { result ≡ shifted coordinate pair.from pair.to }
{
    coordinate.saturating_sub(pair.from).saturating_add(pair.to)
}

/// Where a coordinate between two pairs is moved, to the nearest number.
#[tactic(auto, using(crate::proofs::FloatLemmas::literals))]
fn between(low: Pair, high: Pair, coordinate: i32) -> i32
    ensures { result ≡ between low.from low.to high.from high.to coordinate }
{
    let rise = float(high.to.saturating_sub(low.to));
    let run = float(high.from.saturating_sub(low.from));
    let part = float(coordinate.saturating_sub(low.from));
    rounded(float(low.to) + rise * part / run)
}
