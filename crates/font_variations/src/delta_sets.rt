//! Rows of deltas, one of each region (OpenType specification, "OpenType Font Variations Common Table Formats",
//! "ItemVariationData subtable").

ghost use Rattle.std.specs.Prelude.{◌≡◌, ◌<◌, ◌≤◌};
ghost use Rattle.font_variations.specs.DeltaSets.{region_count, wide_count, has_long_form, item_count, row_start, delta_in, part};

use crate::regions::RegionList;
use crate::rounding::float;
use font_tables::bytes::{i16_at, u8_at, u16_at, u32_at};

/// A table of delta sets, each a row with a delta of each of its regions.
#[derive(Clone, Copy)]
pub struct DeltaSets<'a> {
    /// The bytes of the table.
    pub table: &'a [u8],
    /// How many rows it has.
    items: u16,
    /// How many regions have deltas in each row.
    regions: u16,
    /// How many of the deltas of a row, its first ones, have the wide form.
    wide: u16,
    /// Whether the wide form has 32 bits and the other one 16, in place of 16 and 8.
    is_long: bool,
    ghost counts_items: { items ≡ item_count table.now },
    ghost counts_regions: { regions ≡ region_count table.now },
    ghost counts_wide: { wide ≡ wide_count table.now },
    ghost has_form: { is_long ≡ has_long_form table.now },
}

impl<'a> DeltaSets<'a> {
    ghost use Rattle.font_variations.specs.DeltaSets.{row_delta};

    /// The delta sets in these bytes; none where they have fewer regions than deltas of the wide form.
    pub fn new(table: &'a [u8]) -> Self
        ensures { result.table.now ≡ table.now }
    {
        let form = u16_at(table, 2).unwrap_or(0);
        DeltaSets {
            table,
            items: item_count(table),
            regions: u16_at(table, 4).unwrap_or(0),
            wide: form % 0x8000,
            is_long: form >= 0x8000,
        }
    }

    /// The delta of a row at these coordinates: the sum of those of all regions, each as much as it holds there. 0 where there is
    /// no such row.
    #[tactic(auto, unfolding(crate::specs::DeltaSets::row_delta))]
    pub fn delta(&self, item: u16, list: &RegionList<'_>, coordinates: &[i32]) -> f32
        ensures { result ≡ row_delta self.now.table.now item list.now.table.now coordinates.now }
    {
        if item >= self.items {
            return 0.0;
        }
        let mut sum = 0.0;
        for place in 0..self.regions {
            sum += self.part(item, list, coordinates, place);
        }
        sum
    }

    /// What the region at a place adds to the delta of a row.
    fn part(&self, item: u16, list: &RegionList<'_>, coordinates: &[i32], place: u16) -> f32
        ensures { result ≡ part self.now.table.now item list.now.table.now coordinates.now place }
    {
        let region = u16_at(self.table, 6 + 2 * usize::from(place)).unwrap_or(0);
        list.scalar(region, coordinates) * float(self.delta_in(item, place))
    }

    /// Where a row begins.
    fn row_start(&self, item: u16) -> usize
        ensures is { result ≡ row_start self.now.table.now item }
        ensures low { result < 34359738368 }
    {
        let unit = if self.is_long { 2 } else { 1 };
        let units = usize::from(self.regions) + usize::from(self.wide);
        6 + 2 * usize::from(self.regions) + unit * units * usize::from(item)
    }

    /// The delta at a place of a row; 0 where the table does not hold it.
    fn delta_in(&self, item: u16, place: u16) -> i32
        ensures { result ≡ delta_in self.now.table.now item place }
    {
        let row = self.row_start(item);
        let is_wide = place < self.wide;
        let unit = usize::from(place) + usize::from(if is_wide { place } else { self.wide });
        if self.is_long {
            if is_wide {
                u32_at(self.table, row + 2 * unit)
                    .unwrap_or(0)
                    .cast_signed()
            } else {
                i32::from(i16_at(self.table, row + 2 * unit).unwrap_or(0))
            }
        } else if is_wide {
            i32::from(i16_at(self.table, row + unit).unwrap_or(0))
        } else {
            i32::from(u8_at(self.table, row + unit).unwrap_or(0).cast_signed())
        }
    }
}

/// How many rows a table has: none where it has fewer regions than deltas of the wide form.
fn item_count(table: &[u8]) -> u16
    ensures { result ≡ item_count table.now }
{
    let wide = u16_at(table, 2).unwrap_or(0) % 0x8000;
    if wide <= u16_at(table, 4).unwrap_or(0) {
        u16_at(table, 0).unwrap_or(0)
    } else {
        0
    }
}
