//! Variations of numbers of a whole font, such as its ascender (OpenType specification, "MVAR - Metrics Variations Table").

ghost use Rattle.std.specs.Prelude.{◌≡◌};
ghost use Rattle.font_tables.specs.Rows.{first_below};
ghost use Rattle.font_variations.specs.ValueVariations.{is_for_tag, is_mvar};

use crate::variation_store::VariationStore;
use font_tables::bytes::{table_at_16, u16_at, u32_at};
use rb_common::Tag;

/// A table `MVAR`.
#[derive(Clone, Copy)]
pub struct ValueVariations<'a> {
    /// The bytes of the table.
    pub table: &'a [u8],
}

impl<'a> ValueVariations<'a> {
    ghost use Rattle.font_variations.specs.ValueVariations.{index_of, value_delta};

    /// The table in these bytes. One that is empty, or of another major version than 1, changes nothing.
    pub fn new(table: &'a [u8]) -> Self
        ensures { result.table.now ≡ table.now }
    {
        ValueVariations { table }
    }

    /// By how much the number with this tag changes, in font units; 0 where the table does not have it.
    #[tactic(auto, using(crate::proofs::FloatLemmas::literals), unfolding(crate::specs::ValueVariations::value_delta))]
    pub fn delta(&self, tag: Tag, coordinates: &[i32]) -> f32
        ensures { result ≡ value_delta self.now.table.now tag.0 coordinates.now }
    {
        match self.index_of(tag) {
            Some(index) => {
                let store = VariationStore::new(table_at_16(self.table, 10).unwrap_or(&[]));
                store.delta(index, coordinates)
            }
            None => 0.0,
        }
    }

    /// The delta set of the first record with a tag.
    #[tactic(auto, unfolding(crate::specs::ValueVariations::index_of))]
    fn index_of(&self, tag: Tag) -> Option<u32>
        ensures { result ≡ index_of self.now.table.now tag.0 }
    {
        if !is_mvar(self.table) {
            return None;
        }
        let count = u16_at(self.table, 8).unwrap_or(0);
        let row = record_of(self.table, count, tag)?;
        let size = usize::from(u16_at(self.table, 6).unwrap_or(0));
        u32_at(self.table, 12 + size * usize::from(row) + 4)
    }
}

/// Whether these are the bytes of a table `MVAR` whose records hold a tag and a delta set.
fn is_mvar(table: &[u8]) -> bool
    ensures { result ≡ is_mvar table.now }
{
    matches!(u16_at(table, 0), Some(1)) && u16_at(table, 6).unwrap_or(0) >= 8
}

/// The first of so many records that is for a tag.
fn record_of(table: &[u8], count: u16, tag: Tag) -> Option<u16>
    ensures { result ≡ first_below (is_for_tag table.now tag.0) count }
{
    for row in 0..count {
        if is_for_tag(table, row, tag) {
            return Some(row);
        }
    }
    None
}

/// Whether a record is for a tag.
fn is_for_tag(table: &[u8], row: u16, tag: Tag) -> bool
    ensures { result ≡ is_for_tag table.now tag.0 row }
{
    let size = usize::from(u16_at(table, 6).unwrap_or(0));
    match u32_at(table, 12 + size * usize::from(row)) {
        Some(number) => number == tag.0,
        None => false,
    }
}
