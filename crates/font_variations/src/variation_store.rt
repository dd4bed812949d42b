//! Deltas of the numbers of a table (OpenType specification, "OpenType Font Variations Common Table Formats", "Item variation
//! stores").

ghost use Rattle.std.specs.Prelude.{◌≡◌};

use crate::delta_sets::DeltaSets;
use crate::index_map::DeltaSetIndex;
use crate::regions::RegionList;
use font_tables::bytes::{table_at_32, u16_at};

/// An item variation store.
#[derive(Clone, Copy)]
pub struct VariationStore<'a> {
    /// The bytes of the table.
    pub table: &'a [u8],
}

impl<'a> VariationStore<'a> {
    ghost use Rattle.font_variations.specs.VariationStore.{delta, gdef_store, region_count, scalar_in, sets};

    /// The store in these bytes. One that is empty, or of another format than 1, has no deltas.
    pub fn new(table: &'a [u8]) -> Self
        ensures { result.table.now ≡ table.now }
    {
        VariationStore { table }
    }

    /// The store of a table `GDEF`, which has the deltas of `GDEF`, `GPOS` and `BASE`; an empty one where it has none.
    #[tactic(auto, unfolding(crate::specs::VariationStore::gdef_store))]
    pub fn of_gdef(gdef: &'a [u8]) -> Self
        ensures { result.table.now ≡ gdef_store gdef.now }
    {
        if matches!(u16_at(gdef, 0), Some(1)) && u16_at(gdef, 2).unwrap_or(0) >= 3 {
            VariationStore::new(table_at_32(gdef, 14).unwrap_or(&[]))
        } else {
            VariationStore::new(&[])
        }
    }

    /// The delta of a delta set at these coordinates; 0 where the store has no such set.
    #[tactic(auto, unfolding(crate::specs::VariationStore::delta))]
    pub fn delta(&self, index: DeltaSetIndex, coordinates: &[i32]) -> f32
        ensures { result ≡ delta self.now.table.now index coordinates.now }
    {
        let outer = index / 65536;
        if !self.has_sets(outer) {
            return 0.0;
        }
        let sets = table_at_32(self.table, 8 + 4 * outer as usize).unwrap_or(&[]);
        let regions = RegionList {
            table: table_at_32(self.table, 2).unwrap_or(&[]),
        };
        DeltaSets::new(sets).delta((index % 65536) as u16, &regions, coordinates)
    }

    /// How many regions the deltas of a table with this number are for; none where the store has no such table.
    pub fn region_count(&self, set: u16) -> u16
        ensures { result ≡ region_count self.now.table.now set }
    {
        u16_at(self.sets(set), 4).unwrap_or(0)
    }

    /// How much of the deltas of a region holds at these coordinates, by its place among those of a table of deltas.
    #[tactic(auto, using(crate::proofs::FloatLemmas::literals))]
    pub fn region_scalar(&self, set: u16, place: u16, coordinates: &[i32]) -> f32
        ensures { result ≡ scalar_in self.now.table.now set place coordinates.now }
    {
        let regions = RegionList {
            table: table_at_32(self.table, 2).unwrap_or(&[]),
        };
        match u16_at(self.sets(set), 6 + 2 * usize::from(place)) {
            Some(region) => regions.scalar(region, coordinates),
            None => 0.0,
        }
    }

    /// The table of deltas with this number; an empty one where there is none.
    fn sets(&self, number: u16) -> &'a [u8]
        ensures { result.now ≡ sets self.now.table.now number }
    {
        if self.has_sets(u32::from(number)) {
            table_at_32(self.table, 8 + 4 * usize::from(number)).unwrap_or(&[])
        } else {
            &[]
        }
    }

    /// Whether the store has a table of deltas with this number.
    fn has_sets(&self, outer: u32) -> bool
        ensures { result ≡ Rattle.font_variations.specs.VariationStore.has_sets self.now.table.now outer }
    {
        matches!(u16_at(self.table, 0), Some(1))
            && outer < u32::from(u16_at(self.table, 6).unwrap_or(0))
    }
}

/// The deltas of a store at the place where a font stands in its variations.
#[derive(Clone, Copy)]
pub struct Deltas<'a> {
    /// The store.
    pub store: VariationStore<'a>,
    /// The coordinates of the place; none where no variations are chosen.
    pub coordinates: &'a [i32],
}

impl Deltas<'_> {
    ghost use Rattle.font_variations.specs.VariationStore.{is_varied, chosen_delta};

    /// No deltas.
    pub const NONE: Deltas<'static> = Deltas {
        store: VariationStore { table: &[] },
        coordinates: &[],
    };

    /// Whether variations are chosen.
    pub fn is_varied(&self) -> bool
        ensures { result ≡ is_varied self.now }
    {
        !self.coordinates.is_empty()
    }

    /// The delta of a delta set.
    pub fn delta(&self, index: DeltaSetIndex) -> f32
        ensures { result ≡ chosen_delta self.now index }
    {
        self.store.delta(index, self.coordinates)
    }
}
