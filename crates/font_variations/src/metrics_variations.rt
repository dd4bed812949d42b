//! Variations of advances, side bearings and vertical origins (OpenType specification, "HVAR - Horizontal Metrics Variations
//! Table" and "VVAR - Vertical Metrics Variations Table").

ghost use Rattle.std.specs.Prelude.{◌≡◌, option_map};
ghost use Rattle.font_variations.specs.MetricsVariations.{metrics_table, store_of};

use crate::index_map::IndexMap;
use crate::rounding::rounded;
use crate::variation_store::VariationStore;
use font_tables::bytes::{table_at_32, u16_at};
use rb_common::GlyphId;

/// A table `HVAR` or `VVAR`.
#[derive(Clone, Copy)]
pub struct MetricsVariations<'a> {
    /// The bytes of the table.
    pub table: &'a [u8],
    store: VariationStore<'a>,
    ghost has_store: { store.table.now ≡ store_of table.now },
}

impl<'a> MetricsVariations<'a> {
    ghost use Rattle.font_variations.specs.MetricsVariations.{advance_delta, bearing_delta, origin_delta};

    /// The table in these bytes. `None` where it is empty, cut short, or of another major version than 1.
    pub fn new(table: &'a [u8]) -> Option<Self>
        ensures { option_map (λ metrics. metrics.table.now) result ≡ metrics_table table.now }
    {
        if table.len() >= 20 && matches!(u16_at(table, 0), Some(1)) {
            Some(MetricsVariations {
                table,
                store: VariationStore::new(table_at_32(table, 4).unwrap_or(&[])),
            })
        } else {
            None
        }
    }

    /// By how much a glyph's advance changes, in whole font units.
    #[tactic(auto, unfolding(crate::specs::MetricsVariations::advance_delta))]
    pub fn advance_delta(&self, glyph: GlyphId, coordinates: &[i32]) -> i32
        ensures { result ≡ advance_delta self.now.table.now glyph.0 coordinates.now }
    {
        let map = IndexMap::new(table_at_32(self.table, 8).unwrap_or(&[]));
        rounded(
            self.store
                .delta(map.index_of(u32::from(glyph.0)), coordinates),
        )
    }

    /// By how much a glyph's left or top side bearing changes, in whole font units; `None` where the table has no map for it.
    #[tactic(auto, unfolding(crate::specs::MetricsVariations::bearing_delta))]
    pub fn bearing_delta(&self, glyph: GlyphId, coordinates: &[i32]) -> Option<i32>
        ensures { result ≡ bearing_delta self.now.table.now glyph.0 coordinates.now }
    {
        let map = IndexMap::new(table_at_32(self.table, 12)?);
        Some(rounded(
            self.store
                .delta(map.index_of(u32::from(glyph.0)), coordinates),
        ))
    }

    /// By how much a glyph's vertical origin is raised, in font units; 0 where the table has no map for it, as in `HVAR`.
    #[tactic(auto, using(crate::proofs::FloatLemmas::literals), unfolding(crate::specs::MetricsVariations::origin_delta))]
    pub fn origin_delta(&self, glyph: GlyphId, coordinates: &[i32]) -> f32
        ensures { result ≡ origin_delta self.now.table.now glyph.0 coordinates.now }
    {
        match table_at_32(self.table, 20) {
            Some(map) => {
                let map = IndexMap::new(map);
                self.store
                    .delta(map.index_of(u32::from(glyph.0)), coordinates)
            }
            None => 0.0,
        }
    }
}
