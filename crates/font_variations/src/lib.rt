//! Variations of a font: its axes, the place that is chosen on them, and by how much the numbers of its tables change there, as
//! HarfBuzz computes it.
//!
//! A place is a list of normalized coordinates, one of each axis: numbers of 16384ths, 0 where the axis has its default. An axis
//! that the list does not reach has its default. Scalars and deltas are floats of 32 bits, as they are in HarfBuzz, so that what
//! is rounded here is rounded there.
//!
//! A table is a slice of bytes that may be cut short or hold anything, and an empty one is a table that the font does not have.
//! No memory is asked for.
#![tactic(auto)]

pub mod axes;
mod delta_sets;
pub mod feature_variations;
pub mod index_map;
pub mod metrics_variations;
pub mod packed_deltas;
pub mod packed_points;
pub mod regions;
pub mod rounding;
pub mod segment_maps;
pub mod tents;
pub mod user_variations;
pub mod value_variations;
pub mod variation_store;

pub use axes::{Axis, VariationAxes};
pub use feature_variations::substitutions_of;
pub use metrics_variations::MetricsVariations;
pub use segment_maps::AxisMaps;
pub use user_variations::Variation;
pub use value_variations::ValueVariations;
pub use variation_store::{Deltas, VariationStore};
