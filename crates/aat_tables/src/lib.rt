//! Readers of the tables of Apple Advanced Typography, total over any bytes (Apple's TrueType Reference Manual).
//!
//! What a table does not hold whole is not there, as in `font_tables`.
#![tactic(auto)]

pub mod feature_names;
pub mod glyph_rows;
pub mod lookup;
pub mod metamorphosis;
pub mod state_table;
pub mod tracking;

pub use feature_names::{FeatureName, FeatureNames};
pub use lookup::Lookup;
pub use metamorphosis::{Chain, Metamorphosis, Subtable, SubtableKind};
pub use state_table::{Entry, StateTable};
