//! What the shapers of scripts in syllables share: the categories of characters, how a machine finds syllables, how items move
//! within one, the dotted circle of a broken one, and requests of features.
//!
//! The features of a font and its lookups are asked by [`FontForms`]; nothing here knows of a font's tables.
#![tactic(auto)]

pub use category::Category;
pub use category::position::Position;
pub use category::search::category_of;
pub use font::{FontForms, FormFeature};
pub use machine::Machine;
pub use vowel_sequences::third_vowel;
pub use vowels::part_vowels;

pub mod category;
pub mod clusters;
pub mod composition;
pub mod dotted_circle;
pub mod font;
pub mod grammar;
pub mod item;
pub mod left_matras;
pub mod machine;
pub mod moves;
pub mod reordering;
pub mod requests;
pub mod sorting;
pub mod syllables;
pub mod vowel_sequences;
pub mod vowels;
