//! The universal shaper, and the shapers of Khmer and of Myanmar, which work as it does: one order for each syllable.
#![tactic(auto)]

pub use khmer::plan::KhmerPlan;
pub use myanmar::plan::MyanmarShaper;
pub use pauses::pause;
pub use universal::plan::{FormMasks, UniversalPlan};
pub use universal::{FormLookup, flag_forms};

pub mod khmer;
pub mod myanmar;
pub mod pauses;
pub mod universal;
