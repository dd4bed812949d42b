//! Hangul: syllables as the font has them, whole or as jamo, and tone marks, which are written before their syllable.

pub use features::{JAMO_FEATURES, add_jamo_features};
pub use text::prepare;

mod features;
mod jamo;
mod syllables;
mod text;
mod tones;
