//! What lookups of `GPOS` and kerning make of positions: chains of attachments, flags of the glyphs that were looked at, and the offsets
//! in the end.
#![tactic(auto)]

pub mod chains;
pub mod finishing;
pub mod flags;

pub use finishing::{position_finish_offsets, position_start};
