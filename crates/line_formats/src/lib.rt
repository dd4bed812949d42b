//! What `hb-shape` prints of glyphs and characters beside their text: glyphs as JSON, the list of a text's characters, and what stands
//! before the answer to a line.
//!
//! Nothing here knows of a buffer or of a font's file.
#![tactic(auto)]

pub mod characters;
pub mod heads;
pub mod json;
mod writing;
