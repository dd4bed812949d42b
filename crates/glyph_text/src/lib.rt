//! Glyphs as a text: rustybuzz's form of the format of HarfBuzz's `hb_buffer_serialize_glyphs`, and what can be read
//! back from such a text.
//!
//! Nothing here knows of a buffer: `shaping_buffer` gives the text of what it holds.
#![tactic(auto)]

pub mod laws;
mod number_text;
pub mod parts;
pub mod serialize;
