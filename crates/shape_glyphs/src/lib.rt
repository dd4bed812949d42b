//! What `vukhaso_shape` does with glyphs: lines that write them are read, options change them, and they are drawn.
#![tactic(auto)]

pub mod edits;
pub mod glyph_line;
pub mod normalized;
pub mod picture;
