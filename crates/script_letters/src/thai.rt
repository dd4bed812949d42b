//! Thai and Lao: the vowel AM is taken apart, and in a font without lookups for Thai, marks and bases get the glyphs that old fonts
//! have for them in the private use area.

pub use private_use::shape_private_use;
pub use sara_am::split_all;

mod private_use;
mod sara_am;
