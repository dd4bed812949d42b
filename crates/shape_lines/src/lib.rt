//! Lines of the program `vukhaso_shape`: how they are read and become texts, and how glyphs are printed.
#![tactic(auto)]

pub mod answers;
pub mod batch;
pub mod characters;
pub mod errors;
pub mod fonts;
pub mod printing;
pub mod reading;
pub mod text;
