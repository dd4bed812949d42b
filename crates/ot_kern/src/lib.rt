//! Positions by the table `kern`: how far pairs of glyphs are moved, and which glyphs are joined to others across the line.
//!
//! Kerning changes positions, glyph flags and scratch flags, and nothing else. No bytes of a font make a walk go outside of the table or
//! of the glyphs, or go on without an end; what the table does not hold whole is passed over.
#![tactic(auto)]

mod kern_pairs;
mod kerning;

pub use kerning::kern;
