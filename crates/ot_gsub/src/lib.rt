//! Substitution of glyphs in a shaping buffer by the lookups of `GSUB` (OpenType specification, "GSUB - Glyph Substitution
//! Table").
//!
//! What a lookup does at a glyph is decided by `ot_layout`; here it is done, by the calls of the buffer alone.
#![tactic(auto, using(shaping_buffer::proofs::ClosedKeepsLemmas::kept))]

mod ligation;
mod multiplication;
mod nested;
mod properties;
mod reverse;
mod start;
mod substitution;
mod writing;

pub use start::substitute_start;
pub use substitution::{Progress, Substitutions, substitute};
