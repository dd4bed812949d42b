//! Rules of contexts over plain lists of glyphs (OpenType specification, "Sequence Context" and "Chained Sequence Context"): where the rules
//! of lookups of `GSUB` and `GPOS` fit.
//!
//! A table is a slice of bytes that may be cut short or hold anything.
#![tactic(auto)]

mod asked;
pub mod context;
pub mod match_positions;
pub mod matching;
pub mod neighbours;
pub mod rule;
mod rule_set;
mod told;
