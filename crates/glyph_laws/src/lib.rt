//! What is true of merges, scans, deletion and replacement over every list of glyphs.
#![tactic(auto)]

pub mod laws;
