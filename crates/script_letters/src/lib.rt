//! The shapers of scripts that are no family, of which each writes a text anew before its lookups: Hangul syllables, the presentation
//! forms of Hebrew, and the vowel AM of Thai and Lao.
#![tactic(auto)]

pub mod hangul;
pub mod hebrew;
pub mod thai;
