//! Normalization with a font (Unicode Standard Annex 15).
#![tactic(auto)]

mod normalization;

pub use normalization::normalize;
