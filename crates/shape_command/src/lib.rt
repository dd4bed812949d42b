//! The program `vukhaso_shape`, used as HarfBuzz's `hb-shape` is: its lines are shaped by the OpenType shaper.
#![tactic(auto)]

pub mod ending;
pub mod opentype;
