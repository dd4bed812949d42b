//! Probes of `shaping_buffer` and `rb_glyph`: what Rattle alone shows, by a proof. Values are tested by lines of the program, in
//! `rows/calls`, and in `tests/internals` of the package `rust/vukhaso`.
#![tactic(auto)]

pub mod probes;
