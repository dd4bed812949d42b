//! Tests of `unicode_tables` against the kit, over every code point. Rows are tested in `tests/internals/unicode` of the package
//! `rust/vukhaso`.
#![tactic(auto)]

#[cfg(test)]
mod every_character;
