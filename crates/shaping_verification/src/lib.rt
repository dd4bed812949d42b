//! Tests of shaped glyphs: parts of their text are shaped again.
#![tactic(auto)]

mod comparison;
mod original;
mod shape_error;
mod verification;

pub use comparison::{Differences, compare};
pub use original::Original;
pub use shape_error::ShapeError;
pub use verification::{ShapesParts, VerifyError, verify};
