//! Why texts are not shaped.

use crate::verification::VerifyError;
use std::alloc::AllocError;
use thiserror::Error;

/// Why a text was not shaped.
#[derive(Clone, Copy, PartialEq, Eq, Debug, Error)]
pub enum ShapeError {
    /// The text would have become longer than the buffer's limit.
    #[error("the text is too long")]
    TooLong,
    /// There is no memory.
    #[error("out of memory")]
    Memory,
    /// The plan by which the text was to be shaped is for others: `ShapePlan::is_for` says no.
    #[error("the plan is for other texts")]
    OtherPlan,
    /// The buffer was to be verified, and a test of its glyphs failed.
    #[error("buffer verify error: {0}")]
    Unverified(VerifyError),
}

impl From<AllocError> for ShapeError {
    ghost use Rattle.std.specs.Prelude.{◌≡◌};
    ghost use Rattle.shaping_verification.specs.declared.shape_error.ShapeError.TheVariants.{Memory};

    ghost from_gives = { λ _ e. e ≡ Memory };

    fn from(_error: AllocError) -> ShapeError {
        ShapeError::Memory
    }
}
