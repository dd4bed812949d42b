//! The steps of shaping a text, and who is told of them.
#![tactic(auto)]

mod watch;

pub use watch::{Step, Unwatched, Watch};
