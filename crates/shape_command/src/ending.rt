//! How the program ends.

ghost use Rattle.std.specs.Prelude.{◌≤◌};
ghost use Rattle.std.specs.Process.{exit_status};

use crate::opentype::OpenTypeShaper;
use shape_answers::ending::run_with;
use std::process::ExitCode;
use std::rt::{Env, Files};

/// All that the program does. It gives the status to end with: 0, or 1 where something failed, which is said on
/// standard error.
pub fn run_to_end<F: Files + AllocGlobal + Env + Input + Print + Eprint>(rt: &F) -> ExitCode
    ensures { exit_status result ≤ 1 }
{
    run_with(rt, &OpenTypeShaper::new())
}
