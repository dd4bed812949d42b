//! How the program ends.

ghost use Rattle.std.specs.Prelude.{◌≡◌};
ghost use Rattle.std.specs.Process.{exit_status};
ghost use Rattle.shaping_session.specs.Transcript.{status_after, EndsAs};

use crate::run::{RunFault, run_on};
use std::alloc::Global;
use std::io::{Eprint, Read, Write};
use std::process::ExitCode;

/// The exit status after a fault.
const FAULT: u8 = 3;

/// All that the program does: a run over its input and its output, whose fault is reported on standard error. It gives
/// the status to end with.
pub fn run_to_end<R: Read, W: Write, E: Eprint>(
    alloc: Global,
    reader: &mut R,
    writer: &mut W,
    error: &E,
) -> ExitCode
    ensures { EndsAs (R.remaining reader.old) (R.remaining reader.new)
        (W.contents writer.old) (W.contents writer.new) (exit_status result) }
{
    let outcome = run_on(alloc, reader, writer);
    conclude(error, outcome)
}

/// Reports a fault on standard error, and gives the status to end with: that of the run, or 3 after a fault.
fn conclude<E: Eprint>(error: &E, outcome: Result<u8, RunFault>) -> ExitCode
    ensures { exit_status result ≡ status_after outcome }
{
    match outcome {
        Ok(status) => ExitCode::from(status),
        Err(fault) => {
            let message = fault.message();
            // If standard error fails too, there is no place left to report it.
            let _ = eprintln!(error; "{message}");
            ExitCode::from(FAULT)
        }
    }
}
