//! The lines of a batch: how they are read, and what stands in place of an answer.

use crate::errors::{CommandError, LinesError};
use crate::reading::{Reading, next_line};
use shape_options::words::WordsError;
use std::alloc::Global;
use std::io::{self, BufRead, ErrorKind, Write};

/// Reads the next line, if there is one, up to a byte 0 if it has one.
pub fn has_next<R: BufRead>(alloc: Global, input: &mut R, line: &mut Vec<u8>) -> io::Result<bool> {
    match next_line(alloc, input, Reading::Whole, line) {
        Ok(found) => {
            line.truncate(
                line.iter()
                    .position(|byte| *byte == 0)
                    .unwrap_or(line.len()),
            );
            Ok(found)
        }
        Err(LinesError::Read(error) | LinesError::Write(error)) => Err(error),
        Err(LinesError::Memory) => Err(io::Error::from(ErrorKind::OutOfMemory)),
    }
}

/// Says in place of an answer why there is none. An answer that was not written is an error of the whole batch.
pub fn say<W: Write>(alloc: Global, output: &mut W, error: CommandError<'_>) -> io::Result<()> {
    let error = match error {
        CommandError::Output(error) => return Err(error),
        CommandError::Words(WordsError::Asked(text)) => return output.write_all(text.as_bytes()),
        error => error,
    };
    let message = error.to_string(alloc)?;
    let first = message.as_str().lines().next().unwrap_or("");
    let reason = first.strip_prefix("error: ").unwrap_or(first);
    writeln!(output, "error: {reason}")
}
