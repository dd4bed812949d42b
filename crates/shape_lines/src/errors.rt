//! Why a command line was not answered, or not each line of a text.

use shape_options::words::WordsError;
use std::alloc::AllocError;
use std::io::{self, ErrorKind};
use thiserror::Error;

/// Why not each line of a text was answered.
#[derive(Drop)]
pub enum LinesError {
    /// The text was not read to its end.
    Read(io::Error),
    /// An answer was not written.
    Write(io::Error),
    /// There is no memory.
    Memory,
}

impl From<AllocError> for LinesError {
    fn from(_error: AllocError) -> LinesError {
        LinesError::Memory
    }
}

/// The error of a read.
pub fn read_error(error: io::Error) -> LinesError {
    match error.kind() {
        ErrorKind::OutOfMemory => LinesError::Memory,
        _ => LinesError::Read(error),
    }
}

/// Why a command line was not answered to its end.
#[derive(Debug, Drop, Error)]
pub enum CommandError<'a> {
    /// The words are not answered; no file was read.
    #[error("{0}")]
    Words(WordsError<'a>),
    /// The file of the font was not read.
    #[error("{file}: {error}")]
    Font {
        /// The file.
        file: &'a str,
        /// Why it was not read.
        error: io::Error,
    },
    /// The file has no font of this number.
    #[error("{0}: Failed loading font face")]
    Face(&'a str),
    /// The text was not read.
    #[error("Failed reading text: {file}: {error}")]
    Text {
        /// The file.
        file: &'a str,
        /// Why it was not read.
        error: io::Error,
    },
    /// The answers are those of shaping that was given up.
    #[error("Shaping was given up: the font asks for more work than the text may cost")]
    GivenUp,
    /// The answers were not written.
    #[error("Failed writing glyphs: {0}")]
    Output(io::Error),
    /// The file of the answers was not made.
    #[error("Cannot open output file '{file}': {error}")]
    OutputFile {
        /// The file.
        file: &'a str,
        /// Why it was not made.
        error: io::Error,
    },
    /// There is no memory.
    #[error("out of memory")]
    Memory,
}

impl From<AllocError> for CommandError<'_> {
    fn from(_error: AllocError) -> Self {
        CommandError::Memory
    }
}

impl<'a> From<WordsError<'a>> for CommandError<'a> {
    fn from(error: WordsError<'a>) -> Self {
        match error {
            WordsError::Memory => CommandError::Memory,
            error => CommandError::Words(error),
        }
    }
}

impl<'a> CommandError<'a> {
    /// Whether other words may do, so that help on them may be wanted.
    pub fn wants_help(&self) -> bool {
        matches!(
            self,
            CommandError::Words(WordsError::Options(_))
                | CommandError::Font { .. }
                | CommandError::Face(_)
                | CommandError::OutputFile { .. }
        )
    }

    /// The error of lines that are in this file.
    pub fn of_lines(file: &'a str, error: LinesError) -> Self {
        match error {
            LinesError::Read(error) => CommandError::Text { file, error },
            LinesError::Write(error) => CommandError::Output(error),
            LinesError::Memory => CommandError::Memory,
        }
    }
}
