//! The words of a command line.

use crate::arguments::{asked_for, matches_of};
use crate::options::{Options, OptionsError};
use clap::ArgMatches;
use std::alloc::{AllocError, Global};
use std::convert::AsStr;
use thiserror::Error;

/// Why the words of a command line are not answered.
#[derive(Debug, Drop, Error)]
pub enum WordsError<'a> {
    /// They are no command line.
    #[error("{0}")]
    Words(clap::Error),
    /// They ask for nothing that can be done.
    #[error("{0}")]
    Options(OptionsError<'a>),
    /// They ask for this text.
    #[error("{0}")]
    Asked(String),
    /// There is no memory.
    #[error("out of memory")]
    Memory,
}

impl From<AllocError> for WordsError<'_> {
    fn from(_error: AllocError) -> Self {
        WordsError::Memory
    }
}

impl<'a> From<OptionsError<'a>> for WordsError<'a> {
    fn from(error: OptionsError<'a>) -> Self {
        match error {
            OptionsError::Memory => WordsError::Memory,
            error => WordsError::Options(error),
        }
    }
}

/// What a command line asks for; its first word is the name of the program. No file is read.
pub fn options_of<'a, S: AsStr>(
    alloc: Global,
    words: &'a [S],
) -> Result<Options<'a>, WordsError<'a>> {
    match matches_of(alloc, words) {
        Ok(matches) => options_of_matches(alloc, &matches),
        Err(error) => Err(WordsError::Words(error)),
    }
}

/// What the words of a command line ask for.
fn options_of_matches<'a>(
    alloc: Global,
    matches: &ArgMatches<'a>,
) -> Result<Options<'a>, WordsError<'a>> {
    match asked_for(alloc, matches)? {
        Some(text) => Err(WordsError::Asked(text)),
        None => Ok(Options::from_matches(alloc, matches)?),
    }
}
