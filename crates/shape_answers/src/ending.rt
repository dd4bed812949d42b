//! How the program ends.

ghost use Rattle.std.specs.Prelude.{◌≡◌, ◌≤◌};
ghost use Rattle.std.specs.Process.{exit_status};
ghost use Rattle.shape_answers.specs.Status.{status_after};

use crate::batch_answers::answer_batch;
use crate::run::answer_command;
use crate::texts::Shapes;
use shape_fonts::font_file::FontFile;
use shape_lines::errors::CommandError;
use shape_options::words::WordsError;
use std::env;
use std::io::{self, BufRead, BufReader, BufWriter, Write};
use std::process::ExitCode;
use std::rt::{Env, Files};

/// The name of the program where it is not told.
pub(crate) const NAME: &str = "vukhaso_shape";

/// All that the program does. It gives the status to end with: 0, or 1 where something failed, which is said on
/// standard error.
pub fn run_with<F: Files + AllocGlobal + Env + Input + Print + Eprint, T: Shapes>(
    rt: &F,
    texts: &T,
) -> ExitCode
    ensures { exit_status result ≤ 1 }
{
    conclude(rt, run(rt, texts))
}

/// Says on standard error why a run ended early, and gives the status to end with: 0 where every line was shaped, and
/// else 1.
fn conclude<E: Eprint>(error_output: &E, outcome: io::Result<bool>) -> ExitCode
    ensures is { exit_status result ≡ status_after outcome }
    ensures least { exit_status result ≤ 1 }
{
    match outcome {
        Ok(true) => ExitCode::from(0),
        Ok(false) => ExitCode::from(1),
        Err(error) => {
            // If standard error fails too, there is no place left to report it.
            let _ = eprintln!(error_output; "{NAME}: {error}");
            ExitCode::from(1)
        }
    }
}

/// Answers the command line of the program, or the batch on standard input.
fn run<F: Files + AllocGlobal + Env + Input + Print + Eprint, T: Shapes>(
    rt: &F,
    texts: &T,
) -> io::Result<bool> {
    let words: Vec<String> = env::args(rt)?.collect(rt.alloc())?;
    run_words(rt, texts, words.as_slice())
}

/// Answers the words of a command line, the first of which is the name of the program.
fn run_words<F: Files + AllocGlobal + Input + Print + Eprint, T: Shapes>(
    rt: &F,
    texts: &T,
    words: &[String],
) -> io::Result<bool> {
    let mut input = BufReader::new(rt.alloc(), rt.reader())?;
    let mut output = BufWriter::new(rt.alloc(), io::writer(rt))?;
    if asks_for_batch(words) {
        answer_batch(rt, texts, &mut input, &mut output)
    } else {
        answer_words(rt, texts, words, &mut input, &mut output)
    }
}

/// Whether the words ask for the answers to a batch.
fn asks_for_batch(words: &[String]) -> bool {
    match words {
        [_, word] => word.as_str() == "--batch",
        _ => false,
    }
}

/// Answers the words of a command line, and says why that ended early, if it did.
fn answer_words<F: Files + AllocGlobal + Print + Eprint, T: Shapes, R: BufRead, W: Write>(
    rt: &F,
    texts: &T,
    words: &[String],
    input: &mut R,
    output: &mut W,
) -> io::Result<bool> {
    let mut file = FontFile::new(rt.alloc());
    let answered = answer_command(rt, texts, words, &mut file, input, output);
    match output.flush() {
        Ok(()) => tell(rt, &answered),
        Err(error) => Err(error),
    }
}

/// Says why a command line was not answered to its end, or the text that it asks for.
fn tell<F: Print + Eprint>(rt: &F, answered: &Result<bool, CommandError<'_>>) -> io::Result<bool> {
    match answered {
        Ok(all_shaped) => Ok(*all_shaped),
        Err(CommandError::Words(WordsError::Words(error))) => say(rt, error),
        Err(CommandError::Words(WordsError::Asked(text))) => {
            rt.print(text)?;
            Ok(true)
        }
        Err(error) => complain(rt, error),
    }
}

/// Says why a command line was not answered to its end, and where it may be mended where help is to be had.
fn complain<E: Eprint>(error_output: &E, error: &CommandError<'_>) -> io::Result<bool> {
    eprintln!(error_output; "{NAME}: {error}")?;
    if error.wants_help() {
        eprintln!(error_output; "Try `{NAME} --help' for more information.")?;
    }
    Ok(false)
}

/// Says what is wrong with the words, or the help that they ask for.
fn say<F: Print + Eprint>(rt: &F, error: &clap::Error) -> io::Result<bool> {
    error.print(rt)?;
    Ok(!error.use_stderr())
}
