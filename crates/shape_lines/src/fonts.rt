//! The file of the font that a command line names.

ghost use Rattle.std.specs.Prelude.{◌≡◌, Some, OnOk};

use crate::batch::say;
use crate::errors::CommandError;
use shape_fonts::font_file::FontFile;
use shape_options::batch::words_of_line;
use shape_options::options::{FontChoice, Options};
use shape_options::words::options_of;
use std::io::{self, Write};
use std::rt::Files;

/// Reads the file of the font, unless it was read last.
pub fn read_font_file<'a, F: Files + AllocGlobal>(
    rt: &F,
    options: &Options<'a>,
    file: &mut FontFile,
) -> Result<(), CommandError<'a>>
    ensures { OnOk result (file.new.path ≡ Some options.now.font_file.now) }
{
    let path = options.font_file;
    match file.read(rt, path) {
        Ok(()) => Ok(()),
        Err(error) => Err(CommandError::Font { file: path, error }),
    }
}

/// Reads the file of the font that words name, unless it was read last, and says which font it is.
fn read_font<'a, F: Files + AllocGlobal>(
    rt: &F,
    words: &'a [&'a str],
    file: &mut FontFile,
) -> Result<FontChoice, CommandError<'a>> {
    let options = options_of(rt.alloc(), words)?;
    read_font_file(rt, &options, file)?;
    Ok(options.font)
}

/// Reads the file of the font that a line of a batch names, unless it was read last, and says which font it is. `None` where there
/// is no such file, which is said.
pub fn read_named_font<F: Files + AllocGlobal, W: Write>(
    rt: &F,
    program: &str,
    line: &[u8],
    file: &mut FontFile,
    output: &mut W,
) -> io::Result<Option<FontChoice>> {
    let Ok(line) = std::str::from_utf8(line) else {
        writeln!(output, "error: not UTF-8")?;
        return Ok(None);
    };
    let words = words_of_line(rt.alloc(), program, line)?;
    match read_font(rt, words.as_slice(), file) {
        Ok(choice) => Ok(Some(choice)),
        Err(error) => {
            say(rt.alloc(), output, error)?;
            Ok(None)
        }
    }
}
