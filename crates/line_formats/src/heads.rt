//! What stands before the answer to a line.

ghost use Rattle.std.specs.Prelude.{◌≡◌, ◌++◌, IfOk, OnOk};
ghost use Rattle.line_formats.specs.Heads.{characters_line, head, number_before, text_line};

use crate::writing::{write_bytes, write_number};
use std::alloc::{AllocError, Global};

/// What is printed before the answer to a line.
#[derive(Clone, Copy, PartialEq, Eq)]
pub struct Shown {
    /// The line, in a line of its own.
    pub text: bool,
    /// Its characters, in a line of their own.
    pub characters: bool,
    /// Its number, before each of these lines and before the answer.
    pub number: bool,
}

/// What stands before the answer to a line of this number, with this list of characters.
pub fn head(
    alloc: Global,
    shown: Shown,
    number: u64,
    line: &[u8],
    characters: &[u8],
) -> Result<Vec<u8>, AllocError>
    ensures { IfOk result (λ text. text.items ≡ head shown number line.now characters.now) }
{
    let mut text = Vec::new(alloc);
    write_text_line(&mut text, shown, number, line)?;
    write_characters_line(&mut text, shown, number, characters)?;
    write_number_before(&mut text, shown, number)?;
    Ok(text)
}

/// The line in parentheses, where it is shown.
fn write_text_line(
    text: &mut Vec<u8>,
    shown: Shown,
    number: u64,
    line: &[u8],
) -> Result<(), AllocError>
    ensures { OnOk result (text.new.items ≡ text.old.items ++ text_line shown number line.now) }
{
    if !shown.text {
        return Ok(());
    }
    write_number_before(text, shown, number)?;
    write_bytes(text, b"(")?;
    write_bytes(text, line)?;
    write_bytes(text, b")\n")
}

/// The list of characters, where it is shown.
fn write_characters_line(
    text: &mut Vec<u8>,
    shown: Shown,
    number: u64,
    characters: &[u8],
) -> Result<(), AllocError>
    ensures { OnOk result (text.new.items ≡ text.old.items ++ characters_line shown number characters.now) }
{
    if !shown.characters {
        return Ok(());
    }
    write_number_before(text, shown, number)?;
    write_bytes(text, characters)?;
    write_bytes(text, b"\n")
}

/// The number of the line, where it is shown.
fn write_number_before(text: &mut Vec<u8>, shown: Shown, number: u64) -> Result<(), AllocError>
    ensures { OnOk result (text.new.items ≡ text.old.items ++ number_before shown number) }
{
    if !shown.number {
        return Ok(());
    }
    write_number(text, number)?;
    write_bytes(text, b": ")
}
