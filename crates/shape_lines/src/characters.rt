//! The list of a line's characters, which may be shown before its answer.

ghost use Rattle.std.specs.Prelude.{IfOk};
ghost use Rattle.shape_lines.specs.Lines.{IsList};

use crate::text::{empty_text, fill};
use line_formats::characters::characters_list;
use line_formats::heads::Shown;
use shape_options::options::LineOptions;
use std::alloc::{AllocError, Global};

/// The list of a line's characters, where that is shown; else it is empty.
pub fn shown_characters(
    alloc: Global,
    options: &LineOptions<'_>,
    shown: Shown,
    line: &str,
) -> Result<Vec<u8>, AllocError>
    ensures { IfOk result (λ characters. IsList characters.items) }
{
    let mut text = empty_text(alloc, options);
    if shown.characters {
        // Of a line that is too long there is no list.
        let _fits = fill(alloc, options, line, &mut text)?;
    }
    let buffer = text.into_buffer();
    let list = characters_list(alloc, buffer.info())?;
    Ok(list)
}
