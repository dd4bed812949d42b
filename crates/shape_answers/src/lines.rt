//! The lines of a text, and their answers.

ghost use Rattle.std.specs.Prelude.{OnOk};
ghost use Rattle.shape_lines.specs.Lines.{AnswersAll, AnswersParagraph, IsShown, Shows};

use crate::shaper::{LineShaper, LineState};
use crate::texts::Shapes;
use line_formats::heads::head;
use shape_fonts::synthetic_font::LineNames;
use shape_kept::trace::trace_lines;
use shape_lines::answers::{put, write_answer};
use shape_lines::errors::{LinesError, read_error};
use shape_lines::reading::{keep_seen, next_line};
use shape_lines::text::lossy_text;
use std::io::{self, BufRead, ErrorKind, Read, Write};

/// Answers each line of a text, and says whether all of them were shaped. A line feed ends a line, and the last line may
/// lack it. One line is held at a time.
pub fn answer_lines<F: AllocGlobal + Eprint, T: Shapes, N: LineNames, R: BufRead, W: Write>(
    rt: &F,
    shaper: &LineShaper<'_>,
    state: &mut LineState<'_, N, T>,
    reader: &mut R,
    writer: &mut W,
) -> Result<bool, LinesError>
    ensures { OnOk result (AnswersAll shaper.now.reading (IsShown shaper.now.output)
        (R.remaining reader.old) (R.remaining reader.new)
        (W.contents writer.old) (W.contents writer.new)) }
{
    let mut all_shaped = true;
    let mut line = Vec::new(rt.alloc());
    for number in 1..u64::MAX {
        let found = next_line(rt.alloc(), reader, shaper.reading, &mut line)?;
        if !found {
            return Ok(all_shaped);
        }
        let is_shaped = answer_line(rt, shaper, state, number, line.as_slice(), writer)?;
        all_shaped &= is_shaped;
    }
    Err(LinesError::Read(io::Error::from(ErrorKind::Other)))
}

/// Answers a text as one line, unless it is empty, and says whether it was shaped.
pub fn answer_paragraph<F: AllocGlobal + Eprint, T: Shapes, N: LineNames, R: Read, W: Write>(
    rt: &F,
    shaper: &LineShaper<'_>,
    state: &mut LineState<'_, N, T>,
    reader: &mut R,
    writer: &mut W,
) -> Result<bool, LinesError>
    ensures { OnOk result (AnswersParagraph shaper.now.reading (IsShown shaper.now.output)
        (R.remaining reader.old) (R.remaining reader.new)
        (W.contents writer.old) (W.contents writer.new)) }
{
    let mut text = Vec::new(rt.alloc());
    match reader.read_to_end(&mut text) {
        Ok(_) => {}
        Err(error) => return Err(read_error(error)),
    }
    keep_seen(rt.alloc(), shaper.reading, &mut text, 0)?;
    if text.is_empty() {
        return Ok(true);
    }
    let is_shaped = answer_line(rt, shaper, state, 1, text.as_slice(), writer)?;
    Ok(is_shaped)
}

/// Answers a line of this number, and says whether it was shaped.
fn answer_line<F: AllocGlobal + Eprint, T: Shapes, N: LineNames, W: Write>(
    rt: &F,
    shaper: &LineShaper<'_>,
    state: &mut LineState<'_, N, T>,
    number: u64,
    line: &[u8],
    writer: &mut W,
) -> Result<bool, LinesError>
    ensures { OnOk result (Shows (IsShown shaper.now.output) number line.now
        (W.contents writer.old) (W.contents writer.new)) }
{
    let answered = shaper.answer(rt.alloc(), state, line)?;
    let steps = trace_lines(
        rt.alloc(),
        &shaper.step_printer(),
        &mut state.names,
        number,
        &answered.trace,
    )?;
    tell(rt, steps.as_slice())?;
    let characters = answered.characters.as_slice();
    let before = head(rt.alloc(), shaper.output.shown, number, line, characters)?;
    put(writer, before.as_slice())?;
    write_answer(writer, &answered.answer)?;
    Ok(answered.answer.is_shaped())
}

/// Says the steps of shaping on standard error.
fn tell<F: AllocGlobal + Eprint>(rt: &F, steps: &[u8]) -> Result<(), LinesError> {
    if steps.is_empty() {
        return Ok(());
    }
    let text = lossy_text(rt.alloc(), steps)?;
    match rt.eprint(&text) {
        Ok(()) => Ok(()),
        Err(error) => Err(LinesError::Write(error)),
    }
}
