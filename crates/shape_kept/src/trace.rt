//! The steps of shaping a line, and how they are printed.

ghost use Rattle.std.specs.Prelude.{◌≡◌, false, IfOk};
ghost use Rattle.shape_lines.specs.Lines.{IsTrace};

use line_formats::characters::characters_list;
use line_formats::heads::{Shown, head};
use shape_fonts::synthetic_font::{LineNames, SyntheticFont};
use shape_glyphs::edits::buffer_of;
use shape_lines::answers::Answer;
use shape_lines::printing::GlyphPrinter;
use shape_lines::text::empty_text;
use shape_options::options::LineOptions;
use shape_options::output::Output;
use shaping_buffer::{Flags, GlyphPosition, SerializeFlags, hb_buffer_t, hb_glyph_info_t};
use shaping_steps::{Step, Watch};
use std::alloc::{AllocError, Global};
use std::fmt::Write;

/// What the buffer is after a step.
#[derive(Drop)]
struct Told {
    step: Step,
    items: Vec<hb_glyph_info_t>,
    /// The positions, where they are on.
    positions: Option<Vec<GlyphPosition>>,
}

/// The steps of shaping a line, which it is told as the line is shaped.
#[derive(Drop)]
pub struct Trace {
    alloc: Global,
    steps: Vec<Told>,
}

impl Trace {
    /// No step yet.
    pub fn new(alloc: Global) -> Self {
        Trace {
            alloc,
            steps: Vec::new(alloc),
        }
    }
}

impl Watch for Trace {
    /// Keeps what the step left.
    fn step(&mut self, step: Step, buffer: &hb_buffer_t) -> Result<(), AllocError> {
        let items = Vec::from_slice(self.alloc, buffer.info())?;
        let positions = if buffer.have_positions() {
            Some(Vec::from_slice(self.alloc, buffer.pos())?)
        } else {
            None
        };
        self.steps.push(Told {
            step,
            items,
            positions,
        })?;
        Ok(())
    }
}

/// How the steps of shaping a line are printed.
#[derive(Clone, Copy)]
pub struct StepPrinter<'a> {
    /// The font, as its glyphs are to be drawn.
    pub font: SyntheticFont<'a>,
    /// How the line is shaped.
    pub options: &'a LineOptions<'a>,
    /// What is printed of the line.
    pub output: Output,
}

/// What is printed of the steps of shaping the line of this number: nothing where that is not asked for.
pub fn trace_lines<N: LineNames>(
    alloc: Global,
    printer: &StepPrinter<'_>,
    names: &mut N,
    number: u64,
    trace: &Trace,
) -> Result<Vec<u8>, AllocError>
    ensures { IfOk result (λ text. IsTrace printer.now.output text.items) }
{
    let mut text = Vec::new(alloc);
    if !printer.output.trace {
        return Ok(text);
    }
    write_steps(alloc, printer, names, number, trace, &mut text)?;
    Ok(text)
}

/// Writes the steps of shaping the line of this number.
fn write_steps<N: LineNames>(
    alloc: Global,
    printer: &StepPrinter<'_>,
    names: &mut N,
    number: u64,
    trace: &Trace,
    text: &mut Vec<u8>,
) -> Result<(), AllocError> {
    let shown = Shown {
        text: false,
        characters: false,
        number: printer.output.shown.number,
    };
    let before = head(alloc, shown, number, b"", b"")?;
    for told in trace.steps.iter() {
        text.extend_from_slice(before.as_slice())?;
        write_words(alloc, told.step, text)?;
        write_items(alloc, printer, names, told, text)?;
        text.push(b'\n')?;
    }
    Ok(())
}

/// Writes what stands before the items that a step left.
fn write_words(alloc: Global, step: Step, text: &mut Vec<u8>) -> Result<(), AllocError> {
    let mut words = String::new(alloc);
    push_words(&mut words, step)?;
    text.extend_from_slice(words.as_bytes())
}

/// Adds the message of a step, in HarfBuzz's words where it has one.
fn push_words(words: &mut String, step: Step) -> Result<(), AllocError> {
    words.push_str("trace: ")?;
    match step {
        Step::Characters => words.push_str("end normalize")?,
        Step::Glyphs => words.push_str("end map glyphs")?,
        Step::Substituted(lookup) | Step::Positioned(lookup) => {
            write!(words, "end lookup {lookup}")?;
        }
        Step::Advances => words.push_str("end position")?,
        Step::Kerned => words.push_str("end table kern")?,
        Step::Shaped => words.push_str("end shape")?,
    }
    words.push_str("\tbuffer: ")
}

/// Writes the items that a step left.
fn write_items<N: LineNames>(
    alloc: Global,
    printer: &StepPrinter<'_>,
    names: &mut N,
    told: &Told,
    text: &mut Vec<u8>,
) -> Result<(), AllocError> {
    if matches!(told.step, Step::Characters) {
        let list = characters_list(alloc, told.items.as_slice())?;
        return text.extend_from_slice(list.as_slice());
    }
    match glyphs_answer(alloc, printer, names, told)? {
        Answer::Glyphs(glyphs) => write_in_brackets(text, glyphs.as_bytes()),
        Answer::Objects(objects) => write_in_brackets(text, objects.as_slice()),
        Answer::Empty | Answer::Failed | Answer::Unverified(_) => Ok(()),
    }
}

/// Writes bytes in brackets.
fn write_in_brackets(text: &mut Vec<u8>, bytes: &[u8]) -> Result<(), AllocError> {
    text.push(b'[')?;
    text.extend_from_slice(bytes)?;
    text.push(b']')?;
    Ok(())
}

/// The glyphs that a step left, as glyphs are answered; without positions where there are none yet.
fn glyphs_answer<N: LineNames>(
    alloc: Global,
    printer: &StepPrinter<'_>,
    names: &mut N,
    told: &Told,
) -> Result<Answer, AllocError> {
    let (positions, flags) = match &told.positions {
        Some(positions) => (positions.as_slice(), printer.output.flags),
        None => {
            let none: &[GlyphPosition] = &[];
            (
                none,
                printer.output.flags.union(SerializeFlags::NO_POSITIONS),
            )
        }
    };
    let text = empty_text(alloc, printer.options);
    let Some(glyphs) = buffer_of(text, told.items.as_slice(), positions)? else {
        return Ok(Answer::Failed);
    };
    let glyph_printer = GlyphPrinter {
        font: printer.font,
        output: Output {
            flags,
            ..printer.output
        },
    };
    glyph_printer.print(alloc, names, &glyphs)
}
