//! What a line is answered with: how it is shaped.

ghost use Rattle.std.specs.Prelude.{◌≡◌, IfOk};
ghost use Rattle.shape_lines.specs.Answer.{answer_text};
ghost use Rattle.shape_lines.specs.Lines.{IsAnswer, IsList};

use crate::texts::{LineFont, Shapes};
use font_face::Face;
use font_functions::OwnFunctions;
use shape_fonts::fallback::shape_fallback;
use shape_fonts::kept_advances::KeptAdvances;
use shape_fonts::synthetic_font::{LineNames, SyntheticFont};
use shape_glyphs::edits::{Edits, buffer_of};
use shape_glyphs::glyph_line::read_glyphs;
use shape_kept::kept_line::KeptLine;
use shape_kept::trace::{StepPrinter, Trace};
use shape_lines::answers::Answer;
use shape_lines::characters::shown_characters;
use shape_lines::printing::GlyphPrinter;
use shape_lines::reading::Reading;
use shape_lines::text::{fill, lossy_text};
use shape_options::options::{LineOptions, Shaper};
use shape_options::output::Output;
use shaping_buffer::{Direction, GlyphBuffer, GlyphId, UnicodeBuffer};
use shaping_verification::ShapeError;
use std::alloc::{AllocError, Global};

/// What is printed of a line.
#[derive(Drop)]
pub struct Answered {
    /// The steps of its shaping; none where they are not printed.
    pub trace: Trace,
    /// The list of its characters; empty where that is not shown.
    pub characters: Vec<u8>,
    /// What it is answered with.
    pub answer: Answer,
}

/// What lines are answered by that changes from line to line.
#[derive(Drop)]
pub struct LineState<'a, N, T> {
    /// What shapes their texts.
    pub texts: T,
    /// Names and extents of glyphs.
    pub names: N,
    /// What is kept of the line before.
    pub kept: KeptLine,
    /// The advances of glyphs of the lines before, where the font is varied.
    pub advances: Option<KeptAdvances<'a>>,
}

/// A font, and how lines are shaped with it and printed.
#[derive(Clone, Copy)]
pub struct LineShaper<'a> {
    /// The font.
    pub face: &'a Face<'a>,
    /// What it answers, as its glyphs are to be drawn.
    pub(crate) font: SyntheticFont<'a>,
    /// How each line is shaped.
    pub options: &'a LineOptions<'a>,
    /// How often each line is shaped.
    pub iterations: u32,
    /// What is printed of lines and of their glyphs.
    pub output: Output,
    /// Whether the text is a single line.
    pub single_par: bool,
    /// What is seen of the bytes of the text.
    pub reading: Reading,
}

impl<'a> LineShaper<'a> {
    /// A font that keeps the advances of its glyphs, where these are asked for and may cost much.
    pub fn advances(&self) -> Option<KeptAdvances<'a>> {
        let is_varied = self.font.is_plain() && !self.face.coordinates().is_empty();
        if is_varied && self.asks_advances() {
            Some(KeptAdvances::new(self.face))
        } else {
            None
        }
    }

    /// Whether lines are shaped horizontally, and their steps not printed.
    fn asks_advances(&self) -> bool {
        let options = self.options;
        let is_down = matches!(
            options.direction,
            Direction::TopToBottom | Direction::BottomToTop
        );
        options.shaper == Shaper::OpenType && !options.glyphs && !is_down && !self.output.trace
    }

    /// How the steps of shaping a line are printed.
    pub(crate) fn step_printer(&self) -> StepPrinter<'a>
        ensures { result.output ≡ self.now.output }
    {
        StepPrinter {
            font: self.font,
            options: self.options,
            output: self.output,
        }
    }

    /// The answer to a line.
    pub fn answer<N: LineNames, T: Shapes>(
        &self,
        alloc: Global,
        state: &mut LineState<'_, N, T>,
        line: &[u8],
    ) -> Result<Answered, AllocError>
        ensures answer { IfOk result (λ answered. IsAnswer self.now.output (answer_text answered.answer)) }
        ensures list { IfOk result (λ answered. IsList answered.characters.items) }
    {
        match std::str::from_utf8(line) {
            Ok(line) => self.answer_to_text(alloc, state, line),
            Err(_) => {
                let line = lossy_text(alloc, line)?;
                self.answer_to_text(alloc, state, line.as_str())
            }
        }
    }

    /// The answer to a line that is UTF-8.
    fn answer_to_text<N: LineNames, T: Shapes>(
        &self,
        alloc: Global,
        state: &mut LineState<'_, N, T>,
        line: &str,
    ) -> Result<Answered, AllocError>
        ensures answer { IfOk result (λ answered. IsAnswer self.now.output (answer_text answered.answer)) }
        ensures list { IfOk result (λ answered. IsList answered.characters.items) }
    {
        let characters = shown_characters(alloc, self.options, self.output.shown, line)?;
        let mut trace = Trace::new(alloc);
        let answer = self.answer_to_line(alloc, state, &mut trace, line)?;
        Ok(Answered {
            trace,
            characters,
            answer,
        })
    }

    /// What a line is answered with, which is a text or writes glyphs.
    fn answer_to_line<N: LineNames, T: Shapes>(
        &self,
        alloc: Global,
        state: &mut LineState<'_, N, T>,
        trace: &mut Trace,
        line: &str,
    ) -> Result<Answer, AllocError>
        ensures { IfOk result (λ answer. IsAnswer self.now.output (answer_text answer)) }
    {
        if self.options.glyphs {
            return self.answer_to_glyphs(alloc, state, line);
        }
        if let Some(advances) = &mut state.advances {
            advances.keep_characters(line);
        }
        self.shape_unprinted(alloc, state, trace, line)?;
        match self.filled_text(alloc, state, line)? {
            Some(text) => self.shape(alloc, state, trace, text),
            None => Ok(Answer::Failed),
        }
    }

    /// The text of a line, in the buffer that is kept; `None` where it is too long.
    fn filled_text<N: LineNames, T: Shapes>(
        &self,
        alloc: Global,
        state: &mut LineState<'_, N, T>,
        line: &str,
    ) -> Result<Option<UnicodeBuffer>, AllocError> {
        let mut text = state.kept.take_text(alloc, self.options);
        if fill(alloc, self.options, line, &mut text)? {
            Ok(Some(text))
        } else {
            Ok(None)
        }
    }

    /// The answer to a line that writes glyphs.
    fn answer_to_glyphs<N: LineNames, T: Shapes>(
        &self,
        alloc: Global,
        state: &mut LineState<'_, N, T>,
        line: &str,
    ) -> Result<Answer, AllocError>
        ensures { IfOk result (λ answer. IsAnswer self.now.output (answer_text answer)) }
    {
        let mut text = state.kept.take_text(alloc, self.options);
        // An empty text is not too long.
        let _fits = fill(alloc, self.options, "", &mut text)?;
        let direction = text.direction();
        let read = read_glyphs(alloc, self.face, &self.font, &state.names, direction, line)?;
        let edits = Edits {
            not_found: GlyphId(0),
            slant: 0.0,
            ..self.edits(direction)
        };
        match buffer_of(text, read.infos.as_slice(), read.positions.as_slice())? {
            Some(glyphs) => self.print_edited(alloc, state, &edits, glyphs),
            None => Ok(Answer::Failed),
        }
    }

    /// Shapes a line once less than is asked for: what it gives is not printed.
    fn shape_unprinted<N: LineNames, T: Shapes>(
        &self,
        alloc: Global,
        state: &mut LineState<'_, N, T>,
        trace: &mut Trace,
        line: &str,
    ) -> Result<(), AllocError> {
        for _ in 1..self.iterations {
            let Some(text) = self.filled_text(alloc, state, line)? else {
                return Ok(());
            };
            match self.shape_text(state, trace, text) {
                Ok(glyphs) => state.kept.text = Some(glyphs.clear()),
                Err(ShapeError::Memory) => return Err(AllocError),
                Err(_) => return Ok(()),
            }
        }
        Ok(())
    }

    /// What the text of a line is answered with.
    fn shape<N: LineNames, T: Shapes>(
        &self,
        alloc: Global,
        state: &mut LineState<'_, N, T>,
        trace: &mut Trace,
        text: UnicodeBuffer,
    ) -> Result<Answer, AllocError>
        ensures { IfOk result (λ answer. IsAnswer self.now.output (answer_text answer)) }
    {
        let edits = self.edits(text.direction());
        match self.shape_text(state, trace, text) {
            Ok(glyphs) => self.print_edited(alloc, state, &edits, glyphs),
            Err(ShapeError::TooLong) => Ok(Answer::Failed),
            Err(ShapeError::OtherPlan) => Ok(Answer::Failed),
            Err(ShapeError::Unverified(error)) => Ok(Answer::Unverified(error)),
            Err(ShapeError::Memory) => Err(AllocError),
        }
    }

    /// Shapes a text by the shaper that is chosen.
    fn shape_text<N: LineNames, T: Shapes>(
        &self,
        state: &mut LineState<'_, N, T>,
        trace: &mut Trace,
        text: UnicodeBuffer,
    ) -> Result<GlyphBuffer, ShapeError> {
        if self.options.shaper == Shaper::Fallback {
            return Ok(shape_fallback(&self.font, text)?);
        }
        if self.output.trace {
            return self.shape_traced(&mut state.texts, trace, text);
        }
        if let Some(advances) = &mut state.advances {
            let glyphs = state.texts.shape(&self.line_font(advances), text)?;
            advances.keep_glyphs(glyphs.glyph_infos());
            return Ok(glyphs);
        }
        if self.font.is_plain() {
            let own = OwnFunctions { face: self.face };
            return state.texts.shape(&self.line_font(&own), text);
        }
        state.texts.shape(&self.line_font(&self.font), text)
    }

    /// Shapes a text, whose steps are kept to be printed.
    fn shape_traced<T: Shapes>(
        &self,
        texts: &mut T,
        trace: &mut Trace,
        text: UnicodeBuffer,
    ) -> Result<GlyphBuffer, ShapeError> {
        if self.font.is_plain() {
            let own = OwnFunctions { face: self.face };
            return texts.shape_watched(&self.line_font(&own), text, trace);
        }
        texts.shape_watched(&self.line_font(&self.font), text, trace)
    }

    /// The font of which these functions answer.
    fn line_font<'f, F>(&self, functions: &'f F) -> LineFont<'a, 'f, 'a, F> {
        LineFont {
            face: self.face,
            functions,
            features: self.options.features.as_slice(),
        }
    }

    /// What the options change of the glyphs of a text in this direction.
    fn edits(&self, direction: Direction) -> Edits {
        let slant = match self.options.shaper {
            Shaper::OpenType => self.font.slant,
            Shaper::Fallback => 0.0,
        };
        Edits {
            not_found: self.font.not_found,
            slant,
            has_lookups: self.face.has_gpos,
            normalizes: self.options.normalize_glyphs,
            is_backward: direction.is_backward(),
        }
    }

    /// What is printed of glyphs with the changes that options ask for.
    fn print_edited<N: LineNames, T: Shapes>(
        &self,
        alloc: Global,
        state: &mut LineState<'_, N, T>,
        edits: &Edits,
        glyphs: GlyphBuffer,
    ) -> Result<Answer, AllocError>
        ensures { IfOk result (λ answer. IsAnswer self.now.output (answer_text answer)) }
    {
        match edits.edited(alloc, glyphs)? {
            Some(glyphs) => self.print_and_keep(alloc, state, glyphs),
            None => Ok(Answer::Failed),
        }
    }

    /// What is printed of glyphs, whose buffer is kept for the next line.
    fn print_and_keep<N: LineNames, T: Shapes>(
        &self,
        alloc: Global,
        state: &mut LineState<'_, N, T>,
        glyphs: GlyphBuffer,
    ) -> Result<Answer, AllocError>
        ensures { IfOk result (λ answer. IsAnswer self.now.output (answer_text answer)) }
    {
        let printer = GlyphPrinter {
            font: self.font,
            output: self.output,
        };
        let answer = printer.print(alloc, &mut state.names, &glyphs)?;
        state.kept.has_given_up |= glyphs.shaping_failed();
        state.kept.text = Some(glyphs.clear());
        Ok(answer)
    }
}
