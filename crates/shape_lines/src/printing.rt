//! How glyphs are printed.

ghost use Rattle.std.specs.Prelude.{◌≡◌, IfOk};
ghost use Rattle.shape_lines.specs.Answer.{IsIn, answer_text};
ghost use Rattle.shape_lines.specs.Lines.{glyphs_line};
ghost use Rattle.shape_options.specs.declared.output.OutputFormat.TheVariants.{Text, Json};

use crate::answers::Answer;
use line_formats::json::glyphs_json;
use shape_fonts::synthetic_font::{LineNames, SyntheticFont};
use shape_options::output::{Output, OutputFormat};
use shaping_buffer::{Flags, GlyphBuffer, SerializeFlags, hb_glyph_info_t};
use std::alloc::{AllocError, Global};

/// A font, and what is printed of its glyphs.
#[derive(Clone, Copy)]
pub struct GlyphPrinter<'a> {
    /// The font, as its glyphs are to be drawn.
    pub font: SyntheticFont<'a>,
    /// What is printed of them.
    pub output: Output,
}

impl GlyphPrinter<'_> {
    /// What is printed of glyphs: their text, or their objects.
    pub fn print<N: LineNames>(
        &self,
        alloc: Global,
        names: &mut N,
        glyphs: &GlyphBuffer,
    ) -> Result<Answer, AllocError>
        ensures { IfOk result (λ answer. answer_text answer ≡ glyphs_line
            (record { name = N.name_of names.new; extents = N.extents_of names.new }) self.now.output glyphs.now) }
    {
        if glyphs.is_empty() {
            return Ok(Answer::Empty);
        }
        self.find_extents(names, glyphs.glyph_infos())?;
        let answer = self.print_some(alloc, names, glyphs)?;
        Ok(answer)
    }

    /// What is printed of glyphs where there are some.
    fn print_some<N: LineNames>(
        &self,
        alloc: Global,
        names: &N,
        glyphs: &GlyphBuffer,
    ) -> Result<Answer, AllocError>
        ensures { IfOk result (IsIn self.now.output.format self.now.output.flags
            (record { name = N.name_of names.now; extents = N.extents_of names.now }) glyphs.now) }
    {
        match self.output.format {
            OutputFormat::Text => self.text(alloc, names, glyphs),
            OutputFormat::Json => self.objects(alloc, names, glyphs),
            OutputFormat::Nothing => Ok(Answer::Empty),
        }
    }

    /// The text of glyphs.
    fn text<N: LineNames>(
        &self,
        alloc: Global,
        names: &N,
        glyphs: &GlyphBuffer,
    ) -> Result<Answer, AllocError>
        ensures { IfOk result (IsIn Text self.now.output.flags
            (record { name = N.name_of names.now; extents = N.extents_of names.now }) glyphs.now) }
    {
        let text = glyphs.serialize(alloc, names, self.output.flags)?;
        Ok(Answer::Glyphs(text))
    }

    /// The objects of glyphs.
    fn objects<N: LineNames>(
        &self,
        alloc: Global,
        names: &N,
        glyphs: &GlyphBuffer,
    ) -> Result<Answer, AllocError>
        ensures { IfOk result (IsIn Json self.now.output.flags
            (record { name = N.name_of names.now; extents = N.extents_of names.now }) glyphs.now) }
    {
        let infos = glyphs.glyph_infos();
        let positions = glyphs.glyph_positions();
        let objects = glyphs_json(alloc, names, self.output.flags, infos, positions)?;
        Ok(Answer::Objects(objects))
    }

    /// Finds the extents of glyphs, where they are printed.
    fn find_extents<N: LineNames>(
        &self,
        names: &mut N,
        infos: &[hb_glyph_info_t],
    ) -> Result<(), AllocError> {
        if self.output.flags.contains(SerializeFlags::GLYPH_EXTENTS) {
            names.find(&self.font, infos)?;
        }
        Ok(())
    }
}
