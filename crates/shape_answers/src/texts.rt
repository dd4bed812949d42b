//! What shapes the texts of lines: the crate above says how.

ghost use Rattle.std.specs.Prelude.{IfOk};
ghost use Rattle.shaping_buffer.specs.State.{HasPositions};

use font_face::Face;
use font_functions::FontFunctions;
use shape_options::options::Options;
use shaping_buffer::{Feature, GlyphBuffer, UnicodeBuffer};
use shaping_steps::Watch;
use shaping_verification::ShapeError;

/// A font of which functions answer, and the features of a line.
#[derive(Drop)]
pub struct LineFont<'a, 'f, 'o, F> {
    /// The font, of which lookups, the size and the variations are taken.
    pub face: &'a Face<'a>,
    /// What it answers.
    pub functions: &'f F,
    /// The features.
    pub features: &'o [Feature],
}

/// What shapes the texts of a font, and may keep what serves the next one.
pub trait Shapes: Drop {
    /// The same for another font.
    fn anew(&self) -> Self;

    /// Shapes a text.
    fn shape<F: FontFunctions>(
        &mut self,
        font: &LineFont<'_, '_, '_, F>,
        text: UnicodeBuffer,
    ) -> Result<GlyphBuffer, ShapeError>
        ensures { IfOk result HasPositions };

    /// Shapes a text, and tells of each step.
    fn shape_watched<F: FontFunctions, W: Watch>(
        &mut self,
        font: &LineFont<'_, '_, '_, F>,
        text: UnicodeBuffer,
        watch: &mut W,
    ) -> Result<GlyphBuffer, ShapeError>
        ensures { IfOk result HasPositions };
}

/// What a command line asks for, and what shapes its texts.
#[derive(Drop)]
pub struct Asked<'o, 'a, 't, T> {
    /// The options.
    pub options: &'o Options<'a>,
    /// What shapes the texts.
    pub texts: &'t mut T,
}
