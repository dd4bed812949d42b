//! What is told while a text is shaped, step by step.

ghost use Rattle.std.specs.Prelude.{◌≡◌, false};

use shaping_buffer::hb_buffer_t;
use std::alloc::AllocError;

/// A step of shaping.
#[derive(Clone, Copy, PartialEq, Eq)]
pub enum Step {
    /// The text was put in order, and characters were composed or taken apart: the items are characters yet.
    Characters,
    /// Each character has its glyph.
    Glyphs,
    /// A lookup of `GSUB` was applied, which has this index.
    Substituted(u16),
    /// The glyphs have the advances and the origins of the font.
    Advances,
    /// A lookup of `GPOS` was applied, which has this index.
    Positioned(u16),
    /// Pairs were kerned by the table `kern`.
    Kerned,
    /// The text is shaped.
    Shaped,
}

/// Who is told of each step of shaping.
pub trait Watch {
    /// A step was made, and the buffer is what it left.
    fn step(&mut self, step: Step, buffer: &hb_buffer_t) -> Result<(), AllocError>
        requires { buffer.now.have_output ≡ false };
}

/// Nobody is told.
#[derive(Clone, Copy)]
pub struct Unwatched;

impl Watch for Unwatched {
    fn step(&mut self, _step: Step, _buffer: &hb_buffer_t) -> Result<(), AllocError> {
        Ok(())
    }
}
