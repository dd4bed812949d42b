//! What is kept of a line for the next one.

ghost use Rattle.std.specs.Prelude.{◌≡◌, None, false};

use shape_lines::text::{emptied, empty_text};
use shape_options::options::LineOptions;
use shaping_buffer::UnicodeBuffer;
use std::alloc::Global;

/// What is kept of a line for the next one of the same font.
#[derive(Drop)]
pub struct KeptLine {
    /// Its buffer, emptied.
    pub text: Option<UnicodeBuffer>,
    /// Whether the shaping of a line was given up, and nothing was said of it yet.
    pub has_given_up: bool,
}

impl KeptLine {
    /// Nothing is kept.
    pub fn new() -> Self
        ensures text { result.text ≡ None }
        ensures has_given_up { result.has_given_up ≡ false }
    {
        KeptLine {
            text: None,
            has_given_up: false,
        }
    }

    /// An empty text for the next line, in the buffer that is kept, if one is. In it characters that are invisible by default are
    /// to have the glyph of the options.
    pub fn take_text(&mut self, alloc: Global, options: &LineOptions<'_>) -> UnicodeBuffer
        ensures { result.invisible ≡ options.now.invisible_glyph }
    {
        match self.text.take() {
            Some(text) => emptied(text, options),
            None => empty_text(alloc, options),
        }
    }
}
