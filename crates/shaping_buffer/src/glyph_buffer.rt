//! Shaped glyphs.

ghost use Rattle.std.specs.Prelude.{◌≡◌, ◌<◌, true, false, length, IsTrue, ◌↔◌, Some, IsSome, IfOk, OnErr};
ghost use Rattle.std.specs.Prelude.{string_bytes};
ghost use Rattle.shaping_buffer.specs.State.{cleared, HasPositions};
ghost use Rattle.shaping_buffer.specs.Text.{text_of};

use crate::buffer::hb_buffer_t;
use crate::unicode_buffer::UnicodeBuffer;
use glyph_text::serialize::glyphs_text;
use rb_glyph::{GlyphNames, GlyphPosition, SerializeFlags, hb_glyph_info_t};
use std::alloc::{AllocError, Global};
use std::marker::Model;

/// Glyphs with their positions: what shaping gives.
#[derive(Drop)]
pub struct GlyphBuffer {
    buffer: hb_buffer_t,
}

impl Model for GlyphBuffer {
    ghost use Rattle.shaping_buffer.specs.State.{State, HasPositions};

    ghost Value = { State };

    ghost view = { λ g. g.buffer };

    ghost invariant = { λ g. HasPositions g.buffer };
}

impl GlyphBuffer {
    /// The glyphs of a buffer. Requires that no output is open and positions are on.
    pub fn from_buffer(buffer: hb_buffer_t) -> Self
        requires closed { buffer.have_output ≡ false }
        requires placed { IsSome buffer.positions }
        ensures is { result ≡ buffer }
        ensures placed { HasPositions result }
    {
        GlyphBuffer { buffer }
    }

    /// How many glyphs there are.
    pub fn len(&self) -> usize
        ensures { result ≡ length self.now.input }
    {
        self.buffer.len()
    }

    /// Whether there are no glyphs.
    pub fn is_empty(&self) -> bool
        ensures { IsTrue result ↔ (length self.now.input ≡ 0) }
    {
        self.buffer.is_empty()
    }

    /// The glyphs.
    pub fn glyph_infos(&self) -> &[hb_glyph_info_t]
        ensures { result.now ≡ self.now.input }
    {
        self.buffer.info()
    }

    /// The position of each glyph.
    pub fn glyph_positions(&self) -> &[GlyphPosition]
        ensures positions { Some result.now ≡ self.now.positions }
        ensures as_many { length result.now ≡ length self.now.input }
    {
        self.buffer.pos()
    }

    /// Whether shaping was given up before its end, for a limit on work or on length: then the glyphs are those that it had come to.
    /// HarfBuzz has the flag inside its buffer, as `shaping_failed`.
    pub fn shaping_failed(&self) -> bool
        ensures { result ≡ self.now.shaping_failed }
    {
        self.buffer.shaping_failed
    }

    /// An empty text, as rustybuzz makes it. The buffer's `max_len`, `max_ops`, `flags`, `invisible` and
    /// `shaping_failed` stay, and all else is as in a new text.
    pub fn clear(self) -> UnicodeBuffer
        ensures { result ≡ cleared self }
    {
        let mut buffer = self.buffer;
        buffer.clear();
        UnicodeBuffer::of_cleared(buffer)
    }

    /// The glyphs as a text, in rustybuzz's form of the format of HarfBuzz's `hb_buffer_serialize_glyphs`: one text
    /// for each glyph, joined by `|`, with no brackets around. A glyph's text is its name, or `gid` and its number
    /// where the font has no name for it; `=` and the cluster; `@x,y`, the offsets, unless both are 0; `+x`, the
    /// advance, and then `,y` unless that is 0; under `GLYPH_FLAGS` `#` and the glyph flags as a digit, unless they
    /// are 0; under `GLYPH_EXTENTS` `<x_bearing,y_bearing,width,height>`, zeros where the font has none.
    /// `NO_GLYPH_NAMES` writes the number alone, `NO_CLUSTERS` leaves the cluster out, `NO_POSITIONS` offsets and
    /// advances, and `NO_ADVANCES` the advances: then the sums of all earlier advances are added to the offsets.
    ///
    /// A number past 65535 is no glyph's: the font is not asked for its name or its extents. `Err(AllocError)` where
    /// memory ran out: then there is no text. With no glyph it never does.
    pub fn serialize<F: GlyphNames>(
        &self,
        alloc: Global,
        font: &F,
        flags: SerializeFlags,
    ) -> Result<String, AllocError>
        ensures is { IfOk result (λ text. string_bytes text ≡ text_of
            (record { name = F.name_of font.now; extents = F.extents_of font.now })
            flags self.now) }
        ensures wants { OnErr result (0 < length self.now.input) }
    {
        glyphs_text(
            alloc,
            font,
            flags,
            self.glyph_infos(),
            self.glyph_positions(),
        )
    }
}
