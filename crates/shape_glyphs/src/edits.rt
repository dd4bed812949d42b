//! What options change of glyphs that are shaped.

ghost use Rattle.std.specs.Prelude.{◌≡◌, false, length, IsSome};

use crate::normalized::normalize_glyphs;
use font_variations::rounding::{float, rounded};
use shaping_buffer::{
    GlyphBuffer, GlyphId, GlyphPosition, UnicodeBuffer, hb_buffer_t, hb_glyph_info_t,
};
use std::alloc::{AllocError, Global};

/// What is changed.
#[derive(Clone, Copy)]
pub struct Edits {
    /// What stands in place of glyph 0.
    pub not_found: GlyphId,
    /// How far to the right what a position moves up is moved.
    pub slant: f32,
    /// Whether lookups placed the marks, which are slanted then.
    pub has_lookups: bool,
    /// Whether the glyphs of a cluster are put in their nominal order.
    pub normalizes: bool,
    /// Whether the line runs backward.
    pub is_backward: bool,
}

impl Edits {
    /// Whether nothing is changed.
    fn is_none(&self) -> bool {
        self.not_found.0 == 0 && self.slant == 0.0 && !self.normalizes
    }

    /// The glyphs with these changes; `None` where a buffer does not hold as many.
    pub fn edited(
        &self,
        alloc: Global,
        glyphs: GlyphBuffer,
    ) -> Result<Option<GlyphBuffer>, AllocError> {
        if self.is_none() {
            return Ok(Some(glyphs));
        }
        let mut infos = Vec::from_slice(alloc, glyphs.glyph_infos())?;
        let mut positions = Vec::from_slice(alloc, glyphs.glyph_positions())?;
        self.edit(&mut infos, &mut positions);
        buffer_of(glyphs.clear(), infos.as_slice(), positions.as_slice())
    }

    /// Makes these changes.
    fn edit(&self, infos: &mut [hb_glyph_info_t], positions: &mut [GlyphPosition])
        requires { length positions.old ≡ length infos.old }
    {
        for info in infos.iter_mut() {
            show(info, self.not_found);
        }
        if self.slant != 0.0 {
            for position in positions.iter_mut() {
                if self.has_lookups || has_advance(position) {
                    slant_offset(position, self.slant);
                }
            }
        }
        if self.normalizes {
            normalize_glyphs(infos, positions, self.is_backward);
        }
    }
}

/// Puts a glyph in place of glyph 0.
fn show(info: &mut hb_glyph_info_t, not_found: GlyphId) {
    if info.glyph_id == 0 {
        info.glyph_id = u32::from(not_found.0);
    }
}

/// Moves to the right what stands higher than the line.
fn slant_offset(position: &mut GlyphPosition, slant: f32) {
    if position.y_offset != 0 {
        let moved = rounded(slant * float(position.y_offset));
        position.x_offset = position.x_offset.wrapping_add(moved);
    }
}

/// Whether a glyph moves the pen.
fn has_advance(position: &GlyphPosition) -> bool {
    position.x_advance != 0 || position.y_advance != 0
}

/// A buffer of glyphs, in the room of an empty text; `None` where it does not hold as many.
pub fn buffer_of(
    text: UnicodeBuffer,
    infos: &[hb_glyph_info_t],
    positions: &[GlyphPosition],
) -> Result<Option<GlyphBuffer>, AllocError> {
    let mut text = text;
    for info in infos {
        if !text.add('\0', info.cluster)? {
            return Ok(None);
        }
    }
    let mut buffer = text.into_buffer();
    buffer.clear_positions();
    put_infos(&mut buffer, infos);
    put_positions(&mut buffer, positions);
    Ok(Some(GlyphBuffer::from_buffer(buffer)))
}

/// Puts glyphs in the places of those of a buffer.
fn put_infos(buffer: &mut hb_buffer_t, infos: &[hb_glyph_info_t])
    requires closed { buffer.old.have_output ≡ false }
    requires placed { IsSome buffer.old.positions }
    ensures closed { buffer.new.have_output ≡ false }
    ensures placed { IsSome buffer.new.positions }
{
    copy_infos(buffer.info_slice_mut(), infos);
}

/// Puts positions in the places of those of a buffer.
fn put_positions(buffer: &mut hb_buffer_t, positions: &[GlyphPosition])
    requires closed { buffer.old.have_output ≡ false }
    requires placed { IsSome buffer.old.positions }
    ensures closed { buffer.new.have_output ≡ false }
    ensures placed { IsSome buffer.new.positions }
{
    copy_positions(buffer.pos_mut(), positions);
}

/// Puts glyphs in the places of others.
fn copy_infos(own: &mut [hb_glyph_info_t], infos: &[hb_glyph_info_t]) {
    for i in 0..own.len() {
        if let Some(info) = infos.get(i) {
            own[i] = *info;
        }
    }
}

/// Puts positions in the places of others.
fn copy_positions(own: &mut [GlyphPosition], positions: &[GlyphPosition]) {
    for i in 0..own.len() {
        if let Some(position) = positions.get(i) {
            own[i] = *position;
        }
    }
}
