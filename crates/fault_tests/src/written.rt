//! Glyphs as a text, under each set of flags.

ghost use Rattle.std.specs.Prelude.{Some, codes, pos};

use crate::beginning::begun_buffer;
use crate::scenario::{Lost, Scenario};
use rb_glyph::{GlyphExtents, GlyphNames};
use rb_text::GlyphId;
use shaping_buffer::{Flags, GlyphBuffer, SerializeFlags};
use std::alloc::{AllocError, Global};

/// A font that knows each glyph by one name.
struct Known;

impl GlyphNames for Known {
    ghost name_of = { λ _ _. Some (codes "known") };

    ghost extents_of = { λ _ _. Some (record { x_bearing = pos 1; y_bearing = pos 2; width = pos 3; height = pos 4 }) };

    fn glyph_name(&self, _glyph: GlyphId) -> Option<&str> {
        Some("known")
    }

    fn glyph_extents(&self, _glyph: GlyphId) -> Option<GlyphExtents> {
        Some(GlyphExtents {
            x_bearing: 1,
            y_bearing: 2,
            width: 3,
            height: 4,
        })
    }
}

/// `serialize` under each of the 64 sets of flags, with a font that has names and extents.
pub struct Written;

impl Scenario for Written {
    type Ready = (GlyphBuffer, Vec<String>);

    fn name(&self) -> &str {
        "serialize under each set of flags"
    }

    fn least(&self) -> u32 {
        64
    }

    fn prepare(&self, alloc: Global) -> Result<(GlyphBuffer, Vec<String>), Lost> {
        let glyphs = glyphs(alloc)?;
        let mut texts = Vec::new(alloc);
        for bits in 0..64 {
            texts.push(write(alloc, &glyphs, bits)?)?;
        }
        Ok((glyphs, texts))
    }

    fn watch(&self, alloc: Global, ready: (GlyphBuffer, Vec<String>)) -> Result<(), Lost> {
        let (glyphs, texts) = ready;
        for (bits, wanted) in (0u8..64).zip(texts.iter()) {
            let written = match write(alloc, &glyphs, bits) {
                Ok(written) => written,
                Err(_) => write(alloc, &glyphs, bits)?,
            };
            if written.as_str() != wanted.as_str() {
                return Err(Lost::State);
            }
        }
        Ok(())
    }
}

/// Glyphs with positions of their own.
fn glyphs(alloc: Global) -> Result<GlyphBuffer, Lost> {
    let mut buffer = begun_buffer(alloc, "abcdefgh", 0)?;
    if buffer.have_output() {
        return Err(Lost::Refusal);
    }
    buffer.clear_positions();
    for (i, position) in (1i32..).zip(buffer.pos_mut().iter_mut()) {
        position.x_advance = i;
        position.y_offset = i.wrapping_neg();
    }
    if buffer.have_output() || !buffer.have_positions() {
        return Err(Lost::Refusal);
    }
    Ok(GlyphBuffer::from_buffer(buffer))
}

fn write(alloc: Global, glyphs: &GlyphBuffer, bits: u8) -> Result<String, Lost> {
    let flags = SerializeFlags::from_bits_retain(bits);
    Ok(glyphs.serialize(alloc, &Known, flags)?)
}
