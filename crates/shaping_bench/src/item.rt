//! Lists of glyphs on which passes and the serialized text are timed.

use crate::measuring::Item;
use crate::pass::{Clusters, Pass};
use anyhow::bail;
use rb_glyph::NoGlyphNames;
use shaping_buffer::{Flags, GlyphBuffer, SerializeFlags, UnicodeBuffer, hb_buffer_t};
use std::alloc::Global;
use std::mem;

/// How many ids there are, from 1 on, before they begin again.
const IDS: usize = 30000;

/// A buffer that a pass goes over. It is used again from run to run.
#[derive(Drop)]
pub struct PassItem {
    pass: Pass,
    size: usize,
    alloc: Global,
    buffer: hb_buffer_t,
}

impl PassItem {
    pub fn new(alloc: Global, pass: Pass, size: usize) -> PassItem {
        PassItem {
            pass,
            size,
            alloc,
            buffer: hb_buffer_t::new(alloc),
        }
    }
}

impl Item for PassItem {
    fn prepare(&mut self) -> anyhow::Result<()> {
        let buffer = mem::replace(&mut self.buffer, hb_buffer_t::new(self.alloc));
        let characters = shaped(buffer)?.clear();
        self.buffer = filled(characters, self.size, self.pass.clusters())?;
        if self.pass.has_positions() && !self.buffer.have_output() {
            self.buffer.clear_positions();
        }
        Ok(())
    }

    fn run(&mut self) -> anyhow::Result<u32> {
        if self.buffer.have_output() {
            bail!("a call was refused");
        }
        let Some(number) = self.pass.run(&mut self.buffer)? else {
            bail!("a call was refused");
        };
        Ok(low_bits(number).wrapping_add(last_id(&self.buffer)))
    }
}

/// A buffer of shaped glyphs that is written as a text.
#[derive(Drop)]
pub struct TextItem {
    alloc: Global,
    buffer: GlyphBuffer,
    has_positions: bool,
}

impl TextItem {
    pub fn new(alloc: Global, size: usize, has_positions: bool) -> anyhow::Result<TextItem> {
        let buffer = filled(UnicodeBuffer::new(alloc), size, Clusters::Single)?;
        Ok(TextItem {
            alloc,
            buffer: shaped(buffer)?,
            has_positions,
        })
    }
}

impl Item for TextItem {
    fn prepare(&mut self) -> anyhow::Result<()> {
        Ok(())
    }

    fn run(&mut self) -> anyhow::Result<u32> {
        let text = if self.has_positions {
            self.buffer
                .serialize(self.alloc, &NoGlyphNames, SerializeFlags::NO_GLYPH_NAMES)?
        } else {
            let flags = SerializeFlags::from_bits_retain(6);
            self.buffer.serialize(self.alloc, &NoGlyphNames, flags)?
        };
        Ok(low_bits(text.len()))
    }
}

/// The glyphs of a buffer, with positions.
pub fn shaped(mut buffer: hb_buffer_t) -> anyhow::Result<GlyphBuffer> {
    if buffer.have_output() {
        bail!("a call was refused");
    }
    buffer.clear_positions();
    Ok(GlyphBuffer::from_buffer(buffer))
}

/// The glyphs 1 to 30000 in turn, as many as asked for, as `push_str` would leave them.
fn filled(
    mut characters: UnicodeBuffer,
    size: usize,
    clusters: Clusters,
) -> anyhow::Result<hb_buffer_t> {
    for i in 0..size {
        let id = char::from_u32((i % IDS) as u32 + 1).unwrap_or('?');
        if !characters.add(id, clusters.number(i, size))? {
            bail!("a character was refused");
        }
    }
    Ok(characters.into_buffer())
}

/// A number modulo 2^32.
pub fn low_bits(number: usize) -> u32 {
    (number % 0x1_0000_0000) as u32
}

/// The id of the last glyph, or 0.
pub fn last_id(buffer: &hb_buffer_t) -> u32 {
    buffer.info().last().map_or(0, |glyph| glyph.glyph_id)
}
