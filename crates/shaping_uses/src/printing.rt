//! A text is pushed, and printed as HarfBuzz prints glyphs.

ghost use Rattle.std.specs.Prelude.{◌≡◌, ◌<◌, ◌≤◌, length, string_bytes, chars, IfOk, MatchOption, OnErr};
ghost use Rattle.shaping_uses.specs.Printing.{printed_characters};

use rb_glyph::NoGlyphNames;
use shaping_buffer::{Flags, GlyphBuffer, SerializeFlags, UnicodeBuffer};
use std::alloc::{AllocError, Global};

/// The characters of a text with their clusters, before any font gave them glyphs. `Ok(None)` exactly where a buffer
/// may not hold so many. `Err(AllocError)` comes only where the text is not empty.
pub fn print_characters(alloc: Global, text: &str) -> Result<Option<String>, AllocError>
    ensures is { IfOk result (λ printed. MatchOption printed
        (0x3FFF_FFFF < length (chars text.now))
        (λ line. (length (chars text.now) ≤ 0x3FFF_FFFF)
        × (string_bytes line ≡ printed_characters text.now))) }
    ensures wants { OnErr result (0 < length (chars text.now)) }
{
    let mut characters = UnicodeBuffer::new(alloc);
    if !characters.push_str(text)? {
        return Ok(None);
    }
    let mut buffer = characters.into_buffer();
    buffer.clear_positions();
    let glyphs = GlyphBuffer::from_buffer(buffer);
    let line = glyphs.serialize(alloc, &NoGlyphNames, SerializeFlags::NO_GLYPH_NAMES)?;
    Ok(Some(line))
}
