//! The text that a line is shaped as.

ghost use Rattle.std.specs.Prelude.{◌≡◌, ◌<◌, IfOk, OnOk, Ok, length, string_bytes};
ghost use Rattle.std.specs.Str.{IsUtf8};
ghost use Rattle.shaping_buffer.specs.Pushed.{pushed};
ghost use Rattle.shaping_buffer.specs.Properties.{or_else};
ghost use Rattle.shaping_buffer.specs.State.{State, cleared};
ghost use Rattle.shaping_buffer.specs.Step.{GrowthMeets};
ghost use Rattle.shape_lines.specs.Prepared.{prepared, with_properties, language_of};

use crate::errors::CommandError;
use shape_options::options::{LineOptions, OptionsError, TextSource};
use shape_options::words::WordsError;
use shaping_buffer::{GlyphBuffer, Language, LanguageError, UnicodeBuffer};
use std::alloc::{AllocError, Global};

/// The text that is given, and not in a file.
pub fn given_text<'a, 't>(text: &'t TextSource<'a>) -> Result<&'t str, CommandError<'a>> {
    match text {
        TextSource::Given(text) => Ok(text),
        TextSource::CodePoints(text) => Ok(text.as_str()),
        TextSource::File(_) | TextSource::Input => {
            Err(CommandError::Words(WordsError::Options(OptionsError::DrawnFile)))
        }
    }
}

/// The bytes as a text, in which each byte that is no part of a character in UTF-8 is a replacement character, as in
/// HarfBuzz. Of bytes that are UTF-8 it is the text.
pub fn lossy_text(alloc: Global, bytes: &[u8]) -> Result<String, AllocError>
    ensures { IfOk result (λ text. IsUtf8 bytes.now → string_bytes text ≡ bytes.now) }
{
    if let Ok(whole) = std::str::from_utf8(bytes) {
        return String::from_str(alloc, whole);
    }
    let mut text = String::new(alloc);
    let mut rest = bytes;
    while !rest.is_empty() {
        rest = push_lossy(&mut text, rest)?;
    }
    Ok(text)
}

/// Adds the characters before the first byte that is no part of one, and a replacement character for that byte. It gives
/// the bytes that are left.
fn push_lossy<'a>(text: &mut String, bytes: &'a [u8]) -> Result<&'a [u8], AllocError>
    requires { 0 < length bytes.now }
    ensures { IfOk result (λ rest. length rest.now < length bytes.now) }
{
    let valid_len = match std::str::from_utf8(bytes) {
        Ok(whole) => {
            text.push_str(whole)?;
            return Ok(&[]);
        }
        Err(error) => error.valid_up_to(),
    };
    let (valid, others) = bytes.split_at(valid_len);
    text.push_str(std::str::from_utf8(valid).unwrap_or(""))?;
    text.push(char::REPLACEMENT_CHARACTER)?;
    Ok(&others[1..])
}

/// An empty text, in which characters that are invisible by default are to have the glyph of the options.
pub fn empty_text(alloc: Global, options: &LineOptions<'_>) -> UnicodeBuffer
    ensures { result.invisible ≡ options.now.invisible_glyph }
{
    emptied(UnicodeBuffer::new(alloc), options)
}

/// A text that is emptied, with the room of its buffer, for which the options say the same.
pub fn emptied(text: UnicodeBuffer, options: &LineOptions<'_>) -> UnicodeBuffer
    ensures { result ≡ cleared (record text { invisible = options.now.invisible_glyph }) }
{
    let mut buffer = text.into_buffer();
    buffer.invisible = options.invisible_glyph;
    buffer.clear_positions();
    GlyphBuffer::from_buffer(buffer).clear()
}

/// Makes a line the whole text of a buffer, with the contexts and the properties of the options. `Ok(false)` where the
/// line is longer than a buffer holds: then the text is empty.
pub fn fill(
    alloc: Global,
    options: &LineOptions<'_>,
    line: &str,
    text: &mut UnicodeBuffer,
) -> Result<bool, AllocError>
    ensures { IfOk result (λ fits. (given : State)
        × GrowthMeets (pushed line.now (cleared text.old)) (cleared text.old) (Ok fits) given
        × (text.new ≡ prepared options.now given)) }
{
    text.clear();
    let fits = text.push_str(line)?;
    prepare(alloc, options, text)?;
    Ok(fits)
}

/// Gives a text that was pushed its clusters, its contexts and its properties.
fn prepare(
    alloc: Global,
    options: &LineOptions<'_>,
    text: &mut UnicodeBuffer,
) -> Result<(), AllocError>
    ensures { OnOk result (text.new ≡ prepared options.now text.old) }
{
    if !options.utf8_clusters {
        text.reset_clusters();
    }
    text.set_pre_context(options.before.as_str());
    text.set_post_context(options.after.as_str());
    set_properties(alloc, options, text)?;
    text.guess_segment_properties();
    Ok(())
}

/// Says what the options say.
fn set_properties(
    alloc: Global,
    options: &LineOptions<'_>,
    text: &mut UnicodeBuffer,
) -> Result<(), AllocError>
    ensures { OnOk result (text.new ≡ with_properties options.now text.old) }
{
    text.set_direction(options.direction);
    if let Some(script) = options.script {
        text.set_script(script);
    }
    set_language(alloc, options.language, text)?;
    text.set_flags(options.flags);
    text.set_cluster_level(options.cluster_level);
    if let Some(glyph) = options.not_found_variation_selector_glyph {
        text.set_not_found_variation_selector_glyph(glyph);
    }
    Ok(())
}

/// Says the language, unless the text is empty.
fn set_language(alloc: Global, language: &str, text: &mut UnicodeBuffer) -> Result<(), AllocError>
    ensures { OnOk result (text.new ≡ record text.old {
      language = or_else (language_of language.now) text.old.language;
    }) }
{
    match Language::from_str(alloc, language) {
        Ok(language) => {
            text.set_language(language);
            Ok(())
        }
        Err(LanguageError::Invalid) => Ok(()),
        Err(LanguageError::Memory) => Err(AllocError),
    }
}
