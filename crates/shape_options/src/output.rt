//! What a command line says of the output.

use crate::options::OptionsError;
use clap::ArgMatches;
use line_formats::heads::Shown;
use shaping_buffer::{Flags, SerializeFlags};

/// How glyphs are printed.
#[derive(Clone, Copy, PartialEq, Eq)]
pub enum OutputFormat {
    /// As the text of HarfBuzz's `hb_buffer_serialize_glyphs`.
    Text,
    /// As its JSON.
    Json,
    /// Not at all: each line has an empty answer.
    Nothing,
}

/// What is printed of lines and of their glyphs.
#[derive(Clone, Copy)]
pub struct Output {
    /// How glyphs are printed.
    pub format: OutputFormat,
    /// What is printed of them.
    pub flags: SerializeFlags,
    /// What stands before the answer to a line.
    pub shown: Shown,
    /// Whether the steps of shaping are printed before that.
    pub trace: bool,
}

/// What the words of a command line say of the output.
pub(crate) fn output_of<'a>(matches: &ArgMatches<'a>) -> Result<Output, OptionsError<'a>> {
    Ok(Output {
        format: format_of(matches)?,
        flags: flags_of(matches),
        shown: shown_of(matches),
        trace: matches.get_flag("trace"),
    })
}

/// The format that is named, or that of the ending of the output's file, where it is one of a format.
fn format_of<'a>(matches: &ArgMatches<'a>) -> Result<OutputFormat, OptionsError<'a>> {
    if let Some(name) = matches.get_str("output-format") {
        return named(name).ok_or(OptionsError::Format(name));
    }
    let file = matches.get_str("output-file").unwrap_or("");
    let format = match file.rsplit_once('.') {
        Some((_, ending)) => named(ending),
        None => None,
    };
    Ok(format.unwrap_or(OutputFormat::Text))
}

/// The format of a name, of which the first four letters count, as in HarfBuzz. The empty name is that of no output.
fn named(name: &str) -> Option<OutputFormat> {
    let bytes = name.as_bytes();
    let letters = bytes.get(..4).unwrap_or(bytes);
    if letters.is_empty() {
        Some(OutputFormat::Nothing)
    } else if letters.eq_ignore_ascii_case(b"text") {
        Some(OutputFormat::Text)
    } else if letters.eq_ignore_ascii_case(b"json") {
        Some(OutputFormat::Json)
    } else {
        None
    }
}

/// What stands before the answer to a line.
fn shown_of(matches: &ArgMatches<'_>) -> Shown {
    let all = matches.get_flag("verbose") || matches.get_flag("v");
    Shown {
        text: all || matches.get_flag("show-text"),
        characters: all || matches.get_flag("show-unicode"),
        number: all || matches.get_flag("show-line-num"),
    }
}

/// What is printed of glyphs.
fn flags_of(matches: &ArgMatches<'_>) -> SerializeFlags {
    let mut flags = SerializeFlags::empty();
    for (name, flag) in [
        ("no-glyph-names", SerializeFlags::NO_GLYPH_NAMES),
        ("no-positions", SerializeFlags::NO_POSITIONS),
        ("no-advances", SerializeFlags::NO_ADVANCES),
        ("no-clusters", SerializeFlags::NO_CLUSTERS),
        ("show-extents", SerializeFlags::GLYPH_EXTENTS),
        ("show-flags", SerializeFlags::GLYPH_FLAGS),
        ("ned", SerializeFlags::NO_CLUSTERS),
        ("ned", SerializeFlags::NO_ADVANCES),
        ("v", SerializeFlags::NO_CLUSTERS),
        ("v", SerializeFlags::NO_ADVANCES),
    ] {
        if matches.get_flag(name) {
            flags = flags.union(flag);
        }
    }
    flags
}
