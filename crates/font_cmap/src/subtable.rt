//! A subtable by its format.

ghost use Rattle.std.specs.Prelude.{◌≡◌, ◌<◌, ℕ, slice_index};
ghost use Rattle.font_tables.specs.Bytes.{number_16};
ghost use Rattle.font_cmap.specs.Subtables.{glyph_by_format, some_glyph, subtable_glyph};

use crate::arrays::{byte_glyph, trimmed_array_glyph, trimmed_table_glyph};
use crate::groups::{first_groups_glyphs, groups_glyph};
use crate::runs::FIRST_COUNT;
use crate::segment_lists::Segments;
use crate::segments::{first_segments_glyphs, segments_glyph};
use font_tables::bytes::u16_at;

/// A subtable that is asked for many codes: its format is read once, and so is where it has its lists if that is format 4.
#[derive(Clone, Copy)]
pub(crate) struct Subtable<'a> {
    /// The table, as one of segments.
    pub(crate) segments: Segments<'a>,
    format: Option<u16>,
    ghost is_format: { format ≡ number_16 segments.table.now 0 },
}

impl<'a> Subtable<'a> {
    /// The subtable in these bytes, which begin with its format.
    pub(crate) fn new(table: &'a [u8]) -> Self
        ensures { result.segments.table.now ≡ table.now }
    {
        let format = u16_at(table, 0);
        let segments = Segments::new(table);
        Subtable { segments, format }
    }
}

/// The glyph that a subtable gives to a code.
#[inline]
#[tactic(auto, unfolding(crate::specs::Subtables::glyph_by_format, crate::specs::Subtables::subtable_glyph))]
pub(crate) fn subtable_glyph(subtable: &Subtable<'_>, code: u32) -> Option<u16>
    ensures { result ≡ subtable_glyph subtable.now.segments.table.now code }
{
    let table = subtable.segments.table;
    let format = subtable.format?;
    match format {
        0 => byte_glyph(table, code),
        4 => segments_glyph(&subtable.segments, code),
        6 => trimmed_table_glyph(table, code),
        10 => trimmed_array_glyph(table, code),
        12 | 13 => groups_glyph(table, format, code),
        _ => None,
    }
}

/// The numbers of the glyphs that a subtable gives to the first codes; 0 where it gives none.
#[tactic(auto, unfolding(crate::specs::Subtables::glyph_by_format, crate::specs::Subtables::subtable_glyph))]
pub(crate) fn first_subtable_glyphs(subtable: &Subtable<'_>) -> [u16; FIRST_COUNT]
    ensures { (code : ℕ) → code < 128 → some_glyph (slice_index result code) ≡ subtable_glyph subtable.now.segments.table.now code }
{
    match subtable.format {
        Some(4) => first_segments_glyphs(&subtable.segments),
        Some(format @ (12 | 13)) => first_groups_glyphs(subtable.segments.table, format),
        _ => glyphs_one_by_one(subtable),
    }
}

/// The same, each asked for.
fn glyphs_one_by_one(subtable: &Subtable<'_>) -> [u16; FIRST_COUNT]
    ensures { (code : ℕ) → code < 128 → some_glyph (slice_index result code) ≡ subtable_glyph subtable.now.segments.table.now code }
{
    let mut glyphs = [0; FIRST_COUNT];
    for code in 0..FIRST_COUNT {
        glyphs[code] = number_of_code(subtable, code as u32);
    }
    glyphs
}

/// The number of the glyph that a subtable gives to a code; 0 where it gives none.
#[tactic(auto, using(crate::proofs::Numbers::some_glyph_of_subtable))]
fn number_of_code(subtable: &Subtable<'_>, code: u32) -> u16
    ensures { some_glyph result ≡ subtable_glyph subtable.now.segments.table.now code }
{
    subtable_glyph(subtable, code).unwrap_or(0)
}
