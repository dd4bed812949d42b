//! Variation sequences (OpenType specification, `cmap`, "Format 14").

ghost use Rattle.std.specs.Prelude.{◌≡◌, ◌<◌, ◌*◌, ◌+◌, ◌^◌, option_and_then, IfSome};
ghost use Rattle.font_tables.specs.Bytes.{number_16, number_24};
ghost use Rattle.font_tables.specs.Bisection.{beside_key, row_with};
ghost use Rattle.font_cmap.specs.Subtables.{some_glyph};
ghost use Rattle.font_cmap.specs.Variations.{selector_count, default_characters};
ghost use Rattle.font_cmap.specs.Variations.{own_glyphs, rows_declared, range_count};
ghost use Rattle.font_cmap.specs.Variations.{in_ranges, mapped_count, mapped_glyph};
ghost use Rattle.font_cmap.specs.Variations.{variant_in_row, glyph_variant};

use crate::arrays::some_glyph;
use crate::counts::count_32;
use font_tables::bisection::{KeyedRows, beside_key, row_with};
use font_tables::bytes::{table_at_32, u8_at, u16_at, u24_at};
use rb_common::GlyphId;
use std::cmp::Ordering;

/// What a font says of a character before a variation selector (OpenType specification, `cmap`, "Format 14").
#[derive(Clone, Copy, PartialEq, Eq)]
pub enum GlyphVariant {
    /// The font does not have the variation sequence.
    NotFound,
    /// The font has a glyph of its own for the variation sequence.
    Found(GlyphId),
    /// The character's glyph without the selector is that of the variation sequence.
    UseDefault,
}

/// The character at a place, a number of 24 bits.
#[tactic(auto, unfolding(font_tables::specs::Bytes::number_24))]
fn character_at(table: &[u8], place: usize) -> Option<u32>
    ensures is { result ≡ number_24 table.now place }
    ensures small { IfSome result (λ character. character < 2 ^ 24) }
{
    u24_at(table, place)
}

/// Rows of `size` bytes each, of which the first has its key, a number of 24 bits, at the byte `start`.
#[derive(Clone, Copy)]
struct Keys24<'a> {
    table: &'a [u8],
    start: usize,
    size: usize,
}

impl KeyedRows for Keys24<'_> {
    ghost use Rattle.std.specs.Prelude.{◌+◌, ◌*◌};
    ghost use Rattle.font_tables.specs.Bytes.{number_24};
    ghost use Rattle.font_tables.specs.Bisection.{beside_key};

    ghost beside_of = { λ keys key row. beside_key (number_24 keys.table.now (keys.start + keys.size * row)) key };

    fn beside(&self, key: u32, row: usize) -> Option<Ordering> {
        beside_key(key_at(self.table, self.start, self.size, row), key)
    }
}

/// The key of a row of `size` bytes.
#[tactic(auto, using(crate::proofs::Outside::number_24_outside))]
fn key_at(table: &[u8], start: usize, size: usize, row: usize) -> Option<u32>
    ensures { result ≡ number_24 table.now (start + size * row) }
{
    let place = start.saturating_add(size.saturating_mul(row));
    if place < table.len() {
        u24_at(table, place)
    } else {
        None
    }
}

/// The variation selectors.
fn selectors(table: &[u8]) -> Keys24<'_>
    ensures table { result.table.now ≡ table.now }
    ensures start { result.start ≡ 10 }
    ensures size { result.size ≡ 11 }
{
    Keys24 {
        table,
        start: 10,
        size: 11,
    }
}

/// The characters that have another glyph.
fn mappings(table: &[u8]) -> Keys24<'_>
    ensures table { result.table.now ≡ table.now }
    ensures start { result.start ≡ 4 }
    ensures size { result.size ≡ 5 }
{
    Keys24 {
        table,
        start: 4,
        size: 5,
    }
}

/// Ranges of characters that keep their glyph.
#[derive(Clone, Copy)]
struct Ranges<'a>(&'a [u8]);

impl KeyedRows for Ranges<'_> {
    ghost use Rattle.font_cmap.specs.Variations.{beside_characters};

    ghost beside_of = { λ ranges character row. beside_characters ranges.0.now character row };

    #[tactic(auto, using(crate::proofs::Outside::beside_characters_outside), unfolding(crate::specs::Variations::range_end))]
    fn beside(&self, character: u32, row: usize) -> Option<Ordering> {
        if row >= self.0.len() / 4 {
            return None;
        }
        let start = character_at(self.0, 4 + 4 * row)?;
        if character < start {
            return Some(Ordering::Less);
        }
        let more = u8_at(self.0, 7 + 4 * row)?;
        Some(if start + u32::from(more) < character {
            Ordering::Greater
        } else {
            Ordering::Equal
        })
    }
}

/// How many variation selectors there are.
#[tactic(auto, unfolding(crate::specs::Variations::selector_count))]
fn selector_count(table: &[u8]) -> usize
    ensures is { result ≡ selector_count table.now }
    ensures small { result < 2 ^ 32 }
{
    count_32(table, 6)
}

/// The characters that keep their glyph before the selector of a row.
#[tactic(auto, unfolding(crate::specs::Variations::default_characters))]
fn default_characters(table: &[u8], row: usize) -> &[u8]
    requires { row < 2 ^ 32 }
    ensures { result.now ≡ default_characters table.now row }
{
    match table_at_32(table, 13 + 11 * row) {
        Some(characters) => characters,
        None => &[],
    }
}

/// The characters that have another glyph before the selector of a row.
#[tactic(auto, unfolding(crate::specs::Variations::own_glyphs))]
fn own_glyphs(table: &[u8], row: usize) -> &[u8]
    requires { row < 2 ^ 32 }
    ensures { result.now ≡ own_glyphs table.now row }
{
    match table_at_32(table, 17 + 11 * row) {
        Some(characters) => characters,
        None => &[],
    }
}

/// How many rows of `size` bytes a table has that begins with their number: none where they do not all lie in it.
#[tactic(auto, unfolding(crate::specs::Variations::rows_declared))]
fn rows_declared(table: &[u8], size: usize) -> usize
    requires { size < 16 }
    ensures is { result ≡ rows_declared table.now size }
    ensures small { result < 2 ^ 32 }
{
    let count = count_32(table, 0);
    if 4 + size * count <= table.len() {
        count
    } else {
        0
    }
}

/// How many ranges there are.
#[tactic(auto, unfolding(crate::specs::Variations::range_count))]
fn range_count(characters: &[u8]) -> usize
    ensures is { result ≡ range_count characters.now }
    ensures small { result < 2 ^ 32 }
{
    rows_declared(characters, 4)
}

/// How many characters have another glyph.
#[tactic(auto, unfolding(crate::specs::Variations::mapped_count))]
fn mapped_count(characters: &[u8]) -> usize
    ensures is { result ≡ mapped_count characters.now }
    ensures small { result < 2 ^ 32 }
{
    rows_declared(characters, 5)
}

/// Whether a range holds the character.
#[tactic(auto, unfolding(crate::specs::Variations::in_ranges))]
fn in_ranges(ranges: &[u8], character: u32) -> bool
    ensures { result ≡ in_ranges ranges.now character }
{
    row_with(&Ranges(ranges), range_count(ranges), character).is_some()
}

/// The other glyph of a character.
#[tactic(auto, unfolding(crate::specs::Variations::mapped_glyph))]
fn mapped_glyph(own: &[u8], character: u32) -> Option<u16>
    ensures { result ≡ mapped_glyph own.now character }
{
    let row = row_with(&mappings(own), mapped_count(own), character)?;
    glyph_of_row(own, row)
}

/// The glyph of a row.
#[tactic(auto, using(crate::proofs::Outside::number_16_outside_row))]
fn glyph_of_row(own: &[u8], row: usize) -> Option<u16>
    ensures { result ≡ option_and_then some_glyph (number_16 own.now (7 + 5 * row)) }
{
    if row >= own.len() / 5 {
        return None;
    }
    let number = u16_at(own, 7 + 5 * row)?;
    some_glyph(u64::from(number))
}

/// The glyph of a character before the selector of a row.
#[tactic(auto, unfolding(crate::specs::Variations::variant_in_row))]
fn variant_in_row(table: &[u8], character: u32, row: usize) -> GlyphVariant
    requires { row < 2 ^ 32 }
    ensures { result ≡ variant_in_row table.now character row }
{
    if in_ranges(default_characters(table, row), character) {
        return GlyphVariant::UseDefault;
    }
    match mapped_glyph(own_glyphs(table, row), character) {
        Some(glyph) => GlyphVariant::Found(GlyphId(glyph)),
        None => GlyphVariant::NotFound,
    }
}

/// The glyph of a variation sequence.
#[tactic(auto, unfolding(crate::specs::Variations::glyph_variant))]
pub(crate) fn glyph_variant(table: &[u8], character: u32, selector: u32) -> GlyphVariant
    ensures { result ≡ glyph_variant table.now character selector }
{
    match row_with(&selectors(table), selector_count(table), selector) {
        Some(row) => variant_in_row(table, character, row),
        None => GlyphVariant::NotFound,
    }
}
