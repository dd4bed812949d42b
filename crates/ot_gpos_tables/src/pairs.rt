//! Adjustments of single glyphs and of pairs: subtables of the kinds 1 and 2 of `GPOS` (OpenType specification, "GPOS - Glyph
//! Positioning Table", "Single adjustment positioning", "Pair adjustment positioning").

ghost use Rattle.std.specs.Prelude.{◌≡◌, ◌<◌, ◌≤◌, ◌+◌, ◌*◌, ◌^◌, ℕ, Some, None, length, option_map, IfSome};
ghost use Rattle.std.specs.Option.{option_copied};
ghost use Rattle.std.specs.declared.cmp.Ordering.TheVariants.{Equal};
ghost use Rattle.font_tables.specs.Bisection.{AreInOrder};
ghost use Rattle.ot_gpos_tables.specs.Pairs.{number, single_values, pair_at, row_size, row_count, second_of, kerned, pair_set};
ghost use Rattle.ot_gpos_tables.specs.Pairs.{beside_second, classed_pair, is_kerning, listed_pair, second_row};

use crate::values::{ValueRecord, record_size};
use font_tables::bisection::row_with;
use font_tables::bytes::{i16_at, table_at_16, u16_at};
use font_tables::rows::{Keys16, rows_within};

/// The format of a record that has the advance to the right, and nothing else.
const ADVANCE_ACROSS: u16 = 4;

/// By how much the glyphs of a pair are moved.
#[derive(Clone, Copy)]
pub struct PairValues {
    /// The first.
    pub first: ValueRecord,
    /// The second.
    pub second: ValueRecord,
}

/// The number at a place, and 0 outside of the table.
#[inline]
fn number(table: &[u8], at: usize) -> u16
    ensures { result ≡ number table.now at }
{
    u16_at(table, at).unwrap_or(0)
}

/// The record of a single glyph, by its coverage index; `None` where the subtable does not have it, or is of another format
/// than 1 and 2.
#[tactic(auto, unfolding(crate::specs::Pairs::single_values))]
pub fn single_values(subtable: &[u8], index: u32) -> Option<ValueRecord>
    ensures { result ≡ single_values subtable.now index }
{
    let format = number(subtable, 4);
    let kind = number(subtable, 0);
    if kind == 1 {
        ValueRecord::read(subtable, format, 6)
    } else if kind == 2 && index < u32::from(number(subtable, 6)) {
        ValueRecord::read(subtable, format, 8 + index as usize * record_size(format))
    } else {
        None
    }
}

/// The formats of the records of both glyphs.
#[inline]
pub fn pair_formats(subtable: &[u8]) -> (u16, u16)
    ensures first { result.0 ≡ number subtable.now 4 }
    ensures second { result.1 ≡ number subtable.now 6 }
{
    (number(subtable, 4), number(subtable, 6))
}

/// The set of the pairs of a first glyph, by its coverage index.
pub fn pair_set(subtable: &[u8], index: u32) -> Option<&[u8]>
    ensures { option_copied result ≡ pair_set subtable.now index }
{
    if index < u32::from(number(subtable, 8)) {
        table_at_16(subtable, 10 + 2 * index as usize)
    } else {
        None
    }
}

/// The records of the pair with this second glyph in a set of pairs: those of its row, which is found by bisection, as the rows
/// rise by their second glyphs. `None` where there is no row.
#[tactic(auto, unfolding(crate::specs::Pairs::listed_pair))]
pub fn listed_pair(set: &[u8], formats: (u16, u16), second: u16) -> Option<PairValues>
    ensures { result ≡ listed_pair set.now formats.0 formats.1 second }
{
    let row = second_row(set, row_size(formats), second)?;
    pair_at(set, formats, 4 + row_size(formats) * row)
}

/// How many bytes a row of pairs has.
fn row_size(formats: (u16, u16)) -> usize
    ensures is { result ≡ row_size formats.0 formats.1 }
    ensures few { result ≤ 66 }
    ensures some { 2 ≤ result }
{
    2 + record_size(formats.0) + record_size(formats.1)
}

/// The row of a second glyph in a set of pairs, whose rows have `size` bytes. Where the rows rise by their second glyphs, none
/// is missed.
pub fn second_row(set: &[u8], size: usize, second: u16) -> Option<usize>
    requires some { 0 < size }
    ensures is { result ≡ second_row set.now size second }
    ensures within { IfSome result (λ row. row < 65536) }
    ensures all { let count = row_count set.now size in
        AreInOrder (beside_second set.now size second) count → result ≡ None
        → (row : ℕ) → row < count → beside_second set.now size second row ≡ Some Equal → ⊥ }
{
    let rows = Keys16 {
        table: set,
        start: 2,
        size,
    };
    let count = rows_within(set, 2, size, usize::from(number(set, 0)));
    row_with(&rows, count, u32::from(second))
}

/// The records of both glyphs at a place.
#[tactic(auto, unfolding(crate::specs::Pairs::pair_at))]
fn pair_at(table: &[u8], formats: (u16, u16), at: usize) -> Option<PairValues>
    requires { at < 2 ^ 60 }
    ensures { result ≡ pair_at table.now formats.0 formats.1 at }
{
    let first = ValueRecord::read(table, formats.0, at)?;
    let second = ValueRecord::read(table, formats.1, at + record_size(formats.0))?;
    Some(PairValues { first, second })
}

/// The records of a pair of classes. Class 0 has records as any other class has. `None` where the subtable does not have them.
#[tactic(auto, unfolding(crate::specs::Pairs::classed_pair))]
pub fn classed_pair(subtable: &[u8], first: u16, second: u16) -> Option<PairValues>
    ensures { result ≡ classed_pair subtable.now first second }
{
    let formats = (number(subtable, 4), number(subtable, 6));
    let seconds = number(subtable, 14);
    if first < number(subtable, 12) && second < seconds {
        let size = record_size(formats.0) + record_size(formats.1);
        let place = usize::from(first) * usize::from(seconds) + usize::from(second);
        pair_at(subtable, formats, 16 + place * size)
    } else {
        None
    }
}

/// Whether pairs have the advance of the first glyph to the right, and nothing else, as kerning has.
#[inline]
pub fn is_kerning(subtable: &[u8]) -> bool
    ensures { result ≡ is_kerning subtable.now }
{
    number(subtable, 4) == ADVANCE_ACROSS && number(subtable, 6) == 0
}

/// The advance of a pair of classes, as `classed_pair` has it where pairs have nothing else.
#[inline]
#[tactic(auto, using(crate::proofs::PairLemmas::classed_pair_kerned))]
pub fn classed_advance(subtable: &[u8], first: u16, second: u16) -> Option<i16>
    ensures { number subtable.now 4 ≡ 4 → number subtable.now 6 ≡ 0
        → option_map kerned result ≡ classed_pair subtable.now first second }
{
    let seconds = number(subtable, 14);
    if first < number(subtable, 12) && second < seconds {
        let row = usize::from(first) * usize::from(seconds);
        i16_at(subtable, 16 + 2 * (row + usize::from(second)))
    } else {
        None
    }
}

/// The advance of the pair with this second glyph in a set of pairs, as `listed_pair` has it where pairs have nothing else.
#[inline]
#[tactic(auto, using(crate::proofs::PairLemmas::listed_pair_kerned))]
pub fn listed_advance(set: &[u8], second: u16) -> Option<i16>
    ensures { option_map kerned result ≡ listed_pair set.now 4 0 second }
{
    let row = second_row(set, 4, second)?;
    i16_at(set, 4 + 4 * row)
}
