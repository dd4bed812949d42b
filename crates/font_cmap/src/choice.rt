//! Which subtable of `cmap` is used (OpenType specification, `cmap`, "Encoding records"), as HarfBuzz chooses it.

ghost use Rattle.std.specs.Prelude.{◌≡◌, ◌<◌, IfSome};
ghost use Rattle.std.specs.Option.{option_copied};
ghost use Rattle.font_tables.specs.Rows.{first_below};
ghost use Rattle.font_cmap.specs.Choice.{bytes_declared, within_length, whole_subtable, record_count};
ghost use Rattle.font_cmap.specs.Choice.{is_record_of, subtable_of, first_subtable, symbol_encoding};
ghost use Rattle.font_cmap.specs.Choice.{chosen_subtable, chosen_encoding, variation_subtable};

use crate::codes::Encoding;
use crate::counts::{count_16, count_32};
use font_tables::bytes::{part, table_at_32, u16_at};

/// How many bytes a subtable of a format has at least: its numbers, and the rows that they declare.
#[tactic(auto, unfolding(crate::specs::Choice::bytes_declared))]
fn bytes_declared(table: &[u8], format: u16) -> usize
    ensures { result ≡ bytes_declared table.now format }
{
    match format {
        0 => 262,
        4 => 16 + 4 * count_16(table, 6),
        6 => 10 + 2 * count_16(table, 8),
        10 => 20 + 2 * count_32(table, 16),
        12 | 13 => 16 + 12 * count_32(table, 12),
        14 => 10 + 11 * count_32(table, 6),
        _ => 2,
    }
}

/// A subtable of format 4 up to its length, and any other as it is.
#[tactic(auto, unfolding(crate::specs::Choice::within_length))]
fn within_length(table: &[u8], format: u16) -> &[u8]
    ensures { result.now ≡ within_length table.now format }
{
    if format == 4 {
        part(table, 0, count_16(table, 2))
    } else {
        table
    }
}

/// The subtable that bytes begin with, unless it is cut short.
#[tactic(auto, unfolding(crate::specs::Choice::whole_subtable))]
fn whole_subtable(table: &[u8]) -> Option<&[u8]>
    ensures { option_copied result ≡ whole_subtable table.now }
{
    let format = u16_at(table, 0)?;
    let subtable = within_length(table, format);
    if bytes_declared(subtable, format) <= subtable.len() {
        Some(subtable)
    } else {
        None
    }
}

/// How many encoding records there are.
#[tactic(auto, unfolding(crate::specs::Choice::record_count))]
fn record_count(cmap: &[u8]) -> usize
    ensures is { result ≡ record_count cmap.now }
    ensures small { result < 65536 }
{
    let count = count_16(cmap, 2);
    if u16_at(cmap, 0) == Some(0) && 4 + 8 * count <= cmap.len() {
        count
    } else {
        0
    }
}

/// Whether a record is of this platform and, if one is asked for, of this encoding.
#[tactic(auto, unfolding(crate::specs::Choice::is_record_of))]
fn is_record_of(cmap: &[u8], platform: u16, encoding: Option<u16>, row: usize) -> bool
    requires { row < 65536 }
    ensures { result ≡ is_record_of cmap.now platform encoding row }
{
    if u16_at(cmap, 4 + 8 * row) != Some(platform) {
        return false;
    }
    match encoding {
        Some(encoding) => u16_at(cmap, 6 + 8 * row) == Some(encoding),
        None => true,
    }
}

/// The first record of a platform and an encoding.
fn record_of(cmap: &[u8], platform: u16, encoding: Option<u16>) -> Option<usize>
    ensures is { result ≡ first_below (is_record_of cmap.now platform encoding) (record_count cmap.now) }
    ensures small { IfSome result (λ row. row < 65536) }
{
    for row in 0..record_count(cmap) {
        if is_record_of(cmap, platform, encoding, row) {
            return Some(row);
        }
    }
    None
}

/// The subtable of the first record of a platform and an encoding.
#[tactic(auto, unfolding(crate::specs::Choice::subtable_of))]
pub(crate) fn subtable_of(cmap: &[u8], platform: u16, encoding: Option<u16>) -> Option<&[u8]>
    ensures { option_copied result ≡ subtable_of cmap.now platform encoding }
{
    let row = record_of(cmap, platform, encoding)?;
    let subtable = table_at_32(cmap, 8 + 8 * row)?;
    whole_subtable(subtable)
}

/// The first subtable that there is of these platforms and encodings.
fn first_subtable<'a>(cmap: &'a [u8], encodings: &[(u16, u16)]) -> Option<&'a [u8]>
    ensures { option_copied result ≡ first_subtable cmap.now encodings.now }
{
    for encoding in encodings {
        if let Some(subtable) = subtable_of(cmap, encoding.0, Some(encoding.1)) {
            return Some(subtable);
        }
    }
    None
}

/// The encodings of Unicode, those of all its characters before those of the first 65,536.
static UNICODE_ENCODINGS: [(u16, u16); 8] = [
    (3, 10),
    (0, 6),
    (0, 4),
    (3, 1),
    (0, 3),
    (0, 2),
    (0, 1),
    (0, 0),
];

/// The subtable that is used, and what its codes stand for.
#[derive(Clone, Copy)]
pub(crate) struct Choice<'a> {
    pub(crate) subtable: &'a [u8],
    pub(crate) encoding: Encoding,
}

/// What the codes of a subtable of symbols stand for, by the font page of the table `OS/2`.
#[tactic(auto, unfolding(crate::specs::Choice::symbol_encoding))]
fn symbol_encoding(font_page: u16) -> Encoding
    ensures { result ≡ symbol_encoding font_page }
{
    match font_page {
        0 => Encoding::Symbol,
        0xB200 => Encoding::SimplifiedArabic,
        0xB300 => Encoding::TraditionalArabic,
        _ => Encoding::Unicode,
    }
}

/// The subtable that is used, and what its codes stand for.
#[tactic(auto, unfolding(crate::specs::Choice::chosen_subtable, crate::specs::Choice::chosen_encoding))]
pub(crate) fn choose(cmap: &[u8], font_page: u16) -> Choice<'_>
    ensures subtable { result.subtable.now ≡ chosen_subtable cmap.now }
    ensures encoding { result.encoding ≡ chosen_encoding cmap.now font_page }
{
    let (subtable, encoding) = if let Some(subtable) = subtable_of(cmap, 3, Some(0)) {
        (subtable, symbol_encoding(font_page))
    } else if let Some(subtable) = first_subtable(cmap, &UNICODE_ENCODINGS) {
        (subtable, Encoding::Unicode)
    } else if let Some(subtable) = subtable_of(cmap, 1, Some(0)) {
        (subtable, Encoding::MacintoshRoman)
    } else if let Some(subtable) = subtable_of(cmap, 1, None) {
        (subtable, Encoding::Macintosh)
    } else {
        (&[][..], Encoding::Macintosh)
    };
    Choice { subtable, encoding }
}

/// The subtable of variation sequences, which is empty where there is none.
#[tactic(auto, unfolding(crate::specs::Choice::variation_subtable))]
pub(crate) fn variation_subtable(cmap: &[u8]) -> &[u8]
    ensures { result.now ≡ variation_subtable cmap.now }
{
    match subtable_of(cmap, 0, Some(5)) {
        Some(subtable) if u16_at(subtable, 0) == Some(14) => subtable,
        _ => &[],
    }
}
