//! The rows of the registry.
ghost use Rattle.std.specs.Prelude.{◌≡◌, ◌<◌, ◌≤◌, ◌/◌, [], true, length, get_or, drop, option_map};
ghost use Rattle.std.specs.Option.{option_copied};
ghost use Rattle.std.specs.Ordering.{nat_cmp};
ghost use Rattle.std.specs.Cmp.Lexicographic.{slice_cmp};
ghost use Rattle.rb_text.specs.Tags.{own_tags};
ghost use Rattle.ot_tags.specs.Registry.{code_of, codes_rise, registered_tags, registry, row_of, rows_of};
ghost use Rattle.ot_tags.specs.Registry.{tag_of_cell, tags_of_code};

use crate::language_rows::LANGUAGE_ROWS;
use crate::tags_of_language::LanguageTags;
use rb_text::{Tag, TagExt};
use std::cmp::Ordering;

/// How many bytes a row has: a code of three, three tags, and the end of the line.
const ROW_LEN: usize = 16;

/// The tags of a code of two or three letters, of which there may be none; `None` where the registry does not have it.
#[tactic(auto, unfolding(crate::specs::Registry::registered_tags))]
pub(crate) fn registered_tags(code: &[u8]) -> Option<LanguageTags>
    ensures { result ≡ registered_tags code.now }
{
    match *code {
        [a, b] => tags_of_code(&[a, b, b'-']),
        [a, b, c] => tags_of_code(&[a, b, c]),
        _ => None,
    }
}

/// The tags in the row of a code.
fn tags_of_code(code: &[u8; 3]) -> Option<LanguageTags>
    ensures { result ≡ tags_of_code code.now }
{
    let row = row_of(registry(), code)?;
    Some(LanguageTags {
        first: tag_at(row, 3),
        second: tag_at(row, 7),
        third: tag_at(row, 11),
    })
}

/// The rows of the registry, one after the other.
fn registry() -> &'static [u8]
    ensures { rows_of result.now ≡ registry }
{
    LANGUAGE_ROWS.as_bytes()
}

/// The row of a code, found by bisection of rows whose codes rise.
fn row_of<'a>(rows: &'a [u8], code: &[u8; 3]) -> Option<&'a [u8]>
    requires { codes_rise (rows_of rows.now) ≡ true }
    ensures { option_copied result ≡ row_of code.now (rows_of rows.now) }
{
    let mut low = 0;
    let mut high = rows.len() / ROW_LEN;
    while low < high {
        let middle = low + (high - low) / 2;
        let row = row_at(rows, middle);
        match order(row, code) {
            Ordering::Less => low = middle + 1,
            Ordering::Equal => return Some(row),
            Ordering::Greater => high = middle,
        }
    }
    None
}

/// The row of this number.
fn row_at(rows: &[u8], number: usize) -> &[u8]
    requires { number < length rows.now / 16 }
    ensures value { result.now ≡ get_or (rows_of rows.now) number [] }
    ensures len { length result.now ≡ 16 }
{
    &rows[ROW_LEN * number..ROW_LEN * number + ROW_LEN]
}

/// How the code of a row is to a code.
fn order(row: &[u8], code: &[u8; 3]) -> Ordering
    requires { 3 ≤ length row.now }
    ensures { result ≡ slice_cmp nat_cmp (code_of row.now) code.now }
{
    row[..3].cmp(&code[..])
}

/// The tag at a place of a row; `None` where it begins with `-`.
#[tactic(auto, unfolding(crate::specs::Registry::tag_of_cell))]
fn tag_at(row: &[u8], at: usize) -> Option<Tag>
    ensures { option_map (λ tag. tag.0) result ≡ tag_of_cell (drop at row.now) }
{
    match *row.get(at..)? {
        [a, b, c, d, ..] if a != b'-' => Some(Tag::from_bytes(&[a, b, c, d])),
        _ => None,
    }
}

/// A subtag of three letters is its own tag, in capitals.
pub(crate) fn own_tag(subtag: &[u8]) -> LanguageTags
    ensures { result ≡ own_tags subtag.now }
{
    if subtag.len() != 3 {
        return LanguageTags::none();
    }
    LanguageTags {
        first: Some(Tag::from_bytes_lossy(subtag).to_uppercase()),
        second: None,
        third: None,
    }
}
