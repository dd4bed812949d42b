//! Sequences of vowels that look like another vowel (OpenType, "Creating and supporting OpenType fonts for the Universal Shaping
//! Engine", "Independent vowels that are not to be used with vowel signs").

mod rows;

use rb_glyph::row_search::row_at;
use rows::{FIRSTS, SEQUENCES};

/// The third character of the sequence that begins with these two: `Some(None)` where the two are all of it, `None` where no sequence
/// begins with them.
pub fn third_vowel(first: char, second: u32) -> Option<Option<char>> {
    if FIRSTS >> (first as u32 % 64) & 1 == 0 {
        return None;
    }
    row_at(
        &SEQUENCES,
        |row| (row.0 as u32, row.1 as u32).cmp(&(first as u32, second)),
    )
    .map(|row| row.2)
}
