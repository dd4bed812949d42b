//! The tables that the passes of a shaper take.

use shaping_buffer::{CombiningClasses, Compositions, Decompositions};
use unicode_tables::UnicodeRows;

/// The tables over the rows of the Unicode Character Database.
#[derive(Drop)]
pub struct Tables<'a> {
    pub classes: CombiningClasses<'a>,
    pub decompositions: Decompositions<'a>,
    pub compositions: Compositions<'a>,
}

impl<'a> Tables<'a> {
    pub fn new(rows: &'a UnicodeRows) -> Self {
        Tables {
            classes: rows.classes(),
            decompositions: rows.decompositions(),
            compositions: rows.compositions(),
        }
    }
}
