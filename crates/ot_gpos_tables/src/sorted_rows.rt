//! Rows of a table by keys of 32 bits.

use font_tables::bisection::{KeyedRows, beside_key};
use font_tables::bytes::u32_at;
use std::cmp::Ordering;

/// Rows of `size` bytes each, of which the first has its key, a number of 32 bits, at the byte `start`.
#[derive(Clone, Copy)]
pub struct Keys32<'a> {
    /// The table.
    pub table: &'a [u8],
    /// Where the key of the first row stands.
    pub start: usize,
    /// How many bytes a row has.
    pub size: usize,
}

impl Keys32<'_> {
    ghost use Rattle.std.specs.Prelude.{◌≡◌, ◌+◌, ◌*◌};
    ghost use Rattle.font_tables.specs.Bytes.{number_32};

    /// The key of a row; `None` where the row lies outside of the table.
    #[tactic(auto, unfolding(font_tables::specs::Bytes::number_32))]
    fn key(&self, row: usize) -> Option<u32>
        ensures { result ≡ number_32 self.now.table.now (self.now.start + self.now.size * row) }
    {
        let at = self.start.saturating_add(self.size.saturating_mul(row));
        if at < self.table.len() {
            u32_at(self.table, at)
        } else {
            None
        }
    }
}

impl KeyedRows for Keys32<'_> {
    ghost use Rattle.std.specs.Prelude.{◌+◌, ◌*◌};
    ghost use Rattle.font_tables.specs.Bytes.{number_32};
    ghost use Rattle.font_tables.specs.Bisection.{beside_key};

    ghost beside_of = { λ keys key row. beside_key (number_32 keys.table.now (keys.start + keys.size * row)) key };

    fn beside(&self, key: u32, row: usize) -> Option<Ordering> {
        beside_key(self.key(row), key)
    }
}
