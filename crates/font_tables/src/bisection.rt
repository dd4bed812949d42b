//! The row that holds a key, by bisection as HarfBuzz does it.

ghost use Rattle.std.specs.Prelude.{◌≡◌, ◌<◌, ℕ, None, Some, IfSome};
ghost use Rattle.std.specs.declared.cmp.Ordering.TheVariants.{Equal};
ghost use Rattle.font_tables.specs.Bisection.{AreInOrder, beside_key, row_with};

use crate::rows::{Keys16, Rows};
use std::cmp::Ordering;

/// Rows of a font's table, each for a key or for all keys from a first one to a last one.
pub trait KeyedRows {
    ghost use Rattle.std.specs.Prelude.{◌≡◌, ℕ, Option};
    ghost use Rattle.std.specs.declared.cmp.Ordering.{Ordering as Order};

    // Where a key lies from each row.
    ghost beside_of: { Self → ℕ → ℕ → Option Order };

    /// Where a key lies from a row: before it, in it or behind it; `None` where the row lies outside of the table.
    fn beside(&self, key: u32, row: usize) -> Option<Ordering>
        ensures { result ≡ beside_of self.now key row };
}

/// Where a key lies from a row that has one key.
pub fn beside_key(own: Option<u32>, key: u32) -> Option<Ordering>
    ensures { result ≡ beside_key own key }
{
    let own = own?;
    Some(if key < own {
        Ordering::Less
    } else if own < key {
        Ordering::Greater
    } else {
        Ordering::Equal
    })
}

impl KeyedRows for Keys16<'_> {
    ghost use Rattle.std.specs.Prelude.{◌+◌, ◌*◌};
    ghost use Rattle.font_tables.specs.Bytes.{number_16};
    ghost use Rattle.font_tables.specs.Bisection.{beside_key};

    ghost beside_of = { λ keys key row. beside_key (number_16 keys.table.now (keys.start + keys.size * row)) key };

    fn beside(&self, key: u32, row: usize) -> Option<Ordering> {
        beside_key(self.last(row), key)
    }
}

/// The row that holds the key among the first `count` rows. It is found by bisection also where rows are not in order, as HarfBuzz
/// does it: then it may be missed, and of several that hold the key it may be any.
#[tactic(auto, unfolding(crate::specs::Bisection::row_with))]
pub fn row_with<R: KeyedRows>(rows: &R, count: usize, key: u32) -> Option<usize>
    ensures is { result ≡ row_with (R.beside_of rows.now key) count }
    ensures within { IfSome result (λ row. row < count) }
    ensures holds { IfSome result (λ row. R.beside_of rows.now key row ≡ Some Equal) }
    ensures all { AreInOrder (R.beside_of rows.now key) count → result ≡ None
        → (row : ℕ) → row < count → R.beside_of rows.now key row ≡ Some Equal → ⊥ }
{
    let mut low = 0;
    let mut high = count;
    while low < high {
        let middle = low + (high - 1 - low) / 2;
        match rows.beside(key, middle)? {
            Ordering::Less => high = middle,
            Ordering::Equal => return Some(middle),
            Ordering::Greater => low = middle + 1,
        }
    }
    None
}
