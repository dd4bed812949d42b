//! The row that holds a code, and how many codes behind it have the same row.

ghost use Rattle.std.specs.Prelude.{◌≡◌, ◌≤◌, ℕ, IfSome};
ghost use Rattle.font_tables.specs.Bisection.{row_with};

use std::cmp::Ordering;

/// How many codes have their glyphs found at once: the characters of the block Basic Latin.
pub(crate) const FIRST_COUNT: usize = 128;

/// Where a code lies from a row, and up to which code all codes lie there.
#[derive(Clone, Copy)]
pub(crate) struct Beside {
    pub(crate) order: Option<Ordering>,
    pub(crate) last: u32,
}

/// Rows that hold codes from a first one to a last one.
pub(crate) trait CodeRows {
    ghost use Rattle.std.specs.Prelude.{◌≡◌, ◌≤◌, ℕ, Option};
    ghost use Rattle.std.specs.declared.cmp.Ordering.{Ordering as Order};

    // Where a code lies from each row.
    ghost place_of: { Self → ℕ → ℕ → Option Order };

    /// Where a code lies from a row: before it, in it or behind it; `None` where the row lies outside of the table.
    fn beside_run(&self, code: u32, row: u32) -> Beside
        ensures order { result.order ≡ place_of self.now code row }
        ensures goes { code ≤ result.last }
        ensures alike { (other : ℕ) → code ≤ other → other ≤ result.last → place_of self.now other row ≡ place_of self.now code row };
}

/// The row that codes have, from one on up to `last`.
#[derive(Clone, Copy)]
pub(crate) struct RowRun {
    pub(crate) row: Option<u32>,
    pub(crate) last: u32,
}

/// The row that holds a code among the first `count` rows, as bisection finds it, and the last code for which it goes the same way.
#[inline]
#[tactic(auto, unfolding(font_tables::specs::Bisection::row_with))]
pub(crate) fn row_run<R: CodeRows>(rows: &R, count: u32, code: u32) -> RowRun
    ensures goes { code ≤ result.last }
    ensures alike { (other : ℕ) → code ≤ other → other ≤ result.last → row_with (R.place_of rows.now other) count ≡ result.row }
{
    let mut low = 0;
    let mut high = count;
    let mut last = u32::MAX;
    while low < high {
        let middle = low + (high - 1 - low) / 2;
        let beside = rows.beside_run(code, middle);
        last = last.min(beside.last);
        match beside.order {
            None => return RowRun { row: None, last },
            Some(Ordering::Less) => high = middle,
            Some(Ordering::Equal) => {
                return RowRun {
                    row: Some(middle),
                    last,
                };
            }
            Some(Ordering::Greater) => low = middle + 1,
        }
    }
    RowRun { row: None, last }
}
