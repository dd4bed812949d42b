//! Rows of a table, each with a last key, and the first row that reaches a key.

ghost use Rattle.std.specs.Prelude.{◌≡◌, ◌<◌, ◌≤◌, IsTrue, IfSome};
ghost use Rattle.font_tables.specs.Rows.{first_row, rows_within, Rises, AreThere};

use crate::bytes::u16_at;

/// So many rows are soon looked through.
pub(crate) const FEW_ROWS: u16 = 64;

/// So many are looked through as soon as by bisection, so that nobody asks whether they rise.
pub(crate) const SHORT: u16 = 16;

/// Rows of a font's table. A row reaches a key where its last key is not below it.
pub trait Rows {
    ghost use Rattle.std.specs.Prelude.{◌≡◌, ℕ, Option};

    // The last key of a row, by the row's number.
    ghost last_of: { Self → ℕ → Option ℕ };

    /// The last key of a row; `None` where the row lies outside of the table.
    fn last(&self, row: usize) -> Option<u32>
        ensures { result ≡ last_of self.now row };
}

/// Rows of `size` bytes each, of which the first has its last key, a number of 16 bits, at the byte `start`.
#[derive(Clone, Copy)]
pub struct Keys16<'a> {
    /// The table.
    pub table: &'a [u8],
    /// Where the last key of the first row stands.
    pub start: usize,
    /// How many bytes a row has.
    pub size: usize,
}

impl Rows for Keys16<'_> {
    ghost use Rattle.font_tables.specs.Bytes.{number_16};
    ghost use Rattle.std.specs.Prelude.{◌+◌, ◌*◌};

    ghost last_of = { λ keys row. number_16 keys.table.now (keys.start + keys.size * row) };

    #[tactic(auto, unfolding(crate::specs::Bytes::number_16))]
    fn last(&self, row: usize) -> Option<u32> {
        let at = self.size.checked_mul(row)?.checked_add(self.start)?;
        u16_at(self.table, at).map(u32::from)
    }
}

/// Numbers of 16 bits, each of which is the last key of its row.
#[derive(Clone, Copy)]
pub struct Numbers16<'a>(pub &'a [[u8; 2]]);

impl Rows for Numbers16<'_> {
    ghost use Rattle.font_tables.specs.Bytes.{number_16};
    ghost use Rattle.std.specs.Prelude.{slice_get, option_and_then};

    ghost last_of = { λ numbers row. option_and_then (λ number. number_16 number 0) (slice_get numbers.0.now row) };

    fn last(&self, row: usize) -> Option<u32> {
        u16_at(self.0.get(row)?, 0).map(u32::from)
    }
}

/// Whether the first `count` rows lie in the table, each behind those whose last keys are lower.
pub fn rises<R: Rows>(rows: &R, count: usize) -> bool
    ensures rise { IsTrue result → Rises (R.last_of rows.now) count }
    ensures seen { AreThere (R.last_of rows.now) count → Rises (R.last_of rows.now) count → IsTrue result }
{
    let mut before = 0;
    for row in 0..count {
        match rows.last(row) {
            Some(last) if before <= last => before = last,
            _ => return false,
        }
    }
    true
}

/// The first of `count` rows that reaches the key: by bisection where they rise, and else by a walk over them.
pub fn first_row<R: Rows>(rows: &R, count: usize, key: u32, are_rising: bool) -> Option<usize>
    requires { IsTrue are_rising → Rises (R.last_of rows.now) count }
    ensures is { result ≡ first_row (R.last_of rows.now) key count }
    ensures within { IfSome result (λ row. row < count) }
{
    if are_rising {
        bisect(rows, count, key)
    } else {
        walk(rows, count, key)
    }
}

/// The first of these rows that reaches the key, one after the other.
fn walk<R: Rows>(rows: &R, count: usize, key: u32) -> Option<usize>
    ensures is { result ≡ first_row (R.last_of rows.now) key count }
    ensures within { IfSome result (λ row. row < count) }
{
    for row in 0..count {
        if reaches(rows, row, key) {
            return Some(row);
        }
    }
    None
}

/// The first of these rows that reaches the key, by bisection.
fn bisect<R: Rows>(rows: &R, count: usize, key: u32) -> Option<usize>
    requires { Rises (R.last_of rows.now) count }
    ensures is { result ≡ first_row (R.last_of rows.now) key count }
    ensures within { IfSome result (λ row. row < count) }
{
    let mut low = 0;
    let mut high = count;
    while low < high {
        let middle = low + (high - low) / 2;
        if reaches(rows, middle, key) {
            high = middle;
        } else {
            low = middle + 1;
        }
    }
    if low < count { Some(low) } else { None }
}

/// Whether a row reaches the key.
fn reaches<R: Rows>(rows: &R, row: usize, key: u32) -> bool
    ensures { result ≡ Rattle.font_tables.specs.Rows.reaches (R.last_of rows.now) key row }
{
    match rows.last(row) {
        Some(last) => key <= last,
        None => false,
    }
}

/// How many of the rows that a table declares lie in it whole: rows of `size` bytes from the byte at `start` on.
pub fn rows_within(table: &[u8], start: usize, size: usize, declared: usize) -> usize
    requires { 0 < size }
    ensures { result ≡ rows_within table.now start size declared }
{
    declared.min(table.len().saturating_sub(start) / size)
}
