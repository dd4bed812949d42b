//! Searches of sorted rows, by bisection.
ghost use Rattle.std.specs.Prelude.{◌≡◌, ◌==◌, ℕ, nat_lt, Bool, IsTrue, Option};
ghost use Rattle.std.specs.List.{find};
ghost use Rattle.std.specs.Option.{option_copied};
ghost use Rattle.std.specs.Ordering.{is_eq};
ghost use Rattle.std.specs.Fn.{ComputesOnPairs, ComputesKey};
ghost use Rattle.std.specs.declared.cmp.Ordering.{Ordering as Order};
ghost use Rattle.rb_glyph.specs.Rows.{rise, keys_rise, value_of, are_apart, holds};
ghost use Rattle.rb_glyph.specs.Search.{IsSearchable, range_order};
ghost use Rattle.rb_glyph.specs.Tables.{pairs_rise, composition_of};

use std::cmp::Ordering;

/// Whether each row is below the next.
pub fn rises<R, F: FnMut(&R, &R) -> bool>(rows: &[R], below: F) -> bool
    requires { F.IsAlwaysCallable below }
    ensures { (test : R → R → Bool) → ComputesOnPairs F.FnMut test below
        → result ≡ rise test rows.now }
{
    rows.is_sorted_by(below)
}

/// The row that `order` finds equal to what is asked, by bisection.
pub fn row_at<R, F: FnMut(&R) -> Ordering>(rows: &[R], order: F) -> Option<&R>
    requires { F.IsAlwaysCallable order }
    ensures { (key : R → Order) → ComputesKey F.FnMut key order → IsSearchable key rows.now
        → option_copied result ≡ find (λ row. is_eq (key row)) rows.now }
{
    match rows.binary_search_by(order) {
        Ok(at) => Some(&rows[at]),
        Err(_) => None,
    }
}

/// The row whose key is the character, by bisection of rows whose keys rise.
pub fn row_of<R, F: FnMut(&R) -> char>(rows: &[R], c: char, key: F) -> Option<&R>
    requires { F.IsAlwaysCallable key }
    ensures { (key_of : R → ℕ) → ComputesKey F.FnMut key_of key
        → IsTrue (rise (λ a b. nat_lt (key_of a) (key_of b)) rows.now)
        → option_copied result ≡ find (λ row. key_of row == c) rows.now }
{
    match rows.binary_search_by_key(&c, key) {
        Ok(at) => Some(&rows[at]),
        Err(_) => None,
    }
}

/// What the row of the character holds, where the rows are pairs.
pub fn value_of<V: Copy>(rows: &[(char, V)], c: char) -> Option<V>
    requires { IsTrue (keys_rise rows.now) }
    ensures { result ≡ value_of c rows.now }
{
    row_of(rows, c, |row| row.0).map(|row| row.1)
}

/// What the row of the pair holds, where each row is a pair of characters and a character.
pub fn value_of_pair(rows: &[((char, char), char)], a: char, b: char) -> Option<char>
    requires { IsTrue (pairs_rise rows.now) }
    ensures { result ≡ composition_of a b rows.now }
{
    row_at(rows, |row| row.0.cmp(&(a, b))).map(|row| row.1)
}

/// How a range, from its first number to its last, is to a number: `Less` before it, `Greater` behind it, `Equal` where it
/// holds it.
#[inline]
pub fn range_order(first: u32, last: u32, c: u32) -> Ordering
    ensures { result ≡ range_order c (first, last) }
{
    if c < first {
        Ordering::Greater
    } else if last < c {
        Ordering::Less
    } else {
        Ordering::Equal
    }
}

/// Whether one of the ranges, each from its first character to its last, holds the character.
pub fn holds(ranges: &[(char, char)], c: char) -> bool
    requires { IsTrue (are_apart ranges.now) }
    ensures { result ≡ holds c ranges.now }
{
    row_at(
        ranges,
        |range| range_order(range.0 as u32, range.1 as u32, c as u32),
    )
    .is_some()
}
