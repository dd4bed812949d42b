//! What tells at once of most glyphs that a coverage does not have them.

ghost use Rattle.std.specs.Prelude.{ℕ, ◌≡◌, ◌<◌, ◌≤◌, Some, is_some, true, unwrap_or};
ghost use Rattle.font_tables.specs.Bytes.{number_16};
ghost use Rattle.font_tables.specs.Coverage.{listed_index, ranged_index};
ghost use Rattle.font_tables.specs.Rows.{rows_within};
ghost use Rattle.glyph_digests.specs.Covered.{covered_index};

use font_tables::bytes::{part, u16_at};
use font_tables::coverage::Coverage;
use font_tables::rows::rows_within;

/// A summary of a set of glyphs. It may have glyphs that were never added, and has each glyph that was.
pub trait Summary: Sized {
    ghost use Rattle.std.specs.Prelude.{◌≡◌, ◌≤◌, ℕ, Bool, true};

    // Whether it may have a glyph.
    ghost has: { Self → ℕ → Bool };

    /// The summary of no glyph.
    fn none() -> Self;

    /// Adds a glyph.
    fn add_glyph(&mut self, glyph: u32)
        ensures added { has self.new glyph ≡ true }
        ensures kept { (other : ℕ) → has self.old other ≡ true → has self.new other ≡ true };

    /// Adds the glyphs from one to another, the last one too.
    fn add_range(&mut self, first: u32, last: u32)
        ensures added { (glyph : ℕ) → first ≤ glyph → glyph ≤ last → has self.new glyph ≡ true }
        ensures kept { (glyph : ℕ) → has self.old glyph ≡ true → has self.new glyph ≡ true };
}

/// The summary of the glyphs that a coverage covers.
#[inline]
pub fn summary_of<S: Summary>(coverage: &Coverage) -> S
    ensures { (glyph : ℕ) → is_some (covered_index coverage.now.table.now glyph) ≡ true → S.has result glyph ≡ true }
{
    let format = format_of(coverage.table);
    if format == 1 {
        of_list(coverage.table)
    } else if format == 2 {
        of_ranges(coverage.table)
    } else {
        S::none()
    }
}

/// The format of a table.
pub(crate) fn format_of(table: &[u8]) -> u16
    ensures { result ≡ unwrap_or (number_16 table.now 0) 0 }
{
    u16_at(table, 0).unwrap_or(0)
}

/// How many rows of this size the table has.
pub(crate) fn row_count(table: &[u8], size: usize) -> usize
    requires { 0 < size }
    ensures is { result ≡ rows_within table.now 4 size (unwrap_or (number_16 table.now 2) 0) }
    ensures few { result < 65536 }
{
    let declared = u16_at(table, 2).unwrap_or(0);
    rows_within(table, 4, size, usize::from(declared))
}

/// The summary of the glyphs of a coverage that lists them.
#[inline]
fn of_list<S: Summary>(table: &[u8]) -> S
    ensures { (glyph : ℕ) → is_some (listed_index table.now glyph) ≡ true → S.has result glyph ≡ true }
{
    let mut summary = S::none();
    let (glyphs, _) = part(table, 4, 2 * row_count(table, 2)).as_chunks::<2>();
    for glyph in glyphs {
        if let Some(glyph) = u16_at(glyph, 0) {
            summary.add_glyph(u32::from(glyph));
        }
    }
    summary
}

/// The summary of the glyphs of a coverage of ranges.
#[inline]
fn of_ranges<S: Summary>(table: &[u8]) -> S
    ensures { (glyph : ℕ) → is_some (ranged_index table.now glyph) ≡ true → S.has result glyph ≡ true }
{
    let mut summary = S::none();
    let (ranges, _) = part(table, 4, 6 * row_count(table, 6)).as_chunks::<6>();
    for range in ranges {
        add_row(&mut summary, range);
    }
    summary
}

/// Adds the glyphs of a range of a coverage.
#[inline]
fn add_row<S: Summary>(summary: &mut S, range: &[u8])
    ensures added { (first last : ℕ) → number_16 range.now 0 ≡ Some first → number_16 range.now 2 ≡ Some last
        → (glyph : ℕ) → first ≤ glyph → glyph ≤ last → S.has summary.new glyph ≡ true }
    ensures kept { (glyph : ℕ) → S.has summary.old glyph ≡ true → S.has summary.new glyph ≡ true }
{
    if let (Some(first), Some(last)) = (u16_at(range, 0), u16_at(range, 2)) {
        summary.add_range(u32::from(first), u32::from(last));
    }
}
