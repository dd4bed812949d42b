//! Coverages that were read, by their places in a table of lookups: many lookups share one.

ghost use Rattle.std.specs.Prelude.{ℕ, ◌≡◌, true, is_some};
ghost use Rattle.glyph_digests.specs.Digest.{HasAll};
ghost use Rattle.glyph_digests.specs.FirstGlyphs.{may_have_first};
ghost use Rattle.glyph_digests.specs.Covered.{covered_index};

use crate::reading::count_at;
use crate::subtable::Subtable;
use font_tables::bytes::u16_at;
use font_tables::coverage::Coverage;
use glyph_digests::first_glyphs::{Summaries, summaries_of};
use std::alloc::AllocError;

/// So many coverages are remembered at a time, or fewer.
const MOST: usize = 128;

/// The golden ratio less 1, as a share of 2 to the 64.
const GOLDEN_RATIO: usize = 0x9E37_79B9_7F4A_7C15;

/// A coverage, with both summaries of its glyphs.
#[derive(Clone, Copy)]
pub(crate) struct Summed<'a> {
    /// The coverage.
    pub(crate) coverage: Coverage<'a>,
    /// The summaries of the glyphs that it covers.
    pub(crate) summaries: Summaries,
    ghost digests: { HasAll (λ glyph. is_some (covered_index coverage.table.now glyph) ≡ true) summaries.digest },
    ghost firsts: { (glyph : ℕ) → is_some (covered_index coverage.table.now glyph) ≡ true
        → may_have_first summaries.firsts glyph ≡ true },
}

impl<'a> Summed<'a> {
    /// A coverage, and what sums it up.
    #[inline]
    fn new(coverage: Coverage<'a>) -> Self {
        Summed {
            coverage,
            summaries: summaries_of(&coverage),
        }
    }

    /// The coverage of a subtable, and what sums it up.
    fn of_subtable(subtable: &Subtable<'a>) -> Self {
        Summed {
            coverage: subtable.coverage,
            summaries: Summaries {
                digest: subtable.digest,
                firsts: subtable.firsts,
            },
        }
    }

    /// A coverage that covers nothing.
    #[inline(never)]
    pub(crate) fn none() -> Self {
        Summed::new(Coverage::new(&[]))
    }
}

/// The coverage in these bytes, or one that covers nothing where it is slow to ask.
#[inline]
pub(crate) fn quick_coverage(table: &[u8]) -> Coverage<'_> {
    let coverage = Coverage::new(table);
    if coverage.is_quick() {
        coverage
    } else {
        Coverage::new(&[])
    }
}

/// A coverage that was read.
#[derive(Clone, Copy)]
pub(crate) struct Known<'a> {
    /// How many bytes the table of lookups has from its place on.
    len: usize,
    /// How many bytes it has itself.
    pub(crate) size: usize,
    pub(crate) coverage: Coverage<'a>,
    /// The number of a subtable that has the coverage with its summaries, or one past all of them.
    subtable: usize,
}

impl<'a> Known<'a> {
    /// The coverage in these bytes.
    fn read(table: &'a [u8]) -> Self {
        Known {
            len: table.len(),
            size: size_of(table),
            coverage: quick_coverage(table),
            subtable: usize::MAX,
        }
    }
}

/// How many bytes the coverage in these bytes has.
pub(crate) fn size_of(table: &[u8]) -> usize {
    let size = if u16_at(table, 0) == Some(1) { 2 } else { 6 };
    4 + size * count_at(table, 2)
}

/// Makes room for the coverages of so many subtables to be remembered.
pub(crate) fn make_room(known: &mut Vec<Known>, subtables: usize) -> Result<(), AllocError> {
    let count = if subtables < 32 {
        16
    } else if subtables < 64 {
        32
    } else {
        MOST
    };
    known.resize(count, Known::read(&[]))
}

/// Where a coverage is remembered, the number of slots being a power of two. Each stands in the bytes from its place to the end of the
/// same table, so that their number tells the place; times the golden ratio, places at any distance from one another are spread.
#[inline]
fn slot_of(len: usize, slots: usize) -> usize {
    (len.wrapping_mul(GOLDEN_RATIO) >> 57) & slots.saturating_sub(1)
}

/// What is remembered of the coverage in these bytes.
#[inline]
pub(crate) fn known_at<'k, 'a>(known: &'k [Known<'a>], table: &[u8]) -> Option<&'k Known<'a>> {
    let found = known.get(slot_of(table.len(), known.len()))?;
    if found.len == table.len() {
        Some(found)
    } else {
        None
    }
}

/// Remembers a coverage in place of the one whose slot it has.
fn remember<'a>(known: &mut [Known<'a>], coverage: Known<'a>) {
    if let Some(slot) = known.get_mut(slot_of(coverage.len, known.len())) {
        *slot = coverage;
    }
}

/// The coverage in these bytes, which is read.
pub(crate) fn read_coverage<'a>(known: &mut [Known<'a>], table: &'a [u8]) -> Coverage<'a> {
    let read = Known::read(table);
    remember(known, read);
    read.coverage
}

/// The coverage in these bytes, of which there are so many, with its summaries. It is read where no subtable among those that are
/// remembered has it, and then it is for the next subtable.
pub(crate) fn summed_of<'a>(
    known: &mut [Known<'a>],
    subtables: &[Subtable<'a>],
    table: &'a [u8],
    size: usize,
) -> Summed<'a> {
    if let Some(found) = known_at(known, table)
        && let Some(subtable) = subtables.get(found.subtable)
    {
        return Summed::of_subtable(subtable);
    }
    let summed = Summed::new(quick_coverage(table));
    let read = Known {
        len: table.len(),
        size,
        coverage: summed.coverage,
        subtable: subtables.len(),
    };
    remember(known, read);
    summed
}
