//! Digests of sets of glyphs: three words that tell at once of most glyphs that they are not in the set.
//!
//! A digest may have glyphs that were never added, and has each glyph that was. So a lookup whose digest does not have a
//! glyph does nothing to it, and its coverage need not be asked (HarfBuzz, `hb_set_digest_t`).

ghost use Rattle.std.specs.Prelude.{ℕ, ◌≡◌, ◌<◌, ◌≤◌, ◌+◌, IsTrue, is_some, true};
ghost use Rattle.glyph_digests.specs.Digest.{HasAll, HasGlyphs, HasMore, has_row, may_have};
ghost use Rattle.glyph_digests.specs.Covered.{covered_index};

use crate::summary::{Summary, summary_of};
use font_tables::coverage::Coverage;
use rb_glyph::hb_glyph_info_t;

/// How many rows a word tells apart. A row's bit is that of its number, counted round.
const ROWS: u32 = 64;

/// A digest of a set of glyphs. Glyphs whose numbers are near one another are in one row.
#[derive(Clone, Copy, PartialEq, Eq)]
pub struct Digest {
    /// The rows of one glyph.
    pub singles: u64,
    /// The rows of 16 glyphs.
    pub sixteens: u64,
    /// The rows of 128 glyphs.
    pub blocks: u64,
}

impl Digest {
    /// The digest of no glyph.
    pub fn new() -> Self
        ensures { result ≡ record { singles = 0; sixteens = 0; blocks = 0 } }
    {
        Digest {
            singles: 0,
            sixteens: 0,
            blocks: 0,
        }
    }

    /// The digest of all glyphs.
    #[tactic(auto, unfolding(crate::specs::Digest::may_have), using(crate::proofs::DigestLemmas::all_rows))]
    pub fn full() -> Self
        ensures { (glyph : ℕ) → may_have result glyph ≡ true }
    {
        Digest {
            singles: u64::MAX,
            sixteens: u64::MAX,
            blocks: u64::MAX,
        }
    }

    /// The digest of the glyphs up to this one.
    pub(crate) fn up_to(last: u32) -> Self
        ensures { HasAll (λ glyph. glyph ≤ last) result }
    {
        let mut digest = Digest::new();
        digest.add_range(0, last);
        digest
    }

    /// Whether the glyph may have been added. One that was added always may.
    #[tactic(auto, unfolding(crate::specs::Digest::may_have))]
    pub fn may_have(&self, glyph: u32) -> bool
        ensures { result ≡ may_have self.now glyph }
    {
        has_row(self.sixteens, glyph / 16)
            && has_row(self.singles, glyph)
            && has_row(self.blocks, glyph / 128)
    }

    /// Whether a glyph may be in both sets. Where one is, it always may.
    #[tactic(auto, unfolding(crate::specs::Digest::may_have))]
    pub fn meets(&self, other: &Digest) -> bool
        ensures { (glyph : ℕ) → may_have self.now glyph ≡ true → may_have other.now glyph ≡ true → IsTrue result }
    {
        share_row(self.sixteens, other.sixteens)
            && share_row(self.singles, other.singles)
            && share_row(self.blocks, other.blocks)
    }

    /// Adds a glyph.
    #[tactic(auto, unfolding(crate::specs::Digest::may_have))]
    pub fn add(&mut self, glyph: u32)
        ensures added { may_have self.new glyph ≡ true }
        ensures kept { HasMore self.old self.new }
    {
        self.singles = with_row(self.singles, glyph);
        self.sixteens = with_row(self.sixteens, glyph / 16);
        self.blocks = with_row(self.blocks, glyph / 128);
    }

    /// Adds the glyphs of another set.
    #[tactic(auto, unfolding(crate::specs::Digest::may_have))]
    pub fn add_all(&mut self, other: &Digest)
        ensures added { HasMore other.now self.new }
        ensures kept { HasMore self.old self.new }
    {
        self.singles = with_all(self.singles, other.singles);
        self.sixteens = with_all(self.sixteens, other.sixteens);
        self.blocks = with_all(self.blocks, other.blocks);
    }

    /// The digest of the glyphs that a coverage covers.
    pub fn of_coverage(coverage: &Coverage) -> Self
        ensures { HasAll (λ glyph. is_some (covered_index coverage.now.table.now glyph) ≡ true) result }
    {
        summary_of(coverage)
    }

    /// The digest of the glyphs of a text.
    pub fn of_glyphs(glyphs: &[hb_glyph_info_t]) -> Self
        ensures { HasGlyphs result glyphs.now }
    {
        let mut digest = Digest::new();
        for glyph in glyphs {
            digest.add(glyph.glyph_id);
        }
        digest
    }
}

impl Summary for Digest {
    ghost has = { may_have };

    fn none() -> Self {
        Digest::new()
    }

    fn add_glyph(&mut self, glyph: u32) {
        self.add(glyph);
    }

    #[inline]
    #[tactic(auto, unfolding(crate::specs::Digest::may_have))]
    fn add_range(&mut self, first: u32, last: u32) {
        if first == last {
            self.add(first);
            return;
        }
        self.singles = with_rows(self.singles, first, last);
        if first / 16 == last / 16 {
            self.sixteens = with_row(self.sixteens, first / 16);
            self.blocks = with_row(self.blocks, first / 128);
            return;
        }
        self.sixteens = with_rows(self.sixteens, first / 16, last / 16);
        self.blocks = with_rows(self.blocks, first / 128, last / 128);
    }
}

/// Whether a word has the bit of a row.
pub(crate) fn has_row(word: u64, row: u32) -> bool
    ensures { result ≡ has_row word row }
{
    (word >> (row % ROWS)) & 1 == 1
}

/// Whether two words have the bit of a row both.
fn share_row(word: u64, other: u64) -> bool
    ensures { (row : ℕ) → has_row word row ≡ true → has_row other row ≡ true → IsTrue result }
{
    word & other != 0
}

/// A word with the bits of another one.
pub(crate) fn with_all(word: u64, other: u64) -> u64
    ensures added { (row : ℕ) → has_row other row ≡ true → has_row result row ≡ true }
    ensures kept { (row : ℕ) → has_row word row ≡ true → has_row result row ≡ true }
{
    word | other
}

/// A word with the bit of a row.
pub(crate) fn with_row(word: u64, row: u32) -> u64
    ensures added { has_row result row ≡ true }
    ensures kept { (other : ℕ) → has_row word other ≡ true → has_row result other ≡ true }
{
    word | 1 << (row % ROWS)
}

/// A word with the bits of the rows from one to another, the last one too.
pub(crate) fn with_rows(word: u64, first: u32, last: u32) -> u64
    ensures added { (row : ℕ) → first ≤ row → row ≤ last → has_row result row ≡ true }
    ensures kept { (other : ℕ) → has_row word other ≡ true → has_row result other ≡ true }
{
    let more = last.saturating_sub(first);
    if more >= ROWS - 1 {
        u64::MAX
    } else {
        word | rows_from(first, more)
    }
}

/// The bit of a row and those of so many rows behind it.
fn rows_from(first: u32, more: u32) -> u64
    requires { more < 64 }
    ensures { (row : ℕ) → first ≤ row → row ≤ first + more → has_row result row ≡ true }
{
    (u64::MAX >> (ROWS - 1 - more)).rotate_left(first)
}
