//! The first 256 glyphs of a font, told apart, which a digest does not do.

ghost use Rattle.std.specs.Prelude.{ℕ, ◌≡◌, ◌<◌, ◌≤◌, ◌+◌, is_some, true};
ghost use Rattle.font_tables.specs.Coverage.{listed_index};
ghost use Rattle.glyph_digests.specs.Digest.{HasAll, has_row};
ghost use Rattle.glyph_digests.specs.FirstGlyphs.{HasMoreFirst, may_have_both, may_have_first};
ghost use Rattle.glyph_digests.specs.Covered.{covered_index};

use crate::digest::{Digest, has_row, with_all, with_row, with_rows};
use crate::summary::{Summary, format_of, row_count, summary_of};
use font_tables::bytes::{part, u16_at};
use font_tables::coverage::Coverage;

/// How many glyphs are told apart.
const COUNT: u32 = 256;

/// Which of the first 256 glyphs are in a set. Any other glyph may be.
#[derive(Clone, Copy, PartialEq, Eq)]
pub struct FirstGlyphs {
    /// A bit for each glyph, those of 64 glyphs in a word.
    pub words: [u64; 4],
}

impl FirstGlyphs {
    /// Whether a glyph may be in the set: one of the first 256, whether it is.
    #[tactic(auto, unfolding(crate::specs::FirstGlyphs::may_have_first))]
    pub fn may_have(&self, glyph: u32) -> bool
        ensures { result ≡ may_have_first self.now glyph }
    {
        glyph >= COUNT || has_row(self.words[glyph as usize / 64], glyph)
    }

    /// Adds the glyphs of another set.
    pub fn add_all(&mut self, other: &FirstGlyphs)
        ensures added { HasMoreFirst other.now self.new }
        ensures kept { HasMoreFirst self.old self.new }
    {
        let (words, others) = (&self.words, &other.words);
        self.words = [
            with_all(words[0], others[0]),
            with_all(words[1], others[1]),
            with_all(words[2], others[2]),
            with_all(words[3], others[3]),
        ];
    }

    /// The set with the glyphs from one of the first 256 to another one, the last one too. It takes and gives the set whole, so that a
    /// loop over ranges behind the first 256 keeps its words in registers.
    #[inline(never)]
    fn with_range(self, first: u32, last: u32) -> FirstGlyphs
        requires { first < 256 }
        ensures added { (glyph : ℕ) → first ≤ glyph → glyph ≤ last → may_have_first result glyph ≡ true }
        ensures kept { HasMoreFirst self result }
    {
        let mut words = self.words;
        if first / 64 == last / 64 {
            let word = first as usize / 64;
            words[word] = with_rows(words[word], first, last);
            return FirstGlyphs { words };
        }
        FirstGlyphs {
            words: [
                with_rows_from(words[0], 0, first, last),
                with_rows_from(words[1], 64, first, last),
                with_rows_from(words[2], 128, first, last),
                with_rows_from(words[3], 192, first, last),
            ],
        }
    }
}

impl Summary for FirstGlyphs {
    ghost has = { may_have_first };

    fn none() -> Self {
        FirstGlyphs { words: [0; 4] }
    }

    #[inline]
    fn add_glyph(&mut self, glyph: u32) {
        if glyph >= COUNT {
            return;
        }
        if glyph < 128 {
            if glyph < 64 {
                self.words[0] = with_row(self.words[0], glyph);
            } else {
                self.words[1] = with_row(self.words[1], glyph);
            }
        } else if glyph < 192 {
            self.words[2] = with_row(self.words[2], glyph);
        } else {
            self.words[3] = with_row(self.words[3], glyph);
        }
    }

    #[inline]
    fn add_range(&mut self, first: u32, last: u32) {
        if first < COUNT {
            *self = self.with_range(first, last);
        }
    }
}

/// Both summaries of a set of glyphs, made in one pass.
#[derive(Clone, Copy)]
pub struct Summaries {
    /// Its digest.
    pub digest: Digest,
    /// Those of it that are among the first 256.
    pub firsts: FirstGlyphs,
}

impl Summary for Summaries {
    ghost has = { may_have_both };

    fn none() -> Self {
        Summaries {
            digest: Digest::new(),
            firsts: FirstGlyphs::none(),
        }
    }

    fn add_glyph(&mut self, glyph: u32) {
        self.digest.add_glyph(glyph);
        self.firsts.add_glyph(glyph);
    }

    #[inline]
    fn add_range(&mut self, first: u32, last: u32) {
        if first == last {
            self.digest.add(first);
            self.firsts.add_glyph(first);
            return;
        }
        self.digest.add_range(first, last);
        self.firsts.add_range(first, last);
    }
}

/// Both summaries of the glyphs that a coverage covers. Many rows leave hardly a row of a digest out.
#[inline]
pub fn summaries_of(coverage: &Coverage) -> Summaries
    ensures digest { HasAll (λ glyph. is_some (covered_index coverage.now.table.now glyph) ≡ true) result.digest }
    ensures firsts { (glyph : ℕ) → is_some (covered_index coverage.now.table.now glyph) ≡ true
        → may_have_first result.firsts glyph ≡ true }
{
    match coverage.highest() {
        Some(highest) => summaries_up_to(coverage, highest),
        None => summary_of(coverage),
    }
}

/// The same of a coverage of many rows, which covers no glyph above this one.
#[inline]
fn summaries_up_to(coverage: &Coverage, highest: u16) -> Summaries
    requires { (glyph : ℕ) → is_some (covered_index coverage.now.table.now glyph) ≡ true → glyph ≤ highest }
    ensures digest { HasAll (λ glyph. is_some (covered_index coverage.now.table.now glyph) ≡ true) result.digest }
    ensures firsts { (glyph : ℕ) → is_some (covered_index coverage.now.table.now glyph) ≡ true
        → may_have_first result.firsts glyph ≡ true }
{
    Summaries {
        digest: Digest::up_to(u32::from(highest)),
        firsts: firsts_of(coverage),
    }
}

/// Those of the first 256 glyphs that a coverage covers.
fn firsts_of(coverage: &Coverage) -> FirstGlyphs
    ensures { (glyph : ℕ) → is_some (covered_index coverage.now.table.now glyph) ≡ true → may_have_first result glyph ≡ true }
{
    if format_of(coverage.table) == 1 {
        firsts_of_list(coverage.table)
    } else {
        summary_of(coverage)
    }
}

/// The same of a coverage that lists its glyphs. A glyph is looked for up to the first that is not below it, so none of the first 256
/// is found behind one of the others.
fn firsts_of_list(table: &[u8]) -> FirstGlyphs
    ensures { (glyph : ℕ) → is_some (listed_index table.now glyph) ≡ true → may_have_first result glyph ≡ true }
{
    let mut firsts = FirstGlyphs::none();
    let (glyphs, _) = part(table, 4, 2 * row_count(table, 2)).as_chunks::<2>();
    for glyph in glyphs {
        if let Some(glyph) = u16_at(glyph, 0) {
            let glyph = u32::from(glyph);
            if glyph >= COUNT {
                return firsts;
            }
            firsts.add_glyph(glyph);
        }
    }
    firsts
}

/// A word with the bits of the rows from one to another, the last one too, where the word has the 64 rows from this one on.
fn with_rows_from(word: u64, start: u32, first: u32, last: u32) -> u64
    requires { start ≤ 192 }
    ensures added { (row : ℕ) → start ≤ row → row < start + 64 → first ≤ row → row ≤ last → has_row result row ≡ true }
    ensures kept { (row : ℕ) → has_row word row ≡ true → has_row result row ≡ true }
{
    let (low, high) = (first.max(start), last.min(start + 63));
    if low <= high {
        with_rows(word, low, high)
    } else {
        word
    }
}
