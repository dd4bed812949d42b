//! The subtables of lookups, with what several kinds have in common parsed once.

ghost use Rattle.std.specs.Prelude.{ℕ, ◌≡◌, ◌+◌, ◌-◌, ◌*◌, ◌^◌, [], min, unwrap_or, IsTrue, is_some, true};
ghost use Rattle.font_tables.specs.Bytes.{number_16, table_at_16};
ghost use Rattle.glyph_digests.specs.Digest.{HasAll};
ghost use Rattle.glyph_digests.specs.FirstGlyphs.{may_have_first};
ghost use Rattle.ot_lookups.specs.LookupTables.{extended_kind, extended_table};
ghost use Rattle.ot_lookups.specs.Seconds.{AreSeconds};
ghost use Rattle.glyph_digests.specs.Covered.{covered_index};

use crate::subtable_kind::SubtableKind;
use font_tables::bytes::{table_at_32, tail, u16_at};
use font_tables::class_definition::ClassDefinition;
use font_tables::coverage::Coverage;
use glyph_digests::digest::Digest;
use glyph_digests::first_glyphs::FirstGlyphs;

/// The most glyphs that a match takes (HarfBuzz, `HB_MAX_CONTEXT_LENGTH`).
pub const MAX_CONTEXT_LENGTH: usize = 64;

/// A subtable of a lookup.
#[derive(Clone, Copy)]
pub struct Subtable<'a> {
    /// What it does; behind an extension, what the subtable there does.
    pub kind: SubtableKind,
    /// The bytes of the subtable, and what stands after it.
    pub table: &'a [u8],
    /// The glyphs that it is for: those at the cursor.
    pub coverage: Coverage<'a>,
    /// The digest of these glyphs.
    pub digest: Digest,
    /// Those of them that are among the first 256.
    pub firsts: FirstGlyphs,
    /// The bases, ligatures or marks that marks are attached to.
    pub bases: Coverage<'a>,
    /// The classes of glyphs, those of the input in a chained context, and of the first glyph in a pair.
    pub classes: ClassDefinition<'a>,
    /// The classes of the glyphs before the input in a chained context.
    pub backtrack_classes: ClassDefinition<'a>,
    /// The classes of the glyphs after the input in a chained context, and of the second glyph in a pair.
    pub lookahead_classes: ClassDefinition<'a>,
    /// What a context by coverages asks of the glyph after the one at the cursor, if it asks for anything there.
    pub next: Option<NextAsked<'a>>,
    /// Where the coverages of a context by coverages begin, or those around a reverse substitution, in
    /// `LookupList::coverages`.
    pub first_coverage: usize,
    /// The digest of the second glyphs of all ligatures of a subtable of ligatures; `None` where one has a single component.
    pub seconds: Option<Digest>,
    ghost digests: { HasAll (λ glyph. is_some (covered_index coverage.table.now glyph) ≡ true) digest },
    ghost firsts_are: { (glyph : ℕ) → is_some (covered_index coverage.table.now glyph) ≡ true → may_have_first firsts glyph ≡ true },
    ghost ligatures: { AreSeconds table.now seconds },
}

impl Subtable<'_> {
    /// Whether the subtable may be for a glyph. Where its coverage has the glyph, it always may.
    pub fn may_be_for(&self, glyph: u32) -> bool
        ensures { is_some (covered_index self.now.coverage.table.now glyph) ≡ true → IsTrue result }
    {
        self.digest.may_have(glyph) && self.firsts.may_have(glyph)
    }
}

/// What a context by coverages asks of the glyph after the one at the cursor.
#[derive(Clone, Copy)]
pub struct NextAsked<'a> {
    /// The glyphs that fit there.
    pub coverage: Coverage<'a>,
    /// The digest of these glyphs.
    pub digest: Digest,
    /// Whether the glyph is one of the input, and not one after it.
    pub is_input: bool,
    ghost digests: { HasAll (λ glyph. is_some (covered_index coverage.table.now glyph) ≡ true) digest },
}

impl<'a> NextAsked<'a> {
    /// Asks for a glyph of a coverage.
    pub fn new(coverage: Coverage<'a>, is_input: bool) -> Self
        ensures asks { result.coverage ≡ coverage.entry }
        ensures input { result.is_input ≡ is_input }
    {
        NextAsked {
            coverage,
            digest: next_digest(&coverage),
            is_input,
        }
    }
}

/// So many glyphs or ranges of glyphs have hardly a row without one of them.
const MANY_ROWS: u16 = 64;

/// The digest of the glyphs of a coverage, or of all glyphs where the coverage has many rows.
fn next_digest(coverage: &Coverage) -> Digest
    ensures { HasAll (λ glyph. is_some (covered_index coverage.now.table.now glyph) ≡ true) result }
{
    if u16_at(coverage.table, 2).unwrap_or(0) > MANY_ROWS {
        Digest::full()
    } else {
        Digest::of_coverage(coverage)
    }
}

/// Where the list of offsets of coverages at a place ends, the number of them standing there.
pub fn behind_list(table: &[u8], at: usize) -> usize
    ensures { result ≡ min (at + (2 + 2 * unwrap_or (number_16 table.now at) 0)) (2 ^ 64 - 1) }
{
    let count = usize::from(u16_at(table, at).unwrap_or(0));
    at.saturating_add(2 + 2 * count)
}

/// The table that the offset at a place leads to, or an empty one.
#[tactic(auto, unfolding(font_tables::specs::Bytes::table_at_16))]
pub fn table_or_empty(table: &[u8], at: usize) -> &[u8]
    ensures { result.now ≡ unwrap_or (table_at_16 table.now at) [] }
{
    match u16_at(table, at) {
        None | Some(0) => &[],
        Some(offset) => tail(table, usize::from(offset)),
    }
}

/// The kind and the subtable after an extension.
pub(crate) fn behind_extension(table: &[u8]) -> (u16, &[u8])
    ensures kind { result.0 ≡ extended_kind table.now }
    ensures table { result.1.now ≡ extended_table table.now }
{
    match u16_at(table, 0) {
        Some(1) => (
            u16_at(table, 2).unwrap_or(0),
            table_at_32(table, 4).unwrap_or(&[]),
        ),
        _ => (0, &[]),
    }
}
