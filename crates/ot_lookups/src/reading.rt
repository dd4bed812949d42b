//! What is found of subtables while a list of lookups is read.

ghost use Rattle.std.specs.Prelude.{◌≡◌, ◌<◌, true, All, IfSome, IsTrue, is_some, unwrap_or};
ghost use Rattle.font_tables.specs.Bytes.{number_16};
ghost use Rattle.glyph_digests.specs.Digest.{HasMore};
ghost use Rattle.glyph_digests.specs.FirstGlyphs.{HasMoreFirst};
ghost use Rattle.ot_lookups.specs.SubtableKinds.{is_chained};
ghost use Rattle.ot_lookups.specs.NextAsked.{lookahead_number, backtrack_number, input_number};

use crate::subtable::Subtable;
use crate::subtable_kind::{ContextFormat, SubtableKind};
use font_tables::bytes::u16_at;
use font_tables::class_definition::ClassDefinition;
use glyph_digests::digest::Digest;
use glyph_digests::first_glyphs::{FirstGlyphs, Summaries};
use glyph_digests::summary::Summary;

/// The classes in these bytes, or none where they are slow to ask.
pub(crate) fn quick_classes(table: &[u8]) -> ClassDefinition<'_> {
    let classes = ClassDefinition::new(table);
    if classes.is_quick() {
        classes
    } else {
        ClassDefinition::new(&[])
    }
}

/// How many coverages a context by coverages has before the cursor, for its input and after it.
pub(crate) fn coverage_numbers(kind: SubtableKind, table: &[u8]) -> Option<(u16, u16, u16)>
    ensures backtrack { IfSome result (λ numbers. numbers.0 ≡ backtrack_number (is_chained kind) table.now) }
    ensures input { IfSome result (λ numbers. numbers.1 ≡ input_number (is_chained kind) table.now) }
    ensures lookahead { IfSome result (λ numbers. numbers.2 ≡ lookahead_number (is_chained kind) table.now) }
{
    match kind {
        SubtableKind::Context(ContextFormat::Coverages) => Some((0, u16_at(table, 2)?, 0)),
        SubtableKind::ChainedContext(ContextFormat::Coverages) => {
            let backtrack = u16_at(table, 2)?;
            let input_at = 4 + 2 * usize::from(backtrack);
            let input = u16_at(table, input_at)?;
            let lookahead = u16_at(table, input_at + 2 + 2 * usize::from(input))?;
            Some((backtrack, input, lookahead))
        }
        _ => None,
    }
}

/// Whether a context with so many glyphs in its input and after it asks for one after the cursor.
pub(crate) fn has_next(input: u16, lookahead: u16) -> bool
    ensures { IsTrue result → input < 2 → 0 < lookahead }
{
    input > 1 || lookahead > 0
}

/// How many offsets or rows a table says that it has at this place.
pub(crate) fn count_at(table: &[u8], at: usize) -> usize
    ensures is { result ≡ unwrap_or (number_16 table.now at) 0 }
    ensures few { result < 65536 }
{
    usize::from(u16_at(table, at).unwrap_or(0))
}

/// What sums up the glyphs that any of these subtables is for.
pub(crate) fn summaries_of_all(subtables: &[Subtable]) -> Summaries
    ensures digest { All (λ subtable. HasMore subtable.digest result.digest) subtables.now }
    ensures firsts { All (λ subtable. HasMoreFirst subtable.firsts result.firsts) subtables.now }
{
    match subtables {
        [only] => Summaries {
            digest: only.digest,
            firsts: only.firsts,
        },
        _ => Summaries {
            digest: digest_of(subtables),
            firsts: firsts_of(subtables),
        },
    }
}

/// The digest of the glyphs that any of these subtables is for.
fn digest_of(subtables: &[Subtable]) -> Digest
    ensures { All (λ subtable. HasMore subtable.digest result) subtables.now }
{
    let mut digest = Digest::new();
    for subtable in subtables {
        digest.add_all(&subtable.digest);
    }
    digest
}

/// Those of the first 256 glyphs that any of these subtables is for.
fn firsts_of(subtables: &[Subtable]) -> FirstGlyphs
    ensures { All (λ subtable. HasMoreFirst subtable.firsts result) subtables.now }
{
    let mut firsts = FirstGlyphs::none();
    for subtable in subtables {
        firsts.add_all(&subtable.firsts);
    }
    firsts
}
