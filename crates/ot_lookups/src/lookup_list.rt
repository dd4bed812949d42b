//! The lookups of `GSUB` or `GPOS` (OpenType specification, "OpenType Layout Common Table Formats", "Lookup List table").

ghost use Rattle.std.specs.Prelude.{ℕ, ◌≡◌, ◌<◌, ◌≤◌, true, false, All, IfOk, IfSome, [], map, IsFalse, Some, ◌+◌, drop, length, slice_get, option_copied};
ghost use Rattle.ot_lookups.specs.Lookup.{IsForNone, is_for};
ghost use Rattle.ot_lookups.specs.NextAsked.{IsNextOf};
ghost use Rattle.ot_lookups.specs.LookupTables.{head_of, heads_in};
ghost use Rattle.ot_lookups.specs.declared.lookup_list.Lookup.{Lookup};
ghost use Rattle.ot_lookups.specs.SubtableLimit.{lookup_list};
ghost use Rattle.ot_lookups.specs.Subtables.{subtables_of};
ghost use Rattle.ot_lookups.specs.LookupProps.{glyph_at};

use crate::lookup_props::LookupProps;
use crate::lookup_reader::LookupReader;
use crate::subtable::{Subtable, table_or_empty};
use crate::subtable_limit::{MAX_SUBTABLES, lookup_count, subtables_of_first};
use font_tables::coverage::Coverage;
use font_tables::gdef::Gdef;
use font_tables::rows::rows_within;
use glyph_digests::digest::Digest;
use glyph_digests::first_glyphs::FirstGlyphs;
use rb_glyph::hb_glyph_info_t;
use std::alloc::{AllocError, Global};

/// The kind of an extension in `GSUB`.
pub const SUBSTITUTION_EXTENSION: u16 = 7;

/// The kind of an extension in `GPOS`.
pub const POSITIONING_EXTENSION: u16 = 9;

/// A lookup.
#[derive(Clone, Copy)]
pub struct Lookup<'a> {
    /// The kind of its subtables. Where they are extensions, each subtable has the kind after it.
    pub lookup_type: u16,
    /// What it passes over.
    pub lookup_props: LookupProps<'a>,
    /// The digest of the glyphs that its subtables are for.
    pub digest: Digest,
    /// Those of the first 256 glyphs that its subtables are for.
    pub firsts: FirstGlyphs,
    /// The first of its subtables in `LookupList::subtables`.
    pub first: usize,
    /// Where its subtables end there.
    pub last: usize,
}

impl<'a> Lookup<'a> {
    /// Whether the lookup may do something at a glyph: its subtables may be for it, it has one of the feature's bits, and is not
    /// passed over.
    #[inline]
    pub fn is_for(&self, mask: u32, glyph: &hb_glyph_info_t) -> bool
        ensures { result ≡ is_for self.now mask glyph.now }
    {
        self.digest.may_have(glyph.glyph_id)
            && glyph.mask & mask != 0
            && !self.lookup_props.passes_over(glyph)
            && self.firsts.may_have(glyph.glyph_id)
    }

    /// The first place from this one on at which the lookup may do something, or the number of glyphs.
    pub fn first_place(&self, mask: u32, glyphs: &[hb_glyph_info_t], start: usize) -> usize
        requires { start ≤ length glyphs.now }
        ensures from { start ≤ result }
        ensures within { result ≤ length glyphs.now }
        ensures at { result < length glyphs.now → is_for self.now mask (glyph_at glyphs.now result) ≡ true }
        ensures passed { (place : ℕ) → start ≤ place → place < result → is_for self.now mask (glyph_at glyphs.now place) ≡ false }
    {
        for place in start..glyphs.len() {
            if self.is_for(mask, &glyphs[place]) {
                return place;
            }
        }
        glyphs.len()
    }
}

/// The lookups of a table, which is read once.
///
/// Reading is limited to 64 times the length of the table, as HarfBuzz limits it: what lookups share is read for each of
/// them, and the lookups of a font that share more have no subtables. A coverage or a table of classes with many
/// rows that do not rise names no glyph, since it would have to be looked through for each. A subtable is left out where its
/// type has no such format, and all are where the extensions of a lookup are of several types, as in HarfBuzz.
#[derive(Drop)]
pub struct LookupList<'a> {
    /// The bytes of the table.
    pub table: &'a [u8],
    /// The lookups, by their indices.
    pub lookups: Vec<Lookup<'a>>,
    /// Their subtables.
    pub subtables: Vec<Subtable<'a>>,
    /// The coverages of contexts by coverages.
    pub coverages: Vec<Coverage<'a>>,
    /// The kind of an extension.
    extension: u16,
    ghost nexts: { All (IsNextOf coverages.items) subtables.items },
}

impl<'a> LookupList<'a> {
    /// The lookups of a table in which `extension` is the kind of an extension: 7 in `GSUB`, 9 in `GPOS`. A table that is
    /// empty, or whose lookups have 16,384 subtables, has none. `Err` where memory runs out.
    pub fn new(
        alloc: Global,
        table: &'a [u8],
        extension: u16,
        gdef: &Gdef<'a>,
    ) -> Result<Self, AllocError>
        ensures table { IfOk result (λ list. list.table.now ≡ table.now) }
        ensures heads { IfOk result (λ list. map head_of list.lookups.items ≡ heads_in gdef.now.table.now (lookup_list table.now)) }
    {
        let reader = LookupReader::new(alloc, table, extension);
        if let Some(list) = LookupList::read(alloc, table, reader, gdef)? {
            return Ok(list);
        }
        let reader = LookupReader::new(alloc, table, extension);
        let lookups = without_subtables(alloc, table_or_empty(table, 8), gdef, &reader)?;
        Ok(LookupList {
            table,
            lookups,
            subtables: reader.subtables,
            coverages: reader.coverages,
            extension,
        })
    }

    /// The lookups of a table; `None` where there is no room for all that they share.
    fn read(
        alloc: Global,
        table: &'a [u8],
        mut reader: LookupReader<'a>,
        gdef: &Gdef<'a>,
    ) -> Result<Option<Self>, AllocError>
        ensures table { IfOk result (λ read. IfSome read (λ list. list.table.now ≡ table.now)) }
        ensures heads { IfOk result (λ read. IfSome read (λ list.
            map head_of list.lookups.items ≡ heads_in gdef.now.table.now (lookup_list table.now))) }
    {
        let Some(lookups) = read_all(alloc, table_or_empty(table, 8), gdef, &mut reader)? else {
            return Ok(None);
        };
        Ok(Some(LookupList {
            table,
            lookups,
            subtables: reader.subtables,
            coverages: reader.coverages,
            extension: reader.extension,
        }))
    }

    /// Whether the table is `GPOS`.
    pub fn is_positioning(&self) -> bool {
        self.extension == POSITIONING_EXTENSION
    }

    /// The lookup of this index.
    pub fn lookup(&self, index: u16) -> Option<&Lookup<'a>>
        ensures { option_copied result ≡ slice_get self.now.lookups.items index }
    {
        self.lookups.get(usize::from(index))
    }

    /// Whether the lookup of this index may do something in a text of such glyphs. Where it may not, it is for none of them.
    #[tactic(auto, using(crate::proofs::LookupLemmas::apart))]
    pub fn may_apply(&self, index: u16, glyphs: &Digest) -> bool
        ensures { (lookup : Lookup) → slice_get self.now.lookups.items index ≡ Some lookup → IsFalse result
            → IsForNone lookup glyphs.now }
    {
        match self.lookup(index) {
            Some(lookup) => lookup.digest.meets(glyphs),
            None => false,
        }
    }

    /// The subtables of a lookup, one after the other.
    pub fn subtables_of(&self, lookup: &Lookup) -> &[Subtable<'a>]
        ensures { result.now ≡ subtables_of self.now.subtables.items lookup.now }
    {
        if lookup.first <= lookup.last && lookup.last <= self.subtables.len() {
            &self.subtables[lookup.first..lookup.last]
        } else {
            &[]
        }
    }

    /// The coverages of a subtable from the one of this number on.
    pub fn coverages_from(&self, subtable: &Subtable, number: usize) -> &[Coverage<'a>]
        ensures { result.now ≡ drop (subtable.now.first_coverage + number) self.now.coverages.items }
    {
        let first = subtable.first_coverage.saturating_add(number);
        if first <= self.coverages.len() {
            &self.coverages[first..]
        } else {
            &[]
        }
    }
}

/// The lookups of a list, unless they have too many subtables; `None` where there is no room for all that they share.
#[tactic(auto, using(crate::proofs::LookupTablesLemmas::heads))]
fn read_all<'a>(
    alloc: Global,
    list: &'a [u8],
    gdef: &Gdef<'a>,
    reader: &mut LookupReader<'a>,
) -> Result<Option<Vec<Lookup<'a>>>, AllocError>
    ensures { IfOk result (λ read. IfSome read (λ lookups.
        map head_of lookups.items ≡ heads_in gdef.now.table.now list.now)) }
{
    let mut lookups = Vec::new(alloc);
    let declared = lookup_count(list);
    let subtables = subtables_of_first(list, declared);
    if subtables >= MAX_SUBTABLES {
        return Ok(Some(lookups));
    }
    let count = rows_within(list, 2, 2, declared);
    lookups.reserve(count)?;
    reader.make_room(subtables)?;
    for index in 0..count {
        let table = table_or_empty(list, 2 + 2 * index);
        let first = reader.subtables.len();
        reader.read_lookup(table)?;
        if reader.is_short {
            return Ok(None);
        }
        lookups.push(reader.lookup_of(table, first, gdef))?;
    }
    Ok(Some(lookups))
}

/// The same lookups, with a reader that has read no subtable.
#[tactic(auto, using(crate::proofs::LookupTablesLemmas::heads))]
fn without_subtables<'a>(
    alloc: Global,
    list: &'a [u8],
    gdef: &Gdef<'a>,
    reader: &LookupReader<'a>,
) -> Result<Vec<Lookup<'a>>, AllocError>
    ensures { IfOk result (λ lookups. map head_of lookups.items ≡ heads_in gdef.now.table.now list.now) }
{
    let mut lookups = Vec::new(alloc);
    let declared = lookup_count(list);
    let subtables = subtables_of_first(list, declared);
    if MAX_SUBTABLES <= subtables {
        return Ok(lookups);
    }
    let count = rows_within(list, 2, 2, declared);
    lookups.reserve(count)?;
    for index in 0..count {
        lookups.push(reader.lookup_of(table_or_empty(list, 2 + 2 * index), 0, gdef))?;
    }
    Ok(lookups)
}
