//! The script list and the feature list of a table `GSUB` or `GPOS` (OpenType specification, "OpenType Layout Common Table
//! Formats").

ghost use Rattle.std.specs.Prelude.{◌≡◌, ◌<◌, ◌≤◌, ◌+◌, [], option_map, IfSome};
ghost use Rattle.font_tables.specs.Bytes.{is_number};
ghost use Rattle.font_tables.specs.Rows.{first_below};
ghost use Rattle.ot_map.specs.Tables.{list_of, lookup_count, record_count, record_tag, first_record};
ghost use Rattle.ot_map.specs.Tables.{table_of_record, feature_lookup_count, feature_table};

use font_tables::bytes::{table_at_16, u16_at, u32_at};
use font_tables::rows::rows_within;
use font_variations::feature_variations::substitute_of;
use rb_common::Tag;

/// The lists of a table `GSUB` or `GPOS`, found once.
#[derive(Clone, Copy)]
pub struct LayoutTable<'a> {
    /// The script list; empty where the table has none.
    pub scripts: &'a [u8],
    /// The feature list; empty where the table has none.
    pub features: &'a [u8],
    /// How many lookups the table declares.
    pub lookup_count: u16,
    /// The feature tables that stand in the place of others, where variations of the font choose them: a
    /// FeatureTableSubstitution table, or an empty one.
    pub substitutions: &'a [u8],
}

impl<'a> LayoutTable<'a> {
    ghost use Rattle.ot_map.specs.Tables.{feature_tag, chosen_feature_table};

    /// The lists of a table. One that is empty, or of another major version than 1, has no scripts, features and lookups.
    pub fn new(table: &'a [u8]) -> Self
        ensures scripts { result.scripts.now ≡ list_of table.now 4 }
        ensures features { result.features.now ≡ list_of table.now 6 }
        ensures lookups { result.lookup_count ≡ lookup_count table.now }
        ensures substitutions { result.substitutions.now ≡ [] }
    {
        LayoutTable {
            scripts: list_of(table, 4),
            features: list_of(table, 6),
            lookup_count: u16_at(list_of(table, 8), 0).unwrap_or(0),
            substitutions: &[],
        }
    }

    /// The tag of the feature with this number; `None` where there is no such feature.
    #[tactic(auto, unfolding(crate::specs::Tables::feature_tag))]
    pub fn feature_tag(&self, index: u16) -> Option<Tag>
        ensures { option_map (λ tag. tag.0) result ≡ feature_tag self.now.features.now index }
    {
        let index = usize::from(index);
        if index < record_count(self.features, 0) {
            u32_at(self.features, 2 + 6 * index).map(|number| Tag(number))
        } else {
            None
        }
    }

    /// The table of the feature with this number, which lists its lookups: the one that stands in its place, if there is one. An
    /// empty one where there is no such feature.
    #[tactic(auto, unfolding(crate::specs::Tables::chosen_feature_table))]
    pub fn feature_table(&self, index: u16) -> &'a [u8]
        ensures { result.now ≡ chosen_feature_table self.now.features.now self.now.substitutions.now index }
    {
        match substitute_of(self.substitutions, index) {
            Some(table) => table,
            None => feature_table(self.features, index),
        }
    }

    /// The number of the first feature with a tag, of whatever script.
    pub fn first_feature(&self, tag: Tag) -> Option<u16>
        ensures { option_map (λ index. index) result ≡ first_record self.now.features.now 0 tag.0 }
    {
        match first_record(self.features, 0, tag) {
            Some(row) => Some(row as u16),
            None => None,
        }
    }
}

/// The list that the offset at a place leads to.
fn list_of(table: &[u8], at: usize) -> &[u8]
    ensures { result.now ≡ list_of table.now at }
{
    if matches!(u16_at(table, 0), Some(1)) {
        table_at_16(table, at).unwrap_or(&[])
    } else {
        &[]
    }
}

/// How many records lie in a list, whose count stands at a place.
fn record_count(list: &[u8], at: usize) -> usize
    requires { at ≤ 2 }
    ensures is { result ≡ record_count list.now at }
    ensures few { result < 65536 }
{
    rows_within(list, at + 2, 6, usize::from(u16_at(list, at).unwrap_or(0)))
}

/// The first record of a list that has a tag, by its number.
pub(crate) fn first_record(list: &[u8], at: usize, tag: Tag) -> Option<usize>
    requires { at ≤ 2 }
    ensures is { result ≡ first_record list.now at tag.0 }
    ensures few { IfSome result (λ row. row < 65536) }
{
    let count = record_count(list, at);
    first_with_tag(list, at, count, tag)
}

/// The first of so many records that has a tag, by its number.
fn first_with_tag(list: &[u8], at: usize, count: usize, tag: Tag) -> Option<usize>
    requires place { at ≤ 2 }
    requires few { count ≤ 65536 }
    ensures is { result ≡ first_below (λ row. is_number (record_tag list.now at row) tag.0) count }
    ensures few { IfSome result (λ row. row < 65536) }
{
    for row in 0..count {
        if has_tag(list, at, row, tag) {
            return Some(row);
        }
    }
    None
}

/// Whether a record has a tag.
fn has_tag(list: &[u8], at: usize, row: usize, tag: Tag) -> bool
    requires place { at ≤ 2 }
    requires few { row < 65536 }
    ensures { result ≡ is_number (record_tag list.now at row) tag.0 }
{
    match u32_at(list, at + 2 + 6 * row) {
        Some(number) => number == tag.0,
        None => false,
    }
}

/// The table that a record leads to.
pub(crate) fn table_of_record(list: &[u8], at: usize, row: usize) -> &[u8]
    requires place { at ≤ 2 }
    requires few { row < 65536 }
    ensures { result.now ≡ table_of_record list.now at row }
{
    table_at_16(list, at + 6 + 6 * row).unwrap_or(&[])
}

/// The table of the feature with this number in a list; an empty one where there is no such feature.
#[tactic(auto, unfolding(crate::specs::Tables::feature_table))]
fn feature_table(features: &[u8], index: u16) -> &[u8]
    ensures { result.now ≡ feature_table features.now index }
{
    let index = usize::from(index);
    if index < record_count(features, 0) {
        table_of_record(features, 0, index)
    } else {
        &[]
    }
}

/// How many lookups the table of a feature lists.
pub(crate) fn feature_lookup_count(feature: &[u8]) -> usize
    ensures is { result ≡ feature_lookup_count feature.now }
    ensures few { result < 65536 }
{
    rows_within(feature, 4, 2, usize::from(u16_at(feature, 2).unwrap_or(0)))
}
