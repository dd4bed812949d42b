//! Which script of a table, and which of its language systems, a text is shaped by: HarfBuzz's
//! `hb_ot_layout_table_select_script` and `hb_ot_layout_script_select_language`.

ghost use Rattle.std.specs.Prelude.{◌≡◌, ◌≤◌, ◌<◌, map, option_map, is_some, Some, false};
ghost use Rattle.ot_map.specs.Choice.{first_of, script_of, script_at, default_scripts, system_of};
ghost use Rattle.ot_map.specs.Tables.{required_feature, system_feature_count};

use crate::tables::{first_record, table_of_record};
use font_tables::bytes::{table_at_16, u16_at};
use font_tables::rows::rows_within;
use rb_common::{Tag, TagExt};

/// The script of a table by which a text is shaped.
#[derive(Clone, Copy)]
pub struct ChosenScript<'a> {
    /// The script's table; empty where there is none.
    pub table: &'a [u8],
    /// The tag by which it was found; the null tag where there is none.
    pub tag: Tag,
    /// Whether it is a script of the text, and no default.
    pub is_found: bool,
}

/// A record, and the tag that it has.
#[derive(Clone, Copy)]
struct Found {
    tag: Tag,
    row: usize,
    ghost few: { row < 65536 },
}

/// The script of a list for a text that has these script tags, the best first: that of the first tag that the list has, and else
/// the first of `DFLT`, `dflt` and `latn` that it has.
#[tactic(auto, unfolding(crate::specs::Choice::script_of))]
pub fn select_script<'a>(scripts: &'a [u8], tags: &[Tag]) -> ChosenScript<'a>
    ensures chosen { (result.tag.0, result.table.now) ≡ script_of scripts.now (map (λ tag. tag.0) tags.now) }
    ensures found { result.is_found ≡ is_some (first_of scripts.now 0 (map (λ tag. tag.0) tags.now)) }
{
    match first_of(scripts, 0, tags) {
        Some(found) => chosen(scripts, found, true),
        None => default_script(scripts),
    }
}

/// The script of a list for a text of which it has no script.
fn default_script(scripts: &[u8]) -> ChosenScript<'_>
    ensures chosen { (result.tag.0, result.table.now)
        ≡ script_at scripts.now (first_of scripts.now 0 default_scripts) }
    ensures found { result.is_found ≡ false }
{
    let defaults = [
        Tag::from_bytes(b"DFLT"),
        Tag::from_bytes(b"dflt"),
        Tag::from_bytes(b"latn"),
    ];
    match first_of(scripts, 0, &defaults) {
        Some(found) => chosen(scripts, found, false),
        None => ChosenScript {
            table: &[],
            tag: Tag(0),
            is_found: false,
        },
    }
}

/// The script of a record.
fn chosen<'a>(scripts: &'a [u8], found: Found, is_found: bool) -> ChosenScript<'a>
    ensures chosen { (result.tag.0, result.table.now) ≡ script_at scripts.now (Some (found.tag.0, found.row)) }
    ensures found { result.is_found ≡ is_found }
{
    ChosenScript {
        table: table_of_record(scripts, 0, found.row),
        tag: found.tag,
        is_found,
    }
}

/// The language system of a script for a text whose language has these tags, the best first: that of the first tag that the
/// script has, else that of `dflt`, and else the script's default.
#[tactic(auto, unfolding(crate::specs::Choice::system_of))]
pub fn select_language<'a>(script: &'a [u8], tags: &[Tag]) -> &'a [u8]
    ensures { result.now ≡ system_of script.now (map (λ tag. tag.0) tags.now) }
{
    if let Some(found) = first_of(script, 2, tags) {
        return table_of_record(script, 2, found.row);
    }
    match first_record(script, 2, Tag::default_language()) {
        Some(row) => table_of_record(script, 2, row),
        None => table_at_16(script, 0).unwrap_or(&[]),
    }
}

/// The record of the first of these tags that has one.
fn first_of(list: &[u8], at: usize, tags: &[Tag]) -> Option<Found>
    requires { at ≤ 2 }
    ensures { option_map (λ found. (found.tag.0, found.row)) result
        ≡ first_of list.now at (map (λ tag. tag.0) tags.now) }
{
    let [tag, others @ ..] = tags else {
        return None;
    };
    match first_record(list, at, *tag) {
        Some(row) => Some(Found { tag: *tag, row }),
        None => first_of(list, at, others),
    }
}

/// The number of the feature that a language system requires.
#[tactic(auto, unfolding(crate::specs::Tables::required_feature))]
pub fn required_feature(system: &[u8]) -> Option<u16>
    ensures { result ≡ required_feature system.now }
{
    match u16_at(system, 2) {
        Some(0xFFFF) | None => None,
        Some(index) => Some(index),
    }
}

/// How many features a language system lists.
pub fn feature_count(system: &[u8]) -> usize
    ensures is { result ≡ system_feature_count system.now }
    ensures few { result < 65536 }
{
    rows_within(system, 6, 2, usize::from(u16_at(system, 4).unwrap_or(0)))
}
