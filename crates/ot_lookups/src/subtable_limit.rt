//! Tables of layout with more subtables than HarfBuzz reads.

ghost use Rattle.std.specs.Prelude.{◌≡◌, ◌*◌, ◌<◌, ◌≤◌, length};
ghost use Rattle.ot_lookups.specs.SubtableLimit.{lookup_count, subtable_count, subtables_of_first, offsets_of_first, is_refused};

use crate::subtable::table_or_empty;
use font_tables::bytes::{table_at_16, u16_at};

/// The lookups of a table have fewer subtables.
pub(crate) const MAX_SUBTABLES: usize = 0x4000;

/// So many broken offsets HarfBuzz mends in a table.
const MAX_EDITS: usize = 32;

/// Whether HarfBuzz refuses a table `GSUB` or `GPOS` for its subtables.
pub fn is_refused(table: &[u8]) -> bool
    ensures { result ≡ is_refused table.now }
{
    let list = table_or_empty(table, 8);
    let count = lookup_count(list);
    subtables_of_first(list, count) >= MAX_SUBTABLES && offsets_of_first(list, count) > MAX_EDITS
}

/// How many lookups a list declares.
pub(crate) fn lookup_count(list: &[u8]) -> usize
    ensures is { result ≡ lookup_count list.now }
    ensures few { result < 65536 }
{
    usize::from(u16_at(list, 0).unwrap_or(0))
}

/// How many subtables the first lookups of a list have, of which there are so many.
pub(crate) fn subtables_of_first(list: &[u8], count: usize) -> usize
    requires { count < 65536 }
    ensures { result ≡ subtables_of_first list.now count }
{
    let mut subtables: usize = 0;
    for index in 0..count {
        subtables += subtable_count(table_or_empty(list, 2 + 2 * index));
    }
    subtables
}

/// How many subtables a lookup has, if their offsets lie in the table.
pub(crate) fn subtable_count(lookup: &[u8]) -> usize
    ensures is { result ≡ subtable_count lookup.now }
    ensures few { result < 65536 }
{
    let count = usize::from(u16_at(lookup, 4).unwrap_or(0));
    if 6 + 2 * count <= lookup.len() {
        count
    } else {
        0
    }
}

/// How many of the first offsets of a list are not null.
fn offsets_of_first(list: &[u8], count: usize) -> usize
    requires { count < 65536 }
    ensures { result ≡ offsets_of_first list.now count }
{
    let mut offsets: usize = 0;
    for index in 0..count {
        if table_at_16(list, 2 + 2 * index).is_some() {
            offsets += 1;
        }
    }
    offsets
}
