//! The tables of a font's lookups.

ghost use Rattle.std.specs.Prelude.{◌≡◌, codes};
ghost use Rattle.rb_common.specs.Tag.{tag_of};
ghost use Rattle.font_tables.specs.Directory.{table_of};
ghost use Rattle.font_face.specs.Face.{IsLayoutOf, is_read, read_table};
ghost use Rattle.font_face.specs.Tables.{table_in};

use crate::directory::Directory;
use font_tables::bytes::{u16_at, u32_at};
use ot_lookups::subtable_limit::is_refused;
use rb_common::Tag;

/// The tables that substitute and position glyphs, each empty where the font has none.
#[derive(Clone, Copy)]
pub struct Layout<'a> {
    /// The table `GSUB`, which substitutes glyphs, where HarfBuzz reads it.
    pub gsub: &'a [u8],
    /// The table `GPOS`, which positions them, where HarfBuzz reads it.
    pub gpos: &'a [u8],
    /// The table `kern`, which old fonts have in place of `GPOS`.
    pub kern: &'a [u8],
    /// The table `morx`, which Apple's fonts have in place of `GSUB`.
    pub morx: &'a [u8],
    /// The table `feat`, which says which features `morx` has.
    pub feat: &'a [u8],
    /// The table `trak`, by which glyphs stand closer or farther apart at a size.
    pub trak: &'a [u8],
}

impl<'a> Layout<'a> {
    /// The tables of lookups among those of a font.
    pub(crate) fn new(tables: &Directory<'a>) -> Self
        ensures { IsLayoutOf result tables.now.tables }
    {
        Layout {
            gsub: read_table(tables.table(Tag::from_bytes(b"GSUB"))),
            gpos: read_table(tables.table(Tag::from_bytes(b"GPOS"))),
            kern: tables.table(Tag::from_bytes(b"kern")),
            morx: tables.table(Tag::from_bytes(b"morx")),
            feat: tables.table(Tag::from_bytes(b"feat")),
            trak: tables.table(Tag::from_bytes(b"trak")),
        }
    }

    /// Whether the font has a table `GPOS` that is read.
    #[tactic(auto, using(crate::proofs::LayoutLemmas::not_empty_is_read))]
    pub(crate) fn has_gpos(&self, _tables: &Directory<'a>) -> bool
        requires { IsLayoutOf self.now _tables.now.tables }
        ensures { result ≡ is_read (table_in _tables.now.tables (codes "GPOS")) }
    {
        !self.gpos.is_empty()
    }
}

/// A table of lookups, if it is read.
fn read_table(table: &[u8]) -> &[u8]
    ensures { result.now ≡ read_table table.now }
{
    if is_read(table) { table } else { &[] }
}

/// Whether a table of lookups is read: one of version 1 holds its header, with the offset of feature variations from version 1.1 on,
/// and is not refused for its subtables. One of an unknown version is read as one without lookups.
fn is_read(table: &[u8]) -> bool
    ensures { result ≡ is_read table.now }
{
    match u16_at(table, 0) {
        Some(1) => {
            let header = if matches!(u16_at(table, 2), Some(0)) {
                10
            } else {
                14
            };
            header <= table.len() && !is_refused(table)
        }
        _ => u32_at(table, 0).unwrap_or(0) > 0,
    }
}
