//! The fonts of a file and their tables, by their tags (OpenType specification, "OpenType Font File").

ghost use Rattle.std.specs.Prelude.{◌≡◌, ◌<◌, ◌+◌, ◌*◌, IfSome, option_map, unwrap_or, false};
ghost use Rattle.std.specs.Option.{option_map_or};
ghost use Rattle.font_tables.specs.Bytes.{number_32};
ghost use Rattle.font_tables.specs.Directory.{face_count, font_of, directory_of, record_count, record_has, table_of_record, is_font_tag};
ghost use Rattle.font_tables.specs.Directory.{is_collection};
ghost use Rattle.font_tables.specs.Rows.{rows_within, first_below};

use crate::bytes::{part, tail, u16_at, u32_at};
use crate::resources::{is_resource_file, resource_font, resource_fonts};
use crate::rows::rows_within;
use rb_common::Tag;

/// The tags that a file with one font begins with: TrueType outlines, Apple's `true`, CFF outlines (`OTTO`) and Type 1
/// outlines (`typ1`).
const FONT_TAGS: [u32; 4] = [0x0001_0000, 0x7472_7565, 0x4F54_544F, 0x7479_7031];

/// The tag `ttcf` that a collection begins with.
const COLLECTION_TAG: u32 = 0x7474_6366;

/// How many fonts a file has: one, or as many as a collection or a Macintosh resource file lists; none where the bytes are no
/// font. HarfBuzz's name is `hb_face_count`.
#[tactic(auto, unfolding(crate::specs::Directory::face_count))]
pub fn face_count(file: &[u8]) -> u32
    ensures { result ≡ face_count file.now }
{
    if is_font(file) {
        1
    } else if is_resource_file(file) {
        resource_fonts(file)
    } else if is_collection(file) {
        listed_faces(file)
    } else {
        0
    }
}

/// The tables of a font.
#[derive(Clone, Copy)]
pub struct Tables<'a> {
    /// The bytes from which offsets count: those of the file, or of a font in a Macintosh resource file.
    pub file: &'a [u8],
    /// Where the font's table directory begins in it.
    pub directory: u32,
}

impl<'a> Tables<'a> {
    ghost use Rattle.font_tables.specs.Directory.{table_of};

    /// The tables of a font in a file: of the only one, whatever the index, or of that with this index in a collection or in
    /// a Macintosh resource file. `None` where the file is no font, or has no font with this index.
    #[tactic(auto, unfolding(crate::specs::Directory::font_of))]
    pub fn new(file: &'a [u8], index: u32) -> Option<Self>
        ensures { option_map (λ tables. (tables.file.now, tables.directory)) result
            ≡ font_of file.now index }
    {
        if is_resource_file(file) {
            let start = resource_font(file, index)?;
            return Some(Tables {
                file: tail(file, start),
                directory: 0,
            });
        }
        let directory = directory_of(file, index)?;
        Some(Tables { file, directory })
    }

    /// The table with this tag, cut to what lies in the file; an empty one where the font has none. Of several with one tag
    /// it is the first.
    #[tactic(auto, unfolding(crate::specs::Directory::table_of))]
    pub fn table(&self, tag: Tag) -> &'a [u8]
        ensures { result.now ≡ table_of self.now.file.now self.now.directory tag.0 }
    {
        let count = record_count(self.file, self.directory);
        match first_record(self.file, self.directory, count, tag) {
            Some(row) => table_of_record(self.file, self.directory, row),
            None => &[],
        }
    }
}

/// Whether the bytes begin as a file with one font does.
fn is_font(file: &[u8]) -> bool
    ensures { result ≡ option_map_or is_font_tag (number_32 file.now 0) false }
{
    match u32_at(file, 0) {
        Some(tag) => FONT_TAGS.contains(&tag),
        None => false,
    }
}

/// Whether the bytes begin as a collection does.
fn is_collection(file: &[u8]) -> bool
    ensures { result ≡ is_collection file.now }
{
    matches!(u32_at(file, 0), Some(COLLECTION_TAG)) && matches!(u16_at(file, 4), Some(1 | 2))
}

/// How many of the fonts that a collection lists have their offset in the file.
fn listed_faces(file: &[u8]) -> u32
    ensures { result ≡ rows_within file.now 12 4 (unwrap_or (number_32 file.now 8) 0) }
{
    let declared = u32_at(file, 8).unwrap_or(0);
    rows_within(file, 12, 4, declared as usize) as u32
}

/// Where the table directory of a font begins.
#[tactic(auto, unfolding(crate::specs::Directory::directory_of))]
fn directory_of(file: &[u8], index: u32) -> Option<u32>
    ensures { result ≡ directory_of file.now index }
{
    if is_font(file) {
        return Some(0);
    }
    if !is_collection(file) || index >= listed_faces(file) {
        return None;
    }
    let offset = u32_at(file, 12 + 4 * index as usize)?;
    if offset == 0 { None } else { Some(offset) }
}

/// How many of the records lie in the file.
fn record_count(file: &[u8], directory: u32) -> u16
    ensures { result ≡ record_count file.now directory }
{
    let declared = u16_at(file, directory as usize + 4).unwrap_or(0);
    rows_within(file, directory as usize + 12, 16, usize::from(declared)) as u16
}

/// The first of the records that has a tag, by its number.
fn first_record(file: &[u8], directory: u32, count: u16, tag: Tag) -> Option<u16>
    requires { count ≡ record_count file.now directory }
    ensures { result ≡ first_below (record_has file.now directory tag.0) count }
{
    for row in 0..count {
        if has_tag(file, directory, row, tag) {
            return Some(row);
        }
    }
    None
}

/// Whether a record has a tag.
fn has_tag(file: &[u8], directory: u32, row: u16, tag: Tag) -> bool
    requires { row < record_count file.now directory }
    ensures { result ≡ record_has file.now directory tag.0 row }
{
    match record_tag(file, directory, usize::from(row)) {
        Some(number) => number == tag.0,
        None => false,
    }
}

/// The tag of a record.
fn record_tag(file: &[u8], directory: u32, row: usize) -> Option<u32>
    requires { row < record_count file.now directory }
    ensures { result ≡ number_32 file.now (directory + 12 + 16 * row) }
{
    let (records, _) = tail(file, directory as usize + 12).as_chunks::<16>();
    u32_at(&records[row], 0)
}

/// The bytes that a record leads to.
fn table_of_record(file: &[u8], directory: u32, row: u16) -> &[u8]
    ensures { result.now ≡ table_of_record file.now directory row }
{
    let record = directory as usize + 12 + 16 * usize::from(row);
    let offset = u32_at(file, record + 8).unwrap_or(0);
    let size = u32_at(file, record + 12).unwrap_or(0);
    part(file, offset as usize, size as usize)
}
