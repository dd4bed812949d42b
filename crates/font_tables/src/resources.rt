//! The fonts of a Macintosh resource file (Apple, "Inside Macintosh: More Macintosh Toolbox", "Resource Manager").

ghost use Rattle.std.specs.Prelude.{◌≡◌, ◌<◌, ◌≤◌, ◌+◌, ◌^◌, IfSome};
ghost use Rattle.font_tables.specs.Rows.{first_below};
ghost use Rattle.font_tables.specs.Resources as resources;

use crate::bytes::{u16_at, u24_at, u32_at};

/// The tag `sfnt` of the type of fonts.
const FONT_TYPE: u32 = 0x7366_6E74;

/// Where the data of a resource file begins, which its first number says.
const DATA: u32 = 256;

/// Whether the bytes begin as a resource file does.
pub(crate) fn is_resource_file(file: &[u8]) -> bool
    ensures { result ≡ resources.is_resource_file file.now }
{
    matches!(u32_at(file, 0), Some(DATA))
}

/// Where the bytes of the font with this index begin.
#[tactic(auto, unfolding(crate::specs::Resources::resource_font))]
pub(crate) fn resource_font(file: &[u8], index: u32) -> Option<usize>
    ensures { result ≡ resources.resource_font file.now index }
{
    let types = type_list(file)?;
    let row = font_type(file, types)?;
    let more = u16_at(file, types + 6 + 8 * usize::from(row))?;
    if index <= u32::from(more) {
        resource_of_type(file, types, row, index as u16)
    } else {
        None
    }
}

/// How many fonts there are.
pub(crate) fn resource_fonts(file: &[u8]) -> u32
    ensures { result ≡ resources.resource_fonts file.now }
{
    counted_fonts(file).unwrap_or(0)
}

/// How many fonts there are, where there is a type of fonts.
#[tactic(auto, unfolding(crate::specs::Resources::counted_fonts))]
fn counted_fonts(file: &[u8]) -> Option<u32>
    ensures { result ≡ resources.counted_fonts file.now }
{
    let types = type_list(file)?;
    let row = font_type(file, types)?;
    let more = u16_at(file, types + 6 + 8 * usize::from(row))?;
    Some(u32::from(more) + 1)
}

/// Where the list of the types of resources begins.
fn type_list(file: &[u8]) -> Option<usize>
    ensures is { result ≡ resources.type_list file.now }
    ensures near { IfSome result (λ types. types < 2 ^ 33) }
{
    let map = u32_at(file, 4)? as usize;
    let offset = u16_at(file, map + 24)?;
    Some(map + usize::from(offset))
}

/// The first type of fonts in the list.
fn font_type(file: &[u8], types: usize) -> Option<u16>
    requires { types < 2 ^ 33 }
    ensures { result ≡ resources.font_type file.now types }
{
    let more = u16_at(file, types)?;
    first_font_type(file, types, u32::from(more) + 1)
}

/// The first of so many types that is that of fonts.
fn first_font_type(file: &[u8], types: usize, count: u32) -> Option<u16>
    requires near { types < 2 ^ 33 }
    requires few { count ≤ 65536 }
    ensures { result ≡ first_below (resources.is_font_type file.now types) count }
{
    for row in 0..count {
        if is_font_type(file, types, row) {
            return Some(row as u16);
        }
    }
    None
}

/// Whether a type of the list is that of fonts.
fn is_font_type(file: &[u8], types: usize, row: u32) -> bool
    requires near { types < 2 ^ 33 }
    requires few { row < 65536 }
    ensures { result ≡ resources.is_font_type file.now types row }
{
    match u32_at(file, types + 2 + 8 * row as usize) {
        Some(tag) => tag == FONT_TYPE,
        None => false,
    }
}

/// Where the bytes of a resource of a type begin.
fn resource_of_type(file: &[u8], types: usize, row: u16, index: u16) -> Option<usize>
    requires { types < 2 ^ 33 }
    ensures { result ≡ resources.resource_of_type file.now types row index }
{
    let list = u16_at(file, types + 8 + 8 * usize::from(row))?;
    let record = types + usize::from(list) + 12 * usize::from(index);
    let offset = u24_at(file, record + 5)?;
    Some(DATA as usize + offset as usize + 4)
}
