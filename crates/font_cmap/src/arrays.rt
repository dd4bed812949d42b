//! Subtables that have a glyph for each code from a first one on (OpenType specification, `cmap`, "Format 0", "Format 6" and
//! "Format 10").

ghost use Rattle.std.specs.Prelude.{◌≡◌, ◌<◌};
ghost use Rattle.font_cmap.specs.Subtables.{some_glyph, byte_glyph, listed_glyph, trimmed_table_glyph};
ghost use Rattle.font_cmap.specs.Subtables.{trimmed_array_glyph};

use font_tables::bytes::{u8_at, u16_at, u32_at};

/// The glyph of a number: 0 is no glyph, and none is above 65,535.
pub(crate) fn some_glyph(number: u64) -> Option<u16>
    ensures { result ≡ some_glyph number }
{
    if number == 0 || number > 65535 {
        None
    } else {
        Some(number as u16)
    }
}

/// The glyph of a code by format 0, which has a byte for each of the first 256 codes.
#[tactic(auto, unfolding(crate::specs::Subtables::byte_glyph))]
pub(crate) fn byte_glyph(table: &[u8], code: u32) -> Option<u16>
    ensures { result ≡ byte_glyph table.now code }
{
    if code < 256 {
        let glyph = u8_at(table, 6 + code as usize)?;
        some_glyph(u64::from(glyph))
    } else {
        None
    }
}

/// The glyph of a code among `count` glyphs from a place on, of which `first` has the first.
#[tactic(auto, unfolding(crate::specs::Subtables::listed_glyph))]
fn listed_glyph(table: &[u8], place: usize, first: u32, count: u32, code: u32) -> Option<u16>
    requires { place < 65536 }
    ensures { result ≡ listed_glyph table.now place first count code }
{
    if code < first || code - first >= count {
        return None;
    }
    let glyph = u16_at(table, place + 2 * (code - first) as usize)?;
    some_glyph(u64::from(glyph))
}

/// The glyph of a code by format 6.
#[tactic(auto, unfolding(crate::specs::Subtables::trimmed_table_glyph))]
pub(crate) fn trimmed_table_glyph(table: &[u8], code: u32) -> Option<u16>
    ensures { result ≡ trimmed_table_glyph table.now code }
{
    let first = u16_at(table, 6)?;
    let count = u16_at(table, 8)?;
    listed_glyph(table, 10, u32::from(first), u32::from(count), code)
}

/// The glyph of a code by format 10.
#[tactic(auto, unfolding(crate::specs::Subtables::trimmed_array_glyph))]
pub(crate) fn trimmed_array_glyph(table: &[u8], code: u32) -> Option<u16>
    ensures { result ≡ trimmed_array_glyph table.now code }
{
    let first = u32_at(table, 12)?;
    let count = u32_at(table, 16)?;
    listed_glyph(table, 20, first, count, code)
}
