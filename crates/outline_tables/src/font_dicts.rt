//! The Font DICT of a glyph of a CID-keyed font (The Compact Font Format Specification, "FDSelect").

ghost use Rattle.std.specs.Prelude.{◌≡◌};
ghost use Rattle.outline_tables.specs.FontDicts.{font_dict_of, ranged_dict, range_with};

use font_tables::bytes::{u8_at, u16_at};
use font_tables::rows::{Keys16, first_row};
use rb_common::GlyphId;

/// The number of a glyph's Font DICT, by a table that chooses it; `None` where the table does not reach the glyph.
#[tactic(auto, unfolding(crate::specs::FontDicts::font_dict_of))]
pub fn font_dict_of(select: &[u8], glyph: GlyphId) -> Option<u8>
    ensures { result ≡ font_dict_of select.now glyph.0 }
{
    match u8_at(select, 0)? {
        0 => u8_at(select, 1 + usize::from(glyph.0)),
        3 => ranged_dict(select, glyph),
        _ => None,
    }
}

/// The number of a glyph's Font DICT, by a table of ranges.
#[tactic(auto, unfolding(crate::specs::FontDicts::ranged_dict))]
fn ranged_dict(select: &[u8], glyph: GlyphId) -> Option<u8>
    ensures { result ≡ ranged_dict select.now glyph.0 }
{
    let row = range_with(select, glyph)?;
    u8_at(select, 5 + 3 * usize::from(row))
}

/// The range that holds a glyph.
fn range_with(select: &[u8], glyph: GlyphId) -> Option<u16>
    ensures { result ≡ range_with select.now glyph.0 }
{
    let count = u16_at(select, 1).unwrap_or(0);
    let ends = Keys16 {
        table: select,
        start: 6,
        size: 3,
    };
    let row = first_row(&ends, usize::from(count), u32::from(glyph.0) + 1, false)?;
    Some(row as u16)
}
