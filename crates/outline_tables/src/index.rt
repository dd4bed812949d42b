//! The items of an INDEX (The Compact Font Format Specification, "INDEX Data").

ghost use Rattle.std.specs.Prelude.{◌≡◌, ◌+◌};
ghost use Rattle.std.specs.Option.{option_copied};
ghost use Rattle.outline_tables.specs.Index.{index_count, index_item, index_offset, index_size, offset_size};

use crate::glyf::between;
use font_tables::bytes::{u8_at, u16_at};
use font_variations::index_map::number_of_size;

/// How many items an INDEX has; none where the table is empty.
pub fn index_count(index: &[u8]) -> u16
    ensures { result ≡ index_count index.now }
{
    u16_at(index, 0).unwrap_or(0)
}

/// How many bytes each offset has.
fn offset_size(index: &[u8]) -> u8
    ensures { result ≡ offset_size index.now }
{
    u8_at(index, 2).unwrap_or(0)
}

/// The offset of a number.
fn index_offset(index: &[u8], number: u32) -> Option<u32>
    ensures { result ≡ index_offset index.now number }
{
    let size = offset_size(index);
    number_of_size(size, index, 3 + usize::from(size) * number as usize)
}

/// The place that offsets count from: the byte before the first item.
fn index_base(index: &[u8]) -> u32
    ensures { result ≡ Rattle.outline_tables.specs.Index.index_base index.now }
{
    2 + u32::from(offset_size(index)) * (u32::from(index_count(index)) + 1)
}

/// The bytes of an item; `None` where the INDEX has no such item.
#[tactic(auto, unfolding(crate::specs::Index::index_item))]
pub fn index_item(index: &[u8], number: u32) -> Option<&[u8]>
    ensures { option_copied result ≡ index_item index.now number }
{
    if number < u32::from(index_count(index)) {
        let start = index_offset(index, number)?;
        let end = index_offset(index, number + 1)?;
        let base = index_base(index) as usize;
        Some(between(index, base + start as usize, base + end as usize))
    } else {
        None
    }
}

/// How many bytes an INDEX has; `None` where its offsets do not lie in the table.
#[tactic(auto, unfolding(crate::specs::Index::index_size))]
pub fn index_size(index: &[u8]) -> Option<usize>
    ensures { result ≡ index_size index.now }
{
    let count = u16_at(index, 0)?;
    if count == 0 {
        Some(2)
    } else {
        let end = index_offset(index, u32::from(count))?;
        Some(index_base(index) as usize + end as usize)
    }
}
