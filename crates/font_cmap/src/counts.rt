//! Numbers that count rows.

ghost use Rattle.std.specs.Prelude.{◌≡◌, ◌<◌, ◌^◌, unwrap_or};
ghost use Rattle.font_tables.specs.Bytes.{number_16, number_32};

use font_tables::bytes::{u16_at, u32_at};

/// The count of 16 bits at a place; 0 where it lies outside of the table.
pub(crate) fn count_16(table: &[u8], place: usize) -> usize
    ensures is { result ≡ unwrap_or (number_16 table.now place) 0 }
    ensures small { result < 2 ^ 16 }
{
    match u16_at(table, place) {
        Some(count) => usize::from(count),
        None => 0,
    }
}

/// The count of 32 bits at a place; 0 where it lies outside of the table.
pub(crate) fn count_32(table: &[u8], place: usize) -> usize
    ensures is { result ≡ unwrap_or (number_32 table.now place) 0 }
    ensures small { result < 2 ^ 32 }
{
    match u32_at(table, place) {
        Some(count) => count as usize,
        None => 0,
    }
}
