//! Numbers at low places, for which one comparison shows that they lie in the table.

ghost use Rattle.std.specs.Prelude.{◌≡◌, ◌<◌, ◌^◌};
ghost use Rattle.font_tables.specs.Bytes.{number_16, number_32};

/// The number of 16 bits at a place; `None` unless both of its bytes lie in the table.
#[inline]
#[tactic(auto, unfolding(font_tables::specs::Bytes::number_16))]
pub(crate) fn low_u16_at(table: &[u8], at: usize) -> Option<u16>
    requires { at < 2 ^ 48 }
    ensures { result ≡ number_16 table.now at }
{
    match table.get(at..at + 2)? {
        [high, low, ..] => Some(u16::from_be_bytes([*high, *low])),
        _ => None,
    }
}

/// The number of 32 bits at a place; `None` unless its four bytes lie in the table.
#[inline]
#[tactic(auto, unfolding(font_tables::specs::Bytes::number_32))]
pub(crate) fn low_u32_at(table: &[u8], at: usize) -> Option<u32>
    requires { at < 2 ^ 48 }
    ensures { result ≡ number_32 table.now at }
{
    match table.get(at..at + 4)? {
        [first, second, third, fourth, ..] => {
            Some(u32::from_be_bytes([*first, *second, *third, *fourth]))
        }
        _ => None,
    }
}
