//! Numbers at places of a table, big endian (OpenType specification, "Data types").

ghost use Rattle.std.specs.Prelude.{◌≢◌, None, ◌≡◌, ◌+◌, ◌-◌, ◌*◌, ◌<◌, ◌≤◌, length, drop, take};
ghost use Rattle.font_tables.specs.Bytes.{byte_at, number_16, number_24, number_32, signed_16, table_at_16, table_behind};
ghost use Rattle.font_tables.specs.Bytes.{table_at_32};
ghost use Rattle.std.specs.Option.{option_copied};

/// The number of 8 bits at a place; `None` outside of the table.
#[tactic(auto, unfolding(crate::specs::Bytes::byte_at))]
pub fn u8_at(table: &[u8], at: usize) -> Option<u8>
    ensures { result ≡ byte_at table.now at }
{
    table.get(at).copied()
}

/// The number of 16 bits at a place; `None` unless both of its bytes lie in the table.
#[tactic(auto, unfolding(crate::specs::Bytes::number_16))]
pub fn u16_at(table: &[u8], at: usize) -> Option<u16>
    ensures { result ≡ number_16 table.now at }
{
    match table.get(at..)? {
        [high, low, ..] => Some(u16::from_be_bytes([*high, *low])),
        _ => None,
    }
}

/// The signed number of 16 bits at a place, in two's complement; `None` unless both of its bytes lie in the table.
pub fn i16_at(table: &[u8], at: usize) -> Option<i16>
    ensures { result ≡ signed_16 table.now at }
{
    u16_at(table, at).map(|number| number.cast_signed())
}

/// The number of 24 bits at a place; `None` unless its three bytes lie in the table.
#[tactic(auto, unfolding(crate::specs::Bytes::number_24))]
pub fn u24_at(table: &[u8], at: usize) -> Option<u32>
    ensures { result ≡ number_24 table.now at }
{
    match table.get(at..)? {
        [high, middle, low, ..] => Some(
            u32::from(*high) * 65536 + u32::from(*middle) * 256 + u32::from(*low),
        ),
        _ => None,
    }
}

/// The number of 32 bits at a place; `None` unless its four bytes lie in the table.
#[tactic(auto, unfolding(crate::specs::Bytes::number_32))]
pub fn u32_at(table: &[u8], at: usize) -> Option<u32>
    ensures { result ≡ number_32 table.now at }
{
    match table.get(at..)? {
        [first, second, third, fourth, ..] => {
            Some(u32::from_be_bytes([*first, *second, *third, *fourth]))
        }
        _ => None,
    }
}

/// The table from a place on, which is empty from its end on.
pub fn tail(table: &[u8], at: usize) -> &[u8]
    ensures { result.now ≡ drop at table.now }
{
    if at < table.len() { &table[at..] } else { &[] }
}

/// So many bytes of the table from a place on, or as many as there are.
pub fn part(table: &[u8], at: usize, count: usize) -> &[u8]
    ensures { result.now ≡ take count (drop at table.now) }
{
    let rest = tail(table, at);
    if count < rest.len() {
        &rest[..count]
    } else {
        rest
    }
}

/// The table that the offset of 16 bits at a place leads to, from the start of this one; `None` where the offset is 0,
/// or lies outside.
#[tactic(auto, unfolding(crate::specs::Bytes::table_at_16))]
pub fn table_at_16(table: &[u8], at: usize) -> Option<&[u8]>
    ensures { option_copied result ≡ table_at_16 table.now at }
{
    let offset = u16_at(table, at)?;
    table_behind(table, u32::from(offset))
}

/// The table that the offset of 32 bits at a place leads to, from the start of this one; `None` where the offset is 0,
/// or lies outside.
#[tactic(auto, unfolding(crate::specs::Bytes::table_at_32))]
pub fn table_at_32(table: &[u8], at: usize) -> Option<&[u8]>
    ensures { option_copied result ≡ table_at_32 table.now at }
{
    let offset = u32_at(table, at)?;
    table_behind(table, offset)
}

/// The table that an offset leads to; `None` where it is 0.
fn table_behind(table: &[u8], offset: u32) -> Option<&[u8]>
    ensures { option_copied result ≡ table_behind table.now offset }
{
    if offset == 0 {
        None
    } else {
        Some(tail(table, offset as usize))
    }
}
