//! The tables `hhea`, `vhea` and `OS/2`, as far as shaping asks for them (OpenType specification, "hhea - Horizontal Header
//! Table", "vhea - Vertical Header Table" and "OS/2 - OS/2 and Windows Metrics Table").

ghost use Rattle.std.specs.Prelude.{◌≡◌, ◌<◌, ◌≤◌, ◌+◌, ℕ, unwrap_or};
ghost use Rattle.font_tables.specs.Bytes.{number_16, signed_16, is_number};
ghost use Rattle.font_tables.specs.Extents.{horizontal_extents, long_metric_count, is_header, is_os2, is_filled_in};
ghost use Rattle.font_tables.specs.Extents.{uses_typo_metrics, extents_at};

use crate::bytes::{i16_at, u16_at};

/// How far horizontal lines reach, in font units.
#[derive(Clone, Copy, PartialEq, Eq)]
pub struct FontExtents {
    /// The top of a line, above the baseline: not below 0.
    pub ascender: i32,
    /// The bottom of a line, below the baseline: not above 0.
    pub descender: i32,
}

/// The ascender and the descender of horizontal lines: those of `OS/2` where it is filled in and its flag `USE_TYPO_METRICS`
/// is set, and else those of `hhea`, as HarfBuzz takes them. `None` where neither has them.
#[tactic(auto, unfolding(crate::specs::Extents::horizontal_extents))]
pub fn horizontal_extents(os2: &[u8], hhea: &[u8]) -> Option<FontExtents>
    ensures { result ≡ horizontal_extents os2.now hhea.now }
{
    if is_os2(os2) && uses_typo_metrics(os2) && is_filled_in(os2) {
        extents_at(os2, 68)
    } else if is_header(hhea) {
        extents_at(hhea, 4)
    } else {
        None
    }
}

/// How many glyphs have an advance of their own, by the table `hhea` or `vhea`; 0 where there is no such table.
#[tactic(auto, unfolding(crate::specs::Extents::long_metric_count))]
pub fn long_metric_count(header: &[u8]) -> u16
    ensures { result ≡ long_metric_count header.now }
{
    if is_header(header) {
        u16_at(header, 34).unwrap_or(0)
    } else {
        0
    }
}

/// Whether these are the bytes of a table `hhea` or `vhea`.
fn is_header(table: &[u8]) -> bool
    ensures { result ≡ is_header table.now }
{
    table.len() >= 36 && matches!(u16_at(table, 0), Some(1))
}

/// Whether these are the bytes of a table `OS/2`, which has the more the higher its version is.
fn is_os2(os2: &[u8]) -> bool
    ensures { result ≡ is_os2 os2.now }
{
    let size = match u16_at(os2, 0).unwrap_or(0) {
        0 => 78,
        1 => 86,
        2..=4 => 96,
        _ => 100,
    };
    os2.len() >= size
}

/// Whether a table `OS/2` has a weight class, a width class, a first or a last character.
fn is_filled_in(os2: &[u8]) -> bool
    ensures { result ≡ is_filled_in os2.now }
{
    !(is_zero(os2, 4) && is_zero(os2, 6) && is_zero(os2, 64) && is_zero(os2, 66))
}

/// Whether the number of 16 bits at a place is 0.
fn is_zero(table: &[u8], at: usize) -> bool
    ensures { result ≡ is_number (number_16 table.now at) 0 }
{
    matches!(u16_at(table, at), Some(0))
}

/// Whether the flag `USE_TYPO_METRICS` is set, which is bit 7 of the selection flags.
fn uses_typo_metrics(os2: &[u8]) -> bool
    ensures { result ≡ uses_typo_metrics os2.now }
{
    u16_at(os2, 62).unwrap_or(0) / 128 % 2 == 1
}

/// The ascender at a place and the descender behind it.
fn extents_at(table: &[u8], at: usize) -> Option<FontExtents>
    requires { at < 65536 }
    ensures { result ≡ extents_at table.now at }
{
    let ascender = i16_at(table, at)?;
    let descender = i16_at(table, at + 2)?;
    Some(FontExtents {
        ascender: i32::from(ascender).abs(),
        descender: -i32::from(descender).abs(),
    })
}
