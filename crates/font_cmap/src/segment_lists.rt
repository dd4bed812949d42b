//! The lists that the segments of a subtable stand in (OpenType specification, `cmap`, "Format 4").

ghost use Rattle.std.specs.Prelude.{◌≡◌, ◌<◌, ◌^◌, ◌*◌, ℕ};
ghost use Rattle.font_tables.specs.Bytes.{number_16};
ghost use Rattle.font_cmap.specs.Subtables.{number_of_list, segment_count, segment_end};

use crate::low_numbers::low_u16_at;
use crate::runs::{Beside, CodeRows};
use font_tables::bytes::{tail, u16_at};
use std::cmp::Ordering;

/// The segments of a subtable, of which four lists have the ends, the starts, the deltas and the range offsets. Where these begin is
/// found once.
#[derive(Clone, Copy)]
pub(crate) struct Segments<'a> {
    /// The subtable, from its format on.
    pub(crate) table: &'a [u8],
    /// How many segments there are.
    pub(crate) count: u32,
    end_codes: &'a [u8],
    start_codes: &'a [u8],
    id_deltas: &'a [u8],
    id_range_offsets: &'a [u8],
    ghost counts: { count ≡ segment_count table.now },
    ghost ends: { (row : ℕ) → number_16 end_codes.now (2 * row) ≡ segment_end table.now row },
    ghost starts: { (row : ℕ) → number_16 start_codes.now (2 * row) ≡ number_of_list table.now 1 row },
    ghost deltas: { (row : ℕ) → number_16 id_deltas.now (2 * row) ≡ number_of_list table.now 2 row },
    ghost offsets: { (place : ℕ) → number_16 id_range_offsets.now (2 * place) ≡ number_of_list table.now 3 place },
}

impl<'a> Segments<'a> {
    /// The segments of a subtable.
    pub(crate) fn new(table: &'a [u8]) -> Self
        ensures { result.table.now ≡ table.now }
    {
        let count = segment_count(table);
        let size = 2 * count as usize;
        let end_codes = tail(table, 14);
        let start_codes = tail(table, 16 + size);
        let id_deltas = tail(table, 16 + 2 * size);
        let id_range_offsets = tail(table, 16 + 3 * size);
        Segments {
            table,
            count,
            end_codes,
            start_codes,
            id_deltas,
            id_range_offsets,
        }
    }

    /// The last code of a segment.
    #[inline]
    pub(crate) fn end_code(&self, row: u32) -> Option<u16>
        ensures { result ≡ segment_end self.now.table.now row }
    {
        low_u16_at(self.end_codes, 2 * row as usize)
    }

    /// The first code of a segment.
    #[inline]
    pub(crate) fn start_code(&self, row: u32) -> Option<u16>
        ensures { result ≡ number_of_list self.now.table.now 1 row }
    {
        low_u16_at(self.start_codes, 2 * row as usize)
    }

    /// What is added to the codes of a segment, or to its glyphs.
    #[inline]
    pub(crate) fn id_delta(&self, row: u32) -> Option<u16>
        ensures { result ≡ number_of_list self.now.table.now 2 row }
    {
        low_u16_at(self.id_deltas, 2 * row as usize)
    }

    /// The number at a place of the range offsets and of the glyphs that stand behind them.
    #[inline]
    pub(crate) fn id_range_offset(&self, place: usize) -> Option<u16>
        requires { place < 2 ^ 40 }
        ensures { result ≡ number_of_list self.now.table.now 3 place }
    {
        low_u16_at(self.id_range_offsets, 2 * place)
    }
}

impl CodeRows for Segments<'_> {
    ghost use Rattle.font_cmap.specs.Subtables.{beside_segment};

    ghost place_of = { λ segments code row. beside_segment segments.table.now code row };

    #[inline]
    fn beside_run(&self, code: u32, row: u32) -> Beside {
        let order = None;
        let Some(end) = self.end_code(row) else {
            return Beside {
                order,
                last: u32::MAX,
            };
        };
        let end = u32::from(end);
        if end < code {
            return Beside {
                order: Some(Ordering::Greater),
                last: u32::MAX,
            };
        }
        match self.start_code(row) {
            None => Beside { order, last: end },
            Some(start) if code < u32::from(start) => Beside {
                order: Some(Ordering::Less),
                last: end.min(u32::from(start) - 1),
            },
            Some(_) => Beside {
                order: Some(Ordering::Equal),
                last: end,
            },
        }
    }
}

/// How many segments there are: the table has twice that number.
#[tactic(auto, unfolding(crate::specs::Subtables::segment_count))]
fn segment_count(table: &[u8]) -> u32
    ensures { result ≡ segment_count table.now }
{
    u32::from(u16_at(table, 6).unwrap_or(0)) / 2
}
