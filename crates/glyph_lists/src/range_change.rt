//! What a call makes of the glyph flags of a range of both sides: bits for all its glyphs, or a scan.

ghost use Rattle.std.specs.Prelude.{◌≡◌, ◌+◌, ◌≤◌, ◌++◌, length, take, drop};
ghost use Rattle.glyph_lists.specs.RangeChange.{changed};

use crate::cluster_order::ClusterOrder;
use crate::glyph_flags::{mark_range, scan_parts};
use rb_glyph::hb_glyph_info_t;

/// A change of the glyph flags of a range.
#[derive(Clone, Copy)]
pub enum RangeChange {
    /// Each glyph gets the bits.
    Mark { bits: u32 },
    /// Those outside the least cluster get the bits, what lies on either side being a part of its own.
    Scan { bits: u32, order: ClusterOrder },
}

/// Changes the glyphs from `start` to `end` of the two sides as one list, `out` first, where `end` is not within `out`.
#[inline(always)]
#[tactic(auto, using(crate::proofs::ScansLemmas::slices_scanned))]
pub fn change(
    out: &mut [hb_glyph_info_t],
    input: &mut [hb_glyph_info_t],
    start: usize,
    end: usize,
    change: RangeChange,
)
    requires past_out { length out.old ≤ end }
    requires range { start ≤ end }
    requires within { end ≤ length out.old + length input.old }
    ensures out { out.new ≡ take (length out.old)
        (changed change (length out.old) (out.old ++ input.old) start end) }
    ensures input { input.new ≡ drop (length out.old)
        (changed change (length out.old) (out.old ++ input.old) start end) }
{
    match change {
        RangeChange::Mark { bits } => mark_range(out, input, start, end, bits),
        RangeChange::Scan { bits, order } => {
            let len = out.len();
            let seam = start.min(len);
            let from = start.saturating_sub(len);
            let to = end - len;
            scan_parts(&mut out[seam..len], &mut input[from..to], bits, order);
        }
    }
}
