//! Glyph flags of a range of a buffer with no output open, whatever the range.

ghost use Rattle.std.specs.Prelude.{◌≡◌, [], false, IsSome};
ghost use Rattle.ot_attachments.specs.Flags.{KeepsBits, attachments_marked, break_marked, concat_marked, untouched};
ghost use Rattle.shaping_buffer.specs.State.{len};

use shaping_buffer::{HB_BUFFER_SCRATCH_FLAG_HAS_GPOS_ATTACHMENT, hb_buffer_t};

/// Marks glyphs from a place up to another as unsafe to break and to concatenate (HarfBuzz, `unsafe_to_break`).
#[tactic(auto, using(crate::proofs::FlagLemmas::untouched_unsafe_to_break, crate::proofs::FlagLemmas::unsafe_to_break_keeps), unfolding(crate::specs::Flags::break_marked))]
pub fn mark_break(buffer: &mut hb_buffer_t, from: usize, to: usize)
    requires closed { buffer.old.have_output ≡ false }
    requires placed { IsSome buffer.old.positions }
    ensures is { buffer.new ≡ break_marked from to buffer.old }
    ensures closed { buffer.new.have_output ≡ false }
    ensures placed { IsSome buffer.new.positions }
    ensures rest { untouched buffer.new ≡ untouched buffer.old }
    ensures flags { KeepsBits buffer.old.input buffer.new.input }
{
    let len = closed_len(buffer);
    if from <= to && from <= len {
        buffer.unsafe_to_break(Some(from), Some(to));
    }
}

/// Marks glyphs from a place up to another as unsafe to concatenate, if the buffer's flags ask for that (HarfBuzz,
/// `unsafe_to_concat`).
#[tactic(auto, using(crate::proofs::FlagLemmas::untouched_unsafe_to_concat, crate::proofs::FlagLemmas::unsafe_to_concat_keeps), unfolding(crate::specs::Flags::concat_marked))]
pub fn mark_concat(buffer: &mut hb_buffer_t, from: usize, to: usize)
    requires closed { buffer.old.have_output ≡ false }
    requires placed { IsSome buffer.old.positions }
    ensures is { buffer.new ≡ concat_marked from to buffer.old }
    ensures closed { buffer.new.have_output ≡ false }
    ensures placed { IsSome buffer.new.positions }
    ensures rest { untouched buffer.new ≡ untouched buffer.old }
    ensures flags { KeepsBits buffer.old.input buffer.new.input }
{
    let len = closed_len(buffer);
    if from < to && from <= len {
        buffer.unsafe_to_concat(Some(from), Some(to));
    }
}

/// How many glyphs there are, of which none is put out while no output is open.
#[inline]
fn closed_len(buffer: &hb_buffer_t) -> usize
    requires { buffer.now.have_output ≡ false }
    ensures len { result ≡ len buffer.now }
    ensures none { buffer.now.out ≡ [] }
{
    prove!(buffer.out_len() == 0);
    buffer.len()
}

/// Says that there are glyphs that are attached to others.
#[tactic(auto, unfolding(crate::specs::Flags::attachments_marked, crate::specs::Flags::untouched))]
pub fn mark_attached(buffer: &mut hb_buffer_t)
    requires closed { buffer.old.have_output ≡ false }
    requires placed { IsSome buffer.old.positions }
    ensures is { buffer.new ≡ attachments_marked buffer.old }
    ensures closed { buffer.new.have_output ≡ false }
    ensures placed { IsSome buffer.new.positions }
    ensures rest { untouched buffer.new ≡ untouched buffer.old }
    ensures flags { KeepsBits buffer.old.input buffer.new.input }
{
    buffer.scratch_flags |= HB_BUFFER_SCRATCH_FLAG_HAS_GPOS_ATTACHMENT;
}
