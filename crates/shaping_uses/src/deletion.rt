//! Every second glyph is deleted.

ghost use Rattle.std.specs.Prelude.{◌≡◌, ◌+◌, ◌*◌, ◌≤◌, true, false, Ok, length};

use shaping_buffer::hb_buffer_t;
use std::alloc::AllocError;

/// Deletes every second glyph. The pass stays in place, so it asks for no memory and is always done. Requires that no
/// output is open and no refusal stands.
#[tactic(auto, using(shaping_runs::proofs::CallerLaws::lengths))]
pub fn delete_every_second(buffer: &mut hb_buffer_t) -> Result<bool, AllocError>
    requires closed { buffer.old.have_output ≡ false }
    requires successful { buffer.old.successful ≡ true }
    ensures done { result ≡ Ok true }
    ensures closed { buffer.new.have_output ≡ false }
    ensures at_least_half { length buffer.old.input ≤ 2 * length buffer.new.input }
    ensures at_most_half { 2 * length buffer.new.input ≤ length buffer.old.input + 1 }
{
    buffer.clear_output();
    while buffer.lookahead_len() >= 2 {
        buffer.next_glyph()?;
        buffer.delete_glyph();
    }
    buffer.sync()
}
