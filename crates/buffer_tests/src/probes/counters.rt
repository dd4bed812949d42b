//! Closures whose answers change from call to call: what takes a closure takes these.

ghost use Rattle.std.specs.Prelude.{◌≡◌, ◌<◌, false};
ghost use Rattle.shaping_buffer.specs.State.{len};

use shaping_buffer::hb_buffer_t;
use std::cell::Cell;

/// Counts its calls, and answers true but at each of so many.
fn is_counted(count: &Cell<u32>, every: u32) -> bool {
    let calls = count.get().wrapping_add(1);
    count.set(calls);
    every == 0 || calls % every != 0
}

/// Where a group ends that a counter ends.
pub fn end_by_a_counter(buffer: &hb_buffer_t, start: usize, every: u32) -> usize
    requires closed { buffer.now.have_output ≡ false }
    requires within { start < len buffer.now }
{
    let count = Cell::new(0);
    buffer.group_end(start, |_, _| is_counted(&count, every))
}

/// Reverses groups that a counter ends.
pub fn reverse_by_a_counter(buffer: &mut hb_buffer_t, every: u32, merge: bool)
    requires { buffer.old.have_output ≡ false }
{
    let count = Cell::new(0);
    buffer.reverse_groups(|_, _| is_counted(&count, every), merge);
}

/// Deletes the glyphs that a counter picks.
pub fn delete_by_a_counter(buffer: &mut hb_buffer_t, every: u32)
    requires { buffer.old.have_output ≡ false }
{
    let count = Cell::new(0);
    buffer.delete_glyphs_inplace(|_| is_counted(&count, every));
}
