//! What is known of every buffer, from its accessors alone.

ghost use Rattle.std.specs.Prelude.{◌≡◌, ◌≤◌, false, true, pos};

use shaping_buffer::{UnicodeBuffer, hb_buffer_t};
use std::alloc::Global;

/// With no output open nothing was put out.
pub fn out_len_while_closed(buffer: &hb_buffer_t) -> usize
    requires { buffer.now.have_output ≡ false }
    ensures { result ≡ 0 }
{
    buffer.out_len()
}

/// While an output is open there are no positions.
pub fn have_positions_while_open(buffer: &hb_buffer_t) -> bool
    requires { buffer.now.have_output ≡ true }
    ensures { result ≡ false }
{
    buffer.have_positions()
}

/// There are at most ten characters on both sides of the text.
pub fn context_len(buffer: &hb_buffer_t) -> usize
    ensures { result ≤ 10 }
{
    buffer.context(0).len() + buffer.context(1).len()
}

/// How many glyphs a new buffer may hold.
pub fn default_glyph_limit(alloc: Global) -> usize
    ensures { result ≡ 0x3FFF_FFFF }
{
    hb_buffer_t::new(alloc).max_len()
}

/// A new text may hold as many, and its shaper may make so many operations.
pub fn default_operation_limit(alloc: Global) -> i32
    ensures { result ≡ pos 0x1FFF_FFFF }
{
    UnicodeBuffer::new(alloc).into_buffer().max_ops
}
