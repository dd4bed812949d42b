//! Calls while the output is in place, in the storage of the input. They take no memory, so they never run out of it.
//! It is so of single calls, and of a list of them.

ghost use Rattle.std.specs.Prelude.{◌≡◌, ◌<◌, ◌≤◌, true, false, None, Ok, [], drop, replicate, IfNone, IfSome, IsSome};
ghost use Rattle.shaping_buffer.specs.State.{len, lookahead_len};
ghost use Rattle.shaping_buffer.specs.Step as step;
ghost use Rattle.shaping_buffer.specs.Step.{Meets, last_place};
ghost use Rattle.shaping_runs.specs.declared.call.Answer.TheVariants as answer;

use shaping_buffer::hb_buffer_t;
use shaping_runs::{Answer, Call, replay};
use std::alloc::AllocError;

/// Puts the glyph at the cursor out.
pub fn next_in_place(buffer: &mut hb_buffer_t) -> Result<bool, AllocError>
    requires glyph { 0 < lookahead_len buffer.old }
    requires in_place { buffer.old.have_separate_output ≡ false }
    ensures done { result ≡ Ok true }
    ensures meets { Meets (step.next_glyph buffer.old) buffer.old result buffer.new }
{
    buffer.next_glyph()
}

/// Puts `n` glyphs out.
pub fn next_glyphs_in_place(buffer: &mut hb_buffer_t, n: usize) -> Result<bool, AllocError>
    requires glyphs { n ≤ lookahead_len buffer.old }
    requires in_place { buffer.old.have_separate_output ≡ false }
    ensures done { result ≡ Ok true }
    ensures meets { Meets (step.next_glyphs n buffer.old) buffer.old result buffer.new }
{
    buffer.next_glyphs(n)
}

/// Puts the glyph at the cursor out under another id.
pub fn replace_in_place(buffer: &mut hb_buffer_t, id: u32) -> Result<bool, AllocError>
    requires opened { buffer.old.have_output ≡ true }
    requires glyph { 0 < lookahead_len buffer.old }
    requires in_place { buffer.old.have_separate_output ≡ false }
    ensures done { result ≡ Ok true }
    ensures meets { Meets (step.replace_glyph id buffer.old) buffer.old result buffer.new }
{
    buffer.replace_glyph(id)
}

/// Moves the cursor to a place of both sides, where no refusal stands.
pub fn move_in_place(buffer: &mut hb_buffer_t, i: usize) -> Result<bool, AllocError>
    requires within { i ≤ last_place buffer.old }
    requires successful { buffer.old.successful ≡ true }
    requires in_place { buffer.old.have_separate_output ≡ false }
    ensures done { result ≡ Ok true }
    ensures meets { Meets (step.move_to i buffer.old) buffer.old result buffer.new }
{
    buffer.move_to(i)
}

/// Closes the output, where no refusal stands.
pub fn sync_in_place(buffer: &mut hb_buffer_t) -> Result<bool, AllocError>
    requires opened { buffer.old.have_output ≡ true }
    requires successful { buffer.old.successful ≡ true }
    requires in_place { buffer.old.have_separate_output ≡ false }
    ensures done { result ≡ Ok true }
    ensures meets { Meets (step.sync buffer.old) buffer.old result buffer.new }
{
    buffer.sync()
}

/// Drops the first glyph, puts three out, takes them back, and closes, in the storage of the input. With memory gone
/// after the text was pushed, these calls are done all the same: none puts out more glyphs than it reads, so `replay`
/// stops at none of them. `None` where there are fewer than four glyphs: then nothing changes.
pub fn rewind_in_place(buffer: &mut hb_buffer_t) -> Option<[Answer; 7]>
    requires closed { buffer.old.have_output ≡ false }
    requires successful { buffer.old.successful ≡ true }
    ensures few { IfNone result ((len buffer.old < 4) × (buffer.new ≡ buffer.old)) }
    ensures answers { IfSome result (λ answers. answers ≡ replicate 7 answer.Done) }
    ensures left { IsSome result → buffer.new ≡ record buffer.old {
      have_separate_output = false;
      out = [];
      input = drop 1 buffer.old.input;
      idx = 0;
      positions = None;
    } }
{
    if buffer.len() < 4 {
        return None;
    }
    let calls = [
        Call::ClearOutput,
        Call::SkipGlyph,
        Call::NextGlyph,
        Call::NextGlyph,
        Call::NextGlyph,
        Call::MoveTo(0),
        Call::Sync,
    ];
    let mut answers = [Answer::Outside; 7];
    match replay(buffer, &calls, &mut answers) {
        Ok(()) => Some(answers),
        Err(_) => unreachable!(),
    }
}
