//! Items that change places. A range that does not lie in the list stays as it is.

ghost use Rattle.std.specs.Prelude.{◌≡◌, false};
ghost use Rattle.std.specs.List.Sorted.{IsPermutation};
ghost use Rattle.script_syllables.specs.Left.{NumbersStay};
ghost use Rattle.script_syllables.specs.Moves.{first_behind, last_before, turned};

use shaping_buffer::hb_buffer_t;

/// Moves the first of the items from a place to another behind all of them.
pub fn move_first(buffer: &mut hb_buffer_t, start: usize, end: usize)
    requires { buffer.old.have_output ≡ false }
    ensures is { buffer.new ≡ record buffer.old { input = first_behind start end buffer.old.input } }
    ensures stays { NumbersStay buffer.old buffer.new }
{
    first_to_end(buffer.info_slice_mut(), start, end);
}

/// Moves the last of the items from a place to another before all of them, so many at once.
pub fn move_last(buffer: &mut hb_buffer_t, start: usize, end: usize, count: usize)
    requires { buffer.old.have_output ≡ false }
    ensures is { buffer.new ≡ record buffer.old { input = last_before start end count buffer.old.input } }
    ensures stays { NumbersStay buffer.old buffer.new }
{
    last_to_start(buffer.info_slice_mut(), start, end, count);
}

/// Moves the first of the items from a place to another behind all of them.
#[tactic(auto, using(crate::proofs::MovedLemmas::moves))]
pub fn first_to_end<T>(items: &mut [T], start: usize, end: usize)
    ensures is { items.new ≡ first_behind start end items.old }
    ensures moved { IsPermutation items.old items.new }
{
    if start < end && end <= items.len() {
        items[start..end].rotate_left(1);
    }
}

/// Moves the last of the items from a place to another before all of them, so many at once.
#[tactic(auto, using(crate::proofs::MovedLemmas::moves))]
fn last_to_start<T>(items: &mut [T], start: usize, end: usize, count: usize)
    ensures is { items.new ≡ last_before start end count items.old }
    ensures moved { IsPermutation items.old items.new }
{
    if start <= end && end <= items.len() && count <= end - start {
        items[start..end].rotate_right(count);
    }
}

/// Puts the items from a place to another into reverse order.
#[tactic(auto, using(crate::proofs::MovedLemmas::moves))]
pub(crate) fn turn<T>(items: &mut [T], start: usize, end: usize)
    ensures is { items.new ≡ turned start end items.old }
    ensures moved { IsPermutation items.old items.new }
{
    if start < end && end <= items.len() {
        items[start..end].reverse();
    }
}
