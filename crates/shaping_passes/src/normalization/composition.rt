//! Pairs of characters are composed.

ghost use Rattle.std.specs.Prelude.{◌≡◌, ◌+◌, ◌<◌, ◌≤◌, ◌++◌, true, false, length, take, drop, slice_index_or, slice_set};
ghost use Rattle.std.specs.Prelude.{Ok, Some, ◌==◌, if◌then◌else◌};
ghost use Rattle.glyph_lists.specs.Clusters.{zero_glyph, IsCoarse, IsMonotone};
ghost use Rattle.shaping_buffer.specs.ClusterStep.{any_order, both, head_of};
ghost use Rattle.shaping_buffer.specs.KeepsClusters.{KeepsClusters};
ghost use Rattle.shaping_buffer.specs.State.{lookahead_len};
ghost use Rattle.shaping_buffer.specs.Step.{with_id};
ghost use Rattle.glyph_laws.specs.Cores.{core, cores};
ghost use Rattle.shaping_passes.specs.NormalizationComposition.{composed, composed_at, composed_glyphs, pair_composed};
ghost use Rattle.shaping_passes.specs.NormalizationComposition.{so_far, pair_of, IsReady, IsPlace, kept_one};
ghost use Rattle.shaping_passes.specs.NormalizationDecomposition.{closed_over};

use super::rules::{CharacterPairs, MarkClasses};
use shaping_buffer::hb_buffer_t;
use std::alloc::AllocError;

/// Composes pairs of characters: the last starter and each character after it that is not blocked, which is then gone.
/// What a pair composes to has the cluster of both, which are merged, and all else of the starter. Call `order_marks`
/// first. Then the cursor is at the start, and positions are off. Requires that no output is open.
///
/// `Ok(false)` after an earlier refusal, with nothing changed, and else `Ok(true)`: it puts out no more than it reads,
/// so it is never refused and takes no memory.
pub fn compose_marks<P: CharacterPairs, C: MarkClasses>(
    buffer: &mut hb_buffer_t,
    compositions: &P,
    classes: &C,
) -> Result<bool, AllocError>
    requires { buffer.old.have_output ≡ false }
    ensures result { result ≡ Ok buffer.old.successful }
    ensures refused { buffer.old.successful ≡ false → buffer.new ≡ buffer.old }
    ensures composed { buffer.old.successful ≡ true → cores buffer.new.input
        ≡ composed (P.pairs compositions.now) (C.classes classes.now) (cores buffer.old.input) }
    ensures glyphs { buffer.old.successful ≡ true → buffer.new.input
        ≡ composed_glyphs (any_order buffer.old) (P.pairs compositions.now) (C.classes classes.now) buffer.old.input }
    ensures monotone { IsMonotone buffer.old.input → IsMonotone buffer.new.input }
    ensures merges { any_order buffer.old ≡ false → IsCoarse buffer.old.input
        → IsCoarse buffer.new.input }
    ensures others { buffer.old.successful ≡ true
        → buffer.new ≡ closed_over buffer.new.input buffer.old }
{
    if !buffer.successful() {
        return Ok(false);
    }
    // Read for what its contract says: the list is no longer than `max_len`.
    let _ = buffer.len();
    buffer.clear_output();
    let mut starter = None;
    while buffer.lookahead_len() > 0 {
        starter = next_turn(buffer, compositions, classes, starter);
    }
    buffer.sync()
}

/// Reads one character, and composes it with the last starter, which stands on the out side, or puts it out. Gives the
/// place of the last starter.
pub fn next_turn<P: CharacterPairs, C: MarkClasses>(
    buffer: &mut hb_buffer_t,
    compositions: &P,
    classes: &C,
    starter: Option<usize>,
) -> Option<usize>
    requires ready { IsReady buffer.old }
    requires some { 0 < length buffer.old.input }
    requires place { IsPlace starter buffer.old }
    ensures ready { IsReady buffer.new }
    ensures place { IsPlace result buffer.new }
    ensures same { so_far (P.pairs compositions.now) (C.classes classes.now) result (cores buffer.new.out) (cores buffer.new.input)
        ≡ so_far (P.pairs compositions.now) (C.classes classes.now) starter (cores buffer.old.out) (cores buffer.old.input) }
    ensures glyphs { composed_at (any_order buffer.old) (P.pairs compositions.now) (C.classes classes.now) result (length buffer.new.out)
        (length buffer.new.input) (both buffer.new)
        ≡ composed_at (any_order buffer.old) (P.pairs compositions.now) (C.classes classes.now) starter (length buffer.old.out)
        (length buffer.old.input) (both buffer.old) }
    ensures merges { any_order buffer.old ≡ false → IsCoarse (both buffer.old)
        → IsCoarse (both buffer.new) }
    ensures others { buffer.new ≡ record buffer.old {
      out = buffer.new.out;
      input = buffer.new.input;
      idx = buffer.new.idx;
    } }
    ensures shorter { length buffer.new.input < length buffer.old.input }
    ensures keeps { KeepsClusters buffer.old buffer.new }
{
    match starter {
        Some(at) => match pair_at(buffer, compositions, classes, at) {
            Some(id) => {
                compose_pair(buffer, at, id);
                Some(at)
            }
            None => keep_behind(buffer, classes, Some(at)),
        },
        None => keep_behind(buffer, classes, None),
    }
}

/// Puts the character at the cursor out. Gives the place of the last starter, which may be this one.
fn keep_behind<C: MarkClasses>(
    buffer: &mut hb_buffer_t,
    classes: &C,
    starter: Option<usize>,
) -> Option<usize>
    requires ready { IsReady buffer.old }
    requires some { 0 < length buffer.old.input }
    ensures kept { buffer.new ≡ kept_one buffer.old }
    ensures starter { result ≡ (if C.classes classes.now (head_of buffer.old) == 0
        then Some (length buffer.old.out) else starter) }
    ensures keeps { KeepsClusters buffer.old buffer.new }
{
    let class = classes.class_of(buffer.cur(0));
    let at = buffer.out_len();
    keep_one(buffer);
    if class == 0 { Some(at) } else { starter }
}

/// What the starter at place `at` of the out side and the character at the cursor compose to.
fn pair_at<P: CharacterPairs, C: MarkClasses>(
    buffer: &hb_buffer_t,
    compositions: &P,
    classes: &C,
    at: usize,
) -> Option<u32>
    requires opened { buffer.now.have_output ≡ true }
    requires some { 0 < length buffer.now.input }
    requires place { at < length buffer.now.out }
    ensures { result ≡ pair_of (P.pairs compositions.now) (C.classes classes.now)
        (slice_index_or (cores buffer.now.out) at zero_glyph) (drop (at + 1) (cores buffer.now.out))
        (core (head_of buffer.now)) }
{
    let out = buffer.out_info();
    let info = buffer.cur(0);
    let last = out.len() - 1;
    if at < last && classes.class_of(info) <= classes.class_of(&out[last]) {
        return None;
    }
    compositions.composed_of(&out[at], info)
}

/// Merges the glyph at the cursor into the one at place `at` of the out side, which gets another id.
fn compose_pair(buffer: &mut hb_buffer_t, at: usize, id: u32)
    requires ready { IsReady buffer.old }
    requires some { 0 < length buffer.old.input }
    requires place { at < length buffer.old.out }
    ensures out { cores buffer.new.out ≡ slice_set (cores buffer.old.out) at
        (with_id id (slice_index_or (cores buffer.old.out) at zero_glyph)) }
    ensures input { cores buffer.new.input ≡ drop 1 (cores buffer.old.input) }
    ensures glyphs { both buffer.new
        ≡ pair_composed (any_order buffer.old) at (length buffer.old.out) id (both buffer.old) }
    ensures merges { any_order buffer.old ≡ false → IsCoarse (both buffer.old)
        → IsCoarse (both buffer.new) }
    ensures others { buffer.new ≡ record buffer.old {
      out = buffer.new.out;
      input = buffer.new.input;
      idx = buffer.old.idx + 1;
    } }
    ensures keeps { KeepsClusters buffer.old buffer.new }
{
    keep_one(buffer);
    let end = buffer.out_len();
    buffer.merge_out_clusters(at, end);
    let _ = buffer.move_to(end - 1);
    buffer.skip_glyph();
    set_id(buffer, at, id);
}

/// Gives a glyph on the out side another id.
fn set_id(buffer: &mut hb_buffer_t, at: usize, id: u32)
    requires { at < length buffer.old.out }
    ensures { buffer.new ≡ record buffer.old {
      out = slice_set buffer.old.out at (with_id id (slice_index_or buffer.old.out at zero_glyph));
    } }
{
    buffer.out_info_mut()[at].glyph_id = id;
}

/// Puts the glyph at the cursor out.
fn keep_one(buffer: &mut hb_buffer_t)
    requires ready { IsReady buffer.old }
    requires some { 0 < length buffer.old.input }
    ensures is { buffer.new ≡ kept_one buffer.old }
    ensures keeps { KeepsClusters buffer.old buffer.new }
{
    let _ = buffer.next_glyph();
}
