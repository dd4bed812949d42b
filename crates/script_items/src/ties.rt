//! Characters that hang on others elsewhere in the text, from which they may not be cut off.

ghost use Rattle.std.specs.Prelude.{◌≡◌, ◌<◌, ◌≤◌, ◌+◌, false, length, IfSome};
ghost use Rattle.shaping_buffer.specs.ClusterStep as step;
ghost use Rattle.shaping_buffer.specs.KeepsClusters.{KeepsClusters};
ghost use Rattle.script_items.specs.Ties as tied;

use shaping_buffer::{hb_buffer_t, hb_glyph_info_t};

/// What a character has to do with others elsewhere in the text.
#[derive(Clone, Copy, PartialEq, Eq)]
pub enum Tie {
    /// Others hang on it: what they become depends on whether their text has such a character.
    Anchor,
    /// It hangs on the anchors.
    Hanging,
    /// Neither.
    Loose,
}

/// Which characters hang on which.
pub trait Ties {
    /// What the character at a place has to do with others.
    fn tie_of(&self, infos: &[hb_glyph_info_t], place: usize) -> Tie;
}

/// Marks as unsafe to break where a part would have characters that hang on anchors, and no anchor: from the first of them up to the first
/// anchor, and from the last anchor up to the last of them. Requires that no output is open.
#[tactic(auto, using(shaping_buffer::proofs::ClosedKeepsLemmas::kept))]
pub fn keep_tied<T: Ties>(buffer: &mut hb_buffer_t, ties: &T)
    requires { buffer.old.have_output ≡ false }
    ensures closed { buffer.new.have_output ≡ false }
    ensures keeps { KeepsClusters buffer.old buffer.new }
{
    keep_first(buffer, ties);
    keep_last(buffer, ties);
}

/// Marks what lies between the first character that hangs on the first anchor, and that.
#[tactic(auto, using(shaping_buffer::proofs::ClosedKeepsLemmas::kept))]
fn keep_first<T: Ties>(buffer: &mut hb_buffer_t, ties: &T)
    requires { buffer.old.have_output ≡ false }
    ensures closed { buffer.new.have_output ≡ false }
    ensures keeps { KeepsClusters buffer.old buffer.new }
{
    let infos = buffer.info();
    let pair = first_tied(&|place| ties.tie_of(infos, place), infos.len());
    keep_together(buffer, pair);
}

/// Marks what lies between the last anchor and the last character that hangs on it.
#[tactic(auto, using(shaping_buffer::proofs::ClosedKeepsLemmas::kept))]
fn keep_last<T: Ties>(buffer: &mut hb_buffer_t, ties: &T)
    requires { buffer.old.have_output ≡ false }
    ensures closed { buffer.new.have_output ≡ false }
    ensures keeps { KeepsClusters buffer.old buffer.new }
{
    let infos = buffer.info();
    let pair = last_tied(&|place| ties.tie_of(infos, place), infos.len());
    keep_together(buffer, pair);
}

/// Marks two characters, and what lies between them, as unsafe to break, if there are two.
#[tactic(auto, using(shaping_buffer::proofs::ClosedKeepsLemmas::kept))]
fn keep_together(buffer: &mut hb_buffer_t, pair: Option<(usize, usize)>)
    requires closed { buffer.old.have_output ≡ false }
    requires within { IfSome pair (λ pair. (pair.0 < pair.1) × (pair.1 < length buffer.old.input)) }
    ensures is { buffer.new ≡ tied.kept_together pair buffer.old }
    ensures closed { buffer.new.have_output ≡ false }
    ensures keeps { KeepsClusters buffer.old buffer.new }
{
    if let Some((first, last)) = pair {
        keep_between(buffer, first, last);
    }
}

/// Marks two characters, and what lies between them, as unsafe to break.
#[tactic(auto, using(shaping_buffer::proofs::ClosedKeepsLemmas::kept))]
fn keep_between(buffer: &mut hb_buffer_t, first: usize, last: usize)
    requires closed { buffer.old.have_output ≡ false }
    requires order { first < last }
    requires within { last < length buffer.old.input }
    ensures is { buffer.new ≡ step.unsafe_to_break (Some first) (Some (last + 1)) buffer.old }
    ensures closed { buffer.new.have_output ≡ false }
    ensures keeps { KeepsClusters buffer.old buffer.new }
{
    prove!(last < buffer.len());
    buffer.unsafe_to_break(Some(first), Some(last + 1));
}

/// The first character that hangs on an anchor behind it, and the first anchor.
fn first_tied<F: Fn(usize) -> Tie>(tie_at: &F, count: usize) -> Option<(usize, usize)>
    requires { F.IsAlwaysCallable tie_at.now }
    ensures is { (tie : tied.TieAt) → tied.Says (F.post tie_at.now) tie → result ≡ tied.first_tied tie count }
    ensures within { IfSome result (λ pair. (pair.0 < pair.1) × (pair.1 < count)) }
{
    let anchor = first_of(tie_at, Tie::Anchor, count)?;
    let first = first_of(tie_at, Tie::Hanging, anchor)?;
    Some((first, anchor))
}

/// The last anchor, and the last character that hangs on it behind it.
fn last_tied<F: Fn(usize) -> Tie>(tie_at: &F, count: usize) -> Option<(usize, usize)>
    requires { F.IsAlwaysCallable tie_at.now }
    ensures is { (tie : tied.TieAt) → tied.Says (F.post tie_at.now) tie → result ≡ tied.last_tied tie count }
    ensures within { IfSome result (λ pair. (pair.0 < pair.1) × (pair.1 < count)) }
{
    let anchor = last_of(tie_at, Tie::Anchor, 0, count)?;
    let last = last_of(tie_at, Tie::Hanging, anchor + 1, count)?;
    Some((anchor, last))
}

/// The first of the places before `end` with a tie.
fn first_of<F: Fn(usize) -> Tie>(tie_at: &F, wanted: Tie, end: usize) -> Option<usize>
    requires { F.IsAlwaysCallable tie_at.now }
    ensures is { (tie : tied.TieAt) → tied.Says (F.post tie_at.now) tie → result ≡ tied.first_of tie wanted end }
    ensures within { IfSome result (λ place. place < end) }
{
    for place in 0..end {
        if is_same(tie_at(place), wanted) {
            return Some(place);
        }
    }
    None
}

/// The last of the places from `start` on, before `count`, with a tie.
fn last_of<F: Fn(usize) -> Tie>(
    tie_at: &F,
    wanted: Tie,
    start: usize,
    count: usize,
) -> Option<usize>
    requires { F.IsAlwaysCallable tie_at.now }
    ensures is { (tie : tied.TieAt) → tied.Says (F.post tie_at.now) tie → result ≡ tied.last_of tie wanted start count }
    ensures within { IfSome result (λ place. (start ≤ place) × (place < count)) }
{
    let mut end = count;
    while end > start {
        end -= 1;
        if is_same(tie_at(end), wanted) {
            return Some(end);
        }
    }
    None
}

/// Whether a tie is this one.
fn is_same(tie: Tie, wanted: Tie) -> bool
    ensures { result ≡ tied.is_same tie wanted }
{
    match tie {
        Tie::Anchor => matches!(wanted, Tie::Anchor),
        Tie::Hanging => matches!(wanted, Tie::Hanging),
        Tie::Loose => matches!(wanted, Tie::Loose),
    }
}
