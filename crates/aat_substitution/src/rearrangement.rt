//! Subtables that put glyphs in another order.

ghost use Rattle.std.specs.Prelude.{◌≡◌, ◌+◌, ◌<◌, ◌≤◌, ◌&&◌, true, false, length, min, nat_lt, if◌then◌else◌};
ghost use Rattle.aat_substitution.specs.Actions.{has_flag};
ghost use Rattle.aat_substitution.specs.Alike.{AreAlike};
ghost use Rattle.aat_substitution.specs.Left.{Stays};
ghost use Rattle.shaping_buffer.specs.ClusterStep.{any_order};
ghost use Rattle.shaping_buffer.specs.KeepsClusters.{IsOneCluster};

use aat_tables::Entry;
use rb_glyph::hb_glyph_info_t;
use shaping_buffer::cluster_level::{
    HB_BUFFER_CLUSTER_LEVEL_CHARACTERS, HB_BUFFER_CLUSTER_LEVEL_GRAPHEMES,
};
use shaping_buffer::hb_buffer_t;

/// The current glyph is the first that is put in order.
const MARK_FIRST: u16 = 0x8000;

/// The current glyph is the last that is put in order.
const MARK_LAST: u16 = 0x2000;

/// The bits of how glyphs are put in order.
const VERB: u16 = 0x000F;

/// No more glyphs are put in order (HarfBuzz, `HB_MAX_CONTEXT_LENGTH`).
const MAX_GLYPHS: usize = 64;

/// How many glyphs at an end are moved to the other end.
#[derive(Clone, Copy, PartialEq, Eq)]
enum End {
    /// None.
    None,
    /// One.
    One,
    /// Two.
    Two,
    /// Two, which change places.
    Swapped,
}

impl End {
    /// How many glyphs these are.
    fn len(self) -> usize
        ensures { result ≤ 2 }
    {
        match self {
            End::None => 0,
            End::One => 1,
            End::Two | End::Swapped => 2,
        }
    }
}

/// What each verb moves: glyphs at the start to the end, and glyphs at the end to the start.
const VERBS: [(End, End); 16] = [
    (End::None, End::None),
    (End::One, End::None),
    (End::None, End::One),
    (End::One, End::One),
    (End::Two, End::None),
    (End::Swapped, End::None),
    (End::None, End::Two),
    (End::None, End::Swapped),
    (End::One, End::Two),
    (End::One, End::Swapped),
    (End::Two, End::One),
    (End::Swapped, End::One),
    (End::Two, End::Two),
    (End::Swapped, End::Two),
    (End::Two, End::Swapped),
    (End::Swapped, End::Swapped),
];

/// The glyphs that are put in order next.
#[derive(Clone, Copy)]
pub(crate) struct Rearrangement {
    start: usize,
    end: usize,
}

impl Rearrangement {
    /// No glyphs.
    pub(crate) fn new() -> Self
        ensures { result ≡ record { start = 0; end = 0 } }
    {
        Rearrangement { start: 0, end: 0 }
    }

    /// Whether an entry puts glyphs in order.
    pub(crate) fn is_actionable(&self, entry: &Entry) -> bool
        ensures { result ≡ (has_flag entry.now 0x000F && nat_lt self.now.start self.now.end) }
    {
        entry.flags & VERB != 0 && self.start < self.end
    }

    /// Does what an entry says, at the cursor.
    pub(crate) fn obey(&mut self, buffer: &mut hb_buffer_t, entry: &Entry)
        requires { buffer.old.have_output ≡ false }
        ensures stays { Stays buffer.old buffer.new }
        ensures first { self.new.start ≡ (if has_flag entry.now 0x8000 then buffer.old.idx else self.old.start) }
        ensures last { self.new.end
            ≡ (if has_flag entry.now 0x2000 then min (buffer.old.idx + 1) (length buffer.old.input) else self.old.end) }
    {
        if entry.flags & MARK_FIRST != 0 {
            self.start = buffer.idx();
        }
        let behind = buffer.idx().saturating_add(1).min(buffer.len());
        if entry.flags & MARK_LAST != 0 {
            self.end = behind;
        }
        if self.is_actionable(entry) {
            let (left, right) = VERBS[usize::from(entry.flags & VERB)];
            self.rearrange(buffer, behind, left, right);
        }
    }

    /// Puts the glyphs in order. `behind` is the place behind the current glyph.
    fn rearrange(&self, buffer: &mut hb_buffer_t, behind: usize, left: End, right: End)
        requires { buffer.old.have_output ≡ false }
        ensures { Stays buffer.old buffer.new }
    {
        let (start, end) = (self.start, self.end);
        let count = end.saturating_sub(start);
        if count < left.len() + right.len() || count > MAX_GLYPHS {
            return;
        }
        merge(buffer, start, behind);
        merge(buffer, start, end);
        turn(buffer, start, end);
        turn_two(buffer, right, start);
        turn(
            buffer,
            start.saturating_add(right.len()),
            end.saturating_sub(left.len()),
        );
        turn_two(buffer, left, end.saturating_sub(2));
    }
}

/// Puts the two glyphs of an end in their order again, if they are to keep it.
fn turn_two(buffer: &mut hb_buffer_t, end: End, start: usize)
    requires { buffer.old.have_output ≡ false }
    ensures { Stays buffer.old buffer.new }
{
    if end == End::Two {
        turn(buffer, start, start.saturating_add(2));
    }
}

/// Puts the glyphs from a place to another into one cluster.
fn merge(buffer: &mut hb_buffer_t, start: usize, end: usize)
    requires { buffer.old.have_output ≡ false }
    ensures { Stays buffer.old buffer.new }
{
    if start <= end && end <= buffer.len() {
        buffer.merge_clusters(start, end);
    }
}

/// Puts the glyphs from a place to another into reverse order, which are in one cluster, unless clusters may stand in any order.
fn turn(buffer: &mut hb_buffer_t, start: usize, end: usize)
    requires { buffer.old.have_output ≡ false }
    ensures { Stays buffer.old buffer.new }
{
    if start <= end && end <= buffer.len() && may_turn(buffer, start, end) {
        buffer.reverse_range(start, end);
    }
}

/// Whether glyphs are in one cluster, or clusters may stand in any order.
fn may_turn(buffer: &hb_buffer_t, start: usize, end: usize) -> bool
    requires order { start ≤ end }
    requires within { end ≤ length buffer.now.input }
    ensures { result ≡ true → IsOneCluster start end buffer.now }
{
    if may_stand_in_any_order(buffer) {
        return true;
    }
    is_one_cluster(buffer.info(), start, end)
}

/// Whether clusters may stand in any order.
fn may_stand_in_any_order(buffer: &hb_buffer_t) -> bool
    ensures { result ≡ any_order buffer.now }
{
    buffer.cluster_level == HB_BUFFER_CLUSTER_LEVEL_CHARACTERS
        || buffer.cluster_level == HB_BUFFER_CLUSTER_LEVEL_GRAPHEMES
}

/// Whether the glyphs from a place to another are in one cluster.
fn is_one_cluster(glyphs: &[hb_glyph_info_t], start: usize, end: usize) -> bool
    requires { end ≤ length glyphs.now }
    ensures { result ≡ true → AreAlike start end glyphs.now }
{
    for place in start..end {
        if glyphs[place].cluster != glyphs[start].cluster {
            return false;
        }
    }
    true
}
