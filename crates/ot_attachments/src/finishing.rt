//! What stands before the lookups of `GPOS`, and after them (HarfBuzz, `GPOS::position_start`, `GPOS::position_finish_offsets`).

ghost use Rattle.std.specs.Prelude.{◌≡◌, ◌<◌, ◌≤◌, false, IsSome, length, map};
ghost use Rattle.ot_attachments.specs.Chains.{position_at};
ghost use Rattle.ot_attachments.specs.Offsets.{across, down, gone, hung, joined, offsets_finished, parent_of, propagated, propagated_before, sum_between, unchained, way};
ghost use Rattle.ot_attachments.specs.Placing.{changed_at, detached, on_positions};
ghost use Rattle.ot_attachments.specs.Spans.{IsSummed};
ghost use Rattle.ot_attachments.specs.Flags.{KeepsBits, untouched};
ghost use Rattle.shaping_buffer.specs.KeepsClusters.{KeepsClusters};

use crate::chains::{ATTACH_TYPE_CURSIVE, cut, place_behind};
use rb_common::Direction;
use rb_glyph::GlyphPosition;
use shaping_buffer::{HB_BUFFER_SCRATCH_FLAG_HAS_GPOS_ATTACHMENT, hb_buffer_t};

/// How many levels a chain may have (HarfBuzz, `HB_MAX_NESTING_LEVEL`).
const MAX_NESTING_LEVEL: u32 = 64;

/// Takes what glyphs are attached to from all positions.
#[tactic(auto, using(crate::proofs::FlagLemmas::keeps_untouched, crate::proofs::PositionsLemmas::with_positions_detached, crate::proofs::FlagLemmas::untouched_with_positions))]
pub fn position_start(buffer: &mut hb_buffer_t)
    requires closed { buffer.old.have_output ≡ false }
    requires placed { IsSome buffer.old.positions }
    ensures is { buffer.new ≡ on_positions (map detached) buffer.old }
    ensures closed { buffer.new.have_output ≡ false }
    ensures placed { IsSome buffer.new.positions }
    ensures keeps { KeepsClusters buffer.old buffer.new }
{
    detach_all(buffer.pos_mut());
}

/// Takes what glyphs are attached to from all positions.
#[tactic(auto, using(glyph_lists::proofs::MapLemmas::walks))]
fn detach_all(positions: &mut [GlyphPosition])
    ensures { positions.new ≡ map detached positions.old }
{
    for position in positions.iter_mut() {
        detach(position);
    }
}

/// Takes what a glyph is attached to.
#[tactic(auto, unfolding(crate::specs::Placing::detached))]
fn detach(position: &mut GlyphPosition)
    ensures { position.new ≡ detached position.old }
{
    position.set_attach_chain(0);
    position.set_attach_type(0);
}

/// Moves each attached glyph to where the glyph stands that it is attached to: one that is joined gets that glyph's offset across the
/// line, and a mark its offset, less the advances that lie between. No glyph is attached any more.
#[tactic(auto, using(crate::proofs::FlagLemmas::keeps_untouched, crate::proofs::FlagLemmas::untouched_with_positions), unfolding(crate::specs::Offsets::offsets_finished))]
pub fn position_finish_offsets(buffer: &mut hb_buffer_t)
    requires closed { buffer.old.have_output ≡ false }
    requires placed { IsSome buffer.old.positions }
    ensures is { buffer.new ≡ offsets_finished buffer.old }
    ensures closed { buffer.new.have_output ≡ false }
    ensures placed { IsSome buffer.new.positions }
    ensures rest { untouched buffer.new ≡ untouched buffer.old }
    ensures flags { KeepsBits buffer.old.input buffer.new.input }
    ensures keeps { KeepsClusters buffer.old buffer.new }
{
    if buffer.scratch_flags & HB_BUFFER_SCRATCH_FLAG_HAS_GPOS_ATTACHMENT != 0 {
        let direction = buffer.direction;
        propagate_each(buffer.pos_mut(), direction);
    }
}

/// The advances from one place up to another, summed.
#[derive(Clone, Copy)]
struct Span {
    from: usize,
    to: usize,
    x: i32,
    y: i32,
}

/// Moves each attached glyph, one after the other.
fn propagate_each(positions: &mut [GlyphPosition], direction: Direction)
    ensures is { positions.new ≡ propagated_before direction (length positions.old) positions.old }
    ensures as_many { length positions.new ≡ length positions.old }
{
    let len = positions.len();
    let mut span = Span {
        from: 0,
        to: 0,
        x: 0,
        y: 0,
    };
    for place in 0..len {
        propagate_attachment_offsets(positions, place, direction, MAX_NESTING_LEVEL, &mut span);
    }
}

/// Moves the glyph at a place to where its parent stands, which is moved first, and attaches it to none. Where a chain has more levels,
/// the rest stays where it is.
fn propagate_attachment_offsets(
    positions: &mut [GlyphPosition],
    place: usize,
    direction: Direction,
    levels: u32,
    span: &mut Span,
)
    requires there { place < length positions.old }
    requires span { IsSummed positions.old span.old }
    ensures is { positions.new ≡ propagated direction levels place positions.old }
    ensures as_many { length positions.new ≡ length positions.old }
    ensures span { IsSummed positions.new span.new }
{
    let kind = positions[place].attach_type();
    let parent = parent_of(positions, place);
    unchain(positions, place);
    if levels == 0 {
        return;
    }
    let Some(parent) = parent else {
        return;
    };
    propagate_attachment_offsets(positions, parent, direction, levels - 1, span);
    if kind & ATTACH_TYPE_CURSIVE != 0 {
        join(positions, place, parent, direction);
    } else {
        hang(positions, place, parent, direction, span);
    }
}

/// The place of the glyph to which the one at a place is attached; `None` where it is attached to none of the glyphs.
#[tactic(auto, unfolding(crate::specs::Offsets::parent_of))]
fn parent_of(positions: &[GlyphPosition], place: usize) -> Option<usize>
    requires there { place < length positions.now }
    ensures { result ≡ parent_of place positions.now }
{
    let chain = positions[place].attach_chain();
    if chain == 0 {
        None
    } else {
        place_behind(place, chain, positions.len())
    }
}

/// Attaches the glyph at a place to none.
#[tactic(auto, using(crate::proofs::PositionsLemmas::length_changed_at), unfolding(crate::specs::Offsets::unchained))]
fn unchain(positions: &mut [GlyphPosition], place: usize)
    requires there { place < length positions.old }
    ensures is { positions.new ≡ unchained place positions.old }
    ensures as_many { length positions.new ≡ length positions.old }
{
    if positions[place].attach_chain() != 0 {
        cut(positions, place);
    }
}

/// Moves a glyph as far across the line as the one to which it is joined.
#[tactic(auto, using(crate::proofs::PositionsLemmas::length_changed_at), unfolding(crate::specs::Placing::changed_at))]
fn join(positions: &mut [GlyphPosition], place: usize, parent: usize, direction: Direction)
    requires there { place < length positions.old }
    requires parent { parent < length positions.old }
    ensures is { positions.new ≡ changed_at (joined direction (position_at positions.old parent)) place positions.old }
    ensures as_many { length positions.new ≡ length positions.old }
{
    let parent = positions[parent];
    join_to(&mut positions[place], &parent, direction);
}

/// Moves a glyph as far across the line as its parent.
#[tactic(auto, unfolding(crate::specs::Offsets::joined))]
fn join_to(position: &mut GlyphPosition, parent: &GlyphPosition, direction: Direction)
    ensures { position.new ≡ joined direction parent.now position.old }
{
    if direction.is_horizontal() {
        position.y_offset = position.y_offset.wrapping_add(parent.y_offset);
    } else {
        position.x_offset = position.x_offset.wrapping_add(parent.x_offset);
    }
}

/// Moves a mark to where the glyph stands on which it hangs.
#[tactic(auto, using(crate::proofs::PositionsLemmas::length_changed_at), unfolding(crate::specs::Placing::changed_at))]
fn hang(
    positions: &mut [GlyphPosition],
    place: usize,
    parent: usize,
    direction: Direction,
    span: &mut Span,
)
    requires there { place < length positions.old }
    requires parent { parent < length positions.old }
    requires span { IsSummed positions.old span.old }
    ensures is { positions.new ≡ changed_at (hung direction (position_at positions.old parent)
        (way direction parent place (across positions.old)) (way direction parent place (down positions.old))) place positions.old }
    ensures as_many { length positions.new ≡ length positions.old }
    ensures span { IsSummed positions.old span.new }
{
    let (x, y) = if direction.is_forward() {
        sum_between(positions, span, parent, place)
    } else {
        sum_between(positions, span, parent + 1, place + 1)
    };
    let parent = positions[parent];
    hang_on(&mut positions[place], &parent, direction, x, y);
}

/// Moves a mark to where its parent stands, so far back in lines that run forward, else ahead.
#[tactic(auto, unfolding(crate::specs::Offsets::hung))]
fn hang_on(
    position: &mut GlyphPosition,
    parent: &GlyphPosition,
    direction: Direction,
    x: i32,
    y: i32,
)
    ensures { position.new ≡ hung direction parent.now x y position.old }
{
    position.x_offset = gone(
        direction,
        x,
        position.x_offset.wrapping_add(parent.x_offset),
    );
    position.y_offset = gone(
        direction,
        y,
        position.y_offset.wrapping_add(parent.y_offset),
    );
}

/// An offset, so far back in lines that run forward, else ahead.
fn gone(direction: Direction, far: i32, offset: i32) -> i32
    ensures { result ≡ gone direction far offset }
{
    if direction.is_forward() {
        offset.wrapping_sub(far)
    } else {
        offset.wrapping_add(far)
    }
}

/// The sums of the advances from a place up to another. Many marks on one base widen the same span, step by step.
#[tactic(auto, using(crate::proofs::OffsetsLemmas::sum_between_none))]
fn sum_between(positions: &[GlyphPosition], span: &mut Span, from: usize, to: usize) -> (i32, i32)
    requires within { to ≤ length positions.now }
    requires span { IsSummed positions.now span.old }
    ensures x { result.0 ≡ sum_between from to (across positions.now) }
    ensures y { result.1 ≡ sum_between from to (down positions.now) }
    ensures span { IsSummed positions.now span.new }
{
    if to <= from {
        return (0, 0);
    }
    if span.from != from || to < span.to {
        *span = Span {
            from,
            to: from,
            x: 0,
            y: 0,
        };
    }
    let (mut x, mut y) = (span.x, span.y);
    for place in span.to..to {
        x = x.wrapping_add(positions[place].x_advance);
        y = y.wrapping_add(positions[place].y_advance);
    }
    *span = Span { from, to, x, y };
    (x, y)
}
