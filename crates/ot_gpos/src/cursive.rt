//! Glyphs that are joined to those before them, exit to entry (HarfBuzz, `CursivePos`).

ghost use Rattle.std.specs.Prelude.{◌≡◌, ◌<◌, length, option_copied};
ghost use Rattle.ot_gpos.specs.Attachments.{HasNoPixels};
ghost use Rattle.ot_attachments.specs.Chains.{chain_of, position_at};
ghost use Rattle.ot_gpos.specs.Cursive as cursive;
ghost use Rattle.ot_attachments.specs.Placing.{changed_at};
ghost use Rattle.ot_attachments.specs.Flags.{KeepsText};
ghost use Rattle.ot_gpos.specs.Visit.{visit_of};
ghost use Rattle.shaping_buffer.specs.State.{HasPositions};

use crate::attachment::anchor_at;
use crate::turn::Turn;
use font_tables::bytes::{table_at_16, u16_at};
use font_tables::scale::Scale;
use ot_attachments::chains::{ATTACH_TYPE_CURSIVE, attach, reverse_chain};
use ot_attachments::flags::{mark_attached, mark_break, mark_concat};
use ot_gpos_tables::anchors::Anchor;
use ot_gpos_tables::contour_points::ContourPoints;
use ot_layout::matcher::Matcher;
use ot_layout::skipping_iterator::Found;
use ot_lookups::lookup_props::covered_index;
use rb_common::Direction;
use rb_glyph::{GlyphPosition, hb_glyph_info_t};
use shaping_buffer::hb_buffer_t;

/// The bit of a lookup's flag by which the last glyph of a chain stays on the baseline, as in lines from right to left.
const RIGHT_TO_LEFT: u16 = 0x0001;

/// What a subtable finds at a glyph.
#[derive(Clone, Copy)]
enum JoinFound {
    /// The glyph has no entry.
    Nothing,
    /// Nothing before it, from this place on, has an exit.
    NoExit(usize),
    /// A join.
    Joined(Join),
}

/// A join of two glyphs.
#[derive(Clone, Copy)]
struct Join {
    /// The place of the glyph with the exit.
    before: usize,
    /// The place of the glyph with the entry.
    place: usize,
    /// The exit.
    exit: Anchor,
    /// The entry.
    entry: Anchor,
    /// Whether the glyph before hangs on this one, and else this one on that before.
    is_right_to_left: bool,
}

/// Joins the glyph to the one before it, and says where the iterator goes on; `None` where the subtable does not join them.
pub(crate) fn place_cursive<P: ContourPoints>(
    buffer: &mut hb_buffer_t,
    turn: &Turn,
    points: &P,
) -> Option<usize>
    requires placed { HasPositions buffer.old }
    ensures next { HasNoPixels turn.now.instance.now → result ≡ cursive.cursive_next (visit_of turn.now) (cursive.join_of (visit_of turn.now) buffer.old.input) }
    ensures is { HasNoPixels turn.now.instance.now
        → buffer.new ≡ cursive.cursive_placed (visit_of turn.now) (cursive.join_of (visit_of turn.now) buffer.old.input) buffer.old }
    ensures kept { KeepsText buffer.old buffer.new }
{
    let found = join_of(buffer.info(), turn, points);
    join_found(buffer, turn, &found)
}

/// Joins the glyph as the subtable finds it, and says where the iterator goes on.
#[tactic(auto, using(crate::proofs::CursiveLemmas::with_positions_joined, ot_attachments::proofs::FlagLemmas::untouched_with_positions), unfolding(crate::specs::Cursive::cursive_placed))]
fn join_found(buffer: &mut hb_buffer_t, turn: &Turn, found: &JoinFound) -> Option<usize>
    requires placed { HasPositions buffer.old }
    ensures next { result ≡ cursive.cursive_next (visit_of turn.now) found.now }
    ensures is { buffer.new ≡ cursive.cursive_placed (visit_of turn.now) found.now buffer.old }
    ensures kept { KeepsText buffer.old buffer.new }
{
    let end = turn.place.saturating_add(1);
    let direction = buffer.direction;
    match *found {
        JoinFound::Nothing => None,
        JoinFound::NoExit(from) => {
            mark_concat(buffer, from, end);
            None
        }
        JoinFound::Joined(join) => {
            mark_break(buffer, join.before, end);
            join_glyphs(buffer.pos_mut(), &join, direction, &turn.instance.scale);
            mark_attached(buffer);
            Some(end)
        }
    }
}

/// The join of the glyph and the one before it that is not passed over.
#[tactic(auto, unfolding(crate::specs::Cursive::join_of))]
fn join_of<P: ContourPoints>(glyphs: &[hb_glyph_info_t], turn: &Turn, points: &P) -> JoinFound
    ensures { HasNoPixels turn.now.instance.now → result ≡ cursive.join_of (visit_of turn.now) glyphs.now }
{
    let Some(entry) = entry_of(glyphs, turn, points) else {
        return JoinFound::Nothing;
    };
    if turn.place > glyphs.len() {
        return JoinFound::Nothing;
    }
    match turn.iterator.previous(&Matcher::Shown, glyphs, turn.place) {
        Found::At(before) => match exit_of(glyphs, turn, before, points) {
            Some(exit) => JoinFound::Joined(Join {
                before,
                place: turn.place,
                exit,
                entry,
                is_right_to_left: turn.iterator.lookup_props.flags & RIGHT_TO_LEFT != 0,
            }),
            None => JoinFound::NoExit(before),
        },
        Found::Other(before) => JoinFound::NoExit(before.saturating_sub(1)),
        Found::End => JoinFound::NoExit(0),
    }
}

/// The entry of the glyph.
fn entry_of<P: ContourPoints>(glyphs: &[hb_glyph_info_t], turn: &Turn, points: &P) -> Option<Anchor>
    ensures { HasNoPixels turn.now.instance.now → result ≡ cursive.entry_of (visit_of turn.now) }
{
    let table = anchor_table(turn.subtable.table, turn.index, 6)?;
    anchor_at(table, turn.instance, glyphs, turn.place, points)
}

/// The exit of the glyph at a place.
fn exit_of<P: ContourPoints>(
    glyphs: &[hb_glyph_info_t],
    turn: &Turn,
    place: usize,
    points: &P,
) -> Option<Anchor>
    ensures { HasNoPixels turn.now.instance.now → result ≡ cursive.exit_of (visit_of turn.now) glyphs.now place }
{
    if place >= glyphs.len() {
        return None;
    }
    let index = covered_index(&turn.subtable.coverage, glyphs[place].glyph_id)?;
    let table = anchor_table(turn.subtable.table, index, 8)?;
    anchor_at(table, turn.instance, glyphs, place, points)
}

/// The table of an anchor of a glyph, by the glyph's coverage index: the offsets of entries stand from the byte 6 on, those of exits
/// from the byte 8 on.
fn anchor_table(table: &[u8], index: u32, at: usize) -> Option<&[u8]>
    requires { at < 256 }
    ensures { option_copied result ≡ cursive.anchor_table table.now index at }
{
    if index < u32::from(u16_at(table, 4).unwrap_or(0)) {
        table_at_16(table, at + 4 * index as usize)
    } else {
        None
    }
}

/// Joins two glyphs.
#[tactic(auto, unfolding(crate::specs::Cursive::joined))]
fn join_glyphs(positions: &mut [GlyphPosition], join: &Join, direction: Direction, scale: &Scale)
    ensures { positions.new ≡ cursive.joined join.now direction scale.now positions.old }
{
    let len = positions.len();
    if join.before < len && join.place < len {
        meet_along(positions, join, direction, scale);
        meet_across(positions, join, direction, scale);
    }
}

/// Makes the exit and the entry meet along the line.
#[tactic(auto, unfolding(crate::specs::Cursive::met_along, ot_attachments::specs::Placing::changed_at))]
fn meet_along(positions: &mut [GlyphPosition], join: &Join, direction: Direction, scale: &Scale)
    ensures { positions.new ≡ cursive.met_along join.now direction scale.now positions.old }
{
    leave_at(positions, join.before, &join.exit, direction, scale);
    enter_at(positions, join.place, &join.entry, direction, scale);
}

/// Ends or begins the advance of the glyph at a place at its exit.
#[tactic(auto, unfolding(ot_attachments::specs::Placing::changed_at))]
fn leave_at(
    positions: &mut [GlyphPosition],
    place: usize,
    exit: &Anchor,
    direction: Direction,
    scale: &Scale,
)
    ensures { positions.new ≡ changed_at (cursive.left_at exit.now scale.now direction) place positions.old }
{
    if place < positions.len() {
        leave(&mut positions[place], exit, direction, scale);
    }
}

/// Begins or ends the advance of the glyph at a place at its entry.
#[tactic(auto, unfolding(ot_attachments::specs::Placing::changed_at))]
fn enter_at(
    positions: &mut [GlyphPosition],
    place: usize,
    entry: &Anchor,
    direction: Direction,
    scale: &Scale,
)
    ensures { positions.new ≡ changed_at (cursive.entered_at entry.now scale.now direction) place positions.old }
{
    if place < positions.len() {
        enter(&mut positions[place], entry, direction, scale);
    }
}

/// Ends the advance of a glyph at its exit, or in lines that run backward begins it there.
#[tactic(auto, unfolding(crate::specs::Cursive::left_at))]
fn leave(position: &mut GlyphPosition, exit: &Anchor, direction: Direction, scale: &Scale)
    ensures { position.new ≡ cursive.left_at exit.now scale.now direction position.old }
{
    let x = exit.x_at(scale).wrapping_add(position.x_offset);
    let y = exit.y_at(scale).wrapping_add(position.y_offset);
    match direction {
        Direction::LeftToRight => position.x_advance = x,
        Direction::RightToLeft => take_x(position, x),
        Direction::TopToBottom => position.y_advance = y,
        Direction::BottomToTop => take_y(position, y),
        Direction::Invalid => {}
    }
}

/// Begins the advance of a glyph at its entry, or in lines that run backward ends it there.
#[tactic(auto, unfolding(crate::specs::Cursive::entered_at))]
fn enter(position: &mut GlyphPosition, entry: &Anchor, direction: Direction, scale: &Scale)
    ensures { position.new ≡ cursive.entered_at entry.now scale.now direction position.old }
{
    let x = entry.x_at(scale).wrapping_add(position.x_offset);
    let y = entry.y_at(scale).wrapping_add(position.y_offset);
    match direction {
        Direction::LeftToRight => take_x(position, x),
        Direction::RightToLeft => position.x_advance = x,
        Direction::TopToBottom => take_y(position, y),
        Direction::BottomToTop => position.y_advance = entry.y_at(scale),
        Direction::Invalid => {}
    }
}

/// Takes a length from the advance of a glyph, and moves the glyph back by it.
fn take_x(position: &mut GlyphPosition, length: i32)
    ensures { position.new ≡ cursive.taken_x length position.old }
{
    position.x_advance = position.x_advance.wrapping_sub(length);
    position.x_offset = position.x_offset.wrapping_sub(length);
}

/// Takes a length from the advance of a glyph downwards, and moves the glyph back by it.
fn take_y(position: &mut GlyphPosition, length: i32)
    ensures { position.new ≡ cursive.taken_y length position.old }
{
    position.y_advance = position.y_advance.wrapping_sub(length);
    position.y_offset = position.y_offset.wrapping_sub(length);
}

/// Makes the exit and the entry meet across the line: one glyph hangs on the other, which may hang on others in turn.
fn meet_across(positions: &mut [GlyphPosition], join: &Join, direction: Direction, scale: &Scale)
    ensures { positions.new ≡ cursive.hung_on direction (cursive.child_of join.now) (cursive.parent_of join.now)
        (cursive.x_from_parent join.now scale.now) (cursive.y_from_parent join.now scale.now) positions.old }
{
    let (x, y) = (x_from_parent(join, scale), y_from_parent(join, scale));
    if join.is_right_to_left {
        hang_on(positions, direction, join.before, join.place, x, y);
    } else {
        hang_on(positions, direction, join.place, join.before, x, y);
    }
}

/// How far to the right of its parent a child stands.
#[tactic(auto, unfolding(crate::specs::Cursive::x_from_parent))]
fn x_from_parent(join: &Join, scale: &Scale) -> i32
    ensures { result ≡ cursive.x_from_parent join.now scale.now }
{
    let x = join.exit.x_to(&join.entry, scale);
    if join.is_right_to_left {
        x
    } else {
        x.wrapping_neg()
    }
}

/// How far above its parent a child stands.
#[tactic(auto, unfolding(crate::specs::Cursive::y_from_parent))]
fn y_from_parent(join: &Join, scale: &Scale) -> i32
    ensures { result ≡ cursive.y_from_parent join.now scale.now }
{
    let y = join.exit.y_to(&join.entry, scale);
    if join.is_right_to_left {
        y
    } else {
        y.wrapping_neg()
    }
}

/// Attaches a child to its parent, so far from it across the line.
#[tactic(auto, unfolding(crate::specs::Cursive::hung_on))]
fn hang_on(
    positions: &mut [GlyphPosition],
    direction: Direction,
    child: usize,
    parent: usize,
    x: i32,
    y: i32,
)
    ensures { positions.new ≡ cursive.hung_on direction child parent x y positions.old }
{
    reverse_chain(positions, child, direction.is_horizontal(), parent);
    if child < positions.len() {
        let chain = hang_at(positions, child, parent, direction, x, y);
        part_at(positions, parent, chain, direction);
    }
}

/// Attaches the glyph at a place to its parent, and says by which chain.
#[tactic(auto, unfolding(ot_attachments::specs::Placing::changed_at))]
fn hang_at(
    positions: &mut [GlyphPosition],
    place: usize,
    parent: usize,
    direction: Direction,
    x: i32,
    y: i32,
) -> i16
    requires { place < length positions.old }
    ensures is { positions.new ≡ changed_at (cursive.hung direction place parent x y) place positions.old }
    ensures chain { result ≡ chain_of (position_at positions.new place) }
{
    hang(&mut positions[place], direction, place, parent, x, y);
    positions[place].attach_chain()
}

/// Attaches a glyph to its parent.
#[tactic(auto, unfolding(crate::specs::Cursive::hung))]
fn hang(
    position: &mut GlyphPosition,
    direction: Direction,
    child: usize,
    parent: usize,
    x: i32,
    y: i32,
)
    ensures { position.new ≡ cursive.hung direction child parent x y position.old }
{
    attach(position, child, parent, ATTACH_TYPE_CURSIVE);
    if direction.is_horizontal() {
        position.y_offset = y;
    } else {
        position.x_offset = x;
    }
}

/// Parts the glyph at a place from the one that now hangs on it by this chain.
#[tactic(auto, unfolding(ot_attachments::specs::Placing::changed_at))]
fn part_at(positions: &mut [GlyphPosition], place: usize, chain: i16, direction: Direction)
    ensures { positions.new ≡ changed_at (cursive.parted_from direction chain) place positions.old }
{
    if place < positions.len() {
        part_from(&mut positions[place], chain, direction);
    }
}

/// Parts a glyph from the one that now hangs on it by this chain.
#[tactic(auto, unfolding(crate::specs::Cursive::parted_from))]
fn part_from(position: &mut GlyphPosition, chain: i16, direction: Direction)
    ensures { position.new ≡ cursive.parted_from direction chain position.old }
{
    if position.attach_chain() != chain.wrapping_neg() {
        return;
    }
    position.set_attach_chain(0);
    if direction.is_horizontal() {
        position.y_offset = 0;
    } else {
        position.x_offset = 0;
    }
}
