//! Kerning by the table `kern` (HarfBuzz, `hb_ot_layout_kern`, `hb_kern_machine_t`).

ghost use Rattle.std.specs.Prelude.{◌≡◌, ℕ, ◌<◌, ◌+◌, ◌||◌, suc, length, drop, map, nat_le, option_map};
ghost use Rattle.ot_attachments.specs.Flags.{KeepsText};
ghost use Rattle.ot_kern.specs.Kerning as kerning;
ghost use Rattle.ot_kern.specs.Kerning.{PassesMarks, machine_of, pair_table};
ghost use Rattle.shaping_buffer.specs.KeepsClusters.{KeepsClusters};
ghost use Rattle.shaping_buffer.specs.State.{HasPositions};
ghost use Rattle.ot_attachments.specs.Placing.{changed_at, advanced, shifted, pair_kerned};

use crate::kern_pairs::{KernMachine, KernPair, in_line, pair_of, passes_over_pair};
use font_tables::coverage::Coverage;
use font_tables::scale::Scale;
use ot_attachments::chains::ATTACH_TYPE_CURSIVE;
use ot_attachments::flags::{mark_attached, mark_break, mark_concat};
use ot_gpos_tables::kern_table::{KernCoverage, KernSubtable, KernTable};
use ot_layout::skipping_iterator::{LookupOptions, SkippingIterator};
use ot_lookups::lookup_props::LookupProps;
use rb_common::Direction;
use rb_glyph::GlyphPosition;
use shaping_buffer::hb_buffer_t;

/// The bit of a lookup's flag that passes over marks.
const IGNORE_MARKS: u16 = 0x0008;

/// Moves pairs of glyphs by the subtables for lines of this direction, where the glyphs have one of the options' bits.
#[tactic(auto, using(ot_attachments::proofs::FlagLemmas::keeps_by))]
pub fn kern(buffer: &mut hb_buffer_t, table: &KernTable, scale: &Scale, options: &LookupOptions)
    requires placed { HasPositions buffer.old }
    ensures is { buffer.new ≡ kerning.kerned table.now scale.now options.now buffer.old }
    ensures kept { KeepsText buffer.old buffer.new }
    ensures keeps { KeepsClusters buffer.old buffer.new }
{
    prove!(buffer.out_len() == 0);
    kern_by_all(buffer, table, scale, options);
    prove!(buffer.out_len() == 0);
}

/// Moves pairs of glyphs by each subtable.
#[tactic(auto, unfolding(crate::specs::Kerning::kerned))]
fn kern_by_all(buffer: &mut hb_buffer_t, table: &KernTable, scale: &Scale, options: &LookupOptions)
    requires placed { HasPositions buffer.old }
    ensures is { buffer.new ≡ kerning.kerned table.now scale.now options.now buffer.old }
    ensures kept { KeepsText buffer.old buffer.new }
{
    mark_concat(buffer, 0, usize::MAX);
    let iterator = over_bases(options);
    let mut is_chained = false;
    let mut at = table.start();
    for number in 0..table.count {
        let Some(subtable) = subtable_of(table, at, number) else {
            return;
        };
        let direction = direction_of(buffer);
        let machine = KernMachine {
            subtable,
            iterator,
            scale: *scale,
            direction,
        };
        is_chained = apply(buffer, &machine, is_chained);
        at = at.saturating_add(subtable.length);
    }
}

/// The direction of the line.
fn direction_of(buffer: &hb_buffer_t) -> Direction
    ensures { result ≡ buffer.now.direction }
{
    buffer.direction
}

/// The subtable that begins at a place, whose number is this one.
fn subtable_of<'a>(table: &KernTable<'a>, at: usize, number: u32) -> Option<KernSubtable<'a>>
    ensures { option_map pair_table result
        ≡ kerning.table_at table.now.is_apple (nat_le table.now.count (number + 1)) (drop at table.now.table.now) }
{
    table.subtable_at(at, number)
}

/// The iterator over the glyphs that are kerned: it passes over marks.
fn over_bases<'a>(options: &LookupOptions) -> SkippingIterator<'a>
    ensures passes { PassesMarks result }
    ensures mask { result.mask ≡ options.now.mask }
    ensures joiners { result.ignores_zwj ≡ options.now.auto_zwj }
{
    let lookup_props = LookupProps {
        flags: IGNORE_MARKS,
        marks: Coverage::new(&[]),
    };
    SkippingIterator::over_input(lookup_props, options, true)
}

/// Moves pairs of glyphs by a subtable, if it is for lines of this direction. The first that moves glyphs across the line joins all of
/// them before. Says whether they are joined.
#[tactic(auto, unfolding(crate::specs::Kerning::applied))]
fn apply(buffer: &mut hb_buffer_t, machine: &KernMachine, is_chained: bool) -> bool
    requires placed { HasPositions buffer.old }
    requires passes { PassesMarks machine.now.iterator }
    ensures is { buffer.new ≡ kerning.applied (machine_of machine.now) is_chained buffer.old }
    ensures chained { result ≡ (is_chained || kerning.chains (machine_of machine.now)) }
    ensures kept { KeepsText buffer.old buffer.new }
{
    if is_for(&machine.subtable.coverage, machine.direction) {
        chain(buffer, machine, is_chained);
        kern_by(buffer, machine);
        is_chained || machine.subtable.coverage.is_cross_stream
    } else {
        is_chained
    }
}

/// Whether a subtable is for lines of this direction.
fn is_for(coverage: &KernCoverage, direction: Direction) -> bool
    ensures { result ≡ kerning.is_for coverage.now direction }
{
    if coverage.is_variation {
        false
    } else if direction.is_horizontal() {
        coverage.is_horizontal
    } else {
        !coverage.is_horizontal
    }
}

/// Joins all glyphs, if the subtable moves glyphs across the line and they are not joined yet.
#[tactic(auto, using(crate::proofs::KerningLemmas::with_positions_chained, ot_attachments::proofs::FlagLemmas::untouched_with_positions), unfolding(crate::specs::Kerning::chained))]
fn chain(buffer: &mut hb_buffer_t, machine: &KernMachine, is_chained: bool)
    requires placed { HasPositions buffer.old }
    ensures is { buffer.new ≡ kerning.chained (machine_of machine.now) is_chained buffer.old }
    ensures kept { KeepsText buffer.old buffer.new }
{
    if machine.subtable.coverage.is_cross_stream && !is_chained {
        let chain = chain_back(machine.direction);
        chain_all(buffer.pos_mut(), chain);
    }
}

/// The chain to the glyph before, in the order of the line.
fn chain_back(direction: Direction) -> i16
    ensures { result ≡ kerning.chain_back direction }
{
    if direction.is_forward() { -1 } else { 1 }
}

/// Joins each glyph to the one before it in the line: what moves one across the line moves all that follow.
#[tactic(auto, using(glyph_lists::proofs::MapLemmas::walks))]
fn chain_all(positions: &mut [GlyphPosition], chain: i16)
    ensures { positions.new ≡ map (kerning.joined chain) positions.old }
{
    for position in positions.iter_mut() {
        join(position, chain);
    }
}

/// Joins a glyph to another by this chain.
#[tactic(auto, unfolding(crate::specs::Kerning::joined))]
fn join(position: &mut GlyphPosition, chain: i16)
    ensures { position.new ≡ kerning.joined chain position.old }
{
    position.set_attach_type(ATTACH_TYPE_CURSIVE);
    position.set_attach_chain(chain);
}

/// Moves pairs of glyphs by a subtable, one after the other in the order of the line.
#[tactic(auto, unfolding(crate::specs::Kerning::line_kerned))]
fn kern_by(buffer: &mut hb_buffer_t, machine: &KernMachine)
    requires placed { HasPositions buffer.old }
    requires passes { PassesMarks machine.now.iterator }
    ensures is { buffer.new ≡ kerning.line_kerned (machine_of machine.now) buffer.old }
    ensures kept { KeepsText buffer.old buffer.new }
{
    let len = buffer.len();
    let mut turn = 0;
    let mut across = None;
    for _step in 0..len {
        if turn >= buffer.len() {
            mark_rest(buffer, machine.direction, across);
            return;
        }
        turn = kern_at(buffer, machine, turn, &mut across);
    }
    mark_rest(buffer, machine.direction, across);
}

/// Moves the pair of the glyph whose turn it is, and says whose turn it is then: that of its right glyph, or of the next one where there
/// is no pair.
#[tactic(auto, using(crate::proofs::KerningLemmas::walked_pair, crate::proofs::KerningLemmas::walked_lone))]
fn kern_at(
    buffer: &mut hb_buffer_t,
    machine: &KernMachine,
    turn: usize,
    across: &mut Option<usize>,
) -> usize
    requires placed { HasPositions buffer.old }
    requires passes { PassesMarks machine.now.iterator }
    requires there { turn < length buffer.old.input }
    ensures is { (steps : ℕ) → kerning.walked (suc steps) (machine_of machine.now) turn across.old buffer.old
        ≡ kerning.walked steps (machine_of machine.now) result across.new buffer.new }
    ensures kept { KeepsText buffer.old buffer.new }
{
    let len = buffer.len();
    let left = in_line(machine.direction, len, turn);
    let Some(pair) = pair_of(buffer.info(), machine, left) else {
        return turn + 1;
    };
    try_pair(buffer, machine, &pair);
    *across = first_crossed(&pair, *across);
    in_line(machine.direction, len, pair.right)
}

/// The left glyph of the first pair that is moved across the line.
fn first_crossed(pair: &KernPair, across: Option<usize>) -> Option<usize>
    ensures { result ≡ kerning.first_crossed pair.now across }
{
    match across {
        Some(place) => Some(place),
        None => {
            if pair.is_cross_stream && pair.value != 0 {
                Some(pair.left)
            } else {
                None
            }
        }
    }
}

/// Marks that no glyph from a place on, in the order of the line, may be parted from it: what is moved across the line moves all that
/// follow.
fn mark_rest(buffer: &mut hb_buffer_t, direction: Direction, across: Option<usize>)
    requires placed { HasPositions buffer.old }
    ensures is { buffer.new ≡ kerning.rest_marked direction across buffer.old }
    ensures kept { KeepsText buffer.old buffer.new }
{
    match across {
        Some(left) => {
            if direction.is_forward() {
                mark_break(buffer, left, usize::MAX);
            } else {
                mark_break(buffer, 0, left.saturating_add(1));
            }
        }
        None => {}
    }
}

/// Moves a pair that has a value. What another passes over may not be parted, where it might be kerned.
#[tactic(auto, unfolding(crate::specs::Kerning::pair_tried))]
fn try_pair(buffer: &mut hb_buffer_t, machine: &KernMachine, pair: &KernPair)
    requires placed { HasPositions buffer.old }
    requires left { pair.now.left < length buffer.old.input }
    requires right { pair.now.right < length buffer.old.input }
    ensures is { buffer.new ≡ kerning.pair_tried (machine_of machine.now) pair.now buffer.old }
    ensures kept { KeepsText buffer.old buffer.new }
{
    if pair.value == 0 {
        mark_unkerned(buffer, machine, pair);
    } else {
        kern_pair(buffer, machine, pair);
    }
}

/// Marks what a pair passes over, if one of these glyphs would be kerned with its right glyph.
#[tactic(auto, unfolding(crate::specs::Kerning::unkerned))]
fn mark_unkerned(buffer: &mut hb_buffer_t, machine: &KernMachine, pair: &KernPair)
    requires placed { HasPositions buffer.old }
    requires left { pair.now.left < length buffer.old.input }
    requires right { pair.now.right < length buffer.old.input }
    ensures is { buffer.new ≡ kerning.unkerned (machine_of machine.now) pair.now buffer.old }
    ensures kept { KeepsText buffer.old buffer.new }
{
    if passes_over_pair(buffer.info(), machine, pair) {
        mark_passed(buffer, pair);
    }
}

/// Moves a pair, and marks that it may not be parted.
#[tactic(auto, unfolding(crate::specs::Kerning::kerned_pair))]
fn kern_pair(buffer: &mut hb_buffer_t, machine: &KernMachine, pair: &KernPair)
    requires placed { HasPositions buffer.old }
    ensures is { buffer.new ≡ kerning.kerned_pair (machine_of machine.now) pair.now buffer.old }
    ensures kept { KeepsText buffer.old buffer.new }
{
    put(buffer, machine, pair);
    let (first, second) = (pair.left.min(pair.right), pair.left.max(pair.right));
    mark_break(buffer, first, second.saturating_add(1));
}

/// Moves a pair. A glyph that is moved across the line is attached to the one before it.
#[tactic(auto, using(crate::proofs::KerningLemmas::with_positions_moved, ot_attachments::proofs::FlagLemmas::untouched_with_positions), unfolding(crate::specs::Kerning::put))]
fn put(buffer: &mut hb_buffer_t, machine: &KernMachine, pair: &KernPair)
    requires placed { HasPositions buffer.old }
    ensures is { buffer.new ≡ kerning.put (machine_of machine.now) pair.now buffer.old }
    ensures kept { KeepsText buffer.old buffer.new }
{
    move_pair(buffer.pos_mut(), machine, pair);
    if pair.is_cross_stream {
        mark_attached(buffer);
    }
}

/// Marks what a pair passes over: if a line began there, it might be kerned with the right glyph.
#[tactic(auto, unfolding(crate::specs::Kerning::passed_marked))]
fn mark_passed(buffer: &mut hb_buffer_t, pair: &KernPair)
    requires placed { HasPositions buffer.old }
    ensures is { buffer.new ≡ kerning.passed_marked pair.now buffer.old }
    ensures kept { KeepsText buffer.old buffer.new }
{
    if pair.left <= pair.right {
        mark_break(buffer, pair.left, pair.right);
    } else {
        mark_break(
            buffer,
            pair.right.saturating_add(1),
            pair.left.saturating_add(1),
        );
    }
}

/// Moves a pair along the line, or its right glyph across it.
#[tactic(auto, unfolding(crate::specs::Kerning::pair_moved))]
fn move_pair(positions: &mut [GlyphPosition], machine: &KernMachine, pair: &KernPair)
    ensures { positions.new ≡ kerning.pair_moved (machine_of machine.now) pair.now positions.old }
{
    let is_horizontal = machine.direction.is_horizontal();
    let value = scaled(machine, pair.value);
    if pair.is_cross_stream {
        cross_at(positions, pair.right, value, is_horizontal);
    } else {
        draw_together(positions, pair.left, pair.right, value, is_horizontal);
    }
}

/// A length along the line, at the font's size.
#[tactic(auto, unfolding(crate::specs::Kerning::scaled))]
fn scaled(machine: &KernMachine, value: i32) -> i32
    ensures { result ≡ kerning.scaled (machine_of machine.now) value }
{
    if machine.direction.is_horizontal() {
        machine.scale.em_scale_x(value)
    } else {
        machine.scale.em_scale_y(value)
    }
}

/// Puts the glyph at a place so far across the line.
#[tactic(auto, unfolding(ot_attachments::specs::Placing::changed_at))]
fn cross_at(positions: &mut [GlyphPosition], place: usize, value: i32, is_horizontal: bool)
    ensures { positions.new ≡ changed_at (kerning.crossed is_horizontal value) place positions.old }
{
    if place < positions.len() {
        cross(&mut positions[place], value, is_horizontal);
    }
}

/// Moves a pair along the line: half of the value goes to the advance of the left glyph, and the rest to that of the right one, which is
/// moved by it.
#[tactic(auto, unfolding(ot_attachments::specs::Placing::changed_at))]
fn draw_together(
    positions: &mut [GlyphPosition],
    left: usize,
    right: usize,
    value: i32,
    is_horizontal: bool,
)
    ensures { positions.new ≡ pair_kerned is_horizontal value left right positions.old }
{
    let half = value >> 1;
    let rest = value.wrapping_sub(half);
    if left < positions.len() {
        advance(&mut positions[left], half, is_horizontal);
    }
    if right < positions.len() {
        let position = &mut positions[right];
        advance(position, rest, is_horizontal);
        shift(position, rest, is_horizontal);
    }
}

/// Puts a glyph so far across the line.
#[tactic(auto, unfolding(crate::specs::Kerning::crossed))]
fn cross(position: &mut GlyphPosition, value: i32, is_horizontal: bool)
    ensures { position.new ≡ kerning.crossed is_horizontal value position.old }
{
    if is_horizontal {
        position.y_offset = value;
    } else {
        position.x_offset = value;
    }
}

/// Widens the advance of a glyph along the line.
#[tactic(auto, unfolding(ot_attachments::specs::Placing::advanced))]
fn advance(position: &mut GlyphPosition, length: i32, is_horizontal: bool)
    ensures { position.new ≡ advanced is_horizontal length position.old }
{
    if is_horizontal {
        position.x_advance = position.x_advance.wrapping_add(length);
    } else {
        position.y_advance = position.y_advance.wrapping_add(length);
    }
}

/// Moves a glyph along the line.
#[tactic(auto, unfolding(ot_attachments::specs::Placing::shifted))]
fn shift(position: &mut GlyphPosition, length: i32, is_horizontal: bool)
    ensures { position.new ≡ shifted is_horizontal length position.old }
{
    if is_horizontal {
        position.x_offset = position.x_offset.wrapping_add(length);
    } else {
        position.y_offset = position.y_offset.wrapping_add(length);
    }
}
