//! Single glyphs and pairs that are moved (HarfBuzz, `SinglePos`, `PairPos`).

ghost use Rattle.std.specs.Prelude.{◌≡◌, ◌<◌, Some, None, true, length, option_map, if◌then◌else◌};
ghost use Rattle.std.specs.Option.{option_map_or};
ghost use Rattle.rb_common.specs.Direction.{is_horizontal};
ghost use Rattle.ot_layout.specs.SkippingIterator.{IsBehind, next_found};
ghost use Rattle.ot_lookups.specs.LookupProps.{glyph_at};
ghost use Rattle.ot_layout.specs.declared.matcher.Matcher.TheVariants.{Shown};
ghost use Rattle.ot_layout.specs.declared.skipping_iterator.Found.TheVariants.{At};
ghost use Rattle.ot_gpos_tables.specs.Pairs.{is_kerning, kerned};
ghost use Rattle.ot_gpos_tables.specs.Values.{moved};
ghost use Rattle.ot_gpos.specs.Adjustments as adjustments;
ghost use Rattle.ot_attachments.specs.Flags.{KeepsText, concat_marked};
ghost use Rattle.ot_gpos.specs.PairAdjustments as pairs;
ghost use Rattle.ot_attachments.specs.Places.{behind};
ghost use Rattle.ot_attachments.specs.Placing.{changed_at};
ghost use Rattle.ot_gpos.specs.Visit.{visit_of};
ghost use Rattle.shaping_buffer.specs.State.{HasPositions};

use crate::turn::Turn;
use ot_attachments::flags::{mark_break, mark_concat};
use ot_gpos_tables::instance::Instance;
use ot_gpos_tables::pairs::{
    PairValues, classed_advance, classed_pair, is_kerning, listed_advance, listed_pair,
    pair_formats, pair_set, single_values,
};
use ot_gpos_tables::values::{ValueRecord, advanced};
use ot_layout::matcher::{Matcher, class_of};
use ot_layout::skipping_iterator::{Found, SkippingIterator};
use ot_lookups::subtable_kind::{PairFormat, SubtableKind};
use rb_glyph::{GlyphPosition, hb_glyph_info_t};
use shaping_buffer::hb_buffer_t;

/// A pair that a subtable has records for.
#[derive(Clone, Copy)]
struct AdjustedPair {
    /// The place of its second glyph.
    second: usize,
    /// Its records.
    values: PairValues,
    /// Whether pairs have records for their second glyphs.
    uses_second: bool,
}

/// Moves the glyph, and says where the iterator goes on; `None` where the subtable is not for it.
#[tactic(auto, using(ot_attachments::proofs::PositionsLemmas::with_positions_changed, ot_attachments::proofs::FlagLemmas::untouched_with_positions))]
pub(crate) fn place_single(buffer: &mut hb_buffer_t, turn: &Turn) -> Option<usize>
    requires placed { HasPositions buffer.old }
    ensures next { result ≡ adjustments.single_next (visit_of turn.now) }
    ensures is { buffer.new ≡ adjustments.single (visit_of turn.now) buffer.old }
    ensures kept { KeepsText buffer.old buffer.new }
{
    let values = single_values(turn.subtable.table, turn.index)?;
    let is_horizontal = buffer.direction.is_horizontal();
    let table = turn.subtable.table;
    move_at(
        buffer.pos_mut(),
        turn.place,
        &values,
        table,
        turn.instance,
        is_horizontal,
    );
    Some(turn.place.saturating_add(1))
}

/// Moves the glyph at a place.
#[tactic(auto, unfolding(ot_attachments::specs::Placing::changed_at))]
fn move_at(
    positions: &mut [GlyphPosition],
    place: usize,
    values: &ValueRecord,
    base: &[u8],
    instance: &Instance<'_>,
    is_horizontal: bool,
)
    ensures { positions.new
        ≡ changed_at (moved base.now instance.now is_horizontal values.now) place positions.old }
{
    if place < positions.len() {
        values.move_glyph(base, instance, is_horizontal, &mut positions[place]);
    }
}

/// Moves the glyph and the next one, and says where the iterator goes on; `None` where the subtable has no such pair.
pub(crate) fn place_pair(buffer: &mut hb_buffer_t, turn: &Turn) -> Option<usize>
    requires placed { HasPositions buffer.old }
    ensures next { result ≡ pairs.pair_next (visit_of turn.now) buffer.old }
    ensures is { buffer.new ≡ pairs.pair (visit_of turn.now) buffer.old }
    ensures kept { KeepsText buffer.old buffer.new }
{
    let len = buffer.len();
    if turn.place >= len {
        return None;
    }
    match next_shown(&turn.iterator, buffer.info(), turn.place) {
        Found::At(second) => place_with(buffer, turn, second),
        Found::Other(next) => {
            mark_concat(buffer, turn.place, next.saturating_add(1));
            None
        }
        Found::End => {
            mark_concat(buffer, turn.place, len);
            None
        }
    }
}

/// Moves the glyph and the one at a place after it.
fn place_with(buffer: &mut hb_buffer_t, turn: &Turn, second: usize) -> Option<usize>
    requires placed { HasPositions buffer.old }
    requires first { turn.now.place < length buffer.old.input }
    requires second { second < length buffer.old.input }
    ensures next { result ≡ pairs.next_with (visit_of turn.now) (At second) buffer.old }
    ensures is { buffer.new ≡ pairs.pair_with (visit_of turn.now) (At second) buffer.old }
    ensures kept { KeepsText buffer.old buffer.new }
{
    let glyphs = glyphs_at(buffer.info(), turn.place, second);
    if buffer.direction.is_horizontal() && is_kerning(turn.subtable.table) {
        kern(buffer, turn, second, glyphs)
    } else {
        adjust(buffer, turn, second, glyphs)
    }
}

/// The glyphs at two places.
#[inline]
fn glyphs_at(glyphs: &[hb_glyph_info_t], first: usize, second: usize) -> (u32, u32)
    requires first { first < length glyphs.now }
    requires second { second < length glyphs.now }
    ensures first { result.0 ≡ (glyph_at glyphs.now first).glyph_id }
    ensures second { result.1 ≡ (glyph_at glyphs.now second).glyph_id }
{
    (glyphs[first].glyph_id, glyphs[second].glyph_id)
}

/// Kerns the glyph with the one at a place, where the pair is of these glyphs.
#[inline]
fn kern(buffer: &mut hb_buffer_t, turn: &Turn, second: usize, glyphs: (u32, u32)) -> Option<usize>
    requires placed { HasPositions buffer.old }
    requires horizontal { is_horizontal buffer.old.direction ≡ true }
    requires kerns { is_kerning (pairs.table_of (visit_of turn.now)) ≡ true }
    ensures next { result ≡ option_map_or (λ v. Some second) (pairs.pair_records (visit_of turn.now) glyphs.0 glyphs.1) None }
    ensures is { buffer.new ≡ option_map_or (λ v. pairs.adjusted (visit_of turn.now) second v buffer.old)
        (pairs.pair_records (visit_of turn.now) glyphs.0 glyphs.1) (concat_marked turn.now.place (behind second) buffer.old) }
    ensures kept { KeepsText buffer.old buffer.new }
{
    match advance_of(turn, glyphs) {
        Some(advance) => {
            kern_pair(buffer, turn, second, advance);
            Some(second)
        }
        None => {
            mark_concat(buffer, turn.place, second.saturating_add(1));
            None
        }
    }
}

/// The advance of the pair of these glyphs, where pairs have nothing else.
#[inline]
#[tactic(auto, using(crate::proofs::PairLemmas::number_kerning_first, crate::proofs::PairLemmas::number_kerning_second), unfolding(crate::specs::PairAdjustments::pair_records))]
fn advance_of(turn: &Turn, glyphs: (u32, u32)) -> Option<i16>
    requires kerns { is_kerning (pairs.table_of (visit_of turn.now)) ≡ true }
    ensures { option_map kerned result ≡ pairs.pair_records (visit_of turn.now) glyphs.0 glyphs.1 }
{
    let (first, second) = glyphs;
    match turn.subtable.kind {
        SubtableKind::PairAdjustment(PairFormat::Glyphs) => {
            let set = pair_set(turn.subtable.table, turn.index)?;
            if second > 0xFFFF {
                return None;
            }
            listed_advance(set, second as u16)
        }
        SubtableKind::PairAdjustment(PairFormat::Classes) => {
            let first = class_of(&turn.subtable.classes, first);
            classed_advance(
                turn.subtable.table,
                first,
                class_of(&turn.subtable.lookahead_classes, second),
            )
        }
        _ => None,
    }
}

/// Kerns the pair of the glyph and the one at a place.
#[inline]
#[tactic(auto, using(crate::proofs::PairLemmas::adjusted_kerned, crate::proofs::PairLemmas::with_positions_paired, ot_attachments::proofs::FlagLemmas::untouched_with_positions))]
fn kern_pair(buffer: &mut hb_buffer_t, turn: &Turn, second: usize, advance: i16)
    requires placed { HasPositions buffer.old }
    requires horizontal { is_horizontal buffer.old.direction ≡ true }
    requires kerns { is_kerning (pairs.table_of (visit_of turn.now)) ≡ true }
    ensures is { buffer.new ≡ pairs.adjusted (visit_of turn.now) second (kerned advance) buffer.old }
    ensures kept { KeepsText buffer.old buffer.new }
{
    let end = second.saturating_add(1);
    if advance != 0 {
        advance_at(buffer.pos_mut(), turn, second, advance);
        mark_break(buffer, turn.place, end);
    } else {
        mark_unmoved(buffer, turn, end);
    }
}

/// Marks a pair that is not moved, which ends before a place: another second glyph might be. A glyph that it passes over might be moved,
/// if the line began there.
#[tactic(auto, unfolding(crate::specs::PairAdjustments::unmoved))]
fn mark_unmoved(buffer: &mut hb_buffer_t, turn: &Turn, end: usize)
    requires placed { HasPositions buffer.old }
    ensures is { buffer.new ≡ pairs.unmoved (visit_of turn.now) end buffer.old }
    ensures kept { KeepsText buffer.old buffer.new }
{
    mark_passed(buffer, turn, end);
    mark_concat(buffer, turn.place, end);
}

/// Marks what a pair passes over that is not moved, where one of these glyphs might be.
fn mark_passed(buffer: &mut hb_buffer_t, turn: &Turn, end: usize)
    requires placed { HasPositions buffer.old }
    ensures is { buffer.new ≡ pairs.parted (visit_of turn.now) end buffer.old }
    ensures kept { KeepsText buffer.old buffer.new }
{
    if passes_over_first(buffer.info(), turn, end) {
        mark_break(buffer, turn.place, end.saturating_sub(1));
    }
}

/// Whether the lookup may do something at a glyph within a pair, which ends before a place.
#[tactic(auto, using(ot_attachments::proofs::PlacesLemmas::some_place_here, ot_attachments::proofs::PlacesLemmas::some_place_later, ot_attachments::proofs::PlacesLemmas::some_place_none))]
fn passes_over_first(glyphs: &[hb_glyph_info_t], turn: &Turn, end: usize) -> bool
    ensures { result ≡ pairs.passes_over_first (visit_of turn.now) end glyphs.now }
{
    let to = end.saturating_sub(1).min(glyphs.len());
    for place in turn.place.saturating_add(1)..to {
        if turn.lookup.is_for(turn.iterator.mask, &glyphs[place]) {
            return true;
        }
    }
    false
}

/// Moves the advance of the glyph, which is kerned with the one at a place.
#[inline]
#[tactic(auto, using(crate::proofs::PairLemmas::pair_moved_kerned), unfolding(ot_attachments::specs::Placing::changed_at))]
fn advance_at(positions: &mut [GlyphPosition], turn: &Turn, _second: usize, advance: i16)
    requires kerns { is_kerning (pairs.table_of (visit_of turn.now)) ≡ true }
    ensures { positions.new ≡ pairs.pair_moved (visit_of turn.now) true (kerned advance) _second positions.old }
{
    if turn.place < positions.len() {
        positions[turn.place] = advanced(advance, turn.instance, positions[turn.place]);
    }
}

/// The next glyph that is not passed over, which most often is the one after.
#[inline]
#[tactic(auto, using(crate::proofs::PairLemmas::next_is_behind))]
fn next_shown(iterator: &SkippingIterator, glyphs: &[hb_glyph_info_t], place: usize) -> Found
    requires { place < length glyphs.now }
    ensures is { result ≡ next_found iterator.now Shown glyphs.now place }
    ensures behind { IsBehind result place (length glyphs.now) }
{
    let behind = place + 1;
    if behind < glyphs.len()
        && !iterator.passes(&Matcher::Shown, &glyphs[behind])
        && iterator.matches(&Matcher::Shown, &glyphs[behind])
    {
        Found::At(behind)
    } else {
        iterator.next(&Matcher::Shown, glyphs, place)
    }
}

/// Moves the glyph and the one at a place, where the pair is of these glyphs.
#[inline]
fn adjust(buffer: &mut hb_buffer_t, turn: &Turn, second: usize, glyphs: (u32, u32)) -> Option<usize>
    requires placed { HasPositions buffer.old }
    ensures next { result ≡ option_map_or (λ v. Some (if pairs.uses_second (visit_of turn.now) then behind second else second))
        (pairs.pair_records (visit_of turn.now) glyphs.0 glyphs.1) None }
    ensures is { buffer.new ≡ option_map_or (λ v. pairs.adjusted (visit_of turn.now) second v buffer.old)
        (pairs.pair_records (visit_of turn.now) glyphs.0 glyphs.1) (concat_marked turn.now.place (behind second) buffer.old) }
    ensures kept { KeepsText buffer.old buffer.new }
{
    let end = second.saturating_add(1);
    match values_of(turn, glyphs) {
        Some(values) => {
            let uses_second = pair_formats(turn.subtable.table).1 != 0;
            let pair = AdjustedPair {
                second,
                values,
                uses_second,
            };
            move_pair(buffer, turn, &pair);
            Some(if uses_second { end } else { second })
        }
        None => {
            mark_concat(buffer, turn.place, end);
            None
        }
    }
}

/// The records of the pair of these glyphs.
#[inline]
#[tactic(auto, unfolding(crate::specs::PairAdjustments::pair_records))]
fn values_of(turn: &Turn, glyphs: (u32, u32)) -> Option<PairValues>
    ensures { result ≡ pairs.pair_records (visit_of turn.now) glyphs.0 glyphs.1 }
{
    let (first, second) = glyphs;
    let table = turn.subtable.table;
    match turn.subtable.kind {
        SubtableKind::PairAdjustment(PairFormat::Glyphs) => {
            let set = pair_set(table, turn.index)?;
            if second > 0xFFFF {
                return None;
            }
            listed_pair(set, pair_formats(table), second as u16)
        }
        SubtableKind::PairAdjustment(PairFormat::Classes) => {
            let first = class_of(&turn.subtable.classes, first);
            classed_pair(
                table,
                first,
                class_of(&turn.subtable.lookahead_classes, second),
            )
        }
        _ => None,
    }
}

/// Moves the glyphs of a pair, and marks what may not be parted any more.
#[tactic(auto, unfolding(crate::specs::PairAdjustments::adjusted))]
fn move_pair(buffer: &mut hb_buffer_t, turn: &Turn, pair: &AdjustedPair)
    requires placed { HasPositions buffer.old }
    requires uses { pair.now.uses_second ≡ pairs.uses_second (visit_of turn.now) }
    ensures is { buffer.new ≡ pairs.adjusted (visit_of turn.now) pair.now.second pair.now.values buffer.old }
    ensures kept { KeepsText buffer.old buffer.new }
{
    move_or_not(buffer, turn, pair);
    if pair.uses_second {
        mark_break(
            buffer,
            turn.place,
            pair.second.saturating_add(1).saturating_add(1),
        );
    }
}

/// Moves the glyphs of a pair, where its records may move them.
#[tactic(auto, using(crate::proofs::PairLemmas::with_positions_paired, ot_attachments::proofs::FlagLemmas::untouched_with_positions))]
fn move_or_not(buffer: &mut hb_buffer_t, turn: &Turn, pair: &AdjustedPair)
    requires placed { HasPositions buffer.old }
    requires uses { pair.now.uses_second ≡ pairs.uses_second (visit_of turn.now) }
    ensures is { buffer.new ≡ pairs.moved_or_not (visit_of turn.now) pair.now.second pair.now.values buffer.old }
    ensures kept { KeepsText buffer.old buffer.new }
{
    let end = pair.second.saturating_add(1);
    let is_horizontal = buffer.direction.is_horizontal();
    if has_effect(turn, pair, is_horizontal) {
        move_both(buffer.pos_mut(), turn, pair, is_horizontal);
        mark_break(buffer, turn.place, end);
    } else {
        mark_unmoved(buffer, turn, end);
    }
}

/// Whether records may move a pair.
fn has_effect(turn: &Turn, pair: &AdjustedPair, is_horizontal: bool) -> bool
    requires uses { pair.now.uses_second ≡ pairs.uses_second (visit_of turn.now) }
    ensures { result ≡ pairs.pair_has_effect (visit_of turn.now) is_horizontal pair.now.values }
{
    pair.values.first.has_effect(turn.instance, is_horizontal)
        || pair.uses_second && pair.values.second.has_effect(turn.instance, is_horizontal)
}

/// From where the offsets of device tables are counted.
fn base_of<'a>(turn: &Turn<'a>) -> &'a [u8]
    ensures { result.now ≡ pairs.pair_base (visit_of turn.now) }
{
    if turn.subtable.kind == SubtableKind::PairAdjustment(PairFormat::Classes) {
        turn.subtable.table
    } else {
        pair_set(turn.subtable.table, turn.index).unwrap_or(&[])
    }
}

/// Moves the glyphs of a pair.
#[tactic(auto, unfolding(crate::specs::PairAdjustments::pair_moved))]
fn move_both(positions: &mut [GlyphPosition], turn: &Turn, pair: &AdjustedPair, is_horizontal: bool)
    ensures { positions.new
        ≡ pairs.pair_moved (visit_of turn.now) is_horizontal pair.now.values pair.now.second positions.old }
{
    let base = base_of(turn);
    move_at(
        positions,
        turn.place,
        &pair.values.first,
        base,
        turn.instance,
        is_horizontal,
    );
    if pair_formats(turn.subtable.table).1 != 0 {
        move_at(
            positions,
            pair.second,
            &pair.values.second,
            base,
            turn.instance,
            is_horizontal,
        );
    }
}
