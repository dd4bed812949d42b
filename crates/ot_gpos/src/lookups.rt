//! A lookup of `GPOS` over a buffer: each glyph that it is for is tried with its subtables, one after the other (HarfBuzz,
//! `apply_forward`).

ghost use Rattle.std.specs.Prelude.{ℕ, ◌≡◌, ◌≤◌, ◌<◌, ◌-◌, true, false, length, min, slice_get, None, Some, IsSome, IfNone, IfSome};
ghost use Rattle.ot_layout.specs.ApplyContext.{IsMadeFor};
ghost use Rattle.ot_layout.specs.Budget.{IsNotMore};
ghost use Rattle.glyph_digests.specs.Covered.{covered_index};
ghost use Rattle.ot_gpos.specs.Attachments.{HasNoPixels};
ghost use Rattle.ot_gpos.specs.Contexts.{AreDone, IsContextDone, named, record_done, target};
ghost use Rattle.ot_attachments.specs.Flags.{KeepsBits, KeepsText, untouched};
ghost use Rattle.ot_gpos.specs.Lookups.{applied, is_simple, outcome, text_of};
ghost use Rattle.ot_gpos.specs.Nested as others;
ghost use Rattle.ot_gpos.specs.Nested.{IsOneTried, IsTried, IsVisited};
ghost use Rattle.ot_gpos.specs.Runs.{IsPositioned};
ghost use Rattle.ot_gpos.specs.Subtables.{bases_at, simple_at, simple_next};
ghost use Rattle.ot_gpos.specs.Visit.{visit_of};
ghost use Rattle.ot_lookups.specs.Lookup.{is_for};
ghost use Rattle.ot_lookups.specs.LookupProps.{glyph_at};
ghost use Rattle.ot_lookups.specs.NextAsked.{IsNextOf};
ghost use Rattle.shaping_buffer.specs.KeepsClusters.{KeepsClusters};
ghost use Rattle.shaping_buffer.specs.State.{HasPositions};

use crate::attachment::attach_mark;
use crate::contexts::fit_at;
use crate::cursive::place_cursive;
use crate::marks::{LastBase, attachment_at};
use crate::pairs::{place_pair, place_single};
use crate::turn::{Setting, Turn};
use ot_attachments::flags::{mark_break, mark_concat};
use ot_contexts::context::Fit;
use ot_gpos_tables::contour_points::ContourPoints;
use ot_layout::budget::{PASSED_A_STEP, SUBTABLE_STEPS};
use ot_layout::search::{LookupContext, MatchPositions, Search};
use ot_layout::skipping_iterator::LookupOptions;
use ot_lookups::lookup_list::Lookup;
use ot_lookups::lookup_props::covered_index;
use ot_lookups::subtable::Subtable;
use ot_lookups::subtable_kind::SubtableKind;
use rb_glyph::hb_glyph_info_t;
use shaping_buffer::hb_buffer_t;
use std::mem;

/// How deep lookups may apply others (HarfBuzz, `HB_MAX_NESTING_LEVEL`).
const MAX_NESTING_LEVEL: u32 = 64;

/// A lookup at a glyph.
#[derive(Drop)]
struct Task<'a, 'l, P> {
    /// The font's lookups and its size.
    setting: &'a Setting<'a, P>,
    /// The lookup, and its iterators.
    applied: &'l LookupContext<'a>,
    /// How it is applied.
    options: &'a LookupOptions,
    /// The place of the glyph.
    place: usize,
    /// How many levels of lookups it may apply.
    depth: u32,
    ghost made: { IsMadeFor options.now true applied.now },
}

/// Positions the glyphs by the lookup of this index, where the buffer's glyphs have one of the options' bits. A budget that is spent
/// ends the iterator, and `buffer.shaping_failed` says so.
pub fn position<P: ContourPoints>(
    buffer: &mut hb_buffer_t,
    setting: &Setting<P>,
    lookup: u16,
    options: &LookupOptions,
    search: &mut Search,
)
    requires closed { buffer.old.have_output ≡ false }
    requires placed { IsSome buffer.old.positions }
    ensures closed { buffer.new.have_output ≡ false }
    ensures placed { IsSome buffer.new.positions }
    ensures rest { untouched buffer.new ≡ untouched buffer.old }
    ensures flags { KeepsBits buffer.old.input buffer.new.input }
    ensures spent { IsNotMore search.old.budget search.new.budget }
    ensures says { search.new.budget.steps ≡ 0 → buffer.new.shaping_failed ≡ true }
    ensures exact { let list = setting.now.list.now in
        HasNoPixels setting.now.instance → 0 < search.new.budget.steps
        → IsPositioned list (slice_get list.lookups.items lookup) options.now setting.now.instance
        search.old.budget.nested buffer.old search.new.budget.nested buffer.new }
    ensures keeps { KeepsClusters buffer.old buffer.new }
{
    place_all(buffer, setting, lookup, options, search);
    fail_if_spent(buffer, search);
}

/// Positions the glyphs by the lookup of this index, one after the other.
fn place_all<'a, P: ContourPoints>(
    buffer: &mut hb_buffer_t,
    setting: &'a Setting<'a, P>,
    index: u16,
    options: &'a LookupOptions,
    search: &mut Search,
)
    requires placed { HasPositions buffer.old }
    ensures kept { KeepsText buffer.old buffer.new }
    ensures spent { IsNotMore search.old.budget search.new.budget }
    ensures exact { let list = setting.now.list.now in
        HasNoPixels setting.now.instance → 0 < search.new.budget.steps
        → IsPositioned list (slice_get list.lookups.items index) options.now setting.now.instance
        search.old.budget.nested buffer.old search.new.budget.nested buffer.new }
{
    let Some(lookup) = setting.list.lookup(index) else {
        return;
    };
    search.budget.pay_for(1 + buffer.len() / PASSED_A_STEP);
    let applied = LookupContext::new(lookup, options, true);
    let mut last = LastBase::none();
    let mut next = 0;
    for _turn in 0..buffer.len() {
        let place = next_place(buffer.info(), lookup, options.mask, next);
        if place == buffer.len() || search.budget.is_spent() {
            return;
        }
        let task = Task {
            setting,
            applied: &applied,
            options,
            place,
            depth: MAX_NESTING_LEVEL,
        };
        next = place_by_lookup(buffer, &task, search, &mut last)
            .unwrap_or(0)
            .max(place + 1);
    }
}

/// The first place from this one on at which the lookup may do something, or the number of glyphs.
fn next_place(glyphs: &[hb_glyph_info_t], lookup: &Lookup, mask: u32, from: usize) -> usize
    ensures within { result ≤ length glyphs.now }
    ensures from { min from (length glyphs.now) ≤ result }
    ensures at { result < length glyphs.now → is_for lookup.now mask (glyph_at glyphs.now result) ≡ true }
    ensures passed { (place : ℕ) → from ≤ place → place < result → is_for lookup.now mask (glyph_at glyphs.now place) ≡ false }
{
    lookup.first_place(mask, glyphs, from.min(glyphs.len()))
}

/// Positions the glyph by the first subtable that does, and says where the iterator goes on.
#[cycle(nested)]
fn place_by_lookup<'a, 'l, P: ContourPoints>(
    buffer: &mut hb_buffer_t,
    task: &Task<'a, 'l, P>,
    search: &mut Search,
    last: &mut LastBase,
) -> Option<usize>
    requires placed { HasPositions buffer.old }
    ensures kept { KeepsText buffer.old buffer.new }
    ensures spent { IsNotMore search.old.budget search.new.budget }
    ensures exact { let a = applied task.now.setting.now.list.now task.now.applied.now.lookup.now task.now.options.now task.now.setting.now.instance in
        HasNoPixels a.instance → 0 < search.new.budget.steps
        → IsTried task.now.depth a task.now.place (text_of buffer.old last.old search.old.budget.nested)
        (outcome (text_of buffer.new last.new search.new.budget.nested) result) }
{
    if task.place >= buffer.len() {
        return None;
    }
    let glyph = buffer.info()[task.place].glyph_id;
    let subtables = task.setting.list.subtables_of(task.applied.lookup);
    search.budget.pay_for(subtables.len() / PASSED_A_STEP);
    for subtable in subtables {
        let next = try_subtable(buffer, task, subtable, glyph, search, last);
        if next.is_some() {
            return next;
        }
    }
    None
}

/// Positions the glyph of this number by a subtable, if it covers the glyph, and says where the iterator goes on.
#[cycle(nested)]
fn try_subtable<'a, 'l, P: ContourPoints>(
    buffer: &mut hb_buffer_t,
    task: &Task<'a, 'l, P>,
    subtable: &'a Subtable<'a>,
    glyph: u32,
    search: &mut Search,
    last: &mut LastBase,
) -> Option<usize>
    requires placed { HasPositions buffer.old }
    requires within { task.now.place < length buffer.old.input }
    requires next { IsNextOf task.now.setting.now.list.now.coverages.items subtable.now }
    ensures kept { KeepsText buffer.old buffer.new }
    ensures spent { IsNotMore search.old.budget search.new.budget }
    ensures exact { let a = applied task.now.setting.now.list.now task.now.applied.now.lookup.now task.now.options.now task.now.setting.now.instance in
        HasNoPixels a.instance → 0 < search.new.budget.steps
        → IsOneTried (others.nested task.now.depth a) a task.now.place glyph subtable.now
        (text_of buffer.old last.old search.old.budget.nested)
        (outcome (text_of buffer.new last.new search.new.budget.nested) result) }
{
    if !subtable.may_be_for(glyph) {
        return None;
    }
    if !search.budget.pay(SUBTABLE_STEPS) {
        return None;
    }
    let index = index_in(subtable, glyph)?;
    let turn = Turn {
        lookup: task.applied.lookup,
        subtable,
        iterator: task.applied.iterator,
        instance: &task.setting.instance,
        place: task.place,
        index,
    };
    place_by_subtable(buffer, task, &turn, search, last)
}

/// The coverage index of a glyph in a subtable.
#[inline(never)]
fn index_in(subtable: &Subtable, glyph: u32) -> Option<u32>
    ensures { result ≡ covered_index subtable.now.coverage.table.now glyph }
{
    covered_index(&subtable.coverage, glyph)
}

/// Positions the glyph by a subtable that is for it, and says where the iterator goes on; `None` where the subtable does not fit.
#[cycle(nested)]
#[inline(never)]
fn place_by_subtable<'a, 'l, P: ContourPoints>(
    buffer: &mut hb_buffer_t,
    task: &Task<'a, 'l, P>,
    turn: &Turn<'a>,
    search: &mut Search,
    last: &mut LastBase,
) -> Option<usize>
    requires placed { HasPositions buffer.old }
    requires within { turn.now.place < length buffer.old.input }
    requires place { turn.now.place ≡ task.now.place }
    requires next { IsNextOf task.now.setting.now.list.now.coverages.items turn.now.subtable.now }
    ensures kept { KeepsText buffer.old buffer.new }
    ensures spent { IsNotMore search.old.budget search.new.budget }
    ensures exact { let a = applied task.now.setting.now.list.now task.now.applied.now.lookup.now task.now.options.now task.now.setting.now.instance in
        HasNoPixels a.instance → HasNoPixels turn.now.instance.now → 0 < search.new.budget.steps
        → IsVisited (others.nested task.now.depth a) a (visit_of turn.now) (text_of buffer.old last.old search.old.budget.nested)
        (outcome (text_of buffer.new last.new search.new.budget.nested) result) }
{
    if turn.subtable.kind.as_context().is_some() {
        place_by_context(buffer, task, turn, search, last)
    } else {
        place_by_simple(buffer, turn, last, task.setting.points)
    }
}

/// Positions the glyph by a subtable that is no context.
fn place_by_simple<P: ContourPoints>(
    buffer: &mut hb_buffer_t,
    turn: &Turn,
    last: &mut LastBase,
    points: &P,
) -> Option<usize>
    requires placed { HasPositions buffer.old }
    ensures last { last.new ≡ bases_at turn.now.subtable.now.kind (visit_of turn.now) buffer.old.input last.old }
    ensures next { HasNoPixels turn.now.instance.now → result
        ≡ simple_next turn.now.subtable.now.kind (visit_of turn.now) last.old buffer.old }
    ensures is { HasNoPixels turn.now.instance.now → buffer.new
        ≡ simple_at turn.now.subtable.now.kind (visit_of turn.now) last.old buffer.old }
    ensures kept { KeepsText buffer.old buffer.new }
{
    match turn.subtable.kind {
        SubtableKind::SingleAdjustment => place_single(buffer, turn),
        SubtableKind::PairAdjustment(_) => place_pair(buffer, turn),
        SubtableKind::CursiveAttachment => place_cursive(buffer, turn, points),
        _ => {
            let found = attachment_at(buffer.info(), turn, last, points);
            attach_mark(buffer, turn.place, &found)
        }
    }
}

/// Applies the lookups of the rule that fits at the glyph, and says where the iterator goes on.
#[cycle(nested)]
fn place_by_context<'a, 'l, P: ContourPoints>(
    buffer: &mut hb_buffer_t,
    task: &Task<'a, 'l, P>,
    context: &Turn<'a>,
    search: &mut Search,
    last: &mut LastBase,
) -> Option<usize>
    requires placed { HasPositions buffer.old }
    requires within { context.now.place < length buffer.old.input }
    requires place { context.now.place ≡ task.now.place }
    requires next { IsNextOf task.now.setting.now.list.now.coverages.items context.now.subtable.now }
    ensures kept { KeepsText buffer.old buffer.new }
    ensures spent { IsNotMore search.old.budget search.new.budget }
    ensures exact { let a = applied task.now.setting.now.list.now task.now.applied.now.lookup.now task.now.options.now task.now.setting.now.instance in
        HasNoPixels a.instance → 0 < search.new.budget.steps
        → IsContextDone (others.nested task.now.depth a) a (visit_of context.now) (text_of buffer.old last.old search.old.budget.nested)
        (outcome (text_of buffer.new last.new search.new.budget.nested) result) }
{
    let around = &task.applied.context;
    let fit = fit_at(buffer.info(), task.setting.list, context, around, search);
    let reached = context.place.saturating_add(search.reach.to);
    mark_concat(buffer, search.reach.from, reached);
    let fit = fit?;
    mark_break(buffer, fit.from, context.place.saturating_add(fit.to));
    let places = mem::replace(&mut search.places, MatchPositions::new());
    apply_records(buffer, task, &fit, &places, search, last);
    let end = context.place.saturating_add(fit.end);
    mark_concat(buffer, end, context.place.saturating_add(fit.beyond));
    Some(end)
}

/// Applies the lookups of a rule at the glyphs that it names, whose places are counted from the rule's first glyph.
#[cycle(nested)]
fn apply_records<'a, 'l, P: ContourPoints>(
    buffer: &mut hb_buffer_t,
    task: &Task<'a, 'l, P>,
    fit: &Fit<'a>,
    places: &MatchPositions,
    search: &mut Search,
    last: &mut LastBase,
)
    requires placed { HasPositions buffer.old }
    ensures kept { KeepsText buffer.old buffer.new }
    ensures spent { IsNotMore search.old.budget search.new.budget }
    ensures exact { let a = applied task.now.setting.now.list.now task.now.applied.now.lookup.now task.now.options.now task.now.setting.now.instance in
        HasNoPixels a.instance → 0 < search.new.budget.steps
        → AreDone (record_done (others.nested task.now.depth a) a.list.lookups.items fit.now.records.now task.now.place places.now.items)
        fit.now.record_count (text_of buffer.old last.old search.old.budget.nested)
        (text_of buffer.new last.new search.new.budget.nested) }
{
    for index in 0..usize::from(fit.record_count) {
        if let Some((lookup, place)) = nested_lookup(task, fit, places, index) {
            if task.depth == 0 || !search.budget.nest() {
                fail(buffer);
                return;
            }
            let applied = LookupContext::new(lookup, task.options, true);
            let nested = Task {
                setting: task.setting,
                applied: &applied,
                options: task.options,
                place,
                depth: task.depth - 1,
            };
            let _next = place_by_lookup(buffer, &nested, search, last);
        }
    }
}

/// The lookup of a record, and the place of the glyph that the record names; `None` where there is no such lookup or glyph.
fn nested_lookup<'a, 'l, P>(
    task: &Task<'a, 'l, P>,
    fit: &Fit,
    places: &MatchPositions,
    index: usize,
) -> Option<(&'a Lookup<'a>, usize)>
    requires { index < 65536 }
    ensures some { IfSome result (λ found.
        named task.now.setting.now.list.now.lookups.items fit.now.records.now task.now.place places.now.items index
        ≡ Some (target found.0.now found.1)) }
    ensures none { IfNone result
        (named task.now.setting.now.list.now.lookups.items fit.now.records.now task.now.place places.now.items index ≡ None) }
{
    let record = fit.record(index)?;
    let at = *places.as_slice().get(record.sequence_index)?;
    let lookup = task.setting.list.lookup(record.lookup)?;
    Some((lookup, task.place.saturating_add(at)))
}

/// Says that shaping was given up where the budget is spent.
fn fail_if_spent(buffer: &mut hb_buffer_t, search: &Search)
    requires placed { HasPositions buffer.old }
    ensures kept { KeepsText buffer.old buffer.new }
    ensures says { search.now.budget.steps ≡ 0 → buffer.new.shaping_failed ≡ true }
    ensures same { 0 < search.now.budget.steps → buffer.new ≡ buffer.old }
{
    if search.budget.is_spent() {
        fail(buffer);
    }
}

/// Says that the text could not be shaped as the font asks.
#[tactic(auto, unfolding(ot_attachments::specs::Flags::untouched))]
fn fail(buffer: &mut hb_buffer_t)
    requires placed { HasPositions buffer.old }
    ensures kept { KeepsText buffer.old buffer.new }
    ensures is { buffer.new ≡ record buffer.old { shaping_failed = true } }
    ensures says { buffer.new.shaping_failed ≡ true }
{
    buffer.shaping_failed = true;
}
