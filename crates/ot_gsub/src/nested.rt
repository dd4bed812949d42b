//! A lookup at the cursor, and the lookups that it applies.

ghost use Rattle.std.specs.Prelude.{◌≡◌, ◌+◌, ◌<◌, ◌≤◌, true, false, length, min, IfOk, Ok, if◌then◌else◌};
ghost use Rattle.ot_layout.specs.ApplyContext.{IsMadeFor};
ghost use Rattle.ot_layout.specs.Budget.{IsNotMore};
ghost use Rattle.ot_gsub.specs.Changes.{glyph_numbers};
ghost use Rattle.ot_gsub.specs.Edits.{GivesOrWants};
ghost use Rattle.ot_contexts.specs.MatchPositions.{followed, is_full, match_of};
ghost use Rattle.ot_gsub.specs.Open.{IsLeftOpen};
ghost use Rattle.ot_gsub.specs.Nested as lookups;
ghost use Rattle.ot_gsub.specs.Nested.{IsFitDone, IsRecordDone, now_of};
ghost use Rattle.ot_gsub.specs.Turn as turn;
ghost use Rattle.ot_gsub.specs.Turn.{Ends, IsApplyContext, IsTurnAt, nested, passed_by};
ghost use Rattle.ot_gsub.specs.declared.nested.Turn.TheVariants.{On, Enough};
ghost use Rattle.shaping_buffer.specs.KeepsClusters.{KeepsClusters};
ghost use Rattle.shaping_buffer.specs.Step.{move_to};
ghost use Rattle.shaping_passes.specs.Refusals.{IsRefusal};

use crate::ligation::ligate;
use crate::multiplication::{choose, multiply, replace};
use crate::substitution::{Progress, Substitutions};
use crate::writing::{fail, glyph_ahead};
use ot_contexts::context::{Fit, MAX_NESTING_LEVEL, SequenceLookupRecord};
use ot_contexts::match_positions::Matched;
use ot_layout::{ApplyContext, LookupContext, LookupOptions, Reach};
use ot_substitution::substitution::{Edit, edit_at};
use shaping_buffer::hb_buffer_t;
use std::alloc::AllocError;

/// What became of a lookup at the cursor.
#[derive(Clone, Copy, PartialEq, Eq)]
pub(crate) enum Step {
    /// It was applied, and the cursor is after what it took.
    Applied,
    /// It does nothing there.
    Passed,
    /// The buffer refused a call for length.
    Refused,
}

impl Step {
    /// How many glyphs at the cursor the lookup is not tried at any more: the one at which it does nothing. `None` where it goes on nowhere.
    pub(crate) fn passed(self) -> Option<usize>
        ensures { result ≡ passed_by self }
    {
        match self {
            Step::Applied => Some(0),
            Step::Passed => Some(1),
            Step::Refused => None,
        }
    }
}

/// Applies a lookup to the glyph at the cursor. Lookups may apply others, so many levels deep.
#[cycle(nested)]
pub(crate) fn apply_at(
    buffer: &mut hb_buffer_t,
    substitutions: &Substitutions,
    applied: &LookupContext,
    progress: &mut Progress,
    depth: u32,
) -> Result<Step, AllocError>
    requires opened { buffer.old.have_output ≡ true }
    requires glyph { 0 < length buffer.old.input }
    requires made { IsMadeFor substitutions.now.options false applied.now }
    ensures turn { 0 < progress.new.search.budget.steps
        → IsTurnAt depth substitutions.now applied.now.lookup.now (now_of buffer.old progress.old) result (now_of buffer.new progress.new) }
    ensures changed { result ≡ Ok Step.Applied → progress.new.has_changed ≡ true }
    ensures passed { result ≡ Ok Step.Passed → progress.new.has_changed ≡ progress.old.has_changed }
    ensures numbers { result ≡ Ok Step.Passed → glyph_numbers buffer.new ≡ glyph_numbers buffer.old }
    ensures same_length { result ≡ Ok Step.Passed → length buffer.new.input ≡ length buffer.old.input }
    ensures left { IsLeftOpen result buffer.new }
    ensures spent { IsNotMore progress.old.search.budget progress.new.search.budget }
    ensures refusal { IsRefusal Step.Refused result buffer.new }
    ensures keeps { KeepsClusters buffer.old buffer.new }
{
    let is_nested = depth < MAX_NESTING_LEVEL;
    let ctx = apply_context(buffer, substitutions, applied);
    progress.search.reach = Reach::none(ctx.out.len());
    let edit = edit_at(
        substitutions.list,
        applied.lookup,
        &substitutions.options,
        is_nested,
        &ctx,
        &mut progress.search,
    );
    mark_reach(buffer, &progress.search.reach);
    let Some(edit) = edit else {
        return Ok(Step::Passed);
    };
    let rest = rest_beyond(buffer, &edit);
    if !make(buffer, substitutions, &edit, progress, depth)? {
        return Ok(Step::Refused);
    }
    progress.has_changed = true;
    mark_beyond(buffer, rest);
    Ok(Step::Applied)
}

/// The glyphs on both sides of the cursor, and the iterators of a lookup.
fn apply_context<'a>(
    buffer: &'a hb_buffer_t,
    substitutions: &Substitutions,
    applied: &LookupContext<'a>,
) -> ApplyContext<'a>
    requires opened { buffer.now.have_output ≡ true }
    requires glyph { 0 < length buffer.now.input }
    requires made { IsMadeFor substitutions.now.options false applied.now }
    ensures { IsApplyContext substitutions.now applied.now.lookup.now buffer.now result }
{
    ApplyContext {
        out: buffer.out_info(),
        input: buffer.info(),
        iterator: applied.iterator,
        context: applied.context,
        syllable: syllable_at(buffer, &substitutions.options),
        is_level: buffer.out_len() == buffer.idx(),
    }
}

/// The syllable of the current glyph where all glyphs of a match are of one syllable, or else 0.
fn syllable_at(buffer: &hb_buffer_t, options: &LookupOptions) -> u8
    requires opened { buffer.now.have_output ≡ true }
    requires glyph { 0 < length buffer.now.input }
    ensures { result ≡ turn.syllable_at options.now buffer.now }
{
    if options.per_syllable {
        glyph_ahead(buffer, 0).syllable()
    } else {
        0
    }
}

/// Marks the glyphs that rules looked at which did not fit.
fn mark_reach(buffer: &mut hb_buffer_t, reach: &Reach)
    requires { buffer.old.have_output ≡ true }
    ensures is { buffer.new ≡ turn.mark_reach reach.now buffer.old }
    ensures opened { buffer.new.have_output ≡ true }
    ensures same_length { length buffer.new.input ≡ length buffer.old.input }
    ensures keeps { KeepsClusters buffer.old buffer.new }
{
    if reach.to == 0 && reach.from >= buffer.out_len() {
        return;
    }
    let from = reach.from.min(buffer.out_len());
    let end = buffer.idx().saturating_add(reach.to);
    buffer.unsafe_to_concat_from_outbuffer(Some(from), Some(end));
}

/// How many glyphs are left beyond those that other rules would have looked at; none where all rules were tried.
fn rest_beyond(buffer: &hb_buffer_t, edit: &Edit) -> usize
    ensures { result ≡ turn.rest_beyond edit.now buffer.now }
{
    let beyond = match *edit {
        Edit::Ligate(ligation) => ligation.beyond,
        Edit::Apply(fit) => fit.beyond,
        _ => 0,
    };
    buffer.lookahead_len().saturating_sub(beyond)
}

/// Marks the glyphs from the cursor on that are not among so many at the end.
fn mark_beyond(buffer: &mut hb_buffer_t, rest: usize)
    requires { buffer.old.have_output ≡ true }
    ensures is { buffer.new ≡ turn.mark_beyond rest buffer.old }
    ensures opened { buffer.new.have_output ≡ true }
    ensures keeps { KeepsClusters buffer.old buffer.new }
{
    let left = buffer.lookahead_len();
    let len = buffer.len();
    if rest < left {
        let start = buffer.idx();
        buffer.unsafe_to_concat(Some(start), Some(len - rest));
    }
}

/// Makes an edit. `Ok(false)` where the buffer refused a call for length.
#[cycle(nested)]
fn make(
    buffer: &mut hb_buffer_t,
    substitutions: &Substitutions,
    edit: &Edit,
    progress: &mut Progress,
    depth: u32,
) -> Result<bool, AllocError>
    requires opened { buffer.old.have_output ≡ true }
    requires glyph { 0 < length buffer.old.input }
    ensures edited { 0 < progress.new.search.budget.steps
        → Ends (nested depth substitutions.now) substitutions.now.gdef.now.table.now progress.old.search.places.items edit.now
        (now_of buffer.old progress.old) result (now_of buffer.new progress.new) }
    ensures left { IsLeftOpen result buffer.new }
    ensures spent { IsNotMore progress.old.search.budget progress.new.search.budget }
    ensures refusal { IsRefusal false result buffer.new }
    ensures keeps { KeepsClusters buffer.old buffer.new }
{
    let gdef = substitutions.gdef;
    match *edit {
        Edit::Replace(glyph) => replace(buffer, gdef, glyph),
        Edit::Choose(set) => choose(buffer, gdef, &set, progress),
        Edit::Multiply(sequence) => multiply(buffer, gdef, &sequence),
        Edit::Ligate(ligation) => ligate(buffer, gdef, &ligation, &progress.search.places),
        Edit::Apply(fit) => apply_fit(buffer, substitutions, &fit, progress, depth),
        Edit::ReplaceInPlace(_) => Ok(true),
    }
}

/// Applies the lookups of a rule that fits at the cursor, and leaves the cursor after its input.
#[cycle(nested)]
fn apply_fit(
    buffer: &mut hb_buffer_t,
    substitutions: &Substitutions,
    fit: &Fit,
    progress: &mut Progress,
    depth: u32,
) -> Result<bool, AllocError>
    requires opened { buffer.old.have_output ≡ true }
    ensures done { 0 < progress.new.search.budget.steps → IfOk result (λ done.
        IsFitDone (nested depth substitutions.now) fit.now progress.old.search.places.items
        (now_of buffer.old progress.old) done (now_of buffer.new progress.new)) }
    ensures left { IsLeftOpen result buffer.new }
    ensures spent { IsNotMore progress.old.search.budget progress.new.search.budget }
    ensures refusal { IsRefusal false result buffer.new }
    ensures keeps { KeepsClusters buffer.old buffer.new }
{
    mark_fit(buffer, fit);
    let out_len = buffer.out_len();
    let mut matched = Matched::new(&progress.search.places, fit.end, out_len);
    for index in 0..usize::from(fit.record_count) {
        let found = fit.record(index);
        let Some(lookup_record) = found else {
            break;
        };
        match apply_record(
            buffer,
            substitutions,
            &lookup_record,
            &mut matched,
            progress,
            depth,
        )? {
            Turn::On => {}
            Turn::Enough => break,
            Turn::Refused => return Ok(false),
        }
    }
    go_to(buffer, matched.end)
}

/// Marks the glyphs of a rule that fits, and those around it.
fn mark_fit(buffer: &mut hb_buffer_t, fit: &Fit)
    requires { buffer.old.have_output ≡ true }
    ensures is { buffer.new ≡ lookups.mark_from fit.now.from fit.now.to buffer.old }
    ensures opened { buffer.new.have_output ≡ true }
    ensures keeps { KeepsClusters buffer.old buffer.new }
{
    mark_from(buffer, fit.from, fit.to);
}

/// Marks the glyphs from a place in what was put out up to so many from the cursor on as unsafe to break.
fn mark_from(buffer: &mut hb_buffer_t, from: usize, ahead: usize)
    requires { buffer.old.have_output ≡ true }
    ensures is { buffer.new ≡ lookups.mark_from from ahead buffer.old }
    ensures opened { buffer.new.have_output ≡ true }
    ensures keeps { KeepsClusters buffer.old buffer.new }
{
    let from = from.min(buffer.out_len());
    let end = buffer.idx().saturating_add(ahead);
    buffer.unsafe_to_break_from_outbuffer(Some(from), Some(end));
}

/// Moves the cursor to a place of both sides, or to their end.
fn go_to(buffer: &mut hb_buffer_t, place: usize) -> Result<bool, AllocError>
    requires { buffer.old.have_output ≡ true }
    ensures gives { GivesOrWants (move_to (min place (lookups.both_len buffer.old)) buffer.old) result buffer.new }
    ensures left { IsLeftOpen result buffer.new }
    ensures refusal { IsRefusal false result buffer.new }
    ensures keeps { KeepsClusters buffer.old buffer.new }
{
    let count = both_len(buffer);
    buffer.move_to(place.min(count))
}

/// How many glyphs both sides have together.
fn both_len(buffer: &hb_buffer_t) -> usize
    requires { buffer.now.have_output ≡ true }
    ensures is { result ≡ lookups.both_len buffer.now }
    ensures within { result ≤ length buffer.now.out + length buffer.now.input }
{
    buffer.out_len().saturating_add(buffer.info().len())
}

/// What became of one of the lookups of a rule.
#[derive(Clone, Copy, PartialEq, Eq)]
enum Turn {
    /// The next one follows.
    On,
    /// No other one is applied.
    Enough,
    /// The buffer refused a call for length.
    Refused,
}

/// Applies the lookup of a record at its place, and lets the places of the match follow.
#[cycle(nested)]
fn apply_record(
    buffer: &mut hb_buffer_t,
    substitutions: &Substitutions,
    lookup_record: &SequenceLookupRecord,
    matched: &mut Matched,
    progress: &mut Progress,
    depth: u32,
) -> Result<Turn, AllocError>
    requires { buffer.old.have_output ≡ true }
    ensures done { 0 < progress.new.search.budget.steps → IfOk result (λ turn.
        IsRecordDone (nested depth substitutions.now) lookup_record.now (match_of matched.old) (now_of buffer.old progress.old)
        turn (match_of matched.new) (now_of buffer.new progress.new)) }
    ensures left { IsLeftOpen result buffer.new }
    ensures spent { IsNotMore progress.old.search.budget progress.new.search.budget }
    ensures refusal { IsRefusal Turn.Refused result buffer.new }
    ensures keeps { KeepsClusters buffer.old buffer.new }
{
    let before = both_len(buffer);
    if !progress.search.budget.pay(1) {
        return Ok(Turn::Enough);
    }
    let Some(place) = matched.place(lookup_record.sequence_index) else {
        return Ok(Turn::On);
    };
    if place >= before {
        return Ok(Turn::On);
    }
    let distance = buffer.out_len().abs_diff(place);
    if !progress.search.budget.pay_for(distance) {
        return Ok(Turn::Enough);
    }
    if !buffer.move_to(place)? {
        return Ok(Turn::Refused);
    }
    match apply_other(buffer, substitutions, lookup_record.lookup, progress, depth)? {
        Step::Passed => Ok(Turn::On),
        Step::Refused => Ok(Turn::Refused),
        Step::Applied => Ok(follow(buffer, matched, lookup_record.sequence_index, before)),
    }
}

/// Lets a match follow a lookup that was applied to its glyph of this number, where both sides had so many glyphs before. Where
/// lookups took glyphs out of the match, that glyph may stand behind its end: then what became of it is not to be parted from it.
fn follow(buffer: &mut hb_buffer_t, matched: &mut Matched, number: usize, before: usize) -> Turn
    requires opened { buffer.old.have_output ≡ true }
    requires number { number < length matched.old.places.items }
    ensures follows { match_of matched.new ≡ followed (match_of matched.old) number before (lookups.both_len buffer.old) }
    ensures turn { result
        ≡ (if is_full (match_of matched.old) before (lookups.both_len buffer.old) then Enough else On) }
    ensures is { buffer.new
        ≡ lookups.mark_behind matched.old.places.items matched.old.end number before buffer.old }
    ensures opened { buffer.new.have_output ≡ true }
    ensures keeps { KeepsClusters buffer.old buffer.new }
{
    let after = both_len(buffer);
    if matched.is_behind(number) {
        mark_from(
            buffer,
            matched.end.saturating_sub(1),
            usize::from(after < before),
        );
    }
    if matched.follow(number, before, after) {
        Turn::On
    } else {
        Turn::Enough
    }
}

/// Applies another lookup at the cursor, if lookups may still apply others.
#[cycle(nested)]
fn apply_other(
    buffer: &mut hb_buffer_t,
    substitutions: &Substitutions,
    index: u16,
    progress: &mut Progress,
    depth: u32,
) -> Result<Step, AllocError>
    requires { buffer.old.have_output ≡ true }
    ensures applied { 0 < progress.new.search.budget.steps → IfOk result (λ step.
        nested depth substitutions.now index (now_of buffer.old progress.old) step (now_of buffer.new progress.new)) }
    ensures left { IsLeftOpen result buffer.new }
    ensures spent { IsNotMore progress.old.search.budget progress.new.search.budget }
    ensures refusal { IsRefusal Step.Refused result buffer.new }
    ensures keeps { KeepsClusters buffer.old buffer.new }
{
    if depth == 0 || !progress.search.budget.nest() {
        fail(buffer);
        return Ok(Step::Passed);
    }
    if buffer.lookahead_len() == 0 {
        return Ok(Step::Passed);
    }
    match substitutions.list.lookup(index) {
        Some(lookup) => {
            let applied = LookupContext::new(lookup, &substitutions.options, false);
            apply_at(buffer, substitutions, &applied, progress, depth - 1)
        }
        None => Ok(Step::Passed),
    }
}
