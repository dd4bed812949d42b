//! One lookup, applied to all glyphs of a buffer.

ghost use Rattle.std.specs.Prelude.{ℕ, ◌≡◌, ◌+◌, ◌<◌, ◌≤◌, true, false, length, slice_get, IfOk, IsErr, Ok, Some};
ghost use Rattle.ot_layout.specs.ApplyContext.{IsMadeFor};
ghost use Rattle.ot_layout.specs.Budget.{IsNotMore};
ghost use Rattle.ot_lookups.specs.Lookup.{is_for};
ghost use Rattle.ot_lookups.specs.Subtables.{subtables_of};
ghost use Rattle.ot_lookups.specs.LookupProps.{glyph_at};
ghost use Rattle.ot_gsub.specs.Changes.{TellsChanges, glyph_numbers};
ghost use Rattle.ot_gsub.specs.Nested.{now_of};
ghost use Rattle.ot_gsub.specs.Open.{IsLeftOpen, IsLeftClosed};
ghost use Rattle.ot_gsub.specs.Runs.{IsForward, IsRestDone, IsRun, IsWanting};
ghost use Rattle.ot_gsub.specs.Singles.{GoesOn, IsForNext, IsLevel, IsSingle, IsSingleIf, IsSubstituted, moved, opened_at, starts_reverse, substituted};
ghost use Rattle.shaping_buffer.specs.KeepsClusters.{KeepsClusters};
ghost use Rattle.shaping_passes.specs.Refusals.{IsRefusal};

use crate::nested::apply_at;
use crate::reverse::substitute_reverse;
use crate::writing::fail;
use font_tables::gdef::Gdef;
use ot_contexts::context::MAX_NESTING_LEVEL;
use ot_layout::budget::PASSED_A_STEP;
use ot_layout::{Budget, LookupContext, LookupOptions, Search};
use ot_lookups::{Lookup, LookupList, SubtableKind};
use shaping_buffer::hb_buffer_t;
use std::alloc::AllocError;

/// The lookups, and how one of them is applied.
#[derive(Clone, Copy)]
pub struct Substitutions<'a> {
    /// The lookups of `GSUB`.
    pub list: &'a LookupList<'a>,
    /// The classes of the font's glyphs.
    pub gdef: &'a Gdef<'a>,
    /// How the lookup is applied.
    pub options: LookupOptions,
}

/// What is carried from lookup to lookup while a text is shaped.
#[derive(Drop)]
pub struct Progress {
    /// What the lookups may still cost, and what the last search found.
    pub search: Search,
    /// The state of the random numbers, which choose alternates.
    pub random_state: u32,
    /// Whether a lookup changed the glyphs of the text. Whoever has seen it may take it back.
    pub has_changed: bool,
}

impl Progress {
    /// The progress of a text of which nothing is substituted yet.
    pub fn new(budget: Budget) -> Self
        ensures budget { result.search.budget ≡ budget }
        ensures random { result.random_state ≡ 1 }
    {
        Progress {
            search: Search::new(budget),
            random_state: 1,
            has_changed: false,
        }
    }
}

/// Applies the lookup of this index at each glyph, in one walk. `Ok(false)` where the buffer refused a call for length:
/// the output is then still open. Where the budget is spent, the rest of the text stays as it is, and
/// `buffer.shaping_failed` says so. `Err(AllocError)` where memory ran out.
///
/// A lookup that is for no glyph of the text costs a test of each, mostly by the digest.
pub fn substitute(
    buffer: &mut hb_buffer_t,
    substitutions: &Substitutions,
    index: u16,
    progress: &mut Progress,
) -> Result<bool, AllocError>
    requires { buffer.old.have_output ≡ false }
    ensures run { 0 < progress.new.search.budget.steps
        → IsRun substitutions.now (slice_get substitutions.now.list.now.lookups.items index) (now_of buffer.old progress.old) result
        (now_of buffer.new progress.new) }
    ensures singles { let lookup = slice_get substitutions.now.list.now.lookups.items index in
        0 < progress.new.search.budget.steps → buffer.old.successful ≡ true
        → IsSingleIf substitutions.now lookup buffer.old
        → IsSubstituted substitutions.now lookup buffer.old result buffer.new }
    ensures tells { result ≡ Ok true → TellsChanges buffer.old progress.old.has_changed buffer.new progress.new.has_changed }
    ensures left { IsLeftClosed result buffer.new }
    ensures spent { IsNotMore progress.old.search.budget progress.new.search.budget }
    ensures refusal { IsRefusal false result buffer.new }
    ensures keeps { KeepsClusters buffer.old buffer.new }
{
    let mask = substitutions.options.mask;
    let Some(lookup) = substitutions.list.lookup(index) else {
        return Ok(true);
    };
    progress
        .search
        .budget
        .pay_for(1 + buffer.len() / PASSED_A_STEP);
    if mask == 0 {
        return Ok(true);
    }
    let first = lookup.first_place(mask, buffer.info(), 0);
    if first == buffer.len() {
        return Ok(true);
    }
    if progress.search.budget.is_spent() {
        fail(buffer);
        return Ok(true);
    }
    if is_reverse(substitutions.list, lookup) {
        substitute_reverse(buffer, substitutions, lookup, progress);
        fail_if_spent(buffer, progress);
        return Ok(true);
    }
    substitute_forward(buffer, substitutions, lookup, first, progress)
}

/// Says that shaping was given up where the budget is spent.
fn fail_if_spent(buffer: &mut hb_buffer_t, progress: &Progress)
    ensures same_output { buffer.new.have_output ≡ buffer.old.have_output }
    ensures same_length { length buffer.new.input ≡ length buffer.old.input }
    ensures numbers { glyph_numbers buffer.new ≡ glyph_numbers buffer.old }
    ensures keeps { KeepsClusters buffer.old buffer.new }
    ensures says { progress.now.search.budget.steps ≡ 0 → buffer.new.shaping_failed ≡ true }
    ensures same { 0 < progress.now.search.budget.steps → buffer.new ≡ buffer.old }
{
    if progress.search.budget.is_spent() {
        fail(buffer);
    }
}

/// Whether a lookup is applied from the end.
fn is_reverse(list: &LookupList, lookup: &Lookup) -> bool
    ensures { result ≡ starts_reverse (subtables_of list.now.subtables.items lookup.now) }
{
    match list.subtables_of(lookup).first() {
        Some(subtable) => subtable.kind == SubtableKind::ReverseSubstitution,
        None => false,
    }
}

/// Applies a lookup from the glyph at a place on: it is for none of those before.
fn substitute_forward(
    buffer: &mut hb_buffer_t,
    substitutions: &Substitutions,
    lookup: &Lookup,
    first: usize,
    progress: &mut Progress,
) -> Result<bool, AllocError>
    requires closed { buffer.old.have_output ≡ false }
    requires first { first ≤ length buffer.old.input }
    requires passed { (place : ℕ) → place < first
        → is_for lookup.now substitutions.now.options.mask (glyph_at buffer.old.input place) ≡ false }
    requires at { first < length buffer.old.input
        → is_for lookup.now substitutions.now.options.mask (glyph_at buffer.old.input first) ≡ true }
    ensures run { 0 < progress.new.search.budget.steps
        → IsForward substitutions.now lookup.now (now_of buffer.old progress.old) result (now_of buffer.new progress.new) }
    ensures singles { 0 < progress.new.search.budget.steps → buffer.old.successful ≡ true
        → IsSingle substitutions.now lookup.now buffer.old
        → IsSubstituted substitutions.now (Some lookup.now) buffer.old result buffer.new }
    ensures tells { result ≡ Ok true → TellsChanges buffer.old progress.old.has_changed buffer.new progress.new.has_changed }
    ensures left { IsLeftClosed result buffer.new }
    ensures spent { IsNotMore progress.old.search.budget progress.new.search.budget }
    ensures refusal { IsRefusal false result buffer.new }
    ensures keeps { KeepsClusters buffer.old buffer.new }
{
    prove!(!buffer.have_separate_output());
    prove!(buffer.out_len() == 0);
    prove!(first <= buffer.len());
    if !open_at(buffer, first)? {
        return Ok(false);
    }
    let applied = LookupContext::new(lookup, &substitutions.options, false);
    if !substitute_rest(buffer, substitutions, &applied, progress)? {
        return Ok(false);
    }
    fail_if_spent(buffer, progress);
    buffer.sync()
}

/// Opens an output, and puts the first glyphs out.
fn open_at(buffer: &mut hb_buffer_t, first: usize) -> Result<bool, AllocError>
    requires closed { buffer.old.have_output ≡ false }
    requires first { first ≤ length buffer.old.input }
    ensures opened { (result ≡ Ok true) × (buffer.new ≡ opened_at first buffer.old) }
    ensures left { IsLeftOpen result buffer.new }
    ensures refusal { IsRefusal false result buffer.new }
    ensures keeps { KeepsClusters buffer.old buffer.new }
{
    buffer.clear_output();
    buffer.next_glyphs(first)
}

/// Applies the lookup at each glyph from the cursor on, while steps are left.
fn substitute_rest(
    buffer: &mut hb_buffer_t,
    substitutions: &Substitutions,
    applied: &LookupContext,
    progress: &mut Progress,
) -> Result<bool, AllocError>
    requires opened { buffer.old.have_output ≡ true }
    requires made { IsMadeFor substitutions.now.options false applied.now }
    ensures rest { 0 < progress.new.search.budget.steps → IsForNext substitutions.now applied.now.lookup.now buffer.old
        → IsRestDone substitutions.now applied.now.lookup.now (now_of buffer.old progress.old) result
        (now_of buffer.new progress.new) }
    ensures singles { 0 < progress.new.search.budget.steps → IsSingle substitutions.now applied.now.lookup.now buffer.old
        → IsLevel buffer.old → IsForNext substitutions.now applied.now.lookup.now buffer.old
        → (result ≡ Ok true)
        × (buffer.new ≡ moved (substituted substitutions.now applied.now.lookup.now) (length buffer.old.input) buffer.old) }
    ensures tells { result ≡ Ok true → TellsChanges buffer.old progress.old.has_changed buffer.new progress.new.has_changed }
    ensures left { IsLeftOpen result buffer.new }
    ensures spent { IsNotMore progress.old.search.budget progress.new.search.budget }
    ensures refusal { IsRefusal false result buffer.new }
    ensures keeps { KeepsClusters buffer.old buffer.new }
{
    let count = buffer.len();
    for _turn in 0..count {
        if buffer.lookahead_len() == 0 {
            return Ok(true);
        }
        if progress.search.budget.is_spent() {
            return Ok(true);
        }
        let step = apply_at(buffer, substitutions, applied, progress, MAX_NESTING_LEVEL)?;
        let passed = match step.passed() {
            Some(passed) => passed,
            None => return Ok(false),
        };
        if !go_on(buffer, substitutions, applied.lookup, passed)? {
            return Ok(false);
        }
    }
    Ok(true)
}

/// Puts out so many glyphs, if there are as many, and those after them that the lookup is not for.
fn go_on(
    buffer: &mut hb_buffer_t,
    substitutions: &Substitutions,
    lookup: &Lookup,
    count: usize,
) -> Result<bool, AllocError>
    requires { buffer.old.have_output ≡ true }
    ensures on { IfOk result (λ done. GoesOn lookup.now substitutions.now.options.mask count buffer.old done buffer.new) }
    ensures wants { IsErr result → IsWanting lookup.now substitutions.now.options.mask count buffer.old }
    ensures in_place { buffer.old.have_separate_output ≡ false → result ≡ Ok true }
    ensures left { IsLeftOpen result buffer.new }
    ensures refusal { IsRefusal false result buffer.new }
    ensures keeps { KeepsClusters buffer.old buffer.new }
{
    let input = buffer.info();
    let mask = substitutions.options.mask;
    let start = count.min(input.len());
    let passed = lookup.first_place(mask, input, start);
    if passed == 0 {
        return Ok(true);
    }
    buffer.next_glyphs(passed)
}
