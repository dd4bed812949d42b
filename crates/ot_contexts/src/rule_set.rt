//! The rules of a set, of which the first that fits is taken.

ghost use Rattle.std.specs.Prelude.{◌≡◌, ◌<◌, ◌≤◌, ◌||◌, not, Bool, true, false, length, IfSome, IsTrue, None, Some, is_some};
ghost use Rattle.font_tables.specs.Bytes.{table_at_16};
ghost use Rattle.ot_contexts.specs.Asked.{IsLookahead, IsInput, IsTold};
ghost use Rattle.ot_layout.specs.Budget.{IsNotMore};
ghost use Rattle.ot_contexts.specs.Context.{IsFitWithin};
ghost use Rattle.ot_contexts.specs.Neighbours.{may_fit};
ghost use Rattle.ot_contexts.specs.Pattern.{IsFitBy, IsFitOf, Pattern, pattern_fits, pattern_of, rule_fits, rule_pattern};
ghost use Rattle.ot_contexts.specs.Rule.{AreMatchPositions, sequence_matcher};
ghost use Rattle.ot_contexts.specs.RuleSet.{first_rule, fits_next, looks_first, rule_at, rule_count, rule_of_set};
ghost use Rattle.ot_contexts.specs.Reach.{extended, missed_range};
ghost use Rattle.ot_layout.specs.SkippingIterator.{skip_of};
ghost use Rattle.ot_contexts.specs.declared.rule.MatchFunctions.{MatchFunctions};
ghost use Rattle.ot_layout.specs.declared.search.ApplyContext.{ApplyContext};
ghost use Rattle.ot_layout.specs.declared.skipping_iterator.Skip.TheVariants.{No};
ghost use Rattle.ot_layout.specs.ApplyContext.{context_iterator, input_iterator};

use crate::asked::{Asked, asked_next};
use crate::context::Fit;
use crate::matching::{match_backtrack, match_input, match_lookahead};
use crate::neighbours::{Beyond, Neighbours, looks_first, may_fit, seen_ahead};
use crate::rule::{MatchFunctions, Rule, rule_in};
use crate::told::{Beside, Told};
use font_tables::bytes::{table_at_16, u16_at};
use ot_layout::search::{ApplyContext, Search};
use ot_layout::skipping_iterator::Skip;
use rb_glyph::hb_glyph_info_t;

/// The rule, if it fits at the cursor.
#[tactic(auto, using(crate::proofs::PatternLemmas::fitting))]
pub fn fit<'a>(rule: &Rule<'a>, ctx: &ApplyContext, search: &mut Search) -> Option<Fit<'a>>
    requires { 0 < length ctx.now.input.now }
    ensures spent { IsNotMore search.old.budget search.new.budget }
    ensures fits { IfSome result (IsFitWithin (length ctx.now.out.now) (length ctx.now.input.now)) }
    ensures places { IfSome result (λ found. AreMatchPositions (input_iterator ctx.now) (sequence_matcher rule.now.input)
        ctx.now.input.now rule.now.input.count search.new.places.items) }
    ensures records { IfSome result (λ found. found.records.now ≡ rule.now.records.now) }
    ensures is { IfSome result (IsFitOf ctx.now (pattern_of rule.now) search.new.places.items) }
    ensures exact { 0 < search.new.budget.steps → is_some result ≡ pattern_fits ctx.now (pattern_of rule.now) }
    ensures looked { 0 < search.new.budget.steps
        → search.new.reach ≡ extended search.old.reach (missed_range ctx.now (pattern_of rule.now)) }
{
    let end = match match_input(ctx, &rule.input, search) {
        Ok(end) => end,
        Err(to) => {
            search.reach.extend(ctx.out.len(), to);
            return None;
        }
    };
    let to = match match_lookahead(ctx, &rule.lookahead, end, search) {
        Ok(to) => to,
        Err(to) => {
            search.reach.extend(ctx.out.len(), to);
            return None;
        }
    };
    match match_backtrack(ctx, &rule.backtrack, search) {
        Ok(from) => {
            Some(Fit {
                end,
                from,
                to,
                beyond: 0,
                record_count: rule.record_count,
                records: rule.records,
            })
        }
        Err(from) => {
            search.reach.extend(from, to);
            None
        }
    }
}

/// A set of rules.
#[derive(Clone, Copy)]
pub struct RuleSet<'a> {
    /// Its table.
    pub table: &'a [u8],
    /// What the numbers of its rules mean.
    pub match_functions: MatchFunctions<'a>,
    /// Whether its rules have parts before and after the input.
    pub is_chained: bool,
}

/// What stands after the cursor, looked at once for all rules of a set.
#[derive(Clone, Copy)]
struct Seen {
    /// The next two glyphs of the input, where HarfBuzz looks at them first.
    neighbours: Neighbours,
    /// These in the numbers of the rules.
    told: Option<Told>,
    /// Where they were not looked at, the next glyph of the input.
    input: Option<Beside>,
    /// And the next glyph after an input of a single glyph, for chained rules.
    lookahead: Option<Beside>,
}

/// What stands after the cursor for the rules of a set, of which there are so many.
fn seen_by(rules: &RuleSet, count: usize, ctx: &ApplyContext) -> Seen
    requires { 0 < length ctx.now.input.now }
    ensures neighbours { (p : Pattern) → may_fit result.neighbours p
        ≡ (not (looks_first ctx.now rules.now.is_chained count) || fits_next ctx.now p) }
    ensures told { IfSome result.told (IsTold result.neighbours rules.now.match_functions) }
    ensures input { IfSome result.input (IsInput ctx.now rules.now.match_functions) }
    ensures lookahead { IfSome result.lookahead (IsLookahead ctx.now rules.now.match_functions) }
{
    let neighbours = seen_ahead(count, rules.is_chained, ctx);
    match Told::new(&neighbours, &rules.match_functions) {
        Some(told) => Seen {
            neighbours,
            told: Some(told),
            input: None,
            lookahead: None,
        },
        None => Seen {
            neighbours,
            told: None,
            input: input_beside(rules, ctx),
            lookahead: lookahead_beside(rules, count, ctx),
        },
    }
}

/// The next glyph of the input.
fn input_beside(rules: &RuleSet, ctx: &ApplyContext) -> Option<Beside>
    requires { 0 < length ctx.now.input.now }
    ensures { IfSome result (IsInput ctx.now rules.now.match_functions) }
{
    Beside::new(
        &ctx.input_iterator(),
        &rules.match_functions.input,
        ctx.input,
    )
}

/// The next glyph after an input of a single glyph, for chained rules that are all tried.
fn lookahead_beside(rules: &RuleSet, count: usize, ctx: &ApplyContext) -> Option<Beside>
    requires { 0 < length ctx.now.input.now }
    ensures { IfSome result (IsLookahead ctx.now rules.now.match_functions) }
{
    if !rules.is_chained || looks_first(count, true, ctx) {
        return None;
    }
    Beside::new(
        &ctx.context_iterator(true),
        &rules.match_functions.lookahead,
        ctx.input,
    )
}

/// The first rule of a set that fits.
#[tactic(auto, using(crate::proofs::RuleSetLemmas::first_steps))]
pub fn first_fit<'a>(
    rules: &RuleSet<'a>,
    ctx: &ApplyContext,
    search: &mut Search,
) -> Option<Fit<'a>>
    requires { 0 < length ctx.now.input.now }
    ensures spent { IsNotMore search.old.budget search.new.budget }
    ensures fits { IfSome result (IsFitWithin (length ctx.now.out.now) (length ctx.now.input.now)) }
    ensures rule { IfSome result
        (IsFitBy ctx.now (rule_of_set ctx.now rules.now.is_chained rules.now.match_functions (Some rules.now.table.now))
        search.new.places.items) }
    ensures exact { 0 < search.new.budget.steps → is_some result
        ≡ is_some (rule_of_set ctx.now rules.now.is_chained rules.now.match_functions (Some rules.now.table.now)) }
{
    let count = usize::from(u16_at(rules.table, 0)?);
    let seen = seen_by(rules, count, ctx);
    let mut beyond = Beyond::new(&seen.neighbours, rules.is_chained);
    let mut index = first_unpassed(rules, 0, count, &seen, known(&seen, &beyond, search), ctx);
    if !search.budget.pay_for(index) {
        return None;
    }
    while index < count {
        if !search.budget.pay(1) {
            return None;
        }
        if let Some(found) = fit_at(rules, index, &seen, &mut beyond, ctx, search) {
            return Some(Fit {
                beyond: beyond.to,
                ..found
            });
        }
        let known = known(&seen, &beyond, search);
        let next = first_unpassed(rules, index + 1, count, &seen, known, ctx);
        if !search.budget.pay_for(next - (index + 1)) {
            return None;
        }
        index = next;
    }
    search.reach.extend(ctx.out.len(), beyond.to);
    None
}

/// How far glyphs are known to be looked at.
fn known(seen: &Seen, beyond: &Beyond, search: &Search) -> usize {
    if seen.told.is_some() {
        beyond.to
    } else {
        search.reach.to
    }
}

/// The first rule from this number on that is not passed over by its bytes alone, or how many rules there are.
fn first_unpassed(
    rules: &RuleSet,
    index: usize,
    count: usize,
    seen: &Seen,
    known: usize,
    _ctx: &ApplyContext,
) -> usize
    requires within { index ≤ count }
    requires few { count < 65536 }
    requires neighbours { (p : Pattern) → may_fit seen.now.neighbours p
        ≡ (not (looks_first _ctx.now rules.now.is_chained (rule_count rules.now.table.now)) || fits_next _ctx.now p) }
    requires told { IfSome seen.now.told (IsTold seen.now.neighbours rules.now.match_functions) }
    requires input { IfSome seen.now.input (IsInput _ctx.now rules.now.match_functions) }
    requires lookahead { IfSome seen.now.lookahead (IsLookahead _ctx.now rules.now.match_functions) }
    ensures from { index ≤ result }
    ensures within { result ≤ count }
    ensures passed { first_rule _ctx.now rules.now.is_chained rules.now.match_functions rules.now.table.now index ≡ None
        → first_rule _ctx.now rules.now.is_chained rules.now.match_functions rules.now.table.now result ≡ None }
{
    match &seen.told {
        Some(told) => {
            match told.within(known) {
                Some(told) => first_unparted(rules, index, count, &told, seen, _ctx),
                None => index,
            }
        }
        None => first_unmissed(rules, index, count, seen, known, _ctx),
    }
}

/// The same where the next glyphs were looked at before the rules: these are they in the numbers of rules.
#[tactic(auto, using(crate::proofs::RuleSetLemmas::first_steps))]
fn first_unparted(
    rules: &RuleSet,
    index: usize,
    count: usize,
    told: &Told,
    _seen: &Seen,
    _ctx: &ApplyContext,
) -> usize
    requires within { index ≤ count }
    requires few { count < 65536 }
    requires neighbours { (p : Pattern) → may_fit _seen.now.neighbours p
        ≡ (not (looks_first _ctx.now rules.now.is_chained (rule_count rules.now.table.now)) || fits_next _ctx.now p) }
    requires told { IsTold _seen.now.neighbours rules.now.match_functions told.now }
    ensures from { index ≤ result }
    ensures within { result ≤ count }
    ensures passed { first_rule _ctx.now rules.now.is_chained rules.now.match_functions rules.now.table.now index ≡ None
        → first_rule _ctx.now rules.now.is_chained rules.now.match_functions rules.now.table.now result ≡ None }
{
    for at in index..count {
        if !is_parted(rules, at, told, _seen, _ctx) {
            return at;
        }
    }
    count
}

/// Whether the rule of this number asks for other next glyphs than these.
#[inline(always)]
fn is_parted(rules: &RuleSet, index: usize, told: &Told, _seen: &Seen, _ctx: &ApplyContext) -> bool
    requires few { index < 65536 }
    requires neighbours { (p : Pattern) → may_fit _seen.now.neighbours p
        ≡ (not (looks_first _ctx.now rules.now.is_chained (rule_count rules.now.table.now)) || fits_next _ctx.now p) }
    requires told { IsTold _seen.now.neighbours rules.now.match_functions told.now }
    ensures { IsTrue result
        → rule_at _ctx.now rules.now.is_chained rules.now.match_functions rules.now.table.now index ≡ None }
{
    match table_within(rules.table, 2 + 2 * index) {
        Some(table) => told.is_apart(table, rules.is_chained),
        None => false,
    }
}

/// The same where it was not.
#[tactic(auto, using(crate::proofs::RuleSetLemmas::first_steps))]
fn first_unmissed(
    rules: &RuleSet,
    index: usize,
    count: usize,
    seen: &Seen,
    known: usize,
    _ctx: &ApplyContext,
) -> usize
    requires within { index ≤ count }
    requires few { count < 65536 }
    requires input { IfSome seen.now.input (IsInput _ctx.now rules.now.match_functions) }
    requires lookahead { IfSome seen.now.lookahead (IsLookahead _ctx.now rules.now.match_functions) }
    ensures from { index ≤ result }
    ensures within { result ≤ count }
    ensures passed { first_rule _ctx.now rules.now.is_chained rules.now.match_functions rules.now.table.now index ≡ None
        → first_rule _ctx.now rules.now.is_chained rules.now.match_functions rules.now.table.now result ≡ None }
{
    for at in index..count {
        if !is_missed(rules, at, seen, known, _ctx) {
            return at;
        }
    }
    count
}

/// Whether the rule of this number asks for another glyph after the cursor, and glyphs are known to be looked at so far.
#[inline(always)]
fn is_missed(rules: &RuleSet, index: usize, seen: &Seen, known: usize, _ctx: &ApplyContext) -> bool
    requires few { index < 65536 }
    requires input { IfSome seen.now.input (IsInput _ctx.now rules.now.match_functions) }
    requires lookahead { IfSome seen.now.lookahead (IsLookahead _ctx.now rules.now.match_functions) }
    ensures { IsTrue result
        → rule_at _ctx.now rules.now.is_chained rules.now.match_functions rules.now.table.now index ≡ None }
{
    let Some(table) = table_within(rules.table, 2 + 2 * index) else {
        return false;
    };
    match missed_by(table, rules.is_chained, seen) {
        Some(missed) => missed.end <= known,
        None => false,
    }
}

/// The table that the offset at a place leads to, if it lies in this one.
#[inline(always)]
#[tactic(auto, unfolding(font_tables::specs::Bytes::table_at_16))]
fn table_within(set: &[u8], at: usize) -> Option<&[u8]>
    ensures { IfSome result (λ table. table_at_16 set.now at ≡ Some table.now) }
{
    let offset = u16_at(set, at)?;
    if offset == 0 {
        return None;
    }
    set.get(usize::from(offset)..)
}

/// The rule of this number in a set, if it fits. One that asks for other glyphs after the cursor is not made.
#[tactic(auto, using(crate::proofs::RuleSetLemmas::at_steps))]
fn fit_at<'a>(
    rules: &RuleSet<'a>,
    index: usize,
    seen: &Seen,
    beyond: &mut Beyond,
    ctx: &ApplyContext,
    search: &mut Search,
) -> Option<Fit<'a>>
    requires some { 0 < length ctx.now.input.now }
    requires few { index < 65536 }
    requires neighbours { (p : Pattern) → may_fit seen.now.neighbours p
        ≡ (not (looks_first ctx.now rules.now.is_chained (rule_count rules.now.table.now)) || fits_next ctx.now p) }
    requires told { IfSome seen.now.told (IsTold seen.now.neighbours rules.now.match_functions) }
    requires input { IfSome seen.now.input (IsInput ctx.now rules.now.match_functions) }
    requires lookahead { IfSome seen.now.lookahead (IsLookahead ctx.now rules.now.match_functions) }
    ensures spent { IsNotMore search.old.budget search.new.budget }
    ensures fits { IfSome result (IsFitWithin (length ctx.now.out.now) (length ctx.now.input.now)) }
    ensures rule { IfSome result
        (IsFitBy ctx.now (rule_at ctx.now rules.now.is_chained rules.now.match_functions rules.now.table.now index)
        search.new.places.items) }
    ensures exact { 0 < search.new.budget.steps → is_some result
        ≡ is_some (rule_at ctx.now rules.now.is_chained rules.now.match_functions rules.now.table.now index) }
{
    let table = table_at_16(rules.table, 2 + 2 * index)?;
    if let Some(end) = told_apart(table, rules.is_chained, seen) {
        if beyond.to < end {
            let _whole = rule_in(table, &rules.match_functions, rules.is_chained)?;
            beyond.to = end;
        }
        return None;
    }
    if let Some(missed) = missed_by(table, rules.is_chained, seen) {
        search.budget.pay_for(missed.steps);
        search.reach.extend(ctx.out.len(), missed.end);
        return None;
    }
    let rule = rule_in(table, &rules.match_functions, rules.is_chained)?;
    if !may_fit(&rule, &seen.neighbours, beyond) {
        return None;
    }
    fit(&rule, ctx, search)
}

/// Whether a glyph counts for the iterator over the glyphs around a match, whatever is asked for.
#[tactic(auto, using(crate::proofs::ContextLemmas::skip_of_around))]
pub fn counts_around(ctx: &ApplyContext, glyph: &hb_glyph_info_t) -> bool
    ensures { IsTrue result → skip_of (context_iterator ctx.now true) glyph.now ≡ No }
{
    ctx.context.skip(glyph) == Skip::No
}

/// How far glyphs were looked at, where the rule in these bytes asks for other glyphs than the next two.
#[inline(always)]
fn told_apart(table: &[u8], is_chained: bool, seen: &Seen) -> Option<usize>
    ensures { is_some result ≡ true → (m : MatchFunctions) → (p : Pattern) → IfSome seen.now.told (IsTold seen.now.neighbours m)
        → rule_pattern is_chained m table.now ≡ Some p → may_fit seen.now.neighbours p ≡ false }
{
    match &seen.told {
        Some(told) => told.apart(table, is_chained),
        None => None,
    }
}

/// What stands right after the cursor, where the rule in these bytes asks for something else there.
#[inline(always)]
fn missed_by(table: &[u8], is_chained: bool, seen: &Seen) -> Option<Beside>
    ensures { IfSome result (λ beside. (s : ApplyContext) → (m : MatchFunctions) → IfSome seen.now.input (IsInput s m)
        → IfSome seen.now.lookahead (IsLookahead s m) → rule_fits s (rule_pattern is_chained m table.now) ≡ false) }
{
    match asked_next(table, is_chained)? {
        Asked::Input(asked) => seen.input?.other_than(asked),
        Asked::Lookahead(asked) => seen.lookahead?.other_than(asked),
    }
}
