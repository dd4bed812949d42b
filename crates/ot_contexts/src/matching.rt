//! Where the parts of a rule stand among the glyphs around the cursor.

ghost use Rattle.std.specs.Prelude.{◌≡◌, ◌<◌, ◌≤◌, ◌+◌, length, IfOk, IfErr, All, Some, None, slice_index};
ghost use Rattle.std.specs.Prelude.{IsTrue, IsFalse, true, false};
ghost use Rattle.arrayvec.specs.ArrayVec.{array_vec_len};
ghost use Rattle.ot_contexts.specs.Rule.{sequence_matcher, AreMatchPositions};
ghost use Rattle.ot_lookups.specs.LookupProps.{glyph_at};
ghost use Rattle.ot_layout.specs.SkippingIterator.{next_found, previous_found};
ghost use Rattle.ot_layout.specs.declared.skipping_iterator.Found.TheVariants.{At};
ghost use Rattle.ot_layout.specs.declared.matcher.Matcher.{Matcher};
ghost use Rattle.ot_layout.specs.Budget.{IsNotMore};
ghost use Rattle.ot_layout.specs.LigatureParts.{may_join};
ghost use Rattle.ot_contexts.specs.Match.{lookahead_end, backtrack_start, joins, match_end, match_places, may_leave, next_place, previous_place};
ghost use Rattle.ot_contexts.specs.Reach.{end_index, end_position, match_start, next_end, previous_start};
ghost use Rattle.ot_layout.specs.ApplyContext.{input_iterator};

use crate::rule::Sequence;
use ot_layout::budget::Budget;
use ot_layout::ligature_parts::{ligature_component, ligature_id};
use ot_layout::search::{ApplyContext, Search};
use ot_layout::skipping_iterator::{Found, SkippingIterator};
use ot_lookups::subtable::MAX_CONTEXT_LENGTH;
use rb_glyph::hb_glyph_info_t;

/// The next glyph after a place, if it is what a part asks for at this number. `Err` says how far glyphs were looked at.
#[inline]
fn step_ahead(
    iterator: &SkippingIterator,
    part: &Sequence,
    index: u16,
    glyphs: &[hb_glyph_info_t],
    place: usize,
    budget: &mut Budget,
) -> Result<usize, usize>
    requires { place < length glyphs.now }
    ensures spent { IsNotMore budget.old budget.new }
    ensures next { IfOk result (λ next. (place < next) × (next < length glyphs.now)) }
    ensures is { IfOk result (λ next. (matcher : Matcher) → sequence_matcher part.now index ≡ Some matcher
        → next_found iterator.now matcher glyphs.now place ≡ At next) }
    ensures seen { IfErr result (λ to. to ≤ length glyphs.now) }
    ensures found { IfOk result (λ next.
        next_place iterator.now (sequence_matcher part.now index) glyphs.now place ≡ Some next) }
    ensures missed { 0 < budget.new.steps → IfErr result (λ to.
        next_place iterator.now (sequence_matcher part.now index) glyphs.now place ≡ None) }
    ensures looked { 0 < budget.new.steps → IfErr result (λ to.
        to ≡ next_end iterator.now (sequence_matcher part.now index) glyphs.now place) }
{
    let Some(matcher) = part.matcher(index) else {
        return Err(0);
    };
    match iterator.next(&matcher, glyphs, place) {
        Found::At(next) => {
            if budget.pay_for(next - place) {
                Ok(next)
            } else {
                Err(next + 1)
            }
        }
        Found::Other(next) => {
            budget.pay_for(next - place);
            Err(next + 1)
        }
        Found::End => {
            budget.pay_for(glyphs.len() - place);
            Err(glyphs.len())
        }
    }
}

/// The last glyph before a place, if it is what a part asks for at this number. `Err` says how far glyphs were looked at.
#[inline]
fn step_behind(
    iterator: &SkippingIterator,
    part: &Sequence,
    index: u16,
    glyphs: &[hb_glyph_info_t],
    place: usize,
    budget: &mut Budget,
) -> Result<usize, usize>
    requires { place ≤ length glyphs.now }
    ensures spent { IsNotMore budget.old budget.new }
    ensures before { IfOk result (λ before. before < place) }
    ensures is { IfOk result (λ before. (matcher : Matcher) → sequence_matcher part.now index ≡ Some matcher
        → previous_found iterator.now matcher glyphs.now place ≡ At before) }
    ensures seen { IfErr result (λ from. from ≤ place) }
    ensures found { IfOk result (λ before.
        previous_place iterator.now (sequence_matcher part.now index) glyphs.now place ≡ Some before) }
    ensures missed { 0 < budget.new.steps → IfErr result (λ from.
        previous_place iterator.now (sequence_matcher part.now index) glyphs.now place ≡ None) }
    ensures looked { 0 < budget.new.steps → IfErr result (λ from.
        from ≡ previous_start iterator.now (sequence_matcher part.now index) glyphs.now place) }
{
    let Some(matcher) = part.matcher(index) else {
        return Err(place);
    };
    match iterator.previous(&matcher, glyphs, place) {
        Found::At(before) => {
            if budget.pay_for(place - before) {
                Ok(before)
            } else {
                Err(before)
            }
        }
        Found::Other(before) => {
            budget.pay_for(place - before);
            Err(before.saturating_sub(1))
        }
        Found::End => {
            budget.pay_for(place);
            Err(0)
        }
    }
}

/// Looks for the glyphs of the input after the first, and leaves their places in `search`. `Ok` says where they end, and
/// `Err` how far glyphs were looked at: 0 where nothing was seen that could be told of.
#[tactic(auto, using(crate::proofs::MatchLemmas::first_places))]
pub fn match_input(ctx: &ApplyContext, part: &Sequence, search: &mut Search) -> Result<usize, usize>
    requires { 0 < length ctx.now.input.now }
    ensures spent { IsNotMore search.old.budget search.new.budget }
    ensures end { IfOk result (λ end. (0 < end) × (end ≤ length ctx.now.input.now)) }
    ensures seen { IfErr result (λ to. to ≤ length ctx.now.input.now) }
    ensures same_reach { search.new.reach ≡ search.old.reach }
    ensures inside { All (λ place. place < length ctx.now.input.now) search.new.places.items }
    ensures places { IfOk result (λ end. AreMatchPositions (input_iterator ctx.now) (sequence_matcher part.now) ctx.now.input.now part.now.count
        search.new.places.items) }
    ensures first { slice_index search.new.places.items 0 ≡ 0 }
    ensures last { IfOk result (λ end. end ≡ slice_index search.new.places.items part.now.count + 1) }
    ensures count { IfOk result (λ end. array_vec_len search.new.places ≡ part.now.count + 1) }
    ensures fits { IfOk result (λ end. match_end ctx.now (sequence_matcher part.now) part.now.count ≡ Some end) }
    ensures all { IfOk result (λ end. search.new.places.items
        ≡ match_places ctx.now (sequence_matcher part.now) part.now.count) }
    ensures misses { 0 < search.new.budget.steps → IfErr result (λ to.
        match_end ctx.now (sequence_matcher part.now) part.now.count ≡ None) }
    ensures looked { 0 < search.new.budget.steps → IfErr result (λ to.
        to ≡ end_position ctx.now (sequence_matcher part.now) part.now.count) }
{
    search.places.clear();
    search.places.push(0);
    if usize::from(part.count) >= MAX_CONTEXT_LENGTH {
        return Err(0);
    }
    let iterator = ctx.input_iterator();
    let mut place = 0;
    let mut may_leave = false;
    for index in 0..part.count {
        match step_ahead(&iterator, part, index, ctx.input, place, &mut search.budget) {
            Ok(next) => place = next,
            Err(to) => return Err(to),
        }
        if !may_stand(ctx, place, &mut may_leave, &mut search.budget) {
            return Err(0);
        }
        search.places.push(place);
    }
    Ok(place + 1)
}

/// Whether the glyph at a place may stand in one match with the first one. `is_free` says whether any glyph may, and is
/// found out once it matters.
fn may_stand(ctx: &ApplyContext, place: usize, is_free: &mut bool, budget: &mut Budget) -> bool
    requires inside { place < length ctx.now.input.now }
    requires leaves { is_free.old ≡ true → may_leave ctx.now (glyph_at ctx.now.input.now 0) ≡ true }
    ensures spent { IsNotMore budget.old budget.new }
    ensures leaves { is_free.new ≡ true → may_leave ctx.now (glyph_at ctx.now.input.now 0) ≡ true }
    ensures joins { IsTrue result → joins ctx.now place ≡ true }
    ensures apart { 0 < budget.new.steps → IsFalse result → joins ctx.now place ≡ false }
{
    if *is_free || may_join(&ctx.input[0], &ctx.input[place]) {
        return true;
    }
    *is_free = may_leave_ligature(ctx, &ctx.input[0], budget);
    *is_free
}

/// Whether a glyph may stand in one match with the first one, by the components of ligatures that both belong to: marks
/// of other components do not join.
#[inline]
#[tactic(auto, unfolding(ot_layout::specs::LigatureParts::may_join))]
fn may_join(first: &hb_glyph_info_t, glyph: &hb_glyph_info_t) -> bool
    ensures { result ≡ may_join first.now glyph.now }
{
    let (id, component) = (ligature_id(first), ligature_component(first));
    let (own_id, own_component) = (ligature_id(glyph), ligature_component(glyph));
    if id != 0 && component != 0 {
        return id == own_id && component == own_component;
    }
    own_id == 0 || own_component == 0 || own_id == id
}

/// Whether glyphs of other components than that of the first one may join it all the same: it belongs to a ligature
/// before it that the lookup passes over.
#[tactic(auto, unfolding(crate::specs::Match::may_leave), using(crate::proofs::MatchLemmas::leaving))]
fn may_leave_ligature(ctx: &ApplyContext, first: &hb_glyph_info_t, budget: &mut Budget) -> bool
    ensures spent { IsNotMore budget.old budget.new }
    ensures leaves { IsTrue result → may_leave ctx.now first.now ≡ true }
    ensures is { 0 < budget.new.steps → result ≡ may_leave ctx.now first.now }
{
    let id = ligature_id(first);
    if id == 0 || ligature_component(first) == 0 {
        return false;
    }
    for turn in 0..ctx.out.len() {
        let glyph = &ctx.out[ctx.out.len() - (turn + 1)];
        if !budget.pay(1) || ligature_id(glyph) != id {
            return false;
        }
        if ligature_component(glyph) == 0 {
            return ctx.iterator.lookup_props.passes_over(glyph);
        }
    }
    false
}

/// Looks for glyphs after the input, which ends at a place. The answer says how far glyphs were looked at.
pub fn match_lookahead(
    ctx: &ApplyContext,
    part: &Sequence,
    end: usize,
    search: &mut Search,
) -> Result<usize, usize>
    requires some { 0 < end }
    requires within { end ≤ length ctx.now.input.now }
    ensures spent { IsNotMore search.old.budget search.new.budget }
    ensures end { IfOk result (λ to. (end ≤ to) × (to ≤ length ctx.now.input.now)) }
    ensures seen { IfErr result (λ to. to ≤ length ctx.now.input.now) }
    ensures same_places { search.new.places ≡ search.old.places }
    ensures same_reach { search.new.reach ≡ search.old.reach }
    ensures fits { IfOk result (λ to. lookahead_end ctx.now (sequence_matcher part.now) end part.now.count ≡ Some to) }
    ensures misses { 0 < search.new.budget.steps → IfErr result (λ to.
        lookahead_end ctx.now (sequence_matcher part.now) end part.now.count ≡ None) }
    ensures looked { 0 < search.new.budget.steps → IfErr result (λ to.
        to ≡ end_index ctx.now (sequence_matcher part.now) end part.now.count) }
{
    let iterator = ctx.context_iterator(end == 1);
    let mut place = end - 1;
    for index in 0..part.count {
        match step_ahead(&iterator, part, index, ctx.input, place, &mut search.budget) {
            Ok(next) => place = next,
            Err(to) => return Err(to),
        }
    }
    Ok(place + 1)
}

/// Looks for glyphs before the cursor, the nearest first. The answer says how far glyphs were looked at.
pub fn match_backtrack(
    ctx: &ApplyContext,
    part: &Sequence,
    search: &mut Search,
) -> Result<usize, usize>
    ensures spent { IsNotMore search.old.budget search.new.budget }
    ensures end { IfOk result (λ from. from ≤ length ctx.now.out.now) }
    ensures seen { IfErr result (λ from. from ≤ length ctx.now.out.now) }
    ensures same_places { search.new.places ≡ search.old.places }
    ensures same_reach { search.new.reach ≡ search.old.reach }
    ensures fits { IfOk result (λ from. backtrack_start ctx.now (sequence_matcher part.now) part.now.count ≡ Some from) }
    ensures misses { 0 < search.new.budget.steps → IfErr result (λ from.
        backtrack_start ctx.now (sequence_matcher part.now) part.now.count ≡ None) }
    ensures looked { 0 < search.new.budget.steps → IfErr result (λ from.
        from ≡ match_start ctx.now (sequence_matcher part.now) part.now.count) }
{
    let iterator = ctx.context_iterator(ctx.is_level);
    let mut place = ctx.out.len();
    for index in 0..part.count {
        match step_behind(&iterator, part, index, ctx.out, place, &mut search.budget) {
            Ok(before) => place = before,
            Err(from) => return Err(from),
        }
    }
    Ok(place)
}
