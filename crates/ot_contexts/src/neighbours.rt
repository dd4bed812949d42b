//! The glyphs after the cursor, looked at once for many rules (HarfBuzz, `RuleSet`, `ChainRuleSet`, `LigatureSet`).

ghost use Rattle.std.specs.Prelude.{◌≡◌, ◌<◌, ◌||◌, Some, not, length, IfSome};
ghost use Rattle.ot_contexts.specs.Neighbours.{may_fit, IsNext};
ghost use Rattle.ot_contexts.specs.Pattern.{Pattern, pattern_of};
ghost use Rattle.ot_contexts.specs.Rule.{sequence_matcher};
ghost use Rattle.ot_contexts.specs.RuleSet.{fits_at, fits_next, is_asked, looks_first, next_counted};

use crate::rule::{Rule, Sequence};
use ot_layout::matcher::Matcher;
use ot_layout::search::ApplyContext;
use ot_layout::skipping_iterator::{Found, Skip, SkippingIterator};
use rb_glyph::hb_glyph_info_t;

/// A glyph after the cursor.
#[derive(Clone, Copy)]
pub struct Next {
    /// The glyph.
    pub glyph: u32,
    /// The place after it.
    pub end: usize,
}

impl Next {
    /// Whether a glyph stands there.
    pub fn is_there(&self) -> bool {
        self.glyph != NO_GLYPH
    }
}

/// The glyphs after the cursor, looked at once for many rules.
#[derive(Clone, Copy)]
pub enum Neighbours {
    /// They were not looked at.
    Unseen,
    /// There is none.
    Absent,
    /// The next glyph, and the one after it, if it counts.
    Seen(Next, Option<Next>),
}

/// How far the glyphs were looked at for rules that were not tried.
#[derive(Clone, Copy)]
pub struct Beyond {
    /// Where they end; 0 where none was looked at.
    pub to: usize,
}

impl Beyond {
    /// Before the first rule. HarfBuzz has seen the next glyph by then, where the rules have no context.
    pub fn new(neighbours: &Neighbours, is_chained: bool) -> Self {
        match *neighbours {
            Neighbours::Seen(next, _) if !is_chained => Beyond { to: next.end },
            _ => Beyond { to: 0 },
        }
    }
}

/// Whether HarfBuzz looks at the next two glyphs before it tries the rules of a set of so many: of more than four, and of chained rules
/// where joiners are passed over both in the input and around it.
pub fn looks_first(count: usize, is_chained: bool, ctx: &ApplyContext) -> bool
    ensures { result ≡ looks_first ctx.now is_chained count }
{
    count > 4 && (!is_chained || ctx.context.ignores_zwnj && ctx.iterator.ignores_zwj)
}

/// The glyphs after the cursor, looked at for a set of so many rules.
#[tactic(auto, using(crate::proofs::NeighbourLemmas::seen_first))]
pub fn seen_ahead(count: usize, is_chained: bool, ctx: &ApplyContext) -> Neighbours
    requires { 0 < length ctx.now.input.now }
    ensures { (p : Pattern) → may_fit result p ≡ (not (looks_first ctx.now is_chained count) || fits_next ctx.now p) }
{
    if !looks_first(count, is_chained, ctx) {
        return Neighbours::Unseen;
    }
    let iterator = ctx.input_iterator();
    let Found::At(first) = iterator.next(&Matcher::Any, ctx.input, 0) else {
        return Neighbours::Absent;
    };
    if iterator.skip(&ctx.input[first]) != Skip::No {
        return Neighbours::Unseen;
    }
    let next = Next {
        glyph: ctx.input[first].glyph_id,
        end: first + 1,
    };
    Neighbours::Seen(next, next_kept(&iterator, ctx.input, first))
}

/// The next glyph after a place, if it counts whatever is asked for.
#[tactic(auto, using(crate::proofs::NeighbourLemmas::kept))]
pub fn next_kept(
    iterator: &SkippingIterator,
    glyphs: &[hb_glyph_info_t],
    place: usize,
) -> Option<Next>
    requires { place < length glyphs.now }
    ensures next { IfSome result (IsNext iterator.now glyphs.now place) }
    ensures is { result ≡ next_counted iterator.now glyphs.now place }
{
    if let Some(next) = next_beside(iterator, glyphs, place) {
        return Some(next);
    }
    let Found::At(next) = iterator.next(&Matcher::Any, glyphs, place) else {
        return None;
    };
    if iterator.skip(&glyphs[next]) != Skip::No {
        return None;
    }
    Some(Next {
        glyph: glyphs[next].glyph_id,
        end: next + 1,
    })
}

/// The glyph right after a place, if it counts whatever is asked for.
#[tactic(auto, using(crate::proofs::NeighbourLemmas::beside))]
fn next_beside(
    iterator: &SkippingIterator,
    glyphs: &[hb_glyph_info_t],
    place: usize,
) -> Option<Next>
    requires { place < length glyphs.now }
    ensures next { IfSome result (IsNext iterator.now glyphs.now place) }
    ensures is { IfSome result (λ next. next_counted iterator.now glyphs.now place ≡ Some next) }
{
    if place + 1 >= glyphs.len() {
        return None;
    }
    let beside = &glyphs[place + 1];
    if iterator.skip(beside) != Skip::No || !iterator.is_within(beside) {
        return None;
    }
    Some(Next {
        glyph: beside.glyph_id,
        end: place + 2,
    })
}

/// No glyph of a font has this number.
pub const NO_GLYPH: u32 = u32::MAX;

/// The next glyph after a place, if it counts whatever is asked for; after the last place a glyph that nobody asks for.
pub fn next_seen(
    iterator: &SkippingIterator,
    glyphs: &[hb_glyph_info_t],
    place: usize,
) -> Option<Next>
    requires { place < length glyphs.now }
    ensures { IfSome result (IsNext iterator.now glyphs.now place) }
{
    if place + 1 == glyphs.len() {
        return Some(Next {
            glyph: NO_GLYPH,
            end: glyphs.len(),
        });
    }
    next_kept(iterator, glyphs, place)
}

/// Whether a rule may fit, by the next two glyphs.
pub fn may_fit(rule: &Rule, neighbours: &Neighbours, beyond: &mut Beyond) -> bool
    ensures { result ≡ may_fit neighbours.now (pattern_of rule.now) }
{
    match *neighbours {
        Neighbours::Unseen => true,
        Neighbours::Absent => rule.input.count == 0 && rule.lookahead.count == 0,
        Neighbours::Seen(first, second) => {
            if !fits_at(rule, 0, first.glyph) {
                if beyond.to == 0 {
                    beyond.to = first.end;
                }
                return false;
            }
            let Some(second) = second else {
                return true;
            };
            if fits_at(rule, 1, second.glyph) {
                return true;
            }
            beyond.to = second.end;
            false
        }
    }
}

/// Whether a glyph is what a rule asks for at this number after the cursor, if it asks for anything there.
fn fits_at(rule: &Rule, number: u16, glyph: u32) -> bool
    ensures { result ≡ fits_at (pattern_of rule.now) number glyph }
{
    if number < rule.input.count {
        return asks_for(&rule.input, number, glyph);
    }
    let number = number - rule.input.count;
    number >= rule.lookahead.count || asks_for(&rule.lookahead, number, glyph)
}

/// Whether a glyph is what a part asks for.
fn asks_for(part: &Sequence, number: u16, glyph: u32) -> bool
    ensures { result ≡ is_asked (sequence_matcher part.now number) glyph }
{
    match part.matcher(number) {
        Some(matcher) => matcher.fits(glyph),
        None => false,
    }
}
