//! Vowel signs on the left, after the basic features: they move towards the base, behind the last halant that is seen.

ghost use Rattle.std.specs.Prelude.{◌≡◌, false};
ghost use Rattle.shaping_passes.specs.Left.{StaysClosed};
ghost use Rattle.script_syllables.specs.Left.{NumbersStay};

use crate::item::is_matra_or_halant;
use crate::plan::IndicPlan;
use rb_common::script;
use script_syllables::clusters::merge;
use script_syllables::item::{category, is_halant, position};
use script_syllables::moves::move_first;
use script_syllables::syllables::syllable;
use script_syllables::{Category, Position};
use shaping_buffer::{hb_buffer_t, hb_glyph_info_t};
use std::ops::Range;

/// Moves the vowel signs on the left of a syllable towards its base. Where the base is then.
#[tactic(auto, using(script_syllables::proofs::NumbersLemmas::numbered))]
pub(crate) fn move_matras(
    buffer: &mut hb_buffer_t,
    range: &Range<usize>,
    base: usize,
    plan: &IndicPlan,
) -> usize
    requires { buffer.old.have_output ≡ false }
    ensures { NumbersStay buffer.old buffer.new }
{
    let items = syllable(buffer.info(), range);
    if items.len() < 2 || base == 0 {
        return base;
    }
    let to = new_place(items, base, plan);
    if to > 0 && !is_left(items, to) {
        move_all(buffer, range, base, to)
    } else {
        merge_from_first(buffer, range, base);
        base
    }
}

/// Whether a vowel sign on the left stands at a place.
fn is_left(syllable: &[hb_glyph_info_t], place: usize) -> bool {
    syllable
        .get(place)
        .is_some_and(|info| position(info) == Position::PreMatra)
}

/// The place that vowel signs on the left move to; 0 where they stay. In Malayalam and Tamil, which have no half forms, it is that
/// before the base.
fn new_place(syllable: &[hb_glyph_info_t], base: usize, plan: &IndicPlan) -> usize {
    let place = if base == syllable.len() {
        base.saturating_sub(2)
    } else {
        base.saturating_sub(1)
    };
    if plan.is(script::MALAYALAM) || plan.is(script::TAMIL) {
        return place;
    }
    halant_place(syllable, place)
}

/// The place of the last halant up to a place, if no vowel sign stands behind it; 0 where there is none. One before a joiner, which makes
/// a half form, does not count.
fn halant_place(syllable: &[hb_glyph_info_t], last: usize) -> usize {
    for turn in 0..last {
        let place = last - turn;
        let Some(info) = syllable.get(place) else {
            return 0;
        };
        if is_matra_or_halant(info) {
            if !is_halant(info) || position(info) == Position::PreMatra {
                return 0;
            }
            let behind = syllable.get(place.saturating_add(1));
            if !behind.is_some_and(|info| category(info) == Category::Joiner) {
                return place;
            }
        }
    }
    0
}

/// Moves each vowel sign on the left to the place `to` or before it, and merges clusters from there up to the base. Where the base is
/// then.
#[tactic(auto, using(script_syllables::proofs::NumbersLemmas::numbered))]
fn move_all(buffer: &mut hb_buffer_t, range: &Range<usize>, base: usize, to: usize) -> usize
    requires { buffer.old.have_output ≡ false }
    ensures { NumbersStay buffer.old buffer.new }
{
    let mut base = base;
    let mut new = to;
    for turn in 0..to {
        let old = to - 1 - turn;
        if is_left(syllable(buffer.info(), range), old) {
            if old < base && base <= new {
                base -= 1;
            }
            move_one(buffer, range, &(old..new), base);
            new = new.saturating_sub(1);
        }
    }
    base
}

/// Moves the item at a place of a syllable to another behind it, and merges clusters from there up to the base.
#[tactic(auto, using(script_syllables::proofs::NumbersLemmas::numbered))]
fn move_one(buffer: &mut hb_buffer_t, range: &Range<usize>, places: &Range<usize>, base: usize)
    requires { buffer.old.have_output ≡ false }
    ensures { NumbersStay buffer.old buffer.new }
{
    let start = range.start.saturating_add(places.start);
    let end = range.start.saturating_add(places.end).saturating_add(1);
    move_first(buffer, start, end);
    merge_to_base(buffer, range, places.end, base);
}

/// Merges clusters from the first vowel sign on the left up to the base.
#[tactic(auto, using(shaping_buffer::proofs::ClosedKeepsLemmas::kept))]
fn merge_from_first(buffer: &mut hb_buffer_t, range: &Range<usize>, base: usize)
    requires { buffer.old.have_output ≡ false }
    ensures { StaysClosed buffer.old buffer.new }
{
    let first = syllable(buffer.info(), range)
        .iter()
        .take(base)
        .position(|info| position(info) == Position::PreMatra);
    if let Some(first) = first {
        merge_to_base(buffer, range, first, base);
    }
}

/// Merges clusters from a place of a syllable up to its base.
fn merge_to_base(buffer: &mut hb_buffer_t, range: &Range<usize>, place: usize, base: usize)
    requires { buffer.old.have_output ≡ false }
    ensures { StaysClosed buffer.old buffer.new }
{
    let start = range.start.saturating_add(place);
    let behind_base = range.start.saturating_add(base).saturating_add(1);
    merge(buffer, start, range.end.min(behind_base));
}
