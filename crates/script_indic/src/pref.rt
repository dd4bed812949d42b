//! A RA that stands before its base, after the basic features.

ghost use Rattle.std.specs.Prelude.{◌≡◌, false};
ghost use Rattle.script_syllables.specs.Left.{NumbersStay};

use crate::final_base::{FinalBase, masked_behind};
use crate::item::is_matra_or_halant;
use crate::plan::IndicPlan;
use rb_common::script;
use script_syllables::clusters::merge;
use script_syllables::item::{is_halant, is_joiner, is_whole_ligature};
use script_syllables::moves::move_last;
use script_syllables::syllables::syllable;
use shaping_buffer::{hb_buffer_t, hb_glyph_info_t};
use std::ops::Range;

/// Moves a RA behind the base that the font made a ligature of before the base, if one may stand there.
#[tactic(auto, using(script_syllables::proofs::NumbersLemmas::numbered))]
pub(crate) fn move_pref(
    buffer: &mut hb_buffer_t,
    range: &Range<usize>,
    base: &FinalBase,
    plan: &IndicPlan,
)
    requires { buffer.old.have_output ≡ false }
    ensures { NumbersStay buffer.old buffer.new }
{
    let items = syllable(buffer.info(), range);
    let Some(old) = masked_behind(items, base.place, plan.masks.pref) else {
        return;
    };
    if !base.has_pref || !items.get(old).is_some_and(|info| is_whole_ligature(info)) {
        return;
    }
    let new = new_place(items, base.place, plan);
    let start = range.start.saturating_add(new);
    let end = range.start.saturating_add(old).saturating_add(1);
    merge(buffer, start, end);
    move_last(buffer, start, end, 1);
}

/// The place that it moves to: behind the last vowel sign or halant before the base, but in Malayalam and Tamil at the base.
fn new_place(syllable: &[hb_glyph_info_t], base: usize, plan: &IndicPlan) -> usize {
    let place = if plan.is(script::MALAYALAM) || plan.is(script::TAMIL) {
        base
    } else {
        behind_last_sign(syllable, base)
    };
    let before = syllable.get(..place).unwrap_or(&[]);
    let is_behind_halant = before.last().is_some_and(|info| is_halant(info));
    if is_behind_halant && syllable.get(place).is_some_and(|info| is_joiner(info)) {
        place.saturating_add(1)
    } else {
        place
    }
}

/// The place behind the last vowel sign or halant before the base; 0 where there is none.
fn behind_last_sign(syllable: &[hb_glyph_info_t], base: usize) -> usize {
    let before = syllable.get(..base).unwrap_or(&[]);
    for turn in 0..before.len() {
        let place = before.len() - turn;
        if is_matra_or_halant(&before[place - 1]) {
            return place;
        }
    }
    0
}
