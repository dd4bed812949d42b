//! The base of a syllable after the basic features.

ghost use Rattle.std.specs.Prelude.{◌≡◌};
ghost use Rattle.glyph_lists.specs.Clusters.{clusters};
ghost use Rattle.script_indic.specs.FinalBase as bases;

use crate::initial_order::place_at;
use crate::item::is_consonant;
use crate::plan::IndicPlan;
use rb_common::script;
use script_syllables::item::{
    behind_joiners, is_halant, is_one, is_substituted, is_whole_ligature, position,
};
use script_syllables::{Category, Position};
use shaping_buffer::hb_glyph_info_t;

/// The base of a syllable after the basic features.
#[derive(Clone, Copy, PartialEq, Eq)]
pub(crate) struct FinalBase {
    /// Its place; the length of the syllable where there is none.
    pub place: usize,
    /// Whether a RA behind it may stand before it.
    pub has_pref: bool,
}

/// Finds the base of a syllable again.
pub(crate) fn find_final_base(syllable: &mut [hb_glyph_info_t], plan: &IndicPlan) -> FinalBase
    ensures { clusters syllable.new ≡ clusters syllable.old }
{
    let mut base = FinalBase {
        place: first_base(syllable),
        has_pref: plan.masks.pref != 0,
    };
    if base.place < syllable.len() {
        if base.has_pref {
            base = base_of_pref(syllable, base, plan.masks.pref);
        }
        if base.place < syllable.len() {
            base.place = settled(syllable, base.place, plan);
        }
    }
    base.place = before_signs(syllable, base.place);
    base
}

/// The first place of the position of a base or of one behind it; the length where there is none.
fn first_base(syllable: &[hb_glyph_info_t]) -> usize {
    match syllable
        .iter()
        .position(|info| position(info) >= Position::Base)
    {
        Some(place) => place,
        None => syllable.len(),
    }
}

/// The base where a RA behind it was to stand before it. If the font made no ligature of that, it is the base.
fn base_of_pref(syllable: &mut [hb_glyph_info_t], base: FinalBase, mask: u32) -> FinalBase
    ensures { clusters syllable.new ≡ clusters syllable.old }
{
    let Some(found) = masked_behind(syllable, base.place, mask) else {
        return base;
    };
    let behind = syllable.get(found..).unwrap_or(&[]);
    if behind
        .first()
        .is_some_and(|info| is_substituted(info) && is_whole_ligature(info))
    {
        return base;
    }
    let place = match behind.iter().position(|info| !is_halant(info)) {
        Some(halants) => found.saturating_add(halants),
        None => syllable.len(),
    };
    place_at(syllable, place, Position::Base);
    FinalBase {
        place,
        has_pref: false,
    }
}

/// The first item behind a place that has a mask.
pub(crate) fn masked_behind(syllable: &[hb_glyph_info_t], place: usize, mask: u32) -> Option<usize>
    ensures { result ≡ bases.masked_behind mask place syllable.now }
{
    for at in place.saturating_add(1)..syllable.len() {
        if syllable[at].mask & mask != 0 {
            return Some(at);
        }
    }
    None
}

/// The place of the base where one was found: in Malayalam that behind forms below it which the font did not make, and the item before
/// one that belongs behind the base.
fn settled(syllable: &mut [hb_glyph_info_t], place: usize, plan: &IndicPlan) -> usize
    ensures { clusters syllable.new ≡ clusters syllable.old }
{
    let base = if plan.is(script::MALAYALAM) {
        behind_unformed(syllable, place)
    } else {
        place
    };
    match syllable.get(base) {
        Some(info) if base > 0 && position(info) > Position::Base => base - 1,
        _ => base,
    }
}

/// The last consonant behind a base that should have had a form below it, each behind a halant.
fn behind_unformed(syllable: &mut [hb_glyph_info_t], place: usize) -> usize
    ensures { clusters syllable.new ≡ clusters syllable.old }
{
    let mut base = place;
    let mut at = place.saturating_add(1);
    for _turn in 0..syllable.len() {
        let halant = behind_joiners(syllable, at);
        if !syllable.get(halant).is_some_and(|info| is_halant(info)) {
            break;
        }
        let next = behind_joiners(syllable, halant.saturating_add(1));
        if syllable.get(next).is_some_and(|info| is_consonant(info)
            && position(info) == Position::Below)
        {
            base = next;
            place_at(syllable, next, Position::Base);
        }
        at = next.saturating_add(1);
    }
    base
}

/// The base before nuktas and halants, or before the joiner that ends a syllable without a base.
fn before_signs(syllable: &[hb_glyph_info_t], base: usize) -> usize {
    let Some(last) = syllable.last() else {
        return base;
    };
    let mut place = base;
    if place == syllable.len() && is_one(last, Category::Joiner) {
        place = syllable.len() - 1;
    }
    for _turn in 0..syllable.len() {
        match syllable.get(place) {
            Some(info) if place > 0 && is_nukta_or_halant(info) => place -= 1,
            _ => break,
        }
    }
    place
}

/// Whether an item is a nukta or a halant, and no ligature.
fn is_nukta_or_halant(info: &hb_glyph_info_t) -> bool {
    is_one(info, Category::Nukta) || is_one(info, Category::Halant)
}
