//! The order of the glyphs of syllables, after the basic features.

ghost use Rattle.std.specs.Prelude.{◌≡◌, false};
ghost use Rattle.script_syllables.specs.Left.{NumbersStay};

use crate::universal::item::{is, is_behind_base, is_halant};
use crate::universal::plan::{BROKEN, UniversalPlan};
use script_syllables::clusters::merge;
use script_syllables::moves::{move_first, move_last};
use script_syllables::reordering::SyllableOrder;
use script_syllables::syllables::{kind_at, syllable};
use shaping_buffer::{hb_buffer_t, hb_glyph_info_t};
use std::ops::Range;
use universal_categories::UniversalCategory;

/// The last kind of syllables of letters, and the kind of symbols.
const STANDARD: u8 = 2;

const SYMBOL: u8 = 5;

impl SyllableOrder for UniversalPlan {
    #[tactic(auto, using(script_syllables::proofs::NumbersLemmas::numbered))]
    fn reorder_syllable(&self, buffer: &mut hb_buffer_t, range: &Range<usize>) {
        if is_reordered(kind_at(buffer.info(), range.start)) {
            move_repha(buffer, range);
            move_fronts(buffer, range);
        }
    }
}

/// Whether the glyphs of syllables of a kind are put in order.
fn is_reordered(kind: u8) -> bool {
    kind <= STANDARD || kind == SYMBOL || kind == BROKEN
}

/// Moves a reph at the start of a syllable before the first glyph that stands behind the base, or to the end.
#[tactic(auto, using(script_syllables::proofs::NumbersLemmas::numbered))]
fn move_repha(buffer: &mut hb_buffer_t, range: &Range<usize>)
    requires { buffer.old.have_output ≡ false }
    ensures { NumbersStay buffer.old buffer.new }
{
    if let Some(place) = repha_place(syllable(buffer.info(), range)) {
        let end = range.start.saturating_add(place).saturating_add(1);
        merge(buffer, range.start, end);
        move_first(buffer, range.start, end);
    }
}

/// The place of a reph, if a syllable begins with one.
fn repha_place(syllable: &[hb_glyph_info_t]) -> Option<usize> {
    if syllable.len() < 2 || !is(syllable.first()?, UniversalCategory::Repha) {
        return None;
    }
    for place in 1..syllable.len() {
        if is_behind_base(&syllable[place]) || is_halant(&syllable[place]) {
            return Some(place - 1);
        }
    }
    Some(syllable.len() - 1)
}

/// Moves vowel signs in front to the start of a syllable, or behind the last halant before them.
#[tactic(auto, using(script_syllables::proofs::NumbersLemmas::numbered))]
fn move_fronts(buffer: &mut hb_buffer_t, range: &Range<usize>)
    requires { buffer.old.have_output ≡ false }
    ensures { NumbersStay buffer.old buffer.new }
{
    let mut to = range.start;
    for place in range.start..range.end {
        match buffer.info().get(place) {
            Some(info) if is_halant(info) => to = place.saturating_add(1),
            Some(info) if stands_in_front(info) && to < place => {
                let end = place.saturating_add(1);
                merge(buffer, to, end);
                move_last(buffer, to, end, 1);
            }
            _ => {}
        }
    }
}

/// Whether an item is a vowel sign in front, or a modifier of one; of several that a lookup made of it, the first.
fn stands_in_front(info: &hb_glyph_info_t) -> bool {
    let is_first = info.lig_props() & 0x10 != 0 || info.lig_props() & 0xF == 0;
    is_first
        && (is(info, UniversalCategory::VowelPre) || is(info, UniversalCategory::VowelModifierPre))
}
