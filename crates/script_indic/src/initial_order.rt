//! Where each item of a syllable belongs, before the basic features.

ghost use Rattle.std.specs.Prelude.{◌≡◌, ◌<◌, length};
ghost use Rattle.std.specs.List.Sorted.{IsPermutation};
ghost use Rattle.glyph_lists.specs.Clusters.{clusters};
ghost use Rattle.script_syllables.specs.KeepsNumbers.{SameClusters};
ghost use Rattle.script_indic.specs.InitialOrder as initial;

use crate::base::Base;
use crate::item::{is_consonant, is_matra};
use crate::plan::IndicPlan;
use rb_common::script;
use script_syllables::item::{category, position, set_position};
use script_syllables::moves::first_to_end;
use script_syllables::{Category, Position};
use shaping_buffer::hb_glyph_info_t;

/// Gives each item of a syllable its position.
pub(crate) fn set_positions(syllable: &mut [hb_glyph_info_t], base: &Base, plan: &IndicPlan)
    ensures { SameClusters syllable.old syllable.new }
{
    place_base(syllable, base);
    move_halant(syllable, base.place, plan);
    attach_signs(syllable);
    attach_before_consonants(syllable, base.place);
}

/// Gives the base its position, and the items before it theirs.
fn place_base(syllable: &mut [hb_glyph_info_t], base: &Base)
    ensures is { syllable.new ≡ initial.with_base base.now syllable.old }
    ensures same { clusters syllable.new ≡ clusters syllable.old }
{
    place_before(syllable, base.place);
    place_at(syllable, base.place, Position::Base);
    if base.has_reph {
        place_at(syllable, 0, Position::Reph);
    }
}

/// Gives the items before the base their positions.
#[tactic(auto, using(glyph_lists::proofs::MapLemmas::walks, shaping_buffer::proofs::ClosedKeepsLemmas::clusters_written))]
fn place_before(syllable: &mut [hb_glyph_info_t], base: usize)
    ensures is { syllable.new ≡ initial.with_items_before base syllable.old }
    ensures same { clusters syllable.new ≡ clusters syllable.old }
{
    for place in 0..base.min(syllable.len()) {
        place_one_before(&mut syllable[place]);
    }
}

/// Gives an item before the base its position.
fn place_one_before(info: &mut hb_glyph_info_t)
    ensures is { info.new ≡ initial.before_base info.old }
    ensures cluster { info.new.cluster ≡ info.old.cluster }
{
    let own = position(info).min(Position::PreConsonant);
    set_position(info, own);
}

/// Gives the item at a place a position, where there is one.
#[tactic(auto, using(shaping_buffer::proofs::ClosedKeepsLemmas::clusters_written))]
pub(crate) fn place_at(syllable: &mut [hb_glyph_info_t], place: usize, own: Position)
    ensures is { syllable.new ≡ initial.placed_at own place syllable.old }
    ensures same { clusters syllable.new ≡ clusters syllable.old }
{
    if place < syllable.len() {
        set_position(&mut syllable[place], own);
    }
}

/// Moves the first halant behind the base behind the last consonant, as fonts of the old specification want it. In Kannada that is not
/// done where a halant stands there.
#[tactic(auto, using(script_syllables::proofs::MovedLemmas::moves))]
fn move_halant(syllable: &mut [hb_glyph_info_t], base: usize, plan: &IndicPlan)
    ensures { IsPermutation syllable.old syllable.new }
{
    if !plan.is_old_spec {
        return;
    }
    let Some(halant) = first_halant(syllable, base) else {
        return;
    };
    let Some(place) = last_consonant(syllable, halant, plan.is(script::KANNADA)) else {
        return;
    };
    if syllable
        .get(place)
        .is_some_and(|info| category(info) != Category::Halant)
    {
        first_to_end(syllable, halant, place.saturating_add(1));
    }
}

/// The first halant behind the base.
fn first_halant(syllable: &[hb_glyph_info_t], base: usize) -> Option<usize> {
    for place in base.saturating_add(1)..syllable.len() {
        if category(&syllable[place]) == Category::Halant {
            return Some(place);
        }
    }
    None
}

/// The last consonant behind a halant, or in Kannada the last halant, where it stands behind that.
fn last_consonant(syllable: &[hb_glyph_info_t], halant: usize, is_kannada: bool) -> Option<usize> {
    for turn in 0..syllable.len() {
        let place = syllable.len() - 1 - turn;
        if place <= halant {
            return None;
        }
        let info = &syllable[place];
        if is_consonant(info) || is_kannada && category(info) == Category::Halant {
            return Some(place);
        }
    }
    None
}

/// Lets joiners, nuktas, register shifters, medial consonants and halants move with what stands before them.
#[tactic(auto, using(shaping_buffer::proofs::ClosedKeepsLemmas::clusters_written))]
fn attach_signs(syllable: &mut [hb_glyph_info_t])
    ensures { clusters syllable.new ≡ clusters syllable.old }
{
    let mut last = Position::Start;
    for place in 0..syllable.len() {
        match category(&syllable[place]) {
            Category::Halant => {
                let position = halant_position(syllable, place, last);
                set_position(&mut syllable[place], position);
            }
            Category::Joiner
            | Category::NonJoiner
            | Category::Nukta
            | Category::RegisterShifter
            | Category::ConsonantMedial => set_position(&mut syllable[place], last),
            _ => last = attach_modifier(syllable, place, last),
        }
    }
}

/// The position of a halant behind an item of the position `last`. It does not move with a vowel sign on the left.
fn halant_position(syllable: &[hb_glyph_info_t], place: usize, last: Position) -> Position {
    if last != Position::PreMatra {
        return last;
    }
    for info in syllable.get(..place).unwrap_or(&[]).iter().rev() {
        if position(info) != Position::PreMatra {
            return position(info);
        }
    }
    last
}

/// Lets a modifier before a vowel sign that may stand behind it move with that. The position that signs behind the item move with.
#[tactic(auto, using(shaping_buffer::proofs::ClosedKeepsLemmas::clusters_written))]
fn attach_modifier(syllable: &mut [hb_glyph_info_t], place: usize, last: Position) -> Position
    requires { place < length syllable.old }
    ensures length { length syllable.new ≡ length syllable.old }
    ensures same { clusters syllable.new ≡ clusters syllable.old }
{
    let own = position(&syllable[place]);
    if own == Position::Sign {
        return last;
    }
    if category(&syllable[place]) == Category::MatraPost
        && place > 0
        && category(&syllable[place - 1]) == Category::Modifier
    {
        set_position(&mut syllable[place - 1], own);
    }
    own
}

/// Lets each consonant behind the base take along what stands between it and the consonant or vowel sign before it.
fn attach_before_consonants(syllable: &mut [hb_glyph_info_t], base: usize)
    ensures { clusters syllable.new ≡ clusters syllable.old }
{
    let mut last = base;
    for place in base.saturating_add(1)..syllable.len() {
        if is_consonant(&syllable[place]) {
            let own = position(&syllable[place]);
            take_along(syllable, last.saturating_add(1), place, own);
            last = place;
        } else if is_matra(&syllable[place]) {
            last = place;
        }
    }
}

/// Gives the items from `start` to `end` a position, but for modifiers.
#[tactic(auto, using(shaping_buffer::proofs::ClosedKeepsLemmas::clusters_written))]
fn take_along(syllable: &mut [hb_glyph_info_t], start: usize, end: usize, own: Position)
    ensures length { length syllable.new ≡ length syllable.old }
    ensures same { clusters syllable.new ≡ clusters syllable.old }
{
    for place in start..end.min(syllable.len()) {
        if position(&syllable[place]) < Position::Sign {
            set_position(&mut syllable[place], own);
        }
    }
}
