//! The order of the glyphs of Myanmar syllables, before the basic features.

ghost use Rattle.std.specs.Prelude.{◌≡◌, ◌<◌, ◌≤◌, false, length};
ghost use Rattle.std.specs.List.Sorted.{IsPermutation};
ghost use Rattle.glyph_lists.specs.Clusters.{clusters};
ghost use Rattle.glyph_laws.specs.Cores.{cores};
ghost use Rattle.shaping_passes.specs.Left.{StaysClosed};
ghost use Rattle.script_syllables.specs.Left.{NumbersStay};
ghost use Rattle.script_universal.specs.Order.{in_order, position_number};

use crate::myanmar::plan::MyanmarShaper;
use crate::myanmar::positions::set_positions;
use crate::pauses::BROKEN;
use script_syllables::item::position;
use script_syllables::left_matras::turn_left_matras;
use script_syllables::reordering::SyllableOrder;
use script_syllables::syllables::{kind_at, within};
use shaping_buffer::{hb_buffer_t, hb_glyph_info_t};
use shaping_passes::normalization::{MarkClasses, order_run};
use std::ops::Range;

impl SyllableOrder for MyanmarShaper {
    #[tactic(auto, using(script_syllables::proofs::NumbersLemmas::numbered))]
    fn reorder_syllable(&self, buffer: &mut hb_buffer_t, range: &Range<usize>) {
        if kind_at(buffer.info(), range.start) <= BROKEN {
            order_syllable(buffer, range);
        }
    }
}

/// Puts the glyphs of a syllable in the order of their positions, and vowel signs on the left into reverse order.
#[tactic(auto, using(script_syllables::proofs::NumbersLemmas::numbered))]
fn order_syllable(buffer: &mut hb_buffer_t, range: &Range<usize>)
    requires { buffer.old.have_output ≡ false }
    ensures { NumbersStay buffer.old buffer.new }
{
    place_items(buffer, range);
    move_items(buffer, range);
    turn_matras(buffer, range);
}

/// The positions of items, by which they are put in order as marks are by their classes.
struct Positions;

impl MarkClasses for Positions {
    ghost use Rattle.std.specs.Prelude.{refl};
    ghost use Rattle.script_universal.specs.Order.{position_number};

    ghost classes = { λ _. position_number };

    ghost alike = { λ _ g. refl };

    fn class_of(&self, info: &hb_glyph_info_t) -> u16 {
        position_number(info)
    }
}

/// The number of an item's position.
fn position_number(info: &hb_glyph_info_t) -> u16
    ensures { result ≡ position_number info.now }
{
    u16::from(position(info) as u8)
}

/// Moves the items of a syllable into the order of their positions. Before one moves back, its cluster is merged with those that it passes.
#[tactic(auto, using(crate::proofs::OrderLemmas::steps))]
fn move_items(buffer: &mut hb_buffer_t, range: &Range<usize>)
    requires { buffer.old.have_output ≡ false }
    ensures order { cores buffer.new.input ≡ in_order range.now.start range.now.end (cores buffer.old.input) }
    ensures stays { StaysClosed buffer.old buffer.new }
{
    if range.start >= range.end || range.end > buffer.len() {
        return;
    }
    order_run(buffer, &Positions, range.start, range.end);
}

/// Gives each item of a syllable its position.
fn place_items(buffer: &mut hb_buffer_t, range: &Range<usize>)
    requires { buffer.old.have_output ≡ false }
    ensures { StaysClosed buffer.old buffer.new }
{
    place_in(buffer.info_slice_mut(), range);
}

/// Does that in a list.
#[tactic(auto, using(script_syllables::proofs::MovedLemmas::same))]
fn place_in(infos: &mut [hb_glyph_info_t], range: &Range<usize>)
    ensures { clusters infos.new ≡ clusters infos.old }
{
    let range = within(range, infos.len());
    set_positions(&mut infos[range.start..range.end]);
}

/// Puts vowel signs on the left of a syllable into reverse order.
fn turn_matras(buffer: &mut hb_buffer_t, range: &Range<usize>)
    requires { buffer.old.have_output ≡ false }
    ensures { NumbersStay buffer.old buffer.new }
{
    turn_in(buffer.info_slice_mut(), range);
}

/// Does that in a list.
#[tactic(auto, using(script_syllables::proofs::MovedLemmas::moves))]
fn turn_in(infos: &mut [hb_glyph_info_t], range: &Range<usize>)
    ensures { IsPermutation infos.old infos.new }
{
    let range = within(range, infos.len());
    turn_left_matras(&mut infos[range.start..range.end]);
}
