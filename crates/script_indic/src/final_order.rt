//! The order of a text after the basic features.

ghost use Rattle.std.specs.Prelude.{◌≡◌, false};
ghost use Rattle.glyph_lists.specs.Clusters.{clusters};
ghost use Rattle.shaping_passes.specs.Left.{StaysClosed};
ghost use Rattle.script_syllables.specs.Left.{NumbersStay};

use crate::final_base::{FinalBase, find_final_base};
use crate::matras::move_matras;
use crate::plan::IndicPlan;
use crate::pref::move_pref;
use crate::reph::move_reph;
use rb_glyph::hb_gc::{
    RB_UNICODE_GENERAL_CATEGORY_FORMAT, RB_UNICODE_GENERAL_CATEGORY_NON_SPACING_MARK,
};
use script_items::item::general_category;
use script_syllables::item::{
    add_mask, forget_ligature, is_ligated, is_multiplied, position, set_category,
};
use script_syllables::reordering::{SyllableOrder, reorder_syllables};
use script_syllables::syllables::within;
use script_syllables::{Category, Position};
use shaping_buffer::{hb_buffer_t, hb_glyph_info_t};
use std::ops::Range;

/// Puts the glyphs of each syllable in order. `virama` is the glyph of the halant.
pub(crate) fn order_finally(buffer: &mut hb_buffer_t, plan: &IndicPlan, virama: Option<u32>)
    requires { buffer.old.have_output ≡ false }
    ensures { NumbersStay buffer.old buffer.new }
{
    reorder_syllables(buffer, &FinalOrder { plan, virama });
}

/// The order of syllables after the basic features.
#[derive(Clone, Copy)]
struct FinalOrder<'a> {
    plan: &'a IndicPlan,
    /// The glyph of the halant.
    virama: Option<u32>,
}

impl<'a> SyllableOrder for FinalOrder<'a> {
    fn reorder_syllable(&self, buffer: &mut hb_buffer_t, range: &Range<usize>) {
        order_syllable(buffer, range, self.plan, self.virama);
    }
}

/// Puts the glyphs of a syllable in order.
fn order_syllable(
    buffer: &mut hb_buffer_t,
    range: &Range<usize>,
    plan: &IndicPlan,
    virama: Option<u32>,
)
    requires { buffer.old.have_output ≡ false }
    ensures { NumbersStay buffer.old buffer.new }
{
    let base = find_base(buffer, range, plan, virama);
    let place = move_matras(buffer, range, base.place, plan);
    let place = move_reph(buffer, range, place, plan.configuration.reph_position);
    move_pref(buffer, range, &FinalBase { place, ..base }, plan);
    mark_start_of_word(buffer, range.start, plan.masks.init);
}

/// Finds the halants of a syllable and its base again.
fn find_base(
    buffer: &mut hb_buffer_t,
    range: &Range<usize>,
    plan: &IndicPlan,
    virama: Option<u32>,
) -> FinalBase
    requires { buffer.old.have_output ≡ false }
    ensures { StaysClosed buffer.old buffer.new }
{
    find_base_in(buffer.info_slice_mut(), range, plan, virama)
}

/// Does that in a list.
#[tactic(auto, using(script_syllables::proofs::MovedLemmas::same))]
fn find_base_in(
    infos: &mut [hb_glyph_info_t],
    range: &Range<usize>,
    plan: &IndicPlan,
    virama: Option<u32>,
) -> FinalBase
    ensures { clusters infos.new ≡ clusters infos.old }
{
    let range = within(range, infos.len());
    let syllable = &mut infos[range.start..range.end];
    if let Some(virama) = virama {
        find_halants(syllable, virama);
    }
    find_final_base(syllable, plan)
}

/// Takes each glyph of the halant for one, where it came of a ligature that was taken apart.
#[tactic(auto, using(shaping_buffer::proofs::ClosedKeepsLemmas::clusters_written))]
fn find_halants(syllable: &mut [hb_glyph_info_t], virama: u32)
    ensures { clusters syllable.new ≡ clusters syllable.old }
{
    for place in 0..syllable.len() {
        let info = &mut syllable[place];
        if info.glyph_id == virama && is_ligated(info) && is_multiplied(info) {
            set_category(info, Category::Halant);
            forget_ligature(info);
        }
    }
}

/// Gives a vowel sign on the left the form that it has at the start of a word, if its syllable is the first of one. The place before is
/// unsafe to break else.
#[tactic(auto, using(shaping_buffer::proofs::ClosedKeepsLemmas::kept))]
fn mark_start_of_word(buffer: &mut hb_buffer_t, start: usize, mask: u32)
    requires { buffer.old.have_output ≡ false }
    ensures { StaysClosed buffer.old buffer.new }
{
    let infos = buffer.info();
    if !infos
        .get(start)
        .is_some_and(|info| position(info) == Position::PreMatra)
    {
        return;
    }
    if start > 0 && infos.get(start - 1).is_some_and(|info| goes_on(info)) {
        buffer.unsafe_to_break(Some(start - 1), Some(start + 1));
    } else {
        mask_one(buffer, start, mask);
    }
}

/// Gives the item at a place the features of a mask.
fn mask_one(buffer: &mut hb_buffer_t, place: usize, mask: u32)
    requires { buffer.old.have_output ≡ false }
    ensures { StaysClosed buffer.old buffer.new }
{
    add_mask(
        buffer.info_slice_mut(),
        place,
        place.saturating_add(1),
        mask,
    );
}

/// Whether the word goes on behind a character: it is a letter, a mark or a format character.
fn goes_on(info: &hb_glyph_info_t) -> bool {
    let category = general_category(info);
    RB_UNICODE_GENERAL_CATEGORY_FORMAT <= category
        && category <= RB_UNICODE_GENERAL_CATEGORY_NON_SPACING_MARK
}
