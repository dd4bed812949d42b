//! What the universal shaper keeps with an item: its category, and while syllables are found, whether they pass over it.

ghost use Rattle.std.specs.Prelude.{◌≡◌, false, if◌then◌else◌};
ghost use Rattle.glyph_lists.specs.Clusters.{clusters};
ghost use Rattle.script_items.specs.Item.{with_shaper_byte};
ghost use Rattle.shaping_passes.specs.Left.{StaysClosed};

use script_items::item::is_unicode_mark;
use script_syllables::item::{category_byte, is_ligated, set_category_byte};
use shaping_buffer::{hb_buffer_t, hb_glyph_info_t};
use universal_categories::UniversalCategory::{self, *};
use universal_categories::universal_category_of;

/// Whether an item has a category.
pub(crate) fn is(info: &hb_glyph_info_t, category: UniversalCategory) -> bool {
    category_byte(info) == category as u8
}

/// Sets the category of an item.
pub(crate) fn set(info: &mut hb_glyph_info_t, category: UniversalCategory)
    ensures { info.new.cluster ≡ info.old.cluster }
{
    set_category_byte(info, category as u8);
}

/// Lets each character keep its category.
#[tactic(auto, using(shaping_buffer::proofs::ClosedKeepsLemmas::clusters_written))]
pub fn set_categories(infos: &mut [hb_glyph_info_t])
    ensures { clusters infos.new ≡ clusters infos.old }
{
    for place in 0..infos.len() {
        let category = universal_category_of(infos[place].glyph_id);
        set(&mut infos[place], category);
    }
}

/// Whether the item is a halant, and no ligature.
pub(crate) fn is_halant(info: &hb_glyph_info_t) -> bool {
    !is_ligated(info)
        && (is(info, Halant) || is(info, HalantOrVowelModifier) || is(info, InvisibleStacker))
}

/// Whether the item stands behind the base of its syllable, whatever comes before it.
pub(crate) fn is_behind_base(info: &hb_glyph_info_t) -> bool {
    let byte = category_byte(info);
    (FinalAbove as u8 <= byte && byte <= MedialPre as u8)
        || (VowelAbove as u8 <= byte && byte <= VowelModifierPre as u8)
        || (FinalModifierAbove as u8 <= byte && byte <= FinalModifierPost as u8)
}

/// Lets each item keep whether syllables pass over it: joiners and what is like them, and a non-joiner before a mark.
pub(crate) fn mark_passed_over(buffer: &mut hb_buffer_t)
    requires { buffer.old.have_output ≡ false }
    ensures { StaysClosed buffer.old buffer.new }
{
    mark_items(buffer.info_slice_mut());
}

/// Does that in a list.
#[tactic(auto, using(shaping_buffer::proofs::ClosedKeepsLemmas::clusters_written))]
fn mark_items(infos: &mut [hb_glyph_info_t])
    ensures { clusters infos.new ≡ clusters infos.old }
{
    let mut is_before_mark = false;
    for turn in 0..infos.len() {
        let info = &mut infos[infos.len() - 1 - turn];
        let is_joiner = is(info, GraphemeJoiner);
        set_passed_over(info, is_joiner || is_before_mark && is(info, NonJoiner));
        if !is_joiner {
            is_before_mark = is_unicode_mark(info);
        }
    }
}

/// Sets whether syllables pass over an item, in the fourth byte of `var2`.
fn set_passed_over(info: &mut hb_glyph_info_t, is_passed_over: bool)
    ensures is { info.new ≡ with_shaper_byte (if is_passed_over then 1 else 0) info.old }
    ensures cluster { info.new.cluster ≡ info.old.cluster }
{
    let byte = if is_passed_over { 0x100_0000 } else { 0 };
    info.var2 = info.var2 % 0x100_0000 + byte;
}
