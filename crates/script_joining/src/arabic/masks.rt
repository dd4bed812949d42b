//! The masks of letters, by their forms.

ghost use Rattle.std.specs.Prelude.{◌≡◌, ◌<◌, ◌-◌, map, false, length, slice_index_or, slice_set};
ghost use Rattle.glyph_lists.specs.Clusters.{zero_glyph};
ghost use Rattle.script_items.specs.Item.{shaper_byte};
ghost use Rattle.rb_glyph.specs.Categories.{category_of_char};
ghost use Rattle.shaping_passes.specs.Left.{StaysClosed};
ghost use Rattle.script_joining.specs.Joining.{is_transparent, with_form_behind, with_forms, selectors_formed};
ghost use Rattle.script_joining.specs.Listed.{first_type, type_of, with_type};

use crate::joining::flags::flag_joins;
use crate::joining::forms::{set_forms, set_types};
use crate::joining::kind::JoiningType::{self, *};
use crate::joining::kind::joining_type;
use rb_glyph::{CharExt, hb_unicode_general_category_t};
use script_items::item::{set_shaper_byte, shaper_byte};
use shaping_buffer::{hb_buffer_t, hb_glyph_info_t};

/// Lets each item keep the form of its letter, and flags the places between letters.
#[tactic(auto, using(shaping_buffer::proofs::ClosedKeepsLemmas::kept))]
pub fn join_letters(buffer: &mut hb_buffer_t)
    requires { buffer.old.have_output ≡ false }
    ensures { StaysClosed buffer.old buffer.new }
{
    let before = first_type(buffer.context(0)).unwrap_or(NonJoining);
    let behind = first_type(buffer.context(1));
    set_types_in(buffer);
    flag_joins(buffer, before, behind);
    set_forms_in(buffer, before, behind.unwrap_or(NonJoining));
}

/// Lets each item keep the type of its letter.
fn set_types_in(buffer: &mut hb_buffer_t)
    requires { buffer.old.have_output ≡ false }
    ensures is { buffer.new ≡ record buffer.old { input = map with_type buffer.old.input } }
    ensures stays { StaysClosed buffer.old buffer.new }
{
    set_types(buffer.info_slice_mut());
}

/// Lets each item keep the form of its letter in place of its type.
fn set_forms_in(buffer: &mut hb_buffer_t, before: JoiningType, behind: JoiningType)
    requires { buffer.old.have_output ≡ false }
    ensures is { buffer.new ≡ record buffer.old { input = with_forms before buffer.old.input behind } }
    ensures stays { StaysClosed buffer.old buffer.new }
{
    set_forms(buffer.info_slice_mut(), before, behind);
}

/// The type of the first of these characters that is not transparent.
fn first_type(characters: &[char]) -> Option<JoiningType>
    ensures { result ≡ first_type characters.now }
{
    for character in characters {
        let kind = type_of(*character);
        if kind != Transparent {
            return Some(kind);
        }
    }
    None
}

/// The type of a character.
fn type_of(character: char) -> JoiningType
    ensures { result ≡ type_of character }
{
    joining_type(character as u32, is_transparent(character))
}

/// Whether letters join across the character, if Unicode does not list how it joins.
fn is_transparent(character: char) -> bool
    ensures { result ≡ is_transparent (category_of_char character) }
{
    matches!(
        character.general_category(),
        hb_unicode_general_category_t::NonspacingMark
            | hb_unicode_general_category_t::EnclosingMark
            | hb_unicode_general_category_t::Format
    )
}

/// Lets each Mongolian variation selector keep the form of the item before it.
pub fn form_variation_selectors(buffer: &mut hb_buffer_t)
    requires { buffer.old.have_output ≡ false }
    ensures is { buffer.new ≡ record buffer.old { input = selectors_formed buffer.old.input } }
    ensures stays { StaysClosed buffer.old buffer.new }
{
    form_selectors(buffer.info_slice_mut());
}

/// Does that with these items.
fn form_selectors(infos: &mut [hb_glyph_info_t])
    ensures { infos.new ≡ selectors_formed infos.old }
{
    for i in 1..infos.len() {
        form_selector(infos, i);
    }
}

/// Lets a Mongolian variation selector keep the form of the item before it.
fn form_selector(infos: &mut [hb_glyph_info_t], place: usize)
    requires behind { 0 < place }
    requires within { place < length infos.old }
    ensures { infos.new ≡ slice_set infos.old place
        (with_form_behind (shaper_byte (slice_index_or infos.old (place - 1) zero_glyph)) (slice_index_or infos.old place zero_glyph)) }
{
    let form = shaper_byte(&infos[place - 1]);
    keep_form(&mut infos[place], form);
}

/// Lets the item keep a form, if it is such a selector.
#[tactic(auto, unfolding(crate::specs::Joining::with_form_behind))]
fn keep_form(info: &mut hb_glyph_info_t, form: u8)
    ensures { info.new ≡ with_form_behind form info.old }
{
    if matches!(info.glyph_id, 0x180B..=0x180D | 0x180F) {
        set_shaper_byte(info, form);
    }
}
