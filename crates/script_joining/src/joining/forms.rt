//! The forms of all letters of a text.

ghost use Rattle.std.specs.Prelude.{◌≡◌, map, ◌<◌, ◌+◌, length, slice_index_or, drop};
ghost use Rattle.script_items.specs.Item.{with_shaper_byte};
ghost use Rattle.script_joining.specs.Joining.{with_forms, first_letter, kind, form_between, number_of_type};
ghost use Rattle.script_joining.specs.Listed.{with_type};

use crate::joining::form::{ArabicAction, form_between};
use crate::joining::kind::JoiningType::*;
use crate::joining::kind::{JoiningType, joining_type};
use rb_glyph::hb_glyph_info_t;
use script_items::item::{is_mark_or_format, set_shaper_byte, shaper_byte};

/// Lets each item keep the type of its character.
#[tactic(auto, using(glyph_lists::proofs::MapLemmas::walks))]
pub(crate) fn set_types(infos: &mut [hb_glyph_info_t])
    ensures { infos.new ≡ map with_type infos.old }
{
    for info in infos.iter_mut() {
        set_type(info);
    }
}

/// Lets an item keep the type of its character.
fn set_type(info: &mut hb_glyph_info_t)
    ensures { info.new ≡ with_type info.old }
{
    let kind = joining_type(info.glyph_id, is_mark_or_format(info));
    set_shaper_byte(info, kind.number());
}

/// The type that an item keeps.
pub(crate) fn kind(info: &hb_glyph_info_t) -> JoiningType
    ensures { result ≡ kind info.now }
{
    JoiningType::of_number(shaper_byte(info))
}

/// The nearest letter of a list that is not transparent, and where it has none the nearest beyond.
fn first_letter(infos: &[hb_glyph_info_t], beyond: JoiningType) -> JoiningType
    ensures { result ≡ first_letter infos.now beyond }
{
    for info in infos {
        let kind = kind(info);
        if kind != Transparent {
            return kind;
        }
    }
    beyond
}

/// Lets each item keep its form in place of its type, where `before` is the nearest letter before the text and `beyond` the nearest
/// behind it.
pub(crate) fn set_forms(infos: &mut [hb_glyph_info_t], before: JoiningType, beyond: JoiningType)
    ensures { infos.new ≡ with_forms before infos.old beyond }
{
    let mut nearest = before;
    for i in 0..infos.len() {
        let own = kind(&infos[i]);
        let form = form_at(infos, i, nearest, own, beyond);
        set_shaper_byte(&mut infos[i], form.number());
        nearest = own.or_beyond(nearest);
    }
}

/// The form of the letter at a place. What is behind it is only looked at where its form depends on it.
fn form_at(
    infos: &[hb_glyph_info_t],
    place: usize,
    before: JoiningType,
    own: JoiningType,
    beyond: JoiningType,
) -> ArabicAction
    requires { place < length infos.now }
    ensures { result ≡ form_between before own (first_letter (drop (place + 1) infos.now) beyond) }
{
    match own {
        Left | Dual | Alaph => {
            let after = first_letter(&infos[place + 1..], beyond);
            form_between(before, own, after)
        }
        NonJoining | Right | DalathRish | Transparent => form_between(before, own, NonJoining),
    }
}
