//! Characters that are taken apart, and composed again only as the text has marks.

ghost use Rattle.std.specs.Prelude.{◌≡◌, ◌<◌, false, length};
ghost use Rattle.shaping_passes.specs.Left.{StaysClosed};
ghost use Rattle.ot_normalization.specs.FontRules as rules;

use super::pairs::{Composing, composite_of};
use super::parts::parts_of;
use font_functions::FontFunctions;
use script_items::item::is_unicode_mark;
use script_items::{Tie, Ties, keep_tied};
use script_shapers::{NormalizationMode, ScriptPlan};
use shaping_buffer::{hb_buffer_t, hb_glyph_info_t};

/// Marks as unsafe to break what lies between such a character and a mark, where the text has one: in a part without it would stay apart.
#[tactic(auto, using(shaping_buffer::proofs::ClosedKeepsLemmas::kept))]
pub(crate) fn keep_composed_again<F: FontFunctions>(
    buffer: &mut hb_buffer_t,
    font: &F,
    script: &ScriptPlan,
    has_marks: bool,
)
    requires { buffer.old.have_output ≡ false }
    ensures { StaysClosed buffer.old buffer.new }
{
    if has_marks && script.shaper.normalization_mode() == NormalizationMode::Decomposed {
        let composing = Composing::new(font, script);
        keep_tied(buffer, &composing);
    }
}

impl<F: FontFunctions> Ties for Composing<'_, F> {
    fn tie_of(&self, infos: &[hb_glyph_info_t], place: usize) -> Tie {
        tie_in(self, infos, place)
    }
}

/// A mark that does not begin the text is an anchor, and such a character hangs on it, unless it has a mark of its own.
fn tie_in<F: FontFunctions>(
    composing: &Composing<F>,
    infos: &[hb_glyph_info_t],
    place: usize,
) -> Tie {
    let Some(info) = infos.get(place) else {
        return Tie::Loose;
    };
    if is_unicode_mark(info) {
        return if place > 0 { Tie::Anchor } else { Tie::Loose };
    }
    let has_mark = match infos.get(place.saturating_add(1)) {
        Some(next) => is_unicode_mark(next),
        None => false,
    };
    if !has_mark && is_composed_again(composing, info.glyph_id) {
        Tie::Hanging
    } else {
        Tie::Loose
    }
}

/// Whether the parts of a character compose to it again, with a font that has it and the second part.
fn is_composed_again<F: FontFunctions>(composing: &Composing<F>, character: u32) -> bool
    ensures { result ≡ rules.is_composed_again (F.has composing.now.font.now) composing.now.shaper composing.now.has_gpos_mark character }
{
    match parts_of(composing.shaper, character) {
        Some((first, second)) => {
            composing.font.nominal_glyph(second).is_some()
                && composite_of_codes(composing, first, second).unwrap_or(0) == character
        }
        None => false,
    }
}

/// What two code points compose to, if the font has it.
fn composite_of_codes<F: FontFunctions>(composing: &Composing<F>, a: u32, b: u32) -> Option<u32>
    ensures { result ≡ rules.composite_of_codes (F.has composing.now.font.now) composing.now.shaper composing.now.has_gpos_mark a b }
{
    match char::from_u32(a) {
        Some(first) => match char::from_u32(b) {
            Some(second) => composite_of(composing, first, second),
            None => None,
        },
        None => None,
    }
}
