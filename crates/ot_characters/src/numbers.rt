//! Numbers in a line that runs from left to right in a script that does not: alone they run as the line does.

ghost use Rattle.std.specs.Prelude.{◌≡◌, false};
ghost use Rattle.std.specs.List.{list_any};
ghost use Rattle.shaping_buffer.specs.KeepsClusters.{KeepsClusters};
ghost use Rattle.ot_characters.specs.Numbers as numbers;

use crate::glyph_info::{is_letter, is_number};
use crate::native_direction::is_against_script;
use script_items::{Tie, Ties, keep_tied};
use shaping_buffer::{hb_buffer_t, hb_glyph_info_t};

/// Whether the text has digits or regional indicators, and no letters.
pub(crate) fn are_numbers(infos: &[hb_glyph_info_t]) -> bool
    ensures { result ≡ numbers.are_numbers infos.now }
{
    !has_letter(infos) && has_number(infos)
}

/// Whether one of the characters is a letter.
fn has_letter(infos: &[hb_glyph_info_t]) -> bool
    ensures { result ≡ list_any numbers.is_letter infos.now }
{
    infos.iter().any(|info| is_letter(info))
}

/// Whether one of the characters is a digit or a regional indicator.
fn has_number(infos: &[hb_glyph_info_t]) -> bool
    ensures { result ≡ list_any numbers.is_number infos.now }
{
    infos.iter().any(|info| is_number(info))
}

/// Marks as unsafe to break where a part of such a line would run otherwise than the whole: numbers without the letters that turn
/// them, and other characters without the numbers that keep them.
#[tactic(auto, using(shaping_buffer::proofs::ClosedKeepsLemmas::kept))]
pub fn keep_numbers(buffer: &mut hb_buffer_t)
    requires { buffer.old.have_output ≡ false }
    ensures closed { buffer.new.have_output ≡ false }
    ensures keeps { KeepsClusters buffer.old buffer.new }
{
    if is_against_script(buffer) {
        let is_turned = !are_numbers(buffer.info());
        keep_tied(buffer, &LineOfNumbers { is_turned });
    }
}

/// Which characters of such a line hang on which.
#[derive(Clone, Copy)]
struct LineOfNumbers {
    /// Whether the line is turned: it has letters, or no numbers.
    is_turned: bool,
}

impl Ties for LineOfNumbers {
    fn tie_of(&self, infos: &[hb_glyph_info_t], place: usize) -> Tie {
        match infos.get(place) {
            Some(info) if self.is_turned => tie_to_letters(info),
            Some(info) => tie_to_numbers(info),
            None => Tie::Loose,
        }
    }
}

/// In a line that is turned numbers hang on letters.
fn tie_to_letters(info: &hb_glyph_info_t) -> Tie
    ensures { result ≡ numbers.tie_to_letters info.now }
{
    if is_letter(info) {
        Tie::Anchor
    } else if is_number(info) {
        Tie::Hanging
    } else {
        Tie::Loose
    }
}

/// In a line that is not turned what is no number hangs on numbers.
fn tie_to_numbers(info: &hb_glyph_info_t) -> Tie
    ensures { result ≡ numbers.tie_to_numbers info.now }
{
    if is_number(info) {
        Tie::Anchor
    } else {
        Tie::Hanging
    }
}
