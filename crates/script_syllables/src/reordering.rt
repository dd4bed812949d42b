//! The order of the glyphs of syllables: one walk over them, by each shaper's rules for a syllable.

ghost use Rattle.std.specs.Prelude.{◌≡◌, true, false, IfOk};
ghost use Rattle.script_syllables.specs.Left.{NumbersStay, Reorders};

use crate::dotted_circle::{CircleKind, insert_dotted_circles};
use crate::font::FontForms;
use shaping_buffer::hb_buffer_t;
use std::alloc::AllocError;
use std::ops::Range;

/// A shaper's rules for the order of a syllable.
pub trait SyllableOrder {
    /// Puts the glyphs of a syllable in order.
    fn reorder_syllable(&self, buffer: &mut hb_buffer_t, range: &Range<usize>)
        requires { buffer.old.have_output ≡ false }
        ensures { NumbersStay buffer.old buffer.new };
}

/// Puts a dotted circle into each broken syllable, and the glyphs of each syllable in order. `Ok(false)` where the text would become
/// too long.
#[tactic(auto, using(crate::proofs::NumbersLemmas::numbered))]
pub fn reorder<F: FontForms, O: SyllableOrder>(
    buffer: &mut hb_buffer_t,
    font: &F,
    circle: CircleKind,
    order: &O,
) -> Result<bool, AllocError>
    requires { buffer.old.have_output ≡ false }
    ensures { Reorders result buffer.old buffer.new }
{
    if !insert_dotted_circles(buffer, font, circle)? {
        return Ok(false);
    }
    reorder_syllables(buffer, order);
    Ok(true)
}

/// Puts the glyphs of each syllable in order.
#[tactic(auto, using(crate::proofs::NumbersLemmas::numbered))]
pub fn reorder_syllables<O: SyllableOrder>(buffer: &mut hb_buffer_t, order: &O)
    requires { buffer.old.have_output ≡ false }
    ensures { NumbersStay buffer.old buffer.new }
{
    let mut start = 0;
    for _turn in 0..buffer.len() {
        if start >= buffer.len() {
            break;
        }
        let end = buffer.next_syllable(start);
        order.reorder_syllable(buffer, &(start..end));
        start = end;
    }
}
