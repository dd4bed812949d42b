//! What is done at the pauses of Khmer and of Myanmar: syllables are found, and put in order once.

ghost use Rattle.std.specs.Prelude.{◌≡◌, true, false, IfOk};
ghost use Rattle.script_syllables.specs.Left.{Reorders};

use ot_map::Pause;
use script_syllables::dotted_circle::CircleKind;
use script_syllables::grammar::Grammar;
use script_syllables::reordering::{SyllableOrder, reorder};
use script_syllables::syllables::find_syllables;
use script_syllables::{Category, FontForms, Machine, Position};
use shaping_buffer::hb_buffer_t;
use std::alloc::AllocError;

/// The kind of syllables without a base.
pub(crate) const BROKEN: u8 = 1;

const CIRCLE: CircleKind = CircleKind {
    category: Category::DottedCircle as u8,
    position: Position::Start,
    repha: None,
    broken: BROKEN,
};

/// A shaper that puts the glyphs of syllables in order before the basic features.
pub trait ReorderingShaper: SyllableOrder {
    /// The machine that finds syllables.
    fn machine(&self) -> Machine<'static>;
}

/// What is done at a pause. `Ok(false)` where the text would become too long.
#[tactic(auto, using(script_syllables::proofs::NumbersLemmas::numbered))]
pub fn pause<S: ReorderingShaper, F: FontForms>(
    shaper: &S,
    buffer: &mut hb_buffer_t,
    font: &F,
    pause: Pause,
) -> Result<bool, AllocError>
    requires { buffer.old.have_output ≡ false }
    ensures { Reorders result buffer.old buffer.new }
{
    match pause {
        Pause::SetUpSyllables => {
            let grammar = Grammar {
                machine: shaper.machine(),
                broken: BROKEN,
                passes_over: false,
            };
            find_syllables(buffer, &grammar);
            Ok(true)
        }
        Pause::InitialReordering => reorder(buffer, font, CIRCLE, shaper),
        _ => Ok(true),
    }
}
