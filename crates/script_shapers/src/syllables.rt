//! How a text that is written in syllables is shaped by a font.

ghost use Rattle.std.specs.Prelude.{◌≡◌, true, false, IfOk};
ghost use Rattle.shaping_passes.specs.Left.{StaysClosed};
ghost use Rattle.script_syllables.specs.Left.{Reorders};
ghost use Rattle.script_shapers.specs.Syllables.{HasForms, is_plan_of};

use crate::shaper::ScriptShaper;
use ot_map::{LayoutPlan, Pause};
use rb_common::Script;
use script_indic::IndicPlan;
use script_syllables::{FontForms, item};
use script_universal::{KhmerPlan, MyanmarShaper, UniversalPlan, khmer, universal};
use shaping_buffer::hb_buffer_t;
use std::alloc::{AllocError, Global};

/// How a text that is written in syllables is shaped by a font.
#[derive(Clone, Copy, PartialEq, Eq)]
pub enum SyllablePlan {
    /// It is not written in syllables.
    None,
    /// It is of an Indic script.
    Indic(IndicPlan),
    /// It is Khmer.
    Khmer(KhmerPlan),
    /// It is Myanmar.
    Myanmar,
    /// It is of a script that the universal shaper serves.
    Universal(UniversalPlan),
}

impl SyllablePlan {
    /// Lets each character keep its category, before glyphs are mapped.
    #[tactic(auto, using(shaping_buffer::proofs::ClosedKeepsLemmas::kept))]
    pub fn setup_masks(&self, buffer: &mut hb_buffer_t)
        requires { buffer.old.have_output ≡ false }
        ensures { StaysClosed buffer.old buffer.new }
    {
        match self {
            SyllablePlan::Indic(_) | SyllablePlan::Khmer(_) | SyllablePlan::Myanmar => {
                set_categories(buffer);
            }
            SyllablePlan::Universal(_) => set_universal_categories(buffer),
            SyllablePlan::None => {}
        }
    }

    /// What is done at a pause. `Ok(false)` where the text would become too long.
    #[tactic(auto, using(script_syllables::proofs::NumbersLemmas::numbered))]
    pub fn pause<F: FontForms>(
        &self,
        alloc: Global,
        buffer: &mut hb_buffer_t,
        font: &mut F,
        pause: Pause,
    ) -> Result<bool, AllocError>
        requires { buffer.old.have_output ≡ false }
        ensures { Reorders result buffer.old buffer.new }
    {
        match self {
            SyllablePlan::Indic(plan) => plan.pause(pause, alloc, buffer, font),
            SyllablePlan::Khmer(plan) => script_universal::pause(plan, buffer, font, pause),
            SyllablePlan::Myanmar => script_universal::pause(&MyanmarShaper, buffer, font, pause),
            SyllablePlan::Universal(plan) => plan.pause(pause, buffer, font),
            SyllablePlan::None => Ok(true),
        }
    }

    /// Whether a rule with context is not taken, where a font is asked for its forms.
    pub fn wants_no_context(&self) -> bool {
        match self {
            SyllablePlan::Indic(plan) => plan.wants_no_context(),
            _ => false,
        }
    }
}

/// The plan of a shaper of syllables, for a script and a font's features.
pub fn syllable_plan(
    shaper: ScriptShaper,
    script: Option<Script>,
    layout: &LayoutPlan,
) -> SyllablePlan
    ensures shaper { is_plan_of shaper result ≡ true }
    ensures forms { HasForms layout.now shaper result }
{
    match shaper {
        ScriptShaper::Indic => SyllablePlan::Indic(script_indic::features::plan(script, layout)),
        ScriptShaper::Khmer => SyllablePlan::Khmer(khmer::features::plan(layout)),
        ScriptShaper::Myanmar => SyllablePlan::Myanmar,
        ScriptShaper::Universal | ScriptShaper::UniversalJoining => {
            let joins = shaper == ScriptShaper::UniversalJoining;
            SyllablePlan::Universal(universal::features::plan(joins, layout))
        }
        _ => SyllablePlan::None,
    }
}

/// Lets each character of an Indic script, of Khmer or of Myanmar keep its category and its position.
fn set_categories(buffer: &mut hb_buffer_t)
    requires { buffer.old.have_output ≡ false }
    ensures { StaysClosed buffer.old buffer.new }
{
    item::set_categories(buffer.info_slice_mut());
}

/// Lets each character of a script of the universal shaper keep its category.
fn set_universal_categories(buffer: &mut hb_buffer_t)
    requires { buffer.old.have_output ≡ false }
    ensures { StaysClosed buffer.old buffer.new }
{
    universal::item::set_categories(buffer.info_slice_mut());
}
