//! How a text of an Indic script is shaped by a font.

ghost use Rattle.std.specs.Prelude.{◌≡◌, true, false, IfOk};
ghost use Rattle.std.specs.List.{list_any};
ghost use Rattle.shaping_passes.specs.Left.{StaysClosed};
ghost use Rattle.script_syllables.specs.Left.{NumbersStay, Reorders};
ghost use Rattle.script_indic.specs.FinalBase as bases;
ghost use Rattle.script_indic.specs.Scripts as scripts;

use crate::configuration::IndicConfiguration;
use crate::final_order::order_finally;
use crate::machine::indic_machine;
use crate::reordering::order_initially;
use ot_map::Pause;
use rb_common::{Script, Tag, script};
use script_syllables::FontForms;
use script_syllables::grammar::Grammar;
use script_syllables::item::{is_ligated, is_multiplied};
use script_syllables::syllables::find_syllables;
use shaping_buffer::{hb_buffer_t, hb_glyph_info_t};
use std::alloc::{AllocError, Global};

/// The kind of syllables without a base.
pub(crate) const BROKEN: u8 = 4;

/// The masks of the features that not every glyph has.
#[derive(Clone, Copy, PartialEq, Eq, Default)]
pub struct IndicMasks {
    /// Rephs.
    pub rphf: u32,
    /// A RA that stands before its base.
    pub pref: u32,
    /// Forms below the base.
    pub blwf: u32,
    /// Forms above the base.
    pub abvf: u32,
    /// Half forms.
    pub half: u32,
    /// Forms behind the base.
    pub pstf: u32,
    /// Forms at the start of a word.
    pub init: u32,
}

/// Which forms of consonants a font has lookups for.
#[derive(Clone, Copy, PartialEq, Eq, Default)]
pub struct ConsonantForms {
    /// Those of a RA that stands before its base.
    pub pref: bool,
    /// Those below the base.
    pub blwf: bool,
    /// Those behind the base.
    pub pstf: bool,
    /// Those with a RA below them.
    pub vatu: bool,
}

/// How a text of an Indic script is shaped by a font.
#[derive(Clone, Copy, PartialEq, Eq)]
pub struct IndicPlan {
    /// The script of the text.
    pub script: Option<Script>,
    /// What differs from script to script.
    pub configuration: IndicConfiguration,
    /// Whether the font was made by the old specification.
    pub is_old_spec: bool,
    /// The masks.
    pub masks: IndicMasks,
    /// The forms of consonants, of which the font is asked only where it has them.
    pub forms: ConsonantForms,
}

impl IndicPlan {
    /// The plan for a script and a font, of which `gsub_script` is the tag by which its table `GSUB` has the script.
    pub fn new(
        script: Option<Script>,
        gsub_script: Tag,
        masks: IndicMasks,
        forms: ConsonantForms,
    ) -> IndicPlan
        ensures { result ≡ scripts.indic_plan script gsub_script.0 masks forms }
    {
        let configuration = IndicConfiguration::of(script);
        IndicPlan {
            script,
            configuration,
            is_old_spec: configuration.has_old_spec && gsub_script.to_bytes()[3] != b'2',
            masks,
            forms,
        }
    }

    /// Whether a rule with context is not taken, where a font is asked for its forms.
    pub fn wants_no_context(&self) -> bool
        ensures { result ≡ scripts.wants_no_context self.now }
    {
        !self.is_old_spec && !self.is(script::MALAYALAM)
    }

    /// Whether the text is of a script.
    pub(crate) fn is(&self, script: Script) -> bool
        ensures { result ≡ scripts.is_text_of script self.now.script }
    {
        match self.script {
            Some(own) => own.tag().0 == script.tag().0,
            None => false,
        }
    }

    /// What is done at a pause of a text of an Indic script. `Ok(false)` where the text would become too long.
    #[tactic(auto, using(script_syllables::proofs::NumbersLemmas::numbered))]
    pub fn pause<F: FontForms>(
        &self,
        pause: Pause,
        alloc: Global,
        buffer: &mut hb_buffer_t,
        font: &mut F,
    ) -> Result<bool, AllocError>
        requires { buffer.old.have_output ≡ false }
        ensures { Reorders result buffer.old buffer.new }
    {
        match pause {
            Pause::SetUpSyllables => {
                self.setup_syllables(buffer);
                Ok(true)
            }
            Pause::InitialReordering => order_initially(alloc, buffer, self, font),
            Pause::FinalReordering => {
                self.final_reordering(buffer, font);
                Ok(true)
            }
            _ => Ok(true),
        }
    }

    /// Finds the syllables, before the first lookups.
    fn setup_syllables(&self, buffer: &mut hb_buffer_t)
        requires { buffer.old.have_output ≡ false }
        ensures { StaysClosed buffer.old buffer.new }
    {
        let grammar = Grammar {
            machine: indic_machine(),
            broken: BROKEN,
            passes_over: false,
        };
        find_syllables(buffer, &grammar);
    }

    /// Puts the glyphs of each syllable in the order in which they are seen, after the basic features.
    fn final_reordering<F: FontForms>(&self, buffer: &mut hb_buffer_t, font: &F)
        requires { buffer.old.have_output ≡ false }
        ensures { NumbersStay buffer.old buffer.new }
    {
        let virama = if has_parted_ligature(buffer.info()) {
            self.virama_glyph(font)
        } else {
            None
        };
        order_finally(buffer, self, virama);
    }

    /// The glyph of the halant; `None` where the font has none.
    pub(crate) fn virama_glyph<F: FontForms>(&self, font: &F) -> Option<u32> {
        let glyph = font.glyph_of(self.configuration.virama? as u32)?;
        if glyph == 0 { None } else { Some(glyph) }
    }
}

/// Whether a glyph came of a ligature that was taken apart.
fn has_parted_ligature(infos: &[hb_glyph_info_t]) -> bool
    ensures { result ≡ list_any bases.is_of_parted_ligature infos.now }
{
    infos
        .iter()
        .any(|info| is_ligated(info) && is_multiplied(info))
}
