//! The scripts that the Indic shaper serves (OpenType specification, "Script tags").

ghost use Rattle.std.specs.Prelude.{◌≡◌};
ghost use Rattle.script_syllables.specs.Scripts.{is_listed};
ghost use Rattle.script_indic.specs.Scripts.{indic_scripts};

use rb_common::{Script, script};

/// Whether a script is one of the nine that OpenType has the Indic shaper for.
pub fn is_indic(script: Script) -> bool
    ensures { result ≡ is_listed indic_scripts script }
{
    matches!(
        script,
        script::BENGALI
            | script::DEVANAGARI
            | script::GUJARATI
            | script::GURMUKHI
            | script::KANNADA
            | script::MALAYALAM
            | script::ORIYA
            | script::TAMIL
            | script::TELUGU
    )
}
