//! The features that the shaper of a script asks for.

ghost use Rattle.std.specs.Prelude.{◌≡◌, ◌≢◌, ◌++◌, IfOk};
ghost use Rattle.ot_map.specs.Asked.{Asks};
ghost use Rattle.ot_map.specs.Pauses.{HasSamePauses};
ghost use Rattle.script_shapers.specs.ShaperFeatures.{features_of, overrides_of, requires_forms};
ghost use Rattle.script_shapers.specs.Stages.{pauses_of};
ghost use Rattle.script_shapers.specs.declared.shaper.ScriptShaper.TheVariants.{Arabic};

use crate::shaper::ScriptShaper;
use ot_map::PlanBuilder;
use rb_common::{Script, Tag};
use script_joining::arabic;
use script_letters::hangul;
use script_universal::{khmer, myanmar, universal};
use std::alloc::AllocError;

/// Asks for the features of a script, behind those that every text has first.
#[tactic(auto, using(ot_map::proofs::AskedLemmas::asks_nothing))]
pub fn collect_features(
    shaper: ScriptShaper,
    builder: &mut PlanBuilder,
    script: Option<Script>,
) -> Result<(), AllocError>
    ensures pauses { shaper ≢ Arabic
        → IfOk result (λ _. builder.new.pauses.items ≡ builder.old.pauses.items ++ pauses_of shaper) }
    ensures asks { IfOk result
        (λ _. Asks (features_of shaper script (requires_forms builder.old)) builder.old builder.new) }
{
    match shaper {
        ScriptShaper::Arabic => arabic::features::collect_features(builder, script),
        ScriptShaper::Hangul => hangul::add_jamo_features(builder),
        ScriptShaper::Indic => script_indic::features::collect_features(builder),
        ScriptShaper::Khmer => khmer::features::collect_features(builder),
        ScriptShaper::Myanmar => myanmar::features::collect_features(builder),
        ScriptShaper::Universal | ScriptShaper::UniversalJoining => {
            universal::features::collect_features(builder)
        }
        ScriptShaper::Default
        | ScriptShaper::Hebrew
        | ScriptShaper::Thai
        | ScriptShaper::Zawgyi
        | ScriptShaper::Plain => Ok(()),
    }
}

/// Changes the features that were asked for, after those of the user: Hangul has no contextual alternates, since fonts have jamo
/// there.
#[tactic(auto, using(ot_map::proofs::AskedLemmas::asks_nothing))]
pub fn override_features(shaper: ScriptShaper, builder: &mut PlanBuilder) -> Result<(), AllocError>
    ensures pauses { HasSamePauses builder.old builder.new }
    ensures asks { IfOk result (λ _. Asks (overrides_of shaper) builder.old builder.new) }
{
    match shaper {
        ScriptShaper::Hangul => {
            builder.disable_feature(Tag::from_bytes(b"calt"))?;
            Ok(())
        }
        ScriptShaper::Indic => script_indic::features::override_features(builder),
        ScriptShaper::Khmer => khmer::features::override_features(builder),
        _ => Ok(()),
    }
}
