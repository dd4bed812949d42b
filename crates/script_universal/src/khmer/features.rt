//! The features that Khmer asks for, in their stages (OpenType, "Developing OpenType Fonts for Khmer Script").

ghost use Rattle.std.specs.Prelude.{◌≡◌, ◌++◌, IfOk};
ghost use Rattle.ot_map.specs.Asked.{Asks};
ghost use Rattle.ot_map.specs.Pauses.{HasSamePauses};
ghost use Rattle.script_universal.specs.KhmerFeatures.{IsKhmerPlan, khmer_features, khmer_overrides};
ghost use Rattle.script_universal.specs.Stages.{khmer_pauses};

use crate::khmer::plan::KhmerPlan;
use ot_map::{FeatureFlags, LayoutPlan, Pause, PlanBuilder};
use rb_common::Tag;
use script_syllables::requests::{
    MANUAL_JOINERS, PER_SYLLABLE, PRESENTATION_FEATURES, add_all, one_mask,
};
use std::alloc::AllocError;

/// The basic features, all in one stage, and whether every glyph has it.
const BASIC_FEATURES: [(&[u8; 4], bool); 5] = [
    (b"pref", false),
    (b"blwf", false),
    (b"abvf", false),
    (b"pstf", false),
    (b"cfar", false),
];

/// Asks for the features, with the pauses at which syllables are found and reordered.
pub fn collect_features(builder: &mut PlanBuilder) -> Result<(), AllocError>
    ensures pauses { IfOk result (λ _. builder.new.pauses.items ≡ builder.old.pauses.items ++ khmer_pauses) }
    ensures asks { IfOk result (λ _. Asks khmer_features builder.old builder.new) }
{
    builder.add_gsub_pause(Pause::SetUpSyllables)?;
    builder.add_gsub_pause(Pause::InitialReordering)?;
    builder.enable_feature(Tag::from_bytes(b"locl"), PER_SYLLABLE)?;
    builder.enable_feature(Tag::from_bytes(b"ccmp"), PER_SYLLABLE)?;
    let flags = FeatureFlags {
        per_syllable: true,
        ..MANUAL_JOINERS
    };
    add_all(builder, &BASIC_FEATURES, flags)?;
    builder.add_gsub_pause(Pause::Nothing)?;
    add_all(builder, &PRESENTATION_FEATURES, MANUAL_JOINERS)?;
    Ok(())
}

/// Asks for contextual ligatures, which Khmer requires, and turns standard ligatures off.
pub fn override_features(builder: &mut PlanBuilder) -> Result<(), AllocError>
    ensures pauses { HasSamePauses builder.old builder.new }
    ensures asks { IfOk result (λ _. Asks khmer_overrides builder.old builder.new) }
{
    builder.enable_feature(Tag::from_bytes(b"clig"), FeatureFlags::NONE)?;
    builder.disable_feature(Tag::from_bytes(b"liga"))?;
    Ok(())
}

/// The plan for the features of a font.
pub fn plan(layout: &LayoutPlan) -> KhmerPlan
    ensures { IsKhmerPlan layout.now result }
{
    KhmerPlan {
        pref: one_mask(layout, b"pref"),
        blwf: one_mask(layout, b"blwf"),
        abvf: one_mask(layout, b"abvf"),
        pstf: one_mask(layout, b"pstf"),
        cfar: one_mask(layout, b"cfar"),
    }
}
