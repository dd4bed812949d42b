//! The features that Myanmar asks for, in their stages (OpenType, "Developing OpenType Fonts for Myanmar Script").

ghost use Rattle.std.specs.Prelude.{◌≡◌, ◌++◌, IfOk};
ghost use Rattle.ot_map.specs.Asked.{Asks};
ghost use Rattle.script_universal.specs.MyanmarFeatures.{myanmar_features};
ghost use Rattle.script_universal.specs.Stages.{myanmar_pauses};

use ot_map::{FeatureFlags, Pause, PlanBuilder};
use rb_common::Tag;
use script_syllables::requests::{
    MANUAL_JOINER, PER_SYLLABLE, PRESENTATION_FEATURES, add_all, add_in_stages,
};
use std::alloc::AllocError;

/// The basic features, each in a stage of its own, and whether every glyph has it.
const BASIC_FEATURES: [(&[u8; 4], bool); 4] = [
    (b"rphf", true),
    (b"pref", true),
    (b"blwf", true),
    (b"pstf", true),
];

/// Asks for the features, with the pauses at which syllables are found and reordered.
pub fn collect_features(builder: &mut PlanBuilder) -> Result<(), AllocError>
    ensures pauses { IfOk result (λ _. builder.new.pauses.items ≡ builder.old.pauses.items ++ myanmar_pauses) }
    ensures asks { IfOk result (λ _. Asks myanmar_features builder.old builder.new) }
{
    builder.add_gsub_pause(Pause::SetUpSyllables)?;
    builder.enable_feature(Tag::from_bytes(b"locl"), PER_SYLLABLE)?;
    builder.enable_feature(Tag::from_bytes(b"ccmp"), PER_SYLLABLE)?;
    builder.add_gsub_pause(Pause::InitialReordering)?;
    let flags = FeatureFlags {
        per_syllable: true,
        ..MANUAL_JOINER
    };
    add_in_stages(builder, &BASIC_FEATURES, flags)?;
    builder.add_gsub_pause(Pause::Nothing)?;
    add_all(builder, &PRESENTATION_FEATURES, MANUAL_JOINER)?;
    Ok(())
}
