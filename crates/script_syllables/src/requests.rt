//! Features that are asked for together, and the masks that they have then.

ghost use Rattle.std.specs.Prelude.{◌≡◌, ◌++◌, [], ◌∷◌, length, map, replicate, IfOk};
ghost use Rattle.ot_map.specs.Asked.{Asks, in_stages, of_some};
ghost use Rattle.ot_map.specs.Pauses.{HasSamePauses};
ghost use Rattle.ot_map.specs.declared.plan.Pause.TheVariants.{Nothing};
ghost use Rattle.script_syllables.specs.SyllableFeatures.{IsOneMask};

use ot_map::{FeatureFlags, LayoutPlan, Pause, PlanBuilder};
use rb_common::Tag;
use std::alloc::AllocError;

/// A match ends with its syllable.
pub const PER_SYLLABLE: FeatureFlags = FeatureFlags {
    per_syllable: true,
    ..FeatureFlags::NONE
};

/// An input passes over no joiner.
pub const MANUAL_JOINER: FeatureFlags = FeatureFlags {
    manual_zwj: true,
    ..FeatureFlags::NONE
};

/// A match passes over no joiner.
pub const MANUAL_JOINERS: FeatureFlags = FeatureFlags {
    manual_zwnj: true,
    ..MANUAL_JOINER
};

/// The features of presentation forms, and whether every glyph has it.
pub const PRESENTATION_FEATURES: [(&[u8; 4], bool); 4] = [
    (b"pres", true),
    (b"abvs", true),
    (b"blws", true),
    (b"psts", true),
];

/// Asks for features in one stage. Beside the name of each is whether every glyph has it.
pub fn add_all(
    builder: &mut PlanBuilder,
    features: &[(&[u8; 4], bool)],
    flags: FeatureFlags,
) -> Result<(), AllocError>
    ensures pauses { HasSamePauses builder.old builder.new }
    ensures asks { IfOk result (λ _. Asks (map (λ it. of_some flags it.1 it.0.now) features.now) builder.old builder.new) }
{
    for (name, is_global) in features {
        add_one(builder, name, *is_global, flags)?;
    }
    Ok(())
}

/// Asks for features, each in a stage of its own. Beside the name of each is whether every glyph has it.
pub fn add_in_stages(
    builder: &mut PlanBuilder,
    features: &[(&[u8; 4], bool)],
    flags: FeatureFlags,
) -> Result<(), AllocError>
    ensures pauses { IfOk result (λ _. builder.new.pauses.items ≡ builder.old.pauses.items ++ replicate (length features.now) Nothing) }
    ensures asks { IfOk result
        (λ _. Asks (in_stages (map (λ it. of_some flags it.1 it.0.now) features.now)) builder.old builder.new) }
{
    for (name, is_global) in features {
        add_one(builder, name, *is_global, flags)?;
        builder.add_gsub_pause(Pause::Nothing)?;
    }
    Ok(())
}

/// Asks for a feature.
fn add_one(
    builder: &mut PlanBuilder,
    name: &[u8; 4],
    is_global: bool,
    flags: FeatureFlags,
) -> Result<(), AllocError>
    ensures pauses { HasSamePauses builder.old builder.new }
    ensures asks { IfOk result (λ _. Asks (of_some flags is_global name.now ∷ []) builder.old builder.new) }
{
    let flags = FeatureFlags { is_global, ..flags };
    builder.add_feature(Tag::from_bytes(name), flags, 1)?;
    Ok(())
}

/// The mask of the value 1 of a feature; 0 where the plan has none with this name.
pub fn one_mask(layout: &LayoutPlan, name: &[u8; 4]) -> u32
    ensures { IsOneMask layout.now name.now result }
{
    layout.one_mask(Tag::from_bytes(name))
}
