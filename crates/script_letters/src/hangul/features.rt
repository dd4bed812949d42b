//! The features of Hangul (OpenType, "Developing OpenType Fonts for Korean Hangul Script").

ghost use Rattle.std.specs.Prelude.{IfOk};
ghost use Rattle.ot_map.specs.Asked.{Asks};
ghost use Rattle.ot_map.specs.Pauses.{HasSamePauses};
ghost use Rattle.script_letters.specs.HangulFeatures.{hangul_features};

use ot_map::{FeatureFlags, PlanBuilder};
use rb_common::Tag;
use std::alloc::AllocError;

/// The features of jamo, in the order of the numbers that they keep.
pub const JAMO_FEATURES: [&[u8; 4]; 3] = [b"ljmo", b"vjmo", b"tjmo"];

/// Asks for the features of jamo.
pub fn add_jamo_features(builder: &mut PlanBuilder) -> Result<(), AllocError>
    ensures pauses { HasSamePauses builder.old builder.new }
    ensures asks { IfOk result (λ _. Asks hangul_features builder.old builder.new) }
{
    builder.add_feature(Tag::from_bytes(b"ljmo"), FeatureFlags::NONE, 1)?;
    builder.add_feature(Tag::from_bytes(b"vjmo"), FeatureFlags::NONE, 1)?;
    builder.add_feature(Tag::from_bytes(b"tjmo"), FeatureFlags::NONE, 1)?;
    Ok(())
}
