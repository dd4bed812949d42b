//! The features of a user as settings of Apple's features: HarfBuzz's `hb_aat_map_builder_t::add_feature`.

ghost use Rattle.std.specs.Prelude.{◌≡◌};

use crate::feature_mapping::{FeatureMapping, mapping_of};
use aat_tables::{FeatureName, FeatureNames};
use rb_common::Tag;
use rb_text::Feature;
use std::alloc::{AllocError, Global};

/// The type of the feature of alternates.
const CHARACTER_ALTERNATIVES: u16 = 17;

/// The type of the feature of small letters, and its setting for small capitals.
pub(crate) const LOWER_CASE: u16 = 37;

/// The setting of small letters that makes small capitals of them.
pub(crate) const LOWER_CASE_SMALL_CAPS: u16 = 1;

/// The type of the old feature of letters.
pub(crate) const LETTER_CASE: u16 = 3;

/// A setting of a feature, and the part of the text that has it.
#[derive(Clone, Copy, PartialEq, Eq)]
pub struct SelectedFeature {
    /// The type of the feature.
    pub kind: u16,
    /// The setting.
    pub setting: u32,
    /// Whether of the settings of the feature one alone is on.
    pub is_exclusive: bool,
    /// The first cluster that has the setting.
    pub start: u32,
    /// The cluster before which it ends.
    pub end: u32,
}

impl SelectedFeature {
    ghost use Rattle.aat_substitution.specs.Actions.{is_for, is_like};

    /// Whether the clusters from one on have the setting, up to the next one at which a feature begins or ends. One that ends before
    /// it begins does not end, as in HarfBuzz.
    pub(crate) fn is_for(&self, cluster: u32) -> bool
        ensures { result ≡ is_for self.now cluster }
    {
        self.start != self.end
            && self.start <= cluster
            && (cluster < self.end || self.end < self.start)
    }

    /// Whether it is of the same feature as a setting, and turns on or off what that turns on or off.
    pub(crate) fn is_like(&self, kind: u16, setting: u32) -> bool
        ensures { result ≡ is_like self.now kind setting }
    {
        self.kind == kind && (self.is_exclusive || self.setting / 2 == setting / 2)
    }
}

/// The settings that a user's features stand for in a font, in their order.
pub fn selected_features(
    alloc: Global,
    names: &FeatureNames,
    features: &[Feature],
) -> Result<Vec<SelectedFeature>, AllocError> {
    let mut selected = Vec::new(alloc);
    for feature in features {
        if let Some(setting) = selected_feature(names, feature) {
            selected.push(setting)?;
        }
    }
    Ok(selected)
}

/// The setting that a feature stands for, if the font has it.
fn selected_feature(names: &FeatureNames, feature: &Feature) -> Option<SelectedFeature> {
    if feature.tag == Tag::from_bytes(b"aalt") {
        let _alternates = names.feature(CHARACTER_ALTERNATIVES)?;
        return Some(SelectedFeature {
            kind: CHARACTER_ALTERNATIVES,
            setting: feature.value,
            is_exclusive: true,
            start: feature.start,
            end: feature.end,
        });
    }
    let mapping = mapping_of(feature.tag)?;
    let name = name_of(names, &mapping)?;
    Some(SelectedFeature {
        kind: mapping.kind,
        setting: u32::from(if feature.value == 0 {
            mapping.disable
        } else {
            mapping.enable
        }),
        is_exclusive: name.is_exclusive(),
        start: feature.start,
        end: feature.end,
    })
}

/// The feature of a font that a mapping leads to. Small capitals may also be a setting of the old feature of letters.
fn name_of<'a>(names: &FeatureNames<'a>, mapping: &FeatureMapping) -> Option<FeatureName<'a>> {
    if let Some(name) = names.feature(mapping.kind) {
        return Some(name);
    }
    if mapping.kind == LOWER_CASE && mapping.enable == LOWER_CASE_SMALL_CAPS {
        names.feature(LETTER_CASE)
    } else {
        None
    }
}
