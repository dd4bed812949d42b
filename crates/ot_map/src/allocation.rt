//! Which bits of a glyph's mask each feature has.

ghost use Rattle.std.specs.Prelude.{◌≡◌, ◌≢◌, ◌<◌, ◌≤◌, ◌+◌, IfOk, IfSome, map, option_map};
ghost use Rattle.ot_map.specs.Allocation.{BitsAreApart, BitsAreInside, global_mask, default_mask};
ghost use Rattle.ot_map.specs.AllocationSteps.{StandsFrom, IsNextBehind};
ghost use Rattle.ot_map.specs.Features.{bits_from, bits_seen, next_behind, planned, planned_features, seen};

use crate::bits::{FIRST_SHIFT, FeatureBits, GLOBAL_MASK, GLOBAL_SHIFT, bits_needed};
use crate::plan::PlannedFeature;
use crate::request::FeatureRequest;
use std::alloc::{AllocError, Global};

/// The features that the font has, or that have a fallback, each with its bits. One for which there are no bits left is not there.
pub(crate) fn planned_features(
    alloc: Global,
    requests: &[FeatureRequest],
) -> Result<Vec<PlannedFeature>, AllocError>
    ensures is { IfOk result (λ features. map seen features.items ≡ planned_features 4 requests.now) }
    ensures apart { IfOk result (λ features. BitsAreApart features.items) }
    ensures inside { IfOk result (λ features. BitsAreInside features.items) }
{
    let mut features = Vec::new(alloc);
    let mut next = FIRST_SHIFT;
    for request in requests {
        match planned(request, next) {
            Some(feature) => {
                next = next_behind(&feature, next);
                features.push(feature)?;
            }
            None => {}
        }
    }
    Ok(features)
}

/// The first bit that is free behind those of a feature.
fn next_behind(feature: &PlannedFeature, next: u32) -> u32
    requires { StandsFrom next feature.now }
    ensures is { result ≡ next_behind next (seen feature.now) }
    ensures behind { IsNextBehind feature.now next result }
{
    if feature.bits.shift == GLOBAL_SHIFT {
        next
    } else {
        feature.bits.shift + feature.bits.count
    }
}

/// A feature with its bits, from this one on. `None` where it is turned off, no table has it and there is no fallback, or not so
/// many bits are left.
#[tactic(auto, unfolding(crate::specs::Features::planned))]
fn planned(request: &FeatureRequest, next: u32) -> Option<PlannedFeature>
    requires { next ≤ 30 }
    ensures is { option_map seen result ≡ planned next request.now }
    ensures stands { IfSome result (StandsFrom next) }
{
    let is_found = request.is_found();
    if !is_found && !request.flags.has_fallback {
        return None;
    }
    let bits = bits_of(request, next)?;
    Some(PlannedFeature {
        tag: request.tag,
        gsub: request.gsub,
        gpos: request.gpos,
        stage: request.stage,
        bits,
        default_value: request.default_value,
        needs_fallback: !is_found,
        flags: request.flags,
    })
}

/// The bits of a request, from this one on: the global one for a feature of every glyph with the value 1. `None` where the value is
/// 0, or not so many bits are left.
#[tactic(auto, unfolding(crate::specs::Features::bits_from))]
fn bits_of(request: &FeatureRequest, next: u32) -> Option<FeatureBits>
    requires { next ≤ 30 }
    ensures is { option_map bits_seen result ≡ bits_from next request.now }
    ensures inside { IfSome result (λ bits. bits.shift ≢ 31 → (bits.shift ≡ next) × (next + bits.count ≤ 30)) }
{
    if request.max_value == 0 {
        return None;
    }
    if request.flags.is_global && request.max_value == 1 {
        return Some(FeatureBits {
            shift: GLOBAL_SHIFT,
            count: 1,
        });
    }
    let count = bits_needed(request.max_value);
    if next + count >= GLOBAL_SHIFT {
        return None;
    }
    Some(FeatureBits { shift: next, count })
}

/// The mask of a glyph that no feature of a range reaches: the bit that every glyph has, and the default value of each feature with
/// bits of its own.
#[tactic(auto, unfolding(crate::specs::Allocation::global_mask))]
pub(crate) fn global_mask(features: &[PlannedFeature]) -> u32
    ensures { result ≡ global_mask features.now }
{
    let mut mask = GLOBAL_MASK;
    for feature in features {
        mask |= default_mask(feature);
    }
    mask
}

/// What a feature adds to the mask of every glyph.
fn default_mask(feature: &PlannedFeature) -> u32
    ensures { result ≡ default_mask feature.now }
{
    if feature.bits.shift == GLOBAL_SHIFT {
        0
    } else {
        feature.bits.of_value(feature.default_value)
    }
}
