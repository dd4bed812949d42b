//! Lists of features, as in `-liga,+kern[3:5],aalt=2`.

ghost use Rattle.std.specs.Prelude.{◌≡◌, [], ◌∷◌, map, IfOk, OnOk};
ghost use Rattle.std.specs.List.{slice_split};
ghost use Rattle.shape_options.specs.Features.{is_comma, is_space, texts_in, Reads, AddsFeatures};

use shaping_buffer::Feature;
use std::alloc::{AllocError, Global};

/// The features of a list, which commas and spaces part, in their order. What reads as no feature is left out, as in
/// HarfBuzz's `hb-shape --features`.
pub fn features(alloc: Global, list: &str) -> Result<Vec<Feature>, AllocError>
    ensures { IfOk result (λ features. Reads (texts_in list.now) features.items) }
{
    let mut features = Vec::new(alloc);
    let parts = parts_at_commas(alloc, list)?;
    for part in parts.as_slice() {
        push_features(alloc, &mut features, part)?;
    }
    Ok(features)
}

/// Adds the features that spaces part.
fn push_features(alloc: Global, features: &mut Vec<Feature>, list: &str) -> Result<(), AllocError>
    ensures { OnOk result (AddsFeatures features.old.items features.new.items
        (slice_split is_space list.now)) }
{
    let texts = parts_at_spaces(alloc, list)?;
    for text in texts.as_slice() {
        push_feature(features, text)?;
    }
    Ok(())
}

/// Adds the feature that a text reads as, if it reads as one.
fn push_feature(features: &mut Vec<Feature>, text: &str) -> Result<(), AllocError>
    ensures { OnOk result (AddsFeatures features.old.items features.new.items (text.now ∷ [])) }
{
    if let Ok(feature) = text.parse::<Feature>() {
        features.push(feature)?;
    }
    Ok(())
}

fn parts_at_commas<'a>(alloc: Global, text: &'a str) -> Result<Vec<&'a str>, AllocError>
    ensures { IfOk result (λ parts. map (λ part. part.now) parts.items
        ≡ slice_split is_comma text.now) }
{
    text.split(',').collect(alloc)
}

fn parts_at_spaces<'a>(alloc: Global, text: &'a str) -> Result<Vec<&'a str>, AllocError>
    ensures { IfOk result (λ parts. map (λ part. part.now) parts.items
        ≡ slice_split is_space text.now) }
{
    text.split(' ').collect(alloc)
}

/// A text without the two equal quotes around it, if it has them.
pub(crate) fn unquoted(text: &str) -> &str {
    for quote in ["\"", "'"] {
        if let Some(inner) = text
            .strip_prefix(quote)
            .and_then(|rest| rest.strip_suffix(quote))
        {
            return inner;
        }
    }
    text
}
