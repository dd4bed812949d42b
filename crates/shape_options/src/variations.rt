//! Lists of variations, as in `wght=500,slnt=-7.5`.

ghost use Rattle.std.specs.Prelude.{◌≡◌, ◌<◌, ℕ, true, false, All, IfOk, IfSome, OnOk, slice_index_or};
ghost use Rattle.shape_options.specs.Variations.{HasTagOf, HasTag, is_letter, behind_equals, begins_number, number_of};

use font_variations::user_variations::Variation;
use rb_common::Tag;
use std::alloc::{AllocError, Global};
use std::num::nearest_f64_to_f32_with_nan;

/// The variations of a list, which commas and spaces part, in their order. What reads as no variation is left out, as in
/// HarfBuzz's `hb-shape --variations`.
pub fn variations(alloc: Global, list: &str) -> Result<Vec<Variation>, AllocError>
    ensures { IfOk result (λ variations. All HasTag variations.items) }
{
    let mut variations = Vec::new(alloc);
    let parts: Vec<&str> = list.split([',', ' ']).collect(alloc)?;
    for part in parts.as_slice() {
        push_variation(&mut variations, part)?;
    }
    Ok(variations)
}

/// Adds the variation that a text reads as, if it reads as one.
fn push_variation(variations: &mut Vec<Variation>, text: &str) -> Result<(), AllocError>
    ensures { OnOk result (All HasTag variations.old.items → All HasTag variations.new.items) }
{
    if let Some(variation) = variation(text) {
        variations.push(variation)?;
    }
    Ok(())
}

/// The variation that a text reads as: a tag of one to four letters, digits and `_`, an equals sign or nothing, and a number.
fn variation(text: &str) -> Option<Variation>
    ensures { IfSome result (HasTagOf text.now) }
{
    let (tag, rest) = text.split_at_checked(tag_len(text.as_bytes()))?;
    if tag.is_empty() || tag.len() > 4 {
        return None;
    }
    Some(Variation {
        tag: Tag::from_bytes_lossy(tag.as_bytes()),
        value: value(behind_equals(rest)?)?,
    })
}

/// What a text has behind an equals sign, or all of it where it begins with none.
fn behind_equals(text: &str) -> Option<&str>
    ensures { IfSome result (λ rest. rest.now ≡ behind_equals text.now) }
{
    match text.as_bytes() {
        [b'=', ..] => text.get(1..),
        _ => Some(text),
    }
}

/// How many letters a text begins with that a tag may have.
fn tag_len(text: &[u8]) -> usize
    ensures letters { (k : ℕ) → k < result → is_letter (slice_index_or text.now k 0) ≡ true }
    ensures ends { is_letter (slice_index_or text.now result 0) ≡ false }
{
    let mut len = 0;
    while len < text.len() && is_letter(text[len]) {
        len += 1;
    }
    len
}

/// Whether a tag may have this letter, digit or `_`.
fn is_letter(letter: u8) -> bool
    ensures { result ≡ is_letter letter }
{
    letter.is_ascii_alphanumeric() || letter == b'_'
}

/// The number that a text reads as, in digits, with a sign, a fraction and an exponent or without.
#[tactic(auto, unfolding(crate::specs::Variations::number_of))]
pub fn value(text: &str) -> Option<f32>
    ensures { result ≡ number_of text.now }
{
    if !begins_number(text.as_bytes()) {
        return None;
    }
    match text.parse::<f64>() {
        Ok(number) => Some(nearest_f64_to_f32_with_nan(number)),
        Err(_) => None,
    }
}

/// Whether a text begins with a digit or a point, behind a sign or with none.
fn begins_number(text: &[u8]) -> bool
    ensures { result ≡ begins_number text.now }
{
    match text {
        [b'+' | b'-', first, ..] | [first, ..] => first.is_ascii_digit() || *first == b'.',
        [] => false,
    }
}
