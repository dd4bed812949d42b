//! The canonical decomposition of a character in one step, found from the full one.
ghost use Rattle.std.specs.Prelude.{◌≡◌, ◌<◌, nat_eq, find, length};
ghost use Rattle.std.specs.Cmp.Lexicographic.{pointwise};
ghost use Rattle.ucd_normal.specs.Decomposition.{canonical_mapping, canonical_decomposition};
ghost use Rattle.ucd_normal.specs.Composition.{composite};
ghost use Rattle.unicode_tables.specs.Mapping.{parts_of, whole_of, heads, head_of, pair_of, step_of};

use ucd_normal::{canonical_decomposition, composite};

/// The characters that no pair composes to and that are the first part of another one's decomposition.
static HEADS: [char; 4] = ['\u{fb49}', '\u{1d15f}', '\u{1d1bb}', '\u{1d1bc}'];

/// The character that the characters compose to, taken from the first on.
fn whole_of(chars: &[char]) -> Option<char>
    ensures { result ≡ whole_of composite chars.now }
{
    let (first, rest) = chars.split_first()?;
    let mut whole = *first;
    for c in rest {
        whole = composite(whole, *c)?;
    }
    Some(whole)
}

/// The first of `HEADS` that decomposes to these characters.
fn listed_head(chars: &[char]) -> Option<char>
    ensures { result ≡ find (λ h. pointwise nat_eq (canonical_decomposition h) chars.now) heads }
{
    HEADS
        .iter()
        .copied()
        .find(|head| canonical_decomposition(*head) == chars)
}

/// The character that decomposes to these characters.
fn head_of(chars: &[char]) -> Option<char>
    ensures { result ≡ head_of composite canonical_decomposition chars.now }
{
    match whole_of(chars) {
        Some(whole) => Some(whole),
        None => listed_head(chars),
    }
}

/// The last character, behind the one that the others are the decomposition of.
fn pair_of(full: &[char]) -> Option<(char, Option<char>)>
    requires { 0 < length full.now }
    ensures { result ≡ pair_of composite canonical_decomposition full.now }
{
    let last = full.len() - 1;
    let second = full[last];
    head_of(&full[..last]).map(|head| (head, Some(second)))
}

/// The parts of a character in one step, from its full decomposition.
fn step_of(c: char, full: &[char]) -> Option<(char, Option<char>)>
    ensures { result ≡ step_of composite canonical_decomposition c full.now }
{
    if full.is_empty() {
        return None;
    }
    match whole_of(full) {
        None => pair_of(full),
        Some(whole) if whole == c => pair_of(full),
        Some(whole) => Some((whole, None)),
    }
}

/// The parts that the character decomposes to in one step: the first, and the second if there are two.
pub(crate) fn mapping(c: char) -> Option<(char, Option<char>)>
    ensures { result ≡ parts_of (canonical_mapping c) }
{
    step_of(c, canonical_decomposition(c))
}
