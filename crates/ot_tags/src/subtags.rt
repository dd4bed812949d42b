//! How a language is cut into its subtags.
ghost use Rattle.std.specs.Prelude.{◌≡◌, ◌<◌, ◌≤◌, length, take};
ghost use Rattle.std.specs.List.{position_or_len};
ghost use Rattle.std.specs.Str.{bytes_eq};
ghost use Rattle.rb_text.specs.LanguageCut.{before_singleton, is_hyphen};
ghost use Rattle.ot_tags.specs.Subtags.{behind_first, first_subtag, has_subtag, prefix_of};

/// The part of a language that says which language it is: what stands before the `-` of the first singleton, or all. What is all for
/// private use has no such part.
#[tactic(auto, unfolding(crate::specs::Subtags::prefix_of))]
pub(crate) fn prefix(language: &[u8]) -> &[u8]
    ensures { result.now ≡ prefix_of language.now }
{
    if language.starts_with(b"x-") {
        return &[];
    }
    &language[..before_singleton(language)]
}

/// How many bytes stand before the `-` of the first singleton, or how many there are.
fn before_singleton(text: &[u8]) -> usize
    ensures cut { take result text.now ≡ before_singleton text.now }
    ensures within { result ≤ length text.now }
{
    for i in 1..text.len().saturating_sub(2) {
        if text[i] == b'-' && text[i + 2] == b'-' {
            return i;
        }
    }
    text.len()
}

/// What stands before the first `-`, and what stands behind it. Where there is none, all stands before it.
#[tactic(auto, unfolding(crate::specs::Subtags::first_subtag, crate::specs::Subtags::behind_first))]
pub(crate) fn first_subtag(text: &[u8]) -> (&[u8], &[u8])
    ensures first { result.0.now ≡ first_subtag text.now }
    ensures behind { result.1.now ≡ behind_first text.now }
{
    let len = first_subtag_len(text);
    if len < text.len() {
        (&text[..len], &text[len + 1..])
    } else {
        (text, &[])
    }
}

/// How many bytes stand before the first `-`, or how many there are.
fn first_subtag_len(text: &[u8]) -> usize
    ensures { result ≡ position_or_len is_hyphen text.now }
{
    text.iter().take_while(|b| **b != b'-').count()
}

/// Whether a text is this one.
pub(crate) fn is_same(text: &[u8], other: &[u8]) -> bool
    ensures { result ≡ bytes_eq text.now other.now }
{
    text == other
}

/// Whether one of the subtags is this one.
#[tactic(auto, using(crate::proofs::SubtagLemmas::has_first, crate::proofs::SubtagLemmas::has_subtag_behind, crate::proofs::SubtagLemmas::has_none, crate::proofs::SubtagLemmas::behind_shorter))]
pub(crate) fn has_subtag(subtags: &[u8], subtag: &[u8]) -> bool
    requires { 0 < length subtag.now }
    ensures { result ≡ has_subtag subtags.now subtag.now }
{
    let mut rest = subtags;
    while !rest.is_empty() {
        let (first, behind) = first_subtag(rest);
        if is_same(first, subtag) {
            return true;
        }
        rest = behind;
    }
    false
}
