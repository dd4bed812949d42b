//! The tags of one language.
ghost use Rattle.std.specs.Prelude.{◌≡◌, ◌∷◌, []};
ghost use Rattle.std.specs.Option.{option_copied};
ghost use Rattle.rb_common.specs.Tag.{tag_of};
ghost use Rattle.ot_tags.specs.LanguageTags.{looked_up, tags_of};
ghost use Rattle.ot_tags.specs.Subtags.{extended_language};

use crate::registry::{own_tag, registered_tags};
use crate::subtag_rules::{tags_of_name, tags_of_region, tags_of_variant};
use crate::subtags::{first_subtag, prefix};
use rb_text::{ComplexLanguages, Language, Tag, ThreeTags};
use std::marker::Model;

/// The least length of a prefix whose second subtag can be an extended language.
const EXTENDED_PREFIX_MIN: usize = 6;

/// The OpenType tags of one language, which are looked up once: up to three, the best first.
///
/// `tags_from_script_and_language` takes it for that language, and needs no table beside it. A contract sees the
/// numbers of the tags.
#[derive(Drop)]
pub struct LanguageTags {
    pub(crate) first: Option<Tag>,
    pub(crate) second: Option<Tag>,
    pub(crate) third: Option<Tag>,
}

impl Model for LanguageTags {
    ghost use Rattle.std.specs.Prelude.{◌++◌, ℕ, List, map, option_to_list};

    ghost Value = { List ℕ };

    ghost view = { λ t. map (λ tag. tag.0) (option_to_list t.first
        ++ option_to_list t.second ++ option_to_list t.third) };
}

impl LanguageTags {
    /// The tags of a language, which has none where it is unknown. Of its subtags those before the first singleton count, in the
    /// order of HarfBuzz:
    ///
    /// - a variant or a script that has a tag of its own (`polyton`, `syrj`);
    /// - a whole name that BCP 47 keeps from before it had subtags (`art-lojban`);
    /// - the script or the region beside the language (`zh-hant-hk`, `ro-md`);
    /// - the extended language, or else the first subtag, in the registry;
    /// - a first subtag of three letters itself, in capitals.
    #[tactic(auto, unfolding(crate::specs::LanguageTags::tags_of, crate::specs::LanguageTags::tags_of_language))]
    pub fn of(language: Option<&Language>) -> Self
        ensures { result ≡ tags_of (option_copied language.entry) }
    {
        let Some(language) = language else {
            return LanguageTags::none();
        };
        let whole = language.as_str().as_bytes();
        let prefix = prefix(whole);
        let (first, rest) = first_subtag(prefix);
        tags_of_variant(rest)
            .or(tags_of_name(whole))
            .or(tags_of_region(first, rest))
            .unwrap_or(looked_up(prefix, first, rest))
    }

    /// No tag.
    pub(crate) fn none() -> Self
        ensures { result ≡ [] }
    {
        LanguageTags {
            first: None,
            second: None,
            third: None,
        }
    }

    /// One tag.
    pub(crate) fn one(tag: &[u8; 4]) -> Self
        ensures { result ≡ tag_of tag.now ∷ [] }
    {
        LanguageTags {
            first: Some(Tag::from_bytes(tag)),
            second: None,
            third: None,
        }
    }

    /// Two tags.
    pub(crate) fn two(first: &[u8; 4], second: &[u8; 4]) -> Self
        ensures { result ≡ tag_of first.now ∷ tag_of second.now ∷ [] }
    {
        LanguageTags {
            first: Some(Tag::from_bytes(first)),
            second: Some(Tag::from_bytes(second)),
            third: None,
        }
    }
}

impl ComplexLanguages for LanguageTags {
    ghost use Rattle.std.specs.Prelude.{Some};

    ghost cases = { λ language prefix. Some language };

    fn tags(&self, _prefix: &str) -> Option<ThreeTags> {
        let mut tags = ThreeTags::new();
        if let Some(tag) = self.first {
            tags.push(tag);
        }
        if let Some(tag) = self.second {
            tags.push(tag);
        }
        if let Some(tag) = self.third {
            tags.push(tag);
        }
        Some(tags)
    }
}

/// The tags of an extended language, where there is one, or else of the first subtag. A first subtag of three letters that the
/// registry does not have is its own tag.
#[tactic(auto, unfolding(crate::specs::LanguageTags::looked_up))]
fn looked_up(prefix: &[u8], first: &[u8], rest: &[u8]) -> LanguageTags
    ensures { result ≡ looked_up prefix.now first.now rest.now }
{
    match extended_language(prefix, rest) {
        Some(extended) => registered_tags(extended).unwrap_or(LanguageTags::none()),
        None => registered_tags(first).unwrap_or(own_tag(first)),
    }
}

/// A second subtag of three letters, where the prefix is long enough.
#[tactic(auto, unfolding(crate::specs::Subtags::extended_language))]
fn extended_language<'a>(prefix: &[u8], rest: &'a [u8]) -> Option<&'a [u8]>
    ensures { option_copied result ≡ extended_language prefix.now rest.now }
{
    if prefix.len() < EXTENDED_PREFIX_MIN {
        return None;
    }
    let (second, _) = first_subtag(rest);
    match *second {
        [a, _, _] if a.is_ascii_alphabetic() => Some(second),
        _ => None,
    }
}
