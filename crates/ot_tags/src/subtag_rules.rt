//! The tags that follow from more than the first subtag of a language.
ghost use Rattle.std.specs.Prelude.{◌≡◌};
ghost use Rattle.std.specs.List.{list_any};
ghost use Rattle.std.specs.Str.{bytes_eq};
ghost use Rattle.ot_tags.specs.SubtagRules.{is_chinese, tags_if, tags_of_chinese, tags_of_chinese_region};
ghost use Rattle.ot_tags.specs.SubtagRules.{tags_of_name, tags_of_region, tags_of_traditional, tags_of_variant};

use crate::subtags::{first_subtag, has_subtag, is_same};
use crate::tags_of_language::LanguageTags;

/// Chinese, and the languages of China that are written as it is.
static CHINESE: [&str; 15] = [
    "zh", "cdo", "cjy", "cmn", "cnp", "cpx", "csp", "czh", "czo", "gan", "hak", "hsn", "mnp",
    "nan", "wuu",
];

/// The tags of a variant or a script that has one of its own in any language, from the subtags behind the first.
#[tactic(auto, unfolding(crate::specs::SubtagRules::tags_of_variant))]
pub(crate) fn tags_of_variant(subtags: &[u8]) -> Option<LanguageTags>
    ensures { result ≡ tags_of_variant subtags.now }
{
    if has_subtag(subtags, b"fonnapa") {
        Some(LanguageTags::one(b"APPH"))
    } else if has_subtag(subtags, b"polyton") {
        Some(LanguageTags::one(b"PGR "))
    } else if has_subtag(subtags, b"arevmda") {
        Some(LanguageTags::one(b"HYE "))
    } else if has_subtag(subtags, b"provenc") {
        Some(LanguageTags::one(b"PRO "))
    } else if has_subtag(subtags, b"fonipa") {
        Some(LanguageTags::one(b"IPPH"))
    } else if has_subtag(subtags, b"geok") {
        Some(LanguageTags::one(b"KGE "))
    } else if has_subtag(subtags, b"syre") {
        Some(LanguageTags::one(b"SYRE"))
    } else if has_subtag(subtags, b"syrj") {
        Some(LanguageTags::one(b"SYRJ"))
    } else if has_subtag(subtags, b"syrn") {
        Some(LanguageTags::one(b"SYRN"))
    } else {
        None
    }
}

/// The tags of a whole name that BCP 47 keeps from before it had subtags.
#[tactic(auto, unfolding(crate::specs::SubtagRules::tags_of_name))]
pub(crate) fn tags_of_name(language: &[u8]) -> Option<LanguageTags>
    ensures { result ≡ tags_of_name language.now }
{
    if is_same(language, b"art-lojban") {
        Some(LanguageTags::one(b"JBO "))
    } else if is_same(language, b"i-hak") {
        Some(LanguageTags::one(b"ZHS "))
    } else if is_same(language, b"i-lux") {
        Some(LanguageTags::one(b"LTZ "))
    } else if is_same(language, b"i-navajo") {
        Some(LanguageTags::two(b"NAV ", b"ATH "))
    } else if is_same(language, b"no-bok") {
        Some(LanguageTags::one(b"NOR "))
    } else if is_same(language, b"no-nyn") {
        Some(LanguageTags::one(b"NYN "))
    } else if is_same(language, b"zh-min") {
        Some(LanguageTags::one(b"ZHS "))
    } else if is_same(language, b"zh-min-nan") {
        Some(LanguageTags::one(b"ZHS "))
    } else {
        None
    }
}

/// Tags that a language has where it passes a test.
fn tags_if(test: bool, tags: LanguageTags) -> Option<LanguageTags>
    ensures { result ≡ tags_if test tags }
{
    if test { Some(tags) } else { None }
}

/// The tags of a language with a script or a region beside it.
#[tactic(auto, unfolding(crate::specs::SubtagRules::tags_of_region))]
pub(crate) fn tags_of_region(language: &[u8], subtags: &[u8]) -> Option<LanguageTags>
    ensures { result ≡ tags_of_region language.now subtags.now }
{
    let (script, _) = first_subtag(subtags);
    if is_same(language, b"lzh") {
        tags_if(is_same(script, b"hans"), LanguageTags::one(b"ZHS "))
    } else if is_same(language, b"yue") {
        tags_if(is_same(script, b"hans"), LanguageTags::one(b"ZHS "))
    } else if is_same(language, b"ga") {
        tags_if(is_same(script, b"latg"), LanguageTags::one(b"IRT "))
    } else if is_same(language, b"mnw") {
        tags_if(has_subtag(subtags, b"th"), LanguageTags::one(b"MONT"))
    } else if is_same(language, b"ro") {
        tags_if(
            has_subtag(subtags, b"md"),
            LanguageTags::two(b"MOL ", b"ROM "),
        )
    } else if is_chinese(language) {
        tags_of_chinese(subtags)
    } else {
        None
    }
}

/// Whether a language is one of those with these names.
fn is_one_of(names: &[&str], language: &[u8]) -> bool
    ensures { result ≡ list_any (λ name. bytes_eq name.now language.now) names.now }
{
    names.iter().any(|name| is_same(name.as_bytes(), language))
}

/// Whether a language is Chinese, or one of the languages of China that are written as it is.
#[tactic(auto, unfolding(crate::specs::SubtagRules::is_chinese))]
fn is_chinese(language: &[u8]) -> bool
    ensures { result ≡ is_chinese language.now }
{
    is_one_of(&CHINESE, language)
}

/// The tags of Chinese, by its script and its region. The script right behind the language decides.
#[tactic(auto, unfolding(crate::specs::SubtagRules::tags_of_chinese))]
fn tags_of_chinese(subtags: &[u8]) -> Option<LanguageTags>
    ensures { result ≡ tags_of_chinese subtags.now }
{
    let (script, behind) = first_subtag(subtags);
    let (region, _) = first_subtag(behind);
    if is_same(script, b"hant") {
        Some(tags_of_traditional(region))
    } else if is_same(script, b"hans") {
        Some(LanguageTags::one(b"ZHS "))
    } else {
        tags_of_chinese_region(subtags)
    }
}

/// The tags of Chinese in the traditional script: those of Hong Kong or Macao where that is right behind the script.
#[tactic(auto, unfolding(crate::specs::SubtagRules::tags_of_traditional))]
fn tags_of_traditional(region: &[u8]) -> LanguageTags
    ensures { result ≡ tags_of_traditional region.now }
{
    if is_same(region, b"hk") {
        LanguageTags::one(b"ZHH ")
    } else if is_same(region, b"mo") {
        LanguageTags::two(b"ZHTM", b"ZHH ")
    } else {
        LanguageTags::one(b"ZHT ")
    }
}

/// The tags of Chinese, by its region alone.
#[tactic(auto, unfolding(crate::specs::SubtagRules::tags_of_chinese_region))]
fn tags_of_chinese_region(subtags: &[u8]) -> Option<LanguageTags>
    ensures { result ≡ tags_of_chinese_region subtags.now }
{
    if has_subtag(subtags, b"hk") {
        Some(LanguageTags::one(b"ZHH "))
    } else if has_subtag(subtags, b"mo") {
        Some(LanguageTags::two(b"ZHTM", b"ZHH "))
    } else if has_subtag(subtags, b"tw") {
        Some(LanguageTags::one(b"ZHT "))
    } else {
        None
    }
}
