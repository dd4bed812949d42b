//! What is asked of no text: features, tags of scripts and languages, and how characters compose and decompose.

ghost use Rattle.std.specs.Prelude.{◌≡◌, ◌++◌, ◌∷◌, ℕ, Some, None, IfOk, OnOk, OnErr, string_bytes, map, option_copied};
ghost use Rattle.std.specs.Prelude.{option_map};
ghost use Rattle.std.specs.Char.{to_ascii_lowercase};
ghost use Rattle.rb_text.specs.declared.feature.Feature.{Feature};
ghost use Rattle.rb_text.specs.Feature.{ReadsAs};
ghost use Rattle.rb_glyph.specs.Hangul.{HangulComposes};
ghost use Rattle.shaping_session.specs.Replies.{reply_text};
ghost use Rattle.shaping_session.specs.Queries.{eight_digits, feature_text, AnswersFeature, AnswersCompose};
ghost use Rattle.shaping_session.specs.Queries.{AnswersDecompose, spaced_tags, tag_lists_text, tags_text};

use crate::reply::Reply;
use rb_glyph::{Compositions, Decompositions};
use rb_text::{
    Feature, Language, LanguageTable, NoComplexLanguages, Script, Tag,
    tags_from_script_and_language,
};
use std::alloc::{AllocError, Global};
use std::fmt::Write;

/// The feature that a text reads as: its tag in hexadecimal digits, its value, its start and its end. A text that is none
/// takes no memory.
pub fn feature(alloc: Global, text: &str) -> Result<Reply, AllocError>
    ensures answer { IfOk result (λ reply. AnswersFeature text.now (reply_text reply)) }
    ensures memory { OnErr result ((f : Feature) × ReadsAs text.now f) }
{
    match text.parse::<Feature>() {
        Ok(feature) => Ok(Reply::Text(print_feature(alloc, feature)?)),
        Err(_) => Ok(Reply::Word("invalid feature")),
    }
}

fn print_feature(alloc: Global, feature: Feature) -> Result<String, AllocError>
    ensures { IfOk result (λ text. string_bytes text ≡ feature_text feature) }
{
    let tag = print_tag(alloc, feature.tag.as_u32())?;
    let value = feature.value;
    let start = feature.start;
    let end = feature.end;
    Ok(format!(in alloc; "{tag} {value} {start} {end}")?)
}

fn print_tag(alloc: Global, tag: u32) -> Result<String, AllocError>
    ensures { IfOk result (λ text. string_bytes text ≡ eight_digits tag) }
{
    Ok(format!(in alloc; "{tag:08x}")?)
}

/// The OpenType tags of a script and of a language, in hexadecimal digits. The table has one row, and no language is a
/// complex case.
pub fn tags(
    alloc: Global,
    script: Option<Script>,
    language: Option<&str>,
) -> Result<Reply, AllocError>
    ensures { IfOk result (λ reply. reply_text reply
        ≡ tags_text script (option_copied language.entry)) }
{
    let language = language_of(alloc, language)?;
    let rows = [("ml", Tag::from_bytes(b"MAL "))];
    let Some(table) = LanguageTable::new(&rows) else {
        return Ok(Reply::none());
    };
    let (scripts, languages) = tags_from_script_and_language(
        script,
        language.as_ref(),
        &table,
        &NoComplexLanguages,
    );
    let text = print_tag_lists(alloc, scripts.as_slice(), languages.as_slice())?;
    Ok(Reply::Text(text))
}

/// The language of a text. The word of a line is not empty, so only memory can be wanting.
fn language_of(alloc: Global, text: Option<&str>) -> Result<Option<Language>, AllocError>
    ensures { IfOk result (λ language.
        language ≡ option_map (λ t. map to_ascii_lowercase t) (option_copied text.entry)) }
{
    let Some(text) = text else {
        return Ok(None);
    };
    match Language::from_str(alloc, text) {
        Ok(language) => Ok(Some(language)),
        Err(_) => Err(AllocError),
    }
}

/// The tags of a script, and those of a language.
fn print_tag_lists(alloc: Global, scripts: &[Tag], languages: &[Tag]) -> Result<String, AllocError>
    ensures { IfOk result (λ text. string_bytes text
        ≡ tag_lists_text (map (λ tag. tag.0) scripts.now) (map (λ tag. tag.0) languages.now)) }
{
    let scripts = print_tags(alloc, scripts)?;
    let languages = print_tags(alloc, languages)?;
    Ok(format!(in alloc; "scripts{scripts} languages{languages}")?)
}

/// Tags, each with a space before it.
fn print_tags(alloc: Global, tags: &[Tag]) -> Result<String, AllocError>
    ensures { IfOk result (λ text. string_bytes text ≡ spaced_tags (map (λ tag. tag.0) tags.now)) }
{
    let mut text = String::new(alloc);
    for tag in tags {
        write_tag(alloc, &mut text, tag.as_u32())?;
    }
    Ok(text)
}

fn write_tag(alloc: Global, text: &mut String, tag: u32) -> Result<(), AllocError>
    ensures { OnOk result (string_bytes text.new ≡ string_bytes text.old ++ 32 ∷ eight_digits tag) }
{
    let tag = print_tag(alloc, tag)?;
    write!(text, " {tag}")
}

/// The character that two characters compose to by the rule of Hangul alone, in hexadecimal digits. Two that do not compose
/// take no memory.
pub fn compose(alloc: Global, a: char, b: char) -> Result<Reply, AllocError>
    ensures answer { IfOk result (λ reply. AnswersCompose a b (reply_text reply)) }
    ensures memory { OnErr result (¬ ((s : ℕ) → ¬ HangulComposes s a b)) }
{
    let Some(c) = composed(a, b) else {
        return Ok(Reply::none());
    };
    let c = u32::from(c);
    Ok(Reply::Text(format!(in alloc; "{c:x}")?))
}

/// The two characters that a character decomposes to by the rule of Hangul alone, in hexadecimal digits. One that does not
/// decompose takes no memory.
pub fn decompose(alloc: Global, c: char) -> Result<Reply, AllocError>
    ensures answer { IfOk result (λ reply. AnswersDecompose c (reply_text reply)) }
    ensures memory { OnErr result (¬ ((a b : ℕ) → ¬ HangulComposes c a b)) }
{
    let Some((a, b)) = decomposed(c) else {
        return Ok(Reply::none());
    };
    let a = u32::from(a);
    let b = u32::from(b);
    Ok(Reply::Text(format!(in alloc; "{a:x} {b:x}")?))
}

/// What two characters compose to where no table has a row.
fn composed(a: char, b: char) -> Option<char>
    ensures hangul { (s : ℕ) → HangulComposes s a b → result ≡ Some s }
    ensures none { ((s : ℕ) → ¬ HangulComposes s a b) → result ≡ None }
{
    let table = Compositions::new(&[])?;
    rb_glyph::compose(&table, a, b)
}

/// What a character decomposes to where no table has a row.
fn decomposed(c: char) -> Option<(char, char)>
    ensures hangul { (a b : ℕ) → HangulComposes c a b → result ≡ Some (a, b) }
    ensures none { ((a b : ℕ) → ¬ HangulComposes c a b) → result ≡ None }
{
    let table = Decompositions::new(&[])?;
    rb_glyph::decompose(&table, c)
}
