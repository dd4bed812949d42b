//! Languages, and the OpenType tags of a script and a language.

use crate::beginning::begun_text;
use crate::scenario::{Lost, Scenario};
use rb_text::{
    Language, LanguageTable, NoComplexLanguages, Tag, ThreeTags, script,
    tags_from_script_and_language,
};
use shaping_buffer::UnicodeBuffer;
use std::alloc::Global;

/// A language is made of its text.
pub struct Made;

impl Scenario for Made {
    type Ready = ();

    fn name(&self) -> &str {
        "Language::from_str"
    }

    fn least(&self) -> u32 {
        1
    }

    fn prepare(&self, _alloc: Global) -> Result<(), Lost> {
        Ok(())
    }

    fn watch(&self, alloc: Global, _ready: ()) -> Result<(), Lost> {
        let language = match Language::from_str(alloc, "Ml-IN") {
            Ok(language) => language,
            Err(_) => Language::from_str(alloc, "Ml-IN")?,
        };
        if language.as_str() != "ml-in" {
            return Err(Lost::State);
        }
        Ok(())
    }
}

/// A text is given its language.
pub struct Told;

impl Scenario for Told {
    type Ready = (UnicodeBuffer, Language);

    fn name(&self) -> &str {
        "set_language"
    }

    fn least(&self) -> u32 {
        0
    }

    fn prepare(&self, alloc: Global) -> Result<(UnicodeBuffer, Language), Lost> {
        Ok((begun_text(alloc)?, Language::from_str(alloc, "ml")?))
    }

    fn watch(&self, _alloc: Global, ready: (UnicodeBuffer, Language)) -> Result<(), Lost> {
        let (mut text, language) = ready;
        text.set_language(language);
        match text.language() {
            Some(language) if language.as_str() == "ml" => Ok(()),
            _ => Err(Lost::State),
        }
    }
}

/// The tags of a script and a language.
pub struct Tags;

impl Scenario for Tags {
    type Ready = Language;

    fn name(&self) -> &str {
        "tags_from_script_and_language"
    }

    fn least(&self) -> u32 {
        0
    }

    fn prepare(&self, alloc: Global) -> Result<Language, Lost> {
        Ok(Language::from_str(alloc, "ml")?)
    }

    fn watch(&self, _alloc: Global, ready: Language) -> Result<(), Lost> {
        let Some((scripts, languages)) = tags_of(&ready) else {
            return Err(Lost::Refusal);
        };
        if are_tags(&scripts, &["mlm3", "mlm2", "mlym"]) && are_tags(&languages, &["MAL "]) {
            return Ok(());
        }
        Err(Lost::State)
    }
}

/// The tags of Malayalam's script and of a language.
fn tags_of(language: &Language) -> Option<(ThreeTags, ThreeTags)> {
    let rows = [("ml", Tag::from_bytes(b"MAL "))];
    let table = LanguageTable::new(&rows)?;
    Some(tags_from_script_and_language(
        Some(script::MALAYALAM),
        Some(language),
        &table,
        &NoComplexLanguages,
    ))
}

/// Whether these are the tags of these letters.
fn are_tags(tags: &ThreeTags, wanted: &[&str]) -> bool {
    tags.len() == wanted.len()
        && tags.iter().zip(wanted).all(|(tag, letters)| *tag
            == Tag::from_bytes_lossy(letters.as_bytes()))
}
