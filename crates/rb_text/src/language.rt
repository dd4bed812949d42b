//! Languages, named by tags of BCP 47.
ghost use Rattle.std.specs.Prelude.{◌≡◌, ◌↔◌, ◌<◌, [], length, map, IfOk, IsErrOf};
ghost use Rattle.std.specs.Char.{to_ascii_lowercase};

use std::alloc::Global;
use std::hash::{Hash, Hasher};
use std::marker::Model;
use thiserror::Error;

/// A language tag of BCP 47 (`en`, `zh-Hant`), with its ASCII letters made small. Nothing else of
/// the tag's form is checked. A contract sees a language as its bytes.
#[derive(Debug, Drop)]
pub struct Language(String);

impl Model for Language {
    ghost use Rattle.std.specs.Prelude.{ℕ, List, string_bytes};

    ghost Value = { List ℕ };

    ghost view = { λ l. string_bytes l.0 };
}

/// Why a text is no language.
#[derive(Clone, Copy, PartialEq, Eq, Debug, Error)]
pub enum LanguageError {
    /// The text is empty.
    #[error("invalid language")]
    Invalid = 1,
    /// There is no memory for a copy of the text.
    #[error("out of memory")]
    Memory = 2,
}

impl Language {
    /// The language of a text, with its ASCII letters made small.
    ///
    /// The empty text is refused with [`LanguageError::Invalid`]. For any other,
    /// [`LanguageError::Memory`] says that there is no memory for a copy; nothing of the text is kept
    /// then.
    pub fn from_str(alloc: Global, text: &str) -> Result<Self, LanguageError>
        ensures value { IfOk result (λ language. language ≡ map to_ascii_lowercase text.now) }
        ensures invalid { IsErrOf result LanguageError.Invalid ↔ (text.now ≡ []) }
        ensures memory { IsErrOf result LanguageError.Memory → 0 < length text.now }
    {
        if text.is_empty() {
            return Err(LanguageError::Invalid);
        }
        match text.to_ascii_lowercase(alloc) {
            Ok(lowercase) => Ok(Language(lowercase)),
            Err(_) => Err(LanguageError::Memory),
        }
    }

    /// The text of the language.
    pub fn as_str(&self) -> &str
        ensures { result.now ≡ self.now }
    {
        self.0.as_str()
    }
}

impl PartialEq for Language {
    ghost use Rattle.std.specs.Cmp.{partial_equiv_from_equiv};
    ghost use Rattle.std.specs.Cmp.Lexicographic.{nat_list_eq_equiv};
    ghost use Rattle.std.specs.Str.{bytes_eq};

    ghost eq = { bytes_eq };

    ghost laws = { partial_equiv_from_equiv nat_list_eq_equiv };

    fn eq(&self, other: &Self) -> bool {
        self.as_str() == other.as_str()
    }
}

impl Eq for Language {
    ghost use Rattle.std.specs.Cmp.Lexicographic.{nat_list_eq_equiv};

    ghost laws = { nat_list_eq_equiv };
}

impl Hash for Language {
    ghost use Rattle.std.specs.Hash as fed;
    ghost use Rattle.std.specs.Cmp.Rules.{hashing};
    ghost use Rattle.std.proofs.Common.{rules};

    ghost hash_input = { fed.str };

    ghost respects_eq = { Prim.search (hashing, rules) };

    fn hash<H: Hasher>(&self, state: &mut H) {
        self.as_str().hash(state);
    }
}
