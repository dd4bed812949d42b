//! The rows of all three tables in one value.
ghost use Rattle.std.specs.Prelude.{◌≡◌, ◌⊎◌, ℕ, ◌==◌, IsTrue, OnErr, find};
ghost use Rattle.std.specs.Char.{IsScalar};
ghost use Rattle.rb_glyph.specs.Rows.{keys_rise};
ghost use Rattle.rb_glyph.specs.Tables.{decompositions_rise, pairs_rise, composition_of};
ghost use Rattle.ucd_normal.specs.Composition.{composite};
ghost use Rattle.unicode_tables.specs.Rows.{class_row, decomposition_row};
ghost use Rattle.unicode_tables.specs.Rows.{HasClasses, HasDecompositions, HasCompositions};

use crate::rows::{combining_classes, compositions, decompositions};
use rb_glyph::{CombiningClasses, Compositions, Decompositions};
use std::alloc::{AllocError, Global};

/// The rows of Unicode's tables, made once, and the tables over them.
#[derive(Drop)]
pub struct UnicodeRows {
    classes: Vec<(char, u8)>,
    decompositions: Vec<(char, char, Option<char>)>,
    compositions: Vec<((char, char), char)>,
    ghost classes_rise: { IsTrue (keys_rise classes.items) },
    ghost classes_exact: { (c : ℕ) → IsScalar c
        → find (λ row. row.0 == c) classes.items ≡ class_row c },
    ghost decompositions_rise: { IsTrue (decompositions_rise decompositions.items) },
    ghost decompositions_exact: { (c : ℕ) → IsScalar c
        → find (λ row. row.0 == c) decompositions.items ≡ decomposition_row c },
    ghost compositions_rise: { IsTrue (pairs_rise compositions.items) },
    ghost compositions_exact: { (a b : ℕ) → composition_of a b compositions.items ≡ composite a b },
}

impl UnicodeRows {
    /// The rows of the Unicode Character Database. It fails only where memory runs out for a row of one of them.
    pub fn new(alloc: Global) -> Result<Self, AllocError>
        ensures memory { OnErr result (HasClasses ⊎ (HasDecompositions ⊎ HasCompositions)) }
    {
        let classes = combining_classes(alloc)?;
        let decompositions = decompositions(alloc)?;
        let compositions = compositions(alloc)?;
        Ok(UnicodeRows {
            classes,
            decompositions,
            compositions,
        })
    }

    /// The combining classes: each character with a class other than 0.
    pub fn classes(&self) -> CombiningClasses<'_>
        ensures { (c : ℕ) → IsScalar c → find (λ row. row.0 == c) result ≡ class_row c }
    {
        CombiningClasses::new(self.classes.as_slice()).unwrap()
    }

    /// The canonical decompositions, in one step.
    pub fn decompositions(&self) -> Decompositions<'_>
        ensures { (c : ℕ) → IsScalar c → find (λ row. row.0 == c) result ≡ decomposition_row c }
    {
        Decompositions::new(self.decompositions.as_slice()).unwrap()
    }

    /// The primary composites, except those of Hangul.
    pub fn compositions(&self) -> Compositions<'_>
        ensures { (a b : ℕ) → composition_of a b result ≡ composite a b }
    {
        Compositions::new(self.compositions.as_slice()).unwrap()
    }
}
