//! The rows of each table.
ghost use Rattle.std.specs.Prelude.{◌≡◌, ℕ, ◌==◌, ◌<◌, IsTrue, IfOk, OnErr, find, length};
ghost use Rattle.std.specs.Char.{IsScalar};
ghost use Rattle.std.specs.BTreeMap.{IsOrdered};
ghost use Rattle.rb_glyph.proofs.RisingRows.{pair_cmp};
ghost use Rattle.rb_glyph.specs.Rows.{keys_rise};
ghost use Rattle.rb_glyph.specs.Tables.{decompositions_rise, pairs_rise, composition_of};
ghost use Rattle.ucd_normal.specs.Composition.{composite};
ghost use Rattle.unicode_tables.specs.Rows.{class_row, decomposition_row, composed_parts, pair_of};
ghost use Rattle.unicode_tables.specs.Rows.{HasClasses, HasDecompositions, HasCompositions};

use crate::mapping::mapping;
use std::alloc::{AllocError, Global};
use std::collections::BTreeMap;
use ucd_normal::{canonical_combining_class, composite};

/// One more than the greatest code point.
const CODE_POINTS: u32 = 0x11_0000;

/// The row of a character that has a class other than 0.
fn class_row(c: char) -> Option<(char, u8)>
    ensures { result ≡ class_row c }
{
    let class = canonical_combining_class(c);
    if class == 0 { None } else { Some((c, class)) }
}

/// The row of a character that has a canonical decomposition.
fn decomposition_row(c: char) -> Option<(char, char, Option<char>)>
    ensures { result ≡ decomposition_row c }
{
    mapping(c).map(|parts| (c, parts.0, parts.1))
}

/// The rows of `CombiningClasses`: each character with a class other than 0. Memory is asked for where there is a row.
pub fn combining_classes(alloc: Global) -> Result<Vec<(char, u8)>, AllocError>
    ensures rises { IfOk result (λ rows. IsTrue (keys_rise rows.items)) }
    ensures exact { IfOk result (λ rows. (c : ℕ) → IsScalar c
        → find (λ row. row.0 == c) rows.items ≡ class_row c) }
    ensures memory { OnErr result HasClasses }
{
    let mut rows = Vec::new(alloc);
    for code in 0..CODE_POINTS {
        if let Some(c) = char::from_u32(code) {
            if let Some(row) = class_row(c) {
                rows.push(row)?;
            }
        }
    }
    Ok(rows)
}

/// The rows of `Decompositions`: each character with a canonical decomposition, and its parts in one step. Memory is asked
/// for where there is a row.
pub fn decompositions(alloc: Global) -> Result<Vec<(char, char, Option<char>)>, AllocError>
    ensures rises { IfOk result (λ rows. IsTrue (decompositions_rise rows.items)) }
    ensures exact { IfOk result (λ rows. (c : ℕ) → IsScalar c
        → find (λ row. row.0 == c) rows.items ≡ decomposition_row c) }
    ensures memory { OnErr result HasDecompositions }
{
    let mut rows = Vec::new(alloc);
    for code in 0..CODE_POINTS {
        if let Some(c) = char::from_u32(code) {
            if let Some(row) = decomposition_row(c) {
                rows.push(row)?;
            }
        }
    }
    Ok(rows)
}

/// The two parts, if they compose to the character.
fn composed_parts(c: char, parts: Option<(char, Option<char>)>) -> Option<(char, char)>
    ensures { result ≡ composed_parts c parts }
{
    match parts {
        Some((a, Some(b))) => {
            if composite(a, b) == Some(c) {
                Some((a, b))
            } else {
                None
            }
        }
        _ => None,
    }
}

/// The pair that composes to the character.
fn pair_of(c: char) -> Option<(char, char)>
    ensures { result ≡ pair_of c }
{
    composed_parts(c, mapping(c))
}

/// The entries of a map, in the order of their pairs. An empty map takes no memory.
fn entries(
    alloc: Global,
    pairs: BTreeMap<(char, char), char>,
) -> Result<Vec<((char, char), char)>, AllocError>
    ensures items { IfOk result (λ rows. rows.items ≡ pairs.entries) }
    ensures ordered { IsOrdered pair_cmp pairs }
    ensures memory { OnErr result (0 < length pairs.entries) }
{
    if pairs.is_empty() {
        return Ok(Vec::new(alloc));
    }
    pairs.into_iter().collect(alloc)
}

/// The rows of `Compositions`: each pair that composes, and the character that it composes to. Memory is asked for where
/// there is a row.
pub fn compositions(alloc: Global) -> Result<Vec<((char, char), char)>, AllocError>
    ensures rises { IfOk result (λ rows. IsTrue (pairs_rise rows.items)) }
    ensures exact { IfOk result (λ rows. (a b : ℕ) → composition_of a b rows.items ≡ composite a b) }
    ensures memory { OnErr result HasCompositions }
{
    let mut pairs = BTreeMap::new(alloc);
    for code in 0..CODE_POINTS {
        if let Some(c) = char::from_u32(code) {
            if let Some(pair) = pair_of(c) {
                let _ = pairs.insert(pair, c)?;
            }
        }
    }
    let rows = entries(alloc, pairs)?;
    Ok(rows)
}
