//! Command lines that standard input holds, one in a line.

ghost use Rattle.std.specs.Prelude.{◌≡◌, ◌∷◌, ◌++◌, map, [], IfOk, OnOk, if◌then◌else◌};
ghost use Rattle.std.specs.List.{slice_split};
ghost use Rattle.shape_options.specs.Batch.{batch_words, is_semicolon, is_word, words_of};

use std::alloc::{AllocError, Global};

/// The words of a line of a batch, behind the name of the program. One or more semicolons part them.
pub fn words_of_line<'a>(
    alloc: Global,
    name: &'a str,
    line: &'a str,
) -> Result<Vec<&'a str>, AllocError>
    ensures { IfOk result (λ words.
        map (λ word. word.now) words.items ≡ name.now ∷ batch_words line.now) }
{
    let parts = parts_at_semicolons(alloc, line)?;
    let mut words = Vec::new(alloc);
    words.push(name)?;
    if let Some((first, others)) = parts.as_slice().split_first() {
        words.push(*first)?;
        push_words(&mut words, others)?;
    }
    Ok(words)
}

/// Adds the words among the parts behind the first.
fn push_words<'a>(words: &mut Vec<&'a str>, parts: &[&'a str]) -> Result<(), AllocError>
    ensures { OnOk result (map (λ word. word.now) words.new.items
        ≡ map (λ word. word.now) words.old.items ++ words_of (map (λ part. part.now) parts.now)) }
{
    for i in 0..parts.len() {
        push_word(words, parts[i], parts.len() - 1 - i)?;
    }
    Ok(())
}

/// Adds a part where it is a word. This many parts stand behind it.
fn push_word<'a>(words: &mut Vec<&'a str>, part: &'a str, behind: usize) -> Result<(), AllocError>
    ensures { OnOk result (map (λ word. word.now) words.new.items
        ≡ map (λ word. word.now) words.old.items
        ++ (if is_word part.now behind then part.now ∷ [] else [])) }
{
    if is_word(part, behind) {
        words.push(part)?;
    }
    Ok(())
}

/// Whether a part is a word, where this many parts stand behind it.
fn is_word(part: &str, behind: usize) -> bool
    ensures { result ≡ is_word part.now behind }
{
    behind == 0 || !part.is_empty()
}

fn parts_at_semicolons<'a>(alloc: Global, text: &'a str) -> Result<Vec<&'a str>, AllocError>
    ensures { IfOk result (λ parts. map (λ part. part.now) parts.items
        ≡ slice_split is_semicolon text.now) }
{
    text.split(';').collect(alloc)
}
