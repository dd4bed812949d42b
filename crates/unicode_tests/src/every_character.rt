//! Every character, against the crate `unicode_normalization`.

use rb_glyph::{Compositions, Decompositions, compose, decompose};
use std::alloc::{AllocError, Global};
use std::test::Fail;
use unicode_normalization::Form;
use unicode_normalization::char::{compose as kit_compose, decomposition as kit_decomposition};
use unicode_tables::{UNICODE_VERSION, compositions, decompositions};

/// The most steps that a character takes, and one more.
const STEPS: u32 = 6;

/// What a character decomposes to, step after step, from the last part to the first.
fn decomposed(alloc: Global, table: &Decompositions, c: char) -> Result<Vec<char>, AllocError> {
    let mut first = c;
    let mut parts = Vec::new(alloc);
    for _ in 0..STEPS {
        let Some((a, b)) = decompose(table, first) else {
            break;
        };
        if b != '\0' {
            parts.push(b)?;
        }
        first = a;
    }
    parts.push(first)?;
    Ok(parts)
}

#[test]
fn decomposes_fully(rt: HostRuntime) -> Result<(), Fail> {
    let rows = decompositions(rt.alloc())?;
    let table = Decompositions::new(&rows).ok_or("rows that rise")?;
    let mut room = ['\0'; 3];
    for code in 0..0x11_0000 {
        if let Some(c) = char::from_u32(code) {
            let mut parts = decomposed(rt.alloc(), &table, c)?;
            parts.reverse();
            assert!(rt;
                parts.as_slice() == kit_decomposition(c, Form::Nfd, &mut room),
                "{code}"
            );
        }
    }
    Ok(())
}

#[test]
fn composes_again(rt: HostRuntime) -> Result<(), Fail> {
    let rows = decompositions(rt.alloc())?;
    let table = Decompositions::new(&rows).ok_or("rows that rise")?;
    let pairs = compositions(rt.alloc())?;
    let composites = Compositions::new(&pairs).ok_or("pairs that rise")?;
    for code in 0..0x11_0000 {
        if let Some(c) = char::from_u32(code) {
            if let Some((a, b)) = decompose(&table, c) {
                assert!(rt; compose(&composites, a, b) == kit_compose(a, b), "{code}");
            }
        }
    }
    Ok(())
}

/// The tables that the repository's tools write are of the version that the kit's have.
#[test]
fn all_tables_are_of_one_version(rt: HostRuntime) {
    assert!(rt; UNICODE_VERSION == unicode::UNICODE_VERSION);
}
