//! How a text is read, line by line: whole, or as strings of C hold it.

ghost use Rattle.std.specs.Prelude.{◌≡◌, ◌++◌, ◌∷◌, ◌≤◌, ◌==◌, ◌||◌, ◌-◌, [], false, nat_lt, IfOk, OnOk, drop, length, take, if◌then◌else◌};
ghost use Rattle.std.specs.Io.BufRead.{ends_with_byte};
ghost use Rattle.shape_lines.specs.Lines.{TakesLine};
ghost use Rattle.shape_lines.specs.Reading.{AddsRun, held, reading_of, room, seen};

use crate::errors::{LinesError, read_error};
use shape_options::options::TextSource;
use std::alloc::{AllocError, Global};
use std::io::{self, BufRead, ErrorKind};

/// How much of a text is read at a time, with the byte 0 that ends a string.
const BUFFER: usize = 8192;

/// What is seen of the bytes of a text.
#[derive(Clone, Copy, PartialEq, Eq)]
pub enum Reading {
    /// All of them: the text is a word of the command line.
    Whole,
    /// Those that the strings hold which C's `fgets` reads of a file. A string ends behind a line feed or where a buffer is full, and
    /// what stands in it from a byte 0 on is not seen.
    Strings,
}

impl Reading {
    /// How a text from there is read.
    pub fn of(source: &TextSource<'_>) -> Self
        ensures { result ≡ reading_of source.now }
    {
        match source {
            TextSource::Given(_) | TextSource::CodePoints(_) => Reading::Whole,
            TextSource::Input | TextSource::File(_) => Reading::Strings,
        }
    }
}

/// Reads a line in place of the one that is held, without the line feed that ends it. It says whether there was one.
pub fn next_line<R: BufRead>(
    alloc: Global,
    reader: &mut R,
    reading: Reading,
    line: &mut Vec<u8>,
) -> Result<bool, LinesError>
    ensures { IfOk result (λ found. TakesLine reading found
        (R.remaining reader.old) (R.remaining reader.new) line.new.items) }
{
    line.clear();
    for _ in 0..u64::MAX {
        if !read_run(alloc, reader, reading, line)? {
            return Ok(!line.is_empty());
        }
        if ends_line(line.as_slice()) {
            line.truncate(line.len() - 1);
            return Ok(true);
        }
    }
    Err(LinesError::Read(io::Error::from(ErrorKind::Other)))
}

/// Whether a line feed stands at the end.
fn ends_line(line: &[u8]) -> bool
    ensures { result ≡ ends_with_byte 10 line.now }
{
    !line.is_empty() && line[line.len() - 1] == b'\n'
}

/// Adds the bytes up to the next line feed, and that, as far as they are seen, and says whether there were some.
pub fn read_run<R: BufRead>(
    alloc: Global,
    reader: &mut R,
    reading: Reading,
    line: &mut Vec<u8>,
) -> Result<bool, LinesError>
    ensures { IfOk result (λ found. AddsRun reading found (R.remaining reader.old) (R.remaining reader.new)
        line.old.items line.new.items) }
{
    let start = line.len();
    let read = match reader.read_until(b'\n', line) {
        Ok(read) => read,
        Err(error) => return Err(read_error(error)),
    };
    keep_seen(alloc, reading, line, start)?;
    Ok(read > 0)
}

/// Keeps of the bytes from a place on those that are seen.
pub fn keep_seen(
    alloc: Global,
    reading: Reading,
    bytes: &mut Vec<u8>,
    start: usize,
) -> Result<(), AllocError>
    requires { start ≤ length bytes.old.items }
    ensures { OnOk result (bytes.new.items
        ≡ take start bytes.old.items ++ seen reading (drop start bytes.old.items)) }
{
    match reading {
        Reading::Whole => Ok(()),
        Reading::Strings => keep_held(alloc, bytes, start),
    }
}

/// Keeps of the bytes from a place on those that strings hold.
fn keep_held(alloc: Global, bytes: &mut Vec<u8>, start: usize) -> Result<(), AllocError>
    requires { start ≤ length bytes.old.items }
    ensures { OnOk result (bytes.new.items
        ≡ take start bytes.old.items ++ held room false (drop start bytes.old.items)) }
{
    if !bytes[start..].contains(&0) {
        return Ok(());
    }
    let held = held(alloc, &bytes[start..])?;
    bytes.truncate(start);
    bytes.extend_from_slice(held.as_slice())?;
    Ok(())
}

/// Where in a string of C a byte stands.
#[derive(Clone, Copy)]
struct Place {
    /// How many bytes the string still has room for.
    left: usize,
    /// Whether a byte 0 stands before it.
    hides: bool,
}

impl Place {
    /// The first of a string.
    fn first() -> Self
        ensures left { result.left ≡ room }
        ensures hides { result.hides ≡ false }
    {
        Place {
            left: BUFFER - 1,
            hides: false,
        }
    }

    /// Whether this byte is not seen there.
    fn is_hidden(self, byte: u8) -> bool
        ensures { result ≡ (self.hides || (byte == 0)) }
    {
        self.hides || byte == 0
    }

    /// Whether this byte ends the string there.
    fn is_end(self, byte: u8) -> bool
        ensures { result ≡ ((byte == 10) || nat_lt self.left 2) }
    {
        byte == b'\n' || self.left < 2
    }

    /// The place behind this byte.
    fn behind(self, byte: u8) -> Self
        ensures left { result.left ≡ (if (byte == 10) || nat_lt self.left 2 then room else self.left - 1) }
        ensures hides { result.hides ≡ (if (byte == 10) || nat_lt self.left 2 then false else (self.hides || (byte == 0))) }
    {
        if self.is_end(byte) {
            return Place::first();
        }
        Place {
            left: self.left - 1,
            hides: self.is_hidden(byte),
        }
    }
}

/// Adds a byte, unless it is hidden.
fn push_seen(seen: &mut Vec<u8>, byte: u8, is_hidden: bool) -> Result<(), AllocError>
    ensures { OnOk result (seen.new.items ≡ seen.old.items ++ (if is_hidden then [] else byte ∷ [])) }
{
    if !is_hidden {
        seen.push(byte)?;
    }
    Ok(())
}

/// The bytes that strings hold of these.
fn held(alloc: Global, bytes: &[u8]) -> Result<Vec<u8>, AllocError>
    ensures { IfOk result (λ held_bytes. held_bytes.items ≡ held room false bytes.now) }
{
    let mut seen = Vec::new(alloc);
    let mut place = Place::first();
    for i in 0..bytes.len() {
        push_seen(&mut seen, bytes[i], place.is_hidden(bytes[i]))?;
        place = place.behind(bytes[i]);
    }
    Ok(seen)
}
