//! What a line is answered with, and how that is written.

ghost use Rattle.std.specs.Prelude.{◌≡◌, ◌++◌, ◌∷◌, [], OnOk};
ghost use Rattle.std.specs.Io.KnownBytes.{Appends};
ghost use Rattle.shape_lines.specs.Answer.{answer_text, is_shaped};
ghost use Rattle.shape_lines.specs.Lines.{unverified_line};

use crate::errors::LinesError;
use shaping_verification::VerifyError;
use std::io::Write;

/// What a line is answered with.
#[derive(Drop)]
pub enum Answer {
    /// It has no glyph.
    Empty,
    /// It has glyphs, and this is their text.
    Glyphs(String),
    /// It has glyphs, and these are their objects in JSON.
    Objects(Vec<u8>),
    /// It is too long to be shaped.
    Failed,
    /// A test of its glyphs failed.
    Unverified(VerifyError),
}

impl Answer {
    /// Whether the line was shaped.
    pub fn is_shaped(&self) -> bool
        ensures { result ≡ is_shaped self.now }
    {
        matches!(self, Answer::Empty | Answer::Glyphs(_) | Answer::Objects(_))
    }
}

/// Writes an answer: the glyphs in brackets, and a line feed.
pub fn write_answer<W: Write>(writer: &mut W, answer: &Answer) -> Result<(), LinesError>
    ensures { OnOk result (Appends (W.contents writer.old) (W.contents writer.new)
        (answer_text answer.now ++ 10 ∷ [])) }
{
    match answer {
        Answer::Empty => put(writer, b"\n"),
        Answer::Failed => put(writer, b"error: Shaping failed.\n"),
        Answer::Unverified(error) => put(writer, unverified_line(*error)),
        Answer::Glyphs(text) => put_in_brackets(writer, text.as_bytes()),
        Answer::Objects(objects) => put_in_brackets(writer, objects.as_slice()),
    }
}

/// Writes bytes in brackets, and a line feed.
fn put_in_brackets<W: Write>(writer: &mut W, bytes: &[u8]) -> Result<(), LinesError>
    ensures { OnOk result (Appends (W.contents writer.old) (W.contents writer.new)
        ((91 ∷ bytes.now ++ 93 ∷ []) ++ 10 ∷ [])) }
{
    put(writer, b"[")?;
    put(writer, bytes)?;
    put(writer, b"]\n")
}

/// What is printed of a line whose glyphs are not what they say of themselves.
fn unverified_line(error: VerifyError) -> &'static [u8]
    ensures { result.now ≡ unverified_line error ++ 10 ∷ [] }
{
    match error {
        VerifyError::NotMonotone => b"error: buffer verify error: clusters are not monotone.\n",
        VerifyError::UnsafeToBreak => b"error: buffer verify error: unsafe-to-break test failed.\n",
        VerifyError::UnsafeToConcat => {
            b"error: buffer verify error: unsafe-to-concat test failed.\n"
        }
    }
}

/// Writes bytes.
pub fn put<W: Write>(writer: &mut W, bytes: &[u8]) -> Result<(), LinesError>
    ensures { OnOk result (Appends (W.contents writer.old) (W.contents writer.new) bytes.now) }
{
    match writer.write_all(bytes) {
        Ok(()) => Ok(()),
        Err(error) => Err(LinesError::Write(error)),
    }
}
