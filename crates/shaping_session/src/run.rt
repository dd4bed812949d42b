//! Commands from a reader, and their answers to a writer.

ghost use Rattle.std.specs.Prelude.{◌≡◌, ◌+◌, ◌<◌, ◌≤◌, ◌++◌, ◌⊎◌, true, [], ◌∷◌, length, vec_len, vec_capacity};
ghost use Rattle.std.specs.Prelude.{position, IfOk, OnOk, IfErr, Err, None, MatchOption};
ghost use Rattle.std.specs.List.{before_first, after_first};
ghost use Rattle.std.specs.Io.KnownBytes.{Appends, Consumes, IsAtEnd};
ghost use Rattle.shaping_session.specs.Commands.{request_in_bytes};
ghost use Rattle.shaping_session.specs.Replies.{is_line_feed, reply_text};
ghost use Rattle.shaping_session.specs.Transcript.{fault_text, Finishes, IsReadTo, Leaves, WritesBeginning};
ghost use Rattle.shaping_session.specs.Transcript.{WritesAndHolds, Answers, AnswersLine};

use crate::command::parse_bytes;
use crate::reply::Reply;
use crate::session::Session;
use std::alloc::{AllocError, Global};
use std::io::{ErrorKind, Read, Write};

/// Why a run ended early.
#[derive(Clone, Copy, Debug, PartialEq, Eq)]
pub enum RunFault {
    /// The reader failed, or did not end. Nothing was written.
    Read = 1,
    /// The writer failed: a write, or the flush. It took a beginning of the answers.
    Write = 2,
    /// There was no memory. The commands before were answered; while the input was read, nothing was written.
    Memory = 3,
}

impl RunFault {
    /// What the program says of it on standard error.
    pub fn message(self) -> &'static str
        ensures { result.now ≡ fault_text self }
    {
        match self {
            RunFault::Read => "read failed",
            RunFault::Write => "write failed",
            RunFault::Memory => "out of memory",
        }
    }
}

/// How many bytes are read at once, and how many are held back before they are written.
const PIECE: usize = 65536;

/// The most reads that a run makes.
const READS: u32 = 65536;

/// Reads all there is, and then answers each line with one line. The status is 0, or 2 after an
/// unknown command, which is answered as such and ends the run.
///
/// A line feed ends a line, and the last line may lack it. A read or a write that was interrupted is made again, and
/// one that failed otherwise is not. An input of which 65536 reads meet no end is a fault.
pub fn run<R: Read + Drop, W: Write + Drop>(
    alloc: Global,
    mut reader: R,
    mut writer: W,
) -> Result<u8, RunFault>
    ensures { IfOk result (λ status. (status ≡ 0) ⊎ (status ≡ 2)) }
{
    run_on(alloc, &mut reader, &mut writer)
}

/// Does what `run` does, over a reader and a writer that are lent.
pub fn run_on<R: Read, W: Write>(
    alloc: Global,
    reader: &mut R,
    writer: &mut W,
) -> Result<u8, RunFault>
    ensures status { IfOk result (λ status. (status ≡ 0) ⊎ (status ≡ 2)) }
    ensures unread { result ≡ Err RunFault.Read → writer.new ≡ writer.old }
    ensures writes { Answers (R.remaining reader.old) (R.remaining reader.new)
        (W.contents writer.old) (W.contents writer.new) result }
{
    let input = read_all(alloc, reader)?;
    let Ok(mut held) = Vec::with_capacity(alloc, PIECE) else {
        return Err(RunFault::Memory);
    };
    let outcome = answer_lines(alloc, input.as_slice(), writer, &mut held);
    finish(writer, &mut held, outcome)
}

/// Writes what is held back and flushes, also after memory ran out, and then gives the outcome. After a failed write
/// nothing more is written.
///
/// It is public for its test alone, which counts the flushes after each outcome.
pub fn finish<W: Write>(
    writer: &mut W,
    held: &mut Vec<u8>,
    outcome: Result<u8, RunFault>,
) -> Result<u8, RunFault>
    ensures { Finishes (W.contents writer.old) (W.contents writer.new)
        held.old.items outcome result }
{
    if outcome == Err(RunFault::Write) {
        return outcome;
    }
    write_held(writer, held)?;
    writer.flush().map_err(|_| RunFault::Write)?;
    outcome
}

/// All that the reader gives.
fn read_all<R: Read>(alloc: Global, reader: &mut R) -> Result<Vec<u8>, RunFault>
    ensures bytes { IfOk result (λ input.
        Consumes (R.remaining reader.old) (R.remaining reader.new) input.items) }
    ensures end { OnOk result (IsAtEnd (R.remaining reader.new)) }
    ensures err { IfErr result (λ fault. (fault ≡ RunFault.Read) ⊎ (fault ≡ RunFault.Memory)) }
{
    let mut input = Vec::new(alloc);
    let mut room = room_for_a_piece(alloc)?;
    let piece = room.as_mut_slice();
    for _ in 0..READS {
        if read_piece(reader, piece, &mut input)? {
            return Ok(input);
        }
    }
    Err(RunFault::Read)
}

fn room_for_a_piece(alloc: Global) -> Result<Vec<u8>, RunFault>
    ensures room { IfOk result (λ room. 0 < vec_len room) }
    ensures err { IfErr result (λ fault. fault ≡ RunFault.Memory) }
{
    vec![in alloc; 0u8; PIECE].map_err(|_| RunFault::Memory)
}

/// Reads a piece and puts it at the end of the input. It says whether the reader is at its end.
fn read_piece<R: Read>(
    reader: &mut R,
    piece: &mut [u8],
    input: &mut Vec<u8>,
) -> Result<bool, RunFault>
    requires { 0 < length piece.old }
    ensures bytes { IfOk result (λ _.
        IsReadTo (R.remaining reader.old) (R.remaining reader.new)
        input.old.items input.new.items) }
    ensures end { IfOk result (λ at_end. at_end ≡ true → IsAtEnd (R.remaining reader.new)) }
    ensures err { IfErr result (λ fault. (fault ≡ RunFault.Read) ⊎ (fault ≡ RunFault.Memory)) }
{
    match reader.read(piece) {
        Ok(0) => Ok(true),
        Ok(n) => {
            if input.extend_from_slice(&piece[..n]).is_err() {
                return Err(RunFault::Memory);
            }
            Ok(false)
        }
        Err(e) if e.kind() == ErrorKind::Interrupted => Ok(false),
        Err(_) => Err(RunFault::Read),
    }
}

/// Answers each line. What is not written yet is held.
fn answer_lines<W: Write>(
    alloc: Global,
    input: &[u8],
    writer: &mut W,
    held: &mut Vec<u8>,
) -> Result<u8, RunFault>
    requires { held.old.items ≡ [] }
    ensures { WritesAndHolds input.now (W.contents writer.old) (W.contents writer.new)
        held.new.items result }
{
    let mut session = Session::new(alloc);
    let mut rest = input;
    while !rest.is_empty() {
        let (line, others) = cut_line(rest);
        rest = others;
        let Ok(obeyed) = obey_line(alloc, session, line) else {
            return Err(RunFault::Memory);
        };
        let Some((next, reply)) = obeyed else {
            put_line(writer, held, "unknown command")?;
            return Ok(2);
        };
        session = next;
        put_line(writer, held, reply.as_str())?;
    }
    Ok(0)
}

/// Obeys a line, and answers `None` where it is no command.
fn obey_line(
    alloc: Global,
    session: Session,
    line: &[u8],
) -> Result<Option<(Session, Reply)>, AllocError>
    ensures { IfOk result (λ obeyed. MatchOption obeyed (request_in_bytes line.now ≡ None)
        (λ next. AnswersLine session line.now (reply_text next.1) next.0)) }
{
    match parse_bytes(alloc, line)? {
        Some(command) => Ok(Some(session.obey(alloc, command)?)),
        None => Ok(None),
    }
}

/// The first line, and what comes after its end.
fn cut_line(bytes: &[u8]) -> (&[u8], &[u8])
    requires { 0 < length bytes.now }
    ensures line { result.0.now ≡ before_first is_line_feed bytes.now }
    ensures rest { result.1.now ≡ after_first is_line_feed bytes.now }
    ensures shorter { length result.1.now < length bytes.now }
{
    match line_feed(bytes) {
        None => (bytes, &[]),
        Some(end) => (&bytes[..end], &bytes[end + 1..]),
    }
}

fn line_feed(bytes: &[u8]) -> Option<usize>
    ensures { result ≡ position is_line_feed bytes.now }
{
    bytes.iter().position(|b| *b == b'\n')
}

/// Writes a line, or holds it back.
fn put_line<W: Write>(writer: &mut W, held: &mut Vec<u8>, line: &str) -> Result<(), RunFault>
    ensures ok { OnOk result (Leaves (W.contents writer.old) (W.contents writer.new)
        (held.old.items ++ (line.now ++ 10 ∷ [])) held.new.items) }
    ensures err { IfErr result (λ fault. (fault ≡ RunFault.Write)
        × WritesBeginning (W.contents writer.old) (W.contents writer.new) (held.old.items ++ (line.now ++ 10 ∷ []))) }
{
    put(writer, held, line.as_bytes())?;
    put(writer, held, b"\n")
}

/// Holds bytes back where there is room for them, and else writes what is held first.
fn put<W: Write>(writer: &mut W, held: &mut Vec<u8>, bytes: &[u8]) -> Result<(), RunFault>
    ensures ok { OnOk result (Leaves (W.contents writer.old) (W.contents writer.new)
        (held.old.items ++ bytes.now) held.new.items) }
    ensures err { IfErr result (λ fault. (fault ≡ RunFault.Write)
        × WritesBeginning (W.contents writer.old) (W.contents writer.new) (held.old.items ++ bytes.now)) }
{
    if bytes.len() <= held.capacity() - held.len() {
        hold(held, bytes);
        return Ok(());
    }
    write_held(writer, held)?;
    if bytes.len() <= held.capacity() {
        hold(held, bytes);
        return Ok(());
    }
    write_whole(writer, bytes)
}

/// Holds bytes back. There is room for them.
fn hold(held: &mut Vec<u8>, bytes: &[u8])
    requires { vec_len held.old + length bytes.now ≤ vec_capacity held.old }
    ensures { held.new.items ≡ held.old.items ++ bytes.now }
{
    let _ = held.extend_from_slice(bytes);
}

/// Writes what is held.
fn write_held<W: Write>(writer: &mut W, held: &mut Vec<u8>) -> Result<(), RunFault>
    ensures ok { OnOk result (Appends (W.contents writer.old) (W.contents writer.new)
        held.old.items) }
    ensures items { OnOk result (held.new.items ≡ []) }
    ensures len { OnOk result (vec_len held.new ≡ 0) }
    ensures err { IfErr result (λ fault. (fault ≡ RunFault.Write)
        × WritesBeginning (W.contents writer.old) (W.contents writer.new) held.old.items) }
{
    write_whole(writer, held.as_slice())?;
    held.clear();
    Ok(())
}

/// Makes writes until all of these bytes are taken. After a write that failed the writer has a beginning of them.
#[tactic(auto, using(crate::proofs::TranscriptLemmas::leaves_twice))]
fn write_whole<W: Write>(writer: &mut W, bytes: &[u8]) -> Result<(), RunFault>
    ensures ok { OnOk result (Appends (W.contents writer.old) (W.contents writer.new) bytes.now) }
    ensures err { IfErr result (λ fault. (fault ≡ RunFault.Write)
        × WritesBeginning (W.contents writer.old) (W.contents writer.new) bytes.now) }
{
    let mut rest = bytes;
    for _ in 0..u64::MAX {
        if rest.is_empty() {
            return Ok(());
        }
        rest = write_some(writer, rest)?;
    }
    Err(RunFault::Write)
}

/// Makes one write, and gives the bytes that are left: all of them where it was interrupted. A write that takes nothing
/// is a fault, as is any other error.
fn write_some<'a, W: Write>(writer: &mut W, bytes: &'a [u8]) -> Result<&'a [u8], RunFault>
    ensures ok { IfOk result (λ rest.
        Leaves (W.contents writer.old) (W.contents writer.new) bytes.now rest.now) }
    ensures err { IfErr result (λ fault. (fault ≡ RunFault.Write)
        × Leaves (W.contents writer.old) (W.contents writer.new) bytes.now bytes.now) }
{
    match writer.write(bytes) {
        Ok(0) => Err(RunFault::Write),
        Ok(n) => Ok(&bytes[n..]),
        Err(e) if e.kind() == ErrorKind::Interrupted => Ok(bytes),
        Err(_) => Err(RunFault::Write),
    }
}
