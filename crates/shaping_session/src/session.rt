//! What the commands work on, and what each of them does.

ghost use Rattle.std.specs.Prelude.{◌≡◌, IfOk, OnErr, true, false, codes, string_bytes};
ghost use Rattle.std.specs.List.{list_all};
ghost use Rattle.shaping_buffer.specs.Text as texts;
ghost use Rattle.glyph_text.specs.Text as of_glyphs;
ghost use Rattle.glyph_text.specs.Text.{nothing_known};
ghost use Rattle.shaping_session.specs.Session as session;
ghost use Rattle.shaping_buffer.specs.ClusterLevel.{level_of};
ghost use Rattle.shaping_buffer.specs.Pushed.{pushed, added};
ghost use Rattle.shaping_session.specs.Commands.{request_of};
ghost use Rattle.shaping_session.specs.Replies.{reply_text};
ghost use Rattle.shaping_session.specs.Session.{IsText, fresh, held_by, with_level, with_flags, Follows, Grows, FollowsTurn};
ghost use Rattle.shaping_session.specs.Session.{FollowsLimit, FollowsSerialize, FollowsState};
ghost use Rattle.shaping_session.specs.Session.{is_glyph, replacement_turn};
ghost use Rattle.shaping_runs.specs.Replay.{turn};
ghost use Rattle.shaping_buffer.specs.State.{cleared};
ghost use Rattle.shaping_buffer.specs.Positions.{with_zero_positions};

use crate::command::Command;
use crate::query;
use crate::reply::Reply;
use crate::state_text::print_state;
use rb_glyph::{NoGlyphNames, hb_glyph_info_t};
use shaping_buffer::{
    BufferClusterLevel, BufferFlags, Flags, GlyphBuffer, SerializeFlags, UnicodeBuffer, hb_buffer_t,
};
use shaping_runs::{Call, make_call};
use std::alloc::{AllocError, Global};

/// A text that grows, and then the buffer that it was turned into.
#[derive(Drop)]
pub enum Session {
    Text(UnicodeBuffer),
    Turned(hb_buffer_t),
}

impl Session {
    /// An empty text.
    pub fn new(alloc: Global) -> Session
        ensures { result ≡ fresh }
    {
        Session::Text(UnicodeBuffer::new(alloc))
    }

    /// Does what a command asks for, and answers it.
    pub fn obey(self, alloc: Global, command: Command<'_>) -> Result<(Session, Reply), AllocError>
        ensures { IfOk result (λ next.
            Follows (request_of command.entry) self next.0 (reply_text next.1)) }
    {
        match command {
            Command::Push(text) => self.push(text),
            Command::Add { character, cluster } => self.add(character, cluster),
            Command::Level(level) => Ok(self.set_level(level)),
            Command::Flags(flags) => Ok(self.set_flags(flags)),
            Command::Limit(number) => Ok(self.limit(number)),
            Command::Make(call) => self.make(call),
            Command::ReplaceGlyphs { num_in, ids } => self.replace_glyphs(num_in, ids.as_slice()),
            Command::State => self.state(alloc),
            Command::Serialize(flags) => self.serialize(alloc, flags),
            Command::New => Ok((Session::new(alloc), Reply::ok())),
            Command::Feature(text) => self.asked(query::feature(alloc, text)),
            Command::Tags { script, language } => self.asked(query::tags(alloc, script, language)),
            Command::Compose(a, b) => self.asked(query::compose(alloc, a, b)),
            Command::Decompose(c) => self.asked(query::decompose(alloc, c)),
        }
    }

    /// The session as it was, and the answer to a question.
    fn asked(self, reply: Result<Reply, AllocError>) -> Result<(Session, Reply), AllocError>
        ensures same { IfOk result (λ next. next.0 ≡ self) }
        ensures reply { IfOk result (λ next. reply ≡ Ok next.1) }
    {
        Ok((self, reply?))
    }

    /// The buffer, into which a text is turned.
    fn into_buffer(self) -> hb_buffer_t
        ensures { result ≡ held_by self }
    {
        match self {
            Session::Text(text) => text.into_buffer(),
            Session::Turned(buffer) => buffer,
        }
    }

    fn push(self, text: &str) -> Result<(Session, Reply), AllocError>
        ensures answer { IfOk result (λ next. Grows (pushed text.now) self next.0 (reply_text next.1)) }
        ensures memory { OnErr result (IsText self) }
    {
        match self {
            Session::Text(mut buffer) => {
                let reply = Reply::of_bool(buffer.push_str(text)?);
                Ok((Session::Text(buffer), reply))
            }
            Session::Turned(turned) => Ok((Session::Turned(turned), Reply::outside())),
        }
    }

    fn add(self, character: char, cluster: u32) -> Result<(Session, Reply), AllocError>
        ensures answer { IfOk result (λ next.
            Grows (added character cluster) self next.0 (reply_text next.1)) }
        ensures memory { OnErr result (IsText self) }
    {
        match self {
            Session::Text(mut buffer) => {
                let reply = Reply::of_bool(buffer.add(character, cluster)?);
                Ok((Session::Text(buffer), reply))
            }
            Session::Turned(buffer) => Ok((Session::Turned(buffer), Reply::outside())),
        }
    }

    fn set_level(self, level: BufferClusterLevel) -> (Session, Reply)
        ensures session { result.0 ≡ with_level (level_of level) self }
        ensures reply { reply_text result.1 ≡ codes "ok" }
    {
        let session = match self {
            Session::Text(mut buffer) => {
                buffer.set_cluster_level(level);
                Session::Text(buffer)
            }
            Session::Turned(mut buffer) => {
                buffer.cluster_level = level.number();
                Session::Turned(buffer)
            }
        };
        (session, Reply::ok())
    }

    fn set_flags(self, flags: u32) -> (Session, Reply)
        ensures session { result.0 ≡ with_flags flags self }
        ensures reply { reply_text result.1 ≡ codes "ok" }
    {
        let flags = BufferFlags::from_bits_retain(flags);
        let session = match self {
            Session::Text(mut buffer) => {
                buffer.set_flags(flags);
                Session::Text(buffer)
            }
            Session::Turned(mut buffer) => {
                buffer.flags = flags;
                Session::Turned(buffer)
            }
        };
        (session, Reply::ok())
    }

    /// Says how many glyphs each side may hold. Requires that none holds more.
    fn limit(self, number: usize) -> (Session, Reply)
        ensures { FollowsLimit number self result.0 (reply_text result.1) }
    {
        let mut buffer = self.into_buffer();
        if buffer.len() > number || buffer.out_len() > number {
            return (Session::Turned(buffer), Reply::outside());
        }
        buffer.set_max_len(number);
        (Session::Turned(buffer), Reply::ok())
    }

    /// Prints the two lists.
    fn state(self, alloc: Global) -> Result<(Session, Reply), AllocError>
        ensures { IfOk result (λ next. FollowsState self next.0 (reply_text next.1)) }
    {
        let buffer = self.into_buffer();
        let text = print_state(alloc, &buffer)?;
        Ok((Session::Turned(buffer), Reply::Text(text)))
    }

    fn make(self, call: Call<'_>) -> Result<(Session, Reply), AllocError>
        ensures { IfOk result (λ next. FollowsTurn (turn call.entry) self next.0
            (reply_text next.1)) }
    {
        let mut buffer = self.into_buffer();
        let reply = Reply::of_answer(make_call(&mut buffer, &call)?);
        Ok((Session::Turned(buffer), reply))
    }

    /// Replaces this many glyphs at the cursor by as many as there are ids.
    fn replace_glyphs(self, num_in: usize, ids: &[u32]) -> Result<(Session, Reply), AllocError>
        ensures { IfOk result (λ next.
            FollowsTurn (replacement_turn num_in ids.now) self next.0 (reply_text next.1)) }
    {
        self.make(Call::ReplaceGlyphs(num_in, ids.len(), ids))
    }

    /// Prints the glyphs, with their positions all 0. Requires that no output is open, and ids of 16 bits where names
    /// or extents are printed.
    fn serialize(self, alloc: Global, flags: u8) -> Result<(Session, Reply), AllocError>
        ensures { IfOk result (λ next.
            FollowsSerialize (record { 0 = flags }) self next.0 (reply_text next.1)) }
    {
        let flags = flags_of(flags);
        let buffer = self.into_buffer();
        if !may_be_printed(flags, &buffer) {
            return Ok((Session::Turned(buffer), Reply::outside()));
        }
        let (next, text) = print_glyphs(alloc, flags, buffer)?;
        Ok((Session::Text(next), Reply::Text(text)))
    }
}

/// The set of flags of a number.
fn flags_of(number: u8) -> SerializeFlags
    ensures { result ≡ record { 0 = number } }
{
    SerializeFlags::from_bits_retain(number)
}

/// The text that begins anew, and the glyphs, with positions that are all 0.
fn print_glyphs(
    alloc: Global,
    flags: SerializeFlags,
    buffer: hb_buffer_t,
) -> Result<(UnicodeBuffer, String), AllocError>
    requires { buffer.have_output ≡ false }
    ensures next { IfOk result (λ printed. printed.0 ≡ cleared buffer) }
    ensures text { IfOk result (λ printed. string_bytes printed.1
        ≡ texts.text_of nothing_known flags (with_zero_positions buffer)) }
{
    let mut placed = buffer;
    placed.clear_positions();
    let glyphs = GlyphBuffer::from_buffer(placed);
    let text = glyphs.serialize(alloc, &NoGlyphNames, flags)?;
    Ok((glyphs.clear(), text))
}

/// The highest number of a glyph.
const LAST_GLYPH: u32 = 65535;

/// Whether glyphs may be printed under these flags.
#[tactic(auto, unfolding(crate::specs::Session::may_be_printed))]
fn may_be_printed(flags: SerializeFlags, buffer: &hb_buffer_t) -> bool
    ensures is { result ≡ session.may_be_printed flags buffer.now }
    ensures closed { result ≡ true → buffer.now.have_output ≡ false }
{
    !buffer.have_output() && (!asks_font(flags) || are_glyphs(buffer.info()))
}

/// Whether names or extents are printed under these flags.
fn asks_font(flags: SerializeFlags) -> bool
    ensures { result ≡ of_glyphs.asks_font flags }
{
    !flags.contains(SerializeFlags::NO_GLYPH_NAMES) || flags.contains(SerializeFlags::GLYPH_EXTENTS)
}

/// Whether each id is the number of a glyph.
fn are_glyphs(infos: &[hb_glyph_info_t]) -> bool
    ensures { result ≡ list_all is_glyph infos.now }
{
    infos.iter().all(|info| info.glyph_id <= LAST_GLYPH)
}
