//! Texts and characters that are put at the end of the list, as by HarfBuzz's `hb_buffer_add_utf8` and
//! `hb_buffer_add`.

ghost use Rattle.std.specs.Prelude.{◌≡◌, false, None, length, chars};
ghost use Rattle.glyph_lists.specs.Guess.{AreCharacters};
ghost use Rattle.shaping_buffer.specs.Pushed.{pushed, added};
ghost use Rattle.shaping_buffer.specs.Step as step;
ghost use Rattle.shaping_buffer.specs.Step.{GrowthMeets, RoomMeets};
ghost use Rattle.shaping_buffer.specs.KeepsClusters.{KeepsClusters};

use super::hb_buffer_t;
use rb_glyph::hb_glyph_info_t;
use std::alloc::AllocError;

impl hb_buffer_t {
    /// Pushes the characters of a text, all or none, each with the place of its first byte as cluster. `Ok(false)`
    /// where the list would grow too long: then only `successful` changes. `Err(AllocError)` where memory ran out,
    /// which an empty text never asks for: then nothing changed.
    #[tactic(auto, using(crate::proofs::CharactersLemmas::pushes))]
    pub(crate) fn push_str(&mut self, text: &str) -> Result<bool, AllocError>
        requires closed { self.old.have_output ≡ false }
        requires plain { self.old.positions ≡ None }
        ensures grown { GrowthMeets (pushed text.now self.old) self.old result self.new }
        ensures characters { AreCharacters self.old.input → AreCharacters self.new.input }
    {
        let more = count_characters(text);
        if more > self.max_len - self.sides.len() {
            self.successful = false;
            return Ok(false);
        }
        // The glyphs come first: where the allocator gives memory back from its end, theirs is what it keeps.
        self.sides.reserve_more(more)?;
        self.pos.reserve(self.sides.len() + more)?;
        self.sides.append(text, more)?;
        Ok(true)
    }

    /// Makes room for `size` glyphs on each side, and as many positions: no call whose sides stay within them asks for
    /// memory then. `Ok(false)` where these are more than `max_len`: then only `successful` changes. `Err(AllocError)`
    /// where memory ran out: then nothing changed.
    pub fn ensure(&mut self, size: usize) -> Result<bool, AllocError>
        ensures meets { RoomMeets size (step.ensure size self.old) self.old result self.new }
        ensures keeps { KeepsClusters self.old self.new }
    {
        if size > self.max_len {
            self.successful = false;
            return Ok(false);
        }
        if size > self.sides.room() {
            self.pos.reserve(size.saturating_sub(self.pos.len()))?;
            self.sides.reserve(size)?;
        }
        Ok(true)
    }

    /// Adds one character with a cluster, and forgets the text after it. `Ok(false)` and `Err(AllocError)` come and
    /// leave the buffer as those of `push_str`.
    pub(crate) fn add(&mut self, codepoint: char, cluster: u32) -> Result<bool, AllocError>
        requires closed { self.old.have_output ≡ false }
        requires plain { self.old.positions ≡ None }
        ensures grown { GrowthMeets (added codepoint cluster self.old) self.old result self.new }
        ensures characters { AreCharacters self.old.input → AreCharacters self.new.input }
    {
        if self.sides.len() >= self.max_len {
            self.successful = false;
            return Ok(false);
        }
        self.pos.reserve(self.sides.len() + 1)?;
        self.sides.push(hb_glyph_info_t {
            glyph_id: codepoint as u32,
            mask: 0,
            cluster,
            var1: 0,
            var2: 0,
        })?;
        self.post_context.clear();
        Ok(true)
    }
}

#[tactic(auto, using(std::proofs::lemmas::Str::chars_from_encodes))]
fn count_characters(text: &str) -> usize
    ensures { result ≡ length (chars text.now) }
{
    text.chars().count()
}
