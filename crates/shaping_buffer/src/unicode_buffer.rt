//! A text before it is shaped.

ghost use Rattle.std.specs.Prelude.{◌≡◌, length, pos, IsTrue, ◌↔◌, unwrap_or};
ghost use Rattle.std.specs.Option.{option_copied};
ghost use Rattle.shaping_buffer.specs.State.{empty_state, cleared, IsText};
ghost use Rattle.shaping_buffer.specs.ClusterLevel.{level_of, named_level};
ghost use Rattle.shaping_buffer.specs.Properties.{with_pre_context, with_post_context, with_clusters_reset, guessed};
ghost use Rattle.glyph_lists.specs.Guess.{unknown_script};
ghost use Rattle.shaping_buffer.specs.Pushed.{pushed, added};
ghost use Rattle.shaping_buffer.specs.Step.{GrowthMeets};

use crate::buffer::hb_buffer_t;
use crate::cluster_level::BufferClusterLevel;
use rb_glyph::BufferFlags;
use rb_text::{Direction, Language, Script, script};
use std::alloc::{AllocError, Global};
use std::marker::Model;

/// Characters in reading order, each with a cluster number, before they are shaped.
#[derive(Drop)]
pub struct UnicodeBuffer {
    buffer: hb_buffer_t,
}

impl Model for UnicodeBuffer {
    ghost use Rattle.shaping_buffer.specs.State.{State, IsText};

    ghost Value = { State };

    ghost view = { λ u. u.buffer };

    ghost invariant = { λ u. IsText u.buffer };
}

impl UnicodeBuffer {
    /// An empty text, which takes its memory from `alloc` later.
    pub fn new(alloc: Global) -> Self
        ensures empty { result
            ≡ empty_state hb_buffer_t.MAX_LEN_DEFAULT hb_buffer_t.MAX_OPS_DEFAULT }
        ensures max_len { result.max_len ≡ 0x3FFF_FFFF }
        ensures max_ops { result.max_ops ≡ pos 0x1FFF_FFFF }
    {
        UnicodeBuffer {
            buffer: hb_buffer_t::new(alloc),
        }
    }

    /// How many characters there are.
    pub fn len(&self) -> usize
        ensures { result ≡ length self.now.input }
    {
        self.buffer.len()
    }

    /// Whether there are no characters.
    pub fn is_empty(&self) -> bool
        ensures { IsTrue result ↔ (length self.now.input ≡ 0) }
    {
        self.buffer.is_empty()
    }

    /// Pushes the characters of a text, all or none, as HarfBuzz's `hb_buffer_add_utf8`. The cluster of each is the
    /// place of its first byte in this text, modulo 2^32, so that a second text begins at 0 again. `Ok(false)` where
    /// the text would grow too long: then only whether a call was refused changes. `Err(AllocError)` where memory ran
    /// out: then nothing changed.
    pub fn push_str(&mut self, text: &str) -> Result<bool, AllocError>
        ensures { GrowthMeets (pushed text.now self.old) self.old result self.new }
    {
        self.buffer.push_str(text)
    }

    /// Adds one character with a cluster, and forgets the text after it, as HarfBuzz's `hb_buffer_add`. `Ok(false)`
    /// where the text would grow too long: then only whether a call was refused changes. `Err(AllocError)` where
    /// memory ran out: then nothing changed.
    pub fn add(&mut self, codepoint: char, cluster: u32) -> Result<bool, AllocError>
        ensures { GrowthMeets (added codepoint cluster self.old) self.old result self.new }
    {
        self.buffer.add(codepoint, cluster)
    }

    /// Keeps the last five characters of the text that stands before, which some shapers ask for.
    pub fn set_pre_context(&mut self, text: &str)
        ensures { self.new ≡ with_pre_context text.now self.old }
    {
        self.buffer.set_pre_context(text);
    }

    /// Keeps the first five characters of the text that stands after, which some shapers ask for.
    pub fn set_post_context(&mut self, text: &str)
        ensures { self.new ≡ with_post_context text.now self.old }
    {
        self.buffer.set_post_context(text);
    }

    /// Says in which way the line runs.
    pub fn set_direction(&mut self, direction: Direction)
        ensures { self.new ≡ record self.old { direction = direction } }
    {
        self.buffer.direction = direction;
    }

    /// The way in which the line runs.
    pub fn direction(&self) -> Direction
        ensures { result ≡ self.now.direction }
    {
        self.buffer.direction
    }

    /// Says the script of the text.
    pub fn set_script(&mut self, script: Script)
        ensures { self.new ≡ record self.old { script = Some script } }
    {
        self.buffer.script = Some(script);
    }

    /// The script of the text, and [`script::UNKNOWN`] where none was said.
    pub fn script(&self) -> Script
        ensures { result ≡ unwrap_or self.now.script unknown_script }
    {
        self.buffer.script.unwrap_or(script::UNKNOWN)
    }

    /// Says the language of the text.
    pub fn set_language(&mut self, language: Language)
        ensures { self.new ≡ record self.old { language = Some language } }
    {
        self.buffer.language = Some(language);
    }

    /// The language of the text.
    pub fn language(&self) -> Option<&Language>
        ensures { option_copied result ≡ self.now.language }
    {
        self.buffer.language.as_ref()
    }

    /// Says which glyph stands for a variation selector that the font does not know.
    pub fn set_not_found_variation_selector_glyph(&mut self, glyph: u32)
        ensures { self.new ≡ record self.old { not_found_variation_selector = Some glyph } }
    {
        self.buffer.not_found_variation_selector = Some(glyph);
    }

    /// Fills in the script and the direction where none was said: the script of the first character that has one of
    /// its own (Unicode Standard Annex 24), and the direction of the text's script, or else from left to right. The
    /// language stays.
    pub fn guess_segment_properties(&mut self)
        ensures { self.new ≡ guessed self.old }
    {
        self.buffer.guess_segment_properties();
    }

    /// Says how the text is to be treated.
    pub fn set_flags(&mut self, flags: BufferFlags)
        ensures { self.new ≡ record self.old { flags = flags } }
    {
        self.buffer.flags = flags;
    }

    /// How the text is to be treated.
    pub fn flags(&self) -> BufferFlags
        ensures { result ≡ self.now.flags }
    {
        self.buffer.flags
    }

    /// Says how far clusters are merged.
    pub fn set_cluster_level(&mut self, cluster_level: BufferClusterLevel)
        ensures { self.new ≡ record self.old { cluster_level = level_of cluster_level } }
    {
        self.buffer.cluster_level = cluster_level.number();
    }

    /// How far clusters are merged.
    pub fn cluster_level(&self) -> BufferClusterLevel
        ensures { result ≡ named_level self.now.cluster_level }
    {
        BufferClusterLevel::of_number(self.buffer.cluster_level)
    }

    /// Gives each character its place as cluster, modulo 2^32.
    #[tactic(auto, using(crate::proofs::CharactersLemmas::characters_reset))]
    pub fn reset_clusters(&mut self)
        ensures { self.new ≡ with_clusters_reset self.old }
    {
        self.buffer.reset_clusters();
    }

    /// Empties the text, and forgets its contexts, its cluster level and what was said of it, as rustybuzz does. The
    /// buffer's `max_len`, `max_ops`, `flags`, `invisible` and `shaping_failed` stay, and all else is as in a new text.
    pub fn clear(&mut self)
        ensures { self.new ≡ cleared self.old }
    {
        self.buffer.clear();
    }

    /// The buffer in which the text is shaped.
    pub fn into_buffer(self) -> hb_buffer_t
        ensures is { result ≡ self }
        ensures text { IsText result }
    {
        self.buffer
    }

    /// An emptied buffer, for the next text.
    pub(crate) fn of_cleared(buffer: hb_buffer_t) -> Self
        requires { IsText buffer }
        ensures { result ≡ buffer }
    {
        UnicodeBuffer { buffer }
    }
}
