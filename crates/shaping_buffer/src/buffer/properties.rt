//! What is said of a text: its contexts, its script and direction, and the numbers of its clusters.

ghost use Rattle.std.specs.Prelude.{◌≡◌, false};
ghost use Rattle.glyph_lists.specs.Guess.{AreCharacters};
ghost use Rattle.shaping_buffer.specs.Properties.{with_pre_context, with_post_context, guessed, with_clusters_reset};

use super::hb_buffer_t;
use glyph_lists::{cluster_numbers, context, guess};
use rb_text::Direction;

impl hb_buffer_t {
    /// Keeps the last five characters of the text before, from its end outward.
    pub(crate) fn set_pre_context(&mut self, text: &str)
        ensures { self.new ≡ with_pre_context text.now self.old }
    {
        context::keep_before(&mut self.pre_context, text);
    }

    /// Keeps the first five characters of the text after.
    pub(crate) fn set_post_context(&mut self, text: &str)
        ensures { self.new ≡ with_post_context text.now self.old }
    {
        context::keep_after(&mut self.post_context, text);
    }

    /// Gives each glyph its place as cluster, modulo 2^32. Requires that no output is open.
    pub fn reset_clusters(&mut self)
        requires { self.old.have_output ≡ false }
        ensures { self.new ≡ with_clusters_reset self.old }
    {
        cluster_numbers::reset_clusters(self.sides.list_mut());
    }

    /// Fills in what was not said: the script, as that of the first character which is not common, inherited or
    /// unknown, and the direction, as that of the script, or else from left to right. The language stays. Requires
    /// that no output is open and the ids are characters.
    pub fn guess_segment_properties(&mut self)
        requires closed { self.old.have_output ≡ false }
        requires characters { AreCharacters self.old.input }
        ensures { self.new ≡ guessed self.old }
    {
        if self.script.is_none() {
            self.script = guess::first_script(self.sides.input());
        }
        if self.direction == Direction::Invalid {
            self.direction = guess::guess_direction(self.script);
        }
    }
}
