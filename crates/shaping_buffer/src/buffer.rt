//! The buffer: its fields, what contracts see of it, and its accessors.

ghost use Rattle.std.specs.Prelude.{◌≡◌, ◌<◌, ◌≤◌, ◌==◌, ◌↔◌, [], true, false, if◌then◌else◌};
ghost use Rattle.std.specs.Prelude.{None, IsSome, IsTrue, length, pos};
ghost use Rattle.glyph_lists.specs.ClusterOrder.{is_any};
ghost use Rattle.shaping_buffer.specs.State.{len, lookahead_len, empty_state, cleared};
ghost use Rattle.shaping_buffer.specs.Step.{IsStorage};
ghost use Rattle.shaping_buffer.specs.ClusterStep as cluster_step;
ghost use Rattle.shaping_buffer.specs.ClusterLevel.{groups_graphemes};

use crate::cluster_level::{
    HB_BUFFER_CLUSTER_LEVEL_CHARACTERS, HB_BUFFER_CLUSTER_LEVEL_DEFAULT,
    HB_BUFFER_CLUSTER_LEVEL_GRAPHEMES, HB_BUFFER_CLUSTER_LEVEL_MONOTONE_CHARACTERS,
    hb_buffer_cluster_level_t,
};
use glyph_lists::cluster_order::ClusterOrder;
use glyph_lists::context::Context;
use glyph_sides::Sides;
use rb_glyph::{
    BufferFlags, Flags, GlyphPosition, HB_BUFFER_SCRATCH_FLAG_DEFAULT,
    HB_BUFFER_SCRATCH_FLAG_HAS_GLYPH_FLAGS, hb_buffer_scratch_flags_t, hb_glyph_info_t,
};
use rb_text::{Direction, GlyphId, Language, Script};
use std::alloc::Global;
use std::marker::Model;

mod cursor;
mod deletion;
mod glyph_flags;
mod groups;
mod growth;
mod limits;
mod masks;
mod merging;
mod moving;
mod places;
mod positions;
mod properties;
mod references;
mod replacement;

/// A text on its way through shaping: glyphs in reading order with a cursor, and while an output is open a second
/// list, the out side, that calls put glyphs into while they read the first.
#[derive(Drop)]
pub struct hb_buffer_t {
    /// How the text is to be treated.
    pub flags: BufferFlags,
    /// How far clusters are merged: a level of HarfBuzz's, where any number except 1, 2 and 3 acts as 0.
    pub cluster_level: hb_buffer_cluster_level_t,
    /// The glyph that stands for an invisible character, where the font's space does not.
    pub invisible: Option<GlyphId>,
    /// The glyph that stands for a variation selector that the font does not know.
    pub not_found_variation_selector: Option<u32>,
    /// The way in which the line runs.
    pub direction: Direction,
    /// The script of the text.
    pub script: Option<Script>,
    /// The language of the text.
    pub language: Option<Language>,
    /// Whether shaping met a limit.
    pub shaping_failed: bool,
    /// The last number that was given to a ligature.
    pub serial: u8,
    /// What was seen of the text, as flags that a shaper keeps for itself.
    pub scratch_flags: hb_buffer_scratch_flags_t,
    /// How many more operations a shaper may make.
    pub max_ops: i32,
    /// What was put out, and what is left to read.
    sides: Sides,
    pos: Vec<GlyphPosition>,
    have_positions: bool,
    successful: bool,
    max_len: usize,
    pre_context: Context,
    post_context: Context,
}

impl Model for hb_buffer_t {
    ghost use Rattle.std.specs.Prelude.{if◌then◌else◌, Some, None};
    ghost use Rattle.shaping_buffer.specs.State.{State};

    ghost Value = { State };

    ghost use Rattle.shaping_buffer.specs.IsConsistent.{IsConsistent};

    ghost view = { λ b. record {
      have_output = b.sides.is_open;
      have_separate_output = b.sides.is_separate;
      out = b.sides.out;
      input = b.sides.input;
      idx = b.sides.idx;
      successful = b.successful;
      max_len = b.max_len;
      room = b.sides.room;
      positions = if b.have_positions then Some b.pos.items else None;
      pre_context = b.pre_context.items;
      post_context = b.post_context.items;
      flags = b.flags;
      cluster_level = b.cluster_level;
      invisible = b.invisible;
      not_found_variation_selector = b.not_found_variation_selector;
      direction = b.direction;
      script = b.script;
      language = b.language;
      shaping_failed = b.shaping_failed;
      serial = b.serial;
      scratch_flags = b.scratch_flags;
      max_ops = b.max_ops;
    } };

    ghost invariant = { IsConsistent };
}

impl hb_buffer_t {
    /// The most glyphs that a side may hold, where nothing else is said.
    pub const MAX_LEN_DEFAULT: usize = 0x3FFF_FFFF;

    /// How many operations a shaper may make, where nothing else is said.
    pub const MAX_OPS_DEFAULT: i32 = 0x1FFF_FFFF;

    /// An empty buffer with the limits above, which takes its memory from `alloc` later.
    pub fn new(alloc: Global) -> Self
        ensures empty { result ≡ empty_state Self.MAX_LEN_DEFAULT Self.MAX_OPS_DEFAULT }
        ensures max_len { result.max_len ≡ 0x3FFF_FFFF }
        ensures max_ops { result.max_ops ≡ pos 0x1FFF_FFFF }
    {
        hb_buffer_t {
            flags: BufferFlags::empty(),
            cluster_level: HB_BUFFER_CLUSTER_LEVEL_DEFAULT,
            invisible: None,
            not_found_variation_selector: None,
            direction: Direction::Invalid,
            script: None,
            language: None,
            shaping_failed: false,
            serial: 0,
            scratch_flags: HB_BUFFER_SCRATCH_FLAG_DEFAULT,
            max_ops: Self::MAX_OPS_DEFAULT,
            sides: Sides::new(alloc),
            pos: Vec::new(alloc),
            have_positions: false,
            successful: true,
            max_len: Self::MAX_LEN_DEFAULT,
            pre_context: Context::new(),
            post_context: Context::new(),
        }
    }

    /// How many glyphs the input has, those before the cursor among them.
    pub fn len(&self) -> usize
        ensures len { result ≡ len self.now }
        ensures within { len self.now ≤ self.now.max_len }
        ensures cursor { self.now.idx ≤ len self.now }
    {
        self.sides.len()
    }

    /// How many glyphs were put out: none while no output is open.
    pub fn out_len(&self) -> usize
        ensures out_len { result ≡ length self.now.out }
        ensures within { length self.now.out ≤ self.now.max_len }
        ensures closed { self.now.have_output ≡ false → self.now.out ≡ [] }
    {
        self.sides.out_len()
    }

    /// The cursor: how many glyphs of the input were read.
    pub fn idx(&self) -> usize
        ensures { result ≡ self.now.idx }
    {
        self.sides.idx()
    }

    /// How many glyphs each side may hold.
    pub fn max_len(&self) -> usize
        ensures { result ≡ self.now.max_len }
    {
        self.max_len
    }

    /// How many glyphs each side may hold without asking for memory: as many as a done `ensure` has made room for.
    pub fn room(&self) -> usize
        ensures { result ≡ self.now.room }
    {
        self.sides.room()
    }

    /// Whether no call was refused for length since the buffer was made or cleared.
    pub fn successful(&self) -> bool
        ensures { result ≡ self.now.successful }
    {
        self.successful
    }

    /// Whether an output is open.
    pub fn have_output(&self) -> bool
        ensures { result ≡ self.now.have_output }
    {
        self.sides.is_open()
    }

    /// Whether what was put out has left the storage of the input, as it does once it has more glyphs than were read.
    /// It comes back by `sync` and `clear`.
    pub fn have_separate_output(&self) -> bool
        ensures is { result ≡ self.now.have_separate_output }
        ensures closed { self.now.have_output ≡ false → result ≡ false }
        ensures near { result ≡ false → length self.now.out ≤ self.now.idx }
    {
        self.sides.is_separate()
    }

    /// Both sides in one slice: with no output open the list; else what was put out at its start, and what is left to
    /// read from the cursor on. Requires that the output is not separate.
    pub fn storage(&self) -> &[hb_glyph_info_t]
        requires { self.now.have_separate_output ≡ false }
        ensures { IsStorage self.now result.now }
    {
        self.sides.storage()
    }

    /// Whether the glyphs have positions. While an output is open they have none.
    pub fn have_positions(&self) -> bool
        ensures on { IsTrue result ↔ IsSome self.now.positions }
        ensures open { self.now.have_output ≡ true → self.now.positions ≡ None }
    {
        self.have_positions
    }

    /// Whether the input has no glyph, before the cursor or after it.
    pub fn is_empty(&self) -> bool
        ensures { IsTrue result ↔ (len self.now ≡ 0) }
    {
        self.sides.len() == 0
    }

    /// The glyphs that are left to read; with no output open the whole list.
    pub fn info(&self) -> &[hb_glyph_info_t]
        ensures { result.now ≡ self.now.input }
    {
        self.sides.input()
    }

    /// The glyphs that were put out.
    pub fn out_info(&self) -> &[hb_glyph_info_t]
        ensures { result.now ≡ self.now.out }
    {
        self.sides.out()
    }

    /// How many glyphs stand before the cursor: those that were put out, or with no output open those before it.
    pub fn backtrack_len(&self) -> usize
        ensures { result ≡ (if self.now.have_output then length self.now.out else self.now.idx) }
    {
        if self.sides.is_open() {
            self.sides.out_len()
        } else {
            self.sides.idx()
        }
    }

    /// How many glyphs there are at the cursor and after it.
    pub fn lookahead_len(&self) -> usize
        ensures { result ≡ lookahead_len self.now }
    {
        self.sides.lookahead_len()
    }

    /// The characters next to the text, at most five, nearest first: before it (side 0) or after it (side 1). Requires
    /// one of these sides.
    pub fn context(&self, side: usize) -> &[char]
        requires { side < 2 }
        ensures side { result.now
            ≡ (if side == 0 then self.now.pre_context else self.now.post_context) }
        ensures at_most_five { length result.now ≤ 5 }
    {
        if side == 0 {
            return self.pre_context.as_slice();
        }
        self.post_context.as_slice()
    }

    /// Empties the buffer for the next text: both sides, the contexts and what was said of the text. `max_len`,
    /// `max_ops`, `flags`, `invisible`, `shaping_failed` and the room stay, and all else is as in a new buffer: no output, no
    /// positions, and `successful`.
    pub fn clear(&mut self)
        ensures { self.new ≡ cleared self.old }
    {
        self.sides.clear();
        self.pos.clear();
        self.have_positions = false;
        self.successful = true;
        self.pre_context.clear();
        self.post_context.clear();
        self.cluster_level = HB_BUFFER_CLUSTER_LEVEL_DEFAULT;
        self.not_found_variation_selector = None;
        self.direction = Direction::Invalid;
        self.script = None;
        self.language = None;
        self.serial = 0;
        self.scratch_flags = HB_BUFFER_SCRATCH_FLAG_DEFAULT;
    }

    /// The order in which clusters stand at the buffer's level.
    #[inline]
    fn cluster_order(&self) -> ClusterOrder
        ensures { is_any result ≡ cluster_step.any_order self.now }
    {
        match self.cluster_level {
            HB_BUFFER_CLUSTER_LEVEL_CHARACTERS | HB_BUFFER_CLUSTER_LEVEL_GRAPHEMES =>
                ClusterOrder::Any,
            _ => ClusterOrder::Monotone,
        }
    }

    /// Whether `merge_grapheme_clusters` makes a grapheme one cluster.
    fn groups_graphemes(&self) -> bool
        ensures { result ≡ groups_graphemes self.now.cluster_level }
    {
        self.cluster_level != HB_BUFFER_CLUSTER_LEVEL_MONOTONE_CHARACTERS
            && self.cluster_level != HB_BUFFER_CLUSTER_LEVEL_CHARACTERS
    }

    /// Says that there are glyph flags.
    #[inline]
    fn set_has_glyph_flags(&mut self)
        ensures { self.new ≡ cluster_step.flagged self.old }
    {
        self.scratch_flags |= HB_BUFFER_SCRATCH_FLAG_HAS_GLYPH_FLAGS;
    }
}
