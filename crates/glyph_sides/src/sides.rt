//! The type: its fields, what callers see of it, and its accessors.

ghost use Rattle.std.specs.Prelude.{◌≡◌, ◌+◌, ◌-◌, ◌<◌, ◌≤◌, ◌&&◌, [], ◌∷◌, ◌++◌, max, OnOk, OnErr, true, false, nat_lt, chars, length, if◌then◌else◌, take, drop};
ghost use Rattle.glyph_sides.specs.TextGlyphs.{glyphs_at};
ghost use Rattle.glyph_sides.specs.TwoLists.{IsSides, len, lookahead_len, nothing, opened, place};

use crate::characters::append_characters;
use rb_glyph::hb_glyph_info_t;
use std::alloc::{AllocError, Global};
use std::marker::Model;

mod both;
mod cursor;
mod references;
mod replacement;
mod rewind;

/// Two lists of glyphs with a cursor between them: the out side, that glyphs are put into, and the input, that they are
/// read from. With no output open there is one list, and the cursor in it.
#[derive(Drop)]
pub struct Sides {
    /// The input from place `front` on; what lies before the cursor was read. While the output is in place, its first
    /// glyphs are those that were put out.
    info: Vec<hb_glyph_info_t>,
    /// What was put out, once it has left the storage of the input.
    out_info: Vec<hb_glyph_info_t>,
    /// How many places before the cursor stand free, where the output is in place: so many more glyphs were read than
    /// were put out.
    gap: usize,
    /// How many places in front of the input stand free, for rewinds past its start. There are none
    /// while the output is in place.
    front: usize,
    /// The place of the cursor in `info`.
    cursor: usize,
    /// For how many glyphs each of the two vectors has room, at least.
    room: usize,
    is_open: bool,
    is_separate: bool,
}

impl Model for Sides {
    ghost use Rattle.std.specs.Prelude.{if◌then◌else◌, ◌-◌, take, drop};
    ghost use Rattle.glyph_sides.specs.TwoLists.{TwoLists};

    ghost Value = { TwoLists };

    ghost use Rattle.glyph_sides.specs.IsStored.{IsStored, placed};

    ghost view = { λ b. record {
      is_open = b.is_open;
      is_separate = b.is_separate;
      out = if b.is_separate then b.out_info.items else take (placed b) b.info.items;
      input = if b.is_open then drop b.cursor b.info.items else b.info.items;
      idx = b.cursor - b.front;
      room = b.room;
    } };

    ghost invariant = { IsStored };
}

impl Sides {
    /// No glyphs, and no output. Memory is taken from `alloc` later.
    pub fn new(alloc: Global) -> Self
        ensures { result ≡ nothing 0 }
    {
        Sides {
            info: Vec::new(alloc),
            out_info: Vec::new(alloc),
            gap: 0,
            front: 0,
            cursor: 0,
            room: 0,
            is_open: false,
            is_separate: false,
        }
    }

    /// Empties both sides. Their room stays.
    pub fn clear(&mut self)
        ensures { self.new ≡ nothing self.old.room }
    {
        self.info.clear();
        self.out_info.clear();
        self.gap = 0;
        self.front = 0;
        self.cursor = 0;
        self.is_open = false;
        self.is_separate = false;
    }

    /// Opens an output, with nothing in it, and puts the cursor at the start. Requires that none is open.
    #[inline(always)]
    pub fn open(&mut self)
        requires { self.old.is_open ≡ false }
        ensures { self.new ≡ opened self.old }
    {
        self.is_open = true;
        self.cursor = 0;
    }

    /// Whether an output is open.
    #[inline(always)]
    pub fn is_open(&self) -> bool
        ensures is { result ≡ self.now.is_open }
        ensures sides { IsSides self.now }
    {
        self.is_open
    }

    /// Whether what was put out has left the storage of the input.
    #[inline(always)]
    pub fn is_separate(&self) -> bool
        ensures is { result ≡ self.now.is_separate }
        ensures sides { IsSides self.now }
    {
        self.is_separate
    }

    /// Whether the out side would hold more than `max_len` glyphs with `more` of those at the cursor put out. In place it
    /// never would, since they were read. Requires as many glyphs at the cursor, and that neither side holds more than
    /// `max_len`.
    #[inline(always)]
    pub fn next_exceeds(&self, more: usize, max_len: usize) -> bool
        requires within { more ≤ lookahead_len self.now }
        requires out { length self.now.out ≤ max_len }
        requires input { len self.now ≤ max_len }
        ensures is { result ≡ (self.now.is_open && nat_lt max_len (length self.now.out + more)) }
        ensures in_place { self.now.is_separate ≡ false → result ≡ false }
    {
        self.is_separate && more > max_len - self.out_info.len()
    }

    /// How many glyphs were put out.
    #[inline(always)]
    pub fn out_len(&self) -> usize
        ensures is { result ≡ length self.now.out }
        ensures sides { IsSides self.now }
    {
        if self.is_separate {
            self.out_info.len()
        } else {
            self.placed()
        }
    }

    /// How many glyphs were put out in place.
    #[inline(always)]
    fn placed(&self) -> usize
        requires { self.now.is_separate ≡ false }
        ensures { result ≡ length self.now.out }
    {
        if self.is_open {
            self.cursor - self.gap
        } else {
            0
        }
    }

    /// How many glyphs the input has, those before the cursor among them.
    #[inline(always)]
    pub fn len(&self) -> usize
        ensures is { result ≡ len self.now }
        ensures sides { IsSides self.now }
    {
        self.info.len() - self.front
    }

    /// The cursor: how many glyphs were read.
    #[inline(always)]
    pub fn idx(&self) -> usize
        ensures { result ≡ self.now.idx }
    {
        self.cursor - self.front
    }

    /// How many glyphs there are at the cursor and after it.
    #[inline(always)]
    pub fn lookahead_len(&self) -> usize
        ensures { result ≡ lookahead_len self.now }
    {
        self.info.len() - self.cursor
    }

    /// Whether more was put out than was read: then the list becomes longer once the output is closed.
    #[inline(always)]
    pub fn has_grown(&self) -> bool
        ensures is { result ≡ nat_lt self.now.idx (length self.now.out) }
        ensures in_place { self.now.is_separate ≡ false → result ≡ false }
    {
        self.is_separate && self.out_info.len() > self.idx()
    }

    /// The glyphs that were put out.
    #[inline(always)]
    pub fn out(&self) -> &[hb_glyph_info_t]
        ensures { result.now ≡ self.now.out }
    {
        if self.is_separate {
            &self.out_info
        } else {
            &self.info[..self.placed()]
        }
    }

    /// The glyphs that are left to read; with no output open the whole list.
    #[inline(always)]
    pub fn input(&self) -> &[hb_glyph_info_t]
        ensures is { result.now ≡ self.now.input }
        ensures sides { IsSides self.now }
    {
        if self.is_open {
            &self.info[self.cursor..]
        } else {
            &self.info
        }
    }

    /// The glyph at the cursor. Requires an open output and that there is one.
    #[inline(always)]
    pub fn head(&self) -> hb_glyph_info_t
        requires opened { self.now.is_open ≡ true }
        requires glyph { 0 < length self.now.input }
        ensures { take 1 self.now.input ≡ result ∷ [] }
    {
        self.info[self.cursor]
    }

    /// Moves the cursor. Requires that no output is open, and a place of the list.
    #[inline(always)]
    pub fn go_to(&mut self, i: usize)
        requires closed { self.old.is_open ≡ false }
        requires within { i ≤ length self.old.input }
        ensures { self.new ≡ record self.old { idx = i } }
    {
        self.cursor = i;
    }

    /// Both sides in one slice: with no output open the list; else what was put out at its start, and what is left to
    /// read from the cursor on. Requires that the output is not separate.
    #[inline(always)]
    pub fn storage(&self) -> &[hb_glyph_info_t]
        requires { self.now.is_separate ≡ false }
        ensures len { length result.now ≡ len self.now }
        ensures out { take (length self.now.out) result.now ≡ self.now.out }
        ensures input { (if self.now.is_open then drop self.now.idx result.now else result.now)
            ≡ self.now.input }
    {
        self.info.as_slice()
    }

    /// Makes room for so many glyphs on each side.
    pub fn reserve(&mut self, size: usize) -> Result<(), AllocError>
        ensures done { OnOk result (self.new ≡ record self.old { room = max self.old.room size }) }
        ensures same { OnErr result (self.new ≡ self.old) }
        ensures wants { OnErr result (self.old.room < size) }
    {
        if size > self.room {
            self.info.reserve(size.saturating_sub(self.info.len()))?;
            self.out_info
                .reserve(size.saturating_sub(self.out_info.len()))?;
            self.room = size;
        }
        Ok(())
    }

    /// Takes memory for so many more glyphs in the list, and changes nothing else: the room stays what it was promised to
    /// be. So a caller may take all memory for an operation before it begins.
    pub fn reserve_more(&mut self, more: usize) -> Result<(), AllocError>
        requires { self.old.is_open ≡ false }
        ensures same { self.new ≡ self.old }
        ensures wants { OnErr result ((0 < more) × (self.old.room < length self.old.input + more)) }
    {
        self.info.reserve(more)
    }

    /// How many glyphs each side may hold without asking for memory.
    #[inline(always)]
    pub fn room(&self) -> usize
        ensures is { result ≡ self.now.room }
        ensures sides { IsSides self.now }
    {
        self.room
    }

    /// Puts a glyph at the end of the list. Requires that no output is open.
    pub fn push(&mut self, glyph: hb_glyph_info_t) -> Result<(), AllocError>
        requires { self.old.is_open ≡ false }
        ensures done { OnOk result (self.new ≡ record self.old { input = self.old.input ++ glyph ∷ [] }) }
        ensures same { OnErr result (self.new ≡ self.old) }
        ensures wants { OnErr result (self.old.room ≤ length self.old.input) }
    {
        self.info.push(glyph)?;
        Ok(())
    }

    /// Keeps the first `n` glyphs of the list, and puts the cursor at its start. Requires that no output is open.
    pub fn truncate(&mut self, n: usize)
        requires { self.old.is_open ≡ false }
        ensures { self.new ≡ record self.old { input = take n self.old.input; idx = 0 } }
    {
        self.info.truncate(n);
        self.cursor = 0;
    }

    /// Where glyph `k` of the input, counted from its start, stands in both sides as one list. With an output open it is
    /// at the cursor or after it.
    #[inline(always)]
    pub fn place(&self, k: usize) -> usize
        requires from_cursor { self.now.is_open ≡ true → self.now.idx ≤ k }
        requires within { k ≤ len self.now }
        ensures { result ≡ place k self.now }
    {
        if self.is_separate {
            return self.out_info.len() + (k + self.front - self.cursor);
        }
        if self.is_open {
            return k - self.gap;
        }
        k
    }

    /// Puts the glyphs of a text, which has so many characters, at the end of the list. Requires that no output is open.
    pub fn append(&mut self, text: &str, count: usize) -> Result<(), AllocError>
        requires closed { self.old.is_open ≡ false }
        requires count { count ≡ length (chars text.now) }
        ensures done { OnOk result (self.new ≡ record self.old {
          input = self.old.input ++ glyphs_at 0 (chars text.now);
        }) }
        ensures same { OnErr result (self.new ≡ self.old) }
        ensures wants { OnErr result ((0 < count) × (self.old.room < length self.old.input + count)) }
    {
        self.info.reserve(count)?;
        append_characters(&mut self.info, text);
        Ok(())
    }
}
