//! Subtables that put another glyph in the place of a glyph beside others.

ghost use Rattle.std.specs.Prelude.{◌≡◌, ◌<◌, ◌≤◌, None, Some, true, false, length};
ghost use Rattle.aat_substitution.specs.Actions.{has_flag, list_at};
ghost use Rattle.aat_substitution.specs.Left.{Stays};
ghost use Rattle.ot_layout.specs.Budget.{IsNotMore};

use crate::work::Work;
use crate::writing::replace_at;
use aat_tables::{Entry, Lookup};
use font_tables::bytes::{tail, u32_at};
use font_tables::gdef::Gdef;
use shaping_buffer::hb_buffer_t;

/// The current glyph is marked.
const SET_MARK: u16 = 0x8000;

/// No lookup.
const NONE: u16 = 0xFFFF;

/// Where a subtable says where its list of lookups is.
const LOOKUPS: usize = 16;

/// The lookups of a subtable, and the glyph that is marked.
#[derive(Clone, Copy)]
pub(crate) struct Contextual<'a> {
    /// The list of lookups: where each is, from the start of the list.
    lookups: &'a [u8],
    glyph_count: u16,
    mark: Option<usize>,
}

impl<'a> Contextual<'a> {
    /// The lookups of a subtable, of a font with so many glyphs. No glyph is marked.
    pub(crate) fn new(table: &'a [u8], glyph_count: u16) -> Self
        ensures lookups { result.lookups.now ≡ list_at table.now 16 }
        ensures glyphs { result.glyph_count ≡ glyph_count }
        ensures mark { result.mark ≡ None }
    {
        let offset = u32_at(table, LOOKUPS).unwrap_or(0);
        Contextual {
            lookups: tail(table, offset as usize),
            glyph_count,
            mark: None,
        }
    }

    /// Whether an entry may put glyphs in the place of others.
    pub(crate) fn is_actionable(&self, buffer: &hb_buffer_t, entry: &Entry) -> bool {
        if buffer.lookahead_len() == 0 && self.mark.is_none() {
            return false;
        }
        entry.data[0] != NONE || entry.data[1] != NONE
    }

    /// Does what an entry says, at the cursor. At the end of a text nothing is done unless a glyph is marked.
    pub(crate) fn obey(
        &mut self,
        buffer: &mut hb_buffer_t,
        entry: &Entry,
        gdef: &Gdef,
        work: &mut Work,
    )
        requires { buffer.old.have_output ≡ false }
        ensures stays { Stays buffer.old buffer.new }
        ensures spent { IsNotMore work.old.budget work.new.budget }
        ensures kept { has_flag entry.now 0x8000 ≡ false → self.new ≡ self.old }
        ensures marked { has_flag entry.now 0x8000 ≡ true → buffer.old.idx < length buffer.old.input → self.new.mark ≡ Some buffer.old.idx }
    {
        let at = buffer.idx();
        if at >= buffer.len() && self.mark.is_none() {
            return;
        }
        let mark = self.mark.unwrap_or(0);
        if let Some(glyph) = self.replacement(buffer, entry.data[0], mark) {
            mark_break(buffer, mark, at.saturating_add(1));
            replace_at(buffer, mark, glyph, gdef);
            work.digest.add(u32::from(glyph));
        }
        let current = at.min(buffer.len().saturating_sub(1));
        if let Some(glyph) = self.replacement(buffer, entry.data[1], current) {
            replace_at(buffer, current, glyph, gdef);
            work.digest.add(u32::from(glyph));
        }
        if entry.flags & SET_MARK != 0 {
            self.mark = Some(at);
        }
    }

    /// The glyph that a lookup puts in the place of that at a place.
    fn replacement(&self, buffer: &hb_buffer_t, lookup: u16, place: usize) -> Option<u16> {
        if lookup == NONE {
            return None;
        }
        let glyph = u16::try_from(buffer.info().get(place)?.glyph_id).ok()?;
        let offset = u32_at(self.lookups, 4 * usize::from(lookup))?;
        Lookup::new(tail(self.lookups, offset as usize), self.glyph_count).value(glyph)
    }
}

/// Marks the glyphs of a range as unsafe to break.
fn mark_break(buffer: &mut hb_buffer_t, from: usize, to: usize)
    requires { buffer.old.have_output ≡ false }
    ensures { Stays buffer.old buffer.new }
{
    let to = to.min(buffer.len());
    if from <= to {
        buffer.unsafe_to_break(Some(from), Some(to));
    }
}
