//! State tables of the extended form: for each state and each class of glyphs an entry, which says what is done and what is the
//! next state (Apple's TrueType Reference Manual, "Font tables", "Extended state tables").

ghost use Rattle.std.specs.Prelude.{◌≡◌, ◌<◌, ◌≤◌, ◌+◌, ◌*◌, ℕ, IfSome, Some};
ghost use Rattle.aat_tables.specs.StateTable.{IsClassOf, class_count, entry_at, entry_data, entry_field, entry_number, entry_of, part_behind};

use crate::lookup::{DELETED_GLYPH, Lookup};
use font_tables::bytes::{tail, u16_at, u32_at};

/// The state at the start of a text.
pub const START_OF_TEXT: u16 = 0;

/// The class of the end of a text.
pub const END_OF_TEXT: u16 = 0;

/// The class of a glyph that the table does not know.
pub const OUT_OF_BOUNDS: u16 = 1;

/// The class of a glyph that was deleted.
pub const CLASS_OF_DELETED: u16 = 2;

/// An entry: what is done in a state at a glyph of a class.
#[derive(Clone, Copy, PartialEq, Eq)]
pub struct Entry {
    /// The next state.
    pub new_state: u16,
    /// What is done, in bits that each kind of subtable numbers for itself.
    pub flags: u16,
    /// The numbers that a kind of subtable has beside them; 0xFFFF for none.
    pub data: [u16; 2],
}

/// A state table of the extended form.
#[derive(Clone, Copy)]
pub struct StateTable<'a> {
    /// The bytes of the table, from its header on.
    pub table: &'a [u8],
    /// The classes of glyphs.
    pub classes: Lookup<'a>,
    /// How many numbers an entry has beside its state and its flags: at most two.
    pub data_count: u8,
    count: u32,
    states: &'a [u8],
    entries: &'a [u8],
    ghost counted: { count ≡ class_count table.now },
    ghost rows: { states.now ≡ part_behind table.now 8 },
    ghost listed: { entries.now ≡ part_behind table.now 12 },
}

impl<'a> StateTable<'a> {
    /// The state table in these bytes, of a font with so many glyphs, whose entries have so many numbers beside their states and
    /// flags. `None` where it has fewer than the four classes of each table.
    pub fn new(table: &'a [u8], glyph_count: u16, data_count: u8) -> Option<Self>
        ensures table { IfSome result (λ machine. machine.table.now ≡ table.now) }
        ensures classes { IfSome result (λ machine. machine.classes.table.now ≡ part_behind table.now 4) }
        ensures glyphs { IfSome result (λ machine. machine.classes.glyph_count ≡ glyph_count) }
        ensures data { IfSome result (λ machine. machine.data_count ≡ data_count) }
        ensures some { IfSome result (λ _. 4 ≤ class_count table.now) }
    {
        let count = u32_at(table, 0).unwrap_or(0);
        if count < 4 {
            return None;
        }
        Some(StateTable {
            table,
            classes: Lookup::new(part_behind(table, 4), glyph_count),
            data_count,
            count,
            states: part_behind(table, 8),
            entries: part_behind(table, 12),
        })
    }

    /// The class of a glyph.
    pub fn class(&self, glyph: u32) -> u16
        ensures { IsClassOf self.now.classes.table.now self.now.classes.glyph_count glyph result }
    {
        match u16::try_from(glyph) {
            Ok(DELETED_GLYPH) => CLASS_OF_DELETED,
            Ok(glyph) => self.classes.value(glyph).unwrap_or(OUT_OF_BOUNDS),
            Err(_) => OUT_OF_BOUNDS,
        }
    }

    /// The entry of a class in a state; `None` where the table does not hold it.
    pub fn entry(&self, state: u16, class: u16) -> Option<Entry>
        ensures { result ≡ entry_of self.now.table.now self.now.data_count state class }
    {
        self.entry_at(self.entry_number(state, class)?)
    }

    /// The entry of a number.
    fn entry_at(&self, number: u16) -> Option<Entry>
        ensures { result ≡ entry_at self.now.table.now self.now.data_count number }
    {
        let new_state = self.entry_field(number, 0)?;
        let flags = self.entry_field(number, 2)?;
        let first = self.entry_data(number, 0)?;
        let second = self.entry_data(number, 1)?;
        Some(Entry {
            new_state,
            flags,
            data: [first, second],
        })
    }

    /// A number that an entry has beside its state and its flags; 0xFFFF where entries have fewer.
    fn entry_data(&self, number: u16, index: u8) -> Option<u16>
        requires { index < 2 }
        ensures { result ≡ entry_data self.now.table.now self.now.data_count number index }
    {
        if index < self.data_count {
            self.entry_field(number, 4 + 2 * usize::from(index))
        } else {
            Some(0xFFFF)
        }
    }

    /// The number of the entry of a class in a state.
    #[tactic(auto, unfolding(crate::specs::StateTable::entry_number))]
    fn entry_number(&self, state: u16, class: u16) -> Option<u16>
        ensures { result ≡ entry_number self.now.table.now state class }
    {
        let column = if u32::from(class) < self.count {
            class
        } else {
            OUT_OF_BOUNDS
        };
        let place = usize::from(state) * self.count as usize + usize::from(column);
        u16_at(self.states, 2 * place)
    }

    /// A field of an entry.
    #[tactic(auto, unfolding(crate::specs::StateTable::entry_field))]
    fn entry_field(&self, number: u16, field: usize) -> Option<u16>
        requires { field < 8 }
        ensures { result ≡ entry_field self.now.table.now (4 + 2 * self.now.data_count) number field }
    {
        let size = 4 + 2 * usize::from(self.data_count);
        u16_at(self.entries, size * usize::from(number) + field)
    }
}

/// The part of a table that the number at a place leads to.
fn part_behind(table: &[u8], at: usize) -> &[u8]
    ensures { result.now ≡ part_behind table.now at }
{
    tail(table, u32_at(table, at).unwrap_or(0) as usize)
}
