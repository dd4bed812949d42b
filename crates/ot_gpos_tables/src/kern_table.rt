//! The table `kern`: how far the glyphs of a pair are moved towards each other (OpenType specification, "kern - Kerning", and
//! Apple's TrueType Reference Manual, "The 'kern' table"). Of its formats 0 and 2 are read: pairs of glyphs, and pairs of
//! classes. Those of state machines and of indexed classes are passed over.

ghost use Rattle.std.specs.Prelude.{◌≡◌, ◌≢◌, ◌<◌, ◌≤◌, ◌+◌, ◌-◌, ◌*◌, ◌/◌, ℕ, pos, IfSome, Some, None, length, unwrap_or};
ghost use Rattle.std.specs.declared.cmp.Ordering.TheVariants.{Equal};
ghost use Rattle.font_tables.specs.Bisection.{AreInOrder};
ghost use Rattle.std.specs.Prelude.{not, nat_eq, nat_le, if◌then◌else◌, drop, option_map, false, true};
ghost use Rattle.font_tables.specs.Bytes.{number_16, signed_16};
ghost use Rattle.ot_gpos_tables.specs.KernTable.{declared_count, declared_length, is_apple, subtable_bytes, subtable_length};
ghost use Rattle.ot_gpos_tables.specs.KernTable.{IsHeader, are_whole, first_subtable, has_property, has_subtable, holds_pairs};
ghost use Rattle.ot_gpos_tables.specs.KernTable.{is_crossing, is_machine, is_such, subtable_count};
ghost use Rattle.ot_gpos_tables.specs.KernTable.{beside_pair, class_number, classed_value, kerning, pair_count, pair_row, pair_value, value_at};

use crate::sorted_rows::Keys32;
use font_tables::bisection::row_with;
use font_tables::bytes::{i16_at, part, tail, u8_at, u16_at, u32_at};
use font_tables::rows::rows_within;

/// What the values of a subtable are for.
#[derive(Clone, Copy)]
pub struct KernCoverage {
    /// They are for horizontal lines, and else for vertical ones.
    pub is_horizontal: bool,
    /// They move the second glyph across the line, and not along it.
    pub is_cross_stream: bool,
    /// They are for variations of the font, which is not supported.
    pub is_variation: bool,
}

/// A subtable.
#[derive(Clone, Copy)]
pub struct KernSubtable<'a> {
    /// Its bytes, with its header; those of the last subtable go up to the end of the table.
    pub table: &'a [u8],
    /// How many bytes its header has.
    pub header: u8,
    /// Its format.
    pub format: u8,
    /// What its values are for.
    pub coverage: KernCoverage,
    /// How many bytes it says that it has.
    pub length: usize,
}

/// A table `kern`.
#[derive(Clone, Copy)]
pub struct KernTable<'a> {
    /// The bytes of the table.
    pub table: &'a [u8],
    /// Whether its headers are Apple's.
    pub is_apple: bool,
    /// How many subtables it has.
    pub count: u32,
}

impl<'a> KernTable<'a> {
    /// The table `kern` in these bytes: of Windows, with the version 0, or of Apple, with the version 1. Where a subtable is cut
    /// short, or the version is another one, the table has no subtables.
    pub fn new(table: &'a [u8]) -> Self
        ensures table { result.table.now ≡ table.now }
        ensures form { result.is_apple ≡ is_apple table.now }
        ensures count { result.count ≢ 0 → result.count ≡ declared_count table.now }
        ensures whole { result.count ≡ subtable_count table.now }
    {
        let (is_apple, count) = declared(table);
        let kern = KernTable {
            table,
            is_apple,
            count,
        };
        if kern.is_whole() {
            kern
        } else {
            KernTable {
                table,
                is_apple,
                count: 0,
            }
        }
    }

    /// Where the first subtable begins.
    pub fn start(&self) -> usize
        ensures { result ≡ (if self.now.is_apple then 8 else 4) }
    {
        if self.is_apple { 8 } else { 4 }
    }

    /// The subtable that begins at a place, whose number is this one; `None` where its header, or what it says that it has, does
    /// not lie in the table.
    pub fn subtable_at(&self, at: usize, number: u32) -> Option<KernSubtable<'a>>
        ensures length { option_map (λ s. s.length) result
            ≡ subtable_length self.now.is_apple (drop at self.now.table.now) }
        ensures header { IfSome result (IsHeader self.now.is_apple (drop at self.now.table.now)) }
        ensures bytes { IfSome result (λ s. s.table.now
            ≡ subtable_bytes (nat_le self.now.count (number + 1)) s.length (drop at self.now.table.now)) }
    {
        let rest = tail(self.table, at);
        let subtable = subtable_of(rest, self.is_apple)?;
        if subtable.length < usize::from(subtable.header) || rest.len() < subtable.length {
            return None;
        }
        let bytes = if number.saturating_add(1) < self.count {
            part(rest, 0, subtable.length)
        } else {
            rest
        };
        Some(KernSubtable {
            table: bytes,
            ..subtable
        })
    }

    /// Whether each subtable lies in the table, with the pairs that it says that it has.
    fn is_whole(&self) -> bool
        ensures { result
            ≡ are_whole self.now.count self.now.is_apple self.now.table.now (first_subtable self.now.is_apple) }
    {
        let mut at = self.start();
        for number in 0..self.count {
            let Some(subtable) = self.subtable_at(at, number) else {
                return false;
            };
            if !subtable.has_its_pairs() {
                return false;
            }
            at = at.saturating_add(subtable.length);
        }
        true
    }

    /// Whether the table has any subtables.
    pub fn has_kerning(&self) -> bool
        ensures { result ≡ not (nat_eq self.now.count 0) }
    {
        self.count != 0
    }

    /// Whether a subtable is a state machine, which may also attach marks.
    pub fn has_machine_kerning(&self) -> bool
        ensures { result ≡ has_subtable is_machine self.now }
    {
        self.has(Property::Machine)
    }

    /// Whether a subtable moves glyphs across the line.
    pub fn has_cross_kerning(&self) -> bool
        ensures { result ≡ has_subtable is_crossing self.now }
    {
        self.has(Property::CrossStream)
    }

    /// Whether a subtable has this property.
    fn has(&self, property: Property) -> bool
        ensures { result ≡ has_subtable (is_such property) self.now }
    {
        let mut at = self.start();
        for number in 0..self.count {
            let Some(subtable) = self.subtable_at(at, number) else {
                return false;
            };
            if subtable.has(property) {
                return true;
            }
            at = at.saturating_add(subtable.length);
        }
        false
    }
}

/// What is asked of the subtables.
#[derive(Clone, Copy, PartialEq, Eq)]
enum Property {
    /// It is a state machine.
    Machine,
    /// It moves glyphs across the line.
    CrossStream,
}

/// Whether the headers of a table are Apple's, and how many subtables it declares, by its version.
fn declared(table: &[u8]) -> (bool, u32)
    ensures form { result.0 ≡ is_apple table.now }
    ensures count { result.1 ≡ declared_count table.now }
{
    match u16_at(table, 0) {
        Some(0) => (false, u32::from(u16_at(table, 2).unwrap_or(0))),
        Some(1) => (true, u32_at(table, 4).unwrap_or(0)),
        _ => (false, 0),
    }
}

/// A subtable, by the header of Apple or of Windows.
fn subtable_of(rest: &[u8], is_apple: bool) -> Option<KernSubtable<'_>>
    ensures length { option_map (λ s. s.length) result ≡ declared_length is_apple rest.now }
    ensures header { IfSome result (IsHeader is_apple rest.now) }
{
    if is_apple {
        apple_subtable(rest)
    } else {
        windows_subtable(rest)
    }
}

/// A subtable with the header of Windows: its version, its length, its format, and what its values are for.
fn windows_subtable(rest: &[u8]) -> Option<KernSubtable<'_>>
    ensures length { option_map (λ s. s.length) result ≡ declared_length false rest.now }
    ensures header { IfSome result (IsHeader false rest.now) }
{
    let coverage = u8_at(rest, 5)?;
    Some(KernSubtable {
        table: rest,
        header: 6,
        format: u8_at(rest, 4)?,
        coverage: KernCoverage {
            is_horizontal: coverage & 0x01 != 0,
            is_cross_stream: coverage & 0x04 != 0,
            is_variation: false,
        },
        length: usize::from(u16_at(rest, 2)?),
    })
}

/// A subtable with the header of Apple: its length, what its values are for, its format, and a variation.
fn apple_subtable(rest: &[u8]) -> Option<KernSubtable<'_>>
    ensures length { option_map (λ s. s.length) result ≡ declared_length true rest.now }
    ensures header { IfSome result (IsHeader true rest.now) }
{
    let coverage = u8_at(rest, 4)?;
    let _variation = u16_at(rest, 6)?;
    Some(KernSubtable {
        table: rest,
        header: 8,
        format: u8_at(rest, 5)?,
        coverage: KernCoverage {
            is_horizontal: coverage & 0x80 == 0,
            is_cross_stream: coverage & 0x40 != 0,
            is_variation: coverage & 0x20 != 0,
        },
        length: u32_at(rest, 0)? as usize,
    })
}

impl KernSubtable<'_> {
    /// The value of a pair, in font units: 0 where the subtable has none, or is of another format than 0 and 2.
    #[tactic(auto, unfolding(crate::specs::KernTable::kerning))]
    pub fn kerning(&self, left: u16, right: u16) -> i16
        ensures { result ≡ kerning self.now left right }
    {
        match self.format {
            0 => pair_value(self.table, self.header, left, right).unwrap_or(0),
            2 => classed_value(self.table, self.header, left, right),
            _ => 0,
        }
    }

    /// Whether it has this property.
    fn has(&self, property: Property) -> bool
        ensures { result ≡ has_property property self.now }
    {
        match property {
            Property::Machine => self.format == 1,
            Property::CrossStream => self.coverage.is_cross_stream,
        }
    }

    /// Whether the pairs of a subtable of format 0 lie in it.
    fn has_its_pairs(&self) -> bool
        ensures { result ≡ holds_pairs self.now.format self.now.header self.now.table.now }
    {
        let start = usize::from(self.header);
        let count = usize::from(u16_at(self.table, start).unwrap_or(0));
        self.format != 0 || start + 8 + 6 * count <= self.table.len()
    }
}

/// The value of a pair in a subtable of format 0, whose row is found by bisection, as the rows rise by their two glyphs; `None`
/// where there is no row.
pub fn pair_value(subtable: &[u8], header: u8, left: u16, right: u16) -> Option<i16>
    ensures { result ≡ pair_value subtable.now header left right }
{
    let row = pair_row(subtable, usize::from(header), left, right)?;
    Some(value_of_row(subtable, usize::from(header), row))
}

/// The row of a pair in a subtable of format 0. Where the rows rise by their two glyphs, none is missed.
pub fn pair_row(subtable: &[u8], header: usize, left: u16, right: u16) -> Option<usize>
    requires { header < 256 }
    ensures is { result ≡ pair_row subtable.now header left right }
    ensures within { IfSome result (λ row. row < 65536) }
    ensures all { let count = pair_count subtable.now header in
        AreInOrder (beside_pair subtable.now header left right) count → result ≡ None
        → (row : ℕ) → row < count → beside_pair subtable.now header left right row ≡ Some Equal → ⊥ }
{
    let rows = Keys32 {
        table: subtable,
        start: header + 8,
        size: 6,
    };
    let declared = usize::from(u16_at(subtable, header).unwrap_or(0));
    let count = rows_within(subtable, header + 8, 6, declared);
    row_with(&rows, count, u32::from(left) * 65536 + u32::from(right))
}

/// The value in a row of a subtable of format 0.
fn value_of_row(subtable: &[u8], header: usize, row: usize) -> i16
    requires header { header < 256 }
    requires row { row < 65536 }
    ensures { result ≡ unwrap_or (signed_16 subtable.now (header + 12 + 6 * row)) (pos 0) }
{
    i16_at(subtable, header + 12 + 6 * row).unwrap_or(0)
}

/// The value of a pair in a subtable of format 2: that of its classes. A glyph that is in no class has none.
#[tactic(auto, unfolding(crate::specs::KernTable::classed_value))]
pub fn classed_value(subtable: &[u8], header: u8, left: u16, right: u16) -> i16
    ensures { result ≡ classed_value subtable.now header left right }
{
    let start = usize::from(header);
    let lefts = tail(subtable, offset_at(subtable, start + 2));
    let rights = tail(subtable, offset_at(subtable, start + 4));
    match class_number(lefts, left) {
        Some(first) => match class_number(rights, right) {
            Some(second) => {
                let at = usize::from(first) + usize::from(second);
                value_at(subtable, offset_at(subtable, start + 6), at)
            }
            None => 0,
        },
        None => 0,
    }
}

/// The offset at a place, and 0 outside of the table.
fn offset_at(table: &[u8], at: usize) -> usize
    ensures is { result ≡ unwrap_or (number_16 table.now at) 0 }
    ensures few { result < 65536 }
{
    usize::from(u16_at(table, at).unwrap_or(0))
}

/// The number of a glyph in a list of numbers; `None` where the list does not have the glyph.
#[tactic(auto, unfolding(crate::specs::KernTable::class_number))]
fn class_number(classes: &[u8], glyph: u16) -> Option<u16>
    ensures { result ≡ class_number classes.now glyph }
{
    let first = u16_at(classes, 0).unwrap_or(0);
    let count = u16_at(classes, 2).unwrap_or(0);
    if first <= glyph && glyph - first < count {
        u16_at(classes, 4 + 2 * usize::from(glyph - first))
    } else {
        None
    }
}

/// The value at a place, not before the array of values.
fn value_at(subtable: &[u8], array: usize, at: usize) -> i16
    requires { array < 65536 }
    ensures { result ≡ value_at subtable.now array at }
{
    if array <= at {
        i16_at(subtable, array + 2 * ((at - array) / 2)).unwrap_or(0)
    } else {
        0
    }
}
