//! Class definition tables: a class for each glyph (OpenType specification, "OpenType Layout Common Table Formats", "Class
//! Definition table").

ghost use Rattle.std.specs.Prelude.{◌≡◌, ◌<◌, ◌+◌, ◌*◌, ◌-◌, ℕ, IsTrue, unwrap_or};
ghost use Rattle.font_tables.specs.Bytes.{number_16};
ghost use Rattle.font_tables.specs.Rows.{Rises};
ghost use Rattle.font_tables.specs.ClassDefinition.{listed_class, ranged_class};
ghost use Rattle.font_tables.specs.GlyphRanges.{range_last, range_count};
ghost use Rattle.font_tables.specs.Run.{IsClassRun};

use crate::bytes::u16_at;
use crate::glyph_ranges::{Run, range_count, range_of, ranges_rise, run_from};
use crate::rows::FEW_ROWS;
use rb_common::GlyphId;

/// A class definition table.
///
/// By the specification ranges rise: the class is then found by bisection. Where they do not, it is found by a walk.
#[derive(Clone, Copy)]
pub struct ClassDefinition<'a> {
    /// The bytes of the table.
    pub table: &'a [u8],
    format: u16,
    count: u16,
    are_rising: bool,
    ghost is_format: { format ≡ unwrap_or (number_16 table.now 0) 0 },
    ghost ranges: { format ≡ 2 → count ≡ range_count table.now },
    ghost ranges_rise: { IsTrue are_rising → format ≡ 2 → Rises (range_last table.now) count },
}

impl<'a> ClassDefinition<'a> {
    ghost use Rattle.font_tables.specs.ClassDefinition.{class_of};

    /// The class definition table in these bytes. One that is empty, or of another format than 1 and 2, has each glyph in
    /// class 0.
    pub fn new(table: &'a [u8]) -> Self
        ensures { result.table.now ≡ table.now }
    {
        let format = u16_at(table, 0).unwrap_or(0);
        if format == 2 {
            let count = range_count(table);
            let are_rising = ranges_rise(table, count);
            ClassDefinition {
                table,
                format,
                count,
                are_rising,
            }
        } else {
            ClassDefinition {
                table,
                format,
                count: 0,
                are_rising: false,
            }
        }
    }

    /// Whether a class is found soon: there are few ranges, or they rise, as the specification says.
    pub fn is_quick(&self) -> bool
        ensures { IsTrue result → unwrap_or (number_16 self.now.table.now 0) 0 ≡ 2 → 64 < range_count self.now.table.now
            → Rises (range_last self.now.table.now) (range_count self.now.table.now) }
    {
        self.count <= FEW_ROWS || self.are_rising
    }

    /// The run of a glyph: itself and those behind it that have their classes of one range, or of none.
    #[tactic(auto, unfolding(crate::specs::ClassDefinition::class_of))]
    pub(crate) fn run_from(&self, glyph: GlyphId) -> Run
        ensures goes { glyph.0 < result.end }
        ensures classes { IsClassRun self.now.table.now result glyph.0 }
    {
        match self.format {
            1 => Run {
                first: 0,
                end: u32::from(glyph.0) + 1,
                value: listed_class(self.table, glyph).unwrap_or(0),
            },
            2 => run_from(self.table, self.count, self.are_rising, glyph),
            _ => Run {
                first: 0,
                end: u32::MAX,
                value: 0,
            },
        }
    }

    /// The class of a glyph, which is 0 where the table names none.
    #[tactic(auto, unfolding(crate::specs::ClassDefinition::class_of))]
    pub fn class(&self, glyph: GlyphId) -> u16
        ensures { result ≡ class_of self.now.table.now glyph.0 }
    {
        match self.format {
            1 => listed_class(self.table, glyph).unwrap_or(0),
            2 => ranged_class(self.table, self.count, self.are_rising, glyph).unwrap_or(0),
            _ => 0,
        }
    }
}

/// The class of a glyph in a list of classes, those of a first glyph and the ones behind it.
fn listed_class(table: &[u8], glyph: GlyphId) -> Option<u16>
    ensures { result ≡ listed_class table.now glyph.0 }
{
    let first = u16_at(table, 2)?;
    let count = u16_at(table, 4)?;
    if first <= glyph.0 && glyph.0 - first < count {
        u16_at(table, 6 + 2 * usize::from(glyph.0 - first))
    } else {
        None
    }
}

/// The class of a glyph in ranges.
fn ranged_class(table: &[u8], count: u16, are_rising: bool, glyph: GlyphId) -> Option<u16>
    requires counts { count ≡ range_count table.now }
    requires rise { IsTrue are_rising → Rises (range_last table.now) count }
    ensures { result ≡ ranged_class table.now glyph.0 }
{
    range_of(table, count, are_rising, glyph).map(|range| range.value)
}
