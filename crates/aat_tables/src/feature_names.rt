//! The table `feat`: the features of a font, by their types, and the settings of each (Apple's TrueType Reference Manual, "The
//! 'feat' table").

ghost use Rattle.std.specs.Prelude.{◌≡◌, ◌+◌, ◌*◌, ◌<◌, ℕ, Some, IfSome};
ghost use Rattle.font_tables.specs.Bytes.{number_16};
ghost use Rattle.aat_tables.specs.FeatureNames.{feature_type, setting_count, settings_of, flags_of, is_exclusive};

use crate::glyph_rows::GlyphRows;
use font_tables::bytes::{tail, u16_at, u32_at};
use font_tables::rows::rows_within;

/// The bit of a feature's flags that says that of its settings one alone is on.
const EXCLUSIVE: u16 = 0x8000;

/// A feature of a font.
#[derive(Clone, Copy, PartialEq, Eq)]
pub struct FeatureName<'a> {
    /// How many settings it has.
    pub setting_count: u16,
    /// Its settings, four bytes each.
    pub settings: &'a [u8],
    /// Its flags.
    pub flags: u16,
}

impl FeatureName<'_> {
    /// Whether of its settings one alone is on. Those of another feature come in pairs: an even one turns something on, and the
    /// odd one behind it off.
    pub fn is_exclusive(&self) -> bool
        ensures { result ≡ is_exclusive self.now.flags }
    {
        self.flags >= EXCLUSIVE
    }

    /// The setting at a place; `None` where there is none.
    pub fn setting(&self, place: u16) -> Option<u16>
        ensures { IfSome result (λ setting. number_16 self.now.settings.now (4 * place) ≡ Some setting) }
    {
        if place < self.setting_count {
            u16_at(self.settings, 4 * usize::from(place))
        } else {
            None
        }
    }
}

/// The features of a font.
#[derive(Clone, Copy)]
pub struct FeatureNames<'a> {
    /// The bytes of the table.
    pub table: &'a [u8],
}

impl<'a> FeatureNames<'a> {
    /// The features of a table `feat`.
    pub fn new(table: &'a [u8]) -> Self
        ensures { result.table.now ≡ table.now }
    {
        FeatureNames { table }
    }

    /// Whether the table is there, with the version 1.
    pub fn is_there(&self) -> bool {
        u16_at(self.table, 0) == Some(1)
    }

    /// The feature of a type, which is found by bisection: rows rise by their types. `None` where the font does not have it, or no
    /// setting of it.
    pub fn feature(&self, kind: u16) -> Option<FeatureName<'a>>
        ensures { IfSome result (λ feature. (row : ℕ) × ((feature_type self.now.table.now row ≡ Some kind)
            × ((feature.setting_count ≡ setting_count self.now.table.now row)
            × ((feature.settings.now ≡ settings_of self.now.table.now row)
            × (feature.flags ≡ flags_of self.now.table.now row))))) }
    {
        if !self.is_there() {
            return None;
        }
        let row = self.rows().row_of(kind)?;
        let feature = self.feature_in_row(row);
        if feature.setting_count == 0 {
            return None;
        }
        Some(feature)
    }

    /// The rows of the table: their types are looked for as glyphs are.
    fn rows(&self) -> GlyphRows<'a>
        ensures table { result.table.now ≡ self.now.table.now }
        ensures size { result.size ≡ 12 }
        ensures skip { result.skip ≡ 0 }
    {
        let declared = usize::from(u16_at(self.table, 4).unwrap_or(0));
        GlyphRows {
            table: self.table,
            size: 12,
            skip: 0,
            count: rows_within(self.table, 12, 12, declared) as u16,
        }
    }

    /// The feature in a row.
    fn feature_in_row(&self, row: usize) -> FeatureName<'a>
        requires { row < 65536 }
        ensures count { result.setting_count ≡ setting_count self.now.table.now row }
        ensures settings { result.settings.now ≡ settings_of self.now.table.now row }
        ensures flags { result.flags ≡ flags_of self.now.table.now row }
    {
        let at = 12 + 12 * row;
        FeatureName {
            setting_count: u16_at(self.table, at + 2).unwrap_or(0),
            settings: tail(self.table, u32_at(self.table, at + 4).unwrap_or(0) as usize),
            flags: u16_at(self.table, at + 8).unwrap_or(0),
        }
    }
}
