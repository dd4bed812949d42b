//! Tables that list glyphs: sequences and sets of alternates (OpenType specification, "GSUB - Glyph Substitution Table").

ghost use Rattle.std.specs.Prelude.{◌≡◌};
ghost use Rattle.ot_substitution.specs.GlyphTable.{listed, listed_glyph};

use font_tables::bytes::u16_at;

/// Glyphs of a sequence or a set of alternates.
#[derive(Clone, Copy)]
pub struct Glyphs<'a> {
    /// The table, with their number at its start, and two bytes for each after it.
    pub table: &'a [u8],
    /// How many there are: none where they do not all lie in the table.
    count: u16,
    ghost counts: { count ≡ listed table.now },
}

impl<'a> Glyphs<'a> {
    /// The glyphs of a table.
    pub fn new(table: &'a [u8]) -> Self
        ensures { result.table.now ≡ table.now }
    {
        let count = u16_at(table, 0).unwrap_or(0);
        if 2 + 2 * usize::from(count) <= table.len() {
            Glyphs { table, count }
        } else {
            Glyphs { table, count: 0 }
        }
    }

    /// How many there are.
    pub fn len(&self) -> u16
        ensures { result ≡ listed self.now.table.now }
    {
        self.count
    }

    /// The glyph of this number.
    pub fn glyph(&self, index: u16) -> u16
        ensures { result ≡ listed_glyph self.now.table.now index }
    {
        u16_at(self.table, 2 + 2 * usize::from(index)).unwrap_or(0)
    }
}
