//! Rows of glyphs that are searched, as lookup tables and the table `feat` have them: sorted, of one size, from the byte 12 of
//! the table on (Apple's TrueType Reference Manual, "Font tables", "Binary search tables").

ghost use Rattle.std.specs.Prelude.{◌≡◌, ◌<◌, ◌+◌, ◌*◌, ℕ, None, IfSome};
ghost use Rattle.aat_tables.specs.GlyphRows.{first_of, last_of, Holds, AreSorted, IsNowhere};

use font_tables::bytes::u16_at;

/// Rows of a table, each of a first and a last glyph.
#[derive(Clone, Copy, PartialEq, Eq)]
pub struct GlyphRows<'a> {
    /// The table.
    pub table: &'a [u8],
    /// How many bytes a row has.
    pub size: u16,
    /// How many bytes behind its last glyph a row has its first one: none where a row has one glyph.
    pub skip: u16,
    /// How many rows there are.
    pub count: u16,
}

impl GlyphRows<'_> {
    /// The first glyph of a row; `None` outside of the table.
    pub fn first(&self, row: usize) -> Option<u16>
        requires { row < 65536 }
        ensures { result ≡ first_of self.now.table.now self.now.size self.now.skip row }
    {
        u16_at(
            self.table,
            12 + usize::from(self.skip) + usize::from(self.size) * row,
        )
    }

    /// The last glyph of a row; `None` outside of the table.
    pub fn last(&self, row: usize) -> Option<u16>
        requires { row < 65536 }
        ensures { result ≡ last_of self.now.table.now self.now.size row }
    {
        u16_at(self.table, 12 + usize::from(self.size) * row)
    }

    /// A row that holds a glyph, by HarfBuzz's bisection. Where the rows are sorted, none is missed.
    pub fn row_of(&self, glyph: u16) -> Option<usize>
        ensures within { IfSome result (λ row. row < self.now.count) }
        ensures holds { IfSome result (Holds self.now.table.now self.now.size self.now.skip glyph) }
        ensures all { AreSorted self.now.table.now self.now.size self.now.skip self.now.count → result ≡ None
            → IsNowhere self.now.table.now self.now.size self.now.skip self.now.count glyph }
    {
        let mut low = 0;
        let mut high = usize::from(self.count);
        while low < high {
            let middle = low + (high - 1 - low) / 2;
            let first = self.first(middle)?;
            let last = self.last(middle)?;
            if glyph < first {
                high = middle;
            } else if last < glyph {
                low = middle + 1;
            } else {
                return Some(middle);
            }
        }
        None
    }
}
