//! The category of a character, by bisection.

ghost use Rattle.std.specs.Prelude.{◌≡◌, IsTrue};
ghost use Rattle.script_syllables.specs.Category.{are_apart, row_of};

use crate::category::Category;
use crate::category::position::Position;
use crate::category::rows::ROWS;
use rb_glyph::row_search::{range_order, row_at};

/// What a character is in a syllable, and where it stands there.
pub fn category_of(character: u32) -> (Category, Position) {
    match row_of(&ROWS, character) {
        Some(found) => found,
        None => (Category::Other, Position::End),
    }
}

/// What the row that holds a character has.
fn row_of(rows: &[(char, char, Category, Position)], character: u32) -> Option<(Category, Position)>
    requires { IsTrue (are_apart rows.now) }
    ensures { result ≡ row_of character rows.now }
{
    row_at(
        rows,
        |row| range_order(row.0 as u32, row.1 as u32, character),
    )
    .map(|row| (row.2, row.3))
}
