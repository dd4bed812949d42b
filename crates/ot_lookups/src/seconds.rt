//! The second glyphs of ligatures: where none of them is the next glyph, no ligature stands at the cursor.

ghost use Rattle.std.specs.Prelude.{◌≡◌, ◌<◌, IsTrue};
ghost use Rattle.glyph_digests.specs.Digest.{HasMore};
ghost use Rattle.ot_lookups.specs.Seconds.{HasSecond, HasSecondAt, HasSecondOfEach, AreSeconds};

use crate::sets::set_at;
use font_tables::bytes::{tail, u16_at};
use glyph_digests::digest::Digest;

/// The digest of the second glyphs of all ligatures of a subtable; `None` where one has no second glyph, or there are more sets and
/// ligatures than may be read, which is then none.
#[inline]
pub(crate) fn seconds_of(table: &[u8], room: &mut usize) -> Option<Digest>
    ensures { AreSeconds table.now result }
{
    let mut digest = Digest::new();
    for index in 0..u32::from(u16_at(table, 4).unwrap_or(0)) {
        if !add_seconds(&mut digest, set_at(table, index), room) {
            return None;
        }
    }
    Some(digest)
}

/// Adds the second glyphs of the ligatures of a set; false where one has none.
#[inline]
fn add_seconds(digest: &mut Digest, set: &[u8], room: &mut usize) -> bool
    ensures kept { HasMore digest.old digest.new }
    ensures added { IsTrue result → HasSecondOfEach set.now digest.new }
{
    let count = usize::from(u16_at(set, 0).unwrap_or(0));
    if *room <= count {
        *room = 0;
        return false;
    }
    *room -= count + 1;
    for index in 0..count {
        if !add_second_at(digest, set, index) {
            return false;
        }
    }
    true
}

/// Adds the second glyph of the ligature of this number in a set; false where it has none.
#[inline]
#[tactic(auto, unfolding(font_tables::specs::Bytes::table_at_16))]
fn add_second_at(digest: &mut Digest, set: &[u8], index: usize) -> bool
    requires { index < 65536 }
    ensures kept { HasMore digest.old digest.new }
    ensures added { IsTrue result → HasSecondAt set.now index digest.new }
{
    match u16_at(set, 2 + 2 * index) {
        None | Some(0) => true,
        Some(offset) => add_second(digest, tail(set, usize::from(offset))),
    }
}

/// Adds the second glyph of a ligature; false where it has none.
#[inline]
fn add_second(digest: &mut Digest, ligature: &[u8]) -> bool
    ensures kept { HasMore digest.old digest.new }
    ensures added { IsTrue result → HasSecond ligature.now digest.new }
{
    if u16_at(ligature, 2).unwrap_or(0) <= 1 {
        return false;
    }
    if let Some(second) = u16_at(tail(ligature, 4), 0) {
        digest.add(u32::from(second));
    }
    true
}
