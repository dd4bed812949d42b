//! Hebrew: letters with marks as one character, in fonts without positions of marks, and the order of marks.

ghost use Rattle.std.specs.Prelude.{◌≡◌, ◌<◌, ◌≤◌, ◌+◌, false, length};
ghost use Rattle.rb_glyph.specs.Tables.{composition_of};
ghost use Rattle.shaping_passes.specs.Left.{StaysClosed};
ghost use Rattle.script_letters.specs.Hebrew as hebrew;
ghost use Rattle.script_letters.specs.Hebrew.{presentation_forms};

use rb_glyph::modified_combining_class::{CCC10, CCC14, CCC17, CCC18, CCC22};
use rb_glyph::row_search::value_of_pair;
use script_items::item::modified_combining_class;
use script_items::moves::{merge, move_back};
use shaping_buffer::{hb_buffer_t, hb_glyph_info_t};

/// The classes by which these marks are reordered.
const PATAH: u16 = CCC17 as u16;

const QAMATS: u16 = CCC18 as u16;

const SHEVA: u16 = CCC10 as u16;

const HIRIQ: u16 = CCC14 as u16;

const METEG: u16 = CCC22 as u16;

/// The class of other marks below.
const BELOW: u16 = 220;

/// Letters with a mark, and the character of both that is not composed by canonical composition (Unicode, the block Alphabetic
/// Presentation Forms).
static PRESENTATION_FORMS: [((char, char), char); 36] = [
    (('\u{5d0}', '\u{5b7}'), '\u{fb2e}'),
    (('\u{5d0}', '\u{5b8}'), '\u{fb2f}'),
    (('\u{5d0}', '\u{5bc}'), '\u{fb30}'),
    (('\u{5d1}', '\u{5bc}'), '\u{fb31}'),
    (('\u{5d1}', '\u{5bf}'), '\u{fb4c}'),
    (('\u{5d2}', '\u{5bc}'), '\u{fb32}'),
    (('\u{5d3}', '\u{5bc}'), '\u{fb33}'),
    (('\u{5d4}', '\u{5bc}'), '\u{fb34}'),
    (('\u{5d5}', '\u{5b9}'), '\u{fb4b}'),
    (('\u{5d5}', '\u{5bc}'), '\u{fb35}'),
    (('\u{5d6}', '\u{5bc}'), '\u{fb36}'),
    (('\u{5d8}', '\u{5bc}'), '\u{fb38}'),
    (('\u{5d9}', '\u{5b4}'), '\u{fb1d}'),
    (('\u{5d9}', '\u{5bc}'), '\u{fb39}'),
    (('\u{5da}', '\u{5bc}'), '\u{fb3a}'),
    (('\u{5db}', '\u{5bc}'), '\u{fb3b}'),
    (('\u{5db}', '\u{5bf}'), '\u{fb4d}'),
    (('\u{5dc}', '\u{5bc}'), '\u{fb3c}'),
    (('\u{5de}', '\u{5bc}'), '\u{fb3e}'),
    (('\u{5e0}', '\u{5bc}'), '\u{fb40}'),
    (('\u{5e1}', '\u{5bc}'), '\u{fb41}'),
    (('\u{5e3}', '\u{5bc}'), '\u{fb43}'),
    (('\u{5e4}', '\u{5bc}'), '\u{fb44}'),
    (('\u{5e4}', '\u{5bf}'), '\u{fb4e}'),
    (('\u{5e6}', '\u{5bc}'), '\u{fb46}'),
    (('\u{5e7}', '\u{5bc}'), '\u{fb47}'),
    (('\u{5e8}', '\u{5bc}'), '\u{fb48}'),
    (('\u{5e9}', '\u{5bc}'), '\u{fb49}'),
    (('\u{5e9}', '\u{5c1}'), '\u{fb2a}'),
    (('\u{5e9}', '\u{5c2}'), '\u{fb2b}'),
    (('\u{5ea}', '\u{5bc}'), '\u{fb4a}'),
    (('\u{5f2}', '\u{5b7}'), '\u{fb1f}'),
    (('\u{fb2a}', '\u{5bc}'), '\u{fb2c}'),
    (('\u{fb2b}', '\u{5bc}'), '\u{fb2d}'),
    (('\u{fb49}', '\u{5c1}'), '\u{fb2c}'),
    (('\u{fb49}', '\u{5c2}'), '\u{fb2d}'),
];

/// The character of a letter and a mark, where the font does not place marks: the forms that canonical composition leaves out, which
/// old fonts have.
pub fn presentation_form(a: char, b: char) -> Option<char>
    ensures { result ≡ composition_of a b presentation_forms }
{
    value_of_pair(&PRESENTATION_FORMS, a, b)
}

/// Puts a meteg, or another mark below, before a sheva or hiriq that stands behind a patah or qamats, in the first such three marks.
#[tactic(auto, using(shaping_buffer::proofs::ClosedKeepsLemmas::kept))]
pub fn reorder_marks(buffer: &mut hb_buffer_t, start: usize, end: usize)
    requires { buffer.old.have_output ≡ false }
    ensures is { hebrew.IsReordered start end buffer.old buffer.new }
    ensures stays { StaysClosed buffer.old buffer.new }
{
    let end = end.min(buffer.len());
    match misplaced_mark(buffer.info(), start, end) {
        Some(place) => move_mark(buffer, place),
        None => {}
    }
}

/// Swaps a mark with the one before it, in one cluster.
#[tactic(auto, using(shaping_buffer::proofs::ClosedKeepsLemmas::kept))]
fn move_mark(buffer: &mut hb_buffer_t, place: usize)
    requires closed { buffer.old.have_output ≡ false }
    requires behind { 0 < place }
    requires within { place < length buffer.old.input }
    ensures is { buffer.new ≡ hebrew.mark_moved place buffer.old }
    ensures stays { StaysClosed buffer.old buffer.new }
{
    prove!(place < buffer.len());
    merge(buffer, place - 1, place + 1);
    move_back(buffer, place - 1, place, place + 1);
}

/// The place of the first mark, of those from `start` to `end`, that belongs before the one in front of it.
fn misplaced_mark(infos: &[hb_glyph_info_t], start: usize, end: usize) -> Option<usize>
    requires { end ≤ length infos.now }
    ensures { hebrew.IsMisplaced infos.now start end result }
{
    for place in start.saturating_add(2)..end {
        if is_misplaced(&infos[place - 2], &infos[place - 1], &infos[place]) {
            return Some(place);
        }
    }
    None
}

/// Whether the last of three marks belongs before the second.
fn is_misplaced(vowel: &hb_glyph_info_t, point: &hb_glyph_info_t, below: &hb_glyph_info_t) -> bool
    ensures { result ≡ hebrew.is_misplaced vowel.now point.now below.now }
{
    matches!(modified_combining_class(vowel), PATAH | QAMATS)
        && matches!(modified_combining_class(point), SHEVA | HIRIQ)
        && matches!(modified_combining_class(below), METEG | BELOW)
}
