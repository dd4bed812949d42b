//! Marks that belong next to their letter, before other marks (Unicode Technical Report 53).

ghost use Rattle.std.specs.Prelude.{◌≡◌, ◌<◌, ◌≤◌, ◌+◌, ◌-◌, false, length, map};
ghost use Rattle.glyph_lists.specs.Parts.{map_range};
ghost use Rattle.script_items.specs.Marks.{with_class};
ghost use Rattle.shaping_passes.specs.Left.{StaysClosed};
ghost use Rattle.script_joining.specs.ArabicMarks as arabic;

use rb_glyph::modified_combining_class::{CCC22, CCC26};
use script_items::item::{modified_combining_class, set_modified_combining_class};
use script_items::moves::{merge, move_back};
use shaping_buffer::{hb_buffer_t, hb_glyph_info_t};

/// The classes of marks below and above.
const BELOW: u16 = 220;

const ABOVE: u16 = 230;

/// Puts modifier combining marks before the other marks of their letter, those below and then those above. They get classes that come
/// first too.
#[tactic(auto, using(crate::proofs::ArabicMarksLemmas::steps, shaping_buffer::proofs::ClosedKeepsLemmas::kept))]
pub fn reorder_marks(buffer: &mut hb_buffer_t, start: usize, end: usize)
    requires { buffer.old.have_output ≡ false }
    ensures is { buffer.new ≡ arabic.marks_reordered start end buffer.old }
    ensures stays { StaysClosed buffer.old buffer.new }
{
    if start > end || end > buffer.len() {
        return;
    }
    let behind = move_marks(buffer, start, end, BELOW, CCC22);
    move_marks(buffer, behind, end, ABOVE, CCC26);
}

/// Puts the first modifier combining marks of a class before the marks from `start` on, with another class. Where the marks behind
/// them begin.
#[tactic(auto, using(shaping_buffer::proofs::ClosedKeepsLemmas::kept))]
fn move_marks(
    buffer: &mut hb_buffer_t,
    start: usize,
    end: usize,
    class: u16,
    new_class: u8,
) -> usize
    requires closed { buffer.old.have_output ≡ false }
    requires order { start ≤ end }
    requires within { end ≤ length buffer.old.input }
    ensures is { buffer.new ≡ arabic.modifiers_moved class new_class start end buffer.old }
    ensures behind { result ≡ arabic.behind_modifiers class buffer.old.input start end }
    ensures last { result ≤ end }
    ensures length { length buffer.new.input ≡ length buffer.old.input }
    ensures stays { StaysClosed buffer.old buffer.new }
{
    let first = modifiers_start(buffer.info(), start, end, class);
    let last = modifiers_end(buffer.info(), first, end, class);
    put_if_any(buffer, start, first, last, new_class);
    start + (last - first)
}

/// Puts the marks from `first` to `last` before those from `start` on, with another class, if there are any.
#[tactic(auto, using(crate::proofs::ArabicMarksLemmas::steps, shaping_buffer::proofs::ClosedKeepsLemmas::kept))]
fn put_if_any(buffer: &mut hb_buffer_t, start: usize, first: usize, last: usize, class: u8)
    requires closed { buffer.old.have_output ≡ false }
    requires order { start ≤ first }
    requires within { last ≤ length buffer.old.input }
    ensures is { buffer.new ≡ arabic.put_if_any start first last class buffer.old }
    ensures length { length buffer.new.input ≡ length buffer.old.input }
    ensures stays { StaysClosed buffer.old buffer.new }
{
    if first < last {
        put_first(buffer, start, first, last, class);
    }
}

/// Puts the marks from `first` to `last` before those from `start` on, in one cluster, with another class.
#[tactic(auto, using(shaping_buffer::proofs::ClosedKeepsLemmas::kept))]
fn put_first(buffer: &mut hb_buffer_t, start: usize, first: usize, last: usize, class: u8)
    requires closed { buffer.old.have_output ≡ false }
    requires order { start ≤ first }
    requires ends { first ≤ last }
    requires within { last ≤ length buffer.old.input }
    ensures is { buffer.new ≡ arabic.put_first start first last class buffer.old }
    ensures length { length buffer.new.input ≡ length buffer.old.input }
    ensures stays { StaysClosed buffer.old buffer.new }
{
    merge(buffer, start, last);
    move_back(buffer, start, first, last);
    set_classes(buffer, start, start + (last - first), class);
}

/// Where the first marks of a class begin, of those from `start` to `end`, which are in the order of their classes.
#[tactic(auto, using(crate::proofs::ArabicMarksLemmas::walks))]
fn modifiers_start(infos: &[hb_glyph_info_t], start: usize, end: usize, class: u16) -> usize
    requires order { start ≤ end }
    requires within { end ≤ length infos.now }
    ensures is { result ≡ arabic.passing_end (arabic.is_below class) infos.now start end }
    ensures from { start ≤ result }
    ensures within { result ≤ end }
{
    let mut place = start;
    while place < end && is_below(&infos[place], class) {
        place += 1;
    }
    place
}

/// Where the modifier combining marks of a class end that begin at `start`.
#[tactic(auto, using(crate::proofs::ArabicMarksLemmas::walks))]
fn modifiers_end(infos: &[hb_glyph_info_t], start: usize, end: usize, class: u16) -> usize
    requires order { start ≤ end }
    requires within { end ≤ length infos.now }
    ensures is { result ≡ arabic.passing_end (arabic.is_modifier_of class) infos.now start end }
    ensures from { start ≤ result }
    ensures within { result ≤ end }
{
    let mut place = start;
    while place < end && is_modifier_of(&infos[place], class) {
        place += 1;
    }
    place
}

/// Whether the mark comes before those of a class.
#[tactic(auto, unfolding(crate::specs::ArabicMarks::is_below))]
fn is_below(mark: &hb_glyph_info_t, class: u16) -> bool
    ensures { result ≡ arabic.is_below class mark.now }
{
    modified_combining_class(mark) < class
}

/// Whether the mark is a modifier combining mark of a class.
#[tactic(auto, unfolding(crate::specs::ArabicMarks::is_modifier_of))]
fn is_modifier_of(mark: &hb_glyph_info_t, class: u16) -> bool
    ensures { result ≡ arabic.is_modifier_of class mark.now }
{
    modified_combining_class(mark) == class && is_modifier_mark(mark.glyph_id)
}

/// Gives the marks from `start` to `end` another class.
fn set_classes(buffer: &mut hb_buffer_t, start: usize, end: usize, class: u8)
    requires closed { buffer.old.have_output ≡ false }
    requires order { start ≤ end }
    requires within { end ≤ length buffer.old.input }
    ensures is { buffer.new ≡ record buffer.old { input = map_range (with_class class) buffer.old.input start end } }
    ensures length { length buffer.new.input ≡ length buffer.old.input }
    ensures stays { StaysClosed buffer.old buffer.new }
{
    set_classes_of(buffer.info_slice_mut(), start, end, class);
}

/// Gives these of the marks another class.
fn set_classes_of(infos: &mut [hb_glyph_info_t], start: usize, end: usize, class: u8)
    requires order { start ≤ end }
    requires within { end ≤ length infos.old }
    ensures { infos.new ≡ map_range (with_class class) infos.old start end }
{
    set_class_of_all(&mut infos[start..end], class);
}

/// Gives each mark another class.
#[tactic(auto, using(glyph_lists::proofs::MapLemmas::walks))]
fn set_class_of_all(marks: &mut [hb_glyph_info_t], class: u8)
    ensures { marks.new ≡ map (with_class class) marks.old }
{
    for mark in marks.iter_mut() {
        set_modified_combining_class(mark, u16::from(class));
    }
}

/// Whether the character is a modifier combining mark.
fn is_modifier_mark(character: u32) -> bool
    ensures { result ≡ arabic.is_modifier character }
{
    matches!(
        character,
        0x654 | 0x655 | 0x658 | 0x6DC | 0x6E3 | 0x6E7 | 0x6E8 | 0x8CA | 0x8CB | 0x8CD..=0x8CF
            | 0x8D3
            | 0x8F3
    )
}
