//! The contexts of a text that is turned, as Arabic in a line from left to right. Its letters stand in turn, and the characters before and
//! behind it do not: the last letter is by the character before the text, and the first by the one behind. So where a part has the other
//! as its context, letters far from the cut may have other forms.

ghost use Rattle.std.specs.Prelude.{◌≡◌, ◌<◌, ◌≤◌, false, length};
ghost use Rattle.shaping_buffer.specs.KeepsClusters.{KeepsClusters};
ghost use Rattle.ot_characters.specs.TurnedContexts.{differs_by_next, differs_by_previous, is_heeded, is_transparent, side_of};

use script_items::glyph_info::is_continuation;
use script_items::item::general_category;
use script_joining::JoiningType::{self, *};
use script_joining::joining_type;
use shaping_buffer::rb_glyph::hb_gc::{
    RB_UNICODE_GENERAL_CATEGORY_ENCLOSING_MARK, RB_UNICODE_GENERAL_CATEGORY_FORMAT,
    RB_UNICODE_GENERAL_CATEGORY_NON_SPACING_MARK,
};
use shaping_buffer::rb_glyph::hb_unicode_general_category_t;
use shaping_buffer::{CharExt, hb_buffer_t, hb_glyph_info_t};

/// The letters at the edges of a text, and the nearest beyond.
#[derive(Clone, Copy)]
struct Edges {
    /// The letter that stands last once the text is turned.
    first: JoiningType,
    /// The letter that stands first then.
    last: JoiningType,
    /// The nearest letter before the text.
    before: JoiningType,
    /// The nearest letter behind the text.
    behind: JoiningType,
}

impl Edges {
    /// Those of a text.
    fn of(buffer: &hb_buffer_t) -> Self {
        Edges {
            first: first_letter(buffer.info()),
            last: last_letter(buffer.info()),
            before: first_type(buffer.context(0)).unwrap_or(NonJoining),
            behind: first_type(buffer.context(1)).unwrap_or(NonJoining),
        }
    }

    /// Whether a letter at an edge has another form in a part that ends with one of two neighbours, or begins with the other.
    fn heed(&self, one: JoiningType, next: JoiningType) -> bool
        ensures { result ≡ is_heeded self.now one next }
    {
        differs_by_previous(self.last, one, self.before)
            || differs_by_next(self.first, next, self.behind)
    }
}

/// Whether the form of a letter differs as one or another stands before it.
fn differs_by_previous(own: JoiningType, one: JoiningType, other: JoiningType) -> bool
    ensures { result ≡ differs_by_previous own one other }
{
    match own {
        Right | Dual | DalathRish => one.joins_next() != other.joins_next(),
        Alaph => side_of(one) != side_of(other),
        NonJoining | Left | Transparent => false,
    }
}

/// What a letter is to an alaph behind it, which has a form of its own for each.
fn side_of(before: JoiningType) -> u8
    ensures { result ≡ side_of before }
{
    match before {
        Left | Dual => 1,
        DalathRish => 2,
        Right | Alaph => 3,
        NonJoining | Transparent => 0,
    }
}

/// Whether the form of a letter differs as one or another stands behind it.
fn differs_by_next(own: JoiningType, one: JoiningType, other: JoiningType) -> bool
    ensures { result ≡ differs_by_next own one other }
{
    match own {
        Left | Dual | Alaph => one.joins_previous() != other.joins_previous(),
        NonJoining | Right | DalathRish | Transparent => false,
    }
}

/// Marks as unsafe to break where letters at the edges of a text that is to be turned have other forms in the parts, with these as
/// contexts. Requires that no output is open.
#[tactic(auto, using(shaping_buffer::proofs::ClosedKeepsLemmas::kept))]
pub(crate) fn keep_turned_contexts(buffer: &mut hb_buffer_t)
    requires { buffer.old.have_output ≡ false }
    ensures closed { buffer.new.have_output ≡ false }
    ensures keeps { KeepsClusters buffer.old buffer.new }
{
    let edges = Edges::of(buffer);
    let mut last = None;
    for place in 0..buffer.len() {
        if let Some(own) = letter_at(buffer.info(), place) {
            keep_heeded(buffer, &edges, last, (place, own));
            last = Some((place, own));
        }
    }
}

/// Marks what lies between a letter and the last one before it, where the edges heed these. Where they are joined once they are turned,
/// the text is not to be broken anyway.
#[tactic(auto, using(shaping_buffer::proofs::ClosedKeepsLemmas::kept))]
fn keep_heeded(
    buffer: &mut hb_buffer_t,
    edges: &Edges,
    last: Option<(usize, JoiningType)>,
    next: (usize, JoiningType),
)
    requires { buffer.old.have_output ≡ false }
    ensures closed { buffer.new.have_output ≡ false }
    ensures keeps { KeepsClusters buffer.old buffer.new }
{
    if let Some((start, one)) = last
        && edges.heed(one, next.1)
        && start < next.0
        && next.0 < buffer.len()
        && !are_joined(buffer.info(), start, next.0)
    {
        buffer.unsafe_to_break(Some(start), Some(next.0 + 1));
    }
}

/// Whether letters of two graphemes are joined once these are turned.
fn are_joined(infos: &[hb_glyph_info_t], start: usize, next: usize) -> bool
    requires start { start < length infos.now }
    requires next { next ≤ length infos.now }
{
    first_letter(&infos[next..]).joins_next() && last_letter(&infos[..start + 1]).joins_previous()
}

/// The type of the character at a place.
fn type_at(infos: &[hb_glyph_info_t], place: usize) -> JoiningType {
    match infos.get(place) {
        Some(info) => joining_type(info.glyph_id, is_transparent(info)),
        None => Transparent,
    }
}

/// Whether letters join across the character, if Unicode does not list how it joins: a mark that takes no space, or a format character.
fn is_transparent(info: &hb_glyph_info_t) -> bool
    ensures { result ≡ is_transparent info.now }
{
    matches!(
        general_category(info),
        RB_UNICODE_GENERAL_CATEGORY_NON_SPACING_MARK
            | RB_UNICODE_GENERAL_CATEGORY_ENCLOSING_MARK
            | RB_UNICODE_GENERAL_CATEGORY_FORMAT
    )
}

/// The type of the first of these characters that is not transparent.
fn first_type(characters: &[char]) -> Option<JoiningType> {
    for character in characters {
        let own = joining_type(*character as u32, is_transparent_character(*character));
        if own != Transparent {
            return Some(own);
        }
    }
    None
}

/// The same of a character beside the text.
fn is_transparent_character(character: char) -> bool {
    matches!(
        character.general_category(),
        hb_unicode_general_category_t::NonspacingMark
            | hb_unicode_general_category_t::EnclosingMark
            | hb_unicode_general_category_t::Format
    )
}

/// The type of the letter that stands last once the graphemes of a text are turned: the last one of the first grapheme that has any.
fn first_letter(infos: &[hb_glyph_info_t]) -> JoiningType {
    let mut found = None;
    for place in 0..infos.len() {
        if found.is_some() && !is_continuation(&infos[place]) {
            break;
        }
        found = letter_at(infos, place).or(found);
    }
    found.unwrap_or(NonJoining)
}

/// The type of the letter that stands first then: the first one of the last grapheme that has any.
fn last_letter(infos: &[hb_glyph_info_t]) -> JoiningType {
    let mut found = None;
    for turn in 0..infos.len() {
        let place = infos.len() - 1 - turn;
        found = letter_at(infos, place).or(found);
        if found.is_some() && !is_continuation(&infos[place]) {
            break;
        }
    }
    found.unwrap_or(NonJoining)
}

/// The type of the letter at a place; `None` where it is transparent.
fn letter_at(infos: &[hb_glyph_info_t], place: usize) -> Option<JoiningType> {
    let own = type_at(infos, place);
    if own == Transparent { None } else { Some(own) }
}
