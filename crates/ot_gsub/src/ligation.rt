//! Ligatures: several glyphs become one, and what was passed over between them stays after it.

ghost use Rattle.std.specs.Prelude.{◌≡◌, ◌<◌, ◌≤◌, ◌∷◌, ◌-◌, ◌%◌, true, false, drop, length, map, if◌then◌else◌};
ghost use Rattle.shaping_buffer.specs.Limits.{allocate_lig_id};
ghost use Rattle.ot_lookups.specs.LookupProps.{glyph_at};
ghost use Rattle.ot_gsub.specs.Edits.{GivesOrWants};
ghost use Rattle.ot_gsub.specs.Ligatures as ligatures;
ghost use Rattle.ot_gsub.specs.Open.{IsLeftOpen};
ghost use Rattle.ot_gsub.specs.Writing as writing;
ghost use Rattle.shaping_buffer.specs.KeepsClusters.{KeepsClusters};
ghost use Rattle.shaping_passes.specs.Refusals.{IsRefusal};

use crate::multiplication::set_class;
use crate::properties::{BASE, LIGATURE, MARK, Way};
use crate::writing::{drop_behind, glyph_ahead, hand_on, write_properties};
use font_tables::gdef::Gdef;
use ot_layout::MatchPositions;
use ot_layout::ligature_parts::{
    component_count, ligature_component, ligature_id, ligature_properties, mark_properties,
};
use ot_substitution::substitution::Ligation;
use rb_glyph::hb_glyph_info_t;
use shaping_buffer::hb_buffer_t;
use std::alloc::AllocError;

/// The bits of the Unicode properties that hold the general category.
const GENERAL_CATEGORY: u16 = 0x001F;

/// The general category of marks without width.
const NON_SPACING_MARK: u16 = 12;

/// The general category of letters that are neither capital nor small.
const OTHER_LETTER: u16 = 7;

/// What glyphs make up a ligature.
#[derive(Clone, Copy, PartialEq, Eq)]
enum Made {
    /// A base and marks: it stays a base, to which other marks may be attached.
    Base,
    /// Marks alone: it stays a mark of the ligature that they belong to.
    Mark,
    /// Others: it is a ligature with a number of its own.
    Ligature,
}

impl Made {
    /// Whether it has a number of its own.
    fn has_number(self) -> bool
        ensures { result ≡ ligatures.has_number self }
    {
        match self {
            Made::Base | Made::Mark => false,
            Made::Ligature => true,
        }
    }

    /// Whether it is of marks alone.
    fn is_of_marks_alone(self) -> bool
        ensures { result ≡ ligatures.are_marks_alone self }
    {
        match self {
            Made::Base | Made::Ligature => false,
            Made::Mark => true,
        }
    }
}

/// The components of a ligature that were taken in so far.
#[derive(Clone, Copy)]
struct Components {
    /// What makes up the ligature.
    made: Made,
    /// The number of the ligature, or 0.
    id: u8,
    /// The component that was taken in last, as it was before.
    last: hb_glyph_info_t,
    /// The place of that one, counted from the first.
    place: usize,
    /// How many components stand before that one, counted in 16.
    before: u8,
}

impl Components {
    /// The component of the ligature that a mark belongs to: of the last glyph it belonged to a component, or to all of it.
    fn component_of(&self, mark: &hb_glyph_info_t) -> u8
        ensures { result ≡ ligatures.component_of self.now mark.now }
    {
        let count = component_count(&self.last);
        let own = ligature_component(mark);
        let component = if own == 0 { count } else { own.min(count) };
        ((u32::from(self.before) + u32::from(component)) % 16) as u8
    }

    /// A mark that belongs to the ligature.
    fn renumbered(&self, mark: &hb_glyph_info_t) -> hb_glyph_info_t
        ensures { result ≡ ligatures.renumbered self.now mark.now }
    {
        let mut renumbered = *mark;
        renumbered.set_lig_props(mark_properties(self.id, self.component_of(mark)));
        renumbered
    }

    /// How many glyphs are passed over before the one at a place.
    fn passed_before(&self, place: usize) -> usize
        ensures { result ≡ place - self.now.place - 1 }
    {
        place.saturating_sub(self.place).saturating_sub(1)
    }

    /// Takes in the glyph at a place.
    fn take(&mut self, glyph: &hb_glyph_info_t, place: usize)
        ensures { self.new ≡ ligatures.taken self.old place glyph.now }
    {
        let before = u32::from(self.before) + u32::from(component_count(&self.last));
        self.before = (before % 16) as u8;
        self.last = *glyph;
        self.place = place;
    }

    /// Whether a glyph is a mark of the last component.
    fn has_mark(&self, glyph: &hb_glyph_info_t) -> bool
        ensures { result ≡ ligatures.follows self.now glyph.now }
    {
        ligature_id(glyph) == ligature_id(&self.last) && ligature_component(glyph) != 0
    }

    /// Whether marks of the last component follow it into the ligature.
    fn takes_marks_along(&self) -> bool
        ensures { result ≡ ligatures.marks_follow self.now }
    {
        !(self.made.is_of_marks_alone() || ligature_id(&self.last) == 0)
    }
}

/// Puts a ligature in the place of its components, whose places from the cursor on are given, in one cluster. What was
/// passed over between them stands after it, and belongs to the component before it.
pub(crate) fn ligate(
    buffer: &mut hb_buffer_t,
    gdef: &Gdef,
    ligation: &Ligation,
    places: &MatchPositions,
) -> Result<bool, AllocError>
    requires opened { buffer.old.have_output ≡ true }
    requires glyph { 0 < length buffer.old.input }
    ensures gives { GivesOrWants (ligatures.ligate gdef.now.table.now ligation.now places.now.items buffer.old) result buffer.new }
    ensures left { IsLeftOpen result buffer.new }
    ensures refusal { IsRefusal false result buffer.new }
    ensures keeps { KeepsClusters buffer.old buffer.new }
{
    let others = others(places.as_slice());
    let components = begin(buffer, ligation.end, others);
    if !put_ligature(buffer, gdef, ligation.ligature, components.made)? {
        return Ok(false);
    }
    take_in(buffer, &components, others)
}

/// The places behind the first.
fn others(places: &[usize]) -> &[usize]
    ensures { result.now ≡ drop 1 places.now }
{
    match places.split_first() {
        Some((_, others)) => others,
        None => &[],
    }
}

/// Puts the ligature out in the place of its first component.
fn put_ligature(
    buffer: &mut hb_buffer_t,
    gdef: &Gdef,
    ligature: u16,
    made: Made,
) -> Result<bool, AllocError>
    requires opened { buffer.old.have_output ≡ true }
    requires glyph { 0 < length buffer.old.input }
    ensures gives { GivesOrWants (ligatures.put_ligature gdef.now.table.now ligature made buffer.old) result buffer.new }
    ensures left { IsLeftOpen result buffer.new }
    ensures refusal { IsRefusal false result buffer.new }
    ensures keeps { KeepsClusters buffer.old buffer.new }
{
    let guess = if made.has_number() { LIGATURE } else { 0 };
    set_class(buffer, gdef, ligature, Way::Ligated, guess);
    buffer.replace_glyph(u32::from(ligature))
}

/// Takes in the components at these places after the first: drops each, and puts out what is passed over before it.
fn take_in(
    buffer: &mut hb_buffer_t,
    first: &Components,
    places: &[usize],
) -> Result<bool, AllocError>
    requires { buffer.old.have_output ≡ true }
    ensures gives { GivesOrWants (ligatures.take_in first.now places.now buffer.old) result buffer.new }
    ensures left { IsLeftOpen result buffer.new }
    ensures refusal { IsRefusal false result buffer.new }
    ensures keeps { KeepsClusters buffer.old buffer.new }
{
    let mut components = *first;
    for place in places {
        let passed = components.passed_before(*place);
        if !pass_over(buffer, &components, passed)? {
            return Ok(false);
        }
        if buffer.lookahead_len() == 0 {
            return Ok(true);
        }
        components.take(&glyph_ahead(buffer, 0), *place);
        drop_component(buffer);
    }
    follow_marks(buffer, &components);
    Ok(true)
}

/// Makes the glyphs of a match one cluster.
fn merge(buffer: &mut hb_buffer_t, end: usize)
    requires opened { buffer.old.have_output ≡ true }
    ensures is { buffer.new ≡ ligatures.merged end buffer.old }
    ensures opened { buffer.new.have_output ≡ true }
    ensures same_length { length buffer.new.input ≡ length buffer.old.input }
    ensures keeps { KeepsClusters buffer.old buffer.new }
{
    let len = buffer.len();
    let start = buffer.idx();
    buffer.merge_clusters(start, start.saturating_add(end).min(len));
}

/// The glyph at a place, and one without properties where there is none.
fn glyph_at(glyphs: &[hb_glyph_info_t], place: usize) -> hb_glyph_info_t
    ensures { result ≡ glyph_at glyphs.now place }
{
    if place < glyphs.len() {
        glyphs[place]
    } else {
        hb_glyph_info_t::default()
    }
}

/// What the first glyph makes up with those at the other places.
fn made_of(glyphs: &[hb_glyph_info_t], others: &[usize]) -> Made
    ensures { result ≡ ligatures.made_of (glyph_at glyphs.now 0) (map (glyph_at glyphs.now) others.now) }
{
    let first = glyph_at(glyphs, 0).glyph_props();
    if !are_marks(glyphs, others) {
        Made::Ligature
    } else if first & BASE != 0 {
        Made::Base
    } else if first & MARK != 0 {
        Made::Mark
    } else {
        Made::Ligature
    }
}

/// Whether the glyphs at these places are marks.
fn are_marks(glyphs: &[hb_glyph_info_t], places: &[usize]) -> bool
    ensures { result ≡ ligatures.are_marks (map (glyph_at glyphs.now) places.now) }
{
    for place in places {
        if glyph_at(glyphs, *place).glyph_props() & MARK == 0 {
            return false;
        }
    }
    true
}

/// How many components the first glyph has together with those at the other places.
fn count_together(glyphs: &[hb_glyph_info_t], others: &[usize]) -> u32
    requires { length others.now ≤ 64 }
    ensures { result ≡ ligatures.count_together (glyph_at glyphs.now 0 ∷ map (glyph_at glyphs.now) others.now) }
{
    let mut count = u32::from(component_count(&glyph_at(glyphs, 0)));
    for place in others {
        count += u32::from(component_count(&glyph_at(glyphs, *place)));
    }
    count
}

/// Begins a ligature of the current glyph and of those at the other places: makes its glyphs one cluster, and numbers it.
fn begin(buffer: &mut hb_buffer_t, end: usize, others: &[usize]) -> Components
    requires opened { buffer.old.have_output ≡ true }
    requires glyph { 0 < length buffer.old.input }
    requires few { length others.now ≤ 64 }
    ensures is { buffer.new ≡ ligatures.begun end others.now buffer.old }
    ensures first { result ≡ ligatures.first_component end others.now buffer.old }
    ensures opened { buffer.new.have_output ≡ true }
    ensures same_length { length buffer.new.input ≡ length buffer.old.input }
    ensures keeps { KeepsClusters buffer.old buffer.new }
{
    merge(buffer, end);
    let made = made_of(buffer.info(), others);
    let count = count_together(buffer.info(), others);
    let last = glyph_at(buffer.info(), 0);
    Components {
        made,
        id: number_if(buffer, made, count),
        last,
        place: 0,
        before: 0,
    }
}

/// Gives a ligature of so many components a number, if it has one of its own; else it is 0.
fn number_if(buffer: &mut hb_buffer_t, made: Made, count: u32) -> u8
    requires opened { buffer.old.have_output ≡ true }
    requires glyph { 0 < length buffer.old.input }
    ensures is { buffer.new ≡ ligatures.numbered_if made count buffer.old }
    ensures number { result ≡ ligatures.number_of made buffer.old }
    ensures opened { buffer.new.have_output ≡ true }
    ensures same_length { length buffer.new.input ≡ length buffer.old.input }
    ensures keeps { KeepsClusters buffer.old buffer.new }
{
    if made.has_number() {
        number(buffer, count)
    } else {
        0
    }
}

/// Gives the current glyph the number of a new ligature of so many components.
fn number(buffer: &mut hb_buffer_t, count: u32) -> u8
    requires opened { buffer.old.have_output ≡ true }
    requires glyph { 0 < length buffer.old.input }
    ensures is { buffer.new ≡ ligatures.numbered count buffer.old }
    ensures number { result ≡ (allocate_lig_id buffer.old).serial % 8 }
    ensures opened { buffer.new.have_output ≡ true }
    ensures same_length { length buffer.new.input ≡ length buffer.old.input }
    ensures keeps { KeepsClusters buffer.old buffer.new }
{
    let id = buffer.allocate_lig_id();
    let written = as_ligature(&glyph_ahead(buffer, 0), id, count);
    write_properties(buffer, 0, &written);
    id
}

/// A glyph as a ligature of this number and of so many components. A mark without width is a letter from now on.
fn as_ligature(glyph: &hb_glyph_info_t, id: u8, count: u32) -> hb_glyph_info_t
    ensures { result ≡ ligatures.as_ligature id count glyph.now }
{
    let mut ligature = *glyph;
    ligature.set_lig_props(ligature_properties(id, (count % 16) as u8));
    let unicode = glyph.unicode_props();
    if unicode & GENERAL_CATEGORY == NON_SPACING_MARK {
        ligature.set_unicode_props(unicode & 0xE0 | OTHER_LETTER);
    }
    ligature
}

/// Lets so many glyphs from the cursor on belong to the ligature.
fn renumber(buffer: &mut hb_buffer_t, components: &Components, count: usize)
    requires opened { buffer.old.have_output ≡ true }
    requires within { count ≤ length buffer.old.input }
    ensures is { buffer.new ≡ ligatures.renumber components.now count buffer.old }
    ensures opened { buffer.new.have_output ≡ true }
    ensures same_length { length buffer.new.input ≡ length buffer.old.input }
    ensures keeps { KeepsClusters buffer.old buffer.new }
{
    for ahead in 0..count {
        let mark = components.renumbered(&glyph_ahead(buffer, ahead));
        write_properties(buffer, ahead, &mark);
    }
}

/// The same where the ligature has a number.
fn renumber_if(buffer: &mut hb_buffer_t, components: &Components, count: usize)
    requires opened { buffer.old.have_output ≡ true }
    requires within { count ≤ length buffer.old.input }
    ensures is { buffer.new ≡ (if ligatures.has_number components.now.made
        then ligatures.renumber components.now count buffer.old else buffer.old) }
    ensures opened { buffer.new.have_output ≡ true }
    ensures same_length { length buffer.new.input ≡ length buffer.old.input }
    ensures keeps { KeepsClusters buffer.old buffer.new }
{
    if components.made.has_number() {
        renumber(buffer, components, count);
    }
}

/// Passes over so many glyphs, or as many as are left: puts them out, and lets them belong to the component before them.
fn pass_over(
    buffer: &mut hb_buffer_t,
    components: &Components,
    passed: usize,
) -> Result<bool, AllocError>
    requires { buffer.old.have_output ≡ true }
    ensures gives { GivesOrWants (ligatures.pass_over components.now passed buffer.old) result buffer.new }
    ensures left { IsLeftOpen result buffer.new }
    ensures refusal { IsRefusal false result buffer.new }
    ensures keeps { KeepsClusters buffer.old buffer.new }
{
    let count = passed.min(buffer.lookahead_len());
    renumber_if(buffer, components, count);
    buffer.next_glyphs(count)
}

/// Drops the current glyph, which is a component. Its glyph flags go to the ligature, or to what was passed over.
fn drop_component(buffer: &mut hb_buffer_t)
    requires opened { buffer.old.have_output ≡ true }
    requires glyph { 0 < length buffer.old.input }
    ensures is { buffer.new ≡ writing.drop_behind (writing.hand_on buffer.old) }
    ensures opened { buffer.new.have_output ≡ true }
    ensures keeps { KeepsClusters buffer.old buffer.new }
{
    hand_on(buffer);
    drop_behind(buffer);
}

/// Lets the marks behind the last component follow it, if they belonged to it.
fn follow_marks(buffer: &mut hb_buffer_t, components: &Components)
    requires { buffer.old.have_output ≡ true }
    ensures is { buffer.new ≡ ligatures.follow_marks components.now buffer.old }
    ensures opened { buffer.new.have_output ≡ true }
    ensures keeps { KeepsClusters buffer.old buffer.new }
{
    if components.takes_marks_along() {
        let count = followers(buffer.info(), components);
        renumber(buffer, components, count);
    }
}

/// How many marks of the last component stand at the head of these glyphs.
fn followers(glyphs: &[hb_glyph_info_t], components: &Components) -> usize
    ensures is { result ≡ ligatures.followers components.now glyphs.now }
    ensures within { result ≤ length glyphs.now }
{
    let mut count = 0;
    for glyph in glyphs {
        if !components.has_mark(glyph) {
            return count;
        }
        count += 1;
    }
    count
}
