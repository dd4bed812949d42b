//! Reverse substitutions: glyphs are replaced in place, from the last one to the first, so that each sees what became of
//! those after it.

ghost use Rattle.std.specs.Prelude.{◌≡◌, ◌<◌, ◌≤◌, ◌+◌, false, true, length, take, drop, None, if◌then◌else◌};
ghost use Rattle.rb_glyph.specs.Fields.{field};
ghost use Rattle.ot_layout.specs.Budget.{IsNotMore};
ghost use Rattle.ot_lookups.specs.LookupProps.{glyph_at};
ghost use Rattle.ot_gsub.specs.Changes.{TellsChanges};
ghost use Rattle.ot_gsub.specs.Edits as edits;
ghost use Rattle.ot_gsub.specs.Nested.{now_of};
ghost use Rattle.ot_gsub.specs.Runs.{AreDoneBackward, IsPlaceDone, mark_around, takes};
ghost use Rattle.ot_gsub.specs.Singles.{opened_at};
ghost use Rattle.ot_gsub.specs.Turn.{IsDecided};
ghost use Rattle.shaping_buffer.specs.KeepsClusters.{KeepsClusters};

use crate::properties::{Way, substituted_props};
use crate::substitution::{Progress, Substitutions};
use font_tables::gdef::Gdef;
use ot_layout::{ApplyContext, LookupOptions, Reach, SkippingIterator};
use ot_lookups::Lookup;
use ot_substitution::substitution::{Edit, edit_at};
use rb_glyph::hb_glyph_info_t;
use shaping_buffer::hb_buffer_t;

/// Applies a lookup of reverse substitutions at each glyph, from the last one to the first.
pub(crate) fn substitute_reverse(
    buffer: &mut hb_buffer_t,
    substitutions: &Substitutions,
    lookup: &Lookup,
    progress: &mut Progress,
)
    requires { buffer.old.have_output ≡ false }
    ensures run { 0 < progress.new.search.budget.steps
        → AreDoneBackward substitutions.now lookup.now (length buffer.old.input) (now_of buffer.old progress.old)
        (now_of buffer.new progress.new) }
    ensures tells { TellsChanges buffer.old progress.old.has_changed buffer.new progress.new.has_changed }
    ensures closed { buffer.new.have_output ≡ false }
    ensures spent { IsNotMore progress.old.search.budget progress.new.search.budget }
    ensures keeps { KeepsClusters buffer.old buffer.new }
{
    let count = buffer.len();
    for turn in 0..count {
        substitute_one(buffer, substitutions, lookup, progress, count - 1 - turn);
    }
}

/// Applies the lookup to the glyph at a place, if there is one.
fn substitute_one(
    buffer: &mut hb_buffer_t,
    substitutions: &Substitutions,
    lookup: &Lookup,
    progress: &mut Progress,
    place: usize,
)
    requires { buffer.old.have_output ≡ false }
    ensures done { 0 < progress.new.search.budget.steps
        → IsPlaceDone substitutions.now lookup.now place (now_of buffer.old progress.old) (now_of buffer.new progress.new) }
    ensures tells { TellsChanges buffer.old progress.old.has_changed buffer.new progress.new.has_changed }
    ensures closed { buffer.new.have_output ≡ false }
    ensures spent { IsNotMore progress.old.search.budget progress.new.search.budget }
    ensures keeps { KeepsClusters buffer.old buffer.new }
{
    let edit = decide(buffer, substitutions, lookup, progress, place);
    mark_concat(buffer, &progress.search.reach, place);
    let Some(edit) = edit else {
        return;
    };
    progress.has_changed = true;
    make(buffer, substitutions.gdef, place, &edit);
}

/// Makes an edit of the glyph at a place.
fn make(buffer: &mut hb_buffer_t, gdef: &Gdef, place: usize, edit: &Edit)
    requires { buffer.old.have_output ≡ false }
    ensures is { buffer.new ≡ edits.made_in_place gdef.now.table.now place edit.now buffer.old }
    ensures closed { buffer.new.have_output ≡ false }
    ensures keeps { KeepsClusters buffer.old buffer.new }
{
    if let Edit::ReplaceInPlace(change) = *edit {
        mark_break(buffer, change.from, place.saturating_add(change.to));
        replace_in_place(buffer, gdef, place, change.glyph);
    }
}

/// What the lookup does at a place.
fn decide<'a>(
    buffer: &hb_buffer_t,
    substitutions: &Substitutions<'a>,
    lookup: &Lookup,
    progress: &mut Progress,
    place: usize,
) -> Option<Edit<'a>>
    requires { buffer.now.have_output ≡ false }
    ensures decided { 0 < progress.new.search.budget.steps → takes substitutions.now lookup.now place buffer.now ≡ true
        → IsDecided substitutions.now lookup.now false (opened_at place buffer.now) progress.new.search.places.items result }
    ensures passed { takes substitutions.now lookup.now place buffer.now ≡ false
        → (result ≡ None) × (progress.new.search.reach.to ≡ 0) × (now_of buffer.now progress.new ≡ now_of buffer.now progress.old) }
    ensures same_random { progress.new.random_state ≡ progress.old.random_state }
    ensures same_changed { progress.new.has_changed ≡ progress.old.has_changed }
    ensures spent { IsNotMore progress.old.search.budget progress.new.search.budget }
{
    progress.search.reach = Reach::none(0);
    if !is_taken(buffer, substitutions, lookup, place) {
        return None;
    }
    let options = &substitutions.options;
    let glyphs = buffer.info();
    let ctx = ApplyContext {
        out: glyphs_before(glyphs, place),
        input: glyphs_from(glyphs, place),
        iterator: SkippingIterator::over_input(lookup.lookup_props, options, false),
        context: SkippingIterator::over_context(lookup.lookup_props, options, false),
        syllable: syllable_at(glyphs, options, place),
        is_level: true,
    };
    progress.search.reach = Reach::none(place);
    edit_at(
        substitutions.list,
        lookup,
        options,
        false,
        &ctx,
        &mut progress.search,
    )
}

/// Whether the lookup is for the glyph at a place, if there is one.
fn is_taken(
    buffer: &hb_buffer_t,
    substitutions: &Substitutions,
    lookup: &Lookup,
    place: usize,
) -> bool
    requires { buffer.now.have_output ≡ false }
    ensures takes { result ≡ takes substitutions.now lookup.now place buffer.now }
    ensures within { result ≡ true → place < length buffer.now.input }
{
    let glyphs = buffer.info();
    if place >= glyphs.len() {
        return false;
    }
    lookup.is_for(substitutions.options.mask, &glyphs[place])
}

/// The glyphs before a place.
fn glyphs_before(glyphs: &[hb_glyph_info_t], place: usize) -> &[hb_glyph_info_t]
    requires { place ≤ length glyphs.now }
    ensures { result.now ≡ take place glyphs.now }
{
    &glyphs[..place]
}

/// The glyphs from a place on.
fn glyphs_from(glyphs: &[hb_glyph_info_t], place: usize) -> &[hb_glyph_info_t]
    requires { place ≤ length glyphs.now }
    ensures { result.now ≡ drop place glyphs.now }
{
    &glyphs[place..]
}

/// The syllable of the glyph at a place where all glyphs of a match are of one syllable, or else 0.
fn syllable_at(glyphs: &[hb_glyph_info_t], options: &LookupOptions, place: usize) -> u8
    requires { place < length glyphs.now }
    ensures { result ≡ (if options.now.per_syllable then field (glyph_at glyphs.now place).var1 24 8 else 0) }
{
    if options.per_syllable {
        glyphs[place].syllable()
    } else {
        0
    }
}

/// Marks the glyphs that were looked at from a place on, and before it, as unsafe to concatenate.
fn mark_concat(buffer: &mut hb_buffer_t, reach: &Reach, place: usize)
    requires { buffer.old.have_output ≡ false }
    ensures is { buffer.new ≡ mark_around place reach.now buffer.old }
    ensures closed { buffer.new.have_output ≡ false }
    ensures keeps { KeepsClusters buffer.old buffer.new }
{
    let to = place.saturating_add(reach.to).min(buffer.len());
    if reach.to > 0 && reach.from <= to {
        buffer.unsafe_to_concat_from_outbuffer(Some(reach.from), Some(to));
    }
}

/// Marks the glyphs of a range as unsafe to break.
fn mark_break(buffer: &mut hb_buffer_t, from: usize, to: usize)
    requires { buffer.old.have_output ≡ false }
    ensures is { buffer.new ≡ edits.mark_break from to buffer.old }
    ensures closed { buffer.new.have_output ≡ false }
    ensures keeps { KeepsClusters buffer.old buffer.new }
{
    let to = to.min(buffer.len());
    if from <= to {
        buffer.unsafe_to_break_from_outbuffer(Some(from), Some(to));
    }
}

/// Replaces the glyph at a place of the buffer.
fn replace_in_place(buffer: &mut hb_buffer_t, gdef: &Gdef, place: usize, glyph: u16)
    requires { buffer.old.have_output ≡ false }
    ensures is { buffer.new ≡ edits.replace_in_place gdef.now.table.now place glyph buffer.old }
    ensures closed { buffer.new.have_output ≡ false }
    ensures keeps { KeepsClusters buffer.old buffer.new }
{
    set_glyph_at(buffer.info_slice_mut(), gdef, place, glyph);
}

/// Replaces the glyph at a place.
fn set_glyph_at(glyphs: &mut [hb_glyph_info_t], gdef: &Gdef, place: usize, glyph: u16)
    ensures { glyphs.new ≡ edits.replace_at gdef.now.table.now place glyph glyphs.old }
{
    if place < glyphs.len() {
        let mut written = glyphs[place];
        let props = substituted_props(gdef, written.glyph_props(), glyph, Way::Replaced, 0);
        written.set_glyph_props(props);
        written.glyph_id = u32::from(glyph);
        glyphs[place] = written;
    }
}
