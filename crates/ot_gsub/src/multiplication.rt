//! Edits that put one glyph or several in the place of one.

ghost use Rattle.std.specs.Prelude.{◌≡◌, ◌<◌, ◌==◌, ◌%◌, true, false, not, length, IfOk, Ok};
ghost use Rattle.ot_substitution.specs.GlyphTable.{listed};
ghost use Rattle.ot_layout.specs.LigatureParts as parts;
ghost use Rattle.ot_gsub.specs.Edits as edits;
ghost use Rattle.ot_gsub.specs.Edits.{GivesOrWants, put_parts};
ghost use Rattle.ot_gsub.specs.Open.{IsLeftOpen};
ghost use Rattle.ot_gsub.specs.Writing.{has_twin_before};
ghost use Rattle.shaping_buffer.specs.KeepsClusters.{KeepsClusters};
ghost use Rattle.shaping_buffer.specs.Step.{Meets};
ghost use Rattle.shaping_passes.specs.Refusals.{IsRefusal};

use crate::properties::{BASE, LIGATURE, Way, substituted_props};
use crate::substitution::Progress;
use crate::writing::{drop_behind, gives_cluster, glyph_ahead, hand_on, write_properties};
use font_tables::gdef::Gdef;
use ot_layout::ligature_parts::{ligature_id, mark_properties};
use ot_substitution::glyph_table::Glyphs;
use rb_glyph::hb_glyph_info_t;
use shaping_buffer::hb_buffer_t;
use std::alloc::AllocError;

/// Sets the properties of the current glyph to those of the glyph that comes into its place.
pub(crate) fn set_class(buffer: &mut hb_buffer_t, gdef: &Gdef, glyph: u16, way: Way, guess: u16)
    requires opened { buffer.old.have_output ≡ true }
    requires glyph { 0 < length buffer.old.input }
    ensures is { buffer.new ≡ edits.set_class gdef.now.table.now glyph way guess buffer.old }
    ensures opened { buffer.new.have_output ≡ true }
    ensures same_length { length buffer.new.input ≡ length buffer.old.input }
    ensures same_place { buffer.new.idx ≡ buffer.old.idx }
    ensures keeps { KeepsClusters buffer.old buffer.new }
{
    let mut written = glyph_ahead(buffer, 0);
    let props = substituted_props(gdef, written.glyph_props(), glyph, way, guess);
    written.set_glyph_props(props);
    write_properties(buffer, 0, &written);
}

/// Replaces the current glyph.
pub(crate) fn replace(buffer: &mut hb_buffer_t, gdef: &Gdef, glyph: u16) -> Result<bool, AllocError>
    requires opened { buffer.old.have_output ≡ true }
    requires glyph { 0 < length buffer.old.input }
    ensures meets { Meets (edits.replace gdef.now.table.now glyph buffer.old)
        (edits.set_class gdef.now.table.now glyph Way.Replaced 0 buffer.old) result buffer.new }
    ensures in_place { buffer.old.have_separate_output ≡ false → result ≡ Ok true }
    ensures left { IsLeftOpen result buffer.new }
    ensures refusal { IsRefusal false result buffer.new }
    ensures keeps { KeepsClusters buffer.old buffer.new }
{
    set_class(buffer, gdef, glyph, Way::Replaced, 0);
    buffer.replace_glyph(u32::from(glyph))
}

/// Replaces the current glyph by one of a set, by chance. As the next choice depends on this one, no line may be broken
/// anywhere.
pub(crate) fn choose(
    buffer: &mut hb_buffer_t,
    gdef: &Gdef,
    set: &Glyphs,
    progress: &mut Progress,
) -> Result<bool, AllocError>
    requires opened { buffer.old.have_output ≡ true }
    requires glyph { 0 < length buffer.old.input }
    ensures gives { GivesOrWants
        (edits.choose gdef.now.table.now set.now.table.now progress.new.random_state buffer.old) result buffer.new }
    ensures random { progress.new.random_state ≡ edits.next_random progress.old.random_state }
    ensures left { IsLeftOpen result buffer.new }
    ensures same_search { progress.new.search ≡ progress.old.search }
    ensures refusal { IsRefusal false result buffer.new }
    ensures keeps { KeepsClusters buffer.old buffer.new }
{
    mark_all(buffer);
    progress.random_state = next_random(progress.random_state);
    let index = if set.len() == 0 {
        0
    } else {
        progress.random_state % u32::from(set.len())
    };
    replace(buffer, gdef, set.glyph(index as u16))
}

/// Marks all glyphs as unsafe to break.
fn mark_all(buffer: &mut hb_buffer_t)
    requires { buffer.old.have_output ≡ true }
    ensures is { buffer.new ≡ edits.mark_all buffer.old }
    ensures opened { buffer.new.have_output ≡ true }
    ensures same_length { length buffer.new.input ≡ length buffer.old.input }
    ensures keeps { KeepsClusters buffer.old buffer.new }
{
    let end = buffer.len();
    buffer.unsafe_to_break_from_outbuffer(Some(0), Some(end));
}

/// Marks all glyphs as unsafe to break where the cluster of the current glyph, which is to go, is given to others before it.
fn mark_given(buffer: &mut hb_buffer_t)
    requires opened { buffer.old.have_output ≡ true }
    requires glyph { 0 < length buffer.old.input }
    ensures is { buffer.new ≡ edits.mark_given buffer.old }
    ensures opened { buffer.new.have_output ≡ true }
    ensures same_length { length buffer.new.input ≡ length buffer.old.input }
    ensures keeps { KeepsClusters buffer.old buffer.new }
{
    if gives_cluster(buffer) {
        mark_all(buffer);
    }
}

/// The next random number (the generator `minstd_rand` of C++, in 32 bits as HarfBuzz computes it).
fn next_random(state: u32) -> u32
    ensures { result ≡ edits.next_random state }
{
    state.wrapping_mul(48271) % 2147483647
}

/// Puts the glyphs of a sequence in the place of the current one, and none in the place of a glyph that is dropped.
pub(crate) fn multiply(
    buffer: &mut hb_buffer_t,
    gdef: &Gdef,
    sequence: &Glyphs,
) -> Result<bool, AllocError>
    requires opened { buffer.old.have_output ≡ true }
    requires glyph { 0 < length buffer.old.input }
    ensures gives { GivesOrWants (edits.multiply gdef.now.table.now sequence.now.table.now buffer.old) result buffer.new }
    ensures left { IsLeftOpen result buffer.new }
    ensures refusal { IsRefusal false result buffer.new }
    ensures keeps { KeepsClusters buffer.old buffer.new }
{
    if sequence.len() == 0 {
        hand_on(buffer);
        mark_given(buffer);
        buffer.delete_glyph();
        return Ok(true);
    }
    let whole = glyph_ahead(buffer, 0);
    for index in 0..sequence.len() {
        if !put_part(buffer, gdef, &whole, index, sequence.glyph(index))? {
            return Ok(false);
        }
    }
    drop_behind(buffer);
    Ok(true)
}

/// Puts one of the glyphs out that come into the place of a glyph, which is the current one but for its properties.
fn put_part(
    buffer: &mut hb_buffer_t,
    gdef: &Gdef,
    whole: &hb_glyph_info_t,
    index: u16,
    glyph: u16,
) -> Result<bool, AllocError>
    requires opened { buffer.old.have_output ≡ true }
    requires glyph { 0 < length buffer.old.input }
    ensures gives { GivesOrWants (edits.put_part gdef.now.table.now whole.now index glyph buffer.old) result buffer.new }
    ensures left { IsLeftOpen result buffer.new }
    ensures glyph { IfOk result (λ _. 0 < length buffer.new.input) }
    ensures twin { IfOk result (λ done. done ≡ true → has_twin_before buffer.new ≡ true) }
    ensures refusal { IsRefusal false result buffer.new }
    ensures keeps { KeepsClusters buffer.old buffer.new }
{
    set_component(buffer, index, ligature_id(whole) != 0);
    set_class(buffer, gdef, glyph, Way::Multiplied, part_guess(whole));
    buffer.output_glyph(u32::from(glyph))
}

/// The class that is guessed for the parts of a glyph.
fn part_guess(whole: &hb_glyph_info_t) -> u16
    ensures { result ≡ edits.part_guess whole.now }
{
    if whole.glyph_props() & LIGATURE != 0 {
        BASE
    } else {
        0
    }
}

/// Sets of which number the current glyph is, of those that come into the place of one that is no part of a ligature.
fn set_component(buffer: &mut hb_buffer_t, index: u16, is_part: bool)
    requires opened { buffer.old.have_output ≡ true }
    requires glyph { 0 < length buffer.old.input }
    ensures is { buffer.new ≡ edits.set_component is_part index buffer.old }
    ensures opened { buffer.new.have_output ≡ true }
    ensures same_length { length buffer.new.input ≡ length buffer.old.input }
    ensures same_place { buffer.new.idx ≡ buffer.old.idx }
    ensures keeps { KeepsClusters buffer.old buffer.new }
{
    if is_part {
        return;
    }
    let mut written = glyph_ahead(buffer, 0);
    written.set_lig_props(mark_properties(0, (index % 16) as u8));
    write_properties(buffer, 0, &written);
}
