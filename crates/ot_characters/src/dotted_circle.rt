//! The dotted circle before a text that begins with a mark (HarfBuzz, `hb_insert_dotted_circle`).

ghost use Rattle.std.specs.Prelude.{◌≡◌, ◌<◌, true, false, length, IfOk, slice_index_or};
ghost use Rattle.glyph_lists.specs.Clusters.{zero_glyph};
ghost use Rattle.script_items.specs.Marks.{is_mark};
ghost use Rattle.shaping_buffer.specs.ClusterStep.{head_of};
ghost use Rattle.shaping_buffer.specs.KeepsClusters.{KeepsClusters};
ghost use Rattle.shaping_buffer.specs.Step.{Meets};
ghost use Rattle.shaping_buffer.specs.Step as step;
ghost use Rattle.ot_characters.specs.Circle as circles;
ghost use Rattle.shaping_passes.specs.Refusals.{IsRefusal};

use font_functions::FontFunctions;
use script_items::glyph_info::set_unicode_props;
use script_items::item::is_unicode_mark;
use shaping_buffer::{BufferFlags, Flags, hb_buffer_t, hb_glyph_info_t};
use std::alloc::AllocError;

/// The dotted circle, which a mark without a base is put on.
const DOTTED_CIRCLE: u32 = 0x25CC;

/// Puts a dotted circle before a text that is the beginning of a paragraph and begins with a mark.
#[tactic(auto, using(shaping_buffer::proofs::ClosedKeepsLemmas::kept))]
pub fn insert_dotted_circle<F: FontFunctions>(
    buffer: &mut hb_buffer_t,
    font: &F,
) -> Result<bool, AllocError>
    requires { buffer.old.have_output ≡ false }
    ensures inserts { IfOk result (circles.InsertsCircle (F.has font.now) buffer.old buffer.new) }
    ensures closed { IfOk result (λ done. done ≡ true → buffer.new.have_output ≡ false) }
    ensures refusal { IsRefusal false result buffer.new }
    ensures keeps { KeepsClusters buffer.old buffer.new }
{
    if !wants_circle(buffer) {
        return Ok(true);
    }
    if !has_circle(font) {
        return Ok(true);
    }
    insert_circle(buffer)
}

/// Whether a font has a glyph for the dotted circle.
fn has_circle<F: FontFunctions>(font: &F) -> bool
    ensures { result ≡ F.has font.now 0x25CC }
{
    font.nominal_glyph(DOTTED_CIRCLE).is_some()
}

/// Puts a dotted circle before a text.
#[tactic(auto, using(shaping_buffer::proofs::ClosedKeepsLemmas::kept))]
fn insert_circle(buffer: &mut hb_buffer_t) -> Result<bool, AllocError>
    requires closed { buffer.old.have_output ≡ false }
    requires some { 0 < length buffer.old.input }
    ensures inserts { IfOk result (circles.HasCircle buffer.old buffer.new) }
    ensures closed { IfOk result (λ done. done ≡ true → buffer.new.have_output ≡ false) }
    ensures refusal { IsRefusal false result buffer.new }
    ensures keeps { KeepsClusters buffer.old buffer.new }
{
    let circle = circle_before(&buffer.info()[0]);
    buffer.clear_output();
    put_circle(buffer, circle)?;
    buffer.sync()
}

/// Puts a dotted circle out, which is in the cluster of the current character.
fn put_circle(buffer: &mut hb_buffer_t, circle: hb_glyph_info_t) -> Result<bool, AllocError>
    requires opened { buffer.old.have_output ≡ true }
    requires some { 0 < length buffer.old.input }
    requires beside { circle.cluster ≡ (head_of buffer.old).cluster }
    ensures meets { Meets (step.output_info circle buffer.old) buffer.old result buffer.new }
    ensures opened { IfOk result (λ _. buffer.new.have_output ≡ true) }
    ensures keeps { KeepsClusters buffer.old buffer.new }
{
    buffer.output_info(circle)
}

/// The dotted circle of a mark.
fn circle_before(mark: &hb_glyph_info_t) -> hb_glyph_info_t
    ensures is { result ≡ circles.circle_before mark.now }
    ensures cluster { result.cluster ≡ mark.now.cluster }
{
    let mut circle = hb_glyph_info_t {
        glyph_id: DOTTED_CIRCLE,
        mask: mark.mask,
        cluster: mark.cluster,
        var1: 0,
        var2: 0,
    };
    set_unicode_props(&mut circle, &mut 0);
    circle
}

/// Whether the text begins a paragraph, with a mark.
#[tactic(auto, using(crate::proofs::CircleLemmas::mark_there))]
fn wants_circle(buffer: &hb_buffer_t) -> bool
    ensures is { result ≡ circles.wants_circle buffer.now }
    ensures some { result ≡ true → 0 < length buffer.now.input }
{
    if !may_have_circle(buffer) || !buffer.context(0).is_empty() {
        return false;
    }
    begins_with_mark(buffer.info())
}

/// Whether a text is said to begin a paragraph, and no circle is forbidden.
fn may_have_circle(buffer: &hb_buffer_t) -> bool
    ensures { result ≡ circles.may_have_circle buffer.now }
{
    buffer.flags.contains(BufferFlags::BEGINNING_OF_TEXT)
        && !buffer
            .flags
            .contains(BufferFlags::DO_NOT_INSERT_DOTTED_CIRCLE)
}

/// Whether the first of the characters is a mark.
#[tactic(auto, using(crate::proofs::CircleLemmas::no_mark))]
fn begins_with_mark(infos: &[hb_glyph_info_t]) -> bool
    ensures { result ≡ is_mark (slice_index_or infos.now 0 zero_glyph) }
{
    if infos.is_empty() {
        return false;
    }
    is_unicode_mark(&infos[0])
}
