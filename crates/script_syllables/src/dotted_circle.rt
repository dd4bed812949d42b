//! The dotted circle as the base of syllables that have none.

ghost use Rattle.std.specs.Prelude.{◌≡◌, ◌<◌, ◌≤◌, ◌++◌, true, false, length, drop, IfOk, IfSome, None};
ghost use Rattle.std.specs.List.{prefix_len};
ghost use Rattle.shaping_buffer.specs.ClusterStep.{both};
ghost use Rattle.shaping_passes.specs.Left.{HasCurrent};
ghost use Rattle.script_syllables.specs.Circle as circles;
ghost use Rattle.script_syllables.specs.Circle.{HasSides, IsRead, with_circles};
ghost use Rattle.script_syllables.specs.KeepsNumbers.{KeepsNumbers};
ghost use Rattle.shaping_passes.specs.Refusals.{IsRefusal};

use crate::category::position::Position;
use crate::font::FontForms;
use crate::item::{category_byte, set_category_byte, set_position};
use crate::syllables::kind_of;
use rb_glyph::{BufferFlags, Flags};
use shaping_buffer::{HB_BUFFER_SCRATCH_FLAG_HAS_BROKEN_SYLLABLE, hb_buffer_t, hb_glyph_info_t};
use std::alloc::AllocError;

/// The dotted circle.
pub(crate) const DOTTED_CIRCLE: u32 = 0x25CC;

/// How a shaper takes the dotted circle.
#[derive(Clone, Copy)]
pub struct CircleKind {
    /// The byte of its category.
    pub category: u8,
    /// Where it stands.
    pub position: Position,
    /// The byte of the category of a reph, behind which it is put.
    pub repha: Option<u8>,
    /// The kind of broken syllables.
    pub broken: u8,
}

/// What is put before the signs of a broken syllable: a glyph, and how it is taken.
#[derive(Clone, Copy)]
struct Circle {
    glyph: u32,
    kind: CircleKind,
}

/// Puts a dotted circle into each broken syllable, where the font has one. `Ok(false)` where the text would become too long.
#[tactic(auto, using(crate::proofs::NumbersLemmas::numbered))]
pub fn insert_dotted_circles<F: FontForms>(
    buffer: &mut hb_buffer_t,
    font: &F,
    kind: CircleKind,
) -> Result<bool, AllocError>
    requires { buffer.old.have_output ≡ false }
    ensures closed { IfOk result (λ done. done ≡ true → buffer.new.have_output ≡ false) }
    ensures refusal { IsRefusal false result buffer.new }
    ensures keeps { KeepsNumbers buffer.old buffer.new }
{
    let is_wanted = buffer.scratch_flags & HB_BUFFER_SCRATCH_FLAG_HAS_BROKEN_SYLLABLE != 0
        && !buffer
            .flags
            .contains(BufferFlags::DO_NOT_INSERT_DOTTED_CIRCLE);
    if !is_wanted {
        return Ok(true);
    }
    let Some(glyph) = font.glyph_of(DOTTED_CIRCLE) else {
        return Ok(true);
    };
    buffer.clear_output();
    if !put_circles(buffer, &Circle { glyph, kind })? {
        return Ok(false);
    }
    buffer.sync()
}

/// Reads all items, and puts the circles out.
#[tactic(auto, using(crate::proofs::NumbersLemmas::numbered))]
fn put_circles(buffer: &mut hb_buffer_t, circle: &Circle) -> Result<bool, AllocError>
    requires { buffer.old.have_output ≡ true }
    ensures is { IfOk result (λ done. done ≡ true
        → both buffer.new ≡ buffer.old.out ++ with_circles circle.now 0 buffer.old.input) }
    ensures opened { IfOk result (λ _. buffer.new.have_output ≡ true) }
    ensures refusal { IsRefusal false result buffer.new }
    ensures keeps { KeepsNumbers buffer.old buffer.new }
{
    let mut last = 0;
    for _turn in 0..buffer.len() {
        if buffer.lookahead_len() == 0 {
            return Ok(true);
        }
        match read_next(buffer, circle, last)? {
            Some(syllable) => last = syllable,
            None => return Ok(false),
        }
    }
    Ok(true)
}

/// Reads an item, and puts a circle out before it or behind its reph, where it is the first of a broken syllable. The number of the
/// last broken syllable; `None` where a call was refused.
#[tactic(auto, using(crate::proofs::NumbersLemmas::numbered))]
fn read_next(buffer: &mut hb_buffer_t, circle: &Circle, last: u8) -> Result<Option<u8>, AllocError>
    requires { HasCurrent buffer.old }
    ensures reads { IfOk result (λ read. IfSome read
        (λ next. IsRead circle.now (with_circles circle.now last buffer.old.input) buffer.old next buffer.new)) }
    ensures opened { IfOk result (λ _. buffer.new.have_output ≡ true) }
    ensures refusal { IsRefusal None result buffer.new }
    ensures keeps { KeepsNumbers buffer.old buffer.new }
{
    if begins_broken(circle, last, buffer.cur(0)) {
        return read_broken(buffer, circle);
    }
    if !buffer.next_glyph()? {
        return Ok(None);
    }
    Ok(Some(last))
}

/// Reads the rephs of a broken syllable, or where it has none its first item, and puts the circle out.
#[tactic(auto, using(crate::proofs::NumbersLemmas::numbered))]
fn read_broken(buffer: &mut hb_buffer_t, circle: &Circle) -> Result<Option<u8>, AllocError>
    requires { HasCurrent buffer.old }
    ensures reads { IfOk result (λ read. IfSome read
        (λ next. IsRead circle.now (circles.first_circled circle.now buffer.old.input) buffer.old next buffer.new)) }
    ensures opened { IfOk result (λ _. buffer.new.have_output ≡ true) }
    ensures refusal { IsRefusal None result buffer.new }
    ensures keeps { KeepsNumbers buffer.old buffer.new }
{
    let syllable = buffer.cur(0).syllable();
    let rephs = reph_count(buffer.info(), syllable, circle.kind.repha);
    if !put_circle(buffer, circle, rephs)? {
        return Ok(None);
    }
    if rephs > 0 {
        return Ok(Some(syllable));
    }
    if !buffer.next_glyph()? {
        return Ok(None);
    }
    Ok(Some(syllable))
}

/// Whether an item is the first of a broken syllable, where the last of these had this number.
fn begins_broken(circle: &Circle, last: u8, info: &hb_glyph_info_t) -> bool
    ensures { result ≡ circles.begins_broken circle.now last info.now }
{
    info.syllable() != last && kind_of(info) == circle.kind.broken
}

/// How many items at the start of a list are rephs of a syllable.
fn reph_count(infos: &[hb_glyph_info_t], syllable: u8, repha: Option<u8>) -> usize
    ensures within { result ≤ length infos.now }
    ensures is { result ≡ prefix_len (circles.is_reph repha syllable) infos.now }
{
    for count in 0..infos.len() {
        if !is_reph(&infos[count], syllable, repha) {
            return count;
        }
    }
    infos.len()
}

/// Whether an item is a reph of a syllable.
fn is_reph(info: &hb_glyph_info_t, syllable: u8, repha: Option<u8>) -> bool
    ensures { result ≡ circles.is_reph repha syllable info.now }
{
    match repha {
        Some(category) => info.syllable() == syllable && category_byte(info) == category,
        None => false,
    }
}

/// Reads so many rephs, and puts a circle out behind them, in the cluster and with the mask of the first item.
#[tactic(auto, using(crate::proofs::NumbersLemmas::numbered))]
fn put_circle(buffer: &mut hb_buffer_t, circle: &Circle, rephs: usize) -> Result<bool, AllocError>
    requires current { HasCurrent buffer.old }
    requires rephs { rephs ≤ length buffer.old.input }
    ensures puts { IfOk result (λ done. done ≡ true → HasSides
        (buffer.old.out ++ circles.circle_behind circle.now rephs buffer.old.input) (drop rephs buffer.old.input) buffer.new) }
    ensures opened { IfOk result (λ _. buffer.new.have_output ≡ true) }
    ensures refusal { IsRefusal false result buffer.new }
    ensures keeps { KeepsNumbers buffer.old buffer.new }
{
    let info = circle_at(circle, buffer.cur(0));
    if !buffer.next_glyphs(rephs)? {
        return Ok(false);
    }
    buffer.output_info(info)
}

/// A circle in the cluster, with the mask and in the syllable of an item.
fn circle_at(circle: &Circle, current: &hb_glyph_info_t) -> hb_glyph_info_t
    ensures is { result ≡ circles.circle_at circle.now current.now }
    ensures cluster { result.cluster ≡ current.now.cluster }
{
    let mut info = hb_glyph_info_t {
        glyph_id: circle.glyph,
        mask: current.mask,
        cluster: current.cluster,
        var1: 0,
        var2: 0,
    };
    info.set_syllable(current.syllable());
    set_category_byte(&mut info, circle.kind.category);
    set_position(&mut info, circle.kind.position);
    info
}
