//! The syllables of a text.

ghost use Rattle.std.specs.Prelude.{◌≡◌, ◌<◌, ◌≤◌, ◌+◌, false, true, length, IfOk, IfSome, None};
ghost use Rattle.glyph_lists.specs.Clusters.{clusters};
ghost use Rattle.shaping_buffer.specs.State.{len};
ghost use Rattle.shaping_buffer.specs.KeepsClusters.{KeepsClusters};
ghost use Rattle.shaping_passes.specs.Refusals.{IsRefusal};
ghost use Rattle.shaping_passes.specs.Left.{HasCurrent, StaysOpen, StaysOpenAndTells};
ghost use Rattle.script_letters.specs.Hangul as hangul;
ghost use Rattle.script_letters.specs.declared.hangul.syllables.Step.TheVariants.{Pass};

use crate::hangul::jamo::is_tone;
use crate::hangul::syllables::{Step, next_step, unsafe_length};
use crate::hangul::tones::read_tone;
use script_items::font::FontGlyphs;
use script_items::item::set_shaper_byte;
use shaping_buffer::{HB_BUFFER_CLUSTER_LEVEL_MONOTONE_GRAPHEMES, hb_buffer_t, hb_glyph_info_t};
use std::alloc::AllocError;

/// The syllable that was put out last: from its first character to behind its last. None where it is empty.
#[derive(Clone, Copy)]
pub(crate) struct Syllable {
    pub start: usize,
    pub end: usize,
}

/// Composes and takes apart syllables by what the font has, puts tone marks before their syllables, and lets each jamo keep where it
/// stands: 1 for a leading consonant, 2 for a vowel, 3 for a trailing consonant.
#[tactic(auto, using(shaping_buffer::proofs::ClosedKeepsLemmas::kept))]
pub fn prepare<F: FontGlyphs>(buffer: &mut hb_buffer_t, font: &F) -> Result<bool, AllocError>
    requires { buffer.old.have_output ≡ false }
    ensures closed { IfOk result (λ done. done ≡ true → buffer.new.have_output ≡ false) }
    ensures refusal { IsRefusal false result buffer.new }
    ensures keeps { KeepsClusters buffer.old buffer.new }
{
    buffer.clear_output();
    let mut last = Syllable { start: 0, end: 0 };
    for _turn in 0..buffer.len() {
        if buffer.lookahead_len() == 0 {
            break;
        }
        match read_next(buffer, font, last)? {
            Some(next) => last = next,
            None => return Ok(false),
        }
    }
    buffer.sync()
}

/// Reads a tone mark or a syllable. `None` where a call was refused.
#[tactic(auto, using(shaping_buffer::proofs::ClosedKeepsLemmas::kept))]
fn read_next<F: FontGlyphs>(
    buffer: &mut hb_buffer_t,
    font: &F,
    last: Syllable,
) -> Result<Option<Syllable>, AllocError>
    requires { HasCurrent buffer.old }
    ensures { StaysOpenAndTells None result buffer.old buffer.new }
{
    let first = buffer.cur(0).glyph_id;
    if !is_tone(first) {
        return read_syllable(buffer, font);
    }
    if !read_tone(buffer, font, last)? {
        return Ok(None);
    }
    let end = buffer.out_len();
    Ok(Some(Syllable { start: end, end }))
}

/// Reads a syllable, or a character that is none.
#[tactic(auto, using(shaping_buffer::proofs::ClosedKeepsLemmas::kept))]
fn read_syllable<F: FontGlyphs>(
    buffer: &mut hb_buffer_t,
    font: &F,
) -> Result<Option<Syllable>, AllocError>
    requires { HasCurrent buffer.old }
    ensures passed { hangul.step_at (F.has font.now) buffer.old.input ≡ Pass → IfOk result (λ next. IfSome next hangul.IsEmpty) }
    ensures stays { StaysOpenAndTells None result buffer.old buffer.new }
{
    let first = character_at(buffer.info(), 0);
    let second = character_at(buffer.info(), 1);
    let third = character_at(buffer.info(), 2);
    let step = next_step(font, first, second, third);
    flag_unsafe(buffer, unsafe_length(step, first, second, third));
    let start = buffer.out_len();
    if buffer.lookahead_len() == 0 {
        return Ok(Some(Syllable { start, end: start }));
    }
    if !take_step(buffer, step)? {
        return Ok(None);
    }
    let end = match step {
        Step::Pass => start,
        _ => buffer.out_len(),
    };
    Ok(Some(Syllable { start, end }))
}

/// The character at a place; 0 where there is none.
fn character_at(infos: &[hb_glyph_info_t], place: usize) -> u32
    ensures { result ≡ hangul.character_at infos.now place }
{
    if place < infos.len() {
        infos[place].glyph_id
    } else {
        0
    }
}

/// Flags so many characters from the cursor on as unsafe to break.
#[tactic(auto, using(crate::proofs::HangulLemmas::steps, shaping_buffer::proofs::ClosedKeepsLemmas::kept))]
fn flag_unsafe(buffer: &mut hb_buffer_t, count: usize)
    requires { buffer.old.have_output ≡ true }
    ensures is { buffer.new ≡ hangul.flagged_unsafe count buffer.old }
    ensures stays { StaysOpen buffer.old buffer.new }
{
    let start = buffer.idx();
    let end = buffer.len();
    if count > 0 && count <= end - start {
        buffer.unsafe_to_break(Some(start), Some(start + count));
    }
}

/// Does what was decided.
#[tactic(auto, using(shaping_buffer::proofs::ClosedKeepsLemmas::kept))]
fn take_step(buffer: &mut hb_buffer_t, step: Step) -> Result<bool, AllocError>
    requires { HasCurrent buffer.old }
    ensures { StaysOpenAndTells false result buffer.old buffer.new }
{
    let start = buffer.out_len();
    match step {
        Step::Compose(count, syllable) if count <= buffer.lookahead_len() => {
            buffer.replace_glyphs(count, 1, &[syllable])
        }
        Step::Jamo(count) if count <= buffer.lookahead_len() => {
            if !buffer.next_glyphs(count)? {
                return Ok(false);
            }
            end_jamo(buffer, start);
            Ok(true)
        }
        Step::Decompose(jamo, takes_next) => {
            if !put_jamo(buffer, jamo, takes_next)? {
                return Ok(false);
            }
            end_jamo(buffer, start);
            Ok(true)
        }
        _ => buffer.next_glyph(),
    }
}

/// Puts the jamo of the current syllable out in its place, and the trailing consonant behind it too, where it is to be taken.
#[tactic(auto, using(shaping_buffer::proofs::ClosedKeepsLemmas::kept))]
fn put_jamo(
    buffer: &mut hb_buffer_t,
    jamo: (u32, u32, u32),
    takes_next: bool,
) -> Result<bool, AllocError>
    requires { HasCurrent buffer.old }
    ensures { StaysOpenAndTells false result buffer.old buffer.new }
{
    let (leading, vowel, trailing) = jamo;
    let count = if trailing == 0 { 2 } else { 3 };
    if !buffer.replace_glyphs(1, count, &[leading, vowel, trailing])? {
        return Ok(false);
    }
    if takes_next && buffer.lookahead_len() > 0 {
        return buffer.next_glyph();
    }
    Ok(true)
}

/// Lets the jamo that were put out from a place on keep where they stand, in one cluster.
#[tactic(auto, using(shaping_buffer::proofs::ClosedKeepsLemmas::kept))]
fn end_jamo(buffer: &mut hb_buffer_t, start: usize)
    requires { buffer.old.have_output ≡ true }
    ensures is { buffer.new ≡ hangul.jamo_ended start buffer.old }
    ensures stays { StaysOpen buffer.old buffer.new }
{
    number_jamo(buffer, start);
    merge_jamo(buffer, start);
}

/// Puts the jamo that were put out from a place on into one cluster, where clusters are graphemes.
#[tactic(auto, using(crate::proofs::HangulLemmas::steps, shaping_buffer::proofs::ClosedKeepsLemmas::kept))]
fn merge_jamo(buffer: &mut hb_buffer_t, start: usize)
    requires { buffer.old.have_output ≡ true }
    ensures is { buffer.new ≡ hangul.jamo_merged start buffer.old }
    ensures stays { StaysOpen buffer.old buffer.new }
{
    let end = buffer.out_len();
    if buffer.cluster_level == HB_BUFFER_CLUSTER_LEVEL_MONOTONE_GRAPHEMES && start <= end {
        buffer.merge_out_clusters(start, end);
    }
}

/// Lets the jamo from a place on keep 1, 2 and 3.
fn number_jamo(buffer: &mut hb_buffer_t, start: usize)
    requires { buffer.old.have_output ≡ true }
    ensures is { buffer.new ≡ record buffer.old { out = hangul.numbered start buffer.old.out } }
    ensures stays { StaysOpen buffer.old buffer.new }
{
    number_all(buffer.out_info_mut(), start);
}

/// Does that with these items.
fn number_all(infos: &mut [hb_glyph_info_t], start: usize)
    ensures is { infos.new ≡ hangul.numbered start infos.old }
    ensures clusters { clusters infos.new ≡ clusters infos.old }
{
    if start < infos.len() {
        number_at(infos, start, 1);
        number_at(infos, start + 1, 2);
        number_at(infos, start + 2, 3);
    }
}

/// Lets the jamo at a place keep a number, if there is one.
#[tactic(auto, using(shaping_buffer::proofs::ClosedKeepsLemmas::clusters_written, std::proofs::lemmas::List::set_past), unfolding(crate::specs::Hangul::numbered_at))]
fn number_at(infos: &mut [hb_glyph_info_t], place: usize, number: u8)
    ensures is { infos.new ≡ hangul.numbered_at place number infos.old }
    ensures clusters { clusters infos.new ≡ clusters infos.old }
{
    if place < infos.len() {
        set_shaper_byte(&mut infos[place], number);
    }
}
