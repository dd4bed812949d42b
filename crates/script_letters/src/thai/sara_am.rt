//! The vowel AM of Thai and Lao: its ring belongs above the consonant, before the marks that stand above it, and only the rest behind
//! the consonant.

ghost use Rattle.std.specs.Prelude.{◌≡◌, ℕ, ◌+◌, ◌-◌, ◌<◌, ◌≤◌, false, true, length, slice_index_or, IfOk};
ghost use Rattle.glyph_lists.specs.Clusters.{clusters};
ghost use Rattle.rb_glyph.specs.declared.info.hb_glyph_info_t.{hb_glyph_info_t};
ghost use Rattle.shaping_buffer.specs.Step.{output_glyph};
ghost use Rattle.shaping_buffer.specs.KeepsClusters.{KeepsClusters};
ghost use Rattle.shaping_passes.specs.Refusals.{IsRefusal};
ghost use Rattle.shaping_passes.specs.Left.{HasCurrent, StaysOpen, StaysOpenAndTells};
ghost use Rattle.script_letters.specs.Thai as thai;
ghost use Rattle.script_letters.specs.Thai.{is_sara_am, is_above_base, parts_of};

use script_items::item::become_mark;
use script_items::moves::{merge_out, move_out_back};
use shaping_buffer::{HB_BUFFER_CLUSTER_LEVEL_MONOTONE_GRAPHEMES, hb_buffer_t, hb_glyph_info_t};
use std::alloc::AllocError;

/// A Lao character of these stands so far behind the Thai one.
const LAO: u32 = 0x80;

/// Whether the character is the vowel AM.
pub(crate) fn is_sara_am(character: u32) -> bool
    ensures { result ≡ is_sara_am character }
{
    character == 0xE33 || character == 0xE33 + LAO
}

/// Whether the character is a mark above its base, which the ring of AM goes in front of.
fn is_above_base(character: u32) -> bool
    ensures { result ≡ is_above_base character }
{
    matches!(
        character,
        0xE31 | 0xE34..=0xE37 | 0xE3B | 0xE47..=0xE4E | 0xEB1 | 0xEB4..=0xEB7 | 0xEBB | 0xEC7..=0xECE
    )
}

/// Takes each vowel AM apart: its ring is put before the marks above the consonant, and the rest stays.
#[tactic(auto, using(shaping_buffer::proofs::ClosedKeepsLemmas::kept))]
pub fn split_all(buffer: &mut hb_buffer_t) -> Result<bool, AllocError>
    requires { buffer.old.have_output ≡ false }
    ensures closed { IfOk result (λ done. done ≡ true → buffer.new.have_output ≡ false) }
    ensures refusal { IsRefusal false result buffer.new }
    ensures keeps { KeepsClusters buffer.old buffer.new }
{
    if plain_length(buffer.info()) == buffer.info().len() {
        return Ok(true);
    }
    buffer.clear_output();
    for _turn in 0..buffer.len() {
        if !split_next(buffer)? {
            return Ok(false);
        }
        if buffer.lookahead_len() == 0 {
            break;
        }
    }
    buffer.sync()
}

/// How many characters stand before the first vowel AM.
fn plain_length(infos: &[hb_glyph_info_t]) -> usize
    ensures { result ≤ length infos.now }
{
    for (i, info) in infos.iter().enumerate() {
        if is_sara_am(info.glyph_id) {
            return i;
        }
    }
    infos.len()
}

/// Reads up to the next vowel AM, and takes that apart.
#[tactic(auto, using(shaping_buffer::proofs::ClosedKeepsLemmas::kept))]
fn split_next(buffer: &mut hb_buffer_t) -> Result<bool, AllocError>
    requires { buffer.old.have_output ≡ true }
    ensures { StaysOpenAndTells false result buffer.old buffer.new }
{
    let plain = plain_length(buffer.info());
    if !buffer.next_glyphs(plain)? {
        return Ok(false);
    }
    if buffer.lookahead_len() == 0 {
        return Ok(true);
    }
    split_current(buffer)
}

/// Takes the vowel AM at the cursor apart.
#[tactic(auto, using(shaping_buffer::proofs::ClosedKeepsLemmas::kept))]
fn split_current(buffer: &mut hb_buffer_t) -> Result<bool, AllocError>
    requires { HasCurrent buffer.old }
    ensures { StaysOpenAndTells false result buffer.old buffer.new }
{
    let character = buffer.cur(0).glyph_id;
    let Some((ring, rest)) = parts_of(character) else {
        return buffer.next_glyph();
    };
    if !put_ring(buffer, ring)? || !buffer.replace_glyph(rest)? {
        return Ok(false);
    }
    move_ring(buffer);
    Ok(true)
}

/// The ring and the rest of a vowel AM.
fn parts_of(character: u32) -> Option<(u32, u32)>
    ensures { result ≡ parts_of character }
{
    if is_sara_am(character) {
        Some((character + 0x1A, character - 1))
    } else {
        None
    }
}

/// Puts the ring out, as a mark that goes on with the grapheme before it.
#[tactic(auto, using(shaping_buffer::proofs::ClosedKeepsLemmas::kept))]
fn put_ring(buffer: &mut hb_buffer_t, ring: u32) -> Result<bool, AllocError>
    requires { HasCurrent buffer.old }
    ensures glyph { IfOk result (λ _. 0 < length buffer.new.input) }
    ensures done { IfOk result (λ done. done ≡ (output_glyph ring buffer.old).done) }
    ensures is { IfOk result (λ done. done ≡ true → buffer.new ≡ thai.ring_put ring buffer.old) }
    ensures refused { IfOk result (λ done. done ≡ false → buffer.new ≡ (output_glyph ring buffer.old).state) }
    ensures stays { StaysOpenAndTells false result buffer.old buffer.new }
{
    if !buffer.output_glyph(ring)? {
        return Ok(false);
    }
    mark_last(buffer);
    Ok(true)
}

/// Makes the item that was put out last a mark that goes on with the grapheme before it.
fn mark_last(buffer: &mut hb_buffer_t)
    requires { buffer.old.have_output ≡ true }
    ensures is { buffer.new ≡ record buffer.old { out = thai.last_marked buffer.old.out } }
    ensures input { length buffer.new.input ≡ length buffer.old.input }
    ensures stays { StaysOpen buffer.old buffer.new }
{
    become_last_mark(buffer.out_info_mut());
}

/// Makes the last of these items such a mark.
#[tactic(auto, using(shaping_buffer::proofs::ClosedKeepsLemmas::clusters_written, std::proofs::lemmas::List::set_past))]
fn become_last_mark(infos: &mut [hb_glyph_info_t])
    ensures is { infos.new ≡ thai.last_marked infos.old }
    ensures clusters { clusters infos.new ≡ clusters infos.old }
{
    let count = infos.len();
    if count > 0 {
        become_mark(&mut infos[count - 1]);
    }
}

/// Moves the ring, which was put out last but one, in front of the marks above the consonant. Where there are none, both parts are in
/// one cluster with the character before them.
#[tactic(auto, using(crate::proofs::ThaiLemmas::rings, shaping_buffer::proofs::ClosedKeepsLemmas::kept))]
fn move_ring(buffer: &mut hb_buffer_t)
    requires { buffer.old.have_output ≡ true }
    ensures is { buffer.new ≡ thai.ring_in_place (length buffer.old.out) buffer.old }
    ensures stays { StaysOpen buffer.old buffer.new }
{
    let end = buffer.out_len();
    if end < 2 {
        return;
    }
    let start = run_start(buffer.out_info(), end - 2);
    place_ring(buffer, start, end);
}

/// Puts the ring, which is the last but one of `end` glyphs, before the marks from `start` on, if there are any.
#[tactic(auto, using(crate::proofs::ThaiLemmas::rings, shaping_buffer::proofs::ClosedKeepsLemmas::kept))]
fn place_ring(buffer: &mut hb_buffer_t, start: usize, end: usize)
    requires opened { buffer.old.have_output ≡ true }
    requires order { start + 2 ≤ end }
    requires last { end ≡ length buffer.old.out }
    ensures is { buffer.new ≡ thai.ring_placed start end buffer.old }
    ensures stays { StaysOpen buffer.old buffer.new }
{
    if start + 2 < end {
        put_before_marks(buffer, start, end);
    } else {
        merge_ring(buffer, start, end);
    }
}

/// Puts the ring, which is the last but one of `end` glyphs, before the marks from `start` on.
#[tactic(auto, using(shaping_buffer::proofs::ClosedKeepsLemmas::kept, script_items::proofs::MoveLemmas::part_is_one))]
fn put_before_marks(buffer: &mut hb_buffer_t, start: usize, end: usize)
    requires opened { buffer.old.have_output ≡ true }
    requires order { start + 2 < end }
    requires last { end ≡ length buffer.old.out }
    ensures is { buffer.new ≡ thai.ring_moved start end buffer.old }
    ensures stays { StaysOpen buffer.old buffer.new }
{
    merge_out(buffer, start, end);
    move_out_back(buffer, start, end - 2, end - 1);
}

/// Puts both parts into one cluster with the character before them, where clusters are graphemes.
#[tactic(auto, using(crate::proofs::ThaiLemmas::rings, shaping_buffer::proofs::ClosedKeepsLemmas::kept))]
fn merge_ring(buffer: &mut hb_buffer_t, start: usize, end: usize)
    requires opened { buffer.old.have_output ≡ true }
    requires order { start ≤ end }
    requires last { end ≡ length buffer.old.out }
    ensures is { buffer.new ≡ thai.ring_merged start end buffer.old }
    ensures stays { StaysOpen buffer.old buffer.new }
{
    if start != 0 && buffer.cluster_level == HB_BUFFER_CLUSTER_LEVEL_MONOTONE_GRAPHEMES {
        buffer.merge_out_clusters(start - 1, end);
    }
}

/// Where the marks above the base begin that end at a place.
fn run_start(infos: &[hb_glyph_info_t], end: usize) -> usize
    requires { end ≤ length infos.now }
    ensures within { result ≤ end }
    ensures marks { (k : ℕ) (d : hb_glyph_info_t) → result ≤ k → k < end
        → is_above_base (slice_index_or infos.now k d).glyph_id ≡ true }
    ensures longest { (d : hb_glyph_info_t) → 0 < result
        → is_above_base (slice_index_or infos.now (result - 1) d).glyph_id ≡ false }
{
    let mut start = end;
    while start > 0 && is_above_base(infos[start - 1].glyph_id) {
        start -= 1;
    }
    start
}
