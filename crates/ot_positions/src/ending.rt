//! The last steps of shaping: glyphs that are not to be seen, and a text of which shaping was given up.

ghost use Rattle.std.specs.Prelude.{◌≡◌, false, IsSome, map, if◌then◌else◌};
ghost use Rattle.shaping_buffer.specs.ClusterStep as step;
ghost use Rattle.shaping_buffer.specs.KeepsClusters.{KeepsClusters};
ghost use Rattle.shaping_passes.specs.Ignorables.{hide_default_ignorables};
ghost use Rattle.ot_positions.specs.Ending as ending;
ghost use Rattle.ot_positions.specs.Ending.{is_selector, shown_selector};

use crate::cluster_flags::share_flags;
use crate::widths::take_width_at;
use font_functions::FontFunctions;
use rb_common::GlyphId;
use script_items::glyph_info::{clear_variation_selector, is_variation_selector};
use shaping_buffer::{
    BufferFlags, Flags, HB_BUFFER_SCRATCH_FLAG_HAS_DEFAULT_IGNORABLES,
    HB_BUFFER_SCRATCH_FLAG_HAS_VARIATION_SELECTOR_FALLBACK, hb_buffer_t, hb_glyph_info_t,
};
use shaping_passes::hide_default_ignorables;

/// Gives each variation selector that the font does not know the glyph that the buffer has for it, without width. Requires positions,
/// and that no output is open.
#[tactic(auto, using(shaping_buffer::proofs::ClosedKeepsLemmas::kept))]
pub fn show_variation_selectors(buffer: &mut hb_buffer_t)
    requires closed { buffer.old.have_output ≡ false }
    requires placed { IsSome buffer.old.positions }
    ensures is { buffer.new ≡ ending.show_variation_selectors buffer.old }
    ensures closed { buffer.new.have_output ≡ false }
    ensures placed { IsSome buffer.new.positions }
    ensures keeps { KeepsClusters buffer.old buffer.new }
{
    if !has_unknown_selectors(buffer) {
        return;
    }
    match not_found_selector(buffer) {
        Some(glyph) => show_selectors(buffer, glyph),
        None => {}
    }
}

/// Whether some character is a variation selector that the font does not know.
fn has_unknown_selectors(buffer: &hb_buffer_t) -> bool
    ensures { result ≡ ending.has_unknown_selectors buffer.now }
{
    buffer.scratch_flags & HB_BUFFER_SCRATCH_FLAG_HAS_VARIATION_SELECTOR_FALLBACK != 0
}

/// The glyph that the buffer has for such a selector.
fn not_found_selector(buffer: &hb_buffer_t) -> Option<u32>
    ensures { result ≡ buffer.now.not_found_variation_selector }
{
    buffer.not_found_variation_selector
}

/// Gives each of these selectors this glyph, without width.
#[tactic(auto, using(shaping_buffer::proofs::ClosedKeepsLemmas::kept))]
fn show_selectors(buffer: &mut hb_buffer_t, glyph: u32)
    requires closed { buffer.old.have_output ≡ false }
    requires placed { IsSome buffer.old.positions }
    ensures is { buffer.new ≡ ending.selectors_shown glyph buffer.old }
    ensures closed { buffer.new.have_output ≡ false }
    ensures placed { IsSome buffer.new.positions }
    ensures keeps { KeepsClusters buffer.old buffer.new }
{
    narrow_selectors(buffer);
    show_in(buffer, glyph);
}

/// Takes all width and every offset of these selectors.
#[tactic(auto, using(crate::proofs::WidthsLemmas::walks))]
fn narrow_selectors(buffer: &mut hb_buffer_t)
    requires closed { buffer.old.have_output ≡ false }
    requires placed { IsSome buffer.old.positions }
    ensures is { buffer.new ≡ ending.narrow_selectors buffer.old }
    ensures closed { buffer.new.have_output ≡ false }
    ensures placed { IsSome buffer.new.positions }
    ensures keeps { KeepsClusters buffer.old buffer.new }
{
    for i in 0..buffer.len() {
        if is_selector(&buffer.info()[i]) {
            take_width_at(buffer, i);
        }
    }
}

/// Whether the item is a variation selector that the font does not know.
#[tactic(auto, unfolding(crate::specs::Ending::is_selector))]
fn is_selector(info: &hb_glyph_info_t) -> bool
    ensures { result ≡ is_selector info.now }
{
    is_variation_selector(info)
}

/// Gives these selectors of a buffer this glyph.
fn show_in(buffer: &mut hb_buffer_t, glyph: u32)
    requires closed { buffer.old.have_output ≡ false }
    requires placed { IsSome buffer.old.positions }
    ensures is { buffer.new ≡ record buffer.old { input = map (shown_selector glyph) buffer.old.input } }
    ensures placed { IsSome buffer.new.positions }
    ensures keeps { KeepsClusters buffer.old buffer.new }
{
    show_all(buffer.info_slice_mut(), glyph);
}

/// Gives these selectors this glyph.
#[tactic(auto, using(glyph_lists::proofs::MapLemmas::walks))]
fn show_all(infos: &mut [hb_glyph_info_t], glyph: u32)
    ensures { infos.new ≡ map (shown_selector glyph) infos.old }
{
    for info in infos.iter_mut() {
        show(info, glyph);
    }
}

/// Gives an item this glyph, if it is such a selector.
#[tactic(auto, unfolding(crate::specs::Ending::shown_selector))]
fn show(info: &mut hb_glyph_info_t, glyph: u32)
    ensures { info.new ≡ shown_selector glyph info.old }
{
    if is_selector(info) {
        info.glyph_id = glyph;
        clear_variation_selector(info);
    }
}

/// Hides the glyphs of characters that are invisible by default: the font's space stands for them, where the buffer has no
/// glyph for that. Requires positions, and that no output is open.
#[tactic(auto, using(shaping_buffer::proofs::ClosedKeepsLemmas::kept))]
pub fn hide_ignorables<F: FontFunctions>(buffer: &mut hb_buffer_t, font: &F)
    requires closed { buffer.old.have_output ≡ false }
    requires placed { IsSome buffer.old.positions }
    ensures hides { ending.Hides (F.has font.now) (F.may_have font.now) buffer.old buffer.new }
    ensures closed { buffer.new.have_output ≡ false }
    ensures placed { IsSome buffer.new.positions }
    ensures keeps { KeepsClusters buffer.old buffer.new }
{
    if has_ignorables(buffer) {
        let glyph = glyph_for_ignorables(font, invisible_of(buffer));
        hide_by(buffer, glyph);
    }
}

/// Whether some characters are invisible by default.
fn has_ignorables(buffer: &hb_buffer_t) -> bool
    ensures { result ≡ ending.has_ignorables buffer.now }
{
    buffer.scratch_flags & HB_BUFFER_SCRATCH_FLAG_HAS_DEFAULT_IGNORABLES != 0
}

/// The glyph that the buffer has for what is not to be seen.
fn invisible_of(buffer: &hb_buffer_t) -> Option<GlyphId>
    ensures { result ≡ buffer.now.invisible }
{
    buffer.invisible
}

/// The glyph that stands for what is not to be seen: this one, or else that of the font's space.
fn glyph_for_ignorables<F: FontFunctions>(font: &F, invisible: Option<GlyphId>) -> Option<GlyphId>
    ensures { ending.StandsForThem (F.has font.now) (F.may_have font.now) invisible result }
{
    match invisible {
        Some(glyph) => Some(glyph),
        None => font.nominal_glyph(0x20),
    }
}

/// Hides these glyphs by the one that stands for them.
#[tactic(auto, using(shaping_buffer::proofs::ClosedKeepsLemmas::kept))]
fn hide_by(buffer: &mut hb_buffer_t, glyph: Option<GlyphId>)
    requires closed { buffer.old.have_output ≡ false }
    requires placed { IsSome buffer.old.positions }
    ensures is { buffer.new ≡ ending.hidden_by glyph buffer.old }
    ensures closed { buffer.new.have_output ≡ false }
    ensures placed { IsSome buffer.new.positions }
    ensures keeps { KeepsClusters buffer.old buffer.new }
{
    let invisible = invisible_of(buffer);
    set_invisible(buffer, glyph);
    share_flags_of_removed(buffer);
    hide_all(buffer);
    set_invisible(buffer, invisible);
}

/// Sets the glyph that stands for what is not to be seen.
fn set_invisible(buffer: &mut hb_buffer_t, glyph: Option<GlyphId>)
    requires closed { buffer.old.have_output ≡ false }
    requires placed { IsSome buffer.old.positions }
    ensures is { buffer.new ≡ record buffer.old { invisible = glyph } }
    ensures closed { buffer.new.have_output ≡ false }
    ensures placed { IsSome buffer.new.positions }
    ensures keeps { KeepsClusters buffer.old buffer.new }
{
    buffer.invisible = glyph;
}

/// Shares the glyph flags of clusters where the glyphs that are not to be seen are taken out.
#[tactic(auto, using(shaping_buffer::proofs::ClosedKeepsLemmas::kept))]
fn share_flags_of_removed(buffer: &mut hb_buffer_t)
    requires closed { buffer.old.have_output ≡ false }
    requires placed { IsSome buffer.old.positions }
    ensures is { buffer.new ≡ ending.flags_shared buffer.old }
    ensures closed { buffer.new.have_output ≡ false }
    ensures placed { IsSome buffer.new.positions }
    ensures keeps { KeepsClusters buffer.old buffer.new }
{
    if are_removed(buffer) {
        share_flags(buffer);
    }
}

/// Whether the glyphs that are not to be seen are taken out: no glyph stands for them, or the buffer's flags say so.
fn are_removed(buffer: &hb_buffer_t) -> bool
    ensures { result ≡ ending.are_removed buffer.now }
{
    buffer.invisible.is_none()
        || buffer
            .flags
            .contains(BufferFlags::REMOVE_DEFAULT_IGNORABLES)
}

/// Hides these glyphs.
fn hide_all(buffer: &mut hb_buffer_t)
    requires closed { buffer.old.have_output ≡ false }
    requires placed { IsSome buffer.old.positions }
    ensures is { buffer.new ≡ hide_default_ignorables buffer.old }
    ensures closed { buffer.new.have_output ≡ false }
    ensures placed { IsSome buffer.new.positions }
    ensures keeps { KeepsClusters buffer.old buffer.new }
{
    prove!(buffer.out_len() == 0);
    hide_default_ignorables(buffer);
}

/// Marks all clusters but the least as unsafe to break where shaping was given up: parts of the text, each with a budget of its own, may be
/// shaped further. Requires positions, and that no output is open.
pub fn mark_given_up(buffer: &mut hb_buffer_t)
    requires closed { buffer.old.have_output ≡ false }
    requires placed { IsSome buffer.old.positions }
    ensures is { buffer.new
        ≡ (if buffer.old.shaping_failed then step.unsafe_to_break None None buffer.old else buffer.old) }
    ensures closed { buffer.new.have_output ≡ false }
    ensures placed { IsSome buffer.new.positions }
    ensures keeps { KeepsClusters buffer.old buffer.new }
{
    if buffer.shaping_failed {
        buffer.unsafe_to_break(None, None);
    }
}
