//! Glyphs that stand closer or farther apart at a size, by Apple's table `trak`: HarfBuzz's `hb_aat_layout_track`.

ghost use Rattle.std.specs.Prelude.{◌≡◌, ◌<◌, false, IsSome, length, slice_index_or};
ghost use Rattle.glyph_lists.specs.Clusters.{zero_glyph};
ghost use Rattle.ot_positions.specs.ChangedAt.{changed_at, position_changed};
ghost use Rattle.ot_positions.specs.Tracking as tracking;
ghost use Rattle.ot_positions.specs.Tracking.{begun, is_tracked, moved_apart, space_of};
ghost use Rattle.shaping_buffer.specs.KeepsClusters.{KeepsClusters};

use crate::positions::is_horizontal_line;
use aat_tables::tracking::Tracking;
use font_face::Face;
use script_items::glyph_info::is_continuation;
use shaping_buffer::{GlyphPosition, hb_buffer_t, hb_glyph_info_t};

/// How far glyphs are moved apart, in the direction of the line.
#[derive(Clone, Copy)]
pub(crate) struct Space {
    /// Whether the line is horizontal.
    pub is_horizontal: bool,
    /// How much is added to the advance.
    pub advance: i32,
    /// How far the glyph itself is moved.
    pub offset: i32,
}

/// Moves graphemes apart that have a bit of the mask, as far as the font says it for its size in points. Requires positions, and that no
/// output is open.
#[tactic(auto, using(shaping_buffer::proofs::ClosedKeepsLemmas::kept))]
pub fn track(buffer: &mut hb_buffer_t, face: &Face, mask: u32)
    requires closed { buffer.old.have_output ≡ false }
    requires placed { IsSome buffer.old.positions }
    ensures is { buffer.new ≡ tracking.track face.now mask buffer.old }
    ensures closed { buffer.new.have_output ≡ false }
    ensures placed { IsSome buffer.new.positions }
    ensures keeps { KeepsClusters buffer.old buffer.new }
{
    if is_idle(face, mask) {
        return;
    }
    let space = space_of(face, is_horizontal_line(buffer));
    move_all_apart(buffer, &space, mask);
}

/// Whether no glyph is moved: there is no mask, or the font has no size in points.
#[tactic(auto, unfolding(crate::specs::Tracking::is_idle))]
fn is_idle(face: &Face, mask: u32) -> bool
    ensures { result ≡ tracking.is_idle mask face.now }
{
    mask == 0 || !(0.0 < face.points_per_em)
}

/// How far glyphs are moved apart in a font at its size.
#[tactic(auto, unfolding(crate::specs::Tracking::space_of))]
fn space_of(face: &Face, is_horizontal: bool) -> Space
    ensures { result ≡ space_of face.now is_horizontal }
{
    let units = units_of(face, is_horizontal);
    Space {
        is_horizontal,
        advance: at_size(face, is_horizontal, units),
        offset: at_size(face, is_horizontal, units / 2),
    }
}

/// How many font units the table adds at the size of a font in points.
fn units_of(face: &Face, is_horizontal: bool) -> i32
    ensures { result ≡ tracking.units_of face.now is_horizontal }
{
    Tracking::new(face.layout.trak).at(is_horizontal, face.points_per_em)
}

/// Font units along the line, at the size of the font.
fn at_size(face: &Face, is_horizontal: bool, units: i32) -> i32
    ensures { result ≡ tracking.at_size face.now is_horizontal units }
{
    let tracking = Tracking::new(face.layout.trak);
    let size = if is_horizontal {
        face.scale.x
    } else {
        face.scale.y
    };
    tracking.scaled(units, size, face.units_per_em)
}

/// Moves the glyphs that begin a grapheme, and have a bit of the mask.
#[tactic(auto, using(crate::proofs::TrackingLemmas::walks))]
fn move_all_apart(buffer: &mut hb_buffer_t, space: &Space, mask: u32)
    requires closed { buffer.old.have_output ≡ false }
    requires placed { IsSome buffer.old.positions }
    ensures is { buffer.new ≡ tracking.tracked mask space.now buffer.old }
    ensures closed { buffer.new.have_output ≡ false }
    ensures placed { IsSome buffer.new.positions }
    ensures keeps { KeepsClusters buffer.old buffer.new }
{
    for i in 0..buffer.len() {
        if is_tracked(buffer.info(), i, mask) {
            move_apart_at(buffer, i, space);
        }
    }
}

/// Whether the glyph at a place begins a grapheme, and has a bit of the mask.
#[inline]
#[tactic(auto, using(crate::proofs::TrackingLemmas::places))]
fn is_tracked(infos: &[hb_glyph_info_t], place: usize, mask: u32) -> bool
    requires { place < length infos.now }
    ensures { result ≡ is_tracked mask (slice_index_or (begun infos.now) place zero_glyph) }
{
    let info = &infos[place];
    info.mask & mask != 0 && (place == 0 || !is_continuation(info))
}

/// Moves the glyph at a place.
#[inline]
#[tactic(auto, using(crate::proofs::WidthsLemmas::written))]
fn move_apart_at(buffer: &mut hb_buffer_t, place: usize, space: &Space)
    requires closed { buffer.old.have_output ≡ false }
    requires placed { IsSome buffer.old.positions }
    ensures is { buffer.new ≡ position_changed (moved_apart space.now) place buffer.old }
    ensures placed { IsSome buffer.new.positions }
{
    move_in(buffer.pos_mut(), place, space);
}

/// Moves the glyph at a place of these positions.
#[inline]
fn move_in(positions: &mut [GlyphPosition], place: usize, space: &Space)
    ensures { positions.new ≡ changed_at (moved_apart space.now) place positions.old }
{
    if place < positions.len() {
        move_apart(&mut positions[place], space);
    }
}

/// Moves a glyph.
#[tactic(auto, unfolding(crate::specs::Tracking::moved_apart))]
fn move_apart(position: &mut GlyphPosition, space: &Space)
    ensures { position.new ≡ moved_apart space.now position.old }
{
    if space.is_horizontal {
        position.x_advance = position.x_advance.wrapping_add(space.advance);
        position.x_offset = position.x_offset.wrapping_add(space.offset);
    } else {
        position.y_advance = position.y_advance.wrapping_add(space.advance);
        position.y_offset = position.y_offset.wrapping_add(space.offset);
    }
}
