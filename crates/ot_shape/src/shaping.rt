//! The shaping of a text by a font: HarfBuzz's steps, one after the other.

ghost use Rattle.std.specs.Prelude.{◌≡◌, ◌≤◌, [], true, false, not, length, map, IfOk, IsSome, if◌then◌else◌};
ghost use Rattle.rb_common.specs.Direction.{is_forward};
ghost use Rattle.shaping_buffer.specs.Properties.{guessed};
ghost use Rattle.shaping_buffer.specs.State.{State};
ghost use Rattle.ot_characters.specs.Circle.{InsertsCircle};
ghost use Rattle.ot_characters.specs.FormedClusters.{with_clusters};
ghost use Rattle.ot_characters.specs.Properties.{set_properties};
ghost use Rattle.ot_characters.specs.Turned.{KeepsOrTurns};
ghost use Rattle.ot_shape.specs.Glyphs.{glyph_of, in_place};
ghost use Rattle.ot_shape.specs.Shaped.{Shapes};
ghost use Rattle.ot_shape.specs.TooLong.{IsTooLong};
ghost use Rattle.ot_shape.specs.ShapedClusters.{ShapedClusters};
ghost use Rattle.shaping_buffer.specs.KeepsClusters.{KeepsClusters};
ghost use Rattle.shaping_passes.specs.Refusals.{IsRefusal};

use crate::ending::finish_glyphs;
use crate::verified::shape_verified;
use font_face::Face;
use font_functions::{FontFunctions, OwnFunctions};
use ot_apply::{set_masks, substitute};
use ot_characters::{
    ensure_native_direction, form_clusters, insert_dotted_circle, keep_contexts, keep_numbers,
    rotate_characters, set_direction, set_properties,
};
use ot_gsub::substitute_start;
use ot_normalization::normalize;
use ot_plan::{FaceGlyphs, Step, TextPlan, Unwatched, Watch, plan_of_text};
use ot_positioning::position;
use ot_positions::recategorize_marks;
use script_shapers::ScriptShaper;
use shaping_buffer::{
    BufferFlags, Direction, Feature, Flags, GlyphBuffer, UnicodeBuffer, hb_buffer_t,
    hb_glyph_info_t,
};
use shaping_verification::ShapeError;
use std::alloc::AllocError;

/// Shapes a text by a font: finds a glyph for each of its characters, and says where each is drawn. A script and a
/// direction that were not said are guessed.
///
/// The glyphs have as many positions, and are no more than 64 for each character, or 16384. Each is in a cluster of the
/// text's. Where the characters' clusters rise, as `push_str` leaves them, and the cluster level is a monotone one, the
/// glyphs' clusters rise in a line that runs forward, and fall in one that runs backward, so that a caret has a place
/// at each glyph, whatever the font.
///
/// Under `BufferFlags::VERIFY` the glyphs are tested: whether clusters stand in order, and whether parts of the text that are
/// shaped apart, cut where this is said to be safe, have the same glyphs.
pub fn shape(
    face: &Face,
    features: &[Feature],
    text: UnicodeBuffer,
) -> Result<GlyphBuffer, ShapeError>
    ensures { Shapes (guessed text).direction text result }
{
    shape_watched(face, features, text, &mut Unwatched)
}

/// Shapes a text by a font, and tells of each step.
pub fn shape_watched<W: Watch>(
    face: &Face,
    features: &[Feature],
    text: UnicodeBuffer,
    watch: &mut W,
) -> Result<GlyphBuffer, ShapeError>
    ensures { Shapes (guessed text).direction text result }
{
    shape_with_functions_watched(face, &OwnFunctions { face }, features, text, watch)
}

/// Shapes a text by a font of which these functions answer the glyphs of characters and their measures, in place of its own tables. What
/// is said of `shape` holds whatever they answer. Lookups, the size and the variations are the face's.
pub fn shape_with_functions<F: FontFunctions>(
    face: &Face,
    font: &F,
    features: &[Feature],
    text: UnicodeBuffer,
) -> Result<GlyphBuffer, ShapeError>
    ensures { Shapes (guessed text).direction text result }
{
    shape_with_functions_watched(face, font, features, text, &mut Unwatched)
}

/// Shapes a text by a font of which these functions answer, and tells of each step.
pub fn shape_with_functions_watched<F: FontFunctions, W: Watch>(
    face: &Face,
    font: &F,
    features: &[Feature],
    text: UnicodeBuffer,
    watch: &mut W,
) -> Result<GlyphBuffer, ShapeError>
    ensures { Shapes (guessed text).direction text result }
{
    let mut text = text;
    text.guess_segment_properties();
    let buffer = text.into_buffer();
    let plan = plan_of_text(face, font, &buffer, features)?;
    shape_by_plan(face, font, &plan, features, buffer, watch)
}

/// Shapes the text of a buffer by a plan, and tests its glyphs where the buffer is to be verified.
pub(crate) fn shape_by_plan<F: FontFunctions, W: Watch>(
    face: &Face,
    font: &F,
    plan: &TextPlan,
    features: &[Feature],
    buffer: hb_buffer_t,
    watch: &mut W,
) -> Result<GlyphBuffer, ShapeError>
    requires { buffer.have_output ≡ false }
    ensures { Shapes buffer.direction buffer result }
{
    if buffer.flags.contains(BufferFlags::VERIFY) {
        shape_verified(face, font, plan, features, buffer)
    } else {
        shape_planned(face, font, plan, features, buffer, watch)
    }
}

/// Shapes the text of a buffer by a plan, without tests.
pub(crate) fn shape_planned<F: FontFunctions, W: Watch>(
    face: &Face,
    font: &F,
    plan: &TextPlan,
    features: &[Feature],
    text: hb_buffer_t,
    watch: &mut W,
) -> Result<GlyphBuffer, ShapeError>
    requires { text.have_output ≡ false }
    ensures { Shapes text.direction text result }
{
    let mut buffer = text;
    buffer.enter();
    if !shape_buffer(&mut buffer, face, font, plan, features, watch)? {
        return Err(ShapeError::TooLong);
    }
    Ok(GlyphBuffer::from_buffer(buffer))
}

/// How the text of a line is shaped.
#[derive(Clone, Copy)]
struct TextLine<'a> {
    /// The plan of the text.
    plan: &'a TextPlan,
    /// The features that a user asked for.
    features: &'a [Feature],
    /// The way in which the line was said to run.
    direction: Direction,
}

/// Shapes the text of a buffer. `Ok(false)` where a call was refused for length.
fn shape_buffer<F: FontFunctions, W: Watch>(
    buffer: &mut hb_buffer_t,
    face: &Face,
    font: &F,
    plan: &TextPlan,
    features: &[Feature],
    watch: &mut W,
) -> Result<bool, AllocError>
    requires { buffer.old.have_output ≡ false }
    ensures closed { IfOk result (λ done. done ≡ true → buffer.new.have_output ≡ false) }
    ensures placed { IfOk result (λ done. done ≡ true → IsSome buffer.new.positions) }
    ensures within { IfOk result (λ done. done ≡ true
        → length buffer.new.input ≤ buffer.old.max_len) }
    ensures direction { IfOk result (λ done. done ≡ true
        → buffer.new.direction ≡ buffer.old.direction) }
    ensures clusters { IfOk result (λ done. done ≡ true → ShapedClusters buffer.old buffer.new) }
    ensures refusal { IfOk result (λ done. done ≡ false → IsTooLong buffer.old.max_len buffer.new) }
{
    prove!(buffer.out_len() == 0);
    let limit = buffer.max_len();
    let line = TextLine {
        plan,
        features,
        direction: buffer.direction,
    };
    if !make_glyphs(buffer, face, font, &line, watch)? {
        return Ok(false);
    }
    if buffer.len() > limit {
        return Ok(false);
    }
    end_line(buffer, line.direction);
    watch.step(Step::Shaped, buffer)?;
    Ok(true)
}

/// Ends the shaping of a line that was said to run in this direction.
#[tactic(auto, using(shaping_buffer::proofs::ClosedKeepsLemmas::kept))]
fn end_line(buffer: &mut hb_buffer_t, direction: Direction)
    requires closed { buffer.old.have_output ≡ false }
    requires placed { IsSome buffer.old.positions }
    ensures closed { buffer.new.have_output ≡ false }
    ensures placed { IsSome buffer.new.positions }
    ensures empty { buffer.new.out ≡ [] }
    ensures length { length buffer.new.input ≡ length buffer.old.input }
    ensures direction { buffer.new.direction ≡ direction }
    ensures keeps { KeepsClusters buffer.old buffer.new }
{
    set_direction(buffer, direction);
    prove!(buffer.out_len() == 0);
    buffer.leave();
}

/// Makes glyphs of the characters of a line, with their positions. `Ok(false)` where a call was refused for length.
fn make_glyphs<F: FontFunctions, W: Watch>(
    buffer: &mut hb_buffer_t,
    face: &Face,
    font: &F,
    line: &TextLine<'_>,
    watch: &mut W,
) -> Result<bool, AllocError>
    requires closed { buffer.old.have_output ≡ false }
    requires direction { line.now.direction ≡ buffer.old.direction }
    ensures closed { IfOk result (λ done. done ≡ true → buffer.new.have_output ≡ false) }
    ensures placed { IfOk result (λ done. done ≡ true → IsSome buffer.new.positions) }
    ensures runs { IfOk result (λ done. done ≡ true
        → KeepsOrTurns (not (is_forward buffer.old.direction)) buffer.old buffer.new) }
    ensures refusal { IsRefusal false result buffer.new }
{
    if !begin_characters(buffer, font, line.plan)? {
        return Ok(false);
    }
    let is_turned = ensure_native_direction(buffer);
    if !shape_native(buffer, face, font, *line, watch)? {
        return Ok(false);
    }
    reverse_if(buffer, is_against(line.direction.is_forward(), is_turned));
    finish_glyphs(buffer, face, font, line.plan)
}

/// Whether the glyphs stand against the line: it runs forward and the text was turned, or it runs backward and the text was not.
fn is_against(is_forward: bool, is_turned: bool) -> bool
    ensures { result ≡ (if is_forward then is_turned else not is_turned) }
{
    if is_forward { is_turned } else { !is_turned }
}

/// Reverses the glyphs where this is said.
fn reverse_if(buffer: &mut hb_buffer_t, is_against: bool)
    requires closed { buffer.old.have_output ≡ false }
    requires placed { IsSome buffer.old.positions }
    ensures closed { buffer.new.have_output ≡ false }
    ensures placed { IsSome buffer.new.positions }
    ensures runs { KeepsOrTurns is_against buffer.old buffer.new }
{
    if is_against {
        buffer.reverse();
    }
}

/// Makes glyphs of characters that stand in the direction of their script. `Ok(false)` where a call was refused for length.
#[tactic(auto, using(shaping_buffer::proofs::ClosedKeepsLemmas::kept))]
fn shape_native<F: FontFunctions, W: Watch>(
    buffer: &mut hb_buffer_t,
    face: &Face,
    font: &F,
    line: TextLine<'_>,
    watch: &mut W,
) -> Result<bool, AllocError>
    requires { buffer.old.have_output ≡ false }
    ensures closed { IfOk result (λ done. done ≡ true → buffer.new.have_output ≡ false) }
    ensures placed { IfOk result (λ done. done ≡ true → IsSome buffer.new.positions) }
    ensures refusal { IsRefusal false result buffer.new }
    ensures keeps { IfOk result (λ done. done ≡ true → KeepsClusters buffer.old buffer.new) }
{
    if !prepare_characters(buffer, face, font, line.plan, line.direction)? {
        return Ok(false);
    }
    find_glyphs(buffer, face, line.plan, line.features, watch)?;
    if !substitute(buffer, face, font, line.plan, watch)? {
        return Ok(false);
    }
    position(buffer, face, font, line.plan, line.direction, watch)?;
    Ok(true)
}

/// Finds the glyph of each character, and the features that it has.
#[tactic(auto, using(shaping_buffer::proofs::ClosedKeepsLemmas::kept))]
fn find_glyphs<W: Watch>(
    buffer: &mut hb_buffer_t,
    face: &Face,
    plan: &TextPlan,
    features: &[Feature],
    watch: &mut W,
) -> Result<(), AllocError>
    requires { buffer.old.have_output ≡ false }
    ensures closed { IfOk result (λ _. buffer.new.have_output ≡ false) }
    ensures keeps { KeepsClusters buffer.old buffer.new }
{
    mask_characters(buffer, plan, features);
    watch.step(Step::Characters, buffer)?;
    map_glyphs(buffer, face);
    watch.step(Step::Glyphs, buffer)
}

/// Sets the features that each character has, and the classes of marks that are placed without the font's help.
#[tactic(auto, using(shaping_buffer::proofs::ClosedKeepsLemmas::kept))]
fn mask_characters(buffer: &mut hb_buffer_t, plan: &TextPlan, features: &[Feature])
    requires { buffer.old.have_output ≡ false }
    ensures closed { buffer.new.have_output ≡ false }
    ensures keeps { KeepsClusters buffer.old buffer.new }
{
    set_masks(buffer, plan, features);
    if plan.shape.fallback_mark_positioning {
        recategorize_marks(buffer);
    }
}

/// Sets the properties of the characters, and makes clusters of them. `Ok(false)` where a call was refused for length.
#[tactic(auto, using(shaping_buffer::proofs::ClosedKeepsLemmas::kept))]
fn begin_characters<F: FontFunctions>(
    buffer: &mut hb_buffer_t,
    font: &F,
    plan: &TextPlan,
) -> Result<bool, AllocError>
    requires { buffer.old.have_output ≡ false }
    ensures closed { IfOk result (λ done. done ≡ true → buffer.new.have_output ≡ false) }
    ensures refusal { IsRefusal false result buffer.new }
    ensures keeps { KeepsClusters buffer.old buffer.new }
{
    buffer.reset_masks(plan.shape.layout.global_mask);
    if !form_characters(buffer, font)? {
        return Ok(false);
    }
    keep_numbers(buffer);
    keep_joining(buffer, plan.script.shaper);
    Ok(true)
}

/// Sets the properties of the characters, puts a dotted circle before a text that wants one, and makes clusters. `Ok(false)` where a call
/// was refused for length.
#[tactic(auto, using(shaping_buffer::proofs::ClosedKeepsLemmas::kept))]
fn form_characters<F: FontFunctions>(buffer: &mut hb_buffer_t, font: &F) -> Result<bool, AllocError>
    requires { buffer.old.have_output ≡ false }
    ensures forms { IfOk result (λ done. (circled : State)
        × (InsertsCircle (F.has font.now) (set_properties buffer.old) circled done × (done ≡ true → buffer.new ≡ with_clusters circled))) }
    ensures closed { IfOk result (λ done. done ≡ true → buffer.new.have_output ≡ false) }
    ensures refusal { IsRefusal false result buffer.new }
    ensures keeps { KeepsClusters buffer.old buffer.new }
{
    set_properties(buffer);
    if !insert_dotted_circle(buffer, font)? {
        return Ok(false);
    }
    form_clusters(buffer);
    Ok(true)
}

/// Marks what may not be broken where letters join, for the contexts of a text that is turned.
fn keep_joining(buffer: &mut hb_buffer_t, shaper: ScriptShaper)
    requires { buffer.old.have_output ≡ false }
    ensures closed { buffer.new.have_output ≡ false }
    ensures keeps { KeepsClusters buffer.old buffer.new }
{
    if matches!(
        shaper,
        ScriptShaper::Arabic | ScriptShaper::UniversalJoining
    ) {
        keep_contexts(buffer);
    }
}

/// Prepares the characters by their script, and finds a glyph for each. `Ok(false)` where a call was refused for length.
#[tactic(auto, using(shaping_buffer::proofs::ClosedKeepsLemmas::kept))]
fn prepare_characters<F: FontFunctions>(
    buffer: &mut hb_buffer_t,
    face: &Face,
    font: &F,
    plan: &TextPlan,
    direction: Direction,
) -> Result<bool, AllocError>
    requires { buffer.old.have_output ≡ false }
    ensures closed { IfOk result (λ done. done ≡ true → buffer.new.have_output ≡ false) }
    ensures refusal { IsRefusal false result buffer.new }
    ensures keeps { KeepsClusters buffer.old buffer.new }
{
    if !plan
        .script
        .preprocess_text(buffer, &FaceGlyphs { face, font })?
    {
        return Ok(false);
    }
    rotate_characters(buffer, font, &plan.shape, direction);
    normalize(buffer, font, &plan.script)
}

/// Puts the glyph of each character in its place, with the properties that the font gives it.
fn map_glyphs(buffer: &mut hb_buffer_t, face: &Face)
    requires { buffer.old.have_output ≡ false }
    ensures is { buffer.new
        ≡ record buffer.old { input = map (glyph_of face.now.gdef.table.now) buffer.old.input } }
    ensures closed { buffer.new.have_output ≡ false }
    ensures keeps { KeepsClusters buffer.old buffer.new }
{
    put_glyphs(buffer);
    substitute_start(buffer, &face.gdef);
}

/// Puts the glyph of each character in its place.
fn put_glyphs(buffer: &mut hb_buffer_t)
    requires { buffer.old.have_output ≡ false }
    ensures is { buffer.new ≡ record buffer.old { input = map in_place buffer.old.input } }
    ensures closed { buffer.new.have_output ≡ false }
    ensures keeps { KeepsClusters buffer.old buffer.new }
{
    put_all(buffer.info_slice_mut());
}

/// Puts the glyph of each of the characters in its place.
#[tactic(auto, using(glyph_lists::proofs::MapLemmas::walks))]
fn put_all(infos: &mut [hb_glyph_info_t])
    ensures { infos.new ≡ map in_place infos.old }
{
    for info in infos.iter_mut() {
        put(info);
    }
}

/// Puts the glyph of a character in its place.
fn put(info: &mut hb_glyph_info_t)
    ensures { info.new ≡ in_place info.old }
{
    info.glyph_id = info.glyph_index();
}
