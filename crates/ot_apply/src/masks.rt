//! Which glyphs have a feature (HarfBuzz, `hb_ot_shape_setup_masks`): the masks of fractions, of the forms of letters, and of features
//! that are asked for in a part of the text.

ghost use Rattle.std.specs.Prelude.{◌≡◌, ◌<◌, ◌≤◌, ◌+◌, false, length, map};
ghost use Rattle.glyph_lists.specs.Marks.{with_glyph_flags};
ghost use Rattle.glyph_lists.specs.Parts.{map_range};
ghost use Rattle.ot_apply.specs.Masks as steps;
ghost use Rattle.shaping_buffer.specs.ClusterStep as step;
ghost use Rattle.shaping_buffer.specs.KeepsClusters.{KeepsClusters};

use ot_characters::is_decimal_number;
use ot_map::{LayoutPlan, OtShapePlan, PlannedFeature};
use ot_plan::TextPlan;
use rb_text::Feature;
use shaping_buffer::{
    Direction, HB_BUFFER_SCRATCH_FLAG_HAS_NON_ASCII, hb_buffer_t, hb_glyph_info_t,
};

/// The slash of a fraction.
const FRACTION_SLASH: u32 = 0x2044;

/// Sets the masks of a text that is mapped to glyphs, but has its characters yet.
#[tactic(auto, using(shaping_buffer::proofs::ClosedKeepsLemmas::kept))]
pub fn set_masks(buffer: &mut hb_buffer_t, plan: &TextPlan, features: &[Feature])
    requires { buffer.old.have_output ≡ false }
    ensures set { steps.HasMasks plan.now features.now buffer.old buffer.new }
    ensures closed { buffer.new.have_output ≡ false }
    ensures keeps { KeepsClusters buffer.old buffer.new }
{
    set_fractions(buffer, &plan.shape);
    set_masks_of_script(buffer, plan);
    set_feature_masks(buffer, &plan.shape.layout, features);
}

/// Sets the masks that the shaper of a script gives each glyph by itself.
#[tactic(auto, using(shaping_buffer::proofs::ClosedKeepsLemmas::kept))]
fn set_masks_of_script(buffer: &mut hb_buffer_t, plan: &TextPlan)
    requires { buffer.old.have_output ≡ false }
    ensures closed { buffer.new.have_output ≡ false }
    ensures keeps { KeepsClusters buffer.old buffer.new }
{
    plan.script.setup_masks(buffer);
    plan.syllables.setup_masks(buffer);
}

/// Gives the glyphs of parts of the text the values of features that are asked for there.
#[tactic(auto, using(shaping_buffer::proofs::ClosedKeepsLemmas::kept))]
fn set_feature_masks(buffer: &mut hb_buffer_t, layout: &LayoutPlan, features: &[Feature])
    requires { buffer.old.have_output ≡ false }
    ensures set { steps.HasFeatures layout.now features.now buffer.old buffer.new }
    ensures closed { buffer.new.have_output ≡ false }
    ensures keeps { KeepsClusters buffer.old buffer.new }
{
    for feature in features {
        set_feature_mask(buffer, layout, feature);
    }
}

/// Gives the glyphs of a part of the text the value of a feature, unless it is asked for in the whole text.
#[tactic(auto, using(shaping_buffer::proofs::ClosedKeepsLemmas::kept))]
fn set_feature_mask(buffer: &mut hb_buffer_t, layout: &LayoutPlan, feature: &Feature)
    requires { buffer.old.have_output ≡ false }
    ensures set { steps.HasFeature layout.now feature.now buffer.old buffer.new }
    ensures closed { buffer.new.have_output ≡ false }
    ensures keeps { KeepsClusters buffer.old buffer.new }
{
    if feature.is_global() {
        return;
    }
    set_value(buffer, layout, feature);
}

/// Gives the glyphs of a part of the text the value of a feature, if the plan has it.
#[tactic(auto, using(shaping_buffer::proofs::ClosedKeepsLemmas::kept))]
fn set_value(buffer: &mut hb_buffer_t, layout: &LayoutPlan, feature: &Feature)
    requires { buffer.old.have_output ≡ false }
    ensures set { steps.HasValue layout.now feature.now buffer.old buffer.new }
    ensures closed { buffer.new.have_output ≡ false }
    ensures keeps { KeepsClusters buffer.old buffer.new }
{
    match layout.feature(feature.tag) {
        Some(planned) => set_bits(buffer, planned, feature),
        None => {}
    }
}

/// Gives the glyphs of a part of the text the value of a feature, in the bits of the plan's.
fn set_bits(buffer: &mut hb_buffer_t, planned: &PlannedFeature, feature: &Feature)
    requires { buffer.old.have_output ≡ false }
    ensures is { buffer.new ≡ steps.with_value feature.now (Some planned.now) buffer.old }
    ensures closed { buffer.new.have_output ≡ false }
    ensures keeps { KeepsClusters buffer.old buffer.new }
{
    let bits = planned.bits;
    let value = bits.of_value(feature.value);
    buffer.set_masks(value, bits.mask(), feature.start, feature.end);
}

/// Sets the masks of fractions, if the font makes them. Their slash is past ASCII.
#[tactic(auto, using(crate::proofs::FractionLemmas::texts, shaping_buffer::proofs::ClosedKeepsLemmas::kept))]
fn set_fractions(buffer: &mut hb_buffer_t, plan: &OtShapePlan)
    requires { buffer.old.have_output ≡ false }
    ensures is { buffer.new ≡ steps.with_fractions plan.now buffer.old }
    ensures closed { buffer.new.have_output ≡ false }
    ensures keeps { KeepsClusters buffer.old buffer.new }
{
    if buffer.scratch_flags & HB_BUFFER_SCRATCH_FLAG_HAS_NON_ASCII != 0 && plan.has_frac {
        set_each_fraction(buffer, plan);
    }
}

/// Sets the masks of each fraction: digits, a slash, and digits.
#[tactic(auto, using(shaping_buffer::proofs::ClosedKeepsLemmas::kept))]
fn set_each_fraction(buffer: &mut hb_buffer_t, plan: &OtShapePlan)
    requires { buffer.old.have_output ≡ false }
    ensures is { buffer.new ≡ steps.fractions_before plan.now (length buffer.old.input) buffer.old }
    ensures closed { buffer.new.have_output ≡ false }
    ensures keeps { KeepsClusters buffer.old buffer.new }
{
    let count = buffer.info().len();
    for place in 0..count {
        set_if_slash(buffer, place, plan);
    }
}

/// Sets the masks of a fraction, if its slash is at a place.
#[tactic(auto, using(crate::proofs::FractionLemmas::slashes, shaping_buffer::proofs::ClosedKeepsLemmas::kept))]
fn set_if_slash(buffer: &mut hb_buffer_t, place: usize, plan: &OtShapePlan)
    requires { buffer.old.have_output ≡ false }
    ensures is { buffer.new ≡ steps.slash_at plan.now place buffer.old }
    ensures closed { buffer.new.have_output ≡ false }
    ensures keeps { KeepsClusters buffer.old buffer.new }
{
    let infos = buffer.info();
    if place < infos.len() && is_slash(&infos[place]) {
        set_fraction(buffer, place, plan);
    }
}

/// Whether a character is the slash of a fraction.
fn is_slash(info: &hb_glyph_info_t) -> bool
    ensures { result ≡ steps.is_slash info.now }
{
    info.glyph_id == FRACTION_SLASH && !is_decimal_number(info)
}

/// Sets the masks of the fraction whose slash is at a place, if it has digits on both sides. Else the slash is unsafe to concatenate.
#[tactic(auto, using(crate::proofs::FractionLemmas::fractions, shaping_buffer::proofs::ClosedKeepsLemmas::kept))]
fn set_fraction(buffer: &mut hb_buffer_t, slash: usize, plan: &OtShapePlan)
    requires closed { buffer.old.have_output ≡ false }
    requires there { slash < length buffer.old.input }
    ensures is { buffer.new ≡ steps.fraction_at plan.now slash buffer.old }
    ensures closed { buffer.new.have_output ≡ false }
    ensures keeps { KeepsClusters buffer.old buffer.new }
{
    let start = digits_before(buffer.info(), slash);
    let end = digits_behind(buffer.info(), slash + 1);
    if start == slash {
        buffer.unsafe_to_concat(Some(slash), Some(slash + 1));
    } else if end == slash + 1 {
        buffer.unsafe_to_concat(Some(slash), Some(slash + 1));
    } else {
        keep_fraction(buffer, start, end);
        add_fraction(buffer, start, slash, end, plan);
    }
}

/// Marks a fraction as unsafe to break.
fn keep_fraction(buffer: &mut hb_buffer_t, start: usize, end: usize)
    requires closed { buffer.old.have_output ≡ false }
    requires order { start ≤ end }
    requires within { end ≤ length buffer.old.input }
    ensures is { buffer.new ≡ step.unsafe_to_break (Some start) (Some end) buffer.old }
    ensures length { length buffer.new.input ≡ length buffer.old.input }
    ensures closed { buffer.new.have_output ≡ false }
    ensures keeps { KeepsClusters buffer.old buffer.new }
{
    buffer.unsafe_to_break(Some(start), Some(end));
}

/// Adds the masks of a fraction to its glyphs.
fn add_fraction(
    buffer: &mut hb_buffer_t,
    start: usize,
    slash: usize,
    end: usize,
    plan: &OtShapePlan,
)
    requires closed { buffer.old.have_output ≡ false }
    requires before { start ≤ slash }
    requires behind { slash < end }
    requires within { end ≤ length buffer.old.input }
    ensures is { buffer.new ≡ steps.with_fraction plan.now start slash end buffer.old }
    ensures closed { buffer.new.have_output ≡ false }
    ensures keeps { KeepsClusters buffer.old buffer.new }
{
    let direction = buffer.direction;
    add_fraction_masks(buffer.info_slice_mut(), start, slash, end, plan, direction);
}

/// Adds the masks of a fraction to these glyphs.
fn add_fraction_masks(
    infos: &mut [hb_glyph_info_t],
    start: usize,
    slash: usize,
    end: usize,
    plan: &OtShapePlan,
    direction: Direction,
)
    requires before { start ≤ slash }
    requires behind { slash < end }
    requires within { end ≤ length infos.old }
    ensures { infos.new ≡ steps.fraction_masked plan.now direction start slash end infos.old }
{
    add_mask_from(infos, start, slash, mask_before(plan, direction));
    add_mask_from(infos, slash, slash + 1, plan.frac_mask);
    add_mask_from(infos, slash + 1, end, mask_behind(plan, direction));
}

/// The mask of the digits before a slash: numerators in a line that runs forward.
fn mask_before(plan: &OtShapePlan, direction: Direction) -> u32
    ensures { result ≡ steps.mask_before plan.now direction }
{
    if direction.is_forward() {
        plan.numr_mask | plan.frac_mask
    } else {
        plan.frac_mask | plan.dnom_mask
    }
}

/// The mask of the digits behind a slash: denominators in a line that runs forward.
fn mask_behind(plan: &OtShapePlan, direction: Direction) -> u32
    ensures { result ≡ steps.mask_behind plan.now direction }
{
    if direction.is_forward() {
        plan.frac_mask | plan.dnom_mask
    } else {
        plan.numr_mask | plan.frac_mask
    }
}

/// Adds a mask to those of the glyphs from a place to another one.
fn add_mask_from(infos: &mut [hb_glyph_info_t], start: usize, end: usize, mask: u32)
    requires order { start ≤ end }
    requires within { end ≤ length infos.old }
    ensures { infos.new ≡ map_range (with_glyph_flags mask) infos.old start end }
{
    add_mask(&mut infos[start..end], mask);
}

/// Adds a mask to that of each glyph.
#[tactic(auto, using(glyph_lists::proofs::MapLemmas::walks))]
fn add_mask(infos: &mut [hb_glyph_info_t], mask: u32)
    ensures { infos.new ≡ map (with_glyph_flags mask) infos.old }
{
    for info in infos.iter_mut() {
        add_mask_to(info, mask);
    }
}

/// Adds a mask to that of a glyph.
#[tactic(auto, unfolding(glyph_lists::specs::Marks::with_glyph_flags))]
fn add_mask_to(info: &mut hb_glyph_info_t, mask: u32)
    ensures { info.new ≡ with_glyph_flags mask info.old }
{
    info.mask |= mask;
}

/// Where the digits begin that end before a place.
#[tactic(auto, using(crate::proofs::FractionLemmas::digits))]
fn digits_before(infos: &[hb_glyph_info_t], place: usize) -> usize
    requires { place ≤ length infos.now }
    ensures is { result ≡ steps.digits_start infos.now place }
    ensures within { result ≤ place }
{
    let mut start = place;
    while start > 0 && is_decimal_number(&infos[start - 1]) {
        start -= 1;
    }
    start
}

/// Where the digits end that begin at a place.
#[tactic(auto, using(crate::proofs::FractionLemmas::digits))]
fn digits_behind(infos: &[hb_glyph_info_t], place: usize) -> usize
    requires { place ≤ length infos.now }
    ensures is { result ≡ steps.digits_end infos.now place }
    ensures from { place ≤ result }
    ensures within { result ≤ length infos.now }
{
    let mut end = place;
    while end < infos.len() && is_decimal_number(&infos[end]) {
        end += 1;
    }
    end
}
