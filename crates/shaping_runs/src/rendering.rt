//! A text with features and calls, from end to end.

ghost use Rattle.std.specs.Prelude.{◌≡◌, ◌≢◌, ◌<◌, ◌≤◌, ◌==◌, if◌then◌else◌, false, length, OnOk, IfErr, MatchResult};
ghost use Rattle.std.specs.Prelude.{true};
ghost use Rattle.shaping_buffer.specs.declared.cluster_level.BufferClusterLevel.TheVariants.{MonotoneGraphemes};
ghost use Rattle.shaping_runs.specs.declared.call.Answer.{Answer};
ghost use Rattle.shaping_runs.specs.declared.rendering.TheConstants.{MAX_FEATURES};
ghost use Rattle.shaping_runs.specs.Replay.{after};
ghost use Rattle.shaping_runs.specs.Render.{pushed_text, with_feature, with_features, AnswersAll, StopsWith};
ghost use Rattle.shaping_runs.specs.Render.{FailsOnText, RendersTo, Fails};

use crate::call::{Answer, Call};
use crate::call_list::make_call;
use rb_glyph::algs::rb_flag;
use shaping_buffer::{BufferClusterLevel, Feature, GlyphBuffer, UnicodeBuffer, hb_buffer_t};
use std::alloc::Global;

/// How many features [`render_at`] takes: the bits that a mask has for them.
pub const MAX_FEATURES: usize = 24;

/// The bit of the first feature. Those below it are for glyph flags.
const FIRST_FEATURE_BIT: u32 = 8;

/// Why a text could not be rendered.
#[derive(Clone, Copy, PartialEq, Eq, Debug)]
pub enum RenderFault {
    /// The text is longer than a buffer may be.
    Length,
    /// A call was refused.
    Refused {
        /// The place of the call in the list.
        at: usize,
    },
    /// Memory ran out.
    Memory {
        /// The place of the call that found none, or `None` where the text did not find it. An empty text asks for none.
        at: Option<usize>,
    },
    /// There are more than [`MAX_FEATURES`] features.
    TooManyFeatures,
    /// The calls left an output open.
    OutputLeftOpen,
}

/// Renders a text at the default cluster level, `MonotoneGraphemes`: [`render_at`] says how.
pub fn render(
    alloc: Global,
    text: &str,
    features: &[Feature],
    calls: &[Call],
    answers: &mut [Answer],
) -> Result<GlyphBuffer, RenderFault>
    requires { length answers.old ≡ length calls.now }
    ensures { MatchResult result
        (λ glyphs. RendersTo MonotoneGraphemes text.now features.now calls.now glyphs answers.new)
        (λ fault. Fails fault MonotoneGraphemes text.now features.now calls.now answers.old
        answers.new) }
{
    render_at(
        alloc,
        BufferClusterLevel::MonotoneGraphemes,
        text,
        features,
        calls,
        answers,
    )
}

/// Renders a text at a cluster level: pushes its characters, gives each feature the mask bit of its place, 8 for the
/// first, in the clusters from its start to its end where its value is not 0, makes the calls in order up to the first
/// that is refused, and puts each glyph at position 0. Requires as many answers as calls.
///
/// `Err` with `TooManyFeatures`, `Length` or `Memory { at: None }`: no call was made, and the answers are as they were.
/// With `Refused { at }`: the answers up to that of the refused call are given. With `Memory { at: Some(at) }`: those
/// before the call in which memory ran out are given. With `OutputLeftOpen`: all are.
pub fn render_at(
    alloc: Global,
    level: BufferClusterLevel,
    text: &str,
    features: &[Feature],
    calls: &[Call],
    answers: &mut [Answer],
) -> Result<GlyphBuffer, RenderFault>
    requires { length answers.old ≡ length calls.now }
    ensures { MatchResult result
        (λ glyphs. RendersTo level text.now features.now calls.now glyphs answers.new)
        (λ fault. Fails fault level text.now features.now calls.now answers.old answers.new) }
{
    if features.len() > MAX_FEATURES {
        return Err(RenderFault::TooManyFeatures);
    }
    let mut buffer = buffer_of(alloc, level, text)?;
    set_features(&mut buffer, features);
    make_until_refused(&mut buffer, calls, answers)?;
    if buffer.have_output() {
        return Err(RenderFault::OutputLeftOpen);
    }
    buffer.clear_positions();
    Ok(GlyphBuffer::from_buffer(buffer))
}

/// The buffer over a text.
#[tactic(auto, using(crate::proofs::RenderLemmas::text_grows))]
fn buffer_of(
    alloc: Global,
    level: BufferClusterLevel,
    text: &str,
) -> Result<hb_buffer_t, RenderFault>
    ensures { MatchResult result
        (λ buffer. ((pushed_text level text.now).done ≡ true)
        × (buffer ≡ (pushed_text level text.now).state))
        (λ fault. FailsOnText fault level text.now) }
{
    let mut characters = UnicodeBuffer::new(alloc);
    characters.set_cluster_level(level);
    match characters.push_str(text) {
        Ok(true) => Ok(characters.into_buffer()),
        Ok(false) => Err(RenderFault::Length),
        Err(_) => Err(RenderFault::Memory { at: None }),
    }
}

/// Sets the mask bit of each feature in its range.
fn set_features(buffer: &mut hb_buffer_t, features: &[Feature])
    requires closed { buffer.old.have_output ≡ false }
    requires few { length features.now ≤ MAX_FEATURES }
    ensures state { buffer.new ≡ with_features 0 features.now buffer.old }
    ensures closed { buffer.new.have_output ≡ false }
{
    for (i, feature) in features.iter().enumerate() {
        set_feature(buffer, i, feature);
    }
}

/// Sets the mask bit of the feature at this place in its range, or clears it there where its value is 0.
fn set_feature(buffer: &mut hb_buffer_t, i: usize, feature: &Feature)
    requires closed { buffer.old.have_output ≡ false }
    requires within { i < MAX_FEATURES }
    ensures { buffer.new ≡ with_feature i feature.now buffer.old }
{
    let bit = rb_flag(FIRST_FEATURE_BIT + i as u32);
    buffer.set_masks(value_bits(feature, bit), bit, feature.start, feature.end);
}

fn value_bits(feature: &Feature, bit: u32) -> u32
    ensures { result ≡ (if feature.now.value == 0 then 0 else bit) }
{
    if feature.value == 0 { 0 } else { bit }
}

/// Makes the calls in order, up to the first that is refused.
fn make_until_refused(
    buffer: &mut hb_buffer_t,
    calls: &[Call],
    answers: &mut [Answer],
) -> Result<(), RenderFault>
    requires { length answers.old ≡ length calls.now }
    ensures state { OnOk result (buffer.new ≡ after calls.now buffer.old) }
    ensures answers { OnOk result (AnswersAll calls.now buffer.old answers.new) }
    ensures fault { IfErr result (λ fault.
        StopsWith fault calls.now buffer.old answers.old answers.new) }
{
    for (i, call) in calls.iter().enumerate() {
        match make_call(buffer, call) {
            Ok(answer) => {
                answers[i] = answer;
                if is_refused(answer) {
                    return Err(RenderFault::Refused { at: i });
                }
            }
            Err(_) => return Err(RenderFault::Memory { at: Some(i) }),
        }
    }
    Ok(())
}

fn is_refused(answer: Answer) -> bool
    ensures yes { result ≡ true → answer ≡ Answer.Refused }
    ensures no { result ≡ false → answer ≢ Answer.Refused }
{
    matches!(answer, Answer::Refused)
}
