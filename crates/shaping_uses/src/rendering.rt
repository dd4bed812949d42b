//! A text from end to end: its characters, one feature, a list of calls, and glyphs with positions.

ghost use Rattle.std.specs.Prelude.{◌≡◌, MatchResult};
ghost use Rattle.shaping_buffer.specs.declared.cluster_level.BufferClusterLevel.TheVariants.{MonotoneGraphemes};
ghost use Rattle.shaping_runs.specs.Render.{FailsOnText};
ghost use Rattle.shaping_runs.specs.Replay.{answers_of};
ghost use Rattle.shaping_uses.specs.Rendering.{featured, with_ligature};
ghost use Rattle.shaping_uses.specs.Runs.{ligature_calls};

use shaping_buffer::{Feature, GlyphBuffer};
use shaping_runs::{Answer, Call, RenderFault, render};
use std::alloc::Global;

/// Renders a text with a feature, and with a ligature in place of its first two glyphs, and answers each of the three
/// calls: `Outside` for the second where there are no two glyphs. None is refused, and none asks for memory. So `Err`
/// is `Length` where the text is longer than a buffer may be, or `Memory { at: None }` where there was no memory for
/// it.
#[tactic(auto, using(crate::proofs::RenderingLemmas::fails_on_text))]
pub fn render_with_ligature(
    alloc: Global,
    text: &str,
    feature: Feature,
    ligature: u32,
) -> Result<(GlyphBuffer, [Answer; 3]), RenderFault>
    ensures { MatchResult result
        (λ rendered. (rendered.0 ≡ with_ligature text.now feature ligature)
        × (rendered.1 ≡ answers_of (ligature_calls ligature) (featured text.now feature)))
        (λ fault. FailsOnText fault MonotoneGraphemes text.now) }
{
    let mut answers = [Answer::Outside; 3];
    let ids = [ligature];
    let calls = [
        Call::ClearOutput,
        Call::ReplaceGlyphs(2, 1, &ids),
        Call::Sync,
    ];
    let glyphs = render(alloc, text, &[feature], &calls, &mut answers)?;
    Ok((glyphs, answers))
}
