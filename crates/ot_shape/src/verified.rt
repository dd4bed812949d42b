//! The shaping of texts whose glyphs are tested.

ghost use Rattle.std.specs.Prelude.{◌≡◌, false};
ghost use Rattle.ot_shape.specs.Shaped.{Shapes};

use crate::shaping::shape_planned;
use font_face::Face;
use font_functions::FontFunctions;
use ot_plan::{TextPlan, Unwatched};
use shaping_buffer::{Feature, GlyphBuffer, hb_buffer_t};
use shaping_verification::{Original, ShapeError, ShapesParts, verify};

/// How a text and parts of it are shaped.
#[derive(Drop)]
struct Shaping<'a, F> {
    face: &'a Face<'a>,
    font: &'a F,
    plan: &'a TextPlan,
    features: &'a [Feature],
}

impl<F: FontFunctions> ShapesParts for Shaping<'_, F> {
    fn shape(&self, buffer: hb_buffer_t) -> Result<GlyphBuffer, ShapeError> {
        shape_planned(
            self.face,
            self.font,
            self.plan,
            self.features,
            buffer,
            &mut Unwatched,
        )
    }
}

/// Shapes the text of a buffer by a plan, and tests its glyphs.
pub(crate) fn shape_verified<F: FontFunctions>(
    face: &Face,
    font: &F,
    plan: &TextPlan,
    features: &[Feature],
    buffer: hb_buffer_t,
) -> Result<GlyphBuffer, ShapeError>
    requires { buffer.have_output ≡ false }
    ensures { Shapes buffer.direction buffer result }
{
    let text = Original::of(face.alloc, &buffer)?;
    let glyphs = shape_planned(face, font, plan, features, buffer, &mut Unwatched)?;
    let shaping = Shaping {
        face,
        font,
        plan,
        features,
    };
    verify(face.alloc, &shaping, &text, &glyphs)?;
    Ok(glyphs)
}
