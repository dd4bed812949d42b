//! The positions that a font gives glyphs before any lookup moves them. Those of the glyphs that were asked for last are kept, since at
//! a place in the variations of a font each may cost as much as an outline has points, or a font has regions.

ghost use Rattle.std.specs.Prelude.{◌≡◌, IfOk};
ghost use Rattle.ot_positions.specs.FontPositions.{AreTheFonts, IsTheFonts};

use crate::positions::advanced;
use font_face::Face;
use font_functions::FontFunctions;
use rb_common::GlyphId;
use shaping_buffer::GlyphPosition;
use std::alloc::AllocError;

/// How many positions are kept.
const KEPT: usize = 256;

/// A glyph, and the position that the font gives it.
#[derive(Clone, Copy)]
pub(crate) struct KeptPosition {
    /// The glyph.
    pub glyph: GlyphId,
    /// Its position.
    pub position: GlyphPosition,
}

/// The positions of glyphs in the lines of a direction.
#[derive(Drop)]
pub(crate) struct FontPositions<'f, 'a, F> {
    /// The face, which has the scale.
    pub face: &'f Face<'a>,
    /// The functions of the font.
    pub font: &'f F,
    /// Whether the lines are horizontal.
    pub is_horizontal: bool,
    /// Positions that were asked for: each glyph has one place, which it shares with every 256th.
    pub kept: [Option<KeptPosition>; KEPT],
}

impl<'f, 'a, F: FontFunctions> FontPositions<'f, 'a, F> {
    /// The positions that a font gives.
    pub(crate) fn new(face: &'f Face<'a>, font: &'f F, is_horizontal: bool) -> Self
        ensures kept { AreTheFonts (F.may_advance result.font.now) result.is_horizontal result.kept }
        ensures font { result.font.now ≡ font.now }
        ensures direction { result.is_horizontal ≡ is_horizontal }
    {
        FontPositions {
            face,
            font,
            is_horizontal,
            kept: [None; KEPT],
        }
    }

    /// The position of a glyph.
    pub(crate) fn position(&mut self, glyph: GlyphId) -> Result<GlyphPosition, AllocError>
        requires { AreTheFonts (F.may_advance self.old.font.now) self.old.is_horizontal self.old.kept }
        ensures kept { AreTheFonts (F.may_advance self.new.font.now) self.new.is_horizontal self.new.kept }
        ensures font { self.new.font ≡ self.old.font }
        ensures direction { self.new.is_horizontal ≡ self.old.is_horizontal }
        ensures position { IfOk result (λ position.
            IsTheFonts (F.may_advance self.old.font.now) self.old.is_horizontal glyph.0 position) }
    {
        let place = usize::from(glyph.0) % KEPT;
        if let Some(kept) = self.kept[place]
            && kept.glyph == glyph
        {
            return Ok(kept.position);
        }
        let position = font_position(self.font, glyph, self.is_horizontal)?;
        self.kept[place] = Some(KeptPosition { glyph, position });
        Ok(position)
    }

    /// The advance of a glyph along the line.
    pub(crate) fn advance(&mut self, glyph: GlyphId) -> Result<i32, AllocError>
        requires { AreTheFonts (F.may_advance self.old.font.now) self.old.is_horizontal self.old.kept }
        ensures kept { AreTheFonts (F.may_advance self.new.font.now) self.new.is_horizontal self.new.kept }
        ensures font { self.new.font ≡ self.old.font }
        ensures direction { self.new.is_horizontal ≡ self.old.is_horizontal }
    {
        let position = self.position(glyph)?;
        Ok(if self.is_horizontal {
            position.x_advance
        } else {
            position.y_advance
        })
    }
}

/// The position that the font gives a glyph.
fn font_position<F: FontFunctions>(
    font: &F,
    glyph: GlyphId,
    is_horizontal: bool,
) -> Result<GlyphPosition, AllocError>
    ensures { IfOk result (λ position. IsTheFonts (F.may_advance font.now) is_horizontal glyph.0 position) }
{
    if is_horizontal {
        return Ok(advanced(font, glyph));
    }
    let (x, y) = font.glyph_v_origin(glyph)?;
    Ok(GlyphPosition {
        y_advance: font.glyph_v_advance(glyph),
        x_offset: x.wrapping_neg(),
        y_offset: y.wrapping_neg(),
        ..GlyphPosition::default()
    })
}
