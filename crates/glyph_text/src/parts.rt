//! What each format writes of a glyph: what the font says of it, and where it is drawn.

ghost use Rattle.std.specs.Prelude.{◌≡◌, ◌+ℤ◌, ◌+◌, ◌≤◌, ◌↔◌, nat_abs, unwrap_or, IfSome, IsSome};
ghost use Rattle.std.specs.Option.{option_copied};
ghost use Rattle.glyph_text.specs.Text.{said_of, moved, zero_extents};
ghost use Rattle.glyph_text.specs.Pen.{IsNear};

use bitflags::Flags;
use rb_common::GlyphId;
use rb_glyph::{GlyphExtents, GlyphNames, GlyphPosition, SerializeFlags, hb_glyph_info_t};

/// Where the next glyph is drawn, from the start of the line, under `NO_ADVANCES`; and else the start.
#[derive(Clone, Copy)]
pub struct Pen {
    /// To the right.
    pub x: i128,
    /// Upward.
    pub y: i128,
}

impl Pen {
    /// Where a glyph is drawn. Requires that no coordinate is past 2 to the 96.
    #[inline(always)]
    pub fn plus_offset(self, position: &GlyphPosition) -> Pen
        requires { IsNear self }
        ensures x { result.x ≡ self.x +ℤ position.now.x_offset }
        ensures y { result.y ≡ self.y +ℤ position.now.y_offset }
    {
        Pen {
            x: self.x + i128::from(position.x_offset),
            y: self.y + i128::from(position.y_offset),
        }
    }

    /// The pen behind a glyph: no position is read where advances are written. Requires that no coordinate is past 2 to the 96.
    #[inline(always)]
    pub fn behind(self, flags: SerializeFlags, position: &GlyphPosition) -> Pen
        requires { IsNear self }
        ensures x { result.x ≡ moved flags self.x position.now.x_advance }
        ensures y { result.y ≡ moved flags self.y position.now.y_advance }
        ensures near_x { nat_abs result.x ≤ nat_abs self.x + 2147483648 }
        ensures near_y { nat_abs result.y ≤ nat_abs self.y + 2147483648 }
    {
        if !flags.contains(SerializeFlags::NO_ADVANCES) {
            return self;
        }
        Pen {
            x: self.x + i128::from(position.x_advance),
            y: self.y + i128::from(position.y_advance),
        }
    }
}

/// The glyph of this number; none past 16 bits.
fn glyph_of(info: &hb_glyph_info_t) -> Option<GlyphId>
    ensures glyph { IfSome result (λ glyph. glyph.0 ≡ info.now.glyph_id) }
    ensures within { IsSome result ↔ (info.now.glyph_id ≤ 65535) }
{
    let number = u16::try_from(info.glyph_id).ok()?;
    Some(GlyphId(number))
}

/// The name of a glyph, where the font has one for it. A number past 65535 is no glyph's: the font is not asked for it.
pub fn name_of<'a, F: GlyphNames>(font: &'a F, info: &hb_glyph_info_t) -> Option<&'a str>
    ensures { option_copied result ≡ said_of (F.name_of font.now) info.now.glyph_id }
{
    match glyph_of(info) {
        Some(glyph) => font.glyph_name(glyph),
        None => None,
    }
}

/// The extents of a glyph, zeros where the font knows none.
pub fn extents_of<F: GlyphNames>(font: &F, info: &hb_glyph_info_t) -> GlyphExtents
    ensures { result ≡ unwrap_or (said_of (F.extents_of font.now) info.now.glyph_id) zero_extents }
{
    let known = match glyph_of(info) {
        Some(glyph) => font.glyph_extents(glyph),
        None => None,
    };
    known.unwrap_or(GlyphExtents {
        x_bearing: 0,
        y_bearing: 0,
        width: 0,
        height: 0,
    })
}
