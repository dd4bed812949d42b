//! The measures of glyphs at the size at which a font is used, as HarfBuzz's functions of a font give them. What a font
//! says in font units is scaled as soon as it is read.

ghost use Rattle.std.specs.Prelude.{◌≡◌, [], Ok, Some, pos, false, int_div, IsSome, IfSome};
ghost use Rattle.font_tables.specs.VerticalOrigins.{y_origin};
ghost use Rattle.font_face.specs.Measures.{hor_advance, hor_units, ver_advance, ver_units, back_by_units, back_by_line, has_vertical_metrics, short, extents_of_em};
ghost use Rattle.font_face.specs.Measures.{line_extents, line_height, varied_height, multiplier, scaled, scaled_bounds, whole_below, whole_above, scaled_start, scaled_size};
ghost use Rattle.font_face.specs.Measures.{listed_origin, origin_by, ver_origin, distance_or, color_bounds};

use crate::bounds::BoundsSource;
use crate::face::Face;
use font_gvar::{Phantoms, VariedOutline, varied_outline, varied_phantoms};
use font_tables::extents::FontExtents;
use font_tables::scale::Scale;
use font_variations::rounding::{float, rounded};
use rb_common::{GlyphId, Tag};
use rb_glyph::GlyphExtents;
use std::alloc::AllocError;
use std::num::{nearest_i64_to_f32, saturating_f32_to_i32};

impl Face<'_> {
    /// How far a glyph moves the pen to the right in horizontal lines (OpenType specification, `hmtx` and `HVAR`). Where variations
    /// are chosen of a font without `HVAR`, its outlines say it (`gvar`).
    pub fn glyph_hor_advance(&self, glyph: GlyphId) -> i32
        ensures plain { self.now.variations.coordinates.items ≡ [] → result ≡ hor_advance self.now glyph.0 }
        ensures varied { IsSome self.now.variations.horizontal → result ≡ hor_advance self.now glyph.0 }
    {
        self.scale.em_scale_x(short(self.horizontal_units(glyph)))
    }

    /// How far a glyph moves the pen to the right in horizontal lines, in font units: by the table `hmtx`, and by the variations
    /// that are chosen.
    fn horizontal_units(&self, glyph: GlyphId) -> i32
        ensures plain { self.now.variations.coordinates.items ≡ [] → result ≡ hor_units self.now glyph.0 }
        ensures varied { IsSome self.now.variations.horizontal → result ≡ hor_units self.now glyph.0 }
    {
        let advance = i32::from(self.horizontal.advance(glyph));
        if self.coordinates().is_empty() || !self.horizontal.has_advance(glyph) {
            return advance;
        }
        match &self.variations.horizontal {
            Some(table) => advance.saturating_add(table.advance_delta(glyph, self.coordinates())),
            None => match self.varied_phantoms(glyph) {
                Some(phantoms) => distance_or(phantoms.right.x - phantoms.left.x, advance),
                None => advance,
            },
        }
    }

    /// How far a glyph moves the pen down in vertical lines, in font units: by the table `vmtx`, and by the variations that
    /// are chosen.
    fn vertical_units(&self, glyph: GlyphId) -> i32
        ensures plain { self.now.variations.coordinates.items ≡ [] → result ≡ ver_units self.now glyph.0 }
        ensures varied { IsSome self.now.variations.vertical → result ≡ ver_units self.now glyph.0 }
    {
        let advance = i32::from(self.vertical.advance(glyph));
        if self.coordinates().is_empty() || !self.vertical.has_advance(glyph) {
            return advance;
        }
        match &self.variations.vertical {
            Some(table) => advance.saturating_add(table.advance_delta(glyph, self.coordinates())),
            None => match self.varied_phantoms(glyph) {
                Some(phantoms) => distance_or(phantoms.top.y - phantoms.bottom.y, advance),
                None => advance,
            },
        }
    }

    /// The phantom points of a glyph at the variations that are chosen; `None` where the font has no outline of it.
    fn varied_phantoms(&self, glyph: GlyphId) -> Option<Phantoms> {
        let sources = BoundsSource::new(self).glyph_sources();
        varied_phantoms(&sources, glyph, self.coordinates())
    }

    /// How far a glyph moves the pen up in vertical lines, which is a negative number, since these run down: by the font's
    /// vertical metrics, or else by the height of its lines.
    pub fn glyph_ver_advance(&self, glyph: GlyphId) -> i32
        ensures plain { self.now.variations.coordinates.items ≡ [] → result ≡ ver_advance self.now glyph.0 }
        ensures varied { IsSome self.now.variations.vertical → result ≡ ver_advance self.now glyph.0 }
        ensures lines { has_vertical_metrics self.now ≡ false → result ≡ ver_advance self.now glyph.0 }
    {
        if self.has_vertical_metrics() {
            self.back_by_units(glyph)
        } else {
            self.back_by_line()
        }
    }

    /// Whether the font has a table `vmtx`.
    #[tactic(auto, unfolding(crate::specs::Measures::has_vertical_metrics))]
    fn has_vertical_metrics(&self) -> bool
        ensures { result ≡ has_vertical_metrics self.now }
    {
        self.vertical.has_advance(GlyphId(0))
    }

    /// How far a glyph moves the pen up by that table.
    #[tactic(auto, unfolding(crate::specs::Measures::back_by_units))]
    fn back_by_units(&self, glyph: GlyphId) -> i32
        ensures plain { self.now.variations.coordinates.items ≡ [] → result ≡ back_by_units self.now glyph.0 }
        ensures varied { IsSome self.now.variations.vertical → result ≡ back_by_units self.now glyph.0 }
    {
        let units = self.vertical_units(glyph).saturating_neg();
        self.scale.em_scale_y(short(units))
    }

    /// How far each glyph of a font without that table moves the pen up.
    #[tactic(auto, unfolding(crate::specs::Measures::back_by_line))]
    fn back_by_line(&self) -> i32
        ensures { result ≡ back_by_line self.now }
    {
        line_height(self.line_extents()).wrapping_neg()
    }

    /// Where a glyph's origin in vertical lines stands, from its origin in horizontal ones. `Err(AllocError)` where memory runs out
    /// for the points of an outline that varies.
    pub fn vertical_origin(&self, glyph: GlyphId) -> Result<(i32, i32), AllocError>
        ensures plain { self.now.variations.coordinates.items ≡ []
            → result ≡ Ok (int_div (hor_advance self.now glyph.0) (pos 2), ver_origin self.now glyph.0) }
    {
        let x = half(self.glyph_hor_advance(glyph));
        Ok((x, self.vertical_origin_y(glyph)?))
    }

    /// How far up a glyph's origin in vertical lines stands: by the table `VORG`, else by the top of its outline and its top
    /// side bearing, or so that the outline stands in the middle of the line, else at the font's ascender.
    fn vertical_origin_y(&self, glyph: GlyphId) -> Result<i32, AllocError>
        ensures plain { self.now.variations.coordinates.items ≡ [] → result ≡ Ok (ver_origin self.now glyph.0) }
        ensures listed { IfSome (y_origin self.now.vorg.table.now glyph.0) (λ y. result ≡ Ok (listed_origin self.now y glyph.0)) }
    {
        if let Some(y) = self.vorg.y_origin(glyph) {
            return Ok(self.listed_origin(y, glyph));
        }
        if self.coordinates().is_empty() {
            let bearing = self.horizontal.side_bearing(glyph);
            let outline = self.outlines.glyf.glyph_extents(glyph, bearing);
            return Ok(self.origin_by(outline, self.vertical.side_bearing(glyph)));
        }
        let sources = BoundsSource::new(self).glyph_sources();
        match varied_outline(self.alloc, &sources, glyph, self.coordinates())? {
            Some(outline) => {
                let bearing = self.varied_top_bearing(glyph, &outline);
                Ok(self.origin_by(Some(outline.extents), Some(bearing)))
            }
            None => Ok(self.origin_by(None, None)),
        }
    }

    /// How far up a glyph's origin in vertical lines stands that the table `VORG` has, by its y coordinate there.
    fn listed_origin(&self, y: i16, glyph: GlyphId) -> i32
        ensures { result ≡ listed_origin self.now y glyph.0 }
    {
        let units = float(i32::from(y));
        let units = match &self.variations.vertical {
            Some(table) if !self.coordinates().is_empty() => {
                units + table.origin_delta(glyph, self.coordinates())
            }
            _ => units,
        };
        rounded(units * multiplier(self.scale.y, &self.scale))
    }

    /// How far a glyph's bounds begin below its origin in vertical lines, in font units, at the variations that are chosen.
    fn varied_top_bearing(&self, glyph: GlyphId, outline: &VariedOutline) -> i16 {
        if let Some(table) = &self.variations.vertical
            && let Some(delta) = table.bearing_delta(glyph, self.coordinates())
            && let Some(bearing) = self.vertical.side_bearing(glyph)
        {
            return low_bits(i32::from(bearing).saturating_add(delta));
        }
        low_bits(rounded(outline.phantoms.top.y).saturating_sub(outline.extents.y_bearing))
    }

    /// How far up a glyph's origin in vertical lines stands, by its bounds and its top side bearing in font units.
    fn origin_by(&self, outline: Option<GlyphExtents>, bearing: Option<i16>) -> i32
        ensures { result ≡ origin_by self.now outline bearing }
    {
        let Some(outline) = outline else {
            return self.line_extents().ascender;
        };
        let outline = scaled_bounds(outline, &self.scale);
        match bearing {
            Some(bearing) => {
                outline
                    .y_bearing
                    .wrapping_add(self.scale.em_scale_y(i32::from(bearing)))
            }
            None => {
                let room = line_height(self.line_extents()).wrapping_add(outline.height);
                outline.y_bearing.wrapping_add(room >> 1)
            }
        }
    }

    /// The bounds of a glyph; `None` where the font has no outline of it (OpenType specification, `glyf`, `gvar` and `CFF `).
    /// `Err(AllocError)` where memory runs out for the points of an outline that varies.
    pub fn glyph_extents(&self, glyph: GlyphId) -> Result<Option<GlyphExtents>, AllocError>
        ensures color { IfSome (color_bounds self.now.color glyph.0 self.now.variations.coordinates.items self.now.scale)
            (λ bounds. result ≡ Ok (Some bounds)) }
    {
        BoundsSource::new(self).bounds(self.alloc, glyph, self.coordinates())
    }

    /// How far horizontal lines reach up and down.
    #[tactic(auto, unfolding(crate::specs::Measures::line_extents))]
    fn line_extents(&self) -> FontExtents
        ensures { result ≡ line_extents self.now }
    {
        match self.extents {
            Some(extents) => FontExtents {
                ascender: self.varied_height(extents.ascender, Tag::from_bytes(b"hasc")),
                descender: self.varied_height(extents.descender, Tag::from_bytes(b"hdsc")),
            },
            None => extents_of_em(self.scale.y),
        }
    }

    /// A height of the whole font at its size, by the variations of the number with this tag.
    fn varied_height(&self, units: i32, tag: Tag) -> i32
        ensures { result ≡ varied_height self.now units tag.0 }
    {
        let delta = self.variations.values.delta(tag, self.coordinates());
        rounded((float(units) + delta) * multiplier(self.scale.y, &self.scale))
    }
}

/// Half of a number, toward 0.
fn half(number: i32) -> i32
    ensures { result ≡ int_div number (pos 2) }
{
    number / 2
}

/// How high horizontal lines are.
fn line_height(extents: FontExtents) -> i32
    ensures { result ≡ line_height extents }
{
    extents.ascender.wrapping_sub(extents.descender)
}

/// How far horizontal lines reach up and down in a font that does not say it: four fifths of an em are above the baseline,
/// and the rest below.
fn extents_of_em(em: i32) -> FontExtents
    ensures { result ≡ extents_of_em em }
{
    let ascender = (i64::from(em) * 4 / 5) as i32;
    FontExtents {
        ascender,
        descender: ascender - em,
    }
}

/// Bounds in font units at a size: the whole units around them.
#[tactic(auto, unfolding(crate::specs::Measures::scaled_bounds))]
pub(crate) fn scaled_bounds(extents: GlyphExtents, scale: &Scale) -> GlyphExtents
    ensures { result ≡ scaled_bounds extents scale.now }
{
    let across = multiplier(scale.x, scale);
    let up = multiplier(scale.y, scale);
    let x_bearing = scaled_start(extents.x_bearing, across);
    let y_bearing = scaled_start(extents.y_bearing, up);
    GlyphExtents {
        x_bearing,
        y_bearing,
        width: scaled_size(extents.x_bearing, extents.width, across, x_bearing),
        height: scaled_size(extents.y_bearing, extents.height, up, y_bearing),
    }
}

/// Where bounds begin on an axis.
#[tactic(auto, unfolding(crate::specs::Measures::scaled_start))]
fn scaled_start(bearing: i32, multiplier: f32) -> i32
    ensures { result ≡ scaled_start bearing multiplier }
{
    whole_below(scaled(bearing, multiplier))
}

/// How far bounds reach on an axis from where they begin at the size.
#[tactic(auto, unfolding(crate::specs::Measures::scaled_size))]
fn scaled_size(bearing: i32, size: i32, multiplier: f32, start: i32) -> i32
    ensures { start ≡ scaled_start bearing multiplier → result ≡ scaled_size bearing size multiplier }
{
    let end = bearing.wrapping_add(size);
    whole_above(scaled(end, multiplier)).wrapping_sub(start)
}

/// The greatest whole number that is not above a float, as far as 32 bits reach.
#[tactic(auto, unfolding(crate::specs::Measures::whole_below))]
fn whole_below(number: f32) -> i32
    ensures { result ≡ whole_below number }
{
    saturating_f32_to_i32(number.floor())
}

/// The least whole number that is not below a float, as far as 32 bits reach.
#[tactic(auto, unfolding(crate::specs::Measures::whole_above))]
fn whole_above(number: f32) -> i32
    ensures { result ≡ whole_above number }
{
    saturating_f32_to_i32(number.ceil())
}

/// How long a font unit is where an em is so long.
#[tactic(auto, unfolding(crate::specs::Measures::multiplier))]
fn multiplier(size: i32, scale: &Scale) -> f32
    ensures { result ≡ multiplier size scale.now }
{
    nearest_i64_to_f32(i64::from(size)) / nearest_i64_to_f32(i64::from(scale.units_per_em))
}

/// How long so many font units are.
#[tactic(auto, unfolding(crate::specs::Measures::scaled))]
fn scaled(units: i32, multiplier: f32) -> f32
    ensures { result ≡ scaled units multiplier }
{
    nearest_i64_to_f32(i64::from(short(units))) * multiplier
}

/// A distance to the nearest whole number; another one where that is 0 or below.
fn distance_or(distance: f32, other: i32) -> i32
    ensures { result ≡ distance_or distance other }
{
    let rounded = rounded(distance);
    if rounded > 0 { rounded } else { other }
}

/// A number by its lowest 16 bits.
fn low_bits(number: i32) -> i16 {
    short(number) as i16
}

/// A number of font units as HarfBuzz takes it: by its lowest 16 bits, of which the highest is a sign.
fn short(units: i32) -> i32
    ensures { result ≡ short units }
{
    units.wrapping_add(32768).rem_euclid(65536) - 32768
}
