//! The names and the extents of a font's glyphs.

ghost use Rattle.std.specs.Prelude.{◌≡◌};
ghost use Rattle.std.specs.Option.{option_copied};
ghost use Rattle.font_face.specs.FaceNames.{name_of, name_bytes, text_of};

use crate::bounds::BoundsSource;
use crate::face::Face;
use font_outlines::Outlines;
use font_tables::glyph_names::PostNames;
use rb_common::{GlyphId, Tag};
use rb_glyph::{GlyphExtents, GlyphNames, hb_glyph_info_t};
use std::alloc::{AllocError, Global};
use std::collections::BTreeMap;

/// The names and the extents of a font's glyphs, as the text of shaped glyphs asks for them.
#[derive(Drop)]
pub struct FaceNames<'a> {
    outlines: Outlines<'a>,
    alloc: Global,
    bounds: BoundsSource<'a>,
    coordinates: Vec<i32>,
    post: PostNames<'a>,
    extents: BTreeMap<u16, Option<GlyphExtents>>,
}

impl<'a> FaceNames<'a> {
    /// The names of the font's glyphs, and their extents at its size and at the variations that are chosen.
    /// `Err(AllocError)` where memory runs out.
    pub fn new(alloc: Global, face: &Face<'a>) -> Result<Self, AllocError> {
        let post = PostNames::new(alloc, face.tables.table(Tag::from_bytes(b"post")))?;
        Ok(FaceNames {
            outlines: face.outlines,
            alloc,
            bounds: BoundsSource::new(face),
            coordinates: copied(alloc, face.coordinates())?,
            post,
            extents: BTreeMap::new(alloc),
        })
    }

    /// Finds the extents of glyphs, each of them once, and once where there are none too: an outline that is broken may take as
    /// long to read as the longest. `Err(AllocError)` where memory runs out.
    pub fn find_extents(&mut self, infos: &[hb_glyph_info_t]) -> Result<(), AllocError> {
        for info in infos {
            if let Ok(number) = u16::try_from(info.glyph_id)
                && !self.extents.contains_key(&number)
            {
                let extents = self.bounds(GlyphId(number))?;
                let _ = self.extents.insert(number, extents)?;
            }
        }
        Ok(())
    }

    /// The bounds of a glyph, as its outline has them.
    fn bounds(&self, glyph: GlyphId) -> Result<Option<GlyphExtents>, AllocError> {
        self.bounds
            .bounds(self.alloc, glyph, self.coordinates.as_slice())
    }

    /// The bytes of a glyph's name.
    fn name_bytes(&self, glyph: GlyphId) -> Option<&'a [u8]>
        ensures { option_copied result
            ≡ name_bytes self.now.post.table.now self.now.outlines glyph.0 }
    {
        match self.post.name(glyph) {
            Some(name) => Some(name),
            None => self.outlines.glyph_name(glyph),
        }
    }
}

/// The same coordinates once more.
fn copied(alloc: Global, coordinates: &[i32]) -> Result<Vec<i32>, AllocError> {
    let mut copied = Vec::new(alloc);
    for coordinate in coordinates {
        copied.push(*coordinate)?;
    }
    Ok(copied)
}

/// The bytes, if they are text.
fn text_of(bytes: &[u8]) -> Option<&str>
    ensures { option_copied result ≡ text_of bytes.now }
{
    match std::str::from_utf8(bytes) {
        Ok(text) => Some(text),
        Err(_) => None,
    }
}

impl<'a> GlyphNames for FaceNames<'a> {
    ghost use Rattle.std.specs.BTreeMap.{get};
    ghost use Rattle.std.specs.Prelude.{option_and_then};
    ghost use Rattle.std.specs.Ordering.{nat_cmp};

    ghost name_of = { λ names glyph. name_of names.post.table.now names.outlines glyph };

    ghost extents_of = { λ names glyph. option_and_then (λ found. found) (get nat_cmp names.extents glyph) };

    fn glyph_name(&self, glyph: GlyphId) -> Option<&str> {
        text_of(self.name_bytes(glyph)?)
    }

    /// The extents of a glyph, among those that were found.
    fn glyph_extents(&self, glyph: GlyphId) -> Option<GlyphExtents> {
        *self.extents.get(&glyph.0)?
    }
}
