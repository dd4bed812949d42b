//! A font, as far as shaping asks it.

ghost use Rattle.std.specs.Prelude.{◌≡◌, ◌==◌, not, option_map, is_some, codes, IfOk, IfSome};
ghost use Rattle.rb_common.specs.Tag.{tag_of};
ghost use Rattle.font_tables.specs.Directory.{font_of, table_of};
ghost use Rattle.font_tables.specs.Head.{index_to_loc_format};
ghost use Rattle.font_face.specs.Face.{font_page, believed, IsLayoutOf, KeepsItsTables};
ghost use Rattle.font_face.specs.Tables.{table_in};
ghost use Rattle.font_cmap.specs.Codes.{glyph_index, glyph_variation_index};

use crate::color::ColorTables;
use crate::directory::Directory;
use crate::layout::Layout;
use crate::variations::FaceVariations;
use aat_tables::Metamorphosis;
use font_cmap::CharacterMap;
use font_outlines::Outlines;
use font_tables::bytes::u16_at;
use font_tables::directory::Tables;
use font_tables::extents::{FontExtents, horizontal_extents, long_metric_count};
use font_tables::gdef::Gdef;
use font_tables::head::{glyph_count, index_to_loc_format, units_per_em};
use font_tables::ignored_gdef::is_ignored;
use font_tables::metrics::Metrics;
use font_tables::scale::Scale;
use font_tables::vertical_origins::VerticalOrigins;
use ot_lookups::LookupList;
use ot_lookups::lookup_list::{POSITIONING_EXTENSION, SUBSTITUTION_EXTENSION};
use outline_tables::GlyfTables;
use rb_common::{GlyphId, Tag};
use std::alloc::{AllocError, Global};

/// The lookups of a font.
#[derive(Drop)]
pub struct Lookups<'a> {
    /// Those of `GSUB`.
    pub substitutions: LookupList<'a>,
    /// Those of `GPOS`.
    pub positions: LookupList<'a>,
    /// The chains of Apple's table `morx`.
    pub morx: Metamorphosis<'a>,
}

/// A font of a file: what shaping asks of it, found once.
#[derive(Drop)]
pub struct Face<'a> {
    /// The tables of the font.
    pub tables: Tables<'a>,
    /// How many font units make an em.
    pub units_per_em: u16,
    /// How many glyphs the font has.
    pub glyph_count: u16,
    /// The map from characters to glyphs.
    pub characters: CharacterMap<'a>,
    /// Advances and side bearings in horizontal lines.
    pub horizontal: Metrics<'a>,
    /// Advances and side bearings in vertical lines.
    pub vertical: Metrics<'a>,
    /// Where glyphs stand in vertical lines.
    pub vorg: VerticalOrigins<'a>,
    /// How far horizontal lines reach up and down, in font units, where the font says it.
    pub extents: Option<FontExtents>,
    /// The classes of the glyphs.
    pub gdef: Gdef<'a>,
    /// The outlines of the glyphs.
    pub outlines: Outlines<'a>,
    /// Its bitmaps, and what it says of glyphs that are drawn in colours.
    pub color: ColorTables<'a>,
    /// The tables of the font's lookups.
    pub layout: Layout<'a>,
    /// The lookups.
    pub lookups: Lookups<'a>,
    /// What gives the memory for plans.
    pub alloc: Global,
    /// Whether the font positions its marks itself: whether it has a table `GPOS` that is read.
    pub has_gpos: bool,
    /// The size at which the font is used.
    pub scale: Scale,
    /// The size in points for which glyphs stand closer or farther apart; 0 where none is set.
    pub points_per_em: f32,
    /// What the font says of its variations, and those that are chosen.
    pub variations: FaceVariations<'a>,
}

/// The outlines of a font.
fn outlines_of<'a>(tables: &Directory<'a>, head: &[u8], glyph_count: u16) -> Outlines<'a>
    ensures glyf { result.glyf.glyf.now
        ≡ table_of tables.now.tables.file.now tables.now.tables.directory (tag_of (codes "glyf")) }
    ensures loca { result.glyf.loca.now
        ≡ table_of tables.now.tables.file.now tables.now.tables.directory (tag_of (codes "loca")) }
    ensures offsets { result.glyf.has_long_offsets ≡ not (index_to_loc_format head.now == 0) }
    ensures glyphs { result.glyf.glyph_count ≡ glyph_count }
{
    let glyf = GlyfTables {
        glyf: tables.table(Tag::from_bytes(b"glyf")),
        loca: tables.table(Tag::from_bytes(b"loca")),
        has_long_offsets: index_to_loc_format(head) != 0,
        glyph_count,
    };
    Outlines::new(glyf, tables.table(Tag::from_bytes(b"CFF ")))
}

impl<'a> Face<'a> {
    /// The font with this index in a collection or in a Macintosh resource file, or the only one of a file, whatever the
    /// index. `None` where the bytes are no font, or there is no font with this index (OpenType specification, "OpenType
    /// Font File"). `Err(AllocError)` where memory runs out.
    pub fn parse(alloc: Global, file: &'a [u8], index: u32) -> Result<Option<Face<'a>>, AllocError>
        ensures found { IfOk result (λ found.
            option_map (λ face. (face.tables.file.now, face.tables.directory)) found ≡ font_of file.now index) }
        ensures keeps { IfOk result (λ found. IfSome found KeepsItsTables) }
    {
        let Some(tables) = Tables::new(file, index) else {
            return Ok(None);
        };
        let tables = Directory::new(tables);
        let layout = Layout::new(&tables);
        let gdef = definitions_of(tables.table(Tag::from_bytes(b"GDEF")), &layout);
        let substitutions = LookupList::new(alloc, layout.gsub, SUBSTITUTION_EXTENSION, &gdef)?;
        let positions = LookupList::new(alloc, layout.gpos, POSITIONING_EXTENSION, &gdef)?;
        let glyphs = glyph_count(tables.table(Tag::from_bytes(b"maxp")));
        let lookups = Lookups {
            substitutions,
            positions,
            morx: Metamorphosis::new(alloc, layout.morx, glyphs)?,
        };
        Ok(Some(face_of(alloc, tables, layout, gdef, lookups)))
    }

    /// How many font units make an em (OpenType specification, `head`).
    pub fn units_per_em(&self) -> u16
        ensures { result ≡ self.now.units_per_em }
    {
        self.units_per_em
    }

    /// How many glyphs the font has (OpenType specification, `maxp`).
    pub fn number_of_glyphs(&self) -> u16
        ensures { result ≡ self.now.glyph_count }
    {
        self.glyph_count
    }

    /// The glyph of a code point; `None` where the font has none (OpenType specification, `cmap`).
    pub fn glyph_index(&self, character: u32) -> Option<GlyphId>
        ensures { option_map (λ glyph. glyph.0) result
            ≡ glyph_index self.now.characters.subtable.now self.now.characters.encoding character }
    {
        self.characters.glyph_index(character)
    }

    /// Whether the font has a glyph for a character.
    pub fn has_glyph(&self, character: char) -> bool
        ensures { result ≡ is_some (glyph_index self.now.characters.subtable.now self.now.characters.encoding character) }
    {
        self.glyph_index(character as u32).is_some()
    }

    /// The glyph of a code point before a variation selector; `None` where the font does not have the two.
    pub fn glyph_variation_index(&self, character: u32, selector: u32) -> Option<GlyphId>
        ensures { option_map (λ glyph. glyph.0) result
            ≡ glyph_variation_index self.now.characters.subtable.now self.now.characters.encoding self.now.characters.variations.now character selector }
    {
        self.characters.glyph_variation_index(character, selector)
    }

    /// Says how long an em is across and upwards. At first it is as long as it has font units; what is negative turns
    /// glyphs round. All measures of glyphs are at this size. HarfBuzz's name is `hb_font_set_scale`.
    pub fn set_scale(&mut self, x: i32, y: i32)
        ensures across { self.new.scale.x ≡ x }
        ensures upwards { self.new.scale.y ≡ y }
        ensures pixels { (self.new.scale.x_ppem ≡ self.old.scale.x_ppem) × (self.new.scale.y_ppem ≡ self.old.scale.y_ppem) }
        ensures tables { self.new.tables ≡ self.old.tables }
        ensures kept { KeepsItsTables self.old → KeepsItsTables self.new }
    {
        let mut scale = Scale::new(self.units_per_em, x, y);
        scale.x_ppem = self.scale.x_ppem;
        scale.y_ppem = self.scale.y_ppem;
        self.scale = scale;
    }

    /// Says how many pixels an em has across and upwards; 0 where glyphs are not drawn in pixels, as at first. The device
    /// tables of a font move glyphs at some sizes in pixels, and of its bitmaps those are used that fit the size best. HarfBuzz's
    /// name is `hb_font_set_ppem`.
    pub fn set_pixels_per_em(&mut self, x: u16, y: u16)
        ensures across { self.new.scale.x_ppem ≡ x }
        ensures upwards { self.new.scale.y_ppem ≡ y }
        ensures size { (self.new.scale.x ≡ self.old.scale.x) × (self.new.scale.y ≡ self.old.scale.y) }
        ensures tables { self.new.tables ≡ self.old.tables }
        ensures kept { KeepsItsTables self.old → KeepsItsTables self.new }
    {
        self.scale.x_ppem = x;
        self.scale.y_ppem = y;
        let tables = Directory::new(self.tables);
        self.color = ColorTables::new(&tables, self.glyph_count, x, y);
    }

    /// Says how many points an em has; 0 where that is not said, as at first. By Apple's table `trak` glyphs stand closer or farther
    /// apart at some sizes in points. HarfBuzz's name is `hb_font_set_ptem`.
    pub fn set_points_per_em(&mut self, points: f32)
        ensures points { self.new.points_per_em ≡ points }
        ensures tables { self.new.tables ≡ self.old.tables }
        ensures kept { KeepsItsTables self.old → KeepsItsTables self.new }
    {
        self.points_per_em = points;
    }
}

/// The font of these tables, with these classes of glyphs and these lookups.
fn face_of<'a>(
    alloc: Global,
    tables: Directory<'a>,
    layout: Layout<'a>,
    gdef: Gdef<'a>,
    lookups: Lookups<'a>,
) -> Face<'a>
    requires layout { IsLayoutOf layout tables.tables }
    requires gdef { gdef.table.now ≡ believed (table_in tables.tables (codes "GDEF")) layout.gsub.now layout.gpos.now }
    ensures tables { result.tables ≡ tables.entry.tables }
    ensures keeps { KeepsItsTables result }
{
    let head = tables.table(Tag::from_bytes(b"head"));
    let units_per_em = units_per_em(head);
    let glyph_count = glyph_count(tables.table(Tag::from_bytes(b"maxp")));
    let os2 = tables.table(Tag::from_bytes(b"OS/2"));
    let hhea = tables.table(Tag::from_bytes(b"hhea"));
    let vmtx = tables.table(Tag::from_bytes(b"vmtx"));
    let vhea = tables.table(Tag::from_bytes(b"vhea"));
    Face {
        tables: tables.tables,
        units_per_em,
        glyph_count,
        characters: CharacterMap::parse(tables.table(Tag::from_bytes(b"cmap")), font_page(os2)),
        horizontal: Metrics::new(
            tables.table(Tag::from_bytes(b"hmtx")),
            long_metric_count(hhea),
            glyph_count,
            units_per_em / 2,
        ),
        vertical: Metrics::new(vmtx, long_metric_count(vhea), glyph_count, units_per_em),
        vorg: VerticalOrigins::new(tables.table(Tag::from_bytes(b"VORG"))),
        extents: horizontal_extents(os2, hhea),
        gdef,
        outlines: outlines_of(&tables, head, glyph_count),
        color: ColorTables::new(&tables, glyph_count, 0, 0),
        has_gpos: layout.has_gpos(&tables),
        layout,
        lookups,
        alloc,
        scale: Scale::of_em(units_per_em),
        points_per_em: 0.0,
        variations: FaceVariations::new(alloc, &tables, gdef.table, glyph_count),
    }
}

/// The classes of the glyphs: none where `GDEF` is one of those that HarfBuzz does not believe.
fn definitions_of<'a>(gdef: &'a [u8], layout: &Layout<'a>) -> Gdef<'a>
    ensures { result.table.now ≡ believed gdef.now layout.now.gsub.now layout.now.gpos.now }
{
    if is_ignored(gdef.len(), layout.gsub.len(), layout.gpos.len()) {
        Gdef::new(&[])
    } else {
        Gdef::new(gdef)
    }
}

/// The font page of a symbol font, which the high byte of the selection flags of the first version of `OS/2` names.
fn font_page(os2: &[u8]) -> u16
    ensures { result ≡ font_page os2.now }
{
    if matches!(u16_at(os2, 0), Some(0)) {
        u16_at(os2, 62).unwrap_or(0) & 0xFF00
    } else {
        0
    }
}
