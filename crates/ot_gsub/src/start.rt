//! What is set before lookups are applied.

ghost use Rattle.std.specs.Prelude.{◌≡◌, false, map};
ghost use Rattle.ot_gsub.specs.Properties.{first_props, started};
ghost use Rattle.shaping_buffer.specs.KeepsClusters.{KeepsClusters};

use crate::properties::{BASE, MARK};
use font_tables::gdef::Gdef;
use rb_common::GlyphId;
use rb_glyph::hb_glyph_info_t;
use shaping_buffer::hb_buffer_t;

/// The bits of the Unicode properties that hold the general category.
const GENERAL_CATEGORY: u16 = 0x001F;

/// The general category of marks without width.
const NON_SPACING_MARK: u16 = 12;

/// The Unicode property of a character that is invisible by default.
const IGNORABLE: u16 = 0x0020;

/// Sets the properties of each glyph: those of its class in the font, or by its character where the font has no classes. No
/// glyph is part of a ligature or of a syllable yet.
pub fn substitute_start(buffer: &mut hb_buffer_t, gdef: &Gdef)
    requires { buffer.old.have_output ≡ false }
    ensures is { buffer.new ≡ record buffer.old { input = map (started gdef.now.table.now) buffer.old.input } }
    ensures closed { buffer.new.have_output ≡ false }
    ensures keeps { KeepsClusters buffer.old buffer.new }
{
    set_all(buffer.info_slice_mut(), gdef);
}

/// Sets the properties of each glyph.
#[tactic(auto, using(glyph_lists::proofs::MapLemmas::walks))]
fn set_all(glyphs: &mut [hb_glyph_info_t], gdef: &Gdef)
    ensures { glyphs.new ≡ map (started gdef.now.table.now) glyphs.old }
{
    for glyph in glyphs.iter_mut() {
        glyph.var1 = u32::from(first_props(glyph, gdef));
    }
}

/// The properties of a glyph that no lookup has changed.
fn first_props(info: &hb_glyph_info_t, gdef: &Gdef) -> u16
    ensures { result ≡ first_props gdef.now.table.now info.now }
{
    if gdef.has_glyph_classes() {
        return match u16::try_from(info.glyph_id) {
            Ok(glyph) => gdef.glyph_props(GlyphId(glyph)),
            Err(_) => 0,
        };
    }
    let unicode = info.unicode_props();
    if unicode & GENERAL_CATEGORY == NON_SPACING_MARK && unicode & IGNORABLE == 0 {
        MARK
    } else {
        BASE
    }
}
