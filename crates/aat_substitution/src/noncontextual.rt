//! Subtables that put another glyph in the place of each glyph.

ghost use Rattle.std.specs.Prelude.{◌≡◌, false};
ghost use Rattle.shaping_buffer.specs.Clusters.{clusters};
ghost use Rattle.aat_substitution.specs.Left.{Stays};
ghost use Rattle.ot_layout.specs.Budget.{IsNotMore};

use crate::setting::Reach;
use crate::work::Work;
use crate::writing::set_glyph;
use aat_tables::Lookup;
use font_tables::gdef::Gdef;
use rb_glyph::hb_glyph_info_t;
use shaping_buffer::hb_buffer_t;

/// Puts another glyph in the place of each for which the lookup has one.
pub(crate) fn replace_all(
    buffer: &mut hb_buffer_t,
    lookup: &Lookup,
    reach: &Reach,
    gdef: &Gdef,
    work: &mut Work,
)
    requires { buffer.old.have_output ≡ false }
    ensures stays { Stays buffer.old buffer.new }
    ensures spent { IsNotMore work.old.budget work.new.budget }
{
    work.budget.pay_for(buffer.len());
    replace_each(buffer.info_slice_mut(), lookup, reach, gdef, work);
}

/// Puts another glyph in the place of each of these for which the lookup has one.
fn replace_each(
    glyphs: &mut [hb_glyph_info_t],
    lookup: &Lookup,
    reach: &Reach,
    gdef: &Gdef,
    work: &mut Work,
)
    ensures clusters { clusters glyphs.new ≡ clusters glyphs.old }
    ensures spent { work.new.budget ≡ work.old.budget }
{
    for place in 0..glyphs.len() {
        if let Some(glyph) = replacement(&glyphs[place], lookup, reach) {
            set_glyph(glyphs, place, glyph, gdef);
            work.digest.add(u32::from(glyph));
        }
    }
}

/// What the lookup puts in the place of a glyph, where it is applied.
fn replacement(glyph: &hb_glyph_info_t, lookup: &Lookup, reach: &Reach) -> Option<u16> {
    if reach.is_parted() && !reach.reaches(reach.flags.part_of(glyph.cluster)) {
        return None;
    }
    lookup.value(u16::try_from(glyph.glyph_id).ok()?)
}
