//! What the plan of a text decides of fractions, kerning and marks.

ghost use Rattle.std.specs.Prelude.{◌≡◌, ◌&&◌, is_some, length, nat_eq, not};
ghost use Rattle.rb_common.specs.Tag.{tag_of};
ghost use Rattle.ot_map.specs.Plan.{IsReadOf};
ghost use Rattle.script_shapers.specs.Shapers.{wanted_script, width_of};
ghost use Rattle.ot_plan.specs.Decisions.{AreMarksOf, HasMasks, IsMask, IsOneMask, IsPositionedBy};
ghost use Rattle.ot_plan.specs.Decisions.{is_wanted, kern_of, kern_tag, loses_width};

use font_face::Face;
use ot_gpos_tables::kern_table::KernTable;
use ot_map::{FontLayout, KernLayout, LayoutPlan, OtShapePlan};
use rb_common::{Direction, Tag};
use script_shapers::{ScriptShaper, ZeroWidthMarks};

/// The shaper of a text.
#[derive(Clone, Copy)]
pub(crate) struct ChosenShaper {
    /// The shaper of the script. It says what becomes of marks.
    pub own: ScriptShaper,
    /// The shaper of the text: the plain one where glyphs are substituted by `morx`, and else that of the script.
    pub shaper: ScriptShaper,
    /// Whether glyphs are substituted by `morx`.
    pub substitutes_by_morx: bool,
    /// Whether the font has the script in its table `GSUB`.
    pub finds_script: bool,
}

/// What follows from the features of a plan, the tables of a font and the shaper of a text: HarfBuzz's
/// `hb_ot_shape_planner_t::compile`.
pub(crate) fn decided(
    layout: LayoutPlan,
    font: &FontLayout,
    direction: Direction,
    chosen: &ChosenShaper,
) -> OtShapePlan
    ensures layout { result.layout ≡ layout }
    ensures masks { HasMasks direction result }
    ensures positions { IsPositionedBy font.now.gpos.now font.now.kern direction chosen.now.shaper result }
    ensures marks { AreMarksOf font.now.kern chosen.now.own chosen.now.substitutes_by_morx result }
{
    let kern = font.kern;
    let frac_mask = one_mask(&layout, b"frac");
    let numr_mask = one_mask(&layout, b"numr");
    let dnom_mask = one_mask(&layout, b"dnom");
    let rtlm_mask = one_mask(&layout, b"rtlm");
    let vert_mask = one_mask(&layout, b"vert");
    let mark_mask = one_mask(&layout, b"mark");
    let kern_mask = kerning_mask(&layout, direction);
    let apply_gpos = applies_gpos(font.gpos, chosen.shaper, layout.gpos_script);
    let apply_kern = applies_kern(&layout, direction, kern.is_there, apply_gpos);
    let are_unplaced = !apply_gpos && !(apply_kern && kern.is_cross_stream);
    OtShapePlan {
        frac_mask,
        numr_mask,
        dnom_mask,
        has_frac: frac_mask != 0 || numr_mask != 0 && dnom_mask != 0,
        rtlm_mask,
        has_vert: vert_mask != 0,
        kern_mask,
        requested_kerning: kern_mask != 0,
        apply_gpos,
        apply_kern,
        apply_fallback_kern: !apply_gpos && !apply_kern,
        zero_marks: loses_width(chosen.own) && !(apply_kern && kern.has_machine),
        has_gpos_mark: mark_mask != 0,
        adjust_mark_positioning_when_zeroing: are_unplaced && !chosen.substitutes_by_morx,
        fallback_mark_positioning: chosen.own.fallback_position() && are_unplaced,
        layout,
    }
}

/// The bit of the value 1 of a feature; 0 where the plan does not have it.
fn one_mask(layout: &LayoutPlan, name: &[u8; 4]) -> u32
    ensures { IsOneMask layout.now (tag_of name.now) result }
{
    let tag = Tag::from_bytes(name);
    layout.one_mask(tag)
}

/// The bits of the value of a feature; 0 where the plan does not have it.
pub(crate) fn mask(layout: &LayoutPlan, name: &[u8; 4]) -> u32
    ensures { IsMask layout.now (tag_of name.now) result }
{
    let tag = Tag::from_bytes(name);
    layout.mask(tag)
}

/// The bits of kerning in lines of a direction.
fn kerning_mask(layout: &LayoutPlan, direction: Direction) -> u32
    ensures { IsMask layout.now (kern_tag direction) result }
{
    let tag = kern_tag(direction);
    layout.mask(tag)
}

/// The feature of kerning in lines of a direction.
fn kern_tag(direction: Direction) -> Tag
    ensures { result.0 ≡ kern_tag direction }
{
    if direction.is_horizontal() {
        Tag::from_bytes(b"kern")
    } else {
        Tag::from_bytes(b"vkrn")
    }
}

/// Whether the lookups of `GPOS` position glyphs: where the font has the table, and in it the script that the shaper wants.
fn applies_gpos(gpos: &[u8], shaper: ScriptShaper, script: Tag) -> bool
    ensures { result ≡ is_wanted (wanted_script shaper) script.0 && not (nat_eq (length gpos.now) 0) }
{
    is_wanted(shaper, script) && !gpos.is_empty()
}

/// Whether the script that was chosen of `GPOS` is the one that a shaper wants, if it wants one.
fn is_wanted(shaper: ScriptShaper, script: Tag) -> bool
    ensures { result ≡ is_wanted (wanted_script shaper) script.0 }
{
    match shaper.gpos_script() {
        Some(wanted) => wanted.0 == script.0,
        None => true,
    }
}

/// Whether the table `kern` kerns lines of a direction: where lookups of `GPOS` are not applied, or have no feature of kerning.
fn applies_kern(layout: &LayoutPlan, direction: Direction, has_kern: bool, apply_gpos: bool) -> bool
    ensures { IsReadOf layout.now.features.items (kern_tag direction)
        (λ f. has_kern && not (is_some f.gpos && apply_gpos)) has_kern result }
{
    let tag = kern_tag(direction);
    applies_kern_beside(layout, tag, has_kern, apply_gpos)
}

/// The same, where this is the feature of kerning.
fn applies_kern_beside(layout: &LayoutPlan, tag: Tag, has_kern: bool, apply_gpos: bool) -> bool
    ensures { IsReadOf layout.now.features.items tag.0
        (λ f. has_kern && not (is_some f.gpos && apply_gpos)) has_kern result }
{
    match layout.feature(tag) {
        Some(feature) => has_kern && !(feature.gpos.is_some() && apply_gpos),
        None => has_kern,
    }
}

/// Whether marks lose their width, by the shaper of the script.
fn loses_width(own: ScriptShaper) -> bool
    ensures { result ≡ loses_width (width_of own) }
{
    match own.zero_width_marks() {
        ZeroWidthMarks::Never => false,
        ZeroWidthMarks::Early | ZeroWidthMarks::Late => true,
    }
}

/// What the plan asks of the font's table `kern`.
pub(crate) fn kern_layout(face: &Face) -> KernLayout
    ensures { result ≡ kern_of face.now.layout.kern.now }
{
    let table = KernTable::new(face.layout.kern);
    KernLayout {
        is_there: table.has_kerning(),
        is_cross_stream: table.has_cross_kerning(),
        has_machine: table.has_machine_kerning(),
    }
}
