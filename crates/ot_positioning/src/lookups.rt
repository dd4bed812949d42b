//! The lookups that position glyphs, applied to a text in the order of its plan.

ghost use Rattle.ot_positioning.specs.KernedByTable.{IsKernedByTable};
ghost use Rattle.ot_positioning.specs.Stays.{Stays};
ghost use Rattle.shaping_buffer.specs.State.{HasPositions};

use font_face::Face;
use font_functions::FontFunctions;
use font_variations::Deltas;
use glyph_digests::Digest;
use ot_attachments::position_start;
use ot_gpos::Setting;
use ot_gpos_tables::contour_points::{ContourPoint, ContourPoints};
use ot_gpos_tables::instance::Instance;
use ot_gpos_tables::kern_table::KernTable;
use ot_layout::{LookupOptions, Search};
use ot_map::{OtShapePlan, PlannedLookup};
use ot_plan::{Step, Watch, budget_of, options_of};
use rb_common::GlyphId;
use shaping_buffer::hb_buffer_t;
use std::alloc::AllocError;

/// The size and the variations at which a font is used, as its lookups ask for them.
fn instance_of<'a>(face: &'a Face) -> Instance<'a> {
    Instance {
        scale: face.scale,
        deltas: Deltas {
            store: face.variations.store,
            coordinates: face.coordinates(),
        },
    }
}

/// A font, as its lookups ask it for points of outlines.
#[derive(Drop)]
struct FontPoints<'a, F> {
    font: &'a F,
}

impl<F: FontFunctions> ContourPoints for FontPoints<'_, F> {
    fn contour_point(&self, glyph: u32, point: u16) -> Option<ContourPoint> {
        let glyph = GlyphId(u16::try_from(glyph).unwrap_or(0));
        let (x, y) = self.font.glyph_contour_point(glyph, point)?;
        Some(ContourPoint { x, y })
    }
}

/// Positions the glyphs by the lookups of `GPOS`, and by the table `kern` where `GPOS` does not kern.
#[tactic(auto, using(shaping_buffer::proofs::ClosedKeepsLemmas::kept))]
pub(crate) fn position_by_lookups<F: FontFunctions, W: Watch>(
    buffer: &mut hb_buffer_t,
    face: &Face,
    font: &F,
    plan: &OtShapePlan,
    watch: &mut W,
) -> Result<(), AllocError>
    requires placed { HasPositions buffer.old }
    ensures stays { Stays buffer.old buffer.new }
{
    position_start(buffer);
    apply_positions(buffer, face, font, lookups_of(plan), watch)?;
    kern_by_table(buffer, face, plan, watch)
}

/// The lookups of `GPOS`, where the plan has them.
fn lookups_of(plan: &OtShapePlan) -> &[PlannedLookup] {
    if plan.apply_gpos {
        plan.layout.gpos_lookups.as_slice()
    } else {
        &[]
    }
}

/// Kerns by the table `kern`, where the plan has it.
#[tactic(auto, using(shaping_buffer::proofs::ClosedKeepsLemmas::kept))]
fn kern_by_table<W: Watch>(
    buffer: &mut hb_buffer_t,
    face: &Face,
    plan: &OtShapePlan,
    watch: &mut W,
) -> Result<(), AllocError>
    requires placed { HasPositions buffer.old }
    ensures stays { Stays buffer.old buffer.new }
{
    if plan.apply_kern {
        apply_kern(buffer, face, plan.kern_mask);
        watch.step(Step::Kerned, buffer)?;
    }
    Ok(())
}

/// Applies lookups of `GPOS`.
#[tactic(auto, using(shaping_buffer::proofs::ClosedKeepsLemmas::kept))]
fn apply_positions<F: FontFunctions, W: Watch>(
    buffer: &mut hb_buffer_t,
    face: &Face,
    font: &F,
    lookups: &[PlannedLookup],
    watch: &mut W,
) -> Result<(), AllocError>
    requires placed { HasPositions buffer.old }
    ensures stays { Stays buffer.old buffer.new }
{
    if lookups.is_empty() {
        return Ok(());
    }
    let points = FontPoints { font };
    let setting = Setting {
        list: &face.lookups.positions,
        instance: instance_of(face),
        points: &points,
    };
    let mut search = Search::new(budget_of(buffer));
    let glyphs = Digest::of_glyphs(buffer.info());
    for planned in lookups {
        apply_planned(buffer, &setting, planned, &glyphs, &mut search, watch)?;
    }
    Ok(())
}

/// Applies a lookup of `GPOS` of the plan, where it may be for one of the glyphs.
#[tactic(auto, using(shaping_buffer::proofs::ClosedKeepsLemmas::kept))]
fn apply_planned<F: FontFunctions, W: Watch>(
    buffer: &mut hb_buffer_t,
    setting: &Setting<FontPoints<F>>,
    planned: &PlannedLookup,
    glyphs: &Digest,
    search: &mut Search,
    watch: &mut W,
) -> Result<(), AllocError>
    requires placed { HasPositions buffer.old }
    ensures stays { Stays buffer.old buffer.new }
{
    if !setting.list.may_apply(planned.index, glyphs) {
        return Ok(());
    }
    let options = options_of(planned);
    ot_gpos::position(buffer, setting, planned.index, &options, search);
    watch.step(Step::Positioned(planned.index), buffer)
}

/// Kerns by the table `kern`.
#[tactic(auto, using(shaping_buffer::proofs::ClosedKeepsLemmas::kept))]
fn apply_kern(buffer: &mut hb_buffer_t, face: &Face, mask: u32)
    requires placed { HasPositions buffer.old }
    ensures kerned { IsKernedByTable face.now mask buffer.old buffer.new }
    ensures stays { Stays buffer.old buffer.new }
{
    let options = LookupOptions {
        mask,
        auto_zwnj: true,
        auto_zwj: true,
        per_syllable: false,
        random: false,
    };
    let table = KernTable::new(face.layout.kern);
    ot_kern::kern(buffer, &table, &face.scale, &options);
}
