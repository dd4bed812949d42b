//! Joined syllables of which a lookup of a stage hangs on the form.

ghost use Rattle.std.specs.Prelude.{◌≡◌, false};
ghost use Rattle.glyph_digests.specs.Digest.{HasGlyphs};
ghost use Rattle.shaping_buffer.specs.KeepsClusters.{KeepsClusters};
ghost use Rattle.ot_apply.specs.JoinedSyllables as joined;
ghost use Rattle.ot_apply.specs.Stages.{joins};

use crate::seen_glyphs::digest_of;
use font_face::Face;
use glyph_digests::Digest;
use ot_lookups::lookup_list::{Lookup, SUBSTITUTION_EXTENSION};
use ot_map::PlannedLookup;
use ot_plan::TextPlan;
use script_shapers::SyllablePlan;
use script_universal::{FormLookup, FormMasks, flag_forms};
use shaping_buffer::{hb_buffer_t, hb_glyph_info_t};

/// The kind of a lookup of ligatures. Those above it up to extensions take several glyphs too, or may do.
const LIGATURES: u16 = 4;

/// A lookup, and the bits of its features.
#[derive(Clone, Copy, Drop)]
struct MaskedLookup<'a> {
    lookup: &'a Lookup<'a>,
    mask: u32,
}

impl FormLookup for MaskedLookup<'_> {
    fn is_parted(&self, glyph: &hb_glyph_info_t, other: u32) -> bool {
        is_parted(self.lookup, self.mask, glyph, other)
    }
}

/// Whether a lookup with these bits of its features is for a glyph, and is so with only one of the masks: the glyph's own, and another.
fn is_parted(lookup: &Lookup<'_>, bits: u32, glyph: &hb_glyph_info_t, other: u32) -> bool
    ensures { result ≡ joined.is_parted lookup.now bits glyph.now other }
{
    is_in_one(bits, glyph.mask, other)
        && (lookup.is_for(u32::MAX, glyph) || may_follow(lookup, glyph))
}

/// Whether a glyph may be another than the first of those that a lookup takes together.
fn may_follow(lookup: &Lookup<'_>, glyph: &hb_glyph_info_t) -> bool
    ensures { result ≡ joined.may_follow lookup.now glyph.now }
{
    matches!(lookup.lookup_type, LIGATURES..=SUBSTITUTION_EXTENSION)
        && !lookup.lookup_props.passes_over(glyph)
}

/// Whether bits are in only one of two masks.
fn is_in_one(bits: u32, one: u32, other: u32) -> bool
    ensures { result ≡ joined.is_in_one bits one other }
{
    if one & bits == 0 {
        other & bits != 0
    } else {
        other & bits == 0
    }
}

/// Marks as unsafe to break joined syllables of which a lookup of a stage hangs on the form, and sees which glyphs there are then.
#[inline]
#[tactic(auto, using(shaping_buffer::proofs::ClosedKeepsLemmas::kept))]
pub(crate) fn keep_joined(
    buffer: &mut hb_buffer_t,
    face: &Face,
    plan: &TextPlan,
    lookups: &[PlannedLookup],
    glyphs: &mut Digest,
)
    requires closed { buffer.old.have_output ≡ false }
    requires met { HasGlyphs glyphs.old buffer.old.input }
    ensures met { HasGlyphs glyphs.new buffer.new.input }
    ensures unjoined { joins plan.now.syllables ≡ false → buffer.new ≡ buffer.old }
    ensures closed { buffer.new.have_output ≡ false }
    ensures keeps { KeepsClusters buffer.old buffer.new }
{
    let SyllablePlan::Universal(universal) = &plan.syllables else {
        return;
    };
    for planned in lookups {
        keep_formed(buffer, face, &universal.forms, planned);
    }
    *glyphs = digest_of(buffer);
}

/// Marks those of which a lookup hangs on the form.
#[tactic(auto, using(shaping_buffer::proofs::ClosedKeepsLemmas::kept))]
fn keep_formed(buffer: &mut hb_buffer_t, face: &Face, forms: &FormMasks, planned: &PlannedLookup)
    requires { buffer.old.have_output ≡ false }
    ensures closed { buffer.new.have_output ≡ false }
    ensures keeps { KeepsClusters buffer.old buffer.new }
{
    if planned.mask & forms.all() == 0 {
        return;
    }
    if let Some(lookup) = face.lookups.substitutions.lookup(planned.index) {
        let masked = MaskedLookup {
            lookup,
            mask: planned.mask,
        };
        flag_forms(buffer, forms, &masked);
    }
}
