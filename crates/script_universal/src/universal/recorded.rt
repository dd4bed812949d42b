//! What became of glyphs by the features of rephs and of forms that stand in front: the glyphs are sorted anew.

ghost use Rattle.std.specs.Prelude.{◌≡◌, false, map};
ghost use Rattle.glyph_lists.specs.Clusters.{clusters};
ghost use Rattle.script_syllables.specs.Item.{without_substitution};
ghost use Rattle.shaping_passes.specs.Left.{StaysClosed};
ghost use Rattle.script_universal.specs.Masks.{may_have_made};

use crate::universal::item::set;
use rb_glyph::{Flags, GlyphPropsFlags};
use script_syllables::item::is_substituted;
use script_syllables::syllables::{SyllableWork, work_on_all};
use shaping_buffer::{hb_buffer_t, hb_glyph_info_t};
use universal_categories::UniversalCategory;

/// Forgets which glyphs lookups put there.
pub(crate) fn forget_substitutions(buffer: &mut hb_buffer_t)
    requires { buffer.old.have_output ≡ false }
    ensures { StaysClosed buffer.old buffer.new }
{
    forget_all(buffer.info_slice_mut());
}

/// Does that in a list.
#[tactic(auto, using(glyph_lists::proofs::MapLemmas::walks, shaping_buffer::proofs::ClosedKeepsLemmas::clusters_written))]
fn forget_all(infos: &mut [hb_glyph_info_t])
    ensures is { infos.new ≡ map without_substitution infos.old }
    ensures same { clusters infos.new ≡ clusters infos.old }
{
    for info in infos.iter_mut() {
        forget(info);
    }
}

/// Does that with a glyph.
fn forget(info: &mut hb_glyph_info_t)
    ensures is { info.new ≡ without_substitution info.old }
    ensures cluster { info.new.cluster ≡ info.old.cluster }
{
    info.set_glyph_props(info.glyph_props() & !GlyphPropsFlags::SUBSTITUTED.bits());
}

/// A feature of which it is noted where it has made a glyph.
#[derive(Clone, Copy)]
pub(crate) struct Recorded {
    /// The mask of the first items of a syllable, of which alone it may have made one; `None` where it may have made any.
    pub(crate) mask: Option<u32>,
    /// The category of what it has made.
    pub(crate) category: UniversalCategory,
}

/// Takes the first glyph of each syllable that a lookup put there for one that the feature made.
pub(crate) fn record_made(buffer: &mut hb_buffer_t, recorded: Recorded)
    requires { buffer.old.have_output ≡ false }
    ensures { StaysClosed buffer.old buffer.new }
{
    work_on_all(buffer.info_slice_mut(), &recorded);
}

impl SyllableWork for Recorded {
    fn work_on(&self, syllable: &mut [hb_glyph_info_t]) {
        record_first(syllable, *self);
    }
}

/// Does that in a syllable.
#[tactic(auto, using(shaping_buffer::proofs::ClosedKeepsLemmas::clusters_written))]
fn record_first(infos: &mut [hb_glyph_info_t], recorded: Recorded)
    ensures { clusters infos.new ≡ clusters infos.old }
{
    for place in 0..infos.len() {
        if !may_have_made(&infos[place], recorded.mask) {
            return;
        }
        if is_substituted(&infos[place]) {
            set(&mut infos[place], recorded.category);
            return;
        }
    }
}

/// Whether a feature with this mask may have made a glyph.
fn may_have_made(info: &hb_glyph_info_t, mask: Option<u32>) -> bool
    ensures { result ≡ may_have_made mask info.now }
{
    match mask {
        Some(mask) => info.mask & mask != 0,
        None => true,
    }
}
