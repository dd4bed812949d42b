//! Which features the items of syllables have.

ghost use Rattle.std.specs.Prelude.{◌≡◌, ◌≤◌, false, length, map};
ghost use Rattle.glyph_lists.specs.Parts.{map_range};
ghost use Rattle.glyph_lists.specs.Clusters.{clusters};
ghost use Rattle.shaping_passes.specs.Left.{StaysClosed};
ghost use Rattle.script_universal.specs.Masks as forms;

use crate::universal::item::is;
use crate::universal::plan::{BROKEN, FormMasks};
use script_syllables::item::add_mask;
use script_syllables::syllables::{SyllableWork, kind_at, syllable_end, work_on_all};
use shaping_buffer::{hb_buffer_t, hb_glyph_info_t};
use universal_categories::UniversalCategory;

/// How many items may make a reph.
const REPH_LENGTH: usize = 3;

/// The last kind of syllables that join, but for broken ones.
const SYMBOL: u8 = 5;

/// Sets the mask of rephs on the first items of each syllable.
pub(crate) fn mask_rephs(buffer: &mut hb_buffer_t, mask: u32)
    requires { buffer.old.have_output ≡ false }
    ensures { StaysClosed buffer.old buffer.new }
{
    work_on_all(buffer.info_slice_mut(), &RephMask(mask));
}

/// The mask of rephs.
#[derive(Drop)]
struct RephMask(u32);

impl SyllableWork for RephMask {
    fn work_on(&self, syllable: &mut [hb_glyph_info_t]) {
        mask_reph(syllable, self.0);
    }
}

/// Sets the mask of rephs on the first items of a syllable: on one that is a reph already, or on three.
fn mask_reph(syllable: &mut [hb_glyph_info_t], mask: u32)
    ensures { clusters syllable.new ≡ clusters syllable.old }
{
    let count = match syllable.first() {
        Some(first) if is(first, UniversalCategory::Repha) => 1,
        _ => REPH_LENGTH,
    };
    add_mask(syllable, 0, count, mask);
}

/// How a syllable stands in its word, as far as it was read.
#[derive(Clone, Copy, PartialEq, Eq)]
enum JoiningForm {
    /// It is none that joins.
    Unformed,
    /// It is alone.
    Alone,
    /// It is the last.
    Last,
}

/// Gives the items of each syllable the form of its place in a word: neighbours join, whatever they are.
pub(crate) fn mask_forms(buffer: &mut hb_buffer_t, masks: &FormMasks)
    requires { buffer.old.have_output ≡ false }
    ensures { StaysClosed buffer.old buffer.new }
{
    set_forms(buffer.info_slice_mut(), masks);
}

/// Does that in a list.
fn set_forms(infos: &mut [hb_glyph_info_t], masks: &FormMasks)
    ensures { clusters infos.new ≡ clusters infos.old }
{
    if masks.all() == 0 {
        return;
    }
    let (mut before, mut start) = (0, 0);
    let mut form = JoiningForm::Unformed;
    for _turn in 0..infos.len() {
        if start >= infos.len() {
            break;
        }
        let end = syllable_end(infos, start);
        let joined = if form == JoiningForm::Last {
            masks.medi
        } else {
            masks.init
        };
        form = next_form(kind_at(infos, start), form);
        if form == JoiningForm::Last {
            set_form(infos, before, start, masks, joined);
        }
        if form != JoiningForm::Unformed {
            set_form(infos, start, end, masks, own_mask(form, masks));
        }
        before = start;
        start = end;
    }
}

/// The mask of the last syllable that was read.
fn own_mask(form: JoiningForm, masks: &FormMasks) -> u32
    ensures { result ≡ forms.own_mask form masks.now }
{
    match form {
        JoiningForm::Last => masks.fina,
        JoiningForm::Unformed | JoiningForm::Alone => masks.isol,
    }
}

/// Whether syllables of a kind join.
pub(crate) fn joins(kind: u8) -> bool
    ensures { result ≡ forms.joins kind }
{
    kind <= SYMBOL || kind == BROKEN
}

/// The form of a syllable of a kind, behind one of the form `last`.
fn next_form(kind: u8, last: JoiningForm) -> JoiningForm
    ensures { result ≡ forms.next_form kind last }
{
    if !joins(kind) {
        return JoiningForm::Unformed;
    }
    match last {
        JoiningForm::Unformed => JoiningForm::Alone,
        JoiningForm::Alone | JoiningForm::Last => JoiningForm::Last,
    }
}

/// Gives the items from `start` to `end` the mask of a form, and takes those of the other forms.
#[tactic(auto, using(script_syllables::proofs::MovedLemmas::same))]
fn set_form(infos: &mut [hb_glyph_info_t], start: usize, end: usize, masks: &FormMasks, mask: u32)
    requires order { start ≤ end }
    requires within { end ≤ length infos.old }
    ensures is { infos.new ≡ map_range (forms.formed masks.now mask) infos.old start end }
    ensures same { clusters infos.new ≡ clusters infos.old }
{
    form_all(&mut infos[start..end], masks, mask);
}

/// Does that with all items of a list.
#[tactic(auto, using(glyph_lists::proofs::MapLemmas::walks, shaping_buffer::proofs::ClosedKeepsLemmas::clusters_written))]
fn form_all(infos: &mut [hb_glyph_info_t], masks: &FormMasks, mask: u32)
    ensures is { infos.new ≡ map (forms.formed masks.now mask) infos.old }
    ensures same { clusters infos.new ≡ clusters infos.old }
{
    for info in infos.iter_mut() {
        form(info, masks, mask);
    }
}

/// Does that with an item.
fn form(info: &mut hb_glyph_info_t, masks: &FormMasks, mask: u32)
    ensures is { info.new ≡ forms.formed masks.now mask info.old }
    ensures cluster { info.new.cluster ≡ info.old.cluster }
{
    info.mask = in_form(masks, mask, info.mask);
}

/// A mask with a form, and with none of the others.
pub(crate) fn in_form(masks: &FormMasks, form: u32, mask: u32) -> u32
    ensures { result ≡ forms.in_form masks.now form mask }
{
    mask & !masks.all() | form
}
