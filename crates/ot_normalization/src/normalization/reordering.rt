//! The second round of normalization: marks in the order of their modified combining classes.

ghost use Rattle.std.specs.Prelude.{◌≡◌, ◌<◌, ◌≤◌, false, length};
ghost use Rattle.shaping_buffer.specs.Clusters.{clusters};
ghost use Rattle.shaping_passes.specs.Left.{StaysClosed};

use script_items::item::modified_combining_class;
use script_shapers::ScriptShaper;
use shaping_buffer::{hb_buffer_t, hb_glyph_info_t};
use shaping_passes::normalization::{MOST_MARKS, MarkClasses, order_run, run_end};

/// The combining grapheme joiner, which keeps marks from being put in order.
const GRAPHEME_JOINER: u32 = 0x34F;

/// The classes that are kept of the characters, with their properties.
pub(crate) struct KeptClasses;

impl MarkClasses for KeptClasses {
    ghost use Rattle.std.specs.Prelude.{refl};
    ghost use Rattle.script_items.specs.Marks.{kept_class};

    ghost classes = { λ _. kept_class };

    ghost alike = { λ _ g. refl };

    fn class_of(&self, info: &hb_glyph_info_t) -> u16 {
        modified_combining_class(info)
    }
}

/// Puts each run of at most 32 marks in the order of their classes; marks of one class stay in their order. Then the
/// shaper of the script may put them in another order.
#[tactic(auto, using(shaping_buffer::proofs::ClosedKeepsLemmas::kept))]
pub(crate) fn reorder_marks(buffer: &mut hb_buffer_t, shaper: ScriptShaper)
    requires { buffer.old.have_output ≡ false }
    ensures { StaysClosed buffer.old buffer.new }
{
    let mut at = 0;
    for _turn in 0..buffer.len() {
        if at >= buffer.len() {
            break;
        }
        let end = run_end(buffer.info(), &KeptClasses, at);
        if at < end && end - at <= MOST_MARKS {
            reorder_run(buffer, shaper, at, end);
        }
        at = end + 1;
    }
}

/// Puts a run of marks in the order of their classes, and then in that of the script.
#[tactic(auto, using(shaping_buffer::proofs::ClosedKeepsLemmas::kept))]
fn reorder_run(buffer: &mut hb_buffer_t, shaper: ScriptShaper, start: usize, end: usize)
    requires closed { buffer.old.have_output ≡ false }
    requires some { start < end }
    requires within { end ≤ length buffer.old.input }
    ensures { StaysClosed buffer.old buffer.new }
{
    order_run(buffer, &KeptClasses, start, end);
    shaper.reorder_marks(buffer, start, end);
}

/// Lets lookups pass over each combining grapheme joiner that did not keep marks from being put in order.
pub(crate) fn unhide_joiners(buffer: &mut hb_buffer_t)
    requires { buffer.old.have_output ≡ false }
    ensures { StaysClosed buffer.old buffer.new }
{
    unhide_all(buffer.info_slice_mut());
}

/// Lets lookups pass over each of these joiners.
#[tactic(auto, using(shaping_buffer::proofs::ClosedKeepsLemmas::clusters_written))]
fn unhide_all(infos: &mut [hb_glyph_info_t])
    ensures { clusters infos.new ≡ clusters infos.old }
{
    for i in 1..infos.len().saturating_sub(1) {
        let before = modified_combining_class(&infos[i - 1]);
        let behind = modified_combining_class(&infos[i + 1]);
        if infos[i].glyph_id == GRAPHEME_JOINER && (behind == 0 || before <= behind) {
            infos[i].unhide();
        }
    }
}
