//! The masks of the features that a shaper gives each item by itself.

ghost use Rattle.std.specs.Prelude.{◌≡◌, false, map};
ghost use Rattle.shaping_buffer.specs.KeepsClusters.{KeepsClusters};
ghost use Rattle.script_items.specs.Masks.{with_form_mask};

use crate::item::shaper_byte;
use shaping_buffer::{hb_buffer_t, hb_glyph_info_t};

/// Adds to each item's mask that of the number which it keeps.
pub fn add_masks(buffer: &mut hb_buffer_t, masks: &[u32; 8])
    requires { buffer.old.have_output ≡ false }
    ensures is { buffer.new ≡ record buffer.old { input = map (with_form_mask masks.now) buffer.old.input } }
    ensures closed { buffer.new.have_output ≡ false }
    ensures keeps { KeepsClusters buffer.old buffer.new }
{
    add_masks_to(buffer.info_slice_mut(), masks);
}

/// Does that with these items.
#[tactic(auto, using(glyph_lists::proofs::MapLemmas::walks))]
fn add_masks_to(infos: &mut [hb_glyph_info_t], masks: &[u32; 8])
    ensures { infos.new ≡ map (with_form_mask masks.now) infos.old }
{
    for info in infos.iter_mut() {
        add_mask(info, masks);
    }
}

/// Adds to an item's mask that of the number which it keeps.
fn add_mask(info: &mut hb_glyph_info_t, masks: &[u32; 8])
    ensures is { info.new ≡ with_form_mask masks.now info.old }
    ensures cluster { info.new.cluster ≡ info.old.cluster }
{
    let byte = usize::from(shaper_byte(info));
    if byte < 8 {
        info.mask = info.mask | masks[byte];
    }
}
