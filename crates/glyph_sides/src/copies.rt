//! Copies of a glyph under other ids.

ghost use Rattle.std.specs.Prelude.{◌≡◌, ◌+◌, ◌≤◌, ◌++◌, length, take, drop, vec_capacity};
ghost use Rattle.glyph_lists.specs.Replacement.{copies};

use rb_glyph::hb_glyph_info_t;

/// A glyph under another id.
// Copied whole, and then given the id, it is written in two pieces by rustc, and by Rattle as fast as word by word.
#[inline(always)]
fn with_id(glyph: hb_glyph_info_t, id: u32) -> hb_glyph_info_t
    ensures { result ≡ record glyph { glyph_id = id } }
{
    let mut copy = hb_glyph_info_t { ..glyph };
    copy.glyph_id = id;
    copy
}

/// Appends a copy of a glyph under each id, where there is room.
#[inline(always)]
pub(crate) fn append_copies(out: &mut Vec<hb_glyph_info_t>, glyph: hb_glyph_info_t, ids: &[u32])
    requires { length out.old.items + length ids.now ≤ vec_capacity out.old }
    ensures is { out.new.items ≡ out.old.items ++ copies glyph ids.now }
    ensures capacity { vec_capacity out.new ≡ vec_capacity out.old }
{
    for id in ids {
        out.push_reserved(with_id(glyph, *id));
    }
}

/// Writes a copy of a glyph under each id, from a place on.
#[inline(always)]
#[tactic(auto, using(std::proofs::lemmas::Slice::overwrites))]
pub(crate) fn write_copies(
    info: &mut [hb_glyph_info_t],
    at: usize,
    glyph: hb_glyph_info_t,
    ids: &[u32],
)
    requires { at + length ids.now ≤ length info.old }
    ensures put { take (at + length ids.now) info.new
        ≡ take at info.old ++ copies glyph ids.now }
    ensures behind { drop (at + length ids.now) info.new ≡ drop (at + length ids.now) info.old }
{
    fill(&mut info[at..at + ids.len()], glyph, ids);
}

/// Fills a slice with a copy of a glyph under each id.
#[inline(always)]
#[tactic(auto, using(crate::proofs::CopyLemmas::set_copies))]
fn fill(slots: &mut [hb_glyph_info_t], glyph: hb_glyph_info_t, ids: &[u32])
    requires { length slots.old ≡ length ids.now }
    ensures { slots.new ≡ copies glyph ids.now }
{
    for (i, id) in ids.iter().enumerate() {
        slots[i] = with_id(glyph, *id);
    }
}
