//! Deletion of glyphs in the list itself: a walk that deletes some, and moves each of the others down at most once.

ghost use Rattle.std.specs.Prelude.{◌≡◌, ◌+◌, ◌++◌, ◌≤◌, ◌<◌, ◌&&◌, Bool, length, take, drop};
ghost use Rattle.rb_glyph.specs.declared.info.hb_glyph_info_t.{hb_glyph_info_t};
ghost use Rattle.glyph_lists.specs.ClusterOrder.{is_any};
ghost use Rattle.glyph_lists.specs.DeletingWalk.{sides_at, deletion_merges, after_deletion, left_by_walk, kept_beside};
ghost use Rattle.glyph_lists.specs.DeletingWalk.{walk_merges};

use crate::cluster_order::ClusterOrder;
use crate::deletion::{keep_cluster, merges_next};
use rb_glyph::{GlyphPosition, hb_glyph_info_t};

/// Deletes the glyphs for which `deletes` holds as they stand when the walk comes to them, and moves the others down,
/// and the items of `pos` with them, where there is one for each glyph. Returns how many glyphs are left, and whether a
/// deleted one was merged with the next, where merges mark. It stands out of line: a walk of many moves needs registers
/// of its own.
#[inline(never)]
pub fn delete_in_place<F: Fn(&hb_glyph_info_t) -> bool>(
    info: &mut [hb_glyph_info_t],
    pos: &mut [GlyphPosition],
    order: ClusterOrder,
    deletes: &F,
) -> (usize, bool)
    requires callable { F.IsAlwaysCallable deletes.now }
    ensures within { result.0 ≤ length info.old }
    ensures len { length info.new ≡ length info.old }
    ensures pos_len { length pos.new ≡ length pos.old }
    ensures info { (test : hb_glyph_info_t → Bool)
        → ((x : _) (r : _) → F.post deletes.now x r → r ≡ test x.now)
        → take result.0 info.new ≡ left_by_walk (is_any order) test info.old }
    ensures pos { (test : hb_glyph_info_t → Bool)
        → ((x : _) (r : _) → F.post deletes.now x r → r ≡ test x.now)
        → length pos.old ≡ length info.old
        → take result.0 pos.new ≡ kept_beside (is_any order) test (sides_at 0 0 info.old) pos.old }
    ensures merges { (test : hb_glyph_info_t → Bool)
        → ((x : _) (r : _) → F.post deletes.now x r → r ≡ test x.now)
        → result.1 ≡ (is_any order && walk_merges (is_any order) test (length info.old)
        (sides_at 0 0 info.old)) }
{
    let mut kept = 0;
    let mut merges = false;
    for at in 0..info.len() {
        if deletes(&info[at]) {
            merges |= delete_at(info, kept, at, order);
        } else {
            keep_at(info, kept, at);
            keep_at(pos, kept, at);
            kept += 1;
        }
    }
    (kept, merges)
}

/// Deletes the glyph at `at` of a walk that kept the first `kept` glyphs. Returns whether it was merged with the next
/// one, where merges mark.
#[inline]
#[tactic(auto, using(crate::proofs::DeletingWalkLemmas::sides_at_deleted))]
fn delete_at(info: &mut [hb_glyph_info_t], kept: usize, at: usize, order: ClusterOrder) -> bool
    requires order { kept ≤ at }
    requires within { at < length info.old }
    ensures sides { sides_at kept (at + 1) info.new
        ≡ after_deletion (is_any order) (sides_at kept at info.old) }
    ensures merges { result ≡ (is_any order && deletion_merges (sides_at kept at info.old)) }
    ensures len { length info.new ≡ length info.old }
{
    let (front, rest) = info.split_at_mut(at);
    let out = &mut front[..kept];
    let merges = order.is_any() && merges_next(out, rest);
    keep_cluster(out, rest, order);
    merges
}

/// Keeps the item at `at` of a walk that kept the first `kept` items, where there is one.
#[inline]
fn keep_at<T: Copy>(items: &mut [T], kept: usize, at: usize)
    requires { kept ≤ at }
    ensures front { at < length items.old
        → take (kept + 1) items.new ≡ take kept items.old ++ take 1 (drop at items.old) }
    ensures rest { drop (at + 1) items.new ≡ drop 1 (drop at items.old) }
    ensures len { length items.new ≡ length items.old }
{
    if at < items.len() {
        items[kept] = items[at];
    }
}
