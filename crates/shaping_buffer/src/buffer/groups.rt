//! Reversals, groups of neighbours, and deletion in place, as HarfBuzz's `hb_buffer_t` has them.

ghost use Rattle.std.specs.Prelude.{◌≡◌, ◌+◌, ◌<◌, ◌≤◌, Bool, true, false, length};
ghost use Rattle.rb_glyph.specs.declared.info.hb_glyph_info_t.{hb_glyph_info_t};
ghost use Rattle.glyph_lists.specs.Groups as groups_of;
ghost use Rattle.shaping_buffer.specs.State.{len};
ghost use Rattle.shaping_buffer.specs.GroupStep as step;
ghost use Rattle.shaping_buffer.specs.ClusterStep.{any_order};
ghost use Rattle.shaping_buffer.specs.KeepsClusters.{KeepsClusters, TurnsClusters, IsOneCluster, ShareClusters};

use super::hb_buffer_t;
use glyph_lists::deletion_in_place::delete_in_place;
use glyph_lists::{groups, reversal};
use rb_glyph::hb_glyph_info_t;

impl hb_buffer_t {
    /// Puts the list into reverse order, and its positions with it, where there are any. Requires that no output is
    /// open.
    pub fn reverse(&mut self)
        requires { self.old.have_output ≡ false }
        ensures is { self.new ≡ step.reverse self.old }
        ensures turns { TurnsClusters self.old self.new }
    {
        prove!(!self.sides.is_open());
        reversal::reverse(self.sides.list_mut());
        reversal::reverse(&mut self.pos);
    }

    /// Puts the glyphs from `start` to `end` into reverse order, and their positions with them, where there are any.
    /// Requires that no output is open, and `start <= end <= len`.
    pub fn reverse_range(&mut self, start: usize, end: usize)
        requires closed { self.old.have_output ≡ false }
        requires order { start ≤ end }
        requires within { end ≤ len self.old }
        ensures is { self.new ≡ step.reverse_range start end self.old }
        ensures keeps { IsOneCluster start end self.old → KeepsClusters self.old self.new }
    {
        prove!(!self.sides.is_open());
        groups::reverse_range(self.sides.list_mut(), start, end);
        if self.have_positions {
            groups::reverse_range(&mut self.pos, start, end);
        }
    }

    /// The end of the group that begins at `start`: `group` says of two neighbours whether they are in one group.
    /// Requires that no output is open, and a glyph at `start`.
    pub fn group_end<F: Fn(&hb_glyph_info_t, &hb_glyph_info_t) -> bool>(
        &self,
        start: usize,
        group: F,
    ) -> usize
        requires closed { self.now.have_output ≡ false }
        requires within { start < len self.now }
        requires callable { F.IsAlwaysCallable group }
        ensures after { start + 1 ≤ result }
        ensures until { result ≤ len self.now }
        ensures is { (test : groups_of.Test)
            → ((x y : _) (r : _) → F.post group x y r → r ≡ test x.now y.now)
            → result ≡ groups_of.group_end test start self.now.input }
    {
        groups::group_end(self.sides.input(), start, &group)
    }

    /// The end of the syllable that `start` is in: of the glyphs from there on that have the syllable number of the
    /// glyph at `start`. Past the end of the list it is `start` itself. Requires that no output is open.
    pub fn next_syllable(&self, start: usize) -> usize
        requires { self.now.have_output ≡ false }
        ensures { result ≡ groups_of.group_end groups_of.share_syllable start self.now.input }
    {
        if start >= self.sides.len() {
            return start;
        }
        groups::group_end(
            self.sides.input(),
            start,
            &|a, b| a.syllable() == b.syllable(),
        )
    }

    /// Puts the groups into reverse order, each in its own order, and the positions with their glyphs, where there are
    /// any: `group` says of two neighbours whether they are in one group. Where it is to merge clusters, each group is
    /// merged as by `merge_clusters` before the next one is looked for. Requires that no output is open.
    pub fn reverse_groups<F: Fn(&hb_glyph_info_t, &hb_glyph_info_t) -> bool>(
        &mut self,
        group: F,
        merge_clusters: bool,
    )
        requires closed { self.old.have_output ≡ false }
        requires callable { F.IsAlwaysCallable group }
        ensures is { (test : groups_of.Test)
            → ((x y : _) (r : _) → F.post group x y r → r ≡ test x.now y.now)
            → self.new ≡ step.reverse_groups test merge_clusters self.old }
        ensures len { length self.new.input ≡ length self.old.input }
        ensures others { step.KeepsOthers self.old self.new }
        ensures merging_turns { merge_clusters ≡ true → TurnsClusters self.old self.new }
        ensures turns { (test : groups_of.Test)
            → ((x y : _) (r : _) → F.post group x y r → r ≡ test x.now y.now)
            → (any_order self.old ≡ false → ShareClusters test self.old.input)
            → TurnsClusters self.old self.new }
    {
        prove!(!self.sides.is_open());
        let len = self.sides.len();
        let mut start = 0;
        while start < len {
            let end = groups::group_end(self.sides.input(), start, &group);
            self.reverse_group(start, end, merge_clusters);
            start = end;
        }
        self.reverse();
    }

    /// Puts one group into reverse order in its place, merged before where it is to be.
    #[tactic(auto, using(crate::proofs::GroupStepLemmas::still_within))]
    #[inline(always)]
    fn reverse_group(&mut self, start: usize, end: usize, merge_clusters: bool)
        requires closed { self.old.have_output ≡ false }
        requires order { start ≤ end }
        requires within { end ≤ len self.old }
        ensures { self.new ≡ step.reverse_group merge_clusters start end self.old }
    {
        if merge_clusters {
            self.merge_clusters(start, end);
        }
        self.reverse_range(start, end);
    }

    /// Deletes the glyphs for which `filter` holds, as a walk over the list does by `delete_glyph` and `next_glyph`:
    /// `filter` sees each glyph as it stands when the walk comes to it. The positions of the glyphs that are kept stay
    /// theirs, and the cursor is at the start. Requires that no output is open.
    pub fn delete_glyphs_inplace<F: Fn(&hb_glyph_info_t) -> bool>(&mut self, filter: F)
        requires closed { self.old.have_output ≡ false }
        requires callable { F.IsAlwaysCallable filter }
        ensures is { (test : hb_glyph_info_t → Bool)
            → ((x : _) (r : _) → F.post filter x r → r ≡ test x.now)
            → self.new ≡ step.delete_glyphs_inplace test self.old }
        ensures within { length self.new.input ≤ length self.old.input }
        ensures others { step.KeepsOthers (record self.old { idx = 0 }) self.new }
        ensures keeps { (test : hb_glyph_info_t → Bool)
            → ((x : _) (r : _) → F.post filter x r → r ≡ test x.now)
            → KeepsClusters self.old self.new }
    {
        prove!(!self.sides.is_open());
        let order = self.cluster_order();
        let (kept, merges) = delete_in_place(self.sides.list_mut(), &mut self.pos, order, &filter);
        self.sides.truncate(kept);
        self.pos.truncate(kept);
        if merges {
            self.set_has_glyph_flags();
        }
    }
}
