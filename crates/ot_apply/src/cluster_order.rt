//! The order of clusters, where the glyphs of syllables are put in another order in between.

ghost use Rattle.std.specs.Prelude.{◌≡◌, true, false};
ghost use Rattle.glyph_lists.specs.Clusters.{clusters, NeverFalls, NeverRises};
ghost use Rattle.shaping_buffer.specs.ClusterStep.{any_order, both};
ghost use Rattle.script_syllables.specs.KeepsNumbers.{KeepsNumbers};
ghost use Rattle.ot_apply.specs.ClusterOrder.{least_from, put_in_order, raised, rising, Takes, IsCourseOf};

use glyph_lists::clusters::set_cluster;
use script_items::allows_any_order;
use shaping_buffer::{hb_buffer_t, hb_glyph_info_t};

/// How the clusters of a text run.
#[derive(Clone, Copy, PartialEq, Eq)]
pub(crate) enum ClusterCourse {
    /// They never fall.
    Rising,
    /// They never rise.
    Falling,
    /// They do both, or may do so.
    Neither,
}

impl ClusterCourse {
    /// How the clusters of a buffer run.
    pub(crate) fn of(buffer: &hb_buffer_t) -> ClusterCourse
        requires { buffer.now.have_output ≡ false }
        ensures { any_order buffer.now ≡ false → IsCourseOf result (clusters (both buffer.now)) }
    {
        prove!(buffer.out_len() == 0);
        if allows_any_order(buffer) {
            ClusterCourse::Neither
        } else {
            course_of(buffer.info())
        }
    }

    /// Puts clusters in order again that ran this way before.
    #[tactic(auto, using(crate::proofs::StageLemmas::numbers))]
    pub(crate) fn restore(self, buffer: &mut hb_buffer_t)
        requires { buffer.old.have_output ≡ false }
        ensures is { buffer.new ≡ put_in_order self buffer.old }
        ensures closed { buffer.new.have_output ≡ false }
        ensures runs { any_order buffer.old ≡ false → Takes self (clusters (both buffer.new)) }
        ensures numbers { KeepsNumbers buffer.old buffer.new }
    {
        match self {
            ClusterCourse::Rising => raise(buffer),
            ClusterCourse::Falling => {
                buffer.reverse();
                raise(buffer);
                buffer.reverse();
            }
            ClusterCourse::Neither => {}
        }
    }
}

/// How the clusters of glyphs run.
#[tactic(auto, using(crate::proofs::CourseLemmas::neither))]
fn course_of(infos: &[hb_glyph_info_t]) -> ClusterCourse
    ensures { IsCourseOf result (clusters infos.now) }
{
    if never_falls(infos) {
        ClusterCourse::Rising
    } else if never_rises(infos) {
        ClusterCourse::Falling
    } else {
        ClusterCourse::Neither
    }
}

/// Whether the clusters of glyphs never fall.
#[tactic(auto, using(crate::proofs::CourseLemmas::rising))]
fn never_falls(infos: &[hb_glyph_info_t]) -> bool
    ensures yes { result ≡ true → NeverFalls (clusters infos.now) }
    ensures no { result ≡ false → NeverFalls (clusters infos.now) → ⊥ }
{
    for place in 1..infos.len() {
        if infos[place].cluster < infos[place - 1].cluster {
            return false;
        }
    }
    true
}

/// Whether the clusters of glyphs never rise.
#[tactic(auto, using(crate::proofs::CourseLemmas::falling))]
fn never_rises(infos: &[hb_glyph_info_t]) -> bool
    ensures yes { result ≡ true → NeverRises (clusters infos.now) }
    ensures no { result ≡ false → NeverRises (clusters infos.now) → ⊥ }
{
    for place in 1..infos.len() {
        if infos[place - 1].cluster < infos[place].cluster {
            return false;
        }
    }
    true
}

/// Puts each glyph of a buffer into the least cluster from its place on.
fn raise(buffer: &mut hb_buffer_t)
    requires { buffer.old.have_output ≡ false }
    ensures is { buffer.new ≡ raised buffer.old }
    ensures closed { buffer.new.have_output ≡ false }
    ensures rises { NeverFalls (clusters (both buffer.new)) }
    ensures numbers { KeepsNumbers buffer.old buffer.new }
{
    prove!(buffer.out_len() == 0);
    raise_all(buffer.info_slice_mut());
}

/// Puts each glyph into the least cluster from its place on. One that changes its cluster has then the glyph flags of the glyph
/// behind it. Nothing changes where the clusters never fall.
fn raise_all(infos: &mut [hb_glyph_info_t])
    ensures is { infos.new ≡ rising infos.old }
    ensures clusters { clusters infos.new ≡ least_from (clusters infos.old) }
    ensures stays { NeverFalls (clusters infos.old) → infos.new ≡ infos.old }
{
    for place in (1..infos.len()).rev() {
        let behind = infos[place];
        let cluster = infos[place - 1].cluster.min(behind.cluster);
        set_cluster(&mut infos[place - 1], cluster, behind.mask);
    }
}
