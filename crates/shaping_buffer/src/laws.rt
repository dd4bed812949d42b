//! Laws of the definitions that the contracts of a buffer's calls name.
//!
//! Each function here is empty. Its contract is a fact of definitions, and holds for every state.

ghost use Rattle.std.specs.Prelude.{◌≡◌, ◌≤◌, ◌+◌, ◌-◌, ◌++◌, ℕ, pos, Bool, true, false, List, [], length};
ghost use Rattle.std.specs.Prelude.{slice_index_or};
ghost use Rattle.glyph_lists.specs.Replacement.{replacement};
ghost use Rattle.shaping_buffer.specs.declared.buffer.TheConstants.hb_buffer_t.{MAX_LEN_DEFAULT, MAX_LEN_FACTOR};
ghost use Rattle.shaping_buffer.specs.declared.buffer.TheConstants.hb_buffer_t.{MAX_LEN_MIN, MAX_OPS_DEFAULT};
ghost use Rattle.shaping_buffer.specs.declared.buffer.TheConstants.hb_buffer_t.{MAX_OPS_FACTOR, MAX_OPS_MIN};
ghost use Rattle.shaping_buffer.specs.declared.cluster_level.TheConstants.{HB_BUFFER_CLUSTER_LEVEL_DEFAULT};
ghost use Rattle.shaping_buffer.specs.declared.cluster_level.TheConstants.{HB_BUFFER_CLUSTER_LEVEL_GRAPHEMES};
ghost use Rattle.shaping_buffer.specs.declared.cluster_level.TheConstants.{HB_BUFFER_CLUSTER_LEVEL_CHARACTERS};
ghost use Rattle.shaping_buffer.specs.declared.cluster_level.TheConstants.{HB_BUFFER_CLUSTER_LEVEL_MONOTONE_GRAPHEMES};
ghost use Rattle.shaping_buffer.specs.declared.cluster_level.TheConstants.{HB_BUFFER_CLUSTER_LEVEL_MONOTONE_CHARACTERS};
ghost use Rattle.shaping_buffer.specs.ClusterStep.{both, any_order};
ghost use Rattle.rb_glyph.specs.declared.info.hb_glyph_info_t.{hb_glyph_info_t};
ghost use Rattle.shaping_buffer.specs.State.{State, place_of};
ghost use Rattle.shaping_buffer.specs.Lending.{with_input, with_out, with_cur, with_prev};
ghost use Rattle.shaping_buffer.specs.KeepsClusters.{KeepsClusters, KeepsClusterOrder, TurnsClusters};
ghost use Rattle.glyph_lists.specs.Clusters.{clusters};
ghost use Rattle.shaping_buffer.specs.Step as step;
ghost use Rattle.shaping_buffer.specs.GroupStep.{reverse, delete_glyphs_inplace, walk_by_calls};

/// Where `sync` is done, the list is what was put out, and then what was left to read.
pub fn done_sync_gives_the_list()
    ensures list { (s : State) → (step.sync s).done ≡ true
        → (step.sync s).state.input ≡ s.out ++ s.input }
    ensures closed { (s : State) → (step.sync s).done ≡ true
        → ((step.sync s).state.out ≡ []) × ((step.sync s).state.have_output ≡ false)
        × ((step.sync s).state.idx ≡ 0) }
{}

/// With an output open `move_to` keeps both sides as one list, and one that is done splits it at the place.
pub fn move_keeps_the_list()
    ensures list { (i : ℕ) (s : State) → s.have_output ≡ true
        → both (step.move_to i s).state ≡ both s }
    ensures place { (i : ℕ) (s : State) → s.have_output ≡ true → i ≤ step.last_place s
        → (step.move_to i s).done ≡ true → length (step.move_to i s).state.out ≡ i }
{}

/// What a `replace_glyphs` that is done makes of both sides as one list is a replacement of that list.
pub fn done_replacement_is_of_the_list()
    ensures { (n : ℕ) (ids : List ℕ) (s : State) → s.have_output ≡ true
        → (step.replace_glyphs n ids s).done ≡ true
        → both (step.replace_glyphs n ids s).state
        ≡ replacement (any_order s) (both s) (length s.out) (length s.out + n) ids }
{}

/// The numbers of the limits.
pub fn limits_have_their_numbers()
    ensures len { (MAX_LEN_FACTOR ≡ 64) × (MAX_LEN_MIN ≡ 16384) × (MAX_LEN_DEFAULT ≡ 1073741823) }
    ensures ops { (MAX_OPS_FACTOR ≡ pos 1024) × (MAX_OPS_MIN ≡ pos 16384)
        × (MAX_OPS_DEFAULT ≡ pos 536870911) }
{}

/// The numbers of the cluster levels.
pub fn levels_have_their_numbers()
    ensures graphemes { (HB_BUFFER_CLUSTER_LEVEL_MONOTONE_GRAPHEMES ≡ 0)
        × (HB_BUFFER_CLUSTER_LEVEL_GRAPHEMES ≡ 3) }
    ensures characters { (HB_BUFFER_CLUSTER_LEVEL_MONOTONE_CHARACTERS ≡ 1)
        × (HB_BUFFER_CLUSTER_LEVEL_CHARACTERS ≡ 2) }
    ensures default { HB_BUFFER_CLUSTER_LEVEL_DEFAULT ≡ 0 }
{}

/// A list that is reversed twice is as it was, and so are its positions, where there are any.
pub fn two_reversals_are_none()
    ensures { (s : State) → reverse (reverse s) ≡ s }
{}

/// `delete_glyphs_inplace` leaves the glyphs and the scratch flags that `clear_output`, a walk by `delete_glyph` and
/// `next_glyph`, and `sync` leave, where no refusal stands: none of these calls is refused then.
pub fn deletion_in_place_is_deletion_by_calls()
    ensures { (test : hb_glyph_info_t → Bool) (s : State) → s.successful ≡ true
        → length s.input ≤ s.max_len
        → let closed = step.sync (walk_by_calls test (length s.input) (step.clear_output s)) in
        (closed.done ≡ true) × (closed.state.input ≡ (delete_glyphs_inplace test s).input)
        × (closed.state.scratch_flags ≡ (delete_glyphs_inplace test s).scratch_flags) }
{}

/// Each buffer keeps its own clusters, and what keeps them in two steps keeps them. A buffer whose clusters are the same
/// keeps them too.
pub fn clusters_that_are_kept_stay_kept()
    ensures none { (s : State) → KeepsClusters s s }
    ensures steps { (s t u : State) → KeepsClusters s t → KeepsClusters t u → KeepsClusters s u }
    ensures order_none { (s : State) → KeepsClusterOrder s s }
    ensures order_steps { (s t u : State) → KeepsClusterOrder s t → KeepsClusterOrder t u
        → KeepsClusterOrder s u }
    ensures alike { (s t : State) → t.cluster_level ≡ s.cluster_level
        → clusters t.out ≡ clusters s.out → clusters t.input ≡ clusters s.input → KeepsClusters s t }
{}

/// A list that is turned, before or behind steps that keep its clusters, is turned. One that is turned twice keeps its clusters.
pub fn clusters_that_are_turned_twice_are_kept()
    ensures behind { (s t u : State) → KeepsClusters s t → TurnsClusters t u → TurnsClusters s u }
    ensures before { (s t u : State) → TurnsClusters s t → KeepsClusters t u → TurnsClusters s u }
    ensures twice { (s t u : State) → TurnsClusters s t → TurnsClusters t u → KeepsClusters s u }
{}

/// What is written through a reference of the buffer, and leaves the clusters as they are, keeps the clusters.
pub fn writes_beside_clusters_keep_them()
    ensures input { (s : State) (gs : List hb_glyph_info_t) → clusters gs ≡ clusters s.input
        → KeepsClusters s (with_input s gs) }
    ensures out { (s : State) (gs : List hb_glyph_info_t) → clusters gs ≡ clusters s.out
        → KeepsClusters s (with_out s gs) }
    ensures cur { (s : State) (k : ℕ) (g d : hb_glyph_info_t)
        → g.cluster ≡ (slice_index_or s.input (place_of s k) d).cluster
        → KeepsClusters s (with_cur s k g) }
    ensures prev { (s : State) (g d : hb_glyph_info_t)
        → g.cluster ≡ (slice_index_or s.out (length s.out - 1) d).cluster
        → KeepsClusters s (with_prev s g) }
{}
