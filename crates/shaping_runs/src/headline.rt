//! The headline: what is promised of every list of calls, said of the calls.
//!
//! For every list of calls the two sides, the cursor, the refusals and the scratch flags are those of two plain lists
//! on which each call takes its step in turn: that is the contract of [`replay`](crate::replay) (`state` and
//! `answers`), which names `after` and `answers_of`, the folds of `turn`. Each function here is empty. Its contract
//! is a fact of `turn` and `after`, and holds for every call, every list of calls and every state. `both` is what was
//! put out, and then what is left to read.

ghost use Rattle.std.specs.Prelude.{◌≡◌, ◌↔◌, ◌<◌, ◌≤◌, ℕ, true, false, List, length, slice_index, slice_index_or};
ghost use Rattle.glyph_lists.specs.Parts.{on_part};
ghost use Rattle.glyph_lists.specs.Clusters.{clusters, least, occurs, zero_glyph, cluster_merge, IsMonotone, IsCoarse};
ghost use Rattle.glyph_lists.specs.Marks.{mark};
ghost use Rattle.glyph_lists.specs.declared.glyph_flags.TheConstants.{BREAK_BITS};
ghost use Rattle.shaping_buffer.specs.State.{State, len};
ghost use Rattle.shaping_buffer.specs.ClusterStep.{both, any_order};
ghost use Rattle.shaping_runs.specs.declared.call.Answer.{Answer};
ghost use Rattle.shaping_runs.specs.declared.call.Call.{Call};
ghost use Rattle.shaping_runs.specs.Exceptions.{brings_glyph, NoMergeStopsAtCursor, NoGlyphIsBrought};
ghost use Rattle.shaping_runs.specs.Replay.{after, may_be_made, turn, MayStop};
ghost use Rattle.glyph_laws.specs.Cores.{cores};
ghost use Rattle.shaping_runs.specs.Dropped.{IsShut, exchanged, dropped_by, brought_by, StayInOrder};
ghost use Rattle.shaping_runs.specs.Headline.{held, moves_or_syncs, awaits_clear, goes_on, HasMonotoneClusters};
ghost use Rattle.shaping_runs.specs.Headline.{ReachesBothSides, is_merge, is_break, from_place, to_place, range_of};
ghost use Rattle.shaping_runs.specs.Headline.{ShareCluster, AreJoined};
ghost use Rattle.shaping_runs.specs.Separation.{IsInPlace};

/// A call within its condition is refused for length exactly when the side it would fill would exceed `max_len`, unless
/// it waits for `clear`, and a refusal changes nothing except `successful`. Then `move_to` and `sync` with an output
/// open are refused along every list of calls, and change nothing.
pub fn length_refuses()
    ensures exactly { (call : Call) (s : State) → may_be_made call s ≡ true
        → awaits_clear call s ≡ false
        → ((turn call s).answer ≡ Answer.Refused) ↔ (s.max_len < held call s) }
    ensures changes { (call : Call) (s : State) → (turn call s).answer ≡ Answer.Refused
        → (turn call s).state ≡ record s { successful = false } }
    ensures for_good { (calls : List Call) (call : Call) (s : State) → s.successful ≡ false
        → moves_or_syncs call ≡ true → (after calls s).have_output ≡ true
        → may_be_made call (after calls s) ≡ true
        → turn call (after calls s) ≡ record { answer = Answer.Refused; state = after calls s } }
{}

/// Where the output is in place, or none is open, `next_glyph`, `next_glyphs`, `skip_glyph`, `replace_glyph` and
/// `delete_glyph` are done wherever their conditions hold: they are never refused, and never run out of memory. The
/// list is not longer than `max_len`, as in every buffer.
pub fn calls_in_place_are_done()
    ensures done { (call : Call) (s : State) → goes_on call ≡ true → may_be_made call s ≡ true
        → IsInPlace s → len s ≤ s.max_len → (turn call s).answer ≡ Answer.Done }
    ensures no_memory { (call : Call) (s : State) → goes_on call ≡ true → IsInPlace s
        → MayStop call s → ⊥ }
{}

/// At the monotone levels, on monotone clusters, with an output open or the cursor at the start, `merge_clusters`,
/// `merge_out_clusters` and, except at level 1, `merge_grapheme_clusters` give the cluster merge of both sides, which
/// is the least coarsening: two glyphs share a cluster afterwards exactly if they did before or both their clusters
/// occur in the range. A glyph that keeps its cluster stays as it is.
pub fn merges_are_least_coarsenings()
    ensures merge { (call : Call) (s : State) → is_merge call s ≡ true → may_be_made call s ≡ true
        → HasMonotoneClusters s → ReachesBothSides s
        → both (turn call s).state ≡ cluster_merge (both s) (range_of call s) }
    ensures shares { (call : Call) (s : State) → is_merge call s ≡ true → may_be_made call s ≡ true
        → HasMonotoneClusters s → ReachesBothSides s
        → (i j : ℕ) → i < length (both s) → j < length (both s)
        → ShareCluster (both (turn call s).state) i j ↔ AreJoined call s i j }
    ensures keeps { (call : Call) (s : State) → is_merge call s ≡ true → may_be_made call s ≡ true
        → HasMonotoneClusters s → ReachesBothSides s → (i : ℕ) → i < length (both s)
        → slice_index (clusters (both (turn call s).state)) i ≡ slice_index (clusters (both s)) i
        → slice_index_or (both (turn call s).state) i zero_glyph
        ≡ slice_index_or (both s) i zero_glyph }
{}

/// At the monotone levels, on monotone clusters, `unsafe_to_break`, its `_from_outbuffer` form and at level 1
/// `merge_grapheme_clusters` mark exactly the glyphs of the range that are not in its least cluster, also across the
/// cursor.
pub fn breaks_are_marks()
    ensures { (call : Call) (s : State) → is_break call s ≡ true → may_be_made call s ≡ true
        → HasMonotoneClusters s
        → both (turn call s).state
        ≡ on_part (mark BREAK_BITS) (both s) (from_place call s) (to_place call s) }
{}

/// Monotone clusters stay monotone after every call but `output_info`, and so along every list of such calls.
pub fn order_stays()
    ensures call { (call : Call) (s : State) → brings_glyph call s ≡ false
        → IsMonotone (both s) → IsMonotone (both (turn call s).state) }
    ensures calls { (calls : List Call) (s : State) → NoGlyphIsBrought calls s
        → IsMonotone (both s) → IsMonotone (both (after calls s)) }
{}

/// At the monotone levels the least cluster is still there after `delete_glyph`, and after `replace_glyphs` with a
/// glyph put in, while a glyph remains, in any order of clusters.
pub fn least_cluster_stays()
    ensures delete_glyph { (s : State) → any_order s ≡ false → may_be_made Call.DeleteGlyph s ≡ true
        → 0 < length (both (turn Call.DeleteGlyph s).state)
        → least (clusters (both (turn Call.DeleteGlyph s).state)) ≡ least (clusters (both s)) }
    ensures replace_glyphs { (num_in num_out : ℕ) (s : State) → any_order s ≡ false → 0 < num_out
        → (ids : _) → may_be_made (Call.ReplaceGlyphs num_in num_out ids) s ≡ true
        → least (clusters (both (turn (Call.ReplaceGlyphs num_in num_out ids) s).state))
        ≡ least (clusters (both s)) }
{}

/// No call but `output_info` brings in a cluster number that was not there, and so no list of such calls does.
pub fn no_cluster_is_new()
    ensures call { (call : Call) (s : State) → brings_glyph call s ≡ false → (c : ℕ)
        → occurs c (clusters (both (turn call s).state)) ≡ true
        → occurs c (clusters (both s)) ≡ true }
    ensures calls { (calls : List Call) (s : State) → NoGlyphIsBrought calls s → (c : ℕ)
        → occurs c (clusters (both (after calls s))) ≡ true → occurs c (clusters (both s)) ≡ true }
{}

/// Clusters only merge: coarse lists stay coarse along every list of calls, except `output_info`, and a merge that is
/// made while no output is open and the cursor is past the start.
pub fn clusters_only_merge()
    ensures { (calls : List Call) (s : State) → NoGlyphIsBrought calls s
        → NoMergeStopsAtCursor calls s
        → IsCoarse (both s) → IsCoarse (both (after calls s)) }
{}

/// A glyph disappears only when a call drops it: `skip_glyph`, `delete_glyph` or a replacement. Every call that is done
/// leaves all others, clusters and masks aside, as they are and in their order, and where the out side ends those that it
/// brings take the place of those that it drops. So along every list of calls no more glyphs are gone than the calls
/// drop, and no more are new than they bring. With no output open nothing stands on the out side, as in every buffer.
pub fn glyphs_go_only_when_dropped()
    ensures call { (call : Call) (s : State) → IsShut s
        → cores (both (turn call s).state) ≡ exchanged call s (cores (both s)) }
    ensures calls { (calls : List Call) (s : State) → IsShut s
        → StayInOrder (cores (both s)) (cores (both (after calls s)))
        (dropped_by calls s) (brought_by calls s) }
{}
