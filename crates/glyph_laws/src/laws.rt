//! Laws of the definitions of merges, marks, deletion, and replacement.
//!
//! Each function here is empty. Its contract is a fact of definitions, those that the contracts of a
//! buffer's calls name among them, and holds for every list of glyphs.

ghost use Rattle.std.specs.Prelude.{◌≡◌, ◌⊎◌, ◌↔◌, ℕ, ◌+◌, ◌<◌, ◌≤◌, ◌++◌, Bool, true, false, List, [], ◌∷◌, length};
ghost use Rattle.std.specs.Prelude.{map, take, drop, slice_index, slice_index_or};
ghost use Rattle.rb_glyph.specs.declared.info.hb_glyph_info_t.{hb_glyph_info_t};
ghost use Rattle.glyph_lists.specs.Parts.{part, on_part, map_range};
ghost use Rattle.glyph_lists.specs.Scans.{two_part_scan};
ghost use Rattle.glyph_lists.specs.Clusters.{clusters, least, occurs, zero_glyph, cluster_merge, run_merge, IsMonotone};
ghost use Rattle.glyph_lists.specs.Clusters.{IsCoarse};
ghost use Rattle.glyph_lists.specs.Marks.{with_glyph_flags, mark, mark_others, mark_part, end_mark, ends_least};
ghost use Rattle.glyph_lists.specs.Deletion.{deletion, merge_or_mark};
ghost use Rattle.glyph_lists.specs.Masks.{reset_masks};
ghost use Rattle.glyph_lists.specs.GlyphFlags.{BreakImpliesConcat, FlagsAgree};
ghost use Rattle.glyph_lists.specs.Replacement.{replacement};
ghost use Rattle.glyph_laws.specs.Cores.{cores};

// ---- merges and scans on monotone clusters

/// On monotone clusters the run merge of a range, held back by no floor, is the cluster merge of its
/// glyphs.
pub fn merge_is_least_coarsening()
    ensures { (l : List hb_glyph_info_t) (p q : ℕ) → q ≤ length l → IsMonotone l
        → run_merge l p q 0 ≡ cluster_merge l (part l p q) }
{}

/// On monotone clusters the scan by the ends marks what the mark does, over one part and over two.
/// Either of the two may be empty.
pub fn end_scan_is_mark()
    ensures one { (bits : ℕ) (r : List hb_glyph_info_t) → IsMonotone r
        → end_mark bits r ≡ mark bits r }
    ensures two { (bits : ℕ) (r s : List hb_glyph_info_t) → IsMonotone (r ++ s)
        → mark_part bits (ends_least r s) r ++ mark_part bits (ends_least r s) s
        ≡ mark bits (r ++ s) }
{}

// ---- what a merge changes

/// After a cluster merge two glyphs share a cluster exactly if they did before, or both their
/// clusters occur among the glyphs that are merged.
pub fn merge_shares_clusters()
    ensures { (l r : List hb_glyph_info_t) (i j : ℕ) → i < length l → j < length l
        → (slice_index (clusters (cluster_merge l r)) i
        ≡ slice_index (clusters (cluster_merge l r)) j)
        ↔ ((slice_index (clusters l) i ≡ slice_index (clusters l) j)
        ⊎ ((occurs (slice_index (clusters l) i) (clusters r) ≡ true)
        × (occurs (slice_index (clusters l) j) (clusters r) ≡ true))) }
{}

/// Where a cluster merge leaves a glyph's cluster, it leaves the glyph. Elsewhere it changes its
/// cluster and its mask alone.
pub fn merge_changes_clusters_and_masks()
    ensures stays { (l r : List hb_glyph_info_t) (k : ℕ) → k < length l
        → slice_index (clusters (cluster_merge l r)) k ≡ slice_index (clusters l) k
        → slice_index_or (cluster_merge l r) k zero_glyph ≡ slice_index_or l k zero_glyph }
    ensures others { (l r : List hb_glyph_info_t) (k : ℕ) → k < length l
        → let new = slice_index_or (cluster_merge l r) k zero_glyph in
        let old = slice_index_or l k zero_glyph in
        (new.glyph_id ≡ old.glyph_id) × (new.var1 ≡ old.var1) × (new.var2 ≡ old.var2) }
{}

/// Where a run merge leaves a glyph's cluster, it leaves the glyph, in any order of clusters. Elsewhere it changes its
/// cluster and its mask alone.
pub fn run_merge_changes_clusters_and_masks()
    ensures stays { (l : List hb_glyph_info_t) (p q floor k : ℕ) → k < length l
        → slice_index (clusters (run_merge l p q floor)) k ≡ slice_index (clusters l) k
        → slice_index_or (run_merge l p q floor) k zero_glyph ≡ slice_index_or l k zero_glyph }
    ensures others { (l : List hb_glyph_info_t) (p q floor k : ℕ) → k < length l
        → let new = slice_index_or (run_merge l p q floor) k zero_glyph in
        let old = slice_index_or l k zero_glyph in
        (new.glyph_id ≡ old.glyph_id) × (new.var1 ≡ old.var1) × (new.var2 ≡ old.var2) }
{}

/// Marks and scans change masks alone, also those of a range in a list, and so they leave the
/// clusters.
pub fn marks_change_masks_alone()
    ensures each { (bits : ℕ) (r : List hb_glyph_info_t)
        → reset_masks 0 (map (with_glyph_flags bits) r) ≡ reset_masks 0 r }
    ensures mark { (bits : ℕ) (r : List hb_glyph_info_t)
        → reset_masks 0 (mark bits r) ≡ reset_masks 0 r }
    ensures scan { (bits : ℕ) (r : List hb_glyph_info_t)
        → reset_masks 0 (end_mark bits r) ≡ reset_masks 0 r }
    ensures part { (bits m : ℕ) (r : List hb_glyph_info_t)
        → reset_masks 0 (mark_part bits m r) ≡ reset_masks 0 r }
    ensures others { (bits m : ℕ) (r : List hb_glyph_info_t)
        → reset_masks 0 (mark_others bits m r) ≡ reset_masks 0 r }
    ensures range { (l new : List hb_glyph_info_t) (p q : ℕ) → p ≤ q
        → reset_masks 0 new ≡ reset_masks 0 (part l p q)
        → reset_masks 0 (take p l ++ new ++ drop q l) ≡ reset_masks 0 l }
    ensures clusters { (l m : List hb_glyph_info_t) → reset_masks 0 l ≡ reset_masks 0 m
        → clusters l ≡ clusters m }
{}

/// Merges, marks and scans of a range, and deletion on each side, change nothing of a glyph but its cluster and its mask,
/// and bring no glyph to another place. The current glyph of a deletion alone is gone.
pub fn cores_stay()
    ensures merge { (any_order : Bool) (l : List hb_glyph_info_t) (p q floor : ℕ) → p ≤ q
        → cores (merge_or_mark any_order l p q floor) ≡ cores l }
    ensures scan { (any_order : Bool) (bits k : ℕ) (l : List hb_glyph_info_t) (p q : ℕ) → p ≤ q
        → cores (on_part (two_part_scan any_order bits k) l p q) ≡ cores l }
    ensures flags { (bits : ℕ) (l : List hb_glyph_info_t) (p q : ℕ) → p ≤ q
        → cores (map_range (with_glyph_flags bits) l p q) ≡ cores l }
    ensures deletion { (any_order : Bool) (out : List hb_glyph_info_t) (x : hb_glyph_info_t)
        (rest : List hb_glyph_info_t) → (cores (deletion any_order out x rest).out ≡ cores out)
        × (cores (deletion any_order out x rest).rest ≡ cores rest) }
{}

/// Merges keep the length. So does a deletion on each side, except for the current glyph.
pub fn lengths_stay()
    ensures cluster_merge { (l r : List hb_glyph_info_t) → length (cluster_merge l r) ≡ length l }
    ensures run_merge { (l : List hb_glyph_info_t) (p q floor : ℕ)
        → length (run_merge l p q floor) ≡ length l }
    ensures merge { (any_order : Bool) (l : List hb_glyph_info_t) (p q floor : ℕ)
        → length (merge_or_mark any_order l p q floor) ≡ length l }
    ensures deletion_out { (any_order : Bool) (out : List hb_glyph_info_t) (x : hb_glyph_info_t)
        (rest : List hb_glyph_info_t) → length (deletion any_order out x rest).out ≡ length out }
    ensures deletion_rest { (any_order : Bool) (out : List hb_glyph_info_t) (x : hb_glyph_info_t)
        (rest : List hb_glyph_info_t) → length (deletion any_order out x rest).rest ≡ length rest }
{}

// ---- order

/// Monotone clusters stay monotone, with any floor of a merge, and whether merges change clusters or mark.
pub fn order_stays()
    ensures run_merge { (l : List hb_glyph_info_t) (p q floor : ℕ) → q ≤ length l
        → IsMonotone l → IsMonotone (run_merge l p q floor) }
    ensures merge { (any_order : Bool) (l : List hb_glyph_info_t) (p q floor : ℕ) → q ≤ length l
        → IsMonotone l → IsMonotone (merge_or_mark any_order l p q floor) }
    ensures deletion { (any_order : Bool) (out : List hb_glyph_info_t) (x : hb_glyph_info_t)
        (rest : List hb_glyph_info_t) → IsMonotone (out ++ x ∷ rest)
        → IsMonotone ((deletion any_order out x rest).out ++ (deletion any_order out x rest).rest) }
    ensures replacement { (any_order : Bool) (l : List hb_glyph_info_t) (p q : ℕ) (ids : List ℕ)
        → p ≤ q → q ≤ length l → p < length l → IsMonotone l
        → IsMonotone (replacement any_order l p q ids) }
    ensures range { (l : List hb_glyph_info_t) (p q : ℕ) → q ≤ length l → IsMonotone l
        → IsMonotone (part l p q) }
    ensures masks { (l m : List hb_glyph_info_t) → reset_masks 0 l ≡ reset_masks 0 m
        → IsMonotone l → IsMonotone m }
{}

/// A list with monotone clusters that keeps each of them in its second word too is coarse.
pub fn numbered_list_is_coarse()
    ensures { (l : List hb_glyph_info_t) → IsMonotone l
        → ((i : ℕ) → i < length l
        → (slice_index_or l i zero_glyph).var2 ≡ (slice_index_or l i zero_glyph).cluster)
        → IsCoarse l }
{}

/// Coarse lists stay coarse, where merges are held back by no floor: clusters only merge.
pub fn coarse_lists_stay()
    ensures run_merge { (l : List hb_glyph_info_t) (p q : ℕ) → q ≤ length l
        → IsCoarse l → IsCoarse (run_merge l p q 0) }
    ensures merge { (any_order : Bool) (l : List hb_glyph_info_t) (p q : ℕ) → q ≤ length l
        → IsCoarse l → IsCoarse (merge_or_mark any_order l p q 0) }
    ensures deletion { (any_order : Bool) (out : List hb_glyph_info_t) (x : hb_glyph_info_t)
        (rest : List hb_glyph_info_t) → IsCoarse (out ++ x ∷ rest)
        → IsCoarse ((deletion any_order out x rest).out ++ (deletion any_order out x rest).rest) }
    ensures replacement { (any_order : Bool) (l : List hb_glyph_info_t) (p q : ℕ) (ids : List ℕ)
        → p ≤ q → q ≤ length l → p < length l → IsCoarse l
        → IsCoarse (replacement any_order l p q ids) }
    ensures range { (l : List hb_glyph_info_t) (p q : ℕ) → q ≤ length l → IsCoarse l
        → IsCoarse (part l p q) }
    ensures masks { (l m : List hb_glyph_info_t) → reset_masks 0 l ≡ reset_masks 0 m
        → IsCoarse l → IsCoarse m }
{}

// ---- cluster numbers

/// No cluster number is brought in that was not there, in any order of clusters.
pub fn no_cluster_is_new()
    ensures run_merge { (l : List hb_glyph_info_t) (p q floor c : ℕ) → q ≤ length l
        → occurs c (clusters (run_merge l p q floor)) ≡ true → occurs c (clusters l) ≡ true }
    ensures merge { (any_order : Bool) (l : List hb_glyph_info_t) (p q floor c : ℕ) → q ≤ length l
        → occurs c (clusters (merge_or_mark any_order l p q floor)) ≡ true
        → occurs c (clusters l) ≡ true }
    ensures deletion { (any_order : Bool) (out : List hb_glyph_info_t) (x : hb_glyph_info_t)
        (rest : List hb_glyph_info_t) (c : ℕ)
        → occurs c (clusters ((deletion any_order out x rest).out
        ++ (deletion any_order out x rest).rest)) ≡ true
        → occurs c (clusters (out ++ x ∷ rest)) ≡ true }
    ensures replacement { (any_order : Bool) (l : List hb_glyph_info_t) (p q : ℕ) (ids : List ℕ)
        (c : ℕ)
        → p ≤ q → q ≤ length l → p < length l
        → occurs c (clusters (replacement any_order l p q ids)) ≡ true
        → occurs c (clusters l) ≡ true }
{}

/// Where merges change clusters, the least cluster stays, in any order of clusters: after a deletion while a
/// glyph remains, and after a replacement by one glyph or more.
pub fn least_cluster_stays()
    ensures run_merge { (l : List hb_glyph_info_t) (p q floor : ℕ) → q ≤ length l
        → least (clusters (run_merge l p q floor)) ≡ least (clusters l) }
    ensures deletion { (out : List hb_glyph_info_t) (x : hb_glyph_info_t)
        (rest : List hb_glyph_info_t)
        → 0 < length (out ++ rest)
        → least (clusters ((deletion false out x rest).out ++ (deletion false out x rest).rest))
        ≡ least (clusters (out ++ x ∷ rest)) }
    ensures replacement { (l : List hb_glyph_info_t) (p q : ℕ) (ids : List ℕ)
        → p ≤ q → q ≤ length l → p < length l → 0 < length ids
        → least (clusters (replacement false l p q ids)) ≡ least (clusters l) }
{}

// ---- glyph flags

/// The bits that scans and the calls on concatenation add say unsafe to concatenate where they say
/// unsafe to break.
pub fn added_bits_agree()
    ensures concat { BreakImpliesConcat 2 }
    ensures break_and_concat { BreakImpliesConcat 3 }
    ensures tatweel { BreakImpliesConcat 4 }
{}

/// Where each glyph that is unsafe to break is unsafe to concatenate too, that stays so.
pub fn flags_still_agree()
    ensures cluster_merge { (l r : List hb_glyph_info_t) → FlagsAgree l
        → FlagsAgree (cluster_merge l r) }
    ensures run_merge { (l : List hb_glyph_info_t) (p q floor : ℕ)
        → FlagsAgree l → FlagsAgree (run_merge l p q floor) }
    ensures merge { (any_order : Bool) (l : List hb_glyph_info_t) (p q floor : ℕ)
        → FlagsAgree l → FlagsAgree (merge_or_mark any_order l p q floor) }
    ensures deletion { (any_order : Bool) (out : List hb_glyph_info_t) (x : hb_glyph_info_t)
        (rest : List hb_glyph_info_t) → FlagsAgree (out ++ x ∷ rest)
        → FlagsAgree ((deletion any_order out x rest).out ++ (deletion any_order out x rest).rest) }
    ensures replacement { (any_order : Bool) (l : List hb_glyph_info_t) (p q : ℕ) (ids : List ℕ)
        → p ≤ q → q ≤ length l → p < length l → FlagsAgree l
        → FlagsAgree (replacement any_order l p q ids) }
    ensures each { (bits : ℕ) → BreakImpliesConcat bits → (r : List hb_glyph_info_t)
        → FlagsAgree r → FlagsAgree (map (with_glyph_flags bits) r) }
    ensures mark { (bits : ℕ) → BreakImpliesConcat bits → (r : List hb_glyph_info_t)
        → FlagsAgree r → FlagsAgree (mark bits r) }
    ensures scan { (bits : ℕ) → BreakImpliesConcat bits → (r : List hb_glyph_info_t)
        → FlagsAgree r → FlagsAgree (end_mark bits r) }
    ensures part { (bits : ℕ) → BreakImpliesConcat bits → (m : ℕ) (r : List hb_glyph_info_t)
        → FlagsAgree r → FlagsAgree (mark_part bits m r) }
    ensures others { (bits : ℕ) → BreakImpliesConcat bits → (m : ℕ) (r : List hb_glyph_info_t)
        → FlagsAgree r → FlagsAgree (mark_others bits m r) }
    ensures range { (l new : List hb_glyph_info_t) (p q : ℕ) → FlagsAgree l → FlagsAgree new
        → FlagsAgree (take p l ++ new ++ drop q l) }
{}
