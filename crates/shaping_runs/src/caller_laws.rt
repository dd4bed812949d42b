//! What each call does to the lengths of both sides, for the loops of callers.
//!
//! Each function here is empty. Its contract is a fact of the definitions that the contracts of the buffer name, and
//! holds for every state. As rewrite rules they are `lengths` of `shaping_runs::proofs::CallerLaws`, which a caller whose
//! loop counts glyphs names in its attribute.

ghost use Rattle.std.specs.Prelude.{◌≡◌, ◌<◌, ◌≤◌, ℕ, true, List, length};
ghost use Rattle.rb_glyph.specs.declared.info.hb_glyph_info_t.{hb_glyph_info_t};
ghost use Rattle.shaping_buffer.specs.ClusterStep as cluster_step;
ghost use Rattle.shaping_buffer.specs.State.{State};
ghost use Rattle.shaping_buffer.specs.Step as step;
ghost use Rattle.shaping_runs.specs.Moves.{Moves};

/// With an output open, a done cursor call puts out so many glyphs and reads so many.
pub fn cursor_calls_move_glyphs()
    ensures next_glyph { (s : State) → s.have_output ≡ true → 1 ≤ length s.input
        → (step.next_glyph s).done ≡ true → Moves 1 1 s (step.next_glyph s).state }
    ensures next_glyphs { (n : ℕ) (s : State) → s.have_output ≡ true → n ≤ length s.input
        → (step.next_glyphs n s).done ≡ true → Moves n n s (step.next_glyphs n s).state }
    ensures skip_glyph { (s : State) → s.have_output ≡ true → Moves 0 1 s (step.skip_glyph s) }
    ensures replace_glyph { (id : ℕ) (s : State) → s.have_output ≡ true → 1 ≤ length s.input
        → (step.replace_glyph id s).done ≡ true → Moves 1 1 s (step.replace_glyph id s).state }
    ensures replace_glyphs { (n : ℕ) (ids : List ℕ) (s : State) → s.have_output ≡ true
        → (step.replace_glyphs n ids s).done ≡ true
        → Moves (length ids) n s (step.replace_glyphs n ids s).state }
    ensures output_glyph { (id : ℕ) (s : State) → 1 ≤ length s.input
        → (step.output_glyph id s).done ≡ true → Moves 1 0 s (step.output_glyph id s).state }
    ensures output_info { (g : hb_glyph_info_t) (s : State) → (step.output_info g s).done ≡ true
        → Moves 1 0 s (step.output_info g s).state }
    ensures copy_glyph { (s : State) → 1 ≤ length s.input → (step.copy_glyph s).done ≡ true
        → Moves 1 0 s (step.copy_glyph s).state }
    ensures delete_glyph { (s : State) → Moves 0 1 s (cluster_step.delete_glyph s) }
{}

/// Merges leave both sides as long as they were.
pub fn merges_keep_lengths()
    ensures merge_clusters { (start end : ℕ) (s : State)
        → Moves 0 0 s (cluster_step.merge_clusters start end s) }
    ensures merge_out_clusters { (start end : ℕ) (s : State)
        → Moves 0 0 s (cluster_step.merge_out_clusters start end s) }
{}
