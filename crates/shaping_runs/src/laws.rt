//! Laws of lists of calls beside the [`headline`](crate::headline).
//!
//! Each function here is empty. Its contract is a fact of the definitions that the contract of
//! [`replay`](crate::replay) names, and holds for every list of calls and every state.

ghost use Rattle.std.specs.Prelude.{◌≡◌, ◌≢◌, ◌≤◌, ℕ, true, false, List};
ghost use Rattle.glyph_lists.specs.GlyphFlags.{FlagsAgree};
ghost use Rattle.shaping_buffer.specs.State.{State};
ghost use Rattle.shaping_buffer.specs.ClusterStep.{both};
ghost use Rattle.shaping_buffer.specs.Step as step;
ghost use Rattle.shaping_runs.specs.declared.call.Answer.{Answer};
ghost use Rattle.shaping_runs.specs.declared.call.Call.{Call};
ghost use Rattle.shaping_runs.specs.Exceptions.{NoGlyphIsBrought, NoGlyphIsAdded};
ghost use Rattle.shaping_runs.specs.Replay.{after, answers_of, turn, StopsAt};
ghost use Rattle.shaping_runs.specs.Room.{StaysWithin};
ghost use Rattle.shaping_runs.specs.ThreeLevels.{old_turn, old_after, old_answers_of, is_new, AreOld};
ghost use Rattle.shaping_runs.specs.Separation.{IsNear, Follows, IsInPlace, StaysInPlace};

/// Where each glyph that is unsafe to break is unsafe to concatenate too, that stays so along
/// every list of calls that puts out no glyph of the caller's.
pub fn flags_still_agree()
    ensures { (calls : List Call) (s : State) → NoGlyphIsBrought calls s
        → FlagsAgree (both s) → FlagsAgree (both (after calls s)) }
{}

/// While an output is open, and a call leaves it open, the output is separate exactly where it was before, or has then
/// more glyphs than were read. What was put out in place has no more of them before the call, as in every buffer.
pub fn separate_output_follows_its_rule()
    ensures { (call : Call) (s : State) → IsNear s → s.have_output ≡ true
        → (turn call s).state.have_output ≡ true → Follows s (turn call s).state }
{}

/// What was put out in place stays in place along every list of calls in which none puts out more glyphs than it reads.
/// Those that may are `output_glyph`, `output_info`, `copy_glyph`, and `replace_glyphs` by more glyphs than it takes.
pub fn what_is_put_out_stays_in_place()
    ensures { (calls : List Call) (s : State) → NoGlyphIsAdded calls s
        → IsInPlace s → StaysInPlace calls s }
{}

/// Where no output is separate before a list of calls, between them and after them, `replay` stops at none of them:
/// they take no memory, so they never run out of it.
pub fn lists_in_place_never_stop()
    ensures { (calls : List Call) (s : State) → StaysInPlace calls s
        → (at : ℕ) (before : List Answer) (new : State) (answers : List Answer)
        → StopsAt at calls s before new answers → ⊥ }
{}

/// After a done `ensure(n)`, no call whose sides stay within n glyphs runs out of memory, separate outputs among them:
/// where both sides have at most n glyphs before a list of calls, between them and after them, `replay` stops at none
/// of them. It is so wherever there is room for n glyphs, and no call takes room away.
pub fn lists_within_room_never_stop()
    ensures ensured { (n : ℕ) (calls : List Call) (s : State) → (step.ensure n s).done ≡ true
        → StaysWithin n calls (step.ensure n s).state
        → (at : ℕ) (before : List Answer) (new : State) (answers : List Answer)
        → StopsAt at calls (step.ensure n s).state before new answers → ⊥ }
    ensures room { (n : ℕ) (calls : List Call) (s : State) → n ≤ s.room → StaysWithin n calls s
        → (at : ℕ) (before : List Answer) (new : State) (answers : List Answer)
        → StopsAt at calls s before new answers → ⊥ }
    ensures kept { (calls : List Call) (s : State) → (after calls s).room ≡ s.room }
{}

/// Runs from before level 3 came are kept. In a state whose level is not 3, each call except
/// `merge_grapheme_clusters` gives the answer and the state that it gave when clusters could stand in any order at
/// level 2 alone, and so does every list of such calls. No call changes the level.
pub fn old_runs_are_kept()
    ensures turn { (call : Call) (s : State) → is_new call ≡ false → s.cluster_level ≢ 3
        → turn call s ≡ old_turn call s }
    ensures level { (call : Call) (s : State)
        → (turn call s).state.cluster_level ≡ s.cluster_level }
    ensures calls { (calls : List Call) (s : State) → AreOld calls → s.cluster_level ≢ 3
        → (after calls s ≡ old_after calls s) × (answers_of calls s ≡ old_answers_of calls s) }
{}
