//! Theorems about the definitions. Each is the contract of a function that does nothing.

ghost use Rattle.std.specs.Prelude.{◌≡◌, ◌≤◌, ◌<◌, ◌+◌, ℕ, true, false, Bool, List, [], ◌∷◌, ◌++◌, length, replicate, Some, slice_get};
ghost use Rattle.xet_cut.specs.declared.limits.LimitSettings.{LimitSettings};
ghost use Rattle.xet_fragmentation.specs.Fragmentation.{Fragmentation, asked, is_allowed, with_longer_range, with_range};
ghost use Rattle.xet_choices.specs.Calls.{Call};
ghost use Rattle.xet_choices.specs.Choices.{AllTrue, GrownSetting, IsFound, Setting, TrueAt, allowed_flag, guard_at, guard_of, is_reused, with_calls, with_choices, with_leaves};
ghost use Rattle.xet_choices.specs.Ranges.{Grown, count_at, seg_of, starts, total};

use crate::Choice;

/// What is true of a choice stays true as the file goes on.
pub fn choices_stay_true()
    ensures grown { (s t : Setting) → total s.counts ≡ length s.choices → GrownSetting s t
        → (j : ℕ) (h : List ℕ) (c : Choice) → j < length s.choices → j < length s.leaves → TrueAt s j h c → TrueAt t j h c }
    ensures calls { (s : Setting) (calls : List Call) → AllTrue s → AllTrue (with_calls s calls) }
    ensures leaves { (s : Setting) (leaves : List (List ℕ × ℕ)) → length s.choices ≤ length s.leaves → AllTrue s → AllTrue (with_leaves s leaves) }
{}

/// Choices that join are true with the earlier ones if they are true by themselves.
pub fn new_choices_join()
    ensures grown { (s t : Setting) → total s.counts ≡ length s.choices → GrownSetting s t → length s.choices ≤ length s.leaves → AllTrue s
        → ((j : ℕ) (leaf : List ℕ × ℕ) (c : Choice) → length s.choices ≤ j → slice_get t.choices j ≡ Some c → slice_get t.leaves j ≡ Some leaf → TrueAt t j leaf.0 c)
        → AllTrue t }
    ensures choices { (s : Setting) (counts : List ℕ) → total s.counts ≡ length s.choices → Grown s.counts counts → (choices : List Choice) → AllTrue s
        → ((i : ℕ) (leaf : List ℕ × ℕ) (c : Choice) → slice_get choices i ≡ Some c → slice_get s.leaves (length s.choices + i) ≡ Some leaf
        → TrueAt (with_choices s counts choices) (length s.choices + i) leaf.0 c)
        → AllTrue (with_choices s counts choices) }
    ensures stored { (s : Setting) (counts : List ℕ) → total s.counts ≡ length s.choices → Grown s.counts counts → (c : Choice) → is_reused c ≡ false → AllTrue s
        → ((leaf : List ℕ × ℕ) → slice_get s.leaves (length s.choices) ≡ Some leaf → TrueAt s (length s.choices) leaf.0 c)
        → AllTrue (with_choices s counts (c ∷ [])) }
{}

/// A run that was found joins: its chunks lie in one segment, and if that begins with the run, the guard allowed it.
pub fn found_runs_join()
    ensures { (s : Setting) (counts : List ℕ) → total s.counts ≡ length s.choices → Grown s.counts counts → (k segment : ℕ) → AllTrue s
        → ((i : ℕ) → i < k → (seg_of counts (length s.choices + i) ≡ segment) × (starts counts (length s.choices + i) ≡ true → i ≡ 0))
        → (starts counts (length s.choices) ≡ true → (leaf : List ℕ × ℕ) → slice_get s.leaves (length s.choices) ≡ Some leaf
        → (m : ℕ) × IsFound s (length s.choices) leaf.0 m × (is_allowed (guard_at s (length s.choices)) m ≡ true) × (m ≤ count_at counts segment))
        → AllTrue (with_choices s counts (replicate k (Choice.Reused segment))) }
{}

/// The guard that the definitions compute from the ranges is the one that is queried and told of ranges.
pub fn guards_agree()
    ensures allowed { (f : Fragmentation) (run : ℕ) → is_allowed f run ≡ true → asked f run ≡ record f { low = allowed_flag f } }
    ensures refused { (f : Fragmentation) (run : ℕ) → is_allowed f run ≡ false → asked f run ≡ record f { low = false } }
    ensures range { (settings : LimitSettings) (ranges : List ℕ) (low : Bool) (n : ℕ)
        → with_range (guard_of settings ranges low) n ≡ guard_of settings (ranges ++ n ∷ []) low }
    ensures longer { (settings : LimitSettings) (ranges : List ℕ) (last : ℕ) (low : Bool) (n : ℕ)
        → with_longer_range (guard_of settings (ranges ++ last ∷ []) low) n ≡ guard_of settings (ranges ++ (last + n) ∷ []) low }
{}
