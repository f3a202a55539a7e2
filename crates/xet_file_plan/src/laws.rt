//! Theorems about the plans of files, over any interface. Each is the contract of a function that does nothing.

ghost use Rattle.std.specs.Prelude.{◌≡◌, ◌≢◌, ◌⊎◌, ◌<◌, ◌+◌, ◌^◌, ℕ, true, false, List, [], ◌∷◌, ◌++◌, length, map, take, drop, Option, Some, slice_get};
ghost use Rattle.std.specs.List.{AllByRecursion};
ghost use Rattle.xet_choices.specs.Calls.{Call, IsAskedIn, registered_chunks};
ghost use Rattle.xet_choices.specs.Calls.Call.{Registered};
ghost use Rattle.xet_choices.specs.Choices.{IsFound, TrueAt, fits, hashes_of, is_reused};
ghost use Rattle.xet_choices.specs.Ranges.{total};
ghost use Rattle.xet_cut.specs.declared.limits.LimitSettings.{LimitSettings};
ghost use Rattle.xet_dedup_queries.specs.Interface.{Extends, run_len};
ghost use Rattle.xet_dedup_queries.specs.Registering.{EachPartStands};
ghost use Rattle.xet_fragmentation.specs.Fragmentation.{is_allowed};
ghost use Rattle.xet_hash.specs.Hash.{sentinel};
ghost use Rattle.xet_hash.specs.Merkle.{total_len};
ghost use Rattle.xet_shard_format.specs.declared.record.FileDataSequenceEntry.{FileDataSequenceEntry as Segment};
ghost use Rattle.xet_xorb.specs.Raw.{raw_leaves, raw_of};
ghost use Rattle.xet_xorb.specs.declared.raw.RawXorbData.{RawXorbData};
ghost use Rattle.xet_xorb_chunk.specs.declared.chunk.Chunk.{Chunk};
ghost use Rattle.xet_xorb_chunk.specs.Chunks.{chunk_leaf};
ghost use Rattle.xet_file_plan.specs.Moves.{PlanState, closed, continues, counts_of, empty_plan, filled, is_open, joined, rejected, stored};
ghost use Rattle.xet_file_plan.specs.Placed.{HasHashes, LiesInBlock, LiesInXorb};
ghost use Rattle.xet_file_plan.specs.Plan.{IsPlan, IsPlanSince, IsStorable, setting_of};
ghost use Rattle.xet_file_plan.specs.theorems.Storing.{guard_after};

use xet_choices::Choice;
use xet_dedup_queries::DeduplicationDataInterface;

/// The segments of a plan that is right have the chunks so far, each some. An open one lies in the block, and another one
/// in its xorb.
pub fn segments_have_the_chunks<I: DeduplicationDataInterface>()
    ensures chunks { (interface : I) (calls : List Call) (leaves : List (List ℕ × ℕ)) (p : PlanState)
        → IsPlan (I.lists interface) (I.stands interface) calls leaves p → total (counts_of p.segments) ≡ length p.leaves }
    ensures some { (interface : I) (calls : List Call) (leaves : List (List ℕ × ℕ)) (p : PlanState)
        → IsPlan (I.lists interface) (I.stands interface) calls leaves p → (i : ℕ) (s : Segment) → slice_get p.segments i ≡ Some s → 0 < run_len s }
    ensures open { (interface : I) (calls : List Call) (leaves : List (List ℕ × ℕ)) (p : PlanState)
        → IsPlan (I.lists interface) (I.stands interface) calls leaves p → (i : ℕ) (s : Segment) → slice_get p.segments i ≡ Some s → is_open s ≡ true
        → LiesInBlock p.block s (take (run_len s) (drop (total (counts_of (take i p.segments))) (hashes_of p.leaves))) }
    ensures closed { (interface : I) (calls : List Call) (leaves : List (List ℕ × ℕ)) (p : PlanState)
        → IsPlan (I.lists interface) (I.stands interface) calls leaves p → (i : ℕ) (s : Segment) → slice_get p.segments i ≡ Some s → is_open s ≡ false
        → LiesInXorb (I.lists interface) (I.stands interface) s (take (run_len s) (drop (total (counts_of (take i p.segments))) (hashes_of p.leaves))) }
{}

/// The segments of a plan that is right have no flags.
pub fn segments_have_no_flags<I: DeduplicationDataInterface>()
    ensures { (interface : I) (before calls : List Call) (leaves : List (List ℕ × ℕ)) (p : PlanState)
        → IsPlanSince (I.lists interface) (I.stands interface) before calls leaves p → AllByRecursion (λ s. s.xorb_flags ≡ 0) p.segments }
{}

/// To fill in the hash of the open block changes no number of chunks.
pub fn filling_keeps_the_counts()
    ensures { (hash : List ℕ) (segments : List Segment) → counts_of (map (filled hash) segments) ≡ counts_of segments }
{}

/// The plan of no chunks is right.
pub fn the_empty_plan_is_right<I: DeduplicationDataInterface>()
    ensures { (interface : I) (leaves : List (List ℕ × ℕ)) (settings : LimitSettings)
        → IsPlan (I.lists interface) (I.stands interface) [] leaves (empty_plan settings) }
{}

/// A plan stays right as more xorbs are known, more queries are made and more leaves follow.
pub fn plans_stay_right<I: DeduplicationDataInterface>()
    ensures { (old new : I) (calls calls' added : List Call) (leaves leaves' more : List (List ℕ × ℕ)) (p : PlanState)
        → Extends I.lists I.stands I.refused I.cut_limits old new
        → IsPlan (I.lists old) (I.stands old) calls leaves p
        → calls' ≡ calls ++ added
        → registered_chunks added ≡ 0
        → leaves' ≡ leaves ++ more
        → IsPlan (I.lists new) (I.stands new) calls' leaves' p }
{}

/// A plan stays right with a run that was found for the next chunks: it continues the last segment, or the guard allows
/// it.
pub fn found_runs_join<I: DeduplicationDataInterface>()
    ensures { (interface : I) (calls : List Call) (leaves : List (List ℕ × ℕ)) (p : PlanState) (run : Segment)
        (first : List ℕ × ℕ) (ls more : List (List ℕ × ℕ))
        → IsPlan (I.lists interface) (I.stands interface) calls leaves p
        → leaves ≡ p.leaves ++ (ls ++ more)
        → slice_get ls 0 ≡ Some first
        → run_len run ≡ length ls
        → IsFound (setting_of p calls leaves) (length p.leaves) first.0 (length ls)
        → (continues p.segments run ≡ true) ⊎ (is_allowed p.guard (length ls) ≡ true)
        → HasHashes (I.lists interface) (I.stands interface) p.block run (hashes_of ls)
        → IsPlan (I.lists interface) (I.stands interface) calls leaves (joined p run ls) }
{}

/// A plan stays right with a chunk that is stored and fits into the open block.
pub fn stored_chunks_join<I: DeduplicationDataInterface>()
    ensures stored { (interface : I) (calls : List Call) (leaves : List (List ℕ × ℕ)) (p : PlanState)
        (chunk : Chunk) (more : List (List ℕ × ℕ)) (c : Choice)
        → IsPlan (I.lists interface) (I.stands interface) calls leaves p
        → leaves ≡ p.leaves ++ (chunk_leaf chunk ∷ more)
        → IsStorable chunk
        → fits p.settings (map chunk_leaf p.block) (length chunk.bytes) ≡ true
        → is_reused c ≡ false
        → ((k : ℕ) → c ≢ Choice.Refused k)
        → TrueAt (setting_of p calls leaves) (length p.leaves) chunk.hash c
        → ((i m n : ℕ) → c ≡ Choice.NoPlace n → slice_get p.choices i ≡ Some (Choice.NoPlace m) → m < n)
        → IsPlan (I.lists interface) (I.stands interface) calls leaves (stored p chunk c) }
    ensures refused { (interface : I) (calls : List Call) (leaves : List (List ℕ × ℕ)) (p : PlanState)
        (chunk : Chunk) (more : List (List ℕ × ℕ)) (k : ℕ)
        → IsPlan (I.lists interface) (I.stands interface) calls leaves p
        → leaves ≡ p.leaves ++ (chunk_leaf chunk ∷ more)
        → IsStorable chunk
        → fits p.settings (map chunk_leaf p.block) (length chunk.bytes) ≡ true
        → TrueAt (setting_of p calls leaves) (length p.leaves) chunk.hash (Choice.Refused k)
        → IsPlan (I.lists interface) (I.stands interface) calls leaves (stored (rejected p k) chunk (Choice.Refused k)) }
{}

/// A plan stays right with a chunk that is stored and does not fit into the open block, after that was registered as a
/// xorb.
pub fn stored_chunks_begin_blocks<I: DeduplicationDataInterface>()
    ensures stored { (old new : I) (calls calls' : List Call) (leaves : List (List ℕ × ℕ))
        (p : PlanState) (chunk : Chunk) (more : List (List ℕ × ℕ)) (c : Choice) (x : RawXorbData) (boundaries : List ℕ) (next : List (List ℕ × ℕ))
        → Extends I.lists I.stands I.refused I.cut_limits old new
        → IsPlan (I.lists old) (I.stands old) calls leaves p
        → leaves ≡ p.leaves ++ (chunk_leaf chunk ∷ more)
        → IsStorable chunk
        → fits p.settings (map chunk_leaf p.block) (length chunk.bytes) ≡ false
        → is_reused c ≡ false
        → ((k : ℕ) → c ≢ Choice.Refused k)
        → TrueAt (setting_of p calls leaves) (length p.leaves) chunk.hash c
        → ((i m n : ℕ) → c ≡ Choice.NoPlace n → slice_get p.choices i ≡ Some (Choice.NoPlace m) → m < n)
        → x ≡ raw_of p.block boundaries
        → x.xorb_info.metadata.xorb_hash ≢ sentinel
        → I.lists new x.xorb_info.metadata.xorb_hash ≡ Some (map (λ m. m.1) (raw_leaves x))
        → EachPartStands (I.stands new) x
        → total_len (raw_leaves x) < 2 ^ 32
        → calls' ≡ calls ++ Registered (raw_leaves x) next ∷ []
        → IsPlan (I.lists new) (I.stands new) calls' leaves (stored (closed p x.xorb_info.metadata.xorb_hash) chunk c) }
    ensures refused { (old new : I) (calls calls' : List Call) (leaves : List (List ℕ × ℕ))
        (p : PlanState) (chunk : Chunk) (more : List (List ℕ × ℕ)) (k : ℕ) (x : RawXorbData) (boundaries : List ℕ) (next : List (List ℕ × ℕ))
        → Extends I.lists I.stands I.refused I.cut_limits old new
        → IsPlan (I.lists old) (I.stands old) calls leaves p
        → leaves ≡ p.leaves ++ (chunk_leaf chunk ∷ more)
        → IsStorable chunk
        → fits p.settings (map chunk_leaf p.block) (length chunk.bytes) ≡ false
        → TrueAt (setting_of p calls leaves) (length p.leaves) chunk.hash (Choice.Refused k)
        → x ≡ raw_of p.block boundaries
        → x.xorb_info.metadata.xorb_hash ≢ sentinel
        → I.lists new x.xorb_info.metadata.xorb_hash ≡ Some (map (λ m. m.1) (raw_leaves x))
        → EachPartStands (I.stands new) x
        → total_len (raw_leaves x) < 2 ^ 32
        → calls' ≡ calls ++ Registered (raw_leaves x) next ∷ []
        → IsPlan (I.lists new) (I.stands new) calls' leaves (stored (rejected (closed p x.xorb_info.metadata.xorb_hash) k) chunk (Choice.Refused k)) }
{}

/// The same theorems for the plan of a file whose deduplication began after some calls.
pub fn plans_since_stay_right<I: DeduplicationDataInterface>()
    ensures empty { (interface : I) (before : List Call) (leaves : List (List ℕ × ℕ)) (settings : LimitSettings)
        → IsPlanSince (I.lists interface) (I.stands interface) before before leaves (empty_plan settings) }
    ensures known { (old new : I) (before calls calls' added : List Call)
        (leaves leaves' more : List (List ℕ × ℕ)) (p : PlanState)
        → Extends I.lists I.stands I.refused I.cut_limits old new
        → IsPlanSince (I.lists old) (I.stands old) before calls leaves p
        → calls' ≡ calls ++ added
        → registered_chunks added ≡ 0
        → leaves' ≡ leaves ++ more
        → IsPlanSince (I.lists new) (I.stands new) before calls' leaves' p }
    ensures joined { (interface : I) (before calls : List Call) (leaves : List (List ℕ × ℕ)) (p : PlanState) (run : Segment)
        (first : List ℕ × ℕ) (ls more : List (List ℕ × ℕ)) (plan : IsPlanSince (I.lists interface) (I.stands interface) before calls leaves p)
        → leaves ≡ p.leaves ++ (ls ++ more)
        → slice_get ls 0 ≡ Some first
        → run_len run ≡ length ls
        → IsFound (setting_of p plan.since leaves) (length p.leaves) first.0 (length ls)
        → (continues p.segments run ≡ true) ⊎ (is_allowed p.guard (length ls) ≡ true)
        → HasHashes (I.lists interface) (I.stands interface) p.block run (hashes_of ls)
        → IsPlanSince (I.lists interface) (I.stands interface) before calls leaves (joined p run ls) }
    ensures stored { (interface : I) (before calls : List Call) (leaves : List (List ℕ × ℕ)) (p : PlanState)
        (chunk : Chunk) (more : List (List ℕ × ℕ)) (c : Choice) (plan : IsPlanSince (I.lists interface) (I.stands interface) before calls leaves p)
        → leaves ≡ p.leaves ++ (chunk_leaf chunk ∷ more)
        → IsStorable chunk
        → fits p.settings (map chunk_leaf p.block) (length chunk.bytes) ≡ true
        → is_reused c ≡ false
        → TrueAt (setting_of p plan.since leaves) (length p.leaves) chunk.hash c
        → ((i m n : ℕ) → c ≡ Choice.NoPlace n → slice_get p.choices i ≡ Some (Choice.NoPlace m) → m < n)
        → ((m n : ℕ) (h : List ℕ) (reply : Option ℕ) → c ≡ Choice.NoPlace m → IsAskedIn before n h reply → n < m)
        → IsPlanSince (I.lists interface) (I.stands interface) before calls leaves (stored (record p { guard = guard_after p.guard c }) chunk c) }
    ensures in_new_block { (old new : I) (before calls calls' : List Call) (leaves : List (List ℕ × ℕ))
        (p : PlanState) (chunk : Chunk) (more : List (List ℕ × ℕ)) (c : Choice) (x : RawXorbData) (boundaries : List ℕ) (next : List (List ℕ × ℕ))
        → Extends I.lists I.stands I.refused I.cut_limits old new
        → (plan : IsPlanSince (I.lists old) (I.stands old) before calls leaves p)
        → leaves ≡ p.leaves ++ (chunk_leaf chunk ∷ more)
        → IsStorable chunk
        → fits p.settings (map chunk_leaf p.block) (length chunk.bytes) ≡ false
        → is_reused c ≡ false
        → TrueAt (setting_of p plan.since leaves) (length p.leaves) chunk.hash c
        → ((i m n : ℕ) → c ≡ Choice.NoPlace n → slice_get p.choices i ≡ Some (Choice.NoPlace m) → m < n)
        → ((m n : ℕ) (h : List ℕ) (reply : Option ℕ) → c ≡ Choice.NoPlace m → IsAskedIn before n h reply → n < m)
        → x ≡ raw_of p.block boundaries
        → x.xorb_info.metadata.xorb_hash ≢ sentinel
        → I.lists new x.xorb_info.metadata.xorb_hash ≡ Some (map (λ m. m.1) (raw_leaves x))
        → EachPartStands (I.stands new) x
        → total_len (raw_leaves x) < 2 ^ 32
        → calls' ≡ calls ++ Registered (raw_leaves x) next ∷ []
        → IsPlanSince (I.lists new) (I.stands new) before calls' leaves (stored (record (closed p x.xorb_info.metadata.xorb_hash) { guard = guard_after p.guard c }) chunk c) }
{}
