//! Theorems about the definitions. Each is the contract of a function that does nothing. Two are those of crates below.

ghost use Rattle.std.specs.Prelude.{◌≡◌, ◌<◌, ◌≤◌, ◌+◌, ◌-◌, ◌*◌, ◌^◌, ◌++◌, ℕ, Bool, List, [], Option, length, map, min};
ghost use Rattle.std.specs.List.{AllByRecursion};
ghost use Rattle.xet_aggregate.specs.Aggregate.{Aggregate, filled, merged, shifted};
ghost use Rattle.xet_aggregate.specs.Metrics.{AreCounts, added, zeros};
ghost use Rattle.xet_aggregate.specs.declared.metrics.DeduplicationMetrics.{DeduplicationMetrics};
ghost use Rattle.xet_choices.specs.Calls.{Call, queries_of};
ghost use Rattle.xet_choices.specs.Sums.{RunsEnd};
ghost use Rattle.xet_choices.specs.declared.choice.Choice.{Choice};
ghost use Rattle.xet_cut.specs.Limits.{AreInRange};
ghost use Rattle.xet_cut.specs.Streams.{IsBlock};
ghost use Rattle.xet_cut.specs.declared.limits.LimitSettings.{LimitSettings};
ghost use Rattle.xet_dedup.specs.Adding.{AddsCalls, StopsCalls};
ghost use Rattle.xet_dedup.specs.Deduping.{IsChunk, IsDeduped, metrics_of, metrics_of_both};
ghost use Rattle.xet_dedup.specs.Placing.{IsPlaced, StopsBatch};
ghost use Rattle.xet_dedup.specs.Records.{file_record};
ghost use Rattle.xet_dedup_queries.specs.Counting.{BeginsWith, HasNext, LandsIn, entries_at_most, first_registered};
ghost use Rattle.xet_file_plan.specs.Moves.{PlanState};
ghost use Rattle.xet_shard_format.specs.Records.{IsFile};
ghost use Rattle.xet_shard_format.specs.declared.record.MDBFileInfo.{MDBFileInfo};
ghost use Rattle.xet_xorb_chunk.specs.Chunks.{chunk_leaf};
ghost use Rattle.xet_xorb_chunk.specs.declared.chunk.Chunk.{Chunk};

pub use xet_aggregate::laws::merging_is_associative;
pub use xet_cut::laws::chunks_of_all_pieces;
use xet_dedup_queries::DeduplicationDataInterface;

/// Each chunk and each byte of a file is deduplicated or new. The metrics of a file are the sums of those of its batches, if
/// each run that was rejected ends within its batch. Each then ends within two batches that follow one another.
pub fn metrics_add_up()
    ensures chunks { (leaves : List (List ℕ × ℕ)) (choices : List Choice) (k n : ℕ) → length choices ≡ length leaves
        → (metrics_of leaves choices k n).total_chunks ≡ (metrics_of leaves choices k n).deduped_chunks + (metrics_of leaves choices k n).new_chunks }
    ensures bytes { (leaves : List (List ℕ × ℕ)) (choices : List Choice) (k n : ℕ) → length choices ≡ length leaves
        → (metrics_of leaves choices k n).total_bytes ≡ (metrics_of leaves choices k n).deduped_bytes + (metrics_of leaves choices k n).new_bytes }
    ensures none { metrics_of [] [] 0 0 ≡ zeros }
    ensures batches { (leaves more : List (List ℕ × ℕ)) (choices next : List Choice) (j k m n : ℕ) → length choices ≡ length leaves → RunsEnd leaves choices
        → metrics_of (leaves ++ more) (choices ++ next) (min (j + m) (2 ^ 64 - 1)) (min (k + n) (2 ^ 64 - 1)) ≡ metrics_of_both (metrics_of leaves choices j k) (metrics_of more next m n) }
    ensures runs { (leaves more : List (List ℕ × ℕ)) (choices next : List Choice) → length choices ≡ length leaves → RunsEnd leaves choices → RunsEnd more next → RunsEnd (leaves ++ more) (choices ++ next) }
    ensures sums { (a b : DeduplicationMetrics) → AreCounts (added a b) → metrics_of_both a b ≡ added a b }
{}

/// The chunks of a block of a stream, as `Chunker::next_block` returns them, are chunks that
/// `FileDeduper::process_chunks` takes.
pub fn blocks_are_chunks()
    ensures { (s : LimitSettings) (bs : List ℕ) (last : Bool) (chunks : List Chunk) (buffered : List ℕ) → 1 ≤ s.minimum_chunk → s.minimum_chunk < s.maximum_chunk
        → IsBlock s bs last chunks buffered → AllByRecursion (IsChunk s) chunks }
{}

/// The record of a file whose plan is right is well formed. It stays so while it waits for its xorb, in an aggregate that is
/// merged with others, and once its open segments have the hash of the xorb.
pub fn records_are_files<I: DeduplicationDataInterface>()
    ensures deduped { (interface : I) (before calls : List Call) (cut : ℕ × ℕ) (p : PlanState) (sha256 : Option (List ℕ))
        → IsDeduped (I.lists interface) (I.stands interface) before calls cut p → IsFile (file_record p.leaves p.segments sha256) }
    ensures shifted { (n : ℕ) (file : MDBFileInfo) → IsFile file → IsFile (shifted n file) }
    ensures filled { (hash : List ℕ) (file : MDBFileInfo) → IsFile file → IsFile (filled hash file) }
    ensures merged { (a b : Aggregate) → AllByRecursion (λ w. IsFile w.0) a.files → AllByRecursion (λ w. IsFile w.0) b.files → AllByRecursion (λ w. IsFile w.0) (merged a b).files }
{}

/// A batch that was placed added queries, and registrations of xorbs into which the next chunk did not fit. That chunk begins
/// the next xorb, or the open block. A batch that was not placed added such calls too. What batches that follow one another
/// add is what one batch of all their chunks may add.
pub fn batches_add_calls<I: DeduplicationDataInterface>()
    ensures placed { (file_id : ℕ) (chunks : List Chunk) (old new : I) (p q : PlanState) (k n : ℕ) → AreInRange p.settings → AllByRecursion (IsChunk p.settings) chunks
        → IsPlaced I.lists I.stands I.calls I.acts file_id chunks old p new q k n
        → AddsCalls (map chunk_leaf p.block) (map chunk_leaf q.block) (map chunk_leaf chunks) (I.calls old) (I.calls new) }
    ensures stopped { (file_id : ℕ) (chunks : List Chunk) (old new : I) (p : PlanState) → AreInRange p.settings → AllByRecursion (IsChunk p.settings) chunks
        → StopsBatch I.is_global I.lists I.stands I.calls I.acts file_id chunks old p new
        → StopsCalls (map chunk_leaf p.block) (map chunk_leaf chunks) (I.calls old) (I.calls new) }
    ensures both { (before mid after leaves more : List (List ℕ × ℕ)) (old now new : List Call) → AddsCalls before mid leaves old now → AddsCalls mid after more now new
        → AddsCalls before after (leaves ++ more) old new }
    ensures then_stops { (before mid leaves more : List (List ℕ × ℕ)) (old now new : List Call) → AddsCalls before mid leaves old now → StopsCalls mid more now new
        → StopsCalls before (leaves ++ more) old new }
    ensures nexts { (file_id : ℕ) (chunks : List Chunk) (old new : I) (p q : PlanState) (k n : ℕ) → IsPlaced I.lists I.stands I.calls I.acts file_id chunks old p new q k n
        → (added : List Call) × (I.calls new ≡ I.calls old ++ added) × AllByRecursion HasNext added }
    ensures lands { (file_id : ℕ) (chunks : List Chunk) (old new : I) (p q : PlanState) (k n : ℕ) → IsPlaced I.lists I.stands I.calls I.acts file_id chunks old p new q k n
        → (added : List Call) × (I.calls new ≡ I.calls old ++ added) × LandsIn (map chunk_leaf q.block) added × BeginsWith (first_registered added (map chunk_leaf q.block)) (map chunk_leaf p.block) }
{}

/// If each chunk of a batch has at most one query, the history entries of its calls are at most three for each chunk, whether it
/// was placed or not. With two for each chunk of the open block after it, they are at most that and two for each chunk of the
/// open block before it. If it was not placed, and has chunks, two more entries of the step that failed are within that.
pub fn batches_have_few_entries<I: DeduplicationDataInterface>()
    ensures placed { (file_id : ℕ) (chunks : List Chunk) (old new : I) (p q : PlanState) (k n : ℕ) → AreInRange p.settings → AllByRecursion (IsChunk p.settings) chunks
        → queries_of (I.calls new) ≤ queries_of (I.calls old) + length chunks
        → IsPlaced I.lists I.stands I.calls I.acts file_id chunks old p new q k n
        → (added : List Call) × (I.calls new ≡ I.calls old ++ added) × (entries_at_most added ≤ 3 * length chunks) × (entries_at_most added + 2 * length q.block ≤ 3 * length chunks + 2 * length p.block) }
    ensures stopped { (file_id : ℕ) (chunks : List Chunk) (old new : I) (p : PlanState) → AreInRange p.settings → AllByRecursion (IsChunk p.settings) chunks
        → queries_of (I.calls new) ≤ queries_of (I.calls old) + length chunks
        → StopsBatch I.is_global I.lists I.stands I.calls I.acts file_id chunks old p new
        → (added : List Call) × (I.calls new ≡ I.calls old ++ added) × (entries_at_most added ≤ 3 * length chunks) × AllByRecursion HasNext added × (0 < length chunks → entries_at_most added + 2 ≤ 3 * length chunks + 2 * length p.block) }
{}
