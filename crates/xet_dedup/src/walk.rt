//! A batch of chunks is placed: each is found, or stored in the open block.

ghost use Rattle.std.specs.Prelude.{◌≡◌, ◌≢◌, ◌⊎◌, ◌<◌, ◌≤◌, ◌+◌, ◌++◌, ◌∷◌, ◌^◌, [], ℕ, Bool, List, IfErr, IfOk, IsErrOf, IsOkUnless, IfSome, None, OnErr, OnOk, Some, drop, length, map, slice_get, true};
ghost use Rattle.std.specs.List.{AllByRecursion};
ghost use Rattle.xet_choices.specs.Choices.{fits};
ghost use Rattle.xet_dedup.specs.Deduping.{IsChunk, RegistersAlone};
ghost use Rattle.xet_dedup.specs.Placing.{HasNone, IsReason, IsRunAt, Joins, PlacesTo, Registers, Rejects, Stores, StopsAt, StopsPlacing, StopsStoring, block_dependencies, run_dependencies, xorb_dependency};
ghost use Rattle.xet_dedup.specs.internal.Batches.{AddsChoices, Places, Walks};
ghost use Rattle.xet_dedup.specs.internal.Joining.{CanJoin, IsBatch};
ghost use Rattle.xet_open_block.specs.OpenBlock.{first_place};
ghost use Rattle.xet_dedup_queries.specs.Interface.{Extends, run_len};
ghost use Rattle.xet_dedup_queries.specs.Registering.{IsDue, max_chunk_len};
ghost use Rattle.xet_file_plan.specs.Kept.{max_chunks};
ghost use Rattle.xet_file_plan.specs.Moves.{closed, stored};
ghost use Rattle.xet_file_plan.specs.Plan.{IsStorable};
ghost use Rattle.xet_shard_format.specs.declared.record.FileDataSequenceEntry.{FileDataSequenceEntry as Segment};
ghost use Rattle.xet_xorb.specs.Raw.{raw_leaves, raw_of};
ghost use Rattle.xet_xorb_chunk.specs.Chunks.{chunk_leaf};

use std::alloc::Global;
use std::snapshot::Snapshot;
use xet_choices::Choice;
use xet_dedup_queries::{DedupError, DeduplicationDataInterface, FileXorbDependency, Place};
use xet_file_plan::FilePlan;
use xet_hash::{MerkleHash, StoreError};
use xet_shard_format::FileDataSequenceEntry;
use xet_xorb::RawXorbData;
use xet_xorb_chunk::Chunk;

/// A batch of chunks.
#[derive(Clone, Copy)]
pub(crate) struct Batch<'a> {
    /// The chunks.
    pub(crate) chunks: &'a [Chunk],
    /// Their hashes.
    pub(crate) hashes: &'a [MerkleHash],
    /// Their hashes and lengths.
    pub(crate) leaves: &'a [(MerkleHash, u64)],
    /// What queries found of them.
    pub(crate) places: &'a [Place],
    /// The number of chunks of the file before the batch.
    pub(crate) base: u64,
    /// The number by which the caller knows the file.
    pub(crate) file_id: u64,
}

/// Places the chunks of a batch, which queries have looked up, in order.
pub(crate) fn walk<I: DeduplicationDataInterface>(
    alloc: Global,
    interface: &mut I,
    plan: &mut FilePlan,
    start: &Snapshot<I>,
    batch: &Batch,
    dependencies: &mut Vec<FileXorbDependency>,
) -> Result<(), DedupError<I::ErrorType>>
    requires batch { IsBatch plan.old.settings batch.now }
    requires walking { Walks I.lists I.stands I.calls start.now.value interface.old batch.now 0 plan.old }
    requires limits { I.cut_limits interface.old ≡ (plan.old.settings.cut_bytes, plan.old.settings.cut_chunks) }
    requires room { batch.now.base + length batch.now.chunks.now ≤ max_chunks }
    requires fresh { dependencies.old.items ≡ [] }
    ensures walked { OnOk result (Walks I.lists I.stands I.calls start.now.value interface.new batch.now (length batch.now.chunks.now) plan.new) }
    ensures leaves { OnOk result (plan.new.leaves ≡ plan.old.leaves ++ batch.now.leaves.now) }
    ensures placed { OnOk result (PlacesTo I.lists I.stands I.calls I.acts batch.now.chunks.now batch.now.places.now batch.now.base batch.now.file_id interface.old plan.old interface.new plan.new (length batch.now.chunks.now) dependencies.new.items) }
    ensures stopped { OnErr result (StopsPlacing I.lists I.stands I.calls I.acts batch.now.chunks.now batch.now.places.now batch.now.base batch.now.file_id interface.old plan.old interface.new) }
    ensures added { OnOk result (AddsChoices batch.now.leaves.now plan.old.choices plan.new.choices (length batch.now.chunks.now)) }
    ensures settings { OnOk result (plan.new.settings ≡ plan.old.settings) }
    ensures calls { RegistersAlone (I.calls interface.old) (I.calls interface.new) }
    ensures extends { Extends I.lists I.stands I.refused I.cut_limits interface.old interface.new }
    ensures refused { IfErr result (λ e. (d : I.ErrorType) → e ≡ DedupError.Interface d → I.refused interface.old interface.new d) }
    ensures passed { OnOk result (I.failed interface.new ≡ I.failed interface.old) }
    ensures memory { IsErrOf result DedupError.OutOfMemory → I.failed interface.new ≡ I.failed interface.old }
{
    let mut at = 0;
    'places: while at < batch.chunks.len() {
        at += step(alloc, interface, plan, start, batch, at, dependencies)?;
    }
    Ok(())
}

/// Places the chunk at a place of the batch, or the run that begins with it. Returns the number of chunks that were placed.
fn step<I: DeduplicationDataInterface>(
    alloc: Global,
    interface: &mut I,
    plan: &mut FilePlan,
    start: &Snapshot<I>,
    batch: &Batch,
    at: usize,
    dependencies: &mut Vec<FileXorbDependency>,
) -> Result<usize, DedupError<I::ErrorType>>
    requires batch { IsBatch plan.old.settings batch.now }
    requires at { at < length batch.now.chunks.now }
    requires walking { Walks I.lists I.stands I.calls start.now.value interface.old batch.now at plan.old }
    requires limits { I.cut_limits interface.old ≡ (plan.old.settings.cut_bytes, plan.old.settings.cut_chunks) }
    requires room { batch.now.base + length batch.now.chunks.now ≤ max_chunks }
    ensures some { IfOk result (λ count. (0 < count) × (at + count ≤ length batch.now.chunks.now)) }
    ensures walked { IfOk result (λ count. Walks I.lists I.stands I.calls start.now.value interface.new batch.now (at + count) plan.new) }
    ensures leaves { IfOk result (λ count. plan.new.leaves ++ drop (at + count) batch.now.leaves.now ≡ plan.old.leaves ++ drop at batch.now.leaves.now) }
    ensures placed { IfOk result (λ count. Places I.lists I.stands I.calls I.acts batch.now interface.old plan.old at dependencies.old.items interface.new plan.new (at + count) dependencies.new.items) }
    ensures stopped { OnErr result (StopsAt batch.now.chunks.now batch.now.places.now batch.now.base plan.old at (I.calls interface.old) (I.calls interface.new) (I.acts interface.old) (I.acts interface.new)) }
    ensures added { IfOk result (λ count. AddsChoices (drop at batch.now.leaves.now) plan.old.choices plan.new.choices count) }
    ensures settings { OnOk result (plan.new.settings ≡ plan.old.settings) }
    ensures calls { RegistersAlone (I.calls interface.old) (I.calls interface.new) }
    ensures extends { Extends I.lists I.stands I.refused I.cut_limits interface.old interface.new }
    ensures refused { IfErr result (λ e. (d : I.ErrorType) → e ≡ DedupError.Interface d → I.refused interface.old interface.new d) }
    ensures passed { OnOk result (I.failed interface.new ≡ I.failed interface.old) }
    ensures memory { IsErrOf result DedupError.OutOfMemory → I.failed interface.new ≡ I.failed interface.old }
{
    plan.recall_invariant();
    match join(plan, batch, at, dependencies) {
        Ok(Joining::Joined(count)) => Ok(count),
        Ok(Joining::New(choice)) => {
            let chunk = &batch.chunks[at];
            let id = batch.file_id;
            store(alloc, interface, plan, chunk, choice, id, dependencies)?;
            Ok(1)
        }
        Err(_) => Err(DedupError::OutOfMemory),
    }
}

/// What becomes of a chunk.
enum Joining {
    /// It is in the plan with the run that begins with it, which has so many chunks.
    Joined(usize),
    /// It is to be stored, for this reason.
    New(Choice),
}

/// The run at a place of a batch.
#[derive(Clone, Copy)]
struct RunAt {
    /// The number of its chunks.
    count: usize,
    /// The run.
    run: FileDataSequenceEntry,
    /// Whether the query answered that the run is external. `None` for a run of the open block.
    is_external: Option<bool>,
}

/// The run at a place: the one that is kept there, else that of the open block.
fn run_at(plan: &FilePlan, batch: &Batch, at: usize) -> Option<RunAt>
    requires at { at < length batch.now.chunks.now }
    requires hashes { length batch.now.hashes.now ≡ length batch.now.chunks.now }
    requires places { length batch.now.places.now ≡ length batch.now.chunks.now }
    requires can { CanJoin plan.now batch.now.hashes.now batch.now.places.now at }
    ensures within { IfSome result (λ r. (0 < r.count) × (at + r.count ≤ length batch.now.chunks.now)) }
    ensures found { IfSome result (λ r. IsRunAt plan.now batch.now.hashes.now batch.now.places.now at r.count r.run) }
    ensures none { result ≡ None → first_place (drop at batch.now.hashes.now) (map chunk_leaf plan.now.block) ≡ None }
    ensures kept { IfSome result (λ r. (is_external : Bool) → r.is_external ≡ Some is_external → slice_get batch.now.places.now at ≡ Some (Place.Kept r.run is_external)) }
    ensures of_block { IfSome result (λ r. r.is_external ≡ None → (run : Segment) (is_external : Bool) → slice_get batch.now.places.now at ≢ Some (Place.Kept run is_external)) }
    ensures not_kept { result ≡ None → (run : Segment) (is_external : Bool) → slice_get batch.now.places.now at ≢ Some (Place.Kept run is_external) }
{
    if let Place::Kept { run, is_external } = &batch.places[at] {
        return Some(RunAt {
            count: batch_len(run),
            run: *run,
            is_external: Some(*is_external),
        });
    }
    let (count, run) = plan.find_run(&batch.hashes[at..])?;
    Some(RunAt {
        count,
        run,
        is_external: None,
    })
}

/// Lets the run at a place join the plan: the one that is kept there, or that of the open block. If there is none, or it is
/// rejected, the chunk is to be stored.
fn join(
    plan: &mut FilePlan,
    batch: &Batch,
    at: usize,
    dependencies: &mut Vec<FileXorbDependency>,
) -> Result<Joining, StoreError>
    requires batch { IsBatch plan.old.settings batch.now }
    requires at { at < length batch.now.chunks.now }
    requires can { CanJoin plan.old batch.now.hashes.now batch.now.places.now at }
    requires here { length plan.old.leaves ≡ batch.now.base + at }
    requires room { batch.now.base + length batch.now.chunks.now ≤ max_chunks }
    ensures some { IfOk result (λ j. (count : ℕ) → j ≡ Joining.Joined count → (0 < count) × (at + count ≤ length batch.now.chunks.now)) }
    ensures joined { IfOk result (λ j. (count : ℕ) → j ≡ Joining.Joined count → Joins plan.old plan.new batch.now.leaves.now batch.now.hashes.now batch.now.places.now at count) }
    ensures stored { IfOk result (λ j. (choice : Choice) → j ≡ Joining.New choice → Rejects plan.old plan.new batch.now.hashes.now batch.now.places.now at choice ⊎ HasNone plan.old plan.new batch.now.hashes.now batch.now.places.now batch.now.base at choice) }
    ensures noted { IfOk result (λ j. (count : ℕ) → j ≡ Joining.Joined count → dependencies.new.items ≡ dependencies.old.items ++ run_dependencies batch.now.file_id (slice_get batch.now.places.now at)) }
    ensures not_noted { IfOk result (λ j. (choice : Choice) → j ≡ Joining.New choice → dependencies.new.items ≡ dependencies.old.items) }
    ensures memory { IsOkUnless result StoreError.OutOfMemory }
{
    let Some(found) = run_at(plan, batch, at) else {
        return Ok(Joining::New(reason(batch, at)));
    };
    let count = found.count;
    if !plan.try_join(found.run, &batch.leaves[at..at + count])? {
        return Ok(Joining::New(Choice::Refused { run: count as u64 }));
    }
    if let Some(is_external) = found.is_external {
        dependencies.push(FileXorbDependency {
            file_id: batch.file_id,
            xorb_hash: found.run.xorb_hash,
            n_bytes: u64::from(found.run.unpacked_segment_bytes),
            is_external,
        })?;
    }
    Ok(Joining::Joined(count))
}

/// The number of chunks of a run.
fn batch_len(run: &FileDataSequenceEntry) -> usize
    ensures { result ≡ run_len run.now }
{
    run.chunk_index_end.saturating_sub(run.chunk_index_start) as usize
}

/// Why the chunk at a place is stored, if there is no run there.
fn reason(batch: &Batch, at: usize) -> Choice
    requires at { at < length batch.now.places.now }
    requires room { (start : ℕ) → slice_get batch.now.places.now at ≡ Some (Place.Covered start) → batch.now.base + start < 2 ^ 64 }
    requires none { (run : Segment) (is_external : Bool) → slice_get batch.now.places.now at ≢ Some (Place.Kept run is_external) }
    requires asked { slice_get batch.now.places.now at ≢ Some Place.Unasked }
    ensures { IsReason batch.now.places.now batch.now.base at result }
{
    match &batch.places[at] {
        Place::Missed { entry } => Choice::NoPlace { entry: *entry },
        Place::Covered { start } => Choice::Inside {
            start: batch.base + *start,
        },
        _ => unreachable!(),
    }
}

/// Stores a chunk in the open block, for this reason. If it does not fit, the block is registered first.
pub(crate) fn store<I: DeduplicationDataInterface>(
    alloc: Global,
    interface: &mut I,
    plan: &mut FilePlan,
    chunk: &Chunk,
    choice: Choice,
    file_id: u64,
    dependencies: &mut Vec<FileXorbDependency>,
) -> Result<(), DedupError<I::ErrorType>>
    requires chunk { IsChunk plan.old.settings chunk.now }
    requires block { AllByRecursion IsStorable plan.old.block }
    requires room { length plan.old.leaves + 1 ≤ max_chunks }
    requires limits { I.cut_limits interface.old ≡ (plan.old.settings.cut_bytes, plan.old.settings.cut_chunks) }
    ensures stored { OnOk result (Stores I.lists I.stands I.calls I.acts interface.old interface.new plan.old plan.new chunk.now choice) }
    ensures stopped { OnErr result (StopsStoring plan.old chunk.now (I.calls interface.old) (I.calls interface.new) (I.acts interface.old) (I.acts interface.new)) }
    ensures noted { OnOk result (dependencies.new.items ≡ dependencies.old.items ++ block_dependencies file_id plan.old chunk.now) }
    ensures calls { RegistersAlone (I.calls interface.old) (I.calls interface.new) }
    ensures extends { Extends I.lists I.stands I.refused I.cut_limits interface.old interface.new }
    ensures refused { IfErr result (λ e. (d : I.ErrorType) → e ≡ DedupError.Interface d → I.refused interface.old interface.new d) }
    ensures passed { OnOk result (I.failed interface.new ≡ I.failed interface.old) }
    ensures memory { IsErrOf result DedupError.OutOfMemory → I.failed interface.new ≡ I.failed interface.old }
{
    plan.recall_invariant();
    if !plan.fits(chunk.bytes.len()) {
        let next = [(chunk.hash, chunk.bytes.len() as u64)];
        cut(alloc, interface, plan, &next, file_id, dependencies)?;
    }
    match store_chunk(plan, chunk, choice) {
        Ok(()) => Ok(()),
        Err(_) => Err(DedupError::OutOfMemory),
    }
}

/// Registers the open block as a xorb. `next` lists the chunk that does not fit into it.
fn cut<I: DeduplicationDataInterface>(
    alloc: Global,
    interface: &mut I,
    plan: &mut FilePlan,
    next: &[(MerkleHash, u64)],
    file_id: u64,
    dependencies: &mut Vec<FileXorbDependency>,
) -> Result<(), DedupError<I::ErrorType>>
    requires some { plan.old.block ≢ [] }
    requires block { AllByRecursion IsStorable plan.old.block }
    requires limits { I.cut_limits interface.old ≡ (plan.old.settings.cut_bytes, plan.old.settings.cut_chunks) }
    requires due { IsDue (I.cut_limits interface.old) (map chunk_leaf plan.old.block) next.now }
    ensures registered { OnOk result ((x : RawXorbData) × Registers I.lists I.stands I.calls I.acts interface.old interface.new plan.old.block next.now x × (plan.new ≡ closed plan.old x.xorb_info.metadata.xorb_hash)) }
    ensures extends { Extends I.lists I.stands I.refused I.cut_limits interface.old interface.new }
    ensures noted { OnOk result (dependencies.new.items ≡ dependencies.old.items ++ xorb_dependency file_id (raw_of plan.old.block (0 ∷ [])) ∷ []) }
    ensures same { OnErr result (I.calls interface.new ≡ I.calls interface.old) }
    ensures kept_acts { OnErr result (I.acts interface.new ≡ I.acts interface.old) }
    ensures refused { IfErr result (λ e. (d : I.ErrorType) → e ≡ DedupError.Interface d → I.refused interface.old interface.new d) }
    ensures passed { OnOk result (I.failed interface.new ≡ I.failed interface.old) }
    ensures memory { IsErrOf result DedupError.OutOfMemory → I.failed interface.new ≡ I.failed interface.old }
{
    plan.recall_invariant();
    let xorb = match xorb_of(alloc, plan, file_id, dependencies) {
        Ok(xorb) => xorb,
        Err(_) => return Err(DedupError::OutOfMemory),
    };
    let hash = xorb.hash();
    match interface.register_new_xorb(xorb, next) {
        Ok(()) => {
            plan.close_block(&hash);
            Ok(())
        }
        Err(error) => Err(DedupError::Interface(error)),
    }
}

/// The xorb of the open block, of which a dependency is noted.
fn xorb_of(
    alloc: Global,
    plan: &FilePlan,
    file_id: u64,
    dependencies: &mut Vec<FileXorbDependency>,
) -> Result<RawXorbData, StoreError>
    ensures exact { IfOk result (λ raw. raw ≡ raw_of plan.now.block (0 ∷ [])) }
    ensures leaves { IfOk result (λ raw. raw_leaves raw ≡ map chunk_leaf plan.now.block) }
    ensures noted { IfOk result (λ raw. dependencies.new.items ≡ dependencies.old.items ++ xorb_dependency file_id raw ∷ []) }
    ensures memory { IsOkUnless result StoreError.OutOfMemory }
{
    dependencies.reserve(1)?;
    let xorb = plan.xorb(alloc)?;
    dependencies.push_reserved(FileXorbDependency {
        file_id,
        xorb_hash: xorb.hash(),
        n_bytes: xorb.num_bytes() as u64,
        is_external: false,
    });
    Ok(xorb)
}

/// Stores a copy of a chunk, which shares its bytes.
fn store_chunk(plan: &mut FilePlan, chunk: &Chunk, choice: Choice) -> Result<(), StoreError>
    requires fits { fits plan.old.settings (map chunk_leaf plan.old.block) (length chunk.now.bytes) ≡ true }
    requires small { length chunk.now.bytes ≤ max_chunk_len }
    requires room { length plan.old.leaves + 1 ≤ max_chunks }
    ensures stored { OnOk result (plan.new ≡ stored plan.old chunk.now choice) }
    ensures memory { IsOkUnless result StoreError.OutOfMemory }
{
    let copy = chunk.clone()?;
    plan.store_chunk(copy, choice)
}
