//! A batch of chunks is looked up, and placed.

ghost use Rattle.std.specs.Prelude.{◌≡◌, ◌==◌, ◌≤◌, ◌+◌, ◌++◌, List, IfErr, IfOk, IsErrOf, IsOkUnless, OnErr, OnOk, false, length, map};
ghost use Rattle.std.specs.List.{AllByRecursion};
ghost use Rattle.xet_choices.specs.Calls.{Call, queries_of};
ghost use Rattle.xet_choices.specs.Choices.{hashes_of};
ghost use Rattle.xet_dedup.specs.Deduping.{IsChunk, IsDeduped, IsQueried, IsQueriedOnce, RegistersAlone};
ghost use Rattle.xet_dedup.specs.Placing.{ArePlaced, IsPlaced, StopsBatch, StopsPlacing};
ghost use Rattle.xet_dedup.specs.internal.Batches.{AddsChoices, Walks};
ghost use Rattle.xet_dedup.specs.internal.Joining.{IsBatch};
ghost use Rattle.xet_dedup_queries.specs.Interface.{Extends};
ghost use Rattle.xet_file_plan.specs.Kept.{max_chunks};
ghost use Rattle.xet_file_plan.specs.Plan.{IsPlanSince};
ghost use Rattle.xet_xorb_chunk.specs.Chunks.{chunk_leaf};

use crate::records::hashes_of;
use crate::walk::{Batch, walk};
use std::alloc::Global;
use std::snapshot::Snapshot;
use xet_dedup_queries::{DedupError, DeduplicationDataInterface, find_places};
use xet_file_plan::FilePlan;
use xet_hash::{MerkleHash, StoreError};
use xet_xorb_chunk::{Chunk, chunk_leaves};

/// Looks up the chunks of a batch, and places them. Returns the chunks and the bytes of the runs that a second pass found.
pub(crate) fn place_batch<I: DeduplicationDataInterface>(
    alloc: Global,
    interface: &mut I,
    plan: &mut FilePlan,
    start: &Snapshot<I>,
    file_id: u64,
    chunks: &[Chunk],
) -> Result<(u64, u64), DedupError<I::ErrorType>>
    requires plan { IsDeduped (I.lists interface.old) (I.stands interface.old) (I.calls start.now.value) (I.calls interface.old) (I.cut_limits interface.old) plan.old }
    requires chunks { AllByRecursion (IsChunk plan.old.settings) chunks.now }
    requires few { length plan.old.leaves + length chunks.now ≤ max_chunks }
    ensures plan { OnOk result (IsDeduped (I.lists interface.new) (I.stands interface.new) (I.calls start.now.value) (I.calls interface.new) (I.cut_limits interface.new) plan.new) }
    ensures leaves { OnOk result (plan.new.leaves ≡ plan.old.leaves ++ map chunk_leaf chunks.now) }
    ensures placed { IfOk result (λ global. IsPlaced I.lists I.stands I.calls I.acts file_id chunks.now interface.old plan.old interface.new plan.new global.0 global.1) }
    ensures stopped { OnErr result (StopsBatch I.is_global I.lists I.stands I.calls I.acts file_id chunks.now interface.old plan.old interface.new) }
    ensures choices { OnOk result (AddsChoices (map chunk_leaf chunks.now) plan.old.choices plan.new.choices (length chunks.now)) }
    ensures settings { OnOk result (plan.new.settings ≡ plan.old.settings) }
    ensures asked { IfOk result (λ global. IsQueried I.calls I.acts (length plan.old.leaves == 0) (hashes_of (map chunk_leaf chunks.now)) interface.old interface.new global.0 global.1) }
    ensures once { I.is_global ≡ false → IfOk result (λ global. IsQueriedOnce I.calls I.acts (length plan.old.leaves == 0) (hashes_of (map chunk_leaf chunks.now)) interface.old interface.new × (global.0 ≡ 0) × (global.1 ≡ 0)) }
    ensures queries { I.is_global ≡ false → queries_of (I.calls interface.new) ≤ queries_of (I.calls interface.old) + length chunks.now }
    ensures prefix { (added : List Call) × (I.calls interface.new ≡ I.calls interface.old ++ added) }
    ensures extends { Extends I.lists I.stands I.refused I.cut_limits interface.old interface.new }
    ensures refused { IfErr result (λ e. (d : I.ErrorType) → e ≡ DedupError.Interface d → I.refused interface.old interface.new d) }
    ensures passed { OnOk result (I.failed interface.new ≡ I.failed interface.old) }
    ensures memory { IsErrOf result DedupError.OutOfMemory → I.failed interface.new ≡ I.failed interface.old }
{
    match listed(alloc, chunks) {
        Ok((leaves, hashes)) => place_listed(
            alloc, interface, plan, start, file_id, chunks, &leaves, &hashes,
        ),
        Err(_) => Err(DedupError::OutOfMemory),
    }
}

/// The hashes and lengths of chunks, and their hashes.
fn listed(
    alloc: Global,
    chunks: &[Chunk],
) -> Result<(Vec<(MerkleHash, u64)>, Vec<MerkleHash>), StoreError>
    ensures leaves { IfOk result (λ lists. lists.0.items ≡ map chunk_leaf chunks.now) }
    ensures hashes { IfOk result (λ lists. lists.1.items ≡ hashes_of (map chunk_leaf chunks.now)) }
    ensures memory { IsOkUnless result StoreError.OutOfMemory }
{
    let leaves = chunk_leaves(alloc, chunks)?;
    let hashes = hashes_of(alloc, &leaves)?;
    Ok((leaves, hashes))
}

/// Looks up and places chunks with these leaves and hashes.
fn place_listed<I: DeduplicationDataInterface>(
    alloc: Global,
    interface: &mut I,
    plan: &mut FilePlan,
    start: &Snapshot<I>,
    file_id: u64,
    chunks: &[Chunk],
    leaves: &[(MerkleHash, u64)],
    hashes: &[MerkleHash],
) -> Result<(u64, u64), DedupError<I::ErrorType>>
    requires plan { IsDeduped (I.lists interface.old) (I.stands interface.old) (I.calls start.now.value) (I.calls interface.old) (I.cut_limits interface.old) plan.old }
    requires chunks { AllByRecursion (IsChunk plan.old.settings) chunks.now }
    requires few { length plan.old.leaves + length chunks.now ≤ max_chunks }
    requires leaves { leaves.now ≡ map chunk_leaf chunks.now }
    requires hashes { hashes.now ≡ hashes_of leaves.now }
    ensures plan { OnOk result (IsDeduped (I.lists interface.new) (I.stands interface.new) (I.calls start.now.value) (I.calls interface.new) (I.cut_limits interface.new) plan.new) }
    ensures leaves { OnOk result (plan.new.leaves ≡ plan.old.leaves ++ leaves.now) }
    ensures placed { IfOk result (λ global. IsPlaced I.lists I.stands I.calls I.acts file_id chunks.now interface.old plan.old interface.new plan.new global.0 global.1) }
    ensures stopped { OnErr result (StopsBatch I.is_global I.lists I.stands I.calls I.acts file_id chunks.now interface.old plan.old interface.new) }
    ensures choices { OnOk result (AddsChoices leaves.now plan.old.choices plan.new.choices (length chunks.now)) }
    ensures settings { OnOk result (plan.new.settings ≡ plan.old.settings) }
    ensures asked { IfOk result (λ global. IsQueried I.calls I.acts (length plan.old.leaves == 0) hashes.now interface.old interface.new global.0 global.1) }
    ensures once { I.is_global ≡ false → IfOk result (λ global. IsQueriedOnce I.calls I.acts (length plan.old.leaves == 0) hashes.now interface.old interface.new × (global.0 ≡ 0) × (global.1 ≡ 0)) }
    ensures queries { I.is_global ≡ false → queries_of (I.calls interface.new) ≤ queries_of (I.calls interface.old) + length chunks.now }
    ensures prefix { (added : List Call) × (I.calls interface.new ≡ I.calls interface.old ++ added) }
    ensures extends { Extends I.lists I.stands I.refused I.cut_limits interface.old interface.new }
    ensures refused { IfErr result (λ e. (d : I.ErrorType) → e ≡ DedupError.Interface d → I.refused interface.old interface.new d) }
    ensures passed { OnOk result (I.failed interface.new ≡ I.failed interface.old) }
    ensures memory { IsErrOf result DedupError.OutOfMemory → I.failed interface.new ≡ I.failed interface.old }
{
    plan.recall_invariant();
    let base = plan.len() as u64;
    let found = find_places(alloc, interface, hashes, base == 0)?;
    let batch = Batch {
        chunks,
        hashes,
        leaves,
        places: found.places.as_slice(),
        base,
        file_id,
    };
    place_found(alloc, interface, plan, start, &batch)?;
    Ok((found.global_chunks, found.global_bytes))
}

/// Places the chunks of a batch that was looked up. The interface takes note of the xorbs that they use.
fn place_found<I: DeduplicationDataInterface>(
    alloc: Global,
    interface: &mut I,
    plan: &mut FilePlan,
    start: &Snapshot<I>,
    batch: &Batch,
) -> Result<(), DedupError<I::ErrorType>>
    requires batch { IsBatch plan.old.settings batch.now }
    requires walking { Walks I.lists I.stands I.calls start.now.value interface.old batch.now 0 plan.old }
    requires limits { I.cut_limits interface.old ≡ (plan.old.settings.cut_bytes, plan.old.settings.cut_chunks) }
    requires room { batch.now.base + length batch.now.chunks.now ≤ max_chunks }
    ensures plan { OnOk result (IsPlanSince (I.lists interface.new) (I.stands interface.new) (I.calls start.now.value) (I.calls interface.new) plan.new.leaves plan.new) }
    ensures leaves { OnOk result (plan.new.leaves ≡ plan.old.leaves ++ batch.now.leaves.now) }
    ensures placed { OnOk result (ArePlaced I.lists I.stands I.calls I.acts batch.now.chunks.now batch.now.places.now batch.now.base batch.now.file_id interface.old plan.old interface.new plan.new) }
    ensures stopped { OnErr result (StopsPlacing I.lists I.stands I.calls I.acts batch.now.chunks.now batch.now.places.now batch.now.base batch.now.file_id interface.old plan.old interface.new) }
    ensures added { OnOk result (AddsChoices batch.now.leaves.now plan.old.choices plan.new.choices (length batch.now.chunks.now)) }
    ensures settings { OnOk result (plan.new.settings ≡ plan.old.settings) }
    ensures calls { RegistersAlone (I.calls interface.old) (I.calls interface.new) }
    ensures extends { Extends I.lists I.stands I.refused I.cut_limits interface.old interface.new }
    ensures refused { IfErr result (λ e. (d : I.ErrorType) → e ≡ DedupError.Interface d → I.refused interface.old interface.new d) }
    ensures passed { OnOk result (I.failed interface.new ≡ I.failed interface.old) }
    ensures memory { IsErrOf result DedupError.OutOfMemory → I.failed interface.new ≡ I.failed interface.old }
{
    let mut dependencies = Vec::new(alloc);
    walk(alloc, interface, plan, start, batch, &mut dependencies)?;
    if !dependencies.is_empty() {
        interface.register_xorb_dependencies(&dependencies);
    }
    Ok(())
}
