//! `FileDeduper`: deduplication of the chunks of one file.

ghost use Rattle.std.specs.Prelude.{◌≡◌, ◌==◌, ◌≤◌, ◌+◌, ◌-◌, ◌^◌, ◌++◌, IfErr, IfOk, IsErrOf, List, OnErr, OnOk, drop, false, is_ok, length, map, min, true};
ghost use Rattle.std.specs.List.{AllByRecursion};
ghost use Rattle.xet_choices.specs.Calls.{Call, queries_of};
ghost use Rattle.xet_choices.specs.Choices.{hashes_of};
ghost use Rattle.xet_choices.specs.Sums.{RunsEnd};
ghost use Rattle.xet_dedup.specs.Deduping.{IsChunk, IsDeduped, IsQueried, IsQueriedOnce, metrics_of};
ghost use Rattle.xet_dedup.specs.Placing.{IsPlaced, StopsBatch};
ghost use Rattle.xet_dedup_queries.specs.Interface.{Extends};
ghost use Rattle.xet_file_plan.specs.Kept.{max_chunks};
ghost use Rattle.xet_file_plan.specs.Moves.{empty_plan};
ghost use Rattle.xet_xorb_chunk.specs.Chunks.{chunk_leaf};

use crate::metrics::metrics_of;
use crate::placing::place_batch;
use std::alloc::Global;
use std::snapshot::Snapshot;
use xet_aggregate::DeduplicationMetrics;
use xet_cut::Limits;
use xet_dedup_queries::{DedupError, DeduplicationDataInterface};
use xet_file_plan::FilePlan;
use xet_xorb_chunk::Chunk;

/// The deduplication of one file: its chunks come in batches, in order, and each is found through the interface or in the
/// open block, or stored there.
pub struct FileDeduper<I: DeduplicationDataInterface> {
    /// The store.
    pub interface: I,
    /// The plan of the file so far.
    pub plan: FilePlan,
    /// The store when the deduplication began, for contracts alone.
    pub start: Snapshot<I>,
    /// Whether each batch so far was placed. After a call that failed, the plan is of no use.
    pub whole: bool,
    /// The number by which the caller knows the file.
    pub file_id: u64,
    /// The chunks and the bytes of the runs that second passes found.
    pub global: (u64, u64),
    pub(crate) alloc: Global,
}

impl<I: DeduplicationDataInterface> FileDeduper<I> {
    /// Begins with a file of no chunks. The interface is untouched, and is returned if memory is out. The caller ensures
    /// that its limits are those of `limits`.
    pub fn new(
        alloc: Global,
        interface: I,
        file_id: u64,
        limits: &Limits,
    ) -> Result<FileDeduper<I>, (I, DedupError<I::ErrorType>)>
        requires limits { I.cut_limits interface ≡ (limits.now.cut_bytes, limits.now.cut_chunks) }
        ensures whole { IfOk result (λ d. (d.whole ≡ true) × IsDeduped (I.lists d.interface) (I.stands d.interface) (I.calls d.start.value) (I.calls d.interface) (I.cut_limits d.interface) d.plan) }
        ensures empty { IfOk result (λ d. d.plan ≡ empty_plan limits.now) }
        ensures same { IfOk result (λ d. (d.interface ≡ interface) × (d.start.value ≡ interface) × (d.file_id ≡ file_id) × (d.global ≡ (0, 0))) }
        ensures back { IfErr result (λ e. e.0 ≡ interface) }
        ensures memory { IfErr result (λ e. e.1 ≡ DedupError.OutOfMemory) }
    {
        match FilePlan::new(alloc, limits) {
            Ok(plan) => {
                let start = Snapshot::of(&interface);
                Ok(FileDeduper {
                    interface,
                    plan,
                    start,
                    whole: true,
                    file_id,
                    global: (0, 0),
                    alloc,
                })
            }
            Err(_) => Err((interface, DedupError::OutOfMemory)),
        }
    }

    /// Places the chunks of a batch, which follow those that came before, and returns the metrics of this batch. Each is a
    /// chunk of the chunking by the limits, and the file has at most 2^30 chunks. Each run that is rejected ends within the
    /// batch. The error is one of the interface, which is as that call left it, or `OutOfMemory`; the plan is of no use then.
    /// `Ok` only if no call failed, and `OutOfMemory` likewise. The calls before stay, also after an error; those of the batch
    /// are then its queries up to some place, or all of them and what the placing did up to some place. If the interface sends no
    /// queries elsewhere, there is at most one query for each chunk, also after an error.
    pub fn process_chunks(
        &mut self,
        chunks: &[Chunk],
    ) -> Result<DeduplicationMetrics, DedupError<I::ErrorType>>
        requires whole { self.old.whole ≡ true }
        requires plan { IsDeduped (I.lists self.old.interface) (I.stands self.old.interface) (I.calls self.old.start.value) (I.calls self.old.interface) (I.cut_limits self.old.interface) self.old.plan }
        requires chunks { AllByRecursion (IsChunk self.old.plan.settings) chunks.now }
        requires few { length self.old.plan.leaves + length chunks.now ≤ max_chunks }
        ensures whole { self.new.whole ≡ is_ok result }
        ensures plan { OnOk result (IsDeduped (I.lists self.new.interface) (I.stands self.new.interface) (I.calls self.new.start.value) (I.calls self.new.interface) (I.cut_limits self.new.interface) self.new.plan) }
        ensures leaves { OnOk result (self.new.plan.leaves ≡ self.old.plan.leaves ++ map chunk_leaf chunks.now) }
        ensures placed { IfOk result (λ m. IsPlaced I.lists I.stands I.calls I.acts self.old.file_id chunks.now self.old.interface self.old.plan self.new.interface self.new.plan m.deduped_chunks_by_global_dedup m.deduped_bytes_by_global_dedup) }
        ensures stopped { OnErr result (StopsBatch I.is_global I.lists I.stands I.calls I.acts self.old.file_id chunks.now self.old.interface self.old.plan self.new.interface) }
        ensures choices { OnOk result (self.new.plan.choices ≡ self.old.plan.choices ++ drop (length self.old.plan.choices) self.new.plan.choices) }
        ensures runs { OnOk result (RunsEnd (map chunk_leaf chunks.now) (drop (length self.old.plan.choices) self.new.plan.choices)) }
        ensures metrics { IfOk result (λ m. m ≡ metrics_of (map chunk_leaf chunks.now) (drop (length self.old.plan.choices) self.new.plan.choices) m.deduped_chunks_by_global_dedup m.deduped_bytes_by_global_dedup) }
        ensures global { IfOk result (λ m. self.new.global ≡ (min (self.old.global.0 + m.deduped_chunks_by_global_dedup) (2 ^ 64 - 1), min (self.old.global.1 + m.deduped_bytes_by_global_dedup) (2 ^ 64 - 1))) }
        ensures asked { IfOk result (λ m. IsQueried I.calls I.acts (length self.old.plan.leaves == 0) (hashes_of (map chunk_leaf chunks.now)) self.old.interface self.new.interface m.deduped_chunks_by_global_dedup m.deduped_bytes_by_global_dedup) }
        ensures once { I.is_global ≡ false → IfOk result (λ m. IsQueriedOnce I.calls I.acts (length self.old.plan.leaves == 0) (hashes_of (map chunk_leaf chunks.now)) self.old.interface self.new.interface × (m.deduped_chunks_by_global_dedup ≡ 0) × (m.deduped_bytes_by_global_dedup ≡ 0)) }
        ensures queries { I.is_global ≡ false → queries_of (I.calls self.new.interface) ≤ queries_of (I.calls self.old.interface) + length chunks.now }
        ensures same { (self.new.start.value ≡ self.old.start.value) × (self.new.file_id ≡ self.old.file_id) }
        ensures settings { OnOk result (self.new.plan.settings ≡ self.old.plan.settings) }
        ensures prefix { (added : List Call) × (I.calls self.new.interface ≡ I.calls self.old.interface ++ added) }
        ensures extends { Extends I.lists I.stands I.refused I.cut_limits self.old.interface self.new.interface }
        ensures refused { IfErr result (λ e. (d : I.ErrorType) → e ≡ DedupError.Interface d → I.refused self.old.interface self.new.interface d) }
        ensures passed { OnOk result (I.failed self.new.interface ≡ I.failed self.old.interface) }
        ensures memory { IsErrOf result DedupError.OutOfMemory → I.failed self.new.interface ≡ I.failed self.old.interface }
    {
        self.whole = false;
        let from = self.plan.len();
        let (global_chunks, global_bytes) = place_batch(
            self.alloc,
            &mut self.interface,
            &mut self.plan,
            &self.start,
            self.file_id,
            chunks,
        )?;
        self.global.0 = self.global.0.saturating_add(global_chunks);
        self.global.1 = self.global.1.saturating_add(global_bytes);
        self.whole = true;
        Ok(metrics_of(
            &self.plan.leaves()[from..],
            &self.plan.choices()[from..],
            global_chunks,
            global_bytes,
        ))
    }
}
