//! The end of the deduplication of a file.

ghost use Rattle.std.specs.Prelude.{◌≡◌, IfErr, IfOk, true};
ghost use Rattle.std.specs.Option.{option_map};
ghost use Rattle.xet_aggregate.specs.Aggregate.{IsAggregate, single};
ghost use Rattle.xet_dedup.specs.Deduping.{IsDeduped, metrics_of, open_indices};
ghost use Rattle.xet_dedup.specs.Records.{file_record};
ghost use Rattle.xet_file_plan.specs.Kept.{IsBlockWithin};
ghost use Rattle.xet_hash.specs.Merkle.{file_hash};

use crate::deduper::FileDeduper;
use crate::ending::finished;
use crate::metrics::metrics_of;
use xet_aggregate::{DataAggregator, DeduplicationMetrics};
use xet_base::Items;
use xet_choices::Choice;
use xet_dedup_queries::{DedupError, DeduplicationDataInterface};
use xet_hash::MerkleHash;
use xet_shard_format::FileMetadataExt;

/// A file whose deduplication has ended.
pub struct Finalized<I: DeduplicationDataInterface> {
    /// The store, as the last call left it.
    pub interface: I,
    /// File hash.
    pub hash: MerkleHash,
    /// The chunks that are in no xorb yet, and the file's record, which refers to them.
    pub rest: DataAggregator,
    /// The metrics of all batches.
    pub metrics: DeduplicationMetrics,
    /// Why each chunk was stored or found.
    pub choices: Items<Choice>,
}

impl<I: DeduplicationDataInterface> FileDeduper<I> {
    /// Whether each batch so far was placed. Allocates nothing.
    pub fn is_whole(&self) -> bool
        ensures { result ≡ self.now.whole }
    {
        self.whole
    }

    /// Ends the file: its hash and its record, in which segments of the open block are open; the open block, which keeps to
    /// the limits of a xorb; the metrics of all batches, and why each chunk was stored or found. `metadata_ext` goes into the
    /// record. The only error is `OutOfMemory`, with the interface, of which no call is made.
    pub fn finalize(
        self,
        metadata_ext: Option<FileMetadataExt>,
    ) -> Result<Finalized<I>, (I, DedupError<I::ErrorType>)>
        requires whole { self.whole ≡ true }
        requires plan { IsDeduped (I.lists self.interface) (I.stands self.interface) (I.calls self.start.value) (I.calls self.interface) (I.cut_limits self.interface) self.plan }
        ensures interface { IfOk result (λ f. f.interface ≡ self.interface) }
        ensures hash { IfOk result (λ f. f.hash ≡ file_hash self.plan.leaves) }
        ensures rest { IfOk result (λ f. f.rest ≡ single self.plan.block (file_record self.plan.leaves self.plan.segments (option_map (λ m. m.sha256) metadata_ext)) (open_indices self.plan.segments) self.file_id) }
        ensures aggregate { IfOk result (λ f. IsAggregate f.rest) }
        ensures within { IfOk result (λ f. IsBlockWithin self.plan.settings f.rest.chunks) }
        ensures choices { IfOk result (λ f. f.choices ≡ self.plan.choices) }
        ensures metrics { IfOk result (λ f. f.metrics ≡ metrics_of self.plan.leaves self.plan.choices self.global.0 self.global.1) }
        ensures back { IfErr result (λ e. e.0 ≡ self.interface) }
        ensures memory { IfErr result (λ e. e.1 ≡ DedupError.OutOfMemory) }
    {
        let FileDeduper {
            interface,
            plan,
            start: _,
            whole: _,
            file_id,
            global,
            alloc,
        } = self;
        plan.recall_invariant();
        let parts = plan.into_parts();
        let metrics = metrics_of(&parts.leaves, &parts.choices, global.0, global.1);
        match finished(alloc, parts, metadata_ext, file_id) {
            Ok((hash, rest, choices)) => Ok(Finalized {
                interface,
                hash,
                rest,
                metrics,
                choices,
            }),
            Err(_) => Err((interface, DedupError::OutOfMemory)),
        }
    }

    /// The interface, as its last call left it. Allocates nothing.
    pub fn into_interface(self) -> I
        ensures { result ≡ self.interface }
    {
        let FileDeduper {
            interface,
            plan: _,
            start: _,
            whole: _,
            file_id: _,
            global: _,
            alloc: _,
        } = self;
        interface
    }
}
