//! Where the chunks of a batch are stored already.

ghost use Rattle.std.specs.Prelude.{◌≡◌, ◌<◌, ◌^◌, ◌++◌, List, length, false, IfErr, IfOk, IsErrOf, OnErr, OnOk};
ghost use Rattle.xet_choices.specs.Calls.{Call};
ghost use Rattle.xet_dedup_queries.specs.Asking.{AddsQueries};
ghost use Rattle.xet_dedup_queries.specs.Batch.{IsAsked, IsAskedOnce, StopsAsking};
ghost use Rattle.xet_dedup_queries.specs.Interface.{Extends};
ghost use Rattle.xet_dedup_queries.specs.Places.{ArePlaces};

use crate::interface::DeduplicationDataInterface;
use crate::passing::ask_all;
use std::alloc::Global;
use xet_base::Items;
use xet_hash::MerkleHash;
use xet_shard_format::FileDataSequenceEntry;

/// What is known of a chunk of a batch.
#[derive(Clone, Copy, PartialEq, Eq, Debug)]
pub enum Place {
    /// A run begins with it that a query found.
    Kept {
        /// The run.
        run: FileDataSequenceEntry,
        /// Whether the query answered that the run is external.
        is_external: bool,
    },
    /// A query from it found nothing.
    Missed {
        /// The number of the query's history entry.
        entry: u64,
    },
    /// A run that was found before covers it.
    Covered {
        /// The index in the batch of the run's first chunk.
        start: u64,
    },
    /// There was no query so far.
    Unasked,
}

/// The places of the chunks of a batch, and what a second pass found.
#[derive(Debug, Drop)]
pub struct Places {
    /// The place of each chunk.
    pub places: Items<Place>,
    /// The number of chunks of the runs that the second pass found.
    pub global_chunks: u64,
    /// The number of bytes of these runs.
    pub global_bytes: u64,
}

/// Why the deduplication of a file stopped.
#[derive(Debug, Drop)]
pub enum DedupError<E> {
    /// A call of the interface failed with this error.
    Interface(E),
    /// Out of memory.
    OutOfMemory,
}

/// Finds where the chunks of a batch are stored already, in one pass of queries, or in two if queries elsewhere found
/// something; in one if the interface sends no queries elsewhere. `is_first`: whether the batch begins with the first chunk
/// of its file, for which a query that found nothing is begun elsewhere, as for each eligible hash. Fails with an error of
/// the interface, after the calls up to the one that failed, or with `DedupError::OutOfMemory` before the first query. `Ok`
/// only if no call failed.
pub fn find_places<I: DeduplicationDataInterface>(
    alloc: Global,
    interface: &mut I,
    hashes: &[MerkleHash],
    is_first: bool,
) -> Result<Places, DedupError<I::ErrorType>>
    requires { length hashes.now < 2 ^ 32 }
    ensures places { IfOk result (λ r. (added : List Call) × (I.calls interface.new ≡ I.calls interface.old ++ added) × ArePlaces (I.lists interface.new) (I.stands interface.new) (I.calls interface.old) added hashes.now r.places) }
    ensures asked { IfOk result (λ r. IsAsked is_first hashes.now (I.calls interface.old) (I.calls interface.new) (I.acts interface.old) (I.acts interface.new) r.places r.global_chunks r.global_bytes) }
    ensures once { I.is_global ≡ false → IfOk result (λ r. IsAskedOnce is_first hashes.now (I.calls interface.old) (I.calls interface.new) (I.acts interface.old) (I.acts interface.new) r.places × (r.global_chunks ≡ 0) × (r.global_bytes ≡ 0)) }
    ensures stopped { OnErr result (StopsAsking I.is_global is_first hashes.now (I.calls interface.old) (I.calls interface.new) (I.acts interface.old) (I.acts interface.new)) }
    ensures extends { Extends I.lists I.stands I.refused I.cut_limits interface.old interface.new }
    ensures prefix { AddsQueries (I.calls interface.old) (I.calls interface.new) }
    ensures refused { IfErr result (λ e. (d : I.ErrorType) → e ≡ DedupError.Interface d → I.refused interface.old interface.new d) }
    ensures passed { OnOk result (I.failed interface.new ≡ I.failed interface.old) }
    ensures unchanged { IsErrOf result DedupError.OutOfMemory → interface.new ≡ interface.old }
{
    let Ok(mut places) = vec![in alloc; Place::Unasked; hashes.len()] else {
        return Err(DedupError::OutOfMemory);
    };
    match ask_all(interface, hashes, &mut places, is_first) {
        Ok(found) => Ok(Places {
            places: Items::from_vec(places),
            global_chunks: found.chunks,
            global_bytes: found.bytes,
        }),
        Err(e) => Err(DedupError::Interface(e)),
    }
}
