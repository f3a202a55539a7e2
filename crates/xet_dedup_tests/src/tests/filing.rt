//! The deduplication of one file against a store in memory.

ghost use Rattle.std.specs.Prelude.{◌≡◌, ◌<◌, IfOk, OnOk, true};
ghost use Rattle.std.specs.List.{AllByRecursion};
ghost use Rattle.xet_aggregate.specs.Aggregate.{IsAggregate};
ghost use Rattle.xet_cut.specs.declared.limits.LimitSettings.{LimitSettings};
ghost use Rattle.xet_dedup.specs.Deduping.{IsChunk};
ghost use Rattle.xet_dedup_tests.specs.Filing.{IsFiling};

use crate::errors::TestError;
use crate::list_store::ListStore;
use std::alloc::Global;
use xet_aggregate::DeduplicationMetrics;
use xet_cut::{Chunker, Limits};
use xet_dedup::{DedupError, FileDeduper, Finalized};
use xet_hash::{StoreError, compute_data_hash};
use xet_shard_format::FileMetadataExt;
use xet_xorb_chunk::Chunk;

/// The maximum number of chunks of a file.
const MAX_CHUNKS: usize = 1 << 30;

/// A file whose deduplication has ended, and the metrics of each batch.
pub struct Filed {
    pub file: Finalized<ListStore>,
    pub batches: Vec<DeduplicationMetrics>,
}

impl Filed {
    /// The store, as the deduplication left it.
    pub fn into_store(self) -> ListStore {
        let Filed { file, batches: _ } = self;
        let Finalized {
            interface,
            hash: _,
            rest: _,
            metrics: _,
            choices: _,
        } = file;
        interface
    }
}

/// A file whose deduplication failed: the store, whether all batches were placed, and the error.
#[derive(Drop)]
pub struct Unfiled {
    pub store: ListStore,
    pub is_whole: bool,
    pub error: DedupError<TestError>,
}

/// Deduplicates a file. Its chunks come in batches of so many. A deduplication that fails begins no other batch.
pub fn deduplicate(
    alloc: Global,
    store: ListStore,
    limits: &Limits,
    file_id: u64,
    chunks: &[Chunk],
    batch: usize,
) -> Result<Filed, Unfiled>
    requires { 0 < batch }
    ensures { IfOk result (λ filed. IsAggregate filed.file.rest) }
{
    deduplicate_with(alloc, store, limits, file_id, chunks, batch, None)
}

/// Deduplicates a file with this metadata, if any, as `deduplicate` does.
pub fn deduplicate_with(
    alloc: Global,
    store: ListStore,
    limits: &Limits,
    file_id: u64,
    chunks: &[Chunk],
    batch: usize,
    metadata_ext: Option<FileMetadataExt>,
) -> Result<Filed, Unfiled>
    requires { 0 < batch }
    ensures { IfOk result (λ filed. IsAggregate filed.file.rest) }
{
    let mut store = store;
    store.cut_limits = (limits.cut_bytes(), limits.cut_chunks());
    match FileDeduper::new(alloc, store, file_id, limits) {
        Ok(mut deduper) => {
            let placed = place_all(alloc, &mut deduper, limits, chunks, batch);
            ended(deduper, placed, metadata_ext)
        }
        Err((store, error)) => Err(Unfiled {
            store,
            is_whole: true,
            error,
        }),
    }
}

/// Deduplicates the file of a stream that comes in pieces of this length. The chunks that end in a piece are a batch.
pub fn deduplicate_stream(
    alloc: Global,
    store: ListStore,
    limits: &Limits,
    file_id: u64,
    bytes: &[u8],
    piece: usize,
) -> Result<Filed, Unfiled>
    requires { 0 < piece }
{
    let mut store = store;
    store.cut_limits = (limits.cut_bytes(), limits.cut_chunks());
    match FileDeduper::new(alloc, store, file_id, limits) {
        Ok(mut deduper) => {
            let placed = place_stream(alloc, &mut deduper, limits, bytes, piece);
            ended(deduper, placed, None)
        }
        Err((store, error)) => Err(Unfiled {
            store,
            is_whole: true,
            error,
        }),
    }
}

/// Ends the file with this metadata, if any, if all batches were placed.
fn ended(
    deduper: FileDeduper<ListStore>,
    placed: Result<Vec<DeduplicationMetrics>, DedupError<TestError>>,
    metadata_ext: Option<FileMetadataExt>,
) -> Result<Filed, Unfiled>
    requires { OnOk placed ((settings : LimitSettings) × IsFiling settings deduper.whole deduper.start.value deduper.interface deduper.plan) }
    ensures { IfOk result (λ filed. IsAggregate filed.file.rest) }
{
    match placed {
        Ok(batches) => match deduper.finalize(metadata_ext) {
            Ok(file) => Ok(Filed { file, batches }),
            Err((store, error)) => Err(Unfiled {
                store,
                is_whole: true,
                error,
            }),
        },
        Err(error) => {
            let is_whole = deduper.is_whole();
            Err(Unfiled {
                store: deduper.into_interface(),
                is_whole,
                error,
            })
        }
    }
}

/// Places chunks in batches of so many.
fn place_all(
    alloc: Global,
    deduper: &mut FileDeduper<ListStore>,
    limits: &Limits,
    chunks: &[Chunk],
    batch: usize,
) -> Result<Vec<DeduplicationMetrics>, DedupError<TestError>>
    requires filing { IsFiling limits.now deduper.old.whole deduper.old.start.value deduper.old.interface deduper.old.plan }
    requires some { 0 < batch }
    ensures filing { OnOk result (IsFiling limits.now deduper.new.whole deduper.new.start.value deduper.new.interface deduper.new.plan) }
{
    let mut batches = Vec::new(alloc);
    for part in chunks.chunks(batch) {
        let metrics = place(deduper, limits, part)?;
        if batches.push(metrics).is_err() {
            return Err(DedupError::OutOfMemory);
        }
    }
    Ok(batches)
}

/// Places the chunks of a stream that comes in pieces of this length.
fn place_stream(
    alloc: Global,
    deduper: &mut FileDeduper<ListStore>,
    limits: &Limits,
    bytes: &[u8],
    piece: usize,
) -> Result<Vec<DeduplicationMetrics>, DedupError<TestError>>
    requires filing { IsFiling limits.now deduper.old.whole deduper.old.start.value deduper.old.interface deduper.old.plan }
    requires some { 0 < piece }
    ensures filing { OnOk result (IsFiling limits.now deduper.new.whole deduper.new.start.value deduper.new.interface deduper.new.plan) }
{
    let mut chunker = match Chunker::new(alloc, limits) {
        Ok(chunker) => chunker,
        Err(_) => return Err(DedupError::OutOfMemory),
    };
    let mut batches = Vec::new(alloc);
    for part in bytes.chunks(piece) {
        place_piece(
            deduper,
            limits,
            chunker.next_block(part, false),
            &mut batches,
        )?;
    }
    place_piece(deduper, limits, chunker.next_block(&[], true), &mut batches)?;
    Ok(batches)
}

/// Places the chunks that end in a piece, and adds their metrics.
fn place_piece(
    deduper: &mut FileDeduper<ListStore>,
    limits: &Limits,
    chunks: Result<Vec<Chunk>, StoreError>,
    batches: &mut Vec<DeduplicationMetrics>,
) -> Result<(), DedupError<TestError>>
    requires filing { IsFiling limits.now deduper.old.whole deduper.old.start.value deduper.old.interface deduper.old.plan }
    ensures filing { OnOk result (IsFiling limits.now deduper.new.whole deduper.new.start.value deduper.new.interface deduper.new.plan) }
{
    let chunks = match chunks {
        Ok(chunks) => chunks,
        Err(_) => return Err(DedupError::OutOfMemory),
    };
    let metrics = place(deduper, limits, &chunks)?;
    match batches.push(metrics) {
        Ok(()) => Ok(()),
        Err(_) => Err(DedupError::OutOfMemory),
    }
}

/// Places the chunks of a batch. They must be chunks by these limits.
pub fn place(
    deduper: &mut FileDeduper<ListStore>,
    limits: &Limits,
    batch: &[Chunk],
) -> Result<DeduplicationMetrics, DedupError<TestError>>
    requires filing { IsFiling limits.now deduper.old.whole deduper.old.start.value deduper.old.interface deduper.old.plan }
    ensures filing { OnOk result (IsFiling limits.now deduper.new.whole deduper.new.start.value deduper.new.interface deduper.new.plan) }
{
    if batch.len() > MAX_CHUNKS - deduper.plan.len() || !are_chunks(limits, batch) {
        return Err(DedupError::Interface(TestError::Unexpected));
    }
    deduper.process_chunks(batch)
}

/// Whether each chunk has the hash of its bytes, and a length that the limits allow.
fn are_chunks(limits: &Limits, chunks: &[Chunk]) -> bool
    ensures { result ≡ true → AllByRecursion (IsChunk limits.now) chunks.now }
{
    for chunk in chunks {
        if !is_chunk(limits, chunk) {
            return false;
        }
    }
    true
}

/// Whether a chunk has the hash of its bytes, and a length that the limits allow.
fn is_chunk(limits: &Limits, chunk: &Chunk) -> bool
    ensures { result ≡ true → IsChunk limits.now chunk.now }
{
    chunk.hash == compute_data_hash(chunk.bytes.as_slice())
        && chunk.bytes.len() > 0
        && chunk.bytes.len() <= limits.maximum_chunk() as usize
}
