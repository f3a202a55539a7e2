//! `FileCleaner`: one file is cleaned as its bytes come.

ghost use Rattle.std.specs.Prelude.{◌≡◌, ◌++◌, ◌+◌, ◌≤◌, [], ℕ, List, IfErr, IfOk, IsOkUnless, OnErr, OnOk, is_ok, false, length, map, option_map, true};
ghost use Rattle.std.specs.List.{AllByRecursion};
ghost use Rattle.std.specs.Option.{ForSome};
ghost use Rattle.xet_store.specs.Interface.{IsErrorSince, Stands};
ghost use Rattle.xet_clean.specs.Planning.{IsFew, IsFinished, IsPlanned, RegistersOnly};
ghost use Rattle.xet_store.specs.Holders.{FollowsAsking, calls_of, core_at, xorb_limits, lengths_in};
ghost use Rattle.xet_clean.specs.Cleaner.{IsBatchOf, IsCleaning, IsCleaningBytes, IsCleaningSome, StopsInBatch};
ghost use Rattle.xet_clean.specs.Errors.{IsCleanerError};
ghost use Rattle.xet_clean.specs.Policies.{IfComputed};
ghost use Rattle.xet_cut.specs.Streams.{IsBlock};
ghost use Rattle.xet_dedup.specs.Deduping.{IsChunk, IsDeduped};
ghost use Rattle.xet_file_plan.specs.Kept.{max_chunks};
ghost use Rattle.xet_xorb_chunk.specs.Chunks.{chunk_leaf};

use crate::digest::{FileDigest, add_by};
use crate::errors::store_error;
use crate::policy::Sha256Policy;
use bytes::Bytes;
use std::alloc::Global;
use xet_base::Items;
use xet_dedup::{Choice, Chunker, DataAggregator, DeduplicationMetrics, FileDeduper, Finalized};
use xet_hash::{StoreError, What};
use xet_shard_format::{FileMetadataExt, Sha256};
use xet_store::{Asking, Stepping};
use xet_store_disk::XetFileInfo;
use xet_xorb_chunk::Chunk;

/// One file that is cleaned as its bytes come. The chunks that end in a piece of it are one batch of its deduplication.
pub struct FileCleaner<S: Stepping> {
    /// The deduplication of the file, over the maker of steps.
    pub deduper: FileDeduper<Asking<S>>,
    /// The chunker, with the bytes that are in no chunk yet.
    pub chunker: Chunker,
    /// The number of bytes so far.
    pub byte_count: u64,
    /// The number by which errors name the source.
    pub number: u32,
    alloc: Global,
}

/// A file that was cleaned. It is not recorded: its last chunks are in no xorb yet.
pub struct FinishedFile {
    /// The pointer record.
    pub info: XetFileInfo,
    /// What deduplication did with its chunks.
    pub metrics: DeduplicationMetrics,
    /// Why each chunk was stored or found.
    pub choices: Items<Choice>,
    /// Its last chunks, and its record, which refers to them.
    pub rest: DataAggregator,
}

impl<S: Stepping> FileCleaner<S> {
    /// Begins with a file of no bytes. The maker of steps is untouched, and is returned if memory is out. Errors name the
    /// source by `number`.
    pub fn new(
        alloc: Global,
        asking: Asking<S>,
        number: u32,
    ) -> Result<FileCleaner<S>, (Asking<S>, StoreError)>
        ensures new { IfOk result (λ c. IsCleaning (S.holder c.deduper.start.value.steps) (S.holder c.deduper.interface.steps) c.deduper.whole c.deduper.plan c.deduper.global c.chunker c.byte_count []) }
        ensures same { IfOk result (λ c. (c.deduper.interface ≡ asking) × (c.deduper.start.value ≡ asking) × (c.number ≡ number) × (c.deduper.file_id ≡ number)) }
        ensures back { IfErr result (λ e. e.0 ≡ asking) }
        ensures memory { IfErr result (λ e. e.1 ≡ StoreError.OutOfMemory) }
    {
        let limits = *asking.steps.limits();
        limits.recall_invariant();
        let chunker = match Chunker::new(alloc, &limits) {
            Ok(chunker) => chunker,
            Err(error) => return Err((asking, error)),
        };
        match FileDeduper::new(alloc, asking, u64::from(number), &limits) {
            Ok(deduper) => Ok(FileCleaner {
                deduper,
                chunker,
                byte_count: 0,
                number,
                alloc,
            }),
            Err((asking, error)) => Err((asking, store_error(error))),
        }
    }

    /// Takes the next bytes of the file. The chunks that end in them are a batch of the deduplication. `TooLarge` with the
    /// number of the source is returned only if the file has more bytes than the limits allow. After an error the
    /// file is of no use.
    pub fn add(&mut self, bytes: &[u8]) -> Result<(), StoreError>
        requires cleaning { IsCleaningSome (S.holder self.old.deduper.start.value.steps) (S.holder self.old.deduper.interface.steps) self.old.deduper.whole self.old.deduper.plan self.old.deduper.global self.old.chunker self.old.byte_count }
        ensures cleaning { (before : List ℕ) → IsCleaning (S.holder self.old.deduper.start.value.steps) (S.holder self.old.deduper.interface.steps) self.old.deduper.whole self.old.deduper.plan self.old.deduper.global self.old.chunker self.old.byte_count before
            → OnOk result (IsCleaning (S.holder self.new.deduper.start.value.steps) (S.holder self.new.deduper.interface.steps) self.new.deduper.whole self.new.deduper.plan self.new.deduper.global self.new.chunker self.new.byte_count (before ++ bytes.now)) }
        ensures same { (self.new.deduper.start.value ≡ self.old.deduper.start.value) × (self.new.number ≡ self.old.number) × (self.new.deduper.file_id ≡ self.old.deduper.file_id) }
        ensures follows { FollowsAsking (S.holder self.old.deduper.interface.steps) (S.holder self.new.deduper.interface.steps) }
        ensures few { (before : List ℕ) → IsCleaning (S.holder self.old.deduper.start.value.steps) (S.holder self.old.deduper.interface.steps) self.old.deduper.whole self.old.deduper.plan self.old.deduper.global self.old.chunker self.old.byte_count before
            → OnErr result (IsFew (S.holder self.new.deduper.start.value.steps) (S.holder self.new.deduper.interface.steps) (before ++ bytes.now)) }
        ensures own { (before rest : List ℕ) → IsCleaning (S.holder self.old.deduper.start.value.steps) (S.holder self.old.deduper.interface.steps) self.old.deduper.whole self.old.deduper.plan self.old.deduper.global self.old.chunker self.old.byte_count before
            → OnErr result (RegistersOnly (S.holder self.new.deduper.start.value.steps) (S.holder self.new.deduper.interface.steps) ((before ++ bytes.now) ++ rest)) }
        ensures refused { IfErr result (IsCleanerError self.old.number self.old.byte_count bytes.now (S.holder self.old.deduper.interface.steps) (S.holder self.new.deduper.interface.steps)) }
    {
        self.add_piece(bytes, None)
    }

    /// Takes the next bytes of the file, as `add` does. The chunks that begin in them share their buffer, and are not copied.
    pub fn add_shared(&mut self, bytes: &Bytes) -> Result<(), StoreError>
        requires cleaning { IsCleaningSome (S.holder self.old.deduper.start.value.steps) (S.holder self.old.deduper.interface.steps) self.old.deduper.whole self.old.deduper.plan self.old.deduper.global self.old.chunker self.old.byte_count }
        ensures cleaning { (before : List ℕ) → IsCleaning (S.holder self.old.deduper.start.value.steps) (S.holder self.old.deduper.interface.steps) self.old.deduper.whole self.old.deduper.plan self.old.deduper.global self.old.chunker self.old.byte_count before
            → OnOk result (IsCleaning (S.holder self.new.deduper.start.value.steps) (S.holder self.new.deduper.interface.steps) self.new.deduper.whole self.new.deduper.plan self.new.deduper.global self.new.chunker self.new.byte_count (before ++ bytes.now)) }
        ensures same { (self.new.deduper.start.value ≡ self.old.deduper.start.value) × (self.new.number ≡ self.old.number) × (self.new.deduper.file_id ≡ self.old.deduper.file_id) }
        ensures follows { FollowsAsking (S.holder self.old.deduper.interface.steps) (S.holder self.new.deduper.interface.steps) }
        ensures few { (before : List ℕ) → IsCleaning (S.holder self.old.deduper.start.value.steps) (S.holder self.old.deduper.interface.steps) self.old.deduper.whole self.old.deduper.plan self.old.deduper.global self.old.chunker self.old.byte_count before
            → OnErr result (IsFew (S.holder self.new.deduper.start.value.steps) (S.holder self.new.deduper.interface.steps) (before ++ bytes.now)) }
        ensures own { (before rest : List ℕ) → IsCleaning (S.holder self.old.deduper.start.value.steps) (S.holder self.old.deduper.interface.steps) self.old.deduper.whole self.old.deduper.plan self.old.deduper.global self.old.chunker self.old.byte_count before
            → OnErr result (RegistersOnly (S.holder self.new.deduper.start.value.steps) (S.holder self.new.deduper.interface.steps) ((before ++ bytes.now) ++ rest)) }
        ensures refused { IfErr result (IsCleanerError self.old.number self.old.byte_count bytes.now (S.holder self.old.deduper.interface.steps) (S.holder self.new.deduper.interface.steps)) }
    {
        self.add_piece(bytes.as_slice(), Some(bytes))
    }

    /// Takes the next bytes of the file, which are those of `shared` if there is such a buffer.
    fn add_piece(&mut self, bytes: &[u8], shared: Option<&Bytes>) -> Result<(), StoreError>
        requires shared { ForSome shared (λ whole. whole.now ≡ bytes.now) }
        requires cleaning { IsCleaningSome (S.holder self.old.deduper.start.value.steps) (S.holder self.old.deduper.interface.steps) self.old.deduper.whole self.old.deduper.plan self.old.deduper.global self.old.chunker self.old.byte_count }
        ensures cleaning { (before : List ℕ) → IsCleaning (S.holder self.old.deduper.start.value.steps) (S.holder self.old.deduper.interface.steps) self.old.deduper.whole self.old.deduper.plan self.old.deduper.global self.old.chunker self.old.byte_count before
            → OnOk result (IsCleaning (S.holder self.new.deduper.start.value.steps) (S.holder self.new.deduper.interface.steps) self.new.deduper.whole self.new.deduper.plan self.new.deduper.global self.new.chunker self.new.byte_count (before ++ bytes.now)) }
        ensures same { (self.new.deduper.start.value ≡ self.old.deduper.start.value) × (self.new.number ≡ self.old.number) × (self.new.deduper.file_id ≡ self.old.deduper.file_id) }
        ensures follows { FollowsAsking (S.holder self.old.deduper.interface.steps) (S.holder self.new.deduper.interface.steps) }
        ensures few { (before : List ℕ) → IsCleaning (S.holder self.old.deduper.start.value.steps) (S.holder self.old.deduper.interface.steps) self.old.deduper.whole self.old.deduper.plan self.old.deduper.global self.old.chunker self.old.byte_count before
            → OnErr result (IsFew (S.holder self.new.deduper.start.value.steps) (S.holder self.new.deduper.interface.steps) (before ++ bytes.now)) }
        ensures own { (before rest : List ℕ) → IsCleaning (S.holder self.old.deduper.start.value.steps) (S.holder self.old.deduper.interface.steps) self.old.deduper.whole self.old.deduper.plan self.old.deduper.global self.old.chunker self.old.byte_count before
            → OnErr result (RegistersOnly (S.holder self.new.deduper.start.value.steps) (S.holder self.new.deduper.interface.steps) ((before ++ bytes.now) ++ rest)) }
        ensures refused { IfErr result (IsCleanerError self.old.number self.old.byte_count bytes.now (S.holder self.old.deduper.interface.steps) (S.holder self.new.deduper.interface.steps)) }
    {
        let most = self.deduper.interface.steps.limits().max_source_bytes();
        if bytes.len() as u64 > most - self.byte_count {
            return Err(StoreError::TooLarge(What::Source(self.number)));
        }
        let chunks = next_chunks(&mut self.chunker, bytes, shared)?;
        self.byte_count += bytes.len() as u64;
        place(&mut self.deduper, &chunks)
    }

    /// Gives the chunks that wait for their xorb since the last call memory of their own, if they take less than half of a buffer
    /// of `len` bytes, which they may share: so the buffer can be freed. The file is unchanged.
    pub fn release(&mut self, len: usize)
        ensures { self.new ≡ self.old }
    {
        self.deduper.plan.release(self.alloc, len);
    }

    /// Ends the file, which is to be recorded with this SHA-256, or without one. The maker of steps is returned in either case,
    /// as the last step left it.
    pub fn finish(self, sha256: Option<Sha256>) -> (Asking<S>, Result<FinishedFile, StoreError>)
        requires cleaning { IsCleaningSome (S.holder self.deduper.start.value.steps) (S.holder self.deduper.interface.steps) self.deduper.whole self.deduper.plan self.deduper.global self.chunker self.byte_count }
        ensures finished { (bytes : List ℕ) → IsCleaning (S.holder self.deduper.start.value.steps) (S.holder self.deduper.interface.steps) self.deduper.whole self.deduper.plan self.deduper.global self.chunker self.byte_count bytes
            → IfOk result.1 (λ f. IsFinished (S.holder self.deduper.start.value.steps) (S.holder result.0.steps) self.deduper.file_id sha256 bytes f.info f.metrics f.choices f.rest) }
        ensures few { (bytes : List ℕ) → IsCleaning (S.holder self.deduper.start.value.steps) (S.holder self.deduper.interface.steps) self.deduper.whole self.deduper.plan self.deduper.global self.chunker self.byte_count bytes
            → OnErr result.1 (IsFew (S.holder self.deduper.start.value.steps) (S.holder result.0.steps) bytes) }
        ensures own { (bytes : List ℕ) → IsCleaning (S.holder self.deduper.start.value.steps) (S.holder self.deduper.interface.steps) self.deduper.whole self.deduper.plan self.deduper.global self.chunker self.byte_count bytes
            → OnErr result.1 (RegistersOnly (S.holder self.deduper.start.value.steps) (S.holder result.0.steps) bytes) }
        ensures follows { FollowsAsking (S.holder self.deduper.interface.steps) (S.holder result.0.steps) }
        ensures refused { IfErr result.1 (IsErrorSince (S.holder self.deduper.interface.steps) (S.holder result.0.steps)) }
    {
        let FileCleaner {
            mut deduper,
            mut chunker,
            byte_count,
            number: _,
            alloc: _,
        } = self;
        match place_last(&mut deduper, &mut chunker) {
            Ok(()) => finished(deduper, byte_count, sha256),
            Err(error) => (deduper.into_interface(), Err(error)),
        }
    }

    /// The maker of steps, as the last step left it.
    pub fn into_asking(self) -> Asking<S>
        ensures { result ≡ self.deduper.interface }
    {
        let FileCleaner {
            deduper,
            chunker: _,
            byte_count: _,
            number: _,
            alloc: _,
        } = self;
        deduper.into_interface()
    }
}

/// Takes a block into the chunks of a file, and into its SHA-256 if that is computed. The chunks share the block's buffer; if
/// those that wait for their xorb are less than half of it they are copied, so that it can be freed. After an error neither is of
/// use.
pub fn add_block<S: Stepping, H: FileDigest>(
    cleaner: &mut FileCleaner<S>,
    digest: &mut H,
    policy: &Sha256Policy,
    block: Bytes,
) -> Result<(), StoreError>
    requires cleaning { IsCleaningSome (S.holder cleaner.old.deduper.start.value.steps) (S.holder cleaner.old.deduper.interface.steps) cleaner.old.deduper.whole cleaner.old.deduper.plan cleaner.old.deduper.global cleaner.old.chunker cleaner.old.byte_count }
    ensures cleaning { (before : List ℕ) → IsCleaning (S.holder cleaner.old.deduper.start.value.steps) (S.holder cleaner.old.deduper.interface.steps) cleaner.old.deduper.whole cleaner.old.deduper.plan cleaner.old.deduper.global cleaner.old.chunker cleaner.old.byte_count before
        → OnOk result (IsCleaning (S.holder cleaner.new.deduper.start.value.steps) (S.holder cleaner.new.deduper.interface.steps) cleaner.new.deduper.whole cleaner.new.deduper.plan cleaner.new.deduper.global cleaner.new.chunker cleaner.new.byte_count (before ++ block)) }
    ensures hashed { (before : List ℕ) → IfComputed policy.now (H.has digest.old before) → IfComputed policy.now (H.has digest.new (before ++ block)) }
    ensures same { (cleaner.new.deduper.start.value ≡ cleaner.old.deduper.start.value) × (cleaner.new.number ≡ cleaner.old.number) × (cleaner.new.deduper.file_id ≡ cleaner.old.deduper.file_id) }
    ensures follows { FollowsAsking (S.holder cleaner.old.deduper.interface.steps) (S.holder cleaner.new.deduper.interface.steps) }
    ensures few { (before : List ℕ) → IsCleaning (S.holder cleaner.old.deduper.start.value.steps) (S.holder cleaner.old.deduper.interface.steps) cleaner.old.deduper.whole cleaner.old.deduper.plan cleaner.old.deduper.global cleaner.old.chunker cleaner.old.byte_count before
        → OnErr result (IsFew (S.holder cleaner.new.deduper.start.value.steps) (S.holder cleaner.new.deduper.interface.steps) (before ++ block)) }
    ensures own { (before rest : List ℕ) → IsCleaning (S.holder cleaner.old.deduper.start.value.steps) (S.holder cleaner.old.deduper.interface.steps) cleaner.old.deduper.whole cleaner.old.deduper.plan cleaner.old.deduper.global cleaner.old.chunker cleaner.old.byte_count before
        → OnErr result (RegistersOnly (S.holder cleaner.new.deduper.start.value.steps) (S.holder cleaner.new.deduper.interface.steps) ((before ++ block) ++ rest)) }
    ensures refused { IfErr result (IsCleanerError cleaner.old.number cleaner.old.byte_count block (S.holder cleaner.old.deduper.interface.steps) (S.holder cleaner.new.deduper.interface.steps)) }
{
    add_by(digest, policy, &block);
    let added = cleaner.add_shared(&block);
    cleaner.release(block.len());
    added
}

/// The chunks that end in the next bytes, which are those of `shared` if there is such a buffer.
fn next_chunks(
    chunker: &mut Chunker,
    bytes: &[u8],
    shared: Option<&Bytes>,
) -> Result<Vec<Chunk>, StoreError>
    requires shared { ForSome shared (λ whole. whole.now ≡ bytes.now) }
    ensures block { IfOk result (λ chunks. IsBlock chunker.old.settings (chunker.old.buffered ++ bytes.now) false chunks.items chunker.new.buffered) }
    ensures settings { chunker.new.settings ≡ chunker.old.settings }
    ensures memory { IsOkUnless result StoreError.OutOfMemory }
{
    match shared {
        Some(whole) => chunker.next_block_bytes(whole, false),
        None => chunker.next_block(bytes, false),
    }
}

/// Places the chunks of a batch.
fn place<S: Stepping>(
    deduper: &mut FileDeduper<Asking<S>>,
    chunks: &[Chunk],
) -> Result<(), StoreError>
    requires whole { deduper.old.whole ≡ true }
    requires deduped { IsDeduped (lengths_in (core_at (S.holder deduper.old.interface.steps))) (Stands (S.holder deduper.old.interface.steps)) (calls_of (S.holder deduper.old.start.value.steps)) (calls_of (S.holder deduper.old.interface.steps)) (xorb_limits (S.holder deduper.old.interface.steps).limits) deduper.old.plan }
    requires chunks { AllByRecursion (IsChunk deduper.old.plan.settings) chunks.now }
    requires few { length deduper.old.plan.leaves + length chunks.now ≤ max_chunks }
    ensures whole { deduper.new.whole ≡ is_ok result }
    ensures deduped { OnOk result (IsDeduped (lengths_in (core_at (S.holder deduper.new.interface.steps))) (Stands (S.holder deduper.new.interface.steps)) (calls_of (S.holder deduper.new.start.value.steps)) (calls_of (S.holder deduper.new.interface.steps)) (xorb_limits (S.holder deduper.new.interface.steps).limits) deduper.new.plan) }
    ensures leaves { OnOk result (deduper.new.plan.leaves ≡ deduper.old.plan.leaves ++ map chunk_leaf chunks.now) }
    ensures settings { OnOk result (deduper.new.plan.settings ≡ deduper.old.plan.settings) }
    ensures global { deduper.old.global ≡ (0, 0) → OnOk result (deduper.new.global ≡ (0, 0)) }
    ensures same { (deduper.new.start.value ≡ deduper.old.start.value) × (deduper.new.file_id ≡ deduper.old.file_id) }
    ensures follows { FollowsAsking (S.holder deduper.old.interface.steps) (S.holder deduper.new.interface.steps) }
    ensures passed { OnOk result ((S.holder deduper.new.interface.steps).stopped ≡ (S.holder deduper.old.interface.steps).stopped) }
    ensures placed { OnOk result (IsBatchOf (map chunk_leaf chunks.now) (map chunk_leaf deduper.old.plan.block) (map chunk_leaf deduper.new.plan.block) (S.holder deduper.old.interface.steps) (S.holder deduper.new.interface.steps)) }
    ensures stopped { OnErr result (StopsInBatch (map chunk_leaf chunks.now) (map chunk_leaf deduper.old.plan.block) (S.holder deduper.old.interface.steps) (S.holder deduper.new.interface.steps)) }
    ensures refused { IfErr result (IsErrorSince (S.holder deduper.old.interface.steps) (S.holder deduper.new.interface.steps)) }
{
    deduper.plan.recall_invariant();
    if chunks.is_empty() {
        return Ok(());
    }
    match deduper.process_chunks(chunks) {
        Ok(_) => Ok(()),
        Err(error) => Err(store_error(error)),
    }
}

/// Places the bytes that are in no chunk yet.
fn place_last<S: Stepping>(
    deduper: &mut FileDeduper<Asking<S>>,
    chunker: &mut Chunker,
) -> Result<(), StoreError>
    requires cleaning { (bytes : List ℕ) × IsCleaningBytes (S.holder deduper.old.start.value.steps) (S.holder deduper.old.interface.steps) deduper.old.whole deduper.old.plan deduper.old.global chunker.old bytes }
    ensures planned { (bytes : List ℕ) → IsCleaningBytes (S.holder deduper.old.start.value.steps) (S.holder deduper.old.interface.steps) deduper.old.whole deduper.old.plan deduper.old.global chunker.old bytes
        → OnOk result (IsPlanned (S.holder deduper.new.start.value.steps) (S.holder deduper.new.interface.steps) bytes deduper.new.plan) }
    ensures few { (bytes : List ℕ) → IsCleaningBytes (S.holder deduper.old.start.value.steps) (S.holder deduper.old.interface.steps) deduper.old.whole deduper.old.plan deduper.old.global chunker.old bytes
        → OnErr result (IsFew (S.holder deduper.new.start.value.steps) (S.holder deduper.new.interface.steps) bytes) }
    ensures own { (bytes : List ℕ) → IsCleaningBytes (S.holder deduper.old.start.value.steps) (S.holder deduper.old.interface.steps) deduper.old.whole deduper.old.plan deduper.old.global chunker.old bytes
        → OnErr result (RegistersOnly (S.holder deduper.new.start.value.steps) (S.holder deduper.new.interface.steps) bytes) }
    ensures whole { OnOk result ((deduper.new.whole ≡ true) × (deduper.new.global ≡ (0, 0))) }
    ensures same { (deduper.new.start.value ≡ deduper.old.start.value) × (deduper.new.file_id ≡ deduper.old.file_id) }
    ensures follows { FollowsAsking (S.holder deduper.old.interface.steps) (S.holder deduper.new.interface.steps) }
    ensures refused { IfErr result (IsErrorSince (S.holder deduper.old.interface.steps) (S.holder deduper.new.interface.steps)) }
{
    let chunks = chunker.next_block(&[], true)?;
    place(deduper, &chunks)
}

/// The metadata with this SHA-256, or none.
fn metadata(sha256: &Option<Sha256>) -> Option<FileMetadataExt>
    ensures { option_map (λ m. m.sha256) result ≡ sha256.now }
{
    match sha256 {
        Some(sha256) => Some(FileMetadataExt::new(*sha256)),
        None => None,
    }
}

/// Ends the deduplication of a file of so many bytes, with this SHA-256, or without one.
fn finished<S: Stepping>(
    deduper: FileDeduper<Asking<S>>,
    file_size: u64,
    sha256: Option<Sha256>,
) -> (Asking<S>, Result<FinishedFile, StoreError>)
    requires whole { (deduper.whole ≡ true) × (deduper.global ≡ (0, 0)) }
    requires planned { (bytes : List ℕ) × (file_size ≡ length bytes) × IsPlanned (S.holder deduper.start.value.steps) (S.holder deduper.interface.steps) bytes deduper.plan }
    ensures finished { (bytes : List ℕ) → file_size ≡ length bytes → IsPlanned (S.holder deduper.start.value.steps) (S.holder deduper.interface.steps) bytes deduper.plan
        → IfOk result.1 (λ f. IsFinished (S.holder deduper.start.value.steps) (S.holder result.0.steps) deduper.file_id sha256 bytes f.info f.metrics f.choices f.rest) }
    ensures same { result.0 ≡ deduper.interface }
    ensures memory { IsOkUnless result.1 StoreError.OutOfMemory }
{
    match deduper.finalize(metadata(&sha256)) {
        Ok(file) => {
            let Finalized {
                interface,
                hash,
                rest,
                metrics,
                choices,
            } = file;
            let info = XetFileInfo {
                hash,
                file_size,
                sha256,
            };
            (
                interface,
                Ok(FinishedFile {
                    info,
                    metrics,
                    choices,
                    rest,
                }),
            )
        }
        Err((asking, error)) => (asking, Err(store_error(error))),
    }
}
