//! `DataAggregator`.

ghost use Rattle.std.specs.Prelude.{◌≡◌, ◌+◌, ◌<◌, ◌≤◌, ◌^◌, ◌↔◌, ◌++◌, [], ℕ, IfOk, IsOkUnless, IsTrue, OnErr, OnOk, length, map, vec_capacity, vec_len};
ghost use Rattle.std.specs.List.{AllByRecursion};
ghost use Rattle.xet_xorb_chunk.specs.Chunks.{bytes_of_chunk, total};
ghost use Rattle.xet_xorb.specs.Raw.{ArePartsOfXorb, IsRaw, raw_of};
ghost use Rattle.xet_aggregate.specs.Aggregate.{Aggregate, IsAggregate, empty, finished_file, first_boundary, fits, merged, shifted_file, single};
ghost use Rattle.xet_aggregate.specs.internal.Shifting.{CanShift};

use crate::segments::{filled_record, open_bytes, shift_record};
use std::alloc::Global;
use std::marker::Model;
use xet_base::Items;
use xet_cut::Limits;
use xet_hash::{MerkleHash, StoreError};
use xet_shard_format::MDBFileInfo;
use xet_xorb::RawXorbData;
use xet_xorb_chunk::Chunk;

/// A file that waits for its xorb: its record, the indices of the record's open segments, and its id. The indices are
/// only passed on: which segments are open is read off the record.
pub type PendingFile = (MDBFileInfo, Items<usize>, u64);

/// The chunks and the records of files that share a xorb, until it is full. A segment of a record is open if its xorb
/// hash is the sentinel: its chunks are in the aggregate, which has no hash yet. Contracts see an `Aggregate`.
#[derive(Debug, Drop)]
pub struct DataAggregator {
    /// The chunks of the open segments.
    chunks: Vec<Chunk>,
    /// The number of bytes of `chunks`.
    bytes: usize,
    /// The files that wait for the xorb.
    files: Vec<PendingFile>,
    /// The indices of the chunks with which files begin.
    boundaries: Vec<usize>,
}

impl Model for DataAggregator {
    ghost use Rattle.std.specs.Prelude.{◌≡◌, ◌<◌, ◌^◌};
    ghost use Rattle.xet_xorb_chunk.specs.Chunks.{total};
    ghost use Rattle.xet_aggregate.specs.Aggregate.{Aggregate};

    ghost Value = { Aggregate };

    ghost view = { λ a. record { chunks = a.chunks.items; files = a.files.items; boundaries = a.boundaries.items } };

    ghost invariant = { λ a. (a.bytes ≡ total a.chunks.items) × (a.bytes < 2 ^ 63) };
}

impl DataAggregator {
    /// No chunks and no files. Does not allocate.
    pub fn default(alloc: Global) -> DataAggregator
        ensures { result ≡ empty }
    {
        DataAggregator {
            chunks: Vec::new(alloc),
            bytes: 0,
            files: Vec::new(alloc),
            boundaries: Vec::new(alloc),
        }
    }

    /// One file, with the chunks of its open segments: those at the indices `open_segments`. It begins with the first
    /// chunk, if there is one. The caller ensures that the chunks have fewer than 2^63 bytes together. The only error
    /// is `OutOfMemory`.
    pub fn new(
        alloc: Global,
        chunks: Vec<Chunk>,
        file: MDBFileInfo,
        open_segments: Vec<usize>,
        file_id: u64,
    ) -> Result<DataAggregator, StoreError>
        requires { total chunks.items < 2 ^ 63 }
        ensures new { IfOk result (λ a. a ≡ single chunks.items file open_segments.items file_id) }
        ensures memory { IsOkUnless result StoreError.OutOfMemory }
    {
        let bytes = bytes_of(&chunks);
        let boundaries = first_boundary(alloc, &chunks)?;
        let mut files = Vec::with_capacity(alloc, 1)?;
        files.push_reserved((file, Items::from_vec(open_segments), file_id));
        Ok(DataAggregator {
            chunks,
            bytes,
            files,
            boundaries,
        })
    }

    /// The chunks of the open segments.
    pub fn chunks(&self) -> &[Chunk]
        ensures { result.now ≡ self.now.chunks }
    {
        &self.chunks
    }

    /// The files that wait for the xorb.
    pub fn pending_file_info(&self) -> &[PendingFile]
        ensures { result.now ≡ self.now.files }
    {
        &self.files
    }

    /// The indices of the chunks with which files begin.
    pub fn file_boundaries(&self) -> &[usize]
        ensures { result.now ≡ self.now.boundaries }
    {
        &self.boundaries
    }

    /// Whether there is no chunk and no file.
    pub fn is_empty(&self) -> bool
        ensures { IsTrue result ↔ ((self.now.chunks ≡ []) × (self.now.files ≡ [])) }
    {
        self.chunks.is_empty() && self.files.is_empty()
    }

    /// Number of chunks.
    pub fn num_chunks(&self) -> usize
        ensures value { result ≡ length self.now.chunks }
        ensures bound { result < 2 ^ 63 }
    {
        self.chunks.len()
    }

    /// Number of bytes of the chunks.
    pub fn num_bytes(&self) -> usize
        ensures value { result ≡ total self.now.chunks }
        ensures bound { result < 2 ^ 63 }
    {
        self.bytes
    }

    /// Whether the chunks of both are within the limits of a xorb. Does not allocate.
    pub fn fits(&self, other: &DataAggregator, limits: &Limits) -> bool
        ensures { result ≡ fits limits.now self.now other.now }
    {
        self.num_bytes() + other.num_bytes() <= limits.cut_bytes() as usize
            && self.num_chunks() + other.num_chunks() <= limits.cut_chunks() as usize
    }

    /// Adds the chunks and files of `other` after those that are here. The caller ensures that its open segments are
    /// runs of its chunks, and that both have fewer than 2^32 chunks and fewer than 2^63 bytes together. After an
    /// error, which is `OutOfMemory`, this aggregate is unchanged.
    pub fn merge_in(&mut self, other: DataAggregator) -> Result<(), StoreError>
        requires other { IsAggregate other }
        requires count { length self.old.chunks + length other.chunks < 2 ^ 32 }
        requires bytes { total self.old.chunks + total other.chunks < 2 ^ 63 }
        ensures merged { OnOk result (self.new ≡ merged self.old other) }
        ensures kept { OnErr result (self.new ≡ self.old) }
        ensures memory { IsOkUnless result StoreError.OutOfMemory }
    {
        let DataAggregator {
            chunks,
            bytes,
            mut files,
            boundaries,
        } = other;
        self.chunks.reserve(chunks.len())?;
        self.files.reserve(files.len())?;
        self.boundaries.reserve(boundaries.len())?;
        let count = self.chunks.len();
        let alloc = *self.chunks.allocator();
        shift_files(alloc, &mut files, count as u32);
        append(&mut self.files, files);
        push_shifted(&mut self.boundaries, &boundaries, count);
        append(&mut self.chunks, chunks);
        self.bytes += bytes;
        Ok(())
    }

    /// The xorb of the chunks; and for each file, in order, its id, its record with the xorb hash in the open
    /// segments, and the number of bytes of these segments. The caller ensures that the chunks are within the limits
    /// of a xorb that is built. The only error is `OutOfMemory`, also if the open segments of a file have 2^64 bytes
    /// or more.
    pub fn finalize(self) -> Result<(RawXorbData, Vec<(u64, MDBFileInfo, u64)>), StoreError>
        requires { ArePartsOfXorb (map bytes_of_chunk self.chunks) }
        ensures xorb { IfOk result (λ x. x.0 ≡ raw_of self.chunks self.boundaries) }
        ensures raw { IfOk result (λ x. IsRaw x.0) }
        ensures files { IfOk result (λ x. x.1.items ≡ map (finished_file x.0.xorb_info.metadata.xorb_hash) self.files) }
        ensures memory { IsOkUnless result StoreError.OutOfMemory }
    {
        let DataAggregator {
            chunks,
            bytes: _,
            files,
            boundaries,
        } = self;
        let alloc = *chunks.allocator();
        let xorb = RawXorbData::from_chunks(alloc, &chunks, boundaries)?;
        let finished = finished_files(alloc, xorb.hash(), files)?;
        Ok((xorb, finished))
    }
}

/// Number of bytes of all chunks.
fn bytes_of(chunks: &[Chunk]) -> usize
    requires { total chunks.now < 2 ^ 63 }
    ensures { result ≡ total chunks.now }
{
    chunks.iter().map(|chunk| chunk.bytes.len()).sum()
}

/// The index 0 if there are chunks, otherwise none.
fn first_boundary(alloc: Global, chunks: &[Chunk]) -> Result<Vec<usize>, StoreError>
    ensures exact { IfOk result (λ boundaries. boundaries.items ≡ first_boundary chunks.now) }
    ensures memory { IsOkUnless result StoreError.OutOfMemory }
{
    let mut boundaries = Vec::new(alloc);
    if !chunks.is_empty() {
        boundaries.push(0)?;
    }
    Ok(boundaries)
}

/// Moves the open segments of each file `count` chunks up.
fn shift_files(alloc: Global, files: &mut [PendingFile], count: u32)
    requires { AllByRecursion (λ p. AllByRecursion (CanShift count) p.0.segments) files.old }
    ensures { files.new ≡ map (shifted_file count) files.old }
{
    for file in files.iter_mut() {
        shift_file(alloc, file, count);
    }
}

/// Moves the open segments of the file `count` chunks up.
fn shift_file(alloc: Global, file: &mut PendingFile, count: u32)
    requires { AllByRecursion (CanShift count) file.old.0.segments }
    ensures { file.new ≡ shifted_file count file.old }
{
    shift_record(alloc, &mut file.0, count);
}

/// Adds the items of `more`, for which there is capacity.
fn append<T: Drop>(items: &mut Vec<T>, more: Vec<T>)
    requires { vec_len items.old + vec_len more ≤ vec_capacity items.old }
    ensures { items.new.items ≡ items.old.items ++ more.items }
{
    let mut more = more;
    items.append(&mut more).unwrap();
}

/// Adds these boundaries, each greater by `count`. There is capacity for them.
fn push_shifted(boundaries: &mut Vec<usize>, more: &[usize], count: usize)
    requires room { vec_len boundaries.old + length more.now ≤ vec_capacity boundaries.old }
    requires small { AllByRecursion (λ k. k + count < 2 ^ 64) more.now }
    ensures { boundaries.new.items ≡ boundaries.old.items ++ map (λ k. k + count) more.now }
{
    for boundary in more {
        boundaries.push_reserved(*boundary + count);
    }
}

/// Each file with the hash in its open segments, and with their number of bytes.
fn finished_files(
    alloc: Global,
    hash: MerkleHash,
    files: Vec<PendingFile>,
) -> Result<Vec<(u64, MDBFileInfo, u64)>, StoreError>
    ensures exact { IfOk result (λ finished. finished.items ≡ map (finished_file hash) files.items) }
    ensures memory { IsOkUnless result StoreError.OutOfMemory }
{
    let mut finished = Vec::with_capacity(alloc, files.len())?;
    for file in files {
        finished.push(finished_file(hash, file)?)?;
    }
    Ok(finished)
}

/// The file with the hash in its open segments, and with their number of bytes.
fn finished_file(hash: MerkleHash, file: PendingFile) -> Result<(u64, MDBFileInfo, u64), StoreError>
    ensures exact { IfOk result (λ finished. finished ≡ finished_file hash file) }
    ensures memory { IsOkUnless result StoreError.OutOfMemory }
{
    let (record, _, id) = file;
    match open_bytes(record.segments.as_slice()) {
        Some(bytes) => Ok((id, filled_record(record, hash), bytes)),
        None => Err(StoreError::OutOfMemory),
    }
}
