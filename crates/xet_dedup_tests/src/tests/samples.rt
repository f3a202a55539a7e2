//! Limits, chunks, and lists of them.

ghost use Rattle.std.specs.Prelude.{◌≡◌};

use crate::errors::TestError;
use crate::known::KnownXorb;
use crate::list_store::ListStore;
use bytes::Bytes;
use std::alloc::Global;
use xet_aggregate::DeduplicationMetrics;
use xet_cut::{LimitSettings, Limits};
use xet_dedup_queries::FileXorbDependency;
use xet_hash::{MerkleHash, StoreError, compute_data_hash};
use xet_shard_format::FileDataSequenceEntry;
use xet_xorb_chunk::Chunk;

/// The number of the file.
pub const FILE: u64 = 7;

/// The settings of chunks from 64 to 1,024 bytes, with a target of 512.
pub fn small(gear: [u64; 256]) -> LimitSettings {
    LimitSettings {
        target_chunk: 512,
        minimum_chunk: 64,
        maximum_chunk: 1024,
        max_source_bytes: 1 << 30,
        ..LimitSettings::shown(gear)
    }
}

/// The limits of these settings. With a table of zeros a chunk ends as soon as it may, with one of ones as late as it may.
pub fn small_limits(gear: [u64; 256]) -> Result<Limits, StoreError> {
    Limits::new(small(gear))
}

/// Adds the hash and the length of each chunk.
pub fn push_leaves(
    leaves: &mut Vec<(MerkleHash, u64)>,
    chunks: &[Chunk],
) -> Result<(), StoreError> {
    for chunk in chunks {
        leaves.push((chunk.hash, chunk.bytes.len() as u64))?;
    }
    Ok(())
}

/// The length of each chunk in bytes.
pub fn lengths(alloc: Global, leaves: &[(MerkleHash, u64)]) -> Result<Vec<u64>, StoreError> {
    let mut lengths = Vec::with_capacity(alloc, leaves.len())?;
    for leaf in leaves {
        lengths.push(leaf.1)?;
    }
    Ok(lengths)
}

/// The chunks of 200 zero bytes: three of 64 bytes, which are the same, and one of 8.
pub fn chunks_of_zeros(alloc: Global) -> Result<Vec<Chunk>, StoreError> {
    let mut chunks = Vec::with_capacity(alloc, 4)?;
    for _ in 0..3 {
        chunks.push(Chunk::new(Bytes::from_vec(vec![in alloc; 0; 64]?)?))?;
    }
    chunks.push(Chunk::new(Bytes::from_vec(vec![in alloc; 0; 8]?)?))?;
    Ok(chunks)
}

/// So many chunks of 64 bytes. All bytes of the first are 1, of the second 2, and so on.
pub fn blocks(alloc: Global, count: u8) -> Result<Vec<Chunk>, StoreError> {
    let mut chunks = Vec::new(alloc);
    for value in 1..=count {
        chunks.push(Chunk::new(Bytes::from_vec(vec![in alloc; value; 64]?)?))?;
    }
    Ok(chunks)
}

/// Chunks of so many bytes, one for each of these values, which all its bytes have.
pub fn uniform_chunks(
    alloc: Global,
    values: &[u8],
    length: usize,
) -> Result<Vec<Chunk>, StoreError> {
    let mut chunks = Vec::with_capacity(alloc, values.len())?;
    for value in values {
        chunks.push(Chunk::new(Bytes::from_vec(vec![in alloc; *value; length]?)?))?;
    }
    Ok(chunks)
}

/// The hash and the length of the block whose bytes have this value.
pub fn block(value: u8) -> (MerkleHash, u64)
    ensures { result.1 ≡ 64 }
{
    (compute_data_hash(&[value; 64]), 64)
}

/// A known xorb of the blocks with these values, whose hash is the digest of its name.
pub fn known_xorb(
    alloc: Global,
    name: &[u8],
    values: &[u8],
    is_external: bool,
) -> Result<KnownXorb, TestError> {
    let mut leaves = Vec::with_capacity(alloc, values.len())?;
    for value in values {
        leaves.push(block(*value))?;
    }
    KnownXorb::new(compute_data_hash(name), leaves, is_external)
}

/// A store that knows this xorb.
pub fn knowing(alloc: Global, xorb: KnownXorb) -> Result<ListStore, TestError> {
    let mut store = ListStore::new(alloc, (0, 0));
    store.xorbs.push(xorb)?;
    Ok(store)
}

/// That the file uses a xorb.
pub fn dependency(xorb_hash: MerkleHash, n_bytes: u64, is_external: bool) -> FileXorbDependency {
    FileXorbDependency {
        file_id: FILE,
        xorb_hash,
        n_bytes,
        is_external,
    }
}

/// The segment of the chunks `start`..`end`, the end excluded, of chunks that are in no xorb yet.
pub fn open(bytes: u32, start: u32, end: u32) -> FileDataSequenceEntry {
    FileDataSequenceEntry::new(MerkleHash::marker(), bytes, start, end)
}

/// Metrics of these numbers of chunks and of bytes: all, found, stored, found by second passes, rejected.
pub fn metrics(counts: [(u64, u64); 5]) -> DeduplicationMetrics {
    let [all, found, stored, global, rejected] = counts;
    DeduplicationMetrics {
        total_chunks: all.0,
        total_bytes: all.1,
        deduped_chunks: found.0,
        deduped_bytes: found.1,
        new_chunks: stored.0,
        new_bytes: stored.1,
        deduped_chunks_by_global_dedup: global.0,
        deduped_bytes_by_global_dedup: global.1,
        defrag_prevented_dedup_chunks: rejected.0,
        defrag_prevented_dedup_bytes: rejected.1,
        ..DeduplicationMetrics::default()
    }
}
