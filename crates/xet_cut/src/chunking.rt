//! Content-defined chunking of bytes that are all in memory.

ghost use Rattle.std.specs.Prelude.{◌≡◌, ◌<◌, ◌≤◌, IfOk, IsOkUnless, length, map};
ghost use Rattle.xet_hash.specs.Merkle.{leaves_of, total_len};
ghost use Rattle.xet_cut.specs.Chunking.{chunking, first_chunk_len};

use crate::boundary::boundary;
use crate::limits::Limits;
use std::alloc::Global;
use xet_hash::{MerkleHash, StoreError, compute_data_hash};

/// The length of the first chunk of these bytes, or 0 if there are none.
pub fn first_chunk_len(limits: &Limits, bytes: &[u8]) -> usize
    ensures value { result ≡ first_chunk_len limits.now bytes.now }
    ensures some { 0 < length bytes.now → 0 < result }
    ensures bound { result ≤ length bytes.now }
{
    limits.recall_invariant();
    match boundary(limits, &[], bytes) {
        Some(end) => end,
        None => bytes.len(),
    }
}

/// The lengths of the chunks of these bytes. The only error is out of memory.
pub fn chunk_lengths(alloc: Global, limits: &Limits, bytes: &[u8]) -> Result<Vec<usize>, StoreError>
    ensures lengths { IfOk result (λ lengths. lengths.items ≡ map length (chunking limits.now bytes.now)) }
    ensures memory { IsOkUnless result StoreError.OutOfMemory }
{
    let mut lengths = Vec::new(alloc);
    let mut rest = bytes;
    'pieces: while !rest.is_empty() {
        let (piece, tail) = rest.split_at(first_chunk_len(limits, rest));
        lengths.push(piece.len())?;
        rest = tail;
    }
    Ok(lengths)
}

/// The chunk list of these bytes: the hash and the length of each chunk. The only error is out of memory.
pub fn chunk_list(
    alloc: Global,
    limits: &Limits,
    bytes: &[u8],
) -> Result<Vec<(MerkleHash, u64)>, StoreError>
    ensures leaves { IfOk result (λ leaves. leaves.items ≡ leaves_of (chunking limits.now bytes.now)) }
    ensures total { IfOk result (λ leaves. total_len leaves.items ≡ length bytes.now) }
    ensures memory { IsOkUnless result StoreError.OutOfMemory }
{
    let mut leaves = Vec::new(alloc);
    let mut rest = bytes;
    'pieces: while !rest.is_empty() {
        let (piece, tail) = rest.split_at(first_chunk_len(limits, rest));
        leaves.push((compute_data_hash(piece), piece.len() as u64))?;
        rest = tail;
    }
    Ok(leaves)
}
