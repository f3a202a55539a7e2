//! Chunks in memory: their bytes and hashes.

ghost use Rattle.std.specs.Prelude.{◌≡◌, IfOk, IsOkUnless, map};
ghost use Rattle.xet_hash.specs.Merkle.{total_len};
ghost use Rattle.xet_xorb_chunk.specs.Chunks.{chunk_leaf, chunk_of, total};

use bytes::Bytes;
use std::alloc::Global;
use std::convert::AsSlice;
use xet_hash::{MerkleHash, StoreError, compute_data_hash};

/// A chunk of a file, with its chunk hash.
#[derive(Debug, Drop, PartialEq, Eq)]
pub struct Chunk {
    /// The chunk hash of `bytes`, if `new` made the chunk. A chunk that is built by its fields may carry any
    /// hash.
    pub hash: MerkleHash,
    /// The uncompressed bytes.
    pub bytes: Bytes,
}

impl Chunk {
    /// Hashes the bytes. Does not allocate.
    pub fn new(bytes: Bytes) -> Chunk
        ensures { result ≡ chunk_of bytes }
    {
        Chunk {
            hash: compute_data_hash(bytes.as_slice()),
            bytes,
        }
    }

    /// A copy that shares the bytes. Its only error is `OutOfMemory`.
    pub fn clone(&self) -> Result<Chunk, StoreError>
        ensures same { IfOk result (λ copy. copy ≡ self.now) }
        ensures memory { IsOkUnless result StoreError.OutOfMemory }
    {
        Ok(Chunk {
            hash: self.hash,
            bytes: self.bytes.clone()?,
        })
    }
}

impl AsSlice<u8> for Chunk {
    ghost items = { λ c. c.bytes };

    /// The uncompressed bytes.
    fn as_slice(&self) -> &[u8] {
        self.bytes.as_slice()
    }
}

/// The (hash, length) pair of each chunk: the hash that it carries, and its length in bytes. The only error
/// is `OutOfMemory`.
pub fn chunk_leaves(alloc: Global, chunks: &[Chunk]) -> Result<Vec<(MerkleHash, u64)>, StoreError>
    ensures leaves { IfOk result (λ leaves. leaves.items ≡ map chunk_leaf chunks.now) }
    ensures total { IfOk result (λ leaves. total_len leaves.items ≡ total chunks.now) }
    ensures memory { IsOkUnless result StoreError.OutOfMemory }
{
    let mut leaves = Vec::with_capacity(alloc, chunks.len())?;
    for chunk in chunks {
        leaves.push((chunk.hash, chunk.bytes.len() as u64))?;
    }
    Ok(leaves)
}
