//! Xorbs before they are encoded.

ghost use Rattle.std.specs.Prelude.{◌≡◌, ◌<◌, ◌^◌, [], IfOk, IsOkUnless, OnOk, length, map};
ghost use Rattle.std.specs.List.{concat};
ghost use Rattle.xet_hash.specs.Merkle.{total_len};
ghost use Rattle.xet_shard_format.specs.Records.{chunk_bytes};
ghost use Rattle.xet_xorb_chunk.specs.Chunks.{bytes_of_chunk, chunk_leaf};
ghost use Rattle.xet_xorb.specs.Raw.{ArePartsOfXorb, IsRaw, raw_leaves, raw_of, xorb_record};

use bytes::Bytes;
use std::alloc::Global;
use xet_base::Items;
use xet_hash::{MerkleHash, StoreError, xorb_hash};
use xet_shard_format::{MDBXorbInfo, XorbChunkSequenceEntry, XorbChunkSequenceHeader};
use xet_xorb_chunk::{Chunk, chunk_leaves};

/// A xorb before it is encoded: the bytes of its chunks, and its record.
#[derive(Debug, Drop)]
pub struct RawXorbData {
    /// The bytes of each chunk, shared with the chunk.
    pub parts: Items<Bytes>,
    /// The record of the xorb: its hash, and the hash, start and length of each chunk.
    pub xorb_info: MDBXorbInfo,
    /// Indices of the chunks with which files begin.
    pub file_boundaries: Items<usize>,
}

impl RawXorbData {
    /// The xorb of no chunks, with a zero hash. Does not allocate.
    pub fn default(alloc: Global) -> RawXorbData
        ensures { result ≡ raw_of [] [] }
    {
        RawXorbData {
            parts: Items::new(alloc),
            xorb_info: MDBXorbInfo::default(alloc),
            file_boundaries: Items::new(alloc),
        }
    }

    /// The xorb of these chunks, with the hashes that they carry. Shares their bytes. There may be at most
    /// 65,536 chunks, of fewer than 2^24 bytes each and of at most 2^30 together. The only error is
    /// `OutOfMemory`.
    pub fn from_chunks(
        alloc: Global,
        chunks: &[Chunk],
        file_boundaries: Vec<usize>,
    ) -> Result<RawXorbData, StoreError>
        requires { ArePartsOfXorb (map bytes_of_chunk chunks.now) }
        ensures exact { IfOk result (λ raw. raw ≡ raw_of chunks.now file_boundaries.items) }
        ensures leaves { IfOk result (λ raw. raw_leaves raw ≡ map chunk_leaf chunks.now) }
        ensures raw { IfOk result IsRaw }
        ensures memory { IsOkUnless result StoreError.OutOfMemory }
    {
        let leaves = chunk_leaves(alloc, chunks)?;
        let hash = xorb_hash(alloc, &leaves)?;
        Ok(RawXorbData {
            parts: Items::from_vec(parts_of(alloc, chunks)?),
            xorb_info: xorb_record(alloc, hash, &leaves)?,
            file_boundaries: Items::from_vec(file_boundaries),
        })
    }

    /// A copy that shares the bytes of the chunks. Its only error is `OutOfMemory`.
    pub fn clone(&self, alloc: Global) -> Result<RawXorbData, StoreError>
        ensures same { IfOk result (λ copy. copy ≡ self.now) }
        ensures memory { IsOkUnless result StoreError.OutOfMemory }
    {
        let boundaries = Vec::from_slice(alloc, self.file_boundaries.as_slice())?;
        Ok(RawXorbData {
            parts: Items::from_vec(shared(alloc, self.parts.as_slice())?),
            xorb_info: self.xorb_info.copy(alloc)?,
            file_boundaries: Items::from_vec(boundaries),
        })
    }

    /// Xorb hash. Does not allocate.
    pub fn hash(&self) -> MerkleHash
        ensures { result ≡ self.now.xorb_info.metadata.xorb_hash }
    {
        self.xorb_info.metadata.xorb_hash
    }

    /// Number of uncompressed bytes of all chunks. Does not allocate.
    pub fn num_bytes(&self) -> usize
        requires { IsRaw self.now }
        ensures { result ≡ chunk_bytes self.now.xorb_info.chunks }
    {
        self.parts.as_slice().iter().map(|part| part.len()).sum()
    }
}

/// The bytes of all chunks, concatenated. The only error is `OutOfMemory`.
pub fn raw_xorb_to_vec(alloc: Global, xorb: &RawXorbData) -> Result<Vec<u8>, StoreError>
    requires { IsRaw xorb.now }
    ensures joined { IfOk result (λ bytes. bytes.items ≡ concat xorb.now.parts) }
    ensures memory { IsOkUnless result StoreError.OutOfMemory }
{
    let mut bytes = Vec::with_capacity(alloc, xorb.num_bytes())?;
    for part in xorb.parts.as_slice() {
        bytes.extend_from_slice(part.as_slice())?;
    }
    Ok(bytes)
}

/// The bytes of each chunk, shared with it.
fn parts_of(alloc: Global, chunks: &[Chunk]) -> Result<Vec<Bytes>, StoreError>
    ensures parts { IfOk result (λ parts. parts.items ≡ map bytes_of_chunk chunks.now) }
    ensures memory { IsOkUnless result StoreError.OutOfMemory }
{
    let mut parts = Vec::with_capacity(alloc, chunks.len())?;
    for chunk in chunks {
        parts.push(chunk.bytes.clone()?)?;
    }
    Ok(parts)
}

/// A copy of the list that shares the bytes.
fn shared(alloc: Global, parts: &[Bytes]) -> Result<Vec<Bytes>, StoreError>
    ensures same { IfOk result (λ copies. copies.items ≡ parts.now) }
    ensures memory { IsOkUnless result StoreError.OutOfMemory }
{
    let mut copies = Vec::with_capacity(alloc, parts.len())?;
    for part in parts {
        copies.push(part.clone()?)?;
    }
    Ok(copies)
}

/// The record of the xorb with this hash and the (hash, length) pairs of its chunks. The only error is
/// `OutOfMemory`.
pub fn xorb_record(
    alloc: Global,
    hash: MerkleHash,
    leaves: &[(MerkleHash, u64)],
) -> Result<MDBXorbInfo, StoreError>
    requires count { length leaves.now < 2 ^ 32 }
    requires bytes { total_len leaves.now < 2 ^ 32 }
    ensures exact { IfOk result (λ block. block ≡ xorb_record hash leaves.now) }
    ensures memory { IsOkUnless result StoreError.OutOfMemory }
{
    let mut entries = Vec::with_capacity(alloc, leaves.len())?;
    let mut start = 0;
    for (chunk, bytes) in leaves {
        let bytes = *bytes as u32;
        entries.push(XorbChunkSequenceEntry::new(*chunk, bytes, start))?;
        start += bytes;
    }
    Ok(MDBXorbInfo {
        metadata: XorbChunkSequenceHeader::new(hash, leaves.len() as u32, start),
        chunks: Items::from_vec(entries),
    })
}
