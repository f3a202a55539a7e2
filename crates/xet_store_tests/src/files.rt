//! A xorb of two chunks, and the file of these.

ghost use Rattle.std.specs.Prelude.{◌≡◌, ◌∷◌, [], IfOk, replicate};
ghost use Rattle.xet_dedup_queries.specs.Registering.{IsNewXorb};
ghost use Rattle.xet_shard_format.specs.Records.{IsFile};
ghost use Rattle.xet_xorb_chunk.specs.Chunks.{chunk_of};

use bytes::Bytes;
use std::alloc::Global;
use xet_base::Items;
use xet_cut::Limits;
use xet_hash::{
    Field, MerkleHash, StoreError, compute_data_hash, file_hash, range_hash_from_chunks,
};
use xet_shard_format::{
    FileDataSequenceEntry, FileDataSequenceHeader, FileVerificationEntry, MDBFileInfo,
};
use xet_xorb::RawXorbData;
use xet_xorb_chunk::{Chunk, chunk_leaves};

/// The two chunks.
pub fn chunks() -> [Chunk; 2]
    ensures { result ≡ chunk_of (97 ∷ 98 ∷ 99 ∷ []) ∷ chunk_of (100 ∷ 101 ∷ 102 ∷ 103 ∷ []) ∷ [] }
{
    [
        Chunk::new(Bytes::from_static(b"abc")),
        Chunk::new(Bytes::from_static(b"defg")),
    ]
}

/// Their hashes.
pub fn chunk_hashes() -> [MerkleHash; 2] {
    [compute_data_hash(b"abc"), compute_data_hash(b"defg")]
}

/// The xorb of the two chunks; `BadLimits` if it passes these limits.
pub fn xorb(alloc: Global, limits: &Limits) -> Result<RawXorbData, StoreError>
    ensures { IfOk result (IsNewXorb (limits.now.cut_bytes, limits.now.cut_chunks)) }
{
    if limits.cut_chunks() < 2 || limits.cut_bytes() < 7 {
        return Err(StoreError::BadLimits(Field::CutBytes));
    }
    let raw = RawXorbData::from_chunks(alloc, &chunks(), vec![in alloc; 0]?)?;
    Ok(raw)
}

/// The hash of the file, and the range hash of its chunks.
fn file_hashes(alloc: Global) -> Result<(MerkleHash, MerkleHash), StoreError> {
    let leaves = chunk_leaves(alloc, &chunks())?;
    let range = range_hash_from_chunks(&[leaves[0].0, leaves[1].0]);
    Ok((file_hash(alloc, &leaves)?, range))
}

/// The record of the file, which lies in the xorb of this hash.
pub fn record(alloc: Global, xorb: MerkleHash) -> Result<MDBFileInfo, StoreError>
    ensures { IfOk result IsFile }
{
    let (file, range) = file_hashes(alloc)?;
    let segments = vec![in alloc; FileDataSequenceEntry::new(xorb, 7, 0, 2)]?;
    Ok(MDBFileInfo {
        metadata: FileDataSequenceHeader::new(file, 1, true, false),
        segments: Items::from_vec(segments),
        verification: Items::from_vec(vec![in alloc; FileVerificationEntry::new(range)]?),
        metadata_ext: None,
    })
}

/// 64 zero bytes, and 8: the chunks of 200 zero bytes under a gear table of zeros at a target length of 512 are the first
/// three times, and the second.
pub fn zeros() -> [Chunk; 2]
    ensures { result ≡ chunk_of (replicate 64 0) ∷ chunk_of (replicate 8 0) ∷ [] }
{
    [
        Chunk::new(Bytes::from_static(&[0; 64])),
        Chunk::new(Bytes::from_static(&[0; 8])),
    ]
}

/// Their hashes.
pub fn zero_hashes() -> [MerkleHash; 2] {
    [compute_data_hash(&[0; 64]), compute_data_hash(&[0; 8])]
}

/// The xorb of the zeros; `BadLimits` if it passes these limits.
pub fn zero_xorb(alloc: Global, limits: &Limits) -> Result<RawXorbData, StoreError>
    ensures { IfOk result (IsNewXorb (limits.now.cut_bytes, limits.now.cut_chunks)) }
{
    if limits.cut_chunks() < 2 || limits.cut_bytes() < 72 {
        return Err(StoreError::BadLimits(Field::CutBytes));
    }
    let raw = RawXorbData::from_chunks(alloc, &zeros(), vec![in alloc; 0]?)?;
    Ok(raw)
}
