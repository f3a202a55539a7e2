//! The shard with the xorb and the file of `abc`, and of three other bytes.

ghost use Rattle.std.specs.Prelude.{◌≡◌, ◌≢◌, IfOk, length};
ghost use Rattle.xet_hash.specs.Hash.{sentinel};
ghost use Rattle.xet_shard.specs.Held.{nothing};
ghost use Rattle.xet_shard_format.specs.Records.{IsFile, IsXorb, file_record_hash, file_rows, xorb_record_hash, xorb_rows};

use std::alloc::Global;
use xet_base::Items;
use xet_hash::{MerkleHash, StoreError, compute_data_hash, file_hash, range_hash_from_chunks};
use xet_io::MemorySink;
use xet_shard::*;

/// The xorb with one chunk of 3 bytes, which has this hash.
fn xorb_of_abc(alloc: Global, chunk: MerkleHash) -> Result<MDBXorbInfo, StoreError>
    ensures form { IfOk result IsXorb }
    ensures hash { IfOk result (λ xorb. xorb_record_hash xorb ≡ chunk) }
    ensures rows { IfOk result (λ xorb. length (xorb_rows xorb) ≡ 2) }
{
    Ok(MDBXorbInfo {
        metadata: XorbChunkSequenceHeader::new(chunk, 1, 3),
        chunks: Items::from_vec(vec![in alloc; XorbChunkSequenceEntry::new(chunk, 3, 0)]?),
    })
}

/// The file with this hash, whose one segment is that chunk.
pub fn file_of_abc(
    alloc: Global,
    hash: MerkleHash,
    chunk: MerkleHash,
) -> Result<MDBFileInfo, StoreError>
    ensures form { IfOk result IsFile }
    ensures hash { IfOk result (λ file. file_record_hash file ≡ hash) }
    ensures rows { IfOk result (λ file. length (file_rows file) ≡ 4) }
{
    let digest = Sha256::from_hex(
        "ba7816bf8f01cfea414140de5dae2223b00361a396177a9cb410ff61f20015ad",
    )?;
    let range_hash = range_hash_from_chunks(&[chunk]);
    Ok(MDBFileInfo {
        metadata: FileDataSequenceHeader::new(hash, 1, true, true),
        segments: Items::from_vec(vec![in alloc; FileDataSequenceEntry::new(chunk, 3, 0, 1)]?),
        verification: Items::from_vec(vec![in alloc; FileVerificationEntry::new(range_hash)]?),
        metadata_ext: Some(FileMetadataExt::new(digest)),
    })
}

/// The bytes of a shard, and its header and footer.
pub type Written = (Vec<u8>, MDBShardInfo);

/// The shard with the xorb and the file of `abc`.
pub fn shard_of_abc(alloc: Global) -> Result<Written, StoreError> {
    shard_of(alloc, b"abc")
}

/// The same for three other bytes.
pub fn shard_of(alloc: Global, bytes: &[u8]) -> Result<Written, StoreError> {
    let chunk = compute_data_hash(bytes);
    let hash = file_hash(alloc, &[(chunk, 3)])?;
    if chunk == MerkleHash::marker() || hash == MerkleHash::marker() {
        return Err(StoreError::HashMismatch);
    }
    added_and_written(alloc, hash, chunk)
}

/// Adds the file and the chunk to a shard in memory, and writes it.
fn added_and_written(
    alloc: Global,
    hash: MerkleHash,
    chunk: MerkleHash,
) -> Result<Written, StoreError>
    requires file { hash ≢ sentinel }
    requires chunk { chunk ≢ sentinel }
{
    let mut shard = MDBInMemoryShard::new(alloc);
    let answer = written(alloc, &mut shard, hash, chunk);
    release(shard);
    answer
}

/// Adds the file and the chunk to an empty shard, and writes it.
fn written(
    alloc: Global,
    shard: &mut MDBInMemoryShard,
    hash: MerkleHash,
    chunk: MerkleHash,
) -> Result<Written, StoreError>
    requires empty { shard.old ≡ nothing }
    requires file { hash ≢ sentinel }
    requires chunk { chunk ≢ sentinel }
{
    shard.add_xorb_block(xorb_of_abc(alloc, chunk)?)?;
    shard.add_file_reconstruction_info(file_of_abc(alloc, hash, chunk)?)?;
    let mut sink = MemorySink::new(alloc);
    let info = shard.serialize_from(alloc, &mut sink, 0, None)?;
    Ok((sink.into_bytes(), info))
}

/// Drops a shard in memory.
pub fn release(shard: MDBInMemoryShard) {
    let _ = &shard;
}
