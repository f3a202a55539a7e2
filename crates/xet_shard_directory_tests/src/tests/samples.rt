//! Shards with one xorb of one chunk, and one file, of three bytes. They have 672 bytes.

ghost use Rattle.std.specs.Prelude.{◌≡◌, IfOk, length};
ghost use Rattle.xet_shard_format.specs.Records.{file_rows, xorb_rows};

use std::alloc::Global;
use xet_base::Items;
use xet_hash::{HMACKey, MerkleHash, StoreError, compute_data_hash, file_hash};
use xet_shard::{
    MDBFileInfo, MDBShardInfo, MDBXorbInfo, XorbChunkSequenceEntry, XorbChunkSequenceHeader,
    write_shard,
};
use xet_shard_samples::file_of_abc;

/// The xorb with this hash and one chunk of 3 bytes.
fn xorb_of(alloc: Global, hash: MerkleHash, chunk: MerkleHash) -> Result<MDBXorbInfo, StoreError>
    ensures rows { IfOk result (λ xorb. length (xorb_rows xorb) ≡ 2) }
{
    Ok(MDBXorbInfo {
        metadata: XorbChunkSequenceHeader::new(hash, 1, 3),
        chunks: Items::from_vec(vec![in alloc; XorbChunkSequenceEntry::new(chunk, 3, 0)]?),
    })
}

/// The bytes of a shard, and its header and footer.
pub type Written = (Vec<u8>, MDBShardInfo);

/// The shard with this xorb and this file, which have few rows.
fn shard_with(alloc: Global, xorb: &MDBXorbInfo, file: &MDBFileInfo) -> Result<Written, StoreError>
    requires xorb { length (xorb_rows xorb.now) ≡ 2 }
    requires file { length (file_rows file.now) ≡ 4 }
{
    write_shard(alloc, &[xorb], &[file], HMACKey::default(), 0, u64::MAX)
}

/// The shard with this xorb and with the file of its chunk.
fn shard_with_file(
    alloc: Global,
    chunk: MerkleHash,
    xorb: &MDBXorbInfo,
) -> Result<Written, StoreError>
    requires rows { length (xorb_rows xorb.now) ≡ 2 }
{
    let hash = file_hash(alloc, &[(chunk, 3)])?;
    let file = file_of_abc(alloc, hash, chunk)?;
    shard_with(alloc, xorb, &file)
}

/// The shard with the xorb and the file of three bytes.
pub fn shard_of(alloc: Global, bytes: &[u8]) -> Result<Written, StoreError> {
    let chunk = compute_data_hash(bytes);
    let xorb = xorb_of(alloc, chunk, chunk)?;
    shard_with_file(alloc, chunk, &xorb)
}

/// The same of `abc`.
pub fn shard_of_abc(alloc: Global) -> Result<Written, StoreError> {
    shard_of(alloc, b"abc")
}

/// The shard whose xorb has the hash of that of `abc`, and another chunk.
pub fn shard_of_other_xorb(alloc: Global) -> Result<Written, StoreError> {
    let chunk = compute_data_hash(b"abe");
    let xorb = xorb_of(alloc, compute_data_hash(b"abc"), chunk)?;
    shard_with_file(alloc, chunk, &xorb)
}

/// The shard whose file has the hash of that of `abc`, and another chunk.
pub fn shard_of_other_file(alloc: Global) -> Result<Written, StoreError> {
    let hash = file_hash(alloc, &[(compute_data_hash(b"abc"), 3)])?;
    let chunk = compute_data_hash(b"abe");
    let xorb = xorb_of(alloc, chunk, chunk)?;
    let file = file_of_abc(alloc, hash, chunk)?;
    shard_with(alloc, &xorb, &file)
}
