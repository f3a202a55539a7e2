//! Shard files with generated chunks, and hashes that are asked for.

ghost use Rattle.std.specs.Prelude.{◌≡◌, ◌≤◌, ◌^◌, IfOk, length};
ghost use Rattle.xet_shard_format.specs.Records.{xorb_rows};

use std::alloc::Global;
use xet_base::Items;
use xet_hash::{HMACKey, MerkleHash, StoreError};
use xet_io::MemoryDisk;
use xet_shard::write_shard;
use xet_shard_directory::{MDBShardFile, write_shard_file};
use xet_shard_format::{MDBXorbInfo, XorbChunkSequenceEntry, XorbChunkSequenceHeader};
use xet_shard_merge::merge_shards;

/// The folder of the shard files.
pub(crate) const FOLDER: &str = "shards";

/// The folder of merged ones.
const MERGED: &str = "merged";

/// The target of a merge, in bytes: 64 MiB.
const TARGET: u64 = 64 << 20;

/// The number of chunks of a shard that is registered.
pub(crate) const CHUNKS: u16 = 1_000;

/// The length of a chunk, in bytes.
const LENGTH: u32 = 512;

/// The number of the first chunk that is in no shard.
pub(crate) const ABSENT: u64 = 1 << 40;

/// The number of the first xorb.
const XORBS: u64 = 1 << 41;

/// The first word of the hash with this number: another one for each number.
fn word_of(number: u64) -> u64 {
    let a = number.wrapping_add(0x9e37_79b9_7f4a_7c15);
    let b = (a ^ (a >> 30)).wrapping_mul(0xbf58_476d_1ce4_e5b9);
    let c = (b ^ (b >> 27)).wrapping_mul(0x94d0_49bb_1331_11eb);
    c ^ (c >> 31)
}

/// The hash with this number, which is its second word.
pub(crate) fn hash_of(number: u64) -> MerkleHash {
    let w = word_of(number).to_le_bytes();
    let n = number.to_le_bytes();
    MerkleHash::from_bytes([
        w[0], w[1], w[2], w[3], w[4], w[5], w[6], w[7], n[0], n[1], n[2], n[3], n[4], n[5], n[6],
        n[7], w[7], w[6], w[5], w[4], w[3], w[2], w[1], w[0], n[0], n[1], n[2], n[3], n[4], n[5],
        n[6], n[7],
    ])
}

/// The next number of a pseudo-random sequence.
fn scattered(number: u64) -> u64 {
    number
        .wrapping_mul(6_364_136_223_846_793_005)
        .wrapping_add(1_442_695_040_888_963_407)
}

/// So many hashes, each with one of the `span` numbers from `from` on.
pub(crate) fn hashes(
    alloc: Global,
    from: u64,
    span: u64,
    count: u64,
) -> Result<Vec<MerkleHash>, StoreError> {
    let mut hashes = Vec::with_capacity(alloc, count as usize)?;
    let mut number = 7u64;
    for _i in 0..count {
        number = scattered(number);
        hashes.push(hash_of(from.wrapping_add((number >> 11) % span.max(1))))?;
    }
    Ok(hashes)
}

/// The chunks of a xorb, the first of which has this number.
fn chunks_of(
    alloc: Global,
    first: u64,
    count: u16,
) -> Result<Vec<XorbChunkSequenceEntry>, StoreError>
    ensures count { IfOk result (λ chunks. length chunks.items ≡ count) }
{
    let mut chunks = Vec::with_capacity(alloc, count as usize)?;
    for i in 0..count {
        let hash = hash_of(first.wrapping_add(i as u64));
        chunks.push(XorbChunkSequenceEntry::new(hash, LENGTH, i as u32 * LENGTH))?;
    }
    Ok(chunks)
}

/// The xorb of these chunks.
fn xorb_of(alloc: Global, first: u64, count: u16) -> Result<MDBXorbInfo, StoreError>
    ensures rows { IfOk result (λ xorb. length (xorb_rows xorb) ≤ 2 ^ 16) }
{
    let chunks = chunks_of(alloc, first, count)?;
    let hash = hash_of(first.wrapping_add(XORBS));
    Ok(MDBXorbInfo {
        metadata: XorbChunkSequenceHeader::new(hash, count as u32, count as u32 * LENGTH),
        chunks: Items::from_vec(chunks),
    })
}

/// The bytes of a shard with that xorb alone.
fn shard_bytes(alloc: Global, first: u64, count: u16) -> Result<Vec<u8>, StoreError> {
    let xorb = xorb_of(alloc, first, count)?;
    let (bytes, _info) = write_shard(alloc, &[&xorb], &[], HMACKey::default(), 0, u64::MAX)?;
    Ok(bytes)
}

/// Writes so many shard files into a folder, with `count` chunks each: shard `i` has those from number `i * count` on.
pub(crate) fn write_shards(
    alloc: Global,
    disk: &mut MemoryDisk,
    folder: &str,
    shards: u64,
    count: u16,
) -> Result<Vec<MDBShardFile>, StoreError> {
    let mut files = Vec::new(alloc);
    match push_shards(alloc, disk, folder, shards, count, &mut files) {
        Ok(()) => Ok(files),
        Err(error) => Err(error),
    }
}

fn push_shards(
    alloc: Global,
    disk: &mut MemoryDisk,
    folder: &str,
    shards: u64,
    count: u16,
    files: &mut Vec<MDBShardFile>,
) -> Result<(), StoreError> {
    for i in 0..shards {
        let bytes = shard_bytes(alloc, i.saturating_mul(count as u64), count)?;
        files.push(write_shard_file(alloc, disk, folder, &bytes)?)?;
    }
    Ok(())
}

/// Merges the shard files of a folder, and returns how many have become others.
pub(crate) fn merged(
    alloc: Global,
    disk: &mut MemoryDisk,
    folder: &str,
) -> Result<u64, StoreError> {
    let merge = merge_shards(alloc, disk, folder, MERGED, TARGET, false, 0)?;
    Ok(merge.obsolete_shards.len() as u64)
}
