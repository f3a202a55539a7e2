//! Tests of merging shard files on a disk in memory.

use crate::tests::samples::shard_of;
use crate::tests::shard_files::{PATH, close, release};
use std::alloc::Global;
use std::test::Fail;
use xet_hash::{MerkleHash, StoreError};
use xet_io::{Disk, DiskEntry, MemoryDisk, Refusal, SliceSource};
use xet_shard_directory::MDBShardFile;
use xet_shard_merge::{ShardMergeResult, consolidate_shards_in_directory, merge_shards};

/// Writes a shard into the folder `a`, and returns its hash.
pub(crate) fn put(
    alloc: Global,
    disk: &mut MemoryDisk,
    bytes: &[u8],
) -> Result<MerkleHash, StoreError> {
    if bytes.len() > 1_000 {
        return Err(StoreError::UnexpectedEof);
    }
    let source = &mut SliceSource::new(bytes);
    let shard = MDBShardFile::write_out_from_reader(alloc, disk, "a", source)?;
    let hash = shard.shard_hash;
    close(shard);
    Ok(hash)
}

/// Writes the shard of three bytes into the folder `a`, and returns its length.
pub(crate) fn write(
    alloc: Global,
    disk: &mut MemoryDisk,
    bytes: &[u8],
) -> Result<usize, StoreError> {
    let (bytes, _) = shard_of(alloc, bytes)?;
    let _hash = put(alloc, disk, &bytes)?;
    Ok(bytes.len())
}

/// The numbers of merged, obsolete and skipped shards, and the length of the first that is merged.
pub(crate) fn counted(merge: &ShardMergeResult) -> [u64; 4] {
    let length = merge
        .merged_shards
        .first()
        .map_or(0, |shard| shard.shard.num_bytes());
    [
        merge.merged_shards.len() as u64,
        merge.obsolete_shards.len() as u64,
        merge.skipped_shards.len() as u64,
        length,
    ]
}

/// These numbers where the shards of `abc` and `abd` are merged.
fn merged(
    alloc: Global,
    disk: &mut MemoryDisk,
    target: &str,
    max_size: u64,
) -> Result<[u64; 4], StoreError> {
    write(alloc, disk, b"abc")?;
    write(alloc, disk, b"abd")?;
    let result = merge_shards(alloc, disk, "a", target, max_size, false, 0)?;
    Ok(counted(&result))
}

/// The same in one folder at two sizes, and into another folder.
fn all_merged(alloc: Global, disk: &mut MemoryDisk) -> Result<[[u64; 4]; 3], StoreError> {
    Ok([
        merged(alloc, disk, "a", 1_095)?,
        merged(alloc, disk, "b", 1_096)?,
        merged(alloc, disk, "a", 1_096)?,
    ])
}

#[test]
fn two_shards_are_merged_where_they_fit(rt: HostRuntime) -> Result<(), Fail> {
    let alloc = rt.alloc();
    let mut disk = MemoryDisk::new(alloc);
    let answer = all_merged(alloc, &mut disk);
    release(disk);
    assert_eq!(rt;
        answer?,
        [[2, 0, 0, 672], [1, 2, 0, 1_000], [1, 2, 0, 1_000]]
    );
    Ok(())
}

/// Whether the first shard that is merged has this path.
fn is_at(merge: &ShardMergeResult, path: &str) -> bool {
    merge
        .merged_shards
        .first()
        .is_some_and(|shard| shard.path.as_str() == path)
}

/// Whether a folder was listed, and has no file.
fn is_empty(listed: &Result<Vec<DiskEntry>, Refusal>) -> bool {
    match listed {
        Ok(entries) => entries.is_empty(),
        Err(_) => false,
    }
}

/// The numbers where the shard of `abc` is merged from the path of its own file into that path, whether this is the path
/// of the result, and whether there is no file beneath it.
fn merged_into_itself(
    alloc: Global,
    disk: &mut MemoryDisk,
) -> Result<([u64; 4], [bool; 2]), StoreError> {
    write(alloc, disk, b"abc")?;
    let merge = merge_shards(alloc, disk, PATH, PATH, 1_096, false, 0)?;
    let listed = disk.list(alloc, PATH);
    Ok((counted(&merge), [is_at(&merge, PATH), is_empty(&listed)]))
}

#[test]
fn file_of_one_shard_is_its_own_result(rt: HostRuntime) -> Result<(), Fail> {
    let alloc = rt.alloc();
    let mut disk = MemoryDisk::new(alloc);
    let answer = merged_into_itself(alloc, &mut disk);
    release(disk);
    assert_eq!(rt; answer?, ([1, 0, 0, 672], [true, true]));
    Ok(())
}

/// How many shards consolidation leaves at a size.
fn left_at(alloc: Global, disk: &mut MemoryDisk, max_size: u64) -> Result<usize, StoreError> {
    Ok(consolidate_shards_in_directory(alloc, disk, "a", max_size, false, 0)?.len())
}

/// How many shards are loaded.
pub(crate) fn loaded(alloc: Global, disk: &mut MemoryDisk) -> Result<usize, StoreError> {
    Ok(MDBShardFile::load_all_valid(alloc, disk, "a", 0)?.len())
}

/// The length of the shard of `abc`; how many shards consolidation leaves at two sizes, and how many are loaded then.
fn consolidated(alloc: Global, disk: &mut MemoryDisk) -> Result<[usize; 5], StoreError> {
    let length = write(alloc, disk, b"abc")?;
    write(alloc, disk, b"abd")?;
    let apart = left_at(alloc, disk, 1_095)?;
    let two = loaded(alloc, disk)?;
    let joined = left_at(alloc, disk, 1_096)?;
    Ok([length, apart, two, joined, loaded(alloc, disk)?])
}

#[test]
fn folder_is_consolidated(rt: HostRuntime) -> Result<(), Fail> {
    let alloc = rt.alloc();
    let mut disk = MemoryDisk::new(alloc);
    let answer = consolidated(alloc, &mut disk);
    release(disk);
    assert_eq!(rt; answer?, [672, 2, 2, 1, 1]);
    Ok(())
}
