//! Tests of merging shard files on a worker thread, on a disk in memory.

use crate::tests::merge_tests::{counted, loaded, write};
use crate::tests::shard_files::release;
use std::alloc::Global;
use std::test::Fail;
use std::thread::Threads;
use xet_hash::{MerkleHash, StoreError, compute_data_hash};
use xet_io::MemoryDisk;
use xet_shard_merge::{ShardMergeResult, merge_shards};
use xet_shard_merge_background::merge_shards_background;

/// The numbers of a result, the hash of the bytes of the first shard that is merged, and how many shards the folder `a`
/// has.
type Seen = ([u64; 4], MerkleHash, usize);

/// The hash of the bytes of the first shard that is merged, on this disk.
fn first_of(disk: &MemoryDisk, merge: &ShardMergeResult) -> MerkleHash {
    let file = merge
        .merged_shards
        .first()
        .and_then(|shard| disk.get(shard.path.as_str()));
    compute_data_hash(file.unwrap_or(b""))
}

/// What is seen of a result, with the files on this disk.
fn seen(
    alloc: Global,
    disk: &mut MemoryDisk,
    merge: &ShardMergeResult,
) -> Result<Seen, StoreError> {
    let first = first_of(disk, merge);
    Ok((counted(merge), first, loaded(alloc, disk)?))
}

/// Writes the shards of `abc` and `abd` into the folder `a`.
fn write_two(alloc: Global, disk: &mut MemoryDisk) -> Result<(), StoreError> {
    write(alloc, disk, b"abc")?;
    write(alloc, disk, b"abd")?;
    Ok(())
}

/// What is seen once the two shards are merged into this folder by the caller.
fn by_caller(alloc: Global, target: &str, max_size: u64) -> Result<Seen, StoreError> {
    let mut disk = MemoryDisk::new(alloc);
    let answer = write_and_merge(alloc, &mut disk, target, max_size);
    release(disk);
    answer
}

/// The same on this disk.
fn write_and_merge(
    alloc: Global,
    disk: &mut MemoryDisk,
    target: &str,
    max_size: u64,
) -> Result<Seen, StoreError> {
    write_two(alloc, disk)?;
    let result = merge_shards(alloc, disk, "a", target, max_size, false, 0)?;
    seen(alloc, disk, &result)
}

/// The same on a worker thread.
fn by_worker<R: Threads>(
    alloc: Global,
    rt: &R,
    target: &str,
    max_size: u64,
) -> Result<Seen, StoreError> {
    let source = String::from_str(alloc, "a")?;
    let target = String::from_str(alloc, target)?;
    let mut disk = MemoryDisk::new(alloc);
    let written = write_two(alloc, &mut disk);
    let (mut disk, result) = merge_shards_background(
        alloc, rt, disk, source, target, max_size, false, 0,
    );
    let answer = seen_of(alloc, &mut disk, result);
    release(disk);
    written?;
    answer
}

/// What is seen of a result, unless it is an error.
fn seen_of(
    alloc: Global,
    disk: &mut MemoryDisk,
    merge: Result<ShardMergeResult, StoreError>,
) -> Result<Seen, StoreError> {
    seen(alloc, disk, &merge?)
}

/// The numbers of a merge on a worker thread, how many shards the folder `a` then has, and whether the caller sees the
/// same.
type Both = ([u64; 4], usize, bool);

fn both<R: Threads>(
    alloc: Global,
    rt: &R,
    target: &str,
    max_size: u64,
) -> Result<Both, StoreError> {
    let found = by_worker(alloc, rt, target, max_size)?;
    let is_same = found == by_caller(alloc, target, max_size)?;
    Ok((found.0, found.2, is_same))
}

#[test]
fn worker_gives_the_result_of_the_caller(rt: HostRuntime) -> Result<(), Fail> {
    let alloc = rt.alloc();
    // Nothing is removed: where one folder is both, the result is a third file in it, or there is none.
    let rows = [
        ("b", 1_095, ([2, 2, 0, 672], 2, true)),
        ("b", 1_096, ([1, 2, 0, 1_000], 2, true)),
        ("a", 1_095, ([2, 0, 0, 672], 2, true)),
        ("a", 1_096, ([1, 2, 0, 1_000], 3, true)),
    ];
    for (target, max_size, seen) in rows {
        assert_eq!(rt; both(alloc, &rt, target, max_size)?, seen);
    }
    Ok(())
}
