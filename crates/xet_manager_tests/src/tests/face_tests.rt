//! Tests of the names that the manager's crate passes on, on a disk in memory.

use crate::tests::samples::{Manager, opened, release_disk};
use std::alloc::Global;
use std::test::Fail;
use xet_hash::StoreError;
use xet_io::{Disk, MemoryDisk, ReadAt};
use xet_manager::{
    MDBShardFile, NoReader, ShardMergeResult, ShardReader, consolidate_shards_in_directory,
    merge_shards,
};
use xet_shard_samples::shard_of;

/// The disk of a manager into whose folder `a` the shards of `abc` and `abd` were imported.
fn imported(alloc: Global) -> Result<(MemoryDisk, Result<(), StoreError>), StoreError> {
    let mut manager = opened(alloc, MemoryDisk::new(alloc), 10_000, true)?;
    let answer = import(alloc, &mut manager);
    Ok((manager.into_disk(), answer))
}

fn import(alloc: Global, manager: &mut Manager) -> Result<(), StoreError> {
    manager.import_shard_from_bytes(&shard_of(alloc, b"abc")?.0)?;
    manager.import_shard_from_bytes(&shard_of(alloc, b"abd")?.0)
}

/// The numbers of shards in a result: merged, obsolete, skipped.
fn counts(merge: &ShardMergeResult) -> [usize; 3] {
    [
        merge.merged_shards.len(),
        merge.obsolete_shards.len(),
        merge.skipped_shards.len(),
    ]
}

/// What a merge of the folder `a` into `b` gives, and then the number of shards of `a` once it is consolidated.
fn merged(alloc: Global, disk: &mut MemoryDisk) -> Result<([usize; 3], usize), StoreError> {
    let merge = merge_shards(alloc, disk, "a", "b", 10_000, false, 0)?;
    let left = consolidate_shards_in_directory(alloc, disk, "a", 10_000, false, 0)?;
    Ok((counts(&merge), left.len()))
}

fn merged_of_imported(alloc: Global) -> Result<([usize; 3], usize), StoreError> {
    let (mut disk, written) = imported(alloc)?;
    let answer = merged(alloc, &mut disk);
    release_disk(disk);
    written?;
    answer
}

#[test]
fn shards_of_a_manager_are_merged(rt: HostRuntime) -> Result<(), Fail> {
    let answer = merged_of_imported(rt.alloc())?;
    assert_eq!(rt; answer, ([1, 2, 0], 1));
    Ok(())
}

/// The number of bytes of a reader's file.
fn length_of(reader: &mut ShardReader<MemoryDisk>) -> Option<u64> {
    reader.length().ok()
}

/// The error without the disk.
fn error_of(refused: NoReader<MemoryDisk>) -> StoreError {
    refused.into_error()
}

/// The length of a shard file by its reader.
fn read(disk: &mut MemoryDisk, shard: &MDBShardFile) -> Result<Option<u64>, StoreError> {
    match shard.get_reader(disk) {
        Ok(mut reader) => Ok(length_of(&mut reader)),
        Err(refused) => Err(error_of(refused)),
    }
}

/// The lengths of the first shard of the folder `a` before and after it is removed.
type Lengths = [Result<Option<u64>, StoreError>; 2];

fn lengths(alloc: Global, disk: &mut MemoryDisk) -> Result<Lengths, StoreError> {
    let shards = MDBShardFile::load_all_valid(alloc, disk, "a", 0)?;
    match shards.first() {
        Some(shard) => Ok(lengths_around(disk, shard)),
        None => Err(StoreError::FileNotFound),
    }
}

fn lengths_around(disk: &mut MemoryDisk, shard: &MDBShardFile) -> Lengths {
    let before = read(disk, shard);
    let _ = disk.remove(shard.path.as_str());
    [before, read(disk, shard)]
}

fn lengths_of_imported(alloc: Global) -> Result<Lengths, StoreError> {
    let (mut disk, written) = imported(alloc)?;
    let answer = lengths(alloc, &mut disk);
    release_disk(disk);
    written?;
    answer
}

#[test]
fn shard_has_a_reader_while_its_file_is_there(rt: HostRuntime) -> Result<(), Fail> {
    let answer = lengths_of_imported(rt.alloc())?;
    assert_eq!(rt; answer, [Ok(Some(672)), Err(StoreError::FileNotFound)]);
    Ok(())
}
