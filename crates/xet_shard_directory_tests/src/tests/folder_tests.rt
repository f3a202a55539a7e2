//! Tests of folders of shard files on a disk in memory: expiry, pruning, cleaning, and malformed files.

use crate::tests::shard_files::{close, keyed, release, written};
use std::alloc::Global;
use std::test::Fail;
use xet_hash::StoreError;
use xet_io::{Disk, MemoryDisk};
use xet_shard_directory::MDBShardFile;

/// How long an expired shard is retained, in seconds.
const BUFFER: u64 = 604_800;

/// How many shard files of the folder `b` are loaded at a time; the expired ones are deleted where the buffer is over.
fn loaded_at(alloc: Global, disk: &mut MemoryDisk, now: u64) -> Result<usize, StoreError> {
    let shards = MDBShardFile::load_managed_directory(
        alloc, disk, "b", false, false, true, 0, BUFFER, now,
    )?;
    Ok(shards.len())
}

/// How many shard files the folder `b` has.
fn all_in_b(alloc: Global, disk: &mut MemoryDisk) -> Result<usize, StoreError> {
    let shards = MDBShardFile::load_managed_directory(
        alloc,
        disk,
        "b",
        false,
        true,
        true,
        0,
        0,
        u64::MAX,
    )?;
    Ok(shards.len())
}

/// How many shard files are loaded at a time, and how many the folder then has.
fn at(alloc: Global, disk: &mut MemoryDisk, now: u64) -> Result<(usize, usize), StoreError> {
    let loaded = loaded_at(alloc, disk, now)?;
    Ok((loaded, all_in_b(alloc, disk)?))
}

/// When the shard under the key expires. It is exported into the folder `b`.
fn expiry_of(
    alloc: Global,
    disk: &mut MemoryDisk,
    shard: &MDBShardFile,
) -> Result<u64, StoreError> {
    let shard = keyed(alloc, disk, shard, true)?;
    let expiry = shard.shard.metadata.shard_key_expiry;
    close(shard);
    Ok(expiry)
}

/// The same of the shard of `abc`.
fn expiry(alloc: Global, disk: &mut MemoryDisk) -> Result<u64, StoreError> {
    let shard = written(alloc, disk)?;
    let answer = expiry_of(alloc, disk, &shard);
    close(shard);
    answer
}

/// What is loaded of a keyed shard that expires at 110: up to its expiry, a second later, and around the end of the
/// buffer.
fn expiring(alloc: Global, disk: &mut MemoryDisk) -> Result<[(usize, usize); 4], StoreError> {
    if expiry(alloc, disk)? != 110 {
        return Err(StoreError::HashMismatch);
    }
    Ok([
        at(alloc, disk, 110)?,
        at(alloc, disk, 111)?,
        at(alloc, disk, 110 + BUFFER - 1)?,
        at(alloc, disk, 110 + BUFFER)?,
    ])
}

#[test]
fn expires_and_is_deleted(rt: HostRuntime) -> Result<(), Fail> {
    let alloc = rt.alloc();
    let mut disk = MemoryDisk::new(alloc);
    let answer = expiring(alloc, &mut disk);
    release(disk);
    assert_eq!(rt; answer?, [(1, 1), (0, 1), (0, 1), (0, 0)]);
    Ok(())
}

/// Exports the shard with three creation times into the folder `b`.
fn export_three(
    alloc: Global,
    disk: &mut MemoryDisk,
    shard: &MDBShardFile,
) -> Result<(), StoreError> {
    for creation in [60, 70, 50] {
        close(shard.export_with_specific_expiration(alloc, disk, "b", u64::MAX, creation)?);
    }
    Ok(())
}

/// The same of the shard of `abc`.
fn write_three(alloc: Global, disk: &mut MemoryDisk) -> Result<(), StoreError> {
    let shard = written(alloc, disk)?;
    let answer = export_three(alloc, disk, &shard);
    close(shard);
    answer
}

/// The creation time of the only one of these shard files; 0 if there are others, or none.
fn creation_of_one(shards: &[MDBShardFile]) -> u64 {
    match shards {
        [one] => one.shard.metadata.shard_creation_timestamp,
        _ => 0,
    }
}

/// The same of what is left where the shard files of the folder `b`, of 672 bytes each, are pruned to 1,343 bytes.
fn newest(alloc: Global, disk: &mut MemoryDisk) -> Result<u64, StoreError> {
    let kept = MDBShardFile::load_managed_directory(
        alloc, disk, "b", false, false, false, 1343, 0, 100,
    )?;
    Ok(creation_of_one(&kept))
}

/// The same of three shard files, and how many the folder then has.
fn pruned(alloc: Global, disk: &mut MemoryDisk) -> Result<(u64, usize), StoreError> {
    write_three(alloc, disk)?;
    let newest = newest(alloc, disk)?;
    Ok((newest, all_in_b(alloc, disk)?))
}

#[test]
fn is_pruned_oldest_first(rt: HostRuntime) -> Result<(), Fail> {
    let alloc = rt.alloc();
    let mut disk = MemoryDisk::new(alloc);
    let answer = pruned(alloc, &mut disk);
    release(disk);
    assert_eq!(rt; answer?, (70, 1));
    Ok(())
}

/// How many shard files are valid at a time.
fn valid(alloc: Global, disk: &mut MemoryDisk, now: u64) -> Result<usize, StoreError> {
    Ok(MDBShardFile::load_all_valid(alloc, disk, "b", now)?.len())
}

/// How many shard files are valid at a time, and how many there are after the folder was cleaned at that time.
fn cleaned(alloc: Global, disk: &mut MemoryDisk, now: u64) -> Result<(usize, usize), StoreError> {
    let valid = valid(alloc, disk, now)?;
    MDBShardFile::clean_shard_cache(alloc, disk, "b", BUFFER, now)?;
    Ok((valid, all_in_b(alloc, disk)?))
}

/// Copies the shard into the folder `b`, and exports it there under the key.
fn copy_and_export(
    alloc: Global,
    disk: &mut MemoryDisk,
    shard: &MDBShardFile,
) -> Result<(), StoreError> {
    close(shard.copy_into_target_directory(alloc, disk, "b")?);
    close(keyed(alloc, disk, shard, true)?);
    Ok(())
}

/// The same of the shard of `abc`.
fn write_two(alloc: Global, disk: &mut MemoryDisk) -> Result<(), StoreError> {
    let shard = written(alloc, disk)?;
    let answer = copy_and_export(alloc, disk, &shard);
    close(shard);
    answer
}

/// What is left of a folder of two shards, one of which expires at 110: at that time, and at the end of the buffer.
fn two_shards(alloc: Global, disk: &mut MemoryDisk) -> Result<[(usize, usize); 2], StoreError> {
    write_two(alloc, disk)?;
    Ok([
        cleaned(alloc, disk, 110)?,
        cleaned(alloc, disk, 110 + BUFFER)?,
    ])
}

#[test]
fn is_cleaned(rt: HostRuntime) -> Result<(), Fail> {
    let alloc = rt.alloc();
    let mut disk = MemoryDisk::new(alloc);
    let answer = two_shards(alloc, &mut disk);
    release(disk);
    assert_eq!(rt; answer?, [(2, 2), (1, 1)]);
    Ok(())
}

/// Gives the file of the shard of `abc` other bytes.
fn write_malformed(alloc: Global, disk: &mut MemoryDisk) -> Result<(), StoreError> {
    let shard = written(alloc, disk)?;
    let _ = disk.write(shard.path.as_str(), b"abc");
    close(shard);
    Ok(())
}

/// How many shard files of the folder `a` are loaded, where errors are skipped or not.
fn loaded_from_a(alloc: Global, disk: &mut MemoryDisk, skip: bool) -> Result<usize, StoreError> {
    let shards = MDBShardFile::load_managed_directory(
        alloc, disk, "a", skip, true, false, 0, 0, 0,
    )?;
    Ok(shards.len())
}

/// The error for a malformed file with the name of a shard, and how many are loaded where errors are skipped.
fn malformed(
    alloc: Global,
    disk: &mut MemoryDisk,
) -> Result<(Option<StoreError>, usize), StoreError> {
    write_malformed(alloc, disk)?;
    let error = loaded_from_a(alloc, disk, false).err();
    Ok((error, loaded_from_a(alloc, disk, true)?))
}

#[test]
fn malformed_file_is_skipped_if_wanted(rt: HostRuntime) -> Result<(), Fail> {
    let alloc = rt.alloc();
    let mut disk = MemoryDisk::new(alloc);
    let answer = malformed(alloc, &mut disk);
    release(disk);
    assert_eq!(rt; answer?, (Some(StoreError::UnexpectedEof), 0));
    Ok(())
}
