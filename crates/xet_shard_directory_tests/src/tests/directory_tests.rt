//! Tests of shard files on a disk in memory.

use crate::tests::shard_files::{PATH, close, keyed, release, written};
use std::alloc::Global;
use std::test::Fail;
use xet_hash::{Reason, StoreError, compute_data_hash, file_hash};
use xet_io::{Disk, MemoryDisk};
use xet_shard_directory::MDBShardFile;

/// Whether the values of two shard files are the same.
fn are_same(shard: &MDBShardFile, other: &MDBShardFile) -> bool {
    shard.shard_hash == other.shard_hash
        && shard.path.as_str() == other.path.as_str()
        && shard.shard == other.shard
        && shard.last_modified_time == other.last_modified_time
}

/// Whether the value that is loaded from the file's path is that which was returned when it was written.
fn is_loaded(
    alloc: Global,
    disk: &mut MemoryDisk,
    shard: &MDBShardFile,
) -> Result<bool, StoreError> {
    let loaded = MDBShardFile::load_from_file(alloc, disk, shard.path.as_str())?;
    let answer = are_same(&loaded, shard);
    close(loaded);
    Ok(answer)
}

/// The numbers of blocks, files, and items of the two lookup tables of xorbs.
fn counts(
    alloc: Global,
    disk: &mut MemoryDisk,
    shard: &MDBShardFile,
) -> Result<[usize; 4], StoreError> {
    Ok([
        shard.read_all_xorb_blocks(alloc, disk)?.len(),
        shard.read_all_file_info_sections(alloc, disk)?.len(),
        shard.read_full_xorb_lookup(alloc, disk)?.len(),
        shard.read_all_truncated_hashes(alloc, disk)?.len(),
    ])
}

/// Whether a chunk is found by its hash and by its place, and a file by its hash.
fn finds(
    alloc: Global,
    disk: &mut MemoryDisk,
    shard: &MDBShardFile,
) -> Result<[bool; 3], StoreError> {
    let chunk = compute_data_hash(b"abc");
    let file = file_hash(alloc, &[(chunk, 3)])?;
    Ok([
        shard
            .chunk_hash_dedup_query(alloc, disk, &[chunk])?
            .is_some_and(|run| run.0 == 1),
        shard
            .chunk_hash_dedup_query_direct(alloc, disk, &[chunk], 0, 0)?
            .is_some_and(|run| run.0 == 1),
        shard
            .get_file_reconstruction_info(alloc, disk, &file)?
            .is_some(),
    ])
}

/// The number of bytes that the shard file gives.
fn bytes_of(
    alloc: Global,
    disk: &mut MemoryDisk,
    shard: &MDBShardFile,
) -> Result<usize, StoreError> {
    let mut buffer = Vec::new(alloc);
    shard.read_into_buffer(disk, &mut buffer)?;
    Ok(buffer.len())
}

/// What is seen of a shard file: counts, whether its chunk and its file are found, its length, whether it is loaded as it
/// was written, and whether it is stale.
type Seen = ([usize; 4], [bool; 3], usize, bool, bool);

fn seen(alloc: Global, disk: &mut MemoryDisk, shard: &MDBShardFile) -> Result<Seen, StoreError> {
    Ok((
        counts(alloc, disk, shard)?,
        finds(alloc, disk, shard)?,
        bytes_of(alloc, disk, shard)?,
        is_loaded(alloc, disk, shard)?,
        shard.purge_if_needed(disk)?,
    ))
}

/// Whether the shard of `abc` has its path, and what is seen of it.
fn written_and_seen(alloc: Global, disk: &mut MemoryDisk) -> Result<(bool, Seen), StoreError> {
    let shard = written(alloc, disk)?;
    let is_there = shard.path.as_str() == PATH;
    let seen = seen(alloc, disk, &shard);
    close(shard);
    Ok((is_there, seen?))
}

#[test]
fn is_written_loaded_and_queried(rt: HostRuntime) -> Result<(), Fail> {
    let alloc = rt.alloc();
    let mut disk = MemoryDisk::new(alloc);
    let answer = written_and_seen(alloc, &mut disk);
    release(disk);
    assert_eq!(rt; answer?, (true, ([1; 4], [true; 3], 672, true, false)));
    Ok(())
}

/// What is seen of an absent shard file: three errors, what is found, and whether it is stale.
type Missed = ([Option<StoreError>; 3], [bool; 3], bool);

fn missed(
    alloc: Global,
    disk: &mut MemoryDisk,
    shard: &MDBShardFile,
) -> Result<Missed, StoreError> {
    let errors = [
        counts(alloc, disk, shard).err(),
        is_loaded(alloc, disk, shard).err(),
        bytes_of(alloc, disk, shard).err(),
    ];
    let found = finds(alloc, disk, shard)?;
    Ok((errors, found, shard.purge_if_needed(disk)?))
}

/// What is seen of the shard of `abc` once its file is removed.
fn removed_and_missed(alloc: Global, disk: &mut MemoryDisk) -> Result<Missed, StoreError> {
    let shard = written(alloc, disk)?;
    let _ = disk.remove(shard.path.as_str());
    let missed = missed(alloc, disk, &shard);
    close(shard);
    missed
}

#[test]
fn is_gone(rt: HostRuntime) -> Result<(), Fail> {
    let alloc = rt.alloc();
    let mut disk = MemoryDisk::new(alloc);
    let answer = removed_and_missed(alloc, &mut disk);
    release(disk);
    let missing = Some(StoreError::FileNotFound);
    assert_eq!(rt; answer?, ([missing; 3], [false; 3], true));
    Ok(())
}

/// The errors for paths that do not end in the name of a shard.
fn refused(alloc: Global, disk: &mut MemoryDisk) -> [Option<StoreError>; 3] {
    [
        MDBShardFile::load_from_file(alloc, disk, "x.txt").err(),
        MDBShardFile::load_from_file(alloc, disk, "a/b.mdb").err(),
        MDBShardFile::load_from_file(alloc, disk, "").err(),
    ]
}

#[test]
fn name_is_no_shards(rt: HostRuntime) -> Result<(), Fail> {
    let alloc = rt.alloc();
    let mut disk = MemoryDisk::new(alloc);
    let answer = refused(alloc, &mut disk);
    release(disk);
    assert_eq!(rt; answer, [Some(StoreError::BadFilename); 3]);
    Ok(())
}

/// What a copy has: whether its name is that of the original, its creation and expiry, and what is found in it.
type Copied = (bool, u64, u64, [bool; 3]);

fn of_copy(
    alloc: Global,
    disk: &mut MemoryDisk,
    shard: &MDBShardFile,
    copy: &MDBShardFile,
) -> Result<Copied, StoreError> {
    Ok((
        copy.shard_hash == shard.shard_hash,
        copy.shard.metadata.shard_creation_timestamp,
        copy.shard.metadata.shard_key_expiry,
        finds(alloc, disk, copy)?,
    ))
}

/// The same, unless it is an error. The copy is dropped.
fn copied(
    alloc: Global,
    disk: &mut MemoryDisk,
    shard: &MDBShardFile,
    copy: Result<MDBShardFile, StoreError>,
) -> Result<Copied, StoreError> {
    let copy = copy?;
    let answer = of_copy(alloc, disk, shard, &copy);
    close(copy);
    answer
}

/// A copy, and two exports with other times.
fn copies_of(
    alloc: Global,
    disk: &mut MemoryDisk,
    shard: &MDBShardFile,
) -> Result<[Copied; 3], StoreError> {
    let same = shard.copy_into_target_directory(alloc, disk, "b");
    let same = copied(alloc, disk, shard, same)?;
    let timed = shard.export_with_specific_expiration(alloc, disk, "b", 100, 50);
    let timed = copied(alloc, disk, shard, timed)?;
    let long = shard.export_with_expiration(alloc, disk, "b", u64::MAX, 5);
    Ok([same, timed, copied(alloc, disk, shard, long)?])
}

/// The same of the shard of `abc`.
fn copies(alloc: Global, disk: &mut MemoryDisk) -> Result<[Copied; 3], StoreError> {
    let shard = written(alloc, disk)?;
    let answer = copies_of(alloc, disk, &shard);
    close(shard);
    answer
}

#[test]
fn is_copied_with_other_times(rt: HostRuntime) -> Result<(), Fail> {
    let alloc = rt.alloc();
    let mut disk = MemoryDisk::new(alloc);
    let answer = copies(alloc, &mut disk);
    release(disk);
    let found = [true; 3];
    let rows = [
        (true, 0, u64::MAX, found),
        (false, 50, 100, found),
        (false, 5, u64::MAX, found),
    ];
    assert_eq!(rt; answer?, rows);
    Ok(())
}

/// The exports under a key, with and without lookup tables.
fn exports_of(
    alloc: Global,
    disk: &mut MemoryDisk,
    shard: &MDBShardFile,
) -> Result<[Copied; 2], StoreError> {
    let whole = keyed(alloc, disk, shard, true);
    let whole = copied(alloc, disk, shard, whole)?;
    let bare = keyed(alloc, disk, shard, false);
    Ok([whole, copied(alloc, disk, shard, bare)?])
}

/// The same of the shard of `abc`.
fn exports(alloc: Global, disk: &mut MemoryDisk) -> Result<[Copied; 2], StoreError> {
    let shard = written(alloc, disk)?;
    let answer = exports_of(alloc, disk, &shard);
    close(shard);
    answer
}

#[test]
fn is_exported_under_a_key(rt: HostRuntime) -> Result<(), Fail> {
    let alloc = rt.alloc();
    let mut disk = MemoryDisk::new(alloc);
    let answer = exports(alloc, &mut disk);
    release(disk);
    assert_eq!(rt; answer?, [(false, 100, 110, [true; 3]); 2]);
    Ok(())
}

/// The name to which the file is moved.
const OTHER: &str = "a/other.mdb";

/// The first check that fails of the file that was moved to another name, and then given other bytes.
fn failing(
    alloc: Global,
    disk: &mut MemoryDisk,
    moved: &MDBShardFile,
) -> Result<[Option<Reason>; 2], StoreError> {
    let named = moved.verify_shard_integrity(alloc, disk)?;
    let _ = disk.write(OTHER, b"abc");
    Ok([named, moved.verify_shard_integrity(alloc, disk)?])
}

/// The same of the file of this shard.
fn failing_once_moved(
    alloc: Global,
    disk: &mut MemoryDisk,
    shard: &MDBShardFile,
) -> Result<[Option<Reason>; 2], StoreError> {
    let _ = disk.rename(shard.path.as_str(), OTHER);
    let path = String::from_str(alloc, OTHER)?;
    let moved = MDBShardFile::new(disk, shard.shard_hash, path, shard.shard)?;
    let answer = failing(alloc, disk, &moved);
    close(moved);
    answer
}

/// The first check that fails of a shard file as it was written, moved, and given other bytes.
fn verified_of(
    alloc: Global,
    disk: &mut MemoryDisk,
    shard: &MDBShardFile,
) -> Result<[Option<Reason>; 4], StoreError> {
    let whole = shard.verify_shard_integrity(alloc, disk)?;
    let again = shard.verify_shard_integrity_debug_only(alloc, disk)?;
    let [named, hashed] = failing_once_moved(alloc, disk, shard)?;
    Ok([whole, again, named, hashed])
}

/// The same of the shard of `abc`.
fn verified(alloc: Global, disk: &mut MemoryDisk) -> Result<[Option<Reason>; 4], StoreError> {
    let shard = written(alloc, disk)?;
    let answer = verified_of(alloc, disk, &shard);
    close(shard);
    answer
}

#[test]
fn is_verified(rt: HostRuntime) -> Result<(), Fail> {
    let alloc = rt.alloc();
    let mut disk = MemoryDisk::new(alloc);
    let answer = verified(alloc, &mut disk);
    release(disk);
    let named = Some(Reason::ShardName);
    assert_eq!(rt; answer?, [None, None, named, Some(Reason::ShardHash)]);
    Ok(())
}

/// Whether the path of no shard file is empty, and the length of its file.
fn of_default(alloc: Global) -> (bool, u64) {
    let shard = MDBShardFile::default(alloc);
    (shard.path.as_str() == "", shard.shard.num_bytes())
}

#[test]
fn default_is_empty(rt: HostRuntime) -> Result<(), Fail> {
    assert_eq!(rt; of_default(rt.alloc()), (true, 200));
    Ok(())
}
