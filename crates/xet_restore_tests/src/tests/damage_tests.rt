//! Tests of reads over a folder in which one byte of a stored chunk has changed.

use crate::tests::samples::{FOLDER, damage, release, store_file};
use std::alloc::Global;
use std::test::Fail;
use xet_hash::{MerkleHash, StoreError};
use xet_io::{MemoryDisk, MemorySink};
use xet_restore::{check_files, read_file, write_verified};

/// Stores the file, changes a byte of its second chunk, and returns the file's hash.
fn store_damaged(alloc: Global, disk: &mut MemoryDisk) -> Result<MerkleHash, StoreError> {
    let hash = store_file(alloc, disk)?;
    damage(alloc, disk)?;
    Ok(hash)
}

/// The errors of a read of the file, and of a check of the folder.
fn errors(alloc: Global, disk: &mut MemoryDisk) -> Result<[Option<StoreError>; 2], StoreError> {
    let hash = store_damaged(alloc, disk)?;
    let read = read_file(alloc, disk, FOLDER, &hash).err();
    let checked = check_files(alloc, disk, FOLDER).err();
    Ok([read, checked])
}

#[test]
fn damaged_file_is_not_read(rt: HostRuntime) -> Result<(), Fail> {
    let mut disk = MemoryDisk::new(rt.alloc());
    let answer = errors(rt.alloc(), &mut disk);
    release(disk);
    let mismatch = Some(StoreError::HashMismatch);
    assert_eq!(rt; answer?, [mismatch, mismatch]);
    Ok(())
}

/// What is written of bytes FROM..TO of the file, and the error.
fn range(
    alloc: Global,
    disk: &mut MemoryDisk,
    from: u64,
    to: u64,
) -> Result<(Vec<u8>, Option<StoreError>), StoreError> {
    let hash = store_damaged(alloc, disk)?;
    let mut sink = MemorySink::new(alloc);
    let error = write_verified(alloc, disk, FOLDER, &hash, from, to, &mut sink).err();
    Ok((sink.into_bytes(), error))
}

/// Whether these bytes were written, and then this error returned.
fn has_written(
    answer: Result<(Vec<u8>, Option<StoreError>), StoreError>,
    bytes: &[u8],
    error: Option<StoreError>,
) -> Result<bool, StoreError> {
    let (written, found) = answer?;
    Ok(written.as_slice() == bytes && found == error)
}

#[test]
fn range_of_a_whole_chunk_is_written(rt: HostRuntime) -> Result<(), Fail> {
    let mut disk = MemoryDisk::new(rt.alloc());
    let answer = range(rt.alloc(), &mut disk, 0, 3);
    release(disk);
    assert_eq!(rt; has_written(answer, b"abc", None)?, true);
    Ok(())
}

#[test]
fn nothing_of_a_damaged_chunk_is_written(rt: HostRuntime) -> Result<(), Fail> {
    let mut disk = MemoryDisk::new(rt.alloc());
    let answer = range(rt.alloc(), &mut disk, 1, 5);
    release(disk);
    assert_eq!(rt;
        has_written(answer, b"bc", Some(StoreError::HashMismatch))?,
        true
    );
    Ok(())
}
