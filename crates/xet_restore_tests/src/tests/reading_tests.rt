//! Tests of each read over a whole folder.

use crate::tests::samples::{FOLDER, release, store_file};
use std::alloc::Global;
use std::test::Fail;
use xet_hash::{MerkleHash, StoreError};
use xet_io::{MemoryDisk, MemorySink};
use xet_restore::{VerifiedFile, check_files, read_file, write_verified};

/// Whether the file is read whole, with the lengths of its chunks.
fn reads_file(alloc: Global, disk: &mut MemoryDisk) -> Result<bool, StoreError> {
    let hash = store_file(alloc, disk)?;
    let file = read_file(alloc, disk, FOLDER, &hash)?;
    Ok(
        file.bytes.as_slice() == b"abcdef".as_slice()
            && file.lengths.as_slice() == [3, 3].as_slice(),
    )
}

#[test]
fn file_is_read(rt: HostRuntime) -> Result<(), Fail> {
    let mut disk = MemoryDisk::new(rt.alloc());
    let answer = reads_file(rt.alloc(), &mut disk);
    release(disk);
    assert_eq!(rt; answer?, true);
    Ok(())
}

/// The number of files that are checked.
fn checks_files(alloc: Global, disk: &mut MemoryDisk) -> Result<u64, StoreError> {
    store_file(alloc, disk)?;
    check_files(alloc, disk, FOLDER)
}

#[test]
fn files_are_checked(rt: HostRuntime) -> Result<(), Fail> {
    let mut disk = MemoryDisk::new(rt.alloc());
    let answer = checks_files(rt.alloc(), &mut disk);
    release(disk);
    assert_eq!(rt; answer?, 1);
    Ok(())
}

/// Bytes 2..5 of the file.
fn reads_range(alloc: Global, disk: &mut MemoryDisk) -> Result<Vec<u8>, StoreError> {
    let hash = store_file(alloc, disk)?;
    let mut sink = MemorySink::new(alloc);
    write_verified(alloc, disk, FOLDER, &hash, 2, 5, &mut sink)?;
    Ok(sink.into_bytes())
}

#[test]
fn range_is_written(rt: HostRuntime) -> Result<(), Fail> {
    let mut disk = MemoryDisk::new(rt.alloc());
    let answer = reads_range(rt.alloc(), &mut disk);
    release(disk);
    assert_eq!(rt; answer?.as_slice(), b"cde".as_slice());
    Ok(())
}

/// Bytes 0..2 and 5..6 of the file, which is opened once.
fn reads_ranges(alloc: Global, disk: &mut MemoryDisk) -> Result<Vec<u8>, StoreError> {
    let hash = store_file(alloc, disk)?;
    let file = VerifiedFile::open(alloc, disk, FOLDER, &hash)?;
    ranges_of(alloc, disk, &file)
}

/// Bytes 0..2 and 5..6 of a file.
fn ranges_of(
    alloc: Global,
    disk: &mut MemoryDisk,
    file: &VerifiedFile,
) -> Result<Vec<u8>, StoreError> {
    let mut sink = MemorySink::new(alloc);
    file.write(alloc, disk, FOLDER, 0, 2, &mut sink)?;
    file.write(alloc, disk, FOLDER, 5, 6, &mut sink)?;
    Ok(sink.into_bytes())
}

#[test]
fn ranges_are_written(rt: HostRuntime) -> Result<(), Fail> {
    let mut disk = MemoryDisk::new(rt.alloc());
    let answer = reads_ranges(rt.alloc(), &mut disk);
    release(disk);
    assert_eq!(rt; answer?.as_slice(), b"abf".as_slice());
    Ok(())
}

/// Looks for a file that is not there, and returns the error.
fn misses(alloc: Global, disk: &mut MemoryDisk) -> Result<Option<StoreError>, StoreError> {
    store_file(alloc, disk)?;
    Ok(read_file(alloc, disk, FOLDER, &MerkleHash::marker()).err())
}

#[test]
fn missing_file_is_not_found(rt: HostRuntime) -> Result<(), Fail> {
    let mut disk = MemoryDisk::new(rt.alloc());
    let answer = misses(rt.alloc(), &mut disk);
    release(disk);
    assert_eq!(rt; answer?, Some(StoreError::FileNotFound));
    Ok(())
}
