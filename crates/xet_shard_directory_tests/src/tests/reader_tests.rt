//! Tests of the readers that a shard file gives of itself.

use crate::tests::shard_files::{close, release, written};
use std::alloc::Global;
use std::test::Fail;
use xet_hash::{MerkleHash, StoreError, compute_data_hash};
use xet_io::{Disk, MemoryDisk, ReadAt};
use xet_shard_directory::{MDBShardFile, ReaderIfPresent};

/// The number of bytes that the reader of a shard file has.
fn reader_length(disk: &mut MemoryDisk, shard: &MDBShardFile) -> Result<u64, StoreError> {
    match shard.get_reader(disk) {
        Ok(mut reader) => Ok(reader.length().unwrap_or(0)),
        Err(refused) => Err(refused.into_error()),
    }
}

/// The digest of the first 672 bytes that the reader of a shard file has, and how many bytes were read.
fn read_by(disk: &mut MemoryDisk, shard: &MDBShardFile) -> Result<(MerkleHash, usize), StoreError> {
    let mut bytes = [0; 672];
    match shard.get_reader(disk) {
        Ok(mut reader) => {
            let count = reader.read_at(0, &mut bytes).unwrap_or(0);
            Ok((compute_data_hash(&bytes), count))
        }
        Err(refused) => Err(refused.into_error()),
    }
}

/// Whether the reader of the shard of `abc` reads all the bytes of which the file is named.
fn reads_named_bytes(alloc: Global, disk: &mut MemoryDisk) -> Result<bool, StoreError> {
    let shard = written(alloc, disk)?;
    let read = read_by(disk, &shard);
    let hash = shard.shard_hash;
    close(shard);
    Ok(read? == (hash, 672))
}

/// The same length, or none if there is no file.
fn length_if_present(
    disk: &mut MemoryDisk,
    shard: &MDBShardFile,
) -> Result<Option<u64>, StoreError> {
    match shard.get_reader_if_present(disk) {
        Ok(ReaderIfPresent::Present(mut reader)) => Ok(reader.length().ok()),
        Ok(ReaderIfPresent::Absent(_disk)) => Ok(None),
        Err(refused) => Err(refused.into_error()),
    }
}

/// The lengths that readers of a shard file have.
type Lengths = (Result<u64, StoreError>, Option<u64>);

fn lengths(disk: &mut MemoryDisk, shard: &MDBShardFile) -> Result<Lengths, StoreError> {
    let length = reader_length(disk, shard);
    Ok((length, length_if_present(disk, shard)?))
}

/// The lengths for the shard of `abc`, which is removed before if so wanted.
fn written_and_read(
    alloc: Global,
    disk: &mut MemoryDisk,
    is_removed: bool,
) -> Result<Lengths, StoreError> {
    let shard = written(alloc, disk)?;
    if is_removed {
        let _ = disk.remove(shard.path.as_str());
    }
    let lengths = lengths(disk, &shard);
    close(shard);
    lengths
}

#[test]
fn reader_has_the_file(rt: HostRuntime) -> Result<(), Fail> {
    let alloc = rt.alloc();
    let mut disk = MemoryDisk::new(alloc);
    let answer = written_and_read(alloc, &mut disk, false);
    release(disk);
    assert_eq!(rt; answer?, (Ok(672), Some(672)));
    Ok(())
}

#[test]
fn reader_reads_the_named_bytes(rt: HostRuntime) -> Result<(), Fail> {
    let alloc = rt.alloc();
    let mut disk = MemoryDisk::new(alloc);
    let answer = reads_named_bytes(alloc, &mut disk);
    release(disk);
    assert_eq!(rt; answer?, true);
    Ok(())
}

#[test]
fn absent_file_has_no_reader(rt: HostRuntime) -> Result<(), Fail> {
    let alloc = rt.alloc();
    let mut disk = MemoryDisk::new(alloc);
    let answer = written_and_read(alloc, &mut disk, true);
    release(disk);
    assert_eq!(rt; answer?, (Err(StoreError::FileNotFound), None));
    Ok(())
}
