//! A shard that was exported under a key, on a disk in memory.

use crate::tests::samples::release_disk;
use std::alloc::Global;
use xet_hash::{HMACKey, StoreError, compute_data_hash};
use xet_io::{MemoryDisk, SliceSource};
use xet_shard_directory::MDBShardFile;
use xet_shard_samples::shard_of;

/// The time at which the export expires, in seconds since the Unix epoch.
pub const EXPIRY: u64 = 110;

/// Writes the shard of these three bytes into the folder `b`.
pub fn write(
    alloc: Global,
    disk: &mut MemoryDisk,
    bytes: &[u8],
) -> Result<MDBShardFile, StoreError> {
    let (bytes, _) = shard_of(alloc, bytes)?;
    if bytes.len() != 672 {
        return Err(StoreError::UnexpectedEof);
    }
    MDBShardFile::write_out_from_reader(alloc, disk, "b", &mut SliceSource::new(&bytes))
}

/// Exports it under a key into the folder `a`, with files and lookup tables or without.
fn export(
    alloc: Global,
    disk: &mut MemoryDisk,
    bytes: &[u8],
    whole: bool,
) -> Result<MDBShardFile, StoreError> {
    let shard = write(alloc, disk, bytes)?;
    let key = compute_data_hash(b"key");
    let none = HMACKey::default();
    if key == none || shard.shard.metadata.chunk_hash_hmac_key != none {
        return Err(StoreError::HashMismatch);
    }
    shard.export_as_keyed_shard(alloc, disk, "a", key, 10, whole, whole, whole, 100)
}

/// Exports that of `abc`.
fn export_abc(alloc: Global, disk: &mut MemoryDisk, whole: bool) -> Result<(), StoreError> {
    export(alloc, disk, b"abc", whole)?;
    Ok(())
}

/// A disk with this export, and the error of the export.
pub fn exported(alloc: Global, whole: bool) -> (MemoryDisk, Result<(), StoreError>) {
    let mut disk = MemoryDisk::new(alloc);
    let answer = export_abc(alloc, &mut disk, whole);
    (disk, answer)
}

/// The bytes of the export of the shard of these three bytes.
fn read_export(alloc: Global, disk: &mut MemoryDisk, bytes: &[u8]) -> Result<Vec<u8>, StoreError> {
    let shard = export(alloc, disk, bytes, true)?;
    let mut buffer = Vec::new(alloc);
    shard.read_into_buffer(disk, &mut buffer)?;
    Ok(buffer)
}

/// The same on a disk of its own.
pub fn bytes_of_export(alloc: Global, bytes: &[u8]) -> Result<Vec<u8>, StoreError> {
    let mut disk = MemoryDisk::new(alloc);
    let answer = read_export(alloc, &mut disk, bytes);
    release_disk(disk);
    answer
}
