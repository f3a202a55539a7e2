//! Shard files on a disk in memory.

use crate::tests::samples::shard_of_abc;
use std::alloc::Global;
use xet_hash::{HMACKey, StoreError, compute_data_hash};
use xet_io::{MemoryDisk, SliceSource};
use xet_shard_directory::MDBShardFile;

/// The path of the shard of `abc` in the folder `a`.
pub const PATH: &str = "a/8285f56118ed97b102aafe3e2cc404ca510a016dde7acaa2c16d8c935fb38ae3.mdb";

/// Writes the shard of `abc` into the folder `a`.
pub fn written(alloc: Global, disk: &mut MemoryDisk) -> Result<MDBShardFile, StoreError> {
    let (bytes, _) = shard_of_abc(alloc)?;
    if bytes.len() != 672 {
        return Err(StoreError::UnexpectedEof);
    }
    MDBShardFile::write_out_from_reader(alloc, disk, "a", &mut SliceSource::new(&bytes))
}

/// The shard under the key of these bytes, as it is exported with or without its lookup tables.
pub fn keyed(
    alloc: Global,
    disk: &mut MemoryDisk,
    shard: &MDBShardFile,
    lookups: bool,
) -> Result<MDBShardFile, StoreError> {
    let none = HMACKey::default();
    let key = compute_data_hash(b"key");
    if key == none || shard.shard.metadata.chunk_hash_hmac_key != none {
        return Err(StoreError::HashMismatch);
    }
    shard.export_as_keyed_shard(alloc, disk, "b", key, 10, true, lookups, lookups, 100)
}

/// Drops the value of a shard file.
pub fn close(shard: MDBShardFile) {
    let _ = &shard;
}

/// Drops a disk.
pub fn release(disk: MemoryDisk) {
    let _ = &disk;
}
