//! Managers over a disk in memory, and what is seen of them.

ghost use Rattle.std.specs.Prelude.{◌≡◌, IfOk};
ghost use Rattle.xet_shard.specs.Held.{nothing};

use std::alloc::Global;
use xet_hash::{MerkleHash, Refused, StoreError, compute_data_hash, file_hash};
use xet_io::MemoryDisk;
use xet_manager::{ManagerSettings, ShardFileManager};
use xet_shard_samples::shard_of;

/// A manager over a disk in memory.
pub type Manager = ShardFileManager<MemoryDisk>;

/// The path of the shard of `abc` in the folder `a`.
pub const PATH: &str = "a/8285f56118ed97b102aafe3e2cc404ca510a016dde7acaa2c16d8c935fb38ae3.mdb";

/// How long an expired shard is retained, in seconds.
pub const BUFFER: u64 = 604_800;

/// Settings with this target. The index has room for some chunks, and the cache has no limit.
pub fn settings(target: u64) -> ManagerSettings
    ensures { result.target ≡ target }
{
    ManagerSettings {
        target,
        index_cap: 1_000,
        cache_limit: 0,
        buffer: BUFFER,
    }
}

/// A manager over a folder of this disk.
pub fn opened_in(
    alloc: Global,
    disk: MemoryDisk,
    folder: &str,
    settings: ManagerSettings,
    scan: bool,
) -> Result<Manager, StoreError>
    ensures empty { IfOk result (λ m. m.pending ≡ nothing) }
{
    let folder = String::from_str(alloc, folder)?;
    match ShardFileManager::new_in_session_directory(alloc, disk, folder, settings, 0, scan) {
        Ok(manager) => Ok(manager),
        Err(refused) => Err(error_of(refused)),
    }
}

/// A manager over the folder `a` of this disk.
pub fn opened(
    alloc: Global,
    disk: MemoryDisk,
    target: u64,
    scan: bool,
) -> Result<Manager, StoreError>
    ensures empty { IfOk result (λ m. m.pending ≡ nothing) }
{
    opened_in(alloc, disk, "a", settings(target), scan)
}

/// The error, without the disk.
pub fn error_of(refused: Refused<MemoryDisk>) -> StoreError {
    refused.error
}

/// Drops a manager.
pub fn release(manager: Manager) {
    let _disk = manager.into_disk();
}

/// Drops a disk.
pub fn release_disk(disk: MemoryDisk) {
    let _ = &disk;
}

/// The number of registered shards, and the bytes of their files and of their chunks.
pub fn totals(manager: &Manager) -> Result<(usize, [u64; 2]), StoreError> {
    Ok((
        manager.registered_shard_list()?.len(),
        [
            manager.calculate_total_materialized_bytes(),
            manager.calculate_total_stored_bytes(),
        ],
    ))
}

/// The number of chunks in the run that is found of the chunk of these bytes.
pub fn run_of(manager: &mut Manager, bytes: &[u8]) -> Result<Option<usize>, StoreError> {
    let chunk = compute_data_hash(bytes);
    Ok(manager.chunk_hash_dedup_query(&[chunk])?.map(|run| run.0))
}

/// The shard that has the file of these three bytes, `Some(None)` if that is pending; None if there is no record.
pub fn shard_with(
    alloc: Global,
    manager: &mut Manager,
    bytes: &[u8],
) -> Result<Option<Option<MerkleHash>>, StoreError> {
    let hash = file_hash(alloc, &[(compute_data_hash(bytes), 3)])?;
    Ok(
        manager
            .get_file_reconstruction_info(&hash)?
            .map(|answer| answer.1),
    )
}

/// The bytes of the shard of `abc`.
pub fn bytes_of_abc(alloc: Global) -> Result<Vec<u8>, StoreError> {
    let (bytes, _) = shard_of(alloc, b"abc")?;
    Ok(bytes)
}
