//! Tests of the folder of a manager, on a disk in memory.

use crate::tests::samples::{Manager, error_of, opened_in, release, settings};
use std::alloc::Global;
use std::test::Fail;
use xet_hash::StoreError;
use xet_io::MemoryDisk;
use xet_manager::ShardFileManager;

/// A manager over a folder that is a cache.
fn cache_in(alloc: Global, folder: &str) -> Result<Manager, StoreError> {
    let disk = MemoryDisk::new(alloc);
    let folder = String::from_str(alloc, folder)?;
    match ShardFileManager::new_in_cache_directory(alloc, disk, folder, settings(10_000), 0) {
        Ok(manager) => Ok(manager),
        Err(refused) => Err(error_of(refused)),
    }
}

/// Whether this is the folder of a manager. The manager is dropped.
fn is_folder_of(manager: Manager, folder: &str) -> bool {
    let answer = manager.shard_directory() == folder;
    release(manager);
    answer
}

/// Whether a manager over this folder has it, as that of a session and as a cache.
fn have_folder(alloc: Global, folder: &str) -> Result<[bool; 2], StoreError> {
    let disk = MemoryDisk::new(alloc);
    let session = is_folder_of(
        opened_in(alloc, disk, folder, settings(10_000), true)?,
        folder,
    );
    Ok([session, is_folder_of(cache_in(alloc, folder)?, folder)])
}

#[test]
fn folder_is_that_of_the_manager(rt: HostRuntime) -> Result<(), Fail> {
    for folder in ["a", "a/b", ""] {
        assert_eq!(rt; have_folder(rt.alloc(), folder)?, [true, true]);
    }
    Ok(())
}
