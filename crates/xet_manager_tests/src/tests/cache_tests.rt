//! Tests of a manager over a shard that expires, on a disk in memory.

use crate::tests::exports::{EXPIRY, exported};
use crate::tests::samples::{BUFFER, Manager, error_of, opened_in, release_disk, settings, totals};
use std::alloc::Global;
use std::test::Fail;
use xet_hash::StoreError;
use xet_io::MemoryDisk;
use xet_manager::{ManagerSettings, ShardFileManager};
use xet_shard_directory::MDBShardFile;

/// How many shard files the folder `a` has, expired or not.
pub fn files_in_a(alloc: Global, disk: &mut MemoryDisk) -> Result<usize, StoreError> {
    let shards = MDBShardFile::load_managed_directory(
        alloc, disk, "a", false, true, false, 0, 0, 0,
    )?;
    Ok(shards.len())
}

/// How many shards are registered, and how many shard files the folder has.
type Left = (usize, usize);

fn left(alloc: Global, manager: Manager) -> Result<Left, StoreError> {
    let totals = totals(&manager);
    let mut disk = manager.into_disk();
    let files = files_in_a(alloc, &mut disk);
    release_disk(disk);
    Ok((totals?.0, files?))
}

/// What is left by a manager that is opened over the folder as a cache at a time.
fn left_on(
    alloc: Global,
    disk: MemoryDisk,
    settings: ManagerSettings,
    now: u64,
) -> Result<Left, StoreError> {
    let folder = String::from_str(alloc, "a")?;
    match ShardFileManager::new_in_cache_directory(alloc, disk, folder, settings, now) {
        Ok(manager) => left(alloc, manager),
        Err(refused) => Err(error_of(refused)),
    }
}

/// Settings with this limit and this buffer.
fn settings_of(limit: u64, buffer: u64) -> ManagerSettings {
    let mut settings = settings(10_000);
    settings.cache_limit = limit;
    settings.buffer = buffer;
    settings
}

/// The same where the folder has the export.
fn left_at(alloc: Global, settings: ManagerSettings, now: u64) -> Result<Left, StoreError> {
    let (disk, exported) = exported(alloc, true);
    let answer = left_on(alloc, disk, settings, now);
    exported?;
    answer
}

#[test]
fn expired_shard_is_deleted_after_the_buffer(rt: HostRuntime) -> Result<(), Fail> {
    let rows = [
        (BUFFER, EXPIRY, (1, 1)),
        (BUFFER, EXPIRY + 1, (0, 1)),
        (BUFFER, EXPIRY + BUFFER - 1, (0, 1)),
        (BUFFER, EXPIRY + BUFFER, (0, 0)),
        (0, EXPIRY, (1, 1)),
        (0, EXPIRY + 1, (0, 0)),
        (u64::MAX, u64::MAX - 1, (0, 1)),
        (u64::MAX, u64::MAX, (0, 0)),
    ];
    for (buffer, now, left) in rows {
        assert_eq!(rt; left_at(rt.alloc(), settings_of(0, buffer), now)?, left);
    }
    Ok(())
}

#[test]
fn cache_is_pruned_to_its_limit(rt: HostRuntime) -> Result<(), Fail> {
    for (limit, left) in [(672, (1, 1)), (671, (0, 0))] {
        assert_eq!(rt;
            left_at(rt.alloc(), settings_of(limit, BUFFER), EXPIRY)?,
            left
        );
    }
    Ok(())
}

/// Cleans the folder at two times.
fn clean(manager: &mut Manager, times: [u64; 2]) -> Result<(), StoreError> {
    let [first, second] = times;
    manager.clean_expired_shards_if_needed(first)?;
    manager.clean_expired_shards_if_needed(second)
}

/// What is left by a manager that was opened when the shard was valid, and then cleaned twice.
fn left_by_cleaning(
    alloc: Global,
    disk: MemoryDisk,
    buffer: u64,
    times: [u64; 2],
) -> Result<Left, StoreError> {
    let mut manager = opened_in(alloc, disk, "a", settings_of(0, buffer), true)?;
    let cleaned = clean(&mut manager, times);
    let answer = left(alloc, manager);
    cleaned?;
    answer
}

/// The same where the folder has the export.
fn cleaned_at(alloc: Global, buffer: u64, times: [u64; 2]) -> Result<Left, StoreError> {
    let (disk, exported) = exported(alloc, true);
    let answer = left_by_cleaning(alloc, disk, buffer, times);
    exported?;
    answer
}

#[test]
fn folder_is_cleaned_once(rt: HostRuntime) -> Result<(), Fail> {
    let late = EXPIRY + BUFFER;
    let rows = [
        (BUFFER, [late - 1, late], (1, 1)),
        (BUFFER, [late, late], (1, 0)),
        (0, [EXPIRY - 1, EXPIRY], (1, 1)),
        (0, [EXPIRY, EXPIRY], (1, 0)),
    ];
    for (buffer, times, left) in rows {
        assert_eq!(rt; cleaned_at(rt.alloc(), buffer, times)?, left);
    }
    Ok(())
}
