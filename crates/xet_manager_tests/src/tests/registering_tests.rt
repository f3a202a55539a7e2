//! Tests of registering shard files, on a disk in memory.

use crate::tests::exports::write;
use crate::tests::samples::{Manager, opened, release, run_of, totals};
use std::alloc::Global;
use std::test::Fail;
use xet_base::Text;
use xet_hash::StoreError;
use xet_io::MemoryDisk;
use xet_shard_samples::shard_of;

/// The path of the shard of `abc` in the folder `b`.
const PATH_IN_B: &str = "b/8285f56118ed97b102aafe3e2cc404ca510a016dde7acaa2c16d8c935fb38ae3.mdb";

/// How many shards are registered, and the runs of `abc` and `abd`.
type Seen = (usize, [Option<usize>; 2]);

fn seen(manager: &mut Manager) -> Result<Seen, StoreError> {
    let count = totals(manager)?.0;
    let first = run_of(manager, b"abc")?;
    Ok((count, [first, run_of(manager, b"abd")?]))
}

/// Imports the shards of `abc` and `abd`.
fn import(alloc: Global, manager: &mut Manager) -> Result<(), StoreError> {
    manager.import_shard_from_bytes(&shard_of(alloc, b"abc")?.0)?;
    manager.import_shard_from_bytes(&shard_of(alloc, b"abd")?.0)?;
    Ok(())
}

/// Replaces the shards by the second, and registers all again.
fn replaced(manager: &mut Manager) -> Result<[Seen; 2], StoreError> {
    let shards = manager.registered_shard_list()?;
    let Some((_, others)) = shards.split_first() else {
        return Err(StoreError::FileNotFound);
    };
    manager.replace_shards(others)?;
    let fewer = seen(manager)?;
    manager.register_shards(&shards)?;
    Ok([fewer, seen(manager)?])
}

/// What is seen of two shards, after they were replaced, and after they were registered again.
fn imported(alloc: Global, manager: &mut Manager) -> Result<[Seen; 3], StoreError> {
    import(alloc, manager)?;
    let both = seen(manager)?;
    let [fewer, again] = replaced(manager)?;
    Ok([both, fewer, again])
}

fn imported_into_empty(alloc: Global) -> Result<[Seen; 3], StoreError> {
    let mut manager = opened(alloc, MemoryDisk::new(alloc), 10_000, true)?;
    let answer = imported(alloc, &mut manager);
    release(manager);
    answer
}

#[test]
fn shards_are_replaced(rt: HostRuntime) -> Result<(), Fail> {
    let answer = imported_into_empty(rt.alloc())?;
    let both = (2, [Some(1), Some(1)]);
    assert_eq!(rt; answer, [both, (1, [None, Some(1)]), both]);
    Ok(())
}

/// What is seen before and after the folder is loaded.
fn refreshed(manager: &mut Manager) -> Result<[Seen; 2], StoreError> {
    let before = seen(manager)?;
    manager.refresh_shard_dir(false, 0, 0)?;
    Ok([before, seen(manager)?])
}

/// The same by a manager that did not scan this disk.
fn refreshed_on(alloc: Global, disk: MemoryDisk) -> Result<[Seen; 2], StoreError> {
    let mut manager = opened(alloc, disk, 10_000, false)?;
    let answer = refreshed(&mut manager);
    release(manager);
    answer
}

/// The same where another manager imported two shards.
fn refreshed_after_another(alloc: Global) -> Result<[Seen; 2], StoreError> {
    let mut manager = opened(alloc, MemoryDisk::new(alloc), 10_000, true)?;
    let imported = import(alloc, &mut manager);
    let answer = refreshed_on(alloc, manager.into_disk());
    imported?;
    answer
}

#[test]
fn shards_of_another_manager_are_found(rt: HostRuntime) -> Result<(), Fail> {
    let answer = refreshed_after_another(rt.alloc())?;
    assert_eq!(rt; answer, [(0, [None, None]), (2, [Some(1), Some(1)])]);
    Ok(())
}

/// Writes the shard of `abc` into the folder `b`.
fn put(alloc: Global, disk: &mut MemoryDisk) -> Result<(), StoreError> {
    write(alloc, disk, b"abc")?;
    Ok(())
}

/// What is seen after the shard of `abc` was registered by the path of its folder, and then by its own path.
fn by_path(alloc: Global, manager: &mut Manager) -> Result<[Seen; 2], StoreError> {
    let folder = Text::new(String::from_str(alloc, "b")?);
    manager.register_shards_by_path(&[folder], 0)?;
    let once = seen(manager)?;
    let path = Text::new(String::from_str(alloc, PATH_IN_B)?);
    manager.register_shards_by_path(&[path], 0)?;
    Ok([once, seen(manager)?])
}

/// The same by a manager over the folder `a` of this disk.
fn by_path_on(alloc: Global, disk: MemoryDisk) -> Result<[Seen; 2], StoreError> {
    let mut manager = opened(alloc, disk, 10_000, true)?;
    let answer = by_path(alloc, &mut manager);
    release(manager);
    answer
}

/// The same where the shard of `abc` is in the folder `b`.
fn by_path_of_written(alloc: Global) -> Result<[Seen; 2], StoreError> {
    let mut disk = MemoryDisk::new(alloc);
    let written = put(alloc, &mut disk);
    let answer = by_path_on(alloc, disk);
    written?;
    answer
}

#[test]
fn shard_is_registered_by_path(rt: HostRuntime) -> Result<(), Fail> {
    let answer = by_path_of_written(rt.alloc())?;
    assert_eq!(rt; answer, [(1, [Some(1), None]); 2]);
    Ok(())
}
