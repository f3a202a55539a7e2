//! Tests of a manager over a shard that was exported under a key, on a disk in memory.

use crate::tests::exports::{bytes_of_export, exported};
use crate::tests::samples::{Manager, opened, release, run_of, shard_with, totals};
use std::alloc::Global;
use std::test::Fail;
use xet_hash::StoreError;
use xet_io::MemoryDisk;

/// The totals, the runs of `abc` and `abd`, and whether the file of `abc` is found.
type Seen = ((usize, [u64; 2]), [Option<usize>; 2], bool);

fn seen(alloc: Global, manager: &mut Manager) -> Result<Seen, StoreError> {
    let totals = totals(manager)?;
    let runs = [run_of(manager, b"abc")?, run_of(manager, b"abd")?];
    Ok((totals, runs, shard_with(alloc, manager, b"abc")?.is_some()))
}

/// The same of a manager over this disk.
fn seen_on(alloc: Global, disk: MemoryDisk) -> Result<Seen, StoreError> {
    let mut manager = opened(alloc, disk, 10_000, true)?;
    let answer = seen(alloc, &mut manager);
    release(manager);
    answer
}

/// The same of the export with files and lookup tables, or without.
fn seen_of_export(alloc: Global, whole: bool) -> Result<Seen, StoreError> {
    let (disk, exported) = exported(alloc, whole);
    let answer = seen_on(alloc, disk);
    exported?;
    answer
}

#[test]
fn run_is_found_through_a_key(rt: HostRuntime) -> Result<(), Fail> {
    let alloc = rt.alloc();
    let runs = [Some(1), None];
    assert_eq!(rt; seen_of_export(alloc, true)?, ((1, [3, 3]), runs, true));
    assert_eq!(rt; seen_of_export(alloc, false)?, ((1, [0, 3]), runs, false));
    Ok(())
}

/// Imports the shard of these three bytes, exported under a key.
fn import_export(alloc: Global, manager: &mut Manager, bytes: &[u8]) -> Result<(), StoreError> {
    let export = bytes_of_export(alloc, bytes)?;
    manager.import_shard_from_bytes(&export)?;
    Ok(())
}

/// What is seen after the exports of `abc` and `abd` under one key were imported.
fn imported(alloc: Global, manager: &mut Manager) -> Result<Seen, StoreError> {
    import_export(alloc, manager, b"abc")?;
    import_export(alloc, manager, b"abd")?;
    seen(alloc, manager)
}

fn imported_into_empty(alloc: Global) -> Result<Seen, StoreError> {
    let mut manager = opened(alloc, MemoryDisk::new(alloc), 10_000, true)?;
    let answer = imported(alloc, &mut manager);
    release(manager);
    answer
}

#[test]
fn keyed_shards_are_imported(rt: HostRuntime) -> Result<(), Fail> {
    let runs = [Some(1), Some(1)];
    assert_eq!(rt; imported_into_empty(rt.alloc())?, ((2, [6, 6]), runs, true));
    Ok(())
}
