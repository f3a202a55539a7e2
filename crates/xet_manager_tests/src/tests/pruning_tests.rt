//! Tests of loading the folder of a manager while it is pruned, on a disk in memory.

use crate::tests::cache_tests::files_in_a;
use crate::tests::cutting_tests::{Three, runs};
use crate::tests::exports::write;
use crate::tests::samples::{Manager, opened, release_disk};
use std::alloc::Global;
use std::test::Fail;
use xet_hash::StoreError;
use xet_io::MemoryDisk;

/// Writes the shard of three bytes, with this creation time and without expiry, into the folder `a`.
fn put(
    alloc: Global,
    disk: &mut MemoryDisk,
    bytes: &[u8],
    creation: u64,
) -> Result<(), StoreError> {
    let shard = write(alloc, disk, bytes)?;
    shard.export_with_specific_expiration(alloc, disk, "a", u64::MAX, creation)?;
    Ok(())
}

/// Does this for three shards of 672 bytes. That of `abd` is the oldest, and that of `abe` the newest.
fn put_three(alloc: Global, disk: &mut MemoryDisk) -> Result<(), StoreError> {
    put(alloc, disk, b"abc", 60)?;
    put(alloc, disk, b"abd", 50)?;
    put(alloc, disk, b"abe", 70)
}

/// What a manager finds once the folder is loaded and pruned to this many bytes.
fn found(manager: &mut Manager, prune_to: u64) -> Result<Three, StoreError> {
    manager.refresh_shard_dir(false, prune_to, 100)?;
    runs(manager)
}

/// What is found, and how many shard files are left in the folder.
type Pruned = (Three, usize);

/// The same by a manager that scans this disk before, or does not.
fn pruned_on(
    alloc: Global,
    disk: MemoryDisk,
    scan: bool,
    prune_to: u64,
) -> Result<Pruned, StoreError> {
    let mut manager = opened(alloc, disk, 10_000, scan)?;
    let found = found(&mut manager, prune_to);
    let mut disk = manager.into_disk();
    let files = files_in_a(alloc, &mut disk);
    release_disk(disk);
    Ok((found?, files?))
}

/// The same of three shards.
fn pruned(alloc: Global, scan: bool, prune_to: u64) -> Result<Pruned, StoreError> {
    let mut disk = MemoryDisk::new(alloc);
    let written = put_three(alloc, &mut disk);
    let answer = pruned_on(alloc, disk, scan, prune_to);
    written?;
    answer
}

#[test]
fn oldest_shards_are_pruned_and_not_registered(rt: HostRuntime) -> Result<(), Fail> {
    let one = Some(1);
    let rows = [
        (0, [one, one, one], 3),
        (2_016, [one, one, one], 3),
        (2_015, [one, None, one], 2),
        (1_343, [None, None, one], 1),
        (671, [None, None, None], 0),
    ];
    for (prune_to, runs, left) in rows {
        let answer = pruned(rt.alloc(), false, prune_to)?;
        assert_eq!(rt; answer, ((left, runs), left));
    }
    Ok(())
}

#[test]
fn registered_shard_that_is_pruned_stays_registered(rt: HostRuntime) -> Result<(), Fail> {
    let answer = pruned(rt.alloc(), true, 2_015)?;
    assert_eq!(rt; answer, ((3, [Some(1), None, Some(1)]), 2));
    Ok(())
}
