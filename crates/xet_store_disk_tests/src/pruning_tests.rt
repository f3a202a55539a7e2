//! Tests of opening a folder whose shard has a key and expires, with pruning and without.

use crate::folder_tests::{put_keyed, store_abc};
use crate::session::{limits, release};
use std::alloc::Global;
use std::test::Fail;
use xet_hash::{Refused, StoreError, compute_data_hash};
use xet_io::MemoryDisk;
use xet_shard_file::list_shards;
use xet_store_disk::Store;

/// The time at which the shard expires.
const EXPIRY: u64 = 10;

/// The first time at which it may be deleted: seven days later.
const DELETABLE: u64 = 604_810;

/// Writes a folder of the xorb of `abc`, and of a shard that lists it under a key and expires.
fn put_folder(disk: &mut MemoryDisk, alloc: Global) -> Result<(), StoreError> {
    store_abc(disk, alloc)?;
    let listed = compute_data_hash(b"abc").hmac(compute_data_hash(b"key"));
    put_keyed(disk, alloc, listed, EXPIRY)?;
    Ok(())
}

/// The disk of a store, and how many shards are registered.
fn registered(store: Store<MemoryDisk>) -> (MemoryDisk, Result<u64, StoreError>) {
    let count = store.shard_count();
    (store.into_disk(), Ok(count))
}

/// The disk of a folder that was not opened, and the error.
fn unopened(refused: Refused<MemoryDisk>) -> (MemoryDisk, Result<u64, StoreError>) {
    let Refused {
        disk,
        error,
        name: _,
    } = refused;
    (disk, Err(error))
}

/// Opens the folder of a disk at a time: the disk, and how many shards are registered.
fn opened(
    alloc: Global,
    disk: MemoryDisk,
    now: u64,
    prune: bool,
) -> (MemoryDisk, Result<u64, StoreError>) {
    match limits() {
        Ok(limits) => match Store::open(alloc, disk, "store", limits, now, prune) {
            Ok(store) => registered(store),
            Err(refused) => unopened(refused),
        },
        Err(error) => (disk, Err(error)),
    }
}

/// How many shards a folder has.
fn left(disk: &mut MemoryDisk, alloc: Global) -> Result<u64, StoreError> {
    Ok(list_shards(disk, alloc, "store")?.len() as u64)
}

/// How many shards are registered when the folder is opened at a time, and how many files of shards are left.
fn counts(alloc: Global, now: u64, prune: bool) -> Result<(u64, u64), StoreError> {
    let mut disk = MemoryDisk::new(alloc);
    let put = put_folder(&mut disk, alloc);
    let (mut disk, registered) = opened(alloc, disk, now, prune);
    let left = left(&mut disk, alloc);
    release(disk);
    put?;
    Ok((registered?, left?))
}

#[test]
fn keyed_shard_is_registered_until_it_expires_and_then_pruned(rt: HostRuntime) -> Result<(), Fail> {
    let rows = [
        (EXPIRY, false, (1u64, 1u64)),
        (EXPIRY, true, (1, 1)),
        (EXPIRY + 1, false, (0, 1)),
        (DELETABLE, false, (0, 1)),
        (DELETABLE - 1, true, (0, 1)),
        (DELETABLE, true, (0, 0)),
    ];
    for (now, prune, expected) in rows {
        assert_eq!(rt; counts(rt.alloc(), now, prune)?, expected);
    }
    Ok(())
}
