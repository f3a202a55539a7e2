//! A test of buffers that chunks share while they wait for their xorb.

ghost use Rattle.std.specs.Prelude.{[]};
ghost use Rattle.xet_clean.specs.Cleaner.{IsCleaning};

use bytes::Bytes;
use std::alloc::Global;
use std::test::Fail;
use xet_clean::{FileCleaner, Sha256Generator, Sha256Policy, add_block};
use xet_cut::{LimitSettings, Limits, gear_table, generated};
use xet_hash::StoreError;
use xet_io::MemoryDisk;
use xet_store::{Alone, Asking, Stepping, Store};

/// A store in the folder `store` of a new disk, with chunks from 64 to 1,024 bytes.
fn open(alloc: Global) -> Result<Store<MemoryDisk>, StoreError> {
    let limits = Limits::new(LimitSettings {
        target_chunk: 512,
        minimum_chunk: 64,
        maximum_chunk: 1024,
        shard_target: 1 << 20,
        max_source_bytes: 1 << 20,
        ..LimitSettings::shown(gear_table(0))
    })?;
    match Store::open(alloc, MemoryDisk::new(alloc), "store", limits, 1_000, false) {
        Ok(store) => Ok(store),
        Err(refused) => Err(refused.error),
    }
}

/// Adds two blocks of 64 KiB to a file of no bytes. The second is as the first, but for its last byte. Returns whether each has no
/// owner but this function afterwards.
fn add_two<S: Stepping>(
    alloc: Global,
    cleaner: &mut FileCleaner<S>,
) -> Result<[bool; 2], StoreError>
    requires { IsCleaning (S.holder cleaner.old.deduper.start.value.steps) (S.holder cleaner.old.deduper.interface.steps) cleaner.old.deduper.whole cleaner.old.deduper.plan cleaner.old.deduper.global cleaner.old.chunker cleaner.old.byte_count [] }
{
    let mut bytes = generated(alloc, 0, 1 << 16)?;
    let first = Bytes::copy_from_slice(alloc, &bytes)?;
    if let Some(last) = bytes.last_mut() {
        *last ^= 255;
    }
    let second = Bytes::from_vec(bytes)?;
    let mut digest = Sha256Generator::new();
    add_block(cleaner, &mut digest, &Sha256Policy::Compute, first.clone()?)?;
    add_block(
        cleaner,
        &mut digest,
        &Sha256Policy::Compute,
        second.clone()?,
    )?;
    Ok([first.is_unique(), second.is_unique()])
}

/// The same, in a file that is given up.
fn owners(alloc: Global, store: Store<MemoryDisk>) -> Result<[bool; 2], StoreError> {
    match FileCleaner::new(alloc, Asking::new(Alone::new(store)), 0) {
        Ok(mut cleaner) => {
            let owners = add_two(alloc, &mut cleaner);
            let _disk = cleaner.into_asking().into_steps().into_store().into_disk();
            owners
        }
        Err((asking, error)) => {
            let _disk = asking.into_steps().into_store().into_disk();
            Err(error)
        }
    }
}

#[test]
fn a_block_with_few_new_chunks_is_freed(rt: HostRuntime) -> Result<(), Fail> {
    let alloc = rt.alloc();
    let store = open(alloc)?;
    assert_eq!(rt; owners(alloc, store)?, [false, true]);
    Ok(())
}
