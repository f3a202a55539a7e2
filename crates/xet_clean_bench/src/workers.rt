//! Cleaning by workers, and the SHA-256 with which one worker is compared.

ghost use Rattle.std.specs.Prelude.{◌≤◌, ◌^◌, length};

use crate::cleaning::since;
use crate::made::{mebibytes_of, opened, sources_of};
use std::alloc::Global;
use std::marker::Sync;
use std::sync::Wait;
use std::thread::{Threads, join};
use std::time::{Clock, Instant};
use xet_clean::Sha256Generator;
use xet_hash::StoreError;
use xet_io::{MemoryDisk, SliceSource};
use xet_shard_format::Sha256;
use xet_store::Store;
use xet_workers::clean_files;

/// The microseconds in which so many workers, 1 to 256, clean so many mebibytes in so many files into a new store.
pub(crate) fn time_workers<R: Clock + Threads + Wait + Sync>(
    rt: &R,
    alloc: Global,
    mebibytes: u64,
    files: u64,
    workers: u32,
) -> Result<u64, StoreError> {
    let bytes = mebibytes_of(alloc, mebibytes)?;
    let mut sources = sources_of(alloc, &bytes, files)?;
    if sources.len() > 1 << 20 {
        return Err(StoreError::InvalidArguments);
    }
    match opened(alloc, MemoryDisk::new(alloc)) {
        Ok(store) => time_cleaning(rt, alloc, store, &mut sources, workers),
        Err(error) => Err(error),
    }
}

fn time_cleaning<'a, R: Clock + Threads + Wait + Sync>(
    rt: &R,
    alloc: Global,
    store: Store<MemoryDisk>,
    sources: &mut [SliceSource<'a>],
    workers: u32,
) -> Result<u64, StoreError>
    requires { length sources.old ≤ 2 ^ 20 }
{
    let start = Instant::now(rt).ok();
    let (store, answer) = clean_files(rt, alloc, store, sources, workers.clamp(1, 256));
    let time = since(rt, start);
    let _disk = store.into_disk();
    match answer {
        Ok(_) => Ok(time),
        Err(error) => Err(error),
    }
}

/// The microseconds in which two threads each compute the SHA-256 of so many mebibytes, side by side.
pub(crate) fn time_digests<R: Clock + Threads + Sync>(
    rt: &R,
    alloc: Global,
    mebibytes: u64,
) -> Result<u64, StoreError> {
    let bytes = mebibytes_of(alloc, mebibytes)?;
    let start = Instant::now(rt).ok();
    let (one, two) = join(rt, || sha256_of(&bytes), || sha256_of(&bytes));
    let time = since(rt, start);
    if one == two {
        Ok(time)
    } else {
        Err(StoreError::InvalidArguments)
    }
}

fn sha256_of(bytes: &[u8]) -> Sha256 {
    let mut generator = Sha256Generator::new();
    generator.update(bytes);
    generator.finalize()
}
