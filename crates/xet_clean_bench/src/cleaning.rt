//! What is timed.

use crate::made::{mebibytes_of, opened, sources_of};
use std::alloc::Global;
use std::time::{Clock, Instant};
use xet_clean::{Cleaned, clean_files};
use xet_hash::StoreError;
use xet_io::{MemoryDisk, SliceSource};
use xet_store::Store;

/// A call of cleaning: its microseconds, the numbers of chunks and of new ones, and of xorbs after it.
#[derive(Clone, Copy)]
pub(crate) struct Call {
    pub time: u64,
    pub chunks: u64,
    pub new_chunks: u64,
    pub xorbs: u64,
}

/// The same files are cleaned twice, and the folder is opened again: the microseconds of that, and the number of its shards.
#[derive(Clone, Copy)]
pub(crate) struct Figures {
    pub first: Call,
    pub second: Call,
    pub reopened: (u64, u64),
}

/// The microseconds since `start`; 0 if the clock fails.
pub(crate) fn since<R: Clock>(clock: &R, start: Option<Instant>) -> u64 {
    match start {
        Some(start) => match start.elapsed(clock) {
            Ok(time) => u64::try_from(time.as_micros()).unwrap_or(u64::MAX),
            Err(_) => 0,
        },
        None => 0,
    }
}

/// Cleans so many mebibytes in so many files, twice.
pub(crate) fn figures_of<R: Clock>(
    clock: &R,
    alloc: Global,
    mebibytes: u64,
    files: u64,
) -> Result<Figures, StoreError> {
    let bytes = mebibytes_of(alloc, mebibytes)?;
    match opened(alloc, MemoryDisk::new(alloc)) {
        Ok(store) => figures_in(clock, alloc, store, &bytes, files),
        Err(error) => Err(error),
    }
}

fn figures_in<R: Clock>(
    clock: &R,
    alloc: Global,
    store: Store<MemoryDisk>,
    bytes: &[u8],
    files: u64,
) -> Result<Figures, StoreError> {
    let (store, first) = clean(clock, alloc, store, bytes, files);
    let (store, second) = clean(clock, alloc, store, bytes, files);
    let reopened = reopen(clock, alloc, store);
    Ok(Figures {
        first: first?,
        second: second?,
        reopened: reopened?,
    })
}

/// Cleans the files.
fn clean<R: Clock>(
    clock: &R,
    alloc: Global,
    store: Store<MemoryDisk>,
    bytes: &[u8],
    files: u64,
) -> (Store<MemoryDisk>, Result<Call, StoreError>) {
    match sources_of(alloc, bytes, files) {
        Ok(mut sources) => clean_sources(clock, alloc, store, &mut sources),
        Err(error) => (store, Err(error)),
    }
}

/// Cleans the files of these sources. More than 2^20 are refused.
fn clean_sources<'a, R: Clock>(
    clock: &R,
    alloc: Global,
    store: Store<MemoryDisk>,
    sources: &mut [SliceSource<'a>],
) -> (Store<MemoryDisk>, Result<Call, StoreError>) {
    if sources.len() > 1 << 20 {
        return (store, Err(StoreError::InvalidArguments));
    }
    let start = Instant::now(clock).ok();
    let (store, answer) = clean_files(alloc, store, sources, 1);
    let time = since(clock, start);
    let xorbs = store.xorb_count();
    (store, call_of(answer, time, xorbs))
}

fn call_of(answer: Result<Cleaned, StoreError>, time: u64, xorbs: u64) -> Result<Call, StoreError> {
    match answer {
        Ok(cleaned) => Ok(Call {
            time,
            chunks: cleaned.metrics.total_chunks,
            new_chunks: cleaned.metrics.new_chunks,
            xorbs,
        }),
        Err(error) => Err(error),
    }
}

/// Flushes, and opens the folder again: the microseconds of that, and the number of its shards.
fn reopen<R: Clock>(
    clock: &R,
    alloc: Global,
    store: Store<MemoryDisk>,
) -> Result<(u64, u64), StoreError> {
    let mut store = store;
    let flushed = store.flush();
    let disk = store.into_disk();
    match flushed {
        Ok(_) => time_open(clock, alloc, disk),
        Err(error) => Err(error),
    }
}

fn time_open<R: Clock>(
    clock: &R,
    alloc: Global,
    disk: MemoryDisk,
) -> Result<(u64, u64), StoreError> {
    let start = Instant::now(clock).ok();
    let answer = opened(alloc, disk);
    let time = since(clock, start);
    match answer {
        Ok(store) => {
            let shards = store.shard_count();
            let _disk = store.into_disk();
            Ok((time, shards))
        }
        Err(error) => Err(error),
    }
}
