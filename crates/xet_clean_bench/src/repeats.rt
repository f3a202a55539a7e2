//! A large file of which little is new: how much memory it takes to clean it.

ghost use Rattle.std.specs.Prelude.{[], false};

use crate::cleaning::since;
use crate::made::{mebibytes_of, opened};
use std::alloc::Global;
use std::marker::Sync;
use std::sync::Wait;
use std::thread::Threads;
use std::time::{Clock, Instant};
use xet_hash::StoreError;
use xet_io::{Failed, MemoryDisk, Source};
use xet_store::Store;
use xet_workers::clean_files;

/// The number of mebibytes that the file repeats: those of a block at the default limits.
const PERIOD_MEBIBYTES: u64 = 8;

/// From here on, each repetition has new bytes.
const NEW_FROM: usize = 4 << 20;

/// So many: those of an average chunk at the default limits.
const NEW_BYTES: usize = 64 << 10;

/// A source of the bytes of a slice, again and again, each time with other bytes in one place.
#[derive(Drop)]
struct Repeats<'a> {
    bytes: &'a [u8],
    /// The place in the slice of the next byte.
    at: usize,
    /// The number of repetitions so far.
    number: u64,
    /// The number of repetitions after which it ends.
    count: u64,
}

impl Source for Repeats<'_> {
    ghost tells = { λ _. false };

    ghost left = { λ _. [] };

    ghost faults = { λ _. 0 };

    fn read(&mut self, buf: &mut [u8]) -> Result<usize, Failed> {
        if self.at >= self.bytes.len() {
            self.at = 0;
            self.number = self.number.saturating_add(1);
        }
        if self.number >= self.count {
            return Ok(0);
        }
        let rest = self.bytes.get(self.at..).unwrap_or(&[]);
        let count = rest.len().min(buf.len());
        buf[..count].copy_from_slice(&rest[..count]);
        renew(&mut buf[..count], self.at, self.number);
        self.at = self.at.saturating_add(count);
        Ok(count)
    }
}

/// Changes the bytes that are new in repetition `number`, among these, which begin at place `at`.
fn renew(bytes: &mut [u8], at: usize, number: u64) {
    let from = NEW_FROM.saturating_sub(at);
    let to = (NEW_FROM + NEW_BYTES).saturating_sub(at).min(bytes.len());
    if from < to {
        for byte in bytes[from..to].iter_mut() {
            *byte ^= (number % 256) as u8;
        }
    }
}

/// The microseconds in which one worker cleans a file of so many mebibytes, of which in each 8 about one chunk is new.
pub(crate) fn time_repeats<R: Clock + Threads + Wait + Sync>(
    rt: &R,
    alloc: Global,
    mebibytes: u64,
) -> Result<u64, StoreError> {
    let bytes = mebibytes_of(alloc, PERIOD_MEBIBYTES)?;
    let source = Repeats {
        bytes: &bytes,
        at: 0,
        number: 0,
        count: mebibytes / PERIOD_MEBIBYTES,
    };
    match opened(alloc, MemoryDisk::new(alloc)) {
        Ok(store) => time_source(rt, alloc, store, source),
        Err(error) => Err(error),
    }
}

fn time_source<R: Clock + Threads + Wait + Sync>(
    rt: &R,
    alloc: Global,
    store: Store<MemoryDisk>,
    source: Repeats<'_>,
) -> Result<u64, StoreError> {
    let start = Instant::now(rt).ok();
    let (store, answer) = clean_files(rt, alloc, store, &mut [source], 1);
    let time = since(rt, start);
    let _disk = store.into_disk();
    match answer {
        Ok(_) => Ok(time),
        Err(error) => Err(error),
    }
}
