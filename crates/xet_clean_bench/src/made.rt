//! The files that are cleaned, and the store.

use std::alloc::Global;
use xet_cut::{LimitSettings, Limits, gear_table, generated};
use xet_hash::StoreError;
use xet_io::{MemoryDisk, SliceSource};
use xet_store::Store;

/// The number of bytes of a mebibyte.
const MEBIBYTE: u64 = 1 << 20;

/// So many mebibytes, at most 2^12, that are generated.
pub(crate) fn mebibytes_of(alloc: Global, count: u64) -> Result<Vec<u8>, StoreError> {
    generated(alloc, 0, (count.min(1 << 12) * MEBIBYTE) as usize)
}

/// The bytes as so many files of equal length. What is left over belongs to none.
pub(crate) fn sources_of<'a>(
    alloc: Global,
    bytes: &'a [u8],
    files: u64,
) -> Result<Vec<SliceSource<'a>>, StoreError> {
    let length = bytes.len() / (files.max(1) as usize);
    let mut sources = Vec::new(alloc);
    'files: for number in 0..files as usize {
        sources.push(SliceSource::new(part_of(bytes, length, number)))?;
    }
    Ok(sources)
}

/// One of the parts of this length.
fn part_of(bytes: &[u8], length: usize, number: usize) -> &[u8] {
    let from = number.saturating_mul(length);
    bytes.get(from..from.saturating_add(length)).unwrap_or(&[])
}

/// Opens the folder `store` of a disk, at the default limits.
pub(crate) fn opened(alloc: Global, disk: MemoryDisk) -> Result<Store<MemoryDisk>, StoreError> {
    match Limits::new(LimitSettings::shown(gear_table(0))) {
        Ok(limits) => opened_with(alloc, disk, limits),
        Err(error) => Err(error),
    }
}

fn opened_with(
    alloc: Global,
    disk: MemoryDisk,
    limits: Limits,
) -> Result<Store<MemoryDisk>, StoreError> {
    match Store::open(alloc, disk, "store", limits, 1_000, false) {
        Ok(store) => Ok(store),
        Err(refused) => Err(refused.error),
    }
}
