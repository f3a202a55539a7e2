//! Reads every file of a store in the current folder.

use sha2::{Digest, Sha256};
use std::alloc::Global;
use std::println;
use xet_cut::{LimitSettings, Limits, gear_table};
use xet_fs::FolderDisk;
use xet_hash::{MerkleHash, StoreError};
use xet_store::Store;

/// The number of bytes of a mebibyte.
const MEBIBYTE: u64 = 1 << 20;

/// The maximum number of mebibytes of a range.
const MAX: u64 = 1 << 10;

/// Opens the folder `store` of the current folder, reads each of its files in ranges of this many mebibytes, and
/// prints a line for each: its hash, and the SHA-256 of what was read. Returns the number of files.
pub(crate) fn print_sums(rt: &HostRuntime, mebibytes: u64) -> Result<u64, StoreError> {
    let alloc = rt.alloc();
    let disk = FolderDisk::new(alloc, *rt, String::from_str(alloc, ".")?);
    let limits = Limits::new(LimitSettings::shown(gear_table(0)))?;
    match Store::open(alloc, disk, "store", limits, 0, false) {
        Ok(store) => print_all(rt, alloc, store, mebibytes),
        Err(refused) => Err(refused.error),
    }
}

fn print_all(
    rt: &HostRuntime,
    alloc: Global,
    store: Store<FolderDisk<HostRuntime>>,
    mebibytes: u64,
) -> Result<u64, StoreError> {
    let mut store = store;
    let printed = print_files(rt, alloc, &mut store, mebibytes);
    let _disk = store.into_disk();
    printed
}

fn print_files(
    rt: &HostRuntime,
    alloc: Global,
    store: &mut Store<FolderDisk<HostRuntime>>,
    mebibytes: u64,
) -> Result<u64, StoreError> {
    let files = store.files(alloc)?;
    for (hash, length) in &files {
        let sum = sum_of(store, hash, *length, mebibytes)?;
        print_line(rt, alloc, hash, &sum)?;
    }
    Ok(files.len() as u64)
}

/// The SHA-256 of a file of this length.
fn sum_of(
    store: &mut Store<FolderDisk<HostRuntime>>,
    hash: &MerkleHash,
    length: u64,
    mebibytes: u64,
) -> Result<[u8; 32], StoreError> {
    let span = mebibytes.clamp(1, MAX) * MEBIBYTE;
    let mut hasher = Sha256::new();
    for i in 0..length.div_ceil(span) {
        let from = i.saturating_mul(span);
        let range = store.read_range(hash, from, from.saturating_add(span).min(length))?;
        hasher.update(&range);
    }
    Ok(hasher.finalize())
}

fn print_line(
    rt: &HostRuntime,
    alloc: Global,
    hash: &MerkleHash,
    sum: &[u8; 32],
) -> Result<(), StoreError> {
    let hash = hash.hex(alloc)?;
    let sum = hex::encode(alloc, sum.as_slice())?;
    let _ = println!(rt; "{hash} {sum}");
    Ok(())
}
