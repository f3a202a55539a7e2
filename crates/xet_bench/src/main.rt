//! Phases of a store and of hashing, to be timed.
//!
//! A store on a disk in memory: `write MIB` stores a generated file of MIB mebibytes and flushes it; `open
//! MIB` then opens the store again; `range MIB` then reads the file in ranges of 1 MiB, and prints the number
//! of bytes read.
//!
//! Digests: `generate MIB` only generates the file; `digest MIB` then computes its data hash, 1024 / MIB times, and at
//! least once. It prints the digest's first word.
//!
//! Phases that time themselves and print microseconds: `scatter MIB` stores a generated file with a target
//! chunk size of 512 bytes, opens the store again, and times 10,000 ranges of 512 bytes at scattered offsets;
//! `reopen MIB` stores one at the default limits and times opening the store; `merkle ROUNDS` times ROUNDS xorb
//! hashes of 8,192 chunks, and `nodes ROUNDS` only the digests that they need. Over a generated file of MIB
//! mebibytes: `whole MIB` times its data hash, `pieces MIB` the same from pieces of 64 KiB, `messages MIB` the data
//! hash of each 64 KiB, `define MIB` and `define-messages MIB` these by the definition; `chunks MIB` its chunking,
//! `boundaries MIB` its boundaries as a chunker finds them, and `hex MIB` decoding its hexadecimal digits.
//!
//! `vectors LENGTH` prints digests of the message of BLAKE3's vectors of that length: without a key, and with the data
//! key, each also by the definition, and with the data key from two pieces.
//!
//! A store in the current folder: `sums MIB` opens the folder `store`, reads each of its files in ranges of MIB
//! mebibytes, and prints a line for each: its hash, and the SHA-256 of what was read.
#![tactic(auto)]

mod digests;
mod sums;
mod timed;
mod vectors;

use crate::digests::Body;
use crate::sums::print_sums;
use crate::timed::{Timed, run_timed};
use crate::vectors::print_vectors;
use std::alloc::Global;
use std::process::ExitCode;
use std::{env, println};
use xet_clean::{Cleaned, clean_files};
use xet_cut::{LimitSettings, Limits, gear_table, generated};
use xet_hash::{MerkleHash, StoreError, compute_data_hash};
use xet_io::{MemoryDisk, SliceSource};
use xet_store::Store;

/// The maximum number of mebibytes of a file.
const MAX: u64 = 1 << 12;

/// The length of a range, in bytes: 1 MiB.
const RANGE: u64 = 1 << 20;

/// The number of mebibytes that are digested, at least.
const DIGESTED: u64 = 1 << 10;

/// The last phase of a run.
#[derive(Clone, Copy, PartialEq, Eq)]
enum Phase {
    Write,
    Open,
    Range,
    Generate,
    Digest,
    Sums,
    Vectors,
    Timed(Timed),
}

fn main(rt: HostRuntime) -> ExitCode {
    let Some((phase, number)) = read_words(&rt) else {
        return ExitCode::from(2);
    };
    let answer = match phase {
        Phase::Sums => return status_of(print_sums(&rt, number)),
        Phase::Vectors => return status_of(print_vectors(&rt, number)),
        Phase::Timed(timed) => run_timed(&rt, rt.alloc(), timed, number),
        _ => run(rt.alloc(), phase, number),
    };
    match answer {
        Ok(number) => {
            let _ = println!(&rt; "{number}");
            ExitCode::from(0)
        }
        Err(_) => ExitCode::from(1),
    }
}

/// The status of a phase that has printed its lines itself.
fn status_of(answer: Result<u64, StoreError>) -> ExitCode {
    match answer {
        Ok(_) => ExitCode::from(0),
        Err(_) => ExitCode::from(1),
    }
}

/// The phase and the number that the arguments give.
fn read_words(rt: &HostRuntime) -> Option<(Phase, u64)> {
    let mut words = env::args(rt).ok()?.skip(1);
    let phase = phase_of(words.next()?.as_str())?;
    let number = words.next()?.as_str().parse::<u64>().ok()?;
    if number > MAX && phase != Phase::Vectors {
        return None;
    }
    Some((phase, number))
}

fn phase_of(word: &str) -> Option<Phase> {
    Some(match word {
        "write" => Phase::Write,
        "open" => Phase::Open,
        "range" => Phase::Range,
        "generate" => Phase::Generate,
        "digest" => Phase::Digest,
        "sums" => Phase::Sums,
        "vectors" => Phase::Vectors,
        _ => Phase::Timed(timed_of(word)?),
    })
}

fn timed_of(word: &str) -> Option<Timed> {
    Some(match word {
        "scatter" => Timed::Scatter,
        "reopen" => Timed::Reopen,
        "merkle" => Timed::Merkle,
        "nodes" => Timed::Nodes,
        _ => Timed::Body(body_of(word)?),
    })
}

fn body_of(word: &str) -> Option<Body> {
    Some(match word {
        "whole" => Body::Whole,
        "pieces" => Body::Pieces,
        "messages" => Body::Messages,
        "define" => Body::Definition,
        "define-messages" => Body::MessagesByDefinition,
        "chunks" => Body::Chunks,
        "boundaries" => Body::Boundaries,
        "hex" => Body::Hex,
        _ => return None,
    })
}

/// Runs the phases up to this one, and returns the number that is printed.
fn run(alloc: Global, phase: Phase, mebibytes: u64) -> Result<u64, StoreError> {
    match phase {
        Phase::Write | Phase::Open | Phase::Range => run_store(alloc, phase, mebibytes),
        _ => run_digest(alloc, phase, mebibytes),
    }
}

/// Generates a file, digests it for about a gibibyte if the phase says so, and returns the first word of the digest.
fn run_digest(alloc: Global, phase: Phase, mebibytes: u64) -> Result<u64, StoreError> {
    let file = generated(alloc, 7, (mebibytes.min(MAX) * RANGE) as usize)?;
    let mut hash = MerkleHash::default();
    if phase == Phase::Digest {
        for _i in 0..(DIGESTED / mebibytes.max(1)).max(1) {
            hash = compute_data_hash(&file);
        }
    }
    Ok(hash.word(0))
}

/// Runs the phases of a store, and returns the number of bytes that were read in ranges.
fn run_store(alloc: Global, phase: Phase, mebibytes: u64) -> Result<u64, StoreError> {
    let limits = Limits::new(LimitSettings::shown(gear_table(0)))?;
    let mebibytes = mebibytes.min(MAX);
    if phase == Phase::Write {
        return stored(alloc, limits, mebibytes).map(|_| 0);
    }
    match reopened(alloc, limits, mebibytes) {
        Ok((store, hash)) => ranged(store, &hash, phase, mebibytes),
        Err(error) => Err(error),
    }
}

/// Reads a file of a store in ranges, if that is the phase, and returns the number of bytes read.
fn ranged(
    store: Store<MemoryDisk>,
    hash: &MerkleHash,
    phase: Phase,
    mebibytes: u64,
) -> Result<u64, StoreError> {
    let mut store = store;
    let bytes = match phase {
        Phase::Range => read(&mut store, hash, mebibytes),
        _ => Ok(0),
    };
    let _disk = store.into_disk();
    bytes
}

fn open(alloc: Global, disk: MemoryDisk, limits: Limits) -> Result<Store<MemoryDisk>, StoreError> {
    Store::open(alloc, disk, "store", limits, 0, false).map_err(|refused| refused.error)
}

/// A store with a generated file of this many mebibytes, and the file's hash.
fn stored(
    alloc: Global,
    limits: Limits,
    mebibytes: u64,
) -> Result<(Store<MemoryDisk>, MerkleHash), StoreError> {
    match open(alloc, MemoryDisk::new(alloc), limits) {
        Ok(store) => write(alloc, store, mebibytes),
        Err(error) => Err(error),
    }
}

/// The same, opened again.
fn reopened(
    alloc: Global,
    limits: Limits,
    mebibytes: u64,
) -> Result<(Store<MemoryDisk>, MerkleHash), StoreError> {
    match stored(alloc, limits, mebibytes) {
        Ok((store, hash)) => { open(alloc, store.into_disk(), limits).map(|store| (store, hash)) }
        Err(error) => Err(error),
    }
}

/// Stores a generated file. Returns the store and the file's hash.
fn write(
    alloc: Global,
    store: Store<MemoryDisk>,
    mebibytes: u64,
) -> Result<(Store<MemoryDisk>, MerkleHash), StoreError> {
    match generated(alloc, 7, (mebibytes.min(MAX) * RANGE) as usize) {
        Ok(file) => flushed(clean_files(alloc, store, &mut [SliceSource::new(&file)], 1)),
        Err(error) => Err(StoreError::from(error)),
    }
}

/// A session that has cleaned one file, with nothing pending, and the file's hash.
fn flushed(
    session: (Store<MemoryDisk>, Result<Cleaned, StoreError>),
) -> Result<(Store<MemoryDisk>, MerkleHash), StoreError> {
    let (mut store, cleaned) = session;
    match flush(&mut store, cleaned) {
        Ok(hash) => Ok((store, hash)),
        Err(error) => Err(error),
    }
}

/// Flushes what is pending, and returns the hash of the first file that was cleaned.
fn flush(
    store: &mut Store<MemoryDisk>,
    cleaned: Result<Cleaned, StoreError>,
) -> Result<MerkleHash, StoreError> {
    let hash = match cleaned?.infos.first() {
        Some(info) => info.hash,
        None => MerkleHash::default(),
    };
    store.flush()?;
    Ok(hash)
}

/// Reads a file in ranges of 1 MiB, and returns the number of bytes read.
fn read(
    store: &mut Store<MemoryDisk>,
    hash: &MerkleHash,
    mebibytes: u64,
) -> Result<u64, StoreError> {
    let mut bytes = 0u64;
    for i in 0..mebibytes.min(MAX) {
        let range = store.read_range(hash, i * RANGE, (i + 1) * RANGE)?;
        bytes = bytes.saturating_add(range.len() as u64);
    }
    Ok(bytes)
}
