//! Phases that time themselves.

ghost use Rattle.std.specs.Prelude.{◌<◌, ◌^◌, IfOk};
ghost use Rattle.xet_hash.specs.Merkle.{total_len};

use crate::digests::{Body, time_body};
use crate::{open, reopened, stored};
use std::alloc::Global;
use std::time::{Clock, Instant};
use xet_cut::{LimitSettings, Limits, gear_table};
use xet_hash::{MerkleHash, StoreError, compute_data_hash, compute_internal_node_hash, xorb_hash};
use xet_io::MemoryDisk;
use xet_store::Store;

/// What is timed.
#[derive(Clone, Copy, PartialEq, Eq)]
pub enum Timed {
    /// Ranges at scattered offsets.
    Scatter,
    /// Xorb hashes.
    Merkle,
    /// The digests that a xorb hash needs.
    Nodes,
    /// Opening a store of one generated file.
    Reopen,
    /// A body over a generated file.
    Body(Body),
}

/// The number of ranges.
const RANGES: u64 = 10_000;

/// The length of each range, in bytes.
const SPAN: u64 = 512;

/// The number of bytes of a mebibyte.
const MEBIBYTE: u64 = 1 << 20;

/// The maximum number of mebibytes of a file, and of rounds.
const MAX: u64 = 1 << 12;

/// The number of chunks of a xorb.
const CHUNKS: u64 = 8_192;

/// The mean number of bytes in a Merkle node of that xorb, as a separate program counts them.
const NODE: usize = 384;

/// The number of Merkle nodes of that xorb, as a separate program counts them.
const NODES: u64 = 1_866;

/// Times a phase, in microseconds.
pub(crate) fn run_timed<R: Clock>(
    clock: &R,
    alloc: Global,
    timed: Timed,
    number: u64,
) -> Result<u64, StoreError> {
    match timed {
        Timed::Scatter => time_scatter(clock, alloc, number.min(MAX)),
        Timed::Merkle => time_merkle(clock, alloc, number.min(MAX)),
        Timed::Nodes => Ok(time_nodes(clock, number.min(MAX))),
        Timed::Reopen => time_reopen(clock, alloc, number.min(MAX)),
        Timed::Body(body) => {
            time_body(clock, alloc, body, (number.min(MAX) * MEBIBYTE) as usize)
        }
    }
}

/// The microseconds since `start`; 0 if the clock fails.
pub(crate) fn since<R: Clock>(clock: &R, start: Option<Instant>) -> u64 {
    match start {
        Some(start) => match start.elapsed(clock) {
            Ok(time) => u64::try_from(time.as_micros()).unwrap_or(u64::MAX),
            Err(_) => 0,
        },
        None => 0,
    }
}

/// The next number of a pseudo-random sequence.
fn scattered(number: u64) -> u64 {
    number
        .wrapping_mul(6_364_136_223_846_793_005)
        .wrapping_add(1_442_695_040_888_963_407)
}

/// Times ranges of a file at scattered offsets.
fn time_scatter<R: Clock>(clock: &R, alloc: Global, mebibytes: u64) -> Result<u64, StoreError> {
    let limits = Limits::new(small_chunks())?;
    match reopened(alloc, limits, mebibytes) {
        Ok((mut store, hash)) => {
            let answer = time_ranges(clock, &mut store, &hash, mebibytes);
            let _disk = store.into_disk();
            answer
        }
        Err(error) => Err(error),
    }
}

/// Times the opening of a store with a file of this many mebibytes.
fn time_reopen<R: Clock>(clock: &R, alloc: Global, mebibytes: u64) -> Result<u64, StoreError> {
    let limits = Limits::new(LimitSettings::shown(gear_table(0)))?;
    match stored(alloc, limits, mebibytes) {
        Ok((store, _hash)) => time_open(clock, alloc, store.into_disk(), limits),
        Err(error) => Err(error),
    }
}

/// Times the opening of the store of a disk.
fn time_open<R: Clock>(
    clock: &R,
    alloc: Global,
    disk: MemoryDisk,
    limits: Limits,
) -> Result<u64, StoreError> {
    let start = Instant::now(clock).ok();
    let answer = open(alloc, disk, limits);
    let time = since(clock, start);
    match answer {
        Ok(store) => {
            let _disk = store.into_disk();
            Ok(time)
        }
        Err(error) => Err(error),
    }
}

/// Settings with a target chunk size of 512 bytes.
fn small_chunks() -> LimitSettings {
    let mut settings = LimitSettings::shown(gear_table(0));
    settings.target_chunk = 512;
    settings.minimum_chunk = 64;
    settings.maximum_chunk = 1024;
    settings.max_source_bytes = 1 << 32;
    settings
}

fn time_ranges<R: Clock>(
    clock: &R,
    store: &mut Store<MemoryDisk>,
    hash: &MerkleHash,
    mebibytes: u64,
) -> Result<u64, StoreError> {
    let room = (mebibytes.min(MAX) * MEBIBYTE).saturating_sub(SPAN).max(1);
    let mut number = 7;
    let start = Instant::now(clock).ok();
    for _i in 0..RANGES {
        number = scattered(number);
        let from = (number >> 11) % room;
        store.read_range(hash, from, from + SPAN)?;
    }
    Ok(since(clock, start))
}

/// The (hash, length) pairs of a xorb with chunks of 512 bytes.
fn leaves(alloc: Global) -> Result<Vec<(MerkleHash, u64)>, StoreError>
    ensures total { IfOk result (λ leaves. total_len leaves.items < 2 ^ 64) }
{
    let mut leaves = Vec::with_capacity(alloc, CHUNKS as usize)?;
    for i in 0..CHUNKS {
        leaves.push((compute_data_hash(&i.to_le_bytes()), 512))?;
    }
    Ok(leaves)
}

/// Times xorb hashes.
fn time_merkle<R: Clock>(clock: &R, alloc: Global, rounds: u64) -> Result<u64, StoreError> {
    let leaves = leaves(alloc)?;
    let start = Instant::now(clock).ok();
    for _i in 0..rounds {
        xorb_hash(alloc, &leaves)?;
    }
    Ok(since(clock, start))
}

/// Times the digests of Merkle nodes.
fn time_nodes<R: Clock>(clock: &R, rounds: u64) -> u64 {
    let mut node = [0; NODE];
    let start = Instant::now(clock).ok();
    for _i in 0..rounds {
        for _j in 0..NODES {
            node[0] = compute_internal_node_hash(&node).as_bytes()[0];
        }
    }
    since(clock, start)
}
