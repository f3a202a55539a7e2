//! What is timed.

use crate::asked::{Lists, Places, chunks_in, found, indexed, lists_of, placed, places_of, read};
use crate::made::{hashes, merged, write_shards};
use crate::phases::Manager;
use std::alloc::Global;
use std::marker::Brand;
use std::sync::ledger::Blank;
use std::time::{Clock, Instant};
use xet_hash::{HMACKey, MerkleHash, StoreError};
use xet_io::MemoryDisk;
use xet_manager::PackedIndex;
use xet_shard_directory::MDBShardFile;

/// The folder of the shard files that are merged.
const SMALL: &str = "small";

/// The number of chunks of each.
const FEW: u16 = 10;

/// The microseconds that so many calls took, and how many of these had an answer, or the bytes that they read.
#[derive(Clone, Copy)]
pub(crate) struct Timed {
    pub time: u64,
    pub count: u64,
}

/// Queries, and look-ups of the same words in a map and in the manager's index.
#[derive(Clone, Copy)]
pub(crate) struct Answers {
    pub registered: u64,
    pub misses: Timed,
    pub hits: Timed,
    pub map_misses: Timed,
    pub map_hits: Timed,
    pub index_misses: Timed,
    pub index_hits: Timed,
}

impl Answers {
    /// Whether all are answered that are there, of so many, and no others.
    pub(crate) fn are_due(&self, rounds: u64) -> bool {
        self.misses.count == 0
            && self.map_misses.count == 0
            && self.hits.count == rounds
            && self.map_hits.count == rounds
            && self.index_misses.count == 0
            && self.index_hits.count == rounds
    }
}

/// The microseconds since `start`; 0 if the clock fails.
fn since<R: Clock>(clock: &R, start: Option<Instant>) -> u64 {
    match start {
        Some(start) => match start.elapsed(clock) {
            Ok(time) => u64::try_from(time.as_micros()).unwrap_or(u64::MAX),
            Err(_) => 0,
        },
        None => 0,
    }
}

/// Times the registration of these shards.
pub(crate) fn time_register<R: Clock>(
    clock: &R,
    manager: &mut Manager,
    files: &[MDBShardFile],
) -> Result<u64, StoreError> {
    let start = Instant::now(clock).ok();
    manager.register_shards(files)?;
    Ok(since(clock, start))
}

/// Registers these shards, and makes so many queries and look-ups in a map of each kind.
pub(crate) fn answers_of<R: Clock>(
    clock: &R,
    alloc: Global,
    manager: &mut Manager,
    files: &[MDBShardFile],
    rounds: u64,
) -> Result<Answers, StoreError> {
    manager.register_shards(files)?;
    let registered = registered_in(manager)?;
    let chunks = chunks_in(files);
    let lists = lists_of(alloc, chunks, rounds)?;
    let (misses, hits) = time_queries(clock, manager, &lists)?;
    let (map_misses, map_hits) = time_map(clock, alloc, chunks, &lists)?;
    let (index_misses, index_hits) = time_index(clock, manager, &lists)?;
    Ok(Answers {
        registered,
        misses,
        hits,
        map_misses,
        map_hits,
        index_misses,
        index_hits,
    })
}

fn registered_in(manager: &Manager) -> Result<u64, StoreError> {
    Ok(manager.registered_shard_list()?.len() as u64)
}

fn time_queries<R: Clock>(
    clock: &R,
    manager: &mut Manager,
    lists: &Lists,
) -> Result<(Timed, Timed), StoreError> {
    let misses = time_found(clock, manager, &lists.absent)?;
    let hits = time_found(clock, manager, &lists.here)?;
    Ok((misses, hits))
}

fn time_found<R: Clock>(
    clock: &R,
    manager: &mut Manager,
    hashes: &[MerkleHash],
) -> Result<Timed, StoreError> {
    let start = Instant::now(clock).ok();
    let count = found(manager, hashes)?;
    let time = since(clock, start);
    Ok(Timed { time, count })
}

fn time_map<R: Clock>(
    clock: &R,
    alloc: Global,
    chunks: u64,
    lists: &Lists,
) -> Result<(Timed, Timed), StoreError> {
    let places = places_of(alloc, chunks)?;
    let misses = time_placed(clock, &places, &lists.absent);
    let hits = time_placed(clock, &places, &lists.here);
    Ok((misses, hits))
}

fn time_index<R: Clock>(
    clock: &R,
    manager: &Manager,
    lists: &Lists,
) -> Result<(Timed, Timed), StoreError> {
    let Some(index) = manager.index(&HMACKey::default()) else {
        return Err(StoreError::FileNotFound);
    };
    let misses = time_indexed(clock, index, &lists.absent);
    let hits = time_indexed(clock, index, &lists.here);
    Ok((misses, hits))
}

fn time_indexed<R: Clock>(clock: &R, index: &PackedIndex, hashes: &[MerkleHash]) -> Timed {
    let start = Instant::now(clock).ok();
    let count = indexed::<Brand>(index, hashes, Blank::new(1));
    let time = since(clock, start);
    Timed { time, count }
}

fn time_placed<R: Clock>(clock: &R, places: &Places, hashes: &[MerkleHash]) -> Timed {
    let start = Instant::now(clock).ok();
    let count = placed(places, hashes);
    let time = since(clock, start);
    Timed { time, count }
}

/// Asks the disk so often for chunks that are there.
pub(crate) fn time_reads<R: Clock>(
    clock: &R,
    alloc: Global,
    disk: &mut MemoryDisk,
    files: &[MDBShardFile],
    rounds: u64,
) -> Result<Timed, StoreError> {
    let here = hashes(alloc, 0, chunks_in(files), rounds)?;
    let start = Instant::now(clock).ok();
    let count = read(disk, files, &here)?;
    let time = since(clock, start);
    Ok(Timed { time, count })
}

/// Writes shard files with few chunks, and merges them. The count is that of the shards that have become others.
pub(crate) fn time_merge<R: Clock>(
    clock: &R,
    alloc: Global,
    disk: &mut MemoryDisk,
    shards: u64,
) -> Result<Timed, StoreError> {
    let _files = write_shards(alloc, disk, SMALL, shards, FEW)?;
    let start = Instant::now(clock).ok();
    let count = merged(alloc, disk, SMALL)?;
    let time = since(clock, start);
    Ok(Timed { time, count })
}
