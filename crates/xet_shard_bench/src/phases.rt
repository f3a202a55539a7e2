//! The phases: what is made for each, and the line that it prints.

use crate::asked::chunks_in;
use crate::made::{CHUNKS, FOLDER, write_shards};
use crate::timed::{Answers, Timed, answers_of, time_merge, time_reads, time_register};
use std::alloc::Global;
use std::println;
use xet_hash::StoreError;
use xet_io::MemoryDisk;
use xet_manager::{ManagerSettings, ShardFileManager};
use xet_shard_directory::MDBShardFile;

/// The number of queries of each kind.
const ROUNDS: u64 = 1_000_000;

/// The bytes of two rows.
const ROWS: u64 = 96;

/// The last phase of a run.
#[derive(Clone, Copy, PartialEq, Eq)]
pub(crate) enum Phase {
    Load,
    Register,
    Query,
    Merge,
    Check,
}

/// A manager over a disk in memory.
pub(crate) type Manager = ShardFileManager<MemoryDisk>;

/// Merges shards, and prints the time.
pub(crate) fn merge(rt: &HostRuntime, alloc: Global, shards: u64) -> Result<(), StoreError> {
    let mut disk = MemoryDisk::new(alloc);
    let merged = time_merge(rt, alloc, &mut disk, shards);
    print_number(rt, time_of(merged, shards))
}

/// The time of calls, if their count is this one.
fn time_of(timed: Result<Timed, StoreError>, count: u64) -> Result<u64, StoreError> {
    match timed {
        Ok(timed) if timed.count == count => Ok(timed.time),
        Ok(_) => Err(StoreError::FileNotFound),
        Err(error) => Err(error),
    }
}

/// Writes the shard files, opens a manager over their folder, and runs the phase.
pub(crate) fn manage(
    rt: &HostRuntime,
    alloc: Global,
    phase: Phase,
    shards: u64,
) -> Result<(), StoreError> {
    let mut disk = MemoryDisk::new(alloc);
    let files = write_shards(alloc, &mut disk, FOLDER, shards, CHUNKS);
    open(rt, alloc, phase, disk, files)
}

fn open(
    rt: &HostRuntime,
    alloc: Global,
    phase: Phase,
    disk: MemoryDisk,
    files: Result<Vec<MDBShardFile>, StoreError>,
) -> Result<(), StoreError> {
    let folder = String::from_str(alloc, FOLDER)?;
    match ShardFileManager::new_in_session_directory(alloc, disk, folder, settings(), 0, false) {
        Ok(manager) => run(rt, alloc, phase, manager, files),
        Err(refused) => Err(refused.error),
    }
}

fn settings() -> ManagerSettings {
    ManagerSettings {
        target: 64 << 20,
        index_cap: 64 << 20,
        cache_limit: 0,
        buffer: 0,
    }
}

fn run(
    rt: &HostRuntime,
    alloc: Global,
    phase: Phase,
    manager: Manager,
    files: Result<Vec<MDBShardFile>, StoreError>,
) -> Result<(), StoreError> {
    match files {
        Ok(files) => match phase {
            Phase::Query | Phase::Check => ask(rt, alloc, phase, manager, &files),
            _ => register(rt, phase, manager, &files),
        },
        Err(error) => refuse(manager, error),
    }
}

/// Gives the manager up.
fn refuse(manager: Manager, error: StoreError) -> Result<(), StoreError> {
    let _disk = manager.into_disk();
    Err(error)
}

/// Times the registration, if that is the phase.
fn register(
    rt: &HostRuntime,
    phase: Phase,
    manager: Manager,
    files: &[MDBShardFile],
) -> Result<(), StoreError> {
    let mut manager = manager;
    let number = match phase {
        Phase::Register => time_register(rt, &mut manager, files),
        _ => Ok(files.len() as u64),
    };
    let _disk = manager.into_disk();
    print_number(rt, number)
}

/// Makes the queries, of which there are as many as chunks in a check.
fn ask(
    rt: &HostRuntime,
    alloc: Global,
    phase: Phase,
    manager: Manager,
    files: &[MDBShardFile],
) -> Result<(), StoreError> {
    let mut manager = manager;
    let rounds = match phase {
        Phase::Query => ROUNDS,
        _ => chunks_in(files),
    };
    let answers = answers_of(rt, alloc, &mut manager, files, rounds);
    let mut disk = manager.into_disk();
    let reads = time_reads(rt, alloc, &mut disk, files, rounds);
    print_answers(rt, phase, answers, reads, rounds)
}

/// Prints the times, or in a check the number of registered shards and the counts.
fn print_answers(
    rt: &HostRuntime,
    phase: Phase,
    answers: Result<Answers, StoreError>,
    reads: Result<Timed, StoreError>,
    rounds: u64,
) -> Result<(), StoreError> {
    let answers = answers?;
    let reads = reads?;
    if phase == Phase::Check {
        print_number(rt, Ok(answers.registered))?;
    } else if !answers.are_due(rounds) || reads.count != rounds.saturating_mul(ROWS) {
        return Err(StoreError::FileNotFound);
    }
    print_line(rt, phase, &answers, reads);
    Ok(())
}

fn print_line(rt: &HostRuntime, phase: Phase, answers: &Answers, reads: Timed) {
    let misses = shown(phase, answers.misses);
    let hits = shown(phase, answers.hits);
    let map_misses = shown(phase, answers.map_misses);
    let map_hits = shown(phase, answers.map_hits);
    let index_misses = shown(phase, answers.index_misses);
    let index_hits = shown(phase, answers.index_hits);
    let reads = shown(phase, reads);
    let _ = println!(rt;
        "{misses} {hits} {map_misses} {map_hits} {index_misses} {index_hits} {reads}"
    );
}

/// What the phase prints of calls.
fn shown(phase: Phase, timed: Timed) -> u64 {
    match phase {
        Phase::Check => timed.count,
        _ => timed.time,
    }
}

fn print_number(rt: &HostRuntime, number: Result<u64, StoreError>) -> Result<(), StoreError> {
    let number = number?;
    let _ = println!(rt; "{number}");
    Ok(())
}
