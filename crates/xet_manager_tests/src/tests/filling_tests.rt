//! Tests of managers that are filled and flushed ten times, whose answers are compared with those of a shard in memory
//! with the same records, on a disk in memory.

ghost use Rattle.std.specs.Prelude.{◌≡◌, OnOk};
ghost use Rattle.xet_shard.specs.Held.{nothing};

use crate::tests::consolidating_tests::{Merged, merge_and_consolidate};
use crate::tests::records::flush;
use crate::tests::rounds::{Seen, add_round, keep_round, seen};
use crate::tests::samples::{Manager, opened, opened_in, release, settings, totals};
use std::alloc::Global;
use std::test::Fail;
use xet_hash::{HMACKey, StoreError};
use xet_io::MemoryDisk;
use xet_shard::MDBInMemoryShard;
use xet_shard_directory::MDBShardFile;

/// What is answered while the records of a round are pending, and after a flush.
type Round = [Seen; 2];

/// Adds the records of a round and writes them. A second flush writes nothing.
fn fill(
    alloc: Global,
    manager: &mut Manager,
    shard: &mut MDBInMemoryShard,
    round: u8,
) -> Result<Round, StoreError>
    requires empty { manager.old.pending ≡ nothing }
    ensures empty { OnOk result (manager.new.pending ≡ nothing) }
{
    add_round(alloc, manager, round)?;
    keep_round(alloc, shard, round)?;
    let pending = seen(alloc, manager, shard)?;
    flush(manager)?;
    let flushed = seen(alloc, manager, shard)?;
    flush(manager)?;
    Ok([pending, flushed])
}

/// Does this ten times.
fn fill_ten(
    alloc: Global,
    manager: &mut Manager,
    shard: &mut MDBInMemoryShard,
) -> Result<Vec<Round>, StoreError>
    requires empty { manager.old.pending ≡ nothing }
{
    let mut rounds = Vec::new(alloc);
    for round in 0u8..10 {
        let seen = fill(alloc, manager, shard, round)?;
        rounds.push(seen)?;
    }
    Ok(rounds)
}

/// A disk with the shards of ten rounds at a target in the folder `a`, and what was seen of each round.
type Filled = (MemoryDisk, Result<Vec<Round>, StoreError>);

fn filled(alloc: Global, shard: &mut MDBInMemoryShard, target: u64) -> Result<Filled, StoreError> {
    let mut manager = opened(alloc, MemoryDisk::new(alloc), target, true)?;
    let rounds = fill_ten(alloc, &mut manager, shard);
    Ok((manager.into_disk(), rounds))
}

/// The number of registered shards, their bytes, and what is answered of the rounds.
type Reopened = ((usize, [u64; 2]), Seen);

fn reopened(
    alloc: Global,
    manager: &mut Manager,
    shard: &MDBInMemoryShard,
) -> Result<Reopened, StoreError> {
    let totals = totals(manager)?;
    Ok((totals, seen(alloc, manager, shard)?))
}

/// The same of a manager that is opened over a folder of this disk.
fn reopened_in(
    alloc: Global,
    disk: MemoryDisk,
    folder: &str,
    shard: &MDBInMemoryShard,
) -> Result<Reopened, StoreError> {
    let mut manager = opened_in(alloc, disk, folder, settings(10_000), true)?;
    let answer = reopened(alloc, &mut manager, shard);
    release(manager);
    answer
}

/// Whether ten rounds were seen, and after each all records so far are answered.
fn are_answered(rounds: &[Round]) -> bool {
    let same = [true, true];
    for (round, count) in rounds.iter().zip([1usize, 2, 3, 4, 5, 6, 7, 8, 9, 10]) {
        if *round != [(same, [count, count, 1]), (same, [count, count, 0])] {
            return false;
        }
    }
    rounds.len() == 10
}

/// Whether all is answered after each of ten rounds at a target, and what is seen by a manager that is opened then.
type Ten = (bool, Reopened);

fn ten_with(alloc: Global, shard: &mut MDBInMemoryShard, target: u64) -> Result<Ten, StoreError> {
    let (disk, rounds) = filled(alloc, shard, target)?;
    let last = reopened_in(alloc, disk, "a", shard);
    Ok((are_answered(&rounds?), last?))
}

fn ten(alloc: Global, target: u64) -> Result<Ten, StoreError> {
    let mut shard = MDBInMemoryShard::new(alloc);
    let answer = ten_with(alloc, &mut shard, target);
    xet_shard_samples::release(shard);
    answer
}

#[test]
fn ten_fills_are_answered_as_by_a_shard_in_memory(rt: HostRuntime) -> Result<(), Fail> {
    let all = ([true, true], [10, 10, 0]);
    // The xorb and the file of a round have 736 bytes as a shard: at a smaller target each is a shard of its own.
    for (target, count) in [(10_000, 10), (736, 10), (735, 20), (0, 20)] {
        assert_eq!(rt; ten(rt.alloc(), target)?, (true, ((count, [30, 60]), all)));
    }
    Ok(())
}

/// What merges and consolidations at these targets, one after the other, return.
fn consolidate_at(
    alloc: Global,
    disk: &mut MemoryDisk,
    targets: &[u64],
) -> Result<Vec<Merged>, StoreError> {
    let mut results = Vec::new(alloc);
    for target in targets {
        let merged = merge_and_consolidate(alloc, disk, *target)?;
        results.push(merged)?;
    }
    Ok(results)
}

/// Whether these are the results, and what is seen by a manager that is opened after them.
type Consolidated = (bool, Reopened);

fn consolidated_with(
    alloc: Global,
    shard: &mut MDBInMemoryShard,
    target: u64,
    targets: &[u64],
    expected: &[Merged],
) -> Result<Consolidated, StoreError> {
    let (mut disk, _) = filled(alloc, shard, target)?;
    let results = consolidate_at(alloc, &mut disk, targets);
    let last = reopened_in(alloc, disk, "a", shard);
    Ok((results?.as_slice() == expected, last?))
}

/// The same of the shards of ten rounds at a target.
fn consolidated(
    alloc: Global,
    target: u64,
    targets: &[u64],
    expected: &[Merged],
) -> Result<Consolidated, StoreError> {
    let mut shard = MDBInMemoryShard::new(alloc);
    let answer = consolidated_with(alloc, &mut shard, target, targets, expected);
    xet_shard_samples::release(shard);
    answer
}

#[test]
fn records_are_answered_after_a_consolidation(rt: HostRuntime) -> Result<(), Fail> {
    let all = ([true, true], [10, 10, 0]);
    // The shard of n rounds has 344 + 392 n bytes, and one more round joins where 832 + 392 n is at most the target.
    let rows = [
        (1_223, (10, 736, true)),
        (1_224, (5, 1_128, true)),
        (1_616, (4, 1_520, true)),
        (4_359, (2, 3_872, true)),
        (4_360, (1, 4_264, true)),
    ];
    for (target, merged) in rows {
        let answer = consolidated(rt.alloc(), 10_000, &[target], &[merged])?;
        assert_eq!(rt; answer, (true, ((merged.0, [30, 60]), all)));
    }
    Ok(())
}

#[test]
fn records_are_answered_after_the_target_doubled(rt: HostRuntime) -> Result<(), Fail> {
    // A xorb alone has 532 bytes as a shard, a file alone 548. A shard that stays as it is is older than the new ones.
    let targets = [512, 1_024, 2_048, 4_096, 8_192];
    let expected = [
        (20, 532, true),
        (10, 924, true),
        (3, 1_912, true),
        (2, 3_480, true),
        (1, 4_264, true),
    ];
    let answer = consolidated(rt.alloc(), 512, &targets, &expected)?;
    let all = ([true, true], [10, 10, 0]);
    assert_eq!(rt; answer, (true, ((1, [30, 60]), all)));
    Ok(())
}

/// Which parts an export has: files, the xorb lookup table and the chunk lookup table.
type Parts = [bool; 3];

/// Exports a shard into the folder `c` under a key.
fn export(
    alloc: Global,
    disk: &mut MemoryDisk,
    shard: &MDBShardFile,
    key: HMACKey,
    parts: Parts,
) -> Result<(), StoreError> {
    let none = HMACKey::default();
    if key == none || shard.shard.metadata.chunk_hash_hmac_key != none {
        return Err(StoreError::HashMismatch);
    }
    let [files, xorb_lookup, chunk_lookup] = parts;
    shard.export_as_keyed_shard(
        alloc,
        disk,
        "c",
        key,
        10,
        files,
        xorb_lookup,
        chunk_lookup,
        100,
    )?;
    Ok(())
}

/// Exports each shard of the folder `a`, under its own hash.
fn export_all(alloc: Global, disk: &mut MemoryDisk, parts: Parts) -> Result<(), StoreError> {
    for shard in &MDBShardFile::load_all_valid(alloc, disk, "a", 0)? {
        export(alloc, disk, shard, shard.shard_hash, parts)?;
    }
    Ok(())
}

fn exported_with(
    alloc: Global,
    shard: &mut MDBInMemoryShard,
    parts: Parts,
) -> Result<Reopened, StoreError> {
    let (mut disk, rounds) = filled(alloc, shard, 10_000)?;
    let exported = export_all(alloc, &mut disk, parts);
    let answer = reopened_in(alloc, disk, "c", shard);
    rounds?;
    exported?;
    answer
}

/// What is seen of the exports of the shards of ten rounds.
fn exported(alloc: Global, parts: Parts) -> Result<Reopened, StoreError> {
    let mut shard = MDBInMemoryShard::new(alloc);
    let answer = exported_with(alloc, &mut shard, parts);
    xet_shard_samples::release(shard);
    answer
}

#[test]
fn runs_are_found_through_ten_keys(rt: HostRuntime) -> Result<(), Fail> {
    let tables = [[true, true], [true, false], [false, true], [false, false]];
    for [xorbs, chunks] in tables {
        let whole = exported(rt.alloc(), [true, xorbs, chunks])?;
        assert_eq!(rt; whole, ((10, [30, 60]), ([true, true], [10, 10, 0])));
        let runs = exported(rt.alloc(), [false, xorbs, chunks])?;
        assert_eq!(rt; runs, ((10, [0, 60]), ([true, false], [10, 0, 0])));
    }
    Ok(())
}
