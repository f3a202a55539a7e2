//! Tests of consolidating the shards of a folder, on a disk in memory.

ghost use Rattle.std.specs.Prelude.{◌≡◌};
ghost use Rattle.xet_shard.specs.Held.{nothing};

use crate::tests::records::{add_xorb, flush};
use crate::tests::samples::{Manager, opened, release, release_disk, run_of, totals};
use std::alloc::Global;
use std::test::Fail;
use xet_hash::StoreError;
use xet_io::{MemoryDisk, SliceSource};
use xet_shard_directory::MDBShardFile;
use xet_shard_merge::{consolidate_shards_in_directory, merge_shards};
use xet_shard_samples::shard_of;

/// Consolidates the folder `a`, and returns the number of results.
fn consolidate(alloc: Global, disk: &mut MemoryDisk, target: u64) -> Result<usize, StoreError> {
    Ok(consolidate_shards_in_directory(alloc, disk, "a", target, false, 0)?.len())
}

/// Writes two shards: those of the xorbs of three bytes that end in these two.
fn fill_two(alloc: Global, manager: &mut Manager, last: [u8; 2]) -> Result<(), StoreError>
    requires empty { manager.old.pending ≡ nothing }
{
    let [first, second] = last;
    add_xorb(alloc, manager, &[97, 98, first])?;
    flush(manager)?;
    add_xorb(alloc, manager, &[97, 98, second])?;
    flush(manager)
}

/// Does this and consolidates the folder. Returns the number of shards that are left.
fn fill_and_consolidate(
    alloc: Global,
    manager: &mut Manager,
    last: [u8; 2],
    target: u64,
) -> Result<usize, StoreError>
    requires empty { manager.old.pending ≡ nothing }
{
    fill_two(alloc, manager, last)?;
    consolidate(alloc, manager.disk(), target)
}

/// The disk after a session, and the number of shards that it left.
type Session = (MemoryDisk, usize);

/// The disk with a number, if there is one.
fn session_of(disk: MemoryDisk, count: Result<usize, StoreError>) -> Result<Session, StoreError> {
    match count {
        Ok(count) => Ok((disk, count)),
        Err(error) => {
            release_disk(disk);
            Err(error)
        }
    }
}

/// Fills the folder with two shards by a manager that is opened on this disk, and consolidates it.
fn session(
    alloc: Global,
    disk: MemoryDisk,
    last: [u8; 2],
    target: u64,
) -> Result<Session, StoreError> {
    let mut manager = opened(alloc, disk, 10_000, true)?;
    let count = fill_and_consolidate(alloc, &mut manager, last, target);
    session_of(manager.into_disk(), count)
}

/// Whether each of the six chunks is found, and the totals.
type Seen = (bool, (usize, [u64; 2]));

fn seen(manager: &mut Manager) -> Result<Seen, StoreError> {
    let mut all = true;
    for last in 0u8..6 {
        if run_of(manager, &[97, 98, last])? != Some(1) {
            all = false;
        }
    }
    Ok((all, totals(manager)?))
}

/// The same by a manager that is opened on this disk.
fn seen_on(alloc: Global, disk: MemoryDisk) -> Result<Seen, StoreError> {
    let mut manager = opened(alloc, disk, 10_000, true)?;
    let answer = seen(&mut manager);
    release(manager);
    answer
}

/// How many shards each of three sessions leaves, and what is seen after them.
fn three_sessions(alloc: Global, target: u64) -> Result<([usize; 3], Seen), StoreError> {
    let (disk, first) = session(alloc, MemoryDisk::new(alloc), [0, 1], target)?;
    let (disk, second) = session(alloc, disk, [2, 3], target)?;
    let (disk, third) = session(alloc, disk, [4, 5], target)?;
    let seen = seen_on(alloc, disk)?;
    Ok(([first, second, third], seen))
}

#[test]
fn each_session_is_consolidated(rt: HostRuntime) -> Result<(), Fail> {
    let alloc = rt.alloc();
    // A shard of n such xorbs has 344 + 124 n bytes. All six join where 440 + 124 * 6 is at most the target.
    for (target, left) in [(1_183, 2), (1_184, 1), (10_000, 1)] {
        let answer = three_sessions(alloc, target)?;
        assert_eq!(rt; answer, ([1, 1, left], (true, (left, [0, 18]))));
    }
    Ok(())
}

/// Writes the shard of three bytes that end in this one into the folder `a`.
fn write(alloc: Global, disk: &mut MemoryDisk, last: u8) -> Result<(), StoreError> {
    let (bytes, _) = shard_of(alloc, &[97, 98, last])?;
    if bytes.len() != 672 {
        return Err(StoreError::UnexpectedEof);
    }
    MDBShardFile::write_out_from_reader(alloc, disk, "a", &mut SliceSource::new(&bytes))?;
    Ok(())
}

/// Does this for so many bytes.
fn write_all(alloc: Global, disk: &mut MemoryDisk, count: u8) -> Result<(), StoreError> {
    for last in 0..count {
        write(alloc, disk, last)?;
    }
    Ok(())
}

/// Whether the hashes of these shards are the same, in order.
fn have_same_hashes(shards: &[MDBShardFile], others: &[MDBShardFile]) -> bool {
    shards.len() == others.len()
        && shards
            .iter()
            .zip(others.iter())
            .all(|(shard, other)| shard.shard_hash == other.shard_hash)
}

/// The number of results where the shards of the folder `a` are merged into the folder `b`, the length of the first, and
/// whether the results of a consolidation have the same hashes.
pub type Merged = (usize, u64, bool);

pub fn merge_and_consolidate(
    alloc: Global,
    disk: &mut MemoryDisk,
    target: u64,
) -> Result<Merged, StoreError> {
    let merged = merge_shards(alloc, disk, "a", "b", target, false, 0)?.merged_shards;
    let others = consolidate_shards_in_directory(alloc, disk, "a", target, false, 0)?;
    let length = merged.first().map_or(0, |shard| shard.shard.num_bytes());
    Ok((merged.len(), length, have_same_hashes(&merged, &others)))
}

/// The same of four shards.
fn merged_and_consolidated(
    alloc: Global,
    disk: &mut MemoryDisk,
    target: u64,
) -> Result<Merged, StoreError> {
    write_all(alloc, disk, 4)?;
    merge_and_consolidate(alloc, disk, target)
}

/// The same on an empty disk.
fn merged_and_consolidated_at(alloc: Global, target: u64) -> Result<Merged, StoreError> {
    let mut disk = MemoryDisk::new(alloc);
    let answer = merged_and_consolidated(alloc, &mut disk, target);
    release_disk(disk);
    answer
}

#[test]
fn consolidation_has_the_results_of_a_merge(rt: HostRuntime) -> Result<(), Fail> {
    let alloc = rt.alloc();
    // The shard of n of them has 344 + 328 n bytes, and one more joins where 768 + 328 n is at most the target.
    let rows = [
        (600, (4, 672, true)),
        (1_095, (4, 672, true)),
        (1_096, (2, 1_000, true)),
        (1_423, (2, 1_000, true)),
        (1_424, (2, 1_328, true)),
        (1_751, (2, 1_328, true)),
        (1_752, (1, 1_656, true)),
        (10_000, (1, 1_656, true)),
    ];
    for (target, merged) in rows {
        assert_eq!(rt; merged_and_consolidated_at(alloc, target)?, merged);
    }
    Ok(())
}

/// The numbers of results where the target doubles from 512 on until there is one, eight times at most.
fn doubled(alloc: Global, disk: &mut MemoryDisk) -> Result<Vec<usize>, StoreError> {
    let mut counts = Vec::new(alloc);
    let mut target = 512u64;
    for _round in 0..8 {
        let count = consolidate(alloc, disk, target)?;
        counts.push(count)?;
        if count == 1 {
            break;
        }
        target = target.saturating_mul(2);
    }
    Ok(counts)
}

/// These numbers of eight shards, and the lengths of the shards that are loaded then.
type Doubled = (Vec<usize>, Vec<u64>);

fn eight_doubled(alloc: Global, disk: &mut MemoryDisk) -> Result<Doubled, StoreError> {
    write_all(alloc, disk, 8)?;
    let counts = doubled(alloc, disk)?;
    let mut lengths = Vec::new(alloc);
    for shard in &MDBShardFile::load_all_valid(alloc, disk, "a", 0)? {
        lengths.push(shard.shard.num_bytes())?;
    }
    Ok((counts, lengths))
}

#[test]
fn target_doubles_until_one_shard_is_left(rt: HostRuntime) -> Result<(), Fail> {
    let alloc = rt.alloc();
    let mut disk = MemoryDisk::new(alloc);
    let answer = eight_doubled(alloc, &mut disk);
    release_disk(disk);
    let (counts, lengths) = answer?;
    assert_eq!(rt; counts.as_slice(), [8, 8, 2, 1].as_slice());
    assert_eq!(rt; lengths.as_slice(), [2_968].as_slice());
    Ok(())
}
