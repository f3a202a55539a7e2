//! Tests of what is written because the shard would pass its target, on a disk in memory.

ghost use Rattle.std.specs.Prelude.{◌≡◌, ◌≤◌, length};
ghost use Rattle.xet_shard.specs.Held.{nothing};
ghost use Rattle.xet_shard_format.specs.Records.{xorb_section};

use crate::tests::records::{add_another, add_both, flush};
use crate::tests::samples::{Manager, opened, release, run_of, totals};
use std::alloc::Global;
use std::test::Fail;
use xet_hash::StoreError;
use xet_io::MemoryDisk;

/// The totals once the xorb and the file of `abc` were added, which have 672 bytes as a shard, and after a flush.
fn cut(alloc: Global, manager: &mut Manager) -> Result<[(usize, [u64; 2]); 2], StoreError>
    requires empty { manager.old.pending ≡ nothing }
{
    add_both(alloc, manager, b"abc")?;
    let before = totals(manager)?;
    flush(manager)?;
    Ok([before, totals(manager)?])
}

/// The same at a target.
fn cut_at(alloc: Global, target: u64) -> Result<[(usize, [u64; 2]); 2], StoreError> {
    let mut manager = opened(alloc, MemoryDisk::new(alloc), target, true)?;
    let answer = cut(alloc, &mut manager);
    release(manager);
    answer
}

#[test]
fn shard_is_cut_above_the_target(rt: HostRuntime) -> Result<(), Fail> {
    let alloc = rt.alloc();
    assert_eq!(rt; cut_at(alloc, 672)?, [(0, [3, 3]), (1, [3, 3])]);
    assert_eq!(rt; cut_at(alloc, 671)?, [(1, [3, 3]), (2, [3, 3])]);
    Ok(())
}

/// Adds three xorbs, where nothing is pending.
fn add_three(alloc: Global, manager: &mut Manager) -> Result<(), StoreError>
    requires few { length (xorb_section manager.old.pending.blocks) ≤ 1 }
{
    add_another(alloc, manager, b"abc")?;
    add_another(alloc, manager, b"abd")?;
    add_another(alloc, manager, b"abe")
}

/// The number of registered shards, and the runs of `abc`, `abd` and `abe`.
pub type Three = (usize, [Option<usize>; 3]);

pub fn runs(manager: &mut Manager) -> Result<Three, StoreError> {
    let count = totals(manager)?.0;
    let first = run_of(manager, b"abc")?;
    let second = run_of(manager, b"abd")?;
    Ok((count, [first, second, run_of(manager, b"abe")?]))
}

/// The same once three xorbs were added, and after a flush.
fn three(alloc: Global, manager: &mut Manager) -> Result<[Three; 2], StoreError>
    requires few { length (xorb_section manager.old.pending.blocks) ≤ 1 }
{
    add_three(alloc, manager)?;
    let before = runs(manager)?;
    flush(manager)?;
    Ok([before, runs(manager)?])
}

/// The same at a target.
fn three_at(alloc: Global, target: u64) -> Result<[Three; 2], StoreError> {
    let mut manager = opened(alloc, MemoryDisk::new(alloc), target, true)?;
    let answer = three(alloc, &mut manager);
    release(manager);
    answer
}

#[test]
fn each_xorb_is_cut_at_a_small_target(rt: HostRuntime) -> Result<(), Fail> {
    let alloc = rt.alloc();
    let runs = [Some(1); 3];
    // A shard of two such xorbs has 592 bytes, one of three 716.
    let rows = [(400, 2), (591, 2), (592, 1), (715, 1), (716, 0)];
    for (target, count) in rows {
        let [before, after] = three_at(alloc, target)?;
        assert_eq!(rt; before, (count, runs));
        assert_eq!(rt; after, (count + 1, runs));
    }
    Ok(())
}
