//! Tests of a manager over a disk in memory of which a call fails.

ghost use Rattle.std.specs.Prelude.{◌≡◌, []};
ghost use Rattle.xet_shard.specs.Held.{nothing};

use crate::tests::records::{add_both, add_file, add_xorb};
use crate::tests::samples::{Manager, opened, release, run_of, settings, shard_with, totals};
use std::alloc::Global;
use std::test::Fail;
use xet_hash::{Place, Refused, StoreError};
use xet_io::{MemoryDisk, Op};
use xet_manager::ShardFileManager;

/// The number of registered shards, the run of `abc`, and whether the file of `abc` is pending, if it has a record.
type Seen = (usize, Option<usize>, Option<bool>);

fn seen(alloc: Global, manager: &mut Manager) -> Result<Seen, StoreError> {
    let count = totals(manager)?.0;
    let run = run_of(manager, b"abc")?;
    let shard = shard_with(alloc, manager, b"abc")?;
    Ok((count, run, shard.map(|hash| hash.is_none())))
}

/// The error of a flush, and what is seen after it.
type Flushed = (Option<StoreError>, Seen);

fn flushed(alloc: Global, manager: &mut Manager) -> Result<Flushed, StoreError> {
    let error = manager.flush().err();
    Ok((error, seen(alloc, manager)?))
}

/// The same of two flushes once the records of `abc` were added.
fn flushed_twice(alloc: Global, manager: &mut Manager) -> Result<[Flushed; 2], StoreError>
    requires empty { manager.old.pending ≡ nothing }
{
    add_both(alloc, manager, b"abc")?;
    let first = flushed(alloc, manager)?;
    Ok([first, flushed(alloc, manager)?])
}

/// The same where the first call of this kind fails.
fn flushed_where_one_fails(alloc: Global, op: Op) -> Result<[Flushed; 2], StoreError> {
    let fails = vec![in alloc; (op, 0)]?;
    let mut manager = opened(alloc, MemoryDisk::failing(alloc, fails), 10_000, false)?;
    let answer = flushed_twice(alloc, &mut manager);
    release(manager);
    answer
}

#[test]
fn failed_flush_keeps_what_is_pending(rt: HostRuntime) -> Result<(), Fail> {
    let alloc = rt.alloc();
    let failed = (Some(StoreError::Io(Place::Disk)), (0, Some(1), Some(true)));
    let written = (None, (1, Some(1), Some(false)));
    assert_eq!(rt;
        flushed_where_one_fails(alloc, Op::Write)?,
        [failed, written]
    );
    Ok(())
}

/// The number of registered shards, and the bytes of their files and chunks and of what is pending.
type Totals = (usize, [u64; 2]);

/// The error of adding the file of `abc`, the totals after it, and those once it is added again.
fn file_added_again(
    alloc: Global,
    manager: &mut Manager,
) -> Result<(StoreError, [Totals; 2]), StoreError>
    requires none { manager.old.pending.files ≡ [] }
{
    match add_file(alloc, manager, b"abc") {
        Ok(()) => Err(StoreError::HashMismatch),
        Err(error) => {
            let refused = totals(manager)?;
            add_file(alloc, manager, b"abc")?;
            Ok((error, [refused, totals(manager)?]))
        }
    }
}

/// The same with the totals before it, once the xorb of `abc` was added; and what is seen at last.
type CutAgain = (StoreError, [Totals; 3], Seen);

fn cut_again(alloc: Global, manager: &mut Manager) -> Result<CutAgain, StoreError>
    requires empty { manager.old.pending ≡ nothing }
{
    add_xorb(alloc, manager, b"abc")?;
    let before = totals(manager)?;
    let (error, [refused, added]) = file_added_again(alloc, manager)?;
    let seen = seen(alloc, manager)?;
    Ok((error, [before, refused, added], seen))
}

/// The same where the file does not fit, and the first call of this kind fails.
fn cut_again_where_one_fails(alloc: Global, op: Op) -> Result<CutAgain, StoreError> {
    let fails = vec![in alloc; (op, 0)]?;
    let mut manager = opened(alloc, MemoryDisk::failing(alloc, fails), 671, true)?;
    let answer = cut_again(alloc, &mut manager);
    release(manager);
    answer
}

#[test]
fn failed_cut_keeps_what_is_pending(rt: HostRuntime) -> Result<(), Fail> {
    let totals = [(0, [0, 3]), (0, [0, 3]), (1, [3, 3])];
    for op in [Op::Write, Op::Sync, Op::Rename] {
        let (error, counted, seen) = cut_again_where_one_fails(rt.alloc(), op)?;
        assert_eq!(rt; error, StoreError::Io(Place::Disk));
        assert_eq!(rt; (counted, seen), (totals, (1, Some(1), Some(true))));
    }
    Ok(())
}

/// The totals before the records of `abc` are added, and after it.
fn added(alloc: Global, manager: &mut Manager) -> Result<[Totals; 2], StoreError>
    requires empty { manager.old.pending ≡ nothing }
{
    let before = totals(manager)?;
    add_both(alloc, manager, b"abc")?;
    Ok([before, totals(manager)?])
}

/// The same by a manager that is opened on this disk.
fn added_on(alloc: Global, disk: MemoryDisk) -> Result<[Totals; 2], StoreError> {
    let mut manager = opened(alloc, disk, 671, true)?;
    let answer = added(alloc, &mut manager);
    release(manager);
    answer
}

/// The error of adding them by a manager whose cut fails, and the same by another manager on the disk of the first.
fn added_after_failed_cut(
    alloc: Global,
    op: Op,
) -> Result<(Option<StoreError>, [Totals; 2]), StoreError> {
    let fails = vec![in alloc; (op, 0)]?;
    let mut manager = opened(alloc, MemoryDisk::failing(alloc, fails), 671, true)?;
    let error = add_both(alloc, &mut manager, b"abc").err();
    let totals = added_on(alloc, manager.into_disk())?;
    Ok((error, totals))
}

#[test]
fn failed_cut_leaves_no_shard(rt: HostRuntime) -> Result<(), Fail> {
    for op in [Op::Write, Op::Sync, Op::Rename] {
        let (error, totals) = added_after_failed_cut(rt.alloc(), op)?;
        assert_eq!(rt; error, Some(StoreError::Io(Place::Disk)));
        assert_eq!(rt; totals, [(0, [0, 0]), (1, [3, 3])]);
    }
    Ok(())
}

/// The error of opening a manager, and the number of shards of one that is then opened on the same disk.
type Opened = (StoreError, usize);

fn opened_again(alloc: Global, refused: Refused<MemoryDisk>) -> Result<Opened, StoreError> {
    let error = refused.error;
    let manager = opened(alloc, refused.disk, 10_000, true)?;
    let totals = totals(&manager);
    release(manager);
    Ok((error, totals?.0))
}

/// The same where the first listing fails; none if it is opened at once.
fn opened_where_listing_fails(alloc: Global) -> Result<Option<Opened>, StoreError> {
    let fails = vec![in alloc; (Op::List, 0)]?;
    let folder = String::from_str(alloc, "a")?;
    let disk = MemoryDisk::failing(alloc, fails);
    match ShardFileManager::new_in_session_directory(
        alloc,
        disk,
        folder,
        settings(10_000),
        0,
        true,
    ) {
        Ok(manager) => {
            release(manager);
            Ok(None)
        }
        Err(refused) => Ok(Some(opened_again(alloc, refused)?)),
    }
}

#[test]
fn refused_manager_returns_the_disk(rt: HostRuntime) -> Result<(), Fail> {
    let answer = opened_where_listing_fails(rt.alloc())?;
    assert_eq!(rt; answer, Some((StoreError::Io(Place::Disk), 0)));
    Ok(())
}
