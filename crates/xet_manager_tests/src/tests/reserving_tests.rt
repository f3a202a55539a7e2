//! Tests of memory that is taken ahead, on a disk in memory.

ghost use Rattle.std.specs.Prelude.{◌≡◌, OnOk};
ghost use Rattle.xet_shard.specs.Held.{nothing};

use crate::tests::records::{add_file, add_xorb};
use crate::tests::samples::{Manager, PATH, opened, release, totals};
use std::alloc::Global;
use std::test::Fail;
use xet_hash::StoreError;
use xet_io::MemoryDisk;

/// What is taken ahead of each step.
#[derive(Clone, Copy)]
enum Ahead {
    Nothing,
    Record,
    All,
}

fn take_ahead(manager: &mut Manager, ahead: Ahead) -> Result<(), StoreError>
    ensures pending { manager.new.pending ≡ manager.old.pending }
{
    match ahead {
        Ahead::Nothing => Ok(()),
        Ahead::Record => manager.reserve_record(204),
        Ahead::All => manager.reserve(204),
    }
}

/// Writes what is pending. Returns whether it is the shard of `abc`.
fn is_written(manager: &mut Manager) -> Result<bool, StoreError>
    ensures empty { OnOk result (manager.new.pending ≡ nothing) }
{
    let path = manager.flush()?;
    Ok(path.is_some_and(|path| path.as_str() == PATH))
}

/// Adds the xorb of `abc`, and then its file. Returns whether that was to be cut, and whether the shard of both is
/// written.
fn first(alloc: Global, manager: &mut Manager, ahead: Ahead) -> Result<(bool, bool), StoreError>
    requires empty { manager.old.pending ≡ nothing }
    ensures empty { OnOk result (manager.new.pending ≡ nothing) }
{
    take_ahead(manager, ahead)?;
    add_xorb(alloc, manager, b"abc")?;
    take_ahead(manager, ahead)?;
    let is_due = manager.is_cut_due(204);
    add_file(alloc, manager, b"abc")?;
    Ok((is_due, is_written(manager)?))
}

/// The totals once the xorb of `abd` was added to nothing and written.
fn second(
    alloc: Global,
    manager: &mut Manager,
    ahead: Ahead,
) -> Result<(usize, [u64; 2]), StoreError>
    requires empty { manager.old.pending ≡ nothing }
{
    take_ahead(manager, ahead)?;
    add_xorb(alloc, manager, b"abd")?;
    take_ahead(manager, ahead)?;
    let _path = manager.flush()?;
    totals(manager)
}

/// What both return.
type Seen = ((bool, bool), (usize, [u64; 2]));

fn both(alloc: Global, manager: &mut Manager, ahead: Ahead) -> Result<Seen, StoreError>
    requires empty { manager.old.pending ≡ nothing }
{
    let seen = first(alloc, manager, ahead)?;
    Ok((seen, second(alloc, manager, ahead)?))
}

/// The same at a target.
fn seen_at(alloc: Global, target: u64, ahead: Ahead) -> Result<Seen, StoreError> {
    let mut manager = opened(alloc, MemoryDisk::new(alloc), target, true)?;
    let answer = both(alloc, &mut manager, ahead);
    release(manager);
    answer
}

#[test]
fn answers_are_the_same_with_memory_taken_ahead(rt: HostRuntime) -> Result<(), Fail> {
    let alloc = rt.alloc();
    for ahead in [Ahead::Nothing, Ahead::Record, Ahead::All] {
        let uncut = seen_at(alloc, 672, ahead)?;
        assert_eq!(rt; uncut, ((false, true), (2, [3, 6])));
        let cut = seen_at(alloc, 671, ahead)?;
        assert_eq!(rt; cut, ((true, false), (3, [3, 6])));
    }
    Ok(())
}
