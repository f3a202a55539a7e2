//! Tests of what is pending: adding, writing, and opening again, on a disk in memory.

ghost use Rattle.std.specs.Prelude.{◌≡◌};
ghost use Rattle.xet_shard.specs.Held.{nothing};

use crate::tests::records::add_both;
use crate::tests::samples::{Manager, PATH, bytes_of_abc, opened, release, run_of, shard_with};
use std::alloc::Global;
use std::test::Fail;
use xet_hash::{MerkleHash, StoreError, compute_data_hash};
use xet_io::MemoryDisk;

/// The run of `abc`, and the shard that has the file of `abc`.
type Found = (Option<usize>, Option<Option<MerkleHash>>);

fn found(alloc: Global, manager: &mut Manager) -> Result<Found, StoreError> {
    let run = run_of(manager, b"abc")?;
    Ok((run, shard_with(alloc, manager, b"abc")?))
}

/// Whether a flush writes the shard of `abc`.
fn is_written(manager: &mut Manager) -> Result<bool, StoreError> {
    Ok(manager.flush()?.is_some_and(|path| path.as_str() == PATH))
}

/// What is found while the records of `abc` are pending, and after they were written.
fn added(alloc: Global, manager: &mut Manager) -> Result<[Found; 2], StoreError>
    requires empty { manager.old.pending ≡ nothing }
{
    add_both(alloc, manager, b"abc")?;
    let pending = found(alloc, manager)?;
    if !is_written(manager)? {
        return Err(StoreError::HashMismatch);
    }
    Ok([pending, found(alloc, manager)?])
}

/// What is found by a manager that is opened on this disk.
fn reopened(alloc: Global, disk: MemoryDisk, scan: bool) -> Result<Found, StoreError> {
    let mut manager = opened(alloc, disk, 10_000, scan)?;
    let answer = found(alloc, &mut manager);
    release(manager);
    answer
}

/// What is found by a manager and, once it has written, by another one that scans or does not.
fn added_and_reopened(alloc: Global, scan: bool) -> Result<([Found; 2], Found), StoreError> {
    let mut manager = opened(alloc, MemoryDisk::new(alloc), 10_000, true)?;
    let first = added(alloc, &mut manager);
    let second = reopened(alloc, manager.into_disk(), scan);
    Ok((first?, second?))
}

#[test]
fn pending_is_found_and_written(rt: HostRuntime) -> Result<(), Fail> {
    let alloc = rt.alloc();
    let shard = compute_data_hash(&bytes_of_abc(alloc)?);
    let answer = added_and_reopened(alloc, true)?;
    let written = (Some(1), Some(Some(shard)));
    assert_eq!(rt; answer, ([(Some(1), Some(None)), written], written));
    Ok(())
}

#[test]
fn manager_that_does_not_scan_finds_nothing(rt: HostRuntime) -> Result<(), Fail> {
    let (_, answer) = added_and_reopened(rt.alloc(), false)?;
    assert_eq!(rt; answer, (None, None));
    Ok(())
}
