//! Tests of steps and their entries.

use crate::recorded::{Letters, NONE, Recorded, limits};
use std::alloc::Global;
use std::test::Fail;
use xet_hash::{Place, Reason, StoreError};
use xet_io::{MemoryDisk, Op};

/// A target length of shards that nothing here passes.
const LONG: u64 = 1 << 20;

/// The answers of a store, and its history.
type Seen<T> = Result<(T, Letters), StoreError>;

/// Registers the xorb twice, records the file twice, and flushes twice.
fn step_twice(store: &mut Recorded) -> Seen<[bool; 6]> {
    let answers = [
        store.register()?,
        store.register()?,
        store.complete()?,
        store.complete()?,
        store.flush()?,
        store.flush()?,
    ];
    Ok((answers, store.history()))
}

/// The same in a new store, whose disk is returned too.
fn twice(alloc: Global) -> Result<(Seen<[bool; 6]>, MemoryDisk), StoreError> {
    let limits = limits(LONG)?;
    let mut store = Recorded::open(alloc, MemoryDisk::new(alloc), limits)?;
    let seen = step_twice(&mut store);
    Ok((seen, store.into_disk()))
}

/// The numbers of xorbs, files and shards of a store, a part of its file, and its history.
fn contents(store: &mut Recorded) -> Result<([u64; 3], [u8; 4], Letters), StoreError> {
    Ok((store.counts()?, store.part()?, store.history()))
}

/// The same of a disk.
fn contents_of_disk(
    alloc: Global,
    disk: MemoryDisk,
) -> Result<([u64; 3], [u8; 4], Letters), StoreError> {
    let limits = limits(LONG)?;
    let mut store = Recorded::open(alloc, disk, limits)?;
    let contents = contents(&mut store);
    store.close();
    contents
}

#[test]
fn steps_have_their_entries(rt: HostRuntime) -> Result<(), Fail> {
    let (seen, disk) = twice(rt.alloc())?;
    let contents = contents_of_disk(rt.alloc(), disk)?;
    let answers = [true, false, true, false, true, false];
    assert_eq!(rt; seen?, (answers, ['R', 'r', 'C', 'c', 'F', ' ', ' ', ' ']));
    assert_eq!(rt; contents, ([1, 1, 1], *b"cdef", NONE));
    Ok(())
}

/// Registers the xorb, records the file, registers the xorb again, and flushes.
fn step_and_flush(store: &mut Recorded) -> Result<Letters, StoreError> {
    let _added = store.register()?;
    let _added = store.complete()?;
    let _added = store.register()?;
    let _flushed = store.flush()?;
    Ok(store.history())
}

/// The same in a store with a target length of shards that each shard passes.
fn cuts(alloc: Global) -> Result<Letters, StoreError> {
    let limits = limits(1)?;
    let mut store = Recorded::open(alloc, MemoryDisk::new(alloc), limits)?;
    let history = step_and_flush(&mut store);
    store.close();
    history
}

#[test]
fn a_new_record_is_cut_from_what_is_pending(rt: HostRuntime) -> Result<(), Fail> {
    assert_eq!(rt; cuts(rt.alloc())?, ['R', 'F', 'C', 'r', 'F', ' ', ' ', ' ']);
    Ok(())
}

/// Whether the disk failed.
fn is_fault(answer: &Result<bool, StoreError>) -> bool {
    match answer {
        Err(error) => *error == StoreError::Io(Place::Disk),
        Ok(_) => false,
    }
}

/// Whether the first registration and the first flush failed.
fn step_on(store: &mut Recorded) -> Seen<[bool; 2]> {
    let unregistered = is_fault(&store.register());
    let _added = store.register()?;
    let _added = store.complete()?;
    let unflushed = is_fault(&store.flush());
    let _flushed = store.flush()?;
    Ok(([unregistered, unflushed], store.history()))
}

/// The same over a disk that fails in the first registration and in the first flush.
fn faults(alloc: Global) -> Seen<[bool; 2]> {
    let limits = limits(LONG)?;
    let fails = vec![in alloc; (Op::Rename, 0), (Op::Rename, 2)]?;
    let mut store = Recorded::open(alloc, MemoryDisk::failing(alloc, fails), limits)?;
    let seen = step_on(&mut store);
    store.close();
    seen
}

#[test]
fn failures_of_the_disk_have_their_entries(rt: HostRuntime) -> Result<(), Fail> {
    let history = ['?', 'R', 'C', '!', 'F', ' ', ' ', ' '];
    assert_eq!(rt; faults(rt.alloc())?, ([true, true], history));
    Ok(())
}

/// Whether a file was refused as another one.
fn is_other_file(answer: &Result<bool, StoreError>) -> bool {
    match answer {
        Err(error) => *error == StoreError::MalformedData(Reason::OtherFileHash),
        Ok(_) => false,
    }
}

/// Whether the file may be recorded and is refused, before its xorb is registered; and whether it may be after that.
fn step_early(store: &mut Recorded) -> Seen<[bool; 3]> {
    let before = store.can_complete()?;
    let refused = is_other_file(&store.complete());
    let _added = store.register()?;
    let after = store.can_complete()?;
    Ok(([before, refused, after], store.history()))
}

/// The same in a new store.
fn refusals(alloc: Global) -> Seen<[bool; 3]> {
    let limits = limits(LONG)?;
    let mut store = Recorded::open(alloc, MemoryDisk::new(alloc), limits)?;
    let seen = step_early(&mut store);
    store.close();
    seen
}

#[test]
fn files_without_their_xorb_are_refused(rt: HostRuntime) -> Result<(), Fail> {
    let history = ['R', ' ', ' ', ' ', ' ', ' ', ' ', ' '];
    assert_eq!(rt; refusals(rt.alloc())?, ([false, true, true], history));
    Ok(())
}
