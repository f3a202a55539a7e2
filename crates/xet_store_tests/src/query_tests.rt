//! Tests of queries: in what is pending, in a flushed shard, and in a shard that was there at opening.

use crate::files::{chunk_hashes, zero_hashes};
use crate::recorded::{Letters, Recorded, limits};
use std::alloc::Global;
use std::test::Fail;
use xet_hash::{MerkleHash, Place, StoreError};
use xet_io::{MemoryDisk, Op};

/// A target length of shards that nothing here passes.
const LONG: u64 = 1 << 20;

/// A run: how many chunks, from which index on, up to which, and how many bytes.
type Run = (usize, u32, u32, u32);

/// A run, and the number of hashes that its entry states.
type Seen = (Option<Run>, Option<usize>);

/// Asks for some hashes.
fn ask(store: &mut Recorded, hashes: &[MerkleHash]) -> Result<Seen, StoreError> {
    Ok((store.query(hashes)?, store.stated()))
}

/// Asks for both chunks, for the first one twice, and for a hash that no chunk has.
fn ask_thrice(store: &mut Recorded) -> Result<[Seen; 3], StoreError> {
    let [a, b] = zero_hashes();
    Ok([
        ask(store, &[a, b])?,
        ask(store, &[a, a])?,
        ask(store, &[MerkleHash::marker(), a])?,
    ])
}

/// Asks while the xorb is pending, and after it was flushed.
fn ask_and_flush(store: &mut Recorded) -> Result<([Seen; 3], [Seen; 3]), StoreError> {
    let _added = store.register_zeros()?;
    let pending = ask_thrice(store)?;
    let _flushed = store.flush()?;
    Ok((pending, ask_thrice(store)?))
}

/// The same in a new store, whose disk is returned too.
fn asked(
    alloc: Global,
) -> Result<(Result<([Seen; 3], [Seen; 3]), StoreError>, MemoryDisk), StoreError> {
    let limits = limits(LONG)?;
    let mut store = Recorded::open(alloc, MemoryDisk::new(alloc), limits)?;
    let seen = ask_and_flush(&mut store);
    Ok((seen, store.into_disk()))
}

/// Asks in a store that is opened on a disk.
fn asked_again(alloc: Global, disk: MemoryDisk) -> Result<[Seen; 3], StoreError> {
    let limits = limits(LONG)?;
    let mut store = Recorded::open(alloc, disk, limits)?;
    let seen = ask_thrice(&mut store);
    store.close();
    seen
}

#[test]
fn queries_are_answered_wherever_the_chunks_are(rt: HostRuntime) -> Result<(), Fail> {
    let wanted = [
        (Some((2, 0, 2, 72)), Some(2)),
        (Some((1, 0, 1, 64)), Some(2)),
        (None, Some(1)),
    ];
    let (seen, disk) = asked(rt.alloc())?;
    let again = asked_again(rt.alloc(), disk)?;
    assert_eq!(rt; (seen?, again), ((wanted, wanted), wanted));
    Ok(())
}

/// Asks for nothing, for the zeros once they are flushed, and for both xorbs once the other one is flushed too.
fn ask_between(store: &mut Recorded) -> Result<([Option<Run>; 4], Letters), StoreError> {
    let [a, b] = zero_hashes();
    let [c, d] = chunk_hashes();
    let nothing = store.query(&[])?;
    let _added = store.register_zeros()?;
    let _flushed = store.flush()?;
    let before = store.query(&[a, b])?;
    let _added = store.register()?;
    let _flushed = store.flush()?;
    let first = store.query(&[a, b])?;
    let last = store.query(&[c, d])?;
    Ok(([nothing, before, first, last], store.history()))
}

/// The same in a new store.
fn asked_between(alloc: Global) -> Result<([Option<Run>; 4], Letters), StoreError> {
    let limits = limits(LONG)?;
    let mut store = Recorded::open(alloc, MemoryDisk::new(alloc), limits)?;
    let seen = ask_between(&mut store);
    store.close();
    seen
}

#[test]
fn shards_that_are_flushed_between_queries_are_asked(rt: HostRuntime) -> Result<(), Fail> {
    let zeros = Some((2, 0, 2, 72));
    let runs = [None, zeros, zeros, Some((2, 0, 2, 7))];
    let history = ['R', 'F', 'Q', 'R', 'F', 'Q', 'Q', ' '];
    assert_eq!(rt; asked_between(rt.alloc())?, (runs, history));
    Ok(())
}

/// Whether the first query failed as the disk did, and the answer of the same query after that.
fn ask_again(store: &mut Recorded) -> Result<(bool, Option<Run>, Letters), StoreError> {
    let [a, b] = zero_hashes();
    let _added = store.register_zeros()?;
    let _flushed = store.flush()?;
    let failed = store.query(&[a, b]) == Err(StoreError::Io(Place::Disk));
    let answer = store.query(&[a, b])?;
    Ok((failed, answer, store.history()))
}

/// The same over a disk whose first read fails.
fn asked_after_fault(alloc: Global) -> Result<(bool, Option<Run>, Letters), StoreError> {
    let limits = limits(LONG)?;
    let fails = vec![in alloc; (Op::ReadAt, 0)]?;
    let mut store = Recorded::open(alloc, MemoryDisk::failing(alloc, fails), limits)?;
    let seen = ask_again(&mut store);
    store.close();
    seen
}

#[test]
fn failed_queries_have_the_entry_of_the_failure(rt: HostRuntime) -> Result<(), Fail> {
    let history = ['R', 'F', '?', 'Q', ' ', ' ', ' ', ' '];
    assert_eq!(rt;
        asked_after_fault(rt.alloc())?,
        (true, Some((2, 0, 2, 72)), history)
    );
    Ok(())
}
