//! Tests of a pass that makes steps.

ghost use Rattle.std.specs.Prelude.{◌≡◌, false};

use crate::files::{chunk_hashes, record, xorb};
use crate::locked_tests::{close, open};
use std::alloc::Global;
use std::marker::Brand;
use std::sync::Wait;
use std::test::Fail;
use xet_hash::{MerkleHash, Reason, StoreError, compute_data_hash};
use xet_io::MemoryDisk;
use xet_locked_session::{LockedSession, Naming, Opened, Pass, Passing};
use xet_store::{Stepping, Store};

/// Whether the xorb and the file were new; how many chunks the query found, and the number of its entry; the errors of a step
/// that fails and of one after it.
type Seen = (
    (bool, bool),
    (Option<usize>, u64),
    (Option<StoreError>, Option<StoreError>),
);

/// Registers the xorb. Returns whether it was new, and its hash.
fn register<S: Stepping>(alloc: Global, steps: &mut S) -> Result<(bool, MerkleHash), StoreError> {
    let xorb = xorb(alloc, steps.limits())?;
    let hash = xorb.hash();
    Ok((steps.register(xorb, &[])?, hash))
}

/// Queries. Returns how many chunks were found.
fn query<S: Stepping>(steps: &mut S, hashes: &[MerkleHash]) -> Result<Option<usize>, StoreError> {
    match steps.query(hashes)? {
        Some((count, _)) => Ok(Some(count)),
        None => Ok(None),
    }
}

/// Records the file of the chunks of the xorb of this hash. Returns whether it was new.
fn complete<S: Stepping>(
    alloc: Global,
    steps: &mut S,
    xorb: MerkleHash,
) -> Result<bool, StoreError> {
    steps.complete(record(alloc, xorb)?)
}

/// Registers the xorb, queries its chunks and records the file. Then a file is to be recorded that lies in no listed xorb, and
/// a last query is made.
fn make_steps<S: Stepping>(alloc: Global, steps: &mut S) -> Result<Seen, StoreError> {
    let [a, b] = chunk_hashes();
    let (is_new, xorb) = register(alloc, steps)?;
    let found = query(steps, &[a, b])?;
    let last = steps.last_query();
    let recorded = complete(alloc, steps, xorb)?;
    let failed = complete(alloc, steps, compute_data_hash(b"abc")).err();
    let after = query(steps, &[a]).err();
    Ok(((is_new, recorded), (found, last), (failed, after)))
}

/// A pass makes the steps. Returns the length of the history that it has seen, too.
fn make_steps_of<J: Naming, R: Wait>(
    rt: &R,
    alloc: Global,
    session: &LockedSession<MemoryDisk, J>,
    pass: Pass<J>,
) -> (Result<Seen, StoreError>, u64) {
    let mut passing = Passing::new(rt, session, pass);
    let seen = make_steps(alloc, &mut passing);
    (seen, passing.into_pass().seen())
}

/// The same with the last of these passes.
fn make_steps_of_last<J: Naming, R: Wait>(
    rt: &R,
    alloc: Global,
    session: &LockedSession<MemoryDisk, J>,
    mut passes: Vec<Pass<J>>,
) -> (Result<Seen, StoreError>, u64) {
    match passes.pop() {
        Some(pass) => make_steps_of(rt, alloc, session, pass),
        None => (Err(StoreError::OutOfMemory), 0),
    }
}

/// The same with a session of a store, which is returned.
fn pass_steps<J: Naming, R: Wait>(
    rt: &R,
    alloc: Global,
    opened: Opened,
    store: Store<MemoryDisk>,
) -> (Store<MemoryDisk>, (Result<Seen, StoreError>, u64))
    requires table { opened.word ≡ J.table }
    requires ledger { (opened.blank.name ≡ J.name) × (opened.blank.parts ≡ J.parts) × (J.parts ≡ 3) }
    requires store { store ≡ J.store }
    requires going { J.stops ≡ false }
{
    match LockedSession::<MemoryDisk, J>::new(alloc, opened, store, 2) {
        Ok((session, passes)) => {
            let seen = make_steps_of_last(rt, alloc, &session, passes);
            (session.abandon(), seen)
        }
        Err((store, error)) => (store, (Err(error), 0)),
    }
}

/// The same, with a name of its own.
fn pass_once<R: Wait>(
    rt: &R,
    alloc: Global,
    opened: Opened,
    store: Store<MemoryDisk>,
) -> (Store<MemoryDisk>, (Result<Seen, StoreError>, u64))
    requires { opened.blank.parts ≡ 3 }
{
    pass_steps::<Brand, R>(rt, alloc, opened, store)
}

/// What a pass sees that makes the steps.
fn passed<R: Wait>(rt: &R, alloc: Global) -> Result<(Seen, u64), StoreError> {
    let opened = Opened::new(alloc, 2)?;
    let (store, (seen, length)) = pass_once(rt, alloc, opened, open(alloc)?);
    let _entries = close(store);
    Ok((seen?, length))
}

#[test]
fn pass_makes_steps(rt: HostRuntime) -> Result<(), Fail> {
    let failed = Some(StoreError::MalformedData(Reason::OtherFileHash));
    let after = Some(StoreError::OutOfMemory);
    let seen = passed(&rt, rt.alloc())?;
    assert_eq!(rt; seen, (((true, true), (Some(2), 1), (failed, after)), 3));
    Ok(())
}
