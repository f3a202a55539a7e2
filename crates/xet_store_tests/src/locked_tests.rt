//! Tests of a session that passes share under a lock.

ghost use Rattle.std.specs.Prelude.{◌≡◌, false, true};
ghost use Rattle.xet_locked_session.specs.Passes.{new_passes};

use crate::files::{chunk_hashes, record, xorb};
use crate::recorded::limits;
use std::alloc::Global;
use std::marker::Brand;
use std::sync::Wait;
use std::test::Fail;
use xet_hash::{MerkleHash, Reason, StoreError, compute_data_hash};
use xet_io::MemoryDisk;
use xet_locked_session::{LockedSession, Naming, Opened, Pass, Passing, StoppingSession};
use xet_store::{Stepping, Store};

/// A pass registers the xorb. Returns whether it was new, and its hash.
fn register<J: Naming, R: Wait>(
    rt: &R,
    alloc: Global,
    session: &LockedSession<MemoryDisk, J>,
    pass: &mut Pass<J>,
) -> Result<(bool, MerkleHash), StoreError>
    requires { pass.old.limits ≡ J.store.store.limits }
{
    let xorb = xorb(alloc, session.limits())?;
    let hash = xorb.hash();
    Ok((session.register_xorb(rt, pass, xorb, &[])?, hash))
}

/// A pass queries. Returns how many chunks it found.
fn query<J: Naming, R: Wait>(
    rt: &R,
    session: &LockedSession<MemoryDisk, J>,
    pass: &mut Pass<J>,
    hashes: &[MerkleHash],
) -> Result<Option<usize>, StoreError> {
    match session.query(rt, pass, hashes)? {
        Some((count, _)) => Ok(Some(count)),
        None => Ok(None),
    }
}

/// A pass records the file of the chunks of the xorb of this hash. Returns whether it was new.
fn complete<J: Naming, R: Wait>(
    rt: &R,
    alloc: Global,
    session: &LockedSession<MemoryDisk, J>,
    pass: &mut Pass<J>,
    xorb: MerkleHash,
) -> Result<bool, StoreError> {
    session.complete_file(rt, pass, record(alloc, xorb)?)
}

/// Whether the xorb and the file were new; how many chunks the query found; whether the first flush wrote a shard, and the
/// second one; the lengths of the history that the two passes have seen.
type Seen = (bool, bool, Option<usize>, (bool, bool), (u64, u64));

/// Both passes flush. Returns whether the first one wrote a shard, and the second one.
fn flush_both<J: Naming, R: Wait>(
    rt: &R,
    session: &LockedSession<MemoryDisk, J>,
    first: &mut Pass<J>,
    second: &mut Pass<J>,
) -> Result<(bool, bool), StoreError> {
    let wrote = session.flush(rt, first)?.is_some();
    Ok((wrote, session.flush(rt, second)?.is_some()))
}

/// The first pass registers the xorb and flushes; the second one queries, records the file, and flushes again.
fn take_turns<J: Naming, R: Wait>(
    rt: &R,
    alloc: Global,
    session: &LockedSession<MemoryDisk, J>,
    first: &mut Pass<J>,
    second: &mut Pass<J>,
) -> Result<Seen, StoreError>
    requires { first.old.limits ≡ J.store.store.limits }
{
    let [a, b] = chunk_hashes();
    let (is_new, xorb) = register(rt, alloc, session, first)?;
    let found = query(rt, session, second, &[a, b])?;
    let recorded = complete(rt, alloc, session, second, xorb)?;
    let wrote = flush_both(rt, session, first, second)?;
    Ok((
        is_new,
        recorded,
        found,
        wrote,
        (first.seen(), second.seen()),
    ))
}

/// The two passes take turns.
fn take_turns_of<J: Naming, R: Wait>(
    rt: &R,
    alloc: Global,
    session: &LockedSession<MemoryDisk, J>,
    passes: &mut [Pass<J>],
) -> Result<Seen, StoreError>
    requires { passes.old ≡ new_passes J.store 1 2 }
{
    match passes {
        [first, second] => take_turns(rt, alloc, session, first, second),
        _ => Err(StoreError::OutOfMemory),
    }
}

/// A session of a store with two passes, which take turns. The store is returned.
fn share<J: Naming, R: Wait>(
    rt: &R,
    alloc: Global,
    opened: Opened,
    store: Store<MemoryDisk>,
) -> (Store<MemoryDisk>, Result<Seen, StoreError>)
    requires table { opened.word ≡ J.table }
    requires ledger { (opened.blank.name ≡ J.name) × (opened.blank.parts ≡ J.parts) × (J.parts ≡ 3) }
    requires store { store ≡ J.store }
    requires going { J.stops ≡ false }
{
    match LockedSession::<MemoryDisk, J>::new(alloc, opened, store, 2) {
        Ok((session, mut passes)) => {
            let seen = take_turns_of(rt, alloc, &session, &mut passes);
            (session.abandon(), seen)
        }
        Err((store, error)) => (store, Err(error)),
    }
}

/// The same, with a name of its own.
fn share_once<R: Wait>(
    rt: &R,
    alloc: Global,
    opened: Opened,
    store: Store<MemoryDisk>,
) -> (Store<MemoryDisk>, Result<Seen, StoreError>)
    requires { opened.blank.parts ≡ 3 }
{
    share::<Brand, R>(rt, alloc, opened, store)
}

/// A session with two passes that are given back at once.
fn lock<J: Naming>(
    alloc: Global,
    opened: Opened,
    store: Store<MemoryDisk>,
) -> (Store<MemoryDisk>, Result<(), StoreError>)
    requires table { opened.word ≡ J.table }
    requires ledger { (opened.blank.name ≡ J.name) × (opened.blank.parts ≡ J.parts) × (J.parts ≡ 3) }
    requires store { store ≡ J.store }
    requires going { J.stops ≡ false }
{
    match LockedSession::<MemoryDisk, J>::new(alloc, opened, store, 2) {
        Ok((session, passes)) => (session.close(passes), Ok(())),
        Err((store, error)) => (store, Err(error)),
    }
}

/// The same, with a name of its own.
fn lock_once(
    alloc: Global,
    opened: Opened,
    store: Store<MemoryDisk>,
) -> (Store<MemoryDisk>, Result<(), StoreError>)
    requires { opened.blank.parts ≡ 3 }
{
    lock::<Brand>(alloc, opened, store)
}

/// A session that stops, with two passes; it is stopped by a call or not. Returns whether it was.
fn halt<J: Naming, R: Wait>(
    rt: &R,
    alloc: Global,
    opened: Opened,
    store: Store<MemoryDisk>,
    stop: bool,
) -> (Store<MemoryDisk>, Result<bool, StoreError>)
    requires table { opened.word ≡ J.table }
    requires ledger { (opened.blank.name ≡ J.name) × (opened.blank.parts ≡ J.parts) × (J.parts ≡ 3) }
    requires store { store ≡ J.store }
    requires stops { J.stops ≡ true }
{
    match StoppingSession::<MemoryDisk, J>::new(alloc, opened, store, 2) {
        Ok((session, passes)) => {
            if stop {
                session.stop(rt);
            }
            let (store, stopped) = session.close_stopped(passes);
            (store, Ok(stopped))
        }
        Err((store, error)) => (store, Err(error)),
    }
}

/// The same, with a name of its own.
fn halt_once<R: Wait>(
    rt: &R,
    alloc: Global,
    opened: Opened,
    store: Store<MemoryDisk>,
    stop: bool,
) -> (Store<MemoryDisk>, Result<bool, StoreError>)
    requires { opened.blank.parts ≡ 3 }
{
    halt::<Brand, R>(rt, alloc, opened, store, stop)
}

/// The errors of a step, if one was made, and of the query after it.
type Errors = (Option<StoreError>, Option<StoreError>);

/// The error of a file that lies in no listed xorb.
const OTHER: Option<StoreError> = Some(StoreError::MalformedData(Reason::OtherFileHash));

/// The first pass records a file that lies in no listed xorb. The second pass then queries.
fn fail<J: Naming, R: Wait>(
    rt: &R,
    alloc: Global,
    session: &LockedSession<MemoryDisk, J>,
    passes: &mut [Pass<J>],
) -> Result<Errors, StoreError> {
    match passes {
        [first, second] => {
            let failed = complete(rt, alloc, session, first, compute_data_hash(b"abc")).err();
            let [a, _] = chunk_hashes();
            Ok((failed, query(rt, session, second, &[a]).err()))
        }
        _ => Err(StoreError::OutOfMemory),
    }
}

/// Ends a session of which the last of these passes is left.
fn abandon<J: Naming>(
    session: LockedSession<MemoryDisk, J>,
    mut passes: Vec<Pass<J>>,
) -> Store<MemoryDisk> {
    match passes.pop() {
        Some(pass) => session.abandon_after(pass),
        None => session.abandon(),
    }
}

/// The errors of `fail` in a session of a store, which is returned.
fn fail_session<J: Naming, R: Wait>(
    rt: &R,
    alloc: Global,
    opened: Opened,
    store: Store<MemoryDisk>,
) -> (Store<MemoryDisk>, Result<Errors, StoreError>)
    requires table { opened.word ≡ J.table }
    requires ledger { (opened.blank.name ≡ J.name) × (opened.blank.parts ≡ J.parts) × (J.parts ≡ 3) }
    requires store { store ≡ J.store }
    requires going { J.stops ≡ false }
{
    match LockedSession::<MemoryDisk, J>::new(alloc, opened, store, 2) {
        Ok((session, mut passes)) => {
            let errors = fail(rt, alloc, &session, &mut passes);
            (abandon(session, passes), errors)
        }
        Err((store, error)) => (store, Err(error)),
    }
}

/// The same, with a name of its own.
fn fail_once<R: Wait>(
    rt: &R,
    alloc: Global,
    opened: Opened,
    store: Store<MemoryDisk>,
) -> (Store<MemoryDisk>, Result<Errors, StoreError>)
    requires { opened.blank.parts ≡ 3 }
{
    fail_session::<Brand, R>(rt, alloc, opened, store)
}

/// Records a file that lies in no listed xorb.
fn record_other<S: Stepping>(alloc: Global, steps: &mut S) -> Result<bool, StoreError> {
    steps.complete(record(alloc, compute_data_hash(b"abc"))?)
}

/// Queries a chunk.
fn query_one<S: Stepping>(steps: &mut S) -> Result<bool, StoreError> {
    let [a, _] = chunk_hashes();
    Ok(steps.query(&[a])?.is_some())
}

/// The error of a file that lies in no listed xorb, over a pass of a session that stops.
fn failed_over<J: Naming, R: Wait>(
    rt: &R,
    alloc: Global,
    session: &StoppingSession<MemoryDisk, J>,
    pass: Pass<J>,
) -> Option<StoreError> {
    let mut passing = Passing::new_stopping(rt, session, pass);
    let failed = record_other(alloc, &mut passing).err();
    let _pass = passing.into_pass();
    failed
}

/// The error of a query over a pass of a session that stops.
fn queried_over<J: Naming, R: Wait>(
    rt: &R,
    session: &StoppingSession<MemoryDisk, J>,
    pass: Pass<J>,
) -> Option<StoreError> {
    let mut passing = Passing::new_stopping(rt, session, pass);
    let failed = query_one(&mut passing).err();
    let _pass = passing.into_pass();
    failed
}

/// One pass records a file that lies in no listed xorb; or, without a step, the session is stopped. Another pass then queries.
fn end<J: Naming, R: Wait>(
    rt: &R,
    alloc: Global,
    session: &StoppingSession<MemoryDisk, J>,
    mut passes: Vec<Pass<J>>,
    by_step: bool,
) -> Result<Errors, StoreError> {
    let (Some(second), Some(first)) = (passes.pop(), passes.pop()) else {
        return Err(StoreError::OutOfMemory);
    };
    let ended = if by_step {
        failed_over(rt, alloc, session, first)
    } else {
        session.stop(rt);
        None
    };
    Ok((ended, queried_over(rt, session, second)))
}

/// The same, with a session of a store. The store is returned.
fn end_session<J: Naming, R: Wait>(
    rt: &R,
    alloc: Global,
    opened: Opened,
    store: Store<MemoryDisk>,
    by_step: bool,
) -> (Store<MemoryDisk>, Result<Errors, StoreError>)
    requires table { opened.word ≡ J.table }
    requires ledger { (opened.blank.name ≡ J.name) × (opened.blank.parts ≡ J.parts) × (J.parts ≡ 3) }
    requires store { store ≡ J.store }
    requires stops { J.stops ≡ true }
{
    match StoppingSession::<MemoryDisk, J>::new(alloc, opened, store, 2) {
        Ok((session, passes)) => {
            let errors = end(rt, alloc, &session, passes, by_step);
            (session.abandon(), errors)
        }
        Err((store, error)) => (store, Err(error)),
    }
}

/// The same, with a name of its own.
fn end_once<R: Wait>(
    rt: &R,
    alloc: Global,
    opened: Opened,
    store: Store<MemoryDisk>,
    by_step: bool,
) -> (Store<MemoryDisk>, Result<Errors, StoreError>)
    requires { opened.blank.parts ≡ 3 }
{
    end_session::<Brand, R>(rt, alloc, opened, store, by_step)
}

/// A store in the folder `store` of a new disk.
pub fn open(alloc: Global) -> Result<Store<MemoryDisk>, StoreError> {
    let limits = limits(1 << 20)?;
    match Store::open(alloc, MemoryDisk::new(alloc), "store", limits, 1_000, false) {
        Ok(store) => Ok(store),
        Err(refused) => Err(refused.error),
    }
}

/// Closes a store. Returns the number of its entries.
pub fn close(store: Store<MemoryDisk>) -> usize {
    let entries = store.history().len();
    let _disk = store.into_disk();
    entries
}

/// What two passes see of one store, and the number of its entries.
fn shared<R: Wait>(rt: &R, alloc: Global) -> Result<(Seen, usize), StoreError> {
    let opened = Opened::new(alloc, 2)?;
    let (store, seen) = share_once(rt, alloc, opened, open(alloc)?);
    let entries = close(store);
    Ok((seen?, entries))
}

/// The number of entries of a store after a session without steps.
fn locked(alloc: Global) -> Result<usize, StoreError> {
    let opened = Opened::new(alloc, 2)?;
    let (store, done) = lock_once(alloc, opened, open(alloc)?);
    let entries = close(store);
    done?;
    Ok(entries)
}

/// Whether a session that ends without a step is stopped at its end.
fn halted<R: Wait>(rt: &R, alloc: Global, stop: bool) -> Result<bool, StoreError> {
    let opened = Opened::new(alloc, 2)?;
    let (store, stopped) = halt_once(rt, alloc, opened, open(alloc)?, stop);
    let _entries = close(store);
    stopped
}

/// The errors of a session in which a step fails, and the number of entries of its store.
fn failed<R: Wait>(rt: &R, alloc: Global) -> Result<(Errors, usize), StoreError> {
    let opened = Opened::new(alloc, 2)?;
    let (store, errors) = fail_once(rt, alloc, opened, open(alloc)?);
    let entries = close(store);
    Ok((errors?, entries))
}

/// The errors of a session that stops by a step or by a call, and the number of entries of its store.
fn ended<R: Wait>(rt: &R, alloc: Global, by_step: bool) -> Result<(Errors, usize), StoreError> {
    let opened = Opened::new(alloc, 2)?;
    let (store, errors) = end_once(rt, alloc, opened, open(alloc)?, by_step);
    let entries = close(store);
    Ok((errors?, entries))
}

#[test]
fn passes_share_one_history(rt: HostRuntime) -> Result<(), Fail> {
    let seen = shared(&rt, rt.alloc())?;
    assert_eq!(rt; seen, ((true, true, Some(2), (true, false), (4, 4)), 4));
    Ok(())
}

#[test]
fn session_without_steps_leaves_the_store(rt: HostRuntime) -> Result<(), Fail> {
    let entries = locked(rt.alloc())?;
    assert_eq!(rt; entries, 0);
    Ok(())
}

#[test]
fn session_that_stops_makes_no_step_after_one_that_failed(rt: HostRuntime) -> Result<(), Fail> {
    let stopping = ended(&rt, rt.alloc(), true)?;
    let going = failed(&rt, rt.alloc())?;
    assert_eq!(rt;
        (stopping, going),
        (
            ((OTHER, Some(StoreError::OutOfMemory)), 0),
            ((OTHER, None), 1)
        )
    );
    Ok(())
}

#[test]
fn session_that_stops_is_stopped_by_a_call(rt: HostRuntime) -> Result<(), Fail> {
    let stopping = ended(&rt, rt.alloc(), false)?;
    assert_eq!(rt; stopping, ((None, Some(StoreError::OutOfMemory)), 0));
    Ok(())
}

#[test]
fn session_says_whether_it_was_stopped(rt: HostRuntime) -> Result<(), Fail> {
    let stopped = halted(&rt, rt.alloc(), true)?;
    let left = halted(&rt, rt.alloc(), false)?;
    assert_eq!(rt; (stopped, left), (true, false));
    Ok(())
}
