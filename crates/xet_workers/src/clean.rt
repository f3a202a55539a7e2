//! Cleaning by several workers.

ghost use Rattle.std.specs.Prelude.{◌≡◌, ◌≤◌, ◌+◌, ◌^◌, [], IfErr, IfOk, IsSome, OnOk, length, map, true};
ghost use Rattle.std.specs.List.{AllByRecursion};
ghost use Rattle.std.specs.Result.{result_err};
ghost use Rattle.xet_clean.specs.Cleaning.{HasReason};
ghost use Rattle.xet_locked_session.specs.Passes.{new_passes};
ghost use Rattle.xet_store.specs.Recorded.{IsRecorded};
ghost use Rattle.xet_store_disk.specs.Cleaning.{Adds, AreTaken, EachTold, HasFile, Keeps, Later, chunkings, info_of};
ghost use Rattle.xet_store_disk.specs.Separate.{Separate};
ghost use Rattle.xet_store_disk.specs.Store.{Sound, plan_of};
ghost use Rattle.xet_workers.specs.Cleaning.{GrowsBy, IsBoundedBy, IsCleanedBy};
ghost use Rattle.xet_workers.specs.internal.Ending.{Promises};

use crate::crew::Crew;
use crate::ending::close_and_merge;
use crate::seat::{Numbers, Room, leave_seats, take_seats};
use crate::team::work_shared;
use std::alloc::Global;
use std::marker::{Brand, Send, Sync};
use std::sync::Wait;
use std::thread::Threads;
use xet_clean::Cleaned;
use xet_cut::Limits;
use xet_hash::StoreError;
use xet_io::{Disk, Source};
use xet_locked_session::{Naming, Opened, Pass, StoppingSession};
use xet_store::Store;

/// Reads each of at most 2^20 sources to its end and stores its file. The sources are divided among the workers before the
/// first is read, in order and evenly. All workers but the last run on threads of their own if these can be started, and the
/// rest on the calling one. Each cleans its sources in order, as the pass of its number, from 1 on. Reading, splitting, and the
/// hashing of chunks and files are done outside the lock, and the SHA-256 of a file some blocks behind its chunks, on one more
/// thread, if one can be started; under the lock each xorb is encoded, written and synced, a file's hashes are checked once
/// more, and shards are hashed. A chunk for which a query finds a run is not stored again, unless the guard against
/// fragmentation rejects the run; chunks that still wait for their xorb are not found. The last chunks of the files of a worker
/// share xorbs; those that wait when all workers are done are merged in order and stored by the caller, as pass 0. Returns the
/// session, and for each source, in order, its pointer record and the choices for its chunks, with the metrics of all. By the
/// code, the first error stops each worker at its next step; of several, which is returned is not said. After an error the
/// steps before it stand. The errors are those of `xet_clean::clean_files`.
pub fn clean_files<D: Disk + Send, S: Source + Send, R: Threads + Wait + Sync>(
    rt: &R,
    alloc: Global,
    session: Store<D>,
    sources: &mut [S],
    workers: u32,
) -> (Store<D>, Result<Cleaned, StoreError>)
    requires count { length sources.old ≤ 2 ^ 20 }
    requires workers { (1 ≤ workers) × (workers ≤ 256) }

    // If Ok, each source was read to its end, and each result is that of the bytes that it had left.
    ensures infos { IfOk result.1 (λ cleaned. EachTold S.tells S.left (λ bytes info. info ≡ info_of session.store.limits bytes) sources.old cleaned.infos.items) }
    ensures read { OnOk result.1 (AllByRecursion (λ s. S.tells s ≡ true → S.left s ≡ []) sources.new) }
    ensures short { OnOk result.1 (AllByRecursion (λ s. S.tells s ≡ true → length (S.left s) ≤ session.store.limits.max_source_bytes) sources.old) }

    // If disk and sources are observable: each source has a plan that resolves to its chunks, if there are no
    // collisions among the data seen.
    ensures files { session.store.tells ≡ true → AllByRecursion (λ s. S.tells s ≡ true) sources.old → Separate result.0.store (chunkings S.left session.store.limits sources.old)
        → OnOk result.1 (AllByRecursion (HasFile result.0.store) (chunkings S.left session.store.limits sources.old)) }

    // Each file of the result has a plan.
    ensures recorded { IfOk result.1 (λ cleaned. AllByRecursion (λ info. IsSome (plan_of result.0.store.records info.hash)) cleaned.infos.items) }

    // If Ok, each chunk has a choice, which is true by the entries of one pass; each file that is not empty is recorded once, with
    // its range hashes and its SHA-256, and no other file is recorded; the metrics are the sums of the choices; as many chunks
    // were registered as are new; each xorb but the last was registered with the further chunks that did not fit, which are part
    // of a later one; and the entries are few, made by the passes of the workers and by pass 0.
    ensures cleaned { IfOk result.1 (λ cleaned. IsCleanedBy workers S.tells S.left sources.old session result.0 cleaned.infos.items cleaned.choices.items cleaned.metrics) }

    // Whatever the result, nothing is taken away, and the history grew by completed steps of passes and at most one that failed,
    // the last: so a file is recorded if and only if its entry stands, and a flush comes only before an entry that makes it due,
    // or before the step that failed. After `Io(Disk)` the last step failed by the disk. New records follow the earlier ones; if
    // Ok, each is under the hash of a source.
    ensures keeps { Keeps session.store result.0.store }
    ensures steps { GrowsBy (result_err result.1) session result.0 }
    ensures adds { IfOk result.1 (λ cleaned. Adds session.store.records result.0.store.records (map (λ info. info.hash) cleaned.infos.items)) }

    // Each source is observable if and only if it was before. Whatever the result, a prefix of what it had left was taken, and its
    // count of failures has not fallen. An error has a reason.
    ensures sources_tell { map S.tells sources.new ≡ map S.tells sources.old }
    ensures sources_taken { AreTaken S.tells S.left sources.old sources.new }
    ensures sources_later { Later S.faults sources.old sources.new }
    ensures reason { IfErr result.1 (HasReason S.tells S.left S.faults sources.old sources.new session result.0) }

    // After an error: the sources are in parts, at most one for each worker. Each part was read in turn up to some source: those
    // before it were read to their ends, and had no more bytes than the limits allow, and those after it were not read. There
    // are at most three entries for each chunk of what was taken and two for each source, made by the passes of the workers and
    // by pass 0. Each file that was recorded is that of a source that was read to its end, with its range hashes and its SHA-256;
    // it has a plan as above, and new records are under the hashes of these files. At most one xorb, the last, was registered
    // without further chunks.
    ensures bound { IfErr result.1 (λ e. IsBoundedBy workers S.tells S.left sources.old sources.new session result.0) }
{
    let team = workers.min(sources.len().max(1) as u32);
    match Opened::new(alloc, team) {
        Ok(opened) => clean_named::<D, Brand, S, R>(rt, alloc, opened, session, sources, team),
        Err(_) => {
            session.recall_sound();
            (session, Err(StoreError::OutOfMemory))
        }
    }
}

/// The same, over a store that the type names.
fn clean_named<D: Disk + Send, J: Naming + Send + Sync, S: Source + Send, R: Threads + Wait + Sync>(
    rt: &R,
    alloc: Global,
    opened: Opened,
    store: Store<D>,
    sources: &mut [S],
    workers: u32,
) -> (Store<D>, Result<Cleaned, StoreError>)
    requires table { opened.word ≡ J.table }
    requires ledger { (opened.blank.name ≡ J.name) × (opened.blank.parts ≡ J.parts) × (J.parts ≡ workers + 1) }
    requires store { store ≡ J.store }
    requires stops { J.stops ≡ true }
    requires count { length sources.old ≤ 2 ^ 20 }
    requires workers { (1 ≤ workers) × (workers ≤ 256) }
    ensures { Promises workers S.tells S.left S.faults sources.old sources.new J.store result.0 result.1 }
{
    match StoppingSession::<D, J>::new(alloc, opened, store, workers) {
        Ok((session, passes)) => clean_passes(rt, alloc, session, passes, sources, workers),
        Err((store, error)) => {
            store.recall_sound();
            (store, Err(error))
        }
    }
}

/// The same, with a session and its passes.
fn clean_passes<
    D: Disk + Send,
    J: Naming + Send + Sync,
    S: Source + Send,
    R: Threads + Wait + Sync,
>(
    rt: &R,
    alloc: Global,
    session: StoppingSession<D, J>,
    passes: Vec<Pass<J>>,
    sources: &mut [S],
    workers: u32,
) -> (Store<D>, Result<Cleaned, StoreError>)
    requires parts { J.parts ≡ workers + 1 }
    requires passes { passes.items ≡ new_passes J.store 1 workers }
    requires count { length sources.old ≤ 2 ^ 20 }
    requires workers { (1 ≤ workers) × (workers ≤ 256) }
    ensures { Promises workers S.tells S.left S.faults sources.old sources.new J.store result.0 result.1 }
{
    let (store, cleaned) = clean_to_end(rt, alloc, session, passes, sources, workers);
    store.recall_invariant();
    store.recall_sound();
    (store, cleaned)
}

/// The same. Its promises rest on the invariant of the store that is returned. All memory that the workers share is taken before
/// the first source is read.
fn clean_to_end<
    D: Disk + Send,
    J: Naming + Send + Sync,
    S: Source + Send,
    R: Threads + Wait + Sync,
>(
    rt: &R,
    alloc: Global,
    session: StoppingSession<D, J>,
    passes: Vec<Pass<J>>,
    sources: &mut [S],
    workers: u32,
) -> (Store<D>, Result<Cleaned, StoreError>)
    requires parts { J.parts ≡ workers + 1 }
    requires passes { passes.items ≡ new_passes J.store 1 workers }
    requires count { length sources.old ≤ 2 ^ 20 }
    requires workers { (1 ≤ workers) × (workers ≤ 256) }
    ensures { Sound result.0.store → IsRecorded result.0 → Promises workers S.tells S.left S.faults sources.old sources.new J.store result.0 result.1 }
{
    match Room::new(alloc, passes.len()) {
        Ok(mut room) => {
            take_seats(&mut room.seats, passes);
            let crew = Crew {
                rt,
                alloc,
                session: &session,
                blocks_behind: blocks_behind(session.limits(), workers),
            };
            let from = Numbers { pass: 1, source: 0 };
            work_shared(&crew, &mut room.seats, from, sources);
            let (passes, made) = leave_seats(room);
            close_and_merge(session, passes, made)
        }
        Err(_) => (session.close(passes), Err(StoreError::OutOfMemory)),
    }
}

/// How many blocks of a worker's file may wait for its SHA-256, but at least one: the workers share the blocks of 64 MiB, which are
/// as many bytes as a xorb has at the default limits. The thread at work may have as many.
fn blocks_behind(limits: &Limits, workers: u32) -> usize {
    let blocks = (1 << 26) / limits.block_bytes().max(1);
    (blocks / workers.max(1)).max(1) as usize
}
