//! Cleaning: reading files from sources and storing them with deduplication.

ghost use Rattle.std.specs.Prelude.{◌≡◌, ◌≤◌, ◌<◌, ◌+◌, ◌^◌, [], Err, List, IfErr, IfOk, IsOkUnless, IsSome, OnOk, length, map, replicate, false, true, vec_capacity};
ghost use Rattle.std.specs.List.{AllByRecursion};
ghost use Rattle.std.specs.Result.{result_err};
ghost use Rattle.xet_aggregate.specs.Aggregate.{empty};
ghost use Rattle.xet_aggregate.specs.Metrics.{zeros};
ghost use Rattle.xet_clean.specs.Cleaning.{Grows, HasReason, IsBounded, IsCleaned};
ghost use Rattle.xet_store.specs.Holders.{Follows};
ghost use Rattle.xet_clean.specs.Sources.{AreRead, IsLoopError, IsShort};
ghost use Rattle.xet_clean.specs.Working.{EndsWith, Planned};
ghost use Rattle.xet_store_disk.specs.Cleaning.{Adds, AreTaken, EachTold, HasFile, Keeps, Later, chunkings, info_of};
ghost use Rattle.xet_store_disk.specs.Separate.{Separate};
ghost use Rattle.xet_store_disk.specs.Store.{plan_of};
ghost use Rattle.xet_clean.specs.Policies.{info_by};
ghost use Rattle.xet_clean.specs.declared.policy.Sha256Policy.TheVariants.{Compute};

use crate::info::Cleaned;
use crate::policy::{Sha256Generator, Sha256Policy};
use crate::sources::clean_each;
use crate::working::Working;
use std::alloc::Global;
use std::marker::Send;
use xet_hash::StoreError;
use xet_io::{Disk, Source};
use xet_store::{Alone, Asking, Stepping, Store};

/// Reads each of at most 2^20 sources to its end and stores its file, in order, as pass 0. A chunk for which a query finds a
/// run is not stored again, unless the guard against fragmentation rejects the run; chunks that still wait for their xorb are
/// not found. The last chunks of the files share xorbs. Returns the session, and for each source its pointer record and the
/// choices for its chunks, with the metrics of all. All work runs on the calling thread. After an error the steps before it
/// stand. `Io(Source(i))` and `Io(Disk)` are returned only if that source or the disk failed, `TooLarge(Source(i))` only if
/// that source has more bytes than the limits allow, `TooLarge(Shards)` only if 2^32 - 1 shards are registered and something
/// is pending, `MalformedData` only if the disk or a source is not observable, or if there are collisions among the chunks
/// seen, also under the keys of shards, or a file has the hash that ends a section; any other error is `OutOfMemory`.
pub fn clean_files<D: Disk, R: Source + Send>(
    alloc: Global,
    session: Store<D>,
    sources: &mut [R],
    workers: u32,
) -> (Store<D>, Result<Cleaned, StoreError>)
    requires count { length sources.old ≤ 2 ^ 20 }
    requires workers { (1 ≤ workers) × (workers ≤ 256) }

    // If Ok, each source was read to its end, and each result is that of the bytes that it had left.
    ensures infos { IfOk result.1 (λ cleaned. EachTold R.tells R.left (λ bytes info. info ≡ info_of session.store.limits bytes) sources.old cleaned.infos.items) }
    ensures read { OnOk result.1 (AllByRecursion (λ s. R.tells s ≡ true → R.left s ≡ []) sources.new) }
    ensures short { OnOk result.1 (AllByRecursion (λ s. R.tells s ≡ true → length (R.left s) ≤ session.store.limits.max_source_bytes) sources.old) }

    // If disk and sources are observable: each source has a plan that resolves to its chunks, if there are no
    // collisions among the data seen.
    ensures files { session.store.tells ≡ true → AllByRecursion (λ s. R.tells s ≡ true) sources.old → Separate result.0.store (chunkings R.left session.store.limits sources.old)
        → OnOk result.1 (AllByRecursion (HasFile result.0.store) (chunkings R.left session.store.limits sources.old)) }

    // Each file of the result has a plan.
    ensures recorded { IfOk result.1 (λ cleaned. AllByRecursion (λ info. IsSome (plan_of result.0.store.records info.hash)) cleaned.infos.items) }

    // If Ok, each chunk has a choice, which is true by the entries that were added; each file that is not empty is recorded
    // once, in the order of the sources, with its range hashes and its SHA-256, and no other file is recorded; the metrics
    // are the sums of the choices; as many chunks were registered as are new; each xorb but the last was registered with the
    // further chunks that did not fit, which are part of a later one; and the entries are few.
    ensures cleaned { IfOk result.1 (λ cleaned. IsCleaned Compute R.tells R.left sources.old session result.0 cleaned.infos.items cleaned.choices.items cleaned.metrics) }

    // Whatever the result, nothing is taken away, and the history grew by completed steps of pass 0 and at most one that
    // failed: so a file is recorded if and only if its entry stands, and a flush comes only before an entry that makes it due,
    // or before the step that failed. No step failed if there is no error or one of a source; after `Io(Disk)` the last one
    // failed, by the disk. New records follow the earlier ones; if Ok, each is under the hash of a source, and after an error,
    // each is that of a file of all that was taken of a source, which has a plan as above. Also after an error at most one xorb,
    // the last, was registered without further chunks.
    ensures keeps { Keeps session.store result.0.store }
    ensures steps { Grows (result_err result.1) session result.0 }
    ensures adds { IfOk result.1 (λ cleaned. Adds session.store.records result.0.store.records (map (λ info. info.hash) cleaned.infos.items)) }
    ensures bound { IfErr result.1 (IsBounded Compute R.tells R.left sources.old sources.new session result.0) }

    // Each source is observable if and only if it was before. Whatever the result, a prefix of what it had
    // left was taken, and its count of failures has not fallen. An error has a reason.
    ensures sources_tell { map R.tells sources.new ≡ map R.tells sources.old }
    ensures sources_taken { AreTaken R.tells R.left sources.old sources.new }
    ensures sources_later { Later R.faults sources.old sources.new }
    ensures reason { IfErr result.1 (HasReason R.tells R.left R.faults sources.old sources.new session result.0) }
{
    let _ = workers;
    clean_with(alloc, session, sources, &Sha256Policy::Compute)
}

/// Reads each of the sources to its end and stores its file, as `clean_files` does. The SHA-256 of each comes by the policy.
fn clean_with<D: Disk, R: Source>(
    alloc: Global,
    session: Store<D>,
    sources: &mut [R],
    policy: &Sha256Policy,
) -> (Store<D>, Result<Cleaned, StoreError>)
    requires count { length sources.old ≤ 2 ^ 20 }
    ensures infos { IfOk result.1 (λ cleaned. EachTold R.tells R.left (λ bytes info. info ≡ info_by policy.now session.store.limits bytes) sources.old cleaned.infos.items) }
    ensures read { OnOk result.1 (AllByRecursion (λ s. R.tells s ≡ true → R.left s ≡ []) sources.new) }
    ensures short { OnOk result.1 (AllByRecursion (λ s. R.tells s ≡ true → length (R.left s) ≤ session.store.limits.max_source_bytes) sources.old) }
    ensures files { session.store.tells ≡ true → AllByRecursion (λ s. R.tells s ≡ true) sources.old → Separate result.0.store (chunkings R.left session.store.limits sources.old)
        → OnOk result.1 (AllByRecursion (HasFile result.0.store) (chunkings R.left session.store.limits sources.old)) }
    ensures recorded { IfOk result.1 (λ cleaned. AllByRecursion (λ info. IsSome (plan_of result.0.store.records info.hash)) cleaned.infos.items) }
    ensures cleaned { IfOk result.1 (λ cleaned. IsCleaned policy.now R.tells R.left sources.old session result.0 cleaned.infos.items cleaned.choices.items cleaned.metrics) }
    ensures keeps { Keeps session.store result.0.store }
    ensures steps { Grows (result_err result.1) session result.0 }
    ensures adds { IfOk result.1 (λ cleaned. Adds session.store.records result.0.store.records (map (λ info. info.hash) cleaned.infos.items)) }
    ensures bound { IfErr result.1 (IsBounded policy.now R.tells R.left sources.old sources.new session result.0) }
    ensures sources_tell { map R.tells sources.new ≡ map R.tells sources.old }
    ensures sources_taken { AreTaken R.tells R.left sources.old sources.new }
    ensures sources_later { Later R.faults sources.old sources.new }
    ensures reason { IfErr result.1 (HasReason R.tells R.left R.faults sources.old sources.new session result.0) }
{
    let asking = Asking::new(Alone::new(session));
    let (asking, result) = clean_all(alloc, asking, sources, policy);
    let alone = asking.into_steps();
    alone.recall_steps();
    let session = alone.into_store();
    session.recall_invariant();
    session.recall_sound();
    (session, result)
}

/// Reads and stores the sources in turn.
fn clean_all<S: Stepping, R: Source>(
    alloc: Global,
    asking: Asking<S>,
    sources: &mut [R],
    policy: &Sha256Policy,
) -> (Asking<S>, Result<Cleaned, StoreError>)
    requires count { length sources.old ≤ 2 ^ 20 }
    requires going { (S.holder asking.steps).stopped ≡ false }
    ensures cleaned { IfOk result.1 (λ cleaned. (files : List Planned) × EndsWith policy.now R.tells R.left sources.old (S.holder asking.steps) (S.holder result.0.steps) files cleaned.infos.items cleaned.choices.items cleaned.metrics) }
    ensures read { OnOk result.1 (AreRead R.tells R.left (S.holder asking.steps).limits.max_source_bytes sources.old sources.new) }
    ensures follows { Follows (S.holder asking.steps) (S.holder result.0.steps) }
    ensures bound { IfErr result.1 (IsShort policy.now R.tells R.left sources.old sources.new (S.holder asking.steps) (S.holder result.0.steps)) }
    ensures sources_tell { map R.tells sources.new ≡ map R.tells sources.old }
    ensures sources_taken { AreTaken R.tells R.left sources.old sources.new }
    ensures sources_later { Later R.faults sources.old sources.new }
    ensures refused { IfErr result.1 (IsLoopError R.tells R.left R.faults sources.old sources.new (S.holder asking.steps) (S.holder result.0.steps)) }
{
    match Working::new(alloc, sources.len()) {
        Ok(working) => clean_rest(alloc, asking, working, sources, policy),
        Err(error) => (asking, Err(error)),
    }
}

/// Reads and stores the sources in turn, and closes the aggregate. Nothing was made of any source so far.
fn clean_rest<S: Stepping, R: Source>(
    alloc: Global,
    asking: Asking<S>,
    working: Working,
    sources: &mut [R],
    policy: &Sha256Policy,
) -> (Asking<S>, Result<Cleaned, StoreError>)
    requires count { length sources.old ≤ 2 ^ 20 }
    requires going { (S.holder asking.steps).stopped ≡ false }
    requires nothing { (working.cleaned.infos.items ≡ []) × (working.cleaned.choices.items ≡ []) × (working.cleaned.metrics ≡ zeros) × (working.aggregate ≡ empty) }
    requires room { (length sources.old ≤ vec_capacity working.cleaned.infos) × (length sources.old ≤ vec_capacity working.cleaned.choices) }
    ensures cleaned { IfOk result.1 (λ cleaned. (files : List Planned) × EndsWith policy.now R.tells R.left sources.old (S.holder asking.steps) (S.holder result.0.steps) files cleaned.infos.items cleaned.choices.items cleaned.metrics) }
    ensures read { OnOk result.1 (AreRead R.tells R.left (S.holder asking.steps).limits.max_source_bytes sources.old sources.new) }
    ensures follows { Follows (S.holder asking.steps) (S.holder result.0.steps) }
    ensures bound { IfErr result.1 (IsShort policy.now R.tells R.left sources.old sources.new (S.holder asking.steps) (S.holder result.0.steps)) }
    ensures sources_tell { map R.tells sources.new ≡ map R.tells sources.old }
    ensures sources_taken { AreTaken R.tells R.left sources.old sources.new }
    ensures sources_later { Later R.faults sources.old sources.new }
    ensures refused { IfErr result.1 (IsLoopError R.tells R.left R.faults sources.old sources.new (S.holder asking.steps) (S.holder result.0.steps)) }
{
    let mut digest = Sha256Generator::new();
    let (asking, working) = clean_each(alloc, asking, working, sources, policy, &mut digest);
    let mut asking = asking;
    match working {
        Ok(working) => {
            let cleaned = working.end(&mut asking.steps);
            (asking, cleaned)
        }
        Err(error) => (asking, Err(error)),
    }
}
