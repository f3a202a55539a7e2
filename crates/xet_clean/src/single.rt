//! Cleaning one file.

ghost use Rattle.std.specs.Prelude.{◌≡◌, ◌≤◌, ◌<◌, ◌∷◌, [], Err, IfErr, IfOk, List, Ok, OnOk, IsSome, false, length, map, true, vec_capacity, ℕ};
ghost use Rattle.std.specs.List.{AllByRecursion};
ghost use Rattle.std.specs.Result.{result_err};
ghost use Rattle.xet_aggregate.specs.Aggregate.{empty};
ghost use Rattle.xet_aggregate.specs.Metrics.{zeros};
ghost use Rattle.xet_clean.specs.Sources.{AreRead, IsLoopError, IsShort};
ghost use Rattle.xet_clean.specs.Working.{EndsWith, Planned};
ghost use Rattle.xet_store.specs.Holders.{Follows};
ghost use Rattle.xet_choices.specs.declared.choice.Choice.{Choice};
ghost use Rattle.xet_clean.specs.Cleaning.{Grows, HasReason, IsBounded, IsCleaned};
ghost use Rattle.xet_clean.specs.Policies.{info_by};
ghost use Rattle.xet_cut.specs.Chunking.{chunking};
ghost use Rattle.xet_io.specs.Frame.{Stays};
ghost use Rattle.xet_store_disk.specs.Cleaning.{Adds, AreTaken, EachTold, HasFile, Keeps, chunkings};
ghost use Rattle.xet_store_disk.specs.Separate.{Separate};
ghost use Rattle.xet_store_disk.specs.Store.{plan_of};

use crate::block_reader::BlockReader;
use crate::info::Cleaned;
use crate::policy::{Sha256Generator, Sha256Policy};
use crate::sources::{clean_source, keep};
use crate::working::Working;
use std::alloc::Global;
use xet_dedup::DeduplicationMetrics;
use xet_hash::StoreError;
use xet_io::{Disk, SliceSource, Source};
use xet_store::{Alone, Asking, Stepping, Store};
use xet_store_disk::XetFileInfo;

/// Reads a source to its end and stores its file, as `clean_files` does with one source. The SHA-256 of the file comes by the
/// policy: the pointer record has it, and so has the record that is passed to the store. If the store has a record of that hash,
/// it keeps that one, with its own SHA-256 or none. A file of no bytes has no record. Returns the session, and the pointer record
/// with the metrics of the file. Errors name the source as number 0; they are those of `clean_files`.
pub fn clean_file<D: Disk, R: Source>(
    alloc: Global,
    session: Store<D>,
    source: &mut R,
    policy: Sha256Policy,
) -> (
    Store<D>,
    Result<(XetFileInfo, DeduplicationMetrics), StoreError>,
)
    // If Ok, the source was read to its end, and the pointer record is that of the bytes that it had left.
    ensures info { IfOk result.1 (λ r. R.tells source.old ≡ true → r.0 ≡ info_by policy session.store.limits (R.left source.old)) }
    ensures read { OnOk result.1 (R.tells source.new ≡ true → R.left source.new ≡ []) }
    ensures short { OnOk result.1 (R.tells source.old ≡ true → length (R.left source.old) ≤ session.store.limits.max_source_bytes) }

    // If disk and source are observable: the file has a plan that resolves to its chunks, if there are no collisions among the
    // data seen.
    ensures file { session.store.tells ≡ true → R.tells source.old ≡ true → Separate result.0.store (chunking session.store.limits (R.left source.old) ∷ [])
        → OnOk result.1 (HasFile result.0.store (chunking session.store.limits (R.left source.old))) }

    // The file has a plan. There are choices for its chunks of which all is true that `clean_files` promises of choices.
    ensures recorded { IfOk result.1 (λ r. IsSome (plan_of result.0.store.records r.0.hash)) }
    ensures cleaned { IfOk result.1 (λ r. (choices : List (List Choice)) × IsCleaned policy R.tells R.left (source.old ∷ []) session result.0 (r.0 ∷ []) choices r.1) }

    // What is kept, what was added to the history, and when each error is returned, as in `clean_files`.
    ensures keeps { Keeps session.store result.0.store }
    ensures steps { Grows (result_err result.1) session result.0 }
    ensures adds { IfOk result.1 (λ r. Adds session.store.records result.0.store.records (r.0.hash ∷ [])) }
    ensures bound { IfErr result.1 (IsBounded policy R.tells R.left (source.old ∷ []) (source.new ∷ []) session result.0) }
    ensures frame { Stays R.tells R.faults source.old source.new }
    ensures taken { AreTaken R.tells R.left (source.old ∷ []) (source.new ∷ []) }
    ensures reason { IfErr result.1 (HasReason R.tells R.left R.faults (source.old ∷ []) (source.new ∷ []) session result.0) }
{
    let (session, cleaned) = clean_single(alloc, session, source, &policy);
    (session, only(cleaned))
}

/// The result for the only source.
fn only(
    cleaned: Result<Cleaned, StoreError>,
) -> Result<(XetFileInfo, DeduplicationMetrics), StoreError>
    requires one { IfOk cleaned (λ c. length c.infos.items ≡ 1) }
    ensures ok { IfOk result (λ r. (c : Cleaned) × (cleaned ≡ Ok c) × (c.infos.items ≡ r.0 ∷ []) × (c.metrics ≡ r.1)) }
    ensures err { IfErr result (λ e. cleaned ≡ Err e) }
{
    match cleaned {
        Ok(cleaned) => Ok((cleaned.infos[0], cleaned.metrics)),
        Err(error) => Err(error),
    }
}

/// Stores a file of these bytes, as `clean_file` does with a source of them. `Io(Source(0))` is never returned.
pub fn clean_bytes<D: Disk>(
    alloc: Global,
    session: Store<D>,
    bytes: &[u8],
    policy: Sha256Policy,
) -> (
    Store<D>,
    Result<(XetFileInfo, DeduplicationMetrics), StoreError>,
)
    ensures info { IfOk result.1 (λ r. r.0 ≡ info_by policy session.store.limits bytes.now) }
    ensures short { OnOk result.1 (length bytes.now ≤ session.store.limits.max_source_bytes) }

    // If the disk is observable: the file has a plan that resolves to its chunks, if there are no collisions among the data
    // seen.
    ensures file { session.store.tells ≡ true → Separate result.0.store (chunking session.store.limits bytes.now ∷ [])
        → OnOk result.1 (HasFile result.0.store (chunking session.store.limits bytes.now)) }

    // The rest is as in `clean_file`.
    ensures recorded { IfOk result.1 (λ r. IsSome (plan_of result.0.store.records r.0.hash)) }
    ensures cleaned { IfOk result.1 (λ r. (choices : List (List Choice)) × IsCleaned policy (λ (_ : List ℕ). true) (λ b. b) (bytes.now ∷ []) session result.0 (r.0 ∷ []) choices r.1) }
    ensures keeps { Keeps session.store result.0.store }
    ensures steps { Grows (result_err result.1) session result.0 }
    ensures adds { IfOk result.1 (λ r. Adds session.store.records result.0.store.records (r.0.hash ∷ [])) }
    ensures bound { IfErr result.1 (λ e. (rest : List ℕ) × IsBounded policy (λ (_ : List ℕ). true) (λ b. b) (bytes.now ∷ []) (rest ∷ []) session result.0 e) }
    ensures reason { IfErr result.1 (λ e. (rest : List ℕ) × HasReason (λ (_ : List ℕ). true) (λ b. b) (λ _. 0) (bytes.now ∷ []) (rest ∷ []) session result.0 e) }
{
    let mut source = SliceSource::new(bytes);
    clean_file(alloc, session, &mut source, policy)
}

/// Reads a source to its end and stores its file. The SHA-256 comes by the policy.
fn clean_single<D: Disk, R: Source>(
    alloc: Global,
    session: Store<D>,
    source: &mut R,
    policy: &Sha256Policy,
) -> (Store<D>, Result<Cleaned, StoreError>)
    ensures infos { IfOk result.1 (λ cleaned. EachTold R.tells R.left (λ bytes info. info ≡ info_by policy.now session.store.limits bytes) (source.old ∷ []) cleaned.infos.items) }
    ensures read { OnOk result.1 (AllByRecursion (λ s. R.tells s ≡ true → R.left s ≡ []) (source.new ∷ [])) }
    ensures short { OnOk result.1 (AllByRecursion (λ s. R.tells s ≡ true → length (R.left s) ≤ session.store.limits.max_source_bytes) (source.old ∷ [])) }
    ensures files { session.store.tells ≡ true → AllByRecursion (λ s. R.tells s ≡ true) (source.old ∷ []) → Separate result.0.store (chunkings R.left session.store.limits (source.old ∷ []))
        → OnOk result.1 (AllByRecursion (HasFile result.0.store) (chunkings R.left session.store.limits (source.old ∷ []))) }
    ensures recorded { IfOk result.1 (λ cleaned. AllByRecursion (λ info. IsSome (plan_of result.0.store.records info.hash)) cleaned.infos.items) }
    ensures cleaned { IfOk result.1 (λ cleaned. IsCleaned policy.now R.tells R.left (source.old ∷ []) session result.0 cleaned.infos.items cleaned.choices.items cleaned.metrics) }
    ensures keeps { Keeps session.store result.0.store }
    ensures steps { Grows (result_err result.1) session result.0 }
    ensures adds { IfOk result.1 (λ cleaned. Adds session.store.records result.0.store.records (map (λ info. info.hash) cleaned.infos.items)) }
    ensures bound { IfErr result.1 (IsBounded policy.now R.tells R.left (source.old ∷ []) (source.new ∷ []) session result.0) }
    ensures frame { Stays R.tells R.faults source.old source.new }
    ensures taken { AreTaken R.tells R.left (source.old ∷ []) (source.new ∷ []) }
    ensures reason { IfErr result.1 (HasReason R.tells R.left R.faults (source.old ∷ []) (source.new ∷ []) session result.0) }
{
    let asking = Asking::new(Alone::new(session));
    let (asking, result) = clean_one(alloc, asking, source, policy);
    let alone = asking.into_steps();
    alone.recall_steps();
    let session = alone.into_store();
    session.recall_invariant();
    session.recall_sound();
    (session, result)
}

/// Reads and stores one source.
fn clean_one<S: Stepping, R: Source>(
    alloc: Global,
    asking: Asking<S>,
    source: &mut R,
    policy: &Sha256Policy,
) -> (Asking<S>, Result<Cleaned, StoreError>)
    requires going { (S.holder asking.steps).stopped ≡ false }
    ensures cleaned { IfOk result.1 (λ cleaned. (files : List Planned) × EndsWith policy.now R.tells R.left (source.old ∷ []) (S.holder asking.steps) (S.holder result.0.steps) files cleaned.infos.items cleaned.choices.items cleaned.metrics) }
    ensures read { OnOk result.1 (AreRead R.tells R.left (S.holder asking.steps).limits.max_source_bytes (source.old ∷ []) (source.new ∷ [])) }
    ensures follows { Follows (S.holder asking.steps) (S.holder result.0.steps) }
    ensures bound { IfErr result.1 (IsShort policy.now R.tells R.left (source.old ∷ []) (source.new ∷ []) (S.holder asking.steps) (S.holder result.0.steps)) }
    ensures frame { Stays R.tells R.faults source.old source.new }
    ensures taken { AreTaken R.tells R.left (source.old ∷ []) (source.new ∷ []) }
    ensures refused { IfErr result.1 (IsLoopError R.tells R.left R.faults (source.old ∷ []) (source.new ∷ []) (S.holder asking.steps) (S.holder result.0.steps)) }
{
    match Working::new(alloc, 1) {
        Ok(working) => clean_only(alloc, asking, working, source, policy),
        Err(error) => (asking, Err(error)),
    }
}

/// Reads and stores one source, and closes the aggregate. Nothing was made of it so far.
fn clean_only<S: Stepping, R: Source>(
    alloc: Global,
    asking: Asking<S>,
    working: Working,
    source: &mut R,
    policy: &Sha256Policy,
) -> (Asking<S>, Result<Cleaned, StoreError>)
    requires going { (S.holder asking.steps).stopped ≡ false }
    requires nothing { (working.cleaned.infos.items ≡ []) × (working.cleaned.choices.items ≡ []) × (working.cleaned.metrics ≡ zeros) × (working.aggregate ≡ empty) }
    requires room { (1 ≤ vec_capacity working.cleaned.infos) × (1 ≤ vec_capacity working.cleaned.choices) }
    ensures cleaned { IfOk result.1 (λ cleaned. (files : List Planned) × EndsWith policy.now R.tells R.left (source.old ∷ []) (S.holder asking.steps) (S.holder result.0.steps) files cleaned.infos.items cleaned.choices.items cleaned.metrics) }
    ensures read { OnOk result.1 (AreRead R.tells R.left (S.holder asking.steps).limits.max_source_bytes (source.old ∷ []) (source.new ∷ [])) }
    ensures follows { Follows (S.holder asking.steps) (S.holder result.0.steps) }
    ensures bound { IfErr result.1 (IsShort policy.now R.tells R.left (source.old ∷ []) (source.new ∷ []) (S.holder asking.steps) (S.holder result.0.steps)) }
    ensures frame { Stays R.tells R.faults source.old source.new }
    ensures taken { AreTaken R.tells R.left (source.old ∷ []) (source.new ∷ []) }
    ensures refused { IfErr result.1 (IsLoopError R.tells R.left R.faults (source.old ∷ []) (source.new ∷ []) (S.holder asking.steps) (S.holder result.0.steps)) }
{
    let mut working = working;
    asking.steps.limits().recall_invariant();
    let mut blocks = BlockReader::new(alloc, asking.steps.limits());
    let mut digest = Sha256Generator::new();
    let (asking, file) = clean_source(alloc, asking, source, 0, &mut blocks, policy, &mut digest);
    let mut asking = asking;
    match keep(&mut working, &mut asking.steps, file) {
        Ok(()) => {
            let cleaned = working.end(&mut asking.steps);
            (asking, cleaned)
        }
        Err(error) => (asking, Err(error)),
    }
}
