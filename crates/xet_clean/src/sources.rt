//! The sources are read in turn, and what was made of each file is added.

ghost use Rattle.std.specs.Prelude.{◌≡◌, ◌≤◌, ◌<◌, ◌+◌, ◌*◌, ◌^◌, ◌++◌, ◌∷◌, [], ℕ, Err, List, IfErr, IfOk, IsErr, IsOkUnless, OnErr, OnOk, length, map, vec_capacity, vec_len, true, false};
ghost use Rattle.xet_aggregate.specs.Aggregate.{empty};
ghost use Rattle.xet_aggregate.specs.Metrics.{zeros};
ghost use Rattle.xet_clean.specs.Cleaner.{IsCleaning};
ghost use Rattle.xet_clean.specs.Closing.{IsAtMost, IsUnclosed, RegistersFull};
ghost use Rattle.xet_clean.specs.Planning.{IsFew, IsFinished, RegistersOnly};
ghost use Rattle.xet_clean.specs.Policies.{IfComputed, sha256_by};
ghost use Rattle.xet_clean.specs.Sources.{HasCleaned, IsCutShort, IsLoopError, IsSourceError, Takes};
ghost use Rattle.xet_clean.specs.Working.{IsAdded, IsWorking, Planned};
ghost use Rattle.xet_file_plan.specs.Moves.{PlanState};
ghost use Rattle.xet_io.specs.Frame.{Stays};
ghost use Rattle.xet_store.specs.Holders.{Follows, FollowsAsking, Holder};
ghost use Rattle.xet_store_disk.specs.Cleaning.{AreTaken, Later};
ghost use Rattle.xet_xorb_chunk.specs.Chunks.{chunk_leaf};

use crate::block_reader::BlockReader;
use crate::cleaner::{FileCleaner, FinishedFile, add_block};
use crate::digest::{FileDigest, end_by};
use crate::policy::Sha256Policy;
use crate::working::Working;
use std::alloc::Global;
use xet_hash::StoreError;
use xet_io::Source;
use xet_store::{Asking, Stepping};

/// Reads and stores the sources in turn, at most 2^20 of them, which errors name by their numbers, from 0 on. `working`
/// is as `Working::new` returns it, with room for as many sources. What is left of the files, which is chunks in no xorb yet and
/// the records that wait for them, is in the aggregate of the result. `digest` computes the SHA-256 of each file, if the policy
/// is to compute it. After an error the steps before it stand.
pub fn clean_each<S: Stepping, R: Source, H: FileDigest>(
    alloc: Global,
    asking: Asking<S>,
    working: Working,
    sources: &mut [R],
    policy: &Sha256Policy,
    digest: &mut H,
) -> (Asking<S>, Result<Working, StoreError>)
    requires count { length sources.old ≤ 2 ^ 20 }
    requires going { (S.holder asking.steps).stopped ≡ false }
    requires nothing { (working.cleaned.infos.items ≡ []) × (working.cleaned.choices.items ≡ []) × (working.cleaned.metrics ≡ zeros) × (working.aggregate ≡ empty) }
    requires room { (length sources.old ≤ vec_capacity working.cleaned.infos) × (length sources.old ≤ vec_capacity working.cleaned.choices) }
    ensures cleaned { IfOk result.1 (λ w. HasCleaned policy.now R.tells R.left R.faults sources.old sources.new (S.holder asking.steps) (S.holder result.0.steps) w.cleaned.infos.items w.cleaned.choices.items w.cleaned.metrics w.aggregate) }
    ensures follows { Follows (S.holder asking.steps) (S.holder result.0.steps) }
    ensures bound { IfErr result.1 (IsCutShort [] policy.now R.tells R.left sources.old sources.new (S.holder asking.steps) (S.holder result.0.steps)) }
    ensures sources_tell { map R.tells sources.new ≡ map R.tells sources.old }
    ensures sources_taken { AreTaken R.tells R.left sources.old sources.new }
    ensures sources_later { Later R.faults sources.old sources.new }
    ensures refused { IfErr result.1 (IsLoopError R.tells R.left R.faults sources.old sources.new (S.holder asking.steps) (S.holder result.0.steps)) }
{
    let mut asking = asking;
    let mut working = working;
    asking.steps.limits().recall_invariant();
    let mut blocks = BlockReader::new(alloc, asking.steps.limits());
    'sources: for at in 0..sources.len() {
        let (back, file) = clean_source(
            alloc,
            asking,
            &mut sources[at],
            at as u32,
            &mut blocks,
            policy,
            digest,
        );
        asking = back;
        if let Err(error) = keep(&mut working, &mut asking.steps, file) {
            return (asking, Err(error));
        }
    }
    (asking, Ok(working))
}

/// Adds a file that was cleaned, unless there was an error.
pub(crate) fn keep<S: Stepping>(
    working: &mut Working,
    steps: &mut S,
    file: Result<FinishedFile, StoreError>,
) -> Result<(), StoreError>
    requires working { IfOk file (λ f. (start first : Holder) × (files : List Planned) × (policy : Sha256Policy) × (bytes : List ℕ) × (id : ℕ) × IsAdded start first (S.holder steps.old) files policy bytes id working.old.cleaned.infos.items working.old.cleaned.choices.items working.old.cleaned.metrics working.old.aggregate f.info f.metrics f.choices f.rest) }
    requires room { (vec_len working.old.cleaned.infos + 1 ≤ vec_capacity working.old.cleaned.infos) × (vec_len working.old.cleaned.choices + 1 ≤ vec_capacity working.old.cleaned.choices) }
    ensures working { IfOk file (λ f. (start first : Holder) (files : List Planned) (policy : Sha256Policy) (bytes : List ℕ) (id : ℕ) → IsAdded start first (S.holder steps.old) files policy bytes id working.old.cleaned.infos.items working.old.cleaned.choices.items working.old.cleaned.metrics working.old.aggregate f.info f.metrics f.choices f.rest
        → OnOk result ((plan : PlanState) × IsWorking start (S.holder steps.new) (files ++ (record { bytes = bytes; policy = policy; plan = plan }) ∷ []) working.new.cleaned.infos.items working.new.cleaned.choices.items working.new.cleaned.metrics working.new.aggregate)) }
    ensures room { (vec_capacity working.new.cleaned.infos ≡ vec_capacity working.old.cleaned.infos) × (vec_capacity working.new.cleaned.choices ≡ vec_capacity working.old.cleaned.choices) }
    ensures grown { OnOk result ((vec_len working.new.cleaned.infos ≡ vec_len working.old.cleaned.infos + 1) × (vec_len working.new.cleaned.choices ≡ vec_len working.old.cleaned.choices + 1)) }
    ensures follows { Follows (S.holder steps.old) (S.holder steps.new) }
    ensures few { IsAtMost (2 * length working.old.aggregate.chunks + 2 * length working.old.aggregate.files) (S.holder steps.old) (S.holder steps.new) }
    ensures refused { IfErr result (λ e. IfOk file (λ f. IsUnclosed (RegistersFull working.old.aggregate (map chunk_leaf f.rest.chunks)) working.old.aggregate (map chunk_leaf f.rest.chunks) (S.holder steps.old) (S.holder steps.new) e)) }
    ensures kept { IfErr file (λ e. (result ≡ Err e) × (S.holder steps.new ≡ S.holder steps.old)) }
{
    match file {
        Ok(file) => working.add(steps, file),
        Err(error) => Err(error),
    }
}

/// Reads a source to its end and cleans its file. Errors name it as source `number`.
pub(crate) fn clean_source<S: Stepping, R: Source, H: FileDigest>(
    alloc: Global,
    asking: Asking<S>,
    source: &mut R,
    number: u32,
    blocks: &mut BlockReader,
    policy: &Sha256Policy,
    digest: &mut H,
) -> (Asking<S>, Result<FinishedFile, StoreError>)
    ensures finished { IfOk result.1 (λ f. (bytes : List ℕ) × Takes true (R.tells source.old) (R.left source.old) (R.left source.new) bytes × IsFinished (S.holder asking.steps) (S.holder result.0.steps) number (sha256_by policy.now bytes) bytes f.info f.metrics f.choices f.rest) }
    ensures few { OnErr result.1 ((bytes : List ℕ) × Takes false (R.tells source.old) (R.left source.old) (R.left source.new) bytes × IsFew (S.holder asking.steps) (S.holder result.0.steps) bytes) }
    ensures own { OnErr result.1 (R.tells source.old ≡ true → RegistersOnly (S.holder asking.steps) (S.holder result.0.steps) (R.left source.old)) }
    ensures follows { FollowsAsking (S.holder asking.steps) (S.holder result.0.steps) }
    ensures frame { Stays R.tells R.faults source.old source.new }
    ensures refused { IfErr result.1 (IsSourceError number (R.tells source.old) (R.left source.old) (R.faults source.old) (R.faults source.new) (S.holder asking.steps) (S.holder result.0.steps)) }
{
    match FileCleaner::new(alloc, asking, number) {
        Ok(mut cleaner) => {
            digest.begin();
            match read_into(&mut cleaner, digest, source, number, blocks, policy) {
                Ok(()) => cleaner.finish(end_by(digest, policy)),
                Err(error) => (cleaner.into_asking(), Err(error)),
            }
        }
        Err((asking, error)) => (asking, Err(error)),
    }
}

/// Reads a source to its end, block by block, and adds its bytes to a file and to its SHA-256.
fn read_into<S: Stepping, R: Source, H: FileDigest>(
    cleaner: &mut FileCleaner<S>,
    digest: &mut H,
    source: &mut R,
    number: u32,
    blocks: &mut BlockReader,
    policy: &Sha256Policy,
) -> Result<(), StoreError>
    requires cleaning { IsCleaning (S.holder cleaner.old.deduper.start.value.steps) (S.holder cleaner.old.deduper.interface.steps) cleaner.old.deduper.whole cleaner.old.deduper.plan cleaner.old.deduper.global cleaner.old.chunker cleaner.old.byte_count [] }
    requires nothing { H.has digest.old [] }
    requires number { cleaner.old.number ≡ number }
    ensures cleaning { OnOk result ((bytes : List ℕ) × Takes true (R.tells source.old) (R.left source.old) (R.left source.new) bytes × IsCleaning (S.holder cleaner.new.deduper.start.value.steps) (S.holder cleaner.new.deduper.interface.steps) cleaner.new.deduper.whole cleaner.new.deduper.plan cleaner.new.deduper.global cleaner.new.chunker cleaner.new.byte_count bytes × IfComputed policy.now (H.has digest.new bytes)) }
    ensures few { OnErr result ((bytes : List ℕ) × Takes false (R.tells source.old) (R.left source.old) (R.left source.new) bytes × IsFew (S.holder cleaner.new.deduper.start.value.steps) (S.holder cleaner.new.deduper.interface.steps) bytes) }
    ensures own { OnErr result (R.tells source.old ≡ true → RegistersOnly (S.holder cleaner.new.deduper.start.value.steps) (S.holder cleaner.new.deduper.interface.steps) (R.left source.old)) }
    ensures same { (cleaner.new.deduper.start.value ≡ cleaner.old.deduper.start.value) × (cleaner.new.deduper.file_id ≡ cleaner.old.deduper.file_id) }
    ensures follows { FollowsAsking (S.holder cleaner.old.deduper.interface.steps) (S.holder cleaner.new.deduper.interface.steps) }
    ensures frame { Stays R.tells R.faults source.old source.new }
    ensures refused { IfErr result (IsSourceError number (R.tells source.old) (R.left source.old) (R.faults source.old) (R.faults source.new) (S.holder cleaner.old.deduper.interface.steps) (S.holder cleaner.new.deduper.interface.steps)) }
{
    loop {
        let (block, is_last) = blocks.read(source, number)?;
        add_block(cleaner, digest, policy, block)?;
        if is_last {
            return Ok(());
        }
    }
}
