//! The insert of a shard into the runs of an index.

ghost use Rattle.std.specs.Option.{ForSome};
ghost use Rattle.std.specs.Prelude.{◌≡◌, ℕ, ◌+◌, ◌<◌, ◌^◌, IfNone, IfOk, IfSome, IsOkUnless, Some, count_by, is_none, length, nat_eq, true};
ghost use Rattle.std.specs.Map.{lookup};
ghost use Rattle.xet_shard_format.specs.Lookups.{flat_places};
ghost use Rattle.xet_shard_index.specs.Places.{indexed_shard, place_in};
ghost use Rattle.xet_shard_index.specs.Runs.{Item, Rising, merged};
ghost use Rattle.xet_shard_index.specs.internal.Inserting.{IsAbsent, IsInsertion, IsReady};
ghost use Rattle.xet_shard_index.specs.internal.Lengths.{AreRuns, IsMerged};
ghost use Rattle.xet_shard_index.specs.declared.insertion.ReadyShard.{ReadyShard};

use crate::search::find_in_runs;
use crate::shard_items::shard_items;
use crate::steps::Steps;
use crate::word_place::WordPlace;
use crate::word_run::WordRun;
use std::alloc::Global;
use std::marker::Brand;
use std::sync::ledger::{Blank, Ledger};
use xet_hash::StoreError;

/// What becomes of runs as a shard is inserted: the first `kept` ones stay, and `run` is the newest.
#[derive(Drop)]
pub(crate) struct Insertion {
    pub kept: usize,
    pub run: WordRun,
    /// The number of words that are new.
    pub added: u64,
}

/// An insertion that was made ahead, with the number and the items of its shard.
#[derive(Drop)]
pub(crate) struct ReadyShard {
    pub shard: u32,
    pub items: Vec<(u64, (u32, u32))>,
    pub insertion: Insertion,
}

/// The insertion of a shard into runs that have this number of different words: the one that is ready, if it is of this
/// shard. None if no chunk is within reach. The only error is `StoreError::OutOfMemory`.
pub(crate) fn next_insertion(
    alloc: Global,
    ready: Option<ReadyShard>,
    runs: &[WordRun],
    words: u64,
    shard: u32,
    items: &[(u64, (u32, u32))],
) -> Result<Option<Insertion>, StoreError>
    requires runs { AreRuns runs.now }
    requires ready { ForSome ready (IsReady runs.now words) }
    ensures some { IfOk result (λ found. ForSome found (IsInsertion runs.now words (indexed_shard shard (flat_places items.now)))) }
    ensures none { IfOk result (λ found. IfNone found (IsAbsent (indexed_shard shard (flat_places items.now)))) }
    ensures memory { IsOkUnless result StoreError.OutOfMemory }
{
    match insertion_of(ready, shard, items) {
        Some(insertion) => Ok(Some(insertion)),
        None => make_insertion(alloc, runs, words, shard, items),
    }
}

/// Makes the insertion of a shard ahead. None if no chunk is within reach.
pub(crate) fn make_ready(
    alloc: Global,
    runs: &[WordRun],
    words: u64,
    shard: u32,
    items: &[(u64, (u32, u32))],
) -> Result<Option<ReadyShard>, StoreError>
    requires runs { AreRuns runs.now }
    ensures ready { IfOk result (λ ready. ForSome ready (IsReady runs.now words)) }
    ensures memory { IsOkUnless result StoreError.OutOfMemory }
{
    let copy = Vec::from_slice(alloc, items)?;
    match make_insertion(alloc, runs, words, shard, items)? {
        Some(insertion) => Ok(Some(ReadyShard {
            shard,
            items: copy,
            insertion,
        })),
        None => Ok(None),
    }
}

/// The insertion that is ready, if it is that of this shard.
fn insertion_of(
    ready: Option<ReadyShard>,
    shard: u32,
    items: &[(u64, (u32, u32))],
) -> Option<Insertion>
    ensures { IfSome result (λ insertion. (r : ReadyShard) × (ready ≡ Some r) × (insertion ≡ r.insertion) × (r.shard ≡ shard) × (r.items.items ≡ items.now)) }
{
    let ready = ready?;
    if is_of(&ready, shard, items) {
        Some(ready.insertion)
    } else {
        None
    }
}

/// Whether an insertion is that of this shard.
fn is_of(ready: &ReadyShard, shard: u32, items: &[(u64, (u32, u32))]) -> bool
    ensures shard { result ≡ true → ready.now.shard ≡ shard }
    ensures items { result ≡ true → ready.now.items.items ≡ items.now }
{
    ready.shard == shard && are_same(&ready.items, items)
}

/// Whether two lists of items are the same.
fn are_same(a: &[(u64, (u32, u32))], b: &[(u64, (u32, u32))]) -> bool
    ensures { result ≡ true → a.now ≡ b.now }
{
    if a.len() != b.len() {
        return false;
    }
    for i in 0..a.len() {
        if a[i] != b[i] {
            return false;
        }
    }
    true
}

/// The insertion of a shard into runs that have this number of different words. None if no chunk is within reach.
fn make_insertion(
    alloc: Global,
    runs: &[WordRun],
    words: u64,
    shard: u32,
    items: &[(u64, (u32, u32))],
) -> Result<Option<Insertion>, StoreError>
    requires runs { AreRuns runs.now }
    ensures some { IfOk result (λ found. ForSome found (IsInsertion runs.now words (indexed_shard shard (flat_places items.now)))) }
    ensures none { IfOk result (λ found. IfNone found (IsAbsent (indexed_shard shard (flat_places items.now)))) }
    ensures memory { IsOkUnless result StoreError.OutOfMemory }
{
    let found = shard_items(alloc, shard, items)?;
    if found.is_empty() {
        return Ok(None);
    }
    let added = count_new::<Brand>(runs, &found, Blank::new(1));
    if words.checked_add(added).is_none() {
        return Err(StoreError::OutOfMemory);
    }
    let (kept, run) = merge_short(runs, WordRun::new(found)?)?;
    Ok(Some(Insertion { kept, run, added }))
}

/// The number of items whose word no run has.
fn count_new<L: Ledger>(runs: &[WordRun], items: &[(u64, WordPlace)], blank: Blank) -> u64
    requires runs { AreRuns runs.now }
    requires name { blank.name ≡ L.name }
    requires parts { blank.parts ≡ L.parts }
    requires some { 0 < blank.parts }
    ensures { result ≡ count_by (λ (i : Item). is_none (lookup (nat_eq i.0) (merged runs.now))) items.now }
{
    let mut steps = Steps::<L>::new(blank);
    let mut added = 0;
    for (word, _) in items {
        if find_in_runs(runs, *word, &mut steps).is_none() {
            added += 1;
        }
    }
    added
}

/// Merges a run with the newest runs, from the last on, while they are less than twice as long. Returns how many runs
/// are left, and the merged run.
fn merge_short(runs: &[WordRun], run: WordRun) -> Result<(usize, WordRun), StoreError>
    requires runs { AreRuns runs.now }
    requires rising { Rising run }
    requires some { 0 < length run }
    ensures merged { IfOk result (λ r. IsMerged runs.now run r.0 r.1) }
    ensures memory { IsOkUnless result StoreError.OutOfMemory }
{
    let mut kept = runs.len();
    let mut merged = run;
    while kept > 0 && runs[kept - 1].len() / 2 < merged.len() {
        merged = WordRun::merge(&merged, &runs[kept - 1])?;
        kept -= 1;
    }
    Ok((kept, merged))
}
