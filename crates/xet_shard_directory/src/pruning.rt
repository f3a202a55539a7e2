//! Which of the shard files that were read are kept, and which are to be removed.

ghost use Rattle.std.specs.List.Sorted.{IsPermutation, IsSorted};
ghost use Rattle.std.specs.Prelude.{◌≡◌, ◌≢◌, ◌<◌, ◌≤◌, ◌++◌, ℕ, List, AllPairs, IfOk, drop, filter, length, suc};
ghost use Rattle.xet_shard_directory.specs.Directories.{IsBeforeByPath, Prunes, is_deleted, is_loaded, is_valid, may_be_deleted, total_length};
ghost use Rattle.xet_shard_directory.specs.internal.Folders.{Plans, age_order};

use crate::folder::by_path;
use crate::shard_file::MDBShardFile;
use std::alloc::{AllocError, Global};
use std::cmp::Ordering;

/// Shard files that are kept, and shard files that are to be removed.
#[derive(Debug, Drop)]
pub(crate) struct Plan {
    pub(crate) kept: Vec<MDBShardFile>,
    pub(crate) removed: Vec<MDBShardFile>,
}

/// Which of the shard files that were read, in ascending order of path, are kept, and which are to be removed.
pub(crate) fn planned(
    alloc: Global,
    read: Vec<MDBShardFile>,
    load_expired: bool,
    prune_expired: bool,
    prune_to: u64,
    buffer: u64,
    now: u64,
) -> Result<Plan, AllocError>
    ensures { AllPairs IsBeforeByPath read.items → IfOk result (λ plan. Plans load_expired prune_expired prune_to buffer now read.items plan.kept.items plan.removed.items) }
{
    let parted = part(alloc, read, load_expired, prune_expired, buffer, now)?;
    prune(parted, prune_to)
}

/// Keeps the shard files that are loaded, and removes those that are deleted since they have expired.
fn part(
    alloc: Global,
    read: Vec<MDBShardFile>,
    load_expired: bool,
    prune_expired: bool,
    buffer: u64,
    now: u64,
) -> Result<Plan, AllocError>
    ensures kept { IfOk result (λ plan. plan.kept.items ≡ filter (is_loaded load_expired now) read.items) }
    ensures removed { IfOk result (λ plan. plan.removed.items ≡ filter (is_deleted prune_expired load_expired buffer now) read.items) }
{
    let mut kept = Vec::new(alloc);
    let mut removed = Vec::new(alloc);
    for shard in read {
        if load_expired || is_valid(&shard, now) {
            kept.push(shard)?;
        } else if prune_expired && may_be_deleted(&shard, buffer, now) {
            removed.push(shard)?;
        }
    }
    Ok(Plan { kept, removed })
}

/// Prunes the shard files that are kept to a total length.
fn prune(plan: Plan, prune_to: u64) -> Result<Plan, AllocError>
    ensures { AllPairs IsBeforeByPath plan.kept.items → IfOk result (λ after. (pruned : List MDBShardFile) × Prunes prune_to plan.kept.items after.kept.items pruned × (after.removed.items ≡ plan.removed.items ++ pruned)) }
{
    let Plan { kept, mut removed } = plan;
    let mut oldest = by_age(kept);
    let count = pruned_count(&oldest, prune_to);
    let newest = oldest.split_off(count)?;
    removed.append(&mut oldest)?;
    Ok(Plan {
        kept: by_path(newest),
        removed,
    })
}

/// How many of the oldest shard files have to be pruned so that the others are no longer than `limit` together. A limit
/// of 0 means none.
fn pruned_count(shards: &[MDBShardFile], limit: u64) -> usize
    ensures bound { result ≤ length shards.now }
    ensures none { limit ≡ 0 → result ≡ 0 }
    ensures within { limit ≢ 0 → total_length (drop result shards.now) ≤ limit }
    ensures needed { (k : ℕ) → result ≡ suc k → limit < total_length (drop k shards.now) }
{
    if limit == 0 {
        return 0;
    }
    let mut count = shards.len();
    let mut left = limit;
    while count > 0 {
        let length = shards[count - 1].shard.num_bytes();
        if length > left {
            return count;
        }
        left -= length;
        count -= 1;
    }
    count
}

/// Sorts shard files by age, the oldest first.
fn by_age(mut shards: Vec<MDBShardFile>) -> Vec<MDBShardFile>
    ensures permutation { IsPermutation shards.items result.items }
    ensures sorted { IsSorted age_order result.items }
{
    shards.sort_unstable_by(|a, b| age_order(a, b));
    shards
}

/// An older creation comes first; equal ones are ordered by path.
fn age_order(a: &MDBShardFile, b: &MDBShardFile) -> Ordering
    ensures { result ≡ age_order a.now b.now }
{
    a.shard
        .metadata
        .shard_creation_timestamp
        .cmp(&b.shard.metadata.shard_creation_timestamp)
        .then(a.path.as_str().cmp(b.path.as_str()))
}

/// The shard files that are valid at a time.
pub(crate) fn valid(mut shards: Vec<MDBShardFile>, now: u64) -> Vec<MDBShardFile>
    ensures { result.items ≡ filter (is_valid now) shards.items }
{
    shards.retain(|shard| is_valid(shard, now));
    shards
}

/// The shard files that may be deleted at a time.
pub(crate) fn deletable(mut shards: Vec<MDBShardFile>, buffer: u64, now: u64) -> Vec<MDBShardFile>
    ensures { result.items ≡ filter (may_be_deleted buffer now) shards.items }
{
    shards.retain(|shard| may_be_deleted(shard, buffer, now));
    shards
}

/// Whether a shard is valid at a time: up to its expiry.
fn is_valid(shard: &MDBShardFile, now: u64) -> bool
    ensures { result ≡ is_valid now shard.now }
{
    now <= shard.shard.metadata.shard_key_expiry
}

/// Whether a shard may be deleted at a time: from `buffer` seconds after its expiry on.
fn may_be_deleted(shard: &MDBShardFile, buffer: u64, now: u64) -> bool
    ensures { result ≡ may_be_deleted buffer now shard.now }
{
    shard.shard.metadata.shard_key_expiry.saturating_add(buffer) <= now
}
