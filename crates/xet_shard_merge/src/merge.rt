//! Merging of the shard files of a directory.

ghost use Rattle.std.specs.Prelude.{◌≡◌, [], ◌≤◌, ◌^◌, All, ℕ, List, filter, not, nat_eq, IfErr, IfOk, IsOkUnless, map, true};
ghost use Rattle.std.specs.Cmp.Lexicographic.{pointwise};
ghost use Rattle.std.specs.List.{list_any};
ghost use Rattle.xet_io.specs.Frame.{Stays};
ghost use Rattle.xet_shard_directory.specs.Answers.{IsReadError};
ghost use Rattle.xet_shard_merge.specs.Merging.{AddsResults, IsUnmerged, KeepsFiles, KeptOrMerged, Merges};
ghost use Rattle.xet_shard_merge.specs.internal.Keeping.{IsIntact, Preserves};
ghost use Rattle.xet_shard_merge.specs.internal.Order.{MergedAll};
ghost use Rattle.xet_shard_merge.specs.internal.Progressing.{IsUnmergedOf, WritesOfAll, offered_of};

use crate::order::in_merge_order;
use crate::progress::Progress;
use crate::taking::take_all;
use indexmap::IndexSet;
use std::alloc::Global;
use xet_hash::StoreError;
use xet_io::Disk;
use xet_shard_directory::MDBShardFile;

/// The maximum `max_size` that counts: 2^36.
const MAX_TARGET: u64 = 1 << 36;

/// The result of merging shards.
#[derive(Debug, Drop)]
pub struct ShardMergeResult {
    /// The shards that there are now in place of those that were taken, in the order in which these were taken.
    pub merged_shards: Vec<MDBShardFile>,
    /// The shards that were taken, and whose path is no result's, in order.
    pub obsolete_shards: Vec<MDBShardFile>,
    /// The shards that were not taken: keyed ones, those that disagree with the group that was open, and those that
    /// can't be read.
    pub skipped_shards: Vec<MDBShardFile>,
}

impl ShardMergeResult {
    /// No shards.
    pub fn default(alloc: Global) -> ShardMergeResult
        ensures merged { result.merged_shards.items ≡ [] }
        ensures obsolete { result.obsolete_shards.items ≡ [] }
        ensures skipped { result.skipped_shards.items ≡ [] }
    {
        ShardMergeResult {
            merged_shards: Vec::new(alloc),
            obsolete_shards: Vec::new(alloc),
            skipped_shards: Vec::new(alloc),
        }
    }
}

/// Merges the valid shards of a folder, or the one at this path, into the folder `target`: the oldest modification time
/// first, and equal ones by path. A shard joins the open group if its length, together with that of the shard of the
/// group so far, less 248, is at most `max_size`, which counts as 2^36 if it is more; otherwise it begins the next group.
/// A keyed shard is skipped, and so is one that fits but disagrees with the open group: a xorb or a file of the same hash
/// is another there. Nothing is removed or replaced.
///
/// Two groups may have the same result. It is then written once, keeps its modification time, and is listed for each of
/// them. A result that was there before keeps its time too.
///
/// A shard that is alone in its group is its own result, and is not copied, if it is in `target` already, or if `target`
/// is the path of its own file.
///
/// Folders are compared by name alone, so another name of the same folder, where a disk has two, is another folder. Shards
/// that are alone in their groups are then copied onto themselves and listed as obsolete, and removing these would remove
/// the results.
///
/// `FileNotFound` if the path names a shard and it is not there; also, on a disk that is not observable, if a shard file
/// vanishes between the listing and its reading. If a section is malformed, the error is that of the first check that
/// fails in one of the malformed shards, or with `skip_on_error` that shard is skipped. After an error some of the results
/// may have been written: some first ones, and without `skip_on_error` only those of shards before any that can't be read.
/// If a file has the name of a result, and other bytes, the error is `OutOfMemory`.
pub fn merge_shards<D: Disk>(
    alloc: Global,
    disk: &mut D,
    source: &str,
    target: &str,
    max_size: u64,
    skip_on_error: bool,
    now: u64,
) -> Result<ShardMergeResult, StoreError>
    ensures merged { D.tells disk.old ≡ true → IfOk result (Merges (D.files disk.old) (D.files disk.new) source.now target.now max_size skip_on_error now) }
    ensures keeps { D.tells disk.old ≡ true → KeepsFiles (D.files disk.old) (D.files disk.new) }
    ensures adds { D.tells disk.old ≡ true → IfOk result (λ r. AddsResults (D.files disk.old) (D.files disk.new) r.merged_shards.items) }
    ensures writes { D.tells disk.old ≡ true → KeptOrMerged (D.files disk.old) (D.files disk.new) source.now target.now max_size skip_on_error now }
    ensures refused { D.tells disk.old ≡ true → IfErr result (IsUnmerged (D.files disk.old) source.now skip_on_error now) }
    ensures frame { Stays D.tells D.faults disk.old disk.new }
    ensures reason { IfErr result (IsReadError (D.faults disk.old) (D.faults disk.new)) }
{
    match MDBShardFile::load_all_valid(alloc, disk, source, now) {
        Ok(read) => {
            let shards = in_merge_order(read);
            let limit = max_size.min(MAX_TARGET);
            merge_read(alloc, disk, target, limit, skip_on_error, shards)
        }
        Err(error) => Err(error),
    }
}

/// Merges these shards in order.
fn merge_read<D: Disk>(
    alloc: Global,
    disk: &mut D,
    target: &str,
    limit: u64,
    skip_on_error: bool,
    shards: Vec<MDBShardFile>,
) -> Result<ShardMergeResult, StoreError>
    requires { limit ≤ 2 ^ 36 }
    ensures merged { D.tells disk.old ≡ true → All (IsIntact (D.files disk.old)) shards.items → IfOk result (MergedAll (D.files disk.old) (D.files disk.new) target.now limit skip_on_error (map (offered_of (D.files disk.old)) shards.items)) }
    ensures refused { D.tells disk.old ≡ true → All (IsIntact (D.files disk.old)) shards.items → IfErr result (IsUnmergedOf skip_on_error (map (offered_of (D.files disk.old)) shards.items)) }
    ensures keeps { D.tells disk.old ≡ true → Preserves (D.files disk.old) (D.files disk.new) }
    ensures writes { D.tells disk.old ≡ true → All (IsIntact (D.files disk.old)) shards.items → WritesOfAll (D.files disk.old) (D.files disk.new) target.now limit skip_on_error (map (offered_of (D.files disk.old)) shards.items) }
    ensures frame { Stays D.tells D.faults disk.old disk.new }
    ensures reason { IfErr result (IsReadError (D.faults disk.old) (D.faults disk.new)) }
{
    let mut progress = Progress::new(alloc);
    match take_all(
        alloc,
        disk,
        target,
        limit,
        skip_on_error,
        shards,
        &mut progress,
    ) {
        Ok(()) => result_of(alloc, progress),
        Err(error) => Err(error),
    }
}

/// The result, when all groups are closed. The only error is `StoreError::OutOfMemory`.
fn result_of(alloc: Global, progress: Progress) -> Result<ShardMergeResult, StoreError>
    ensures merged { IfOk result (λ r. r.merged_shards.items ≡ progress.merged.items) }
    ensures obsolete { IfOk result (λ r. r.obsolete_shards.items ≡ filter (λ s. not (list_any (λ r. pointwise nat_eq r.path s.path) progress.merged.items)) progress.taken.items) }
    ensures skipped { IfOk result (λ r. r.skipped_shards.items ≡ progress.skipped.items) }
    ensures memory { IsOkUnless result StoreError.OutOfMemory }
{
    let Progress {
        taken,
        merged,
        skipped,
        ..
    } = progress;
    match without_results(alloc, taken, &merged) {
        Ok(obsolete) => Ok(ShardMergeResult {
            merged_shards: merged,
            obsolete_shards: obsolete,
            skipped_shards: skipped,
        }),
        Err(error) => Err(error),
    }
}

/// The shards whose file is no result's. Each is looked up among the paths of the results.
fn without_results(
    alloc: Global,
    mut shards: Vec<MDBShardFile>,
    results: &[MDBShardFile],
) -> Result<Vec<MDBShardFile>, StoreError>
    ensures left { IfOk result (λ left. left.items ≡ filter (λ s. not (list_any (λ r. pointwise nat_eq r.path s.path) results.now)) shards.items) }
    ensures memory { IsOkUnless result StoreError.OutOfMemory }
{
    match paths_of(alloc, results) {
        Ok(paths) => {
            shards.retain(|shard| !paths.contains(shard.path.as_str()));
            Ok(shards)
        }
        Err(error) => Err(error),
    }
}

/// The paths of these shards.
fn paths_of(alloc: Global, shards: &[MDBShardFile]) -> Result<IndexSet<&str>, StoreError>
    ensures paths { IfOk result (λ paths. (path : List ℕ) → list_any (λ k. pointwise nat_eq path k.now) paths.keys ≡ list_any (λ r. pointwise nat_eq r.path path) shards.now) }
    ensures memory { IsOkUnless result StoreError.OutOfMemory }
{
    let mut paths = IndexSet::new(alloc);
    for shard in shards {
        paths.insert(shard.path.as_str())?;
    }
    Ok(paths)
}
