//! Merging of the shard files of a folder within it.

ghost use Rattle.std.specs.Prelude.{◌≡◌, ◌≤◌, ◌<◌, ◌^◌, ℕ, take, IfErr, IfOk, OnErr, true};
ghost use Rattle.xet_codec.specs.Stops.{HasDiskReason};
ghost use Rattle.xet_io.specs.Frame.{Stays};
ghost use Rattle.xet_shard_directory.specs.Answers.{IsReadError};
ghost use Rattle.xet_shard_directory.specs.Directories.{all_removed, paths};
ghost use Rattle.xet_shard_merge.specs.Contents.{ListSame, ListsMore};
ghost use Rattle.xet_shard_merge.specs.Merging.{Consolidates, IsUnmerged, KeptOrConsolidated};

use crate::merge::{ShardMergeResult, merge_shards};
use std::alloc::Global;
use xet_hash::StoreError;
use xet_io::Disk;
use xet_shard::laws::parts_are_read;
use xet_shard_directory::{MDBShardFile, remove_all};

/// Merges the valid shards of a folder within it, as `merge_shards` does, then removes the obsolete ones, and returns the
/// results. Nothing else is written or removed then, but temporary files. No shard is removed before all results that are
/// written are durable. After an error no shard was removed, or all results are there, and some of the obsolete ones may
/// have been removed. So whatever the result, the valid shards of the folder list exactly the xorbs and files that they
/// listed before. What shards that are still valid at a later time listed is listed at that time too, as results do not
/// expire.
pub fn consolidate_shards_in_directory<D: Disk>(
    alloc: Global,
    disk: &mut D,
    dir: &str,
    max_size: u64,
    skip_on_error: bool,
    now: u64,
) -> Result<Vec<MDBShardFile>, StoreError>
    ensures consolidated { D.tells disk.old ≡ true → IfOk result (λ rs. Consolidates (D.files disk.old) (D.files disk.new) dir.now max_size skip_on_error now rs.items) }
    ensures kept { D.tells disk.old ≡ true → OnErr result (KeptOrConsolidated (D.files disk.old) (D.files disk.new) dir.now max_size skip_on_error now) }
    ensures listed { D.tells disk.old ≡ true → ListSame (D.files disk.old) (D.files disk.new) dir.now now }
    ensures lasts { D.tells disk.old ≡ true → (time : ℕ) → now ≤ time → time < 2 ^ 64 → ListsMore (D.files disk.old) (D.files disk.new) dir.now time }
    ensures refused { D.tells disk.old ≡ true → IfErr result (IsUnmerged (D.files disk.old) dir.now skip_on_error now) }
    ensures frame { Stays D.tells D.faults disk.old disk.new }
    ensures reason { IfErr result (IsReadError (D.faults disk.old) (D.faults disk.new)) }
{
    parts_are_read();
    match merge_shards(alloc, disk, dir, dir, max_size, skip_on_error, now) {
        Ok(merge) => remove_obsolete(disk, merge),
        Err(error) => Err(error),
    }
}

/// Removes the obsolete shards of a merge, and returns its results.
fn remove_obsolete<D: Disk>(
    disk: &mut D,
    merge: ShardMergeResult,
) -> Result<Vec<MDBShardFile>, StoreError>
    ensures merged { IfOk result (λ rs. rs.items ≡ merge.merged_shards.items) }
    ensures removed { D.tells disk.old ≡ true → IfOk result (λ rs. D.files disk.new ≡ all_removed (D.files disk.old) (paths merge.obsolete_shards.items)) }
    ensures kept { D.tells disk.old ≡ true → OnErr result ((n : ℕ) × (D.files disk.new ≡ all_removed (D.files disk.old) (take n (paths merge.obsolete_shards.items)))) }
    ensures frame { Stays D.tells D.faults disk.old disk.new }
    ensures reason { IfErr result (HasDiskReason (D.faults disk.old) (D.faults disk.new)) }
{
    match remove_all(disk, &merge.obsolete_shards) {
        Ok(()) => Ok(merge.merged_shards),
        Err(error) => Err(error),
    }
}
