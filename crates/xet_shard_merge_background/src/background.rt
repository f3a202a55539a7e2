//! Merging of the shard files of a directory on a worker thread.

ghost use Rattle.std.specs.Prelude.{◌≡◌, IfErr, IfOk, string_bytes, true};
ghost use Rattle.xet_io.specs.Frame.{Stays};
ghost use Rattle.xet_shard_directory.specs.Answers.{IsReadError};
ghost use Rattle.xet_shard_merge.specs.Merging.{AddsResults, IsUnmerged, KeepsFiles, KeptOrMerged, Merges};

use std::alloc::Global;
use std::marker::Send;
use std::thread::{Threads, join_mut};
use xet_hash::StoreError;
use xet_io::Disk;
use xet_shard_merge::{ShardMergeResult, merge_shards};

/// `merge_shards` on a worker thread, which is joined; the disk is returned. If no thread can be started, the caller does
/// the work. The contract is that of `merge_shards`; that a worker does the work is by the code, and no clause states it.
pub fn merge_shards_background<R: Threads, D: Disk + Send>(
    alloc: Global,
    rt: &R,
    mut disk: D,
    source: String,
    target: String,
    max_size: u64,
    skip_on_error: bool,
    now: u64,
) -> (D, Result<ShardMergeResult, StoreError>)
    ensures merged { D.tells disk ≡ true → IfOk result.1 (Merges (D.files disk) (D.files result.0) (string_bytes source) (string_bytes target) max_size skip_on_error now) }
    ensures keeps { D.tells disk ≡ true → KeepsFiles (D.files disk) (D.files result.0) }
    ensures adds { D.tells disk ≡ true → IfOk result.1 (λ r. AddsResults (D.files disk) (D.files result.0) r.merged_shards.items) }
    ensures writes { D.tells disk ≡ true → KeptOrMerged (D.files disk) (D.files result.0) (string_bytes source) (string_bytes target) max_size skip_on_error now }
    ensures refused { D.tells disk ≡ true → IfErr result.1 (IsUnmerged (D.files disk) (string_bytes source) skip_on_error now) }
    ensures frame { Stays D.tells D.faults disk result.0 }
    ensures reason { IfErr result.1 (IsReadError (D.faults disk) (D.faults result.0)) }
{
    let (source, target) = (source.as_str(), target.as_str());
    let (result, ()) = join_mut(
        rt,
        &mut || merge_shards(
            alloc,
            &mut disk,
            source,
            target,
            max_size,
            skip_on_error,
            now,
        ),
        &mut || {},
    );
    (disk, result)
}
