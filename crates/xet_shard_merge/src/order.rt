//! The order in which shards are merged.

ghost use Rattle.std.specs.Prelude.{◌≡◌};
ghost use Rattle.std.specs.List.Sorted.{IsPermutation, IsSorted};
ghost use Rattle.xet_shard_merge.specs.internal.Order.{merge_order};

use std::cmp::Ordering;
use xet_shard_directory::MDBShardFile;

/// Sorts shard files in the order in which they are merged.
pub(crate) fn in_merge_order(mut shards: Vec<MDBShardFile>) -> Vec<MDBShardFile>
    ensures permutation { IsPermutation shards.items result.items }
    ensures sorted { IsSorted merge_order result.items }
{
    shards.sort_unstable_by(|a, b| merge_order(a, b));
    shards
}

/// An older modification time comes first; equal ones are ordered by path.
fn merge_order(a: &MDBShardFile, b: &MDBShardFile) -> Ordering
    ensures { result ≡ merge_order a.now b.now }
{
    a.last_modified_time
        .cmp(&b.last_modified_time)
        .then(a.path.as_str().cmp(b.path.as_str()))
}
