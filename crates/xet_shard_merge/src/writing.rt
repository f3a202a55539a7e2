//! Writing of the result of a group.

ghost use Rattle.std.specs.Prelude.{◌≡◌, ◌∷◌, [], All, IfErr, IfOk, IsOk, true};
ghost use Rattle.xet_codec.specs.Stops.{HasDiskReason};
ghost use Rattle.xet_io.specs.Frame.{Stays};
ghost use Rattle.xet_shard.specs.Sections.{info_at};
ghost use Rattle.xet_shard_directory.specs.Answers.{IsReadError};
ghost use Rattle.xet_shard_directory.specs.Writing.{IsPutError};
ghost use Rattle.xet_shard_merge.specs.Merging.{AddsResults, IsCopy, IsDue, IsMerged, IsMergedEncoding, IsResult, Stands, WritesOnly};
ghost use Rattle.xet_shard_merge.specs.internal.Keeping.{IsCopyDue, IsIntact, IsOnlyDue, Preserves};

use crate::group::OpenGroup;
use std::alloc::Global;
use xet_codec::store_error;
use xet_hash::StoreError;
use xet_io::{Disk, read_file};
use xet_shard_directory::{MDBShardFile, add_shard_file};
use xet_shard_file::shard_path;

/// Writes the result of a group into a folder. One shard alone is copied, unless it is in the folder already, or the path
/// given for the folder is its own; several become one shard. If a file with other bytes has the result's name, the error
/// is `OutOfMemory`: nothing is replaced.
pub(crate) fn write_result<D: Disk>(
    alloc: Global,
    disk: &mut D,
    target: &str,
    group: &OpenGroup,
) -> Result<MDBShardFile, StoreError>
    ensures result { D.tells disk.old ≡ true → IfOk result (IsResult (D.files disk.old) (D.files disk.new) target.now group.now) }
    ensures adds { D.tells disk.old ≡ true → IfOk result (λ s. AddsResults (D.files disk.old) (D.files disk.new) (s ∷ [])) }
    ensures keeps { D.tells disk.old ≡ true → Preserves (D.files disk.old) (D.files disk.new) }
    ensures writes { D.tells disk.old ≡ true → WritesOnly (D.files disk.old) (D.files disk.new) target.now (IsDue (D.files disk.old) target.now group.now) }
    ensures intact { D.tells disk.old ≡ true → All (IsIntact (D.files disk.old)) group.now.taken → IfErr result (HasDiskReason (D.faults disk.old) (D.faults disk.new)) }
    ensures frame { Stays D.tells D.faults disk.old disk.new }
    ensures reason { IfErr result (IsReadError (D.faults disk.old) (D.faults disk.new)) }
{
    match group.only() {
        Some(shard) => write_copy(alloc, disk, target, shard),
        None => write_merged(alloc, disk, target, group),
    }
}

/// Copies a shard file into a folder, unless it is there already, or the path given for the folder is its own.
fn write_copy<D: Disk>(
    alloc: Global,
    disk: &mut D,
    target: &str,
    shard: &MDBShardFile,
) -> Result<MDBShardFile, StoreError>
    ensures copy { D.tells disk.old ≡ true → IfOk result (IsCopy (D.files disk.old) (D.files disk.new) target.now shard.now) }
    ensures adds { D.tells disk.old ≡ true → IfOk result (λ s. AddsResults (D.files disk.old) (D.files disk.new) (s ∷ [])) }
    ensures keeps { D.tells disk.old ≡ true → Preserves (D.files disk.old) (D.files disk.new) }
    ensures writes { D.tells disk.old ≡ true → WritesOnly (D.files disk.old) (D.files disk.new) target.now (IsCopyDue (D.files disk.old) target.now shard.now) }
    ensures intact { D.tells disk.old ≡ true → IsIntact (D.files disk.old) shard.now → IfErr result (HasDiskReason (D.faults disk.old) (D.faults disk.new)) }
    ensures frame { Stays D.tells D.faults disk.old disk.new }
    ensures reason { IfErr result (IsReadError (D.faults disk.old) (D.faults disk.new)) }
{
    if shard.path.as_str() == target {
        return shard.copy(alloc);
    }
    let path = shard_path(alloc, target, &shard.shard_hash)?;
    if shard.path.as_str() == path.as_str() {
        return shard.copy(alloc);
    }
    match read_file(disk, alloc, shard.path.as_str()) {
        Ok(Some(bytes)) => write_new(alloc, disk, target, &bytes),
        Ok(None) => Err(StoreError::FileNotFound),
        Err(refusal) => Err(store_error(refusal)),
    }
}

/// Writes the shard that has the records of a group.
fn write_merged<D: Disk>(
    alloc: Global,
    disk: &mut D,
    target: &str,
    group: &OpenGroup,
) -> Result<MDBShardFile, StoreError>
    ensures merged { D.tells disk.old ≡ true → IfOk result (IsMerged (D.files disk.new) target.now group.now) }
    ensures adds { D.tells disk.old ≡ true → IfOk result (λ s. AddsResults (D.files disk.old) (D.files disk.new) (s ∷ [])) }
    ensures keeps { D.tells disk.old ≡ true → Preserves (D.files disk.old) (D.files disk.new) }
    ensures writes { D.tells disk.old ≡ true → WritesOnly (D.files disk.old) (D.files disk.new) target.now (IsMergedEncoding group.now) }
    ensures frame { Stays D.tells D.faults disk.old disk.new }
    ensures reason { IfErr result (HasDiskReason (D.faults disk.old) (D.faults disk.new)) }
{
    match group.bytes(alloc) {
        Ok(bytes) => write_new(alloc, disk, target, &bytes),
        Err(error) => Err(error),
    }
}

/// Writes the bytes of a shard into a folder, durably, under the name of their hash. If they are there already, they keep
/// their modification time; if a file with other bytes has that name, the error is `OutOfMemory`.
fn write_new<D: Disk>(
    alloc: Global,
    disk: &mut D,
    target: &str,
    bytes: &[u8],
) -> Result<MDBShardFile, StoreError>
    ensures stands { D.tells disk.old ≡ true → IfOk result (Stands (D.files disk.new) target.now bytes.now) }
    ensures adds { D.tells disk.old ≡ true → IfOk result (λ s. AddsResults (D.files disk.old) (D.files disk.new) (s ∷ [])) }
    ensures keeps { D.tells disk.old ≡ true → Preserves (D.files disk.old) (D.files disk.new) }
    ensures writes { D.tells disk.old ≡ true → WritesOnly (D.files disk.old) (D.files disk.new) target.now (IsOnlyDue bytes.now) }
    ensures intact { IsOk (info_at bytes.now) → IfErr result (HasDiskReason (D.faults disk.old) (D.faults disk.new)) }
    ensures frame { Stays D.tells D.faults disk.old disk.new }
    ensures reason { IfErr result (IsPutError (D.faults disk.old) (D.faults disk.new)) }
{
    add_shard_file(alloc, disk, target, bytes)
}
