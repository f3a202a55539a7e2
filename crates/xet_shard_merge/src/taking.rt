//! Shards that are taken into groups, one after the other.

ghost use Rattle.std.specs.Prelude.{◌≡◌, ◌∷◌, [], ◌≤◌, ◌^◌, ℕ, Bool, List, All, IfErr, OnOk, map, true};
ghost use Rattle.xet_codec.specs.Stops.{HasDiskReason};
ghost use Rattle.xet_io.specs.Disk.{Files};
ghost use Rattle.xet_io.specs.Frame.{Stays};
ghost use Rattle.xet_shard_directory.specs.Answers.{IsReadError};
ghost use Rattle.xet_shard_merge.specs.Groups.{Offered, alone};
ghost use Rattle.xet_shard_merge.specs.declared.progress.Progress.{Progress};
ghost use Rattle.xet_shard_merge.specs.internal.Grouping.{IsRead};
ghost use Rattle.xet_shard_merge.specs.internal.Keeping.{IsIntact, IsUnreadable, Preserves, WritesIfOpen};
ghost use Rattle.xet_shard_merge.specs.internal.Progressing.{Closes, Ended, IsIntactIfOpen, IsUnmergedOf, NowOpen, Went, WritesOfAll, offer, offered_of};

use crate::group::Records;
use crate::progress::{Fate, Progress};
use crate::reading::read_offered;
use std::alloc::Global;
use xet_hash::StoreError;
use xet_io::Disk;
use xet_shard_directory::MDBShardFile;

/// Takes these shards, in order, and closes the last group.
pub(crate) fn take_all<D: Disk>(
    alloc: Global,
    disk: &mut D,
    target: &str,
    limit: u64,
    skip_on_error: bool,
    shards: Vec<MDBShardFile>,
    progress: &mut Progress,
) -> Result<(), StoreError>
    requires { limit ≤ 2 ^ 36 }
    ensures ended { D.tells disk.old ≡ true → (start : Files) (all : List Offered) → All (IsIntact start) shards.items → Went start (D.files disk.old) target.now limit skip_on_error all (map (offered_of start) shards.items) progress.old → OnOk result (Ended start (D.files disk.new) target.now limit skip_on_error all progress.new) }
    ensures refused { D.tells disk.old ≡ true → (start : Files) (all : List Offered) → All (IsIntact start) shards.items → Went start (D.files disk.old) target.now limit skip_on_error all (map (offered_of start) shards.items) progress.old → IfErr result (IsUnmergedOf skip_on_error (map (offered_of start) shards.items)) }
    ensures keeps { D.tells disk.old ≡ true → Preserves (D.files disk.old) (D.files disk.new) }
    ensures writes { D.tells disk.old ≡ true → (start : Files) (all : List Offered) → All (IsIntact start) shards.items → Went start (D.files disk.old) target.now limit skip_on_error all (map (offered_of start) shards.items) progress.old → WritesOfAll start (D.files disk.new) target.now limit skip_on_error all }
    ensures frame { Stays D.tells D.faults disk.old disk.new }
    ensures reason { IfErr result (IsReadError (D.faults disk.old) (D.faults disk.new)) }
{
    for shard in shards {
        if let Err(error) = take_next(alloc, disk, target, limit, skip_on_error, shard, progress) {
            return Err(error);
        }
    }
    progress.close(alloc, disk, target)
}

/// Takes the next shard, or skips it.
fn take_next<D: Disk>(
    alloc: Global,
    disk: &mut D,
    target: &str,
    limit: u64,
    skip_on_error: bool,
    shard: MDBShardFile,
    progress: &mut Progress,
) -> Result<(), StoreError>
    requires { limit ≤ 2 ^ 36 }
    ensures went { D.tells disk.old ≡ true → (start : Files) (all rest : List Offered) → IsIntact start shard → Went start (D.files disk.old) target.now limit skip_on_error all (offered_of start shard ∷ rest) progress.old → OnOk result (Went start (D.files disk.new) target.now limit skip_on_error all rest progress.new) }
    ensures refused { D.tells disk.old ≡ true → (start : Files) → IsIntact start shard → Preserves start (D.files disk.old) → IsIntactIfOpen start progress.old.open → IfErr result (IsUnreadable skip_on_error (offered_of start shard).records) }
    ensures keeps { D.tells disk.old ≡ true → Preserves (D.files disk.old) (D.files disk.new) }
    ensures writes { D.tells disk.old ≡ true → (start : Files) (all rest : List Offered) → IsIntact start shard → Went start (D.files disk.old) target.now limit skip_on_error all (offered_of start shard ∷ rest) progress.old → WritesOfAll start (D.files disk.new) target.now limit skip_on_error all }
    ensures frame { Stays D.tells D.faults disk.old disk.new }
    ensures reason { IfErr result (IsReadError (D.faults disk.old) (D.faults disk.new)) }
{
    match read_offered(alloc, disk, &shard, skip_on_error) {
        Ok(Some((length, records))) => {
            take_read(alloc, disk, target, limit, shard, length, records, progress)
        }
        Ok(None) => progress.skip(shard),
        Err(error) => Err(error),
    }
}

/// Takes a shard that was read, or skips it.
fn take_read<D: Disk>(
    alloc: Global,
    disk: &mut D,
    target: &str,
    limit: u64,
    shard: MDBShardFile,
    length: u64,
    records: Records,
    progress: &mut Progress,
) -> Result<(), StoreError>
    requires limit { limit ≤ 2 ^ 36 }
    requires form { IsRead (records.0.items, records.1.items) }
    ensures went { D.tells disk.old ≡ true → (start : Files) (skip : Bool) (all rest : List Offered) → IsIntact start shard → Went start (D.files disk.old) target.now limit skip all (offer shard length (records.0.items, records.1.items) ∷ rest) progress.old → OnOk result (Went start (D.files disk.new) target.now limit skip all rest progress.new) }
    ensures intact { D.tells disk.old ≡ true → (start : Files) → Preserves start (D.files disk.old) → IsIntactIfOpen start progress.old.open → IfErr result (HasDiskReason (D.faults disk.old) (D.faults disk.new)) }
    ensures keeps { D.tells disk.old ≡ true → Preserves (D.files disk.old) (D.files disk.new) }
    ensures writes { D.tells disk.old ≡ true → (start : Files) (skip : Bool) (all rest : List Offered) → IsIntact start shard → Went start (D.files disk.old) target.now limit skip all (offer shard length (records.0.items, records.1.items) ∷ rest) progress.old → WritesOfAll start (D.files disk.new) target.now limit skip all }
    ensures frame { Stays D.tells D.faults disk.old disk.new }
    ensures reason { IfErr result (IsReadError (D.faults disk.old) (D.faults disk.new)) }
{
    match progress.fate_of(limit, &shard, length, &records) {
        Fate::Skipped => progress.skip(shard),
        Fate::Enters => progress.join(shard, records),
        Fate::Starts => begin_next(alloc, disk, target, shard, length, records, progress),
        Fate::Follows => begin_next(alloc, disk, target, shard, length, records, progress),
    }
}

/// Closes the open group, if there is one, and begins the next.
fn begin_next<D: Disk>(
    alloc: Global,
    disk: &mut D,
    target: &str,
    shard: MDBShardFile,
    length: u64,
    records: Records,
    progress: &mut Progress,
) -> Result<(), StoreError>
    requires { IsRead (records.0.items, records.1.items) }
    ensures begun { D.tells disk.old ≡ true → OnOk result ((closed : Progress) × Closes (D.files disk.old) (D.files disk.new) target.now progress.old closed × NowOpen closed (alone shard length (records.0.items, records.1.items)) progress.new) }
    ensures intact { D.tells disk.old ≡ true → (start : Files) → Preserves start (D.files disk.old) → IsIntactIfOpen start progress.old.open → IfErr result (HasDiskReason (D.faults disk.old) (D.faults disk.new)) }
    ensures keeps { D.tells disk.old ≡ true → Preserves (D.files disk.old) (D.files disk.new) }
    ensures writes { D.tells disk.old ≡ true → WritesIfOpen (D.files disk.old) (D.files disk.new) target.now progress.old.open }
    ensures frame { Stays D.tells D.faults disk.old disk.new }
    ensures reason { IfErr result (IsReadError (D.faults disk.old) (D.faults disk.new)) }
{
    match progress.close(alloc, disk, target) {
        Ok(()) => progress.begin(alloc, shard, length, records),
        Err(error) => Err(error),
    }
}
