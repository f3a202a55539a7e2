//! What is known while shards are merged one after the other.

ghost use Rattle.std.specs.Prelude.{◌≡◌, [], ◌≤◌, ◌^◌, IfErr, IsFalse, IsOkUnless, IsTrue, None, OnOk, true};
ghost use Rattle.xet_codec.specs.Stops.{HasDiskReason};
ghost use Rattle.xet_io.specs.Frame.{Stays};
ghost use Rattle.xet_shard.specs.Union.{IsKeyed};
ghost use Rattle.xet_shard_directory.specs.Answers.{IsReadError};
ghost use Rattle.xet_shard_merge.specs.Groups.{alone};
ghost use Rattle.xet_shard_merge.specs.internal.Grouping.{IsRead};
ghost use Rattle.xet_shard_merge.specs.internal.Keeping.{Preserves, WritesIfOpen};
ghost use Rattle.xet_shard_merge.specs.internal.Progressing.{Closes, HasAdded, HasFate, HasFateIn, IsIntactIfOpen, IsJoined, NowOpen, NowSkipped, offer};

use crate::group::{OpenGroup, Records};
use crate::writing::write_result;
use std::alloc::Global;
use xet_hash::{HMACKey, StoreError};
use xet_io::Disk;
use xet_shard_directory::MDBShardFile;

/// What becomes of a shard that was read.
#[derive(Clone, Copy, PartialEq, Eq, Debug)]
pub(crate) enum Fate {
    /// It is skipped.
    Skipped,
    /// It begins a group, and none is open.
    Starts,
    /// It ends the open group, and begins the next.
    Follows,
    /// It joins the open group.
    Enters,
}

/// The groups so far.
#[derive(Drop)]
pub(crate) struct Progress {
    /// The group that is open.
    pub(crate) open: Option<OpenGroup>,
    /// The shards of the groups before it, in order.
    pub(crate) taken: Vec<MDBShardFile>,
    /// The results of these groups.
    pub(crate) merged: Vec<MDBShardFile>,
    /// The shards that were skipped.
    pub(crate) skipped: Vec<MDBShardFile>,
}

impl Progress {
    /// Nothing yet.
    pub(crate) fn new(alloc: Global) -> Progress
        ensures open { result.open ≡ None }
        ensures taken { result.taken.items ≡ [] }
        ensures merged { result.merged.items ≡ [] }
        ensures skipped { result.skipped.items ≡ [] }
    {
        Progress {
            open: None,
            taken: Vec::new(alloc),
            merged: Vec::new(alloc),
            skipped: Vec::new(alloc),
        }
    }

    /// What becomes of a shard of this length with these records.
    pub(crate) fn fate_of(
        &self,
        limit: u64,
        shard: &MDBShardFile,
        length: u64,
        records: &Records,
    ) -> Fate
        requires { limit ≤ 2 ^ 36 }
        ensures { HasFate limit self.now.open (offer shard.now length (records.now.0.items, records.now.1.items)) (records.now.0.items, records.now.1.items) result }
    {
        if is_keyed(shard) {
            return Fate::Skipped;
        }
        match &self.open {
            None => Fate::Starts,
            Some(group) => fate_in(group, limit, length, records),
        }
    }

    /// Skips a shard.
    pub(crate) fn skip(&mut self, shard: MDBShardFile) -> Result<(), StoreError>
        ensures skipped { OnOk result (NowSkipped self.old shard self.new) }
        ensures memory { IsOkUnless result StoreError.OutOfMemory }
    {
        self.skipped.push(shard)?;
        Ok(())
    }

    /// Begins a group in place of the open one.
    pub(crate) fn begin(
        &mut self,
        alloc: Global,
        shard: MDBShardFile,
        length: u64,
        records: Records,
    ) -> Result<(), StoreError>
        requires { IsRead (records.0.items, records.1.items) }
        ensures begun { OnOk result (NowOpen self.old (alone shard length (records.0.items, records.1.items)) self.new) }
        ensures memory { IsOkUnless result StoreError.OutOfMemory }
    {
        match OpenGroup::alone(alloc, shard, length, records) {
            Ok(group) => {
                self.open = Some(group);
                Ok(())
            }
            Err(error) => Err(error),
        }
    }

    /// Takes a shard into the open group.
    pub(crate) fn join(&mut self, shard: MDBShardFile, records: Records) -> Result<(), StoreError>
        requires { IsRead (records.0.items, records.1.items) }
        ensures joined { OnOk result (IsJoined self.old shard (records.0.items, records.1.items) self.new) }
        ensures memory { IsOkUnless result StoreError.OutOfMemory }
    {
        match &mut self.open {
            Some(group) => group.join(shard, records),
            None => Err(StoreError::OutOfMemory),
        }
    }

    /// Writes the result of the open group, if there is one.
    pub(crate) fn close<D: Disk>(
        &mut self,
        alloc: Global,
        disk: &mut D,
        target: &str,
    ) -> Result<(), StoreError>
        ensures closed { D.tells disk.old ≡ true → OnOk result (Closes (D.files disk.old) (D.files disk.new) target.now self.old self.new) }
        ensures keeps { D.tells disk.old ≡ true → Preserves (D.files disk.old) (D.files disk.new) }
        ensures writes { D.tells disk.old ≡ true → WritesIfOpen (D.files disk.old) (D.files disk.new) target.now self.old.open }
        ensures intact { D.tells disk.old ≡ true → IsIntactIfOpen (D.files disk.old) self.old.open → IfErr result (HasDiskReason (D.faults disk.old) (D.faults disk.new)) }
        ensures frame { Stays D.tells D.faults disk.old disk.new }
        ensures reason { IfErr result (IsReadError (D.faults disk.old) (D.faults disk.new)) }
    {
        let Some(group) = self.open.take() else {
            return Ok(());
        };
        match write_result(alloc, disk, target, &group) {
            Ok(result) => self.add(group, result),
            Err(error) => Err(error),
        }
    }

    /// Adds a group that is closed, and its result.
    fn add(&mut self, group: OpenGroup, merged: MDBShardFile) -> Result<(), StoreError>
        ensures added { OnOk result (HasAdded self.old group merged self.new) }
        ensures memory { IsOkUnless result StoreError.OutOfMemory }
    {
        self.merged.push(merged)?;
        group.move_taken(&mut self.taken)?;
        Ok(())
    }
}

/// Whether the chunk hashes of a shard are keyed.
fn is_keyed(shard: &MDBShardFile) -> bool
    ensures keyed { IsTrue result → IsKeyed shard.now.shard.metadata }
    ensures plain { IsFalse result → IsKeyed shard.now.shard.metadata → ⊥ }
{
    shard.shard.metadata.chunk_hash_hmac_key != HMACKey::default()
}

/// What becomes of a shard that is not keyed, if this group is open.
fn fate_in(group: &OpenGroup, limit: u64, length: u64, records: &Records) -> Fate
    requires { limit ≤ 2 ^ 36 }
    ensures { HasFateIn limit group.now length (records.now.0.items, records.now.1.items) result }
{
    if !group.fits(limit, length) {
        Fate::Follows
    } else if group.agrees(records) {
        Fate::Enters
    } else {
        Fate::Skipped
    }
}
