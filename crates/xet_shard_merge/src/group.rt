//! The group of shards that is open while shards are merged.

ghost use Rattle.std.specs.Prelude.{◌≡◌, ◌≤◌, ◌+◌, ◌++◌, ◌^◌, ◌↔◌, IfOk, IsFalse, IsOk, IsOkUnless, IsTrue, OnOk, option_map};
ghost use Rattle.xet_shard.specs.Sections.{info_at};
ghost use Rattle.xet_shard_merge.specs.Groups.{Agrees, alone, joined, with_records};
ghost use Rattle.xet_shard_merge.specs.Merging.{IsMergedEncoding};
ghost use Rattle.xet_shard_merge.specs.internal.Grouping.{IsOnly, IsRead};

use crate::adding::{add_blocks, add_files, blocks_agree, files_agree};
use std::alloc::{AllocError, Global};
use std::marker::Model;
use xet_hash::StoreError;
use xet_shard::laws::parts_are_read;
use xet_shard::{MDBFileInfo, MDBInMemoryShard, MDBXorbInfo};
use xet_shard_directory::MDBShardFile;

/// The records of a shard: its xorbs and its files.
pub(crate) type Records = (Vec<MDBXorbInfo>, Vec<MDBFileInfo>);

/// The bytes of a header and a footer, which two shards that are joined have once.
const ENDS: u64 = 248;

/// The shards that become one, and their records together.
#[derive(Drop)]
pub(crate) struct OpenGroup {
    /// The shard that began the group.
    first: MDBShardFile,
    /// The shards that joined it, in order.
    others: Vec<MDBShardFile>,
    /// The records of all.
    shard: MDBInMemoryShard,
    /// The length of the file of a shard alone, or of the shard that has the records of all.
    length: u64,
    /// The latest of their creation times.
    creation: u64,
}

impl Model for OpenGroup {
    ghost use Rattle.std.specs.Prelude.{◌∷◌};
    ghost use Rattle.xet_shard_merge.specs.Groups.{Group};

    ghost Value = { Group };

    ghost view = { λ s. record { taken = s.first ∷ s.others.items; records = s.shard; length = s.length; creation = s.creation } };
}

impl OpenGroup {
    /// The group of one shard. The only error is `StoreError::OutOfMemory`.
    pub(crate) fn alone(
        alloc: Global,
        file: MDBShardFile,
        length: u64,
        records: Records,
    ) -> Result<OpenGroup, StoreError>
        requires { IsRead (records.0.items, records.1.items) }
        ensures group { IfOk result (λ g. g ≡ alone file length (records.0.items, records.1.items)) }
        ensures memory { IsOkUnless result StoreError.OutOfMemory }
    {
        let creation = file.shard.metadata.shard_creation_timestamp;
        let mut shard = MDBInMemoryShard::new(alloc);
        add_records(&mut shard, records)?;
        Ok(OpenGroup {
            first: file,
            others: Vec::new(alloc),
            shard,
            length,
            creation,
        })
    }

    /// Whether a shard file of this length may join.
    pub(crate) fn fits(&self, target: u64, length: u64) -> bool
        requires { target ≤ 2 ^ 36 }
        ensures { IsTrue result ↔ (self.now.length + length ≤ target + 248) }
    {
        self.length.saturating_add(length) <= target + ENDS
    }

    /// Whether the records of a shard agree with those of the group: those of the same hash are equal.
    pub(crate) fn agrees(&self, records: &Records) -> bool
        ensures yes { IsTrue result → Agrees self.now.records (records.now.0.items, records.now.1.items) }
        ensures no { IsFalse result → Agrees self.now.records (records.now.0.items, records.now.1.items) → ⊥ }
    {
        let (blocks, files) = records;
        blocks_agree(&self.shard, blocks) && files_agree(&self.shard, files)
    }

    /// Takes a shard into the group. The only error is `StoreError::OutOfMemory`; the group is not to be used then.
    pub(crate) fn join(&mut self, file: MDBShardFile, records: Records) -> Result<(), StoreError>
        requires { IsRead (records.0.items, records.1.items) }
        ensures joined { OnOk result (self.new ≡ joined self.old file (records.0.items, records.1.items)) }
        ensures memory { IsOkUnless result StoreError.OutOfMemory }
    {
        add_records(&mut self.shard, records)?;
        self.length = self.shard.shard_file_size();
        self.creation = self
            .creation
            .max(file.shard.metadata.shard_creation_timestamp);
        self.others.push(file)?;
        Ok(())
    }

    /// The only shard of the group; none if there are several.
    pub(crate) fn only(&self) -> Option<&MDBShardFile>
        ensures { IsOnly self.now.taken (option_map (λ s. s.now) result) }
    {
        if self.others.is_empty() {
            Some(&self.first)
        } else {
            None
        }
    }

    /// Appends the shards of the group to a list.
    pub(crate) fn move_taken(self, taken: &mut Vec<MDBShardFile>) -> Result<(), AllocError>
        ensures { OnOk result (taken.new.items ≡ taken.old.items ++ self.taken) }
    {
        let OpenGroup {
            first,
            mut others,
            ..
        } = self;
        taken.push(first)?;
        taken.append(&mut others)?;
        Ok(())
    }

    /// The bytes of the shard that has the records of all. The only error is `StoreError::OutOfMemory`.
    pub(crate) fn bytes(&self, alloc: Global) -> Result<Vec<u8>, StoreError>
        ensures bytes { IfOk result (λ b. IsMergedEncoding self.now b.items) }
        ensures form { IfOk result (λ b. IsOk (info_at b.items)) }
        ensures memory { IsOkUnless result StoreError.OutOfMemory }
    {
        parts_are_read();
        let (bytes, _) = self.shard.shard_bytes(alloc, self.creation, None)?;
        Ok(bytes)
    }
}

/// Adds the records of a shard whose hash is not there.
fn add_records(shard: &mut MDBInMemoryShard, records: Records) -> Result<(), StoreError>
    requires { IsRead (records.0.items, records.1.items) }
    ensures added { OnOk result (shard.new ≡ with_records shard.old (records.0.items, records.1.items)) }
    ensures memory { IsOkUnless result StoreError.OutOfMemory }
{
    let (blocks, files) = records;
    match add_blocks(shard, blocks) {
        Ok(()) => add_files(shard, files),
        Err(error) => Err(error),
    }
}
