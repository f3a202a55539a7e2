//! What is pending: xorbs and files are added, and it is written as a shard.
#![tactic(auto, using(crate::proofs::Rooms::none_due))]

ghost use Rattle.std.specs.Prelude.{◌≡◌, ◌≢◌, ◌↔◌, ◌≤◌, ◌<◌, ◌^◌, ◌∷◌, [], List, ℕ, None, IfErr, IfOk, IfSome, IsOkUnless, Ok, OnErr, OnOk, false, length, string_bytes, true};
ghost use Rattle.xet_hash.specs.Hash.{sentinel};
ghost use Rattle.xet_manager.specs.Adding.{Cuts, IsCut, IsUncut, blocks_before, cut_due, files_before};
ghost use Rattle.xet_shard.specs.Held.{held, nothing, with_last};
ghost use Rattle.xet_shard_flush.specs.Importing.{IsFlushError, KeepsFiles, flushed_bytes};
ghost use Rattle.xet_shard_format.specs.RecordSizes.{file_record_size, xorb_record_size};
ghost use Rattle.xet_shard_format.specs.Records.{IsFile, IsXorb, file_record_hash, file_section, xorb_record_hash, xorb_section};

use crate::manager::ShardFileManager;
use std::alloc::Global;
use xet_hash::StoreError;
use xet_io::Disk;
use xet_shard::{MDBFileInfo, MDBInMemoryShard, MDBXorbInfo};
use xet_shard_flush::flush_prepared;

impl<D: Disk> ShardFileManager<D> {
    /// Adds a xorb at the end of what is pending, and removes one of an equal hash. If something is pending and the
    /// shard would be longer than the target with this xorb, what is pending is written first, as `flush` does, and the
    /// xorb is pending alone. The caller ensures that the record is well formed, that its hash is not the sentinel, and
    /// that the section has fewer than 2^32 rows then. After an error the same is pending, without the xorb.
    pub fn add_xorb_block(&mut self, block: MDBXorbInfo) -> Result<(), StoreError>
        requires form { IsXorb block }
        requires hash { xorb_record_hash block ≢ sentinel }
        requires few { length (xorb_section (with_last xorb_record_hash (blocks_before self.old (xorb_record_size block)) block)) < 2 ^ 32 }
        ensures added { cut_due self.old (xorb_record_size block) ≡ false → OnOk result (self.new ≡ record self.old { pending = held (with_last xorb_record_hash self.old.pending.blocks block) self.old.pending.files; room = 0 }) }
        ensures kept { cut_due self.old (xorb_record_size block) ≡ false → OnErr result (self.new ≡ record self.old { room = 0 }) }
        ensures memory { cut_due self.old (xorb_record_size block) ≡ false → IsOkUnless result StoreError.OutOfMemory }
        ensures cut { cut_due self.old (xorb_record_size block) ≡ true → OnOk result (IsCut self.old self.new (held (block ∷ []) [])) }
        ensures uncut { cut_due self.old (xorb_record_size block) ≡ true → IfErr result (IsUncut self.old self.new) }
        ensures safe { self.old.tells ≡ true → KeepsFiles self.old.files self.new.files self.old.folder (flushed_bytes self.old.pending self.old.moment) self.old.registry.files }
        ensures later { self.old.faults ≤ self.new.faults }
        ensures reason { IfErr result (IsFlushError self.old.faults self.new.faults) }
    {
        if self.is_cut_due(block.num_bytes()) {
            let next = self.next();
            let next = shard_of_block(next, block)?;
            self.cut_to(next)
        } else {
            self.room.clear();
            self.pending.add_xorb_block(block)
        }
    }

    /// Adds a file at the end of what is pending, and removes one of an equal hash. The rest is as for
    /// `add_xorb_block`.
    pub fn add_file_reconstruction_info(&mut self, file: MDBFileInfo) -> Result<(), StoreError>
        requires form { IsFile file }
        requires hash { file_record_hash file ≢ sentinel }
        requires few { length (file_section (with_last file_record_hash (files_before self.old (file_record_size file)) file)) < 2 ^ 32 }
        ensures added { cut_due self.old (file_record_size file) ≡ false → OnOk result (self.new ≡ record self.old { pending = held self.old.pending.blocks (with_last file_record_hash self.old.pending.files file); room = 0 }) }
        ensures kept { cut_due self.old (file_record_size file) ≡ false → OnErr result (self.new ≡ record self.old { room = 0 }) }
        ensures memory { cut_due self.old (file_record_size file) ≡ false → IsOkUnless result StoreError.OutOfMemory }
        ensures cut { cut_due self.old (file_record_size file) ≡ true → OnOk result (IsCut self.old self.new (held [] (file ∷ []))) }
        ensures uncut { cut_due self.old (file_record_size file) ≡ true → IfErr result (IsUncut self.old self.new) }
        ensures safe { self.old.tells ≡ true → KeepsFiles self.old.files self.new.files self.old.folder (flushed_bytes self.old.pending self.old.moment) self.old.registry.files }
        ensures later { self.old.faults ≤ self.new.faults }
        ensures reason { IfErr result (IsFlushError self.old.faults self.new.faults) }
    {
        if self.is_cut_due(file.num_bytes()) {
            let next = self.next();
            let next = shard_of_file(next, file)?;
            self.cut_to(next)
        } else {
            self.room.clear();
            self.pending.add_file_reconstruction_info(file)
        }
    }

    /// Writes what is pending as a shard file into the folder, durably, created at the time that was last passed and
    /// without expiry, and registers it after the others, unless its hash is registered. Returns its path, and nothing
    /// is pending then; `None` if nothing is pending. `TooLarge(Shards)` if 2^32 - 1 shards are registered and one more
    /// is due; nothing is written then. After an error the same is pending, and the same shards are registered.
    pub fn flush(&mut self) -> Result<Option<String>, StoreError>
        ensures none { IfOk result (λ path. (path ≡ None) ↔ (self.old.pending ≡ nothing)) }
        ensures idle { self.old.pending ≡ nothing → (result ≡ Ok None) × (self.new ≡ self.old) }
        ensures flushed { IfOk result (λ path. IfSome path (λ p. Cuts self.old self.new nothing self.old.room (string_bytes p))) }
        ensures refused { IfErr result (IsUncut self.old self.new) }
        ensures safe { self.old.tells ≡ true → KeepsFiles self.old.files self.new.files self.old.folder (flushed_bytes self.old.pending self.old.moment) self.old.registry.files }
        ensures later { self.old.faults ≤ self.new.faults }
        ensures reason { IfErr result (IsFlushError self.old.faults self.new.faults) }
    {
        if self.pending.is_empty() {
            return Ok(None);
        }
        let next = self.room.take_next(self.alloc);
        match self.cut(next) {
            Ok(path) => Ok(Some(path)),
            Err(error) => Err(error),
        }
    }

    /// Whether what is pending is written before a record of this many bytes is added.
    pub fn is_cut_due(&self, bytes: u64) -> bool
        ensures { result ≡ cut_due self.now bytes }
    {
        if self.pending.is_empty() {
            return false;
        }
        let target = self.settings.target;
        bytes > target || self.pending.shard_file_size() > target - bytes
    }

    /// The shard that is to be pending with a record after what is pending was written. The room is used.
    fn next(&mut self) -> MDBInMemoryShard
        ensures next { result ≡ nothing }
        ensures rest { self.new ≡ record self.old { room = 0 } }
    {
        self.room.bytes = 0;
        self.room.take_next(self.alloc)
    }

    /// Writes what is pending, and lets the records of `next` be pending.
    fn cut_to(&mut self, next: MDBInMemoryShard) -> Result<(), StoreError>
        ensures cut { OnOk result ((path : List ℕ) × Cuts self.old self.new next self.old.room path) }
        ensures uncut { IfErr result (IsUncut self.old self.new) }
        ensures safe { self.old.tells ≡ true → KeepsFiles self.old.files self.new.files self.old.folder (flushed_bytes self.old.pending self.old.moment) self.old.registry.files }
        ensures later { self.old.faults ≤ self.new.faults }
        ensures reason { IfErr result (IsFlushError self.old.faults self.new.faults) }
    {
        let _path = self.cut(next)?;
        Ok(())
    }

    /// The same. Returns the path of the shard file.
    fn cut(&mut self, next: MDBInMemoryShard) -> Result<String, StoreError>
        ensures cut { IfOk result (λ path. Cuts self.old self.new next self.old.room (string_bytes path)) }
        ensures uncut { IfErr result (IsUncut self.old self.new) }
        ensures safe { self.old.tells ≡ true → KeepsFiles self.old.files self.new.files self.old.folder (flushed_bytes self.old.pending self.old.moment) self.old.registry.files }
        ensures later { self.old.faults ≤ self.new.faults }
        ensures reason { IfErr result (IsFlushError self.old.faults self.new.faults) }
    {
        let room = self.room.bytes;
        let due = self.room.due.take();
        self.room.bytes = 0;
        match flush_prepared(
            self.alloc,
            &mut self.disk,
            self.folder.as_str(),
            &mut self.registry,
            &mut self.pending,
            due,
            next,
            self.settings.index_cap,
            self.moment,
        ) {
            Ok(path) => {
                self.room.bytes = room;
                Ok(path)
            }
            Err(error) => Err(error),
        }
    }
}

/// The shard without records, with this xorb.
fn shard_of_block(
    empty: MDBInMemoryShard,
    block: MDBXorbInfo,
) -> Result<MDBInMemoryShard, StoreError>
    requires empty { empty ≡ nothing }
    requires form { IsXorb block }
    requires hash { xorb_record_hash block ≢ sentinel }
    requires few { length (xorb_section (block ∷ [])) < 2 ^ 32 }
    ensures shard { IfOk result (λ shard. shard ≡ held (block ∷ []) []) }
    ensures memory { IsOkUnless result StoreError.OutOfMemory }
{
    let mut shard = empty;
    match shard.add_xorb_block(block) {
        Ok(()) => Ok(shard),
        Err(error) => Err(error),
    }
}

/// The shard without records, with this file.
fn shard_of_file(empty: MDBInMemoryShard, file: MDBFileInfo) -> Result<MDBInMemoryShard, StoreError>
    requires empty { empty ≡ nothing }
    requires form { IsFile file }
    requires hash { file_record_hash file ≢ sentinel }
    requires few { length (file_section (file ∷ [])) < 2 ^ 32 }
    ensures shard { IfOk result (λ shard. shard ≡ held [] (file ∷ [])) }
    ensures memory { IsOkUnless result StoreError.OutOfMemory }
{
    let mut shard = empty;
    match shard.add_file_reconstruction_info(file) {
        Ok(()) => Ok(shard),
        Err(error) => Err(error),
    }
}
