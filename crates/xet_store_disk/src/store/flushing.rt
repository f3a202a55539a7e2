//! Flushing: writing a shard of what is pending.

ghost use Rattle.std.specs.Prelude.{◌≡◌, ◌≢◌, ◌↔◌, true, None, Ok, IfErr, IfOk, IfSome, IsErrOf, OnErr};
ghost use Rattle.xet_folder.specs.Changes.{GoesBy};
ghost use Rattle.xet_folder.specs.Puts.{IsSettled};
ghost use Rattle.xet_shard.specs.Held.{nothing};
ghost use Rattle.xet_store_disk.specs.Cleaning.{Keeps};
ghost use Rattle.xet_store_disk.specs.Flushing.{IsFlushError, IsFlushed, IsFull, IsUnflushed, flush_changes};

use crate::store::Store;
use std::alloc::Global;
use xet_folder::put_shard;
use xet_hash::{MerkleHash, StoreError, What, compute_data_hash};
use xet_io::Disk;
use xet_shard::MDBInMemoryShard;
use xet_shard_file::recall_bytes;

/// The maximum number of registered shards.
const MAX_SHARDS: usize = u32::MAX as usize;

impl<D: Disk> Store<D> {
    /// Writes one shard of all that is pending, durable, and returns its hash; returns none if nothing is
    /// pending. After an error all of it is still pending. `TooLarge(Shards)` is returned if and only if something
    /// is pending and 2^32 - 1 shards are registered, and then nothing is done. Any other error is `OutOfMemory`, or
    /// `Io(Disk)`, which is returned only if the disk failed.
    pub fn flush(&mut self) -> Result<Option<MerkleHash>, StoreError>
        ensures none { IfOk result (λ h. (h ≡ None) ↔ (self.old.pending ≡ nothing)) }
        ensures idle { self.old.pending ≡ nothing → (result ≡ Ok None) × (self.new ≡ self.old) }
        ensures flushed { IfOk result (λ h. IfSome h (λ shard. IsFlushed self.old shard self.new)) }
        ensures refused { OnErr result (IsUnflushed self.old self.new) }
        ensures keeps { Keeps self.old self.new }
        ensures goes { self.old.pending ≢ nothing → self.old.tells ≡ true → IsSettled self.old.files.entries self.old.folder → GoesBy self.old.files self.new.files self.old.folder (flush_changes self.old) result }
        ensures full { IsFull self.old → IsErrOf result (StoreError.TooLarge What.Shards) × (self.new ≡ self.old) }
        ensures reason { IfErr result (IsFlushError self.old self.new.faults) }
    {
        if self.pending.is_empty() {
            return Ok(None);
        }
        if self.shards.len() >= MAX_SHARDS {
            return Err(StoreError::TooLarge(What::Shards));
        }
        let (encoding, _) = self.pending.shard_bytes(self.alloc, self.opened, None)?;
        let hash = compute_data_hash(&encoding);
        // No registered shard has what is pending, so one has this hash only if there is a collision.
        if self.shards.contains(&hash) {
            return Err(StoreError::OutOfMemory);
        }
        recall_bytes(&hash);
        self.shards.reserve(1)?;
        let folder = self.folder.as_str();
        put_shard(&mut self.disk, self.alloc, folder, &hash, &encoding)?;
        self.shards.push_reserved(hash);
        empty(&mut self.pending, self.alloc);
        Ok(Some(hash))
    }
}

/// Drops what is pending.
fn empty(pending: &mut MDBInMemoryShard, alloc: Global)
    ensures { pending.new ≡ nothing }
{
    *pending = MDBInMemoryShard::new(alloc);
}
