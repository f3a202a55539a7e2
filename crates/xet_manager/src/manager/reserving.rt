//! Memory that is taken before it is needed.

ghost use Rattle.std.specs.Prelude.{◌≡◌, IsOkUnless, OnErr, OnOk, max};
ghost use Rattle.xet_manager.specs.Manager.{HasSameShards};

use crate::manager::ShardFileManager;
use xet_hash::StoreError;
use xet_io::Disk;
use xet_shard_flush::prepare_flush;

/// The bytes that a chunk adds to a shard: a row, and an item of the chunk lookup table.
const CHUNK_BYTES: u64 = 64;

impl<D: Disk> ShardFileManager<D> {
    /// Takes the memory for one `flush` of what is pending, and for adding, after it or without it, one xorb or file
    /// whose record has at most so many bytes. The flush then takes memory only as the disk does, and the adding takes
    /// none. This ends when a record is added, when shards are registered, when another time is passed, and after a
    /// flush that failed; after one that did not, the memory for the record is there still. That later calls take no memory
    /// is by the code. What is pending is encoded. The only error is `OutOfMemory`. The same shards are registered in either case.
    pub fn reserve(&mut self, bytes: u64) -> Result<(), StoreError>
        ensures room { OnOk result (self.new.room ≡ max self.old.room bytes) }
        ensures kept { OnErr result (self.new.room ≡ self.old.room) }
        ensures rest { HasSameShards self.old self.new }
        ensures memory { IsOkUnless result StoreError.OutOfMemory }
    {
        self.prepare()?;
        self.reserve_record(bytes)
    }

    /// Takes the memory for adding one xorb or file whose record has at most so many bytes, as `reserve` does. Nothing
    /// is encoded, so this is enough if no cut is due.
    pub fn reserve_record(&mut self, bytes: u64) -> Result<(), StoreError>
        ensures room { OnOk result (self.new ≡ record self.old { room = max self.old.room bytes }) }
        ensures kept { OnErr result (self.new ≡ self.old) }
        ensures memory { IsOkUnless result StoreError.OutOfMemory }
    {
        let chunks = (bytes / CHUNK_BYTES) as usize;
        self.room.next.reserve(chunks)?;
        self.pending.reserve(chunks)?;
        self.room.bytes = self.room.bytes.max(bytes);
        Ok(())
    }

    /// Takes the memory for a flush of what is pending.
    fn prepare(&mut self) -> Result<(), StoreError>
        ensures room { self.new.room ≡ self.old.room }
        ensures rest { HasSameShards self.old self.new }
        ensures memory { IsOkUnless result StoreError.OutOfMemory }
    {
        if self.pending.is_empty() || self.room.due.is_some() {
            return Ok(());
        }
        match prepare_flush(
            self.alloc,
            self.folder.as_str(),
            &mut self.registry,
            &self.pending,
            self.settings.index_cap,
            self.moment,
        ) {
            Ok(due) => {
                self.room.due = Some(due);
                Ok(())
            }
            Err(error) => Err(error),
        }
    }
}
