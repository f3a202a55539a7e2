//! Adding xorbs and files to a session.

ghost use Rattle.std.specs.Prelude.{◌≡◌, ◌≢◌, ◌++◌, true, ◌↔◌, ◌<◌, ◌+◌, ◌*◌, ◌^◌, ◌∷◌, [], length, OnOk, OnErr, IfErr, IsOkUnless, IsSome, IsTrue, None, Some};
ghost use Rattle.xet_shard.specs.Held.{held_size};
ghost use Rattle.xet_shard_format.specs.Records.{file_record_hash};
ghost use Rattle.xet_codec.specs.Stops.{HasDiskReason};
ghost use Rattle.indexmap.specs.IndexMap.{spare};
ghost use Rattle.xet_dedup.specs.Records.{xorb_record};
ghost use Rattle.xet_folder.specs.Names.{xorb_path};
ghost use Rattle.xet_folder.specs.Changes.{GoesBy};
ghost use Rattle.xet_folder.specs.Changes.Change.{Puts};
ghost use Rattle.xet_folder.specs.Puts.{IsSettled};
ghost use Rattle.xet_folder.specs.Stored.{IsBacked};
ghost use Rattle.xet_folder.specs.Xorbs.{IsListed, found};
ghost use Rattle.xet_hash.specs.Hash.{sentinel};
ghost use Rattle.xet_io.specs.Disk.{bytes_at, entry_at as get};
ghost use Rattle.xet_shard_file.specs.Names.{IsHash, temp_name};
ghost use Rattle.xet_store_disk.specs.Cleaning.{Adds, IsDurable, Keeps};
ghost use Rattle.xet_store_disk.specs.Flushing.{KeepsOtherNames};
ghost use Rattle.xet_store_disk.specs.Store.{IsNewFile};
ghost use Rattle.xet_store_disk.specs.Tables.{tables_of, with_leaves, with_record};

use crate::due_xorb::DueXorb;
use crate::store::Store;
use indexmap::IndexMap;
use xet_folder::{Leaves, RecordedFile, put_xorb};
use xet_hash::{MerkleHash, StoreError};
use xet_io::Disk;
use xet_shard::MDBInMemoryShard;
use xet_shard_file::recall_bytes;
use xet_shard_format::{MDBFileInfo, MDBXorbInfo};

impl<D: Disk> Store<D> {
    /// Takes the memory for one more xorb with this number of chunks. The only error is `OutOfMemory`. The store is
    /// unchanged in either case.
    pub fn reserve_xorb(&mut self, chunks: usize) -> Result<(), StoreError>
        ensures kept { self.new ≡ self.old }
        ensures memory { IsOkUnless result StoreError.OutOfMemory }
    {
        self.xorbs.reserve(1)?;
        self.pending.reserve(chunks)
    }

    /// Stores a xorb whose hash is not listed, and lists it; its record is then pending. The error is `Io(Disk)`, which is
    /// returned only if the disk failed, or `OutOfMemory`, which is also returned if the hash is the sentinel, or if the
    /// shard of what is pending would be too long.
    pub fn store_xorb(&mut self, due: DueXorb) -> Result<(), StoreError>
        requires new { found self.old.xorbs due.hash ≡ None }
        ensures keeps { Keeps self.old self.new }
        ensures records { self.new.records ≡ self.old.records }
        ensures shards { self.new.shards ≡ self.old.shards }
        ensures listed { OnOk result (IsListed self.new.xorbs due.hash due.leaves) }
        ensures stores { OnOk result (tables_of self.new ≡ with_leaves (tables_of self.old) due.hash due.leaves) }
        ensures kept { OnErr result (tables_of self.new ≡ tables_of self.old) }
        ensures written { self.old.tells ≡ true → OnOk result (bytes_at self.new.files (xorb_path self.old.folder due.hash) ≡ Some due.encoding) }
        ensures temp { self.old.tells ≡ true → OnOk result (get self.new.files (temp_name (xorb_path self.old.folder due.hash)) ≡ None) }
        ensures others { self.old.tells ≡ true → KeepsOtherNames self.old.files self.new.files (xorb_path self.old.folder due.hash) }
        ensures goes { self.old.tells ≡ true → IsSettled self.old.files.entries self.old.folder → GoesBy self.old.files self.new.files self.old.folder (Puts (xorb_path self.old.folder due.hash) due.encoding ∷ []) result }
        ensures reason { IfErr result (HasDiskReason self.old.faults self.new.faults) }
    {
        let put = self.put_due(&due);
        let hash = due.hash();
        let (block, leaves, encoding) = due.into_parts();
        self.retain_buffer(encoding);
        match put {
            Ok(()) => self.list_xorb(hash, block, leaves),
            Err(error) => Err(error),
        }
    }

    /// Writes the file of a xorb whose hash is not listed, and takes the memory for listing it.
    fn put_due(&mut self, due: &DueXorb) -> Result<(), StoreError>
        requires new { found self.old.xorbs due.now.hash ≡ None }
        ensures keeps { Keeps self.old self.new }
        ensures same { (tables_of self.new ≡ tables_of self.old) × (self.new.shards ≡ self.old.shards) }
        ensures backed { self.old.tells ≡ true → OnOk result (IsBacked self.new.files self.new.folder due.now.hash due.now.leaves) }
        ensures durable { self.old.tells ≡ true → OnOk result (IsDurable self.new.files (xorb_path self.new.folder due.now.hash)) }
        ensures named { OnOk result (IsHash due.now.hash × (due.now.hash ≢ sentinel)) }
        ensures room { OnOk result (held_size self.new.pending + 48 * (1 + length due.now.leaves) < 2 ^ 37) }
        ensures written { self.old.tells ≡ true → OnOk result (bytes_at self.new.files (xorb_path self.old.folder due.now.hash) ≡ Some due.now.encoding) }
        ensures temp { self.old.tells ≡ true → OnOk result (get self.new.files (temp_name (xorb_path self.old.folder due.now.hash)) ≡ None) }
        ensures others { self.old.tells ≡ true → KeepsOtherNames self.old.files self.new.files (xorb_path self.old.folder due.now.hash) }
        ensures goes { self.old.tells ≡ true → IsSettled self.old.files.entries self.old.folder → GoesBy self.old.files self.new.files self.old.folder (Puts (xorb_path self.old.folder due.now.hash) due.now.encoding ∷ []) result }
        ensures reason { IfErr result (HasDiskReason self.old.faults self.new.faults) }
    {
        due.recall_invariant();
        let hash = due.hash();
        if hash == MerkleHash::marker() || !has_room(&self.pending, 1 + due.len() as u64) {
            return Err(StoreError::OutOfMemory);
        }
        recall_bytes(&hash);
        self.reserve_xorb(due.len())?;
        put_xorb(
            &mut self.disk,
            self.alloc,
            self.folder.as_str(),
            &hash,
            due.encoding(),
        )
    }

    /// Lists a xorb whose file was written. The only error is `OutOfMemory`.
    fn list_xorb(
        &mut self,
        hash: MerkleHash,
        block: MDBXorbInfo,
        leaves: Leaves,
    ) -> Result<(), StoreError>
        requires new { found self.old.xorbs hash ≡ None }
        requires named { IsHash hash × (hash ≢ sentinel) }
        requires block { block ≡ xorb_record hash leaves }
        requires room { held_size self.old.pending + 48 * (1 + length leaves) < 2 ^ 37 }
        requires backed { self.old.tells ≡ true → IsBacked self.old.files self.old.folder hash leaves }
        requires durable { self.old.tells ≡ true → IsDurable self.old.files (xorb_path self.old.folder hash) }
        ensures keeps { Keeps self.old self.new }
        ensures records { self.new.records ≡ self.old.records }
        ensures shards { self.new.shards ≡ self.old.shards }
        ensures listed { OnOk result (IsListed self.new.xorbs hash leaves) }
        ensures stores { OnOk result (tables_of self.new ≡ with_leaves (tables_of self.old) hash leaves) }
        ensures files { self.new.files ≡ self.old.files }
        ensures kept { OnErr result (self.new ≡ self.old) }
        ensures memory { IsOkUnless result StoreError.OutOfMemory }
    {
        self.xorbs.reserve(1)?;
        self.pending.add_xorb_block(block)?;
        self.pending.recall_invariant();
        insert_xorb(&mut self.xorbs, hash, leaves);
        Ok(())
    }

    /// Records a file; its record is then pending. A file that is recorded keeps its record. The only error
    /// is `OutOfMemory`, which is also returned if the hash is the sentinel, or if the shard of what is
    /// pending would be too long.
    pub fn add_file(&mut self, file: MDBFileInfo) -> Result<(), StoreError>
        requires { IsNewFile self.old.xorbs file }
        ensures keeps { Keeps self.old self.new }
        ensures there { OnOk result (IsSome (found self.new.records (file_record_hash file))) }
        ensures adds { OnOk result (Adds self.old.records self.new.records (file_record_hash file ∷ [])) }
        ensures shards { self.new.shards ≡ self.old.shards }
        ensures stores { OnOk result (tables_of self.new ≡ with_record (tables_of self.old) file) }
        ensures files { self.new.files ≡ self.old.files }
        ensures err { OnErr result (self.new ≡ self.old) }
        ensures memory { IsOkUnless result StoreError.OutOfMemory }
    {
        let hash = file.hash();
        if self.records.contains_key(&hash) {
            return Ok(());
        }
        let rows = 2 + 2 * u64::from(file.metadata.num_entries);
        if hash == MerkleHash::marker() || !has_room(&self.pending, rows) {
            return Err(StoreError::OutOfMemory);
        }
        let copy = file.copy(self.alloc)?;
        let recorded = RecordedFile::new(self.alloc, file)?;
        self.records.reserve(1)?;
        self.pending.add_file_reconstruction_info(copy)?;
        self.pending.recall_invariant();
        self.records.insert(hash, recorded)?;
        Ok(())
    }
}

/// Inserts a xorb for which there is room.
fn insert_xorb(xorbs: &mut IndexMap<MerkleHash, Leaves>, hash: MerkleHash, leaves: Leaves)
    requires room { 0 < spare xorbs.old }
    requires new { found xorbs.old.entries hash ≡ None }
    ensures { xorbs.new.entries ≡ xorbs.old.entries ++ (hash, leaves) ∷ [] }
{
    let _inserted = xorbs.insert(hash, leaves);
}

/// Whether the shard of what is pending stays below 2^37 bytes with `rows` more rows of 48 bytes. Below that
/// length a shard has fewer than 2^32 rows.
fn has_room(held: &MDBInMemoryShard, rows: u64) -> bool
    requires { rows < 2 ^ 40 }
    ensures { IsTrue result ↔ (held_size held.now + 48 * rows < 2 ^ 37) }
{
    let size = held.shard_file_size();
    size < 1 << 37 && size + 48 * rows < 1 << 37
}
