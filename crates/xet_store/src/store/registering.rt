//! Registration of xorbs, with its entries.

ghost use Rattle.std.specs.Prelude.{◌≡◌, ◌≢◌, ◌≤◌, ◌+◌, ◌++◌, ◌∷◌, [], true, None, Some, IfErr, IfOk, IsErr, IsOkUnless, OnErr, OnOk, is_some, length, map, option_map, vec_capacity, vec_len};
ghost use Rattle.xet_dedup_queries.specs.Registering.{IsNewXorb};
ghost use Rattle.xet_folder.specs.Xorbs.{IsListed, found};
ghost use Rattle.xet_hash.specs.Hash.{sentinel};
ghost use Rattle.xet_hash.specs.Merkle.{xorb_hash};
ghost use Rattle.xet_history.specs.Core.{is_new};
ghost use Rattle.xet_history.specs.History.{register_cut, register_entries};
ghost use Rattle.xet_io.specs.Disk.{Files, bytes_at};
ghost use Rattle.xet_store.specs.Recorded.{core_of, recorded_state};
ghost use Rattle.xet_store.specs.Steps.{IsFullError, Refuses, RegisterRefuses, Registers, Steps};
ghost use Rattle.xet_folder.specs.Changes.{GoesBy};
ghost use Rattle.xet_folder.specs.Changes.Change.{Puts};
ghost use Rattle.xet_folder.specs.Names.{xorb_path};
ghost use Rattle.xet_folder.specs.Puts.{IsSettled};
ghost use Rattle.xet_shard_format.specs.RecordSizes.{xorb_record_size};
ghost use Rattle.xet_store.specs.Changes.{ChangesFiles, Tries, cut_changes};
ghost use Rattle.xet_store_disk.specs.Crash.{CrashSafe};
ghost use Rattle.xet_store_disk.specs.Flushing.{IsFull};
ghost use Rattle.xet_xorb.specs.Building.{built_of};
ghost use Rattle.xet_xorb.specs.Raw.{raw_leaves, xorb_record};

use crate::store::Store;
use crate::store::flushing::{cut_store, note_fault};
use std::alloc::Global;
use xet_base::Items;
use xet_ghost::Ghost;
use xet_hash::{MerkleHash, StoreError};
use xet_history::{ChunkList, Entry, StepKind};
use xet_io::Disk;
use xet_shard::MDBInMemoryShard;
use xet_store_disk::{DueXorb, Store as FolderStore, leaves_of_raw};
use xet_xorb::RawXorbData;

impl<D: Disk> Store<D> {
    /// Stores a xorb and lists it, unless one of its hash is listed; its record is then pending. Returns whether none was.
    /// If something is pending and its shard would be longer than the target with this xorb, it is flushed first. `next`
    /// lists the chunks that did not fit into the xorb. The xorb's file is its encoding, with a footer of version 1. After an
    /// error the xorb is not listed, and a flush that was completed stands; on the disk nothing has changed but the files of
    /// the xorb and of the flush, and what is under their temporary names. `OutOfMemory` is also returned if a xorb of its
    /// hash is listed with other chunks, or if its hash is the sentinel. The other errors are `TooLarge(Shards)`, which is
    /// returned only if a flush is due and 2^32 - 1 shards are registered, and `Io(Disk)`, which is returned only if the disk
    /// failed, and has an entry then.
    pub fn register_xorb(
        &mut self,
        xorb: RawXorbData,
        next: &[(MerkleHash, u64)],
    ) -> Result<bool, StoreError>
        requires new { IsNewXorb (self.old.store.limits.cut_bytes, self.old.store.limits.cut_chunks) xorb }
        ensures added { IfOk result (λ added. added ≡ is_new self.old.store.xorbs (xorb_hash (raw_leaves xorb))) }
        ensures steps { OnOk result (Steps self.old self.new (register_entries 0 (core_of self.old) self.old.store.limits.shard_target (raw_leaves xorb) next.now)) }
        ensures changes { OnOk result (ChangesFiles [] self.old self.new (register_entries 0 (core_of self.old) self.old.store.limits.shard_target (raw_leaves xorb) next.now)) }
        ensures tries { OnErr result (Tries self.old self.new (register_entries 0 (core_of self.old) self.old.store.limits.shard_target (raw_leaves xorb) next.now)) }
        ensures written { IfOk result (λ added. added ≡ true → self.old.store.tells ≡ true → bytes_at self.new.store.files (xorb_path self.old.store.folder (xorb_hash (raw_leaves xorb))) ≡ Some (built_of xorb true).serialized_data) }
        ensures refused { IfErr result (Refuses 0 StepKind.Register (register_cut 0 (core_of self.old) self.old.store.limits.shard_target (raw_leaves xorb)) self.old self.new) }
        // Where a flush is due and no further shard can be registered, nothing is done.
        ensures full { IsFull self.old.store → register_cut 0 (core_of self.old) self.old.store.limits.shard_target (raw_leaves xorb) ≢ [] → IsErr result × IfErr result (IsFullError self.old self.new) }
        ensures unlisted { OnErr result (self.new.store.xorbs ≡ self.old.store.xorbs) }
        ensures listed { OnOk result (IsListed self.new.store.xorbs (xorb_hash (raw_leaves xorb)) (raw_leaves xorb)) }
        ensures named { OnOk result (xorb_hash (raw_leaves xorb) ≢ sentinel) }
        ensures crash { CrashSafe self.old.store self.new.store }
    {
        self.recall_sound();
        self.recall_invariant();
        self.register_xorb_by(0, xorb, next)
    }

    /// The same for a pass, whose number the entries have.
    pub fn register_xorb_by(
        &mut self,
        pass: u32,
        xorb: RawXorbData,
        next: &[(MerkleHash, u64)],
    ) -> Result<bool, StoreError>
        requires new { IsNewXorb (self.old.store.limits.cut_bytes, self.old.store.limits.cut_chunks) xorb }
        ensures added { IfOk result (λ added. added ≡ is_new self.old.store.xorbs (xorb_hash (raw_leaves xorb))) }
        ensures steps { OnOk result (Steps self.old self.new (register_entries pass (core_of self.old) self.old.store.limits.shard_target (raw_leaves xorb) next.now)) }
        ensures changes { OnOk result (ChangesFiles [] self.old self.new (register_entries pass (core_of self.old) self.old.store.limits.shard_target (raw_leaves xorb) next.now)) }
        ensures tries { OnErr result (Tries self.old self.new (register_entries pass (core_of self.old) self.old.store.limits.shard_target (raw_leaves xorb) next.now)) }
        ensures written { IfOk result (λ added. added ≡ true → self.old.store.tells ≡ true → bytes_at self.new.store.files (xorb_path self.old.store.folder (xorb_hash (raw_leaves xorb))) ≡ Some (built_of xorb true).serialized_data) }
        ensures refused { IfErr result (Refuses pass StepKind.Register (register_cut pass (core_of self.old) self.old.store.limits.shard_target (raw_leaves xorb)) self.old self.new) }
        ensures unlisted { OnErr result (self.new.store.xorbs ≡ self.old.store.xorbs) }
        ensures listed { OnOk result (IsListed self.new.store.xorbs (xorb_hash (raw_leaves xorb)) (raw_leaves xorb)) }
        ensures named { OnOk result (xorb_hash (raw_leaves xorb) ≢ sentinel) }
    {
        self.history.reserve(2)?;
        self.flushed.reserve(1)?;
        let next = list_of(self.alloc, next)?;
        let chunks = Items::from_vec(leaves_of_raw(self.alloc, &xorb)?);
        let is_known = is_listed(&self.store, &xorb.hash(), chunks.as_slice())?;
        if is_known {
            self.history.push_reserved(Entry::Register {
                pass,
                chunks,
                next,
                added: false,
            });
            return Ok(false);
        }
        let due = due_of(self.alloc, &mut self.store, xorb)?;
        self.store.reserve_xorb(due.len())?;
        register_due(
            &mut self.store,
            &mut self.flushed,
            &mut self.history,
            pass,
            due,
            chunks,
            next,
        )
    }
}

/// Whether a xorb of a hash is listed. The only error is `OutOfMemory`, which is returned if it is listed with other chunks, or
/// if the hash is the sentinel.
fn is_listed<D: Disk>(
    store: &FolderStore<D>,
    hash: &MerkleHash,
    chunks: &[(MerkleHash, u64)],
) -> Result<bool, StoreError>
    ensures listed { IfOk result (λ listed. listed ≡ is_some (found store.now.xorbs hash.now)) }
    ensures same { IfOk result (λ listed. listed ≡ true → IsListed store.now.xorbs hash.now chunks.now) }
    ensures named { OnOk result (hash.now ≢ sentinel) }
    ensures memory { IsOkUnless result StoreError.OutOfMemory }
{
    if *hash == MerkleHash::marker() {
        return Err(StoreError::OutOfMemory);
    }
    match store.xorb(hash) {
        Some(listed) => {
            if listed.as_slice() == chunks {
                Ok(true)
            } else {
                Err(StoreError::OutOfMemory)
            }
        }
        None => Ok(false),
    }
}

/// Registers a xorb that is not listed, with its entry, for which there is room.
fn register_due<D: Disk>(
    store: &mut FolderStore<D>,
    flushed: &mut Vec<Option<Ghost<MDBInMemoryShard>>>,
    history: &mut Vec<Entry>,
    pass: u32,
    due: DueXorb,
    chunks: ChunkList,
    next: ChunkList,
) -> Result<bool, StoreError>
    requires new { found store.old.xorbs due.hash ≡ None }
    requires chunks { (chunks ≡ due.leaves) × (due.hash ≡ xorb_hash due.leaves) }
    requires count { length flushed.old.items ≡ length store.old.shards }
    requires room { (vec_len flushed.old + 1 ≤ vec_capacity flushed.old) × (vec_len history.old + 2 ≤ vec_capacity history.old) }
    ensures added { IfOk result (λ added. added ≡ true) }
    ensures steps { OnOk result ((files : Files) → Registers pass due.leaves next (recorded_state store.old files (map (option_map (λ g. g.value)) flushed.old.items) history.old.items) (recorded_state store.new files (map (option_map (λ g. g.value)) flushed.new.items) history.new.items)) }
    ensures refused { IfErr result (λ e. (files : Files) → RegisterRefuses pass due.leaves next (recorded_state store.old files (map (option_map (λ g. g.value)) flushed.old.items) history.old.items) (recorded_state store.new files (map (option_map (λ g. g.value)) flushed.new.items) history.new.items) e) }
    ensures goes { store.old.tells ≡ true → IsSettled store.old.files.entries store.old.folder → GoesBy store.old.files store.new.files store.old.folder (cut_changes store.old (xorb_record_size (xorb_record due.hash due.leaves)) ++ Puts (xorb_path store.old.folder due.hash) due.encoding ∷ []) result }
    ensures written { store.old.tells ≡ true → OnOk result (bytes_at store.new.files (xorb_path store.old.folder due.hash) ≡ Some due.encoding) }
    ensures unlisted { OnErr result (store.new.xorbs ≡ store.old.xorbs) }
    ensures listed { OnOk result (IsListed store.new.xorbs due.hash due.leaves) }
    ensures count { length flushed.new.items ≡ length store.new.shards }
{
    cut_store(
        store,
        flushed,
        history,
        pass,
        StepKind::Register,
        due.num_bytes(),
    )?;
    match store.store_xorb(due) {
        Ok(()) => {
            history.push_reserved(Entry::Register {
                pass,
                chunks,
                next,
                added: true,
            });
            Ok(true)
        }
        Err(error) => {
            note_fault(history, pass, StepKind::Register, &error);
            Err(error)
        }
    }
}

/// A xorb that keeps the limits of a store, ready to be stored, in the store's buffer for the next encoding. The only error is
/// `OutOfMemory`. The store is unchanged in either case.
fn due_of<D: Disk>(
    alloc: Global,
    store: &mut FolderStore<D>,
    xorb: RawXorbData,
) -> Result<DueXorb, StoreError>
    requires new { IsNewXorb (store.old.limits.cut_bytes, store.old.limits.cut_chunks) xorb }
    ensures kept { store.new ≡ store.old }
    ensures leaves { IfOk result (λ due. due.leaves ≡ raw_leaves xorb) }
    ensures hash { IfOk result (λ due. due.hash ≡ xorb_hash (raw_leaves xorb)) }
    ensures encoding { IfOk result (λ due. due.encoding ≡ (built_of xorb true).serialized_data) }
    ensures memory { IsOkUnless result StoreError.OutOfMemory }
{
    store.limits().recall_invariant();
    let buffer = store.take_buffer();
    DueXorb::new(alloc, buffer, xorb)
}

/// A copy of a list of chunks. The only error is `OutOfMemory`.
fn list_of(alloc: Global, chunks: &[(MerkleHash, u64)]) -> Result<ChunkList, StoreError>
    ensures list { IfOk result (λ list. list ≡ chunks.now) }
    ensures memory { IsOkUnless result StoreError.OutOfMemory }
{
    Ok(Items::from_vec(Vec::from_slice(alloc, chunks)?))
}
