//! Recording of files, with its entries.

ghost use Rattle.std.specs.Prelude.{◌≡◌, ◌≢◌, ◌↔◌, ◌⊎◌, ◌≤◌, ◌+◌, [], true, None, IfErr, IfOk, IsErr, IsOkUnless, IsTrue, OnErr, OnOk, length, map, option_map, vec_capacity, vec_len};
ghost use Rattle.xet_completion.specs.Completing.{Completes};
ghost use Rattle.xet_folder.specs.Xorbs.{found};
ghost use Rattle.xet_history.specs.Core.{is_new};
ghost use Rattle.xet_history.specs.History.{complete_cut, complete_entries};
ghost use Rattle.xet_io.specs.Disk.{Files};
ghost use Rattle.xet_shard_format.specs.Records.{IsFile, file_record_hash};
ghost use Rattle.xet_store.specs.Recorded.{core_of, recorded_state};
ghost use Rattle.xet_store.specs.Steps.{CompleteRefuses, IsFullError, IsOtherFile, Records, Refuses, Steps};
ghost use Rattle.xet_store_disk.specs.Store.{IsNewFile};
ghost use Rattle.xet_folder.specs.Changes.{GoesBy};
ghost use Rattle.xet_folder.specs.Puts.{IsSettled};
ghost use Rattle.xet_shard_format.specs.RecordSizes.{file_record_size};
ghost use Rattle.xet_store.specs.Changes.{ChangesFiles, Tries, cut_changes};
ghost use Rattle.xet_store_disk.specs.Crash.{CrashSafe};
ghost use Rattle.xet_store_disk.specs.Flushing.{IsFull};

use crate::store::Store;
use crate::store::flushing::cut_store;
use xet_completion::can_complete;
use xet_ghost::Ghost;
use xet_hash::{Reason, StoreError};
use xet_history::{Entry, StepKind};
use xet_io::Disk;
use xet_shard::MDBInMemoryShard;
use xet_shard_format::MDBFileInfo;
use xet_store_disk::Store as FolderStore;

impl<D: Disk> Store<D> {
    /// Whether a file may be recorded: its plan resolves to chunks of listed xorbs, at least one, which give its file hash
    /// and, if it has verification rows, its range hashes; and its hash is not the sentinel. Reads no stored bytes. The only
    /// error is `OutOfMemory`.
    pub fn can_complete(&self, file: &MDBFileInfo) -> Result<bool, StoreError>
        requires form { IsFile file.now }
        ensures can { IfOk result (λ can. IsTrue can ↔ Completes self.now.store.xorbs file.now) }
        ensures memory { IsOkUnless result StoreError.OutOfMemory }
    {
        can_complete(self.alloc, self.store.xorbs(), file)
    }

    /// Records a file, unless its hash is recorded; its record is then pending. Returns whether none was. If something is
    /// pending and its shard would be longer than the target with this record, it is flushed first. A file that may not be
    /// recorded is refused as `MalformedData(OtherFileHash)`, and no entry is added. After another error the file is not
    /// recorded; a flush that was completed stands. That error is `TooLarge(Shards)`, which is returned only if a flush is due and
    /// 2^32 - 1 shards are registered, `OutOfMemory`, or `Io(Disk)`, which is returned only if the disk failed, and has an
    /// entry then.
    pub fn complete_file(&mut self, file: MDBFileInfo) -> Result<bool, StoreError>
        requires form { IsFile file }
        ensures can { OnOk result (Completes self.old.store.xorbs file) }
        ensures added { IfOk result (λ added. added ≡ is_new self.old.store.records (file_record_hash file)) }
        ensures steps { OnOk result (Steps self.old self.new (complete_entries 0 (core_of self.old) self.old.store.limits.shard_target file)) }
        ensures changes { OnOk result (ChangesFiles [] self.old self.new (complete_entries 0 (core_of self.old) self.old.store.limits.shard_target file)) }
        ensures tries { OnErr result (Tries self.old self.new (complete_entries 0 (core_of self.old) self.old.store.limits.shard_target file)) }
        // A file that may not be recorded is refused before anything is done.
        ensures other { (Completes self.old.store.xorbs file → ⊥) → IfErr result (λ e. IsOtherFile self.old self.new file e ⊎ ((e ≡ StoreError.OutOfMemory) × (self.new ≡ self.old))) }
        ensures refused { IfErr result (λ e. IsOtherFile self.old self.new file e ⊎ Refuses 0 StepKind.Complete (complete_cut 0 (core_of self.old) self.old.store.limits.shard_target file) self.old self.new e) }
        // Where a flush is due and no further shard can be registered, nothing is done.
        ensures full { IsFull self.old.store → complete_cut 0 (core_of self.old) self.old.store.limits.shard_target file ≢ [] → IsErr result × IfErr result (λ e. IsOtherFile self.old self.new file e ⊎ IsFullError self.old self.new e) }
        ensures unrecorded { OnErr result (self.new.store.records ≡ self.old.store.records) }
        ensures crash { CrashSafe self.old.store self.new.store }
    {
        self.recall_sound();
        self.recall_invariant();
        self.complete_file_by(0, file)
    }

    /// The same for a pass, whose number the entries have.
    pub fn complete_file_by(&mut self, pass: u32, file: MDBFileInfo) -> Result<bool, StoreError>
        requires form { IsFile file }
        ensures can { OnOk result (Completes self.old.store.xorbs file) }
        ensures added { IfOk result (λ added. added ≡ is_new self.old.store.records (file_record_hash file)) }
        ensures steps { OnOk result (Steps self.old self.new (complete_entries pass (core_of self.old) self.old.store.limits.shard_target file)) }
        ensures changes { OnOk result (ChangesFiles [] self.old self.new (complete_entries pass (core_of self.old) self.old.store.limits.shard_target file)) }
        ensures tries { OnErr result (Tries self.old self.new (complete_entries pass (core_of self.old) self.old.store.limits.shard_target file)) }
        // A file that may not be recorded is refused before anything is done.
        ensures other { (Completes self.old.store.xorbs file → ⊥) → IfErr result (λ e. IsOtherFile self.old self.new file e ⊎ ((e ≡ StoreError.OutOfMemory) × (self.new ≡ self.old))) }
        ensures refused { IfErr result (λ e. IsOtherFile self.old self.new file e ⊎ Refuses pass StepKind.Complete (complete_cut pass (core_of self.old) self.old.store.limits.shard_target file) self.old self.new e) }
        ensures unrecorded { OnErr result (self.new.store.records ≡ self.old.store.records) }
    {
        self.history.reserve(2)?;
        self.flushed.reserve(1)?;
        let copy = file.copy(self.alloc)?;
        if !can_complete(self.alloc, self.store.xorbs(), &file)? {
            return Err(StoreError::MalformedData(Reason::OtherFileHash));
        }
        if self.store.record(&file.hash()).is_some() {
            self.history.push_reserved(Entry::Complete {
                pass,
                file,
                added: false,
            });
            return Ok(false);
        }
        record_file(
            &mut self.store,
            &mut self.flushed,
            &mut self.history,
            pass,
            file,
            copy,
        )
    }
}

/// Records a file that is not recorded, with its entry, for which there is room. `copy` is the same record.
fn record_file<D: Disk>(
    store: &mut FolderStore<D>,
    flushed: &mut Vec<Option<Ghost<MDBInMemoryShard>>>,
    history: &mut Vec<Entry>,
    pass: u32,
    file: MDBFileInfo,
    copy: MDBFileInfo,
) -> Result<bool, StoreError>
    requires form { IsNewFile store.old.xorbs file }
    requires new { found store.old.records (file_record_hash file) ≡ None }
    requires copy { copy ≡ file }
    requires count { length flushed.old.items ≡ length store.old.shards }
    requires room { (vec_len flushed.old + 1 ≤ vec_capacity flushed.old) × (vec_len history.old + 2 ≤ vec_capacity history.old) }
    ensures added { IfOk result (λ added. added ≡ true) }
    ensures steps { OnOk result ((files : Files) → Records pass file (recorded_state store.old files (map (option_map (λ g. g.value)) flushed.old.items) history.old.items) (recorded_state store.new files (map (option_map (λ g. g.value)) flushed.new.items) history.new.items)) }
    ensures refused { IfErr result (λ e. (files : Files) → CompleteRefuses pass file (recorded_state store.old files (map (option_map (λ g. g.value)) flushed.old.items) history.old.items) (recorded_state store.new files (map (option_map (λ g. g.value)) flushed.new.items) history.new.items) e) }
    ensures goes { store.old.tells ≡ true → IsSettled store.old.files.entries store.old.folder → GoesBy store.old.files store.new.files store.old.folder (cut_changes store.old (file_record_size file)) result }
    ensures unrecorded { OnErr result (store.new.records ≡ store.old.records) }
    ensures count { length flushed.new.items ≡ length store.new.shards }
{
    cut_store(
        store,
        flushed,
        history,
        pass,
        StepKind::Complete,
        file.num_bytes(),
    )?;
    store.add_file(copy)?;
    history.push_reserved(Entry::Complete {
        pass,
        file,
        added: true,
    });
    Ok(true)
}
