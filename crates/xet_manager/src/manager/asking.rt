//! What a manager answers: queries, file records, and lists.
#![tactic(auto, using(crate::proofs::Rooms::none_due))]

ghost use Rattle.std.specs.Prelude.{◌≡◌, ◌≢◌, ◌≤◌, ◌++◌, [], ℕ, IsOkUnless, List, None, Some, Ok, IfErr, IfOk, IfSome, IsErrOf, OnErr, OnOk, false, is_some, true};
ghost use Rattle.std.specs.List.{flat_map};
ghost use Rattle.xet_io.specs.Frame.{Unchanged};
ghost use Rattle.xet_manager.specs.Manager.{FailsAt, IsUnlisted, ListsFiles, ListsFolder, ReadsEach};
ghost use Rattle.xet_shard_directory.specs.Answers.{GivesUnlessDisk, IsFileQueryError, IsFindError, IsQueryError, IsReadError};
ghost use Rattle.xet_shard_directory.specs.Directories.{Cleans, IsUnloaded, KeptOrCleaned};
ghost use Rattle.xet_shard_directory.specs.Values.{last_part};
ghost use Rattle.xet_shard_file.specs.Names.{IsHash};
ghost use Rattle.xet_shard_format.specs.Names.{shard_name};
ghost use Rattle.xet_shard.specs.Held.{record_of};
ghost use Rattle.xet_shard.specs.RunForms.{IsRunFor};
ghost use Rattle.xet_shard.specs.Runs.{held_run};
ghost use Rattle.xet_shard_format.specs.Records.{file_record_hash};
ghost use Rattle.xet_shard_format.specs.declared.record.MDBFileInfo.{MDBFileInfo};
ghost use Rattle.xet_hash.specs.Hash.{zero_hash};
ghost use Rattle.xet_shard_lookup.specs.Found.{HoldsFiles, IsThere, Run, found};
ghost use Rattle.xet_shard_lookup.specs.Records.{IsRecorded, found_record, no_record};
ghost use Rattle.xet_shard_registry.specs.Collections.{IsRegistryOf};
ghost use Rattle.xet_shard_index.specs.Places.{IsIndexOf};
ghost use Rattle.xet_shard_registry.specs.Registered.{Registered, indexed, is_key_of};

use crate::manager::ShardFileManager;
use std::alloc::Global;
use xet_hash::{HMACKey, MerkleHash, StoreError};
use xet_io::Disk;
use xet_shard::{FileDataSequenceEntry, MDBFileInfo, MDBInMemoryShard};
use xet_shard_directory::MDBShardFile;
use xet_shard_index::PackedIndex;
use xet_shard_lookup::{find_file, find_run};

impl<D: Disk> ShardFileManager<D> {
    /// How many of the first hashes of a query are those of consecutive chunks of a xorb, and the segment of these
    /// chunks. What is pending is asked first, then the registered shards, those of one key after those of another:
    /// first the shards without a key. Of each key the last chunk is asked that has the first word of the query's first
    /// hash, in the last shard that is indexed and has one; it answers if it has the whole hash. A shard whose file is
    /// gone does not answer. None if there is no answer, or if the query is empty. `Io(Disk)` if the disk failed;
    /// `UnexpectedEof` or `MalformedData` only if the file of a registered shard is not an encoding of it.
    pub fn chunk_hash_dedup_query(
        &mut self,
        query: &[MerkleHash],
    ) -> Result<Option<(usize, FileDataSequenceEntry)>, StoreError>
        ensures found { self.old.tells ≡ true → (shards : List Registered) → IsRegistryOf shards self.old.registry → HoldsFiles self.old.files shards
            → GivesUnlessDisk (λ run. run) result (Ok (found self.old.files self.old.pending shards query.now)) }
        // Nothing else is asked for an empty query, or if the run is pending.
        ensures empty { query.now ≡ [] → (result ≡ Ok None) × (self.new ≡ self.old) }
        ensures pending { (run : Run) → held_run self.old.pending.blocks query.now ≡ Some run → (result ≡ Ok (Some run)) × (self.new ≡ self.old) }
        // Also over files that are not those of the registered shards: a file's rows have the whole hashes of the run.
        ensures there { self.old.tells ≡ true → IfOk result (IsThere self.old.files self.old.pending self.old.registry.files query.now) }
        ensures shape { IfOk result (λ run. IfSome run (IsRunFor query.now)) }
        ensures rest { self.new ≡ record self.old { faults = self.new.faults } }
        ensures later { self.old.faults ≤ self.new.faults }
        ensures reason { IfErr result (IsQueryError self.old.faults self.new.faults) }
    {
        find_run(
            self.alloc,
            &mut self.disk,
            &self.pending,
            &self.registry,
            query,
        )
    }

    /// The index of the registered shards with a key, or of those without one if it is zero. The place of a first word is
    /// that of the last chunk with it in the last of these shards that is indexed and has one; a shard has its number
    /// among them. None if and only if the key is not zero and no registered shard has it.
    pub fn index(&self, key: &HMACKey) -> Option<&PackedIndex>
        ensures index { (shards : List Registered) → IsRegistryOf shards self.now.registry → IfSome result (λ index. IsIndexOf index.now (indexed key.now shards)) }
        ensures exact { (shards : List Registered) → IsRegistryOf shards self.now.registry → is_some result ≡ is_key_of key.now shards }
    {
        self.registry.index(key)
    }

    /// The file record of a hash, and the hash of the registered shard that has it; `None` for the latter if it is
    /// pending. What is pending is asked first, then the registered shards in order of registration, those of one key
    /// after those of another: first the shards without a key. A shard whose file is gone has no records. For a zero
    /// hash the answer is the record without segments, and nothing is looked up. `TruncatedHashCollision` if eight
    /// files of a shard that is asked share the first word of the hash; the other errors are those of
    /// `chunk_hash_dedup_query`.
    pub fn get_file_reconstruction_info(
        &mut self,
        hash: &MerkleHash,
    ) -> Result<Option<(MDBFileInfo, Option<MerkleHash>)>, StoreError>
        ensures found { self.old.tells ≡ true → (shards : List Registered) → IsRegistryOf shards self.old.registry → HoldsFiles self.old.files shards
            → GivesUnlessDisk (λ answer. answer) result (found_record self.old.files self.old.pending shards hash.now) }
        // Nothing else is asked for a zero hash, or if the file is pending.
        ensures zero { hash.now ≡ zero_hash → (result ≡ Ok (Some (no_record, None))) × (self.new ≡ self.old) }
        ensures pending { hash.now ≢ zero_hash → (f : MDBFileInfo) → record_of file_record_hash hash.now self.old.pending.files ≡ Some f → IfOk result (λ answer. answer ≡ Some (f, None)) × IsOkUnless result StoreError.OutOfMemory × (self.new ≡ self.old) }
        // Also over files that are not those of the registered shards: the rows of a file have the record.
        ensures there { self.old.tells ≡ true → IfOk result (IsRecorded self.old.files self.old.pending self.old.registry.files hash.now) }
        ensures rest { self.new ≡ record self.old { faults = self.new.faults } }
        ensures later { self.old.faults ≤ self.new.faults }
        ensures reason { IfErr result (IsFileQueryError self.old.faults self.new.faults) }
    {
        find_file(
            self.alloc,
            &mut self.disk,
            &self.pending,
            &self.registry,
            hash,
        )
    }

    /// The records of the pending files in ascending order of hash, and then those of the shard files of the folder
    /// that are valid at the time `now`, in ascending order of path. Malformed headers and footers are passed over; if
    /// a section of files is malformed, the error is that of the first check that fails. No file changes.
    pub fn all_file_info(&mut self, now: u64) -> Result<Vec<MDBFileInfo>, StoreError>
        ensures list { self.old.tells ≡ true → IfOk result (λ infos. ListsFiles self.old now infos.items) }
        ensures unlisted { self.old.tells ≡ true → IfErr result (IsUnlisted self.old.files self.old.folder now) }
        ensures done { OnOk result (self.new ≡ record self.old { faults = self.new.faults; moment = now; room = 0 }) }
        ensures refused { OnErr result (self.new ≡ record self.old { faults = self.new.faults }) }
        ensures later { self.old.faults ≤ self.new.faults }
        ensures reason { IfErr result (IsReadError self.old.faults self.new.faults) }
    {
        let answer = list_files(
            self.alloc,
            &mut self.disk,
            &self.pending,
            self.folder.as_str(),
            now,
        );
        if answer.is_ok() {
            self.room.clear();
            self.moment = now;
        }
        answer
    }

    /// At its first call that returns Ok, removes the shard files of the folder that may be deleted at the time `now`:
    /// those whose expiry was the settings' buffer of seconds ago or earlier. Malformed ones are passed over. Later
    /// calls change no file. After an error some of the files may have been removed that would have been.
    pub fn clean_expired_shards_if_needed(&mut self, now: u64) -> Result<(), StoreError>
        ensures cleaned { self.old.tells ≡ true → self.old.cleaned ≡ false → OnOk result (Cleans self.old.files self.new.files self.old.folder self.old.settings.buffer now) }
        ensures once { self.old.cleaned ≡ true → (result ≡ Ok tt) × (self.new ≡ record self.old { moment = now; room = 0 }) }
        ensures unloaded { self.old.tells ≡ true → IfErr result (IsUnloaded self.old.files self.old.folder true) }
        ensures absent { IsErrOf result StoreError.FileNotFound → (h : List ℕ) × IsHash h × (last_part self.old.folder ≡ shard_name h) }
        ensures kept { self.old.tells ≡ true → OnErr result (KeptOrCleaned self.old.files self.new.files self.old.folder self.old.settings.buffer now) }
        ensures done { OnOk result (self.new ≡ record self.old { files = self.new.files; faults = self.new.faults; cleaned = true; moment = now; room = 0 }) }
        ensures refused { OnErr result (self.new ≡ record self.old { files = self.new.files; faults = self.new.faults }) }
        ensures later { self.old.faults ≤ self.new.faults }
        ensures reason { IfErr result (IsFindError self.old.faults self.new.faults) }
    {
        if self.cleaned {
            self.room.clear();
            self.moment = now;
            return Ok(());
        }
        let answer = MDBShardFile::clean_shard_cache(
            self.alloc,
            &mut self.disk,
            self.folder.as_str(),
            self.settings.buffer,
            now,
        );
        if answer.is_ok() {
            self.cleaned = true;
            self.room.clear();
            self.moment = now;
        }
        answer
    }
}

/// The records of the pending files, and then those of the valid shard files of a folder.
fn list_files<D: Disk>(
    alloc: Global,
    disk: &mut D,
    pending: &MDBInMemoryShard,
    folder: &str,
    now: u64,
) -> Result<Vec<MDBFileInfo>, StoreError>
    ensures unlisted { D.tells disk.old ≡ true → IfErr result (IsUnlisted (D.files disk.old) folder.now now) }
    ensures list { D.tells disk.old ≡ true → IfOk result (λ infos. ListsFolder (D.files disk.old) folder.now now pending.now infos.items) }
    ensures frame { Unchanged D.files D.tells D.faults disk.old disk.new }
    ensures reason { IfErr result (IsReadError (D.faults disk.old) (D.faults disk.new)) }
{
    let valid = MDBShardFile::load_all_valid(alloc, disk, folder, now)?;
    let mut infos = pending.all_file_info(alloc)?;
    match add_files(alloc, disk, &valid, &mut infos) {
        Ok(()) => Ok(infos),
        Err(error) => Err(error),
    }
}

/// Adds the records of these shard files to a list.
fn add_files<D: Disk>(
    alloc: Global,
    disk: &mut D,
    shards: &[MDBShardFile],
    infos: &mut Vec<MDBFileInfo>,
) -> Result<(), StoreError>
    ensures added { D.tells disk.old ≡ true → OnOk result ((lists : List (List MDBFileInfo)) × ReadsEach (D.files disk.old) shards.now lists × (infos.new.items ≡ infos.old.items ++ flat_map (λ l. l) lists)) }
    ensures failed { D.tells disk.old ≡ true → IfErr result (FailsAt (D.files disk.old) shards.now) }
    ensures frame { Unchanged D.files D.tells D.faults disk.old disk.new }
    ensures reason { IfErr result (IsReadError (D.faults disk.old) (D.faults disk.new)) }
{
    for shard in shards {
        let mut found = shard.read_all_file_info_sections(alloc, disk)?;
        infos.append(&mut found)?;
    }
    Ok(())
}

/// What looks up the records of files by their hashes.
pub trait FileReconstructor<E> {
    ghost use Rattle.std.specs.Prelude.{List, ℕ, Option, Result};
    ghost use Rattle.xet_shard_format.specs.declared.record.MDBFileInfo.{MDBFileInfo};

    // What a call returns and leaves.
    ghost IsAnswer: { Self → Self → List ℕ → Result (Option (MDBFileInfo × Option (List ℕ))) E → Type 0 };

    /// The record of a hash, and the hash of the shard that has it; `None` for the latter if it is in no shard yet.
    /// None if there is no record.
    fn get_file_reconstruction_info(
        &mut self,
        hash: &MerkleHash,
    ) -> Result<Option<(MDBFileInfo, Option<MerkleHash>)>, E>
        ensures { IsAnswer self.old self.new hash.now result };
}

impl<D: Disk> FileReconstructor<StoreError> for ShardFileManager<D> {
    ghost use Rattle.xet_manager.specs.Manager.{IsFileAnswer};

    ghost IsAnswer = { IsFileAnswer };

    fn get_file_reconstruction_info(
        &mut self,
        hash: &MerkleHash,
    ) -> Result<Option<(MDBFileInfo, Option<MerkleHash>)>, StoreError> {
        ShardFileManager::get_file_reconstruction_info(self, hash)
    }
}
