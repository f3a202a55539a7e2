//! Registration of shards with a manager.
#![tactic(auto, using(crate::proofs::Rooms::none_due))]

ghost use Rattle.std.specs.Prelude.{◌≡◌, ◌≤◌, ◌<◌, ◌^◌, ◌⊎◌, [], List, Err, IfErr, IfOk, IsOkUnless, OnErr, OnOk, false, length, true};
ghost use Rattle.xet_shard.specs.Union.{ShardRecords};
ghost use Rattle.xet_shard_directory.specs.Answers.{GivesUnlessDisk};
ghost use Rattle.xet_shard_directory.specs.Writing.{MayAddShard, path_of};
ghost use Rattle.xet_shard_directory.specs.declared.shard_file.MDBShardFile.{MDBShardFile};
ghost use Rattle.xet_shard_flush.specs.Importing.{Imports, IsImportError, KeepsFiles, import_check};
ghost use Rattle.xet_shard_registration.specs.Refreshing.{IsUnloadedAmong, IsUnloadedDirectory, RegistersDirectory, RegistersNewest, RegistersPaths, StopsAmong, StopsInDirectory, StopsInPaths};
ghost use Rattle.xet_shard_registration.specs.Registering.{AddsDue, AddsFirst, Grows, IsFullIfTooLarge, IsGrown, IsRegistrationError, RegistersAll, due, newest_first, registered_all};
ghost use Rattle.xet_shard_registry.specs.Collections.{IsRegistryOf};
ghost use Rattle.xet_shard_registry.specs.Registered.{Registered};

use crate::manager::ShardFileManager;
use std::alloc::Global;
use xet_base::Text;
use xet_hash::StoreError;
use xet_io::Disk;
use xet_shard_directory::MDBShardFile;
use xet_shard_flush::import_shard;
use xet_shard_registration::{register_directory, register_paths, register_shards, replace_shards};

impl<D: Disk> ShardFileManager<D> {
    /// Registers shard files, the newest modification time first; of equal ones the first in the list. A file whose
    /// hash is registered is passed over. `TooLarge(Shards)` if 2^32 - 1 shards are registered and one more is due;
    /// `FileNotFound` if a file is not there; if its chunk lookup table is malformed, the error is that of the first
    /// check that fails; `Io(Disk)` if the disk failed. After an error the files before the one with the error are
    /// registered.
    pub fn register_shards(&mut self, files: &[MDBShardFile]) -> Result<(), StoreError>
        ensures registered { self.old.tells ≡ true → OnOk result (RegistersNewest self.old.settings.index_cap self.old.files files.now self.old.registry self.new.registry) }
        ensures stopped { self.old.tells ≡ true → IfErr result (StopsAmong self.old.settings.index_cap self.old.files files.now self.old.registry self.new.registry) }
        // Also on a disk that is not observable: which files are registered, after those that were and in which order.
        ensures due { OnOk result (AddsDue (newest_first files.now) self.old.registry self.new.registry) }
        ensures front { OnErr result (AddsFirst (newest_first files.now) self.old.registry self.new.registry) }
        ensures grows { Grows self.old.settings.index_cap self.old.registry self.new.registry }
        ensures few { length self.old.registry.files < 2 ^ 32 → length self.new.registry.files < 2 ^ 32 }
        ensures full { IfErr result (IsFullIfTooLarge self.new.registry) }
        ensures rest { self.new ≡ record self.old { registry = self.new.registry; faults = self.new.faults; room = 0 } }
        ensures later { self.old.faults ≤ self.new.faults }
        ensures reason { IfErr result (IsRegistrationError self.old.faults self.new.faults) }
    {
        self.room.clear();
        register_shards(
            self.alloc,
            &mut self.disk,
            &mut self.registry,
            files,
            self.settings.index_cap,
        )
    }

    /// Registers the shard files of all paths that are valid at the time `now`, as `register_shards` does. A path is
    /// that of a folder, or of a shard file if its last part is the name of a shard; `FileNotFound` if that file is not
    /// there. Malformed files are passed over. No file changes.
    pub fn register_shards_by_path(&mut self, paths: &[Text], now: u64) -> Result<(), StoreError>
        ensures registered { self.old.tells ≡ true → OnOk result (RegistersPaths self.old.settings.index_cap self.old.files now paths.now self.old.registry self.new.registry) }
        ensures stopped { self.old.tells ≡ true → IfErr result (λ e. (IsUnloadedAmong self.old.files now paths.now e × (self.new.registry ≡ self.old.registry)) ⊎ StopsInPaths self.old.settings.index_cap self.old.files now paths.now self.old.registry self.new.registry e) }
        ensures grows { Grows self.old.settings.index_cap self.old.registry self.new.registry }
        ensures few { length self.old.registry.files < 2 ^ 32 → length self.new.registry.files < 2 ^ 32 }
        ensures full { IfErr result (IsFullIfTooLarge self.new.registry) }
        ensures done { OnOk result (self.new ≡ record self.old { registry = self.new.registry; faults = self.new.faults; moment = now; room = 0 }) }
        ensures refused { OnErr result (self.new ≡ record self.old { registry = self.new.registry; faults = self.new.faults; room = 0 }) }
        ensures later { self.old.faults ≤ self.new.faults }
        ensures reason { IfErr result (IsRegistrationError self.old.faults self.new.faults) }
    {
        self.room.clear();
        let answer = register_paths(
            self.alloc,
            &mut self.disk,
            &mut self.registry,
            paths,
            self.settings.index_cap,
            now,
        );
        if answer.is_ok() {
            self.moment = now;
        }
        answer
    }

    /// Loads the shard files of the folder that are valid at the time `now`, and registers those that were not. If
    /// `prune_expired`, expired ones are deleted that may be; if `prune_to` is not 0, loaded ones are pruned to it, the
    /// oldest creation first. Malformed files are passed over. After an error some of the files may have been removed
    /// that would have been, and the first shards are registered.
    pub fn refresh_shard_dir(
        &mut self,
        prune_expired: bool,
        prune_to: u64,
        now: u64,
    ) -> Result<(), StoreError>
        ensures registered { self.old.tells ≡ true → OnOk result (RegistersDirectory self.old.settings.index_cap self.old.files self.new.files self.old.folder prune_expired prune_to self.old.settings.buffer now self.old.registry self.new.registry) }
        ensures stopped { self.old.tells ≡ true → IfErr result (λ e. IsUnloadedDirectory self.old.files self.new.files self.old.folder prune_expired prune_to self.old.settings.buffer now self.old.registry self.new.registry e
            ⊎ StopsInDirectory self.old.settings.index_cap self.old.files self.new.files self.old.folder prune_expired prune_to self.old.settings.buffer now self.old.registry self.new.registry e) }
        ensures unchanged { self.old.tells ≡ true → prune_expired ≡ false → prune_to ≡ 0 → self.new.files ≡ self.old.files }
        ensures grows { Grows self.old.settings.index_cap self.old.registry self.new.registry }
        ensures few { length self.old.registry.files < 2 ^ 32 → length self.new.registry.files < 2 ^ 32 }
        ensures full { IfErr result (IsFullIfTooLarge self.new.registry) }
        ensures done { OnOk result (self.new ≡ record self.old { files = self.new.files; registry = self.new.registry; faults = self.new.faults; moment = now; room = 0 }) }
        ensures refused { OnErr result (self.new ≡ record self.old { files = self.new.files; registry = self.new.registry; faults = self.new.faults; room = 0 }) }
        ensures later { self.old.faults ≤ self.new.faults }
        ensures reason { IfErr result (IsRegistrationError self.old.faults self.new.faults) }
    {
        self.room.clear();
        let answer = register_directory(
            self.alloc,
            &mut self.disk,
            &mut self.registry,
            self.folder.as_str(),
            prune_expired,
            prune_to,
            self.settings.buffer,
            self.settings.index_cap,
            now,
        );
        if answer.is_ok() {
            self.moment = now;
        }
        answer
    }

    /// Writes the bytes of a shard into the folder, durably, under the name of their digest, and registers the shard;
    /// if its hash is registered, it is only written. If a file of that name has these bytes, it is only made durable, and
    /// keeps its modification time. Nothing is written if the header, the footer or the chunk lookup table is malformed, or
    /// if 2^32 - 1 shards are registered and one more is due (`TooLarge(Shards)`). `OutOfMemory` also if the path is that of
    /// a registered shard whose file has other bytes, or is gone and had another header or footer: it is not replaced. After
    /// an error the same shards are registered; the file is as it was, or the write has completed.
    pub fn import_shard_from_bytes(&mut self, bytes: &[u8]) -> Result<(), StoreError>
        ensures imported { OnOk result (Imports self.old.tells self.old.settings.index_cap self.old.files self.new.files self.old.folder bytes.now self.old.registry self.new.registry (path_of self.old.folder bytes.now)) }
        ensures checked { GivesUnlessDisk (λ _. tt) result (import_check bytes.now self.old.registry) }
        ensures kept { OnErr result ((shards : List Registered) → IsRegistryOf shards self.old.registry → IsRegistryOf shards self.new.registry) }
        ensures refused { self.old.tells ≡ true → OnErr result (MayAddShard self.old.files self.new.files self.old.folder bytes.now) }
        ensures unwritten { self.old.tells ≡ true → (e : StoreError) → import_check bytes.now self.old.registry ≡ Err e → self.new.files ≡ self.old.files }
        ensures safe { self.old.tells ≡ true → KeepsFiles self.old.files self.new.files self.old.folder bytes.now self.old.registry.files }
        ensures rest { self.new ≡ record self.old { files = self.new.files; registry = self.new.registry; faults = self.new.faults; room = 0 } }
        ensures later { self.old.faults ≤ self.new.faults }
        ensures reason { IfErr result (IsImportError self.old.faults self.new.faults) }
    {
        self.room.clear();
        import_shard(
            self.alloc,
            &mut self.disk,
            self.folder.as_str(),
            &mut self.registry,
            bytes,
            self.settings.index_cap,
        )
    }

    /// Replaces the registered shards by those of these files, in the order of the list; a hash that comes again is
    /// passed over. Errors are those of `register_shards`; after an error the registered shards are unchanged.
    pub fn replace_shards(&mut self, files: &[MDBShardFile]) -> Result<(), StoreError>
        ensures replaced { self.old.tells ≡ true → OnOk result ((records : MDBShardFile → ShardRecords) → RegistersAll self.old.settings.index_cap self.old.files records [] files.now self.new.registry) }
        ensures grown { OnOk result (IsGrown self.old.settings.index_cap self.new.registry) }
        ensures few { OnOk result (length self.new.registry.files < 2 ^ 32) }
        ensures due { OnOk result (self.new.registry.files ≡ due [] files.now) }
        ensures kept { OnErr result (self.new.registry ≡ self.old.registry) }
        ensures refused { self.old.tells ≡ true → IfErr result (λ e. (records : MDBShardFile → ShardRecords) → GivesUnlessDisk (λ (x : List Registered). x) (Err e) (registered_all self.old.settings.index_cap self.old.files records [] files.now)) }
        ensures rest { self.new ≡ record self.old { registry = self.new.registry; faults = self.new.faults; room = 0 } }
        ensures later { self.old.faults ≤ self.new.faults }
        ensures reason { IfErr result (IsRegistrationError self.old.faults self.new.faults) }
    {
        self.room.clear();
        replace_shards(
            self.alloc,
            &mut self.disk,
            &mut self.registry,
            files,
            self.settings.index_cap,
        )
    }

    /// The values of the registered shard files, in order of registration. The only error is `OutOfMemory`.
    pub fn registered_shard_list(&self) -> Result<Vec<MDBShardFile>, StoreError>
        ensures list { IfOk result (λ list. list.items ≡ self.now.registry.files) }
        ensures memory { IsOkUnless result StoreError.OutOfMemory }
    {
        copies(self.alloc, self.registry.files())
    }
}

/// Copies of these values.
fn copies(alloc: Global, files: &[MDBShardFile]) -> Result<Vec<MDBShardFile>, StoreError>
    ensures copies { IfOk result (λ copies. copies.items ≡ files.now) }
    ensures memory { IsOkUnless result StoreError.OutOfMemory }
{
    let mut copies = Vec::with_capacity(alloc, files.len())?;
    for file in files {
        copies.push(file.copy(alloc)?)?;
    }
    Ok(copies)
}
