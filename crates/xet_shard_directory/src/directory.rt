//! Folders of shard files: loading, expiry and pruning.

ghost use Rattle.std.specs.Prelude.{◌≡◌, ℕ, List, All, AllPairs, filter, take, false, true, IfErr, IfOk, IsErrOf, OnErr, OnOk};
ghost use Rattle.xet_codec.specs.Stops.{HasDiskReason};
ghost use Rattle.xet_io.specs.Frame.{Stays, Unchanged};
ghost use Rattle.xet_shard_directory.specs.Answers.{IsFindError, IsReadError};
ghost use Rattle.xet_shard_directory.specs.Directories.{AllRead, Cleans, IsBeforeByPath, IsReadAt, IsUnloaded, KeptOrCleaned, KeptOrRemoved, Loads, ReadsPath, all_removed, is_valid, paths};
ghost use Rattle.xet_shard_directory.specs.Values.{last_part};
ghost use Rattle.xet_shard_directory.specs.Writing.{IsFormatError};
ghost use Rattle.xet_shard_directory.specs.declared.shard_file.MDBShardFile.{MDBShardFile};
ghost use Rattle.xet_shard_file.specs.Names.{IsHash};
ghost use Rattle.xet_shard_format.specs.Names.{shard_name};

use crate::folder::read_at_path;
use crate::pruning::{deletable, planned, valid};
use crate::shard_file::MDBShardFile;
use std::alloc::Global;
use xet_codec::store_error;
use xet_hash::StoreError;
use xet_io::Disk;

impl MDBShardFile {
    /// The shard files of a folder, in ascending order of path. A folder that does not exist has none. If the last part
    /// of the path is the name of a shard, the path is that one file, and `FileNotFound` is returned if it is not there.
    ///
    /// Loaded are the shards that are valid at the time `now`, that is up to their expiry, and with `load_expired` the
    /// others too. With `prune_expired` those that are not loaded are deleted from `buffer` seconds after their expiry
    /// on; this sum is at most 2^64 - 1. If `prune_to` is not 0, loaded shards are pruned too, the oldest creation first
    /// and equal ones by path, until the lengths that the footers of the others state sum to at most `prune_to` bytes.
    /// Times are in seconds since the Unix epoch.
    ///
    /// A malformed header or footer is an error, or with `skip_on_error` that file is passed over; it is never removed.
    /// The disk's failures are always errors. Nothing is removed before all files were read; after an error some of the
    /// files may have been removed that would have been.
    pub fn load_managed_directory<D: Disk>(
        alloc: Global,
        disk: &mut D,
        path: &str,
        skip_on_error: bool,
        load_expired: bool,
        prune_expired: bool,
        prune_to: u64,
        buffer: u64,
        now: u64,
    ) -> Result<Vec<MDBShardFile>, StoreError>
        ensures loaded { D.tells disk.old ≡ true → IfOk result (λ shards. Loads (D.files disk.old) (D.files disk.new) path.now load_expired prune_expired prune_to buffer now shards.items) }
        ensures all { D.tells disk.old ≡ true → skip_on_error ≡ false → OnOk result (AllRead (D.files disk.old) path.now) }
        ensures kept { D.tells disk.old ≡ true → OnErr result (KeptOrRemoved (D.files disk.old) (D.files disk.new) path.now load_expired prune_expired prune_to buffer now) }
        ensures refused { D.tells disk.old ≡ true → IfErr result (IsUnloaded (D.files disk.old) path.now skip_on_error) }
        ensures unchanged { IfErr result (λ e. IsFormatError e → D.files disk.new ≡ D.files disk.old) }
        ensures skipped { skip_on_error ≡ true → IfErr result (IsFindError (D.faults disk.old) (D.faults disk.new)) }
        ensures absent { IsErrOf result StoreError.FileNotFound → (h : List ℕ) × IsHash h × (last_part path.now ≡ shard_name h) }
        ensures frame { Stays D.tells D.faults disk.old disk.new }
        ensures reason { IfErr result (IsReadError (D.faults disk.old) (D.faults disk.new)) }
    {
        let read = read_at_path(alloc, disk, path, skip_on_error)?;
        let plan = planned(
            alloc,
            read,
            load_expired,
            prune_expired,
            prune_to,
            buffer,
            now,
        )?;
        match remove_all(disk, &plan.removed) {
            Ok(()) => Ok(plan.kept),
            Err(error) => Err(error),
        }
    }

    /// The shard files of a folder, or the one at this path, that are valid at the time `now`, in ascending order of
    /// path. Malformed ones are passed over. No file changes.
    pub fn load_all_valid<D: Disk>(
        alloc: Global,
        disk: &mut D,
        path: &str,
        now: u64,
    ) -> Result<Vec<MDBShardFile>, StoreError>
        ensures told { D.tells disk.old ≡ true → IfOk result (λ shards. (read : List MDBShardFile) × ReadsPath (D.files disk.old) path.now read × (shards.items ≡ filter (is_valid now) read)) }
        ensures order { D.tells disk.old ≡ true → IfOk result (λ shards. AllPairs IsBeforeByPath shards.items) }
        ensures each { D.tells disk.old ≡ true → IfOk result (λ shards. All (IsReadAt (D.files disk.old) path.now) shards.items) }
        ensures refused { D.tells disk.old ≡ true → IfErr result (IsUnloaded (D.files disk.old) path.now true) }
        ensures absent { IsErrOf result StoreError.FileNotFound → (h : List ℕ) × IsHash h × (last_part path.now ≡ shard_name h) }
        ensures frame { Unchanged D.files D.tells D.faults disk.old disk.new }
        ensures reason { IfErr result (IsFindError (D.faults disk.old) (D.faults disk.new)) }
    {
        let read = read_at_path(alloc, disk, path, true)?;
        Ok(valid(read, now))
    }

    /// Removes the shard files of a folder, or the one at this path, that may be deleted at the time `now`: those whose
    /// expiry was `buffer` seconds ago or earlier; the sum of the two is at most 2^64 - 1. Malformed ones are passed over.
    /// After an error some of the files may have been removed that would have been.
    pub fn clean_shard_cache<D: Disk>(
        alloc: Global,
        disk: &mut D,
        path: &str,
        buffer: u64,
        now: u64,
    ) -> Result<(), StoreError>
        ensures cleaned { D.tells disk.old ≡ true → OnOk result (Cleans (D.files disk.old) (D.files disk.new) path.now buffer now) }
        ensures kept { D.tells disk.old ≡ true → OnErr result (KeptOrCleaned (D.files disk.old) (D.files disk.new) path.now buffer now) }
        ensures refused { D.tells disk.old ≡ true → IfErr result (IsUnloaded (D.files disk.old) path.now true) }
        ensures absent { IsErrOf result StoreError.FileNotFound → (h : List ℕ) × IsHash h × (last_part path.now ≡ shard_name h) }
        ensures frame { Stays D.tells D.faults disk.old disk.new }
        ensures reason { IfErr result (IsFindError (D.faults disk.old) (D.faults disk.new)) }
    {
        let read = read_at_path(alloc, disk, path, true)?;
        remove_all(disk, &deletable(read, buffer, now))
    }
}

/// Removes the files of these shards, one after the other; one that is not there is passed over. After an error the first
/// ones may have been removed.
pub fn remove_all<D: Disk>(disk: &mut D, shards: &[MDBShardFile]) -> Result<(), StoreError>
    ensures removed { D.tells disk.old ≡ true → OnOk result (D.files disk.new ≡ all_removed (D.files disk.old) (paths shards.now)) }
    ensures kept { D.tells disk.old ≡ true → OnErr result ((n : ℕ) × (D.files disk.new ≡ all_removed (D.files disk.old) (take n (paths shards.now)))) }
    ensures frame { Stays D.tells D.faults disk.old disk.new }
    ensures reason { IfErr result (HasDiskReason (D.faults disk.old) (D.faults disk.new)) }
{
    for shard in shards {
        if let Err(refusal) = disk.remove(shard.path.as_str()) {
            return Err(store_error(refusal));
        }
    }
    Ok(())
}
