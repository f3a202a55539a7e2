//! Reading of the shard files at a path: one file, or all files of a folder.

ghost use Rattle.std.specs.Prelude.{◌≡◌, ◌++◌, ℕ, List, All, AllPairs, Any, IfErr, IfOk, IsErrOf, IsOk, IsSome, None, OnOk, false, true};
ghost use Rattle.std.specs.List.{flat_map};
ghost use Rattle.std.specs.List.Sorted.{IsPermutation, IsSorted};
ghost use Rattle.std.specs.Option.{option_to_list};
ghost use Rattle.xet_codec.specs.Stops.{HasDiskReason};
ghost use Rattle.xet_io.specs.Disk.{file_at};
ghost use Rattle.xet_io.specs.Frame.{Unchanged};
ghost use Rattle.xet_shard_directory.specs.Answers.{IsFindError, IsReadError};
ghost use Rattle.xet_shard_directory.specs.Directories.{AllRead, IsBeforeByPath, IsReadAt, IsUnloaded, ReadsFile, ReadsFolder, ReadsPath};
ghost use Rattle.xet_shard_directory.specs.Values.{last_part, loaded};
ghost use Rattle.xet_shard_directory.specs.internal.Folders.{IsListedRead, IsUnread, IsUnreadIn, listed, listed_shard, path_order, shard_in, unless_skipped, unless_vanished};
ghost use Rattle.xet_shard_file.specs.Entries.{IsEntry};
ghost use Rattle.xet_shard_file.specs.Names.{IsHash, shard_path};
ghost use Rattle.xet_shard_format.specs.Names.{shard_name};

use crate::paths::last_part;
use crate::shard_file::{MDBShardFile, load, load_listed};
use std::alloc::{AllocError, Global};
use xet_hash::{MerkleHash, StoreError};
use xet_io::Disk;
use xet_shard::parse_shard_filename;
use xet_shard_file::{ShardEntry, list_shards, recall_bytes, shard_path};

/// The shard files at a path, in ascending order of path: that file, if the last part of the path is the name of a
/// shard, else all shard files of the folder. `FileNotFound` only if that one file is not there. If errors are skipped,
/// a malformed shard file is passed over.
pub(crate) fn read_at_path<D: Disk>(
    alloc: Global,
    disk: &mut D,
    path: &str,
    skip_on_error: bool,
) -> Result<Vec<MDBShardFile>, StoreError>
    ensures told { D.tells disk.old ≡ true → IfOk result (λ read. ReadsPath (D.files disk.old) path.now read.items) }
    ensures order { D.tells disk.old ≡ true → IfOk result (λ read. AllPairs IsBeforeByPath read.items) }
    ensures each { D.tells disk.old ≡ true → IfOk result (λ read. All (IsReadAt (D.files disk.old) path.now) read.items) }
    ensures all { D.tells disk.old ≡ true → skip_on_error ≡ false → OnOk result (AllRead (D.files disk.old) path.now) }
    ensures refused { D.tells disk.old ≡ true → IfErr result (IsUnloaded (D.files disk.old) path.now skip_on_error) }
    ensures skipped { skip_on_error ≡ true → IfErr result (IsFindError (D.faults disk.old) (D.faults disk.new)) }
    ensures absent { IsErrOf result StoreError.FileNotFound → (h : List ℕ) × IsHash h × (last_part path.now ≡ shard_name h) }
    ensures frame { Unchanged D.files D.tells D.faults disk.old disk.new }
    ensures reason { IfErr result (IsReadError (D.faults disk.old) (D.faults disk.new)) }
{
    match parse_shard_filename(last_part(path)) {
        Some(hash) => {
            recall_bytes(&hash);
            read_file(alloc, disk, hash, path, skip_on_error)
        }
        None => read_folder(alloc, disk, path, skip_on_error),
    }
}

/// The shard file at this path, whose name has this hash.
fn read_file<D: Disk>(
    alloc: Global,
    disk: &mut D,
    hash: MerkleHash,
    path: &str,
    skip_on_error: bool,
) -> Result<Vec<MDBShardFile>, StoreError>
    ensures told { D.tells disk.old ≡ true → IfOk result (λ read. ReadsFile (loaded (D.files disk.old) hash path.now) read.items) }
    ensures order { IfOk result (λ read. AllPairs IsBeforeByPath read.items) }
    ensures all { D.tells disk.old ≡ true → skip_on_error ≡ false → OnOk result (IsOk (loaded (D.files disk.old) hash path.now)) }
    ensures refused { D.tells disk.old ≡ true → IfErr result (IsUnread skip_on_error (loaded (D.files disk.old) hash path.now)) }
    ensures absent { D.tells disk.old ≡ true → IsErrOf result StoreError.FileNotFound → file_at (D.files disk.old) path.now ≡ None }
    ensures skipped { skip_on_error ≡ true → IfErr result (IsFindError (D.faults disk.old) (D.faults disk.new)) }
    ensures frame { Unchanged D.files D.tells D.faults disk.old disk.new }
    ensures reason { IfErr result (IsReadError (D.faults disk.old) (D.faults disk.new)) }
{
    match unless_skipped(load(alloc, disk, hash, path), skip_on_error) {
        Ok(found) => Ok(list_of(alloc, found)?),
        Err(error) => Err(error),
    }
}

/// A list of this shard file, or an empty one.
fn list_of(alloc: Global, found: Option<MDBShardFile>) -> Result<Vec<MDBShardFile>, AllocError>
    ensures { IfOk result (λ list. list.items ≡ option_to_list found) }
{
    let mut list = Vec::new(alloc);
    if let Some(shard) = found {
        list.push(shard)?;
    }
    Ok(list)
}

/// All shard files of a folder, in ascending order of path. A folder that does not exist has none.
fn read_folder<D: Disk>(
    alloc: Global,
    disk: &mut D,
    folder: &str,
    skip_on_error: bool,
) -> Result<Vec<MDBShardFile>, StoreError>
    ensures told { D.tells disk.old ≡ true → IfOk result (λ read. ReadsFolder (D.files disk.old) folder.now read.items) }
    ensures all { D.tells disk.old ≡ true → skip_on_error ≡ false → OnOk result ((h : List ℕ) → IsHash h → IsSome (file_at (D.files disk.old) (shard_path folder.now h)) → IsOk (loaded (D.files disk.old) h (shard_path folder.now h))) }
    ensures refused { D.tells disk.old ≡ true → IfErr result (IsUnreadIn (D.files disk.old) folder.now skip_on_error) }
    ensures skipped { skip_on_error ≡ true → IfErr result (HasDiskReason (D.faults disk.old) (D.faults disk.new)) }
    ensures present { IsErrOf result StoreError.FileNotFound → ⊥ }
    ensures frame { Unchanged D.files D.tells D.faults disk.old disk.new }
    ensures reason { IfErr result (IsReadError (D.faults disk.old) (D.faults disk.new)) }
{
    let entries = list_shards(disk, alloc, folder)?;
    let mut shards = Vec::new(alloc);
    match load_entries(alloc, disk, folder, &entries, skip_on_error, &mut shards) {
        Ok(()) => Ok(by_path(shards)),
        Err(error) => Err(error),
    }
}

/// Sorts shard files by path.
pub(crate) fn by_path(mut shards: Vec<MDBShardFile>) -> Vec<MDBShardFile>
    ensures permutation { IsPermutation shards.items result.items }
    ensures sorted { IsSorted path_order result.items }
{
    shards.sort_unstable_by(|a, b| a.path.as_str().cmp(b.path.as_str()));
    shards
}

/// Loads the listed shard files, and adds them to a list.
fn load_entries<D: Disk>(
    alloc: Global,
    disk: &mut D,
    folder: &str,
    entries: &[ShardEntry],
    skip_on_error: bool,
    shards: &mut Vec<MDBShardFile>,
) -> Result<(), StoreError>
    requires { D.tells disk.old ≡ true → All (IsEntry (D.files disk.old) folder.now) entries.now }
    ensures told { D.tells disk.old ≡ true → OnOk result (shards.new.items ≡ shards.old.items ++ flat_map (listed_shard (D.files disk.old) folder.now) entries.now) }
    ensures all { D.tells disk.old ≡ true → skip_on_error ≡ false → OnOk result (All (IsListedRead (D.files disk.old) folder.now) entries.now) }
    ensures refused { D.tells disk.old ≡ true → IfErr result (λ e. Any (λ entry. IsUnread skip_on_error (listed (D.files disk.old) folder.now entry) e) entries.now) }
    ensures skipped { skip_on_error ≡ true → IfErr result (HasDiskReason (D.faults disk.old) (D.faults disk.new)) }
    ensures present { IsErrOf result StoreError.FileNotFound → ⊥ }
    ensures frame { Unchanged D.files D.tells D.faults disk.old disk.new }
    ensures reason { IfErr result (IsReadError (D.faults disk.old) (D.faults disk.new)) }
{
    for entry in entries {
        if let Some(shard) = load_entry(alloc, disk, folder, *entry, skip_on_error)? {
            shards.push(shard)?;
        }
    }
    Ok(())
}

/// A listed shard file of a folder; none if it has vanished, or is malformed and errors are
/// skipped.
fn load_entry<D: Disk>(
    alloc: Global,
    disk: &mut D,
    folder: &str,
    entry: ShardEntry,
    skip_on_error: bool,
) -> Result<Option<MDBShardFile>, StoreError>
    requires { D.tells disk.old ≡ true → IsEntry (D.files disk.old) folder.now entry }
    ensures told { D.tells disk.old ≡ true → IfOk result (λ found. option_to_list found ≡ shard_in (loaded (D.files disk.old) entry.hash (shard_path folder.now entry.hash))) }
    ensures all { D.tells disk.old ≡ true → skip_on_error ≡ false → OnOk result (IsSome (file_at (D.files disk.old) (shard_path folder.now entry.hash)) → IsOk (loaded (D.files disk.old) entry.hash (shard_path folder.now entry.hash))) }
    ensures refused { D.tells disk.old ≡ true → IfErr result (IsUnread skip_on_error (loaded (D.files disk.old) entry.hash (shard_path folder.now entry.hash))) }
    ensures skipped { skip_on_error ≡ true → IfErr result (HasDiskReason (D.faults disk.old) (D.faults disk.new)) }
    ensures present { IsErrOf result StoreError.FileNotFound → ⊥ }
    ensures frame { Unchanged D.files D.tells D.faults disk.old disk.new }
    ensures reason { IfErr result (IsReadError (D.faults disk.old) (D.faults disk.new)) }
{
    let path = shard_path(alloc, folder, &entry.hash)?;
    let answer = load_listed(disk, path, entry);
    unless_vanished(unless_skipped(answer, skip_on_error))
}

/// Passes over a malformed shard file, if errors are skipped.
fn unless_skipped(
    answer: Result<MDBShardFile, StoreError>,
    skip_on_error: bool,
) -> Result<Option<MDBShardFile>, StoreError>
    ensures { result ≡ unless_skipped skip_on_error answer }
{
    match answer {
        Ok(shard) => Ok(Some(shard)),
        Err(StoreError::UnexpectedEof) if skip_on_error => Ok(None),
        Err(StoreError::MalformedData(_)) if skip_on_error => Ok(None),
        Err(error) => Err(error),
    }
}

/// Passes over a file that has vanished since it was listed.
fn unless_vanished(
    answer: Result<Option<MDBShardFile>, StoreError>,
) -> Result<Option<MDBShardFile>, StoreError>
    ensures { result ≡ unless_vanished answer }
{
    match answer {
        Err(StoreError::FileNotFound) => Ok(None),
        answer => answer,
    }
}
