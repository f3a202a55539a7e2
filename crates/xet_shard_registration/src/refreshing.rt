//! Registration of the shard files of a folder, and of those of paths.

ghost use Rattle.std.specs.Prelude.{◌≡◌, ◌<◌, ◌^◌, ◌++◌, ◌⊎◌, List, IfErr, IfOk, OnErr, OnOk, false, length, true};
ghost use Rattle.xet_io.specs.Frame.{Stays, Unchanged};
ghost use Rattle.xet_shard_directory.specs.Answers.{IsFindError};
ghost use Rattle.xet_shard_directory.specs.declared.shard_file.MDBShardFile.{MDBShardFile};
ghost use Rattle.xet_shard_registration.specs.Refreshing.{IsUnloadedAmong, IsUnloadedDirectory, LoadsEach, RegistersDirectory, RegistersPaths, StopsInDirectory, StopsInPaths, all_of};
ghost use Rattle.xet_shard_registration.specs.Registering.{Grows, IsFullIfTooLarge, IsRegistrationError};
ghost use Rattle.xet_shard_registry.specs.Collections.{IsRegistryOf};
ghost use Rattle.xet_shard_registry.specs.Registered.{Registered};

use crate::registration::register_shards;
use std::alloc::Global;
use xet_base::Text;
use xet_hash::StoreError;
use xet_io::Disk;
use xet_shard_directory::MDBShardFile;
use xet_shard_registry::ShardRegistry;

/// Loads the shard files of a folder, or the one at this path, that are valid at the time `now`, and registers them as
/// `register_shards` does. Malformed ones are passed over. `MDBShardFile::load_managed_directory` says which expired
/// ones are deleted and which valid ones are pruned; none are if `prune_expired` is false and `prune_to` is 0.
///
/// Errors are those of `register_shards`, and `FileNotFound` if the last part of the path is the name of a shard and
/// there is no such file. Nothing is registered before all files were loaded. After an error some of the files may have
/// been removed that would have been.
pub fn register_directory<D: Disk>(
    alloc: Global,
    disk: &mut D,
    registry: &mut ShardRegistry,
    directory: &str,
    prune_expired: bool,
    prune_to: u64,
    buffer: u64,
    cap: u64,
    now: u64,
) -> Result<(), StoreError>
    ensures registered { D.tells disk.old ≡ true → OnOk result (RegistersDirectory cap (D.files disk.old) (D.files disk.new) directory.now prune_expired prune_to buffer now registry.old registry.new) }
    ensures stopped { D.tells disk.old ≡ true → IfErr result (λ e. IsUnloadedDirectory (D.files disk.old) (D.files disk.new) directory.now prune_expired prune_to buffer now registry.old registry.new e ⊎ StopsInDirectory cap (D.files disk.old) (D.files disk.new) directory.now prune_expired prune_to buffer now registry.old registry.new e) }
    ensures unchanged { D.tells disk.old ≡ true → prune_expired ≡ false → prune_to ≡ 0 → D.files disk.new ≡ D.files disk.old }
    // Also on a disk that is not observable.
    ensures grows { (shards : List Registered) → IsRegistryOf shards registry.old → (more : List Registered) × IsRegistryOf (shards ++ more) registry.new }
    ensures enters { Grows cap registry.old registry.new }
    ensures few { length registry.old.files < 2 ^ 32 → length registry.new.files < 2 ^ 32 }
    ensures full { IfErr result (IsFullIfTooLarge registry.new) }
    ensures frame { Stays D.tells D.faults disk.old disk.new }
    ensures reason { IfErr result (IsRegistrationError (D.faults disk.old) (D.faults disk.new)) }
{
    let loaded = MDBShardFile::load_managed_directory(
        alloc,
        disk,
        directory,
        true,
        false,
        prune_expired,
        prune_to,
        buffer,
        now,
    )?;
    register_shards(alloc, disk, registry, &loaded, cap)
}

/// Loads the shard files of all paths that are valid at the time `now`, as `MDBShardFile::load_all_valid` does, and
/// registers them together as `register_shards` does: of equal modification times, those of the first path come first.
/// No file changes.
///
/// Errors are those of `register_shards`, and `FileNotFound` if the last part of a path is the name of a shard and
/// there is no such file. Nothing is registered before all files were loaded.
pub fn register_paths<D: Disk>(
    alloc: Global,
    disk: &mut D,
    registry: &mut ShardRegistry,
    paths: &[Text],
    cap: u64,
    now: u64,
) -> Result<(), StoreError>
    ensures registered { D.tells disk.old ≡ true → OnOk result (RegistersPaths cap (D.files disk.old) now paths.now registry.old registry.new) }
    ensures stopped { D.tells disk.old ≡ true → IfErr result (λ e. (IsUnloadedAmong (D.files disk.old) now paths.now e × (registry.new ≡ registry.old)) ⊎ StopsInPaths cap (D.files disk.old) now paths.now registry.old registry.new e) }
    // Also on a disk that is not observable.
    ensures grows { (shards : List Registered) → IsRegistryOf shards registry.old → (more : List Registered) × IsRegistryOf (shards ++ more) registry.new }
    ensures enters { Grows cap registry.old registry.new }
    ensures few { length registry.old.files < 2 ^ 32 → length registry.new.files < 2 ^ 32 }
    ensures full { IfErr result (IsFullIfTooLarge registry.new) }
    ensures frame { Unchanged D.files D.tells D.faults disk.old disk.new }
    ensures reason { IfErr result (IsRegistrationError (D.faults disk.old) (D.faults disk.new)) }
{
    let loaded = load_paths(alloc, disk, paths, now)?;
    register_shards(alloc, disk, registry, &loaded, cap)
}

/// The valid shard files of all paths, in the order of the paths.
fn load_paths<D: Disk>(
    alloc: Global,
    disk: &mut D,
    paths: &[Text],
    now: u64,
) -> Result<Vec<MDBShardFile>, StoreError>
    ensures loaded { D.tells disk.old ≡ true → IfOk result (λ loaded. (lists : List (List MDBShardFile)) × LoadsEach (D.files disk.old) now paths.now lists × (loaded.items ≡ all_of lists)) }
    ensures refused { D.tells disk.old ≡ true → IfErr result (IsUnloadedAmong (D.files disk.old) now paths.now) }
    ensures frame { Unchanged D.files D.tells D.faults disk.old disk.new }
    ensures reason { IfErr result (IsFindError (D.faults disk.old) (D.faults disk.new)) }
{
    let mut loaded = Vec::new(alloc);
    match add_paths(alloc, disk, &mut loaded, paths, now) {
        Ok(()) => Ok(loaded),
        Err(error) => Err(error),
    }
}

/// Adds the valid shard files of all paths to a list.
fn add_paths<D: Disk>(
    alloc: Global,
    disk: &mut D,
    loaded: &mut Vec<MDBShardFile>,
    paths: &[Text],
    now: u64,
) -> Result<(), StoreError>
    ensures loaded { D.tells disk.old ≡ true → OnOk result ((lists : List (List MDBShardFile)) × LoadsEach (D.files disk.old) now paths.now lists × (loaded.new.items ≡ loaded.old.items ++ all_of lists)) }
    ensures refused { D.tells disk.old ≡ true → IfErr result (IsUnloadedAmong (D.files disk.old) now paths.now) }
    ensures frame { Unchanged D.files D.tells D.faults disk.old disk.new }
    ensures reason { IfErr result (IsFindError (D.faults disk.old) (D.faults disk.new)) }
{
    for path in paths {
        let mut found = MDBShardFile::load_all_valid(alloc, disk, path.as_str(), now)?;
        loaded.append(&mut found)?;
    }
    Ok(())
}
