//! Registration of the shard files of a list.

ghost use Rattle.std.specs.Cmp.Lexicographic.{pointwise};
ghost use Rattle.std.specs.List.{list_any};
ghost use Rattle.std.specs.Prelude.{◌≡◌, ◌++◌, ◌∷◌, ◌^◌, ◌<◌, [], ℕ, List, Err, IfErr, IfOk, Ok, OnErr, OnOk, false, length, map, nat_eq, true};
ghost use Rattle.xet_io.specs.Frame.{Unchanged};
ghost use Rattle.xet_shard.specs.Union.{ShardRecords};
ghost use Rattle.xet_shard_directory.specs.Answers.{GivesUnlessDisk, IsReadError};
ghost use Rattle.xet_shard_directory.specs.declared.shard_file.MDBShardFile.{MDBShardFile};
ghost use Rattle.xet_shard_registration.specs.Registering.{AddsDue, AddsFirst, Grows, IsFullIfTooLarge, IsGrown, IsRegistrationError, RegistersAll, Stops, due, items_in, newest_first, registered_all, registered_one};
ghost use Rattle.xet_shard_registration.specs.internal.Steps.{RegistersOne};
ghost use Rattle.xet_shard_registry.specs.Collections.{IsRegistryOf};
ghost use Rattle.xet_shard_registry.specs.Registered.{Registered, with_shard};

use std::alloc::{AllocError, Global};
use xet_hash::{StoreError, What};
use xet_io::Disk;
use xet_shard_directory::MDBShardFile;
use xet_shard_registry::ShardRegistry;

/// The number of shards that may be registered.
const MAX_SHARDS: usize = 0xffff_ffff;

/// Registers shard files after the registered ones, the newest modification time first; of equal ones the first in the
/// list. A file whose hash is registered is passed over, and its file is not looked at. The chunks of a shard enter the
/// index if it has fewer than `cap` words. `TooLarge(Shards)` if 2^32 - 1 shards are registered and one more is due;
/// `FileNotFound` if a file is not there; if its chunk lookup table is malformed, the error is that of the first check
/// that fails; `Io(Disk)` if the disk failed. After an error the files before the one with the error are registered.
pub fn register_shards<D: Disk>(
    alloc: Global,
    disk: &mut D,
    registry: &mut ShardRegistry,
    files: &[MDBShardFile],
    cap: u64,
) -> Result<(), StoreError>
    ensures registered { D.tells disk.old ≡ true → OnOk result ((shards : List Registered) (records : MDBShardFile → ShardRecords) → IsRegistryOf shards registry.old → RegistersAll cap (D.files disk.old) records shards (newest_first files.now) registry.new) }
    ensures stopped { D.tells disk.old ≡ true → IfErr result (λ e. (shards : List Registered) (records : MDBShardFile → ShardRecords) → IsRegistryOf shards registry.old → Stops cap (D.files disk.old) records shards (newest_first files.now) registry.new e) }
    // Also on a disk that is not observable: which files are registered, after those that were and in which order.
    ensures due { OnOk result (AddsDue (newest_first files.now) registry.old registry.new) }
    ensures front { OnErr result (AddsFirst (newest_first files.now) registry.old registry.new) }
    ensures grows { (shards : List Registered) → IsRegistryOf shards registry.old → (more : List Registered) × IsRegistryOf (shards ++ more) registry.new }
    ensures enters { Grows cap registry.old registry.new }
    ensures few { length registry.old.files < 2 ^ 32 → length registry.new.files < 2 ^ 32 }
    ensures full { IfErr result (IsFullIfTooLarge registry.new) }
    ensures frame { Unchanged D.files D.tells D.faults disk.old disk.new }
    ensures reason { IfErr result (IsRegistrationError (D.faults disk.old) (D.faults disk.new)) }
{
    let ordered = newest_first(alloc, files)?;
    register_in_order(alloc, disk, registry, &ordered, cap)
}

/// Replaces the registered shards by those of these files, in the order of the list; a hash that comes again is passed
/// over. Errors are those of `register_shards`; after an error the registry is unchanged.
pub fn replace_shards<D: Disk>(
    alloc: Global,
    disk: &mut D,
    registry: &mut ShardRegistry,
    files: &[MDBShardFile],
    cap: u64,
) -> Result<(), StoreError>
    ensures replaced { D.tells disk.old ≡ true → OnOk result ((records : MDBShardFile → ShardRecords) → RegistersAll cap (D.files disk.old) records [] files.now registry.new) }
    ensures some { OnOk result ((shards : List Registered) × IsRegistryOf shards registry.new) }
    ensures grown { OnOk result (IsGrown cap registry.new) }
    ensures few { OnOk result (length registry.new.files < 2 ^ 32) }
    ensures due { OnOk result (registry.new.files ≡ due [] files.now) }
    ensures kept { OnErr result (registry.new ≡ registry.old) }
    ensures refused { D.tells disk.old ≡ true → IfErr result (λ e. (records : MDBShardFile → ShardRecords) → GivesUnlessDisk (λ (x : List Registered). x) (Err e) (registered_all cap (D.files disk.old) records [] files.now)) }
    ensures frame { Unchanged D.files D.tells D.faults disk.old disk.new }
    ensures reason { IfErr result (IsRegistrationError (D.faults disk.old) (D.faults disk.new)) }
{
    let listed = references(alloc, files)?;
    match ShardRegistry::new(alloc) {
        Ok(fresh) => replace_by(alloc, disk, registry, fresh, &listed, cap),
        Err(error) => Err(error),
    }
}

/// Registers shard files into an empty registry, and replaces the registry by it.
fn replace_by<D: Disk>(
    alloc: Global,
    disk: &mut D,
    registry: &mut ShardRegistry,
    mut fresh: ShardRegistry,
    files: &[&MDBShardFile],
    cap: u64,
) -> Result<(), StoreError>
    requires empty { IsRegistryOf [] fresh }
    ensures replaced { D.tells disk.old ≡ true → OnOk result ((records : MDBShardFile → ShardRecords) → RegistersAll cap (D.files disk.old) records [] (map (λ s. s.now) files.now) registry.new) }
    ensures some { OnOk result ((shards : List Registered) × IsRegistryOf shards registry.new) }
    ensures grown { OnOk result (IsGrown cap registry.new) }
    ensures few { OnOk result (length registry.new.files < 2 ^ 32) }
    ensures due { OnOk result (registry.new.files ≡ due [] (map (λ s. s.now) files.now)) }
    ensures kept { OnErr result (registry.new ≡ registry.old) }
    ensures refused { D.tells disk.old ≡ true → IfErr result (λ e. (records : MDBShardFile → ShardRecords) → GivesUnlessDisk (λ (x : List Registered). x) (Err e) (registered_all cap (D.files disk.old) records [] (map (λ s. s.now) files.now))) }
    ensures frame { Unchanged D.files D.tells D.faults disk.old disk.new }
    ensures reason { IfErr result (IsRegistrationError (D.faults disk.old) (D.faults disk.new)) }
{
    match register_in_order(alloc, disk, &mut fresh, files, cap) {
        Ok(()) => {
            *registry = fresh;
            Ok(())
        }
        Err(error) => Err(error),
    }
}

/// References to the shard files of a list, the newest modification time first; equal ones keep their order.
fn newest_first(alloc: Global, files: &[MDBShardFile]) -> Result<Vec<&MDBShardFile>, AllocError>
    ensures { IfOk result (λ ordered. map (λ s. s.now) ordered.items ≡ newest_first files.now) }
{
    let mut ordered = references(alloc, files)?;
    ordered.sort_by(|a, b| b.last_modified_time.cmp(&a.last_modified_time))?;
    Ok(ordered)
}

/// References to the shard files of a list, in its order.
fn references(alloc: Global, files: &[MDBShardFile]) -> Result<Vec<&MDBShardFile>, AllocError>
    ensures { IfOk result (λ listed. map (λ s. s.now) listed.items ≡ files.now) }
{
    let mut listed = Vec::with_capacity(alloc, files.len())?;
    for file in files {
        listed.push(file)?;
    }
    Ok(listed)
}

/// Registers shard files, one after the other.
fn register_in_order<D: Disk>(
    alloc: Global,
    disk: &mut D,
    registry: &mut ShardRegistry,
    files: &[&MDBShardFile],
    cap: u64,
) -> Result<(), StoreError>
    ensures registered { D.tells disk.old ≡ true → OnOk result ((shards : List Registered) (records : MDBShardFile → ShardRecords) → IsRegistryOf shards registry.old → RegistersAll cap (D.files disk.old) records shards (map (λ s. s.now) files.now) registry.new) }
    ensures stopped { D.tells disk.old ≡ true → IfErr result (λ e. (shards : List Registered) (records : MDBShardFile → ShardRecords) → IsRegistryOf shards registry.old → Stops cap (D.files disk.old) records shards (map (λ s. s.now) files.now) registry.new e) }
    ensures due { OnOk result (AddsDue (map (λ s. s.now) files.now) registry.old registry.new) }
    ensures front { OnErr result (AddsFirst (map (λ s. s.now) files.now) registry.old registry.new) }
    ensures grows { (shards : List Registered) → IsRegistryOf shards registry.old → (more : List Registered) × IsRegistryOf (shards ++ more) registry.new }
    ensures enters { Grows cap registry.old registry.new }
    ensures few { length registry.old.files < 2 ^ 32 → length registry.new.files < 2 ^ 32 }
    ensures full { IfErr result (IsFullIfTooLarge registry.new) }
    ensures frame { Unchanged D.files D.tells D.faults disk.old disk.new }
    ensures reason { IfErr result (IsRegistrationError (D.faults disk.old) (D.faults disk.new)) }
{
    for file in files {
        register_one(alloc, disk, registry, file, cap)?;
    }
    Ok(())
}

/// Registers one shard file after the registered ones, unless its hash is registered.
fn register_one<D: Disk>(
    alloc: Global,
    disk: &mut D,
    registry: &mut ShardRegistry,
    file: &MDBShardFile,
    cap: u64,
) -> Result<(), StoreError>
    ensures registered { D.tells disk.old ≡ true → OnOk result ((shards : List Registered) (records : MDBShardFile → ShardRecords) → IsRegistryOf shards registry.old → RegistersOne cap (D.files disk.old) records shards file.now registry.new) }
    ensures refused { D.tells disk.old ≡ true → IfErr result (λ e. (shards : List Registered) (records : MDBShardFile → ShardRecords) → IsRegistryOf shards registry.old → GivesUnlessDisk (λ (x : List Registered). x) (Err e) (registered_one cap (D.files disk.old) records shards file.now)) }
    ensures due { OnOk result (AddsDue (file.now ∷ []) registry.old registry.new) }
    ensures same { OnErr result (AddsDue [] registry.old registry.new) }
    ensures kept { OnErr result ((shards : List Registered) → IsRegistryOf shards registry.old → IsRegistryOf shards registry.new) }
    ensures grows { (shards : List Registered) → IsRegistryOf shards registry.old → (more : List Registered) × IsRegistryOf (shards ++ more) registry.new }
    ensures enters { Grows cap registry.old registry.new }
    ensures few { length registry.old.files < 2 ^ 32 → length registry.new.files < 2 ^ 32 }
    ensures full { IfErr result (IsFullIfTooLarge registry.new) }
    ensures frame { Unchanged D.files D.tells D.faults disk.old disk.new }
    ensures reason { IfErr result (IsRegistrationError (D.faults disk.old) (D.faults disk.new)) }
{
    if registry.contains(&file.shard_hash) {
        Ok(())
    } else if registry.files().len() >= MAX_SHARDS {
        Err(StoreError::TooLarge(What::Shards))
    } else {
        register_new(alloc, disk, registry, file, cap)
    }
}

/// Registers a shard file whose hash is not registered.
fn register_new<D: Disk>(
    alloc: Global,
    disk: &mut D,
    registry: &mut ShardRegistry,
    file: &MDBShardFile,
    cap: u64,
) -> Result<(), StoreError>
    requires few { length registry.old.files < 2 ^ 32 }
    requires new { list_any (pointwise nat_eq file.now.shard_hash) registry.old.hashes ≡ false }
    ensures registered { OnOk result ((items : List (ℕ × ℕ × ℕ)) × (D.tells disk.old ≡ true → items_in (D.files disk.old) file.now ≡ Ok items) × ((shards : List Registered) (records : ShardRecords) → IsRegistryOf shards registry.old → IsRegistryOf (with_shard cap shards file.now items records) registry.new)) }
    ensures refused { D.tells disk.old ≡ true → IfErr result (λ e. GivesUnlessDisk (λ (x : List (ℕ × ℕ × ℕ)). x) (Err e) (items_in (D.files disk.old) file.now)) }
    ensures due { OnOk result (AddsDue (file.now ∷ []) registry.old registry.new) }
    ensures files { OnOk result (registry.new.files ≡ registry.old.files ++ file.now ∷ []) }
    ensures same { OnErr result (AddsDue [] registry.old registry.new) }
    ensures kept { OnErr result ((shards : List Registered) → IsRegistryOf shards registry.old → IsRegistryOf shards registry.new) }
    ensures frame { Unchanged D.files D.tells D.faults disk.old disk.new }
    ensures reason { IfErr result (IsReadError (D.faults disk.old) (D.faults disk.new)) }
{
    let items = file.read_all_truncated_hashes(alloc, disk)?;
    let copy = file.copy(alloc)?;
    registry.register(alloc, copy, &items, cap)
}
