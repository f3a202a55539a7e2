//! A shard is written to its file, and registered.

ghost use Rattle.std.specs.Prelude.{◌≡◌, List, ℕ, IfErr, IfOk, OnErr, Ok, nat_eq, string_bytes, true};
ghost use Rattle.std.specs.Cmp.Lexicographic.{pointwise};
ghost use Rattle.std.specs.List.{list_any};
ghost use Rattle.xet_codec.specs.Stops.{HasDiskReason};
ghost use Rattle.xet_io.specs.Frame.{Stays};
ghost use Rattle.xet_shard.specs.Sections.{chunk_lookup_in};
ghost use Rattle.xet_shard_directory.specs.Writing.{MayAddShard, path_of};
ghost use Rattle.xet_shard_flush.specs.Importing.{Imports, KeepsFiles};
ghost use Rattle.xet_shard_flush.specs.internal.Steps.{HasRoom, IsFileOf, SameShards};
ghost use Rattle.xet_shard_format.specs.Lookups.{flat_places};

use crate::file::{NewFile, write_free};
use std::alloc::Global;
use xet_hash::StoreError;
use xet_io::Disk;
use xet_shard_registry::ShardRegistry;

/// The maximum number of registered shards.
pub(crate) const MAX_SHARDS: usize = (1 << 32) - 1;

/// Writes the bytes of a shard whose hash is registered. Returns the path.
pub(crate) fn write_known<D: Disk>(
    disk: &mut D,
    registry: &ShardRegistry,
    file: NewFile,
    bytes: &[u8],
) -> Result<String, StoreError>
    requires file { IsFileOf bytes.now file }
    requires known { list_any (pointwise nat_eq file.hash) registry.now.hashes ≡ true }
    ensures imported { (folder : List ℕ) (cap : ℕ) → file.path ≡ path_of folder bytes.now → IfOk result (λ path. Imports (D.tells disk.old) cap (D.files disk.old) (D.files disk.new) folder bytes.now registry.now registry.now (string_bytes path)) }
    ensures refused { D.tells disk.old ≡ true → (folder : List ℕ) → file.path ≡ path_of folder bytes.now → OnErr result (MayAddShard (D.files disk.old) (D.files disk.new) folder bytes.now) }
    ensures safe { D.tells disk.old ≡ true → (folder : List ℕ) → file.path ≡ path_of folder bytes.now → KeepsFiles (D.files disk.old) (D.files disk.new) folder bytes.now registry.now.files }
    ensures frame { Stays D.tells D.faults disk.old disk.new }
    ensures reason { IfErr result (HasDiskReason (D.faults disk.old) (D.faults disk.new)) }
{
    match write_free(disk, registry, file, bytes) {
        Ok((_, path)) => Ok(path),
        Err(error) => Err(error),
    }
}

/// Writes the bytes of a shard whose hash is not registered, and registers the shard file with the items of its chunk
/// lookup table. Returns the path.
pub(crate) fn write_new<D: Disk>(
    alloc: Global,
    disk: &mut D,
    registry: &mut ShardRegistry,
    file: NewFile,
    bytes: &[u8],
    items: &[(u64, (u32, u32))],
    cap: u64,
) -> Result<String, StoreError>
    requires file { IsFileOf bytes.now file }
    requires read { chunk_lookup_in file.info.metadata bytes.now ≡ Ok (flat_places items.now) }
    requires room { HasRoom file.hash registry.old }
    ensures imported { (folder : List ℕ) → file.path ≡ path_of folder bytes.now → IfOk result (λ path. Imports (D.tells disk.old) cap (D.files disk.old) (D.files disk.new) folder bytes.now registry.old registry.new (string_bytes path)) }
    ensures kept { OnErr result (SameShards registry.old registry.new) }
    ensures refused { D.tells disk.old ≡ true → (folder : List ℕ) → file.path ≡ path_of folder bytes.now → OnErr result (MayAddShard (D.files disk.old) (D.files disk.new) folder bytes.now) }
    ensures safe { D.tells disk.old ≡ true → (folder : List ℕ) → file.path ≡ path_of folder bytes.now → KeepsFiles (D.files disk.old) (D.files disk.new) folder bytes.now registry.old.files }
    ensures frame { Stays D.tells D.faults disk.old disk.new }
    ensures reason { IfErr result (HasDiskReason (D.faults disk.old) (D.faults disk.new)) }
{
    match write_free(disk, registry, file, bytes) {
        Ok((written, path)) => match registry.register(alloc, written, items, cap) {
            Ok(()) => Ok(path),
            Err(error) => Err(error),
        },
        Err(error) => Err(error),
    }
}
