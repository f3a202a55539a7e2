//! Import of a shard whose bytes are given.

ghost use Rattle.std.specs.Prelude.{◌≡◌, List, Err, IfErr, IfOk, OnErr, OnOk, Ok, false, nat_eq, string_bytes, true, length, ◌<◌, ◌^◌};
ghost use Rattle.std.specs.Cmp.Lexicographic.{pointwise};
ghost use Rattle.std.specs.List.{list_any};
ghost use Rattle.xet_hash.specs.Merkle.{chunk_hash};
ghost use Rattle.xet_io.specs.Frame.{Stays};
ghost use Rattle.xet_shard.specs.Sections.{info_at};
ghost use Rattle.xet_shard_directory.specs.Answers.{GivesUnlessDisk};
ghost use Rattle.xet_shard_directory.specs.Writing.{MayAddShard, path_of};
ghost use Rattle.xet_shard_flush.specs.Importing.{Imports, IsImportError, KeepsFiles, import_check};
ghost use Rattle.xet_shard_flush.specs.internal.Steps.{IsNewError, SameShards, new_check, new_lookup};
ghost use Rattle.xet_shard_format.specs.Lookups.{flat_places};
ghost use Rattle.xet_shard_registry.specs.Collections.{IsRegistryOf};
ghost use Rattle.xet_shard_registry.specs.Registered.{Registered};

use crate::file::new_file;
use crate::parts::{info_of_bytes, items_of_bytes};
use crate::registering::{MAX_SHARDS, write_known, write_new};
use std::alloc::Global;
use xet_hash::{MerkleHash, StoreError, What, compute_data_hash};
use xet_io::Disk;
use xet_shard::MDBShardInfo;
use xet_shard_registry::ShardRegistry;

/// Writes the bytes of a shard into a folder, durably, under the name of their digest, and registers the shard file
/// after the others; if its hash is registered, it is only written. If a file of that name has these bytes, it is only
/// made durable, and keeps its modification time. Its chunks enter the index if it has fewer than `cap` words. Nothing is
/// written if the header or the footer is malformed, if 2^32 - 1 shards are registered and one more is due
/// (`TooLarge(Shards)`), or if the chunk lookup table is malformed; the error is that of the first check that fails.
/// `OutOfMemory` also if the path is that of a registered shard whose file has other bytes, or is gone and had another
/// header or footer: it is not replaced. All memory is taken before the first write; that is by the code. After an error
/// the same shards are registered; the file is as it was, or the write has completed.
pub fn import_shard<D: Disk>(
    alloc: Global,
    disk: &mut D,
    folder: &str,
    registry: &mut ShardRegistry,
    bytes: &[u8],
    cap: u64,
) -> Result<(), StoreError>
    ensures imported { OnOk result (Imports (D.tells disk.old) cap (D.files disk.old) (D.files disk.new) folder.now bytes.now registry.old registry.new (path_of folder.now bytes.now)) }
    ensures checked { GivesUnlessDisk (λ _. tt) result (import_check bytes.now registry.old) }
    ensures kept { OnErr result ((shards : List Registered) → IsRegistryOf shards registry.old → IsRegistryOf shards registry.new) }
    ensures refused { D.tells disk.old ≡ true → OnErr result (MayAddShard (D.files disk.old) (D.files disk.new) folder.now bytes.now) }
    ensures unwritten { D.tells disk.old ≡ true → (e : StoreError) → import_check bytes.now registry.old ≡ Err e → D.files disk.new ≡ D.files disk.old }
    ensures safe { D.tells disk.old ≡ true → KeepsFiles (D.files disk.old) (D.files disk.new) folder.now bytes.now registry.old.files }
    ensures frame { Stays D.tells D.faults disk.old disk.new }
    ensures reason { IfErr result (IsImportError (D.faults disk.old) (D.faults disk.new)) }
{
    match import_path(alloc, disk, folder, registry, bytes, cap) {
        Ok(_path) => Ok(()),
        Err(error) => Err(error),
    }
}

/// The same. Returns the path.
fn import_path<D: Disk>(
    alloc: Global,
    disk: &mut D,
    folder: &str,
    registry: &mut ShardRegistry,
    bytes: &[u8],
    cap: u64,
) -> Result<String, StoreError>
    ensures imported { IfOk result (λ path. Imports (D.tells disk.old) cap (D.files disk.old) (D.files disk.new) folder.now bytes.now registry.old registry.new (string_bytes path)) }
    ensures checked { GivesUnlessDisk (λ _. tt) result (import_check bytes.now registry.old) }
    ensures kept { OnErr result ((shards : List Registered) → IsRegistryOf shards registry.old → IsRegistryOf shards registry.new) }
    ensures refused { D.tells disk.old ≡ true → OnErr result (MayAddShard (D.files disk.old) (D.files disk.new) folder.now bytes.now) }
    ensures unwritten { D.tells disk.old ≡ true → (e : StoreError) → import_check bytes.now registry.old ≡ Err e → D.files disk.new ≡ D.files disk.old }
    ensures safe { D.tells disk.old ≡ true → KeepsFiles (D.files disk.old) (D.files disk.new) folder.now bytes.now registry.old.files }
    ensures frame { Stays D.tells D.faults disk.old disk.new }
    ensures reason { IfErr result (IsImportError (D.faults disk.old) (D.faults disk.new)) }
{
    let info = info_of_bytes(bytes)?;
    let hash = compute_data_hash(bytes);
    if registry.contains(&hash) {
        let file = new_file(alloc, folder, hash, info)?;
        write_known(disk, registry, file, bytes)
    } else {
        import_new(alloc, disk, folder, registry, bytes, hash, info, cap)
    }
}

/// Writes the bytes of a shard whose hash is not registered, and registers the shard file. Returns the path.
fn import_new<D: Disk>(
    alloc: Global,
    disk: &mut D,
    folder: &str,
    registry: &mut ShardRegistry,
    bytes: &[u8],
    hash: MerkleHash,
    info: MDBShardInfo,
    cap: u64,
) -> Result<String, StoreError>
    requires hash { hash ≡ chunk_hash bytes.now }
    requires info { info_at bytes.now ≡ Ok info }
    requires new { list_any (pointwise nat_eq hash) registry.old.hashes ≡ false }
    ensures imported { IfOk result (λ path. Imports (D.tells disk.old) cap (D.files disk.old) (D.files disk.new) folder.now bytes.now registry.old registry.new (string_bytes path)) }
    ensures checked { GivesUnlessDisk (λ _. tt) result (new_check info.metadata bytes.now registry.old) }
    ensures kept { OnErr result (SameShards registry.old registry.new) }
    ensures refused { D.tells disk.old ≡ true → OnErr result (MayAddShard (D.files disk.old) (D.files disk.new) folder.now bytes.now) }
    ensures unwritten { D.tells disk.old ≡ true → (e : StoreError) → new_check info.metadata bytes.now registry.old ≡ Err e → D.files disk.new ≡ D.files disk.old }
    ensures safe { D.tells disk.old ≡ true → KeepsFiles (D.files disk.old) (D.files disk.new) folder.now bytes.now registry.old.files }
    ensures frame { Stays D.tells D.faults disk.old disk.new }
    ensures reason { IfErr result (IsImportError (D.faults disk.old) (D.faults disk.new)) }
{
    let items = new_items(alloc, registry, &info, bytes)?;
    let file = new_file(alloc, folder, hash, info)?;
    registry.reserve(&file.info.metadata.chunk_hash_hmac_key, &items, cap)?;
    write_new(alloc, disk, registry, file, bytes, &items, cap)
}

/// The chunk lookup table of a shard that is to be registered after the others. `TooLarge(Shards)` if there are too
/// many.
fn new_items(
    alloc: Global,
    registry: &ShardRegistry,
    info: &MDBShardInfo,
    bytes: &[u8],
) -> Result<Vec<(u64, (u32, u32))>, StoreError>
    ensures exact { GivesUnlessDisk (λ v. flat_places v.items) result (new_lookup info.now.metadata bytes.now registry.now) }
    ensures few { OnOk result (length registry.now.files < 2 ^ 32) }
    ensures error { IfErr result IsNewError }
{
    if registry.files().len() >= MAX_SHARDS {
        return Err(StoreError::TooLarge(What::Shards));
    }
    items_of_bytes(alloc, info, bytes)
}
