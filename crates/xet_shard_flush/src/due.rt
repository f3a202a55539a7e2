//! A shard of what is pending that is due to be written.

ghost use Rattle.std.specs.Prelude.{◌≡◌, List, ℕ, Err, IfErr, IfOk, IsOkUnless, OnErr, OnOk, string_bytes, true};
ghost use Rattle.xet_io.specs.Frame.{Stays};
ghost use Rattle.xet_shard_directory.specs.Answers.{GivesUnlessDisk};
ghost use Rattle.xet_shard_directory.specs.Writing.{MayAddShard, path_of};
ghost use Rattle.xet_shard_flush.specs.Due.{IsDue};
ghost use Rattle.xet_shard_flush.specs.Importing.{Imports, IsFlushError, KeepsFiles, flush_check};
ghost use Rattle.xet_shard_flush.specs.internal.Steps.{SameShards};
ghost use Rattle.xet_shard_registry.specs.Collections.{IsRegistryOf};
ghost use Rattle.xet_shard_registry.specs.Registered.{Registered};

use crate::file::{NewFile, new_file};
use crate::parts::items_of_bytes;
use crate::registering::{MAX_SHARDS, write_known, write_new};
use std::alloc::Global;
use std::marker::Model;
use xet_hash::{StoreError, What, compute_data_hash};
use xet_io::Disk;
use xet_shard::MDBInMemoryShard;
use xet_shard::laws::parts_are_read;
use xet_shard_registry::ShardRegistry;

/// A shard that is due to be written, with all that is needed for it: its bytes, its chunk lookup table, and the names of
/// its file. Contracts see its bytes and its path.
#[derive(Drop)]
pub struct DueShard {
    encoding: Vec<u8>,
    items: Vec<(u64, (u32, u32))>,
    file: NewFile,
}

impl Model for DueShard {
    ghost use Rattle.std.specs.Prelude.{◌≡◌, Ok};
    ghost use Rattle.xet_shard.specs.Sections.{chunk_lookup_in};
    ghost use Rattle.xet_shard_flush.specs.Due.{Due};
    ghost use Rattle.xet_shard_flush.specs.internal.Steps.{IsFileOf};
    ghost use Rattle.xet_shard_format.specs.Lookups.{flat_places};

    ghost Value = { Due };

    ghost view = { λ d. record { bytes = d.encoding.items; path = d.file.path } };

    ghost invariant = { λ d. IsFileOf d.encoding.items d.file × (chunk_lookup_in d.file.info.metadata d.encoding.items ≡ Ok (flat_places d.items.items)) };
}

/// Takes the memory for `flush_prepared` (by the code), and writes nothing: encodes what is pending as a shard that is created at `moment`
/// and does not expire. The file is to be in a folder. The only error is `StoreError::OutOfMemory`. The same shards are
/// registered in either case.
pub fn prepare_flush(
    alloc: Global,
    folder: &str,
    registry: &mut ShardRegistry,
    pending: &MDBInMemoryShard,
    cap: u64,
    moment: u64,
) -> Result<DueShard, StoreError>
    ensures due { IfOk result (IsDue folder.now pending.now moment) }
    ensures kept { (shards : List Registered) → IsRegistryOf shards registry.old → IsRegistryOf shards registry.new }
    ensures files { registry.new.files ≡ registry.old.files }
    ensures hashes { registry.new.hashes ≡ registry.old.hashes }
    ensures memory { IsOkUnless result StoreError.OutOfMemory }
{
    parts_are_read();
    let (encoding, info) = pending.shard_bytes(alloc, moment, None)?;
    let items = items_of_bytes(alloc, &info, &encoding)?;
    let file = new_file(alloc, folder, compute_data_hash(&encoding), info)?;
    registry.reserve(&file.info.metadata.chunk_hash_hmac_key, &items, cap)?;
    Ok(DueShard {
        encoding,
        items,
        file,
    })
}

/// Writes a shard that is due, registers it, and replaces what is pending by `next`. Returns the path.
pub(crate) fn write_due<D: Disk>(
    alloc: Global,
    disk: &mut D,
    registry: &mut ShardRegistry,
    pending: &mut MDBInMemoryShard,
    due: DueShard,
    next: MDBInMemoryShard,
    cap: u64,
) -> Result<String, StoreError>
    ensures flushed { (folder : List ℕ) → due.path ≡ path_of folder due.bytes → IfOk result (λ path. Imports (D.tells disk.old) cap (D.files disk.old) (D.files disk.new) folder due.bytes registry.old registry.new (string_bytes path)) }
    ensures next { OnOk result (pending.new ≡ next) }
    ensures pending { OnErr result (pending.new ≡ pending.old) }
    ensures checked { GivesUnlessDisk (λ _. tt) result (flush_check due.bytes registry.old) }
    ensures kept { OnErr result (SameShards registry.old registry.new) }
    ensures refused { D.tells disk.old ≡ true → (folder : List ℕ) → due.path ≡ path_of folder due.bytes → OnErr result (MayAddShard (D.files disk.old) (D.files disk.new) folder due.bytes) }
    ensures unwritten { D.tells disk.old ≡ true → (e : StoreError) → flush_check due.bytes registry.old ≡ Err e → D.files disk.new ≡ D.files disk.old }
    ensures safe { D.tells disk.old ≡ true → (folder : List ℕ) → due.path ≡ path_of folder due.bytes → KeepsFiles (D.files disk.old) (D.files disk.new) folder due.bytes registry.old.files }
    ensures frame { Stays D.tells D.faults disk.old disk.new }
    ensures reason { IfErr result (IsFlushError (D.faults disk.old) (D.faults disk.new)) }
{
    match write_shard(alloc, disk, registry, due, cap) {
        Ok(path) => {
            *pending = next;
            Ok(path)
        }
        Err(error) => Err(error),
    }
}

/// Writes a shard that is due, and registers it. Returns the path.
fn write_shard<D: Disk>(
    alloc: Global,
    disk: &mut D,
    registry: &mut ShardRegistry,
    due: DueShard,
    cap: u64,
) -> Result<String, StoreError>
    ensures flushed { (folder : List ℕ) → due.path ≡ path_of folder due.bytes → IfOk result (λ path. Imports (D.tells disk.old) cap (D.files disk.old) (D.files disk.new) folder due.bytes registry.old registry.new (string_bytes path)) }
    ensures checked { GivesUnlessDisk (λ _. tt) result (flush_check due.bytes registry.old) }
    ensures kept { OnErr result (SameShards registry.old registry.new) }
    ensures refused { D.tells disk.old ≡ true → (folder : List ℕ) → due.path ≡ path_of folder due.bytes → OnErr result (MayAddShard (D.files disk.old) (D.files disk.new) folder due.bytes) }
    ensures unwritten { D.tells disk.old ≡ true → (e : StoreError) → flush_check due.bytes registry.old ≡ Err e → D.files disk.new ≡ D.files disk.old }
    ensures safe { D.tells disk.old ≡ true → (folder : List ℕ) → due.path ≡ path_of folder due.bytes → KeepsFiles (D.files disk.old) (D.files disk.new) folder due.bytes registry.old.files }
    ensures frame { Stays D.tells D.faults disk.old disk.new }
    ensures reason { IfErr result (IsFlushError (D.faults disk.old) (D.faults disk.new)) }
{
    let DueShard {
        encoding,
        items,
        file,
    } = due;
    if registry.contains(&file.hash) {
        write_known(disk, registry, file, &encoding)
    } else if registry.files().len() >= MAX_SHARDS {
        Err(StoreError::TooLarge(What::Shards))
    } else {
        write_new(alloc, disk, registry, file, &encoding, &items, cap)
    }
}
