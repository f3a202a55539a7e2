//! Flush of what is pending.

ghost use Rattle.std.specs.Prelude.{◌≡◌, List, None, IsOkUnless, Err, IfErr, IfOk, OnErr, OnOk, string_bytes, true};
ghost use Rattle.std.specs.Option.{ForSome};
ghost use Rattle.xet_io.specs.Frame.{Stays};
ghost use Rattle.xet_shard.specs.Held.{held_shard};
ghost use Rattle.xet_shard_directory.specs.Answers.{GivesUnlessDisk};
ghost use Rattle.xet_shard_directory.specs.Writing.{MayAddShard};
ghost use Rattle.xet_shard_flush.specs.Due.{IsDue};
ghost use Rattle.xet_shard_flush.specs.Importing.{Imports, IsFlushError, KeepsFiles, flush_check, flushed_bytes};
ghost use Rattle.xet_shard_format.specs.Encoding.{Fits, IsShard};
ghost use Rattle.xet_shard_flush.specs.internal.Steps.{SameShards};
ghost use Rattle.xet_shard_registry.specs.Collections.{IsRegistryOf};
ghost use Rattle.xet_shard_registry.specs.Registered.{Registered};

use crate::due::{DueShard, prepare_flush, write_due};
use std::alloc::Global;
use xet_hash::StoreError;
use xet_io::Disk;
use xet_shard::MDBInMemoryShard;
use xet_shard_registry::ShardRegistry;

/// Writes what is pending as a shard file into a folder, created at `moment` and without expiry, registers it as
/// `import_shard` does, and replaces what is pending by `next`. Returns the path. `TooLarge(Shards)` if 2^32 - 1 shards
/// are registered and one more is due; nothing is written then. After an error what is pending and the registered
/// shards are as they were; the file is as it was, or the write has completed.
pub fn flush_pending<D: Disk>(
    alloc: Global,
    disk: &mut D,
    folder: &str,
    registry: &mut ShardRegistry,
    pending: &mut MDBInMemoryShard,
    next: MDBInMemoryShard,
    cap: u64,
    moment: u64,
) -> Result<String, StoreError>
    ensures flushed { IfOk result (λ path. Imports (D.tells disk.old) cap (D.files disk.old) (D.files disk.new) folder.now (flushed_bytes pending.old moment) registry.old registry.new (string_bytes path)) }
    ensures form { OnOk result (IsShard (held_shard pending.old moment None) × Fits (held_shard pending.old moment None)) }
    ensures next { OnOk result (pending.new ≡ next) }
    ensures pending { OnErr result (pending.new ≡ pending.old) }
    ensures checked { GivesUnlessDisk (λ _. tt) result (flush_check (flushed_bytes pending.old moment) registry.old) }
    ensures kept { OnErr result ((shards : List Registered) → IsRegistryOf shards registry.old → IsRegistryOf shards registry.new) }
    ensures refused { D.tells disk.old ≡ true → OnErr result (MayAddShard (D.files disk.old) (D.files disk.new) folder.now (flushed_bytes pending.old moment)) }
    ensures unwritten { D.tells disk.old ≡ true → (e : StoreError) → flush_check (flushed_bytes pending.old moment) registry.old ≡ Err e → D.files disk.new ≡ D.files disk.old }
    ensures safe { D.tells disk.old ≡ true → KeepsFiles (D.files disk.old) (D.files disk.new) folder.now (flushed_bytes pending.old moment) registry.old.files }
    ensures frame { Stays D.tells D.faults disk.old disk.new }
    ensures reason { IfErr result (IsFlushError (D.faults disk.old) (D.faults disk.new)) }
{
    flush_prepared(
        alloc, disk, folder, registry, pending, None, next, cap, moment,
    )
}

/// Writes what is pending as `flush_pending` does: the shard that `prepare_flush` returned for it, if it is passed. If no
/// shard was registered since then, no memory is taken; that is by the code.
pub fn flush_prepared<D: Disk>(
    alloc: Global,
    disk: &mut D,
    folder: &str,
    registry: &mut ShardRegistry,
    pending: &mut MDBInMemoryShard,
    due: Option<DueShard>,
    next: MDBInMemoryShard,
    cap: u64,
    moment: u64,
) -> Result<String, StoreError>
    requires { ForSome due (IsDue folder.now pending.old moment) }
    ensures flushed { IfOk result (λ path. Imports (D.tells disk.old) cap (D.files disk.old) (D.files disk.new) folder.now (flushed_bytes pending.old moment) registry.old registry.new (string_bytes path)) }
    ensures form { OnOk result (IsShard (held_shard pending.old moment None) × Fits (held_shard pending.old moment None)) }
    ensures next { OnOk result (pending.new ≡ next) }
    ensures pending { OnErr result (pending.new ≡ pending.old) }
    ensures checked { GivesUnlessDisk (λ _. tt) result (flush_check (flushed_bytes pending.old moment) registry.old) }
    ensures kept { OnErr result ((shards : List Registered) → IsRegistryOf shards registry.old → IsRegistryOf shards registry.new) }
    ensures refused { D.tells disk.old ≡ true → OnErr result (MayAddShard (D.files disk.old) (D.files disk.new) folder.now (flushed_bytes pending.old moment)) }
    ensures unwritten { D.tells disk.old ≡ true → (e : StoreError) → flush_check (flushed_bytes pending.old moment) registry.old ≡ Err e → D.files disk.new ≡ D.files disk.old }
    ensures safe { D.tells disk.old ≡ true → KeepsFiles (D.files disk.old) (D.files disk.new) folder.now (flushed_bytes pending.old moment) registry.old.files }
    ensures frame { Stays D.tells D.faults disk.old disk.new }
    ensures reason { IfErr result (IsFlushError (D.faults disk.old) (D.faults disk.new)) }
{
    match due_shard(alloc, folder, registry, pending, due, cap, moment) {
        Ok(due) => write_due(alloc, disk, registry, pending, due, next, cap),
        Err(error) => Err(error),
    }
}

/// The shard that is due: the one that is passed, or that of what is pending.
fn due_shard(
    alloc: Global,
    folder: &str,
    registry: &mut ShardRegistry,
    pending: &MDBInMemoryShard,
    due: Option<DueShard>,
    cap: u64,
    moment: u64,
) -> Result<DueShard, StoreError>
    requires { ForSome due (IsDue folder.now pending.now moment) }
    ensures due { IfOk result (IsDue folder.now pending.now moment) }
    ensures kept { SameShards registry.old registry.new }
    ensures files { registry.new.files ≡ registry.old.files }
    ensures hashes { registry.new.hashes ≡ registry.old.hashes }
    ensures memory { IsOkUnless result StoreError.OutOfMemory }
{
    match due {
        Some(due) => Ok(due),
        None => prepare_flush(alloc, folder, registry, pending, cap, moment),
    }
}
