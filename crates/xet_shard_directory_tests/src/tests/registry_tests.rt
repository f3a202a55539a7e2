//! Tests of queries to registered shards on a disk in memory.

ghost use Rattle.std.specs.Prelude.{[]};
ghost use Rattle.xet_shard_registry.specs.Collections.{IsRegistryOf};

use crate::tests::samples::shard_of_abc;
use crate::tests::shard_files::{close, keyed, release, written};
use std::alloc::Global;
use std::test::Fail;
use xet_hash::{MerkleHash, StoreError, compute_data_hash};
use xet_io::{MemoryDisk, SliceReader};
use xet_shard::{MDBInMemoryShard, MDBShardInfo};
use xet_shard_directory::MDBShardFile;
use xet_shard_lookup::find_run;
use xet_shard_registry::ShardRegistry;

/// The export of the shard of `abc` under a key, in the folder `b`.
fn exported(alloc: Global, disk: &mut MemoryDisk) -> Result<MDBShardFile, StoreError> {
    let shard = written(alloc, disk)?;
    let answer = keyed(alloc, disk, &shard, true);
    close(shard);
    answer
}

/// The shard of `abc` in the folder `a`, or its export.
fn shard(alloc: Global, disk: &mut MemoryDisk, is_keyed: bool) -> Result<MDBShardFile, StoreError> {
    if is_keyed {
        exported(alloc, disk)
    } else {
        written(alloc, disk)
    }
}

/// Registers a shard with the items of its chunk lookup table, unless these could not be read.
fn register_with(
    alloc: Global,
    registry: &mut ShardRegistry,
    shard: MDBShardFile,
    items: Result<Vec<(u64, (u32, u32))>, StoreError>,
    cap: u64,
) -> Result<(), StoreError>
    requires empty { IsRegistryOf [] registry.old }
{
    match items {
        Ok(items) => registry.register(alloc, shard, &items, cap),
        Err(error) => Err(error),
    }
}

/// Registers the shard of `abc`, or its export, where the index has room for some words.
fn register(
    alloc: Global,
    disk: &mut MemoryDisk,
    registry: &mut ShardRegistry,
    is_keyed: bool,
    cap: u64,
) -> Result<(), StoreError>
    requires empty { IsRegistryOf [] registry.old }
{
    let shard = shard(alloc, disk, is_keyed)?;
    let items = shard.read_all_truncated_hashes(alloc, disk);
    register_with(alloc, registry, shard, items, cap)
}

/// The number of chunks in the run that is found.
fn run_of(
    alloc: Global,
    disk: &mut MemoryDisk,
    pending: &MDBInMemoryShard,
    registry: &ShardRegistry,
    query: &[MerkleHash],
) -> Result<Option<usize>, StoreError> {
    let found = find_run(alloc, disk, pending, registry, query)?;
    Ok(found.map(|run| run.0))
}

/// The same of `abc` with `abd` after it, and of `abd`.
type Runs = [Option<usize>; 2];

fn runs_with(
    alloc: Global,
    disk: &mut MemoryDisk,
    pending: &MDBInMemoryShard,
    registry: &ShardRegistry,
) -> Result<Runs, StoreError> {
    let abc = compute_data_hash(b"abc");
    let abd = compute_data_hash(b"abd");
    let first = run_of(alloc, disk, pending, registry, &[abc, abd])?;
    Ok([first, run_of(alloc, disk, pending, registry, &[abd])?])
}

/// The same where nothing is pending.
fn runs(
    alloc: Global,
    disk: &mut MemoryDisk,
    registry: &ShardRegistry,
) -> Result<Runs, StoreError> {
    let pending = MDBInMemoryShard::new(alloc);
    let answer = runs_with(alloc, disk, &pending, registry);
    xet_shard_samples::release(pending);
    answer
}

/// Drops a registry.
fn close_registry(registry: ShardRegistry) {
    let _ = &registry;
}

/// The same where one shard is registered, and the index has room for some words.
fn found(
    alloc: Global,
    disk: &mut MemoryDisk,
    is_keyed: bool,
    cap: u64,
) -> Result<Runs, StoreError> {
    let mut registry = ShardRegistry::new(alloc)?;
    let registered = register(alloc, disk, &mut registry, is_keyed, cap);
    let answer = runs(alloc, disk, &registry);
    close_registry(registry);
    registered?;
    answer
}

/// The same for a shard, for one under a key, and for one that does not enter the index.
fn all_found(alloc: Global, disk: &mut MemoryDisk) -> Result<[Runs; 3], StoreError> {
    Ok([
        found(alloc, disk, false, 1)?,
        found(alloc, disk, true, 1)?,
        found(alloc, disk, false, 0)?,
    ])
}

#[test]
fn runs_are_found_in_registered_shards(rt: HostRuntime) -> Result<(), Fail> {
    let alloc = rt.alloc();
    let mut disk = MemoryDisk::new(alloc);
    let answer = all_found(alloc, &mut disk);
    release(disk);
    assert_eq!(rt; answer?, [[Some(1), None], [Some(1), None], [None, None]]);
    Ok(())
}

/// The length of the run of `abc` in the first row of a shard, from this chunk.
fn in_row(
    alloc: Global,
    bytes: &[u8],
    info: &MDBShardInfo,
    chunk: u32,
) -> Result<Option<usize>, StoreError> {
    let abc = [compute_data_hash(b"abc")];
    let mut reader = SliceReader::new(bytes);
    let found = info.chunk_hash_dedup_query_in_row(alloc, &mut reader, &abc, 0, chunk)?;
    Ok(found.map(|run| run.0))
}

/// The lengths of the runs of `abc` in the first row, from its only chunk and from behind it.
fn in_first_row(alloc: Global) -> Result<[Option<usize>; 2], StoreError> {
    let (bytes, info) = shard_of_abc(alloc)?;
    let first = in_row(alloc, &bytes, &info, 0)?;
    Ok([first, in_row(alloc, &bytes, &info, 1)?])
}

#[test]
fn run_is_read_in_a_known_row(rt: HostRuntime) -> Result<(), Fail> {
    let found = in_first_row(rt.alloc())?;
    assert_eq!(rt; found, [Some(1), None]);
    Ok(())
}
