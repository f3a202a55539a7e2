//! Tests of a manager whose indexes have room for one word, on a disk in memory.

use crate::tests::samples::{Manager, opened_in, release, run_of, settings, shard_with, totals};
use std::alloc::Global;
use std::test::Fail;
use xet_hash::StoreError;
use xet_io::MemoryDisk;
use xet_manager::ManagerSettings;
use xet_shard_samples::shard_of;

/// Settings with room for one word.
fn capped() -> ManagerSettings {
    let mut settings = settings(10_000);
    settings.index_cap = 1;
    settings
}

/// The runs of `abc` and `abd`, whether a shard has the file of `abd`, and the number of registered shards.
type Seen = ([Option<usize>; 2], bool, usize);

/// What is seen once the shards of `abc` and `abd` are imported.
fn seen(alloc: Global, manager: &mut Manager) -> Result<Seen, StoreError> {
    manager.import_shard_from_bytes(&shard_of(alloc, b"abc")?.0)?;
    manager.import_shard_from_bytes(&shard_of(alloc, b"abd")?.0)?;
    let runs = [run_of(manager, b"abc")?, run_of(manager, b"abd")?];
    let has_file = matches!(shard_with(alloc, manager, b"abd")?, Some(Some(_)));
    Ok((runs, has_file, totals(manager)?.0))
}

/// The same over an empty folder.
fn seen_in_empty(alloc: Global) -> Result<Seen, StoreError> {
    let mut manager = opened_in(alloc, MemoryDisk::new(alloc), "a", capped(), true)?;
    let answer = seen(alloc, &mut manager);
    release(manager);
    answer
}

#[test]
fn no_chunk_enters_a_full_index(rt: HostRuntime) -> Result<(), Fail> {
    let answer = seen_in_empty(rt.alloc())?;
    assert_eq!(rt; answer, ([Some(1), None], true, 2));
    Ok(())
}
