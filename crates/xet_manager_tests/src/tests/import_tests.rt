//! Tests of importing shards, on a disk in memory.

use crate::tests::samples::{
    Manager, PATH, bytes_of_abc, opened, release, run_of, shard_with, totals,
};
use std::alloc::Global;
use std::test::Fail;
use xet_hash::{MerkleHash, Reason, StoreError, compute_data_hash};
use xet_io::MemoryDisk;

/// Whether the shard of these bytes is imported, and then the only one, under its path.
fn is_imported(manager: &mut Manager, bytes: &[u8]) -> Result<bool, StoreError> {
    manager.import_shard_from_bytes(bytes)?;
    let shards = manager.registered_shard_list()?;
    Ok(shards.len() == 1 && shards.iter().all(|shard| shard.path.as_str() == PATH))
}

/// What is seen of a manager: whether a flush writes nothing, the totals, and the run of `abc`.
type Seen = (bool, (usize, [u64; 2]), Option<usize>);

fn seen(manager: &mut Manager) -> Result<Seen, StoreError> {
    let idle = manager.flush()?.is_none();
    let totals = totals(manager)?;
    Ok((idle, totals, run_of(manager, b"abc")?))
}

/// What is seen before the shard of `abc` is imported, after that, and after it is imported again.
fn imported(alloc: Global, manager: &mut Manager) -> Result<[Seen; 3], StoreError> {
    let bytes = bytes_of_abc(alloc)?;
    let before = seen(manager)?;
    let first = is_imported(manager, &bytes)?;
    let once = seen(manager)?;
    let second = is_imported(manager, &bytes)?;
    let twice = seen(manager)?;
    if first && second {
        Ok([before, once, twice])
    } else {
        Err(StoreError::HashMismatch)
    }
}

/// The same over an empty folder.
fn imported_into_empty(alloc: Global) -> Result<[Seen; 3], StoreError> {
    let mut manager = opened(alloc, MemoryDisk::new(alloc), 10_000, true)?;
    let answer = imported(alloc, &mut manager);
    release(manager);
    answer
}

#[test]
fn shard_is_imported_once(rt: HostRuntime) -> Result<(), Fail> {
    let answer = imported_into_empty(rt.alloc())?;
    let with_abc = (true, (1, [3, 3]), Some(1));
    assert_eq!(rt; answer, [(true, (0, [0, 0]), None), with_abc, with_abc]);
    Ok(())
}

/// The errors of importing no bytes, and the shard of `abc` with another first byte or without its last.
fn refused(alloc: Global, manager: &mut Manager) -> Result<[Option<StoreError>; 3], StoreError> {
    let mut bytes = bytes_of_abc(alloc)?;
    let front = bytes.get(..671).unwrap_or(&[]);
    let short = manager.import_shard_from_bytes(front).err();
    if let Some(first) = bytes.first_mut() {
        *first ^= 1;
    }
    Ok([
        manager.import_shard_from_bytes(&[]).err(),
        manager.import_shard_from_bytes(&bytes).err(),
        short,
    ])
}

/// The same, with what is seen of the manager after it.
fn refused_by_empty(alloc: Global) -> Result<([Option<StoreError>; 3], Seen), StoreError> {
    let mut manager = opened(alloc, MemoryDisk::new(alloc), 10_000, true)?;
    let errors = refused(alloc, &mut manager);
    let after = seen(&mut manager);
    release(manager);
    Ok((errors?, after?))
}

#[test]
fn malformed_shard_is_not_imported(rt: HostRuntime) -> Result<(), Fail> {
    let (errors, after) = refused_by_empty(rt.alloc())?;
    let expected = [
        Some(StoreError::UnexpectedEof),
        Some(StoreError::MalformedData(Reason::Tag)),
        Some(StoreError::MalformedData(Reason::ShardVersion)),
    ];
    assert_eq!(rt; (errors, after), (expected, (true, (0, [0, 0]), None)));
    Ok(())
}

/// The shards that have the files of `abc` and `abd`, once the shard of `abc` is imported.
type Shards = [Option<Option<MerkleHash>>; 2];

fn shards(alloc: Global, manager: &mut Manager) -> Result<Shards, StoreError> {
    manager.import_shard_from_bytes(&bytes_of_abc(alloc)?)?;
    Ok([
        shard_with(alloc, manager, b"abc")?,
        shard_with(alloc, manager, b"abd")?,
    ])
}

fn shards_of_imported(alloc: Global) -> Result<Shards, StoreError> {
    let mut manager = opened(alloc, MemoryDisk::new(alloc), 10_000, true)?;
    let answer = shards(alloc, &mut manager);
    release(manager);
    answer
}

#[test]
fn imported_file_is_found(rt: HostRuntime) -> Result<(), Fail> {
    let alloc = rt.alloc();
    let shard = compute_data_hash(&bytes_of_abc(alloc)?);
    let answer = shards_of_imported(alloc)?;
    assert_eq!(rt; answer, [Some(Some(shard)), None]);
    Ok(())
}
