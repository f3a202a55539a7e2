//! How many calls of the disk it takes to load shard files, and to query one.

use crate::tests::samples::shard_of_abc;
use crate::tests::shard_files::{PATH, close, release};
use std::alloc::Global;
use std::test::Fail;
use xet_hash::{Place, StoreError, compute_data_hash};
use xet_io::{Disk, MemoryDisk, Op};
use xet_shard_directory::MDBShardFile;

/// A disk with the shard of `abc` in the folder `a`, on which these calls fail.
fn failing(alloc: Global, fails: Vec<(Op, u64)>) -> Result<MemoryDisk, StoreError> {
    let (bytes, _) = shard_of_abc(alloc)?;
    let mut disk = MemoryDisk::failing(alloc, fails);
    let _ = disk.write(PATH, &bytes);
    Ok(disk)
}

/// How many shards are loaded of the folder `a`.
fn loaded(alloc: Global, disk: &mut MemoryDisk) -> Result<usize, StoreError> {
    Ok(MDBShardFile::load_all_valid(alloc, disk, "a", 0)?.len())
}

/// The first call of `stat` fails, and so does the third read: a folder is loaded by a listing and two reads a shard.
#[test]
fn shard_is_loaded_by_two_reads(rt: HostRuntime) -> Result<(), Fail> {
    let alloc = rt.alloc();
    let mut disk = failing(alloc, vec![in alloc; (Op::Stat, 0), (Op::ReadAt, 2)]?)?;
    let first = loaded(alloc, &mut disk);
    let second = loaded(alloc, &mut disk);
    release(disk);
    assert_eq!(rt;
        (first.ok(), second.err()),
        (Some(1), Some(StoreError::Io(Place::Disk)))
    );
    Ok(())
}

/// Whether the chunk `abc` is found.
fn found(alloc: Global, disk: &mut MemoryDisk, shard: &MDBShardFile) -> Result<bool, StoreError> {
    let chunk = compute_data_hash(b"abc");
    let run = shard.chunk_hash_dedup_query_direct(alloc, disk, &[chunk], 0, 0)?;
    Ok(run.is_some())
}

/// What the shard answers to two queries.
fn answers(
    alloc: Global,
    disk: &mut MemoryDisk,
) -> Result<(Option<bool>, Option<StoreError>), StoreError> {
    let shard = MDBShardFile::load_from_file(alloc, disk, PATH)?;
    let first = found(alloc, disk, &shard);
    let second = found(alloc, disk, &shard);
    close(shard);
    Ok((first.ok(), second.err()))
}

/// The third call of `stat` fails: loading one file and a query take one each.
#[test]
fn shard_is_queried_by_one_stat(rt: HostRuntime) -> Result<(), Fail> {
    let alloc = rt.alloc();
    let mut disk = failing(alloc, vec![in alloc; (Op::Stat, 2)]?)?;
    let answers = answers(alloc, &mut disk);
    release(disk);
    assert_eq!(rt; answers?, (Some(true), Some(StoreError::Io(Place::Disk))));
    Ok(())
}
