//! A test of SHA-256s that are computed behind the chunks of their files.

ghost use Rattle.std.specs.Prelude.{◌≡◌, ◌≤◌, [], vec_capacity};
ghost use Rattle.xet_aggregate.specs.Aggregate.{empty};
ghost use Rattle.xet_aggregate.specs.Metrics.{zeros};

use std::alloc::Global;
use std::test::Fail;
use std::thread::Threads;
use xet_clean::{Sha256Policy, Working, clean_each};
use xet_cut::{LimitSettings, Limits};
use xet_hash::StoreError;
use xet_io::{MemoryDisk, SliceSource};
use xet_shard_format::Sha256;
use xet_store::{Alone, Asking, Store};
use xet_workers::Behind;

/// The SHA-256 of 1,000,000 bytes, each of which is 7: fifteen full blocks of 64 KiB, and a part of one.
const DIGEST: &str = "30bd6d97affa9196b48cf4f86569c1a6a2d2fcf7d8c25771526f5e5596e7ae2e";

/// That of 100,000 such bytes.
const SHORT_DIGEST: &str = "2c4b101169bf328cd4a882e640a8b57eb3acf76518b3d105869905cf629e791c";

/// That of no bytes.
const EMPTY_DIGEST: &str = "e3b0c44298fc1c149afbf4c8996fb92427ae41e4649b934ca495991b7852b855";

/// A store in the folder `store` of a new disk, with chunks from 64 to 1,024 bytes, for which sources are read by 64 KiB.
fn open(alloc: Global) -> Result<Store<MemoryDisk>, StoreError> {
    let limits = Limits::new(LimitSettings {
        target_chunk: 512,
        minimum_chunk: 64,
        maximum_chunk: 1024,
        shard_target: 1 << 20,
        max_source_bytes: 1 << 20,
        block_bytes: 1 << 16,
        ..LimitSettings::shown([0; 256])
    })?;
    match Store::open(alloc, MemoryDisk::new(alloc), "store", limits, 1_000, false) {
        Ok(store) => Ok(store),
        Err(refused) => Err(refused.error),
    }
}

/// Cleans three sources into a store, and gives the lengths and SHA-256s of their files. At most so many blocks wait.
fn clean_over<T: Threads>(
    rt: &T,
    alloc: Global,
    store: Store<MemoryDisk>,
    working: Working,
    bytes: &[u8],
    most: usize,
) -> Result<Vec<(u64, Option<Sha256>)>, StoreError>
    requires nothing { (working.cleaned.infos.items ≡ []) × (working.cleaned.choices.items ≡ []) × (working.cleaned.metrics ≡ zeros) × (working.aggregate ≡ empty) }
    requires room { (3 ≤ vec_capacity working.cleaned.infos) × (3 ≤ vec_capacity working.cleaned.choices) }
{
    let short = bytes.get(..100_000).unwrap_or(&[]);
    let mut sources = [
        SliceSource::new(bytes),
        SliceSource::new(&[]),
        SliceSource::new(short),
    ];
    let (asking, working) = clean_each(
        alloc,
        Asking::new(Alone::new(store)),
        working,
        &mut sources,
        &Sha256Policy::Compute,
        &mut Behind::new(rt, alloc, most),
    );
    let _disk = asking.into_steps().into_store().into_disk();
    let working = working?;
    let mut files = Vec::new(alloc);
    for info in working.cleaned.infos.iter() {
        files.push((info.file_size, info.sha256))?;
    }
    Ok(files)
}

/// The lengths and SHA-256s of files of 1,000,000 bytes, of none, and of 100,000.
fn cleans<T: Threads>(
    rt: &T,
    alloc: Global,
    most: usize,
) -> Result<Vec<(u64, Option<Sha256>)>, StoreError> {
    let bytes = vec![in alloc; 7u8; 1_000_000]?;
    let working = Working::new(alloc, 3)?;
    clean_over(rt, alloc, open(alloc)?, working, &bytes, most)
}

#[test]
fn files_are_hashed_behind_their_chunks(rt: HostRuntime) -> Result<(), Fail> {
    let alloc = rt.alloc();
    let expected = [
        (1_000_000, Some(Sha256::from_hex(DIGEST)?)),
        (0, Some(Sha256::from_hex(EMPTY_DIGEST)?)),
        (100_000, Some(Sha256::from_hex(SHORT_DIGEST)?)),
    ];
    for most in [1, 2, 8] {
        assert_eq!(rt; cleans(&rt, alloc, most)?.as_slice(), expected.as_slice());
    }
    Ok(())
}
