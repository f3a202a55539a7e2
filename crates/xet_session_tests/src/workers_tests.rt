//! Tests of cleaning by workers.

ghost use Rattle.std.specs.Prelude.{◌≤◌};

use crate::sources::{HeldSource, RestlessSource};
use std::alloc::Global;
use std::marker::Sync;
use std::sync::Wait;
use std::sync::atomic::AtomicBool;
use std::test::Fail;
use std::thread::Threads;
use xet_cut::{LimitSettings, Limits};
use xet_hash::{MerkleHash, Place, StoreError};
use xet_io::{FailingSource, MemoryDisk, SliceSource};
use xet_session::{Cleaned, Session, XetFileInfo, clean_files};

/// A file of several blocks and chunks.
const SEVENS: [u8; 1000] = [7; 1000];

/// Chunks from 64 to 1,024 bytes that end as soon as they may, at most eight in a xorb; shards of at most 4 KiB if they can be
/// shorter; and blocks of 100 bytes.
fn limits() -> Result<Limits, StoreError> {
    Limits::new(LimitSettings {
        target_chunk: 512,
        minimum_chunk: 64,
        maximum_chunk: 1024,
        cut_bytes: 1024,
        cut_chunks: 8,
        shard_target: 4096,
        block_bytes: 100,
        max_source_bytes: 1 << 35,
        ..LimitSettings::shown([0; 256])
    })
}

/// A store in the folder `store` of a new disk.
fn opened(alloc: Global) -> Result<Session<MemoryDisk>, StoreError> {
    match Session::open(
        alloc,
        MemoryDisk::new(alloc),
        "store",
        limits()?,
        1_000,
        false,
    ) {
        Ok(store) => Ok(store),
        Err(refused) => Err(refused.error),
    }
}

/// The pointer records of sources that are cleaned into a new store by so many workers, and the files that are recorded then.
type Answer = (Vec<XetFileInfo>, Vec<(MerkleHash, u64)>);

/// The same of a store and what cleaning returned.
fn answer_of(
    alloc: Global,
    store: Session<MemoryDisk>,
    answer: Result<Cleaned, StoreError>,
) -> Result<Answer, StoreError> {
    let files = store.files(alloc);
    let _disk = store.into_disk();
    let Cleaned {
        infos,
        choices: _,
        metrics: _,
    } = answer?;
    Ok((infos, files?))
}

/// Cleans five files, of which two are equal and one has no bytes.
fn cleaned<R: Threads + Wait + Sync>(
    rt: &R,
    alloc: Global,
    workers: u32,
) -> Result<Answer, StoreError>
    requires { (1 ≤ workers) × (workers ≤ 256) }
{
    let mut sources = [
        SliceSource::new(b"some data"),
        SliceSource::new(&[]),
        SliceSource::new(&SEVENS),
        SliceSource::new(b"some data"),
        SliceSource::new(SEVENS.split_at(600).0),
    ];
    let (store, answer) = clean_files(rt, alloc, opened(alloc)?, &mut sources, workers);
    answer_of(alloc, store, answer)
}

#[test]
fn any_number_of_workers_returns_the_same_records(rt: HostRuntime) -> Result<(), Fail> {
    let (one, files_of_one) = cleaned(&rt, rt.alloc(), 1)?;
    let (two, files_of_two) = cleaned(&rt, rt.alloc(), 2)?;
    let (seven, files_of_seven) = cleaned(&rt, rt.alloc(), 7)?;
    let (most, _) = cleaned(&rt, rt.alloc(), 256)?;
    assert_eq!(rt; one.len(), 5);
    assert_eq!(rt; two.as_slice(), one.as_slice());
    assert_eq!(rt; seven.as_slice(), one.as_slice());
    assert_eq!(rt; most.as_slice(), one.as_slice());
    assert_eq!(rt;
        (files_of_one.len(), files_of_two.len(), files_of_seven.len()),
        (3, 3, 3)
    );
    Ok(())
}

/// Cleans three files by two workers. Reading the second fails.
fn fails<R: Threads + Wait + Sync>(
    rt: &R,
    alloc: Global,
) -> Result<Option<StoreError>, StoreError> {
    let mut sources = [
        FailingSource::new(b"abc", u64::MAX),
        FailingSource::new(b"abc", 0),
        FailingSource::new(b"abc", u64::MAX),
    ];
    let (store, answer) = clean_files(rt, alloc, opened(alloc)?, &mut sources, 2);
    Ok(answer_of(alloc, store, answer).err())
}

#[test]
fn a_failing_source_is_named(rt: HostRuntime) -> Result<(), Fail> {
    let error = fails(&rt, rt.alloc())?;
    assert!(rt; matches!(error, Some(StoreError::Io(Place::Source(1)))));
    Ok(())
}

/// Cleans two files by two workers, of which the first is read on only once the second was read to its end.
fn held<R: Threads + Wait + Sync>(rt: &R, alloc: Global) -> Result<Answer, StoreError> {
    let ended = AtomicBool::new(false);
    let mut sources = [
        HeldSource::waiting(&SEVENS, &ended),
        HeldSource::telling(&SEVENS, &ended),
    ];
    let (store, answer) = clean_files(rt, alloc, opened(alloc)?, &mut sources, 2);
    answer_of(alloc, store, answer)
}

#[test]
fn a_source_that_waits_for_another_does_not_stop_it(rt: HostRuntime) -> Result<(), Fail> {
    let (infos, _) = held(&rt, rt.alloc())?;
    assert_eq!(rt; infos.len(), 2);
    Ok(())
}

/// The number of reads that a source has left, where it is read by one worker and the source of another fails.
const MORE: u64 = 1 << 20;

/// Cleans two files by two workers: the second fails at its first read, and the first has bytes until then and long after. The error,
/// and whether the first was read to its end all the same.
fn stops<R: Threads + Wait + Sync>(
    rt: &R,
    alloc: Global,
) -> Result<(Option<StoreError>, bool), StoreError> {
    let failed = AtomicBool::new(false);
    let mut sources = [
        RestlessSource::going(&failed, MORE),
        RestlessSource::failing(&failed),
    ];
    let (store, answer) = clean_files(rt, alloc, opened(alloc)?, &mut sources, 2);
    let has_ended = sources[0].has_ended();
    Ok((answer_of(alloc, store, answer).err(), has_ended))
}

#[test]
fn the_first_error_stops_the_other_workers(rt: HostRuntime) -> Result<(), Fail> {
    let (error, has_ended) = stops(&rt, rt.alloc())?;
    assert!(rt; matches!(error, Some(StoreError::Io(Place::Source(1)))));
    assert!(rt; !has_ended);
    Ok(())
}
