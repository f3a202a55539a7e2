//! Worked values of cleaning by workers: what is returned, the history, and what is listed.

ghost use Rattle.std.specs.Prelude.{◌≤◌};

use std::alloc::{AllocError, Global};
use std::marker::Sync;
use std::sync::Wait;
use std::test::Fail;
use std::thread::Threads;
use xet_cut::{LimitSettings, Limits};
use xet_hash::{StoreError, What};
use xet_history::Entry;
use xet_io::{MemoryDisk, SliceSource};
use xet_session::{Cleaned, Session, XetFileInfo, clean_files};

/// A target length of shards, and a maximum length of sources, that nothing here passes.
const LONG: u64 = 1 << 20;

/// 200 zero bytes: chunks of 64, 64, 64 and 8 bytes.
const ZEROS: [u8; 200] = [0; 200];

/// A store in the folder `store` of a new disk. Chunks have from 64 to 1,024 bytes and end as soon as they may.
fn opened(
    alloc: Global,
    shard_target: u64,
    max_source_bytes: u64,
) -> Result<Session<MemoryDisk>, StoreError> {
    let limits = Limits::new(LimitSettings {
        target_chunk: 512,
        minimum_chunk: 64,
        maximum_chunk: 1024,
        shard_target,
        max_source_bytes,
        ..LimitSettings::shown([0; 256])
    })?;
    match Session::open(alloc, MemoryDisk::new(alloc), "store", limits, 1_000, false) {
        Ok(store) => Ok(store),
        Err(refused) => Err(refused.error),
    }
}

/// What a session shows after cleaning: the pointer records, the history, and the numbers of xorbs, files and shards.
#[derive(Drop)]
struct Report {
    infos: Vec<XetFileInfo>,
    history: String,
    counts: [u64; 3],
}

/// The history, for each entry its letter, in capitals if something was added.
fn letters_of(alloc: Global, history: &[Entry]) -> Result<String, AllocError> {
    let mut letters = String::new(alloc);
    for entry in history {
        letters.push(letter_of(entry))?;
    }
    Ok(letters)
}

fn letter_of(entry: &Entry) -> char {
    match entry {
        Entry::Query { reply: Some(_), .. } => 'q',
        Entry::Query { .. } => 'Q',
        Entry::Register { added: true, .. } => 'R',
        Entry::Register { .. } => 'r',
        Entry::Complete { added: true, .. } => 'C',
        Entry::Complete { .. } => 'c',
        Entry::Flush { .. } => 'F',
        Entry::Fault { .. } => '!',
    }
}

/// The history, and the numbers of xorbs, files and shards.
fn shown(alloc: Global, store: &Session<MemoryDisk>) -> Result<(String, [u64; 3]), StoreError> {
    let history = letters_of(alloc, store.history())?;
    let files = store.files(alloc)?.len() as u64;
    Ok((history, [store.xorb_count(), files, store.shard_count()]))
}

fn report_of(
    shown: Result<(String, [u64; 3]), StoreError>,
    answer: Result<Cleaned, StoreError>,
) -> Result<Report, StoreError> {
    let Cleaned {
        infos,
        choices: _,
        metrics: _,
    } = answer?;
    let (history, counts) = shown?;
    Ok(Report {
        infos,
        history,
        counts,
    })
}

/// Cleans two files in one call by so many workers into a store.
fn cleans<R: Threads + Wait + Sync>(
    rt: &R,
    alloc: Global,
    store: Session<MemoryDisk>,
    files: [&[u8]; 2],
    workers: u32,
) -> Result<Report, StoreError>
    requires { (1 ≤ workers) × (workers ≤ 256) }
{
    let mut sources = [SliceSource::new(files[0]), SliceSource::new(files[1])];
    let (store, answer) = clean_files(rt, alloc, store, &mut sources, workers);
    let shown = shown(alloc, &store);
    let _disk = store.into_disk();
    report_of(shown, answer)
}

/// The same into a new store.
fn cleans_two<R: Threads + Wait + Sync>(
    rt: &R,
    alloc: Global,
    limits: (u64, u64),
    files: [&[u8]; 2],
    workers: u32,
) -> Result<Report, StoreError>
    requires { (1 ≤ workers) × (workers ≤ 256) }
{
    match opened(alloc, limits.0, limits.1) {
        Ok(store) => cleans(rt, alloc, store, files, workers),
        Err(error) => Err(error),
    }
}

#[test]
fn the_same_twice_is_registered_once(rt: HostRuntime) -> Result<(), Fail> {
    let one = cleans_two(&rt, rt.alloc(), (LONG, LONG), [&ZEROS, &ZEROS], 1)?;
    let two = cleans_two(&rt, rt.alloc(), (LONG, LONG), [&ZEROS, &ZEROS], 2)?;
    assert_eq!(rt; one.infos.len(), 2);
    assert_eq!(rt; one.infos.first(), one.infos.last());
    assert_eq!(rt; one.history.as_str(), "QQQQQQQQRCc");
    assert_eq!(rt; one.counts, [1, 1, 0]);
    assert_eq!(rt; two.infos.as_slice(), one.infos.as_slice());
    assert_eq!(rt; two.counts[1], 1);
    Ok(())
}

#[test]
fn a_record_that_passes_the_target_is_cut(rt: HostRuntime) -> Result<(), Fail> {
    let cut = cleans_two(&rt, rt.alloc(), (671, LONG), [b"abc", &[]], 1)?;
    let whole = cleans_two(&rt, rt.alloc(), (672, LONG), [b"abc", &[]], 1)?;
    assert_eq!(rt; (cut.history.as_str(), cut.counts), ("QRFC", [1, 1, 1]));
    assert_eq!(rt; (whole.history.as_str(), whole.counts), ("QRC", [1, 1, 0]));
    Ok(())
}

#[test]
fn files_of_no_bytes_are_not_recorded(rt: HostRuntime) -> Result<(), Fail> {
    let none = cleans_two(&rt, rt.alloc(), (LONG, LONG), [&[], &[]], 2)?;
    assert_eq!(rt; none.infos.len(), 2);
    assert_eq!(rt; (none.history.as_str(), none.counts), ("", [0, 0, 0]));
    Ok(())
}

#[test]
fn a_source_that_is_too_long_is_named(rt: HostRuntime) -> Result<(), Fail> {
    let error = cleans_two(&rt, rt.alloc(), (LONG, 199), [b"abc", &ZEROS], 2).err();
    assert!(rt; matches!(error, Some(StoreError::TooLarge(What::Source(1)))));
    Ok(())
}

/// The pointer records of two files that two workers clean into a store.
fn clean_pair<R: Threads + Wait + Sync>(
    rt: &R,
    alloc: Global,
    store: Session<MemoryDisk>,
    files: [&[u8]; 2],
) -> (Session<MemoryDisk>, Result<Vec<XetFileInfo>, StoreError>) {
    let mut sources = [SliceSource::new(files[0]), SliceSource::new(files[1])];
    let (store, answer) = clean_files(rt, alloc, store, &mut sources, 2);
    match answer {
        Ok(cleaned) => (store, Ok(cleaned.infos)),
        Err(error) => (store, Err(error)),
    }
}

/// How many files are recorded, and how many segments the plan of the first of some files has.
fn recorded(
    alloc: Global,
    store: &Session<MemoryDisk>,
    infos: &Result<Vec<XetFileInfo>, StoreError>,
) -> Result<(usize, usize), StoreError> {
    let first = match infos {
        Ok(infos) => infos.first().map(|info| info.hash),
        Err(error) => return Err(*error),
    };
    let Some(hash) = first else {
        return Err(StoreError::FileNotFound);
    };
    let segments = store.plan(alloc, &hash)?.map_or(0, |plan| plan.len());
    Ok((store.files(alloc)?.len(), segments))
}

/// The same after two files were cleaned, and after two more were, both of the first file of all.
fn cleans_more<R: Threads + Wait + Sync>(
    rt: &R,
    alloc: Global,
    store: Session<MemoryDisk>,
) -> Result<[(usize, usize); 2], StoreError> {
    let (store, first) = clean_pair(rt, alloc, store, [&ZEROS, b"abc"]);
    let before = recorded(alloc, &store, &first);
    let (store, _) = clean_pair(rt, alloc, store, [b"some data", &[]]);
    let after = recorded(alloc, &store, &first);
    let _disk = store.into_disk();
    Ok([before?, after?])
}

#[test]
fn earlier_files_stay_recorded(rt: HostRuntime) -> Result<(), Fail> {
    let alloc = rt.alloc();
    let shown = cleans_more(&rt, alloc, opened(alloc, LONG, LONG)?)?;
    assert_eq!(rt; shown, [(2, 3), (3, 3)]);
    Ok(())
}
