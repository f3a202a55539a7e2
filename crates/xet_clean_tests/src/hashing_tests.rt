//! Tests of hashing files without storing them.

ghost use Rattle.std.specs.Prelude.{◌≤◌};

use crate::session::{Session, limits, small_limits};
use std::alloc::Global;
use std::marker::Sync;
use std::test::Fail;
use std::thread::Threads;
use xet_clean::Cleaned;
use xet_hash::{Place, StoreError, What};
use xet_hash_files::hash_files;
use xet_io::{FailingSource, SliceSource};
use xet_store_disk::XetFileInfo;

/// A file of several blocks and chunks.
const SEVENS: [u8; 1000] = [7; 1000];

/// The pointer records of `some data`, of a file of no bytes, and of the sevens, hashed by so many workers.
fn hashed<R: Threads + Sync>(
    rt: &R,
    alloc: Global,
    workers: u32,
) -> Result<Vec<XetFileInfo>, StoreError>
    requires { (1 ≤ workers) × (workers ≤ 256) }
{
    let limits = small_limits()?;
    let mut sources = [
        SliceSource::new(b"some data"),
        SliceSource::new(&[]),
        SliceSource::new(&SEVENS),
    ];
    hash_files(rt, alloc, &limits, &mut sources, workers)
}

/// Appends a file of these bytes.
fn push_file(alloc: Global, files: &mut Vec<Vec<u8>>, bytes: &[u8]) -> Result<(), StoreError> {
    let mut file = Vec::new(alloc);
    file.extend_from_slice(bytes)?;
    files.push(file)?;
    Ok(())
}

/// The bytes of the same files.
fn files_of(alloc: Global) -> Result<Vec<Vec<u8>>, StoreError> {
    let mut files = Vec::new(alloc);
    push_file(alloc, &mut files, b"some data")?;
    push_file(alloc, &mut files, &[])?;
    push_file(alloc, &mut files, &SEVENS)?;
    Ok(files)
}

/// The pointer records of cleaning, without the SHA-256 of each.
fn without_sha256(
    alloc: Global,
    answer: &Result<Cleaned, StoreError>,
) -> Result<Vec<XetFileInfo>, StoreError> {
    let cleaned = match answer {
        Ok(cleaned) => cleaned,
        Err(error) => return Err(*error),
    };
    let mut infos = Vec::new(alloc);
    for info in &cleaned.infos {
        infos.push(XetFileInfo {
            hash: info.hash,
            file_size: info.file_size,
            sha256: None,
        })?;
    }
    Ok(infos)
}

/// The pointer records of the same files, which are cleaned.
fn cleaned(alloc: Global) -> Result<Vec<XetFileInfo>, StoreError> {
    let files = files_of(alloc)?;
    let (session, answer) = Session::of_small_xorbs(alloc)?.clean_all(&files);
    session.close();
    without_sha256(alloc, &answer)
}

#[test]
fn any_number_of_workers_returns_the_records_of_cleaning(rt: HostRuntime) -> Result<(), Fail> {
    let expected = cleaned(rt.alloc())?;
    assert_eq!(rt; expected.len(), 3);
    let one = hashed(&rt, rt.alloc(), 1)?;
    let two = hashed(&rt, rt.alloc(), 2)?;
    let seven = hashed(&rt, rt.alloc(), 7)?;
    assert_eq!(rt; one.as_slice(), expected.as_slice());
    assert_eq!(rt; two.as_slice(), expected.as_slice());
    assert_eq!(rt; seven.as_slice(), expected.as_slice());
    Ok(())
}

/// The error of hashing.
fn error_of(answer: &Result<Vec<XetFileInfo>, StoreError>) -> Option<StoreError> {
    match answer {
        Ok(_) => None,
        Err(error) => Some(*error),
    }
}

/// Hashes three sources by two workers. Reading the second source fails.
fn fails<R: Threads + Sync>(rt: &R, alloc: Global) -> Result<Option<StoreError>, StoreError> {
    let limits = small_limits()?;
    let mut sources = [
        FailingSource::new(b"abc", u64::MAX),
        FailingSource::new(b"abc", 0),
        FailingSource::new(b"abc", u64::MAX),
    ];
    let answer = hash_files(rt, alloc, &limits, &mut sources, 2);
    Ok(error_of(&answer))
}

#[test]
fn a_failing_source_is_named(rt: HostRuntime) -> Result<(), Fail> {
    let error = fails(&rt, rt.alloc())?;
    assert!(rt; matches!(error, Some(StoreError::Io(Place::Source(1)))));
    Ok(())
}

/// Hashes three sources by two workers. The third is one byte too long.
fn is_too_long<R: Threads + Sync>(rt: &R, alloc: Global) -> Result<Option<StoreError>, StoreError> {
    let limits = limits(1 << 20, 200)?;
    let mut sources = [
        SliceSource::new(b"abc"),
        SliceSource::new(&[0; 200]),
        SliceSource::new(&[0; 201]),
    ];
    let answer = hash_files(rt, alloc, &limits, &mut sources, 2);
    Ok(error_of(&answer))
}

#[test]
fn a_source_that_is_too_long_is_named(rt: HostRuntime) -> Result<(), Fail> {
    let error = is_too_long(&rt, rt.alloc())?;
    assert!(rt; matches!(error, Some(StoreError::TooLarge(What::Source(2)))));
    Ok(())
}
