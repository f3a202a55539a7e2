//! Tests of one file that is cleaned over a pass of a session.

ghost use Rattle.std.specs.Prelude.{◌≡◌, IfOk, OnOk, false, true};

use bytes::Bytes;
use std::alloc::{AllocError, Global};
use std::marker::Brand;
use std::sync::Wait;
use std::test::Fail;
use xet_cut::{LimitSettings, Limits};
use xet_hash::{MerkleHash, StoreError, What};
use xet_io::MemoryDisk;
use xet_session::{
    Finished, LockedSession, Naming, Opened, Pass, Session, Sha256Policy, SingleFileCleaner,
    XetFileInfo, clean_bytes,
};
use xet_shard_format::Sha256;

/// The SHA-256 of `some data`.
const DIGEST: &str = "1307990e6ba5ca145eb35e99182a9bec46531bc54ddf656a602c780fa0240dee";

/// A file of several blocks and chunks.
const SEVENS: [u8; 1000] = [7; 1000];

/// Its SHA-256.
const DIGEST_OF_SEVENS: &str = "df1329c8b6c7cf3740bbe2f8bab34d253a8d9534a79dceea18177081fdf9f0e9";

/// The SHA-256 of no bytes.
const EMPTY: &str = "e3b0c44298fc1c149afbf4c8996fb92427ae41e4649b934ca495991b7852b855";

/// The pointer record of a file, or the error; whether the cleaner was whole before it ended; the number of the pass that came
/// back.
type Cleaned = (Result<XetFileInfo, StoreError>, bool, u32);

/// Adds the first four bytes and then the others, in a shared buffer, with a checkpoint between.
fn add_both<J: Naming, R: Wait>(
    alloc: Global,
    cleaner: &mut SingleFileCleaner<'_, MemoryDisk, J, R>,
    bytes: &[u8],
) -> Result<(), StoreError>
    requires whole { cleaner.old.whole ≡ true }
    ensures whole { OnOk result (cleaner.new.whole ≡ true) }
{
    let (first, second) = bytes.split_at(bytes.len().min(4));
    cleaner.add_data(first)?;
    cleaner.checkpoint()?;
    cleaner.add_data_from_bytes(Bytes::from_vec(Vec::from_slice(alloc, second)?)?)
}

/// The pointer record of a file that has ended.
fn info_of(file: Result<Finished, StoreError>) -> Result<XetFileInfo, StoreError> {
    match file {
        Ok(file) => {
            let Finished {
                info,
                metrics: _,
                choices: _,
                rest: _,
            } = file;
            Ok(info)
        }
        Err(error) => Err(error),
    }
}

/// Cleans a file as source 3 over a pass.
fn clean_over<J: Naming, R: Wait>(
    rt: &R,
    alloc: Global,
    session: &LockedSession<MemoryDisk, J>,
    pass: Pass<J>,
    bytes: &[u8],
    policy: Sha256Policy,
) -> Cleaned {
    match SingleFileCleaner::new(alloc, rt, session, pass, 3, policy) {
        Ok(mut cleaner) => match add_both(alloc, &mut cleaner, bytes) {
            Ok(()) => {
                let (pass, file) = cleaner.finish();
                (info_of(file), true, pass.number())
            }
            Err(error) => {
                let whole = cleaner.is_whole();
                (Err(error), whole, cleaner.into_pass().number())
            }
        },
        Err((pass, error)) => (Err(error), false, pass.number()),
    }
}

/// The same, over the only pass of a session.
fn clean_over_only<J: Naming, R: Wait>(
    rt: &R,
    alloc: Global,
    session: &LockedSession<MemoryDisk, J>,
    mut passes: Vec<Pass<J>>,
    bytes: &[u8],
    policy: Sha256Policy,
) -> Result<Cleaned, StoreError> {
    match passes.pop() {
        Some(pass) => Ok(clean_over(rt, alloc, session, pass, bytes, policy)),
        None => Err(StoreError::OutOfMemory),
    }
}

/// The same, with a session of a store. The store is returned.
fn clean_in<J: Naming, R: Wait>(
    rt: &R,
    alloc: Global,
    opened: Opened,
    store: Session<MemoryDisk>,
    bytes: &[u8],
    policy: Sha256Policy,
) -> (Session<MemoryDisk>, Result<Cleaned, StoreError>)
    requires table { opened.word ≡ J.table }
    requires ledger { (opened.blank.name ≡ J.name) × (opened.blank.parts ≡ J.parts) × (J.parts ≡ 2) }
    requires store { store ≡ J.store }
    requires going { J.stops ≡ false }
{
    match LockedSession::<MemoryDisk, J>::new(alloc, opened, store, 1) {
        Ok((session, passes)) => {
            let cleaned = clean_over_only(rt, alloc, &session, passes, bytes, policy);
            (session.abandon(), cleaned)
        }
        Err((store, error)) => (store, Err(error)),
    }
}

/// The same, with a name of its own.
fn clean_once<R: Wait>(
    rt: &R,
    alloc: Global,
    opened: Opened,
    store: Session<MemoryDisk>,
    bytes: &[u8],
    policy: Sha256Policy,
) -> (Session<MemoryDisk>, Result<Cleaned, StoreError>)
    requires { opened.blank.parts ≡ 2 }
{
    clean_in::<Brand, R>(rt, alloc, opened, store, bytes, policy)
}

/// What a session with one pass is made from.
fn opened(alloc: Global) -> Result<Opened, AllocError>
    ensures { IfOk result (λ o. o.blank.parts ≡ 2) }
{
    Opened::new(alloc, 1)
}

/// A store in the folder `store` of a new disk, with chunks from 64 to 1,024 bytes and blocks of 100, whose sources have at most
/// so many bytes.
fn open(alloc: Global, max_source_bytes: u64) -> Result<Session<MemoryDisk>, StoreError> {
    let limits = Limits::new(LimitSettings {
        target_chunk: 512,
        minimum_chunk: 64,
        maximum_chunk: 1024,
        shard_target: 1 << 20,
        block_bytes: 100,
        max_source_bytes,
        ..LimitSettings::shown([0; 256])
    })?;
    match Session::open(alloc, MemoryDisk::new(alloc), "store", limits, 1_000, false) {
        Ok(store) => Ok(store),
        Err(refused) => Err(refused.error),
    }
}

/// Cleans a file over a pass of a session of a new store.
fn cleans<R: Wait>(
    rt: &R,
    alloc: Global,
    max_source_bytes: u64,
    bytes: &[u8],
    policy: Sha256Policy,
) -> Result<Cleaned, StoreError> {
    let opened = opened(alloc)?;
    let (store, cleaned) = clean_once(
        rt,
        alloc,
        opened,
        open(alloc, max_source_bytes)?,
        bytes,
        policy,
    );
    let _disk = store.into_disk();
    cleaned
}

/// The pointer record of these bytes, which are cleaned at once.
fn cleans_at_once(
    alloc: Global,
    bytes: &[u8],
    policy: Sha256Policy,
) -> Result<XetFileInfo, StoreError> {
    let (store, answer) = clean_bytes(alloc, open(alloc, 1 << 20)?, bytes, policy);
    let _disk = store.into_disk();
    Ok(answer?.0)
}

#[test]
fn bytes_that_come_in_parts_have_the_record_of_the_whole(rt: HostRuntime) -> Result<(), Fail> {
    let alloc = rt.alloc();
    let digest = Sha256::from_hex(DIGEST)?;
    let (info, whole, pass) = cleans(&rt, alloc, 1 << 20, b"some data", Sha256Policy::Compute)?;
    let info = info?;
    assert_eq!(rt;
        info,
        cleans_at_once(alloc, b"some data", Sha256Policy::Compute)?
    );
    assert_eq!(rt; info.sha256, Some(digest));
    assert_eq!(rt; (info.file_size, whole, pass), (9, true, 1));
    Ok(())
}

#[test]
fn a_file_of_many_blocks_has_the_record_of_the_whole(rt: HostRuntime) -> Result<(), Fail> {
    let alloc = rt.alloc();
    let digest = Sha256::from_hex(DIGEST_OF_SEVENS)?;
    let (info, whole, pass) = cleans(&rt, alloc, 1 << 20, &SEVENS, Sha256Policy::Compute)?;
    let info = info?;
    assert_eq!(rt;
        info,
        cleans_at_once(alloc, &SEVENS, Sha256Policy::Compute)?
    );
    assert_eq!(rt; info.sha256, Some(digest));
    assert_eq!(rt; (info.file_size, whole, pass), (1000, true, 1));
    Ok(())
}

#[test]
fn a_skipped_sha256_is_left_out(rt: HostRuntime) -> Result<(), Fail> {
    let alloc = rt.alloc();
    let (info, _, _) = cleans(&rt, alloc, 1 << 20, b"some data", Sha256Policy::Skip)?;
    assert_eq!(rt;
        info?,
        cleans_at_once(alloc, b"some data", Sha256Policy::Skip)?
    );
    assert_eq!(rt; info?.sha256, None);
    Ok(())
}

/// The error, if `some data` is not cleaned where a source has at most so many bytes; and the rest of what cleaning it returns.
fn error_of<R: Wait>(
    rt: &R,
    alloc: Global,
    max_source_bytes: u64,
) -> Result<(Option<StoreError>, bool, u32), StoreError> {
    let (info, whole, pass) = cleans(
        rt,
        alloc,
        max_source_bytes,
        b"some data",
        Sha256Policy::Compute,
    )?;
    Ok((info.err(), whole, pass))
}

#[test]
fn a_byte_too_many_is_an_error_and_the_pass_comes_back(rt: HostRuntime) -> Result<(), Fail> {
    let (error, whole, pass) = error_of(&rt, rt.alloc(), 8)?;
    assert!(rt; matches!(error, Some(StoreError::TooLarge(What::Source(3)))));
    assert_eq!(rt; (whole, pass), (false, 1));
    let (error, whole, pass) = error_of(&rt, rt.alloc(), 9)?;
    assert!(rt; error.is_none());
    assert_eq!(rt; (whole, pass), (true, 1));
    Ok(())
}

#[test]
fn a_file_of_no_bytes_has_hash_zero_and_size_zero(rt: HostRuntime) -> Result<(), Fail> {
    let alloc = rt.alloc();
    let digest = Sha256::from_hex(DIGEST)?;
    let empty = Sha256::from_hex(EMPTY)?;
    for (policy, sha256) in [
        (Sha256Policy::Compute, Some(empty)),
        (Sha256Policy::Provided(digest), Some(digest)),
        (Sha256Policy::Skip, None),
    ] {
        let (info, whole, pass) = cleans(&rt, alloc, 1 << 20, b"", policy)?;
        let expected = XetFileInfo {
            hash: MerkleHash::default(),
            file_size: 0,
            sha256,
        };
        assert_eq!(rt; info?, expected);
        assert_eq!(rt; (whole, pass), (true, 1));
    }
    Ok(())
}

/// The number of steps that a pass has made once the first four bytes of a file and then the others were added and before the file
/// has ended, and the number of the pass.
fn steps_over<J: Naming, R: Wait>(
    rt: &R,
    alloc: Global,
    session: &LockedSession<MemoryDisk, J>,
    pass: Pass<J>,
    bytes: &[u8],
) -> (Result<usize, StoreError>, u32) {
    match SingleFileCleaner::new(alloc, rt, session, pass, 3, Sha256Policy::Skip) {
        Ok(mut cleaner) => match add_both(alloc, &mut cleaner, bytes) {
            Ok(()) => {
                let pass = cleaner.into_pass();
                (Ok(pass.own().len()), pass.number())
            }
            Err(error) => (Err(error), cleaner.into_pass().number()),
        },
        Err((pass, error)) => (Err(error), pass.number()),
    }
}

/// The number of steps, over the only pass of a session.
fn steps_over_only<J: Naming, R: Wait>(
    rt: &R,
    alloc: Global,
    session: &LockedSession<MemoryDisk, J>,
    mut passes: Vec<Pass<J>>,
    bytes: &[u8],
) -> Result<usize, StoreError> {
    match passes.pop() {
        Some(pass) => steps_over(rt, alloc, session, pass, bytes).0,
        None => Err(StoreError::OutOfMemory),
    }
}

/// The same, with a session of a store. The store is returned.
fn steps_in<J: Naming, R: Wait>(
    rt: &R,
    alloc: Global,
    opened: Opened,
    store: Session<MemoryDisk>,
    bytes: &[u8],
) -> (Session<MemoryDisk>, Result<usize, StoreError>)
    requires table { opened.word ≡ J.table }
    requires ledger { (opened.blank.name ≡ J.name) × (opened.blank.parts ≡ J.parts) × (J.parts ≡ 2) }
    requires store { store ≡ J.store }
    requires going { J.stops ≡ false }
{
    match LockedSession::<MemoryDisk, J>::new(alloc, opened, store, 1) {
        Ok((session, passes)) => {
            let steps = steps_over_only(rt, alloc, &session, passes, bytes);
            (session.abandon(), steps)
        }
        Err((store, error)) => (store, Err(error)),
    }
}

/// The same, with a name of its own.
fn steps_once<R: Wait>(
    rt: &R,
    alloc: Global,
    opened: Opened,
    store: Session<MemoryDisk>,
    bytes: &[u8],
) -> (Session<MemoryDisk>, Result<usize, StoreError>)
    requires { opened.blank.parts ≡ 2 }
{
    steps_in::<Brand, R>(rt, alloc, opened, store, bytes)
}

/// The same, with a new store.
fn steps_before_the_end<R: Wait>(rt: &R, alloc: Global, bytes: &[u8]) -> Result<usize, StoreError> {
    let opened = opened(alloc)?;
    let (store, steps) = steps_once(rt, alloc, opened, open(alloc, 1 << 20)?, bytes);
    let _disk = store.into_disk();
    steps
}

#[test]
fn chunks_are_looked_up_before_the_file_ends(rt: HostRuntime) -> Result<(), Fail> {
    assert_eq!(rt; steps_before_the_end(&rt, rt.alloc(), b"some data")?, 0);
    let steps = steps_before_the_end(&rt, rt.alloc(), &SEVENS)?;
    assert!(rt; 0 < steps);
    Ok(())
}
