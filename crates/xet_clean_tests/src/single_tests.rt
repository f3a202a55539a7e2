//! Tests of cleaning one file, of where its SHA-256 comes from, and of the JSON of its pointer record.

use crate::session::Session;
use std::alloc::Global;
use std::test::Fail;
use xet_clean::Sha256Policy;
use xet_dedup::DeduplicationMetrics;
use xet_hash::{Place, StoreError, What};
use xet_shard_format::Sha256;
use xet_store_disk::XetFileInfo;

/// 64 zeros.
const ZEROS: &str = "0000000000000000000000000000000000000000000000000000000000000000";

/// The SHA-256 of `some data`.
const DIGEST: &str = "1307990e6ba5ca145eb35e99182a9bec46531bc54ddf656a602c780fa0240dee";

/// The pointer record of a file, the SHA-256 of its record, and what a session did.
#[derive(Drop)]
struct Report {
    info: XetFileInfo,
    recorded: Option<Sha256>,
    chunks: u64,
    history: String,
}

/// What a session shows of a file that was cleaned.
fn seen(
    session: &Session,
    answer: Result<(XetFileInfo, DeduplicationMetrics), StoreError>,
) -> Result<Report, StoreError> {
    let (info, metrics) = answer?;
    Ok(Report {
        info,
        recorded: session.last_sha256(),
        chunks: metrics.total_chunks,
        history: session.history()?,
    })
}

/// Cleans these bytes; also as a source, in another session. The two pointer records are to be the same.
fn cleans(alloc: Global, bytes: &[u8], policy: Sha256Policy) -> Result<Report, StoreError> {
    let (session, answer) = Session::new(alloc, 1 << 20, 1 << 20)?.clean_bytes(bytes, policy);
    let first = seen(&session, answer);
    session.close();
    let (session, answer) = Session::new(alloc, 1 << 20, 1 << 20)?.clean_file(bytes, policy);
    let second = seen(&session, answer);
    session.close();
    let first = first?;
    if first.info == second?.info {
        Ok(first)
    } else {
        Err(StoreError::InvalidArguments)
    }
}

#[test]
fn sha256_comes_by_the_policy(rt: HostRuntime) -> Result<(), Fail> {
    let alloc = rt.alloc();
    let digest = Sha256::from_hex(DIGEST)?;
    let zeros = Sha256::from_hex(ZEROS)?;
    for (policy, sha256) in [
        (Sha256Policy::Compute, Some(digest)),
        (Sha256Policy::Provided(zeros), Some(zeros)),
        (Sha256Policy::Skip, None),
        (Sha256Policy::from_skip(false), Some(digest)),
        (Sha256Policy::from_skip(true), None),
        (Sha256Policy::from_hex(ZEROS), Some(zeros)),
        (Sha256Policy::from_hex("0"), Some(digest)),
        (Sha256Policy::from(Some(zeros)), Some(zeros)),
        (Sha256Policy::from(None), Some(digest)),
    ] {
        let shown = cleans(alloc, b"some data", policy)?;
        assert_eq!(rt; shown.info.sha256, sha256);
        assert_eq!(rt; shown.recorded, sha256);
        assert_eq!(rt; shown.info.file_size, 9);
        assert_eq!(rt; shown.chunks, 1);
        assert_eq!(rt; shown.history.as_str(), "QRC");
    }
    Ok(())
}

/// The JSON of the pointer record of `some data`, and what it is to be.
fn json(alloc: Global) -> Result<(String, String), StoreError> {
    let info = cleans(alloc, b"some data", Sha256Policy::Compute)?.info;
    let hash = info.hash.hex(alloc)?;
    let mut expected = String::new(alloc);
    expected.push_str("{\"hash\":\"")?;
    expected.push_str(hash.as_str())?;
    expected.push_str("\",\"file_size\":9,\"sha256\":\"")?;
    expected.push_str(DIGEST)?;
    expected.push_str("\"}")?;
    Ok((info.to_json(alloc)?, expected))
}

#[test]
fn pointer_records_have_a_json(rt: HostRuntime) -> Result<(), Fail> {
    let alloc = rt.alloc();
    let (written, expected) = json(alloc)?;
    assert_eq!(rt; written.as_str(), expected.as_str());
    let shown = cleans(alloc, b"", Sha256Policy::Compute)?;
    assert_eq!(rt; shown.history.as_str(), "");
    assert_eq!(rt;
        shown.info.to_json(alloc)?.as_str(),
        "{\"hash\":\"0000000000000000000000000000000000000000000000000000000000000000\",\"file_size\":0,\"sha256\":\"e3b0c44298fc1c149afbf4c8996fb92427ae41e4649b934ca495991b7852b855\"}"
    );
    let shown = cleans(alloc, b"", Sha256Policy::Skip)?;
    assert_eq!(rt;
        shown.info.to_json(alloc)?.as_str(),
        "{\"hash\":\"0000000000000000000000000000000000000000000000000000000000000000\",\"file_size\":0}"
    );
    Ok(())
}

/// Cleans a file that is one byte longer than the maximum, and a source whose first read fails.
fn fails(alloc: Global) -> Result<[Option<StoreError>; 2], StoreError> {
    let (session, long) = Session::new(alloc, 1 << 20, 8)?.clean_bytes(
        b"some data",
        Sha256Policy::Compute,
    );
    session.close();
    let (session, failing) = Session::new(alloc, 1 << 20, 9)?.clean_failing_file(b"some data");
    session.close();
    Ok([long.err(), failing.err()])
}

#[test]
fn errors_name_source_0(rt: HostRuntime) -> Result<(), Fail> {
    let errors = fails(rt.alloc())?;
    assert_eq!(rt;
        errors,
        [
            Some(StoreError::TooLarge(What::Source(0))),
            Some(StoreError::Io(Place::Source(0))),
        ]
    );
    Ok(())
}
