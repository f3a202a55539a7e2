//! Tests of sources that fail, or that are too long.

use crate::session::Session;
use std::alloc::Global;
use std::test::Fail;
use xet_clean::Cleaned;
use xet_hash::{Place, StoreError, What};
use xet_io::Op;

/// A length that nothing here passes.
const LONG: u64 = 1 << 20;

/// The error of a call.
fn error_of(answer: &Result<Cleaned, StoreError>) -> Option<StoreError> {
    match answer {
        Ok(_) => None,
        Err(error) => Some(*error),
    }
}

/// The error of a session, its history and its counts.
fn seen(
    session: &Session,
    answer: &Result<Cleaned, StoreError>,
) -> Result<(Option<StoreError>, String, [u64; 3]), StoreError> {
    Ok((error_of(answer), session.history()?, session.counts()?))
}

/// Cleans a source that fails.
fn fails(alloc: Global) -> Result<(Option<StoreError>, String, [u64; 3]), StoreError> {
    let (session, answer) = Session::new(alloc, LONG, LONG)?.clean_failing(b"abc");
    let seen = seen(&session, &answer);
    session.close();
    seen
}

#[test]
fn a_failing_source_is_named(rt: HostRuntime) -> Result<(), Fail> {
    let (error, history, counts) = fails(rt.alloc())?;
    assert!(rt; matches!(error, Some(StoreError::Io(Place::Source(0)))));
    assert_eq!(rt; history.as_str(), "");
    assert_eq!(rt; counts, [0, 0, 0]);
    Ok(())
}

/// Cleans `abc`, and a source that is one byte too long.
fn is_too_long(alloc: Global) -> Result<(Option<StoreError>, String, [u64; 3]), StoreError> {
    let (session, answer) = Session::new(alloc, LONG, 200)?.clean_two(b"abc", &[0; 201]);
    let seen = seen(&session, &answer);
    session.close();
    seen
}

#[test]
fn a_source_that_is_too_long_is_named(rt: HostRuntime) -> Result<(), Fail> {
    let (error, history, counts) = is_too_long(rt.alloc())?;
    assert!(rt; matches!(error, Some(StoreError::TooLarge(What::Source(1)))));
    assert_eq!(rt; history.as_str(), "Q");
    assert_eq!(rt; counts, [0, 0, 0]);
    Ok(())
}

/// Cleans a source of exactly as many bytes as the limits allow.
fn is_longest(alloc: Global) -> Result<(Option<StoreError>, String, [u64; 3]), StoreError> {
    let (session, answer) = Session::new(alloc, LONG, 200)?.clean(&[0; 200]);
    let seen = seen(&session, &answer);
    session.close();
    seen
}

#[test]
fn a_source_of_the_maximum_length_is_cleaned(rt: HostRuntime) -> Result<(), Fail> {
    let (error, history, counts) = is_longest(rt.alloc())?;
    assert!(rt; error.is_none());
    assert_eq!(rt; history.as_str(), "QQQQRC");
    assert_eq!(rt; counts, [1, 1, 0]);
    Ok(())
}

/// Cleans `abc`, and a source that fails after 100 bytes, of which a block was read.
fn fails_later(alloc: Global) -> Result<(Option<StoreError>, String, [u64; 3]), StoreError> {
    let session = Session::of_small_xorbs(alloc)?;
    let (session, answer) = session.clean_two_failing(b"abc", &[0; 200], 100);
    let seen = seen(&session, &answer);
    session.close();
    seen
}

#[test]
fn a_source_that_fails_later_is_not_recorded(rt: HostRuntime) -> Result<(), Fail> {
    let (error, history, counts) = fails_later(rt.alloc())?;
    assert!(rt; matches!(error, Some(StoreError::Io(Place::Source(1)))));
    assert_eq!(rt; history.as_str(), "QQ");
    assert_eq!(rt; counts, [0, 0, 0]);
    Ok(())
}

/// Whether a flush failed because the disk did, and the history and the counts then.
fn flush_seen(session: &mut Session) -> Result<(bool, String, [u64; 3]), StoreError> {
    let failed = match session.flush() {
        Ok(_) => false,
        Err(error) => error == StoreError::Io(Place::Disk),
    };
    Ok((failed, session.history()?, session.counts()?))
}

/// What is seen of two flushes.
type Flushes = Result<[(bool, String, [u64; 3]); 2], StoreError>;

/// Flushes twice.
fn flushes_twice(session: &mut Session, answer: &Result<Cleaned, StoreError>) -> Flushes {
    if let Err(error) = answer {
        return Err(*error);
    }
    let first = flush_seen(session)?;
    let second = flush_seen(session)?;
    Ok([first, second])
}

/// Cleans `abc`, and flushes twice. The second rename, which is of the shard, fails.
fn rename_fails(alloc: Global) -> Flushes {
    let fails = vec![in alloc; (Op::Rename, 1)]?;
    let (mut session, answer) = Session::failing(alloc, fails)?.clean(b"abc");
    let seen = flushes_twice(&mut session, &answer);
    session.close();
    seen
}

#[test]
fn a_file_is_pending_after_a_flush_that_failed(rt: HostRuntime) -> Result<(), Fail> {
    let [
        (failed, history, counts),
        (again, history_then, counts_then),
    ] = rename_fails(rt.alloc())?;
    assert_eq!(rt;
        (failed, history.as_str(), counts),
        (true, "QRC!", [1, 1, 0])
    );
    assert_eq!(rt;
        (again, history_then.as_str(), counts_then),
        (false, "QRC!F", [1, 1, 1])
    );
    Ok(())
}
