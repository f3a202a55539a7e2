//! Tests of cleaning: histories, choices and metrics. What a session shows is collected first, and then compared at once.

use crate::session::{Session, shown};
use std::alloc::Global;
use std::test::Fail;
use xet_clean::Cleaned;
use xet_dedup::DeduplicationMetrics;
use xet_hash::StoreError;
use xet_store_disk::XetFileInfo;

/// A target length of shards, and a maximum length of sources, that nothing here passes.
const LONG: u64 = 1 << 20;

/// 200 zero bytes: chunks of 64, 64, 64 and 8 bytes.
const ZEROS: [u8; 200] = [0; 200];

/// The choices for the chunks of a source.
fn choices_of(
    alloc: Global,
    cleaned: &Cleaned,
    source: usize,
) -> Result<Vec<(char, u64)>, StoreError> {
    let mut all = Vec::new(alloc);
    if let Some(choices) = cleaned.choices.get(source) {
        for choice in choices.as_slice() {
            all.push(shown(choice))?;
        }
    }
    Ok(all)
}

/// Bytes and chunks: all, deduplicated, new.
fn sums(metrics: &DeduplicationMetrics) -> [u64; 6] {
    [
        metrics.total_bytes,
        metrics.deduped_bytes,
        metrics.new_bytes,
        metrics.total_chunks,
        metrics.deduped_chunks,
        metrics.new_chunks,
    ]
}

/// What a session shows of a cleaned source.
#[derive(Drop)]
struct Report {
    info: XetFileInfo,
    choices: Vec<(char, u64)>,
    sums: [u64; 6],
    history: String,
    counts: [u64; 3],
    segments: Vec<(u32, u32, u32)>,
    bytes: Vec<u8>,
}

/// The same of a source of those that were cleaned.
fn seen(
    alloc: Global,
    session: &mut Session,
    answer: &Result<Cleaned, StoreError>,
    source: usize,
) -> Result<Report, StoreError> {
    match answer {
        Ok(cleaned) => seen_of(alloc, session, cleaned, source),
        Err(error) => Err(*error),
    }
}

/// The same without an error.
fn seen_of(
    alloc: Global,
    session: &mut Session,
    cleaned: &Cleaned,
    source: usize,
) -> Result<Report, StoreError> {
    let info = match cleaned.infos.get(source) {
        Some(info) => *info,
        None => return Err(StoreError::FileNotFound),
    };
    let hash = info.hash;
    Ok(Report {
        info,
        choices: choices_of(alloc, cleaned, source)?,
        sums: sums(&cleaned.metrics),
        history: session.history()?,
        counts: session.counts()?,
        segments: session.segments(&hash)?,
        bytes: session.ten_bytes(&hash)?,
    })
}

/// Cleans the zeros once.
fn cleans_once(alloc: Global) -> Result<Report, StoreError> {
    let (mut session, answer) = Session::new(alloc, LONG, LONG)?.clean(&ZEROS);
    let seen = seen(alloc, &mut session, &answer, 0);
    session.close();
    seen
}

#[test]
fn zeros_are_deduplicated(rt: HostRuntime) -> Result<(), Fail> {
    let seen = cleans_once(rt.alloc())?;
    assert_eq!(rt;
        seen.choices.as_slice(),
        [('n', 0), ('r', 1), ('r', 2), ('n', 3)].as_slice()
    );
    assert_eq!(rt; seen.sums, [200, 128, 72, 4, 2, 2]);
    assert_eq!(rt; seen.history.as_str(), "QQQQRC");
    assert_eq!(rt; seen.counts, [1, 1, 0]);
    assert_eq!(rt;
        seen.segments.as_slice(),
        [(0, 1, 64), (0, 1, 64), (0, 2, 72)].as_slice()
    );
    assert_eq!(rt; seen.bytes.as_slice(), [0; 10].as_slice());
    Ok(())
}

/// Cleans the zeros so often in one call. Returns the lengths of the xorbs that are in the folder then.
fn xorb_lengths(alloc: Global, times: usize) -> Result<Vec<usize>, StoreError> {
    let session = Session::new(alloc, LONG, LONG)?;
    let (session, answer) = if times == 1 {
        session.clean(&ZEROS)
    } else {
        session.clean_two(&ZEROS, &ZEROS)
    };
    measured(session, &answer)
}

/// The lengths of the xorbs that are in the folder, if cleaning had no error.
fn measured(
    session: Session,
    answer: &Result<Cleaned, StoreError>,
) -> Result<Vec<usize>, StoreError> {
    let lengths = session.close_and_measure();
    match answer {
        Ok(_) => lengths,
        Err(error) => Err(*error),
    }
}

#[test]
fn zeros_are_in_one_xorb(rt: HostRuntime) -> Result<(), Fail> {
    // For each chunk a header of 8 bytes, its bytes and 40 bytes of the footer, which has 96 more.
    assert_eq!(rt;
        xorb_lengths(rt.alloc(), 1)?.as_slice(),
        [2 * 48 + 72 + 96].as_slice()
    );
    assert_eq!(rt;
        xorb_lengths(rt.alloc(), 2)?.as_slice(),
        [4 * 48 + 144 + 96].as_slice()
    );
    Ok(())
}

/// Cleans the zeros, and again.
fn cleans_again(alloc: Global) -> Result<Report, StoreError> {
    let (session, first) = Session::new(alloc, LONG, LONG)?.clean(&ZEROS);
    let (mut session, second) = session.clean(&ZEROS);
    let seen = seen_after(alloc, &mut session, &first, &second);
    session.close();
    seen
}

/// What is seen after the second cleaning, if the first had no error.
fn seen_after(
    alloc: Global,
    session: &mut Session,
    first: &Result<Cleaned, StoreError>,
    second: &Result<Cleaned, StoreError>,
) -> Result<Report, StoreError> {
    match first {
        Ok(_) => seen(alloc, session, second, 0),
        Err(error) => Err(*error),
    }
}

#[test]
fn the_same_again_registers_nothing(rt: HostRuntime) -> Result<(), Fail> {
    let seen = cleans_again(rt.alloc())?;
    assert_eq!(rt;
        seen.choices.as_slice(),
        [('r', 0), ('r', 1), ('r', 2), ('r', 2)].as_slice()
    );
    assert_eq!(rt; seen.sums, [200, 200, 0, 4, 4, 0]);
    assert_eq!(rt; seen.history.as_str(), "QQQQRCqqqqc");
    assert_eq!(rt; seen.counts, [1, 1, 0]);
    Ok(())
}

/// Cleans the zeros twice in one call.
fn cleans_two(alloc: Global) -> Result<(Report, Report), StoreError> {
    let (mut session, answer) = Session::new(alloc, LONG, LONG)?.clean_two(&ZEROS, &ZEROS);
    let first = seen(alloc, &mut session, &answer, 0);
    let second = seen(alloc, &mut session, &answer, 1);
    session.close();
    Ok((first?, second?))
}

#[test]
fn the_same_twice_in_one_call(rt: HostRuntime) -> Result<(), Fail> {
    let (first, second) = cleans_two(rt.alloc())?;
    assert_eq!(rt; first.info, second.info);
    assert_eq!(rt; first.history.as_str(), "QQQQQQQQRCc");
    assert_eq!(rt;
        first.choices.as_slice(),
        [('n', 0), ('r', 1), ('r', 2), ('n', 3)].as_slice()
    );
    assert_eq!(rt;
        second.choices.as_slice(),
        [('n', 4), ('r', 1), ('r', 2), ('n', 7)].as_slice()
    );
    assert_eq!(rt; second.sums, [400, 256, 144, 8, 4, 4]);
    assert_eq!(rt; second.counts, [1, 1, 0]);
    assert_eq!(rt;
        second.segments.as_slice(),
        [(0, 1, 64), (0, 1, 64), (0, 2, 72)].as_slice()
    );
    Ok(())
}

/// Cleans `abc`, and flushes.
fn cleans_abc(alloc: Global, shard_target: u64) -> Result<(String, bool, [u64; 3]), StoreError> {
    let (mut session, answer) = Session::new(alloc, shard_target, LONG)?.clean(b"abc");
    let seen = flushes(&mut session, &answer);
    session.close();
    seen
}

/// The history before a flush, whether something was flushed, and the counts then.
fn flushes(
    session: &mut Session,
    answer: &Result<Cleaned, StoreError>,
) -> Result<(String, bool, [u64; 3]), StoreError> {
    if let Err(error) = answer {
        return Err(*error);
    }
    let history = session.history()?;
    let flushed = session.flush()?;
    Ok((history, flushed, session.counts()?))
}

#[test]
fn a_record_that_passes_the_target_is_cut(rt: HostRuntime) -> Result<(), Fail> {
    let (history, flushed, counts) = cleans_abc(rt.alloc(), 671)?;
    assert_eq!(rt; history.as_str(), "QRFC");
    assert_eq!(rt; (flushed, counts), (true, [1, 1, 2]));
    let (history, flushed, counts) = cleans_abc(rt.alloc(), 672)?;
    assert_eq!(rt; history.as_str(), "QRC");
    assert_eq!(rt; (flushed, counts), (true, [1, 1, 1]));
    Ok(())
}

/// Cleans a file of no bytes.
fn cleans_nothing(alloc: Global) -> Result<(String, [u64; 3], u64), StoreError> {
    let (session, answer) = Session::new(alloc, LONG, LONG)?.clean(&[]);
    let seen = nothing_of(&session, &answer);
    session.close();
    seen
}

/// The history, the counts, and the length of the only file.
fn nothing_of(
    session: &Session,
    answer: &Result<Cleaned, StoreError>,
) -> Result<(String, [u64; 3], u64), StoreError> {
    match answer {
        Ok(cleaned) => Ok((
            session.history()?,
            session.counts()?,
            cleaned.infos.first().map_or(1, |info| info.file_size),
        )),
        Err(error) => Err(*error),
    }
}

#[test]
fn a_file_of_no_bytes_is_not_recorded(rt: HostRuntime) -> Result<(), Fail> {
    let (history, counts, length) = cleans_nothing(rt.alloc())?;
    assert_eq!(rt; history.as_str(), "");
    assert_eq!(rt; (counts, length), ([0, 0, 0], 0));
    Ok(())
}
