//! Tests of cleaning several sources in one call.

use crate::session::Session;
use std::alloc::Global;
use std::test::Fail;
use xet_clean::Cleaned;
use xet_hash::{MerkleHash, Place, StoreError};
use xet_io::FailingSource;

/// The hash of the file `abc`, in hexadecimal.
const ABC: &str = "8679a9c73b087ee02033e84569cba8c79c2413d79f99a1e9bd1ae79ae88776cf";

/// Three files; after how many bytes the source of each fails; the error; and the files of the result and the
/// recorded ones, each as a letter.
type Row = (
    [&'static [u8]; 3],
    [u64; 3],
    Option<StoreError>,
    &'static [u8],
);

/// A source that does not fail.
const NEVER: u64 = u64::MAX;

/// A file of two chunks, which fill a xorb: 64 zeros and 36.
const TWO_CHUNKS: [u8; 100] = [0; 100];

/// The chunk of `abc` waits for its xorb until one comes that does not fit: `abc` is recorded then, or at the end.
const ROWS: [Row; 5] = [
    ([b"abc", b"", b"abc"], [NEVER, NEVER, NEVER], None, b"a0a|a"),
    (
        [b"abc", b"", b"abc"],
        [NEVER, 0, NEVER],
        Some(StoreError::Io(Place::Source(1))),
        b"|",
    ),
    (
        [b"abc", &TWO_CHUNKS, b"abc"],
        [NEVER, NEVER, 1],
        Some(StoreError::Io(Place::Source(2))),
        b"|a",
    ),
    (
        [b"abc", &TWO_CHUNKS, b"abc"],
        [NEVER, 1, NEVER],
        Some(StoreError::Io(Place::Source(1))),
        b"|",
    ),
    (
        [b"abc", b"", b""],
        [2, NEVER, NEVER],
        Some(StoreError::Io(Place::Source(0))),
        b"|",
    ),
];

/// A file as a letter: `0` the empty one, `a` the file `abc`, `?` any other.
fn letter(alloc: Global, hash: &MerkleHash, len: u64) -> Result<u8, StoreError> {
    if *hash == MerkleHash::default() && len == 0 {
        return Ok(b'0');
    }
    let encoding = hash.hex(alloc)?;
    Ok(if encoding.as_str() == ABC && len == 3 {
        b'a'
    } else {
        b'?'
    })
}

/// Appends the files of a result, each as a letter.
fn push_result(alloc: Global, cleaned: &Cleaned, text: &mut Vec<u8>) -> Result<(), StoreError> {
    for info in &cleaned.infos {
        text.push(letter(alloc, &info.hash, info.file_size)?)?;
    }
    Ok(())
}

/// The files of a result and the recorded ones of a session, each as a letter.
fn shown(
    alloc: Global,
    session: &Session,
    answer: &Result<Cleaned, StoreError>,
) -> Result<(Option<StoreError>, Vec<u8>), StoreError> {
    let mut text = Vec::new(alloc);
    let error = match answer {
        Ok(cleaned) => {
            push_result(alloc, cleaned, &mut text)?;
            None
        }
        Err(error) => Some(*error),
    };
    text.push(b'|')?;
    for (hash, len) in &session.files()? {
        text.push(letter(alloc, hash, *len)?)?;
    }
    Ok((error, text))
}

/// Cleans three sources: the error, and what the session shows then.
fn cleans_three(
    alloc: Global,
    files: [&'static [u8]; 3],
    fail_at: [u64; 3],
) -> Result<(Option<StoreError>, Vec<u8>), StoreError> {
    let mut sources = [
        FailingSource::new(files[0], fail_at[0]),
        FailingSource::new(files[1], fail_at[1]),
        FailingSource::new(files[2], fail_at[2]),
    ];
    let (session, result) = Session::new(alloc)?.clean_sources(&mut sources);
    let answer = shown(alloc, &session, &result);
    session.closed(answer)
}

#[test]
fn cleans_sources_in_turn(rt: HostRuntime) -> Result<(), Fail> {
    for (files, fail_at, error, text) in ROWS {
        let (found, shown) = cleans_three(rt.alloc(), files, fail_at)?;
        assert_eq!(rt; found, error);
        assert_eq!(rt; shown.as_slice(), text);
    }
    Ok(())
}
