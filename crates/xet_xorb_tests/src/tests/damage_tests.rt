//! Errors of damaged footers.

use super::abc::XORB_OF_ABC;
use std::alloc::Global;
use std::test::Fail;
use xet_hash::{Reason, StoreError};
use xet_io::SliceReader;
use xet_xorb::*;

/// The result of reading the footer at the end of these bytes.
fn answer(alloc: Global, encoding: &[u8]) -> &'static str {
    let mut reader = SliceReader::new(encoding);
    match XorbObject::deserialize(alloc, &mut reader).err() {
        None => "read",
        Some(StoreError::UnexpectedEof) => "end",
        Some(StoreError::MalformedData(reason)) => name_of(reason),
        Some(_) => "other",
    }
}

/// A name for the check of a footer.
fn name_of(reason: Reason) -> &'static str {
    match reason {
        Reason::Ident => "ident",
        Reason::Version => "version",
        Reason::HashesIdent => "ident of hashes",
        Reason::HashesVersion => "version of hashes",
        Reason::ChunkCount => "count",
        Reason::BoundariesIdent => "ident of boundaries",
        Reason::BoundariesVersion => "version of boundaries",
        Reason::CountMismatch => "count again",
        Reason::HashesOffset => "offset of hashes",
        Reason::BoundaryOffset => "offset of boundaries",
        Reason::InfoLength => "length",
        _ => "other",
    }
}

/// The results after each byte in turn was complemented: each change of the result, with its offset.
fn answers_of_changes(alloc: Global) -> Result<Vec<(usize, &'static str)>, StoreError> {
    let mut found: Vec<(usize, &'static str)> = Vec::new(alloc);
    let mut last = "";
    for at in 0..XORB_OF_ABC.len() {
        let mut encoding = XORB_OF_ABC;
        encoding[at] = !encoding[at];
        let now = answer(alloc, &encoding);
        if now != last {
            found.push((at, now))?;
            last = now;
        }
    }
    Ok(found)
}

/// The results of each prefix of the xorb: each change of the result, with the length of the prefix.
fn answers_of_cuts(alloc: Global) -> Result<Vec<(usize, &'static str)>, StoreError> {
    let mut found: Vec<(usize, &'static str)> = Vec::new(alloc);
    let mut last = "";
    for len in 0..XORB_OF_ABC.len() + 1 {
        let now = answer(alloc, &XORB_OF_ABC[..len]);
        if now != last {
            found.push((len, now))?;
            last = now;
        }
    }
    Ok(found)
}

/// The expected results of changed bytes.
const CHANGED: [(usize, &str); 19] = [
    (0, "read"),
    (11, "ident"),
    (18, "version"),
    (19, "read"),
    (51, "ident of hashes"),
    (58, "version of hashes"),
    (59, "end"),
    (62, "count"),
    (63, "read"),
    (95, "ident of boundaries"),
    (102, "version of boundaries"),
    (103, "count again"),
    (107, "read"),
    (115, "count again"),
    (119, "offset of hashes"),
    (123, "offset of boundaries"),
    (127, "read"),
    (143, "ident"),
    (144, "end"),
];

/// The expected results of prefixes. If the last four bytes of a prefix are a small number, they are taken as the
/// length of a footer before them.
const CUT: [(usize, &str); 10] = [
    (0, "end"),
    (111, "ident"),
    (112, "end"),
    (115, "ident"),
    (116, "end"),
    (123, "ident"),
    (124, "end"),
    (127, "ident"),
    (128, "end"),
    (147, "read"),
];

#[test]
fn each_byte_changed(rt: HostRuntime) -> Result<(), Fail> {
    assert_eq!(rt;
        answers_of_changes(rt.alloc())?.as_slice(),
        CHANGED.as_slice()
    );
    Ok(())
}

#[test]
fn cut_at_each_length(rt: HostRuntime) -> Result<(), Fail> {
    assert_eq!(rt; answers_of_cuts(rt.alloc())?.as_slice(), CUT.as_slice());
    Ok(())
}
