//! Tests of which check of a damaged section fails first.

use std::alloc::Global;
use std::test::Fail;
use xet_hash::{Reason, StoreError};
use xet_io::SliceReader;
use xet_shard::MDBShardInfo;

/// Sets bytes of the rows, each at its offset.
fn set(rows: &mut [u8; 192], bytes: &[(usize, u8)]) {
    for (at, byte) in bytes {
        if let Some(place) = rows.get_mut(*at) {
            *place = *byte;
        }
    }
}

/// The error of reading a xorb section of `len` bytes that starts with these rows, of which some bytes are
/// changed: the header of a xorb of one chunk, its chunk of 5 bytes, the header of a xorb of none, the end
/// row.
fn error(alloc: Global, len: u64, changed: &[(usize, u8)]) -> Option<StoreError> {
    let mut rows = [0; 192];
    set(&mut rows, &[(0, 1), (36, 1), (40, 5), (84, 5), (96, 2)]);
    rows[144..176].copy_from_slice(&[0xff; 32]);
    set(&mut rows, changed);
    let mut info = MDBShardInfo::default();
    info.metadata.file_lookup_offset = len;
    let mut reader = SliceReader::new(&rows);
    let read = info.read_all_xorb_blocks_full(alloc, &mut reader);
    read.err()
}

/// Whether the error is the expected one.
fn is(alloc: Global, len: u64, changed: &[(usize, u8)], expected: Option<Reason>) -> bool {
    match (error(alloc, len, changed), expected) {
        (None, None) => true,
        (Some(StoreError::MalformedData(reason)), Some(expected)) => reason == expected,
        _ => false,
    }
}

#[test]
fn a_record_leaves_its_section_is_broken_or_out_of_order(rt: HostRuntime) -> Result<(), Fail> {
    let alloc = rt.alloc();
    let (place, entry, order) = (
        Some(Reason::SectionPlace),
        Some(Reason::SectionEntry),
        Some(Reason::SectionOrder),
    );
    assert!(rt; is(alloc, 192, &[], None));
    // The second xorb has the hash of the first; then also a flag; then also more chunks than there are rows
    // left.
    assert!(rt; is(alloc, 192, &[(96, 1)], order));
    assert!(rt; is(alloc, 192, &[(96, 1), (128, 1)], entry));
    assert!(rt; is(alloc, 192, &[(96, 1), (128, 1), (132, 2)], place));
    // The second xorb takes the end row as its chunk, so no end row is left.
    assert!(rt; is(alloc, 192, &[(132, 1)], place));
    assert!(rt; is(alloc, 192, &[(96, 1), (132, 1)], order));
    // The first xorb's total is not that of its chunk.
    assert!(rt; is(alloc, 192, &[(40, 6)], entry));
    // A number of the end row is not 0.
    assert!(rt; is(alloc, 192, &[(191, 1)], entry));
    Ok(())
}

#[test]
fn a_section_is_whole_rows(rt: HostRuntime) -> Result<(), Fail> {
    let alloc = rt.alloc();
    let place = Some(Reason::SectionPlace);
    assert!(rt; is(alloc, 0, &[], place));
    assert!(rt; is(alloc, 144, &[], place));
    assert!(rt; is(alloc, 191, &[], place));
    assert!(rt; is(alloc, 193, &[], place));
    Ok(())
}
