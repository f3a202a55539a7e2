//! Tests of whether a file may be recorded.

use crate::tests::samples::{FILE, empty, last_range, record, unverified, xorbs};
use indexmap::IndexMap;
use std::alloc::Global;
use std::test::Fail;
use xet_completion::can_complete;
use xet_folder::Leaves;
use xet_hash::{MerkleHash, StoreError};

/// Whether the record with this hash, this end of the last segment and this range hash of it may be recorded.
fn completes(
    alloc: Global,
    xorbs: &IndexMap<MerkleHash, Leaves>,
    hash: MerkleHash,
    end: u32,
    range: MerkleHash,
) -> Result<bool, StoreError> {
    can_complete(alloc, xorbs, &record(alloc, hash, end, range)?)
}

/// Whether the file's record may be recorded, and likewise with another end, hash or range hash.
fn answers(alloc: Global, xorbs: &IndexMap<MerkleHash, Leaves>) -> Result<[bool; 5], StoreError> {
    let hash = MerkleHash::from_hex(FILE)?;
    let range = last_range();
    Ok([
        completes(alloc, xorbs, hash, 2, range)?,
        completes(alloc, xorbs, hash, 3, range)?,
        completes(alloc, xorbs, range, 2, range)?,
        completes(alloc, xorbs, hash, 2, hash)?,
        completes(alloc, xorbs, MerkleHash::marker(), 2, range)?,
    ])
}

/// Whether the file's record without verification rows may be recorded, and a record without segments.
fn others(alloc: Global, xorbs: &IndexMap<MerkleHash, Leaves>) -> Result<[bool; 2], StoreError> {
    Ok([
        can_complete(alloc, xorbs, &unverified(alloc)?)?,
        can_complete(alloc, xorbs, &empty(alloc))?,
    ])
}

#[test]
fn only_the_record_of_the_file_completes(rt: HostRuntime) -> Result<(), Fail> {
    let table = xorbs(rt.alloc())?;
    let answers = answers(rt.alloc(), &table);
    assert_eq!(rt; answers?, [true, false, false, false, false]);
    Ok(())
}

#[test]
fn verification_rows_may_lack_and_segments_may_not(rt: HostRuntime) -> Result<(), Fail> {
    let table = xorbs(rt.alloc())?;
    let answers = others(rt.alloc(), &table);
    assert_eq!(rt; answers?, [true, false]);
    Ok(())
}

#[test]
fn unlisted_xorbs_do_not_complete(rt: HostRuntime) -> Result<(), Fail> {
    let table = IndexMap::new(rt.alloc());
    let answers = answers(rt.alloc(), &table);
    assert_eq!(rt; answers?, [false; 5]);
    Ok(())
}
