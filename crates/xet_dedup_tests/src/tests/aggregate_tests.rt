//! Tests of files that share a xorb.

ghost use Rattle.std.specs.Prelude.{◌≡◌, IfOk};
ghost use Rattle.xet_aggregate.specs.Aggregate.{IsAggregate};

use crate::errors::TestError;
use crate::list_store::ListStore;
use crate::tests::filing::{Filed, deduplicate};
use crate::tests::samples::{chunks_of_zeros, small_limits};
use crate::tests::shown::error_of;
use std::alloc::Global;
use std::test::Fail;
use xet_aggregate::DataAggregator;
use xet_aggregate::laws::merged_is_aggregate;
use xet_cut::Limits;
use xet_dedup::Finalized;
use xet_hash::{MerkleHash, compute_data_hash, xorb_hash};
use xet_shard_format::{FileDataSequenceEntry, MDBFileInfo};
use xet_xorb::RawXorbData;

/// What is in no xorb yet of a file of 200 zero bytes.
fn rest_of_zeros(alloc: Global, limits: &Limits, file_id: u64) -> Result<DataAggregator, TestError>
    ensures { IfOk result IsAggregate }
{
    let chunks = chunks_of_zeros(alloc)?;
    let store = ListStore::new(alloc, (0, 0));
    match deduplicate(alloc, store, limits, file_id, &chunks, 4) {
        Ok(filed) => Ok(rest_of(filed)),
        Err(unfiled) => Err(error_of(unfiled)),
    }
}

/// What is in no xorb yet of a file.
fn rest_of(filed: Filed) -> DataAggregator
    ensures { result ≡ filed.file.rest }
{
    let Filed { file, batches: _ } = filed;
    let Finalized {
        interface: _,
        hash: _,
        rest,
        metrics: _,
        choices: _,
    } = file;
    rest
}

/// The xorb of two files that share it; and of each its number, its record, and its bytes in the xorb.
fn merged(
    limits: &Limits,
    first: DataAggregator,
    second: DataAggregator,
) -> Result<(RawXorbData, Vec<(u64, MDBFileInfo, u64)>), TestError>
    requires { IsAggregate first × IsAggregate second }
{
    limits.recall_invariant();
    merged_is_aggregate();
    if !first.fits(&second, limits) {
        return Err(TestError::Unexpected);
    }
    let mut both = first;
    both.merge_in(second)?;
    Ok(both.finalize()?)
}

/// Whether a file has this number, 200 bytes in the xorb, and these segments.
fn is_file(
    file: &(u64, MDBFileInfo, u64),
    file_id: u64,
    segments: &[FileDataSequenceEntry],
) -> bool {
    file.0 == file_id && file.1.segments.as_slice() == segments && file.2 == 200
}

/// The segments of a file of 200 zero bytes whose chunks begin at this index of a xorb.
fn segments(xorb: MerkleHash, from: u32) -> [FileDataSequenceEntry; 3] {
    let second = from.saturating_add(1);
    let end = from.saturating_add(2);
    [
        FileDataSequenceEntry::new(xorb, 64, from, second),
        FileDataSequenceEntry::new(xorb, 64, from, second),
        FileDataSequenceEntry::new(xorb, 72, from, end),
    ]
}

/// Whether a xorb has four chunks, with files from the first and the third on, and whether each of the files is right.
fn is_merged(
    alloc: Global,
    xorb: &RawXorbData,
    files: &[(u64, MDBFileInfo, u64)],
) -> Result<[bool; 4], TestError> {
    let full = (compute_data_hash(&[0; 64]), 64);
    let rest = (compute_data_hash(&[0; 8]), 8);
    let hash = xorb_hash(alloc, &[full, rest, full, rest])?;
    let boundaries = xorb.file_boundaries.as_slice() == [0, 2].as_slice();
    match files {
        [first, second] => Ok([
            xorb.hash() == hash && xorb.parts.as_slice().len() == 4,
            boundaries,
            is_file(first, 1, &segments(hash, 0)),
            is_file(second, 2, &segments(hash, 2)),
        ]),
        _ => Err(TestError::OtherXorb),
    }
}

#[test]
fn two_files_share_a_xorb(rt: HostRuntime) -> Result<(), Fail> {
    let alloc = rt.alloc();
    let limits = small_limits([0; 256])?;
    let first = rest_of_zeros(alloc, &limits, 1)?;
    let second = rest_of_zeros(alloc, &limits, 2)?;
    let (xorb, files) = merged(&limits, first, second)?;
    assert_eq!(rt; is_merged(alloc, &xorb, &files)?, [true; 4]);
    Ok(())
}
