//! Tests of the records with which deduplications end, and of batches without chunks.

use crate::errors::TestError;
use crate::list_store::ListStore;
use crate::tests::filing::{Filed, deduplicate_stream, deduplicate_with};
use crate::tests::samples::{FILE, block, blocks, metrics, small_limits};
use crate::tests::shown::{Shown, error_of, look_at};
use std::alloc::Global;
use std::test::Fail;
use xet_dedup::Finalized;
use xet_hash::{MerkleHash, file_hash};
use xet_shard_format::{FileMetadataExt, Sha256};

/// What a file's end says of it.
#[derive(Clone, Copy, PartialEq, Eq, Debug)]
struct Ending {
    /// File hash.
    hash: MerkleHash,
    /// The flags of its record.
    flags: u32,
    /// The numbers of segments by the header, of segments, and of verification rows.
    rows: (u32, usize, usize),
    /// The SHA-256 of its record.
    sha256: Option<Sha256>,
}

/// Deduplicates so many blocks against an empty store, in one batch. The file has this metadata, if any.
fn end_of(
    alloc: Global,
    count: u8,
    metadata_ext: Option<FileMetadataExt>,
) -> Result<Option<Ending>, TestError> {
    let limits = small_limits([0; 256])?;
    let chunks = blocks(alloc, count)?;
    let store = ListStore::new(alloc, (0, 0));
    match deduplicate_with(alloc, store, &limits, FILE, &chunks, 255, metadata_ext) {
        Ok(filed) => Ok(ending_of(filed)),
        Err(unfiled) => Err(error_of(unfiled)),
    }
}

/// What the end of a file says of it; none if it is not the only one that waits for the xorb.
fn ending_of(filed: Filed) -> Option<Ending> {
    let Filed { file, batches: _ } = filed;
    let Finalized {
        interface: _,
        hash,
        rest,
        metrics: _,
        choices: _,
    } = file;
    match rest.pending_file_info() {
        [file] => Some(Ending {
            hash,
            flags: file.0.metadata.file_flags,
            rows: (
                file.0.metadata.num_entries,
                file.0.segments.as_slice().len(),
                file.0.verification.as_slice().len(),
            ),
            sha256: file.0.metadata_ext.map(|metadata| metadata.sha256),
        }),
        _ => None,
    }
}

#[test]
fn record_has_the_metadata_of_its_file(rt: HostRuntime) -> Result<(), Fail> {
    let alloc = rt.alloc();
    let hash = file_hash(alloc, &[block(1), block(2)])?;
    let sha256 = Sha256::from_bytes([7; 32]);
    let plain = Ending {
        hash,
        flags: 2_147_483_648,
        rows: (1, 1, 1),
        sha256: None,
    };
    let with_metadata = Ending {
        flags: 3_221_225_472,
        sha256: Some(sha256),
        ..plain
    };
    assert_eq!(rt; end_of(alloc, 2, None)?, Some(plain));
    assert_eq!(rt;
        end_of(alloc, 2, Some(FileMetadataExt::new(sha256)))?,
        Some(with_metadata)
    );
    Ok(())
}

#[test]
fn record_of_no_chunks_has_no_rows(rt: HostRuntime) -> Result<(), Fail> {
    let ending = Ending {
        hash: MerkleHash::from_bytes([0; 32]),
        flags: 2_147_483_648,
        rows: (0, 0, 0),
        sha256: None,
    };
    assert_eq!(rt; end_of(rt.alloc(), 0, None)?, Some(ending));
    Ok(())
}

/// Deduplicates so many zero bytes that come in pieces of 50, against an empty store.
fn zeros_in_pieces(alloc: Global, count: usize) -> Result<Shown, TestError> {
    let limits = small_limits([0; 256])?;
    let store = ListStore::new(alloc, (0, 0));
    let bytes = vec![in alloc; 0; count]?;
    look_at(
        alloc,
        deduplicate_stream(alloc, store, &limits, FILE, &bytes, 50),
    )
}

#[test]
fn batches_without_chunks_count_nothing(rt: HostRuntime) -> Result<(), Fail> {
    let alloc = rt.alloc();
    let nothing = metrics([(0, 0); 5]);
    let stored = metrics([(1, 64), (0, 0), (1, 64), (0, 0), (0, 0)]);
    let last = metrics([(1, 6), (0, 0), (1, 6), (0, 0), (0, 0)]);
    assert_eq!(rt;
        zeros_in_pieces(alloc, 70)?.batches.as_slice(),
        [nothing, stored, last].as_slice()
    );
    let empty = zeros_in_pieces(alloc, 0)?;
    assert_eq!(rt; empty.batches.as_slice(), [nothing].as_slice());
    assert_eq!(rt; empty.events.as_slice().len(), 0);
    assert_eq!(rt; empty.segments.as_slice().len(), 0);
    Ok(())
}
