//! Tests of the parts of the shard of `abc`, each read on its own.

use std::alloc::Global;
use std::test::Fail;
use xet_hash::{MerkleHash, Reason, StoreError, compute_data_hash};
use xet_io::SliceReader;
use xet_shard::*;
use xet_shard_samples::{abc_without_lookups, shard_of_abc};

#[test]
fn are_found(rt: HostRuntime) -> Result<(), Fail> {
    let alloc = rt.alloc();
    let (encoding, written) = shard_of_abc(alloc)?;
    let mut reader = SliceReader::new(&encoding);
    let info = MDBShardInfo::load_from_reader(&mut reader)?;
    let chunk = compute_data_hash(b"abc");
    let head = XorbChunkSequenceHeader::new(chunk, 1, 3);
    let totals = (info.materialized_bytes(), info.stored_bytes());
    let unkeyed = info.chunk_hmac_key().is_none();
    let files = info.read_all_file_info_sections(alloc, &mut reader)?.len();
    let blocks = info.read_all_xorb_blocks_full(alloc, &mut reader)?.len();
    let heads = info.read_all_xorb_blocks(alloc, &mut reader)?.as_slice() == [(head, 0)].as_slice();
    let lookups = lookups_are_of(alloc, &info, &mut reader, chunk)?;
    assert_eq!(rt;
        (info == written, info.num_bytes(), totals),
        (true, 672, (3, 3))
    );
    assert_eq!(rt;
        (files, blocks, unkeyed, heads, lookups),
        (1, 1, true, true, true)
    );
    Ok(())
}

/// Whether the xorb and the chunk lookup table lead to this chunk's xorb in row 0.
fn lookups_are_of(
    alloc: Global,
    info: &MDBShardInfo,
    reader: &mut SliceReader,
    chunk: MerkleHash,
) -> Result<bool, StoreError> {
    let word = chunk.word(0);
    let xorbs = info.read_full_xorb_lookup(alloc, reader)?.as_slice() == [(word, 0)].as_slice();
    let chunks = info.read_all_truncated_hashes(alloc, reader)?.as_slice()
        == [(word, (0, 0))].as_slice();
    Ok(xorbs && chunks)
}

#[test]
fn are_found_without_the_lookups(rt: HostRuntime) -> Result<(), Fail> {
    let alloc = rt.alloc();
    let encoding = abc_without_lookups(alloc)?;
    let mut reader = SliceReader::new(&encoding);
    let info = MDBShardInfo::load_from_reader(&mut reader)?;
    let lookups = lookups_are_of(alloc, &info, &mut reader, compute_data_hash(b"abc"))?;
    assert_eq!(rt; (info.num_bytes(), lookups), (632, true));
    Ok(())
}

#[test]
fn are_refused_past_the_end(rt: HostRuntime) -> Result<(), Fail> {
    let alloc = rt.alloc();
    let (encoding, mut info) = shard_of_abc(alloc)?;
    let mut reader = SliceReader::new(&encoding);
    info.metadata.chunk_lookup_num_entry = u64::MAX;
    let chunks = matches!(
        info.read_all_truncated_hashes(alloc, &mut reader),
        Err(StoreError::UnexpectedEof)
    );
    info.metadata.file_lookup_offset = u64::MAX;
    let blocks = matches!(
        info.read_all_xorb_blocks(alloc, &mut reader),
        Err(StoreError::MalformedData(Reason::SectionPlace))
    );
    assert_eq!(rt; (chunks, blocks), (true, true));
    Ok(())
}
