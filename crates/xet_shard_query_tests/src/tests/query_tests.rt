//! Tests of queries to a shard in memory.

ghost use Rattle.std.specs.Prelude.{◌≡◌, IfOk, length};
ghost use Rattle.xet_hash.specs.Hash.{zero_hash};
ghost use Rattle.xet_shard.specs.Held.{nothing};
ghost use Rattle.xet_shard_format.specs.Records.{IsXorb, xorb_record_hash, xorb_rows};

use super::asked_tests::Run;
use std::alloc::Global;
use std::test::Fail;
use xet_base::Items;
use xet_hash::{MerkleHash, StoreError, compute_data_hash};
use xet_shard::*;
use xet_shard_samples::{file_of_abc, release};

/// The xorb whose hash is zero, and whose three chunks have these hashes and ten bytes each.
fn xorb_of(alloc: Global, chunks: [MerkleHash; 3]) -> Result<MDBXorbInfo, StoreError>
    ensures form { IfOk result IsXorb }
    ensures hash { IfOk result (λ xorb. xorb_record_hash xorb ≡ zero_hash) }
    ensures rows { IfOk result (λ xorb. length (xorb_rows xorb) ≡ 4) }
{
    let [first, second, third] = chunks;
    Ok(MDBXorbInfo {
        metadata: XorbChunkSequenceHeader::new(MerkleHash::default(), 3, 30),
        chunks: Items::from_vec(vec![in alloc;
            XorbChunkSequenceEntry::new(first, 10, 0),
            XorbChunkSequenceEntry::new(second, 10, 10),
            XorbChunkSequenceEntry::new(third, 10, 20),
        ]?),
    })
}

/// Three hashes: 32 bytes 1, 32 bytes 2 and 32 bytes 3.
fn three_hashes() -> [MerkleHash; 3] {
    [
        MerkleHash::from_bytes([1; 32]),
        MerkleHash::from_bytes([2; 32]),
        MerkleHash::from_bytes([3; 32]),
    ]
}

/// The result of a query to a shard of one xorb, whose chunks have these hashes.
fn queried(
    alloc: Global,
    chunks: [MerkleHash; 3],
    query: &[MerkleHash],
) -> Result<Run, StoreError> {
    let mut shard = MDBInMemoryShard::new(alloc);
    let answer = added_and_queried(alloc, &mut shard, chunks, query);
    release(shard);
    answer
}

/// The same of this shard, which is empty.
fn added_and_queried(
    alloc: Global,
    shard: &mut MDBInMemoryShard,
    chunks: [MerkleHash; 3],
    query: &[MerkleHash],
) -> Result<Run, StoreError>
    requires { shard.old ≡ nothing }
{
    shard.add_xorb_block(xorb_of(alloc, chunks)?)?;
    Ok(shard.chunk_hash_dedup_query(query))
}

#[test]
fn a_run_begins_at_the_last_place_and_ends_where_a_hash_differs(
    rt: HostRuntime,
) -> Result<(), Fail> {
    let [a, b, c] = three_hashes();
    let xorb = MerkleHash::default();
    let rows: [([MerkleHash; 3], &[MerkleHash], Run); 5] = [
        (
            [a, b, c],
            &[b, c, a],
            Some((2, FileDataSequenceEntry::new(xorb, 20, 1, 3))),
        ),
        (
            [a, b, c],
            &[a, c],
            Some((1, FileDataSequenceEntry::new(xorb, 10, 0, 1))),
        ),
        ([a, b, c], &[xorb, a], None),
        ([a, b, c], &[], None),
        (
            [a, b, a],
            &[a, b],
            Some((1, FileDataSequenceEntry::new(xorb, 10, 2, 3))),
        ),
    ];
    for (chunks, query, run) in rows {
        assert_eq!(rt; queried(rt.alloc(), chunks, query)?, run);
    }
    Ok(())
}

/// Adds two xorbs of one hash, with different chunks, to an empty shard. Returns the run of the first one's chunk,
/// the number of xorbs, and their bytes.
fn replaced(alloc: Global, shard: &mut MDBInMemoryShard) -> Result<(Run, u64, u64), StoreError>
    requires { shard.old ≡ nothing }
{
    let [a, b, _] = three_hashes();
    shard.add_xorb_block(xorb_of(alloc, [a, a, a])?)?;
    shard.add_xorb_block(xorb_of(alloc, [b, b, b])?)?;
    let run = shard.chunk_hash_dedup_query(&[a]);
    Ok((run, shard.num_xorb_entries(), shard.stored_bytes()))
}

#[test]
fn a_replaced_xorb_is_forgotten(rt: HostRuntime) -> Result<(), Fail> {
    let alloc = rt.alloc();
    let mut shard = MDBInMemoryShard::new(alloc);
    let answer = replaced(alloc, &mut shard);
    release(shard);
    assert_eq!(rt; answer?, (None, 1, 30));
    Ok(())
}

/// The number of segments of the file with a hash, or none.
fn segments_of(
    alloc: Global,
    shard: &MDBInMemoryShard,
    hash: &MerkleHash,
) -> Result<Option<usize>, StoreError> {
    let found = shard.get_file_reconstruction_info(alloc, hash)?;
    Ok(found.map(|file| file.segments.as_slice().len()))
}

/// Adds a file to an empty shard. Returns how many segments the file with its hash and the one with another hash
/// have, the number of files, and their bytes.
fn added_and_found(
    alloc: Global,
    shard: &mut MDBInMemoryShard,
) -> Result<([Option<usize>; 2], u64, u64), StoreError>
    requires { shard.old ≡ nothing }
{
    let hash = MerkleHash::default();
    shard.add_file_reconstruction_info(file_of_abc(alloc, hash, compute_data_hash(b"abc"))?)?;
    let found = segments_of(alloc, shard, &hash)?;
    let other = segments_of(alloc, shard, &MerkleHash::marker())?;
    Ok((
        [found, other],
        shard.num_file_entries(),
        shard.materialized_bytes(),
    ))
}

#[test]
fn a_file_is_found_by_its_hash(rt: HostRuntime) -> Result<(), Fail> {
    let alloc = rt.alloc();
    let mut shard = MDBInMemoryShard::new(alloc);
    let answer = added_and_found(alloc, &mut shard);
    release(shard);
    assert_eq!(rt; answer?, ([Some(1), None], 1, 3));
    Ok(())
}
