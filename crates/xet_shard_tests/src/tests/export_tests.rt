//! Tests of export under a key, and of unions.

use std::alloc::Global;
use std::test::Fail;
use xet_hash::{HMACKey, MerkleHash, StoreError, compute_data_hash};
use xet_io::{MemorySink, SliceReader};
use xet_shard::*;
use xet_shard_samples::{Written, file_of_abc, shard_of, shard_of_abc};

/// The shard, exported under the key of 32 bytes 1, created at 5 and valid for 10 seconds, with its files and
/// all lookup tables, or without them.
fn keyed(alloc: Global, shard: &Written, whole: bool) -> Result<Vec<u8>, StoreError> {
    let key = HMACKey::from_bytes([1; 32]);
    if key == HMACKey::default() || shard.1.metadata.chunk_hash_hmac_key != HMACKey::default() {
        return Err(StoreError::HashMismatch);
    }
    let mut reader = SliceReader::new(&shard.0);
    let mut sink = MemorySink::new(alloc);
    shard.1.export_as_keyed_shard(
        alloc,
        &mut reader,
        &mut sink,
        key,
        10,
        whole,
        whole,
        whole,
        5,
    )?;
    Ok(sink.into_bytes())
}

/// The shard in these bytes.
fn loaded(encoding: Vec<u8>) -> Result<Written, StoreError> {
    let info = MDBShardInfo::load_from_reader(&mut SliceReader::new(&encoding))?;
    Ok((encoding, info))
}

/// The union of two shards.
fn union(alloc: Global, ours: &Written, theirs: &Written) -> Result<Vec<u8>, StoreError> {
    let mut first = SliceReader::new(&ours.0);
    let mut second = SliceReader::new(&theirs.0);
    let mut sink = MemorySink::new(alloc);
    shard_set_union(
        alloc,
        &ours.1,
        &mut first,
        &theirs.1,
        &mut second,
        &mut sink,
    )?;
    Ok(sink.into_bytes())
}

/// The shard of one file, whose hash is 32 bytes 7, and whose one chunk has these bytes.
fn shard_of_file(alloc: Global, bytes: &[u8]) -> Result<Written, StoreError> {
    let file = file_of_abc(
        alloc,
        MerkleHash::from_bytes([7; 32]),
        compute_data_hash(bytes),
    )?;
    write_shard(alloc, &[], &[&file], HMACKey::default(), 0, u64::MAX)
}

#[test]
fn chunks_are_hashed_under_the_key(rt: HostRuntime) -> Result<(), Fail> {
    let alloc = rt.alloc();
    let encoding = keyed(alloc, &shard_of_abc(alloc)?, true)?;
    let (blocks, files, footer) = read_shard(alloc, &encoding)?;
    let key = HMACKey::from_bytes([1; 32]);
    assert_eq!(rt; (blocks.len(), files.len()), (1, 1));
    assert_eq!(rt; footer.chunk_hash_hmac_key, key);
    assert_eq!(rt;
        (footer.shard_creation_timestamp, footer.shard_key_expiry),
        (5, 15)
    );
    let chunk = compute_data_hash(b"abc");
    for block in &blocks {
        assert_eq!(rt; block.hash(), chunk);
        for entry in block.chunks.as_slice() {
            assert_eq!(rt; entry.chunk_hash, chunk.hmac(key));
        }
    }
    Ok(())
}

#[test]
fn a_keyed_shard_is_asked_by_plain_hashes(rt: HostRuntime) -> Result<(), Fail> {
    let alloc = rt.alloc();
    let (encoding, info) = loaded(keyed(alloc, &shard_of_abc(alloc)?, true)?)?;
    let mut reader = SliceReader::new(&encoding);
    let chunk = compute_data_hash(b"abc");
    let run = info.chunk_hash_dedup_query(alloc, &mut reader, &[chunk])?;
    assert_eq!(rt; run, Some((1, FileDataSequenceEntry::new(chunk, 3, 0, 1))));
    Ok(())
}

#[test]
fn files_and_look_ups_are_left_out(rt: HostRuntime) -> Result<(), Fail> {
    let alloc = rt.alloc();
    let shard = shard_of_abc(alloc)?;
    let encoding = keyed(alloc, &shard, false)?;
    assert_eq!(rt; (shard.0.len(), encoding.len()), (672, 440));
    let (blocks, files, _) = read_shard(alloc, &encoding)?;
    assert_eq!(rt; (blocks.len(), files.len()), (1, 0));
    Ok(())
}

#[test]
fn a_union_has_each_file_once(rt: HostRuntime) -> Result<(), Fail> {
    let alloc = rt.alloc();
    let abc = shard_of_abc(alloc)?;
    let abd = shard_of(alloc, b"abd")?;
    let encoding = union(alloc, &abc, &abd)?;
    let (blocks, files, _) = read_shard(alloc, &encoding)?;
    assert_eq!(rt; (encoding.len(), blocks.len(), files.len()), (1_000, 2, 2));
    assert_eq!(rt; union(alloc, &abc, &abc)?.len(), 672);
    Ok(())
}

/// The file name of the shard with these bytes.
fn name_of(alloc: Global, encoding: &[u8]) -> Result<String, StoreError> {
    shard_file_name(alloc, &compute_data_hash(encoding))
}

/// The names of the empty shard and of the union of those of `abc` and `abd`. The expected ones were computed
/// by a separate program.
#[test]
fn names_of_the_empty_shard_and_of_a_union(rt: HostRuntime) -> Result<(), Fail> {
    let alloc = rt.alloc();
    let (empty, _) = write_shard(alloc, &[], &[], HMACKey::default(), 0, u64::MAX)?;
    assert_eq!(rt;
        name_of(alloc, &empty)?.as_str(),
        "2142231af522b2ba9174d0f5046710c39d10dfddbb46106bcfb3df363d420bec.mdb"
    );
    let joined = union(alloc, &shard_of_abc(alloc)?, &shard_of(alloc, b"abd")?)?;
    assert_eq!(rt;
        name_of(alloc, &joined)?.as_str(),
        "56f06d697df136b57c2545a98a6c7d65d51728387f88c4200b58f567905b0a03.mdb"
    );
    Ok(())
}

#[test]
fn there_is_no_union_with_a_keyed_shard(rt: HostRuntime) -> Result<(), Fail> {
    let alloc = rt.alloc();
    let abc = shard_of_abc(alloc)?;
    let other = loaded(keyed(alloc, &abc, true)?)?;
    let none = union(alloc, &abc, &other);
    assert_eq!(rt; none.err(), Some(StoreError::InvalidArguments));
    Ok(())
}

#[test]
fn there_is_no_union_of_two_records_of_a_hash(rt: HostRuntime) -> Result<(), Fail> {
    let alloc = rt.alloc();
    let none = union(
        alloc,
        &shard_of_file(alloc, b"abc")?,
        &shard_of_file(alloc, b"abd")?,
    );
    assert_eq!(rt; none.err(), Some(StoreError::InvalidArguments));
    Ok(())
}
