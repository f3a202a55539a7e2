//! Tests of stores that are opened over the files of another store.

use crate::folders::{CREATION, EXPIRY, Flushed, SHA256, encoding_of, put_changed, written};
use crate::session::{NOW, Session, Unopened, bytes_of, put_bytes, refusal, release, remove};
use std::alloc::Global;
use std::test::Fail;
use xet_folder::xorb_path;
use xet_hash::{MerkleHash, Reason, StoreError, compute_data_hash};
use xet_io::{MemoryDisk, MemorySink};
use xet_shard_file::shard_path;
use xet_xorb_footer::XorbObjectInfoV0;

/// The hashes of two files that were written.
fn hashes_of(
    first: Result<Flushed, StoreError>,
    second: Result<Flushed, StoreError>,
) -> Result<[MerkleHash; 2], StoreError> {
    Ok([first?.file, second?.file])
}

/// A reopened store of the files `abc` and 200 zeros, and their hashes.
fn reopened(alloc: Global) -> Result<(Session, Result<[MerkleHash; 2], StoreError>), StoreError> {
    let (disk, abc) = written(alloc, MemoryDisk::new(alloc), b"abc")?;
    let (disk, zeros) = written(alloc, disk, &[0; 200])?;
    let session = Session::open(alloc, disk)?;
    Ok((session, hashes_of(abc, zeros)))
}

/// Whether a range of a file is these bytes.
fn reads(
    session: &mut Session,
    hash: &MerkleHash,
    from: u64,
    to: u64,
    bytes: &[u8],
) -> Result<bool, StoreError> {
    Ok(session.read(hash, from, to)?.as_slice() == bytes)
}

/// How many of six ranges of `abc`, of the zeros and of the empty file are right.
fn right_ranges(
    session: &mut Session,
    hashes: Result<[MerkleHash; 2], StoreError>,
) -> Result<u32, StoreError> {
    let [abc, zeros] = hashes?;
    let rows = [
        (abc, 1u64, 3u64, b"bc".as_slice()),
        (abc, 0, 3, b"abc".as_slice()),
        (abc, 3, 3, b"".as_slice()),
        (zeros, 60, 70, [0; 10].as_slice()),
        (zeros, 0, 200, [0; 200].as_slice()),
        (MerkleHash::default(), 0, 0, b"".as_slice()),
    ];
    let mut right = 0u32;
    for (hash, from, to, bytes) in rows {
        if reads(session, &hash, from, to, bytes)? {
            right = right.saturating_add(1);
        }
    }
    Ok(right)
}

/// Reopens the store: how many of the six ranges are right.
fn reads_ranges(alloc: Global) -> Result<u32, StoreError> {
    let (mut session, hashes) = reopened(alloc)?;
    let answer = right_ranges(&mut session, hashes);
    session.closed(answer)
}

#[test]
fn a_reopened_store_reads_what_was_written(rt: HostRuntime) -> Result<(), Fail> {
    assert_eq!(rt; reads_ranges(rt.alloc())?, 6);
    Ok(())
}

/// The error of reading a range; none if there is no error.
fn refused(session: &mut Session, hash: &MerkleHash, from: u64, to: u64) -> Option<StoreError> {
    session.read(hash, from, to).err()
}

/// The errors of reading a reversed range of `abc`, one past its end, one of the empty file, and one of a
/// file that is not recorded.
fn errors(
    session: &mut Session,
    hashes: Result<[MerkleHash; 2], StoreError>,
) -> Result<[Option<StoreError>; 4], StoreError> {
    let [abc, _] = hashes?;
    let other = compute_data_hash(b"abc");
    Ok([
        refused(session, &abc, 3, 2),
        refused(session, &abc, 0, 4),
        refused(session, &MerkleHash::default(), 0, 1),
        refused(session, &other, 3, 2),
    ])
}

/// Reopens the store: the errors of these four ranges.
fn refuses_ranges(alloc: Global) -> Result<[Option<StoreError>; 4], StoreError> {
    let (mut session, hashes) = reopened(alloc)?;
    let answer = errors(&mut session, hashes);
    session.closed(answer)
}

#[test]
fn a_range_that_is_not_there(rt: HostRuntime) -> Result<(), Fail> {
    let outside = Some(StoreError::InvalidRange);
    assert_eq!(rt;
        refuses_ranges(rt.alloc())?,
        [outside, outside, outside, Some(StoreError::FileNotFound)]
    );
    Ok(())
}

/// Removes a shard. Returns whether it existed.
fn remove_shard(
    alloc: Global,
    disk: &mut MemoryDisk,
    shard: &MerkleHash,
) -> Result<bool, StoreError> {
    let name = shard_path(alloc, "store", shard)?;
    remove(disk, name.as_str())
}

/// Writes a copy of the shard of `abc` that was created later and has a SHA-256 that begins with 7, and replaces that of
/// `abd` by a copy that has expired. Returns the hash of `abc`.
fn change_two(
    alloc: Global,
    disk: &mut MemoryDisk,
    abc: Result<Flushed, StoreError>,
    abd: Result<Flushed, StoreError>,
) -> Result<MerkleHash, StoreError> {
    let (older, expired) = (abc?, abd?.shard);
    let marked = put_changed(alloc, disk, &older.shard, SHA256, 7)?;
    put_changed(alloc, disk, &marked, CREATION, NOW + 1)?;
    remove_shard(alloc, disk, &marked)?;
    put_changed(alloc, disk, &expired, EXPIRY, NOW - 1)?;
    remove_shard(alloc, disk, &expired)?;
    Ok(older.file)
}

/// The disk of a store with a shard of `abc`, such a copy of it, and a shard of `abd` that has expired; and the hash of
/// `abc`.
fn three_shards(alloc: Global) -> Result<(MemoryDisk, Result<MerkleHash, StoreError>), StoreError> {
    let (disk, abc) = written(alloc, MemoryDisk::new(alloc), b"abc")?;
    let (mut disk, abd) = written(alloc, disk, b"abd")?;
    let hash = change_two(alloc, &mut disk, abc, abd);
    Ok((disk, hash))
}

/// Whether only `abc` is listed, whether its record is that of the newer shard, whether it is read, whether there is
/// nothing to flush, and how many xorbs there are.
fn shows_abc(
    session: &mut Session,
    abc: Result<MerkleHash, StoreError>,
) -> Result<(bool, bool, bool, bool, u64), StoreError> {
    let abc = abc?;
    let listed = session.files()?.as_slice() == [(abc, 3)].as_slice();
    let newer = session.sha256_byte(&abc) == Some(7);
    let read = reads(session, &abc, 0, 3, b"abc")?;
    let idle = session.flush()?.is_none();
    Ok((listed, newer, read, idle, session.xorb_count()))
}

/// Opens the three shards: what the store shows then.
fn opens_three(alloc: Global) -> Result<(bool, bool, bool, bool, u64), StoreError> {
    let (disk, abc) = three_shards(alloc)?;
    let mut session = Session::open(alloc, disk)?;
    let answer = shows_abc(&mut session, abc);
    session.closed(answer)
}

#[test]
fn older_newer_and_expired_shards(rt: HostRuntime) -> Result<(), Fail> {
    assert_eq!(rt; opens_three(rt.alloc())?, (true, true, true, true, 1));
    Ok(())
}

/// The bytes of a file with one byte changed.
fn changed(alloc: Global, disk: &MemoryDisk, path: &str) -> Result<Vec<u8>, StoreError> {
    let mut bytes = bytes_of(alloc, disk, path)?;
    if let Some(byte) = bytes.get_mut(8) {
        *byte = b'b';
    }
    Ok(bytes)
}

/// Changes one byte of the xorb of `abc`. Returns the hash of its shard.
fn change_xorb(
    alloc: Global,
    disk: &mut MemoryDisk,
    abc: Result<Flushed, StoreError>,
) -> Result<MerkleHash, StoreError> {
    let shard = abc?.shard;
    let path = xorb_path(alloc, "store", &compute_data_hash(b"abc"))?;
    let xorb = changed(alloc, disk, path.as_str())?;
    put_bytes(disk, path.as_str(), &xorb)?;
    Ok(shard)
}

/// Whether a name is that of a shard.
fn is_name(alloc: Global, shard: &MerkleHash, name: &str) -> Result<bool, StoreError> {
    let path = shard_path(alloc, "store", shard)?;
    Ok(path.as_str().strip_prefix("store/") == Some(name))
}

/// The error, and whether it comes with the name of the shard.
fn told(
    alloc: Global,
    shard: Result<MerkleHash, StoreError>,
    refused: Result<Option<Unopened>, StoreError>,
) -> Result<Option<(StoreError, bool)>, StoreError> {
    let shard = shard?;
    match refused? {
        Some(unopened) => {
            let told = is_name(alloc, &shard, unopened.name.as_str())?;
            Ok(Some((unopened.error, told)))
        }
        None => Ok(None),
    }
}

/// Opens a folder in which one byte of the xorb of `abc` was changed: the error, and whether it comes with
/// the name of the shard.
fn opens_changed(alloc: Global) -> Result<Option<(StoreError, bool)>, StoreError> {
    let (mut disk, abc) = written(alloc, MemoryDisk::new(alloc), b"abc")?;
    let shard = change_xorb(alloc, &mut disk, abc);
    told(alloc, shard, refusal(alloc, disk))
}

#[test]
fn a_changed_byte_of_a_xorb(rt: HostRuntime) -> Result<(), Fail> {
    let wanted = Some((StoreError::MalformedData(Reason::XorbText), true));
    assert_eq!(rt; opens_changed(rt.alloc())?, wanted);
    Ok(())
}

/// The bytes of a shard that was written.
fn written_encoding(
    alloc: Global,
    disk: &MemoryDisk,
    abc: Result<Flushed, StoreError>,
) -> Result<Vec<u8>, StoreError> {
    encoding_of(alloc, disk, &abc?.shard)
}

/// The bytes of the shard of `abc`.
fn shard_of_abc(alloc: Global) -> Result<Vec<u8>, StoreError> {
    let (disk, abc) = written(alloc, MemoryDisk::new(alloc), b"abc")?;
    let encoding = written_encoding(alloc, &disk, abc);
    release(disk);
    encoding
}

/// Writes bytes under the name of the shard whose hash is zero.
fn put_zeros(alloc: Global, disk: &mut MemoryDisk, encoding: &[u8]) -> Result<(), StoreError> {
    let name = shard_path(alloc, "store", &MerkleHash::default())?;
    put_bytes(disk, name.as_str(), encoding)
}

/// The error, and whether it comes with the name for the hash zero.
fn error_of_zeros(
    put: Result<(), StoreError>,
    refused: Result<Option<Unopened>, StoreError>,
) -> Result<Option<(StoreError, bool)>, StoreError> {
    let zeros = "0000000000000000000000000000000000000000000000000000000000000000.mdb";
    put?;
    match refused? {
        Some(unopened) => Ok(Some((unopened.error, unopened.name.as_str() == zeros))),
        None => Ok(None),
    }
}

/// Opens a folder in which the shard of `abc` has the name for the hash zero: the error, and whether it comes
/// with that name.
fn opens_renamed(alloc: Global) -> Result<Option<(StoreError, bool)>, StoreError> {
    let encoding = shard_of_abc(alloc)?;
    let mut disk = MemoryDisk::new(alloc);
    let put = put_zeros(alloc, &mut disk, &encoding);
    error_of_zeros(put, refusal(alloc, disk))
}

#[test]
fn a_shard_under_another_name(rt: HostRuntime) -> Result<(), Fail> {
    let wanted = Some((StoreError::MalformedData(Reason::ShardHash), true));
    assert_eq!(rt; opens_renamed(rt.alloc())?, wanted);
    Ok(())
}

/// Writes a footer of version 0, of a xorb of one chunk of three bytes.
fn write_footer(alloc: Global, hash: MerkleHash, sink: &mut MemorySink) -> Result<(), StoreError> {
    let ends = vec![in alloc; 11u32]?;
    let hashes = vec![in alloc; hash]?;
    let footer = XorbObjectInfoV0::from_lists(hash, ends, hashes, [7; 16]);
    footer.serialize(sink)?;
    Ok(())
}

/// The bytes of a xorb of `abc` with a footer of version 0.
fn older_xorb(alloc: Global, hash: MerkleHash) -> Result<Vec<u8>, StoreError> {
    let stored = Vec::from_slice(alloc, b"\x00\x03\x00\x00\x00\x03\x00\x00abc")?;
    let mut sink = MemorySink::from_vec(stored);
    write_footer(alloc, hash, &mut sink)?;
    let mut encoding = sink.into_bytes();
    encoding.extend_from_slice(&96u32.to_le_bytes())?;
    Ok(encoding)
}

/// Replaces the xorb of `abc` by one with a footer of version 0.
fn put_older_xorb(alloc: Global, disk: &mut MemoryDisk) -> Result<(), StoreError> {
    let hash = compute_data_hash(b"abc");
    let encoding = older_xorb(alloc, hash)?;
    let name = xorb_path(alloc, "store", &hash)?;
    put_bytes(disk, name.as_str(), &encoding)
}

/// Whether `abc` is read after its xorb was replaced.
fn reads_abc(
    session: &mut Session,
    abc: Result<Flushed, StoreError>,
    put: Result<(), StoreError>,
) -> Result<bool, StoreError> {
    put?;
    reads(session, &abc?.file, 0, 3, b"abc")
}

/// Whether a store over such a xorb opens, and its file is read.
fn reads_older_xorb(alloc: Global) -> Result<bool, StoreError> {
    let (mut disk, abc) = written(alloc, MemoryDisk::new(alloc), b"abc")?;
    let put = put_older_xorb(alloc, &mut disk);
    let mut session = Session::open(alloc, disk)?;
    let answer = reads_abc(&mut session, abc, put);
    session.closed(answer)
}

#[test]
fn a_xorb_with_a_footer_of_version_0(rt: HostRuntime) -> Result<(), Fail> {
    assert!(rt; reads_older_xorb(rt.alloc())?);
    Ok(())
}
