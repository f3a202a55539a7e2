//! Tests of cleaning and flushing. What a session shows is collected first, and then compared at once.

use crate::folders::{Listed, encoding_of, hash_of, read_listed};
use crate::session::{Session, bytes_of, release};
use std::alloc::Global;
use std::test::Fail;
use xet_folder::xorb_path;
use xet_hash::{MerkleHash, StoreError, compute_data_hash};
use xet_io::MemoryDisk;
use xet_shard_format::FileDataSequenceEntry;
use xet_store_disk::XetFileInfo;

/// The hash of the file `abc`, in hexadecimal.
const ABC: &str = "8679a9c73b087ee02033e84569cba8c79c2413d79f99a1e9bd1ae79ae88776cf";

/// A new session in which a file of these bytes was cleaned, and the result.
fn made(
    alloc: Global,
    bytes: &[u8],
) -> Result<(Session, Result<XetFileInfo, StoreError>), StoreError> {
    Ok(Session::new(alloc)?.clean(bytes))
}

/// Whether a pointer record has the hash and the length of `abc`.
fn is_abc(alloc: Global, info: &XetFileInfo) -> Result<bool, StoreError> {
    let encoding = info.hash.hex(alloc)?;
    Ok(encoding.as_str() == ABC && info.file_size == 3)
}

/// Whether a session of the file `abc` alone has a plan of one whole xorb for it, and lists nothing else.
fn plans_abc(session: &Session, info: &XetFileInfo) -> Result<bool, StoreError> {
    let whole = FileDataSequenceEntry::new(compute_data_hash(b"abc"), 3, 0, 1);
    let plan = session.plan(&info.hash)?;
    let files = session.files()?;
    Ok(
        plan.as_slice() == [whole].as_slice()
            && files.as_slice() == [(info.hash, 3)].as_slice()
            && session.xorb_count() == 1,
    )
}

/// Whether these are the bytes of the xorb of `abc`, except for its hashes.
fn is_xorb_of_abc(encoding: &[u8]) -> bool {
    encoding.len() == 147
        && encoding.starts_with(&[0, 3, 0, 0, 0, 3, 0, 0, 0x61, 0x62, 0x63])
        && encoding.ends_with(&[0x84, 0, 0, 0])
}

/// Whether the pointer record and the plan of `abc` are right.
fn records_abc(
    alloc: Global,
    session: &Session,
    info: &Result<XetFileInfo, StoreError>,
) -> Result<(bool, bool), StoreError> {
    match info {
        Ok(info) => Ok((is_abc(alloc, info)?, plans_abc(session, info)?)),
        Err(error) => Err(*error),
    }
}

/// Whether the xorb of `abc` is right.
fn stores_abc(alloc: Global, disk: &MemoryDisk) -> Result<bool, StoreError> {
    let name = xorb_path(alloc, "store", &compute_data_hash(b"abc"))?;
    let encoding = bytes_of(alloc, disk, name.as_str())?;
    Ok(is_xorb_of_abc(&encoding))
}

/// Joins a result of two values and a result of one.
fn all_three(
    first: Result<(bool, bool), StoreError>,
    third: Result<bool, StoreError>,
) -> Result<(bool, bool, bool), StoreError> {
    let (record, plan) = first?;
    Ok((record, plan, third?))
}

/// Cleans `abc`: whether its pointer record, its plan and its xorb are right.
fn cleans_abc(alloc: Global) -> Result<(bool, bool, bool), StoreError> {
    let (session, info) = made(alloc, b"abc")?;
    let recorded = records_abc(alloc, &session, &info);
    let disk = session.into_disk();
    let stored = stores_abc(alloc, &disk);
    release(disk);
    all_three(recorded, stored)
}

#[test]
fn stores_a_file_of_one_chunk(rt: HostRuntime) -> Result<(), Fail> {
    assert_eq!(rt; cleans_abc(rt.alloc())?, (true, true, true));
    Ok(())
}

/// Flushes after the empty file: whether nothing was written, whether the hash is zero and its plan empty,
/// and how many xorbs and files there are.
fn shows_nothing(
    session: &mut Session,
    hash: Result<MerkleHash, StoreError>,
) -> Result<(bool, bool, u64, usize), StoreError> {
    let zero = MerkleHash::default();
    let zeros = hash? == zero;
    let idle = session.flush()?.is_none();
    let empty = zeros && session.plan(&zero)?.is_empty();
    Ok((idle, empty, session.xorb_count(), session.files()?.len()))
}

/// Cleans the empty file: what the session shows then.
fn cleans_nothing(alloc: Global) -> Result<(bool, bool, u64, usize), StoreError> {
    let (mut session, info) = made(alloc, b"")?;
    let answer = shows_nothing(&mut session, hash_of(&info));
    session.closed(answer)
}

#[test]
fn keeps_no_record_of_the_empty_file(rt: HostRuntime) -> Result<(), Fail> {
    assert_eq!(rt; cleans_nothing(rt.alloc())?, (true, true, 0, 0));
    Ok(())
}

/// Whether a segment is the first two chunks of a xorb, with this number of bytes.
fn is_pair(segment: &FileDataSequenceEntry, bytes: u32) -> bool {
    segment.unpacked_segment_bytes == bytes
        && segment.chunk_index_start == 0
        && segment.chunk_index_end == 2
}

/// Whether a plan is two segments of two chunks each, of 128 bytes and of 72.
fn is_packed(plan: &[FileDataSequenceEntry]) -> bool {
    match plan {
        [first, second] => is_pair(first, 128) && is_pair(second, 72),
        _ => false,
    }
}

/// The plan of a file that was cleaned.
fn planned(
    session: &Session,
    info: &Result<XetFileInfo, StoreError>,
) -> Result<Vec<FileDataSequenceEntry>, StoreError> {
    session.plan(&hash_of(info)?)
}

/// Whether the plan of a file is as before.
fn keeps_plan(
    session: &Session,
    info: &Result<XetFileInfo, StoreError>,
    before: Result<Vec<FileDataSequenceEntry>, StoreError>,
) -> Result<bool, StoreError> {
    let before = before?;
    Ok(planned(session, info)?.as_slice() == before.as_slice())
}

/// Whether the second file has two segments of two chunks each, whether the plan of the first is as before,
/// and how many xorbs and files there are.
fn shows_two(
    session: &Session,
    first: &Result<XetFileInfo, StoreError>,
    before: Result<Vec<FileDataSequenceEntry>, StoreError>,
    second: &Result<XetFileInfo, StoreError>,
) -> Result<(bool, bool, u64, usize), StoreError> {
    let packed = is_packed(planned(session, second)?.as_slice());
    let kept = keeps_plan(session, first, before)?;
    Ok((packed, kept, session.xorb_count(), session.files()?.len()))
}

/// 200 bytes whose chunks of 64, 64, 64 and 8 bytes differ.
fn four_chunks() -> [u8; 200] {
    let mut bytes = [0u8; 200];
    bytes[64] = 1;
    bytes[128] = 2;
    bytes[192] = 3;
    bytes
}

/// Cleans `abc` and then four chunks: what the session shows then.
fn cleans_two(alloc: Global) -> Result<(bool, bool, u64, usize), StoreError> {
    let (session, first) = made(alloc, b"abc")?;
    let before = planned(&session, &first);
    let (session, second) = session.clean(&four_chunks());
    let answer = shows_two(&session, &first, before, &second);
    session.closed(answer)
}

#[test]
fn packs_chunks_in_order_and_keeps_earlier_plans(rt: HostRuntime) -> Result<(), Fail> {
    assert_eq!(rt; cleans_two(rt.alloc())?, (true, true, 3, 2));
    Ok(())
}

/// Flushes twice after a file: the hash of the shard, and whether there was nothing to flush the second time.
fn flushes_twice(
    session: &mut Session,
    file: Result<MerkleHash, StoreError>,
) -> Result<(MerkleHash, bool), StoreError> {
    let _file = file?;
    let shard = session.flush()?.ok_or(StoreError::FileNotFound)?;
    Ok((shard, session.flush()?.is_none()))
}

/// The bytes of a shard that was flushed, and whether its name is that of its digest.
fn flushed_encoding(
    alloc: Global,
    disk: &MemoryDisk,
    flushed: Result<(MerkleHash, bool), StoreError>,
) -> Result<(Vec<u8>, bool, bool), StoreError> {
    let (shard, idle) = flushed?;
    let encoding = encoding_of(alloc, disk, &shard)?;
    let named = compute_data_hash(&encoding) == shard;
    Ok((encoding, named, idle))
}

/// Cleans `abc` and flushes: the bytes of the shard, whether its name is that of its digest, and whether
/// there was nothing to flush afterwards.
fn flushes_abc(alloc: Global) -> Result<(Vec<u8>, bool, bool), StoreError> {
    let (mut session, info) = made(alloc, b"abc")?;
    let flushed = flushes_twice(&mut session, hash_of(&info));
    let disk = session.into_disk();
    let encoding = flushed_encoding(alloc, &disk, flushed);
    release(disk);
    encoding
}

/// Whether only `abc` is listed, and the offset of the footer.
fn is_only_abc(alloc: Global, listed: &Listed) -> Result<(bool, u64), StoreError> {
    let xorbs = listed.xorbs.as_slice() == [compute_data_hash(b"abc")].as_slice();
    let files = match listed.files.as_slice() {
        [hash] => hash.hex(alloc)?.as_str() == ABC,
        _ => false,
    };
    Ok((xorbs && files && listed.bytes == 3, listed.footer))
}

/// Whether these bytes are a shard of `abc` alone, and the offset of its footer.
fn lists_abc(alloc: Global, encoding: &[u8]) -> Result<(bool, u64), StoreError> {
    let listed = read_listed(alloc, encoding)?;
    is_only_abc(alloc, &listed)
}

#[test]
fn flushes_what_is_pending(rt: HostRuntime) -> Result<(), Fail> {
    let alloc = rt.alloc();
    let (encoding, named, idle) = flushes_abc(alloc)?;
    assert_eq!(rt; (encoding.len(), named, idle), (672, true, true));
    assert_eq!(rt; lists_abc(alloc, &encoding)?, (true, 472));
    Ok(())
}
