//! Ranges of chunks.

ghost use Rattle.std.specs.Prelude.{◌<◌, ◌^◌};

use std::alloc::Global;
use std::test::Fail;
use xet_hash::{DataHash, Reason, StoreError, compute_data_hash, range_hash_from_chunks};
use xet_io::SliceReader;
use xet_xorb::*;

/// The stored chunks `abc` and `defgh`.
const STORED: [u8; 24] = [
    0, 3, 0, 0, 0, 3, 0, 0, b'a', b'b', b'c', 0, 5, 0, 0, 0, 5, 0, 0, b'd', b'e', b'f', b'g', b'h',
];

/// A footer that lists the two chunks with these boundary offsets and uncompressed boundary offsets.
fn of_ends(alloc: Global, stored: [u32; 2], plain: [u32; 2]) -> Result<XorbObject, StoreError> {
    let hashes = [compute_data_hash(b"abc"), compute_data_hash(b"defgh")];
    let info = XorbObjectInfoV1::from_lists(
        compute_data_hash(b"abcdefgh"),
        Vec::from_slice(alloc, &hashes)?,
        Vec::from_slice(alloc, &stored)?,
        Vec::from_slice(alloc, &plain)?,
        [0; 16],
    );
    Ok(XorbObject {
        info,
        info_length: 172,
    })
}

/// The footer of the two chunks in version 0.
fn without_plain_ends(alloc: Global) -> Result<XorbObject, StoreError> {
    let hashes = [compute_data_hash(b"abc"), compute_data_hash(b"defgh")];
    let info = XorbObjectInfoV0::from_lists(
        compute_data_hash(b"abcdefgh"),
        Vec::from_slice(alloc, &[11, 24])?,
        Vec::from_slice(alloc, &hashes)?,
        [0; 16],
    );
    Ok(XorbObject {
        info: XorbObjectInfoV1::from_v0(info),
        info_length: 132,
    })
}

/// Reads a range of chunks of these bytes.
fn read_range(
    alloc: Global,
    object: &XorbObject,
    bytes: &[u8],
    start: u32,
    end: u32,
) -> Result<Vec<u8>, StoreError> {
    object.get_bytes_by_chunk_range(alloc, &mut SliceReader::new(bytes), start, end, 8)
}

/// Reads all chunks of `STORED`, each of at most `most` bytes.
fn read_all(alloc: Global, object: &XorbObject, most: u32) -> Result<Vec<u8>, StoreError>
    requires { most < 2 ^ 23 }
{
    object.get_all_bytes(alloc, &mut SliceReader::new(&STORED), most)
}

/// Whether all chunks are read as these bytes.
fn all_are_read(alloc: Global, object: &XorbObject, plain: &[u8]) -> Result<bool, StoreError> {
    Ok(read_all(alloc, object, 8)?.as_slice() == plain)
}

/// Whether the chunk with this index is read as these bytes.
fn is_read(alloc: Global, object: &XorbObject, index: u32, plain: &[u8]) -> Result<bool, StoreError>
    requires { index < 2 }
{
    Ok(read_range(alloc, object, &STORED, index, index + 1)?.as_slice() == plain)
}

#[test]
fn ranges_of_two_chunks(rt: HostRuntime) -> Result<(), Fail> {
    let object = of_ends(rt.alloc(), [11, 24], [3, 8])?;
    assert!(rt; all_are_read(rt.alloc(), &object, b"abcdefgh") == Ok(true));
    assert!(rt; is_read(rt.alloc(), &object, 0, b"abc") == Ok(true));
    assert!(rt; is_read(rt.alloc(), &object, 1, b"defgh") == Ok(true));
    Ok(())
}

/// The errors of a range past the end of the bytes, of an empty range, and of chunks that are too long.
fn refusals(alloc: Global, object: &XorbObject) -> [Option<StoreError>; 3] {
    [
        read_range(alloc, object, b"", 1, 2).err(),
        read_range(alloc, object, &STORED, 1, 1).err(),
        read_all(alloc, object, 4).err(),
    ]
}

#[test]
fn refused_ranges(rt: HostRuntime) -> Result<(), Fail> {
    let object = of_ends(rt.alloc(), [11, 24], [3, 8])?;
    let found = refusals(rt.alloc(), &object);
    let expected = [
        Some(StoreError::UnexpectedEof),
        Some(StoreError::InvalidArguments),
        Some(StoreError::MalformedData(Reason::PlainLength)),
    ];
    assert_eq!(rt; found, expected);
    Ok(())
}

/// The offsets of the second chunk, the end of the last, and the uncompressed lengths of the second chunk and
/// of both.
fn listed(object: &XorbObject) -> Result<((u32, u32), [u32; 3]), StoreError> {
    let range = object.get_byte_offset(1, 2)?;
    let end = object.get_contents_length()?;
    let second = object.uncompressed_chunk_length(1)?;
    let both = object.uncompressed_range_length(0, 2)?;
    Ok((range, [end, second, both]))
}

/// The hash of the range of both chunks, from their hashes.
fn hash_of_both() -> DataHash {
    range_hash_from_chunks(&[compute_data_hash(b"abc"), compute_data_hash(b"defgh")])
}

#[test]
fn listed_places(rt: HostRuntime) -> Result<(), Fail> {
    let object = of_ends(rt.alloc(), [11, 24], [3, 8])?;
    assert!(rt; listed(&object) == Ok(((11, 24), [24, 5, 8])));
    assert!(rt; object.generate_chunk_range_hash(0, 2) == Ok(hash_of_both()));
    assert!(rt; object.uncompressed_chunk_length(2) == Err(StoreError::InvalidArguments));
    Ok(())
}

#[test]
fn ends_that_fall(rt: HostRuntime) -> Result<(), Fail> {
    let object = of_ends(rt.alloc(), [22, 11], [6, 3])?;
    let refused = Some(StoreError::MalformedData(Reason::Offsets));
    let read = read_range(rt.alloc(), &object, &STORED, 1, 2).err();
    assert!(rt; object.get_byte_offset(1, 2) == Ok((22, 11)));
    assert!(rt; read == refused);
    assert!(rt; object.uncompressed_range_length(1, 2).err() == refused);
    Ok(())
}

#[test]
fn footers_that_lack_something(rt: HostRuntime) -> Result<(), Fail> {
    let object = without_plain_ends(rt.alloc())?;
    assert!(rt; object.uncompressed_range_length(0, 0) == Ok(0));
    assert!(rt; object.uncompressed_range_length(0, 2) == Err(StoreError::InvalidArguments));
    assert!(rt; is_read(rt.alloc(), &object, 1, b"defgh") == Ok(true));
    Ok(())
}

#[test]
fn an_empty_footer_lists_nothing(rt: HostRuntime) {
    let empty = XorbObject::default(rt.alloc());
    let incomplete = StoreError::MalformedData(Reason::Incomplete);
    assert!(rt; empty.get_contents_length() == Err(incomplete));
}
