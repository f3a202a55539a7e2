//! Construction of xorbs, and footers that are added to stored chunks.

ghost use Rattle.std.specs.Prelude.{◌≡◌, ◌<◌, ◌^◌, IfOk, length};
ghost use Rattle.xet_xorb.specs.Raw.{IsRaw};

use super::abc::{CHUNK_OF_ABC, HASH_OF_ABC, XORB_OF_ABC};
use bytes::Bytes;
use std::alloc::{AllocError, Global};
use std::test::Fail;
use xet_hash::{MerkleHash, StoreError, compute_data_hash};
use xet_io::MemorySink;
use xet_xorb::*;

/// The chunk `abc`.
fn chunk(alloc: Global) -> Result<Chunk, AllocError>
    ensures { IfOk result (λ chunk. length chunk.bytes ≡ 3) }
{
    Ok(Chunk::new(Bytes::copy_from_slice(alloc, b"abc")?))
}

/// The raw xorb of the chunk `abc`.
fn raw_xorb(alloc: Global) -> Result<RawXorbData, StoreError>
    ensures { IfOk result IsRaw }
{
    RawXorbData::from_chunks(alloc, &[chunk(alloc)?], vec![in alloc; 0]?)
}

/// The uncompressed bytes of the raw xorb.
fn plain_bytes(alloc: Global) -> Result<Vec<u8>, StoreError> {
    let raw = raw_xorb(alloc)?;
    raw_xorb_to_vec(alloc, &raw)
}

/// The encoding of the raw xorb, with or without a footer.
fn encoded(alloc: Global, footer: bool) -> Result<SerializedXorbObject, StoreError> {
    SerializedXorbObject::from_xorb(alloc, raw_xorb(alloc)?, footer)
}

/// Whether an encoding has the bytes, the hash, the offset of the footer and the counts of the xorb of `abc`.
fn is_xorb_of_abc(whole: &SerializedXorbObject) -> [bool; 4] {
    [
        whole.serialized_data.as_slice() == XORB_OF_ABC.as_slice(),
        *whole.hash.as_bytes() == HASH_OF_ABC,
        whole.footer_start == Some(11),
        (whole.raw_num_bytes, whole.num_chunks) == (3, 1),
    ]
}

#[test]
fn one_chunk(rt: HostRuntime) -> Result<(), Fail> {
    assert_eq!(rt; plain_bytes(rt.alloc())?.as_slice(), b"abc".as_slice());
    let whole = encoded(rt.alloc(), true)?;
    assert!(rt; is_xorb_of_abc(&whole) == [true; 4]);
    Ok(())
}

#[test]
fn one_chunk_without_a_footer(rt: HostRuntime) -> Result<(), Fail> {
    let prefix = encoded(rt.alloc(), false)?;
    assert_eq!(rt; prefix.serialized_data.as_slice(), CHUNK_OF_ABC.as_slice());
    assert!(rt; prefix.footer_start.is_none());
    Ok(())
}

/// The error of building the xorb under this scheme, if there is one.
fn refusal_of(alloc: Global, scheme: CompressionScheme) -> Option<StoreError> {
    match raw_xorb(alloc) {
        Ok(raw) => SerializedXorbObject::from_xorb_with_compression(alloc, raw, scheme, true).err(),
        Err(error) => Some(error),
    }
}

#[test]
fn schemes(rt: HostRuntime) -> Result<(), Fail> {
    let alloc = rt.alloc();
    let table = [
        (CompressionScheme::None, None),
        (CompressionScheme::Auto, None),
        (
            CompressionScheme::LZ4,
            Some(StoreError::CompressionError(1)),
        ),
        (
            CompressionScheme::ByteGrouping4LZ4,
            Some(StoreError::CompressionError(2)),
        ),
    ];
    for (scheme, refusal) in table {
        assert_eq!(rt; refusal_of(alloc, scheme), refusal);
    }
    Ok(())
}

/// These stored chunks with the footer that they have.
fn rebuilt(alloc: Global, raw: &[u8]) -> Result<Vec<u8>, StoreError>
    requires { length raw.now < 2 ^ 32 }
{
    let mut sink = MemorySink::new(alloc);
    reconstruct_xorb_with_footer(alloc, &mut sink, raw, 131_072)?;
    Ok(sink.into_bytes())
}

/// Whether these stored chunks, with the footer that they have, are the xorb of `abc`.
fn is_rebuilt(alloc: Global, raw: &[u8]) -> Result<bool, StoreError>
    requires { length raw.now < 2 ^ 32 }
{
    Ok(rebuilt(alloc, raw)?.as_slice() == XORB_OF_ABC.as_slice())
}

#[test]
fn footers_for_stored_chunks(rt: HostRuntime) -> Result<(), Fail> {
    assert!(rt; is_rebuilt(rt.alloc(), &CHUNK_OF_ABC)?);
    assert!(rt; is_rebuilt(rt.alloc(), &XORB_OF_ABC)?);
    Ok(())
}

#[test]
fn no_footers_for_other_bytes(rt: HostRuntime) {
    let lz4 = rebuilt(rt.alloc(), b"\x00\x03\x00\x00\x01\x03\x00\x00abc").err();
    assert!(rt; lz4 == Some(StoreError::CompressionError(1)));
    let short = rebuilt(rt.alloc(), b"\x00\x03\x00\x00\x00\x03\x00\x00ab").err();
    assert!(rt; short == Some(StoreError::UnexpectedEof));
}

/// The footer with its length, and the xorb hash, of the stored chunk `abc`.
fn object_and_hash(alloc: Global) -> Result<(XorbObject, MerkleHash), StoreError> {
    let mut sink = MemorySink::new(alloc);
    reconstruct_xorb_with_footer(alloc, &mut sink, &CHUNK_OF_ABC, 131_072)
}

/// Whether an object equals its clone.
fn object_is_cloned(alloc: Global, object: &XorbObject) -> Result<bool, StoreError> {
    Ok(object.clone(alloc)? == *object)
}

/// Whether a footer equals its clone.
fn footer_is_cloned(alloc: Global, footer: &XorbObjectInfoV1) -> Result<bool, StoreError> {
    Ok(footer.clone(alloc)? == *footer)
}

#[test]
fn the_object_of_stored_chunks(rt: HostRuntime) -> Result<(), Fail> {
    let (object, hash) = object_and_hash(rt.alloc())?;
    assert!(rt; hash == compute_data_hash(b"abc"));
    assert!(rt; (object.info_length, object.info.num_chunks) == (132, 1));
    assert!(rt; object_is_cloned(rt.alloc(), &object) == Ok(true));
    assert!(rt; footer_is_cloned(rt.alloc(), &object.info) == Ok(true));
    Ok(())
}

/// Whether the chunk equals its clone.
fn chunk_is_cloned(alloc: Global) -> Result<bool, StoreError> {
    let chunk = chunk(alloc)?;
    Ok(chunk.clone()? == chunk)
}

/// Whether two raw xorbs have the same hash, record and parts, and the copy begins one file.
fn are_same(copy: &RawXorbData, raw: &RawXorbData) -> [bool; 5] {
    [
        copy.hash() == raw.hash(),
        copy.xorb_info.metadata == raw.xorb_info.metadata,
        copy.xorb_info.chunks == raw.xorb_info.chunks,
        copy.file_boundaries.as_slice() == [0].as_slice(),
        copy.parts == raw.parts,
    ]
}

/// The same of a raw xorb and its clone.
fn raw_is_cloned(alloc: Global, raw: &RawXorbData) -> Result<[bool; 5], StoreError> {
    let copy = raw.clone(alloc)?;
    Ok(are_same(&copy, raw))
}

#[test]
fn clones(rt: HostRuntime) -> Result<(), Fail> {
    assert!(rt; chunk_is_cloned(rt.alloc())?);
    let raw = raw_xorb(rt.alloc())?;
    let cloned = raw_is_cloned(rt.alloc(), &raw);
    assert!(rt; cloned == Ok([true; 5]));
    Ok(())
}
