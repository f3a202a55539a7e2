//! Validation of xorbs.

ghost use Rattle.std.specs.Prelude.{◌<◌, ◌^◌};

use super::abc::{HASH_OF_ABC, XORB_OF_ABC};
use std::alloc::Global;
use std::test::Fail;
use xet_hash::{MerkleHash, StoreError, compute_data_hash};
use xet_io::{MemorySink, SliceReader};
use xet_xorb::*;

/// The xorb of `abc` with a footer of version 0, 111 bytes.
fn old_xorb_of_abc(alloc: Global) -> Result<Vec<u8>, StoreError> {
    let mut bytes = Vec::from_slice(alloc, b"\x00\x03\x00\x00\x00\x03\x00\x00abcXETBLOB\x00")?;
    bytes.extend_from_slice(&HASH_OF_ABC)?;
    bytes.extend_from_slice(&[1, 0, 0, 0, 11, 0, 0, 0])?;
    bytes.extend_from_slice(&HASH_OF_ABC)?;
    bytes.extend_from_slice(&[0; 16])?;
    bytes.extend_from_slice(&[96, 0, 0, 0])?;
    Ok(bytes)
}

/// The length of the footer, the version of its boundary section and the number of chunks of a validated
/// xorb; zeros if the bytes are not valid.
fn validated(
    alloc: Global,
    bytes: &[u8],
    hash: &MerkleHash,
    max_chunk: u32,
) -> Result<(u32, u8, u32), StoreError>
    requires { max_chunk < 2 ^ 23 }
{
    let mut reader = SliceReader::new(bytes);
    match XorbObject::validate_xorb_object(alloc, &mut reader, hash, max_chunk)? {
        Some(object) => Ok((
            object.info_length,
            object.info.boundaries_version,
            object.info.num_chunks,
        )),
        None => Ok((0, 0, 0)),
    }
}

/// The number of validated chunks of the xorb of `abc` after one bit was flipped at this offset.
fn with_change(alloc: Global, place: usize) -> Result<u32, StoreError> {
    let mut changed = XORB_OF_ABC;
    if place < changed.len() {
        changed[place] ^= 1;
    }
    let hash = MerkleHash::from_bytes(HASH_OF_ABC);
    Ok(validated(alloc, &changed, &hash, 3)?.2)
}

#[test]
fn a_xorb_of_one_chunk(rt: HostRuntime) -> Result<(), Fail> {
    let alloc = rt.alloc();
    let hash = MerkleHash::from_bytes(HASH_OF_ABC);
    assert!(rt; compute_data_hash(b"abc") == hash);
    assert!(rt; validated(alloc, &XORB_OF_ABC, &hash, 3)? == (132, 1, 1));
    assert!(rt; validated(alloc, &XORB_OF_ABC, &hash, 2)? == (0, 0, 0));
    assert!(rt; validated(alloc, &XORB_OF_ABC, &compute_data_hash(b"abd"), 3)? == (0, 0, 0));
    Ok(())
}

#[test]
fn a_xorb_of_version_0(rt: HostRuntime) -> Result<(), Fail> {
    let old = old_xorb_of_abc(rt.alloc())?;
    let hash = MerkleHash::from_bytes(HASH_OF_ABC);
    assert!(rt; validated(rt.alloc(), &old, &hash, 3)? == (96, 0, 1));
    Ok(())
}

#[test]
fn changed_bytes(rt: HostRuntime) -> Result<(), Fail> {
    for place in [0, 8, 11, 20, 60, 111, 115, 119, 143] {
        assert_eq!(rt; with_change(rt.alloc(), place)?, 0);
    }
    // The spare bytes may have any value.
    for place in [127, 142] {
        assert_eq!(rt; with_change(rt.alloc(), place)?, 1);
    }
    Ok(())
}

/// The footer of no chunks: what writing it returns, and its bytes.
fn empty_footer(alloc: Global) -> (Result<usize, StoreError>, Vec<u8>) {
    let object = XorbObject::default(alloc);
    let mut sink = MemorySink::new(alloc);
    let count = object.info.serialize(&mut sink);
    (count, sink.into_bytes())
}

#[test]
fn no_chunks(rt: HostRuntime) -> Result<(), Fail> {
    let (count, mut bytes) = empty_footer(rt.alloc());
    assert!(rt; count == Ok(92));
    bytes.extend_from_slice(&[92, 0, 0, 0])?;
    let hash = MerkleHash::default();
    for bytes in [bytes.as_slice(), b"".as_slice()] {
        assert!(rt; validated(rt.alloc(), bytes, &hash, 3)? == (0, 0, 0));
    }
    Ok(())
}

/// Whether a footer equals its clone, and its boundary section has version 0.
fn is_cloned(alloc: Global, object: &XorbObject) -> Result<bool, StoreError> {
    Ok(object.clone(alloc)? == *object && object.info.boundaries_version == 0)
}

/// Whether the footer of a xorb with a footer of version 0 equals its clone.
fn old_object_is_cloned(alloc: Global) -> Result<bool, StoreError> {
    let bytes = old_xorb_of_abc(alloc)?;
    let mut reader = SliceReader::new(&bytes);
    let hash = MerkleHash::from_bytes(HASH_OF_ABC);
    match XorbObject::validate_xorb_object(alloc, &mut reader, &hash, 3)? {
        Some(object) => is_cloned(alloc, &object),
        None => Ok(false),
    }
}

#[test]
fn clone_of_version_0(rt: HostRuntime) -> Result<(), Fail> {
    assert!(rt; old_object_is_cloned(rt.alloc())?);
    Ok(())
}
