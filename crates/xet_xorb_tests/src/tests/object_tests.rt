//! `XorbObject`: a footer with its length.

use super::abc::{HASH_OF_ABC, XORB_OF_ABC};
use std::alloc::Global;
use std::test::Fail;
use xet_hash::{MerkleHash, Reason, StoreError};
use xet_io::{MemorySink, SliceReader};
use xet_xorb::*;

/// The footer of no chunks, and its length.
fn empty_footer(alloc: Global) -> Result<Vec<u8>, StoreError> {
    let mut sink = MemorySink::new(alloc);
    XorbObject::serialize_given_info(&mut sink, XorbObjectInfoV1::default(alloc))?;
    Ok(sink.into_bytes())
}

/// Decodes a footer and its length, fed in two parts.
fn in_two_pieces(alloc: Global, bytes: &[u8]) -> Result<XorbObject, StoreError> {
    let (prefix, back) = bytes.split_at(bytes.len() / 2);
    let mut decoder = FooterDecoder::new(alloc);
    decoder.feed(prefix)?;
    decoder.feed(back)?;
    decoder.finish()
}

/// The length of the footer and the footer at the end of these bytes.
fn at_the_end(alloc: Global, bytes: &[u8]) -> Result<(u32, XorbObject), StoreError> {
    let mut reader = SliceReader::new(bytes);
    let told = XorbObject::get_info_length(&mut reader)?;
    Ok((told, XorbObject::deserialize(alloc, &mut reader)?))
}

/// What is seen of the footer at the end of these bytes: its length, whether it is that of no chunks, and where
/// its last chunk ends.
type Seen = (u32, bool, Result<u32, StoreError>);

fn seen_at_the_end(alloc: Global, bytes: &[u8]) -> Result<Seen, StoreError> {
    let (told, object) = at_the_end(alloc, bytes)?;
    let same = object == XorbObject::default(alloc);
    Ok((told, same, object.get_contents_length()))
}

/// Whether the footer that is fed in two parts is that of no chunks.
fn is_fed(alloc: Global, bytes: &[u8]) -> Result<bool, StoreError> {
    Ok(in_two_pieces(alloc, bytes)? == XorbObject::default(alloc))
}

#[test]
fn the_footer_of_no_chunks(rt: HostRuntime) -> Result<(), Fail> {
    let bytes = empty_footer(rt.alloc())?;
    let incomplete = StoreError::MalformedData(Reason::Incomplete);
    let seen = seen_at_the_end(rt.alloc(), &bytes)?;
    assert!(rt; (bytes.len(), seen) == (96, (92, true, Err(incomplete))));
    assert!(rt; is_fed(rt.alloc(), &bytes)?);
    Ok(())
}

/// The uncompressed bytes of a validated xorb, or none if the bytes are not a xorb with this hash.
fn plain_bytes(alloc: Global, bytes: &[u8], hash: [u8; 32]) -> Result<Vec<u8>, StoreError> {
    let mut reader = SliceReader::new(bytes);
    let hash = MerkleHash::from_bytes(hash);
    match XorbObject::validate_xorb_object(alloc, &mut reader, &hash, 3)? {
        Some(object) => object.get_all_bytes(alloc, &mut reader, 3),
        None => Ok(Vec::new(alloc)),
    }
}

#[test]
fn the_bytes_of_a_validated_xorb(rt: HostRuntime) -> Result<(), Fail> {
    let alloc = rt.alloc();
    let plain = plain_bytes(alloc, &XORB_OF_ABC, HASH_OF_ABC)?;
    assert_eq!(rt; plain.as_slice(), b"abc".as_slice());
    let none = plain_bytes(alloc, &XORB_OF_ABC, [1; 32])?;
    assert!(rt; none.is_empty());
    Ok(())
}
