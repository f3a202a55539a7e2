//! Tests of footers at the end of a xorb, and of footers that are fed in parts.

ghost use Rattle.std.specs.Prelude.{◌<◌};

use std::alloc::Global;
use std::test::Fail;
use xet_base::Items;
use xet_hash::{MerkleHash, Reason, StoreError, compute_data_hash};
use xet_io::{MemorySink, SliceReader};
use xet_xorb_footer::*;

/// The footer of no chunks, followed by this length.
fn encoding(alloc: Global, told: u32) -> Result<Vec<u8>, StoreError> {
    let mut sink = MemorySink::new(alloc);
    XorbObjectInfoV1::default(alloc).serialize(&mut sink)?;
    let mut bytes = sink.into_bytes();
    bytes.extend_from_slice(&told.to_le_bytes())?;
    Ok(bytes)
}

/// The version and the length of the footer at the end of these bytes.
fn at_end(alloc: Global, bytes: &[u8]) -> Result<(u8, u32), StoreError> {
    let (info, count) = last_footer(alloc, &mut SliceReader::new(bytes))?;
    Ok((info.version, count))
}

/// The same of a footer that is fed in parts of `size` bytes.
fn in_pieces(alloc: Global, bytes: &[u8], size: usize) -> Result<(u8, u32), StoreError>
    requires { 0 < size }
{
    let mut decoder = InfoDecoder::new(alloc);
    for piece in bytes.chunks(size) {
        decoder.feed(piece)?;
    }
    let (info, count) = decoder.finish()?;
    Ok((info.version, count))
}

#[test]
fn an_empty_footer_at_the_end(rt: HostRuntime) -> Result<(), Fail> {
    let alloc = rt.alloc();
    let bytes = encoding(alloc, 92)?;
    assert!(rt; footer_length(&mut SliceReader::new(&bytes))? == 92);
    assert!(rt; at_end(alloc, &bytes)? == (1, 92));
    assert!(rt; in_pieces(alloc, &bytes, 1)? == (1, 92));
    assert!(rt; in_pieces(alloc, &bytes, 50)? == (1, 92));
    Ok(())
}

/// The footer of 2,000 chunks, which is longer than a block, followed by its length.
fn long_encoding(alloc: Global) -> Result<Vec<u8>, StoreError> {
    let hashes = vec![in alloc; compute_data_hash(b"abc"); 2000]?;
    let ends = vec![in alloc; 11; 2000]?;
    let plain = vec![in alloc; 3; 2000]?;
    let hash = MerkleHash::default();
    let info = XorbObjectInfoV1::from_lists(hash, hashes, ends, plain, [7; 16]);
    let mut sink = MemorySink::new(alloc);
    info.serialize(&mut sink)?;
    let mut bytes = sink.into_bytes();
    bytes.extend_from_slice(&80092_u32.to_le_bytes())?;
    Ok(bytes)
}

#[test]
fn a_footer_of_two_blocks(rt: HostRuntime) -> Result<(), Fail> {
    let alloc = rt.alloc();
    let bytes = long_encoding(alloc)?;
    assert!(rt; at_end(alloc, &bytes)? == (1, 80092));
    Ok(())
}

#[test]
fn boundaries_alone(rt: HostRuntime) -> Result<(), Fail> {
    let alloc = rt.alloc();
    let mut info = XorbObjectInfoV0::default(alloc);
    info.num_chunks = 1;
    info.chunk_boundary_offsets = Items::from_vec(Vec::from_slice(alloc, &[11])?);
    info.chunk_hashes = Items::from_vec(Vec::from_slice(alloc, &[compute_data_hash(b"abc")])?);
    let plain = Vec::from_slice(alloc, &[3])?;
    let whole = XorbObjectInfoV1::from_v0_with_unpacked_chunk_offsets(info, plain);
    let mut sink = MemorySink::new(alloc);
    assert!(rt; whole.serialize(&mut sink)? == 132);
    let mut bytes = sink.into_bytes();
    bytes.extend_from_slice(&[132, 0, 0, 0])?;
    let (found, count) = XorbObjectInfoV1::deserialize_only_boundaries_section(
        alloc,
        &mut SliceReader::new(&bytes),
    )?;
    assert!(rt; (count, found.num_chunks) == (48, 1));
    assert_eq!(rt; found.chunk_boundary_offsets.as_slice(), [11].as_slice());
    assert_eq!(rt; found.unpacked_chunk_offsets.as_slice(), [3].as_slice());
    assert!(rt; found.hashes_section_offset_from_end == 92);
    assert!(rt; !found.has_chunk_hashes());
    Ok(())
}

#[test]
fn boundaries_of_no_chunks(rt: HostRuntime) -> Result<(), Fail> {
    let alloc = rt.alloc();
    let bytes = encoding(alloc, 92)?;
    let (found, count) = XorbObjectInfoV1::deserialize_only_boundaries_section(
        alloc,
        &mut SliceReader::new(&bytes),
    )?;
    assert!(rt; (count, found.num_chunks) == (40, 0));
    assert!(rt; found.chunk_boundary_offsets.as_slice().is_empty());
    assert!(rt; found.unpacked_chunk_offsets.as_slice().is_empty());
    assert!(rt; found.hashes_section_offset_from_end == 52);
    Ok(())
}

#[test]
fn refused_ends(rt: HostRuntime) -> Result<(), Fail> {
    let alloc = rt.alloc();
    let shorter = encoding(alloc, 91)?;
    let wrong = Some(StoreError::MalformedData(Reason::InfoLength));
    assert_eq!(rt; in_pieces(alloc, &shorter, 40).err(), wrong);
    let ident = Some(StoreError::MalformedData(Reason::Ident));
    assert_eq!(rt; at_end(alloc, &shorter).err(), ident);
    let longer = encoding(alloc, 93)?;
    assert_eq!(rt;
        at_end(alloc, &longer).err(),
        Some(StoreError::UnexpectedEof)
    );
    let mut bytes = encoding(alloc, 92)?;
    bytes.push(0)?;
    let trailing = Some(StoreError::MalformedData(Reason::TrailingBytes));
    assert_eq!(rt; in_pieces(alloc, &bytes, 96).err(), trailing);
    bytes.truncate(3);
    let told = footer_length(&mut SliceReader::new(&bytes));
    assert_eq!(rt; told.err(), Some(StoreError::UnexpectedEof));
    let cut = in_pieces(alloc, &bytes, 2);
    assert_eq!(rt; cut.err(), Some(StoreError::UnexpectedEof));
    Ok(())
}
