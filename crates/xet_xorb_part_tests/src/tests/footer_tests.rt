//! Tests of footers: round trips, and the errors of each check.

ghost use Rattle.std.specs.Prelude.{◌≡◌, ◌≤◌, IfOk, length};

use std::alloc::Global;
use std::test::Fail;
use xet_base::Items;
use xet_hash::{MerkleHash, Reason, StoreError, compute_data_hash};
use xet_io::{MemorySink, SliceSource};
use xet_xorb_footer::*;

/// A footer of version 0 with these boundary offsets and hashes.
fn of_chunks(
    alloc: Global,
    ends: &[u32],
    hashes: &[MerkleHash],
) -> Result<XorbObjectInfoV0, StoreError>
    requires { length ends.now ≤ 2 }
    ensures ends { IfOk result (λ i. length i.chunk_boundary_offsets ≡ length ends.now) }
    ensures hashes { IfOk result (λ i. length i.chunk_hashes ≡ length hashes.now) }
{
    let mut info = XorbObjectInfoV0::default(alloc);
    info.num_chunks = ends.len() as u32;
    info.chunk_boundary_offsets = Items::from_vec(Vec::from_slice(alloc, ends)?);
    info.chunk_hashes = Items::from_vec(Vec::from_slice(alloc, hashes)?);
    Ok(info)
}

/// The hashes of `abc` and of `def`.
fn two_hashes() -> [MerkleHash; 2] {
    [compute_data_hash(b"abc"), compute_data_hash(b"def")]
}

#[test]
fn an_empty_footer(rt: HostRuntime) -> Result<(), Fail> {
    let alloc = rt.alloc();
    let info = XorbObjectInfoV1::default(alloc);
    let mut sink = MemorySink::new(alloc);
    assert!(rt; info.serialize(&mut sink)? == 92);
    assert!(rt; info.serialized_length() == 92);
    assert!(rt; !info.has_chunk_hashes());
    let (read, count) = XorbObjectInfoV1::deserialize(alloc, &mut SliceSource::new(sink.bytes()))?;
    assert!(rt; (count, read.version, read.num_chunks) == (92, 1, 0));
    assert!(rt; read.boundary_section_offset_from_end == 40);
    assert!(rt; read.hashes_section_offset_from_end == 52);
    Ok(())
}

#[test]
fn two_chunks_of_version_0(rt: HostRuntime) -> Result<(), Fail> {
    let alloc = rt.alloc();
    let hashes = two_hashes();
    let info = of_chunks(alloc, &[11, 22], &hashes)?;
    let mut sink = MemorySink::new(alloc);
    assert!(rt; info.serialize(&mut sink)? == 132);
    let (read, count) = XorbObjectInfoV0::deserialize(alloc, &mut SliceSource::new(sink.bytes()))?;
    assert!(rt; (count, read.num_chunks) == (132, 2));
    assert_eq!(rt; read.chunk_boundary_offsets.as_slice(), [11, 22].as_slice());
    assert_eq!(rt; read.chunk_hashes.as_slice(), hashes.as_slice());
    let (rest, count) = XorbObjectInfoV0::deserialize_v0(
        alloc,
        &mut SliceSource::new(&sink.bytes()[8..]),
    )?;
    assert!(rt; (count, rest.num_chunks) == (124, 2));
    let (read, count) = XorbObjectInfoV1::deserialize(alloc, &mut SliceSource::new(sink.bytes()))?;
    assert!(rt; (count, read.version, read.boundaries_version) == (132, 1, 0));
    assert_eq!(rt; read.chunk_hashes.as_slice(), hashes.as_slice());
    assert!(rt; read.clone(alloc)?.num_chunks == 2);
    Ok(())
}

#[test]
fn converted(rt: HostRuntime) -> Result<(), Fail> {
    let alloc = rt.alloc();
    let info = of_chunks(alloc, &[11, 22], &two_hashes())?;
    let plain = Vec::from_slice(alloc, &[3, 6])?;
    let whole = XorbObjectInfoV1::from_v0_with_unpacked_chunk_offsets(info.clone(alloc)?, plain);
    let mut sink = MemorySink::new(alloc);
    assert_eq!(rt;
        XorbObjectInfoV1::from_v0(info).serialize(&mut sink).err(),
        Some(StoreError::MalformedData(Reason::ListLength))
    );
    assert!(rt; sink.bytes().is_empty());
    assert!(rt; whole.serialize(&mut sink)? == 172);
    Ok(())
}

/// The error of reading the footer of one chunk with this byte at this offset, if there is one.
fn refusal(
    alloc: Global,
    encoding: &[u8],
    place: usize,
    byte: u8,
) -> Result<Option<StoreError>, StoreError> {
    let mut damaged = Vec::from_slice(alloc, encoding)?;
    if place < damaged.len() {
        damaged[place] = byte;
    }
    let read = XorbObjectInfoV1::deserialize(alloc, &mut SliceSource::new(&damaged));
    Ok(read.err())
}

#[test]
fn damaged(rt: HostRuntime) -> Result<(), Fail> {
    let alloc = rt.alloc();
    let info = of_chunks(alloc, &[11], &[compute_data_hash(b"abc")])?;
    let plain = Vec::from_slice(alloc, &[3])?;
    let mut sink = MemorySink::new(alloc);
    let whole = XorbObjectInfoV1::from_v0_with_unpacked_chunk_offsets(info, plain);
    assert!(rt; whole.serialize(&mut sink)? == 132);
    let table = [
        (0, 0, Reason::Ident),
        (7, 9, Reason::Version),
        (47, 1, Reason::HashesVersion),
        (51, 7, Reason::ChunkCount),
        (91, 0, Reason::BoundariesVersion),
        (92, 2, Reason::CountMismatch),
        (104, 2, Reason::CountMismatch),
        (108, 0, Reason::HashesOffset),
        (112, 0, Reason::BoundaryOffset),
    ];
    for (place, byte, reason) in table {
        assert_eq!(rt;
            refusal(alloc, sink.bytes(), place, byte)?,
            Some(StoreError::MalformedData(reason))
        );
    }
    let mut encoding = sink.into_bytes();
    encoding.truncate(131);
    let cut = XorbObjectInfoV1::deserialize(alloc, &mut SliceSource::new(&encoding));
    assert_eq!(rt; cut.err(), Some(StoreError::UnexpectedEof));
    Ok(())
}

/// A footer of version 0 with one chunk.
fn of_one_chunk(alloc: Global) -> Result<XorbObjectInfoV0, StoreError> {
    let mut bytes = [0; 32];
    bytes[0] = 1;
    bytes[8] = 2;
    bytes[16] = 3;
    bytes[31] = 128;
    of_chunks(alloc, &[11], &[MerkleHash::from_bytes(bytes)])
}

#[test]
fn as_json(rt: HostRuntime) -> Result<(), Fail> {
    let alloc = rt.alloc();
    assert_eq!(rt;
        serde_json::to_string(alloc, &XorbObjectInfoV1::default(alloc))?.as_str(),
        r#"{"ident":[88,69,84,66,76,79,66],"version":1,"cashash":[0,0,0,0],"ident_hash_section":[88,66,76,66,72,83,72],"hashes_version":0,"chunk_hashes":[],"ident_boundary_section":[88,66,76,66,66,78,68],"boundaries_version":1,"chunk_boundary_offsets":[],"unpacked_chunk_offsets":[],"num_chunks":0,"hashes_section_offset_from_end":52,"boundary_section_offset_from_end":40}"#
    );
    assert_eq!(rt;
        serde_json::to_string(alloc, &of_one_chunk(alloc)?)?.as_str(),
        r#"{"ident":[88,69,84,66,76,79,66],"version":0,"cashash":[0,0,0,0],"num_chunks":1,"chunk_boundary_offsets":[11],"chunk_hashes":[[1,2,3,9223372036854775808]]}"#
    );
    Ok(())
}
