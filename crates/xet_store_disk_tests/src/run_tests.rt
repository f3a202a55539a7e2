//! Tests of reading byte ranges of xorbs on a disk in memory.

use crate::session::release;
use crate::xorbs::xorb_bytes;
use bytes::Bytes;
use std::alloc::Global;
use std::test::Fail;
use xet_folder::{Leaves, RunReader, XorbFile, lies_in, put_xorb, read_xorb};
use xet_hash::{MerkleHash, StoreError, compute_data_hash, xorb_hash};
use xet_io::MemoryDisk;
use xet_shard_format::FileDataSequenceEntry;
use xet_xorb_chunk::{Chunk, chunk_leaves};

/// Writes a xorb of three chunks, and returns its hash.
fn put_three(alloc: Global, disk: &mut MemoryDisk) -> Result<MerkleHash, StoreError> {
    let chunks = [
        Chunk::new(Bytes::from_static(b"abc")),
        Chunk::new(Bytes::from_static(b"defg")),
        Chunk::new(Bytes::from_static(b"hi")),
    ];
    let leaves = chunk_leaves(alloc, &chunks)?;
    let hash = xorb_hash(alloc, &leaves)?;
    let encoding = xorb_bytes(alloc, &chunks)?;
    put_xorb(disk, alloc, "store", &hash, &encoding)?;
    Ok(hash)
}

/// Reads a range of a segment; `InvalidRange` if the segment does not lie in the xorb or the range not in it.
fn read_part(
    reader: &mut RunReader,
    disk: &mut MemoryDisk,
    segment: &FileDataSequenceEntry,
    leaves: &Leaves,
    from: u64,
    to: u64,
) -> Result<(), StoreError> {
    let size = u64::from(segment.unpacked_segment_bytes);
    if from >= to || to > size || !lies_in(segment, leaves) {
        return Err(StoreError::InvalidRange);
    }
    reader.read_run(disk, "store", segment, leaves, from, to)
}

/// Reads two ranges of the xorb, one after the other.
fn read_parts(
    alloc: Global,
    disk: &mut MemoryDisk,
    hash: MerkleHash,
    leaves: &Leaves,
) -> Result<Vec<u8>, StoreError> {
    let all = FileDataSequenceEntry::new(hash, 9, 0, 3);
    let last = FileDataSequenceEntry::new(hash, 6, 1, 3);
    let mut reader = RunReader::with_capacity(alloc, 8)?;
    read_part(&mut reader, disk, &all, leaves, 2, 8)?;
    read_part(&mut reader, disk, &last, leaves, 4, 6)?;
    Ok(reader.into_bytes())
}

/// Stores the xorb and reads the two ranges: whether the bytes are right.
fn reads_three(alloc: Global, disk: &mut MemoryDisk) -> Result<bool, StoreError> {
    let hash = put_three(alloc, disk)?;
    match read_xorb(disk, alloc, "store", &hash)? {
        XorbFile::Stored(leaves) => {
            Ok(read_parts(alloc, disk, hash, &leaves)?.as_slice() == b"cdefghhi".as_slice())
        }
        _ => Ok(false),
    }
}

#[test]
fn reads_parts_of_a_xorb(rt: HostRuntime) -> Result<(), Fail> {
    let mut disk = MemoryDisk::new(rt.alloc());
    let answer = reads_three(rt.alloc(), &mut disk);
    release(disk);
    assert!(rt; answer?);
    Ok(())
}
