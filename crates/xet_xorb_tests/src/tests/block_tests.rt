//! Reads of validation: in blocks, and no byte of a chunk twice.

ghost use Rattle.std.specs.Prelude.{true};

use rand_core::SeedableRng;
use rand_pcg::Pcg64;
use std::alloc::Global;
use std::test::Fail;
use xet_hash::{MerkleHash, StoreError};
use xet_io::{Failed, MemorySink, ReadAt, SliceReader};
use xet_xorb::*;
use xet_xorb_samples::*;

/// Maximum chunk size, in bytes.
const MAX: u32 = 200_000;

/// A reader that counts its reads, and the bytes that they returned.
#[derive(Drop)]
struct CountingReader<'a> {
    reader: SliceReader<'a>,
    reads: u64,
    given: u64,
}

impl ReadAt for CountingReader<'_> {
    ghost tells = { λ _. true };

    ghost bytes = { λ r. r.reader };

    ghost faults = { λ _. 0 };

    fn length(&mut self) -> Result<u64, Failed> {
        self.reader.length()
    }

    fn read_at(&mut self, at: u64, buf: &mut [u8]) -> Result<usize, Failed> {
        let count = self.reader.read_at(at, buf)?;
        self.reads = self.reads.saturating_add(1);
        self.given = self.given.saturating_add(count as u64);
        Ok(count)
    }
}

/// Random chunks with these lengths, as stored.
fn chunks_of(alloc: Global, lengths: &[u32]) -> Result<Vec<u8>, StoreError> {
    let mut rng = Pcg64::seed_from_u64(14);
    let mut stored = MemorySink::new(alloc);
    for length in lengths {
        let chunk = gen_random_bytes(alloc, (*length).min(MAX), &mut rng)?;
        serialize_chunk(&chunk, &mut stored, CompressionScheme::None)?;
    }
    Ok(stored.into_bytes())
}

/// A xorb of random chunks with these lengths, and its hash.
fn xorb_of(alloc: Global, lengths: &[u32]) -> Result<(Vec<u8>, MerkleHash), StoreError> {
    let stored = chunks_of(alloc, lengths)?;
    if stored.len() > 1_000_000_000 {
        return Err(StoreError::InvalidArguments);
    }
    let mut sink = MemorySink::new(alloc);
    let (_, hash) = reconstruct_xorb_with_footer(alloc, &mut sink, &stored, MAX)?;
    Ok((sink.into_bytes(), hash))
}

/// The number of validated chunks, of reads, and of bytes read. There are no chunks if the bytes are not
/// valid.
fn validated(
    alloc: Global,
    bytes: &[u8],
    hash: &MerkleHash,
) -> Result<(u32, u64, u64), StoreError> {
    let mut reader = CountingReader {
        reader: SliceReader::new(bytes),
        reads: 0,
        given: 0,
    };
    let count = match XorbObject::validate_xorb_object(alloc, &mut reader, hash, MAX)? {
        Some(object) => object.info.num_chunks,
        None => 0,
    };
    Ok((count, reader.reads, reader.given))
}

// The footer's length (4 bytes) and its spare bytes (16) are read twice.
#[test]
fn short_chunks_are_read_in_blocks(rt: HostRuntime) -> Result<(), Fail> {
    let alloc = rt.alloc();
    let lengths = vec![in alloc; 100; 3_000]?;
    let (bytes, hash) = xorb_of(alloc, &lengths)?;
    assert!(rt; bytes.len() == 444_096);
    let (count, reads, given) = validated(alloc, &bytes, &hash)?;
    assert!(rt; count == 3_000 && reads <= 10);
    assert!(rt; given == 444_116);
    Ok(())
}

#[test]
fn long_chunks_are_read_whole(rt: HostRuntime) -> Result<(), Fail> {
    let alloc = rt.alloc();
    let (bytes, hash) = xorb_of(alloc, &[10, 200_000, 70_000, 5, 65_536, 131_072, 1])?;
    assert!(rt; bytes.len() == 467_056);
    let (count, reads, given) = validated(alloc, &bytes, &hash)?;
    assert!(rt; count == 7 && reads <= 7);
    assert!(rt; given == 467_076);
    Ok(())
}

/// The number of validated chunks after one bit at this offset was flipped.
fn with_change(
    alloc: Global,
    bytes: &[u8],
    hash: &MerkleHash,
    place: usize,
) -> Result<u32, StoreError> {
    let mut changed = Vec::from_slice(alloc, bytes)?;
    if let Some(byte) = changed.get_mut(place) {
        *byte ^= 1;
    }
    Ok(validated(alloc, &changed, hash)?.0)
}

#[test]
fn changes_at_the_edges_of_blocks(rt: HostRuntime) -> Result<(), Fail> {
    let alloc = rt.alloc();
    let lengths = vec![in alloc; 100; 3_000]?;
    let (bytes, hash) = xorb_of(alloc, &lengths)?;
    let changes = [
        (0, 0),
        (65_535, 0),
        (65_536, 0),
        (131_000, 0),
        (324_000, 0),
        (390_000, 0),
        (443_000, 0),
        (500_000, 3_000),
    ];
    for (place, count) in changes {
        assert!(rt; with_change(alloc, &bytes, &hash, place)? == count);
    }
    Ok(())
}
