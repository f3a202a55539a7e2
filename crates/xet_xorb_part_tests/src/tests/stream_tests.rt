//! Round trips of streams of many chunks.

ghost use Rattle.std.specs.Prelude.{◌≤◌};

use super::chunk_tests::decoded;
use rand_core::{Rng, SeedableRng};
use rand_pcg::Pcg64;
use std::alloc::Global;
use std::test::Fail;
use xet_hash::StoreError;
use xet_io::{MemorySink, SliceSource};
use xet_xorb_chunk::*;
use xet_xorb_samples::*;

/// Maximum chunk size: 16 KiB.
const MAX: u32 = 16_384;

/// The length of the next chunk: the given one, or a random one from 1 byte to 16 KiB.
fn next_length(length: Option<u32>, rng: &mut Pcg64) -> u32
    ensures { result ≤ 16384 }
{
    match length {
        Some(length) => length.min(MAX),
        None => 1 + rng.next_u32() % MAX,
    }
}

/// `count` random chunks as stored, and their uncompressed bytes.
fn written(
    alloc: Global,
    count: u32,
    length: Option<u32>,
) -> Result<(Vec<u8>, Vec<u8>), StoreError> {
    let mut rng = Pcg64::seed_from_u64(13);
    let mut sink = MemorySink::new(alloc);
    let mut plain = Vec::new(alloc);
    for _done in 0..count {
        let size = next_length(length, &mut rng);
        let chunk = gen_random_bytes(alloc, size, &mut rng)?;
        serialize_chunk(&chunk, &mut sink, CompressionScheme::None)?;
        plain.extend_from_slice(&chunk)?;
    }
    Ok((sink.into_bytes(), plain))
}

/// Whether a stream is read back, from a source and in parts: as many chunks with the same bytes.
fn is_read_back(alloc: Global, count: u32, length: Option<u32>) -> Result<bool, StoreError> {
    let (stored, plain) = written(alloc, count, length)?;
    let (whole, places) = deserialize_chunks(alloc, &mut SliceSource::new(&stored), MAX)?;
    let (_, places_fed, fed) = decoded(alloc, &stored, 10_000, MAX)?;
    let counted = places.len() == count as usize + 1 && places_fed.len() == places.len();
    Ok(counted && whole == plain && fed == plain)
}

#[test]
fn streams_are_read_back(rt: HostRuntime) -> Result<(), Fail> {
    let alloc = rt.alloc();
    for count in [2, 10, 100, 1_000] {
        for length in [Some(16), Some(16_384), None] {
            assert!(rt; is_read_back(alloc, count, length)?);
        }
    }
    Ok(())
}
