//! The chunks of a file, and how they are packed into xorbs.

ghost use Rattle.std.specs.Prelude.{◌≡◌, ◌≤◌, ◌<◌, ℕ, length, map, take, IfOk, IsOkUnless};
ghost use Rattle.std.specs.List.{AllByRecursion};
ghost use Rattle.xet_xorb_chunk.specs.Chunks.{bytes_of_chunk, chunk_of, total};
ghost use Rattle.xet_cut.specs.Chunking.{chunking};
ghost use Rattle.xet_dedup.specs.Packing.{pack_len};

use bytes::Bytes;
use std::alloc::Global;
use xet_cut::{Limits, first_chunk_len};
use xet_hash::StoreError;
use xet_xorb_chunk::Chunk;

/// The chunks of a file's bytes, by content-defined chunking. They share the bytes. The only error is out of
/// memory.
pub fn chunks_of(alloc: Global, limits: &Limits, bytes: Vec<u8>) -> Result<Vec<Chunk>, StoreError>
    ensures chunks { IfOk result (λ chunks. chunks.items ≡ map chunk_of (chunking limits.now bytes.items)) }
    ensures total { IfOk result (λ chunks. total chunks.items ≡ length bytes.items) }
    ensures memory { IsOkUnless result StoreError.OutOfMemory }
{
    let mut rest = Bytes::from_vec(bytes)?;
    let mut chunks = Vec::new(alloc);
    'pieces: while rest.len() > 0 {
        let length = first_chunk_len(limits, rest.as_slice());
        chunks.push(Chunk::new(rest.split_to(length)?))?;
    }
    Ok(chunks)
}

/// How many of the first chunks go into the next xorb: as many as fit its limits of bytes and of chunks.
pub fn pack_len(limits: &Limits, chunks: &[Chunk]) -> usize
    requires some { 0 < length chunks.now }
    requires fit { AllByRecursion (λ c. length c.bytes ≤ limits.now.cut_bytes) chunks.now }
    ensures value { result ≡ pack_len limits.now (map bytes_of_chunk chunks.now) }
    ensures some { 0 < result }
    ensures bound { result ≤ length chunks.now }
    ensures count { result ≤ limits.now.cut_chunks }
    ensures bytes { total (take result chunks.now) ≤ limits.now.cut_bytes }
{
    let max_count = chunks.len().min(limits.cut_chunks() as usize);
    let mut room = limits.cut_bytes() as usize;
    let mut count = 0;
    'chunks: while count < max_count {
        let length = chunks[count].bytes.len();
        if length > room {
            break 'chunks;
        }
        room -= length;
        count += 1;
    }
    count
}
