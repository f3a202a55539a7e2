//! Tests of the chunker of a stream. Boundaries and chunk lengths were computed elsewhere.

ghost use Rattle.std.specs.Prelude.{◌<◌};

use crate::tests::samples::{lengths, push_leaves, small_limits};
use bytes::Bytes;
use std::alloc::Global;
use std::test::Fail;
use xet_choices::Choice;
use xet_cut::{Chunker, LimitSettings, Limits, chunk_list, gear_table, generated};
use xet_file_plan::FilePlan;
use xet_hash::{MerkleHash, StoreError};
use xet_xorb_chunk::{Chunk, chunk_leaves};

/// The lengths of the chunks of a whole stream: once from a slice, and once from shared bytes.
fn whole_lengths(
    alloc: Global,
    limits: &Limits,
    bytes: Vec<u8>,
) -> Result<(Vec<u64>, Vec<u64>), StoreError> {
    let mut chunker = Chunker::new(alloc, limits)?;
    let chunks = chunker.next_block(&bytes, true)?;
    let shared = chunker.next_block_bytes(&Bytes::from_vec(bytes)?, true)?;
    Ok((lengths_of(alloc, &chunks)?, lengths_of(alloc, &shared)?))
}

/// The length of each chunk in bytes.
fn lengths_of(alloc: Global, chunks: &[Chunk]) -> Result<Vec<u64>, StoreError> {
    lengths(alloc, &chunk_leaves(alloc, chunks)?)
}

/// Whether the chunks of a whole stream have these lengths, however the bytes are passed.
fn are_cut(
    alloc: Global,
    limits: &Limits,
    bytes: Vec<u8>,
    expected: &[u64],
) -> Result<bool, StoreError> {
    let (copied, shared) = whole_lengths(alloc, limits, bytes)?;
    Ok(copied.as_slice() == expected && shared.as_slice() == expected)
}

#[test]
fn blocks_are_cut_at_the_maximum(rt: HostRuntime) -> Result<(), Fail> {
    let alloc = rt.alloc();
    let limits = small_limits([1; 256])?;
    let short = vec![in alloc; 0; 3000]?;
    assert!(rt; are_cut(alloc, &limits, short, &[1024, 1024, 952])?);
    let long = vec![in alloc; 0; 8192]?;
    assert!(rt; are_cut(alloc, &limits, long, &[1024; 8])?);
    Ok(())
}

#[test]
fn long_blocks_are_cut_at_the_maximum(rt: HostRuntime) -> Result<(), Fail> {
    let alloc = rt.alloc();
    let limits = Limits::new(LimitSettings::shown([1; 256]))?;
    let bytes = vec![in alloc; 59; 1_000_000]?;
    let full = 131_072;
    let expected = [full, full, full, full, full, full, full, 82_496];
    assert!(rt; are_cut(alloc, &limits, bytes, &expected)?);
    Ok(())
}

#[test]
fn blocks_are_cut_at_the_minimum(rt: HostRuntime) -> Result<(), Fail> {
    let alloc = rt.alloc();
    let limits = small_limits([0; 256])?;
    let bytes = vec![in alloc; 0; 200]?;
    assert!(rt; are_cut(alloc, &limits, bytes, &[64, 64, 64, 8])?);
    Ok(())
}

/// What a new chunker gives for no bytes, first not the last ones and then the last ones, and at the end.
fn nothing_from(chunker: &mut Chunker) -> Result<[(bool, usize); 3], StoreError> {
    let (first, taken) = chunker.next(&[], false)?;
    let (last, also_taken) = chunker.next(&[], true)?;
    let end = chunker.finish()?;
    Ok([
        (first.is_some(), taken),
        (last.is_some(), also_taken),
        (end.is_some(), 0),
    ])
}

#[test]
fn no_bytes_give_no_chunk(rt: HostRuntime) -> Result<(), Fail> {
    let mut chunker = Chunker::new(rt.alloc(), &small_limits([0; 256])?)?;
    assert_eq!(rt; nothing_from(&mut chunker)?, [(false, 0); 3]);
    Ok(())
}

/// The length of a chunk in bytes.
fn length_of(chunk: Option<Chunk>) -> Option<usize> {
    chunk.map(|chunk| chunk.bytes.len())
}

/// The lengths that `next` gives, and how many bytes it takes: 40 bytes, then 40, the 16 of them that are left, and the end.
fn steps(chunker: &mut Chunker) -> Result<[(Option<usize>, usize); 4], StoreError> {
    let bytes = [0u8; 40];
    let (first, taken_first) = chunker.next(&bytes, false)?;
    let boundary = chunker.next_boundary(&bytes);
    let (second, taken_second) = chunker.next(&bytes, false)?;
    let (third, taken_third) = chunker.next(&bytes[..16], false)?;
    Ok([
        (length_of(first), taken_first),
        (boundary, taken_second),
        (length_of(second), taken_third),
        (length_of(third).or(length_of(chunker.finish()?)), 0),
    ])
}

#[test]
fn chunks_end_within_pieces(rt: HostRuntime) -> Result<(), Fail> {
    let mut chunker = Chunker::new(rt.alloc(), &small_limits([0; 256])?)?;
    assert_eq!(rt;
        steps(&mut chunker)?,
        [(None, 40), (Some(24), 24), (Some(64), 16), (Some(16), 0)]
    );
    Ok(())
}

/// Whether a buffer of 4,096 bytes has one owner: before its chunks are cut, while they are held, and after.
fn owners(alloc: Global, limits: &Limits) -> Result<[bool; 3], StoreError> {
    let mut chunker = Chunker::new(alloc, limits)?;
    let buffer = Bytes::from_vec(vec![in alloc; 0; 4096]?)?;
    let before = buffer.is_unique();
    let chunks = chunker.next_block_bytes(&buffer, true)?;
    let held = buffer.is_unique();
    let count = chunks.len();
    drop(chunks);
    Ok([before, held, buffer.is_unique() && count == 4])
}

#[test]
fn chunks_share_their_buffer(rt: HostRuntime) -> Result<(), Fail> {
    let alloc = rt.alloc();
    let limits = small_limits([1; 256])?;
    assert_eq!(rt; owners(alloc, &limits)?, [true, false, true]);
    Ok(())
}

/// Whether a buffer of 4,096 bytes still has other owners, once the first `count` of its four chunks are stored in a plan and the
/// plan has released it.
fn is_kept(alloc: Global, limits: &Limits, count: usize) -> Result<bool, StoreError> {
    let mut chunker = Chunker::new(alloc, limits)?;
    let buffer = Bytes::from_vec(vec![in alloc; 0; 4096]?)?;
    let mut plan = FilePlan::new(alloc, limits)?;
    for chunk in chunker
        .next_block_bytes(&buffer, true)?
        .into_iter()
        .take(count)
    {
        store(&mut plan, chunk)?;
    }
    plan.release(alloc, buffer.len());
    Ok(!buffer.is_unique())
}

/// Stores a chunk in a plan if it fits.
fn store(plan: &mut FilePlan, chunk: Chunk) -> Result<(), StoreError> {
    plan.recall_invariant();
    if chunk.bytes.len() <= 1024 && plan.len() < 4 && plan.fits(chunk.bytes.len()) {
        plan.store_chunk(chunk, Choice::NoPlace { entry: 0 })?;
    }
    Ok(())
}

#[test]
fn few_chunks_do_not_keep_their_buffer(rt: HostRuntime) -> Result<(), Fail> {
    let alloc = rt.alloc();
    let limits = small_limits([1; 256])?;
    assert!(rt; !is_kept(alloc, &limits, 1)?);
    assert!(rt; is_kept(alloc, &limits, 2)?);
    assert!(rt; is_kept(alloc, &limits, 4)?);
    Ok(())
}

/// Adds the chunks of a stream that comes in pieces of this length, by `next_block`.
fn push_pieces(
    chunker: &mut Chunker,
    bytes: &[u8],
    piece: usize,
    leaves: &mut Vec<(MerkleHash, u64)>,
) -> Result<(), StoreError>
    requires { 0 < piece }
{
    for part in bytes.chunks(piece) {
        push_leaves(leaves, &chunker.next_block(part, false)?)?;
    }
    push_leaves(leaves, &chunker.next_block(&[], true)?)
}

/// Adds the chunks that end in a piece, by `next_block_bytes`.
fn push_shared_piece(
    alloc: Global,
    chunker: &mut Chunker,
    piece: &[u8],
    leaves: &mut Vec<(MerkleHash, u64)>,
) -> Result<(), StoreError> {
    let piece = Bytes::from_vec(Vec::from_slice(alloc, piece)?)?;
    push_leaves(leaves, &chunker.next_block_bytes(&piece, false)?)
}

/// Adds the chunks of a stream that comes in pieces of this length, by `next_block_bytes` and `finish`.
fn push_shared_pieces(
    alloc: Global,
    chunker: &mut Chunker,
    bytes: &[u8],
    piece: usize,
    leaves: &mut Vec<(MerkleHash, u64)>,
) -> Result<(), StoreError>
    requires { 0 < piece }
{
    for part in bytes.chunks(piece) {
        push_shared_piece(alloc, chunker, part, leaves)?;
    }
    if let Some(chunk) = chunker.finish()? {
        leaves.push((chunk.hash, chunk.bytes.len() as u64))?;
    }
    Ok(())
}

/// Whether pieces of this length give these chunks, however the bytes are passed.
fn are_same_in_pieces(
    alloc: Global,
    limits: &Limits,
    bytes: &[u8],
    piece: usize,
    whole: &[(MerkleHash, u64)],
) -> Result<bool, StoreError>
    requires { 0 < piece }
{
    let mut chunker = Chunker::new(alloc, limits)?;
    let mut copied = Vec::new(alloc);
    push_pieces(&mut chunker, bytes, piece, &mut copied)?;
    let mut shared = Vec::new(alloc);
    push_shared_pieces(alloc, &mut chunker, bytes, piece, &mut shared)?;
    Ok(copied.as_slice() == whole && shared.as_slice() == whole)
}

/// The lengths of the chunks of 3,000 generated bytes, and whether pieces of three lengths give these chunks.
fn generated_pieces(alloc: Global, limits: &Limits) -> Result<(Vec<u64>, [bool; 3]), StoreError> {
    let bytes = generated(alloc, 0, 3000)?;
    let whole = chunk_list(alloc, limits, &bytes)?;
    let same = [
        are_same_in_pieces(alloc, limits, &bytes, 1, &whole)?,
        are_same_in_pieces(alloc, limits, &bytes, 37, &whole)?,
        are_same_in_pieces(alloc, limits, &bytes, 255, &whole)?,
    ];
    Ok((lengths(alloc, &whole)?, same))
}

#[test]
fn pieces_give_the_chunks_of_the_whole(rt: HostRuntime) -> Result<(), Fail> {
    let limits = small_limits(gear_table(0))?;
    let (lengths, same) = generated_pieces(rt.alloc(), &limits)?;
    assert_eq!(rt; lengths.as_slice(), [523, 407, 1003, 635, 432].as_slice());
    assert_eq!(rt; same, [true; 3]);
    Ok(())
}
