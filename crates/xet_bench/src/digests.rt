//! Phases of digests, chunking and hexadecimal decoding over a generated file. They time themselves.

ghost use Rattle.std.specs.Prelude.{◌<◌, ◌^◌, length};

use crate::timed::since;
use std::alloc::Global;
use std::time::{Clock, Instant};
use xet_cut::{Chunker, LimitSettings, Limits, chunk_lengths, gear_table, generated};
use xet_hash::{DATA_KEY, DataHash, DataHasher, StoreError, compute_data_hash, definition};

/// What is done with the bytes of the file.
#[derive(Clone, Copy, PartialEq, Eq)]
pub enum Body {
    /// The digest of the whole file.
    Whole,
    /// The same from pieces of 64 KiB.
    Pieces,
    /// The digest of each 64 KiB.
    Messages,
    /// The digest of the whole file by its definition.
    Definition,
    /// The digest of each 64 KiB by its definition.
    MessagesByDefinition,
    /// The lengths of its chunks, at the default limits.
    Chunks,
    /// The boundaries of its chunks alone, at the default limits.
    Boundaries,
    /// Decoding of its hexadecimal digits.
    Hex,
}

/// The number of bytes of a piece.
const PIECE: usize = 1 << 16;

/// Times a body over a generated file, in microseconds.
pub(crate) fn time_body<R: Clock>(
    clock: &R,
    alloc: Global,
    body: Body,
    length: usize,
) -> Result<u64, StoreError> {
    let file = generated(alloc, 7, length)?;
    match body {
        Body::Chunks => time_chunks(clock, alloc, &file),
        Body::Boundaries => time_boundaries(clock, alloc, &file),
        Body::Hex => time_hex(clock, alloc, &file),
        _ => Ok(time_digest(clock, body, &file)),
    }
}

fn time_digest<R: Clock>(clock: &R, body: Body, file: &[u8]) -> u64 {
    let start = Instant::now(clock).ok();
    let hash = match body {
        Body::Pieces => by_pieces(file),
        Body::Messages => by_messages(file),
        Body::Definition => definition::keyed_digest(&DATA_KEY, file),
        Body::MessagesByDefinition => by_messages_and_definition(file),
        _ => compute_data_hash(file),
    };
    let time = since(clock, start);
    // The digest is used, so that it is computed.
    if hash == DataHash::marker() { 0 } else { time }
}

/// The digest of a file that arrives in pieces.
fn by_pieces(file: &[u8]) -> DataHash {
    let mut hasher = DataHasher::new(DATA_KEY);
    let mut rest = file;
    'pieces: while rest.len() > PIECE {
        let (piece, tail) = rest.split_at(PIECE);
        hasher.update(piece);
        rest = tail;
    }
    hasher.update(rest);
    hasher.finish()
}

/// The digest of the last piece, after those of all pieces.
fn by_messages(file: &[u8]) -> DataHash {
    let mut hash = DataHash::default();
    for piece in file.chunks(PIECE) {
        hash = compute_data_hash(piece);
    }
    hash
}

/// The same by the definition.
fn by_messages_and_definition(file: &[u8]) -> DataHash {
    let mut hash = DataHash::default();
    for piece in file.chunks(PIECE) {
        hash = definition::keyed_digest(&DATA_KEY, piece);
    }
    hash
}

fn time_chunks<R: Clock>(clock: &R, alloc: Global, file: &[u8]) -> Result<u64, StoreError> {
    let limits = Limits::new(LimitSettings::shown(gear_table(0)))?;
    let start = Instant::now(clock).ok();
    let lengths = chunk_lengths(alloc, &limits, file)?;
    let time = since(clock, start);
    Ok(if lengths.is_empty() { 0 } else { time })
}

fn time_boundaries<R: Clock>(clock: &R, alloc: Global, file: &[u8]) -> Result<u64, StoreError> {
    let limits = Limits::new(LimitSettings::shown(gear_table(0)))?;
    let chunker = Chunker::new(alloc, &limits)?;
    let start = Instant::now(clock).ok();
    let left = after_last_boundary(&chunker, file);
    let time = since(clock, start);
    Ok(if left == file.len() { 0 } else { time })
}

/// The number of bytes after the last boundary of a file.
fn after_last_boundary(chunker: &Chunker, file: &[u8]) -> usize {
    let mut rest = file;
    'chunks: while let Some(length) = chunker.next_boundary(rest) {
        rest = &rest[length..];
    }
    rest.len()
}

fn time_hex<R: Clock>(clock: &R, alloc: Global, file: &[u8]) -> Result<u64, StoreError> {
    let digits = hex::encode(alloc, file)?;
    let start = Instant::now(clock).ok();
    let decoded = hex::decode(alloc, digits.as_bytes());
    let time = since(clock, start);
    Ok(if decoded.is_ok() { time } else { 0 })
}
