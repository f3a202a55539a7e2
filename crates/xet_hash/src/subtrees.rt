//! Subtrees of a message, of which eight chunks or eight parents are computed at a time.

ghost use Rattle.std.specs.Prelude.{◌≡◌, ℕ, true, ◌+◌, ◌*◌, ◌%◌, ◌^◌, ◌<◌, ◌≤◌, length, take, drop};
ghost use Rattle.xet_hash.specs.Blake3.{subtree, subtree_len};
ghost use Rattle.xet_hash.specs.internal.Lanes.{HasChunkValues, lane};

use crate::blake3::{CHUNK_LEN, chunk, parent};
use crate::definition::{chunk_count, subtree, subtree_len};
use crate::lanes::{chunk_lanes, lane_value, parent_lanes, parents_of_pairs};
use std::simd::u32x8;

/// The number of bytes of eight chunks.
const ROW_LEN: usize = 8 * CHUNK_LEN;

/// The longest end of a message whose chunks are computed one at a time.
const LONGEST_BY_CHUNKS: usize = 3 * CHUNK_LEN;

/// The chaining values of eight full subtrees of a level. The first begins with the bytes, at the chunk with the
/// number `index`, and each other begins `apart` chunks after the one before. So a large message is read in eight
/// places at a time, each of which goes straight through its own memory.
fn row(key: &[u32; 8], flags: u32, index: u64, bytes: &[u8], level: u32, apart: u64) -> [u32x8; 8]
    requires level { level ≤ 51 }
    requires room { 1024 * (7 * apart + 2 ^ level) ≤ length bytes.now }
    requires index { index + 7 * apart + 2 ^ level ≤ 2 ^ 54 }
    ensures { (j : ℕ) → j < 8 → lane j result
        ≡ subtree key.now flags 0 (index + j * apart) (take (subtree_len level) (drop (j * (1024 * apart)) bytes.now)) level }
{
    if level == 0 {
        return chunk_lanes(key, flags, index, bytes, apart);
    }
    let below = level - 1;
    let (_, back) = bytes.split_at(subtree_len(below));
    let left = row(key, flags, index, bytes, below, apart);
    let right = row(key, flags, index + chunk_count(below), back, below, apart);
    parent_lanes(key, flags, &left, &right)
}

/// The chaining value of a full subtree.
pub(crate) fn full_subtree(
    key: &[u32; 8],
    flags: u32,
    index: u64,
    bytes: &[u8],
    level: u32,
) -> [u32; 8]
    requires level { level < 54 }
    requires whole { length bytes.now ≡ subtree_len level }
    requires index { index + 2 ^ level ≤ 2 ^ 54 }
    ensures { result ≡ subtree key.now flags 0 index bytes.now level }
{
    if level < 3 {
        return subtree(key, flags, 0, index, bytes, level);
    }
    let below = level - 3;
    let eight = row(key, flags, index, bytes, below, chunk_count(below));
    let four = parents_of_pairs(key, flags, &eight);
    let two = parents_of_pairs(key, flags, &four);
    parent(key, flags, 0, &lane_value(&two, 0), &lane_value(&two, 1))
}

/// The chaining values of the full chunks of these bytes, side by side. The bytes are padded to eight full chunks.
pub(crate) fn chunk_values(key: &[u32; 8], flags: u32, index: u64, bytes: &[u8]) -> [u32x8; 8]
    requires fits { length bytes.now ≤ 8192 }
    requires index { index + 8 ≤ 2 ^ 64 }
    ensures { HasChunkValues result 0 key.now flags index bytes.now }
{
    let mut padded = [0u8; ROW_LEN];
    padded[..bytes.len()].copy_from_slice(bytes);
    chunk_lanes(key, flags, index, &padded, 1)
}

/// The chaining value of the chunks of these bytes. Those of full chunks are in the lanes from `at` on.
fn subtree_of_values(
    key: &[u32; 8],
    flags: u32,
    last: u32,
    index: u64,
    bytes: &[u8],
    level: u32,
    values: &[u32x8; 8],
    at: usize,
) -> [u32; 8]
    requires level { level ≤ 3 }
    requires fits { length bytes.now ≤ subtree_len level }
    requires index { index + 2 ^ level ≤ 2 ^ 54 }
    requires at { at + 2 ^ level ≤ 8 }
    requires values { HasChunkValues values.now at key.now flags index bytes.now }
    ensures { result ≡ subtree key.now flags last index bytes.now level }
{
    if level == 0 {
        if last == 0 && bytes.len() == CHUNK_LEN {
            return lane_value(values, at);
        }
        return chunk(key, flags, last, index, bytes);
    }
    let below = level - 1;
    let half = subtree_len(below);
    if bytes.len() <= half {
        return subtree_of_values(key, flags, last, index, bytes, below, values, at);
    }
    let (prefix, back) = bytes.split_at(half);
    let count = chunk_count(below);
    let left = subtree_of_values(key, flags, 0, index, prefix, below, values, at);
    let right = subtree_of_values(
        key,
        flags,
        0,
        index + count,
        back,
        below,
        values,
        at + count as usize,
    );
    parent(key, flags, last, &left, &right)
}

/// The chaining value of the chunks of these bytes. The first chunk has the number `index`.
pub(crate) fn tree(
    key: &[u32; 8],
    flags: u32,
    last: u32,
    index: u64,
    bytes: &[u8],
    level: u32,
) -> [u32; 8]
    requires level { level ≤ 54 }
    requires fits { length bytes.now ≤ subtree_len level }
    requires index { index + 2 ^ level ≤ 2 ^ 54 }
    ensures { result ≡ subtree key.now flags last index bytes.now level }
{
    if level == 0 {
        return chunk(key, flags, last, index, bytes);
    }
    if level == 3 && bytes.len() > LONGEST_BY_CHUNKS {
        let values = chunk_values(key, flags, index, bytes);
        return subtree_of_values(key, flags, last, index, bytes, 3, &values, 0);
    }
    let below = level - 1;
    let half = subtree_len(below);
    if bytes.len() <= half {
        return tree(key, flags, last, index, bytes, below);
    }
    let (prefix, back) = bytes.split_at(half);
    let left = full_subtree(key, flags, index, prefix, below);
    let right = tree(key, flags, 0, index + chunk_count(below), back, below);
    parent(key, flags, last, &left, &right)
}

/// Whether a full subtree of a level can be taken next from `len` bytes, after `count` finished chunks, so that more
/// bytes follow it.
fn is_next(level: u32, count: u64, len: usize) -> bool
    requires { level < 54 }
    ensures aligned { result ≡ true → count % 2 ^ level ≡ 0 }
    ensures fits { result ≡ true → subtree_len level < len }
{
    count % chunk_count(level) == 0 && len > subtree_len(level)
}

/// The level of the full subtree to take next from `len` bytes, after `count` finished chunks. More bytes follow
/// the subtree. Levels of which eight chunks lie far apart in memory come first.
pub(crate) fn next_level(count: u64, len: usize) -> u32
    requires { 1024 < len }
    ensures level { result < 54 }
    ensures aligned { count % 2 ^ result ≡ 0 }
    ensures fits { subtree_len result < len }
{
    if is_next(6, count, len) {
        return 6;
    }
    if is_next(5, count, len) {
        return 5;
    }
    if is_next(4, count, len) {
        return 4;
    }
    if is_next(3, count, len) { 3 } else { 0 }
}

/// The number of full chunks to take side by side from `len` bytes, after `count` finished chunks. More bytes follow
/// them. It is 0 where one at a time is as fast.
pub(crate) fn chunks_in_row(count: u64, len: usize) -> usize
    ensures few { result ≤ 8 }
    ensures fits { 0 < result → 1024 * result < len }
{
    if len <= LONGEST_BY_CHUNKS {
        return 0;
    }
    let chunks = ((len - 1) / CHUNK_LEN).min(8 - (count % 8) as usize);
    if chunks < 3 { 0 } else { chunks }
}
