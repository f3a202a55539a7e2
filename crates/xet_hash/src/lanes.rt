//! The steps of BLAKE3 on eight blocks at a time. A word is a vector, whose lane `j` belongs to block `j`.

ghost use Rattle.std.specs.Prelude.{◌≡◌, ℕ, ◌+◌, ◌*◌, ◌/◌, ◌<◌, ◌%◌, ◌^◌, ◌≤◌, [], ◌∷◌, ◌++◌, length, take, drop, bit_xor, slice_index};
ghost use Rattle.std.specs.Int.{w32, rotate_right};
ghost use Rattle.xet_hash.specs.Blake3.{add32, block_words, chaining_value, chunk_value, compress, half_mix, initial_words, mix, parent_value, permuted, round};
ghost use Rattle.xet_hash.specs.internal.Lanes.{four_words, lane};

use crate::blake3::{CHUNK_END, CHUNK_LEN, INITIAL_WORDS, PARENT, start_flag};
use std::simd::{u8x16, u32x4, u32x8};

#[inline(always)]
fn added(a: u32x8, b: u32x8) -> u32x8
    ensures { (j : ℕ) → j < 8 → slice_index result j ≡ add32 (slice_index a j) (slice_index b j) }
{
    a + b
}

#[inline(always)]
fn xor_rotated(a: u32x8, b: u32x8, k: u32) -> u32x8
    requires { (0 < k) × (k < 32) }
    ensures { (j : ℕ) → j < 8 → slice_index result j ≡ rotate_right w32 (bit_xor (slice_index a j) (slice_index b j)) k }
{
    let x = a ^ b;
    (x >> u32x8::splat(k)) | (x << u32x8::splat(32 - k))
}

#[inline(always)]
fn half_mix(v: &mut [u32x8; 16], a: usize, b: usize, c: usize, d: usize, x: u32x8, m: u32, n: u32)
    requires a_in { a < 16 }
    requires b_in { b < 16 }
    requires c_in { c < 16 }
    requires d_in { d < 16 }
    requires m_in { (0 < m) × (m < 32) }
    requires n_in { (0 < n) × (n < 32) }
    ensures { (j : ℕ) → j < 8 → lane j v.new ≡ half_mix (lane j v.old) a b c d (slice_index x j) m n }
{
    v[a] = added(added(v[a], v[b]), x);
    v[d] = xor_rotated(v[d], v[a], m);
    v[c] = added(v[c], v[d]);
    v[b] = xor_rotated(v[b], v[c], n);
}

#[inline(always)]
fn mix(v: &mut [u32x8; 16], a: usize, b: usize, c: usize, d: usize, x: u32x8, y: u32x8)
    requires a_in { a < 16 }
    requires b_in { b < 16 }
    requires c_in { c < 16 }
    requires d_in { d < 16 }
    ensures { (j : ℕ) → j < 8 → lane j v.new ≡ mix (lane j v.old) a b c d (slice_index x j) (slice_index y j) }
{
    half_mix(v, a, b, c, d, x, 16, 12);
    half_mix(v, a, b, c, d, y, 8, 7);
}

#[inline(always)]
fn round(v: &mut [u32x8; 16], m: &[u32x8; 16])
    ensures { (j : ℕ) → j < 8 → lane j v.new ≡ round (lane j v.old) (lane j m.now) }
{
    mix(v, 0, 4, 8, 12, m[0], m[1]);
    mix(v, 1, 5, 9, 13, m[2], m[3]);
    mix(v, 2, 6, 10, 14, m[4], m[5]);
    mix(v, 3, 7, 11, 15, m[6], m[7]);
    mix(v, 0, 5, 10, 15, m[8], m[9]);
    mix(v, 1, 6, 11, 12, m[10], m[11]);
    mix(v, 2, 7, 8, 13, m[12], m[13]);
    mix(v, 3, 4, 9, 14, m[14], m[15]);
}

#[inline(always)]
fn permuted(m: &[u32x8; 16]) -> [u32x8; 16]
    ensures { (j : ℕ) → j < 8 → lane j result ≡ permuted (lane j m.now) }
{
    [
        m[2], m[6], m[3], m[10], m[7], m[0], m[4], m[13], m[1], m[11], m[12], m[5], m[9], m[14],
        m[15], m[8],
    ]
}

#[inline(always)]
fn start(h: &[u32x8; 8], low: u32x8, high: u32x8, len: u32, flags: u32) -> [u32x8; 16]
    ensures { (j : ℕ) → j < 8 → lane j result
        ≡ lane j h.now ++ take 4 initial_words ++ slice_index low j ∷ slice_index high j ∷ len ∷ flags ∷ [] }
{
    [
        h[0],
        h[1],
        h[2],
        h[3],
        h[4],
        h[5],
        h[6],
        h[7],
        u32x8::splat(INITIAL_WORDS[0]),
        u32x8::splat(INITIAL_WORDS[1]),
        u32x8::splat(INITIAL_WORDS[2]),
        u32x8::splat(INITIAL_WORDS[3]),
        low,
        high,
        u32x8::splat(len),
        u32x8::splat(flags),
    ]
}

#[inline(always)]
fn xored(a: u32x8, b: u32x8) -> u32x8
    ensures { (j : ℕ) → j < 8 → slice_index result j ≡ bit_xor (slice_index a j) (slice_index b j) }
{
    a ^ b
}

#[inline(always)]
fn folded(v: &[u32x8; 16]) -> [u32x8; 8]
    ensures { (j : ℕ) → j < 8 → lane j result ≡ chaining_value (lane j v.now) }
{
    [
        xored(v[0], v[8]),
        xored(v[1], v[9]),
        xored(v[2], v[10]),
        xored(v[3], v[11]),
        xored(v[4], v[12]),
        xored(v[5], v[13]),
        xored(v[6], v[14]),
        xored(v[7], v[15]),
    ]
}

/// Compresses each block into the chaining value in its lane. The counters are in two halves.
#[inline(always)]
fn compress(
    h: &[u32x8; 8],
    block: &[u32x8; 16],
    low: u32x8,
    high: u32x8,
    len: u32,
    flags: u32,
) -> [u32x8; 8]
    ensures { (j t : ℕ) → j < 8 → slice_index low j ≡ t % 2 ^ 32 → slice_index high j ≡ t / 2 ^ 32
        → lane j result ≡ compress (lane j h.now) (lane j block.now) t len flags }
{
    let mut v = start(h, low, high, len, flags);
    round(&mut v, block);
    let m = permuted(block);
    round(&mut v, &m);
    let m = permuted(&m);
    round(&mut v, &m);
    let m = permuted(&m);
    round(&mut v, &m);
    let m = permuted(&m);
    round(&mut v, &m);
    let m = permuted(&m);
    round(&mut v, &m);
    let m = permuted(&m);
    round(&mut v, &m);
    folded(&v)
}

/// The four words at an offset.
#[inline(always)]
fn load_four(bytes: &[u8], at: usize) -> u32x4
    requires { at + 16 ≤ length bytes.now }
    ensures { result ≡ four_words bytes.now at }
{
    u32x4::from_le_bytes(u8x16::from_slice(&bytes[at..]))
}

/// The four words at an offset, and then those `distance` bytes further on.
#[inline(always)]
fn load_row(bytes: &[u8], at: usize, distance: usize) -> u32x8
    requires { distance + at + 16 ≤ length bytes.now }
    ensures { result ≡ four_words bytes.now at ++ four_words bytes.now (distance + at) }
{
    load_four(bytes, at).shuffle(load_four(bytes, distance + at), [0, 1, 2, 3, 4, 5, 6, 7])
}

/// The columns of four rows. A column has one word of the first half of each row, and then of the second halves.
#[inline(always)]
fn columns(a: u32x8, b: u32x8, c: u32x8, d: u32x8) -> [u32x8; 4]
    ensures first_half { (lane 0 result ≡ take 4 a) × (lane 1 result ≡ take 4 b) × (lane 2 result ≡ take 4 c) × (lane 3 result ≡ take 4 d) }
    ensures second_half { (lane 4 result ≡ drop 4 a) × (lane 5 result ≡ drop 4 b) × (lane 6 result ≡ drop 4 c) × (lane 7 result ≡ drop 4 d) }
{
    let low_ab = a.shuffle(b, [0, 8, 1, 9, 4, 12, 5, 13]);
    let high_ab = a.shuffle(b, [2, 10, 3, 11, 6, 14, 7, 15]);
    let low_cd = c.shuffle(d, [0, 8, 1, 9, 4, 12, 5, 13]);
    let high_cd = c.shuffle(d, [2, 10, 3, 11, 6, 14, 7, 15]);
    [
        low_ab.shuffle(low_cd, [0, 1, 8, 9, 4, 5, 12, 13]),
        low_ab.shuffle(low_cd, [2, 3, 10, 11, 6, 7, 14, 15]),
        high_ab.shuffle(high_cd, [0, 1, 8, 9, 4, 5, 12, 13]),
        high_ab.shuffle(high_cd, [2, 3, 10, 11, 6, 7, 14, 15]),
    ]
}

/// The four words at each of eight offsets. The first is `at`, and each other is `distance` more than the one before.
#[inline(always)]
fn load_lanes(bytes: &[u8], at: usize, distance: usize) -> [u32x8; 4]
    requires { 7 * distance + at + 16 ≤ length bytes.now }
    ensures { (j : ℕ) → j < 8 → lane j result ≡ four_words bytes.now (j * distance + at) }
{
    let half = 4 * distance;
    columns(
        load_row(bytes, at, half),
        load_row(bytes, distance + at, half),
        load_row(bytes, 2 * distance + at, half),
        load_row(bytes, 3 * distance + at, half),
    )
}

/// The blocks at eight offsets. The first is `at`, and each other is `distance` more than the one before.
#[inline(always)]
fn block_lanes(bytes: &[u8], at: usize, distance: usize) -> [u32x8; 16]
    requires { 7 * distance + at + 64 ≤ length bytes.now }
    ensures { (j : ℕ) → j < 8 → lane j result ≡ block_words (take 64 (drop (j * distance + at) bytes.now)) }
{
    let a = load_lanes(bytes, at, distance);
    let b = load_lanes(bytes, at + 16, distance);
    let c = load_lanes(bytes, at + 32, distance);
    let d = load_lanes(bytes, at + 48, distance);
    [
        a[0], a[1], a[2], a[3], b[0], b[1], b[2], b[3], c[0], c[1], c[2], c[3], d[0], d[1], d[2],
        d[3],
    ]
}

fn low(x: u64) -> u32
    ensures { result ≡ x % 2 ^ 32 }
{
    (x & 0xFFFF_FFFF) as u32
}

fn high(x: u64) -> u32
    ensures { result ≡ x / 2 ^ 32 }
{
    (x >> 32) as u32
}

/// The low halves of eight counters. The first is `index`, and each other is `apart` more than the one before.
fn counters_low(index: u64, apart: u64) -> u32x8
    requires { index + 7 * apart < 2 ^ 64 }
    ensures { (j : ℕ) → j < 8 → slice_index result j ≡ (index + j * apart) % 2 ^ 32 }
{
    u32x8::from_array([
        low(index),
        low(index + apart),
        low(index + 2 * apart),
        low(index + 3 * apart),
        low(index + 4 * apart),
        low(index + 5 * apart),
        low(index + 6 * apart),
        low(index + 7 * apart),
    ])
}

/// The high halves of eight counters. The first is `index`, and each other is `apart` more than the one before.
fn counters_high(index: u64, apart: u64) -> u32x8
    requires { index + 7 * apart < 2 ^ 64 }
    ensures { (j : ℕ) → j < 8 → slice_index result j ≡ (index + j * apart) / 2 ^ 32 }
{
    u32x8::from_array([
        high(index),
        high(index + apart),
        high(index + 2 * apart),
        high(index + 3 * apart),
        high(index + 4 * apart),
        high(index + 5 * apart),
        high(index + 6 * apart),
        high(index + 7 * apart),
    ])
}

/// The same words in every lane.
#[inline(always)]
fn spread(words: &[u32; 8]) -> [u32x8; 8]
    ensures { (j : ℕ) → j < 8 → lane j result ≡ words.now }
{
    [
        u32x8::splat(words[0]),
        u32x8::splat(words[1]),
        u32x8::splat(words[2]),
        u32x8::splat(words[3]),
        u32x8::splat(words[4]),
        u32x8::splat(words[5]),
        u32x8::splat(words[6]),
        u32x8::splat(words[7]),
    ]
}

/// Compresses the blocks at eight offsets into the chaining values in the lanes.
fn add_block(
    h: &mut [u32x8; 8],
    bytes: &[u8],
    at: usize,
    distance: usize,
    low: u32x8,
    high: u32x8,
    flags: u32,
)
    requires { 7 * distance + at + 64 ≤ length bytes.now }
    ensures { (j t : ℕ) → j < 8 → slice_index low j ≡ t % 2 ^ 32 → slice_index high j ≡ t / 2 ^ 32
        → lane j h.new ≡ compress (lane j h.old) (block_words (take 64 (drop (j * distance + at) bytes.now))) t 64 flags }
{
    let before = *h;
    let block = block_lanes(bytes, at, distance);
    *h = compress(&before, &block, low, high, 64, flags);
}

/// The chaining values of eight chunks. The first has the number `index` and begins with the bytes, and each other
/// begins `apart` chunks after the one before.
pub(crate) fn chunk_lanes(
    key: &[u32; 8],
    flags: u32,
    index: u64,
    bytes: &[u8],
    apart: u64,
) -> [u32x8; 8]
    requires room { 1024 * (7 * apart + 1) ≤ length bytes.now }
    requires index { index + 7 * apart < 2 ^ 64 }
    ensures { (j : ℕ) → j < 8
        → lane j result ≡ chunk_value key.now flags 0 (index + j * apart) (take 1024 (drop (j * (1024 * apart)) bytes.now)) }
{
    let distance = CHUNK_LEN * apart as usize;
    let low = counters_low(index, apart);
    let high = counters_high(index, apart);
    let mut h = spread(key);
    'blocks: for n in 0..15usize {
        add_block(
            &mut h,
            bytes,
            64 * n,
            distance,
            low,
            high,
            flags | start_flag(n),
        );
    }
    add_block(&mut h, bytes, 960, distance, low, high, flags | CHUNK_END);
    h
}

/// The chaining value of the parent of the two values in each lane.
pub(crate) fn parent_lanes(
    key: &[u32; 8],
    flags: u32,
    left: &[u32x8; 8],
    right: &[u32x8; 8],
) -> [u32x8; 8]
    ensures { (j : ℕ) → j < 8 → lane j result ≡ parent_value key.now flags 0 (lane j left.now) (lane j right.now) }
{
    let h = spread(key);
    let block = [
        left[0], left[1], left[2], left[3], left[4], left[5], left[6], left[7], right[0], right[1],
        right[2], right[3], right[4], right[5], right[6], right[7],
    ];
    compress(
        &h,
        &block,
        u32x8::splat(0),
        u32x8::splat(0),
        64,
        flags | PARENT,
    )
}

/// The elements with even indices, in the first four places.
#[inline(always)]
fn even(a: u32x8) -> u32x8
    ensures { (j : ℕ) → j < 4 → slice_index result j ≡ slice_index a (2 * j) }
{
    a.shuffle(a, [0, 2, 4, 6, 0, 2, 4, 6])
}

/// The elements with odd indices, in the first four places.
#[inline(always)]
fn odd(a: u32x8) -> u32x8
    ensures { (j : ℕ) → j < 4 → slice_index result j ≡ slice_index a (2 * j + 1) }
{
    a.shuffle(a, [1, 3, 5, 7, 1, 3, 5, 7])
}

/// The values in the lanes with even numbers, in the first four lanes.
#[inline(always)]
fn even_lanes(v: &[u32x8; 8]) -> [u32x8; 8]
    ensures { (j : ℕ) → j < 4 → lane j result ≡ lane (2 * j) v.now }
{
    [
        even(v[0]),
        even(v[1]),
        even(v[2]),
        even(v[3]),
        even(v[4]),
        even(v[5]),
        even(v[6]),
        even(v[7]),
    ]
}

/// The values in the lanes with odd numbers, in the first four lanes.
#[inline(always)]
fn odd_lanes(v: &[u32x8; 8]) -> [u32x8; 8]
    ensures { (j : ℕ) → j < 4 → lane j result ≡ lane (2 * j + 1) v.now }
{
    [
        odd(v[0]),
        odd(v[1]),
        odd(v[2]),
        odd(v[3]),
        odd(v[4]),
        odd(v[5]),
        odd(v[6]),
        odd(v[7]),
    ]
}

/// The chaining values of the parents of the pairs of adjacent lanes, in the first four lanes.
pub(crate) fn parents_of_pairs(key: &[u32; 8], flags: u32, v: &[u32x8; 8]) -> [u32x8; 8]
    ensures { (j : ℕ) → j < 4 → lane j result ≡ parent_value key.now flags 0 (lane (2 * j) v.now) (lane (2 * j + 1) v.now) }
{
    parent_lanes(key, flags, &even_lanes(v), &odd_lanes(v))
}

fn lane_word(x: u32x8, j: usize) -> u32
    requires { j < 8 }
    ensures { result ≡ slice_index x j }
{
    let words = x.to_array();
    words[j]
}

/// The words in lane `j`.
pub(crate) fn lane_value(v: &[u32x8; 8], j: usize) -> [u32; 8]
    requires { j < 8 }
    ensures { result ≡ lane j v.now }
{
    [
        lane_word(v[0], j),
        lane_word(v[1], j),
        lane_word(v[2], j),
        lane_word(v[3], j),
        lane_word(v[4], j),
        lane_word(v[5], j),
        lane_word(v[6], j),
        lane_word(v[7], j),
    ]
}
