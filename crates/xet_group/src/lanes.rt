//! Histograms of set bits by blocks of 16 bytes. Nine vectors, one for each number of set bits, count byte `l` of
//! each block in lane `l`, so each group has four lanes.

ghost use Rattle.std.specs.Prelude.{◌≡◌, ℕ, ◌+◌, ◌*◌, ◌/◌, ◌%◌, ◌^◌, ◌<◌, ◌≤◌, [], drop, length, count_ones, slice_index, slice_index_or};
ghost use Rattle.xet_group.specs.Histogram.{CountsFit, IsTable, byte_counts, count_of};
ghost use Rattle.xet_group.specs.internal.Lanes.{AreCounts, ArePairs, group_sum};

use std::simd::u8x16;

/// The maximum number of blocks that a lane can count.
const MAX_BLOCKS: usize = 255;

/// The maximum number of blocks that half a lane can count.
const MAX_RUN: usize = 15;

/// What a byte adds to its lane of a vector with two counts, by its number of set bits: 1 to the low half of the
/// lane, 16 to the high half.
const UNITS_0_1: [u8; 16] = [1, 16, 0, 0, 0, 0, 0, 0, 0, 0, 0, 0, 0, 0, 0, 0];

const UNITS_2_3: [u8; 16] = [0, 0, 1, 16, 0, 0, 0, 0, 0, 0, 0, 0, 0, 0, 0, 0];

const UNITS_4_5: [u8; 16] = [0, 0, 0, 0, 1, 16, 0, 0, 0, 0, 0, 0, 0, 0, 0, 0];

const UNITS_6_7: [u8; 16] = [0, 0, 0, 0, 0, 0, 1, 16, 0, 0, 0, 0, 0, 0, 0, 0];

const UNITS_8: [u8; 16] = [0, 0, 0, 0, 0, 0, 0, 0, 1, 0, 0, 0, 0, 0, 0, 0];

/// Counts the whole blocks of these bytes. The first byte has the index `start`.
pub(crate) fn count_blocks(counts: &mut [[u32; 9]; 4], start: usize, b: &[u8])
    requires start { start < 4 }
    requires shape { IsTable counts.old }
    requires fits { CountsFit counts.old start b.now }
    ensures shape { IsTable counts.new }
    ensures counts { (g k : ℕ) → g < 4 → k < 9
        → count_of counts.new g k + byte_counts start (drop (16 * (length b.now / 16)) b.now) g k
        ≡ count_of counts.old g k + byte_counts start b.now g k }
{
    let blocks = b.len() / 16;
    let mut done = 0;
    'parts: while done < blocks {
        let part = (blocks - done).min(MAX_BLOCKS);
        add_counts(counts, start, &counts_of(&b[16 * done..], part));
        done += part;
    }
}

/// Adds the four lanes of each group. Lane 0 belongs to the group `start`.
fn add_counts(counts: &mut [[u32; 9]; 4], start: usize, vectors: &[u8x16; 9])
    requires start { start < 4 }
    requires shape { IsTable counts.old }
    requires fits { (g k : ℕ) → g < 4 → k < 9
        → count_of counts.old ((start + g) % 4) k + group_sum (slice_index_or vectors.now k []) g < 2 ^ 32 }
    ensures shape { IsTable counts.new }
    ensures counts { (g k : ℕ) → g < 4 → k < 9
        → count_of counts.new ((start + g) % 4) k
        ≡ count_of counts.old ((start + g) % 4) k + group_sum (slice_index_or vectors.now k []) g }
{
    add_row(&mut counts[start], vectors, 0);
    add_row(&mut counts[(start + 1) % 4], vectors, 1);
    add_row(&mut counts[(start + 2) % 4], vectors, 2);
    add_row(&mut counts[(start + 3) % 4], vectors, 3);
}

/// Adds the four lanes of a group to its row. The first of them is `lane`.
fn add_row(row: &mut [u32; 9], vectors: &[u8x16; 9], lane: usize)
    requires lane { lane < 4 }
    requires fits { (k : ℕ) → k < 9
        → slice_index row.old k + group_sum (slice_index_or vectors.now k []) lane < 2 ^ 32 }
    ensures len { length row.new ≡ 9 }
    ensures counts { (k : ℕ) → k < 9
        → slice_index row.new k ≡ slice_index row.old k + group_sum (slice_index_or vectors.now k []) lane }
{
    'places: for k in 0..9usize {
        row[k] += group_sum(vectors[k], lane);
    }
}

/// The sum of the four lanes of a group. The first of them is `lane`.
fn group_sum(vector: u8x16, lane: usize) -> u32
    requires { lane < 4 }
    ensures { result ≡ group_sum vector lane }
{
    let lanes = vector.to_array();
    u32::from(lanes[lane])
        + u32::from(lanes[lane + 4])
        + u32::from(lanes[lane + 8])
        + u32::from(lanes[lane + 12])
}

/// The counts of the first blocks.
fn counts_of(b: &[u8], blocks: usize) -> [u8x16; 9]
    requires room { 16 * blocks ≤ length b.now }
    requires few { blocks ≤ 255 }
    ensures { AreCounts result b.now blocks }
{
    let mut vectors = [u8x16::splat(0); 9];
    let mut done = 0;
    'runs: while done < blocks {
        let run = (blocks - done).min(MAX_RUN);
        add_run(&mut vectors, b, done, run);
        done += run;
    }
    vectors
}

/// Counts a run of blocks after the first `done`.
fn add_run(vectors: &mut [u8x16; 9], b: &[u8], done: usize, run: usize)
    requires room { 16 * (done + run) ≤ length b.now }
    requires few { done + run ≤ 255 }
    requires run { run ≤ 15 }
    requires counted { AreCounts vectors.old b.now done }
    ensures { AreCounts vectors.new b.now (done + run) }
{
    let pairs = pairs_of(&b[16 * done..], run);
    let before = *vectors;
    *vectors = [
        added(before[0], low_half(pairs[0])),
        added(before[1], high_half(pairs[0])),
        added(before[2], low_half(pairs[1])),
        added(before[3], high_half(pairs[1])),
        added(before[4], low_half(pairs[2])),
        added(before[5], high_half(pairs[2])),
        added(before[6], low_half(pairs[3])),
        added(before[7], high_half(pairs[3])),
        added(before[8], low_half(pairs[4])),
    ];
}

/// The counts of the first blocks, two in each lane.
fn pairs_of(b: &[u8], blocks: usize) -> [u8x16; 5]
    requires room { 16 * blocks ≤ length b.now }
    requires few { blocks ≤ 15 }
    ensures { ArePairs result b.now blocks }
{
    let mut pairs = [u8x16::splat(0); 5];
    'blocks: for i in 0..blocks {
        add_block(&mut pairs, b, i);
    }
    pairs
}

/// Counts block `i`, two counts in each lane.
#[inline(always)]
fn add_block(pairs: &mut [u8x16; 5], b: &[u8], i: usize)
    requires room { 16 * i + 16 ≤ length b.now }
    requires few { i < 15 }
    requires counted { ArePairs pairs.old b.now i }
    ensures { ArePairs pairs.new b.now (i + 1) }
{
    let ones = set_bits(u8x16::from_slice(&b[16 * i..]));
    let before = *pairs;
    *pairs = [
        added(before[0], looked_up(UNITS_0_1, ones)),
        added(before[1], looked_up(UNITS_2_3, ones)),
        added(before[2], looked_up(UNITS_4_5, ones)),
        added(before[3], looked_up(UNITS_6_7, ones)),
        added(before[4], looked_up(UNITS_8, ones)),
    ];
}

/// The number of set bits of each byte.
#[inline(always)]
fn set_bits(block: u8x16) -> u8x16
    ensures ones { (l : ℕ) → l < 16 → slice_index result l ≡ count_ones (slice_index block l) }
    ensures few { (l : ℕ) → l < 16 → slice_index result l < 9 }
{
    block.count_ones()
}

/// What each byte adds to its lane.
#[inline(always)]
fn looked_up(units: [u8; 16], ones: u8x16) -> u8x16
    requires { (l : ℕ) → l < 16 → slice_index ones l < 9 }
    ensures { (l : ℕ) → l < 16 → slice_index result l ≡ slice_index units (slice_index ones l) }
{
    u8x16::from_array(units).swizzle_dyn(ones)
}

#[inline(always)]
fn added(a: u8x16, b: u8x16) -> u8x16
    ensures { (l : ℕ) → l < 16 → slice_index result l ≡ (slice_index a l + slice_index b l) % 256 }
{
    a + b
}

#[inline(always)]
fn low_half(pair: u8x16) -> u8x16
    ensures { (l : ℕ) → l < 16 → slice_index result l ≡ slice_index pair l % 16 }
{
    pair & u8x16::splat(15)
}

#[inline(always)]
fn high_half(pair: u8x16) -> u8x16
    ensures { (l : ℕ) → l < 16 → slice_index result l ≡ slice_index pair l / 16 }
{
    pair >> u8x16::splat(4)
}
