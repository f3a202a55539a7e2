//! Splitting bytes into four groups.

ghost use Rattle.std.specs.Prelude.{◌≡◌, ◌+◌, ◌-◌, ◌*◌, ◌/◌, ◌^◌, ◌<◌, ◌≤◌, ◌++◌, IfOk, OnOk, length, map, take};
ghost use Rattle.std.specs.Simd.Lanes.{chunk, put_chunk};
ghost use Rattle.xet_group.specs.Groups.{every_fourth, grouped, groups_of};

use std::alloc::{AllocError, Global};
use std::simd::u8x16;

/// The four groups of these bytes: byte i belongs to group i modulo 4, in order. Allocates each group once,
/// at its exact length. The only error is out of memory.
pub fn bg4_split_separate(alloc: Global, b: &[u8]) -> Result<[Vec<u8>; 4], AllocError>
    ensures { IfOk result (λ parts. map (λ v. v.items) parts ≡ groups_of b.now) }
{
    Ok([
        group(alloc, b, 0)?,
        group(alloc, b, 1)?,
        group(alloc, b, 2)?,
        group(alloc, b, 3)?,
    ])
}

/// The four groups of these bytes, concatenated, group 0 first. Allocates once, the exact length. The only
/// error is out of memory.
pub fn bg4_split_together(alloc: Global, b: &[u8]) -> Result<Vec<u8>, AllocError>
    ensures { IfOk result (λ joined. joined.items ≡ grouped b.now) }
{
    let mut joined = Vec::from_elem(alloc, 0u8, b.len())?;
    split_into(&mut joined, b);
    Ok(joined)
}

/// Same contract as `bg4_split_together`, which it calls.
pub fn bg4_split(alloc: Global, b: &[u8]) -> Result<Vec<u8>, AllocError>
    ensures { IfOk result (λ joined. joined.items ≡ grouped b.now) }
{
    bg4_split_together(alloc, b)
}

/// How many of `count` bytes are in a group.
pub(crate) fn group_len(count: usize, group: usize) -> usize
    requires count { count < 2 ^ 63 }
    requires group { group < 4 }
    ensures { result ≡ (count + 3 - group) / 4 }
{
    (count + 3 - group) / 4
}

/// The group with this number.
fn group(alloc: Global, bytes: &[u8], number: usize) -> Result<Vec<u8>, AllocError>
    requires { number < 4 }
    ensures { IfOk result (λ group. group.items ≡ every_fourth number bytes.now) }
{
    let mut group = Vec::with_capacity(alloc, group_len(bytes.len(), number))?;
    push_group(&mut group, bytes, number)?;
    Ok(group)
}

/// Appends the group with this number.
fn push_group(out: &mut Vec<u8>, bytes: &[u8], number: usize) -> Result<(), AllocError>
    ensures { OnOk result (out.new.items ≡ out.old.items ++ every_fourth number bytes.now) }
{
    let mut place = number;
    'places: while place < bytes.len() {
        out.push(bytes[place])?;
        place += 4;
    }
    Ok(())
}

/// Writes the four groups, group 0 first: 16 bytes at a time, and then byte by byte.
fn split_into(out: &mut [u8], b: &[u8])
    requires { length out.old ≡ length b.now }
    ensures { out.new ≡ grouped b.now }
{
    let count = b.len();
    let (first, rest) = out.split_at_mut(group_len(count, 0));
    let (second, rest) = rest.split_at_mut(group_len(count, 1));
    let (third, fourth) = rest.split_at_mut(group_len(count, 2));
    'blocks: for i in 0..count / 16 {
        split_block(b, i, first, second, third, fourth);
    }
    let done = 4 * (count / 16);
    fill_group(first, b, 0, done);
    fill_group(second, b, 1, done);
    fill_group(third, b, 2, done);
    fill_group(fourth, b, 3, done);
}

/// Writes the four bytes of each group that are in block `i`.
#[inline(always)]
fn split_block(
    b: &[u8],
    i: usize,
    first: &mut [u8],
    second: &mut [u8],
    third: &mut [u8],
    fourth: &mut [u8],
)
    requires b { 16 * i + 16 ≤ length b.now }
    requires first { 4 * i + 4 ≤ length first.old }
    requires second { 4 * i + 4 ≤ length second.old }
    requires third { 4 * i + 4 ≤ length third.old }
    requires fourth { 4 * i + 4 ≤ length fourth.old }
    ensures first { first.new ≡ put_chunk (4 * i) first.old (chunk (4 * i) 4 (every_fourth 0 b.now)) }
    ensures second { second.new ≡ put_chunk (4 * i) second.old (chunk (4 * i) 4 (every_fourth 1 b.now)) }
    ensures third { third.new ≡ put_chunk (4 * i) third.old (chunk (4 * i) 4 (every_fourth 2 b.now)) }
    ensures fourth { fourth.new ≡ put_chunk (4 * i) fourth.old (chunk (4 * i) 4 (every_fourth 3 b.now)) }
{
    let block = u8x16::from_slice(&b[16 * i..]);
    let groups = block.swizzle([0, 4, 8, 12, 1, 5, 9, 13, 2, 6, 10, 14, 3, 7, 11, 15]);
    groups.extract::<0, 4>().copy_to_slice(&mut first[4 * i..]);
    groups.extract::<4, 4>().copy_to_slice(&mut second[4 * i..]);
    groups.extract::<8, 4>().copy_to_slice(&mut third[4 * i..]);
    groups
        .extract::<12, 4>()
        .copy_to_slice(&mut fourth[4 * i..]);
}

/// Writes the bytes of the group with this number, of which the first `done` are written.
fn fill_group(group: &mut [u8], bytes: &[u8], number: usize, done: usize)
    requires number { number < 4 }
    requires len { length group.old ≡ (length bytes.now + 3 - number) / 4 }
    requires done { done ≤ length group.old }
    requires written { take done group.old ≡ take done (every_fourth number bytes.now) }
    ensures { group.new ≡ every_fourth number bytes.now }
{
    'places: for i in done..group.len() {
        group[i] = bytes[4 * i + number];
    }
}
