//! Regrouping: bytes from their four groups.

ghost use Rattle.std.specs.Prelude.{◌≡◌, ℕ, ◌+◌, ◌*◌, ◌/◌, ◌^◌, ◌<◌, ◌≤◌, ◌↔◌, List, ◌∷◌, [], ◌++◌, IfOk, OnOk, IsTrue, length, map, take};
ghost use Rattle.std.specs.Simd.Lanes.{chunk};
ghost use Rattle.xet_group.specs.Groups.{AreGroups, grouped, groups_of};

use crate::split::group_len;
use std::alloc::{AllocError, Global};
use std::simd::{u8x4, u8x16};

/// Whether these are the groups of some bytes: four lists, none longer than the one before it, and the first
/// at most one byte longer than the last.
pub fn groups_fit(groups: &[Vec<u8>]) -> bool
    ensures { IsTrue result ↔ AreGroups (map (λ v. v.items) groups.now) }
{
    match groups {
        [first, second, third, fourth] => {
            are_near(first.len(), second.len(), third.len(), fourth.len())
        }
        _ => false,
    }
}

/// The bytes whose groups these are. The groups must fit (`groups_fit`). Allocates once, the exact length.
/// The only error is out of memory.
pub fn bg4_regroup_separate(alloc: Global, groups: &[Vec<u8>]) -> Result<Vec<u8>, AllocError>
    requires { AreGroups (map (λ v. v.items) groups.now) }
    ensures { IfOk result (λ bytes. groups_of bytes.items ≡ map (λ v. v.items) groups.now) }
{
    let [first, second, third, fourth] = groups else {
        unreachable!()
    };
    interleaved(alloc, first, second, third, fourth)
}

/// The bytes whose concatenated groups these are. Allocates once, the exact length. The only error is out of
/// memory.
pub fn bg4_regroup_together(alloc: Global, b: &[u8]) -> Result<Vec<u8>, AllocError>
    ensures { IfOk result (λ bytes. grouped bytes.items ≡ b.now) }
{
    let (first, rest) = b.split_at(group_len(b.len(), 0));
    let (second, rest) = rest.split_at(group_len(b.len(), 1));
    let (third, fourth) = rest.split_at(group_len(b.len(), 2));
    interleaved_by_blocks(alloc, first, second, third, fourth)
}

/// Same contract as `bg4_regroup_together`, which it calls: 16 bytes are written at a time.
pub fn bg4_regroup_together_combined_write_4(alloc: Global, b: &[u8]) -> Result<Vec<u8>, AllocError>
    ensures { IfOk result (λ bytes. grouped bytes.items ≡ b.now) }
{
    bg4_regroup_together(alloc, b)
}

/// Same contract as `bg4_regroup_together`, which it calls: 16 bytes are written at a time.
pub fn bg4_regroup_together_combined_write_8(alloc: Global, b: &[u8]) -> Result<Vec<u8>, AllocError>
    ensures { IfOk result (λ bytes. grouped bytes.items ≡ b.now) }
{
    bg4_regroup_together(alloc, b)
}

/// Same contract as `bg4_regroup_together`, which it calls.
pub fn bg4_regroup(alloc: Global, b: &[u8]) -> Result<Vec<u8>, AllocError>
    ensures { IfOk result (λ bytes. grouped bytes.items ≡ b.now) }
{
    bg4_regroup_together(alloc, b)
}

/// Whether no length is greater than the one before it, and the first is at most one greater than the last.
fn are_near(first: usize, second: usize, third: usize, fourth: usize) -> bool
    ensures { IsTrue result
        ↔ ((fourth ≤ third) × (third ≤ second) × (second ≤ first) × (first ≤ fourth + 1)) }
{
    fourth <= third && third <= second && second <= first && first - fourth <= 1
}

/// The bytes whose groups these four are.
fn interleaved(
    alloc: Global,
    first: &[u8],
    second: &[u8],
    third: &[u8],
    fourth: &[u8],
) -> Result<Vec<u8>, AllocError>
    requires third { length fourth.now ≤ length third.now }
    requires second { length third.now ≤ length second.now }
    requires first { length second.now ≤ length first.now }
    requires near { length first.now ≤ length fourth.now + 1 }
    ensures { IfOk result
        (λ bytes. groups_of bytes.items ≡ first.now ∷ second.now ∷ third.now ∷ fourth.now ∷ []) }
{
    let mut bytes = Vec::with_capacity(alloc, total_len(first, second, third, fourth))?;
    push_interleaved(&mut bytes, first, second, third, fourth)?;
    Ok(bytes)
}

/// The same, 16 bytes at a time, and then byte by byte.
fn interleaved_by_blocks(
    alloc: Global,
    first: &[u8],
    second: &[u8],
    third: &[u8],
    fourth: &[u8],
) -> Result<Vec<u8>, AllocError>
    requires third { length fourth.now ≤ length third.now }
    requires second { length third.now ≤ length second.now }
    requires first { length second.now ≤ length first.now }
    requires near { length first.now ≤ length fourth.now + 1 }
    requires total { 4 * length fourth.now < 2 ^ 64 }
    ensures { IfOk result
        (λ bytes. groups_of bytes.items ≡ first.now ∷ second.now ∷ third.now ∷ fourth.now ∷ []) }
{
    let done = fourth.len() / 4 * 4;
    let mut bytes = Vec::with_capacity(alloc, total_len(first, second, third, fourth))?;
    bytes.resize(4 * done, 0)?;
    interleave_blocks(&mut bytes, first, second, third, fourth);
    push_interleaved(
        &mut bytes,
        &first[done..],
        &second[done..],
        &third[done..],
        &fourth[done..],
    )?;
    Ok(bytes)
}

fn total_len(first: &[u8], second: &[u8], third: &[u8], fourth: &[u8]) -> usize {
    first
        .len()
        .saturating_add(second.len())
        .saturating_add(third.len())
        .saturating_add(fourth.len())
}

/// Appends the bytes whose groups these four are.
fn push_interleaved(
    out: &mut Vec<u8>,
    first: &[u8],
    second: &[u8],
    third: &[u8],
    fourth: &[u8],
) -> Result<(), AllocError>
    requires third { length fourth.now ≤ length third.now }
    requires second { length third.now ≤ length second.now }
    requires first { length second.now ≤ length first.now }
    requires near { length first.now ≤ length fourth.now + 1 }
    ensures { OnOk result ((bytes : List ℕ)
        × (groups_of bytes ≡ first.now ∷ second.now ∷ third.now ∷ fourth.now ∷ [])
        × (out.new.items ≡ out.old.items ++ bytes)) }
{
    for (i, last) in fourth.iter().enumerate() {
        out.extend_from_slice(&[first[i], second[i], third[i], *last])?;
    }
    // Each group but the last has at most one byte left.
    out.extend_from_slice(&first[fourth.len()..])?;
    out.extend_from_slice(&second[fourth.len()..])?;
    out.extend_from_slice(&third[fourth.len()..])?;
    Ok(())
}

/// Fills whole blocks from the first bytes of their groups.
fn interleave_blocks(out: &mut [u8], first: &[u8], second: &[u8], third: &[u8], fourth: &[u8])
    requires third { length fourth.now ≤ length third.now }
    requires second { length third.now ≤ length second.now }
    requires first { length second.now ≤ length first.now }
    requires out { length out.old ≡ 4 * (length fourth.now / 4 * 4) }
    ensures len { length out.new ≡ length out.old }
    ensures groups { (done : ℕ) → done ≡ length fourth.now / 4 * 4
        → groups_of out.new ≡ take done first.now ∷ take done second.now ∷ take done third.now ∷ take done fourth.now ∷ [] }
{
    'blocks: for i in 0..fourth.len() / 4 {
        interleaved_block(first, second, third, fourth, i).copy_to_slice(&mut out[16 * i..]);
    }
}

/// Block `i`, from four bytes of each group.
#[inline(always)]
fn interleaved_block(first: &[u8], second: &[u8], third: &[u8], fourth: &[u8], i: usize) -> u8x16
    requires first { 4 * i + 4 ≤ length first.now }
    requires second { 4 * i + 4 ≤ length second.now }
    requires third { 4 * i + 4 ≤ length third.now }
    requires fourth { 4 * i + 4 ≤ length fourth.now }
    ensures len { length result ≡ 16 }
    ensures groups { groups_of result
        ≡ chunk (4 * i) 4 first.now ∷ chunk (4 * i) 4 second.now ∷ chunk (4 * i) 4 third.now ∷ chunk (4 * i) 4 fourth.now ∷ [] }
{
    let a = u8x4::from_slice(&first[4 * i..]);
    let b = u8x4::from_slice(&second[4 * i..]);
    let c = u8x4::from_slice(&third[4 * i..]);
    let d = u8x4::from_slice(&fourth[4 * i..]);
    let ab = a.shuffle(b, [0, 4, 1, 5, 2, 6, 3, 7]);
    let cd = c.shuffle(d, [0, 4, 1, 5, 2, 6, 3, 7]);
    ab.shuffle(cd, [0, 1, 8, 9, 2, 3, 10, 11, 4, 5, 12, 13, 6, 7, 14, 15])
}
