//! The first boundary of a chunk, by the Gear hash.

ghost use Rattle.std.specs.Prelude.{◌≡◌, ◌+◌, ◌-◌, ◌<◌, ◌≤◌, ◌++◌, Some, None, IfSome, drop, length, option_map, take};
ghost use Rattle.xet_cut.specs.internal.Boundary.{first_match, rolled};
ghost use Rattle.xet_cut.specs.Chunking.{gear_hash, mask};
ghost use Rattle.xet_cut.specs.Streams.{boundary_in};
ghost use Rattle.xet_cut.specs.Limits.{with_minimum};

use crate::limits::Limits;

/// The number of bytes before one that its Gear hash depends on.
const WINDOW: usize = 63;

/// The Gear hash after these bytes, from the hash before them.
fn roll(gear: &[u64; 256], start: u64, bytes: &[u8]) -> u64
    ensures { result ≡ rolled gear.now start bytes.now }
{
    let mut hash = start;
    for byte in bytes {
        hash = (hash << 1).wrapping_add(gear[*byte as usize]);
    }
    hash
}

/// The smallest number of these bytes, from 1 on, after which the Gear hash has no bit in common with the mask, or 0 if
/// there is none. Hashes four bytes a turn.
// Inlined into a caller, or with an `Option` as its result, it was measured to be slower.
#[inline(never)]
fn scan(gear: &[u64; 256], mask: u64, start: u64, bytes: &[u8]) -> usize
    ensures found { 0 < result → first_match gear.now mask start bytes.now ≡ Some result }
    ensures none { result ≡ 0 → first_match gear.now mask start bytes.now ≡ None }
    ensures bound { result ≤ length bytes.now }
{
    let end = bytes.len();
    let mut i = 0;
    let mut hash = start;
    while i + 4 <= end {
        let a = gear[bytes[i] as usize];
        let b = gear[bytes[i + 1] as usize];
        let c = gear[bytes[i + 2] as usize];
        let d = gear[bytes[i + 3] as usize];
        let first = (hash << 1).wrapping_add(a);
        let second = (hash << 2).wrapping_add((a << 1).wrapping_add(b));
        let third = (second << 1).wrapping_add(c);
        let fourth = (second << 2).wrapping_add((c << 1).wrapping_add(d));
        if first & mask == 0 {
            return i + 1;
        }
        if second & mask == 0 {
            return i + 2;
        }
        if third & mask == 0 {
            return i + 3;
        }
        if fourth & mask == 0 {
            return i + 4;
        }
        hash = fourth;
        i += 4;
    }
    for j in i..end {
        hash = (hash << 1).wrapping_add(gear[bytes[j] as usize]);
        if hash & mask == 0 {
            return j + 1;
        }
    }
    0
}

/// The Gear hash of the bytes before the one at `at` in `bytes`, as far as the next hash depends on them: some of
/// `before` if there are too few in `bytes`.
fn hash_before(gear: &[u64; 256], before: &[u8], bytes: &[u8], at: usize) -> u64
    requires { at ≤ length bytes.now }
    ensures { result ≡ gear_hash gear.now (drop (length before.now + at - 63) (before.now ++ take at bytes.now)) }
{
    let from = before.len().saturating_sub(WINDOW.saturating_sub(at));
    let hash = roll(gear, 0, &before[from..]);
    roll(gear, hash, &bytes[at.saturating_sub(WINDOW)..at])
}

/// The mask for a power of two `target`: `target - 1` shifted left until its top bit is bit 63.
fn mask(target: u32) -> u64
    requires { 2 ≤ target }
    ensures { result ≡ mask target }
{
    let shift = (1u128 << 64) / u128::from(target);
    u64::from(target - 1) * (shift as u64)
}

/// The first boundary in `before` and then `bytes`, as the number of bytes of `bytes` before it. There must be none in
/// `before`.
pub(crate) fn boundary(limits: &Limits, before: &[u8], bytes: &[u8]) -> Option<usize>
    requires { boundary_in limits.now before.now ≡ None }
    ensures value { boundary_in limits.now (before.now ++ bytes.now) ≡ option_map (λ n. length before.now + n) result }
    ensures within { IfSome result (λ n. (1 ≤ n) × (n ≤ length bytes.now)) }
{
    boundary_from(limits, limits.minimum_chunk() as usize, before, bytes)
}

/// The same with another minimum chunk. Of `before` at most 63 bytes are looked at, and in `bytes` none that are more
/// than 63 before the first one that may end a chunk.
pub(crate) fn boundary_from(
    limits: &Limits,
    minimum: usize,
    before: &[u8],
    bytes: &[u8],
) -> Option<usize>
    requires some { 1 ≤ minimum }
    requires below { minimum < limits.now.maximum_chunk }
    requires none { boundary_in (with_minimum limits.now minimum) before.now ≡ None }
    ensures value { boundary_in (with_minimum limits.now minimum) (before.now ++ bytes.now) ≡ option_map (λ n. length before.now + n) result }
    ensures within { IfSome result (λ n. (1 ≤ n) × (n ≤ length bytes.now)) }
{
    let room = limits.maximum_chunk() as usize - before.len();
    let end = bytes.len().min(room);
    let start = (minimum - 1).saturating_sub(before.len());
    if start < end {
        let gear = limits.gear();
        let hash = hash_before(gear, before, bytes, start);
        let n = scan(gear, mask(limits.target_chunk()), hash, &bytes[start..end]);
        if n > 0 {
            return Some(start + n);
        }
    }
    if end == room { Some(room) } else { None }
}
