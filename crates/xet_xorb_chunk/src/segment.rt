//! Chunks that were read in several parts.

ghost use Rattle.std.specs.Prelude.{◌≡◌, ◌<◌, ◌≤◌, ◌+◌, ◌^◌, ◌++◌, IsOk, IsOkUnless, OnErr, OnOk, length, map, vec_capacity, vec_len};
ghost use Rattle.std.specs.List.{All};
ghost use Rattle.xet_xorb_chunk.specs.Segment.{SumsFit, joined_places};

use std::alloc::AllocError;
use xet_hash::StoreError;

/// Appends one part of a read to the parts before it. `all` and `segment` are uncompressed bytes. `indices`
/// and `segment_indices` are the offsets of their chunks, followed by the total length.
///
/// If `indices` is empty, the part's offsets are appended as they are. Otherwise all but the first are, each
/// plus the old length of `all`; these sums must be below 2^32. The only error is `OutOfMemory`; both lists
/// are unchanged then.
pub fn append_chunk_segment(
    all: &mut Vec<u8>,
    indices: &mut Vec<u32>,
    segment: &[u8],
    segment_indices: &[u32],
) -> Result<(), StoreError>
    requires { SumsFit indices.old.items (length all.old.items) segment_indices.now }
    ensures bytes { OnOk result (all.new.items ≡ all.old.items ++ segment.now) }
    ensures indices { OnOk result (indices.new.items ≡ indices.old.items ++ joined_places indices.old.items (length all.old.items) segment_indices.now) }
    ensures unchanged { OnErr result ((all.new.items ≡ all.old.items) × (indices.new.items ≡ indices.old.items)) }
    ensures memory { IsOkUnless result StoreError.OutOfMemory }
{
    all.reserve(segment.len())?;
    indices.reserve(segment_indices.len())?;
    let before = all.len();
    join_places(indices, segment_indices, before)?;
    all.extend_from_slice(segment)?;
    Ok(())
}

/// Appends the offsets of a part that follows `before` bytes. The capacity must suffice.
fn join_places(indices: &mut Vec<u32>, places: &[u32], before: usize) -> Result<(), AllocError>
    requires fits { SumsFit indices.old.items before places.now }
    requires room { vec_len indices.old + length places.now ≤ vec_capacity indices.old }
    ensures ok { IsOk result }
    ensures items { OnOk result (indices.new.items ≡ indices.old.items ++ joined_places indices.old.items before places.now) }
{
    if indices.is_empty() {
        return indices.extend_from_slice(places);
    }
    let Some((_, rest)) = places.split_first() else {
        return Ok(());
    };
    push_places(indices, rest, before)
}

/// Appends `before` plus each of these offsets. The capacity must suffice.
fn push_places(indices: &mut Vec<u32>, places: &[u32], before: usize) -> Result<(), AllocError>
    requires fits { All (λ place. before + place < 2 ^ 32) places.now }
    requires room { vec_len indices.old + length places.now ≤ vec_capacity indices.old }
    ensures ok { IsOk result }
    ensures items { OnOk result (indices.new.items ≡ indices.old.items ++ map (λ place. before + place) places.now) }
{
    for place in places {
        indices.push((before + *place as usize) as u32)?;
    }
    Ok(())
}
