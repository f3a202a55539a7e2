//! The open segments of records: those whose chunks have no xorb yet.

ghost use Rattle.std.specs.Prelude.{◌≡◌, ◌+◌, ◌<◌, ◌^◌, IfSome, filter, map, true};
ghost use Rattle.std.specs.List.{AllByRecursion};
ghost use Rattle.xet_shard_format.specs.Records.{segment_bytes};
ghost use Rattle.xet_aggregate.specs.Aggregate.{filled, filled_segment, is_open, shifted, shifted_segment};
ghost use Rattle.xet_aggregate.specs.internal.Shifting.{CanShift};

use std::alloc::Global;
use std::mem;
use xet_base::Items;
use xet_hash::MerkleHash;
use xet_shard_format::{FileDataSequenceEntry, MDBFileInfo};

/// Whether the xorb hash of the segment is the sentinel.
fn is_open(segment: &FileDataSequenceEntry) -> bool
    ensures { result ≡ is_open segment.now }
{
    segment.xorb_hash == MerkleHash::marker()
}

/// Number of bytes of the open segments, if it is below 2^64.
pub(crate) fn open_bytes(segments: &[FileDataSequenceEntry]) -> Option<u64>
    ensures { IfSome result (λ bytes. bytes ≡ segment_bytes (filter is_open segments.now)) }
{
    let mut bytes: u64 = 0;
    for segment in segments {
        if is_open(segment) {
            bytes = bytes.checked_add(u64::from(segment.unpacked_segment_bytes))?;
        }
    }
    Some(bytes)
}

/// Moves the open segments of the record `count` chunks up.
pub(crate) fn shift_record(alloc: Global, file: &mut MDBFileInfo, count: u32)
    requires { AllByRecursion (CanShift count) file.old.segments }
    ensures { file.new ≡ shifted count file.old }
{
    let mut segments = mem::replace(&mut file.segments, Items::new(alloc)).into_vec();
    shift_segments(&mut segments, count);
    file.segments = Items::from_vec(segments);
}

/// Moves the open segments `count` chunks up.
fn shift_segments(segments: &mut [FileDataSequenceEntry], count: u32)
    requires { AllByRecursion (CanShift count) segments.old }
    ensures { segments.new ≡ map (shifted_segment count) segments.old }
{
    for segment in segments.iter_mut() {
        shift_segment(segment, count);
    }
}

/// Moves the segment `count` chunks up if it is open.
#[tactic(auto, unfolding(crate::specs::Aggregate::shifted_segment))]
fn shift_segment(segment: &mut FileDataSequenceEntry, count: u32)
    requires { CanShift count segment.old }
    ensures { segment.new ≡ shifted_segment count segment.old }
{
    if is_open(segment) {
        segment.chunk_index_start += count;
        segment.chunk_index_end += count;
    }
}

/// The record with the hash in its open segments.
pub(crate) fn filled_record(file: MDBFileInfo, hash: MerkleHash) -> MDBFileInfo
    ensures { result ≡ filled hash file }
{
    let MDBFileInfo {
        metadata,
        segments,
        verification,
        metadata_ext,
    } = file;
    let mut segments = segments.into_vec();
    fill_segments(&mut segments, hash);
    MDBFileInfo {
        metadata,
        segments: Items::from_vec(segments),
        verification,
        metadata_ext,
    }
}

/// Gives the open segments this hash.
fn fill_segments(segments: &mut [FileDataSequenceEntry], hash: MerkleHash)
    ensures { segments.new ≡ map (filled_segment hash) segments.old }
{
    for segment in segments.iter_mut() {
        fill_segment(segment, hash);
    }
}

/// Gives the segment this hash if it is open.
#[tactic(auto, unfolding(crate::specs::Aggregate::filled_segment))]
fn fill_segment(segment: &mut FileDataSequenceEntry, hash: MerkleHash)
    ensures { segment.new ≡ filled_segment hash segment.old }
{
    if is_open(segment) {
        segment.xorb_hash = hash;
    }
}
