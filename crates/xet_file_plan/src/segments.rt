//! Runs of chunks join the segments of a plan.

ghost use Rattle.std.specs.Prelude.{◌≡◌, ◌<◌, ◌^◌, IfOk, OnErr, OnOk, false, map, true};
ghost use Rattle.xet_file_plan.specs.Kept.{joined_bytes};
ghost use Rattle.xet_file_plan.specs.Moves.{continues, filled, goes_on, is_open, with_run};
ghost use Rattle.xet_hash.specs.Hash.{sentinel};

use std::alloc::AllocError;
use xet_hash::MerkleHash;
use xet_shard_format::FileDataSequenceEntry;

/// Whether a segment is open: its chunks are in the open block.
pub(crate) fn is_open(segment: &FileDataSequenceEntry) -> bool
    ensures { result ≡ is_open segment.now }
{
    segment.xorb_hash == MerkleHash::marker()
}

/// Whether a run goes on where a segment ends.
fn goes_on(segment: &FileDataSequenceEntry, run: &FileDataSequenceEntry) -> bool
    ensures { result ≡ goes_on segment.now run.now }
{
    segment.xorb_hash == run.xorb_hash && segment.chunk_index_end == run.chunk_index_start
}

/// Whether a run goes on where the last segment ends.
pub(crate) fn continues(segments: &[FileDataSequenceEntry], run: &FileDataSequenceEntry) -> bool
    ensures { result ≡ continues segments.now run.now }
{
    match segments.last() {
        Some(last) => goes_on(last, run),
        None => false,
    }
}

/// Adds a run: to the last segment if it goes on there, else as a segment. Returns whether it goes on.
pub(crate) fn add_run(
    segments: &mut Vec<FileDataSequenceEntry>,
    run: FileDataSequenceEntry,
) -> Result<bool, AllocError>
    requires bytes { joined_bytes segments.old.items run < 2 ^ 32 }
    ensures added { OnOk result (segments.new.items ≡ with_run segments.old.items run) }
    ensures continued { IfOk result (λ is. is ≡ continues segments.old.items run) }
    ensures kept { OnErr result (segments.new.items ≡ segments.old.items) }
{
    if extend_last(segments, &run) {
        return Ok(true);
    }
    segments.push(run)?;
    Ok(false)
}

/// Adds a run to the last segment if it goes on there, and returns whether it does.
fn extend_last(segments: &mut [FileDataSequenceEntry], run: &FileDataSequenceEntry) -> bool
    requires bytes { joined_bytes segments.old run.now < 2 ^ 32 }
    ensures value { result ≡ continues segments.old run.now }
    ensures longer { result ≡ true → segments.new ≡ with_run segments.old run.now }
    ensures kept { result ≡ false → segments.new ≡ segments.old }
{
    let Some(last) = segments.last_mut() else {
        return false;
    };
    if !goes_on(last, run) {
        return false;
    }
    last.unpacked_segment_bytes += run.unpacked_segment_bytes;
    last.chunk_index_end = run.chunk_index_end;
    true
}

/// Gives the open ones among these segments a xorb hash.
pub(crate) fn fill(segments: &mut [FileDataSequenceEntry], hash: &MerkleHash)
    ensures { segments.new ≡ map (filled hash.now) segments.old }
{
    for segment in segments.iter_mut() {
        if is_open(segment) {
            segment.xorb_hash = *hash;
        }
    }
}
