//! The range hashes of a file.

ghost use Rattle.std.specs.Prelude.{◌≡◌, ◌⊎◌, ◌↔◌, [], IsTrue, map};
ghost use Rattle.xet_hash.specs.Merkle.{range_hash};
ghost use Rattle.xet_dedup.specs.Records.{range_hashes, run_len};

use xet_hash::{MerkleHash, range_hash};
use xet_shard_format::{FileDataSequenceEntry, FileVerificationEntry, MDBFileInfo};

/// Whether the verification rows of a file that resolves to these chunks are right: there are none, or they have its range
/// hashes.
pub(crate) fn has_range_hashes(file: &MDBFileInfo, leaves: &[(MerkleHash, u64)]) -> bool
    ensures { IsTrue result ↔ ((file.now.verification ≡ []) ⊎ (file.now.verification ≡ range_hashes file.now.segments leaves.now)) }
{
    let rows = file.verification.as_slice();
    rows.is_empty() || are_range_hashes(rows, file.segments.as_slice(), leaves)
}

/// Whether these are the range hashes of segments that resolve to these chunks.
fn are_range_hashes(
    rows: &[FileVerificationEntry],
    segments: &[FileDataSequenceEntry],
    leaves: &[(MerkleHash, u64)],
) -> bool
    ensures { IsTrue result ↔ (rows.now ≡ range_hashes segments.now leaves.now) }
{
    if rows.len() != segments.len() {
        return false;
    }
    let mut rest = leaves;
    for i in 0..rows.len() {
        let (run, back) = rest.split_at(run_len(&segments[i]).min(rest.len()));
        if !has_range_hash(&rows[i], run) {
            return false;
        }
        rest = back;
    }
    true
}

/// Whether a verification row has the range hash of these chunks.
fn has_range_hash(row: &FileVerificationEntry, run: &[(MerkleHash, u64)]) -> bool
    ensures { IsTrue result ↔ (row.now.range_hash ≡ range_hash (map (λ m. m.0) run.now)) }
{
    row.range_hash == range_hash(run)
}

/// The number of chunks of a segment.
fn run_len(segment: &FileDataSequenceEntry) -> usize
    ensures { result ≡ run_len segment.now }
{
    segment
        .chunk_index_end
        .saturating_sub(segment.chunk_index_start) as usize
}
