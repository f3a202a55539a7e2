//! Records of files, as shards store them.

ghost use Rattle.std.specs.Prelude.{◌≡◌, IfOk, IsOkUnless, Some, map};
ghost use Rattle.std.specs.Option.{option_map};
ghost use Rattle.xet_hash.specs.Merkle.{file_hash};
ghost use Rattle.xet_dedup.specs.Records.{file_record, range_hashes, run_len};

use std::alloc::Global;
use xet_base::Items;
use xet_hash::{MerkleHash, StoreError, range_hash};
use xet_shard_format::{
    FileDataSequenceEntry, FileDataSequenceHeader, FileMetadataExt, FileVerificationEntry,
    MDBFileInfo, Sha256,
};

/// The record of a file with this chunk list, reconstruction plan and SHA-256. `hash` must be the file hash
/// of the chunk list. The only error is `OutOfMemory`, also if the plan has 2^32 or more segments.
pub fn file_record(
    alloc: Global,
    hash: MerkleHash,
    leaves: &[(MerkleHash, u64)],
    plan: Vec<FileDataSequenceEntry>,
    sha256: Sha256,
) -> Result<MDBFileInfo, StoreError>
    requires { hash ≡ file_hash leaves.now }
    ensures exact { IfOk result (λ file. file ≡ file_record leaves.now plan.items (Some sha256)) }
    ensures memory { IsOkUnless result StoreError.OutOfMemory }
{
    record_of(
        alloc,
        hash,
        leaves,
        plan,
        Some(FileMetadataExt::new(sha256)),
    )
}

/// The record of a file with this chunk list, reconstruction plan and metadata, if any. `hash` must be the file hash
/// of the chunk list. The only error is `OutOfMemory`, also if the plan has 2^32 or more segments.
pub(crate) fn record_of(
    alloc: Global,
    hash: MerkleHash,
    leaves: &[(MerkleHash, u64)],
    plan: Vec<FileDataSequenceEntry>,
    metadata_ext: Option<FileMetadataExt>,
) -> Result<MDBFileInfo, StoreError>
    requires { hash ≡ file_hash leaves.now }
    ensures exact { IfOk result (λ file. file ≡ file_record leaves.now plan.items (option_map (λ m. m.sha256) metadata_ext)) }
    ensures memory { IsOkUnless result StoreError.OutOfMemory }
{
    if plan.len() > u32::MAX as usize {
        return Err(StoreError::OutOfMemory);
    }
    let verification = range_hashes(alloc, &plan, leaves)?;
    Ok(MDBFileInfo {
        metadata: FileDataSequenceHeader::new(
            hash,
            plan.len() as u32,
            true,
            metadata_ext.is_some(),
        ),
        segments: Items::from_vec(plan),
        verification: Items::from_vec(verification),
        metadata_ext,
    })
}

/// The range hash of each segment: the digest of its chunks' hashes.
fn range_hashes(
    alloc: Global,
    plan: &[FileDataSequenceEntry],
    leaves: &[(MerkleHash, u64)],
) -> Result<Vec<FileVerificationEntry>, StoreError>
    ensures ranges { IfOk result (λ ranges. ranges.items ≡ range_hashes plan.now leaves.now) }
    ensures memory { IsOkUnless result StoreError.OutOfMemory }
{
    let mut ranges = Vec::with_capacity(alloc, plan.len())?;
    let mut rest = leaves;
    for segment in plan {
        let run = run_len(segment).min(rest.len());
        let (prefix, back) = rest.split_at(run);
        ranges.push(FileVerificationEntry::new(range_hash(prefix)))?;
        rest = back;
    }
    Ok(ranges)
}

/// The number of chunks of a segment.
fn run_len(segment: &FileDataSequenceEntry) -> usize
    ensures { result ≡ run_len segment.now }
{
    segment
        .chunk_index_end
        .saturating_sub(segment.chunk_index_start) as usize
}

/// The hashes of a chunk list.
pub(crate) fn hashes_of(
    alloc: Global,
    leaves: &[(MerkleHash, u64)],
) -> Result<Vec<MerkleHash>, StoreError>
    ensures hashes { IfOk result (λ hashes. hashes.items ≡ map (λ m. m.0) leaves.now) }
    ensures memory { IsOkUnless result StoreError.OutOfMemory }
{
    let mut hashes = Vec::with_capacity(alloc, leaves.len())?;
    for (hash, _) in leaves {
        hashes.push(*hash)?;
    }
    Ok(hashes)
}
