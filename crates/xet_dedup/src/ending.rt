//! The end of a file: its hash, its record, and the chunks that are in no xorb yet.

ghost use Rattle.std.specs.Prelude.{◌≡◌, ◌<◌, ◌^◌, IfOk, IsOkUnless};
ghost use Rattle.std.specs.Option.{option_map};
ghost use Rattle.xet_aggregate.specs.Aggregate.{single};
ghost use Rattle.xet_dedup.specs.Deduping.{open_indices};
ghost use Rattle.xet_dedup.specs.Records.{file_record};
ghost use Rattle.xet_file_plan.specs.Moves.{is_open};
ghost use Rattle.xet_hash.specs.Merkle.{file_hash, total_len};
ghost use Rattle.xet_xorb_chunk.specs.Chunks.{total};

use crate::records::record_of;
use std::alloc::Global;
use xet_aggregate::DataAggregator;
use xet_base::Items;
use xet_choices::Choice;
use xet_file_plan::PlanParts;
use xet_hash::{MerkleHash, StoreError, file_hash};
use xet_shard_format::{FileDataSequenceEntry, FileMetadataExt};

/// The file hash, the record with the chunks of the open block, and the choices, of the parts of a plan.
pub(crate) fn finished(
    alloc: Global,
    parts: PlanParts,
    metadata_ext: Option<FileMetadataExt>,
    file_id: u64,
) -> Result<(MerkleHash, DataAggregator, Items<Choice>), StoreError>
    requires bytes { total_len parts.leaves.items < 2 ^ 64 }
    requires block { total parts.block.items < 2 ^ 63 }
    ensures hash { IfOk result (λ x. x.0 ≡ file_hash parts.leaves.items) }
    ensures rest { IfOk result (λ x. x.1 ≡ single parts.block.items (file_record parts.leaves.items parts.segments.items (option_map (λ m. m.sha256) metadata_ext)) (open_indices parts.segments.items) file_id) }
    ensures choices { IfOk result (λ x. x.2 ≡ parts.choices.items) }
    ensures memory { IsOkUnless result StoreError.OutOfMemory }
{
    let PlanParts {
        leaves,
        segments,
        block,
        choices,
    } = parts;
    let hash = file_hash(alloc, &leaves)?;
    let indices = open_indices(alloc, &segments)?;
    let record = record_of(alloc, hash, &leaves, segments, metadata_ext)?;
    let rest = DataAggregator::new(alloc, block, record, indices, file_id)?;
    Ok((hash, rest, Items::from_vec(choices)))
}

/// The indices of the open segments.
fn open_indices(alloc: Global, segments: &[FileDataSequenceEntry]) -> Result<Vec<usize>, StoreError>
    ensures exact { IfOk result (λ indices. indices.items ≡ open_indices segments.now) }
    ensures memory { IsOkUnless result StoreError.OutOfMemory }
{
    let mut indices = Vec::new(alloc);
    for at in 0..segments.len() {
        if is_open(&segments[at]) {
            indices.push(at)?;
        }
    }
    Ok(indices)
}

/// Whether a segment is open: its chunks are in no xorb yet.
fn is_open(segment: &FileDataSequenceEntry) -> bool
    ensures { result ≡ is_open segment.now }
{
    segment.xorb_hash == MerkleHash::marker()
}
