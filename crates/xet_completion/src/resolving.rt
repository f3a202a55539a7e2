//! The chunks to which a plan resolves.

ghost use Rattle.std.specs.Prelude.{◌≡◌, ◌<◌, ◌^◌, ℕ, List, IfOk, IfSome, IsOkUnless, MatchOption};
ghost use Rattle.xet_hash.specs.Merkle.{total_len};
ghost use Rattle.xet_shard_format.specs.Records.{IsFile};
ghost use Rattle.xet_folder.specs.Plan.{Resolves};
ghost use Rattle.xet_folder.specs.Xorbs.{IsListed};
ghost use Rattle.xet_completion.specs.internal.Resolving.{NamesRun};

use indexmap::IndexMap;
use std::alloc::Global;
use xet_folder::{Leaves, lies_in};
use xet_hash::{MerkleHash, StoreError};
use xet_shard_format::{FileDataSequenceEntry, MDBFileInfo};

/// The chunks to which the plan of a file resolves over these xorbs; none if it does not resolve.
pub(crate) fn resolved(
    alloc: Global,
    xorbs: &IndexMap<MerkleHash, Leaves>,
    file: &MDBFileInfo,
) -> Result<Option<Vec<(MerkleHash, u64)>>, StoreError>
    requires { IsFile file.now }
    ensures resolves { IfOk result (λ leaves. MatchOption leaves ((out : List (List ℕ × ℕ)) → Resolves (IsListed xorbs.now.entries) (λ m. m.1) file.now.segments out → ⊥) (λ leaves. Resolves (IsListed xorbs.now.entries) (λ m. m.1) file.now.segments leaves.items)) }
    ensures total { IfOk result (λ leaves. IfSome leaves (λ leaves. total_len leaves.items < 2 ^ 64)) }
    ensures memory { IsOkUnless result StoreError.OutOfMemory }
{
    // Proof aid without effect: makes available that the number of segments fits 32 bits, and below, that of bytes.
    let _count = file.metadata.num_entries;
    let segments = file.segments.as_slice();
    let mut leaves = Vec::new(alloc);
    for segment in segments {
        let _bytes = segment.unpacked_segment_bytes;
        match run_in(xorbs, segment) {
            Some(run) => leaves.extend_from_slice(run)?,
            None => return Ok(None),
        }
    }
    Ok(Some(leaves))
}

/// The run of chunks that a segment names; none if it does not lie in a listed xorb.
fn run_in<'a>(
    xorbs: &'a IndexMap<MerkleHash, Leaves>,
    segment: &FileDataSequenceEntry,
) -> Option<&'a [(MerkleHash, u64)]>
    ensures { MatchOption result ((run : List (List ℕ × ℕ)) → NamesRun xorbs.now.entries segment.now run → ⊥) (λ run. NamesRun xorbs.now.entries segment.now run.now) }
{
    let leaves = xorbs.get(&segment.xorb_hash)?;
    if !lies_in(segment, leaves) {
        return None;
    }
    let chunks = leaves.as_slice();
    Some(&chunks[segment.chunk_index_start as usize..segment.chunk_index_end as usize])
}
