//! Whether a file may be recorded.

ghost use Rattle.std.specs.Prelude.{◌≡◌, ◌<◌, ◌^◌, ◌↔◌, IfOk, IsOkUnless, IsTrue};
ghost use Rattle.xet_hash.specs.Hash.{sentinel};
ghost use Rattle.xet_hash.specs.Merkle.{total_len};
ghost use Rattle.xet_shard_format.specs.Records.{IsFile, file_record_hash};
ghost use Rattle.xet_folder.specs.Contents.{IsRecord};
ghost use Rattle.xet_completion.specs.Completing.{Completes};
ghost use Rattle.xet_completion.specs.internal.Resolving.{GivesHashes};

use crate::ranges::has_range_hashes;
use crate::resolving::resolved;
use indexmap::IndexMap;
use std::alloc::Global;
use xet_folder::Leaves;
use xet_hash::{MerkleHash, StoreError, file_hash};
use xet_shard_format::MDBFileInfo;

/// Whether a file may be recorded over these xorbs: its plan resolves to chunks of theirs, at least one, which give its file
/// hash and, if it has verification rows, its range hashes; and its hash is not the sentinel. Reads no stored bytes. Allocates
/// one list of the file's chunks, and what their file hash needs. The only error is `OutOfMemory`.
pub fn can_complete(
    alloc: Global,
    xorbs: &IndexMap<MerkleHash, Leaves>,
    file: &MDBFileInfo,
) -> Result<bool, StoreError>
    requires { IsFile file.now }
    ensures can { IfOk result (λ can. IsTrue can ↔ Completes xorbs.now.entries file.now) }
    ensures recorded { IfOk result (λ can. IsTrue can → IsRecord xorbs.now.entries (file_record_hash file.now, file.now)) }
    ensures memory { IsOkUnless result StoreError.OutOfMemory }
{
    if has_sentinel(file) {
        return Ok(false);
    }
    match resolved(alloc, xorbs, file)? {
        Some(leaves) => gives_hashes(alloc, file, &leaves),
        None => Ok(false),
    }
}

/// Whether the hash of a record is the sentinel.
fn has_sentinel(file: &MDBFileInfo) -> bool
    ensures { IsTrue result ↔ (file_record_hash file.now ≡ sentinel) }
{
    file.hash() == MerkleHash::marker()
}

/// Whether these chunks are at least one, and give the hashes of a record.
fn gives_hashes(
    alloc: Global,
    file: &MDBFileInfo,
    leaves: &[(MerkleHash, u64)],
) -> Result<bool, StoreError>
    requires { total_len leaves.now < 2 ^ 64 }
    ensures gives { IfOk result (λ gives. IsTrue gives ↔ GivesHashes file.now leaves.now) }
    ensures memory { IsOkUnless result StoreError.OutOfMemory }
{
    if leaves.is_empty() || !has_range_hashes(file, leaves) {
        return Ok(false);
    }
    Ok(file_hash(alloc, leaves)? == file.hash())
}
