//! Footers of (hash, length) pairs.

ghost use Rattle.std.specs.Prelude.{◌≡◌, ◌≤◌, ◌<◌, ◌+◌, ◌*◌, ◌^◌, IfOk, IsOkUnless, length, map};
ghost use Rattle.xet_hash.specs.Merkle.{total_len};
ghost use Rattle.xet_xorb_footer.specs.FooterEncoding.{HasLists, HasShortLists, max_chunks};
ghost use Rattle.xet_xorb.specs.Footer.{ends_from, standard_footer_v0, footer_v1};
ghost use Rattle.xet_xorb.specs.internal.Checking.{FitsFooter};

use std::alloc::Global;
use xet_hash::{MerkleHash, StoreError};
use xet_xorb_footer::{XorbObjectInfoV0, XorbObjectInfoV1};

/// Length of a chunk header, in bytes.
const HEADER_LENGTH: u64 = 8;

/// Boundary offsets: the end of each chunk among the stored chunks, headers included. The only error is
/// `OutOfMemory`.
pub(crate) fn stored_ends(
    alloc: Global,
    leaves: &[(MerkleHash, u64)],
) -> Result<Vec<u32>, StoreError>
    requires { total_len leaves.now + 8 * length leaves.now < 2 ^ 32 }
    ensures ends { IfOk result (λ ends. ends.items ≡ ends_from 8 0 leaves.now) }
    ensures memory { IsOkUnless result StoreError.OutOfMemory }
{
    ends_with(alloc, leaves, HEADER_LENGTH)
}

/// Uncompressed boundary offsets: the end of each chunk among the uncompressed bytes. The only error is
/// `OutOfMemory`.
pub(crate) fn plain_ends(
    alloc: Global,
    leaves: &[(MerkleHash, u64)],
) -> Result<Vec<u32>, StoreError>
    requires { total_len leaves.now < 2 ^ 32 }
    ensures ends { IfOk result (λ ends. ends.items ≡ ends_from 0 0 leaves.now) }
    ensures memory { IsOkUnless result StoreError.OutOfMemory }
{
    ends_with(alloc, leaves, 0)
}

/// The end of each chunk, if `before` bytes precede the bytes of each. The only error is `OutOfMemory`.
fn ends_with(
    alloc: Global,
    leaves: &[(MerkleHash, u64)],
    before: u64,
) -> Result<Vec<u32>, StoreError>
    requires { total_len leaves.now + before * length leaves.now < 2 ^ 32 }
    ensures ends { IfOk result (λ ends. ends.items ≡ ends_from before 0 leaves.now) }
    ensures memory { IsOkUnless result StoreError.OutOfMemory }
{
    let mut ends = Vec::with_capacity(alloc, leaves.len())?;
    let mut end: u64 = 0;
    for leaf in leaves {
        end += leaf.1 + before;
        ends.push(end as u32)?;
    }
    Ok(ends)
}

/// The hash of each pair. The only error is `OutOfMemory`.
pub(crate) fn hashes_of(
    alloc: Global,
    leaves: &[(MerkleHash, u64)],
) -> Result<Vec<MerkleHash>, StoreError>
    ensures hashes { IfOk result (λ hashes. hashes.items ≡ map (λ m. m.0) leaves.now) }
    ensures memory { IsOkUnless result StoreError.OutOfMemory }
{
    let mut hashes = Vec::with_capacity(alloc, leaves.len())?;
    for leaf in leaves {
        hashes.push(leaf.0)?;
    }
    Ok(hashes)
}

/// The footer of version 1 of a xorb with this hash, the (hash, length) pairs of its chunks, and these spare
/// bytes. The only error is `OutOfMemory`.
pub fn new_footer(
    alloc: Global,
    hash: &MerkleHash,
    leaves: &[(MerkleHash, u64)],
    spare: [u8; 16],
) -> Result<XorbObjectInfoV1, StoreError>
    requires few { length leaves.now ≤ max_chunks }
    requires bound { total_len leaves.now + 8 * length leaves.now < 2 ^ 32 }
    ensures footer { IfOk result (λ footer. footer ≡ footer_v1 hash.now leaves.now spare) }
    ensures lists { IfOk result HasLists }
    ensures short { IfOk result HasShortLists }
    ensures memory { IsOkUnless result StoreError.OutOfMemory }
{
    let hashes = hashes_of(alloc, leaves)?;
    let stored = stored_ends(alloc, leaves)?;
    let plain = plain_ends(alloc, leaves)?;
    Ok(XorbObjectInfoV1::from_lists(*hash, hashes, stored, plain, spare))
}

/// The footer of version 0 of a xorb with this hash, the (hash, length) pairs of its chunks, and these spare
/// bytes. The only error is `OutOfMemory`.
pub(crate) fn new_footer_v0(
    alloc: Global,
    hash: &MerkleHash,
    leaves: &[(MerkleHash, u64)],
    spare: [u8; 16],
) -> Result<XorbObjectInfoV0, StoreError>
    requires { FitsFooter leaves.now }
    ensures footer { IfOk result (λ footer. footer ≡ standard_footer_v0 hash.now leaves.now spare) }
    ensures hashes { IfOk result (λ footer. length footer.chunk_hashes ≤ max_chunks) }
    ensures stored { IfOk result (λ footer. length footer.chunk_boundary_offsets ≤ max_chunks) }
    ensures memory { IsOkUnless result StoreError.OutOfMemory }
{
    let hashes = hashes_of(alloc, leaves)?;
    let stored = stored_ends(alloc, leaves)?;
    Ok(XorbObjectInfoV0::from_lists(*hash, stored, hashes, spare))
}
