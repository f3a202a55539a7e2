//! Xorbs of one chunk of three bytes, and files of that chunk, which are added to a manager.

ghost use Rattle.std.specs.Prelude.{◌≡◌, ◌≢◌, ◌≤◌, ◌+◌, [], IfOk, OnErr, OnOk, length};
ghost use Rattle.xet_hash.specs.Hash.{sentinel};
ghost use Rattle.xet_shard.specs.Held.{nothing};
ghost use Rattle.xet_shard_format.specs.Records.{IsXorb, xorb_record_hash, xorb_rows, xorb_section};

use crate::tests::samples::Manager;
use std::alloc::Global;
use xet_base::Items;
use xet_hash::{MerkleHash, StoreError, compute_data_hash, file_hash};
use xet_shard::{MDBXorbInfo, XorbChunkSequenceEntry, XorbChunkSequenceHeader};
use xet_shard_samples::file_of_abc;

/// The xorb with one chunk of 3 bytes, which has this hash.
fn xorb_of(alloc: Global, chunk: MerkleHash) -> Result<MDBXorbInfo, StoreError>
    ensures form { IfOk result IsXorb }
    ensures hash { IfOk result (λ xorb. xorb_record_hash xorb ≡ chunk) }
    ensures rows { IfOk result (λ xorb. length (xorb_rows xorb) ≡ 2) }
{
    Ok(MDBXorbInfo {
        metadata: XorbChunkSequenceHeader::new(chunk, 1, 3),
        chunks: Items::from_vec(vec![in alloc; XorbChunkSequenceEntry::new(chunk, 3, 0)]?),
    })
}

/// A hash that is not the sentinel.
pub fn unmarked(hash: MerkleHash) -> Result<MerkleHash, StoreError>
    ensures same { IfOk result (λ h. h ≡ hash) }
    ensures hash { IfOk result (λ h. h ≢ sentinel) }
{
    if hash == MerkleHash::marker() {
        Err(StoreError::HashMismatch)
    } else {
        Ok(hash)
    }
}

/// Adds the xorb with one chunk of these three bytes, where nothing is pending.
pub fn add_xorb(alloc: Global, manager: &mut Manager, bytes: &[u8]) -> Result<(), StoreError>
    requires empty { manager.old.pending ≡ nothing }
    ensures files { OnOk result (manager.new.pending.files ≡ []) }
{
    let chunk = unmarked(compute_data_hash(bytes))?;
    manager.add_xorb_block(xorb_of(alloc, chunk)?)
}

/// Adds the xorb with one chunk of these three bytes, where few rows of xorbs are pending.
#[tactic(auto, using(crate::proofs::Few::few_before, crate::proofs::Few::rows_after))]
pub fn add_another(alloc: Global, manager: &mut Manager, bytes: &[u8]) -> Result<(), StoreError>
    requires few { length (xorb_section manager.old.pending.blocks) ≤ 1000 }
    ensures more { OnOk result (length (xorb_section manager.new.pending.blocks) ≤ length (xorb_section manager.old.pending.blocks) + 2) }
{
    let chunk = unmarked(compute_data_hash(bytes))?;
    manager.add_xorb_block(xorb_of(alloc, chunk)?)
}

/// Adds the file of these three bytes, where no file is pending. After an error the same is pending.
#[tactic(auto, using(crate::proofs::Few::kept_after_error))]
pub fn add_file(alloc: Global, manager: &mut Manager, bytes: &[u8]) -> Result<(), StoreError>
    requires none { manager.old.pending.files ≡ [] }
    ensures kept { OnErr result (manager.new.pending ≡ manager.old.pending) }
{
    let chunk = compute_data_hash(bytes);
    let hash = unmarked(file_hash(alloc, &[(chunk, 3)])?)?;
    manager.add_file_reconstruction_info(file_of_abc(alloc, hash, chunk)?)
}

/// Adds the xorb and the file of these three bytes, where nothing is pending.
pub fn add_both(alloc: Global, manager: &mut Manager, bytes: &[u8]) -> Result<(), StoreError>
    requires empty { manager.old.pending ≡ nothing }
{
    add_xorb(alloc, manager, bytes)?;
    add_file(alloc, manager, bytes)
}

/// Writes what is pending.
pub fn flush(manager: &mut Manager) -> Result<(), StoreError>
    ensures empty { OnOk result (manager.new.pending ≡ nothing) }
{
    let _path = manager.flush()?;
    Ok(())
}
