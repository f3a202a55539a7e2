//! A file of 200 zero bytes: three chunks of 64 bytes and one of 8. Its xorb has one chunk of each length.

ghost use Rattle.std.specs.Prelude.{◌≡◌, IfOk, length};
ghost use Rattle.std.specs.List.{AllByRecursion};
ghost use Rattle.xet_shard_format.specs.Records.{IsFile};

use indexmap::IndexMap;
use std::alloc::Global;
use xet_base::Items;
use xet_folder::Leaves;
use xet_hash::{MerkleHash, StoreError, compute_data_hash, range_hash_from_chunks};
use xet_shard_format::{
    FileDataSequenceEntry, FileDataSequenceHeader, FileVerificationEntry, MDBFileInfo,
};

/// The file hash.
pub const FILE: &str = "3ea7f13fb11d984c5144802da25ac276963976ae79fc12427d60d9d43f999ec7";

/// The hash of the xorb with a chunk of 64 zero bytes and one of 8.
const XORB: &str = "00915a72df7bdf4d1bf1fc9c8795ec4ac17f8938ae1d14d81c3fda8b284e90b6";

/// The table with that xorb alone.
pub fn xorbs(alloc: Global) -> Result<IndexMap<MerkleHash, Leaves>, StoreError> {
    let full = (compute_data_hash(&[0; 64]), 64);
    let rest = (compute_data_hash(&[0; 8]), 8);
    let leaves = Leaves::from_vec(alloc, vec![in alloc; full, rest]?)?;
    let mut xorbs = IndexMap::new(alloc);
    let _old = xorbs.insert(MerkleHash::from_hex(XORB)?, leaves)?;
    Ok(xorbs)
}

/// The range hash of the last segment.
pub fn last_range() -> MerkleHash {
    range_hash_from_chunks(&[compute_data_hash(&[0; 64]), compute_data_hash(&[0; 8])])
}

/// The segments: two of one chunk, and one of the chunks before `end`, which is 2 in the file's plan.
fn segments(alloc: Global, end: u32) -> Result<Vec<FileDataSequenceEntry>, StoreError>
    ensures count { IfOk result (λ segments. length segments.items ≡ 3) }
    ensures plain { IfOk result (λ segments. AllByRecursion (λ s. s.xorb_flags ≡ 0) segments.items) }
{
    let xorb = MerkleHash::from_hex(XORB)?;
    let one = FileDataSequenceEntry::new(xorb, 64, 0, 1);
    Ok(vec![in alloc; one, one, FileDataSequenceEntry::new(xorb, 72, 0, end)]?)
}

/// The record with this hash, this end of the last segment and this range hash of it.
pub fn record(
    alloc: Global,
    hash: MerkleHash,
    end: u32,
    range: MerkleHash,
) -> Result<MDBFileInfo, StoreError>
    ensures { IfOk result IsFile }
{
    let one = FileVerificationEntry::new(range_hash_from_chunks(&[compute_data_hash(&[0; 64])]));
    let ranges = vec![in alloc; one, one, FileVerificationEntry::new(range)]?;
    Ok(MDBFileInfo {
        metadata: FileDataSequenceHeader::new(hash, 3, true, false),
        segments: Items::from_vec(segments(alloc, end)?),
        verification: Items::from_vec(ranges),
        metadata_ext: None,
    })
}

/// The record of the file without verification rows.
pub fn unverified(alloc: Global) -> Result<MDBFileInfo, StoreError>
    ensures { IfOk result IsFile }
{
    Ok(MDBFileInfo {
        metadata: FileDataSequenceHeader::new(MerkleHash::from_hex(FILE)?, 3, false, false),
        segments: Items::from_vec(segments(alloc, 2)?),
        verification: Items::new(alloc),
        metadata_ext: None,
    })
}

/// A record without segments. Its hash is zero, as that of no chunks.
pub fn empty(alloc: Global) -> MDBFileInfo
    ensures { IsFile result }
{
    MDBFileInfo::default(alloc)
}
