//! Shard files that are there already when they are to be written.

ghost use Rattle.std.specs.Prelude.{◌≡◌, ◌⊎◌, ◌↔◌, ◌<◌, ◌≤◌, ◌+◌, ◌^◌, ℕ, List, true, length, take, drop, Ok, Err, IfErr, IfOk, IsTrue, OnErr, OnOk, Some, option_map};
ghost use Rattle.xet_codec.specs.Stops.{HasDiskReason};
ghost use Rattle.xet_hash.specs.Merkle.{chunk_hash};
ghost use Rattle.xet_io.specs.Disk.{bytes_at, synced};
ghost use Rattle.xet_io.specs.Frame.{Stays, Unchanged};
ghost use Rattle.xet_shard.specs.Sections.{info_at};
ghost use Rattle.xet_shard_file.specs.Names.{temp_name};
ghost use Rattle.xet_shard_directory.specs.Writing.{AddsShard, IsFormatError, IsPutError, IsUnwrittenIfMalformed, KeepsFileAt, MayAddShard, Stood, path_of};
ghost use Rattle.xet_shard_directory.specs.Standing.{IsSame, IsStanding};

use crate::shard_file::MDBShardFile;
use crate::writing::{info_of_bytes, value_of, write_named_file};
use std::alloc::Global;
use xet_base::Text;
use xet_codec::store_error;
use xet_hash::{MerkleHash, StoreError, compute_data_hash};
use xet_io::{Disk, read_file_at};
use xet_shard::MDBShardInfo;
use xet_shard_file::{shard_path, temp_name};

/// The number of bytes of a file that are compared at once.
const BLOCK: usize = 4096;

/// What is at a path where the bytes of a shard are to be.
#[derive(Clone, Copy, PartialEq, Eq, Debug)]
pub enum Standing {
    /// No file.
    Absent,
    /// A file with exactly these bytes.
    Same,
    /// A file with other bytes.
    Other,
}

/// Compares the file at a path with these bytes. It is read only if it is as long, and to the first block that differs.
/// Allocates nothing itself.
pub fn standing_of<D: Disk>(disk: &mut D, path: &str, bytes: &[u8]) -> Result<Standing, StoreError>
    ensures found { D.tells disk.old ≡ true → IfOk result (IsStanding (bytes_at (D.files disk.old) path.now) bytes.now) }
    ensures frame { Unchanged D.files D.tells D.faults disk.old disk.new }
    ensures reason { IfErr result (HasDiskReason (D.faults disk.old) (D.faults disk.new)) }
{
    match disk.stat(path) {
        Ok(None) => Ok(Standing::Absent),
        Ok(Some((length, _))) if length != bytes.len() as u64 => Ok(Standing::Other),
        Ok(Some(_)) => match has_bytes(disk, path, bytes) {
            Ok(true) => Ok(Standing::Same),
            Ok(false) => Ok(Standing::Other),
            Err(error) => Err(error),
        },
        Err(refusal) => Err(store_error(refusal)),
    }
}

/// Whether the file at a path, which is as long as these bytes, has them.
fn has_bytes<D: Disk>(disk: &mut D, path: &str, bytes: &[u8]) -> Result<bool, StoreError>
    requires length { D.tells disk.old ≡ true → option_map length (bytes_at (D.files disk.old) path.now) ≡ Some (length bytes.now) }
    ensures same { D.tells disk.old ≡ true → IfOk result (λ same. IsSame (bytes_at (D.files disk.old) path.now) bytes.now same) }
    ensures frame { Unchanged D.files D.tells D.faults disk.old disk.new }
    ensures reason { IfErr result (HasDiskReason (D.faults disk.old) (D.faults disk.new)) }
{
    let mut at = 0;
    'parts: while at < bytes.len() {
        let end = at + (bytes.len() - at).min(BLOCK);
        match has_part(disk, path, at, &bytes[at..end]) {
            Ok(true) => at = end,
            Ok(false) => return Ok(false),
            Err(error) => return Err(error),
        }
    }
    Ok(true)
}

/// Whether a file has these bytes from an offset on. There are at most `BLOCK` of them.
fn has_part<D: Disk>(disk: &mut D, path: &str, at: usize, part: &[u8]) -> Result<bool, StoreError>
    requires some { 0 < length part.now }
    requires few { length part.now ≤ 4096 }
    requires fits { at + length part.now < 2 ^ 64 }
    ensures same { D.tells disk.old ≡ true → (b : List ℕ) → bytes_at (D.files disk.old) path.now ≡ Some b → at + length part.now ≤ length b → IfOk result (λ same. IsTrue same ↔ (take (length part.now) (drop at b) ≡ part.now)) }
    ensures frame { Unchanged D.files D.tells D.faults disk.old disk.new }
    ensures reason { IfErr result (HasDiskReason (D.faults disk.old) (D.faults disk.new)) }
{
    let mut buffer = [0; BLOCK];
    let found = &mut buffer[..part.len()];
    match read_file_at(disk, path, at as u64, found) {
        Ok(filled) => Ok(filled && *found == *part),
        Err(refusal) => Err(store_error(refusal)),
    }
}

/// Makes the file of a shard durable, whose bytes are at its path. It is not written anew, so it keeps its modification
/// time. The caller passes the value of the file but for that, and the name of the temporary file. Allocates nothing itself.
pub fn keep_named_file<D: Disk>(
    disk: &mut D,
    temp: &str,
    path: Text,
    hash: MerkleHash,
    shard: MDBShardInfo,
    bytes: &[u8],
) -> Result<MDBShardFile, StoreError>
    requires temp { temp.now ≡ temp_name path }
    requires hash { hash ≡ chunk_hash bytes.now }
    requires shard { info_at bytes.now ≡ Ok shard }
    requires there { D.tells disk.old ≡ true → bytes_at (D.files disk.old) path ≡ Some bytes.now }
    ensures stood { D.tells disk.old ≡ true → (target : List ℕ) → path ≡ path_of target bytes.now → IfOk result (Stood (D.files disk.old) (D.files disk.new) target bytes.now) }
    ensures refused { D.tells disk.old ≡ true → OnErr result ((D.files disk.new ≡ D.files disk.old) ⊎ (D.files disk.new ≡ synced (D.files disk.old) path)) }
    ensures value { IfOk result (λ s. (s.shard_hash ≡ hash) × (s.path ≡ path) × (s.shard ≡ shard)) }
    ensures frame { Stays D.tells D.faults disk.old disk.new }
    ensures reason { IfErr result (HasDiskReason (D.faults disk.old) (D.faults disk.new)) }
{
    match disk.sync(path.as_str()) {
        Ok(true) => value_of(disk, path, hash, shard),
        // It was removed meanwhile.
        Ok(false) => write_named_file(disk, temp, path, hash, shard, bytes),
        Err(refusal) => Err(store_error(refusal)),
    }
}

/// Writes the bytes of a shard into a folder, durably, under the name of their digest, as `write_shard_file` does, unless
/// there is a file of that name. If it has these bytes, it is only made durable, and keeps its modification time; if it
/// has others, it stays, and the error is `OutOfMemory`.
pub fn add_shard_file<D: Disk>(
    alloc: Global,
    disk: &mut D,
    target: &str,
    bytes: &[u8],
) -> Result<MDBShardFile, StoreError>
    ensures added { D.tells disk.old ≡ true → IfOk result (AddsShard (D.files disk.old) (D.files disk.new) target.now bytes.now) }
    ensures refused { D.tells disk.old ≡ true → OnErr result (MayAddShard (D.files disk.old) (D.files disk.new) target.now bytes.now) }
    ensures kept { D.tells disk.old ≡ true → KeepsFileAt (D.files disk.old) (D.files disk.new) (path_of target.now bytes.now) }
    ensures malformed { D.tells disk.old ≡ true → IfErr result (IsUnwrittenIfMalformed (D.files disk.old) (D.files disk.new) bytes.now) }
    ensures format { IfErr result (λ e. IsFormatError e → info_at bytes.now ≡ Err e) }
    ensures value { IfOk result (λ s. (s.shard_hash ≡ chunk_hash bytes.now) × (s.path ≡ path_of target.now bytes.now) × (info_at bytes.now ≡ Ok s.shard)) }
    ensures frame { Stays D.tells D.faults disk.old disk.new }
    ensures reason { IfErr result (IsPutError (D.faults disk.old) (D.faults disk.new)) }
{
    let shard = info_of_bytes(bytes)?;
    let hash = compute_data_hash(bytes);
    let path = Text::new(shard_path(alloc, target, &hash)?);
    let temp = temp_name(alloc, path.as_str())?;
    match standing_of(disk, path.as_str(), bytes) {
        Ok(Standing::Absent) => { write_named_file(disk, temp.as_str(), path, hash, shard, bytes) }
        Ok(Standing::Same) => keep_named_file(disk, temp.as_str(), path, hash, shard, bytes),
        Ok(Standing::Other) => Err(StoreError::OutOfMemory),
        Err(error) => Err(error),
    }
}
