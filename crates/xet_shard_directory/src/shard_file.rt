//! `MDBShardFile`: a shard file on a disk.

ghost use Rattle.std.specs.Prelude.{◌≡◌, ◌≢◌, ◌<◌, ◌⊎◌, ℕ, List, [], true, None, OnErr, Some, IfErr, IfOk, IsErrOf, IsOkUnless, Err, string_bytes};
ghost use Rattle.xet_codec.specs.Stops.{HasDiskReason};
ghost use Rattle.xet_hash.specs.Hash.{zero_hash};
ghost use Rattle.xet_io.specs.Disk.{File, file_at, stat_of};
ghost use Rattle.xet_io.specs.Frame.{Unchanged};
ghost use Rattle.xet_shard.specs.Sections.{key_of};
ghost use Rattle.xet_shard_directory.specs.Answers.{GivesUnlessDisk, IsBufferError, IsFindError, IsLoadError, IsReadError, first_bytes, in_file};
ghost use Rattle.xet_shard_directory.specs.Values.{is_stale, last_part, loaded, no_info, placed, shard_value, stated_length};
ghost use Rattle.xet_shard_file.specs.Names.{IsHash};
ghost use Rattle.xet_shard_format.specs.Names.{shard_name};

use crate::paths::last_part;
use crate::reading::{info_of, listed_info, stat};
use std::alloc::Global;
use xet_base::Text;
use xet_codec::store_error;
use xet_hash::{HMACKey, MerkleHash, StoreError};
use xet_io::{Disk, read_file_at};
use xet_shard::{MDBShardInfo, parse_shard_filename};
use xet_shard_file::{ShardEntry, recall_bytes};

/// A shard file on a disk: its path, and what was read of it.
///
/// Every call that takes a disk may also return `OutOfMemory`, or `Io(Disk)`, which is returned only if the disk failed.
#[derive(Debug, Drop)]
pub struct MDBShardFile {
    /// The hash of the shard, which names its file.
    pub shard_hash: MerkleHash,
    /// The path of the file.
    pub path: Text,
    /// Its header and its footer.
    pub shard: MDBShardInfo,
    /// Its modification time, as the disk states it; 0 if it vanished right after it was written.
    pub last_modified_time: u64,
}

impl MDBShardFile {
    /// No shard file: no path, a zero hash, and zeros for the rest. Allocates nothing.
    pub fn default(alloc: Global) -> MDBShardFile
        ensures { result ≡ shard_value zero_hash [] no_info 0 }
    {
        MDBShardFile {
            shard_hash: MerkleHash::default(),
            path: Text::new(String::new(alloc)),
            shard: MDBShardInfo::default(),
            last_modified_time: 0,
        }
    }

    /// The shard file at this path, with the modification time that the disk states. Its bytes are not read: neither the
    /// hash nor `shard` is compared with them. `FileNotFound` if there is no such file.
    pub fn new<D: Disk>(
        disk: &mut D,
        hash: MerkleHash,
        path: String,
        shard: MDBShardInfo,
    ) -> Result<MDBShardFile, StoreError>
        ensures exact { D.tells disk.old ≡ true → GivesUnlessDisk (λ s. s) result (placed (D.files disk.old) hash (string_bytes path) shard) }
        ensures value { IfOk result (λ s. s ≡ shard_value hash (string_bytes path) shard s.last_modified_time) }
        ensures frame { Unchanged D.files D.tells D.faults disk.old disk.new }
        ensures reason { IfErr result (IsFindError (D.faults disk.old) (D.faults disk.new)) }
    {
        let (_, last_modified_time) = stat(disk, path.as_str())?;
        Ok(MDBShardFile {
            shard_hash: hash,
            path: Text::new(path),
            shard,
            last_modified_time,
        })
    }

    /// The shard file at this path: the hash in its name, its header and footer, its modification time. The name
    /// is believed: the bytes are not hashed. `BadFilename` if the part after the last slash is not the name of a
    /// shard, else `FileNotFound` if there is no such file; if the header or the footer is malformed, the error is
    /// that of the first check that fails.
    pub fn load_from_file<D: Disk>(
        alloc: Global,
        disk: &mut D,
        path: &str,
    ) -> Result<MDBShardFile, StoreError>
        ensures named { D.tells disk.old ≡ true → (h : List ℕ) → IsHash h → last_part path.now ≡ shard_name h → GivesUnlessDisk (λ s. s) result (loaded (D.files disk.old) h path.now) }
        ensures unnamed { ((h : List ℕ) → IsHash h → last_part path.now ≢ shard_name h) → result ≡ Err StoreError.BadFilename }
        ensures value { IfOk result (λ s. IsHash s.shard_hash × (last_part path.now ≡ shard_name s.shard_hash) × (s.path ≡ path.now)) }
        ensures bad { IsErrOf result StoreError.BadFilename → (h : List ℕ) → IsHash h → last_part path.now ≢ shard_name h }
        ensures frame { Unchanged D.files D.tells D.faults disk.old disk.new }
        ensures reason { IfErr result (IsLoadError (D.faults disk.old) (D.faults disk.new)) }
    {
        match parse_shard_filename(last_part(path)) {
            Some(hash) => {
                recall_bytes(&hash);
                load(alloc, disk, hash, path)
            }
            None => Err(StoreError::BadFilename),
        }
    }

    /// Whether the file is gone, or has another length than its footer states. It is not removed.
    pub fn purge_if_needed<D: Disk>(&self, disk: &mut D) -> Result<bool, StoreError>
        ensures exact { D.tells disk.old ≡ true → IfOk result (λ purge. purge ≡ is_stale self.now.shard (file_at (D.files disk.old) self.now.path)) }
        ensures frame { Unchanged D.files D.tells D.faults disk.old disk.new }
        ensures reason { IfErr result (HasDiskReason (D.faults disk.old) (D.faults disk.new)) }
    {
        match disk.stat(self.path.as_str()) {
            Ok(Some((length, _))) => Ok(length != self.shard.num_bytes()),
            Ok(None) => Ok(true),
            Err(refusal) => Err(store_error(refusal)),
        }
    }

    /// Replaces the contents of `buffer` by the first bytes of the file, as many as its footer states.
    /// `FileNotFound` if there is no file, and `UnexpectedEof` if it has fewer. After an error the buffer is as it was,
    /// or empty.
    pub fn read_into_buffer<D: Disk>(
        &self,
        disk: &mut D,
        buffer: &mut Vec<u8>,
    ) -> Result<(), StoreError>
        ensures exact { D.tells disk.old ≡ true → GivesUnlessDisk (λ _. buffer.new.items) result (in_file (file_at (D.files disk.old) self.now.path) (λ f. first_bytes (stated_length self.now.shard) f.bytes)) }
        ensures kept { OnErr result ((buffer.new.items ≡ buffer.old.items) ⊎ (buffer.new.items ≡ [])) }
        ensures frame { Unchanged D.files D.tells D.faults disk.old disk.new }
        ensures reason { IfErr result (IsBufferError (D.faults disk.old) (D.faults disk.new)) }
    {
        let path = self.path.as_str();
        let length = self.shard.num_bytes();
        match disk.stat(path) {
            Ok(Some((present, _))) if present >= length => fill(disk, path, length, buffer),
            Ok(Some(_)) => Err(StoreError::UnexpectedEof),
            Ok(None) => Err(StoreError::FileNotFound),
            Err(refusal) => Err(store_error(refusal)),
        }
    }

    /// The key of the chunk hashes; none if it is zero.
    pub fn chunk_hmac_key(&self) -> Option<HMACKey>
        ensures { key_of self.now.shard.metadata result }
    {
        self.shard.chunk_hmac_key()
    }

    /// A copy of the value. The only error is `StoreError::OutOfMemory`.
    pub fn copy(&self, alloc: Global) -> Result<MDBShardFile, StoreError>
        ensures copy { IfOk result (λ copy. copy ≡ self.now) }
        ensures memory { IsOkUnless result StoreError.OutOfMemory }
    {
        let path = String::from_str(alloc, self.path.as_str())?;
        Ok(MDBShardFile {
            shard_hash: self.shard_hash,
            path: Text::new(path),
            shard: self.shard,
            last_modified_time: self.last_modified_time,
        })
    }
}

/// The shard file at this path, whose name has this hash.
pub(crate) fn load<D: Disk>(
    alloc: Global,
    disk: &mut D,
    hash: MerkleHash,
    path: &str,
) -> Result<MDBShardFile, StoreError>
    ensures exact { D.tells disk.old ≡ true → GivesUnlessDisk (λ s. s) result (loaded (D.files disk.old) hash path.now) }
    ensures value { IfOk result (λ s. (s.shard_hash ≡ hash) × (s.path ≡ path.now)) }
    ensures absent { D.tells disk.old ≡ true → IsErrOf result StoreError.FileNotFound → file_at (D.files disk.old) path.now ≡ None }
    ensures frame { Unchanged D.files D.tells D.faults disk.old disk.new }
    ensures reason { IfErr result (IsReadError (D.faults disk.old) (D.faults disk.new)) }
{
    let (size, last_modified_time) = stat(disk, path)?;
    let shard = info_of(disk, path, size)?;
    let path = String::from_str(alloc, path)?;
    Ok(MDBShardFile {
        shard_hash: hash,
        path: Text::new(path),
        shard,
        last_modified_time,
    })
}

/// The shard file at this path, as a folder listed it: with the hash in its name, its length and its modification time.
/// `FileNotFound` if it has vanished since.
pub(crate) fn load_listed<D: Disk>(
    disk: &mut D,
    path: String,
    entry: ShardEntry,
) -> Result<MDBShardFile, StoreError>
    requires { D.tells disk.old ≡ true → stat_of (file_at (D.files disk.old) (string_bytes path)) ≡ Some (entry.length, entry.modified) }
    ensures exact { D.tells disk.old ≡ true → GivesUnlessDisk (λ s. s) result (loaded (D.files disk.old) entry.hash (string_bytes path)) }
    ensures absent { D.tells disk.old ≡ true → IsErrOf result StoreError.FileNotFound → file_at (D.files disk.old) (string_bytes path) ≡ None }
    ensures frame { Unchanged D.files D.tells D.faults disk.old disk.new }
    ensures reason { IfErr result (IsReadError (D.faults disk.old) (D.faults disk.new)) }
{
    let shard = listed_info(disk, path.as_str(), entry.length)?;
    Ok(MDBShardFile {
        shard_hash: entry.hash,
        path: Text::new(path),
        shard,
        last_modified_time: entry.modified,
    })
}

/// Replaces the contents of `buffer` by the first `length` bytes of a file. `UnexpectedEof` if it has fewer.
fn fill<D: Disk>(
    disk: &mut D,
    path: &str,
    length: u64,
    buffer: &mut Vec<u8>,
) -> Result<(), StoreError>
    requires some { 0 < length }
    ensures exact { D.tells disk.old ≡ true → (f : File) → file_at (D.files disk.old) path.now ≡ Some f → GivesUnlessDisk (λ _. buffer.new.items) result (first_bytes length f.bytes) }
    ensures kept { OnErr result ((buffer.new.items ≡ buffer.old.items) ⊎ (buffer.new.items ≡ [])) }
    ensures frame { Unchanged D.files D.tells D.faults disk.old disk.new }
    ensures reason { IfErr result (IsBufferError (D.faults disk.old) (D.faults disk.new)) }
{
    buffer.clear();
    buffer.resize(length as usize, 0)?;
    match read_file_at(disk, path, 0, buffer) {
        Ok(true) => Ok(()),
        Ok(false) => {
            buffer.clear();
            Err(StoreError::UnexpectedEof)
        }
        Err(refusal) => {
            buffer.clear();
            Err(store_error(refusal))
        }
    }
}
