//! The file of a shard that is to be written.

ghost use Rattle.std.specs.Prelude.{◌≡◌, ◌⊎◌, List, ℕ, IfErr, IfOk, IsOkUnless, Some, string_bytes, true};
ghost use Rattle.xet_codec.specs.Stops.{HasDiskReason};
ghost use Rattle.xet_io.specs.Frame.{Stays};
ghost use Rattle.xet_io.specs.Disk.{bytes_at, synced};
ghost use Rattle.xet_shard_directory.specs.Writing.{MayAddShard, path_of};
ghost use Rattle.xet_shard_file.specs.Names.{shard_path, temp_name};
ghost use Rattle.xet_shard_flush.specs.Importing.{KeepsFiles};
ghost use Rattle.xet_shard_flush.specs.internal.Steps.{IsFileOf, IsWritten};

use crate::paths::{Way, way_of};
use std::alloc::Global;
use xet_base::Text;
use xet_hash::{MerkleHash, StoreError};
use xet_io::Disk;
use xet_shard::MDBShardInfo;
use xet_shard_directory::{MDBShardFile, keep_named_file, write_named_file};
use xet_shard_file::{shard_path, temp_name};
use xet_shard_registry::ShardRegistry;

/// The file of a shard that is to be written: all of it but its bytes and its modification time.
#[derive(Drop)]
pub(crate) struct NewFile {
    /// The digest of the bytes.
    pub hash: MerkleHash,
    /// Their header and footer.
    pub info: MDBShardInfo,
    /// The path, which is returned.
    pub path: Text,
    /// The path, for the value of the file.
    pub name: Text,
    /// The name of the temporary file.
    pub temp: Text,
}

/// The file of the shard with this hash in a folder. The only error is `StoreError::OutOfMemory`.
pub(crate) fn new_file(
    alloc: Global,
    folder: &str,
    hash: MerkleHash,
    info: MDBShardInfo,
) -> Result<NewFile, StoreError>
    ensures parts { IfOk result (λ file. (file.hash ≡ hash) × (file.info ≡ info)) }
    ensures path { IfOk result (λ file. file.path ≡ shard_path folder.now hash) }
    ensures names { IfOk result (λ file. (file.name ≡ file.path) × (file.temp ≡ temp_name file.path)) }
    ensures memory { IsOkUnless result StoreError.OutOfMemory }
{
    let path = Text::new(shard_path(alloc, folder, &hash)?);
    let name = Text::new(String::from_str(alloc, path.as_str())?);
    let temp = Text::new(temp_name(alloc, path.as_str())?);
    Ok(NewFile {
        hash,
        info,
        path,
        name,
        temp,
    })
}

/// Ensures that the bytes of a shard are in its file, durably, and returns the value of the file, and its path. If they are
/// there, the file keeps its modification time. `OutOfMemory` if a registered shard has the path and other bytes are
/// there, or if its file is gone and had another header or footer. Allocates nothing itself.
pub(crate) fn write_free<D: Disk>(
    disk: &mut D,
    registry: &ShardRegistry,
    file: NewFile,
    bytes: &[u8],
) -> Result<(MDBShardFile, String), StoreError>
    requires { IsFileOf bytes.now file }
    ensures path { IfOk result (λ x. string_bytes x.1 ≡ file.path) }
    ensures hash { IfOk result (λ x. x.0.shard_hash ≡ file.hash) }
    ensures written { (folder : List ℕ) → file.path ≡ path_of folder bytes.now → IfOk result (λ x. IsWritten (D.tells disk.old) (D.files disk.old) (D.files disk.new) folder bytes.now x.0) }
    ensures left { D.tells disk.old ≡ true → (folder : List ℕ) → file.path ≡ path_of folder bytes.now → MayAddShard (D.files disk.old) (D.files disk.new) folder bytes.now }
    ensures safe { D.tells disk.old ≡ true → (folder : List ℕ) → file.path ≡ path_of folder bytes.now → KeepsFiles (D.files disk.old) (D.files disk.new) folder bytes.now registry.now.files }
    ensures frame { Stays D.tells D.faults disk.old disk.new }
    ensures reason { IfErr result (HasDiskReason (D.faults disk.old) (D.faults disk.new)) }
{
    match way_of(disk, file.path.as_str(), &file.info, registry, bytes) {
        Ok(Way::Keep) => keep_file(disk, file, bytes),
        Ok(Way::Write) => write_file(disk, file, bytes),
        Ok(Way::Refuse) => Err(StoreError::OutOfMemory),
        Err(error) => Err(error),
    }
}

/// Makes the file of a shard durable, which has its bytes, and returns the value of the file, and its path. Allocates nothing
/// itself.
fn keep_file<D: Disk>(
    disk: &mut D,
    file: NewFile,
    bytes: &[u8],
) -> Result<(MDBShardFile, String), StoreError>
    requires file { IsFileOf bytes.now file }
    requires there { D.tells disk.old ≡ true → bytes_at (D.files disk.old) file.path ≡ Some bytes.now }
    ensures path { IfOk result (λ x. string_bytes x.1 ≡ file.path) }
    ensures hash { IfOk result (λ x. x.0.shard_hash ≡ file.hash) }
    ensures written { (folder : List ℕ) → file.path ≡ path_of folder bytes.now → IfOk result (λ x. IsWritten (D.tells disk.old) (D.files disk.old) (D.files disk.new) folder bytes.now x.0) }
    ensures done { D.tells disk.old ≡ true → (folder : List ℕ) → file.path ≡ path_of folder bytes.now → (D.files disk.new ≡ D.files disk.old) ⊎ (D.files disk.new ≡ synced (D.files disk.old) file.path) }
    ensures frame { Stays D.tells D.faults disk.old disk.new }
    ensures reason { IfErr result (HasDiskReason (D.faults disk.old) (D.faults disk.new)) }
{
    let NewFile {
        hash,
        info,
        path,
        name,
        temp,
    } = file;
    match keep_named_file(disk, temp.as_str(), name, hash, info, bytes) {
        Ok(kept) => Ok((kept, path.into_string())),
        Err(error) => Err(error),
    }
}

/// Writes the bytes of a shard to its file, durably, and returns the value of the file, and its path. Allocates nothing
/// itself.
fn write_file<D: Disk>(
    disk: &mut D,
    file: NewFile,
    bytes: &[u8],
) -> Result<(MDBShardFile, String), StoreError>
    requires { IsFileOf bytes.now file }
    ensures path { IfOk result (λ x. string_bytes x.1 ≡ file.path) }
    ensures hash { IfOk result (λ x. x.0.shard_hash ≡ file.hash) }
    ensures written { (folder : List ℕ) → file.path ≡ path_of folder bytes.now → IfOk result (λ x. IsWritten (D.tells disk.old) (D.files disk.old) (D.files disk.new) folder bytes.now x.0) }
    ensures left { D.tells disk.old ≡ true → (folder : List ℕ) → file.path ≡ path_of folder bytes.now → MayAddShard (D.files disk.old) (D.files disk.new) folder bytes.now }
    ensures frame { Stays D.tells D.faults disk.old disk.new }
    ensures reason { IfErr result (HasDiskReason (D.faults disk.old) (D.faults disk.new)) }
{
    let NewFile {
        hash,
        info,
        path,
        name,
        temp,
    } = file;
    match write_named_file(disk, temp.as_str(), name, hash, info, bytes) {
        Ok(written) => Ok((written, path.into_string())),
        Err(error) => Err(error),
    }
}
