//! The file record of a hash in what is pending and in the registered shards.

ghost use Rattle.std.specs.Prelude.{◌≡◌, ◌≢◌, IsOkUnless, ℕ, List, Ok, None, Some, IfErr, IfOk, false, flat_map, map, slice_get, true};
ghost use Rattle.xet_hash.specs.Hash.{zero_hash};
ghost use Rattle.xet_io.specs.Frame.{Unchanged};
ghost use Rattle.xet_shard.specs.Held.{Held, record_of};
ghost use Rattle.xet_shard_directory.specs.Answers.{GivesUnlessDisk, IsFileQueryError};
ghost use Rattle.xet_shard_directory.specs.declared.shard_file.MDBShardFile.{MDBShardFile};
ghost use Rattle.xet_shard_format.specs.Records.{file_record_hash};
ghost use Rattle.xet_shard_format.specs.declared.record.MDBFileInfo.{MDBFileInfo};
ghost use Rattle.xet_shard_lookup.specs.Found.{HoldsFile, HoldsFiles};
ghost use Rattle.xet_shard_lookup.specs.Records.{IsRecorded, answer_of, first_answer, found_record, no_record};
ghost use Rattle.xet_shard_registry.specs.Collections.{IsRegistryOf};
ghost use Rattle.xet_shard_registry.specs.Registered.{Registered, collection, keys_of};

use std::alloc::Global;
use xet_hash::{MerkleHash, StoreError};
use xet_io::Disk;
use xet_shard::laws::queries_are_answered;
use xet_shard::{MDBFileInfo, MDBInMemoryShard};
use xet_shard_directory::MDBShardFile;
use xet_shard_registry::ShardRegistry;

/// The file record of a hash, and the hash of the registered shard that has it; `None` for the latter if it is pending.
/// What is pending is asked first, then the registered shards in order of registration, those of one key after those of
/// another: first the shards without a key. A shard whose file is gone has no records. For a zero hash the answer is
/// the record without segments, and nothing is looked up. `TruncatedHashCollision` if eight files of a shard that is
/// asked share the first word of the hash; `Io(Disk)` if the disk failed; `UnexpectedEof` or `MalformedData` only if
/// the file of a registered shard is not an encoding of it.
pub fn find_file<D: Disk>(
    alloc: Global,
    disk: &mut D,
    pending: &MDBInMemoryShard,
    registry: &ShardRegistry,
    hash: &MerkleHash,
) -> Result<Option<(MDBFileInfo, Option<MerkleHash>)>, StoreError>
    ensures found { D.tells disk.old ≡ true → (shards : List Registered) → IsRegistryOf shards registry.now → HoldsFiles (D.files disk.old) shards
        → GivesUnlessDisk (λ answer. answer) result (found_record (D.files disk.old) pending.now shards hash.now) }
    // Nothing else is asked for a zero hash, or if the file is pending.
    ensures zero { hash.now ≡ zero_hash → (result ≡ Ok (Some (no_record, None))) × (disk.new ≡ disk.old) }
    ensures pending { hash.now ≢ zero_hash → (f : MDBFileInfo) → record_of file_record_hash hash.now pending.now.files ≡ Some f → IfOk result (λ answer. answer ≡ Some (f, None)) × IsOkUnless result StoreError.OutOfMemory × (disk.new ≡ disk.old) }
    // Also over files that are not those of the registered shards: the rows of a file have the record.
    ensures there { D.tells disk.old ≡ true → IfOk result (IsRecorded (D.files disk.old) pending.now registry.now.files hash.now) }
    ensures frame { Unchanged D.files D.tells D.faults disk.old disk.new }
    ensures reason { IfErr result (IsFileQueryError (D.faults disk.old) (D.faults disk.new)) }
{
    if *hash == MerkleHash::default() {
        return Ok(Some((MDBFileInfo::default(alloc), None)));
    }
    match pending.get_file_reconstruction_info(alloc, hash)? {
        Some(file) => Ok(Some((file, None))),
        None => find_registered(alloc, disk, registry, hash),
    }
}

/// The file record of a hash in the registered shards, with the hash of the shard that has it.
fn find_registered<D: Disk>(
    alloc: Global,
    disk: &mut D,
    registry: &ShardRegistry,
    hash: &MerkleHash,
) -> Result<Option<(MDBFileInfo, Option<MerkleHash>)>, StoreError>
    ensures found { D.tells disk.old ≡ true → (shards : List Registered) → IsRegistryOf shards registry.now → HoldsFiles (D.files disk.old) shards
        → GivesUnlessDisk (λ answer. answer) result (first_answer (flat_map (λ key. map (answer_of (D.files disk.old) hash.now) (collection key shards)) (keys_of shards))) }
    ensures there { D.tells disk.old ≡ true → (pending : Held) → IfOk result (IsRecorded (D.files disk.old) pending registry.now.files hash.now) }
    ensures frame { Unchanged D.files D.tells D.faults disk.old disk.new }
    ensures reason { IfErr result (IsFileQueryError (D.faults disk.old) (D.faults disk.new)) }
{
    for index in 0..registry.key_count() {
        let answer = find_of_key(alloc, disk, registry, index, hash);
        if !is_none(&answer) {
            return answer;
        }
    }
    Ok(None)
}

/// Whether there is no answer.
fn is_none(answer: &Result<Option<(MDBFileInfo, Option<MerkleHash>)>, StoreError>) -> bool
    ensures none { result ≡ true → answer.now ≡ Ok None }
    ensures other { result ≡ false → answer.now ≡ Ok None → ⊥ }
{
    matches!(answer, Ok(None))
}

/// The file record of a hash in the registered shards of the key with this index.
fn find_of_key<D: Disk>(
    alloc: Global,
    disk: &mut D,
    registry: &ShardRegistry,
    index: usize,
    hash: &MerkleHash,
) -> Result<Option<(MDBFileInfo, Option<MerkleHash>)>, StoreError>
    ensures found { D.tells disk.old ≡ true → (shards : List Registered) (key : List ℕ) → IsRegistryOf shards registry.now → HoldsFiles (D.files disk.old) shards
        → slice_get (keys_of shards) index ≡ Some key → GivesUnlessDisk (λ answer. answer) result (first_answer (map (answer_of (D.files disk.old) hash.now) (collection key shards))) }
    ensures there { D.tells disk.old ≡ true → (pending : Held) → IfOk result (IsRecorded (D.files disk.old) pending registry.now.files hash.now) }
    ensures frame { Unchanged D.files D.tells D.faults disk.old disk.new }
    ensures reason { IfErr result (IsFileQueryError (D.faults disk.old) (D.faults disk.new)) }
{
    for number in registry.members(index) {
        let answer = find_at(alloc, disk, registry.files(), *number, hash);
        if !is_none(&answer) {
            return answer;
        }
    }
    Ok(None)
}

/// The file record of a hash in the registered shard with this number.
fn find_at<D: Disk>(
    alloc: Global,
    disk: &mut D,
    files: &[MDBShardFile],
    number: u32,
    hash: &MerkleHash,
) -> Result<Option<(MDBFileInfo, Option<MerkleHash>)>, StoreError>
    ensures found { D.tells disk.old ≡ true → (shards : List Registered) (s : Registered) → files.now ≡ map (λ t. t.file) shards → HoldsFiles (D.files disk.old) shards → slice_get shards number ≡ Some s
        → GivesUnlessDisk (λ answer. answer) result (answer_of (D.files disk.old) hash.now s) }
    ensures there { D.tells disk.old ≡ true → (pending : Held) → IfOk result (IsRecorded (D.files disk.old) pending files.now hash.now) }
    ensures frame { Unchanged D.files D.tells D.faults disk.old disk.new }
    ensures reason { IfErr result (IsFileQueryError (D.faults disk.old) (D.faults disk.new)) }
{
    let number = number as usize;
    if number < files.len() {
        find_in(alloc, disk, &files[number], hash)
    } else {
        Ok(None)
    }
}

/// The file record of a hash in this shard file, with the hash of the shard.
fn find_in<D: Disk>(
    alloc: Global,
    disk: &mut D,
    file: &MDBShardFile,
    hash: &MerkleHash,
) -> Result<Option<(MDBFileInfo, Option<MerkleHash>)>, StoreError>
    ensures found { D.tells disk.old ≡ true → (s : Registered) → s.file ≡ file.now → HoldsFile (D.files disk.old) s → GivesUnlessDisk (λ answer. answer) result (answer_of (D.files disk.old) hash.now s) }
    ensures there { D.tells disk.old ≡ true → (pending : Held) (files : List MDBShardFile) (number : ℕ) → slice_get files number ≡ Some file.now → IfOk result (IsRecorded (D.files disk.old) pending files hash.now) }
    ensures frame { Unchanged D.files D.tells D.faults disk.old disk.new }
    ensures reason { IfErr result (IsFileQueryError (D.faults disk.old) (D.faults disk.new)) }
{
    queries_are_answered();
    match file.get_file_reconstruction_info(alloc, disk, hash)? {
        Some(found) => Ok(Some((found, Some(file.shard_hash)))),
        None => Ok(None),
    }
}
