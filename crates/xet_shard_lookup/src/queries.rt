//! The run of a query in what is pending and in the registered shards.

ghost use Rattle.std.specs.Prelude.{◌≡◌, ◌∷◌, [], ℕ, List, Ok, None, Some, false, true, IfErr, IfOk, IfSome, map, slice_get};
ghost use Rattle.xet_io.specs.Frame.{Unchanged};
ghost use Rattle.xet_shard_lookup.specs.Found.{HoldsFile, HoldsFiles, IsThere, Run, first_some, found, keyed_run, run_at_place, run_in_file};
ghost use Rattle.xet_shard.specs.Held.{Held};
ghost use Rattle.xet_shard.specs.Queries.{kept_hash};
ghost use Rattle.xet_shard.specs.RunForms.{IsRunFor};
ghost use Rattle.xet_shard.specs.Runs.{held_run};
ghost use Rattle.xet_shard_format.specs.Records.{first_word};
ghost use Rattle.xet_shard_directory.specs.Answers.{GivesUnlessDisk, IsQueryError};
ghost use Rattle.xet_shard_directory.specs.declared.shard_file.MDBShardFile.{MDBShardFile};
ghost use Rattle.xet_shard_registry.specs.Collections.{IsRegistryOf};
ghost use Rattle.xet_shard_registry.specs.Registered.{Registered, keys_of, place_among};

use std::alloc::Global;
use xet_hash::{MerkleHash, StoreError};
use xet_io::Disk;
use xet_shard::laws::{queries_are_answered, rows_of_items_are_heads};
use xet_shard::{FileDataSequenceEntry, MDBInMemoryShard, kept_hash};
use xet_shard_directory::MDBShardFile;
use xet_shard_registry::{ShardRegistry, WordPlace};

/// How many of the first hashes of a query are those of consecutive chunks of a xorb, and the segment of these chunks.
/// What is pending is asked first, then the registered shards, those of one key after those of another: first the
/// shards without a key. Of each key the last chunk is asked that has the first word of the query's first hash, in the
/// last shard that is indexed and has one; it answers if it has the whole hash. A shard whose file is gone does not
/// answer. None if there is no answer, or if the query is empty. `Io(Disk)` if the disk failed; `UnexpectedEof` or
/// `MalformedData` only if the file of a registered shard is not an encoding of it.
pub fn find_run<D: Disk>(
    alloc: Global,
    disk: &mut D,
    pending: &MDBInMemoryShard,
    registry: &ShardRegistry,
    query: &[MerkleHash],
) -> Result<Option<(usize, FileDataSequenceEntry)>, StoreError>
    ensures found { D.tells disk.old ≡ true → (shards : List Registered) → IsRegistryOf shards registry.now → HoldsFiles (D.files disk.old) shards
        → GivesUnlessDisk (λ run. run) result (Ok (found (D.files disk.old) pending.now shards query.now)) }
    // Nothing else is asked for an empty query, or if the run is pending.
    ensures empty { query.now ≡ [] → (result ≡ Ok None) × (disk.new ≡ disk.old) }
    ensures pending { (run : Run) → held_run pending.now.blocks query.now ≡ Some run → (result ≡ Ok (Some run)) × (disk.new ≡ disk.old) }
    // Also over files that are not those of the registered shards: the rows of a file have the whole hashes of the run.
    ensures there { D.tells disk.old ≡ true → IfOk result (IsThere (D.files disk.old) pending.now registry.now.files query.now) }
    ensures shape { IfOk result (λ run. IfSome run (IsRunFor query.now)) }
    ensures frame { Unchanged D.files D.tells D.faults disk.old disk.new }
    ensures reason { IfErr result (IsQueryError (D.faults disk.old) (D.faults disk.new)) }
{
    match pending.chunk_hash_dedup_query(query) {
        Some(run) => Ok(Some(run)),
        None => match query.first() {
            Some(first) => find_registered(alloc, disk, registry, *first, query),
            None => Ok(None),
        },
    }
}

/// The run of a query, which begins with the hash `first`, in the registered shards.
fn find_registered<D: Disk>(
    alloc: Global,
    disk: &mut D,
    registry: &ShardRegistry,
    first: MerkleHash,
    query: &[MerkleHash],
) -> Result<Option<(usize, FileDataSequenceEntry)>, StoreError>
    ensures found { D.tells disk.old ≡ true → (shards : List Registered) → IsRegistryOf shards registry.now → HoldsFiles (D.files disk.old) shards
        → GivesUnlessDisk (λ run. run) result (Ok (first_some (map (keyed_run (D.files disk.old) shards first query.now) (keys_of shards)))) }
    ensures there { D.tells disk.old ≡ true → (pending : Held) → IfOk result (IsThere (D.files disk.old) pending registry.now.files query.now) }
    ensures shape { IfOk result (λ run. IfSome run (IsRunFor query.now)) }
    ensures frame { Unchanged D.files D.tells D.faults disk.old disk.new }
    ensures reason { IfErr result (IsQueryError (D.faults disk.old) (D.faults disk.new)) }
{
    for index in 0..registry.key_count() {
        let answer = find_at(alloc, disk, registry, index, first, query);
        if !is_none(&answer) {
            return answer;
        }
    }
    Ok(None)
}

/// Whether there is no answer.
fn is_none(answer: &Result<Option<(usize, FileDataSequenceEntry)>, StoreError>) -> bool
    ensures none { result ≡ true → answer.now ≡ Ok None }
    ensures other { result ≡ false → answer.now ≡ Ok None → ⊥ }
{
    matches!(answer, Ok(None))
}

/// The run of a query, which begins with the hash `first`, in the registered shards of the key with this index.
fn find_at<D: Disk>(
    alloc: Global,
    disk: &mut D,
    registry: &ShardRegistry,
    index: usize,
    first: MerkleHash,
    query: &[MerkleHash],
) -> Result<Option<(usize, FileDataSequenceEntry)>, StoreError>
    ensures found { D.tells disk.old ≡ true → (shards : List Registered) (key : List ℕ) → IsRegistryOf shards registry.now → HoldsFiles (D.files disk.old) shards
        → slice_get (keys_of shards) index ≡ Some key → GivesUnlessDisk (λ run. run) result (Ok (keyed_run (D.files disk.old) shards first query.now key)) }
    ensures there { D.tells disk.old ≡ true → (pending : Held) → IfOk result (IsThere (D.files disk.old) pending registry.now.files query.now) }
    ensures shape { IfOk result (λ run. IfSome run (IsRunFor query.now)) }
    ensures frame { Unchanged D.files D.tells D.faults disk.old disk.new }
    ensures reason { IfErr result (IsQueryError (D.faults disk.old) (D.faults disk.new)) }
{
    match place_at(registry, index, &first) {
        Some(place) => run_at(alloc, disk, registry, place, query),
        None => Ok(None),
    }
}

/// The place of the first word of a hash in the registered shards of the key with this index.
fn place_at(registry: &ShardRegistry, index: usize, hash: &MerkleHash) -> Option<WordPlace>
    ensures { (shards : List Registered) (key : List ℕ) → IsRegistryOf shards registry.now → slice_get (keys_of shards) index ≡ Some key
        → result ≡ place_among key (first_word (kept_hash key hash.now)) shards }
{
    let key = registry.key(index)?;
    registry.find(index, kept_hash(&key, hash).word(0))
}

/// The run of a query at a place, which is that of a word in the registered shards of a key.
fn run_at<D: Disk>(
    alloc: Global,
    disk: &mut D,
    registry: &ShardRegistry,
    place: WordPlace,
    query: &[MerkleHash],
) -> Result<Option<(usize, FileDataSequenceEntry)>, StoreError>
    ensures found { D.tells disk.old ≡ true → (shards : List Registered) (key : List ℕ) (word : ℕ) → IsRegistryOf shards registry.now → HoldsFiles (D.files disk.old) shards → place_among key word shards ≡ Some place
        → GivesUnlessDisk (λ run. run) result (Ok (run_at_place (D.files disk.old) shards query.now place)) }
    ensures there { D.tells disk.old ≡ true → (pending : Held) → IfOk result (IsThere (D.files disk.old) pending registry.now.files query.now) }
    ensures shape { IfOk result (λ run. IfSome run (IsRunFor query.now)) }
    ensures frame { Unchanged D.files D.tells D.faults disk.old disk.new }
    ensures reason { IfErr result (IsQueryError (D.faults disk.old) (D.faults disk.new)) }
{
    let files = registry.files();
    let number = place.shard as usize;
    if number < files.len() {
        run_in(alloc, disk, &files[number], place, query)
    } else {
        Ok(None)
    }
}

/// The run of a query at a place in this shard file, which is that of an item of the shard's chunk lookup table.
fn run_in<D: Disk>(
    alloc: Global,
    disk: &mut D,
    file: &MDBShardFile,
    place: WordPlace,
    query: &[MerkleHash],
) -> Result<Option<(usize, FileDataSequenceEntry)>, StoreError>
    ensures found { D.tells disk.old ≡ true → (s : Registered) (word item : ℕ) → s.file ≡ file.now → HoldsFile (D.files disk.old) s → slice_get s.items item ≡ Some (word, place.row, place.chunk)
        → GivesUnlessDisk (λ run. run) result (Ok (run_in_file (D.files disk.old) query.now place s)) }
    ensures there { D.tells disk.old ≡ true → (pending : Held) (files : List MDBShardFile) (number : ℕ) → slice_get files number ≡ Some file.now → IfOk result (IsThere (D.files disk.old) pending files query.now) }
    ensures shape { IfOk result (λ run. IfSome run (IsRunFor query.now)) }
    ensures frame { Unchanged D.files D.tells D.faults disk.old disk.new }
    ensures reason { IfErr result (IsQueryError (D.faults disk.old) (D.faults disk.new)) }
{
    queries_are_answered();
    rows_of_items_are_heads();
    file.chunk_hash_dedup_query_in_row(alloc, disk, query, place.row, u32::from(place.chunk))
}
