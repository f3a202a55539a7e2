//! Queries over registered shards, which are first registered in an index from their files.

ghost use Rattle.std.specs.Prelude.{◌≡◌, ◌≢◌, ◌≤◌, ◌↔◌, ◌+◌, ◌<◌, ◌^◌, [], ℕ, List, None, Ok, Some, IfErr, IfOk, IfSome, IsTrue, OnErr, OnOk, false, length, nat_eq, slice_get, true};
ghost use Rattle.std.specs.Cmp.Lexicographic.{pointwise};
ghost use Rattle.std.specs.List.{list_any};
ghost use Rattle.xet_folder.specs.Plan.{LiesIn};
ghost use Rattle.xet_folder.specs.Xorbs.{IsListed};
ghost use Rattle.xet_hash.specs.Hash.{sentinel};
ghost use Rattle.xet_hash.specs.Merkle.{total_len};
ghost use Rattle.xet_history.specs.Sound.{IsListedRun, IsUsableRun};
ghost use Rattle.xet_io.specs.Frame.{Unchanged};
ghost use Rattle.xet_shard.specs.Runs.{held_run};
ghost use Rattle.xet_shard_directory.specs.Answers.{IsReadError};
ghost use Rattle.xet_shard_directory.specs.Values.{last_part};
ghost use Rattle.xet_shard_file.specs.Names.{IsHash, shard_path};
ghost use Rattle.xet_shard_format.specs.Names.{shard_name};
ghost use Rattle.xet_shard_lookup.specs.Found.{HoldsFiles, Run, found};
ghost use Rattle.xet_shard_registry.specs.Collections.{IsRegistryOf};
ghost use Rattle.xet_shard_registry.specs.Registered.{Registered};
ghost use Rattle.xet_store_disk.specs.Asking.{AreOwnShards, IsAskingError, RegistersShard};
ghost use Rattle.xet_store_disk.specs.Ranges.{IsUnchanged};
ghost use Rattle.xet_store_disk.specs.internal.Asking.{AddsFile, AddsLoaded, FailsReading, FindsListed, IsEncoded, IsPlainRun, asking_error};

use crate::store::Store;
use indexmap::IndexMap;
use std::alloc::Global;
use xet_folder::{Leaves, lies_in};
use xet_hash::{MerkleHash, Place, Reason, StoreError};
use xet_io::Disk;
use xet_shard::MDBInMemoryShard;
use xet_shard::laws::parts_are_read;
use xet_shard_directory::MDBShardFile;
use xet_shard_file::{recall_bytes, shard_path};
use xet_shard_format::FileDataSequenceEntry;
use xet_shard_lookup::find_run;
use xet_shard_registry::ShardRegistry;

impl<D: Disk> Store<D> {
    /// Adds the registered shard with this number, counted from 0 in order of registration, to an index of registered
    /// shards, from its file. The caller ensures that its hash is not in the index, and that fewer than 2^32 shards are.
    /// `Io(Disk)` is returned only if the disk failed, `MalformedData` only on a disk that is not observable. Any other
    /// error is `OutOfMemory`. After an error the same shards are in the index.
    pub fn register_shard(
        &mut self,
        registry: &mut ShardRegistry,
        number: usize,
    ) -> Result<(), StoreError>
        requires number { number < length self.old.shards }
        requires few { length registry.old.files < 2 ^ 32 }
        requires new { (h : List ℕ) → slice_get self.old.shards number ≡ Some h → list_any (pointwise nat_eq h) registry.old.hashes ≡ false }
        ensures registered { OnOk result (RegistersShard self.old number registry.old registry.new) }
        ensures kept { OnErr result ((shards : List Registered) → IsRegistryOf shards registry.old → IsRegistryOf shards registry.new) }
        ensures same { OnErr result ((registry.new.files ≡ registry.old.files) × (registry.new.hashes ≡ registry.old.hashes)) }
        ensures refused { IfErr result (IsAskingError self.old.tells self.old.faults self.new.faults) }
        ensures unchanged { IsUnchanged self.old self.new }
    {
        parts_are_read();
        let hash = shard_at(&self.shards, number);
        let cap = self.limits.index_cap();
        let folder = self.folder.as_str();
        register_file(&mut self.disk, self.alloc, folder, &hash, registry, cap)
    }

    /// How many of the first hashes of a query are those of consecutive chunks of a xorb, and the segment of these chunks:
    /// in what is pending, or else in an index of registered shards. The segment lies in a listed xorb, and may stand in a
    /// plan. None if there is no answer, or if the query is empty. `Io(Disk)` is returned only if the disk failed,
    /// `MalformedData` only on a disk that is not observable, if the shards are the store's. Any other error is `OutOfMemory`.
    pub fn find_run(
        &mut self,
        registry: &ShardRegistry,
        query: &[MerkleHash],
    ) -> Result<Option<(usize, FileDataSequenceEntry)>, StoreError>
        ensures found { self.old.tells ≡ true → (shards : List Registered) → IsRegistryOf shards registry.now → AreOwnShards self.old shards
            → IfOk result (λ run. run ≡ found self.old.files self.old.pending shards query.now) }
        ensures lies { IfOk result (λ run. IfSome run (IsUsableRun self.old.xorbs query.now)) }
        // Nothing else is asked for an empty query, or if the run is pending.
        ensures empty { query.now ≡ [] → (result ≡ Ok None) × (self.new ≡ self.old) }
        ensures pending { (run : Run) → held_run self.old.pending.blocks query.now ≡ Some run → (result ≡ Ok (Some run)) × (self.new ≡ self.old) }
        ensures refused { (shards : List Registered) → IsRegistryOf shards registry.now → (self.old.tells ≡ true → AreOwnShards self.old shards)
            → IfErr result (IsAskingError self.old.tells self.old.faults self.new.faults) }
        ensures unchanged { IsUnchanged self.old self.new }
    {
        find_listed(
            &mut self.disk,
            self.alloc,
            &self.pending,
            registry,
            &self.xorbs,
            query,
        )
    }
}

/// The hash with this number.
fn shard_at(shards: &[MerkleHash], number: usize) -> MerkleHash
    requires { number < length shards.now }
    ensures { slice_get shards.now number ≡ Some result }
{
    shards[number]
}

/// Adds the shard file with this hash in a folder to an index.
fn register_file<D: Disk>(
    disk: &mut D,
    alloc: Global,
    folder: &str,
    hash: &MerkleHash,
    registry: &mut ShardRegistry,
    cap: u64,
) -> Result<(), StoreError>
    requires few { length registry.old.files < 2 ^ 32 }
    requires new { list_any (pointwise nat_eq hash.now) registry.old.hashes ≡ false }
    ensures registered { OnOk result (AddsFile cap (D.tells disk.old) (D.files disk.old) hash.now (shard_path folder.now hash.now) registry.old registry.new) }
    ensures kept { OnErr result ((shards : List Registered) → IsRegistryOf shards registry.old → IsRegistryOf shards registry.new) }
    ensures same { OnErr result ((registry.new.files ≡ registry.old.files) × (registry.new.hashes ≡ registry.old.hashes)) }
    ensures refused { (D.tells disk.old ≡ true → IsEncoded (D.files disk.old) (shard_path folder.now hash.now)) → IfErr result (IsAskingError (D.tells disk.old) (D.faults disk.old) (D.faults disk.new)) }
    ensures frame { Unchanged D.files D.tells D.faults disk.old disk.new }
{
    match shard_path(alloc, folder, hash) {
        Ok(path) => register_at(disk, alloc, path.as_str(), hash, registry, cap),
        Err(error) => Err(error),
    }
}

/// Adds the shard file at a path, whose name has this hash, to an index.
fn register_at<D: Disk>(
    disk: &mut D,
    alloc: Global,
    path: &str,
    hash: &MerkleHash,
    registry: &mut ShardRegistry,
    cap: u64,
) -> Result<(), StoreError>
    requires named { last_part path.now ≡ shard_name hash.now }
    requires few { length registry.old.files < 2 ^ 32 }
    requires new { list_any (pointwise nat_eq hash.now) registry.old.hashes ≡ false }
    ensures registered { OnOk result (AddsFile cap (D.tells disk.old) (D.files disk.old) hash.now path.now registry.old registry.new) }
    ensures kept { OnErr result ((shards : List Registered) → IsRegistryOf shards registry.old → IsRegistryOf shards registry.new) }
    ensures same { OnErr result ((registry.new.files ≡ registry.old.files) × (registry.new.hashes ≡ registry.old.hashes)) }
    ensures refused { (D.tells disk.old ≡ true → IsEncoded (D.files disk.old) path.now) → IfErr result (IsAskingError (D.tells disk.old) (D.faults disk.old) (D.faults disk.new)) }
    ensures frame { Unchanged D.files D.tells D.faults disk.old disk.new }
{
    recall_bytes(hash);
    match register_named(disk, alloc, path, hash, registry, cap) {
        Ok(()) => Ok(()),
        Err(error) => Err(asking_error(error)),
    }
}

/// The error of a call of this store, for one of a call that reads a shard file.
fn asking_error(error: StoreError) -> StoreError
    ensures { result ≡ asking_error error }
{
    match error {
        StoreError::Io(Place::Disk) | StoreError::OutOfMemory => error,
        _ => StoreError::MalformedData(Reason::ShardHash),
    }
}

/// The same, with the error of the call that failed.
fn register_named<D: Disk>(
    disk: &mut D,
    alloc: Global,
    path: &str,
    hash: &MerkleHash,
    registry: &mut ShardRegistry,
    cap: u64,
) -> Result<(), StoreError>
    requires hash { IsHash hash.now }
    requires named { last_part path.now ≡ shard_name hash.now }
    requires few { length registry.old.files < 2 ^ 32 }
    requires new { list_any (pointwise nat_eq hash.now) registry.old.hashes ≡ false }
    ensures registered { OnOk result (AddsFile cap (D.tells disk.old) (D.files disk.old) hash.now path.now registry.old registry.new) }
    ensures kept { OnErr result ((shards : List Registered) → IsRegistryOf shards registry.old → IsRegistryOf shards registry.new) }
    ensures same { OnErr result ((registry.new.files ≡ registry.old.files) × (registry.new.hashes ≡ registry.old.hashes)) }
    ensures refused { (D.tells disk.old ≡ true → IsEncoded (D.files disk.old) path.now) → IfErr result (λ e. IsAskingError (D.tells disk.old) (D.faults disk.old) (D.faults disk.new) (asking_error e)) }
    ensures frame { Unchanged D.files D.tells D.faults disk.old disk.new }
{
    parts_are_read();
    match MDBShardFile::load_from_file(alloc, disk, path) {
        Ok(file) => register_loaded(disk, alloc, file, registry, cap),
        Err(error) => Err(error),
    }
}

/// Adds a shard file to an index, with the items of its chunk lookup table.
fn register_loaded<D: Disk>(
    disk: &mut D,
    alloc: Global,
    file: MDBShardFile,
    registry: &mut ShardRegistry,
    cap: u64,
) -> Result<(), StoreError>
    requires few { length registry.old.files < 2 ^ 32 }
    requires new { list_any (pointwise nat_eq file.shard_hash) registry.old.hashes ≡ false }
    ensures registered { OnOk result (AddsLoaded cap (D.tells disk.old) (D.files disk.old) file registry.old registry.new) }
    ensures kept { OnErr result ((shards : List Registered) → IsRegistryOf shards registry.old → IsRegistryOf shards registry.new) }
    ensures same { OnErr result ((registry.new.files ≡ registry.old.files) × (registry.new.hashes ≡ registry.old.hashes)) }
    ensures refused { D.tells disk.old ≡ true → IfErr result (FailsReading (D.files disk.old) file) }
    ensures reason { IfErr result (IsReadError (D.faults disk.old) (D.faults disk.new)) }
    ensures frame { Unchanged D.files D.tells D.faults disk.old disk.new }
{
    match file.read_all_truncated_hashes(alloc, disk) {
        Ok(items) => registry.register(alloc, file, &items, cap),
        Err(error) => Err(error),
    }
}

/// The run of a query in what is pending, or else in an index of registered shards. Its segment lies in a listed xorb, and may
/// stand in a plan.
fn find_listed<D: Disk>(
    disk: &mut D,
    alloc: Global,
    pending: &MDBInMemoryShard,
    registry: &ShardRegistry,
    xorbs: &IndexMap<MerkleHash, Leaves>,
    query: &[MerkleHash],
) -> Result<Option<(usize, FileDataSequenceEntry)>, StoreError>
    ensures found { D.tells disk.old ≡ true → (shards : List Registered) → IsRegistryOf shards registry.now → HoldsFiles (D.files disk.old) shards
        → IfOk result (λ run. run ≡ found (D.files disk.old) pending.now shards query.now) }
    ensures lies { IfOk result (λ run. IfSome run (IsUsableRun xorbs.now.entries query.now)) }
    ensures empty { query.now ≡ [] → (result ≡ Ok None) × (disk.new ≡ disk.old) }
    ensures pending { (run : Run) → held_run pending.now.blocks query.now ≡ Some run → IsPlainRun xorbs.now.entries query.now run → (result ≡ Ok (Some run)) × (disk.new ≡ disk.old) }
    ensures refused { (shards : List Registered) → IsRegistryOf shards registry.now → (D.tells disk.old ≡ true → FindsListed (D.files disk.old) pending.now shards xorbs.now.entries query.now)
        → IfErr result (IsAskingError (D.tells disk.old) (D.faults disk.old) (D.faults disk.new)) }
    ensures frame { Unchanged D.files D.tells D.faults disk.old disk.new }
{
    match find_run(alloc, disk, pending, registry, query) {
        Ok(None) => Ok(None),
        Ok(Some((count, segment))) => if_usable(xorbs, query, count, segment),
        Err(error) => Err(asking_error(error)),
    }
}

/// A run that was found, if it may stand in a plan.
fn if_usable(
    xorbs: &IndexMap<MerkleHash, Leaves>,
    query: &[MerkleHash],
    count: usize,
    segment: FileDataSequenceEntry,
) -> Result<Option<(usize, FileDataSequenceEntry)>, StoreError>
    ensures lies { IfOk result (λ run. IfSome run (IsUsableRun xorbs.now.entries query.now)) }
    ensures same { IfOk result (λ run. run ≡ Some (count, segment)) }
    ensures refused { IfErr result (λ e. (e ≡ StoreError.MalformedData Reason.MissingRun) × (IsPlainRun xorbs.now.entries query.now (count, segment) → ⊥)) }
{
    if is_usable(xorbs, query, count, &segment) {
        Ok(Some((count, segment)))
    } else {
        Err(StoreError::MalformedData(Reason::MissingRun))
    }
}

/// Whether a run that was found may stand in a plan.
fn is_usable(
    xorbs: &IndexMap<MerkleHash, Leaves>,
    query: &[MerkleHash],
    count: usize,
    segment: &FileDataSequenceEntry,
) -> bool
    ensures usable { IsTrue result → IsUsableRun xorbs.now.entries query.now (count, segment.now) }
    ensures plain { IsPlainRun xorbs.now.entries query.now (count, segment.now) → IsTrue result }
{
    is_plain(query, count, segment) && is_listed(xorbs, count, segment)
}

/// Whether a query has so many hashes, and a segment no flags, and its xorb's hash is not the sentinel.
fn is_plain(query: &[MerkleHash], count: usize, segment: &FileDataSequenceEntry) -> bool
    ensures { IsTrue result ↔ (count ≤ length query.now) × (segment.now.xorb_flags ≡ 0) × (segment.now.xorb_hash ≢ sentinel) }
{
    count <= query.len() && segment.xorb_flags == 0 && segment.xorb_hash != MerkleHash::marker()
}

/// Whether a segment lies in its xorb, as that is listed, and names so many chunks. A listed xorb has fewer than 2^32 bytes.
fn is_listed(
    xorbs: &IndexMap<MerkleHash, Leaves>,
    count: usize,
    segment: &FileDataSequenceEntry,
) -> bool
    ensures listed { IsTrue result ↔ IsListedRun xorbs.now.entries (count, segment.now) }
    ensures small { (leaves : List (List ℕ × ℕ)) → IsListed xorbs.now.entries segment.now.xorb_hash leaves → total_len leaves < 2 ^ 32 }
{
    match xorbs.get(&segment.xorb_hash) {
        Some(leaves) => is_run_of(segment, count, leaves),
        None => false,
    }
}

/// Whether a segment lies in a xorb of these chunks, and names so many. They have fewer than 2^32 bytes.
fn is_run_of(segment: &FileDataSequenceEntry, count: usize, leaves: &Leaves) -> bool
    ensures lies { IsTrue result ↔ (segment.now.chunk_index_end ≡ segment.now.chunk_index_start + count) × LiesIn (λ m. m.1) segment.now leaves.now }
    ensures small { total_len leaves.now < 2 ^ 32 }
{
    let _bytes = leaves.end(leaves.len());
    has_count(segment, count) && lies_in(segment, leaves)
}

/// Whether a segment names so many chunks.
fn has_count(segment: &FileDataSequenceEntry, count: usize) -> bool
    ensures { IsTrue result ↔ (segment.now.chunk_index_end ≡ segment.now.chunk_index_start + count) }
{
    let start = segment.chunk_index_start as usize;
    let end = segment.chunk_index_end as usize;
    start <= end && end - start == count
}
