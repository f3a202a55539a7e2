//! The registered shards, and their collections by key.

ghost use Rattle.std.specs.Prelude.{◌≡◌, ◌≢◌, All, Any, true, ◌+◌, ◌++◌, ◌∷◌, ◌<◌, ◌^◌, ◌-◌, [], ℕ, List, None, Some, IfOk, IfSome, IsOkUnless, OnErr, OnOk, is_some, length, nat_eq, slice_get, false};
ghost use Rattle.std.specs.Cmp.Lexicographic.{pointwise};
ghost use Rattle.std.specs.List.{list_any};
ghost use Rattle.indexmap.specs.IndexMap.{insert_entry, spare as map_spare};
ghost use Rattle.indexmap.specs.IndexSet.{spare};
ghost use Rattle.xet_hash.specs.Merkle.{chunk_hash};
ghost use Rattle.xet_shard_index.specs.Places.{IsIndexOf};
ghost use Rattle.xet_shard_registry.specs.Registered.{Registered, indexed, is_key_of, key_of, keys_of, numbers, place_among, with_shard};
ghost use Rattle.xet_shard_registry.specs.Collections.{AddsTo, IsRegistryOf, StayCollections, words_in};
ghost use Rattle.xet_shard.specs.Union.{ShardRecords};
ghost use Rattle.xet_shard_format.specs.Lookups.{flat_places};

use crate::collections::Collections;
use indexmap::{IndexMap, IndexSet};
use std::alloc::Global;
use std::marker::Model;
use xet_hash::{HMACKey, MerkleHash, StoreError, compute_data_hash};
use xet_shard_directory::MDBShardFile;
use xet_shard_index::{PackedIndex, WordPlace};

/// Registered shards in order of registration, each hash once, and where their chunks are. Contracts relate it to the
/// list of registered shards with their xorbs and files, which it does not keep.
#[derive(Drop)]
pub struct ShardRegistry {
    /// The values of their files, in order of registration.
    files: Vec<MDBShardFile>,
    /// One for each key; that of the shards without a key is the first.
    collections: Collections,
    /// The number of different words in the indexes, counted for each and summed.
    words: u64,
    /// The hashes of the shards.
    hashes: IndexSet<MerkleHash>,
    /// For the digest of each path the number of the last shard that was registered with such a path.
    paths: IndexMap<MerkleHash, u32>,
    /// The uncompressed bytes of the files of all shards, and of their chunks, as the footers state them.
    materialized: u64,
    stored: u64,
}

impl Model for ShardRegistry {
    ghost use Rattle.xet_shard_registry.specs.Collections.{Tables};
    ghost use Rattle.xet_shard_registry.specs.Paths.{HavePaths};

    ghost Value = { Tables };

    ghost view = { λ s. record { files = s.files.items; collections = s.collections; words = s.words; hashes = s.hashes.keys; materialized = s.materialized; stored = s.stored } };

    ghost invariant = { λ s. HavePaths s.files.items s.paths.entries };
}

impl ShardRegistry {
    /// A registry without shards. The only error is `StoreError::OutOfMemory`.
    pub fn new(alloc: Global) -> Result<ShardRegistry, StoreError>
        ensures empty { IfOk result (IsRegistryOf []) }
        ensures memory { IsOkUnless result StoreError.OutOfMemory }
    {
        let collections = Collections::new(alloc)?;
        Ok(ShardRegistry {
            files: Vec::new(alloc),
            collections,
            words: 0,
            hashes: IndexSet::new(alloc),
            paths: IndexMap::new(alloc),
            materialized: 0,
            stored: 0,
        })
    }

    /// Registers a shard after the others, with the items of its chunk lookup table: for each chunk the first word of its
    /// hash, the row of its xorb, and its index in the xorb. Its chunks enter the index of its key if the indexes of all
    /// keys have fewer words than `cap`. The caller ensures that its hash is not registered, and that fewer than 2^32
    /// shards are. The only error is `StoreError::OutOfMemory`; the same shards are registered then.
    pub fn register(
        &mut self,
        alloc: Global,
        file: MDBShardFile,
        items: &[(u64, (u32, u32))],
        cap: u64,
    ) -> Result<(), StoreError>
        requires few { length self.old.files < 2 ^ 32 }
        requires new { list_any (pointwise nat_eq file.shard_hash) self.old.hashes ≡ false }
        ensures registered { OnOk result ((shards : List Registered) (records : ShardRecords) → IsRegistryOf shards self.old → IsRegistryOf (with_shard cap shards file (flat_places items.now) records) self.new) }
        ensures files { OnOk result (self.new.files ≡ self.old.files ++ file ∷ []) }
        ensures hashes { OnOk result (self.new.hashes ≡ self.old.hashes ++ file.shard_hash ∷ []) }
        ensures kept { OnErr result ((shards : List Registered) → IsRegistryOf shards self.old → IsRegistryOf shards self.new) }
        ensures same { OnErr result ((self.new.files ≡ self.old.files) × (self.new.hashes ≡ self.old.hashes)) }
        ensures memory { IsOkUnless result StoreError.OutOfMemory }
    {
        let enters = self.words < cap;
        let number = self.files.len() as u32;
        let hash = file.shard_hash;
        let path = digest_of(file.path.as_str());
        let materialized = file.shard.metadata.materialized_bytes;
        let stored = file.shard.metadata.stored_bytes;
        self.hashes.reserve(1)?;
        self.paths.reserve(1)?;
        let added = put(
            &mut self.files,
            &mut self.collections,
            alloc,
            file,
            items,
            number,
            enters,
        )?;
        self.words = self.words.saturating_add(added);
        self.materialized = self.materialized.saturating_add(materialized);
        self.stored = self.stored.saturating_add(stored);
        insert_hash(&mut self.hashes, hash);
        insert_path(&mut self.paths, path, number);
        Ok(())
    }

    /// Takes the memory that the next `register` needs for a shard with this key, or without one if it is zero, with these
    /// items and this `cap`, so that it then allocates nothing; that is by the code. The only error is
    /// `StoreError::OutOfMemory`. The same shards are registered in either case.
    pub fn reserve(
        &mut self,
        key: &HMACKey,
        items: &[(u64, (u32, u32))],
        cap: u64,
    ) -> Result<(), StoreError>
        ensures kept { (shards : List Registered) → IsRegistryOf shards self.old → IsRegistryOf shards self.new }
        ensures files { self.new.files ≡ self.old.files }
        ensures hashes { self.new.hashes ≡ self.old.hashes }
        ensures memory { IsOkUnless result StoreError.OutOfMemory }
    {
        self.hashes.reserve(1)?;
        self.paths.reserve(1)?;
        self.files.reserve(1)?;
        let enters = self.words < cap;
        self.collections.reserve(key, enters, items)
    }

    /// The values of the files, in order of registration.
    pub fn files(&self) -> &[MDBShardFile]
        ensures { result.now ≡ self.now.files }
    {
        &self.files
    }

    /// The number of keys, with that of the shards without one.
    pub fn key_count(&self) -> usize
        ensures { (shards : List Registered) → IsRegistryOf shards self.now → result ≡ length (keys_of shards) }
    {
        self.collections.len()
    }

    /// The key with an index, in their order: zero for the shards without one, and then the keys of the registered shards
    /// in order of first occurrence.
    pub fn key(&self, index: usize) -> Option<HMACKey>
        ensures { (shards : List Registered) → IsRegistryOf shards self.now → result ≡ slice_get (keys_of shards) index }
    {
        let collection = self.collections.get(index)?;
        Some(collection.key)
    }

    /// The place of a word in the shards of the key with an index: where the last chunk with it is in the last of them
    /// that entered and has one. The shard has its number in order of registration. None if there is no such key.
    pub fn find(&self, index: usize, word: u64) -> Option<WordPlace>
        ensures place { (shards : List Registered) (key : List ℕ) → IsRegistryOf shards self.now → slice_get (keys_of shards) index ≡ Some key → result ≡ place_among key word shards }
        ensures none { (shards : List Registered) → IsRegistryOf shards self.now → slice_get (keys_of shards) index ≡ None → result ≡ None }
    {
        let collection = self.collections.get(index)?;
        collection.find(word)
    }

    /// The index of the shards with a key, or of those without one if it is zero: the place of a word is that of the last
    /// chunk with it in the last of these shards that entered and has one, and a shard has its number among them. None if
    /// and only if the key is not zero and no registered shard has it.
    pub fn index(&self, key: &HMACKey) -> Option<&PackedIndex>
        ensures index { (shards : List Registered) → IsRegistryOf shards self.now → IfSome result (λ index. IsIndexOf index.now (indexed key.now shards)) }
        ensures exact { (shards : List Registered) → IsRegistryOf shards self.now → is_some result ≡ is_key_of key.now shards }
    {
        let collection = self.collections.of_key(key)?;
        Some(&collection.index)
    }

    /// The numbers of the shards of the key with an index, in order of registration; none if there is no such key.
    pub fn members(&self, index: usize) -> &[u32]
        ensures members { (shards : List Registered) (key : List ℕ) → IsRegistryOf shards self.now → slice_get (keys_of shards) index ≡ Some key → result.now ≡ numbers key shards }
        ensures none { (shards : List Registered) → IsRegistryOf shards self.now → slice_get (keys_of shards) index ≡ None → result.now ≡ [] }
    {
        match self.collections.get(index) {
            Some(collection) => collection.members.as_slice(),
            None => &[],
        }
    }

    /// The uncompressed bytes of the files of all shards, as the footers state them, and at most 2^64 - 1.
    pub fn materialized_bytes(&self) -> u64
        ensures { result ≡ self.now.materialized }
    {
        self.materialized
    }

    /// The uncompressed bytes of the chunks of all shards, as the footers state them, and at most 2^64 - 1.
    pub fn stored_bytes(&self) -> u64
        ensures { result ≡ self.now.stored }
    {
        self.stored
    }

    /// Whether a shard with this hash is registered.
    pub fn contains(&self, hash: &MerkleHash) -> bool
        ensures { result ≡ list_any (pointwise nat_eq hash.now) self.now.hashes }
    {
        self.hashes.contains(hash)
    }

    /// Whether a registered shard has this path. Its digest has the number of one shard, which is compared; all are walked
    /// only if that one has another path. What is walked is by the code.
    pub fn has_path(&self, path: &str) -> bool
        ensures some { result ≡ true → Any (λ s. s.path ≡ path.now) self.now.files }
        ensures none { result ≡ false → All (λ s. s.path ≢ path.now) self.now.files }
    {
        match self.paths.get(&digest_of(path)) {
            Some(number) => has_at(&self.files, *number, path) || is_path_of(path, &self.files),
            None => false,
        }
    }
}

/// The digest of a path.
fn digest_of(path: &str) -> MerkleHash
    ensures { result ≡ chunk_hash path.now }
{
    compute_data_hash(path.as_bytes())
}

/// Whether the shard file with this number has this path.
fn has_at(files: &[MDBShardFile], number: u32, path: &str) -> bool
    ensures { result ≡ true → Any (λ s. s.path ≡ path.now) files.now }
{
    match files.get(number as usize) {
        Some(file) => file.path.as_str() == path,
        None => false,
    }
}

/// Whether one of these shard files has this path.
fn is_path_of(path: &str, files: &[MDBShardFile]) -> bool
    ensures some { result ≡ true → Any (λ s. s.path ≡ path.now) files.now }
    ensures none { result ≡ false → All (λ s. s.path ≢ path.now) files.now }
{
    for file in files {
        if file.path.as_str() == path {
            return true;
        }
    }
    false
}

/// Inserts a hash for which there is room.
fn insert_hash(hashes: &mut IndexSet<MerkleHash>, hash: MerkleHash)
    requires room { 0 < spare hashes.old }
    requires new { list_any (pointwise nat_eq hash) hashes.old.keys ≡ false }
    ensures { hashes.new.keys ≡ hashes.old.keys ++ hash ∷ [] }
{
    let _inserted = hashes.insert(hash);
}

/// Notes the number of a shard under the digest of its path, for which there is room.
fn insert_path(paths: &mut IndexMap<MerkleHash, u32>, path: MerkleHash, number: u32)
    requires room { 0 < map_spare paths.old }
    ensures { paths.new.entries ≡ insert_entry (pointwise nat_eq) paths.old.entries path number }
{
    let _inserted = paths.insert(path, number);
}

/// Adds the value of a shard's file after the others, and the shard, which has this number, to the collection of its key.
/// Returns the number of words that are new.
fn put(
    files: &mut Vec<MDBShardFile>,
    collections: &mut Collections,
    alloc: Global,
    file: MDBShardFile,
    items: &[(u64, (u32, u32))],
    number: u32,
    enters: bool,
) -> Result<u64, StoreError>
    requires number { number ≡ length files.old.items }
    ensures added { OnOk result ((s : Registered) → s.file ≡ file → enters ≡ s.entered → flat_places items.now ≡ s.items → AddsTo collections.old collections.new (length files.old.items) s) }
    ensures files { OnOk result (files.new.items ≡ files.old.items ++ file ∷ []) }
    ensures count { IfOk result (λ added. words_in collections.new ≡ words_in collections.old + added) }
    ensures kept { OnErr result (files.new.items ≡ files.old.items) }
    ensures stay { OnErr result (StayCollections collections.old collections.new) }
    ensures words { OnErr result (words_in collections.new ≡ words_in collections.old) }
    ensures memory { IsOkUnless result StoreError.OutOfMemory }
{
    files.reserve(1)?;
    let key = key_of(&file);
    let added = collections.add(alloc, key, number, enters, items)?;
    match files.push(file) {
        Ok(()) => Ok(added),
        Err(failed) => Err(failed.into()),
    }
}

/// The key of a shard's chunk hashes.
fn key_of(file: &MDBShardFile) -> HMACKey
    ensures { result ≡ file.now.shard.metadata.chunk_hash_hmac_key }
{
    file.shard.metadata.chunk_hash_hmac_key
}
