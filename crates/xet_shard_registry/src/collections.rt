//! The collections of the registered shards by key.

ghost use Rattle.std.specs.Prelude.{◌≡◌, ◌<◌, ◌+◌, ◌++◌, ◌∷◌, [], ℕ, false, IfNone, IfOk, IfSome, IsOkUnless, OnErr, OnOk, length, map, nat_eq, option_copied, slice_get};
ghost use Rattle.std.specs.Cmp.Lexicographic.{pointwise};
ghost use Rattle.std.specs.List.{list_any};
ghost use Rattle.indexmap.specs.IndexSet.{spare};
ghost use Rattle.xet_shard_format.specs.Lookups.{flat_places};
ghost use Rattle.xet_shard_registry.specs.Collections.{AddsTo, AreCollectionsOf, IsKeyless, StayCollections, words_in};
ghost use Rattle.xet_shard_registry.specs.Registered.{Registered, key_of};
ghost use Rattle.xet_shard_registry.specs.declared.collection.Collection.{Collection};

use crate::collection::Collection;
use indexmap::IndexSet;
use std::alloc::Global;
use std::marker::Model;
use std::mem;
use xet_hash::{HMACKey, StoreError};

/// The collections of the registered shards, one for each key; that of the shards without a key is the first. Contracts see
/// them as a list.
#[derive(Drop)]
pub(crate) struct Collections {
    list: Vec<Collection>,
    /// Their keys, in the same order.
    keys: IndexSet<HMACKey>,
    /// The empty collection that the next new key will use. `reserve` takes its memory ahead.
    next: Collection,
}

impl Model for Collections {
    ghost use Rattle.std.specs.Prelude.{◌≡◌, List, map};
    ghost use Rattle.xet_shard_registry.specs.Collections.{IsNewCollection};
    ghost use Rattle.xet_shard_registry.specs.declared.collection.Collection.{Collection};

    ghost Value = { List Collection };

    ghost view = { λ c. c.list.items };

    ghost invariant = { λ c. (c.keys.keys ≡ map (λ d. d.key) c.list.items) × IsNewCollection c.next };
}

impl Collections {
    /// The collections where no shard is registered. The only error is `StoreError::OutOfMemory`.
    pub(crate) fn new(alloc: Global) -> Result<Collections, StoreError>
        ensures empty { IfOk result (AreCollectionsOf []) }
        ensures words { IfOk result (λ collections. words_in collections ≡ 0) }
        ensures memory { IsOkUnless result StoreError.OutOfMemory }
    {
        let key = HMACKey::default();
        let mut list = Vec::new(alloc);
        list.push(Collection::new(alloc, key))?;
        let mut keys = IndexSet::new(alloc);
        keys.insert(key)?;
        Ok(Collections {
            list,
            keys,
            next: Collection::new(alloc, key),
        })
    }

    /// The number of keys.
    pub(crate) fn len(&self) -> usize
        ensures { result ≡ length self.now }
    {
        self.list.len()
    }

    /// The collection of the key with this index.
    pub(crate) fn get(&self, index: usize) -> Option<&Collection>
        ensures { option_copied result ≡ slice_get self.now index }
    {
        self.list.get(index)
    }

    /// The collection of a key.
    pub(crate) fn of_key(&self, key: &HMACKey) -> Option<&Collection>
        ensures some { IfSome result (λ c. (at : ℕ) × (slice_get self.now at ≡ Some c.now) × (c.now.key ≡ key.now)) }
        ensures none { IfNone result (IsKeyless key.now (map (λ c. c.key) self.now)) }
    {
        let at = self.find(key)?;
        self.list.get(at)
    }

    /// Adds the shard with this number to the collection of its key, which may be a new one. Its chunks enter the index, if
    /// they are to. Returns the number of words that are new. The only error is `StoreError::OutOfMemory`.
    pub(crate) fn add(
        &mut self,
        alloc: Global,
        key: HMACKey,
        number: u32,
        enters: bool,
        items: &[(u64, (u32, u32))],
    ) -> Result<u64, StoreError>
        ensures added { OnOk result ((s : Registered) → key ≡ key_of s → enters ≡ s.entered → flat_places items.now ≡ s.items → AddsTo self.old self.new number s) }
        ensures count { IfOk result (λ added. words_in self.new ≡ words_in self.old + added) }
        ensures kept { OnErr result (StayCollections self.old self.new) }
        ensures words { OnErr result (words_in self.new ≡ words_in self.old) }
        ensures memory { IsOkUnless result StoreError.OutOfMemory }
    {
        match self.find(&key) {
            Some(at) => self.list[at].add(number, enters, items),
            None => self.add_key(alloc, key, number, enters, items),
        }
    }

    /// Takes the memory for adding a shard with this key and these items next.
    pub(crate) fn reserve(
        &mut self,
        key: &HMACKey,
        enters: bool,
        items: &[(u64, (u32, u32))],
    ) -> Result<(), StoreError>
        ensures stay { StayCollections self.old self.new }
        ensures words { words_in self.new ≡ words_in self.old }
        ensures memory { IsOkUnless result StoreError.OutOfMemory }
    {
        match self.find(key) {
            Some(at) => self.list[at].reserve(enters, items),
            None => self.reserve_key(enters, items),
        }
    }

    /// The index of the collection of a key.
    fn find(&self, key: &HMACKey) -> Option<usize>
        ensures within { IfSome result (λ at. at < length self.now) }
        ensures found { IfSome result (λ at. (c : Collection) → slice_get self.now at ≡ Some c → c.key ≡ key.now) }
        ensures absent { IfNone result (IsKeyless key.now (map (λ c. c.key) self.now)) }
    {
        self.keys.get_index_of(key)
    }

    /// Adds a collection that has only the shard with this number.
    fn add_key(
        &mut self,
        alloc: Global,
        key: HMACKey,
        number: u32,
        enters: bool,
        items: &[(u64, (u32, u32))],
    ) -> Result<u64, StoreError>
        requires absent { IsKeyless key (map (λ c. c.key) self.old) }
        ensures added { OnOk result ((s : Registered) → key ≡ key_of s → enters ≡ s.entered → flat_places items.now ≡ s.items → AddsTo self.old self.new number s) }
        ensures count { IfOk result (λ added. words_in self.new ≡ words_in self.old + added) }
        ensures kept { OnErr result (self.new ≡ self.old) }
        ensures memory { IsOkUnless result StoreError.OutOfMemory }
    {
        self.keys.reserve(1)?;
        let mut collection = mem::replace(&mut self.next, Collection::new(alloc, key));
        collection.key = key;
        let added = collection.add(number, enters, items)?;
        self.list.push(collection)?;
        insert_key(&mut self.keys, key);
        Ok(added)
    }

    /// Takes the memory for a shard whose key has no collection.
    fn reserve_key(&mut self, enters: bool, items: &[(u64, (u32, u32))]) -> Result<(), StoreError>
        ensures same { self.new ≡ self.old }
        ensures memory { IsOkUnless result StoreError.OutOfMemory }
    {
        self.list.reserve(1)?;
        self.keys.reserve(1)?;
        self.next.reserve(enters, items)
    }
}

/// Inserts a key for which there is room.
fn insert_key(keys: &mut IndexSet<HMACKey>, key: HMACKey)
    requires room { 0 < spare keys.old }
    requires new { list_any (pointwise nat_eq key) keys.old.keys ≡ false }
    ensures { keys.new.keys ≡ keys.old.keys ++ key ∷ [] }
{
    let _inserted = keys.insert(key);
}
