//! The registered shards of one key, and their index.

ghost use Rattle.std.specs.Prelude.{◌≡◌, ◌+◌, ◌<◌, ◌++◌, ◌∷◌, [], List, true, false, IfOk, IsOkUnless, OnErr, OnOk, length, nat_eq};
ghost use Rattle.std.specs.Map.{lookup};
ghost use Rattle.xet_shard_registry.specs.Collections.{HasAdded, HasKept, IsCollectionOf};
ghost use Rattle.xet_shard_registry.specs.Registered.{Registered, place_among};
ghost use Rattle.xet_shard_format.specs.Lookups.{flat_places};
ghost use Rattle.xet_shard_index.specs.Places.{IndexedShard, IsIndexOf, indexed_shard};

use std::alloc::Global;
use std::marker::Brand;
use std::sync::ledger::{Blank, Ledger};
use xet_hash::{HMACKey, StoreError};
use xet_shard_index::{PackedIndex, Steps, WordPlace};

/// The registered shards of one key.
#[derive(Drop)]
pub(crate) struct Collection {
    /// The key of their chunk hashes; zero for shards without one.
    pub key: HMACKey,
    /// Their numbers among all registered shards.
    pub members: Vec<u32>,
    /// The index of those that entered, each under its number among the members.
    pub index: PackedIndex,
}

impl Collection {
    /// The collection of a key without shards. Allocates nothing.
    pub(crate) fn new(alloc: Global, key: HMACKey) -> Collection
        ensures key { result.key ≡ key }
        ensures members { result.members.items ≡ [] }
        ensures index { IsIndexOf result.index [] }
    {
        Collection {
            key,
            members: Vec::new(alloc),
            index: PackedIndex::new(alloc),
        }
    }

    /// Adds the shard with this number among all. Its chunks enter the index, if they are to. Returns the number of words
    /// that are new. The only error is `StoreError::OutOfMemory`; the collection then has the same shards.
    pub(crate) fn add(
        &mut self,
        number: u32,
        enters: bool,
        items: &[(u64, (u32, u32))],
    ) -> Result<u64, StoreError>
        ensures added { OnOk result (HasAdded self.old self.new number enters (flat_places items.now)) }
        ensures count { IfOk result (λ added. length self.new.index ≡ length self.old.index + added) }
        ensures kept { OnErr result (HasKept self.old self.new) }
        ensures memory { IsOkUnless result StoreError.OutOfMemory }
    {
        self.members.reserve(1)?;
        let Ok(place) = u32::try_from(self.members.len()) else {
            return Err(StoreError::OutOfMemory);
        };
        let added = enter(&mut self.index, place, enters, items)?;
        self.members.push(number)?;
        Ok(added)
    }

    /// Takes the memory for adding a shard with these items next. The only error is `StoreError::OutOfMemory`.
    pub(crate) fn reserve(
        &mut self,
        enters: bool,
        items: &[(u64, (u32, u32))],
    ) -> Result<(), StoreError>
        ensures kept { HasKept self.old self.new }
        ensures memory { IsOkUnless result StoreError.OutOfMemory }
    {
        self.members.reserve(1)?;
        let Ok(place) = u32::try_from(self.members.len()) else {
            return Err(StoreError::OutOfMemory);
        };
        if enters {
            self.index.reserve(place, items)
        } else {
            Ok(())
        }
    }

    /// The place of a word. The shard has its number among all.
    pub(crate) fn find(&self, word: u64) -> Option<WordPlace>
        ensures { (shards : List Registered) → IsCollectionOf shards self.now → result ≡ place_among self.now.key word shards }
    {
        let place = find_place::<Brand>(&self.index, word, Blank::new(1))?;
        let shard = self.members.get(place.shard as usize)?;
        Some(WordPlace {
            shard: *shard,
            row: place.row,
            chunk: place.chunk,
        })
    }
}

/// Inserts the items of a shard into an index, if its chunks are to enter it. Returns the number of words that are new.
fn enter(
    index: &mut PackedIndex,
    place: u32,
    enters: bool,
    items: &[(u64, (u32, u32))],
) -> Result<u64, StoreError>
    ensures entered { OnOk result (enters ≡ true → (shards : List IndexedShard) → IsIndexOf index.old shards → IsIndexOf index.new (shards ++ indexed_shard place (flat_places items.now) ∷ [])) }
    ensures listed { OnOk result (enters ≡ false → index.new ≡ index.old) }
    ensures count { IfOk result (λ added. length index.new ≡ length index.old + added) }
    ensures kept { OnErr result (index.new ≡ index.old) }
    ensures memory { IsOkUnless result StoreError.OutOfMemory }
{
    if enters {
        index.insert_shard(place, items)
    } else {
        Ok(0)
    }
}

/// The place of a word in an index.
fn find_place<L: Ledger>(index: &PackedIndex, word: u64, blank: Blank) -> Option<WordPlace>
    requires name { blank.name ≡ L.name }
    requires parts { blank.parts ≡ L.parts }
    requires some { 0 < blank.parts }
    ensures { result ≡ lookup (nat_eq word) index.now }
{
    let mut steps = Steps::<L>::new(blank);
    index.find(word, &mut steps)
}
