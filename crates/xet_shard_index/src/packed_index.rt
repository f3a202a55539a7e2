//! An index of few sorted runs.

ghost use Rattle.std.specs.Prelude.{◌≡◌, ℕ, ◌+◌, ◌*◌, ◌^◌, ◌<◌, ◌≤◌, ◌++◌, ◌∷◌, [], List, length, nat_eq};
ghost use Rattle.std.specs.Prelude.{IfOk, IsOkUnless, OnErr, OnOk};
ghost use Rattle.std.specs.Map.{lookup};
ghost use Rattle.xet_shard_format.specs.Lookups.{flat_places};
ghost use Rattle.xet_shard_index.specs.Places.{IndexedShard, IsIndexOf, indexed_shard};

use crate::insertion::{Insertion, ReadyShard, make_ready, next_insertion};
use crate::search::find_in_runs;
use crate::steps::Steps;
use crate::word_place::WordPlace;
use crate::word_run::WordRun;
use std::alloc::Global;
use std::marker::Model;
use std::sync::ledger::Ledger;
use xet_hash::StoreError;

/// The place of each first word of the chunk hashes of shards: that of the last chunk with it in the last shard that has
/// it. Chunks with an index above 65,535 in their xorb are left out. Contracts see the entries, in order of their words.
///
/// They stand in sorted runs, of 20 bytes an item and at most one more for each. The newest run is the last, none is empty, and each is at least twice as
/// long as the next newer one: an insert merges runs until this holds again.
#[derive(Drop)]
pub struct PackedIndex {
    runs: Vec<WordRun>,
    /// The number of different words.
    words: u64,
    /// The insertion for which `reserve` took the memory.
    ready: Option<ReadyShard>,
}

impl Model for PackedIndex {
    ghost use Rattle.std.specs.Prelude.{◌≡◌, ℕ, List, length};
    ghost use Rattle.xet_shard_index.specs.declared.word_place.WordPlace.{WordPlace};
    ghost use Rattle.xet_shard_index.specs.Runs.{merged};
    ghost use Rattle.std.specs.Option.{ForSome};
    ghost use Rattle.xet_shard_index.specs.internal.Inserting.{IsReady};
    ghost use Rattle.xet_shard_index.specs.internal.Lengths.{AreRuns};

    ghost Value = { List (ℕ × WordPlace) };

    ghost view = { λ s. merged s.runs.items };

    ghost invariant = { λ s. AreRuns s.runs.items × (s.words ≡ length (merged s.runs.items)) × ForSome s.ready (IsReady s.runs.items s.words) };
}

impl PackedIndex {
    /// An index of no shards. Allocates nothing.
    pub fn new(alloc: Global) -> PackedIndex
        ensures { IsIndexOf result [] }
    {
        PackedIndex {
            runs: Vec::new(alloc),
            words: 0,
            ready: None,
        }
    }

    /// Adds a shard after the earlier ones, with the items of its chunk lookup table in their order: for each chunk the
    /// first word of its hash, the row of its xorb, and its index in the xorb. Returns the number of words that are
    /// new. The only error is `StoreError::OutOfMemory`; the index is then unchanged.
    pub fn insert_shard(
        &mut self,
        shard: u32,
        items: &[(u64, (u32, u32))],
    ) -> Result<u64, StoreError>
        ensures index { OnOk result ((shards : List IndexedShard) → IsIndexOf self.old shards → IsIndexOf self.new (shards ++ indexed_shard shard (flat_places items.now) ∷ [])) }
        ensures count { IfOk result (λ added. length self.new ≡ length self.old + added) }
        ensures kept { OnErr result (self.new ≡ self.old) }
        ensures memory { IsOkUnless result StoreError.OutOfMemory }
    {
        let insertion = next_insertion(
            *self.runs.allocator(),
            self.ready.take(),
            &self.runs,
            self.words,
            shard,
            items,
        )?;
        let Some(Insertion { kept, run, added }) = insertion else {
            return Ok(0);
        };
        self.runs.reserve(1)?;
        self.runs.truncate(kept);
        self.runs.push_reserved(run);
        self.words += added;
        Ok(added)
    }

    /// Takes the memory that `insert_shard` needs for this shard, so that it then allocates nothing, unless another shard
    /// is inserted before it; that is by the code. The only error is `StoreError::OutOfMemory`. The index is unchanged in
    /// either case.
    pub fn reserve(&mut self, shard: u32, items: &[(u64, (u32, u32))]) -> Result<(), StoreError>
        ensures kept { self.new ≡ self.old }
        ensures memory { IsOkUnless result StoreError.OutOfMemory }
    {
        self.ready = None;
        self.runs.reserve(1)?;
        self.ready = make_ready(*self.runs.allocator(), &self.runs, self.words, shard, items)?;
        Ok(())
    }

    /// The number of different words.
    pub fn words(&self) -> u64
        ensures { result ≡ length self.now }
    {
        self.words
    }

    /// The place of a word. If the number of words has `b` binary digits, it takes at most `b * b` steps.
    pub fn find<L: Ledger>(&self, word: u64, steps: &mut Steps<L>) -> Option<WordPlace>
        ensures place { result ≡ lookup (nat_eq word) self.now }
        ensures steps { (b : ℕ) → length self.now < 2 ^ b → steps.new ≤ steps.old + b * b }
    {
        find_in_runs(&self.runs, word, steps)
    }
}
