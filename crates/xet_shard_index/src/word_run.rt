//! A sorted run of words with their places.

ghost use Rattle.std.specs.Prelude.{◌≡◌, ◌<◌, ◌+◌, ℕ, IfOk, IsOkUnless, OnOk, length, [], slice_index_or};
ghost use Rattle.std.specs.Ordering.{nat_cmp};
ghost use Rattle.xet_shard_index.specs.Runs.{Item, Rising, over, without};
ghost use Rattle.xet_shard_index.specs.internal.Starts.{AreStarts};

use crate::packed_item::PackedItem;
use crate::starts::Starts;
use crate::steps::Steps;
use crate::word_place::WordPlace;
use std::alloc::AllocError;
use std::cmp::Ordering;
use std::marker::Model;
use std::sync::ledger::Ledger;
use xet_hash::StoreError;

/// Words in rising order, each once, with their places. Contracts see the list. No word is lent: a look-up compares.
#[derive(Drop)]
pub struct WordRun {
    items: Vec<PackedItem>,
    starts: Starts,
}

impl Model for WordRun {
    ghost use Rattle.std.specs.Prelude.{◌≡◌, ℕ, ◌<◌, List, [], length};
    ghost use Rattle.xet_shard_index.specs.declared.word_place.WordPlace.{WordPlace};
    ghost use Rattle.xet_shard_index.specs.Runs.{Rising};
    ghost use Rattle.xet_shard_index.specs.internal.Starts.{AreStarts};

    ghost Value = { List (ℕ × WordPlace) };

    ghost view = { λ r. r.items.items };

    ghost invariant = { λ r. Rising r.items.items × AreStarts r.starts.shift r.items.items r.starts.starts.items × (length r.items.items < 8 → r.starts.starts.items ≡ []) };
}

impl WordRun {
    /// The run of these items. The only error is `StoreError::OutOfMemory`.
    pub fn new(items: Vec<(u64, WordPlace)>) -> Result<WordRun, StoreError>
        requires { Rising items.items }
        ensures items { IfOk result (λ run. run ≡ items.items) }
        ensures memory { IsOkUnless result StoreError.OutOfMemory }
    {
        let mut packed = Vec::with_capacity(*items.allocator(), items.len())?;
        pack(&items, &mut packed)?;
        with_starts(packed)
    }

    /// The number of items.
    pub fn len(&self) -> u64
        ensures { result ≡ length self.now }
    {
        self.items.len() as u64
    }

    /// The place of the word of item `i`.
    pub fn place(&self, i: u64) -> WordPlace
        requires { i < length self.now }
        ensures { (d : Item) → result ≡ (slice_index_or self.now i d).1 }
    {
        self.items[i as usize].place()
    }

    /// Where words begin.
    pub(crate) fn starts(&self) -> &Starts
        ensures starts { AreStarts result.now.shift self.now result.now.starts.items }
        ensures none { length self.now < 8 → result.now.starts.items ≡ [] }
    {
        &self.starts
    }

    /// The order of the word of item `i` to `word`. It takes one step.
    pub fn compare<L: Ledger>(&self, i: u64, word: u64, steps: &mut Steps<L>) -> Ordering
        requires { i < length self.now }
        ensures order { (d : Item) → result ≡ nat_cmp (slice_index_or self.now i d).0 word }
        ensures steps { steps.new ≡ steps.old + 1 }
    {
        steps.tick();
        self.items[i as usize].word().cmp(&word)
    }

    /// The words of both runs. A word that both have gets its place in the newer one. The only error is
    /// `StoreError::OutOfMemory`.
    pub fn merge(newer: &WordRun, older: &WordRun) -> Result<WordRun, StoreError>
        ensures items { IfOk result (λ run. run ≡ over newer.now older.now) }
        ensures memory { IsOkUnless result StoreError.OutOfMemory }
    {
        let room = newer.items.len().saturating_add(older.items.len());
        let mut items = Vec::with_capacity(*newer.items.allocator(), room)?;
        merge_items(&newer.items, &older.items, &mut items)?;
        items.shrink_to_fit();
        with_starts(items)
    }

    /// The items whose word is not in the other run. The only error is `StoreError::OutOfMemory`.
    pub fn without(&self, other: &WordRun) -> Result<WordRun, StoreError>
        ensures items { IfOk result (λ run. run ≡ without self.now other.now) }
        ensures memory { IsOkUnless result StoreError.OutOfMemory }
    {
        let mut items = Vec::with_capacity(*self.items.allocator(), self.items.len())?;
        add_without(&self.items, &other.items, &mut items)?;
        items.shrink_to_fit();
        with_starts(items)
    }
}

/// The run of these items.
fn with_starts(items: Vec<PackedItem>) -> Result<WordRun, StoreError>
    requires { Rising items.items }
    ensures items { IfOk result (λ run. run ≡ items.items) }
    ensures memory { IsOkUnless result StoreError.OutOfMemory }
{
    let starts = Starts::new(*items.allocator(), &items)?;
    Ok(WordRun { items, starts })
}

/// Appends the items, packed.
fn pack(items: &[(u64, WordPlace)], packed: &mut Vec<PackedItem>) -> Result<(), AllocError>
    requires { packed.old.items ≡ [] }
    ensures { OnOk result (packed.new.items ≡ items.now) }
{
    for (word, place) in items {
        packed.push(PackedItem::new(*word, *place))?;
    }
    Ok(())
}

/// Appends the items of both to none.
fn merge_items(
    newer: &[PackedItem],
    older: &[PackedItem],
    items: &mut Vec<PackedItem>,
) -> Result<(), AllocError>
    requires newer { Rising newer.now }
    requires older { Rising older.now }
    requires none { items.old.items ≡ [] }
    ensures { OnOk result (items.new.items ≡ over newer.now older.now) }
{
    let mut i = 0;
    let mut j = 0;
    while i < newer.len() && j < older.len() {
        let left = newer[i];
        let right = older[j];
        match left.word().cmp(&right.word()) {
            Ordering::Less => {
                items.push(left)?;
                i += 1;
            }
            Ordering::Equal => {
                items.push(left)?;
                i += 1;
                j += 1;
            }
            Ordering::Greater => {
                items.push(right)?;
                j += 1;
            }
        }
    }
    items.extend_from_slice(&newer[i..])?;
    items.extend_from_slice(&older[j..])?;
    Ok(())
}

/// Appends to none the items of a run whose word is not in the other.
fn add_without(
    run: &[PackedItem],
    other: &[PackedItem],
    items: &mut Vec<PackedItem>,
) -> Result<(), AllocError>
    requires run { Rising run.now }
    requires other { Rising other.now }
    requires none { items.old.items ≡ [] }
    ensures { OnOk result (items.new.items ≡ without run.now other.now) }
{
    let mut i = 0;
    let mut j = 0;
    while i < run.len() && j < other.len() {
        let item = run[i];
        let skipped = other[j];
        match item.word().cmp(&skipped.word()) {
            Ordering::Less => {
                items.push(item)?;
                i += 1;
            }
            Ordering::Equal => {
                i += 1;
                j += 1;
            }
            Ordering::Greater => j += 1,
        }
    }
    items.extend_from_slice(&run[i..])?;
    Ok(())
}
