//! Where the words with each value of their leading bits begin in a sorted run.

ghost use Rattle.std.specs.Prelude.{◌≡◌, ◌*◌, ◌/◌, ◌^◌, ◌+◌, ◌<◌, ◌≤◌, ℕ, List, [], ◌↔◌, IfOk, IfSome, IsTrue, OnOk, length, slice_index_or};
ghost use Rattle.xet_shard_index.specs.Runs.{Item, Rising};
ghost use Rattle.xet_shard_index.specs.internal.Starts.{AreStarts, IsStart};

use crate::packed_item::PackedItem;
use crate::steps::Steps;
use std::alloc::{AllocError, Global};
use std::sync::ledger::Ledger;

/// For each value of the leading bits of a word, the index of the first item with that value or a greater one. Runs of fewer
/// than 8 items, or of 2^32 or more, have none; other runs have one for 4 to 8 items.
#[derive(Drop)]
pub(crate) struct Starts {
    starts: Vec<u32>,
    /// How many bits of a word follow the leading ones.
    shift: u32,
    ghost fits: { shift < 64 },
}

impl Starts {
    /// Those of these items.
    pub(crate) fn new(alloc: Global, items: &[PackedItem]) -> Result<Starts, AllocError>
        requires { Rising items.now }
        ensures starts { IfOk result (λ s. AreStarts s.shift items.now s.starts.items) }
        ensures none { IfOk result (λ s. length items.now < 8 → s.starts.items ≡ []) }
        ensures few { IfOk result (λ s. 4 * length s.starts.items ≤ length items.now) }
        ensures many { IfOk result (λ s. 8 ≤ length items.now → length items.now < 2 ^ 32 → length items.now < 8 * length s.starts.items) }
    {
        let mut starts = Vec::new(alloc);
        if items.len() < 8 || items.len() > u32::MAX as usize {
            return Ok(Starts { starts, shift: 0 });
        }
        let leading = leading_bits(items.len() as u64);
        let values = 1u64 << leading;
        starts.reserve_exact(values as usize)?;
        push_starts(items, 64 - leading, values, &mut starts)?;
        Ok(Starts {
            starts,
            shift: 64 - leading,
        })
    }

    /// Whether there is no start.
    pub(crate) fn is_empty(&self) -> bool
        ensures { IsTrue result ↔ (self.now.starts.items ≡ []) }
    {
        self.starts.is_empty()
    }

    /// The leading bits of a word.
    pub(crate) fn leading(&self, word: u64) -> u64
        ensures { result ≡ word / 2 ^ self.now.shift }
    {
        word >> self.shift
    }

    /// The start of a value, if there is one. It takes one step, and nothing else reads a start.
    pub(crate) fn read<L: Ledger>(&self, value: u64, steps: &mut Steps<L>) -> Option<u64>
        ensures start { IfSome result (λ start. (run : List Item) → AreStarts self.now.shift run self.now.starts.items → IsStart self.now.shift run value start) }
        ensures few { IfSome result (λ _. value + 1 < 2 ^ 64) }
        ensures steps { steps.new ≡ steps.old + 1 }
    {
        steps.tick();
        let start = self.starts.get(value as usize)?;
        Some(u64::from(*start))
    }
}

/// How many leading bits of a word tell the starts of so many items apart: there is a start for 4 to 8 items.
fn leading_bits(count: u64) -> u32
    requires { 8 ≤ count }
    ensures bits { (0 < result) × (result < 64) }
    ensures few { 4 * 2 ^ result ≤ count }
    ensures many { count < 8 * 2 ^ result }
{
    61 - count.leading_zeros()
}

/// Appends the starts of so many values, from 0 on.
fn push_starts(
    items: &[PackedItem],
    shift: u32,
    values: u64,
    starts: &mut Vec<u32>,
) -> Result<(), AllocError>
    requires rising { Rising items.now }
    requires shift { shift < 64 }
    requires few { length items.now < 2 ^ 32 }
    requires none { starts.old.items ≡ [] }
    ensures starts { OnOk result (AreStarts shift items.now starts.new.items) }
    ensures count { OnOk result (length starts.new.items ≡ values) }
{
    let mut at = 0;
    for value in 0..values {
        at = first_from(items, shift, at, value);
        starts.push(at as u32)?;
    }
    Ok(())
}

/// The index of the first item from `from` on whose word has that value of its leading bits or a greater one.
fn first_from(items: &[PackedItem], shift: u32, from: usize, value: u64) -> usize
    requires rising { Rising items.now }
    requires shift { shift < 64 }
    requires from { from ≤ length items.now }
    requires before { (i : ℕ) (d : Item) → i < from → (slice_index_or items.now i d).0 / 2 ^ shift < value }
    ensures { IsStart shift items.now value result }
{
    let mut at = from;
    while at < items.len() && items[at].word() >> shift < value {
        at += 1;
    }
    at
}
