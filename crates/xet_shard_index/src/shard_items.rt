//! The items of one shard, sorted by their words.

ghost use Rattle.std.specs.Prelude.{◌≡◌, ℕ, ◌++◌, ◌∷◌, [], IfOk, IsOkUnless, OnOk, nat_eq, map};
ghost use Rattle.std.specs.Map.{lookup};
ghost use Rattle.xet_shard_format.specs.Lookups.{flat_place, flat_places};
ghost use Rattle.xet_shard_index.specs.Places.{indexed_shard, place_in, within_reach};
ghost use Rattle.xet_shard_index.specs.Runs.{Item, Rising};
ghost use Rattle.xet_shard_index.specs.internal.Items.{lasts, placed};

use crate::word_place::WordPlace;
use std::alloc::{AllocError, Global};
use xet_hash::StoreError;

/// The words of the chunks of a shard with an index of at most 65,535, in rising order, each once, with the place of
/// the last chunk that has it. The only error is `StoreError::OutOfMemory`.
pub fn shard_items(
    alloc: Global,
    shard: u32,
    items: &[(u64, (u32, u32))],
) -> Result<Vec<(u64, WordPlace)>, StoreError>
    ensures rising { IfOk result (λ found. Rising found.items) }
    ensures places { IfOk result (λ found. (word : ℕ) → lookup (nat_eq word) found.items ≡ place_in word (indexed_shard shard (flat_places items.now))) }
    ensures memory { IsOkUnless result StoreError.OutOfMemory }
{
    let mut found = Vec::new(alloc);
    place_items(shard, items, &mut found)?;
    found.sort_by_key(|item: &(u64, WordPlace)| item.0)?;
    let mut last = Vec::new(alloc);
    keep_lasts(&found, &mut last)?;
    Ok(last)
}

/// Appends the items within reach.
fn place_items(
    shard: u32,
    items: &[(u64, (u32, u32))],
    found: &mut Vec<(u64, WordPlace)>,
) -> Result<(), AllocError>
    requires { found.old.items ≡ [] }
    ensures { OnOk result (found.new.items ≡ placed shard (flat_places items.now)) }
{
    for item in items {
        place_item(shard, item, found)?;
    }
    Ok(())
}

/// Appends an item, if its chunk is within reach.
fn place_item(
    shard: u32,
    item: &(u64, (u32, u32)),
    found: &mut Vec<(u64, WordPlace)>,
) -> Result<(), AllocError>
    ensures { OnOk result (found.new.items ≡ found.old.items ++ placed shard (flat_place item.now ∷ [])) }
{
    let (word, (row, chunk)) = *item;
    if chunk > 65_535 {
        return Ok(());
    }
    let place = WordPlace {
        shard,
        row,
        chunk: chunk as u16,
    };
    found.push((word, place))?;
    Ok(())
}

/// Appends the items that are followed by none with their word.
fn keep_lasts(
    items: &[(u64, WordPlace)],
    last: &mut Vec<(u64, WordPlace)>,
) -> Result<(), AllocError>
    requires { last.old.items ≡ [] }
    ensures { OnOk result (last.new.items ≡ lasts items.now) }
{
    for i in 0..items.len() {
        if i + 1 == items.len() || items[i + 1].0 != items[i].0 {
            last.push(items[i])?;
        }
    }
    Ok(())
}
