//! Tests of the indexes of a manager, on a disk in memory.

ghost use Rattle.std.specs.Prelude.{◌≡◌, ◌<◌};

use crate::tests::exports::bytes_of_export;
use crate::tests::samples::{Manager, opened, release};
use std::alloc::Global;
use std::marker::Brand;
use std::sync::ledger::{Blank, Ledger};
use std::test::Fail;
use xet_hash::{HMACKey, StoreError, compute_data_hash};
use xet_io::MemoryDisk;
use xet_manager::{PackedIndex, Steps, WordPlace};
use xet_shard::kept_hash;
use xet_shard_samples::shard_of;

/// The number of words in an index, and the place of one.
type Seen = (u64, Option<WordPlace>);

fn seen_in<L: Ledger>(index: &PackedIndex, word: u64, blank: Blank) -> Seen
    requires name { blank.name ≡ L.name }
    requires parts { blank.parts ≡ L.parts }
    requires some { 0 < blank.parts }
{
    let mut steps = Steps::<L>::new(blank);
    (index.words(), index.find(word, &mut steps))
}

/// The same in the index of a key, of the first word of the chunk with these bytes. None if there is no index.
fn seen(manager: &Manager, key: &HMACKey, bytes: &[u8]) -> Option<Seen> {
    let index = manager.index(key)?;
    let word = kept_hash(key, &compute_data_hash(bytes)).word(0);
    Some(seen_in::<Brand>(index, word, Blank::new(1)))
}

/// The same of `abc` and `abd` without a key, of both under the key of an export, and of `abc` under another key.
fn all_seen(manager: &Manager) -> [Option<Seen>; 5] {
    let none = HMACKey::default();
    let key = compute_data_hash(b"key");
    let other = compute_data_hash(b"other");
    [
        seen(manager, &none, b"abc"),
        seen(manager, &none, b"abd"),
        seen(manager, &key, b"abc"),
        seen(manager, &key, b"abd"),
        seen(manager, &other, b"abc"),
    ]
}

/// Imports the shards of `abc` and `abd`, and the export of the latter.
fn import(alloc: Global, manager: &mut Manager) -> Result<(), StoreError> {
    manager.import_shard_from_bytes(&shard_of(alloc, b"abc")?.0)?;
    manager.import_shard_from_bytes(&shard_of(alloc, b"abd")?.0)?;
    manager.import_shard_from_bytes(&bytes_of_export(alloc, b"abd")?)?;
    Ok(())
}

/// What is seen before and after.
fn imported(alloc: Global, manager: &mut Manager) -> Result<[[Option<Seen>; 5]; 2], StoreError> {
    let before = all_seen(manager);
    import(alloc, manager)?;
    Ok([before, all_seen(manager)])
}

fn imported_into_empty(alloc: Global) -> Result<[[Option<Seen>; 5]; 2], StoreError> {
    let mut manager = opened(alloc, MemoryDisk::new(alloc), 10_000, true)?;
    let answer = imported(alloc, &mut manager);
    release(manager);
    answer
}

/// The place of the only chunk of the shard with this number among those of its key.
const fn only_chunk(shard: u32) -> Option<WordPlace> {
    Some(WordPlace {
        shard,
        row: 0,
        chunk: 0,
    })
}

#[test]
fn each_key_has_an_index(rt: HostRuntime) -> Result<(), Fail> {
    let [before, after] = imported_into_empty(rt.alloc())?;
    assert_eq!(rt;
        before,
        [Some((0, None)), Some((0, None)), None, None, None]
    );
    let unkeyed = [Some((2, only_chunk(0))), Some((2, only_chunk(1)))];
    let keyed = [Some((1, None)), Some((1, only_chunk(0)))];
    assert_eq!(rt; after, [unkeyed[0], unkeyed[1], keyed[0], keyed[1], None]);
    Ok(())
}
