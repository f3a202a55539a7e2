//! Tests of the index of first words, and of its runs.

ghost use Rattle.std.specs.Prelude.{◌≡◌, ◌+◌, ◌<◌, ◌≤◌, IfOk, length};
ghost use Rattle.xet_shard_index.specs.Runs.{Rising};

use std::alloc::Global;
use std::marker::Brand;
use std::sync::ledger::{Blank, Ledger};
use std::test::Fail;
use xet_hash::StoreError;
use xet_shard_index::{PackedIndex, Steps, WordPlace, WordRun};

/// The place of a chunk of the first shard that only this has.
const FIRST: WordPlace = WordPlace {
    shard: 0,
    row: 0,
    chunk: 0,
};

/// The place of a chunk of both shards: it is that in the second.
const LATER: WordPlace = WordPlace {
    shard: 1,
    row: 4,
    chunk: 2,
};

/// The place of a word in an index of at most 3 words, in at most 4 steps.
fn place_of<L: Ledger>(index: &PackedIndex, word: u64, steps: &mut Steps<L>) -> Option<WordPlace>
    requires few { length index.now < 4 }
    ensures steps { steps.new ≤ steps.old + 4 }
{
    index.find(word, steps)
}

/// The places of 5, 6, 7 and 8, each found in at most 4 steps.
fn places_of<L: Ledger>(index: &PackedIndex, blank: Blank) -> [Option<WordPlace>; 4]
    requires few { length index.now < 4 }
    requires name { blank.name ≡ L.name }
    requires parts { blank.parts ≡ L.parts }
    requires some { 0 < blank.parts }
{
    let mut steps = Steps::<L>::new(blank);
    [
        place_of(index, 5, &mut steps),
        place_of(index, 6, &mut steps),
        place_of(index, 7, &mut steps),
        place_of(index, 8, &mut steps),
    ]
}

/// The same, if the index has at most 3 words.
fn places(index: &PackedIndex) -> Option<[Option<WordPlace>; 4]> {
    if index.words() < 4 {
        Some(places_of::<Brand>(index, Blank::new(1)))
    } else {
        None
    }
}

/// What is taken ahead before the second shard is inserted.
#[derive(Clone, Copy)]
enum Ahead {
    Nothing,
    Second,
    Other,
}

/// The items of the first shard, and of the second.
const ITEMS: [(u64, (u32, u32)); 3] = [(5, (0, 0)), (7, (0, 1)), (8, (0, 65_536))];

const LATER_ITEMS: [(u64, (u32, u32)); 2] = [(7, (4, 2)), (9, (4, 65_535))];

fn take_ahead(index: &mut PackedIndex, ahead: Ahead) -> Result<(), StoreError> {
    match ahead {
        Ahead::Nothing => Ok(()),
        Ahead::Second => index.reserve(1, &LATER_ITEMS),
        Ahead::Other => index.reserve(1, &ITEMS),
    }
}

/// The numbers of words that two shards add to an index, and that of all; and the places of 5, 6, 7 and 8.
type Seen = ([u64; 3], Option<[Option<WordPlace>; 4]>);

fn added(index: &mut PackedIndex, ahead: Ahead) -> Result<Seen, StoreError> {
    let first = index.insert_shard(0, &ITEMS)?;
    take_ahead(index, ahead)?;
    let second = index.insert_shard(1, &LATER_ITEMS)?;
    Ok(([first, second, index.words()], places(index)))
}

/// The same of an empty index.
fn seen(alloc: Global, ahead: Ahead) -> Result<Seen, StoreError> {
    let mut index = PackedIndex::new(alloc);
    added(&mut index, ahead)
}

#[test]
fn later_shard_has_the_word(rt: HostRuntime) -> Result<(), Fail> {
    let alloc = rt.alloc();
    let places = [Some(FIRST), None, Some(LATER), None];
    for ahead in [Ahead::Nothing, Ahead::Second, Ahead::Other] {
        assert_eq!(rt; seen(alloc, ahead)?, ([2, 1, 3], Some(places)));
    }
    Ok(())
}

/// The run of 5 and 7 in the first shard.
#[tactic(auto, unfolding(xet_shard_index::specs::Runs::Rising, xet_shard_index::specs::Runs::AllAbove))]
fn first_run(alloc: Global) -> Result<WordRun, StoreError> {
    WordRun::new(vec![in alloc; (5, FIRST), (7, FIRST)]?)
}

/// The run of 7 and 9 in the second.
#[tactic(auto, unfolding(xet_shard_index::specs::Runs::Rising, xet_shard_index::specs::Runs::AllAbove))]
fn later_run(alloc: Global) -> Result<WordRun, StoreError> {
    WordRun::new(vec![in alloc; (7, LATER), (9, LATER)]?)
}

/// The shards of the items of a run.
fn shards_of(alloc: Global, run: &WordRun) -> Result<Vec<u32>, StoreError> {
    let mut shards = Vec::new(alloc);
    for i in 0..run.len() {
        shards.push(run.place(i).shard)?;
    }
    Ok(shards)
}

/// The shards of the items of both runs, and of those of the first whose word is not in the second.
fn merged(alloc: Global) -> Result<[Vec<u32>; 2], StoreError> {
    let first = first_run(alloc)?;
    let later = later_run(alloc)?;
    let both = shards_of(alloc, &WordRun::merge(&later, &first)?)?;
    Ok([both, shards_of(alloc, &first.without(&later)?)?])
}

#[test]
fn newer_place_is_taken(rt: HostRuntime) -> Result<(), Fail> {
    let [both, first] = merged(rt.alloc())?;
    assert_eq!(rt; both.as_slice(), [0, 1, 1].as_slice());
    assert_eq!(rt; first.as_slice(), [0].as_slice());
    Ok(())
}
