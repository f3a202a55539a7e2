//! Tests of runs that are found, joined and rejected, and of xorbs of so many bytes.

ghost use Rattle.std.specs.Prelude.{◌<◌};

use crate::errors::TestError;
use crate::list_store::ListStore;
use crate::tests::filing::deduplicate;
use crate::tests::samples::{
    FILE, block, dependency, knowing, known_xorb, metrics, open, small, uniform_chunks,
};
use crate::tests::shown::{Event, Expected, Shown, agreement, look_at};
use std::alloc::Global;
use std::test::Fail;
use xet_choices::Choice;
use xet_cut::{LimitSettings, Limits};
use xet_hash::{compute_data_hash, xorb_hash};
use xet_shard_format::FileDataSequenceEntry;

/// Deduplicates the blocks with these values, in batches of so many, against a store.
fn in_batches(
    alloc: Global,
    store: ListStore,
    settings: LimitSettings,
    values: &[u8],
    batch: usize,
) -> Result<Shown, TestError>
    requires { 0 < batch }
{
    let limits = Limits::new(settings)?;
    let chunks = uniform_chunks(alloc, values, 64)?;
    look_at(
        alloc,
        deduplicate(alloc, store, &limits, FILE, &chunks, batch),
    )
}

/// The settings of a guard that looks at one range, and rejects a run that is shorter than it, if it is shorter than
/// `mean` chunks.
fn of_mean(mean: u32) -> LimitSettings {
    LimitSettings {
        guard_window: 1,
        min_range: (mean, 1),
        low_factor: (1, 1),
        ..small([0; 256])
    }
}

/// Deduplicates five blocks, and the second to the fourth again, against an empty store.
fn repeated(alloc: Global) -> Result<Shown, TestError> {
    let store = ListStore::new(alloc, (0, 0));
    in_batches(alloc, store, of_mean(16), &[1, 2, 3, 4, 5, 2, 3, 4], 8)
}

#[test]
fn rejected_run_of_the_open_block_is_rejected_at_each_chunk(rt: HostRuntime) -> Result<(), Fail> {
    let file = repeated(rt.alloc())?;
    let expected = Expected {
        segments: &[open(512, 0, 8)],
        choices: &[
            Choice::NoPlace { entry: 0 },
            Choice::NoPlace { entry: 1 },
            Choice::NoPlace { entry: 2 },
            Choice::NoPlace { entry: 3 },
            Choice::NoPlace { entry: 4 },
            Choice::Refused { run: 3 },
            Choice::Refused { run: 2 },
            Choice::Refused { run: 1 },
        ],
        metrics: metrics([(8, 512), (0, 0), (8, 512), (0, 0), (6, 384)]),
        events: &[
            Event::Asked(block(1).0, None),
            Event::Asked(block(2).0, None),
            Event::Asked(block(3).0, None),
            Event::Asked(block(4).0, None),
            Event::Asked(block(5).0, None),
            Event::Asked(block(2).0, None),
            Event::Asked(block(3).0, None),
            Event::Asked(block(4).0, None),
        ],
        dependencies: &[],
    };
    assert_eq!(rt; agreement(&file, &expected), [true; 5]);
    Ok(())
}

/// Deduplicates seven blocks, and the last three and one more, against a store that knows the sixth to the eighth. The first
/// run of the store is rejected. The run of the open block at the second 5 goes on past the start of the second one.
fn jumped(alloc: Global) -> Result<Shown, TestError> {
    let store = knowing(alloc, known_xorb(alloc, b"a", &[6, 7, 8], true)?)?;
    let values = [1, 2, 3, 4, 5, 6, 7, 5, 6, 7, 8];
    in_batches(alloc, store, of_mean(6), &values, 11)
}

#[test]
fn run_of_the_open_block_jumps_past_the_start_of_a_kept_one(rt: HostRuntime) -> Result<(), Fail> {
    let file = jumped(rt.alloc())?;
    let expected = Expected {
        segments: &[open(448, 0, 7), open(256, 4, 8)],
        choices: &[
            Choice::NoPlace { entry: 0 },
            Choice::NoPlace { entry: 1 },
            Choice::NoPlace { entry: 2 },
            Choice::NoPlace { entry: 3 },
            Choice::NoPlace { entry: 4 },
            Choice::Refused { run: 2 },
            Choice::Inside { start: 5 },
            Choice::Reused { segment: 1 },
            Choice::Reused { segment: 1 },
            Choice::Reused { segment: 1 },
            Choice::Inside { start: 8 },
        ],
        metrics: metrics([(11, 704), (3, 192), (8, 512), (0, 0), (2, 128)]),
        events: &[
            Event::Asked(block(1).0, None),
            Event::Asked(block(2).0, None),
            Event::Asked(block(3).0, None),
            Event::Asked(block(4).0, None),
            Event::Asked(block(5).0, None),
            Event::Asked(block(6).0, Some(2)),
            Event::Asked(block(5).0, None),
            Event::Asked(block(6).0, Some(3)),
        ],
        dependencies: &[],
    };
    assert_eq!(rt; agreement(&file, &expected), [true; 5]);
    Ok(())
}

/// Deduplicates five blocks against a store that knows the third and the fourth, and the first three once the queries
/// elsewhere have ended.
fn overlapping(alloc: Global) -> Result<Shown, TestError> {
    let mut store = knowing(alloc, known_xorb(alloc, b"a", &[3, 4], false)?)?;
    store
        .elsewhere
        .push(known_xorb(alloc, b"b", &[1, 2, 3], true)?)?;
    in_batches(alloc, store, small([0; 256]), &[1, 2, 3, 4, 5], 5)
}

#[test]
fn second_pass_overlaps_a_run_of_the_first(rt: HostRuntime) -> Result<(), Fail> {
    let file = overlapping(rt.alloc())?;
    let near = compute_data_hash(b"a");
    let far = compute_data_hash(b"b");
    let expected = Expected {
        segments: &[
            FileDataSequenceEntry::new(far, 192, 0, 3),
            FileDataSequenceEntry::new(near, 64, 1, 2),
            open(64, 0, 1),
        ],
        choices: &[
            Choice::Reused { segment: 0 },
            Choice::Reused { segment: 0 },
            Choice::Reused { segment: 0 },
            Choice::Reused { segment: 1 },
            Choice::NoPlace { entry: 6 },
        ],
        metrics: metrics([(5, 320), (4, 256), (1, 64), (4, 256), (0, 0)]),
        events: &[
            Event::Asked(block(1).0, None),
            Event::Asked(block(2).0, None),
            Event::Asked(block(3).0, Some(2)),
            Event::Asked(block(5).0, None),
            Event::Asked(block(1).0, Some(3)),
            Event::Asked(block(4).0, Some(1)),
            Event::Asked(block(5).0, None),
        ],
        dependencies: &[dependency(far, 192, true), dependency(near, 64, false)],
    };
    assert_eq!(rt; agreement(&file, &expected), [true; 5]);
    Ok(())
}

/// Deduplicates four blocks in batches of three against a store that knows them in one xorb. The guard would reject the run
/// of the second batch.
fn continued(alloc: Global) -> Result<Shown, TestError> {
    let store = knowing(alloc, known_xorb(alloc, b"a", &[9, 1, 2, 3, 4], true)?)?;
    in_batches(alloc, store, of_mean(16), &[1, 2, 3, 4], 3)
}

#[test]
fn run_goes_on_in_the_next_batch(rt: HostRuntime) -> Result<(), Fail> {
    let file = continued(rt.alloc())?;
    let xorb = compute_data_hash(b"a");
    let expected = Expected {
        segments: &[FileDataSequenceEntry::new(xorb, 256, 1, 5)],
        choices: &[Choice::Reused { segment: 0 }; 4],
        metrics: metrics([(4, 256), (4, 256), (0, 0), (0, 0), (0, 0)]),
        events: &[
            Event::Asked(block(1).0, Some(3)),
            Event::Asked(block(4).0, Some(1)),
        ],
        dependencies: &[dependency(xorb, 192, true), dependency(xorb, 64, true)],
    };
    assert_eq!(rt; agreement(&file, &expected), [true; 5]);
    assert_eq!(rt;
        file.batches.as_slice(),
        [
            metrics([(3, 192), (3, 192), (0, 0), (0, 0), (0, 0)]),
            metrics([(1, 64), (1, 64), (0, 0), (0, 0), (0, 0)]),
        ]
        .as_slice()
    );
    Ok(())
}

/// Deduplicates three chunks of 512 bytes against an empty store, with 1,024 bytes a xorb.
fn cut_by_bytes(alloc: Global) -> Result<Shown, TestError> {
    let limits = Limits::new(LimitSettings {
        cut_bytes: 1024,
        ..small([0; 256])
    })?;
    let chunks = uniform_chunks(alloc, &[1, 2, 3], 512)?;
    let store = ListStore::new(alloc, (0, 0));
    look_at(alloc, deduplicate(alloc, store, &limits, FILE, &chunks, 3))
}

#[test]
fn block_is_registered_when_its_bytes_are_full(rt: HostRuntime) -> Result<(), Fail> {
    let alloc = rt.alloc();
    let file = cut_by_bytes(alloc)?;
    let first = compute_data_hash(&[1; 512]);
    let second = compute_data_hash(&[2; 512]);
    let third = compute_data_hash(&[3; 512]);
    let xorb = xorb_hash(alloc, &[(first, 512), (second, 512)])?;
    let expected = Expected {
        segments: &[
            FileDataSequenceEntry::new(xorb, 1024, 0, 2),
            open(512, 0, 1),
        ],
        choices: &[
            Choice::NoPlace { entry: 0 },
            Choice::NoPlace { entry: 1 },
            Choice::NoPlace { entry: 2 },
        ],
        metrics: metrics([(3, 1536), (0, 0), (3, 1536), (0, 0), (0, 0)]),
        events: &[
            Event::Asked(first, None),
            Event::Asked(second, None),
            Event::Asked(third, None),
            Event::Registered(2),
        ],
        dependencies: &[dependency(xorb, 1024, false)],
    };
    assert_eq!(rt; agreement(&file, &expected), [true; 5]);
    Ok(())
}
