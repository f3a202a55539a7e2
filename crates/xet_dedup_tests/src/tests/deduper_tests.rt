//! Tests of the deduplication of files. Chunks end as soon as they may, and have 64 bytes.

ghost use Rattle.std.specs.Prelude.{◌<◌};

use crate::errors::TestError;
use crate::list_store::ListStore;
use crate::tests::filing::{deduplicate, deduplicate_stream};
use crate::tests::samples::{
    FILE, block, blocks, chunks_of_zeros, dependency, knowing, known_xorb, metrics, open, small,
    small_limits,
};
use crate::tests::shown::{Event, Expected, Shown, agreement, error_of, look_at};
use std::alloc::Global;
use std::test::Fail;
use xet_choices::Choice;
use xet_cut::{LimitSettings, Limits};
use xet_hash::{StoreError, compute_data_hash, xorb_hash};
use xet_shard_format::FileDataSequenceEntry;

/// Deduplicates 200 zero bytes against an empty store. The first batch has three chunks, and the second one.
fn zeros(alloc: Global) -> Result<Shown, TestError> {
    let limits = small_limits([0; 256])?;
    let chunks = chunks_of_zeros(alloc)?;
    let store = ListStore::new(alloc, (0, 0));
    look_at(alloc, deduplicate(alloc, store, &limits, FILE, &chunks, 3))
}

/// Which parts of what became of 200 zero bytes are as expected.
fn is_of_zeros(file: &Shown) -> [bool; 5] {
    let full = compute_data_hash(&[0; 64]);
    let rest = compute_data_hash(&[0; 8]);
    agreement(
        file,
        &Expected {
            segments: &[open(64, 0, 1), open(64, 0, 1), open(72, 0, 2)],
            choices: &[
                Choice::NoPlace { entry: 0 },
                Choice::Reused { segment: 1 },
                Choice::Reused { segment: 2 },
                Choice::NoPlace { entry: 3 },
            ],
            metrics: metrics([(4, 200), (2, 128), (2, 72), (0, 0), (0, 0)]),
            events: &[
                Event::Asked(full, None),
                Event::Asked(full, None),
                Event::Asked(full, None),
                Event::Asked(rest, None),
            ],
            dependencies: &[],
        },
    )
}

/// The same from a stream that comes in pieces of this length: which parts of what became of it are as expected.
fn is_of_zeros_in_pieces(alloc: Global, piece: usize) -> Result<[bool; 5], TestError>
    requires { 0 < piece }
{
    let limits = small_limits([0; 256])?;
    let store = ListStore::new(alloc, (0, 0));
    let filed = deduplicate_stream(alloc, store, &limits, FILE, &[0; 200], piece);
    Ok(is_of_zeros(&look_at(alloc, filed)?))
}

#[test]
fn chunks_are_found_in_the_open_block(rt: HostRuntime) -> Result<(), Fail> {
    let file = zeros(rt.alloc())?;
    assert_eq!(rt; is_of_zeros(&file), [true; 5]);
    assert_eq!(rt;
        file.batches.as_slice(),
        [
            metrics([(3, 192), (2, 128), (1, 64), (0, 0), (0, 0)]),
            metrics([(1, 8), (0, 0), (1, 8), (0, 0), (0, 0)]),
        ]
        .as_slice()
    );
    Ok(())
}

#[test]
fn streams_are_deduplicated_piece_by_piece(rt: HostRuntime) -> Result<(), Fail> {
    let alloc = rt.alloc();
    assert_eq!(rt; is_of_zeros_in_pieces(alloc, 1)?, [true; 5]);
    assert_eq!(rt; is_of_zeros_in_pieces(alloc, 50)?, [true; 5]);
    assert_eq!(rt; is_of_zeros_in_pieces(alloc, 200)?, [true; 5]);
    Ok(())
}

/// Deduplicates so many blocks, in one batch, against a store.
fn in_one_batch(
    alloc: Global,
    store: ListStore,
    settings: LimitSettings,
    count: u8,
) -> Result<Shown, TestError> {
    let limits = Limits::new(settings)?;
    let chunks = blocks(alloc, count)?;
    look_at(
        alloc,
        deduplicate(alloc, store, &limits, FILE, &chunks, 255),
    )
}

/// Deduplicates four blocks against a store that knows them, in one xorb.
fn all_known(alloc: Global) -> Result<Shown, TestError> {
    let store = knowing(alloc, known_xorb(alloc, b"a", &[9, 1, 2, 3, 4], true)?)?;
    in_one_batch(alloc, store, small([0; 256]), 4)
}

#[test]
fn known_run_is_used_after_one_query(rt: HostRuntime) -> Result<(), Fail> {
    let file = all_known(rt.alloc())?;
    let xorb = compute_data_hash(b"a");
    let expected = Expected {
        segments: &[FileDataSequenceEntry::new(xorb, 256, 1, 5)],
        choices: &[Choice::Reused { segment: 0 }; 4],
        metrics: metrics([(4, 256), (4, 256), (0, 0), (0, 0), (0, 0)]),
        events: &[Event::Asked(block(1).0, Some(4))],
        dependencies: &[dependency(xorb, 256, true)],
    };
    assert_eq!(rt; agreement(&file, &expected), [true; 5]);
    Ok(())
}

/// Deduplicates eight blocks against a store that knows the last three. The guard looks at one range, and rejects a run
/// that is shorter than it, if it is shorter than 16.
fn guarded(alloc: Global) -> Result<Shown, TestError> {
    let store = knowing(alloc, known_xorb(alloc, b"a", &[6, 7, 8], true)?)?;
    let settings = LimitSettings {
        guard_window: 1,
        min_range: (16, 1),
        low_factor: (1, 1),
        ..small([0; 256])
    };
    in_one_batch(alloc, store, settings, 8)
}

#[test]
fn rejected_run_is_stored(rt: HostRuntime) -> Result<(), Fail> {
    let file = guarded(rt.alloc())?;
    let expected = Expected {
        segments: &[open(512, 0, 8)],
        choices: &[
            Choice::NoPlace { entry: 0 },
            Choice::NoPlace { entry: 1 },
            Choice::NoPlace { entry: 2 },
            Choice::NoPlace { entry: 3 },
            Choice::NoPlace { entry: 4 },
            Choice::Refused { run: 3 },
            Choice::Inside { start: 5 },
            Choice::Inside { start: 5 },
        ],
        metrics: metrics([(8, 512), (0, 0), (8, 512), (0, 0), (3, 192)]),
        events: &[
            Event::Asked(block(1).0, None),
            Event::Asked(block(2).0, None),
            Event::Asked(block(3).0, None),
            Event::Asked(block(4).0, None),
            Event::Asked(block(5).0, None),
            Event::Asked(block(6).0, Some(3)),
        ],
        dependencies: &[],
    };
    assert_eq!(rt; agreement(&file, &expected), [true; 5]);
    Ok(())
}

/// The settings of xorbs of at most two chunks.
fn of_two_chunks() -> LimitSettings {
    LimitSettings {
        cut_chunks: 2,
        ..small([0; 256])
    }
}

/// Deduplicates five blocks against an empty store, with two chunks a xorb.
fn cut(alloc: Global) -> Result<Shown, TestError> {
    in_one_batch(alloc, ListStore::new(alloc, (0, 0)), of_two_chunks(), 5)
}

#[test]
fn full_block_is_registered_within_the_file(rt: HostRuntime) -> Result<(), Fail> {
    let alloc = rt.alloc();
    let file = cut(alloc)?;
    let first = xorb_hash(alloc, &[block(1), block(2)])?;
    let second = xorb_hash(alloc, &[block(3), block(4)])?;
    let expected = Expected {
        segments: &[
            FileDataSequenceEntry::new(first, 128, 0, 2),
            FileDataSequenceEntry::new(second, 128, 0, 2),
            open(64, 0, 1),
        ],
        choices: &[
            Choice::NoPlace { entry: 0 },
            Choice::NoPlace { entry: 1 },
            Choice::NoPlace { entry: 2 },
            Choice::NoPlace { entry: 3 },
            Choice::NoPlace { entry: 4 },
        ],
        metrics: metrics([(5, 320), (0, 0), (5, 320), (0, 0), (0, 0)]),
        events: &[
            Event::Asked(block(1).0, None),
            Event::Asked(block(2).0, None),
            Event::Asked(block(3).0, None),
            Event::Asked(block(4).0, None),
            Event::Asked(block(5).0, None),
            Event::Registered(2),
            Event::Registered(2),
        ],
        dependencies: &[
            dependency(first, 128, false),
            dependency(second, 128, false),
        ],
    };
    assert_eq!(rt; agreement(&file, &expected), [true; 5]);
    Ok(())
}

/// Deduplicates four blocks against a store that knows the first three once the queries elsewhere have ended.
fn found_elsewhere(alloc: Global) -> Result<Shown, TestError> {
    let mut store = ListStore::new(alloc, (0, 0));
    store
        .elsewhere
        .push(known_xorb(alloc, b"a", &[1, 2, 3], true)?)?;
    in_one_batch(alloc, store, small([0; 256]), 4)
}

#[test]
fn second_pass_finds_a_run(rt: HostRuntime) -> Result<(), Fail> {
    let file = found_elsewhere(rt.alloc())?;
    let xorb = compute_data_hash(b"a");
    let expected = Expected {
        segments: &[FileDataSequenceEntry::new(xorb, 192, 0, 3), open(64, 0, 1)],
        choices: &[
            Choice::Reused { segment: 0 },
            Choice::Reused { segment: 0 },
            Choice::Reused { segment: 0 },
            Choice::NoPlace { entry: 5 },
        ],
        metrics: metrics([(4, 256), (3, 192), (1, 64), (3, 192), (0, 0)]),
        events: &[
            Event::Asked(block(1).0, None),
            Event::Asked(block(2).0, None),
            Event::Asked(block(3).0, None),
            Event::Asked(block(4).0, None),
            Event::Asked(block(1).0, Some(3)),
            Event::Asked(block(4).0, None),
        ],
        dependencies: &[dependency(xorb, 192, true)],
    };
    assert_eq!(rt; agreement(&file, &expected), [true; 5]);
    Ok(())
}

/// What is left of a deduplication of five blocks in batches of two, with two chunks a xorb, whose store fails at a call:
/// the error, whether all batches were placed, and the numbers of calls and of logged ones. No error if it does not fail.
fn failing(
    alloc: Global,
    fails_at: u64,
) -> Result<(Option<TestError>, bool, u64, usize), TestError> {
    let limits = Limits::new(of_two_chunks())?;
    let chunks = blocks(alloc, 5)?;
    let mut store = ListStore::new(alloc, (0, 0));
    store.fails_at = Some(fails_at);
    match deduplicate(alloc, store, &limits, FILE, &chunks, 2) {
        Ok(filed) => {
            let store = filed.into_store();
            Ok((None, true, store.calls, store.log.len()))
        }
        Err(unfiled) => {
            let left = (
                unfiled.is_whole,
                unfiled.store.calls,
                unfiled.store.log.len(),
            );
            Ok((Some(error_of(unfiled)), left.0, left.1, left.2))
        }
    }
}

#[test]
fn errors_of_the_store_come_back(rt: HostRuntime) -> Result<(), Fail> {
    let alloc = rt.alloc();
    let logged = [0, 1, 1, 2, 2, 3, 4, 4, 5, 6, 6];
    for (at, count) in logged.iter().enumerate() {
        let call = at as u64;
        assert_eq!(rt;
            failing(alloc, call)?,
            (Some(TestError::Refused(call)), false, call + 1, *count),
            "at call {call}"
        );
    }
    assert_eq!(rt; failing(alloc, 11)?, (None, true, 11, 7));
    Ok(())
}
