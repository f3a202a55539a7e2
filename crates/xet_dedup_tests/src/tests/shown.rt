//! What tests look at of a file whose deduplication has ended.

use crate::errors::TestError;
use crate::list_store::{ListStore, LoggedCall};
use crate::tests::filing::{Filed, Unfiled};
use std::alloc::Global;
use xet_aggregate::{DataAggregator, DeduplicationMetrics};
use xet_choices::Choice;
use xet_dedup::{DedupError, Finalized};
use xet_dedup_queries::FileXorbDependency;
use xet_hash::MerkleHash;
use xet_shard_format::FileDataSequenceEntry;

/// A query with its first hash and the length of the run that was found, or a registration with its number of chunks.
#[derive(Clone, Copy, PartialEq, Eq, Debug)]
pub enum Event {
    Asked(MerkleHash, Option<usize>),
    Registered(usize),
}

/// What a deduplication did.
#[derive(Drop)]
pub struct Shown {
    pub segments: Vec<FileDataSequenceEntry>,
    pub choices: Vec<Choice>,
    pub metrics: DeduplicationMetrics,
    pub batches: Vec<DeduplicationMetrics>,
    pub events: Vec<Event>,
    pub dependencies: Vec<FileXorbDependency>,
}

/// What it should have done.
#[derive(Drop)]
pub struct Expected<'a> {
    pub segments: &'a [FileDataSequenceEntry],
    pub choices: &'a [Choice],
    pub metrics: DeduplicationMetrics,
    pub events: &'a [Event],
    pub dependencies: &'a [FileXorbDependency],
}

/// Which of the segments, choices, metrics, events and dependencies are as expected.
pub fn agreement(shown: &Shown, expected: &Expected) -> [bool; 5] {
    [
        shown.segments.as_slice() == expected.segments,
        shown.choices.as_slice() == expected.choices,
        shown.metrics == expected.metrics,
        shown.events.as_slice() == expected.events,
        shown.dependencies.as_slice() == expected.dependencies,
    ]
}

/// What a deduplication did, if it did not fail.
pub fn look_at(alloc: Global, filed: Result<Filed, Unfiled>) -> Result<Shown, TestError> {
    match filed {
        Ok(filed) => {
            let Filed { file, batches } = filed;
            let Finalized {
                interface,
                hash: _,
                rest,
                metrics,
                choices,
            } = file;
            let segments = segments_of(alloc, &rest);
            let events = events_of(alloc, &interface.log);
            let dependencies = dependencies_of(interface);
            Ok(Shown {
                segments: segments?,
                choices: choices.into_vec(),
                metrics,
                batches,
                events: events?,
                dependencies: dependencies?,
            })
        }
        Err(unfiled) => Err(error_of(unfiled)),
    }
}

/// Why a deduplication failed.
pub fn error_of(unfiled: Unfiled) -> TestError {
    match unfiled.error {
        DedupError::Interface(error) => error,
        DedupError::OutOfMemory => TestError::OutOfMemory,
    }
}

/// The segments of the only file that waits for the xorb.
fn segments_of(
    alloc: Global,
    rest: &DataAggregator,
) -> Result<Vec<FileDataSequenceEntry>, TestError> {
    match rest.pending_file_info() {
        [file] => Ok(Vec::from_slice(alloc, file.0.segments.as_slice())?),
        _ => Err(TestError::OtherXorb),
    }
}

/// What a log shows.
pub fn events_of(alloc: Global, log: &[LoggedCall]) -> Result<Vec<Event>, TestError> {
    let mut events = Vec::with_capacity(alloc, log.len())?;
    for call in log {
        events.push(match call {
            LoggedCall::Asked { hashes, reply } => match hashes.as_slice() {
                [first, ..] => Event::Asked(*first, *reply),
                [] => return Err(TestError::Unexpected),
            },
            LoggedCall::Registered { leaves, .. } => Event::Registered(leaves.as_slice().len()),
        })?;
    }
    Ok(events)
}

/// The dependencies that were noted.
fn dependencies_of(store: ListStore) -> Result<Vec<FileXorbDependency>, TestError> {
    let ListStore {
        dependencies,
        is_out_of_memory,
        ..
    } = store;
    if is_out_of_memory {
        return Err(TestError::OutOfMemory);
    }
    Ok(dependencies)
}
