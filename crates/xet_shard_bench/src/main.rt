//! Phases of the shards of a folder on a disk in memory. They time themselves and print microseconds.
//!
//! `load SHARDS` writes so many shard files with 1,000 chunks each, opens a manager over their folder, and prints the
//! number of files. `register SHARDS` then times the registration of all. `query SHARDS` then times 1,000,000
//! queries of chunks that are in none of them, and as many of chunks that are; as many look-ups of the first words of
//! the same hashes in a map from word to place, in the same order, and in the manager's index; and, as often, what the
//! disk is asked for a chunk that is there: `stat`, and two reads of 48 bytes. It prints these seven times in this order.
//!
//! `merge SHARDS` writes so many shard files with 10 chunks each, and times merging them into another folder, with a
//! target of 64 MiB.
//!
//! `check SHARDS` does what `query SHARDS` does, with as many calls of each kind as there are chunks, but prints no
//! time: a line with the number of registered shards, and one with how many of the queries and look-ups have an answer,
//! in the same order, and the number of bytes that were read.
#![tactic(auto)]

mod asked;
mod made;
mod phases;
mod timed;

use crate::phases::{Phase, manage, merge};
use std::env;
use std::process::ExitCode;

/// The maximum number of shards.
const MAX: u64 = 10_000;

fn main(rt: HostRuntime) -> ExitCode {
    let Some((phase, shards)) = read_words(&rt) else {
        return ExitCode::from(2);
    };
    let answer = match phase {
        Phase::Merge => merge(&rt, rt.alloc(), shards),
        _ => manage(&rt, rt.alloc(), phase, shards),
    };
    match answer {
        Ok(()) => ExitCode::from(0),
        Err(_) => ExitCode::from(1),
    }
}

/// The phase and the number that the arguments give.
fn read_words(rt: &HostRuntime) -> Option<(Phase, u64)> {
    let mut words = env::args(rt).ok()?.skip(1);
    let phase = phase_of(words.next()?.as_str())?;
    let shards = words.next()?.as_str().parse::<u64>().ok()?;
    if shards > MAX {
        return None;
    }
    Some((phase, shards))
}

fn phase_of(word: &str) -> Option<Phase> {
    Some(match word {
        "load" => Phase::Load,
        "register" => Phase::Register,
        "query" => Phase::Query,
        "merge" => Phase::Merge,
        "check" => Phase::Check,
        _ => return None,
    })
}
