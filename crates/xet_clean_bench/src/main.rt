//! Cleaning on a disk in memory, at the default limits.
//!
//! `time MIB FILES` cleans a generated file of so many mebibytes, cut into files of equal length, in one call; then the same
//! files again; then it flushes, and opens the folder again. It prints the microseconds of each of the three.
//!
//! `check MIB FILES` does the same, and prints no time: a line each for the first and the second call with the numbers of
//! chunks, of new chunks, and of xorbs after it, and one with the number of shards that were opened.
//!
//! `workers MIB FILES WORKERS` cleans the files once, by so many workers, and prints the microseconds.
//!
//! `repeats MIB` cleans a file that repeats 8 MiB, each time with one new chunk, by one worker, and prints the microseconds.
//!
//! `digests MIB` computes the SHA-256 of a generated file on two threads at once, and prints the microseconds of both together.
#![tactic(auto)]

mod cleaning;
mod made;
mod repeats;
mod workers;

use crate::cleaning::{Call, Figures, figures_of};
use crate::repeats::time_repeats;
use crate::workers::{time_digests, time_workers};
use std::alloc::Global;
use std::marker::Sync;
use std::process::ExitCode;
use std::sync::Wait;
use std::thread::Threads;
use std::time::Clock;
use std::{env, println};
use xet_hash::StoreError;

/// The maximum number of mebibytes.
const MAX_MEBIBYTES: u64 = 1 << 12;

/// The maximum number of files.
const MAX_FILES: u64 = 1 << 20;

/// What is cleaned: so many mebibytes, in so many files.
#[derive(Clone, Copy)]
struct Input {
    mebibytes: u64,
    files: u64,
}

/// What a run does.
#[derive(Clone, Copy)]
enum Phase {
    Time(Input),
    Check(Input),
    Workers(Input, u32),
    Repeats(u64),
    Digests(u64),
}

fn main(rt: HostRuntime) -> ExitCode {
    let Some(phase) = read_words(&rt) else {
        return ExitCode::from(2);
    };
    match answer_of(&rt, rt.alloc(), phase) {
        Ok(answer) => {
            print_answer(&rt, &answer);
            ExitCode::from(0)
        }
        Err(_) => ExitCode::from(1),
    }
}

/// The phase that the arguments give.
fn read_words(rt: &HostRuntime) -> Option<Phase> {
    let mut words = env::args(rt).ok()?.skip(1);
    let name = words.next()?;
    let mebibytes = words.next()?.as_str().parse::<u64>().ok()?;
    if mebibytes > MAX_MEBIBYTES {
        return None;
    }
    match name.as_str() {
        "digests" => return Some(Phase::Digests(mebibytes)),
        "repeats" => return Some(Phase::Repeats(mebibytes)),
        _ => {}
    }
    let files = words.next()?.as_str().parse::<u64>().ok()?;
    if files > MAX_FILES {
        return None;
    }
    let input = Input { mebibytes, files };
    match name.as_str() {
        "time" => Some(Phase::Time(input)),
        "check" => Some(Phase::Check(input)),
        "workers" => {
            let workers = words.next()?.as_str().parse::<u32>().ok()?;
            Some(Phase::Workers(input, workers))
        }
        _ => None,
    }
}
/// What a run prints.
#[derive(Clone, Copy)]
enum Answer {
    Times(Figures),
    Numbers(Figures),
    Microseconds(u64),
}

fn answer_of<R: Clock + Sync + Threads + Wait>(
    rt: &R,
    alloc: Global,
    phase: Phase,
) -> Result<Answer, StoreError> {
    match phase {
        Phase::Time(input) => Ok(Answer::Times(figures_of(
            rt,
            alloc,
            input.mebibytes,
            input.files,
        )?)),
        Phase::Check(input) => Ok(Answer::Numbers(figures_of(
            rt,
            alloc,
            input.mebibytes,
            input.files,
        )?)),
        Phase::Workers(input, workers) => Ok(Answer::Microseconds(time_workers(
            rt,
            alloc,
            input.mebibytes,
            input.files,
            workers,
        )?)),
        Phase::Repeats(mebibytes) => {
            Ok(Answer::Microseconds(time_repeats(rt, alloc, mebibytes)?))
        }
        Phase::Digests(mebibytes) => {
            Ok(Answer::Microseconds(time_digests(rt, alloc, mebibytes)?))
        }
    }
}

fn print_answer(rt: &HostRuntime, answer: &Answer) {
    match answer {
        Answer::Times(figures) => print_times(rt, figures),
        Answer::Numbers(figures) => print_numbers(rt, figures),
        Answer::Microseconds(time) => {
            let _ = println!(rt; "{time}");
        }
    }
}

fn print_times(rt: &HostRuntime, figures: &Figures) {
    let first = figures.first.time;
    let second = figures.second.time;
    let reopened = figures.reopened.0;
    let _ = println!(rt; "{first} {second} {reopened}");
}

fn print_numbers(rt: &HostRuntime, figures: &Figures) {
    print_call(rt, &figures.first);
    print_call(rt, &figures.second);
    let shards = figures.reopened.1;
    let _ = println!(rt; "{shards}");
}

fn print_call(rt: &HostRuntime, call: &Call) {
    let chunks = call.chunks;
    let new_chunks = call.new_chunks;
    let xorbs = call.xorbs;
    let _ = println!(rt; "{chunks} {new_chunks} {xorbs}");
}
