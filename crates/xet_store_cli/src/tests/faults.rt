//! Tests of runs in which the input, a file, the output or the disk fails.

use super::{
    ABC, INPUT, TWO_FILES, WORDS, count_files, named_files, release, run, run_over, run_with,
    words_of,
};
use std::alloc::Global;
use std::marker::Sync;
use std::sync::Wait;
use std::test::Fail;
use std::thread::Threads;
use xet_io::{
    FailingSink, FailingSource, MemoryDisk, MemoryInputs, MemorySink, Op, Refusal, Sink,
    SliceSource, Source,
};

/// Whether a run on a disk that another run left prints its report.
fn runs_again<R: Threads + Wait + Sync>(
    rt: &R,
    alloc: Global,
    disk: &mut MemoryDisk,
) -> Result<bool, Refusal> {
    let (text, status) = run(rt, alloc, WORDS, INPUT, disk)?;
    Ok(status == 0 && text.as_str() == ABC)
}

/// The status of a run on a new disk, and whether a later run prints its report.
fn run_twice<R: Threads + Wait + Sync, I: Source, O: Sink>(
    rt: &R,
    alloc: Global,
    input: &mut I,
    output: &mut O,
) -> Result<(u8, bool), Refusal> {
    let mut disk = MemoryDisk::new(alloc);
    let status = run_over(rt, alloc, WORDS, input, output, &mut disk);
    let again = runs_again(rt, alloc, &mut disk);
    release(disk);
    Ok((status?, again?))
}

#[test]
fn a_read_that_fails_is_status_4(rt: HostRuntime) -> Result<(), Fail> {
    let alloc = rt.alloc();
    for place in 0..=INPUT.len() as u64 {
        let mut source = FailingSource::new(INPUT.as_bytes(), place);
        let mut sink = MemorySink::new(alloc);
        let (status, again) = run_twice(&rt, alloc, &mut source, &mut sink)?;
        assert_eq!(rt;
            (status, sink.bytes().len(), again),
            (4, 0, true),
            "at {place}"
        );
    }
    Ok(())
}

#[test]
fn a_write_that_fails_is_status_5(rt: HostRuntime) -> Result<(), Fail> {
    let alloc = rt.alloc();
    for place in 0..ABC.len() {
        let mut source = SliceSource::new(INPUT.as_bytes());
        let mut sink = FailingSink::new(alloc, place as u64);
        let (status, again) = run_twice(&rt, alloc, &mut source, &mut sink)?;
        let due = &ABC.as_bytes()[..place];
        assert_eq!(rt; (status, sink.bytes(), again), (5, due, true), "at {place}");
    }
    Ok(())
}

/// The status of a run over a disk whose first call of a kind fails, how much was printed, and whether a later run
/// prints its report.
fn run_failing<R: Threads + Wait + Sync>(
    rt: &R,
    alloc: Global,
    op: Op,
) -> Result<(u8, usize, bool), Refusal> {
    let mut fails = Vec::new(alloc);
    fails.push((op, 0))?;
    let mut disk = MemoryDisk::failing(alloc, fails);
    let found = run(rt, alloc, WORDS, "file 616263\nrange 1 0 3\n", &mut disk);
    let again = runs_again(rt, alloc, &mut disk);
    release(disk);
    let (text, status) = found?;
    Ok((status, text.len(), again?))
}

#[test]
fn a_disk_that_fails_is_status_6(rt: HostRuntime) -> Result<(), Fail> {
    for op in [Op::List, Op::Write, Op::Sync, Op::Rename, Op::ReadAt] {
        assert_eq!(rt;
            run_failing(&rt, rt.alloc(), op)?,
            (6, 0, true),
            "at {op:?}"
        );
    }
    Ok(())
}

/// What is seen of a run: the status, how much was printed, and the number of files.
type Seen = (u8, usize, usize);

/// Runs the program over inputs of which the open number `place` fails.
fn open_failing<R: Threads + Wait + Sync>(
    rt: &R,
    alloc: Global,
    place: u64,
    disk: &mut MemoryDisk,
) -> Result<Seen, Refusal> {
    let words = words_of(alloc, "clean empty a")?;
    let inputs = MemoryInputs::failing(alloc, named_files(alloc)?, place);
    let mut source = SliceSource::new(b"");
    let mut sink = MemorySink::new(alloc);
    let status = run_with(rt, alloc, &words, &mut source, &mut sink, disk, inputs);
    Ok((status, sink.bytes().len(), count_files(alloc, disk)?))
}

#[test]
fn a_file_that_cannot_be_opened_is_status_4(rt: HostRuntime) -> Result<(), Fail> {
    let alloc = rt.alloc();
    for place in 0..2 {
        let mut disk = MemoryDisk::new(alloc);
        let seen = open_failing(&rt, alloc, place, &mut disk);
        let later = run(&rt, alloc, "clean empty a", "", &mut disk);
        release(disk);
        assert_eq!(rt; seen?, (4, 0, 0), "at {place}");
        let (text, status) = later?;
        assert_eq!(rt; (text.as_str(), status), (TWO_FILES, 0), "at {place}");
    }
    Ok(())
}
