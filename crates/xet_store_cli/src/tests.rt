//! Tests of the program over an input, an output and a disk in memory.

use std::alloc::Global;
use std::marker::Sync;
use std::mem;
use std::process::Abort;
use std::sync::Wait;
use std::test::Fail;
use std::thread::Threads;
use xet_io::{Disk, MemoryDisk, MemoryInputs, MemorySink, Refusal, Sink, SliceSource, Source};
use xet_program::run_program;

mod faults;
mod folder;
mod generated;
mod stored;
mod workers;

const ABC: &str =
    "8679a9c73b087ee02033e84569cba8c79c2413d79f99a1e9bd1ae79ae88776cf 3 ba7816bf8f01cfea414140de5dae2223b00361a396177a9cb410ff61f20015ad\n";

const NOTHING: &str =
    "0000000000000000000000000000000000000000000000000000000000000000 0 e3b0c44298fc1c149afbf4c8996fb92427ae41e4649b934ca495991b7852b855\n";

const ONE_ZERO: &str =
    "b118eb6b1e0b61b6af72793e29bf136ad42b7d2052b0be0fae9a04a58e48f3b7 1 6e340b9cffb37a989ca544e6bb780a2c78901d3fb33738768511a30617afa01d\n";

const LISTED: &str = "8679a9c73b087ee02033e84569cba8c79c2413d79f99a1e9bd1ae79ae88776cf 3\n";

const TWO_FILES: &str =
    "0000000000000000000000000000000000000000000000000000000000000000 0 e3b0c44298fc1c149afbf4c8996fb92427ae41e4649b934ca495991b7852b855\n8679a9c73b087ee02033e84569cba8c79c2413d79f99a1e9bd1ae79ae88776cf 3 ba7816bf8f01cfea414140de5dae2223b00361a396177a9cb410ff61f20015ad\n";

const TWO_ZEROS: &str =
    "b118eb6b1e0b61b6af72793e29bf136ad42b7d2052b0be0fae9a04a58e48f3b7 1 6e340b9cffb37a989ca544e6bb780a2c78901d3fb33738768511a30617afa01d\nb118eb6b1e0b61b6af72793e29bf136ad42b7d2052b0be0fae9a04a58e48f3b7 1 6e340b9cffb37a989ca544e6bb780a2c78901d3fb33738768511a30617afa01d\n";

/// The files `a`, which has the bytes `abc`, and `empty`.
fn named_files(alloc: Global) -> Result<Vec<(String, Vec<u8>)>, Refusal> {
    let mut files = Vec::new(alloc);
    files.push((
        String::from_str(alloc, "a")?,
        Vec::from_slice(alloc, b"abc")?,
    ))?;
    files.push((String::from_str(alloc, "empty")?, Vec::new(alloc)))?;
    Ok(files)
}

/// The arguments of a run, which are separated by spaces.
fn words_of(alloc: Global, words: &str) -> Result<Vec<String>, Refusal> {
    let mut list = Vec::new(alloc);
    for word in words.split_whitespace() {
        list.push(String::from_str(alloc, word)?)?;
    }
    Ok(list)
}

/// Drops a disk.
fn release(disk: MemoryDisk) {
    let _ = &disk;
}

/// Runs the program with these inputs, which it drops. Returns the status.
fn run_with<R: Threads + Wait + Sync, I: Source, O: Sink>(
    rt: &R,
    alloc: Global,
    words: &[String],
    input: &mut I,
    output: &mut O,
    disk: &mut MemoryDisk,
    mut inputs: MemoryInputs,
) -> u8 {
    let before = mem::replace(disk, MemoryDisk::new(alloc));
    let (after, status) = run_program(alloc, rt, words, input, output, before, &mut inputs, 0);
    release(mem::replace(disk, after));
    status
}

/// Runs the program with these arguments. Returns the status.
fn run_over<R: Threads + Wait + Sync, I: Source, O: Sink>(
    rt: &R,
    alloc: Global,
    words: &str,
    input: &mut I,
    output: &mut O,
    disk: &mut MemoryDisk,
) -> Result<u8, Refusal> {
    let list = words_of(alloc, words)?;
    let inputs = MemoryInputs::new(alloc, named_files(alloc)?);
    Ok(run_with(rt, alloc, &list, input, output, disk, inputs))
}

/// The same over this input. Returns what was printed, and the status.
fn run<R: Threads + Wait + Sync>(
    rt: &R,
    alloc: Global,
    words: &str,
    input: &str,
    disk: &mut MemoryDisk,
) -> Result<(String, u8), Refusal> {
    let mut source = SliceSource::new(input.as_bytes());
    let mut sink = MemorySink::new(alloc);
    let status = run_over(rt, alloc, words, &mut source, &mut sink, disk)?;
    Ok((String::from_utf8_lossy(alloc, sink.bytes())?, status))
}

/// The same over a new disk.
fn run_once<R: Threads + Wait + Sync>(
    rt: &R,
    alloc: Global,
    words: &str,
    input: &str,
) -> Result<(String, u8), Refusal> {
    let mut disk = MemoryDisk::new(alloc);
    let found = run(rt, alloc, words, input, &mut disk);
    release(disk);
    found
}

/// The number of files in the folder of a disk.
fn count_files(alloc: Global, disk: &mut MemoryDisk) -> Result<usize, Refusal> {
    Ok(disk.list(alloc, "store")?.len())
}

/// Runs the program. Returns what was printed, the status, and the number of files in the folder afterwards.
fn run_and_count<R: Threads + Wait + Sync>(
    rt: &R,
    alloc: Global,
    words: &str,
    input: &str,
    disk: &mut MemoryDisk,
) -> Result<(String, u8, usize), Refusal> {
    let (text, status) = run(rt, alloc, words, input, disk)?;
    Ok((text, status, count_files(alloc, disk)?))
}

/// The same over a new disk.
fn run_and_count_once<R: Threads + Wait + Sync>(
    rt: &R,
    alloc: Global,
    words: &str,
    input: &str,
) -> Result<(String, u8, usize), Refusal> {
    let mut disk = MemoryDisk::new(alloc);
    let found = run_and_count(rt, alloc, words, input, &mut disk);
    release(disk);
    found
}

#[test]
fn lines_of_an_input(rt: HostRuntime) -> Result<(), Fail> {
    let rows = [
        ("file 616263\n", ABC, 0u8),
        ("file 616263", ABC, 0),
        ("\n\r\nfile 616263\r\n\n", ABC, 0),
        ("file\n", NOTHING, 0),
        ("file \n", NOTHING, 0),
        ("", "", 0),
        ("\n\n", "", 0),
        ("file 00\nfile 00\n", TWO_ZEROS, 0),
        ("file 00\n\n\nrange 1 0\n", "bad line 4\n", 3),
        ("range 1 0 0 \n", "bad line 1\n", 3),
        ("range  1 0 0\n", "bad line 1\n", 3),
        ("range 1 0 -0\n", "bad line 1\n", 3),
        ("range 1 0 18446744073709551616\n", "bad line 1\n", 3),
        ("Range 1 0 0\n", "bad line 1\n", 3),
        ("range 1 0 0\nfile 0\n", "bad line 2\n", 3),
        ("fil\n", "bad line 1\n", 3),
        ("\nfile 0\n", "bad line 2\n", 3),
        ("file  00\n", "bad line 1\n", 3),
        ("file 0g\n", "bad line 1\n", 3),
        ("file 00\r", "bad line 1\n", 3),
        ("file 00\r\n", ONE_ZERO, 0),
        ("File 00\n", "bad line 1\n", 3),
    ];
    for (input, text, status) in rows {
        let found = run_once(&rt, rt.alloc(), "pack 512 zero", input)?;
        assert_eq!(rt;
            (found.0.as_str(), found.1),
            (text, status),
            "over {input:?}"
        );
    }
    Ok(())
}

#[test]
fn words_of_a_command(rt: HostRuntime) -> Result<(), Fail> {
    let rows = [
        ("pack 512 zero", 0u8),
        ("pack 0512 one", 0),
        ("pack 128 18446744073709551615", 0),
        ("pack 2097152 00000000000000000007", 0),
        ("", 2),
        ("pack", 2),
        ("pack 512", 2),
        ("pack 512 zero 1", 0),
        ("pack 512 zero 256", 0),
        ("pack 512 zero 00000000000000000007", 0),
        ("pack 512 zero 0", 2),
        ("pack 512 zero 257", 2),
        ("pack 512 zero one", 2),
        ("pack 512 zero 1 1", 2),
        ("pick 512 zero", 2),
        ("pack 100 zero", 2),
        ("pack 64 zero", 2),
        ("pack 4194304 zero", 2),
        ("pack +512 zero", 2),
        ("pack 512 -1", 2),
        ("pack 512 two", 2),
        ("pack 512 18446744073709551616", 2),
        ("pack 512 000000000000000000007", 2),
        ("-pack 512 zero", 2),
        ("list", 0),
        ("list a", 2),
        ("group", 0),
        ("group a", 2),
        ("clean", 2),
        ("clean -a", 2),
        ("clean a -", 2),
        ("read", 2),
        (
            "read 0000000000000000000000000000000000000000000000000000000000000000",
            2,
        ),
        (
            "read 0000000000000000000000000000000000000000000000000000000000000000 0",
            2,
        ),
        (
            "read 0000000000000000000000000000000000000000000000000000000000000000 0 0",
            0,
        ),
        (
            "read 0000000000000000000000000000000000000000000000000000000000000000 0 -0",
            2,
        ),
        (
            "read 000000000000000000000000000000000000000000000000000000000000000 0 0",
            2,
        ),
        (
            "read 000000000000000000000000000000000000000000000000000000000000000g 0 0",
            2,
        ),
        ("make", 2),
        ("make 7", 2),
        ("make 7 0", 2),
        ("make 7 67108865", 2),
        ("make 7 1 1", 2),
        ("make 18446744073709551616 1", 2),
        ("check", 2),
        ("merge 1", 2),
    ];
    for (words, status) in rows {
        let found = run_once(&rt, rt.alloc(), words, "")?;
        assert_eq!(rt; (found.0.as_str(), found.1), ("", status), "with {words}");
    }
    Ok(())
}

#[test]
fn ranges_of_a_file(rt: HostRuntime) -> Result<(), Fail> {
    let alloc = rt.alloc();
    let rows = [
        ("file 616263\nrange 1 1 3\n", ABC, "6263\n", 0u8),
        ("range 01 0 1\r\nfile 616263\nrange 1 3 3", ABC, "61\n\n", 0),
        ("file\nrange 1 0 0\n", NOTHING, "\n", 0),
        ("file 616263\nrange 1 3 2\n", "", "", 8),
        ("file 616263\nrange 1 0 4\n", "", "", 8),
        ("file 616263\nrange 2 0 0\n", "", "", 8),
        ("file 616263\nrange 0 0 0\n", "", "", 8),
        ("range 1 0 0\n", "", "", 8),
        (
            "range 2 0 1\nfile\nfile 616263\nrange 1 0 0\nrange 2 1 3\n",
            TWO_FILES,
            "61\n\n6263\n",
            0,
        ),
        ("file 616263\nfile\nrange 2 0 1\n", "", "", 8),
    ];
    for (input, line, ranges, status) in rows {
        let files = if line == ABC || line == TWO_FILES {
            2usize
        } else {
            0
        };
        let mut due = String::from_str(alloc, line)?;
        due.push_str(ranges)?;
        let found = run_and_count_once(&rt, alloc, WORDS, input)?;
        assert_eq!(rt;
            (found.0.as_str(), found.1, found.2),
            (due.as_str(), status, files),
            "over {input:?}"
        );
    }
    Ok(())
}

#[test]
fn groups_of_an_input(rt: HostRuntime) -> Result<(), Fail> {
    let alloc = rt.alloc();
    let rows = [
        (
            [0u8, 1, 2, 3, 4, 5, 6].as_slice(),
            [0u8, 4, 1, 5, 2, 6, 3].as_slice(),
        ),
        ([].as_slice(), [].as_slice()),
        ([9].as_slice(), [9].as_slice()),
    ];
    for (input, text) in rows {
        let mut source = SliceSource::new(input);
        let mut sink = MemorySink::new(alloc);
        let mut disk = MemoryDisk::new(alloc);
        let status = run_over(&rt, alloc, "group", &mut source, &mut sink, &mut disk);
        release(disk);
        assert_eq!(rt; (sink.bytes(), status?), (text, 0), "over {input:?}");
    }
    Ok(())
}

/// Runs commands on a disk, one after another.
fn run_by_name<R: Threads + Wait + Sync + Abort>(
    rt: &R,
    alloc: Global,
    disk: &mut MemoryDisk,
) -> Result<(), Refusal> {
    let rows = [
        ("list", "", 0u8, 0usize),
        ("clean missing", "", 8, 0),
        ("clean a missing", "", 8, 0),
        ("clean empty", NOTHING, 0, 0),
        ("clean empty a", TWO_FILES, 0, 2),
        ("clean a", ABC, 0, 2),
        ("list", LISTED, 0, 2),
        (
            "read 8679a9c73b087ee02033e84569cba8c79c2413d79f99a1e9bd1ae79ae88776cf 1 3",
            "bc",
            0,
            2,
        ),
        (
            "read 8679A9C73B087EE02033E84569CBA8C79C2413D79F99A1E9BD1AE79AE88776CF 0 03",
            "abc",
            0,
            2,
        ),
        (
            "read 8679a9c73b087ee02033e84569cba8c79c2413d79f99a1e9bd1ae79ae88776cf 3 3",
            "",
            0,
            2,
        ),
        (
            "read 8679a9c73b087ee02033e84569cba8c79c2413d79f99a1e9bd1ae79ae88776cf 0 4",
            "",
            8,
            2,
        ),
        (
            "read 8679a9c73b087ee02033e84569cba8c79c2413d79f99a1e9bd1ae79ae88776cf 2 1",
            "",
            8,
            2,
        ),
        (
            "read 1679a9c73b087ee02033e84569cba8c79c2413d79f99a1e9bd1ae79ae88776cf 0 0",
            "",
            8,
            2,
        ),
        (
            "read 0000000000000000000000000000000000000000000000000000000000000000 0 0",
            "",
            0,
            2,
        ),
        (
            "read 0000000000000000000000000000000000000000000000000000000000000000 0 1",
            "",
            8,
            2,
        ),
    ];
    for (words, due, status, files) in rows {
        let found = run_and_count(rt, alloc, words, "", disk)?;
        assert_eq!(rt;
            (found.0.as_str(), found.1, found.2),
            (due, status, files),
            "with {words}"
        );
    }
    Ok(())
}

#[test]
fn files_by_name(rt: HostRuntime) -> Result<(), Fail> {
    let mut disk = MemoryDisk::new(rt.alloc());
    let answer = run_by_name(&rt, rt.alloc(), &mut disk);
    release(disk);
    Ok(answer?)
}

#[test]
fn a_file_that_is_named_twice_is_listed_once(rt: HostRuntime) -> Result<(), Fail> {
    let alloc = rt.alloc();
    let mut disk = MemoryDisk::new(alloc);
    let found = run(&rt, alloc, "clean a a", "", &mut disk);
    let listed = run(&rt, alloc, "list", "", &mut disk);
    release(disk);
    let (text, status) = found?;
    let due = format!(in alloc; "{ABC}{ABC}")?;
    assert_eq!(rt; (text.as_str(), status), (due.as_str(), 0));
    assert_eq!(rt; listed?.0.as_str(), LISTED);
    Ok(())
}

/// The arguments and the input of runs that store `abc`.
const WORDS: &str = "pack 512 zero";

const INPUT: &str = "file 616263\n";

/// The name of a shard that has the hash of no bytes here.
const ZEROS: &str = "0000000000000000000000000000000000000000000000000000000000000000.mdb";
