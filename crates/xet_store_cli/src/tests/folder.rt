//! Tests of runs over a folder of the operating system, each run with a disk and inputs of its own.

use super::{ABC, LISTED, ZEROS, words_of};
use std::marker::Sync;
use std::os::unix::fs::symlink;
use std::process::Abort;
use std::sync::Wait;
use std::test::Fail;
use std::thread::Threads;
use std::{env, fs, io, process};
use xet_fs::{FolderDisk, FolderInputs};
use xet_io::{MemorySink, Refusal, SliceSource};
use xet_program::run_program;

/// A new folder for this process and test, with a file `a` that has the bytes `abc`.
fn folder_with_file(rt: &HostRuntime, test: &str) -> io::Result<String> {
    let alloc = rt.alloc();
    let id = process::id(rt.process());
    let temp = env::temp_dir(rt)?.into_string();
    let root = format!(in alloc; "{temp}/xet_store_cli_{id}_{test}")?;
    let _ = fs::remove_dir_all(rt, root.as_str());
    fs::create_dir(rt, root.as_str())?;
    fs::write(rt, format!(in alloc; "{root}/a")?, "abc")?;
    Ok(root)
}

/// Runs the program over a disk and inputs in these folders. Returns the status.
fn run_between<R: Threads + Wait + Sync>(
    rt: &R,
    host: HostRuntime,
    words: &[String],
    output: &mut MemorySink,
    folders: (String, String),
) -> u8 {
    let alloc = host.alloc();
    let disk = FolderDisk::new(alloc, host, folders.0);
    let mut inputs = FolderInputs::new(alloc, host, folders.1);
    let mut input = SliceSource::new(b"");
    run_program(alloc, rt, words, &mut input, output, disk, &mut inputs, 0).1
}

/// Runs the program in a folder. Returns what it printed, and the status.
fn run_in<R: Threads + Wait + Sync>(
    rt: &R,
    host: HostRuntime,
    root: &str,
    words: &str,
) -> Result<(String, u8), Refusal> {
    let alloc = host.alloc();
    let words = words_of(alloc, words)?;
    let folders = (
        String::from_str(alloc, root)?,
        String::from_str(alloc, root)?,
    );
    let mut output = MemorySink::new(alloc);
    let status = run_between(rt, host, &words, &mut output, folders);
    Ok((String::from_utf8_lossy(alloc, output.bytes())?, status))
}

/// Runs commands in a folder, one after another.
fn run_by_name<R: Threads + Wait + Sync + Abort>(
    rt: &R,
    host: HostRuntime,
    root: &str,
) -> Result<(), Refusal> {
    let rows = [
        ("list", "", 0u8),
        ("clean a missing", "", 8),
        ("clean a .", "", 4),
        ("clean a ../a", "", 8),
        ("clean a", ABC, 0),
        ("list", LISTED, 0),
        (
            "read 8679a9c73b087ee02033e84569cba8c79c2413d79f99a1e9bd1ae79ae88776cf 1 3",
            "bc",
            0,
        ),
    ];
    for (words, due, status) in rows {
        let found = run_in(rt, host, root, words)?;
        assert_eq!(rt; (found.0.as_str(), found.1), (due, status), "with {words}");
    }
    Ok(())
}

/// Runs the program beside a shard that is not valid, which is removed again. Returns what was printed, and the status.
fn run_beside_shard<R: Threads + Wait + Sync>(
    rt: &R,
    host: HostRuntime,
    root: &str,
) -> Result<(String, u8), Refusal> {
    let bad = format!(in host.alloc(); "{root}/store/{ZEROS}")?;
    fs::write(&host, bad.as_str(), "x")?;
    let found = run_in(rt, host, root, "clean a")?;
    fs::remove_file(&host, bad.as_str())?;
    Ok(found)
}

#[test]
fn a_later_run_reads_what_an_earlier_one_stored(rt: HostRuntime) -> Result<(), Fail> {
    let root = folder_with_file(&rt, "later")?;
    run_by_name(&rt, rt, &root)?;
    let (text, status) = run_beside_shard(&rt, rt, &root)?;
    let told = format!(in rt.alloc(); "bad shard {ZEROS}\n")?;
    assert_eq!(rt; (text.as_str(), status), (told.as_str(), 7));
    assert_eq!(rt; run_in(&rt, rt, &root, "list")?.0.as_str(), LISTED);
    fs::remove_dir_all(&rt, root.as_str())?;
    Ok(())
}

#[test]
fn a_folder_that_cannot_be_written_is_status_6(rt: HostRuntime) -> Result<(), Fail> {
    let root = folder_with_file(&rt, "link")?;
    fs::create_dir(&rt, format!(in rt.alloc(); "{root}/elsewhere")?)?;
    symlink(&rt, "elsewhere", format!(in rt.alloc(); "{root}/store")?)?;
    assert_eq!(rt; run_in(&rt, rt, &root, "list")?.1, 0);
    let found = run_in(&rt, rt, &root, "clean a")?;
    assert_eq!(rt; (found.0.len(), found.1), (0, 6));
    fs::remove_dir_all(&rt, root.as_str())?;
    Ok(())
}
