//! The program: it stores files in a folder, lists them and reads them back.
//!
//! `xet_program::run_program` is the whole program, over any input, output, disk and inputs. `main` passes the standard
//! streams, the current folder, and for `pack` and `make` a disk in memory, of which nothing is left when the program
//! ends. `clean` locks the current folder.
#![tactic(auto)]

use std::process::ExitCode;
use std::time::SystemTime;
use std::{env, io};
use xet_fs::{FolderDisk, FolderInputs};
use xet_io::{MemoryDisk, StdSink, StdSource};
use xet_program::run_program;

#[cfg(test)]
mod tests;

/// Runs the command of the arguments over the standard streams and the current folder, and exits with its status: 2
/// if an argument is not text, 1 if there is no memory for the arguments.
fn main(rt: HostRuntime) -> ExitCode {
    let alloc = rt.alloc();
    let words = match read_words(&rt) {
        Ok(words) => words,
        Err(status) => return ExitCode::from(status),
    };
    let now = seconds(&rt);
    let mut input = StdSource::new(rt.stdin());
    let mut output = StdSink::new(rt.stdout());
    let mut files = FolderInputs::new(alloc, rt, String::new(alloc));
    let (input, output, files) = (&mut input, &mut output, &mut files);
    let status = if stores_in_memory(&words) {
        let disk = MemoryDisk::new(alloc);
        run_program(alloc, &rt, &words, input, output, disk, files, now).1
    } else {
        let disk = folder_disk(rt, &words);
        run_program(alloc, &rt, &words, input, output, disk, files, now).1
    };
    ExitCode::from(status)
}

/// Whether the command stores what it reports in memory: `pack` and `make`.
fn stores_in_memory(words: &[String]) -> bool {
    words
        .first()
        .is_some_and(|word| matches!(word.as_str(), "pack" | "make"))
}

/// The disk over the current folder. Where the command changes the folder, the disk locks it.
fn folder_disk(rt: HostRuntime, words: &[String]) -> FolderDisk<HostRuntime> {
    let alloc = rt.alloc();
    let root = String::new(alloc);
    if changes_folder(words) {
        FolderDisk::locked(alloc, rt, root)
    } else {
        FolderDisk::new(alloc, rt, root)
    }
}

/// Whether the command changes the folder: `clean`.
fn changes_folder(words: &[String]) -> bool {
    words.first().is_some_and(|word| word.as_str() == "clean")
}

/// The arguments after the program's name, or the status if they cannot be read.
fn read_words(rt: &HostRuntime) -> Result<Vec<String>, u8> {
    let args = env::args(rt).map_err(|error| status_of(&error))?;
    let mut words = Vec::new(rt.alloc());
    for word in args.skip(1) {
        words.push(word).map_err(|_| 1u8)?;
    }
    Ok(words)
}

/// The status if the arguments cannot be read.
fn status_of(error: &io::Error) -> u8 {
    if error.kind() == io::ErrorKind::OutOfMemory {
        1
    } else {
        2
    }
}

/// The current time in seconds since 1970; 0 if the clock fails or is before 1970.
fn seconds(rt: &HostRuntime) -> u64 {
    match SystemTime::now(rt) {
        Ok(now) => now
            .duration_since(SystemTime::UNIX_EPOCH)
            .map_or(0, |since| since.as_secs()),
        Err(_) => 0,
    }
}
