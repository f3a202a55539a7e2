//! A source over a file of the operating system. Its bytes are not observable.

ghost use Rattle.std.specs.Prelude.{◌≡◌, ◌≤◌, ℕ, [], false, length, IfOk, IsErr};
ghost use Rattle.xet_io.specs.Faults.{HasCause, counted};

use std::fs::{self, File, Files};
use std::marker::Model;
use xet_io::{Failed, Source, StdSource};

/// A source over a file of the operating system. A regular file is opened at its first read, so that many sources need
/// one open file at a time; where it is gone by then, that is a failure. What was read to its end is closed. Contracts
/// see the number of failures.
#[derive(Drop)]
pub struct FileSource<R> {
    runtime: R,
    reading: Reading,
    faults: u64,
}

/// Where a source reads.
#[derive(Drop)]
enum Reading {
    /// The regular file at this path, which no read has opened yet.
    Closed(String),
    /// This file.
    Opened(StdSource<File>),
    /// Nothing: it was read to its end.
    Ended,
}

impl<R> Model for FileSource<R> {
    ghost Value = { ℕ };

    ghost view = { λ s. s.faults };
}

impl<R: Files<File = File>> FileSource<R> {
    /// A source over the regular file at a path, which is not opened yet.
    pub(crate) fn closed(runtime: R, path: String) -> FileSource<R>
        ensures { result ≡ 0 }
    {
        FileSource {
            runtime,
            reading: Reading::Closed(path),
            faults: 0,
        }
    }

    /// A source over an opened file.
    pub(crate) fn opened(runtime: R, file: File) -> FileSource<R>
        ensures { result ≡ 0 }
    {
        FileSource {
            runtime,
            reading: Reading::Opened(StdSource::new(file)),
            faults: 0,
        }
    }

    /// The number of failures so far, up to 2^64 - 1.
    pub fn failures(&self) -> u64
        ensures { result ≡ self.now }
    {
        self.faults
    }

    /// The file, opened now, if no read has opened it yet.
    fn opened_first(&self) -> Result<Option<File>, Failed> {
        match &self.reading {
            Reading::Closed(path) => match fs::open(&self.runtime, path.as_str()) {
                Ok(file) => Ok(Some(file)),
                Err(_) => Err(Failed),
            },
            _ => Ok(None),
        }
    }

    fn read_opened(&mut self, buf: &mut [u8]) -> Result<usize, Failed>
        ensures bound { IfOk result (λ count. count ≤ length buf.new) }
        ensures same { self.new ≡ self.old }
    {
        match &mut self.reading {
            Reading::Opened(file) => file.read(buf),
            _ => Ok(0),
        }
    }

    /// Reads, and closes the file at its end. Counts no failure.
    fn read_next(&mut self, buf: &mut [u8]) -> Result<usize, Failed>
        ensures bound { IfOk result (λ count. count ≤ length buf.new) }
        ensures same { self.new ≡ self.old }
    {
        if let Some(file) = self.opened_first()? {
            self.reading = Reading::Opened(StdSource::new(file));
        }
        let count = self.read_opened(buf)?;
        if count == 0 && !buf.is_empty() {
            self.reading = Reading::Ended;
        }
        Ok(count)
    }
}

impl<R: Files<File = File>> Source for FileSource<R> {
    ghost tells = { λ _. false };

    ghost left = { λ _. [] };

    ghost faults = { λ s. s };

    /// Calls `open` at the first read of a regular file, `read`, and `close` at the end.
    fn read(&mut self, buf: &mut [u8]) -> Result<usize, Failed>
        ensures bound { IfOk result (λ count. count ≤ length buf.new) }
        ensures counted { self.new ≡ counted result self.old }
        ensures cause { HasCause self.old self.new (IsErr result) }
    {
        let answer = self.read_next(buf);
        if answer.is_err() {
            self.faults = self.faults.saturating_add(1);
        }
        answer
    }
}
