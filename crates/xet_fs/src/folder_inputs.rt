//! Inputs in a real folder. Their files are not observable.

ghost use Rattle.std.specs.Prelude.{◌≡◌, ◌-◌, false, IfOk, IfSome, IsErrOf};
ghost use Rattle.std.specs.FinMap.{empty};
ghost use Rattle.xet_io.specs.Faults.{HasCause, TakesFaults, after_close, faults_after};
ghost use Rattle.xet_io.specs.Opened.{opened_after};

use crate::file_source::FileSource;
use crate::folder_files::found;
use crate::folder_name::path_in;
use std::alloc::Global;
use std::fs::{self, File, Files};
use std::marker::{Model, Send};
use xet_io::{Inputs, Refusal};

/// Inputs in a real folder. A name is a path as the operating system takes it: relative to the folder, with `..`
/// allowed, or absolute; `~` and patterns are not expanded. Contracts see the number of failures and the number of
/// open sources.
#[derive(Drop)]
pub struct FolderInputs<R> {
    alloc: Global,
    runtime: R,
    root: String,
    faults: u64,
    opened: u64,
}

impl<R> Model for FolderInputs<R> {
    ghost use Rattle.xet_fs.specs.InputCounts.{InputCounts, counts_code};

    ghost Value = { InputCounts };

    ghost coded = { counts_code };

    ghost view = { λ i. record { faults = i.faults; opened = i.opened } };
}

impl<R: Files<File = File> + Copy> FolderInputs<R> {
    /// Inputs in this folder, which have not failed yet. Calls nothing of the system, and does not allocate.
    pub fn new(alloc: Global, runtime: R, root: String) -> FolderInputs<R>
        ensures { result ≡ record { faults = 0; opened = 0 } }
    {
        FolderInputs {
            alloc,
            runtime,
            root,
            faults: 0,
            opened: 0,
        }
    }

    fn open_file(&self, name: &str) -> Result<Option<FileSource<R>>, Refusal>
        ensures { IfOk result (λ found. IfSome found (λ source. source ≡ 0)) }
    {
        if name.is_empty() {
            return Ok(None);
        }
        let folder = if name.starts_with('/') {
            ""
        } else {
            self.root.as_str()
        };
        let path = path_in(self.alloc, folder, name)?;
        match found(fs::open(&self.runtime, &path))? {
            Some(file) => Ok(Some(self.source_over(file, path)?)),
            None => Ok(None),
        }
    }

    /// A source over a file that was opened at this path. A regular file is closed again until its first read; what can
    /// be opened once only, as a pipe, stays open. A folder is a failure.
    fn source_over(&self, file: File, path: String) -> Result<FileSource<R>, Refusal>
        ensures { IfOk result (λ source. source ≡ 0) }
    {
        let metadata = file.metadata()?;
        if metadata.is_dir() {
            return Err(Refusal::Failed);
        }
        if metadata.is_file() {
            return Ok(FileSource::closed(self.runtime, path));
        }
        Ok(FileSource::opened(self.runtime, file))
    }
}

impl<R: Files<File = File> + Copy + Send> Inputs for FolderInputs<R> {
    type S = FileSource<R>;

    ghost tells = { λ _. false };

    ghost files = { λ _. empty };

    ghost faults = { λ i. i.faults };

    ghost opened = { λ i. i.opened };

    /// Calls `open` and `statx`, and `close` for a regular file, which its first read opens again. A folder is a
    /// failure. An empty name does not exist.
    fn open(&mut self, name: &str) -> Result<Option<FileSource<R>>, Refusal>
        ensures whole { IfOk result (λ found. IfSome found (λ source. source ≡ 0)) }
        ensures counted { self.new.faults ≡ faults_after result self.old.faults }
        ensures opened { self.new.opened ≡ opened_after result self.old.opened }
        ensures cause { HasCause self.old.faults self.new.faults (IsErrOf result Refusal.Failed) }
        ensures no_fault { IsErrOf result Refusal.OutOfMemory → self.new.faults ≡ self.old.faults }
    {
        let answer = self.open_file(name);
        match &answer {
            Ok(Some(_)) => self.opened = self.opened.saturating_add(1),
            Err(Refusal::Failed) => self.faults = self.faults.saturating_add(1),
            _ => {}
        }
        answer
    }

    /// Calls `close` if the source is open.
    fn close(&mut self, source: FileSource<R>)
        ensures counted { self.new.faults ≡ after_close source self.old.faults }
        ensures opened { self.new.opened ≡ self.old.opened - 1 }
        ensures cause { TakesFaults source self.old.faults self.new.faults }
    {
        if source.failures() > 0 {
            self.faults = self.faults.saturating_add(1);
        }
        self.opened = self.opened.saturating_sub(1);
    }
}
