//! A disk over a folder of the operating system. Its files are not observable.

ghost use Rattle.std.specs.Prelude.{◌≡◌, ◌≤◌, ℕ, false, length, IfOk, IfErr, IfSome, IsErrOf};
ghost use Rattle.xet_io.specs.Disk.{no_files};
ghost use Rattle.xet_io.specs.Faults.{HasCause, faults_after};
ghost use Rattle.xet_fs.specs.FolderNames.{stays_inside};

use crate::folder_files::{
    has_folders, is_own_file, list_files, open_file, read_part, remove_file, rename_file,
    settle_folder, stat_file, sync_folder, write_file,
};
use crate::folder_name::{folder_path, holder, path_in, stays_inside};
use crate::root_lock::RootLock;
use std::alloc::Global;
use std::fs::{File, Files};
use std::marker::Model;
use xet_io::{Disk, DiskEntry, Refusal};

/// A disk over a folder of the operating system, its root, which must exist for a write. Contracts see the number
/// of failures.
///
/// A name is a path below the root. One that could leave it fails at every call, and nothing is read or changed: a
/// name with an empty part, `.`, `..` or a NUL. So an absolute name fails too. An absent root has no files.
///
/// Reads follow symbolic links, changes do not. A call that changes a name looks first at it and at its folders: a
/// symbolic link there is a failure, and so is whatever else is no regular file. A process that puts one there
/// between the look and the change is not noticed. Of two names for one file, a write changes both.
///
/// After an `Ok` rename or removal a crash keeps the change of the names, and after an `Ok` sync the name and its bytes.
/// What an earlier process left in a folder, or gave the folder its name, is made durable before the folder is listed.
/// A file system that syncs no folders answers `EINVAL` or `EROFS`; there a crash may lose names.
///
/// Out of memory is that of the program or of the system, and is not counted as a failure; every other error of the
/// system but an absent name is.
#[derive(Drop)]
pub struct FolderDisk<R> {
    alloc: Global,
    runtime: R,
    root: String,
    lock: RootLock,
    settled: Option<String>,
    last: Option<LastFile>,
    faults: u64,
}

/// The file that was read, written or synced last. It stays open until a write, a rename or a removal, so that a
/// file that is read in blocks is opened once, and a sync is that of the file written.
#[derive(Drop)]
struct LastFile {
    name: String,
    file: File,
}

impl<R> Model for FolderDisk<R> {
    ghost Value = { ℕ };

    ghost view = { λ d. d.faults };
}

impl<R: Files<File = File>> FolderDisk<R> {
    /// A disk over this folder, which has not failed yet. Takes no lock. Calls nothing of the system, and does not
    /// allocate.
    pub fn new(alloc: Global, runtime: R, root: String) -> FolderDisk<R>
        ensures { result ≡ 0 }
    {
        FolderDisk::with_lock(alloc, runtime, root, RootLock::Unlocked)
    }

    /// The same, but its first call locks the folder, before it reads or changes anything, until the disk is dropped. If
    /// another such disk holds the lock, in whatever process, this call and all later ones fail. Without a lock where the
    /// file system has none, or the folder cannot be opened.
    pub fn locked(alloc: Global, runtime: R, root: String) -> FolderDisk<R>
        ensures { result ≡ 0 }
    {
        FolderDisk::with_lock(alloc, runtime, root, RootLock::Due)
    }

    fn with_lock(alloc: Global, runtime: R, root: String, lock: RootLock) -> FolderDisk<R>
        ensures { result ≡ 0 }
    {
        FolderDisk {
            alloc,
            runtime,
            root,
            lock,
            settled: None,
            last: None,
            faults: 0,
        }
    }

    /// Begins a call: takes the lock on the root if that is due. A failure if another disk has it.
    fn enter(&mut self) -> Result<(), Refusal>
        ensures failed { IfErr result (λ e. e ≡ Refusal.Failed) }
        ensures same { self.new ≡ self.old }
    {
        if self.lock.enter(&self.runtime, folder_path(&self.root)) {
            Ok(())
        } else {
            Err(Refusal::Failed)
        }
    }

    /// Counts the failure that a call has met, if any, and returns the answer.
    fn count<T: Drop>(&mut self, answer: Result<T, Refusal>) -> Result<T, Refusal>
        ensures same { result ≡ answer }
        ensures faults { self.new ≡ faults_after answer self.old }
        ensures no_fault { IsErrOf result Refusal.OutOfMemory → self.new ≡ self.old }
        ensures cause { HasCause self.old self.new (IsErrOf result Refusal.Failed) }
    {
        if matches!(&answer, Err(Refusal::Failed)) {
            self.faults = self.faults.saturating_add(1);
        }
        answer
    }

    /// The path of a name that stays in the folder.
    fn path_of(&self, name: &str) -> Result<String, Refusal>
        ensures outside { stays_inside name.now ≡ false → IsErrOf result Refusal.Failed }
    {
        if !stays_inside(name) {
            return Err(Refusal::Failed);
        }
        Ok(path_in(self.alloc, &self.root, name)?)
    }

    fn stat_name(&mut self, name: &str) -> Result<Option<(u64, u64)>, Refusal>
        ensures outside { stays_inside name.now ≡ false → IsErrOf result Refusal.Failed }
        ensures same { self.new ≡ self.old }
    {
        self.enter()?;
        let path = self.path_of(name)?;
        stat_file(&self.runtime, &path)
    }

    /// Makes the file of a name the last one that was opened, if it exists. It stays open if it is that already.
    fn open_name(&mut self, name: &str) -> Result<(), Refusal>
        ensures outside { stays_inside name.now ≡ false → IsErrOf result Refusal.Failed }
        ensures same { self.new ≡ self.old }
    {
        self.enter()?;
        if !stays_inside(name) {
            return Err(Refusal::Failed);
        }
        if self.is_last(name) {
            return Ok(());
        }
        self.last = None;
        self.last = self.opened(name)?;
        Ok(())
    }

    fn opened(&self, name: &str) -> Result<Option<LastFile>, Refusal> {
        let path = self.path_of(name)?;
        match open_file(&self.runtime, &path)? {
            Some(file) => Ok(Some(last_file(self.alloc, name, file)?)),
            None => Ok(None),
        }
    }

    fn is_last(&self, name: &str) -> bool {
        match &self.last {
            Some(last) => last.name.as_str() == name,
            None => false,
        }
    }

    fn read_name(&mut self, name: &str, at: u64, buf: &mut [u8]) -> Result<Option<usize>, Refusal>
        ensures outside { stays_inside name.now ≡ false → IsErrOf result Refusal.Failed }
        ensures bound { IfOk result (λ found. IfSome found (λ count. count ≤ length buf.new)) }
        ensures same { self.new ≡ self.old }
    {
        self.open_name(name)?;
        match &self.last {
            Some(last) => read_part(&last.file, at, buf),
            None => Ok(None),
        }
    }

    fn sync_name(&mut self, name: &str) -> Result<bool, Refusal>
        ensures outside { stays_inside name.now ≡ false → IsErrOf result Refusal.Failed }
        ensures same { self.new ≡ self.old }
    {
        self.open_name(name)?;
        match &self.last {
            Some(last) => {
                last.file.sync_all()?;
                self.sync_holder(name)?;
                Ok(true)
            }
            None => Ok(false),
        }
    }

    /// Makes a name durable.
    fn sync_holder(&self, name: &str) -> Result<(), Refusal> {
        let path = self.path_of(name)?;
        sync_folder(&self.runtime, holder(&path))
    }

    fn list_folder(&mut self, alloc: Global, folder: &str) -> Result<Vec<DiskEntry>, Refusal>
        ensures outside { stays_inside folder.now ≡ false → IsErrOf result Refusal.Failed }
        ensures same { self.new ≡ self.old }
    {
        self.enter()?;
        let path = self.path_of(folder)?;
        self.settle(folder, &path)?;
        list_files(&self.runtime, alloc, &path)
    }

    /// Makes durable what an earlier process left in a folder, unless that was done.
    fn settle(&mut self, folder: &str, path: &str) -> Result<(), Refusal>
        ensures same { self.new ≡ self.old }
    {
        if !self.is_settled(folder) {
            settle_folder(&self.runtime, path)?;
            self.settled = Some(String::from_str(self.alloc, folder)?);
        }
        Ok(())
    }

    /// Whether this is the folder that was settled last.
    fn is_settled(&self, folder: &str) -> bool {
        match &self.settled {
            Some(settled) => settled.as_str() == folder,
            None => false,
        }
    }

    /// The path of a file that a call changes, and whether the file exists. A link at the name or at one of its
    /// folders is a failure. Folders that are absent are made if `make` says so.
    fn own_path(&self, name: &str, make: bool) -> Result<(String, bool), Refusal>
        ensures outside { stays_inside name.now ≡ false → IsErrOf result Refusal.Failed }
    {
        let path = self.path_of(name)?;
        let there = has_folders(&self.runtime, self.alloc, &self.root, name, make)?
            && is_own_file(&self.runtime, &path)?;
        Ok((path, there))
    }

    fn write_name(&mut self, name: &str, bytes: &[u8]) -> Result<LastFile, Refusal>
        ensures outside { stays_inside name.now ≡ false → IsErrOf result Refusal.Failed }
        ensures same { self.new ≡ self.old }
    {
        self.enter()?;
        let (path, there) = self.own_path(name, true)?;
        last_file(
            self.alloc,
            name,
            write_file(&self.runtime, &path, there, bytes)?,
        )
    }

    fn rename_name(&mut self, from: &str, to: &str) -> Result<bool, Refusal>
        ensures from { stays_inside from.now ≡ false → IsErrOf result Refusal.Failed }
        ensures to { stays_inside to.now ≡ false → IsErrOf result Refusal.Failed }
        ensures same { self.new ≡ self.old }
    {
        self.enter()?;
        if !stays_inside(to) {
            return Err(Refusal::Failed);
        }
        let (from, there) = self.own_path(from, false)?;
        if !there {
            return Ok(false);
        }
        let (to, _) = self.own_path(to, true)?;
        rename_file(&self.runtime, &from, &to)?;
        Ok(true)
    }

    fn remove_name(&mut self, name: &str) -> Result<bool, Refusal>
        ensures outside { stays_inside name.now ≡ false → IsErrOf result Refusal.Failed }
        ensures same { self.new ≡ self.old }
    {
        self.enter()?;
        let (path, there) = self.own_path(name, false)?;
        if !there {
            return Ok(false);
        }
        remove_file(&self.runtime, &path)?;
        Ok(true)
    }
}

impl<R: Files<File = File>> Disk for FolderDisk<R> {
    ghost tells = { λ _. false };

    ghost files = { λ _. no_files };

    ghost faults = { λ d. d };

    /// Calls `statx`.
    fn stat(&mut self, name: &str) -> Result<Option<(u64, u64)>, Refusal>
        ensures outside { stays_inside name.now ≡ false → IsErrOf result Refusal.Failed }
        ensures counted { self.new ≡ faults_after result self.old }
        ensures no_fault { IsErrOf result Refusal.OutOfMemory → self.new ≡ self.old }
        ensures cause { HasCause self.old self.new (IsErrOf result Refusal.Failed) }
    {
        let answer = self.stat_name(name);
        self.count(answer)
    }

    /// Calls `statx` and `open`, unless the file is open from the last call, and `pread`.
    fn read_at(&mut self, name: &str, at: u64, buf: &mut [u8]) -> Result<Option<usize>, Refusal>
        ensures outside { stays_inside name.now ≡ false → IsErrOf result Refusal.Failed }
        ensures bound { IfOk result (λ found. IfSome found (λ count. count ≤ length buf.new)) }
        ensures counted { self.new ≡ faults_after result self.old }
        ensures no_fault { IsErrOf result Refusal.OutOfMemory → self.new ≡ self.old }
        ensures cause { HasCause self.old self.new (IsErrOf result Refusal.Failed) }
    {
        let answer = self.read_name(name, at, buf);
        self.count(answer)
    }

    /// Lists what `read_at` can open: regular files, and links that lead to one. Folders and other files are passed
    /// over, and so are names that are not UTF-8, and links that cannot be followed. Calls `open`, `getdents64`, and
    /// `statx` for each name; before that, unless the folder was the last that was listed, `statx`, and `open` and
    /// `fsync` for the folder and for the one that holds it.
    fn list(&mut self, alloc: Global, folder: &str) -> Result<Vec<DiskEntry>, Refusal>
        ensures outside { stays_inside folder.now ≡ false → IsErrOf result Refusal.Failed }
        ensures counted { self.new ≡ faults_after result self.old }
        ensures no_fault { IsErrOf result Refusal.OutOfMemory → self.new ≡ self.old }
        ensures cause { HasCause self.old self.new (IsErrOf result Refusal.Failed) }
    {
        let answer = self.list_folder(alloc, folder);
        self.count(answer)
    }

    /// Makes the folders of the name that are absent. Calls `statx` for each folder and for the name, `mkdir` for a
    /// folder that is absent and then `open` and `fsync` for the folder that holds it, and `open` and `write`. A file
    /// that was not there is removed again if it cannot be written.
    fn write(&mut self, name: &str, bytes: &[u8]) -> Result<(), Refusal>
        ensures outside { stays_inside name.now ≡ false → IsErrOf result Refusal.Failed }
        ensures counted { self.new ≡ faults_after result self.old }
        ensures no_fault { IsErrOf result Refusal.OutOfMemory → self.new ≡ self.old }
        ensures cause { HasCause self.old self.new (IsErrOf result Refusal.Failed) }
    {
        self.last = None;
        let written = self.write_name(name, bytes);
        let written = self.count(written)?;
        self.last = Some(written);
        Ok(())
    }

    /// Calls `fsync`, after `statx` and `open` unless the file is open from the last call, and `open` and `fsync` for
    /// the folder.
    fn sync(&mut self, name: &str) -> Result<bool, Refusal>
        ensures outside { stays_inside name.now ≡ false → IsErrOf result Refusal.Failed }
        ensures counted { self.new ≡ faults_after result self.old }
        ensures no_fault { IsErrOf result Refusal.OutOfMemory → self.new ≡ self.old }
        ensures cause { HasCause self.old self.new (IsErrOf result Refusal.Failed) }
    {
        let answer = self.sync_name(name);
        self.count(answer)
    }

    /// Makes the folders of `to` that are absent, as a write does. Calls `statx` for each folder and for both names,
    /// `rename`, and `open` and `fsync` for the folder, or for both folders where they differ.
    fn rename(&mut self, from: &str, to: &str) -> Result<bool, Refusal>
        ensures outside { stays_inside from.now ≡ false → IsErrOf result Refusal.Failed }
        ensures to_outside { stays_inside to.now ≡ false → IsErrOf result Refusal.Failed }
        ensures counted { self.new ≡ faults_after result self.old }
        ensures no_fault { IsErrOf result Refusal.OutOfMemory → self.new ≡ self.old }
        ensures cause { HasCause self.old self.new (IsErrOf result Refusal.Failed) }
    {
        self.last = None;
        let answer = self.rename_name(from, to);
        self.count(answer)
    }

    /// Calls `statx` for each folder and for the name, `unlink`, and `open` and `fsync` for the folder.
    fn remove(&mut self, name: &str) -> Result<bool, Refusal>
        ensures outside { stays_inside name.now ≡ false → IsErrOf result Refusal.Failed }
        ensures counted { self.new ≡ faults_after result self.old }
        ensures no_fault { IsErrOf result Refusal.OutOfMemory → self.new ≡ self.old }
        ensures cause { HasCause self.old self.new (IsErrOf result Refusal.Failed) }
    {
        self.last = None;
        let answer = self.remove_name(name);
        self.count(answer)
    }
}

fn last_file(alloc: Global, name: &str, file: File) -> Result<LastFile, Refusal> {
    match String::from_str(alloc, name) {
        Ok(name) => Ok(LastFile { name, file }),
        Err(_) => Err(Refusal::OutOfMemory),
    }
}
