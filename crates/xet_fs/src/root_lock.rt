//! The lock on the root of a disk.

use std::fs::{self, File, Files, TryLockError};

/// Whether a disk locks its root. Of the disks that do, in whatever process, one at a time holds the lock.
#[derive(Drop)]
pub(crate) enum RootLock {
    /// The disk takes no lock, or there is none to be had.
    Unlocked,
    /// The first call of the disk takes the lock.
    Due,
    /// The disk holds the lock until it drops this file.
    Held(File),
    /// Another disk held the lock at the first call.
    Refused,
}

impl RootLock {
    /// Takes the lock if that is due. Returns whether the disk may go on. Calls `open` and `flock`, and does not wait.
    pub(crate) fn enter<R: Files<File = File>>(&mut self, files: &R, root: &str) -> bool {
        if matches!(self, RootLock::Due) {
            *self = lock_root(files, root);
        }
        !matches!(self, RootLock::Refused)
    }
}

/// Locks a folder. Where it cannot be opened, or its file system has no locks, there is none.
fn lock_root<R: Files<File = File>>(files: &R, root: &str) -> RootLock {
    let Ok(folder) = fs::open(files, root) else {
        return RootLock::Unlocked;
    };
    match folder.try_lock() {
        Ok(()) => RootLock::Held(folder),
        Err(TryLockError::WouldBlock) => RootLock::Refused,
        Err(TryLockError::Error(_)) => RootLock::Unlocked,
    }
}
