//! The system calls of a disk over a real folder. Nothing here counts failures.

ghost use Rattle.std.specs.Prelude.{◌≡◌, ◌≢◌, ◌≤◌, Ok, Some, None, length, IfOk, IfErr, IfSome, IsErr};
ghost use Rattle.std.specs.IoError.{error_kind};
ghost use Rattle.xet_io.specs.Refusals.{IsRefusalOf};

use crate::folder_name::{holder, push_part};
use std::alloc::Global;
use std::fs::{self, DirEntry, File, Files, Metadata, OpenFile, OpenOptions, ReadDir};
use std::io::{self, ErrorKind, Write};
use std::os::unix::fs::{FileExt, MetadataExt};
use xet_base::Text;
use xet_io::{DiskEntry, Refusal};

/// What an answer holds, or `None` if the name is absent.
pub(crate) fn found<T: Drop>(answer: io::Result<T>) -> Result<Option<T>, Refusal>
    ensures value { IfOk answer (λ value. result ≡ Ok (Some value)) }
    ensures absent { IfErr answer (λ e. error_kind e ≡ ErrorKind.NotFound → result ≡ Ok None) }
    ensures refused { IfErr answer (λ e. error_kind e ≢ ErrorKind.NotFound → IfErr result (IsRefusalOf e)) }
    ensures failed { IfErr answer (λ e. error_kind e ≢ ErrorKind.NotFound → IsErr result) }
{
    match answer {
        Ok(value) => Ok(Some(value)),
        Err(error) if error.kind() == ErrorKind::NotFound => Ok(None),
        Err(error) => Err(Refusal::from(error)),
    }
}

/// Length and modification time of the file that a path leads to, through links. Anything but a regular file
/// is a failure. Calls `statx`.
pub(crate) fn stat_file<R: Files>(files: &R, path: &str) -> Result<Option<(u64, u64)>, Refusal> {
    match found(fs::metadata(files, path))? {
        Some(metadata) if metadata.is_file() => Ok(Some((metadata.len(), modified(&metadata)))),
        Some(_) => Err(Refusal::Failed),
        None => Ok(None),
    }
}

/// Modification time in whole seconds since 1970, or 0 if it is earlier.
fn modified(metadata: &Metadata) -> u64 {
    u64::try_from(metadata.mtime()).unwrap_or(0)
}

/// Opens a file for reading, through links. Looks at it first, since opening a pipe would wait. Calls `statx`
/// and `open`.
pub(crate) fn open_file<R: Files<File = File>>(
    files: &R,
    path: &str,
) -> Result<Option<File>, Refusal> {
    match stat_file(files, path)? {
        Some(_) => found(fs::open(files, path)),
        None => Ok(None),
    }
}

/// Reads part of a file. Past 2^63 - 1, where no file reaches, there is nothing. Calls `pread`, again if a signal
/// interrupts it.
pub(crate) fn read_part(file: &File, at: u64, buf: &mut [u8]) -> Result<Option<usize>, Refusal>
    ensures { IfOk result (λ found. IfSome found (λ count. count ≤ length buf.new)) }
{
    if i64::try_from(at).is_err() {
        return Ok(Some(0));
    }
    for _ in 0..u64::MAX {
        match file.read_at(buf, at) {
            Ok(count) => return Ok(Some(count)),
            Err(error) if error.kind() == ErrorKind::Interrupted => {}
            Err(error) => return Err(Refusal::from(error)),
        }
    }
    Err(Refusal::Failed)
}

/// The regular files of a folder, through links. Calls `open`, `getdents64`, and `statx` for each name.
pub(crate) fn list_files<R: Files>(
    files: &R,
    alloc: Global,
    path: &str,
) -> Result<Vec<DiskEntry>, Refusal> {
    let mut listed = Vec::new(alloc);
    list_entries(files, alloc, &mut listed, path)?;
    Ok(listed)
}

fn list_entries<R: Files>(
    files: &R,
    alloc: Global,
    listed: &mut Vec<DiskEntry>,
    path: &str,
) -> Result<(), Refusal> {
    match found(fs::read_dir(&(files, alloc), path))? {
        Some(mut entries) => list_each(files, alloc, listed, &mut entries),
        None => Ok(()),
    }
}

fn list_each<R: Files>(
    files: &R,
    alloc: Global,
    listed: &mut Vec<DiskEntry>,
    entries: &mut ReadDir<(&R, Global), Global>,
) -> Result<(), Refusal> {
    for entry in entries {
        list_entry(files, alloc, listed, entry)?;
    }
    Ok(())
}

/// Adds an entry of a folder to the list, if it is a regular file. A name that is not UTF-8 is passed over.
fn list_entry<R: Files>(
    files: &R,
    alloc: Global,
    listed: &mut Vec<DiskEntry>,
    entry: io::Result<DirEntry<(&R, Global), Global>>,
) -> Result<(), Refusal> {
    match entry {
        Ok(entry) => list_name(
            files,
            alloc,
            listed,
            entry.path().as_str(),
            entry.file_name(),
        ),
        Err(error) if error.kind() == ErrorKind::InvalidFilename => Ok(()),
        Err(error) => Err(Refusal::from(error)),
    }
}

/// Adds a name of a folder to the list, if its path leads to a regular file.
fn list_name<R: Files>(
    files: &R,
    alloc: Global,
    listed: &mut Vec<DiskEntry>,
    path: &str,
    name: &str,
) -> Result<(), Refusal> {
    let Some(metadata) = look_through(files, path)? else {
        return Ok(());
    };
    if metadata.is_file() {
        let entry = DiskEntry {
            name: Text::new(String::from_str(alloc, name)?),
            length: metadata.len(),
            modified: modified(&metadata),
        };
        listed.push(entry)?;
    }
    Ok(())
}

/// What a path leads to, through links. `None` if it is absent, or a link that leads nowhere. Calls `statx`, twice if
/// the first look fails.
fn look_through<R: Files>(files: &R, path: &str) -> Result<Option<Metadata>, Refusal> {
    match fs::metadata(files, path) {
        Err(error) if leads_nowhere(error.kind()) && is_link(files, path) => Ok(None),
        answer => found(answer),
    }
}

/// Whether this error is one of the way that a link points: in a circle, through what is no folder or may not be
/// searched, or by a name that no file can have.
fn leads_nowhere(kind: ErrorKind) -> bool {
    matches!(
        kind,
        ErrorKind::FilesystemLoop
            | ErrorKind::NotADirectory
            | ErrorKind::PermissionDenied
            | ErrorKind::InvalidFilename
    )
}

fn is_link<R: Files>(files: &R, path: &str) -> bool {
    match fs::symlink_metadata(files, path) {
        Ok(metadata) => metadata.is_symlink(),
        Err(_) => false,
    }
}

/// Whether a path is a regular file, not through links: a link, a folder or a device is a failure. Calls
/// `statx`.
pub(crate) fn is_own_file<R: Files>(files: &R, path: &str) -> Result<bool, Refusal> {
    match found(fs::symlink_metadata(files, path))? {
        Some(metadata) if metadata.is_file() => Ok(true),
        Some(_) => Err(Refusal::Failed),
        None => Ok(false),
    }
}

/// Whether each folder of a name exists, and not as a link. Those that are absent are made if `make` says so.
/// The root is not looked at.
pub(crate) fn has_folders<R: Files<File = File>>(
    files: &R,
    alloc: Global,
    root: &str,
    name: &str,
    make: bool,
) -> Result<bool, Refusal> {
    let Some((folders, _)) = name.rsplit_once('/') else {
        return Ok(true);
    };
    let mut path = String::from_str(alloc, root)?;
    for part in folders.split('/') {
        if !enter_folder(files, &mut path, part, make)? {
            return Ok(false);
        }
    }
    Ok(true)
}

/// Extends the path of a folder by a folder in it, and returns whether that exists.
fn enter_folder<R: Files<File = File>>(
    files: &R,
    path: &mut String,
    part: &str,
    make: bool,
) -> Result<bool, Refusal> {
    push_part(path, part)?;
    has_folder(files, path, make)
}

/// Whether a folder exists, and not as a link: anything else at its path is a failure. Calls `statx`, and to
/// make the folder `mkdir` and what `sync_folder` calls for the one that holds it.
fn has_folder<R: Files<File = File>>(files: &R, path: &str, make: bool) -> Result<bool, Refusal> {
    match found(fs::symlink_metadata(files, path))? {
        Some(metadata) if metadata.is_dir() => Ok(true),
        Some(_) => Err(Refusal::Failed),
        None if make => {
            fs::create_dir(files, path)?;
            sync_made(files, path)?;
            Ok(true)
        }
        None => Ok(false),
    }
}

/// Makes the name of a folder durable that was just made. If that fails, the folder is removed, so that the next
/// write tries again.
fn sync_made<R: Files<File = File>>(files: &R, path: &str) -> Result<(), Refusal> {
    let synced = sync_folder(files, holder(path));
    if synced.is_err() {
        let _ = fs::remove_dir(files, path);
    }
    synced
}

/// Makes the folder at `path` durable, with the names in it. Calls `open` and `fsync`.
pub(crate) fn sync_folder<R: Files<File = File>>(files: &R, path: &str) -> Result<(), Refusal> {
    sync_opened(&fs::open(files, path)?)
}

/// Makes an opened folder durable. A file system that syncs no folders answers `EINVAL`, and one that is only read
/// may answer `EROFS`: there is nothing more to be done then, and that is no failure.
fn sync_opened(folder: &File) -> Result<(), Refusal> {
    match folder.sync_all() {
        Err(error) if syncs_no_folder(error.kind()) => Ok(()),
        Err(error) => Err(Refusal::from(error)),
        Ok(()) => Ok(()),
    }
}

fn syncs_no_folder(kind: ErrorKind) -> bool {
    matches!(
        kind,
        ErrorKind::InvalidInput | ErrorKind::ReadOnlyFilesystem
    )
}

/// Makes a folder durable that another process may have made or changed, and its name, if it exists. Calls `statx`, and
/// `open` and `fsync` for both.
pub(crate) fn settle_folder<R: Files<File = File>>(files: &R, path: &str) -> Result<(), Refusal> {
    if is_folder(files, path) {
        sync_folder(files, path)?;
        sync_readable(files, holder(path))?;
    }
    Ok(())
}

fn is_folder<R: Files>(files: &R, path: &str) -> bool {
    match fs::metadata(files, path) {
        Ok(metadata) => metadata.is_dir(),
        Err(_) => false,
    }
}

/// Makes a folder durable if it may be read: else it cannot be opened, and so not be synced.
fn sync_readable<R: Files<File = File>>(files: &R, path: &str) -> Result<(), Refusal> {
    match fs::open(files, path) {
        Ok(folder) => sync_opened(&folder),
        Err(error) if error.kind() == ErrorKind::PermissionDenied => Ok(()),
        Err(error) => Err(Refusal::from(error)),
    }
}

/// Writes the file at `path`, and returns it opened. `there` says whether it exists: then its bytes are
/// replaced, and else it is created, which fails at a link too, and removed again if it cannot be written, so that a full
/// disk does not stay full. Calls `open` and `write`.
pub(crate) fn write_file<R: Files<File = File>>(
    files: &R,
    path: &str,
    there: bool,
    bytes: &[u8],
) -> Result<File, Refusal> {
    let mut file = OpenOptions::new()
        .read(true)
        .write(true)
        .truncate(there)
        .create_new(!there)
        .open(files, path)?;
    let done = file.write_all(bytes);
    if done.is_err() && !there {
        let _ = fs::remove_file(files, path);
    }
    done?;
    Ok(file)
}

/// Moves a file, and makes the folders of both names durable. Calls `rename`, and what `sync_folder` calls once
/// or twice.
pub(crate) fn rename_file<R: Files<File = File>>(
    files: &R,
    from: &str,
    to: &str,
) -> Result<(), Refusal> {
    fs::rename(files, from, to)?;
    sync_folder(files, holder(to))?;
    if holder(from) != holder(to) {
        sync_folder(files, holder(from))?;
    }
    Ok(())
}

/// Removes a file, and makes its folder durable. Calls `unlink` and what `sync_folder` calls.
pub(crate) fn remove_file<R: Files<File = File>>(files: &R, path: &str) -> Result<(), Refusal> {
    fs::remove_file(files, path)?;
    sync_folder(files, holder(path))
}
