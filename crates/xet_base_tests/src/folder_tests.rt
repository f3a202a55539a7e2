//! Tests of `xet_fs` over a folder of the operating system, and of inputs in memory that fail.

use std::alloc::{AllocError, Global};
use std::marker::Send;
use std::os::unix::fs::symlink;
use std::test::Fail;
use std::{env, fs, io, process};
use xet_fs::*;
use xet_io::*;

/// The bytes at the start of a source, and what two reads return.
type Read = ([u8; 4], [Result<usize, Failed>; 2]);

/// Length of a file, whether its time is after 2017, and what a read from offset 3 returns.
type Seen = ((u64, bool), Option<usize>, [u8; 4]);

/// The path of a folder for this process and test.
fn path_of(rt: &HostRuntime, test: &str) -> io::Result<String> {
    let id = process::id(rt.process());
    let temp = env::temp_dir(rt)?.into_string();
    Ok(format!(in rt.alloc(); "{temp}/xet_io_{id}_{test}")?)
}

/// Makes an empty folder for this process and test, and returns its path.
fn temporary(rt: &HostRuntime, test: &str) -> io::Result<String> {
    let path = path_of(rt, test)?;
    let _ = fs::remove_dir_all(rt, path.as_str());
    match fs::create_dir(rt, path.as_str()) {
        Ok(()) => Ok(path),
        Err(error) => Err(error),
    }
}

fn folder_disk(rt: &HostRuntime, root: &str) -> Result<FolderDisk<HostRuntime>, AllocError> {
    let alloc = rt.alloc();
    Ok(FolderDisk::new(alloc, *rt, String::from_str(alloc, root)?))
}

fn locked_disk(rt: &HostRuntime, root: &str) -> Result<FolderDisk<HostRuntime>, AllocError> {
    let alloc = rt.alloc();
    Ok(FolderDisk::locked(alloc, *rt, String::from_str(alloc, root)?))
}

fn lists<D: Disk>(disk: &mut D, alloc: Global, folder: &str) -> Result<usize, Refusal> {
    Ok(disk.list(alloc, folder)?.len())
}

/// Whether reads find the file `store/a` absent.
fn reads_nothing<D: Disk>(disk: &mut D) -> Result<bool, Refusal> {
    let stat = disk.stat("store/a")?.is_none();
    let read = disk.read_at("store/a", 0, &mut [0u8; 4])?.is_none();
    Ok(stat && read)
}

/// Whether changes find the file `store/a` there.
fn changes<D: Disk>(disk: &mut D) -> Result<[bool; 3], Refusal> {
    let synced = disk.sync("store/a")?;
    let renamed = disk.rename("store/a", "store/b")?;
    let removed = disk.remove("store/a")?;
    Ok([synced, renamed, removed])
}

fn finds_nothing<D: Disk>(disk: &mut D, alloc: Global) -> bool {
    reads_nothing(disk) == Ok(true)
        && changes(disk) == Ok([false; 3])
        && lists(disk, alloc, "store") == Ok(0)
}

fn read_a<D: Disk>(disk: &mut D) -> Result<Seen, Refusal> {
    let mut buf = [0u8; 4];
    let (length, modified) = disk.stat("store/a")?.unwrap_or((0, 0));
    let count = disk.read_at("store/a", 3, &mut buf)?;
    Ok(((length, modified > 1_500_000_000), count, buf))
}

/// What reads at and far past the end of `store/a` return.
fn read_past<D: Disk>(disk: &mut D) -> Result<[Option<usize>; 2], Refusal> {
    let past = disk.read_at("store/a", 9, &mut [0u8; 4])?;
    let far = disk.read_at("store/a", u64::MAX, &mut [0u8; 4])?;
    Ok([past, far])
}

/// Puts `store/a` twice, with a read between.
fn put_twice<D: Disk>(disk: &mut D) -> Result<(), Refusal> {
    put_file(disk, "store/temp", "store/a", b"an older file")?;
    disk.read_at("store/a", 0, &mut [0u8; 4])?;
    put_file(disk, "store/temp", "store/a", b"hello")
}

fn keeps_files<D: Disk>(disk: &mut D, alloc: Global) -> bool {
    finds_nothing(disk, alloc)
        && put_twice(disk).is_ok()
        && read_a(disk) == Ok(((5, true), Some(2), *b"lo\0\0"))
        && read_past(disk) == Ok([Some(0); 2])
        && lists(disk, alloc, "store") == Ok(1)
        && disk.remove("store/a") == Ok(true)
        && finds_nothing(disk, alloc)
}

#[test]
fn folder_disk_keeps_files(rt: HostRuntime) -> Result<(), Fail> {
    let root = temporary(&rt, "files")?;
    let kept = keeps_files(&mut folder_disk(&rt, &root)?, rt.alloc());
    let cleared = fs::remove_dir_all(&rt, &root).is_ok();
    assert!(rt; kept && cleared);
    Ok(())
}

#[test]
fn absent_root_has_no_files(rt: HostRuntime) -> Result<(), Fail> {
    let root = path_of(&rt, "absent")?;
    let mut disk = locked_disk(&rt, &root)?;
    let empty = finds_nothing(&mut disk, rt.alloc());
    let written = disk.write("store/a", b"x");
    assert!(rt; empty && written == Err(Refusal::Failed));
    Ok(())
}

/// Whether the first of two disks has the lock of their root, and the second fails.
fn locks_out<D: Disk>(first: &mut D, second: &mut D, alloc: Global) -> bool {
    lists(first, alloc, "store") == Ok(0)
        && lists(second, alloc, "store") == Err(Refusal::Failed)
        && second.write("a", b"x") == Err(Refusal::Failed)
        && first.write("a", b"x") == Ok(())
        && second.stat("a") == Err(Refusal::Failed)
}

/// Whether one disk at a time has the lock of this root, and a disk without a lock needs none.
fn locks_root(rt: &HostRuntime, root: &str) -> Result<bool, AllocError> {
    let mut first = locked_disk(rt, root)?;
    let mut second = locked_disk(rt, root)?;
    let mut reader = folder_disk(rt, root)?;
    let locked = locks_out(&mut first, &mut second, rt.alloc());
    Ok(locked && reader.remove("a") == Ok(true))
}

#[test]
fn folder_disk_locks_its_root(rt: HostRuntime) -> Result<(), Fail> {
    let root = temporary(&rt, "lock")?;
    let locked = locks_root(&rt, &root) == Ok(true);
    let later = locks_root(&rt, &root) == Ok(true);
    let cleared = fs::remove_dir_all(&rt, &root).is_ok();
    assert!(rt; locked && later && cleared);
    Ok(())
}

/// Names that are not of a file below the root.
const OUTSIDE: [&str; 8] = [
    "",
    ".",
    "..",
    "/a",
    "a//b",
    "store/../../a",
    "store/",
    "a\0b",
];

fn reads_fail<D: Disk>(disk: &mut D, alloc: Global, name: &str) -> bool {
    disk.stat(name) == Err(Refusal::Failed)
        && disk.read_at(name, 0, &mut [0u8; 4]) == Err(Refusal::Failed)
        && lists(disk, alloc, name) == Err(Refusal::Failed)
}

fn changes_fail<D: Disk>(disk: &mut D, name: &str) -> bool {
    disk.write(name, b"x") == Err(Refusal::Failed)
        && disk.sync(name) == Err(Refusal::Failed)
        && disk.rename(name, "a") == Err(Refusal::Failed)
        && disk.rename("a", name) == Err(Refusal::Failed)
        && disk.remove(name) == Err(Refusal::Failed)
}

/// How many of the names outside fail at every call.
fn count_failing<D: Disk>(disk: &mut D, alloc: Global) -> u32 {
    let mut failing = 0u32;
    for name in OUTSIDE {
        if reads_fail(disk, alloc, name) && changes_fail(disk, name) {
            failing = failing.saturating_add(1);
        }
    }
    failing
}

#[test]
fn folder_disk_stays_in_its_folder(rt: HostRuntime) -> Result<(), Fail> {
    let root = temporary(&rt, "names")?;
    let failing = count_failing(&mut folder_disk(&rt, &root)?, rt.alloc());
    let cleared = fs::remove_dir_all(&rt, &root).is_ok();
    assert!(rt; failing == 8 && cleared);
    Ok(())
}

/// Makes a folder in a folder, and a link to it.
fn make_folders(rt: &HostRuntime, root: &str) -> io::Result<()> {
    let alloc = rt.alloc();
    fs::create_dir_all(rt, format!(in alloc; "{root}/store/folder")?)?;
    symlink(rt, "folder", format!(in alloc; "{root}/store/way")?)
}

/// Makes a file, and a link to it.
fn make_files(rt: &HostRuntime, root: &str) -> io::Result<()> {
    let alloc = rt.alloc();
    fs::write(rt, format!(in alloc; "{root}/store/file")?, "kept")?;
    symlink(rt, "file", format!(in alloc; "{root}/store/link")?)
}

/// Makes links that lead to no file: to an absent one, to themselves, through a file, and to a device.
fn make_dead_links(rt: &HostRuntime, root: &str) -> io::Result<()> {
    let alloc = rt.alloc();
    symlink(rt, "absent", format!(in alloc; "{root}/store/broken")?)?;
    symlink(rt, "circle", format!(in alloc; "{root}/store/circle")?)?;
    symlink(rt, "file/x", format!(in alloc; "{root}/store/through")?)?;
    symlink(rt, "/dev/null", format!(in alloc; "{root}/store/device")?)
}

/// Whether the file is read by this name.
fn reads_kept<D: Disk>(disk: &mut D, name: &str) -> bool {
    let mut buf = [0u8; 4];
    let read = disk.read_at(name, 0, &mut buf);
    read == Ok(Some(4)) && buf == *b"kept"
}

/// Whether changes through links fail.
fn links_fail<D: Disk>(disk: &mut D) -> bool {
    disk.write("store/link", b"lost") == Err(Refusal::Failed)
        && disk.write("store/way/file", b"lost") == Err(Refusal::Failed)
        && disk.rename("store/file", "store/link") == Err(Refusal::Failed)
        && disk.remove("store/link") == Err(Refusal::Failed)
}

fn follows_links_to_read<D: Disk>(disk: &mut D, alloc: Global) -> bool {
    reads_kept(disk, "store/link")
        && lists(disk, alloc, "store") == Ok(2)
        && disk.stat("store/folder") == Err(Refusal::Failed)
        && disk.stat("store/circle") == Err(Refusal::Failed)
        && links_fail(disk)
        && reads_kept(disk, "store/file")
}

#[test]
fn folder_disk_writes_through_no_link(rt: HostRuntime) -> Result<(), Fail> {
    let root = temporary(&rt, "links")?;
    let made = make_folders(&rt, &root).is_ok()
        && make_files(&rt, &root).is_ok()
        && make_dead_links(&rt, &root).is_ok();
    let kept = follows_links_to_read(&mut folder_disk(&rt, &root)?, rt.alloc());
    let cleared = fs::remove_dir_all(&rt, &root).is_ok();
    assert!(rt; made && kept && cleared);
    Ok(())
}

/// Reads a source twice.
fn read_twice<S: Source + Send>(source: &mut S) -> Read {
    let mut buf = [0u8; 4];
    let first = source.read(&mut buf);
    let second = source.read(&mut [0u8; 4]);
    (buf, [first, second])
}

/// What two reads of an input return, and how many failures its source counts. The file may be removed before.
fn read_file_twice(
    rt: &HostRuntime,
    path: &str,
    removed: bool,
) -> Result<Option<(Read, u64)>, Refusal> {
    let alloc = rt.alloc();
    let mut inputs = FolderInputs::new(alloc, *rt, String::new(alloc));
    let Some(mut source) = inputs.open(path)? else {
        return Ok(None);
    };
    if removed {
        fs::remove_file(rt, path)?;
    }
    let read = read_twice(&mut source);
    Ok(Some((read, source.failures())))
}

/// Writes a file of three bytes in a folder, and returns its path.
fn write_abc(rt: &HostRuntime, root: &str) -> io::Result<String> {
    let path = format!(in rt.alloc(); "{root}/file")?;
    match fs::write(rt, path.as_str(), "abc") {
        Ok(()) => Ok(path),
        Err(error) => Err(error),
    }
}

#[test]
fn file_source_reads_a_file(rt: HostRuntime) -> Result<(), Fail> {
    let root = temporary(&rt, "source")?;
    let path = write_abc(&rt, &root)?;
    let kept = read_file_twice(&rt, &path, false);
    let removed = read_file_twice(&rt, &path, true);
    let cleared = fs::remove_dir_all(&rt, &root).is_ok();
    assert!(rt; kept == Ok(Some(((*b"abc\0", [Ok(3), Ok(0)]), 0))));
    assert!(rt; removed == Ok(Some((([0; 4], [Err(Failed); 2]), 2))) && cleared);
    Ok(())
}

/// What two reads of an input return, if it exists.
fn read_input<I: Inputs>(inputs: &mut I, name: &str) -> Result<Option<Read>, Refusal> {
    let Some(mut source) = inputs.open(name)? else {
        return Ok(None);
    };
    let read = read_twice(&mut source);
    inputs.close(source);
    Ok(Some(read))
}

/// Whether names that are no file answer as they must.
fn opens_no_file<I: Inputs>(inputs: &mut I) -> bool {
    read_input(inputs, "missing") == Ok(None)
        && read_input(inputs, "") == Ok(None)
        && read_input(inputs, ".") == Err(Refusal::Failed)
        && read_input(inputs, "/dev/null") == Ok(Some(([0; 4], [Ok(0); 2])))
        && read_input(inputs, "file/x") == Err(Refusal::Failed)
}

/// Whether each name is one of the file.
fn opens_abc<I: Inputs>(inputs: &mut I, names: [&str; 3]) -> bool {
    for name in names {
        if read_input(inputs, name) != Ok(Some((*b"abc\0", [Ok(3), Ok(0)]))) {
            return false;
        }
    }
    true
}

/// Whether inputs in the folder open the file at this path by each of its names.
fn opens_paths(rt: &HostRuntime, root: &str, path: &str) -> Result<bool, AllocError> {
    let alloc = rt.alloc();
    let id = process::id(rt.process());
    let around = format!(in alloc; "../xet_io_{id}_inputs/file")?;
    let mut inputs = FolderInputs::new(alloc, *rt, String::from_str(alloc, root)?);
    Ok(opens_abc(&mut inputs, ["file", path, &around]) && opens_no_file(&mut inputs))
}

#[test]
fn folder_inputs_open_paths(rt: HostRuntime) -> Result<(), Fail> {
    let root = temporary(&rt, "inputs")?;
    let path = write_abc(&rt, &root)?;
    let opened = opens_paths(&rt, &root, &path) == Ok(true);
    let cleared = fs::remove_dir_all(&rt, &root).is_ok();
    assert!(rt; opened && cleared);
    Ok(())
}

fn one_file(alloc: Global) -> Result<Vec<(String, Vec<u8>)>, AllocError> {
    let name = String::from_str(alloc, "a")?;
    Ok(vec![in alloc; (name, Vec::from_slice(alloc, b"one")?)]?)
}

/// Whether four opens in a row fail at the number `fail_at` and nowhere else.
fn fails_once<I: Inputs>(inputs: &mut I, fail_at: u64, name: &str, wanted: Option<Read>) -> bool {
    for call in 0..4 {
        let answer = read_input(inputs, name);
        if call == fail_at && answer != Err(Refusal::Failed) {
            return false;
        }
        if call != fail_at && answer != Ok(wanted) {
            return false;
        }
    }
    true
}

#[test]
fn failing_inputs_fail_once(rt: HostRuntime) -> Result<(), Fail> {
    let alloc = rt.alloc();
    let one = Some((*b"one\0", [Ok(3), Ok(0)]));
    for (fail_at, name, wanted) in [(0, "a", one), (1, "b", None), (2, "a", one), (4, "a", one)] {
        let mut inputs = MemoryInputs::failing(alloc, one_file(alloc)?, fail_at);
        assert!(rt;
            fails_once(&mut inputs, fail_at, name, wanted),
            "at {fail_at}"
        );
    }
    Ok(())
}
