use std::alloc::{AllocError, Global};
use std::io::{self, ErrorKind, Read, Write};
use std::test::Fail;
use xet_io::*;

/// Reads or writes one byte. Later writes take nothing, and later reads fail.
#[derive(Drop)]
struct Tiring {
    tired: bool,
}

impl Write for Tiring {
    fn write(&mut self, buf: &[u8]) -> io::Result<usize> {
        let count = if self.tired { 0 } else { buf.len().min(1) };
        self.tired = true;
        Ok(count)
    }

    fn flush(&mut self) -> io::Result<()> {
        Ok(())
    }
}

impl Read for Tiring {
    fn read(&mut self, buf: &mut [u8]) -> io::Result<usize> {
        if self.tired {
            return Err(io::Error::from(ErrorKind::TimedOut));
        }
        self.tired = true;
        let count = buf.len().min(1);
        buf[..count].fill(b'x');
        Ok(count)
    }
}

fn file(alloc: Global, name: &str, bytes: &[u8]) -> Result<(String, Vec<u8>), AllocError> {
    Ok((
        String::from_str(alloc, name)?,
        Vec::from_slice(alloc, bytes)?,
    ))
}

#[test]
fn slice_source_gives_short_reads(rt: HostRuntime) -> Result<(), Fail> {
    let mut source = SliceSource::new(b"abcde");
    let mut buf = [0u8; 3];
    assert_eq!(rt; source.read(&mut buf)?, 3);
    assert_eq!(rt; buf.as_slice(), b"abc".as_slice());
    assert_eq!(rt; source.read(&mut buf)?, 2);
    assert_eq!(rt; buf.as_slice(), b"dec".as_slice());
    assert_eq!(rt; source.read(&mut buf)?, 0);
    Ok(())
}

#[test]
fn a_reader_is_read_whole(rt: HostRuntime) -> Result<(), Fail> {
    let bytes = read_whole(rt.alloc(), &mut SliceReader::new(b"abcde"))?;
    assert_eq!(rt; bytes.as_slice(), b"abcde".as_slice());
    Ok(())
}

#[test]
fn slice_reader_reads_at_any_place(rt: HostRuntime) -> Result<(), Fail> {
    let mut reader = SliceReader::new(b"abcde");
    let mut buf = [0u8; 3];
    assert_eq!(rt; reader.length()?, 5);
    assert_eq!(rt; reader.read_at(3, &mut buf)?, 2);
    assert_eq!(rt; reader.read_at(1, &mut buf)?, 3);
    assert_eq!(rt; buf.as_slice(), b"bcd".as_slice());
    assert_eq!(rt; reader.read_at(9, &mut buf)?, 0);
    Ok(())
}

#[test]
fn memory_sink_keeps_bytes(rt: HostRuntime) -> Result<(), Fail> {
    let mut sink = MemorySink::new(rt.alloc());
    assert_eq!(rt; sink.write(b"ab")?, 2);
    assert_eq!(rt; sink.write(b"c")?, 1);
    assert_eq!(rt; sink.bytes(), b"abc".as_slice());
    Ok(())
}

#[test]
fn memory_inputs_open_the_first_of_a_name(rt: HostRuntime) -> Result<(), Fail> {
    let alloc = rt.alloc();
    let mut files = Vec::new(alloc);
    files.push(file(alloc, "a", b"one")?)?;
    files.push(file(alloc, "b", b"two")?)?;
    files.push(file(alloc, "b", b"three")?)?;
    let mut inputs = MemoryInputs::new(alloc, files);
    let mut buf = [0u8; 8];
    let mut source = inputs.open("b")?.ok_or("it is there")?;
    assert_eq!(rt; source.read(&mut buf)?, 3);
    assert_eq!(rt; &buf[..3], b"two".as_slice());
    assert_eq!(rt; source.read(&mut buf)?, 0);
    inputs.close(source);
    assert!(rt; inputs.open("c")?.is_none());
    Ok(())
}

/// Writes a file, syncs it, moves it over the file `b`, then into a folder, then to its own name.
fn change_files(disk: &mut MemoryDisk) -> Result<(), Refusal> {
    disk.write("a", b"hello")?;
    disk.write("b", b"old")?;
    let synced = disk.sync("a")?;
    let moved = disk.rename("a", "b")?;
    let again = disk.rename("b", "d/e")?;
    let itself = disk.rename("d/e", "d/e")?;
    if synced && moved && again && itself {
        Ok(())
    } else {
        Err(Refusal::Failed)
    }
}

/// What reads return of the moved file: length and modification time, a part, and how long the part is. Also
/// whether a name that was never written is absent.
fn read_moved(disk: &mut MemoryDisk) -> Result<((u64, u64), [u8; 3], usize, bool), Refusal> {
    let mut buf = [0u8; 3];
    let stat = disk.stat("d/e")?.unwrap_or((0, 0));
    let part = disk.read_at("d/e", 3, &mut buf)?.unwrap_or(9);
    let none = disk.read_at("c", 0, &mut buf)?.is_none();
    Ok((stat, buf, part, none))
}

/// Whether the file is removed, and whether an absent name is renamed, removed or synced.
fn remove_moved(disk: &mut MemoryDisk) -> Result<(bool, [bool; 3]), Refusal> {
    let removed = disk.remove("d/e")?;
    let renamed = disk.rename("b", "a")?;
    let again = disk.remove("d/e")?;
    let synced = disk.sync("d/e")?;
    Ok((removed, [renamed, again, synced]))
}

#[test]
fn memory_disk_changes_files(rt: HostRuntime) {
    let mut disk = MemoryDisk::new(rt.alloc());
    let changed = change_files(&mut disk).is_ok();
    let read = read_moved(&mut disk);
    let removed = remove_moved(&mut disk);
    assert!(rt; changed);
    assert!(rt; read == Ok(((5, 0), *b"lo\0", 2, true)));
    assert!(rt; removed == Ok((true, [false; 3])));
}

/// Files in a folder and beside it.
fn write_folders(disk: &mut MemoryDisk) -> Result<(), Refusal> {
    disk.write("a/b/c", b"nested")?;
    disk.write("a/one", b"1")?;
    disk.write("ab/one", b"")?;
    disk.write("a", b"")?;
    disk.write("a/two", b"22")
}

#[test]
fn memory_disk_lists_a_folder_alone(rt: HostRuntime) -> Result<(), Fail> {
    let alloc = rt.alloc();
    let mut disk = MemoryDisk::new(alloc);
    let written = write_folders(&mut disk);
    let listed = disk.list(alloc, "a");
    written?;
    let listed = listed?;
    assert_eq!(rt; listed.len(), 2);
    assert_eq!(rt; listed[0].name.as_str(), "one");
    assert_eq!(rt; (listed[0].length, listed[0].modified), (1, 1));
    assert_eq!(rt; listed[1].name.as_str(), "two");
    assert_eq!(rt; (listed[1].length, listed[1].modified), (2, 4));
    Ok(())
}

#[test]
fn put_file_leaves_no_temporary(rt: HostRuntime) {
    let mut disk = MemoryDisk::new(rt.alloc());
    let old = disk.write("f", b"old").is_ok();
    let put = put_file(&mut disk, "temp", "f", b"new").is_ok();
    let kept = disk.get("f") == Some(b"new".as_slice());
    let gone = disk.get("temp").is_none();
    assert!(rt; old && put && kept && gone);
}

#[test]
fn adapters_pass_bytes_on(rt: HostRuntime) -> Result<(), Fail> {
    let mut source = StdSource::new(b"ab".as_slice());
    let mut buf = [0u8; 3];
    assert_eq!(rt; source.read(&mut buf)?, 2);
    assert_eq!(rt; &buf[..2], b"ab".as_slice());
    assert_eq!(rt; source.read(&mut buf)?, 0);
    let mut sink = StdSink::new(Vec::new(rt.alloc()));
    assert_eq!(rt; sink.write(b"ab")?, 2);
    Ok(())
}

#[test]
fn adapters_fail_after_a_good_call(rt: HostRuntime) -> Result<(), Fail> {
    let mut sink = StdSink::new(Tiring { tired: false });
    assert_eq!(rt; sink.write(b"ab")?, 1);
    assert_eq!(rt; sink.write(b"b"), Err(Refusal::Failed));
    assert_eq!(rt; sink.write(b"")?, 0);
    let mut source = StdSource::new(Tiring { tired: false });
    let mut buf = [0u8; 3];
    assert_eq!(rt; source.read(&mut buf)?, 1);
    assert_eq!(rt; source.read(&mut buf), Err(Failed));
    assert_eq!(rt; source.read(&mut buf), Err(Failed));
    Ok(())
}

/// After how many bytes a failure is planned, and how often it happens on a few bytes.
const FAILURES: [(u64, u32); 5] = [(0, 1), (1, 1), (2, 1), (3, 1), (4, 0)];

#[test]
fn failing_source_fails_once(rt: HostRuntime) -> Result<(), Fail> {
    for (fail_at, wanted) in FAILURES {
        let mut source = FailingSource::new(b"abc", fail_at);
        let mut bytes = Vec::new(rt.alloc());
        let mut failures = 0u32;
        let mut ended = false;
        assert_eq!(rt; source.read(&mut [])?, 0);
        for _ in 0..9 {
            let mut buf = [0u8; 2];
            match source.read(&mut buf) {
                Ok(0) => ended = true,
                Ok(count) => bytes.extend_from_slice(&buf[..count])?,
                Err(Failed) => failures = failures.saturating_add(1),
            }
        }
        assert!(rt; ended);
        assert_eq!(rt; bytes.as_slice(), b"abc".as_slice());
        assert_eq!(rt; failures, wanted);
    }
    Ok(())
}

#[test]
fn failing_sink_fails_once(rt: HostRuntime) -> Result<(), Fail> {
    for (fail_at, wanted) in FAILURES {
        let mut sink = FailingSink::new(rt.alloc(), fail_at);
        let mut piece = b"abcd".as_slice();
        let mut failures = 0u32;
        assert_eq!(rt; sink.write(b"")?, 0);
        for _ in 0..9 {
            match sink.write(piece) {
                Ok(count) => piece = &piece[count..],
                Err(Refusal::Failed) => failures = failures.saturating_add(1),
                Err(refusal) => return Err(refusal.into()),
            }
        }
        assert_eq!(rt; sink.bytes(), b"abcd".as_slice());
        assert_eq!(rt; failures, wanted);
    }
    Ok(())
}

/// Writes and renames of which the second of each kind fails. Returns whether these fail, whether the other
/// renames succeed, and length and modification time of the file at the end.
fn fail_apart(disk: &mut MemoryDisk) -> Result<(bool, bool, Option<(u64, u64)>), Refusal> {
    disk.write("a", b"old")?;
    let write = disk.write("a", b"new one") == Err(Refusal::Failed);
    let first = disk.rename("a", "b")?;
    let second = disk.rename("b", "c") == Err(Refusal::Failed);
    let third = disk.rename("b", "c")?;
    Ok((write && second, first && third, disk.stat("c")?))
}

#[test]
fn failing_disk_counts_each_kind_apart(rt: HostRuntime) -> Result<(), Fail> {
    let alloc = rt.alloc();
    let fails = vec![in alloc; (Op::Rename, 1), (Op::Write, 1)]?;
    let mut disk = MemoryDisk::failing(alloc, fails);
    let seen = fail_apart(&mut disk);
    assert!(rt; seen == Ok((true, true, Some((3, 0)))));
    Ok(())
}

/// Whether a write fails, and the state of its name then: whether it exists, how many files its folder has,
/// and whether it is removed.
fn fail_absent(disk: &mut MemoryDisk, alloc: Global) -> Result<(bool, bool, usize, bool), Refusal> {
    let failed = disk.write("d/a", b"lost") == Err(Refusal::Failed);
    let there = disk.stat("d/a")?.is_some();
    let listed = disk.list(alloc, "d")?.len();
    let removed = disk.remove("d/a")?;
    Ok((failed, there, listed, removed))
}

#[test]
fn failed_write_of_an_absent_name_leaves_it_absent(rt: HostRuntime) -> Result<(), Fail> {
    let alloc = rt.alloc();
    let mut disk = MemoryDisk::failing(alloc, vec![in alloc; (Op::Write, 0)]?);
    let seen = fail_absent(&mut disk, alloc);
    assert!(rt; seen == Ok((true, false, 0, false)));
    Ok(())
}

#[test]
fn stopping_disk_fails_from_then_on(rt: HostRuntime) {
    let mut disk = MemoryDisk::stopping(rt.alloc(), 2);
    let written = disk.write("a", b"kept").is_ok();
    let synced = disk.sync("a") == Ok(true);
    let stat = disk.stat("a") == Err(Refusal::Failed);
    let renamed = disk.rename("a", "b") == Err(Refusal::Failed);
    let kept = disk.get("a") == Some(b"kept".as_slice());
    assert!(rt; written && synced && stat && renamed && kept);
}
