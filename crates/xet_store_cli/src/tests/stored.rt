//! Tests of the files in the folder of a disk after runs.

use super::{ABC, INPUT, ONE_ZERO, WORDS, ZEROS, count_files, release, run, run_and_count};
use std::alloc::Global;
use std::marker::Sync;
use std::process::Abort;
use std::sync::Wait;
use std::test::Fail;
use std::thread::Threads;
use xet_hash::compute_data_hash;
use xet_io::{Disk, MemoryDisk, Refusal};

/// The name of the one shard in the folder of a disk.
fn shard_name(alloc: Global, disk: &mut MemoryDisk) -> Result<String, Refusal> {
    let mut found = String::new(alloc);
    for entry in disk.list(alloc, "store")? {
        let name = entry.name.as_str();
        if name.ends_with(".mdb") {
            found = String::from_str(alloc, name)?;
        }
    }
    Ok(found)
}

/// The bytes of a file in the folder of a disk; no bytes if it does not exist.
fn bytes_of(alloc: Global, disk: &MemoryDisk, name: &str) -> Result<Vec<u8>, Refusal> {
    let path = format!(in alloc; "store/{name}")?;
    match disk.get(path.as_str()) {
        Some(bytes) => Ok(Vec::from_slice(alloc, bytes)?),
        None => Ok(Vec::new(alloc)),
    }
}

/// The name of a file in the folder that is the hash of these bytes and an extension.
fn name_of(alloc: Global, bytes: &[u8], extension: &str) -> Result<String, Refusal> {
    let hash = compute_data_hash(bytes)
        .hex(alloc)
        .map_err(|_| Refusal::OutOfMemory)?;
    Ok(format!(in alloc; "{hash}.{extension}")?)
}

/// Stores `abc` on a disk. Returns the name of its xorb.
fn store<R: Threads + Wait + Sync>(
    rt: &R,
    alloc: Global,
    disk: &mut MemoryDisk,
) -> Result<String, Refusal> {
    let _told = run(rt, alloc, WORDS, INPUT, disk)?;
    name_of(alloc, b"abc", "xorb")
}

/// The number of files once `abc` is stored, and the length of its xorb.
fn store_and_count<R: Threads + Wait + Sync>(
    rt: &R,
    alloc: Global,
    disk: &mut MemoryDisk,
) -> Result<(usize, usize), Refusal> {
    let xorb = store(rt, alloc, disk)?;
    let length = bytes_of(alloc, disk, xorb.as_str())?.len();
    Ok((count_files(alloc, disk)?, length))
}

/// The name of the shard on a disk, and the name that is due by its bytes.
fn shard_names(alloc: Global, disk: &mut MemoryDisk) -> Result<(String, String), Refusal> {
    let name = shard_name(alloc, disk)?;
    let shard = bytes_of(alloc, disk, name.as_str())?;
    Ok((name, name_of(alloc, &shard, "mdb")?))
}

#[test]
fn stores_what_it_reports(rt: HostRuntime) -> Result<(), Fail> {
    let alloc = rt.alloc();
    let mut disk = MemoryDisk::new(alloc);
    let stored = store_and_count(&rt, alloc, &mut disk);
    let names = shard_names(alloc, &mut disk);
    release(disk);
    assert_eq!(rt; stored?, (2, 147));
    let (name, due) = names?;
    assert_eq!(rt; name.as_str(), due.as_str());
    Ok(())
}

/// Stores files on a disk that has `abc` already: the shard of that stays as it is.
fn run_later<R: Threads + Wait + Sync + Abort>(
    rt: &R,
    alloc: Global,
    disk: &mut MemoryDisk,
) -> Result<(), Refusal> {
    let _xorb = store(rt, alloc, disk)?;
    let name = shard_name(alloc, disk)?;
    let shard = bytes_of(alloc, disk, name.as_str())?;
    let rows = [("file 00\n", ONE_ZERO, 4usize), ("file 616263\n", ABC, 4)];
    for (input, due, files) in rows {
        let found = run_and_count(rt, alloc, WORDS, input, disk)?;
        let kept = bytes_of(alloc, disk, name.as_str())?;
        assert_eq!(rt;
            (found.0.as_str(), found.1, found.2),
            (due, 0, files),
            "over {input:?}"
        );
        assert_eq!(rt; kept.as_slice(), shard.as_slice(), "over {input:?}");
    }
    Ok(())
}

#[test]
fn later_runs_keep_earlier_files(rt: HostRuntime) -> Result<(), Fail> {
    let mut disk = MemoryDisk::new(rt.alloc());
    let answer = run_later(&rt, rt.alloc(), &mut disk);
    release(disk);
    Ok(answer?)
}

/// Writes the shard of a disk under another name, too.
fn copy_shard(alloc: Global, disk: &mut MemoryDisk, shard: &str) -> Result<(), Refusal> {
    let bytes = bytes_of(alloc, disk, shard)?;
    let path = format!(in alloc; "store/{ZEROS}")?;
    disk.write(path.as_str(), &bytes)
}

/// Changes a byte of the xorb of a disk.
fn change_xorb(alloc: Global, disk: &mut MemoryDisk, xorb: &str) -> Result<(), Refusal> {
    let mut bytes = bytes_of(alloc, disk, xorb)?;
    if let Some(byte) = bytes.get_mut(8) {
        *byte ^= 1;
    }
    let path = format!(in alloc; "store/{xorb}")?;
    disk.write(path.as_str(), &bytes)
}

/// Stores `abc` on a disk, and copies the shard or changes the xorb. Returns what a later run has to print.
fn damage<R: Threads + Wait + Sync>(
    rt: &R,
    alloc: Global,
    copies: bool,
    disk: &mut MemoryDisk,
) -> Result<String, Refusal> {
    let xorb = store(rt, alloc, disk)?;
    let shard = shard_name(alloc, disk)?;
    if copies {
        copy_shard(alloc, disk, shard.as_str())?;
    } else {
        change_xorb(alloc, disk, xorb.as_str())?;
    }
    let told = if copies { ZEROS } else { shard.as_str() };
    Ok(format!(in alloc; "bad shard {told}\n")?)
}

#[test]
fn names_the_shard_that_fails_a_check(rt: HostRuntime) -> Result<(), Fail> {
    let alloc = rt.alloc();
    for copies in [false, true] {
        let mut disk = MemoryDisk::new(alloc);
        let due = damage(&rt, alloc, copies, &mut disk);
        let found = run(&rt, alloc, WORDS, INPUT, &mut disk);
        release(disk);
        let (text, status) = found?;
        let due = due?;
        assert_eq!(rt; (text.as_str(), status), (due.as_str(), 7));
    }
    Ok(())
}

#[test]
fn leaves_other_files_alone(rt: HostRuntime) -> Result<(), Fail> {
    let alloc = rt.alloc();
    let mut disk = MemoryDisk::new(alloc);
    let written = disk.write("store/x.mdb", b"x");
    let found = run(&rt, alloc, WORDS, INPUT, &mut disk);
    let kept = bytes_of(alloc, &disk, "x.mdb");
    release(disk);
    written?;
    let (text, status) = found?;
    let kept = kept?;
    assert_eq!(rt;
        (text.as_str(), status, kept.as_slice()),
        (ABC, 0, b"x".as_slice())
    );
    Ok(())
}
