//! Tests of `make`.

use super::{release, run_and_count};
use std::test::Fail;
use xet_io::MemoryDisk;

#[test]
fn one_chunk_is_new_after_a_byte_is_inserted(rt: HostRuntime) -> Result<(), Fail> {
    let alloc = rt.alloc();
    let mut disk = MemoryDisk::new(alloc);
    let made = run_and_count(&rt, alloc, "make 7 16777216", "", &mut disk);
    let listed = run_and_count(&rt, alloc, "list", "", &mut disk);
    release(disk);
    let (text, status, files) = made?;
    let due = "262 262\n262 1\nxorbs 2\n";
    assert_eq!(rt; (text.as_str(), status, files), (due, 0, 2));
    let (text, status, files) = listed?;
    assert_eq!(rt; (text.as_str(), status, files), ("", 0, 2));
    Ok(())
}

#[test]
fn short_files_have_one_chunk(rt: HostRuntime) -> Result<(), Fail> {
    let alloc = rt.alloc();
    let mut disk = MemoryDisk::new(alloc);
    let made = run_and_count(&rt, alloc, "make 0 1", "", &mut disk);
    let again = run_and_count(&rt, alloc, "make 0 1", "", &mut disk);
    release(disk);
    let due = "1 1\n1 1\nxorbs 2\n";
    let (text, status, files) = made?;
    assert_eq!(rt; (text.as_str(), status, files), (due, 0, 2));
    let (text, status, files) = again?;
    assert_eq!(rt; (text.as_str(), status, files), (due, 0, 2));
    Ok(())
}
