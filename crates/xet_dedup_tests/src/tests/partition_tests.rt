//! Tests of the places where a long file may be split into parts, which were computed elsewhere.

ghost use Rattle.std.specs.Prelude.{◌≤◌, ◌<◌, ◌^◌};

use std::alloc::Global;
use std::test::Fail;
use xet_cut::{LimitSettings, Limits, find_partitions};
use xet_hash::StoreError;
use xet_io::SliceReader;

/// Limits with which a chunk of at least 100 bytes ends after the first byte that is not 0, and at 1,024 bytes.
fn limits() -> Result<Limits, StoreError> {
    let mut gear = [0; 256];
    gear[0] = 1 << 63;
    Limits::new(LimitSettings {
        target_chunk: 512,
        minimum_chunk: 100,
        maximum_chunk: 1024,
        max_source_bytes: 1 << 30,
        ..LimitSettings::shown(gear)
    })
}

/// 10,000 bytes: 300 zeros and a one, again and again.
fn bytes(alloc: Global) -> Result<Vec<u8>, StoreError> {
    let mut bytes = Vec::with_capacity(alloc, 10_000)?;
    for at in 0u32..10_000 {
        bytes.push(u8::from(at % 301 == 300))?;
    }
    Ok(bytes)
}

/// The parts of these bytes, if they are said to be `size`.
fn parts(alloc: Global, size: u64, min_partition: u64, scan: u64) -> Result<Vec<u64>, StoreError>
    requires { (1 ≤ min_partition) × (min_partition < 2 ^ 62) × (size < 2 ^ 62) × (scan ≤ 2 ^ 30) }
{
    let bytes = bytes(alloc)?;
    let limits = limits()?;
    find_partitions(
        alloc,
        &mut SliceReader::new(&bytes),
        size,
        &limits,
        min_partition,
        scan,
    )
}

#[test]
fn parts_begin_where_chunks_end(rt: HostRuntime) -> Result<(), Fail> {
    let alloc = rt.alloc();
    let some = parts(alloc, 10_000, 2000, 1000)?;
    assert_eq!(rt; some.as_slice(), [0, 2709, 4816, 6622].as_slice());
    let none = parts(alloc, 10_000, 1000, 1000)?;
    assert_eq!(rt; none.as_slice(), [0].as_slice());
    Ok(())
}

#[test]
fn scans_stay_within_the_bytes(rt: HostRuntime) -> Result<(), Fail> {
    let alloc = rt.alloc();
    let within = parts(alloc, 10_001, 2000, 2000)?;
    assert_eq!(rt; within.as_slice(), [0, 2709, 4816, 6622, 8729].as_slice());
    assert_eq!(rt;
        parts(alloc, 10_002, 2000, 2001).err(),
        Some(StoreError::UnexpectedEof)
    );
    Ok(())
}
