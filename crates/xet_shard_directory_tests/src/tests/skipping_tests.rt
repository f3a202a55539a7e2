//! Tests of merging where a shard is skipped, on a disk in memory.

use crate::tests::merge_tests::{counted, put, write};
use crate::tests::samples::{shard_of, shard_of_other_file, shard_of_other_xorb};
use crate::tests::shard_files::{PATH, close, keyed, release};
use std::alloc::Global;
use std::test::Fail;
use xet_hash::{MerkleHash, Reason, StoreError};
use xet_io::MemoryDisk;
use xet_shard_directory::MDBShardFile;
use xet_shard_merge::{ShardMergeResult, merge_shards};

/// A shard that does not join that of `abc`.
#[derive(Clone, Copy)]
enum Second {
    /// Its header and its footer are well formed, and its section of files is not.
    Malformed,
    /// It is that of `abc`, under a key.
    Keyed,
    /// It has a xorb of the same hash with another chunk.
    OtherXorb,
    /// It has a file of the same hash with another chunk.
    OtherFile,
}

/// The bytes of the shard of `abe`, whose file has more segments than there are.
fn malformed(alloc: Global) -> Result<Vec<u8>, StoreError> {
    let (mut bytes, _) = shard_of(alloc, b"abe")?;
    if bytes.len() != 672 {
        return Err(StoreError::UnexpectedEof);
    }
    bytes[87] = 1;
    Ok(bytes)
}

/// Copies a shard that is exported under a key into the folder `a`.
fn copy_keyed(
    alloc: Global,
    disk: &mut MemoryDisk,
    shard: &MDBShardFile,
) -> Result<MerkleHash, StoreError> {
    let export = keyed(alloc, disk, shard, true)?;
    let copy = export.copy_into_target_directory(alloc, disk, "a");
    close(export);
    let copy = copy?;
    let hash = copy.shard_hash;
    close(copy);
    Ok(hash)
}

/// Exports the shard of `abc` under a key, and copies the export into the folder `a`.
fn write_keyed(alloc: Global, disk: &mut MemoryDisk) -> Result<MerkleHash, StoreError> {
    let shard = MDBShardFile::load_from_file(alloc, disk, PATH)?;
    let answer = copy_keyed(alloc, disk, &shard);
    close(shard);
    answer
}

/// Writes this shard into the folder `a`, and returns its hash.
fn write_second(
    alloc: Global,
    disk: &mut MemoryDisk,
    second: Second,
) -> Result<MerkleHash, StoreError> {
    match second {
        Second::Malformed => put(alloc, disk, &malformed(alloc)?),
        Second::Keyed => write_keyed(alloc, disk),
        Second::OtherXorb => put(alloc, disk, &shard_of_other_xorb(alloc)?.0),
        Second::OtherFile => put(alloc, disk, &shard_of_other_file(alloc)?.0),
    }
}

/// Writes the shard of `abc`, this shard, and that of `abd`. Returns the hash of the second.
fn write_three(
    alloc: Global,
    disk: &mut MemoryDisk,
    second: Second,
) -> Result<MerkleHash, StoreError> {
    write(alloc, disk, b"abc")?;
    let hash = write_second(alloc, disk, second)?;
    write(alloc, disk, b"abd")?;
    Ok(hash)
}

/// Whether the first shard that is skipped has this hash.
fn is_skipped(merge: &ShardMergeResult, hash: MerkleHash) -> bool {
    merge
        .skipped_shards
        .first()
        .is_some_and(|shard| shard.shard_hash == hash)
}

/// The numbers where the three shards are merged into the folder `b`, and whether the second is skipped.
type Merged = ([u64; 4], bool);

fn merged(
    alloc: Global,
    disk: &mut MemoryDisk,
    second: Second,
    skip_on_error: bool,
) -> Result<Merged, StoreError> {
    let hash = write_three(alloc, disk, second)?;
    let merge = merge_shards(alloc, disk, "a", "b", 10_000, skip_on_error, 0)?;
    Ok((counted(&merge), is_skipped(&merge, hash)))
}

/// The same on an empty disk.
fn merged_on_empty(
    alloc: Global,
    second: Second,
    skip_on_error: bool,
) -> Result<Merged, StoreError> {
    let mut disk = MemoryDisk::new(alloc);
    let answer = merged(alloc, &mut disk, second, skip_on_error);
    release(disk);
    answer
}

#[test]
fn third_joins_where_the_second_is_skipped(rt: HostRuntime) -> Result<(), Fail> {
    let rows = [
        (Second::Malformed, true),
        (Second::Keyed, true),
        (Second::Keyed, false),
        (Second::OtherXorb, true),
        (Second::OtherXorb, false),
        (Second::OtherFile, false),
    ];
    for (second, skip_on_error) in rows {
        let answer = merged_on_empty(rt.alloc(), second, skip_on_error)?;
        assert_eq!(rt; answer, ([1, 2, 1, 1_000], true));
    }
    Ok(())
}

#[test]
fn malformed_section_is_refused_unless_skipped(rt: HostRuntime) -> Result<(), Fail> {
    let error = merged_on_empty(rt.alloc(), Second::Malformed, false).err();
    let expected = StoreError::MalformedData(Reason::SectionPlace);
    assert_eq!(rt; error, Some(expected));
    Ok(())
}
