//! Tests of a folder on a disk in memory. Each test lends a new disk to a function that returns what it saw, drops the
//! disk, and then compares.

use crate::session::release;
use crate::xorbs::xorb_bytes;
use bytes::Bytes;
use std::alloc::Global;
use std::test::Fail;
use xet_base::Items;
use xet_folder::{
    Contents, FolderError, RecordTable, XorbFile, XorbTable, admit_folder, admit_shard,
    prune_folder, put_shard, put_xorb, read_xorb,
};
use xet_hash::{MerkleHash, Reason, StoreError, compute_data_hash, file_hash, xorb_hash};
use xet_io::MemoryDisk;
use xet_shard::write_shard;
use xet_shard_file::list_shards;
use xet_shard_format::{
    FileDataSequenceEntry, FileDataSequenceHeader, MDBFileInfo, MDBXorbInfo,
    XorbChunkSequenceEntry, XorbChunkSequenceHeader, shard_file_name,
};
use xet_xorb_chunk::Chunk;

/// Stores the xorb of `abc`.
pub fn store_abc(disk: &mut MemoryDisk, alloc: Global) -> Result<(), StoreError> {
    let chunks = [Chunk::new(Bytes::from_static(b"abc"))];
    let encoding = xorb_bytes(alloc, &chunks)?;
    put_xorb(disk, alloc, "store", &compute_data_hash(b"abc"), &encoding)
}

/// The bytes of the shard of the file `abc`.
fn shard_of_abc(alloc: Global) -> Result<Vec<u8>, StoreError> {
    let hash = compute_data_hash(b"abc");
    let block = MDBXorbInfo {
        metadata: XorbChunkSequenceHeader::new(hash, 1, 3),
        chunks: Items::from_vec(vec![in alloc; XorbChunkSequenceEntry::new(hash, 3, 0)]?),
    };
    let whole = file_hash(alloc, &[(hash, 3)])?;
    let file = MDBFileInfo {
        metadata: FileDataSequenceHeader::new(whole, 1, false, false),
        segments: Items::from_vec(vec![in alloc; FileDataSequenceEntry::new(hash, 3, 0, 1)]?),
        verification: Items::new(alloc),
        metadata_ext: None,
    };
    let written = write_shard(
        alloc,
        &[&block],
        &[&file],
        MerkleHash::default(),
        0,
        u64::MAX,
    )?;
    Ok(written.0)
}

/// Stores the xorb of `abc` and reads it: whether it has that chunk alone.
fn reads_abc(disk: &mut MemoryDisk, alloc: Global) -> Result<bool, StoreError> {
    store_abc(disk, alloc)?;
    let hash = compute_data_hash(b"abc");
    match read_xorb(disk, alloc, "store", &hash)? {
        XorbFile::Stored(leaves) => Ok(leaves.as_slice() == [(hash, 3)].as_slice()),
        _ => Ok(false),
    }
}

#[test]
fn reads_a_xorb(rt: HostRuntime) -> Result<(), Fail> {
    let mut disk = MemoryDisk::new(rt.alloc());
    let answer = reads_abc(&mut disk, rt.alloc());
    release(disk);
    assert!(rt; answer?);
    Ok(())
}

/// Stores the xorb and the shard of `abc` and validates the shard: how many files and xorbs it names.
fn admits_abc(
    disk: &mut MemoryDisk,
    alloc: Global,
    table: &mut XorbTable,
) -> Result<(usize, usize), StoreError> {
    store_abc(disk, alloc)?;
    let bytes = shard_of_abc(alloc)?;
    let hash = compute_data_hash(&bytes);
    put_shard(disk, alloc, "store", &hash, &bytes)?;
    let files = admit_shard(disk, alloc, "store", &hash, &bytes, table)?.len();
    Ok((files, table.len()))
}

#[test]
fn admits_a_shard(rt: HostRuntime) -> Result<(), Fail> {
    let mut disk = MemoryDisk::new(rt.alloc());
    let mut table = XorbTable::new(rt.alloc());
    let counts = admits_abc(&mut disk, rt.alloc(), &mut table);
    release_table(table);
    release(disk);
    assert_eq!(rt; counts?, (1, 1));
    Ok(())
}

/// Drops a table.
fn release_table(table: XorbTable) {
    let _ = &table;
}

/// Validates the shard of `abc`: its hash, and the number of files or the error.
fn validates_abc(
    disk: &mut MemoryDisk,
    alloc: Global,
    table: &mut XorbTable,
) -> Result<(MerkleHash, Result<usize, StoreError>), StoreError> {
    let bytes = shard_of_abc(alloc)?;
    let hash = compute_data_hash(&bytes);
    let files = admit_shard(disk, alloc, "store", &hash, &bytes, table);
    Ok((hash, files.map(|files| files.len())))
}

#[test]
fn refuses_a_shard_whose_xorb_is_missing(rt: HostRuntime) -> Result<(), Fail> {
    let mut disk = MemoryDisk::new(rt.alloc());
    let mut table = XorbTable::new(rt.alloc());
    let answer = validates_abc(&mut disk, rt.alloc(), &mut table);
    release_table(table);
    release(disk);
    let (hash, files) = answer?;
    assert_eq!(rt;
        files,
        Err(StoreError::InvalidShard(hash, Reason::MissingXorb))
    );
    Ok(())
}

/// Stores the xorb of `abc` and `def`, and returns its hash.
fn store_both(disk: &mut MemoryDisk, alloc: Global) -> Result<MerkleHash, StoreError> {
    let chunks = [
        Chunk::new(Bytes::from_static(b"abc")),
        Chunk::new(Bytes::from_static(b"def")),
    ];
    let leaves = [
        (compute_data_hash(b"abc"), 3),
        (compute_data_hash(b"def"), 3),
    ];
    let hash = xorb_hash(alloc, &leaves)?;
    put_xorb(disk, alloc, "store", &hash, &xorb_bytes(alloc, &chunks)?)?;
    Ok(hash)
}

/// The hash of the file `abc`.
fn hash_of_abc(alloc: Global) -> Result<MerkleHash, StoreError> {
    file_hash(alloc, &[(compute_data_hash(b"abc"), 3)])
}

/// Writes a shard that lists the file `abc` as the first chunk of a xorb, and returns its hash.
fn put_plan(
    disk: &mut MemoryDisk,
    alloc: Global,
    xorb: MerkleHash,
    expiry: u64,
) -> Result<MerkleHash, StoreError> {
    let bytes = plan_bytes(alloc, xorb, expiry)?;
    let hash = compute_data_hash(&bytes);
    put_shard(disk, alloc, "store", &hash, &bytes)?;
    Ok(hash)
}

/// The bytes of this shard.
fn plan_bytes(alloc: Global, xorb: MerkleHash, expiry: u64) -> Result<Vec<u8>, StoreError> {
    let whole = hash_of_abc(alloc)?;
    let file = MDBFileInfo {
        metadata: FileDataSequenceHeader::new(whole, 1, false, false),
        segments: Items::from_vec(vec![in alloc; FileDataSequenceEntry::new(xorb, 3, 0, 1)]?),
        verification: Items::new(alloc),
        metadata_ext: None,
    };
    Ok(write_shard(alloc, &[], &[&file], MerkleHash::default(), 0, expiry)?.0)
}

/// The number of records, and whether that of a file has the first chunk of this xorb as its plan.
fn shows_records(records: RecordTable, file: &MerkleHash, xorb: MerkleHash) -> (usize, bool) {
    let rows = records.into_rows();
    let planned = match rows.get(file) {
        Some(record) => {
            record.file().segments.as_slice()
                == [FileDataSequenceEntry::new(xorb, 3, 0, 1)].as_slice()
        }
        None => false,
    };
    (rows.len(), planned)
}

/// The records of a folder.
fn into_records(contents: Contents) -> RecordTable {
    contents.records
}

/// Validates a folder at the time 10: whether its shards are these, the number of its xorbs, and its records.
fn admits(
    disk: &mut MemoryDisk,
    alloc: Global,
    shards: &[MerkleHash],
) -> Result<(bool, usize, RecordTable), StoreError> {
    match admit_folder(disk, alloc, "store", 10) {
        Ok(contents) => {
            let listed = contents.shards.as_slice() == shards;
            let xorbs = contents.xorbs.len();
            Ok((listed, xorbs, into_records(contents)))
        }
        Err(refused) => Err(refused.error),
    }
}

/// Stores two xorbs, and shards with a plan of `abc` in the first, in the second, and, expired at the time 10, in a
/// xorb that is missing. Returns the hashes of the second xorb, its shard, and the shard of the first.
fn store_plans(disk: &mut MemoryDisk, alloc: Global) -> Result<[MerkleHash; 3], StoreError> {
    store_abc(disk, alloc)?;
    let both = store_both(disk, alloc)?;
    let older = put_plan(disk, alloc, compute_data_hash(b"abc"), u64::MAX)?;
    let newer = put_plan(disk, alloc, both, 10)?;
    put_plan(disk, alloc, MerkleHash::default(), 9)?;
    Ok([both, newer, older])
}

/// Validates a folder of these plans: whether its shards are right, the numbers of its xorbs and records, and whether
/// the record is that of the newer shard.
fn admits_plans(
    disk: &mut MemoryDisk,
    alloc: Global,
) -> Result<(bool, usize, usize, bool), StoreError> {
    let [both, newer, older] = store_plans(disk, alloc)?;
    let whole = hash_of_abc(alloc)?;
    let (listed, xorbs, records) = admits(disk, alloc, &[newer, older])?;
    let (count, planned) = shows_records(records, &whole, both);
    Ok((listed, xorbs, count, planned))
}

#[test]
fn admits_a_folder(rt: HostRuntime) -> Result<(), Fail> {
    let mut disk = MemoryDisk::new(rt.alloc());
    let answer = admits_plans(&mut disk, rt.alloc());
    release(disk);
    assert_eq!(rt; answer?, (true, 2, 1, true));
    Ok(())
}

/// Writes a keyed shard whose record of the xorb of `abc` lists this hash, and returns the shard's hash.
pub fn put_keyed(
    disk: &mut MemoryDisk,
    alloc: Global,
    listed: MerkleHash,
    expiry: u64,
) -> Result<MerkleHash, StoreError> {
    let bytes = keyed_bytes(alloc, listed, expiry)?;
    let hash = compute_data_hash(&bytes);
    put_shard(disk, alloc, "store", &hash, &bytes)?;
    Ok(hash)
}

/// The bytes of this shard.
fn keyed_bytes(alloc: Global, listed: MerkleHash, expiry: u64) -> Result<Vec<u8>, StoreError> {
    let block = MDBXorbInfo {
        metadata: XorbChunkSequenceHeader::new(compute_data_hash(b"abc"), 1, 3),
        chunks: Items::from_vec(vec![in alloc; XorbChunkSequenceEntry::new(listed, 3, 0)]?),
    };
    Ok(write_shard(alloc, &[&block], &[], compute_data_hash(b"key"), 0, expiry)?.0)
}

/// Validates a folder with such a shard of `abc` under its key: whether it is the only shard, and the number of xorbs.
fn admits_keyed(disk: &mut MemoryDisk, alloc: Global) -> Result<(bool, usize), StoreError> {
    store_abc(disk, alloc)?;
    let listed = compute_data_hash(b"abc").hmac(compute_data_hash(b"key"));
    let keyed = put_keyed(disk, alloc, listed, 10)?;
    let (alone, xorbs, _) = admits(disk, alloc, &[keyed])?;
    Ok((alone, xorbs))
}

#[test]
fn admits_a_keyed_shard(rt: HostRuntime) -> Result<(), Fail> {
    let mut disk = MemoryDisk::new(rt.alloc());
    let answer = admits_keyed(&mut disk, rt.alloc());
    release(disk);
    assert_eq!(rt; answer?, (true, 1));
    Ok(())
}

/// The error of a folder at the time 10, if any.
fn refusal(disk: &mut MemoryDisk, alloc: Global) -> Option<FolderError> {
    admit_folder(disk, alloc, "store", 10).err()
}

/// Validates a folder with a keyed shard of plain hashes: the hash of the shard, and the error.
fn refuses_keyed(
    disk: &mut MemoryDisk,
    alloc: Global,
) -> Result<(MerkleHash, Option<StoreError>), StoreError> {
    store_abc(disk, alloc)?;
    let keyed = put_keyed(disk, alloc, compute_data_hash(b"abc"), 10)?;
    match refusal(disk, alloc) {
        Some(refused) => Ok((keyed, Some(refused.error))),
        None => Ok((keyed, None)),
    }
}

#[test]
fn refuses_a_keyed_shard_of_other_chunks(rt: HostRuntime) -> Result<(), Fail> {
    let mut disk = MemoryDisk::new(rt.alloc());
    let answer = refuses_keyed(&mut disk, rt.alloc());
    release(disk);
    let (keyed, error) = answer?;
    assert_eq!(rt;
        error,
        Some(StoreError::InvalidShard(keyed, Reason::OtherChunks))
    );
    Ok(())
}

/// How many shards a folder has after it is pruned at a time, with a buffer of five seconds.
fn left_at(disk: &mut MemoryDisk, alloc: Global, now: u64) -> Result<usize, StoreError> {
    prune_folder(disk, alloc, "store", 5, now)?;
    Ok(list_shards(disk, alloc, "store")?.len())
}

/// How many shards are left at four times, one after the other, of one that expires at 10 and one that never does.
fn prunes(disk: &mut MemoryDisk, alloc: Global) -> Result<[usize; 4], StoreError> {
    put_plan(disk, alloc, MerkleHash::default(), 10)?;
    put_plan(disk, alloc, MerkleHash::default(), u64::MAX)?;
    Ok([
        left_at(disk, alloc, 10)?,
        left_at(disk, alloc, 14)?,
        left_at(disk, alloc, 15)?,
        left_at(disk, alloc, u64::MAX)?,
    ])
}

#[test]
fn prunes_expired_shards(rt: HostRuntime) -> Result<(), Fail> {
    let mut disk = MemoryDisk::new(rt.alloc());
    let counts = prunes(&mut disk, rt.alloc());
    release(disk);
    assert_eq!(rt; counts?, [2, 2, 1, 1]);
    Ok(())
}

/// Whether an error comes with the name of a shard.
fn is_named(alloc: Global, refused: &FolderError, shard: &MerkleHash) -> Result<bool, StoreError> {
    let due = shard_file_name(alloc, shard)?;
    match &refused.name {
        Some(name) => Ok(name.as_str() == due.as_str()),
        None => Ok(false),
    }
}

/// Validates a folder with a shard whose xorb is missing: the hash of the shard, and the error, with whether it comes
/// with the name of the shard.
fn names_shard(
    disk: &mut MemoryDisk,
    alloc: Global,
) -> Result<(MerkleHash, Option<(StoreError, bool)>), StoreError> {
    let hash = put_plan(disk, alloc, MerkleHash::default(), u64::MAX)?;
    match refusal(disk, alloc) {
        Some(refused) => {
            let named = is_named(alloc, &refused, &hash)?;
            Ok((hash, Some((refused.error, named))))
        }
        None => Ok((hash, None)),
    }
}

#[test]
fn names_the_shard_that_is_refused(rt: HostRuntime) -> Result<(), Fail> {
    let mut disk = MemoryDisk::new(rt.alloc());
    let answer = names_shard(&mut disk, rt.alloc());
    release(disk);
    let (hash, refused) = answer?;
    let error = StoreError::InvalidShard(hash, Reason::MissingXorb);
    assert_eq!(rt; refused, Some((error, true)));
    Ok(())
}
