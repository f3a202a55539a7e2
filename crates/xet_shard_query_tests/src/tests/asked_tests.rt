//! Tests of queries to a shard behind a reader.

ghost use Rattle.std.specs.Prelude.{◌≡◌, length};
ghost use Rattle.xet_shard_format.specs.Records.{file_rows};

use std::alloc::Global;
use std::test::Fail;
use xet_base::Items;
use xet_hash::{HMACKey, MerkleHash, StoreError, compute_data_hash, file_hash};
use xet_io::SliceReader;
use xet_shard::*;
use xet_shard_samples::{Written, abc_without_lookups, shard_of_abc};

/// The hash with this last byte, whose other bytes are 1.
fn hash_of(last: u8) -> MerkleHash {
    let mut bytes = [1; 32];
    bytes[31] = last;
    MerkleHash::from_bytes(bytes)
}

/// The file without segments whose hash has this last byte.
fn file_of(alloc: Global, last: u8) -> MDBFileInfo
    ensures { length (file_rows result) ≡ 1 }
{
    MDBFileInfo {
        metadata: FileDataSequenceHeader::new(hash_of(last), 0, false, false),
        segments: Items::new(alloc),
        verification: Items::new(alloc),
        metadata_ext: None,
    }
}

/// The bytes of a shard of seven files with the same first word of their hashes, or of eight.
fn shard_of_files(alloc: Global, eight: bool) -> Result<Vec<u8>, StoreError> {
    let a = file_of(alloc, 0);
    let b = file_of(alloc, 1);
    let c = file_of(alloc, 2);
    let d = file_of(alloc, 3);
    let e = file_of(alloc, 4);
    let f = file_of(alloc, 5);
    let g = file_of(alloc, 6);
    let h = file_of(alloc, 7);
    let key = HMACKey::default();
    let written = if eight {
        write_shard(alloc, &[], &[&a, &b, &c, &d, &e, &f, &g, &h], key, 0, 0)
    } else {
        write_shard(alloc, &[], &[&a, &b, &c, &d, &e, &f, &g], key, 0, 0)
    };
    bytes_of(written)
}

/// The bytes of a shard that was written.
fn bytes_of(written: Result<Written, StoreError>) -> Result<Vec<u8>, StoreError> {
    let (encoding, _) = written?;
    Ok(encoding)
}

/// The result of a query for a run.
pub(crate) type Run = Option<(usize, FileDataSequenceEntry)>;

/// What queries to the shard of `abc` in these bytes return: the file's number of segments, the run of its
/// chunk, and the runs at row 0 and at row 1.
fn answers(alloc: Global, encoding: &[u8]) -> Result<(Option<usize>, Run, Run, Run), StoreError> {
    let mut reader = SliceReader::new(encoding);
    let info = MDBShardInfo::load_from_reader(&mut reader)?;
    let chunk = compute_data_hash(b"abc");
    let hash = file_hash(alloc, &[(chunk, 3)])?;
    let file = info.get_file_reconstruction_info(alloc, &mut reader, &hash)?;
    let segments = file.map(|file| file.segments.as_slice().len());
    let query = [chunk, hash];
    let found = info.chunk_hash_dedup_query(alloc, &mut reader, &query)?;
    let first = info.chunk_hash_dedup_query_direct(alloc, &mut reader, &query, 0, 0)?;
    let second = info.chunk_hash_dedup_query_direct(alloc, &mut reader, &query, 1, 0)?;
    Ok((segments, found, first, second))
}

/// The run of the one chunk.
fn run_of_abc() -> Run {
    let chunk = compute_data_hash(b"abc");
    Some((1, FileDataSequenceEntry::new(chunk, 3, 0, 1)))
}

/// The expected results.
fn wanted() -> (Option<usize>, Run, Run, Run) {
    (Some(1), run_of_abc(), run_of_abc(), None)
}

#[test]
fn what_stands_is_found(rt: HostRuntime) -> Result<(), Fail> {
    let alloc = rt.alloc();
    let (encoding, _) = shard_of_abc(alloc)?;
    assert_eq!(rt; answers(alloc, &encoding)?, wanted());
    Ok(())
}

#[test]
fn what_stands_is_found_without_the_look_ups(rt: HostRuntime) -> Result<(), Fail> {
    let alloc = rt.alloc();
    let encoding = abc_without_lookups(alloc)?;
    assert_eq!(rt; answers(alloc, &encoding)?, wanted());
    Ok(())
}

#[test]
fn a_first_word_alone_is_no_run(rt: HostRuntime) -> Result<(), Fail> {
    let alloc = rt.alloc();
    let (encoding, info) = shard_of_abc(alloc)?;
    let mut reader = SliceReader::new(&encoding);
    let mut bytes = *compute_data_hash(b"abc").as_bytes();
    bytes[31] = 0;
    let query = [MerkleHash::from_bytes(bytes)];
    let run = info.chunk_hash_dedup_query(alloc, &mut reader, &query)?;
    assert_eq!(rt; run, None);
    Ok(())
}

/// The hash of the file that the shard in these bytes returns for the hash with this last byte.
fn found(alloc: Global, encoding: &[u8], last: u8) -> Result<Option<MerkleHash>, StoreError> {
    let mut reader = SliceReader::new(encoding);
    let info = MDBShardInfo::load_from_reader(&mut reader)?;
    let file = info.get_file_reconstruction_info(alloc, &mut reader, &hash_of(last))?;
    Ok(file.map(|file| file.hash()))
}

#[test]
fn seven_files_of_a_first_word_are_told_apart(rt: HostRuntime) -> Result<(), Fail> {
    let alloc = rt.alloc();
    let encoding = shard_of_files(alloc, false)?;
    assert_eq!(rt; found(alloc, &encoding, 6)?, Some(hash_of(6)));
    assert_eq!(rt; found(alloc, &encoding, 7)?, None);
    Ok(())
}

#[test]
fn eight_files_of_a_first_word_are_refused(rt: HostRuntime) -> Result<(), Fail> {
    let alloc = rt.alloc();
    let encoding = shard_of_files(alloc, true)?;
    let refused = found(alloc, &encoding, 6).err();
    assert_eq!(rt; refused, Some(StoreError::TruncatedHashCollision));
    Ok(())
}
