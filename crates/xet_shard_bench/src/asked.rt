//! What is asked: a manager, its index, a map, and a disk.

ghost use Rattle.std.specs.Prelude.{◌≡◌, ◌<◌};

use crate::made::{ABSENT, CHUNKS, hash_of, hashes};
use crate::phases::Manager;
use std::alloc::Global;
use std::collections::HashMap;
use std::slice;
use std::sync::ledger::{Blank, Ledger};
use xet_codec::store_error;
use xet_hash::{MerkleHash, StoreError};
use xet_io::{Disk, MemoryDisk};
use xet_manager::{PackedIndex, Steps};
use xet_shard_directory::MDBShardFile;

/// The length of a row, in bytes.
const ROW: usize = 48;

/// Where the chunk with a first word is: the number of its shard, the row of its xorb, and its index in the xorb.
pub(crate) type Places = HashMap<u64, (u32, u32, u16)>;

/// The hashes that are asked for.
#[derive(Drop)]
pub(crate) struct Lists {
    /// Of chunks that are in no shard.
    pub absent: Vec<MerkleHash>,
    /// Of chunks of the shards.
    pub here: Vec<MerkleHash>,
}

/// So many hashes of each kind, where the shards have so many chunks.
pub(crate) fn lists_of(alloc: Global, chunks: u64, count: u64) -> Result<Lists, StoreError> {
    let absent = hashes(alloc, ABSENT, chunks, count)?;
    let here = hashes(alloc, 0, chunks, count)?;
    Ok(Lists { absent, here })
}

/// The number of chunks of these shards.
pub(crate) fn chunks_in(files: &[MDBShardFile]) -> u64 {
    (files.len() as u64).saturating_mul(CHUNKS as u64)
}

/// How many queries a manager answers, one for each hash.
pub(crate) fn found(manager: &mut Manager, hashes: &[MerkleHash]) -> Result<u64, StoreError> {
    let mut found = 0u64;
    for hash in hashes {
        if manager
            .chunk_hash_dedup_query(slice::from_ref(hash))?
            .is_some()
        {
            found = found.saturating_add(1);
        }
    }
    Ok(found)
}

/// How many hashes have their first word in a map.
pub(crate) fn placed(places: &Places, hashes: &[MerkleHash]) -> u64 {
    let mut placed = 0u64;
    for hash in hashes {
        if let Some(place) = places.get(&hash.word(0)) {
            placed = placed.saturating_add((place.2 < u16::MAX) as u64);
        }
    }
    placed
}

/// How many hashes have their first word in an index.
pub(crate) fn indexed<L: Ledger>(index: &PackedIndex, hashes: &[MerkleHash], blank: Blank) -> u64
    requires name { blank.name ≡ L.name }
    requires parts { blank.parts ≡ L.parts }
    requires some { 0 < blank.parts }
{
    let mut steps = Steps::<L>::new(blank);
    let mut indexed = 0u64;
    for hash in hashes {
        if let Some(place) = index.find(hash.word(0), &mut steps) {
            indexed = indexed.saturating_add((place.chunk < u16::MAX) as u64);
        }
    }
    indexed
}

/// The map of so many chunks.
pub(crate) fn places_of(alloc: Global, chunks: u64) -> Result<Places, StoreError> {
    let mut places = HashMap::new(alloc);
    match insert_places(&mut places, chunks) {
        Ok(()) => Ok(places),
        Err(error) => Err(error),
    }
}

fn insert_places(places: &mut Places, chunks: u64) -> Result<(), StoreError> {
    for i in 0..chunks {
        let shard = u32::try_from(i / CHUNKS as u64).unwrap_or(0);
        places.insert(hash_of(i).word(0), (shard, 0, (i % CHUNKS as u64) as u16))?;
    }
    Ok(())
}

/// The number of bytes that are read where the chunks of these hashes are, by `stat` and two reads for each.
pub(crate) fn read(
    disk: &mut MemoryDisk,
    files: &[MDBShardFile],
    hashes: &[MerkleHash],
) -> Result<u64, StoreError> {
    let mut bytes = 0u64;
    for hash in hashes {
        let number = hash.word(1);
        if let Some(file) = files.get((number / CHUNKS as u64) as usize) {
            bytes = bytes.saturating_add(read_rows(disk, file, (number % CHUNKS as u64) as u16)?);
        }
    }
    Ok(bytes)
}

/// Reads the rows of a shard's xorb and of the chunk with this index.
fn read_rows(disk: &mut MemoryDisk, file: &MDBShardFile, chunk: u16) -> Result<u64, StoreError> {
    let path = file.path.as_str();
    let start = file.shard.metadata.xorb_info_offset;
    let row = (chunk as u64 + 1) * ROW as u64;
    if let Err(refusal) = disk.stat(path) {
        return Err(store_error(refusal));
    }
    let first = read_row(disk, path, start)?;
    let second = read_row(disk, path, start.saturating_add(row))?;
    Ok(first.saturating_add(second))
}

fn read_row(disk: &mut MemoryDisk, path: &str, at: u64) -> Result<u64, StoreError> {
    let mut row = [0; ROW];
    match disk.read_at(path, at, &mut row) {
        Ok(Some(count)) => Ok(count as u64),
        Ok(None) => Ok(0),
        Err(refusal) => Err(store_error(refusal)),
    }
}
