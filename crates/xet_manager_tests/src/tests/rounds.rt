//! The records of ten rounds: of each a xorb of two chunks, and the file of its first chunk.

ghost use Rattle.std.specs.Prelude.{◌≡◌, ◌≢◌, [], IfOk, OnOk, length};
ghost use Rattle.xet_hash.specs.Hash.{sentinel};
ghost use Rattle.xet_shard.specs.Held.{nothing};
ghost use Rattle.xet_shard_format.specs.Records.{IsFile, IsXorb, file_record_hash, file_rows, xorb_record_hash, xorb_rows};

use crate::tests::records::unmarked;
use crate::tests::samples::Manager;
use std::alloc::Global;
use xet_base::Items;
use xet_hash::{MerkleHash, StoreError, compute_data_hash, file_hash};
use xet_shard::{
    MDBFileInfo, MDBInMemoryShard, MDBXorbInfo, XorbChunkSequenceEntry, XorbChunkSequenceHeader,
};
use xet_shard_format::section::Record;
use xet_shard_samples::file_of_abc;

/// A shard in memory to which records are added has at most this many bytes.
const MAX_SIZE: u64 = 1 << 20;

/// The hashes of the chunks of a round, which have three bytes each.
fn chunks_of(round: u8) -> [MerkleHash; 2] {
    [
        compute_data_hash(&[97, 98, round]),
        compute_data_hash(&[97, 99, round]),
    ]
}

/// The hash of the file of a round.
fn hash_of(alloc: Global, round: u8) -> Result<MerkleHash, StoreError> {
    let [chunk, _] = chunks_of(round);
    file_hash(alloc, &[(chunk, 3)])
}

/// The xorb with two chunks of three bytes, which has the hash of the first.
fn xorb_of_two(
    alloc: Global,
    first: MerkleHash,
    second: MerkleHash,
) -> Result<MDBXorbInfo, StoreError>
    ensures form { IfOk result IsXorb }
    ensures hash { IfOk result (λ xorb. xorb_record_hash xorb ≡ first) }
    ensures rows { IfOk result (λ xorb. length (xorb_rows xorb) ≡ 3) }
{
    Ok(MDBXorbInfo {
        metadata: XorbChunkSequenceHeader::new(first, 2, 6),
        chunks: Items::from_vec(vec![in alloc;
            XorbChunkSequenceEntry::new(first, 3, 0),
            XorbChunkSequenceEntry::new(second, 3, 3),
        ]?),
    })
}

/// The xorb of a round.
fn xorb_of(alloc: Global, round: u8) -> Result<MDBXorbInfo, StoreError>
    ensures form { IfOk result IsXorb }
    ensures hash { IfOk result (λ xorb. xorb_record_hash xorb ≢ sentinel) }
    ensures rows { IfOk result (λ xorb. length (xorb_rows xorb) ≡ 3) }
{
    let [first, second] = chunks_of(round);
    xorb_of_two(alloc, unmarked(first)?, second)
}

/// The file of a round.
fn file_of(alloc: Global, round: u8) -> Result<MDBFileInfo, StoreError>
    ensures form { IfOk result IsFile }
    ensures hash { IfOk result (λ file. file_record_hash file ≢ sentinel) }
    ensures rows { IfOk result (λ file. length (file_rows file) ≡ 4) }
{
    let [chunk, _] = chunks_of(round);
    let hash = unmarked(hash_of(alloc, round)?)?;
    file_of_abc(alloc, hash, chunk)
}

/// Adds the xorb of a round to a manager where nothing is pending.
fn add_xorb(alloc: Global, manager: &mut Manager, round: u8) -> Result<(), StoreError>
    requires empty { manager.old.pending ≡ nothing }
    ensures files { OnOk result (manager.new.pending.files ≡ []) }
{
    manager.add_xorb_block(xorb_of(alloc, round)?)
}

/// Adds the file of a round to a manager where no file is pending.
fn add_file(alloc: Global, manager: &mut Manager, round: u8) -> Result<(), StoreError>
    requires none { manager.old.pending.files ≡ [] }
{
    manager.add_file_reconstruction_info(file_of(alloc, round)?)
}

/// Adds the records of a round to a manager where nothing is pending.
pub fn add_round(alloc: Global, manager: &mut Manager, round: u8) -> Result<(), StoreError>
    requires empty { manager.old.pending ≡ nothing }
{
    add_xorb(alloc, manager, round)?;
    add_file(alloc, manager, round)
}

/// Adds the xorb of a round to a shard in memory.
#[tactic(auto, using(crate::proofs::Few::few_with_xorb))]
fn keep_xorb(alloc: Global, shard: &mut MDBInMemoryShard, round: u8) -> Result<(), StoreError> {
    if shard.shard_file_size() > MAX_SIZE {
        return Err(StoreError::OutOfMemory);
    }
    shard.add_xorb_block(xorb_of(alloc, round)?)
}

/// Adds the file of a round to a shard in memory.
#[tactic(auto, using(crate::proofs::Few::few_with_file))]
fn keep_file(alloc: Global, shard: &mut MDBInMemoryShard, round: u8) -> Result<(), StoreError> {
    if shard.shard_file_size() > MAX_SIZE {
        return Err(StoreError::OutOfMemory);
    }
    shard.add_file_reconstruction_info(file_of(alloc, round)?)
}

/// Adds the records of a round to a shard in memory.
pub fn keep_round(
    alloc: Global,
    shard: &mut MDBInMemoryShard,
    round: u8,
) -> Result<(), StoreError> {
    keep_xorb(alloc, shard, round)?;
    keep_file(alloc, shard, round)
}

/// Whether a manager answers each query of the chunks of a round as the shard in memory does.
fn has_same_runs(
    manager: &mut Manager,
    shard: &MDBInMemoryShard,
    round: u8,
) -> Result<bool, StoreError> {
    let [first, second] = chunks_of(round);
    let queries: [&[MerkleHash]; 4] = [&[first], &[second], &[first, second], &[second, first]];
    let mut same = true;
    for query in queries {
        if manager.chunk_hash_dedup_query(query)? != shard.chunk_hash_dedup_query(query) {
            same = false;
        }
    }
    Ok(same)
}

/// The number of chunks in the run that is found of the chunks of a round.
fn run_of(manager: &mut Manager, round: u8) -> Result<Option<usize>, StoreError> {
    let found = manager.chunk_hash_dedup_query(&chunks_of(round))?;
    Ok(found.map(|run| run.0))
}

/// Whether the runs of all ten rounds are those of the shard in memory, and how many rounds have a run of two chunks.
fn runs(manager: &mut Manager, shard: &MDBInMemoryShard) -> Result<(bool, usize), StoreError> {
    let mut same = true;
    let mut count = 0usize;
    for round in 0u8..10 {
        if !has_same_runs(manager, shard, round)? {
            same = false;
        }
        if run_of(manager, round)? == Some(2) {
            count = count.saturating_add(1);
        }
    }
    Ok((same, count))
}

/// Whether a record is the one of the shard in memory, or there is none in either.
fn is_same(found: Option<&MDBFileInfo>, kept: Option<&MDBFileInfo>) -> bool {
    match (found, kept) {
        (Some(file), Some(other)) => file.same(other),
        (None, None) => true,
        _ => false,
    }
}

/// Whether the record of the file of a round is that of the shard in memory, whether there is one, and whether it is
/// pending.
fn file(
    alloc: Global,
    manager: &mut Manager,
    shard: &MDBInMemoryShard,
    round: u8,
) -> Result<[bool; 3], StoreError> {
    let hash = hash_of(alloc, round)?;
    let kept = shard.file_info(&hash);
    Ok(match manager.get_file_reconstruction_info(&hash)? {
        Some((file, holder)) => [is_same(Some(&file), kept), true, holder.is_none()],
        None => [is_same(None, kept), false, false],
    })
}

/// Whether the records of all ten files are those of the shard in memory, how many there are, and how many of them are
/// pending.
fn files(
    alloc: Global,
    manager: &mut Manager,
    shard: &MDBInMemoryShard,
) -> Result<(bool, [usize; 2]), StoreError> {
    let mut all = true;
    let mut count = 0usize;
    let mut pending = 0usize;
    for round in 0u8..10 {
        let [same, is_there, is_pending] = file(alloc, manager, shard, round)?;
        all = all && same;
        count = count.saturating_add(usize::from(is_there));
        pending = pending.saturating_add(usize::from(is_pending));
    }
    Ok((all, [count, pending]))
}

/// What a manager answers of the ten rounds: whether the runs and the records are those of a shard in memory; and how
/// many runs of two chunks, how many records and how many pending ones are found.
pub type Seen = ([bool; 2], [usize; 3]);

pub fn seen(
    alloc: Global,
    manager: &mut Manager,
    shard: &MDBInMemoryShard,
) -> Result<Seen, StoreError> {
    let (same_runs, runs) = runs(manager, shard)?;
    let (same_files, [files, pending]) = files(alloc, manager, shard)?;
    Ok(([same_runs, same_files], [runs, files, pending]))
}
