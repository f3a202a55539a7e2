//! Tests of listing the records of all files, on a disk in memory.

ghost use Rattle.std.specs.Prelude.{◌≡◌, ◌≢◌, ◌≤◌, ◌+◌, IfOk, OnOk, length};
ghost use Rattle.xet_hash.specs.Hash.{sentinel};
ghost use Rattle.xet_shard.specs.Held.{nothing};
ghost use Rattle.xet_shard_format.specs.Records.{IsFile, file_record_hash, file_rows, file_section};

use crate::tests::records::{flush, unmarked};
use crate::tests::samples::{Manager, opened, release};
use std::alloc::Global;
use std::test::Fail;
use xet_hash::{MerkleHash, StoreError, compute_data_hash};
use xet_io::MemoryDisk;
use xet_shard::MDBFileInfo;
use xet_shard_directory::MDBShardFile;
use xet_shard_format::section::Record;
use xet_shard_samples::file_of_abc;

/// The hash whose first word is this number, and whose other words are 0.
fn numbered(number: u16) -> MerkleHash {
    let [low, high] = number.to_le_bytes();
    let mut bytes = [0; 32];
    bytes[0] = low;
    bytes[1] = high;
    MerkleHash::from_bytes(bytes)
}

/// The file with this number.
fn file_of(alloc: Global, number: u16) -> Result<MDBFileInfo, StoreError>
    ensures form { IfOk result IsFile }
    ensures hash { IfOk result (λ file. file_record_hash file ≢ sentinel) }
    ensures rows { IfOk result (λ file. length (file_rows file) ≡ 4) }
{
    let hash = unmarked(numbered(number))?;
    file_of_abc(alloc, hash, compute_data_hash(b"abc"))
}

/// Adds the file with this number, where few rows of files are pending.
#[tactic(auto, using(crate::proofs::Few::few_files_before, crate::proofs::Few::file_rows_after))]
fn add(alloc: Global, manager: &mut Manager, number: u16) -> Result<(), StoreError>
    requires few { length (file_section manager.old.pending.files) ≤ 1000 }
    ensures more { OnOk result (length (file_section manager.new.pending.files) ≤ length (file_section manager.old.pending.files) + 4) }
{
    manager.add_file_reconstruction_info(file_of(alloc, number)?)
}

/// Adds the files with these numbers, where few rows of files are pending.
fn add_three(alloc: Global, manager: &mut Manager, numbers: [u16; 3]) -> Result<(), StoreError>
    requires few { length (file_section manager.old.pending.files) ≤ 1 }
{
    let [first, second, third] = numbers;
    add(alloc, manager, first)?;
    add(alloc, manager, second)?;
    add(alloc, manager, third)
}

/// Adds the files with these numbers and writes them.
fn write(alloc: Global, manager: &mut Manager, numbers: [u16; 3]) -> Result<(), StoreError>
    requires empty { manager.old.pending ≡ nothing }
    ensures empty { OnOk result (manager.new.pending ≡ nothing) }
{
    add_three(alloc, manager, numbers)?;
    flush(manager)
}

/// Writes three shards, and adds three files.
fn fill(alloc: Global, manager: &mut Manager) -> Result<(), StoreError>
    requires empty { manager.old.pending ≡ nothing }
{
    write(alloc, manager, [12, 10, 11])?;
    write(alloc, manager, [513, 21, 20])?;
    write(alloc, manager, [30, 32, 31])?;
    add_three(alloc, manager, [257, 2, 1])
}

/// Whether these paths are in ascending order.
fn are_rising(paths: [&str; 4]) -> bool {
    let [first, second, third, fourth] = paths;
    first < second && second < third && third < fourth
}

/// Copies the first of three shards, so that the copy expires at 110. Returns whether the paths are in ascending order:
/// that of the third shard, the first, the copy, and the second.
fn copy_first(
    alloc: Global,
    disk: &mut MemoryDisk,
    shards: &[MDBShardFile],
) -> Result<bool, StoreError> {
    let [first, second, third] = shards else {
        return Err(StoreError::FileNotFound);
    };
    let copy = first.export_with_expiration(alloc, disk, "a", 10, 100)?;
    Ok(are_rising([
        third.path.as_str(),
        first.path.as_str(),
        copy.path.as_str(),
        second.path.as_str(),
    ]))
}

/// Does this with the registered shards.
fn copy_registered(alloc: Global, manager: &mut Manager) -> Result<bool, StoreError> {
    let shards = manager.registered_shard_list()?;
    copy_first(alloc, manager.disk(), &shards)
}

/// Whether a record is that of the file whose hash has this first word.
fn is_file(alloc: Global, info: &MDBFileInfo, word: u64) -> Result<bool, StoreError> {
    let hash = info.hash();
    let expected = file_of_abc(alloc, hash, compute_data_hash(b"abc"))?;
    Ok(hash.word(0) == word && info.same(&expected))
}

/// Whether the files whose hashes have these first words are listed at a time.
fn are_listed(
    alloc: Global,
    manager: &mut Manager,
    now: u64,
    words: &[u64],
) -> Result<bool, StoreError> {
    let infos = manager.all_file_info(now)?;
    are_files(alloc, &infos, words)
}

/// Whether these are the records of the files with these first words, in order.
fn are_files(alloc: Global, infos: &[MDBFileInfo], words: &[u64]) -> Result<bool, StoreError> {
    let mut all = infos.len() == words.len();
    for (info, word) in infos.iter().zip(words.iter()) {
        if !is_file(alloc, info, *word)? {
            all = false;
        }
    }
    Ok(all)
}

/// Whether the paths of the shards are in the order of `copy_first`; and whether the files are listed at 0, at the
/// expiry of the copy, and after it.
fn seen(alloc: Global, manager: &mut Manager) -> Result<[bool; 4], StoreError>
    requires empty { manager.old.pending ≡ nothing }
{
    let whole = [1, 2, 257, 30, 31, 32, 10, 11, 12, 10, 11, 12, 20, 21, 513];
    let without = [1, 2, 257, 30, 31, 32, 10, 11, 12, 20, 21, 513];
    fill(alloc, manager)?;
    let ordered = copy_registered(alloc, manager)?;
    let first = are_listed(alloc, manager, 0, &whole)?;
    let last = are_listed(alloc, manager, 110, &whole)?;
    Ok([
        ordered,
        first,
        last,
        are_listed(alloc, manager, 111, &without)?,
    ])
}

fn seen_of_empty(alloc: Global) -> Result<[bool; 4], StoreError> {
    let mut manager = opened(alloc, MemoryDisk::new(alloc), 10_000, true)?;
    let answer = seen(alloc, &mut manager);
    release(manager);
    answer
}

#[test]
fn pending_files_are_listed_before_those_of_valid_shards(rt: HostRuntime) -> Result<(), Fail> {
    let answer = seen_of_empty(rt.alloc())?;
    assert_eq!(rt; answer, [true; 4]);
    Ok(())
}
