//! Reading of the length and the records of a shard file.

ghost use Rattle.std.specs.Prelude.{◌≡◌, true, length, None, Ok, IfErr, IfOk, IfSome, Some, option_map};
ghost use Rattle.xet_io.specs.Disk.{File, file_at};
ghost use Rattle.xet_io.specs.Frame.{Unchanged};
ghost use Rattle.xet_shard.specs.Sections.{blocks_in, files_in};
ghost use Rattle.xet_shard.specs.Union.{records_in};
ghost use Rattle.xet_shard_directory.specs.Answers.{GivesUnlessDisk, IsFindError, IsQueryError, IsReadError, in_file};
ghost use Rattle.xet_shard_format.specs.Records.{AreRecords, IsFile, IsXorb, file_record_hash, xorb_record_hash};
ghost use Rattle.xet_shard_merge.specs.internal.Grouping.{IsRead};
ghost use Rattle.xet_shard_merge.specs.internal.Keeping.{IsOffer, IsUnreadable};
ghost use Rattle.xet_shard_merge.specs.internal.Reading.{IsUnlessSkipped, of_disk};

use crate::group::Records;
use std::alloc::Global;
use xet_codec::{FileReader, store_error};
use xet_hash::{Place, StoreError};
use xet_io::Disk;
use xet_shard::{MDBFileInfo, MDBXorbInfo};
use xet_shard_directory::MDBShardFile;

/// The length of a file in bytes. `FileNotFound` if there is none.
pub(crate) fn file_length<D: Disk>(disk: &mut D, path: &str) -> Result<u64, StoreError>
    ensures exact { D.tells disk.old ≡ true → GivesUnlessDisk (λ n. n) result (in_file (file_at (D.files disk.old) path.now) (λ f. Ok (length f.bytes))) }
    ensures frame { Unchanged D.files D.tells D.faults disk.old disk.new }
    ensures reason { IfErr result (IsFindError (D.faults disk.old) (D.faults disk.new)) }
{
    match disk.stat(path) {
        Ok(Some((length, _))) => Ok(length),
        Ok(None) => Err(StoreError::FileNotFound),
        Err(refusal) => Err(store_error(refusal)),
    }
}

/// What is read of a shard file: its length and its records. None if a section is malformed and errors are skipped.
pub(crate) fn read_offered<D: Disk>(
    alloc: Global,
    disk: &mut D,
    shard: &MDBShardFile,
    skip_on_error: bool,
) -> Result<Option<(u64, Records)>, StoreError>
    ensures offer { D.tells disk.old ≡ true → (f : File) → file_at (D.files disk.old) shard.now.path ≡ Some f → IfOk result (λ found. IsOffer skip_on_error (option_map (λ x. (x.0, (x.1.0.items, x.1.1.items))) found) (length f.bytes) (records_in shard.now.shard.metadata f.bytes)) }
    ensures form { IfOk result (λ found. IfSome found (λ x. IsRead (x.1.0.items, x.1.1.items))) }
    ensures refused { D.tells disk.old ≡ true → (f : File) → file_at (D.files disk.old) shard.now.path ≡ Some f → IfErr result (IsUnreadable skip_on_error (records_in shard.now.shard.metadata f.bytes)) }
    ensures frame { Unchanged D.files D.tells D.faults disk.old disk.new }
    ensures reason { IfErr result (IsReadError (D.faults disk.old) (D.faults disk.new)) }
{
    match file_length(disk, shard.path.as_str()) {
        Ok(length) => match read_records(alloc, disk, shard) {
            Ok(records) => Ok(Some((length, records))),
            Err(error) => unless_skipped(error, skip_on_error),
        },
        Err(error) => Err(error),
    }
}

/// Passes over a malformed section, if errors are skipped.
fn unless_skipped(
    error: StoreError,
    skip_on_error: bool,
) -> Result<Option<(u64, Records)>, StoreError>
    ensures { IsUnlessSkipped skip_on_error error result }
{
    match error {
        StoreError::UnexpectedEof if skip_on_error => Ok(None),
        StoreError::MalformedData(_) if skip_on_error => Ok(None),
        error => Err(error),
    }
}

/// The records of a shard file; the files are read first. If a section is malformed, the error is that of
/// the first check that fails.
pub(crate) fn read_records<D: Disk>(
    alloc: Global,
    disk: &mut D,
    shard: &MDBShardFile,
) -> Result<Records, StoreError>
    ensures exact { D.tells disk.old ≡ true → (f : File) → file_at (D.files disk.old) shard.now.path ≡ Some f → GivesUnlessDisk (λ x. (x.0.items, x.1.items)) result (records_in shard.now.shard.metadata f.bytes) }
    ensures form { IfOk result (λ x. IsRead (x.0.items, x.1.items)) }
    ensures frame { Unchanged D.files D.tells D.faults disk.old disk.new }
    ensures reason { IfErr result (IsQueryError (D.faults disk.old) (D.faults disk.new)) }
{
    match read_files(alloc, disk, shard) {
        Ok(files) => match read_blocks(alloc, disk, shard) {
            Ok(blocks) => Ok((blocks, files)),
            Err(error) => Err(error),
        },
        Err(error) => Err(error),
    }
}

/// The files of a shard file.
fn read_files<D: Disk>(
    alloc: Global,
    disk: &mut D,
    shard: &MDBShardFile,
) -> Result<Vec<MDBFileInfo>, StoreError>
    ensures exact { D.tells disk.old ≡ true → (f : File) → file_at (D.files disk.old) shard.now.path ≡ Some f → GivesUnlessDisk (λ v. v.items) result (files_in shard.now.shard.metadata f.bytes) }
    ensures form { IfOk result (λ v. AreRecords file_record_hash IsFile None v.items) }
    ensures frame { Unchanged D.files D.tells D.faults disk.old disk.new }
    ensures reason { IfErr result (IsQueryError (D.faults disk.old) (D.faults disk.new)) }
{
    let mut reader = FileReader::new(disk, shard.path.as_str());
    let answer = shard.shard.read_all_file_info_sections(alloc, &mut reader);
    let is_short = reader.was_out_of_memory();
    of_disk(answer, is_short)
}

/// The xorbs of a shard file.
fn read_blocks<D: Disk>(
    alloc: Global,
    disk: &mut D,
    shard: &MDBShardFile,
) -> Result<Vec<MDBXorbInfo>, StoreError>
    ensures exact { D.tells disk.old ≡ true → (f : File) → file_at (D.files disk.old) shard.now.path ≡ Some f → GivesUnlessDisk (λ v. v.items) result (blocks_in shard.now.shard.metadata f.bytes) }
    ensures form { IfOk result (λ v. AreRecords xorb_record_hash IsXorb None v.items) }
    ensures frame { Unchanged D.files D.tells D.faults disk.old disk.new }
    ensures reason { IfErr result (IsQueryError (D.faults disk.old) (D.faults disk.new)) }
{
    let mut reader = FileReader::new(disk, shard.path.as_str());
    let answer = shard.shard.read_all_xorb_blocks_full(alloc, &mut reader);
    let is_short = reader.was_out_of_memory();
    of_disk(answer, is_short)
}

/// The result of a call that read through a `FileReader`. A failure of the reader is one of the disk, unless the
/// reader was out of memory.
fn of_disk<T>(answer: Result<T, StoreError>, is_short: bool) -> Result<T, StoreError>
    ensures { result ≡ of_disk is_short answer }
{
    match answer {
        Err(StoreError::Io(Place::Input)) if is_short => Err(StoreError::OutOfMemory),
        Err(StoreError::Io(Place::Input)) => Err(StoreError::Io(Place::Disk)),
        answer => answer,
    }
}
