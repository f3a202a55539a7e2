//! Reading through a reader of a file, whose failures are those of its disk.

ghost use Rattle.std.specs.Prelude.{◌≡◌, true, is_some, length, option_map, IfErr, IfOk, IsErrOf, None, Ok, Some};
ghost use Rattle.xet_codec.specs.Stops.{HasDiskReason};
ghost use Rattle.xet_io.specs.Disk.{File, file_at};
ghost use Rattle.xet_io.specs.Frame.{Unchanged};
ghost use Rattle.xet_shard.specs.Sections.{info_at};
ghost use Rattle.xet_shard_directory.specs.Answers.{GivesUnlessDisk, IsFindError, IsReadError, in_file};
ghost use Rattle.xet_shard_directory.specs.internal.Reading.{of_disk};

use crate::sized_reader::SizedFileReader;
use xet_codec::store_error;
use xet_hash::{Place, StoreError};
use xet_io::Disk;
use xet_shard::MDBShardInfo;

/// The length of a file in bytes, and its modification time. `FileNotFound` if there is none.
pub(crate) fn stat<D: Disk>(disk: &mut D, path: &str) -> Result<(u64, u64), StoreError>
    ensures exact { D.tells disk.old ≡ true → GivesUnlessDisk (λ s. s) result (in_file (file_at (D.files disk.old) path.now) (λ f. Ok (length f.bytes, f.modified))) }
    ensures frame { Unchanged D.files D.tells D.faults disk.old disk.new }
    ensures reason { IfErr result (IsFindError (D.faults disk.old) (D.faults disk.new)) }
{
    match disk.stat(path) {
        Ok(Some(found)) => Ok(found),
        Ok(None) => Err(StoreError::FileNotFound),
        Err(refusal) => Err(store_error(refusal)),
    }
}

/// Whether there is a file at a path.
pub(crate) fn is_there<D: Disk>(disk: &mut D, path: &str) -> Result<bool, StoreError>
    ensures exact { D.tells disk.old ≡ true → IfOk result (λ there. there ≡ is_some (file_at (D.files disk.old) path.now)) }
    ensures frame { Unchanged D.files D.tells D.faults disk.old disk.new }
    ensures reason { IfErr result (HasDiskReason (D.faults disk.old) (D.faults disk.new)) }
{
    match disk.stat(path) {
        Ok(found) => Ok(found.is_some()),
        Err(refusal) => Err(store_error(refusal)),
    }
}

/// The length of the file at a path in bytes; none if there is no file.
pub(crate) fn size_of<D: Disk>(disk: &mut D, path: &str) -> Result<Option<u64>, StoreError>
    ensures exact { D.tells disk.old ≡ true → IfOk result (λ size. size ≡ option_map (λ f. length f.bytes) (file_at (D.files disk.old) path.now)) }
    ensures frame { Unchanged D.files D.tells D.faults disk.old disk.new }
    ensures reason { IfErr result (HasDiskReason (D.faults disk.old) (D.faults disk.new)) }
{
    match disk.stat(path) {
        Ok(Some((size, _))) => Ok(Some(size)),
        Ok(None) => Ok(None),
        Err(refusal) => Err(store_error(refusal)),
    }
}

/// The result of a call that read through a reader of a file. A failure of the reader is one of the disk, unless the
/// reader was out of memory.
pub(crate) fn of_disk<T>(answer: Result<T, StoreError>, is_short: bool) -> Result<T, StoreError>
    ensures { result ≡ of_disk is_short answer }
{
    match answer {
        Err(StoreError::Io(Place::Input)) if is_short => Err(StoreError::OutOfMemory),
        Err(StoreError::Io(Place::Input)) => Err(StoreError::Io(Place::Disk)),
        answer => answer,
    }
}

/// The header and the footer of the file at a path, which has `size` bytes.
pub(crate) fn info_of<D: Disk>(
    disk: &mut D,
    path: &str,
    size: u64,
) -> Result<MDBShardInfo, StoreError>
    ensures exact { D.tells disk.old ≡ true → (f : File) → file_at (D.files disk.old) path.now ≡ Some f → length f.bytes ≡ size → GivesUnlessDisk (λ info. info) result (info_at f.bytes) }
    ensures present { IsErrOf result StoreError.FileNotFound → ⊥ }
    ensures frame { Unchanged D.files D.tells D.faults disk.old disk.new }
    ensures reason { IfErr result (IsReadError (D.faults disk.old) (D.faults disk.new)) }
{
    let mut reader = SizedFileReader::new(disk, path, size);
    let answer = MDBShardInfo::load_from_reader(&mut reader);
    of_disk(answer, reader.was_out_of_memory())
}

/// The header and the footer of the file at a path, which was listed with `size` bytes. `FileNotFound` if it has vanished
/// since.
#[tactic(auto, using(crate::proofs::Presence::none_there))]
pub(crate) fn listed_info<D: Disk>(
    disk: &mut D,
    path: &str,
    size: u64,
) -> Result<MDBShardInfo, StoreError>
    ensures exact { D.tells disk.old ≡ true → (f : File) → file_at (D.files disk.old) path.now ≡ Some f → length f.bytes ≡ size → GivesUnlessDisk (λ info. info) result (info_at f.bytes) }
    ensures absent { D.tells disk.old ≡ true → IsErrOf result StoreError.FileNotFound → file_at (D.files disk.old) path.now ≡ None }
    ensures frame { Unchanged D.files D.tells D.faults disk.old disk.new }
    ensures reason { IfErr result (IsReadError (D.faults disk.old) (D.faults disk.new)) }
{
    match info_of(disk, path, size) {
        Err(StoreError::UnexpectedEof) => match is_there(disk, path) {
            Ok(true) => Err(StoreError::UnexpectedEof),
            Ok(false) => Err(StoreError::FileNotFound),
            Err(error) => Err(error),
        },
        answer => answer,
    }
}
