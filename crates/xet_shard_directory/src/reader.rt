//! A reader of a shard file, which borrows the disk.

ghost use Rattle.std.specs.Prelude.{◌≡◌, true, IfErr, IfOk, Ok};
ghost use Rattle.xet_codec.specs.FileReader.{bytes_of};
ghost use Rattle.xet_codec.specs.Stops.{HasDiskReason};
ghost use Rattle.xet_io.specs.Disk.{bytes_at, file_at};
ghost use Rattle.xet_io.specs.Frame.{Unchanged};
ghost use Rattle.xet_shard_directory.specs.Answers.{GivesUnlessDisk, IsFindError, in_file};
ghost use Rattle.xet_shard_directory.specs.Sized.{is_observable};

use crate::reading::{is_there, size_of};
use crate::shard_file::MDBShardFile;
use crate::sized_reader::SizedFileReader;
use xet_codec::FileReader;
use xet_hash::StoreError;
use xet_io::Disk;

/// The error of `get_reader` or `get_reader_if_present`, with the disk that was lent.
#[derive(Drop)]
pub struct NoReader<'a, D: Disk> {
    /// The disk. No file has changed.
    pub disk: &'a mut D,
    /// The error.
    pub error: StoreError,
}

impl<'a, D: Disk> NoReader<'a, D> {
    /// The error. The disk stays as it is.
    pub fn into_error(self) -> StoreError
        ensures kept { self.exit.0.now ≡ self.entry.disk.now }
        ensures error { result ≡ self.entry.error }
    {
        self.error
    }
}

/// A reader of a shard file or, if there is no such file, the disk.
#[derive(Drop)]
pub enum ReaderIfPresent<'a, D: Disk> {
    /// The file is there.
    Present(FileReader<'a, D>),
    /// There is no file.
    Absent(&'a mut D),
}

impl MDBShardFile {
    ghost use Rattle.xet_shard_directory.specs.Reader.{IsFresh, IsFreshIfPresent, by_error, bytes_if_present, disk_if_present};

    /// A reader of the file's bytes. `FileNotFound` if and only if there is no file. The error gives the disk back, so that
    /// contracts can say that no file has changed.
    #[tactic(auto, using(crate::proofs::Presence::reads_present, crate::proofs::Presence::reads_absent, crate::proofs::Presence::disk_gives, crate::proofs::Presence::disk_finds))]
    pub fn get_reader<'a, D: Disk>(
        &'a self,
        disk: &'a mut D,
    ) -> Result<FileReader<'a, D>, NoReader<'a, D>>
        ensures exact { D.tells disk.old ≡ true → GivesUnlessDisk (λ reader. bytes_of (D.files reader.disk.now) reader.name.now) (by_error result) (in_file (file_at (D.files disk.old) self.now.path) (λ f. Ok f.bytes)) }
        ensures fresh { IfOk result (IsFresh self.now.path) }
        ensures same_disk { IfOk result (λ reader. reader.disk.ghost_name ≡ disk.entry.ghost_name) }
        ensures frame { IfOk result (λ reader. Unchanged D.files D.tells D.faults disk.old reader.disk.now) }
        ensures refused { IfErr result (λ refused. (refused.disk.ghost_name ≡ disk.entry.ghost_name) × Unchanged D.files D.tells D.faults disk.old refused.disk.now) }
        ensures reason { IfErr result (λ refused. IsFindError (D.faults disk.old) (D.faults refused.disk.now) refused.error) }
    {
        let path = self.path.as_str();
        match is_there(disk, path) {
            Ok(true) => Ok(FileReader::new(disk, path)),
            Ok(false) => Err(NoReader {
                disk,
                error: StoreError::FileNotFound,
            }),
            Err(error) => Err(NoReader { disk, error }),
        }
    }

    /// A reader of the file's bytes that knows their number. `FileNotFound` if there is no file.
    #[tactic(auto, using(crate::proofs::Presence::sized_present, crate::proofs::Presence::sized_absent, crate::proofs::Presence::disk_gives, crate::proofs::Presence::disk_finds))]
    pub(crate) fn get_sized_reader<'a, D: Disk>(
        &'a self,
        disk: &'a mut D,
    ) -> Result<SizedFileReader<'a, D>, NoReader<'a, D>>
        ensures exact { D.tells disk.old ≡ true → GivesUnlessDisk (λ reader. bytes_of (D.files reader.disk.now) reader.name.now) (by_error result) (in_file (file_at (D.files disk.old) self.now.path) (λ f. Ok f.bytes)) }
        ensures observable { D.tells disk.old ≡ true → IfOk result (λ r. is_observable (D.tells r.disk.now) r.size (bytes_of (D.files r.disk.now) r.name.now) ≡ true) }
        ensures fresh { IfOk result (λ r. (r.name.now ≡ self.now.path) × (r.shortages ≡ 0)) }
        ensures same_disk { IfOk result (λ r. r.disk.ghost_name ≡ disk.entry.ghost_name) }
        ensures frame { IfOk result (λ r. Unchanged D.files D.tells D.faults disk.old r.disk.now) }
        ensures refused { IfErr result (λ refused. (refused.disk.ghost_name ≡ disk.entry.ghost_name) × Unchanged D.files D.tells D.faults disk.old refused.disk.now) }
        ensures reason { IfErr result (λ refused. IsFindError (D.faults disk.old) (D.faults refused.disk.now) refused.error) }
    {
        let path = self.path.as_str();
        match size_of(disk, path) {
            Ok(Some(size)) => Ok(SizedFileReader::new(disk, path, size)),
            Ok(None) => Err(NoReader {
                disk,
                error: StoreError::FileNotFound,
            }),
            Err(error) => Err(NoReader { disk, error }),
        }
    }

    /// A reader of the file's bytes; `Absent` if and only if there is no file.
    #[tactic(auto, using(crate::proofs::Presence::bytes_present, crate::proofs::Presence::bytes_absent))]
    pub fn get_reader_if_present<'a, D: Disk>(
        &'a self,
        disk: &'a mut D,
    ) -> Result<ReaderIfPresent<'a, D>, NoReader<'a, D>>
        ensures exact { D.tells disk.old ≡ true → IfOk result (λ found. bytes_if_present D.files found ≡ bytes_at (D.files disk.old) self.now.path) }
        ensures fresh { IfOk result (IsFreshIfPresent self.now.path) }
        ensures same_disk { IfOk result (λ found. (disk_if_present found).ghost_name ≡ disk.entry.ghost_name) }
        ensures frame { IfOk result (λ found. Unchanged D.files D.tells D.faults disk.old (disk_if_present found).now) }
        ensures refused { IfErr result (λ refused. (refused.disk.ghost_name ≡ disk.entry.ghost_name) × Unchanged D.files D.tells D.faults disk.old refused.disk.now) }
        ensures reason { IfErr result (λ refused. HasDiskReason (D.faults disk.old) (D.faults refused.disk.now) refused.error) }
    {
        let path = self.path.as_str();
        match is_there(disk, path) {
            Ok(true) => Ok(ReaderIfPresent::Present(FileReader::new(disk, path))),
            Ok(false) => Ok(ReaderIfPresent::Absent(disk)),
            Err(error) => Err(NoReader { disk, error }),
        }
    }
}
