//! A reader of a file whose length is known.

ghost use Rattle.std.specs.Prelude.{◌≡◌, ◌<◌, ◌≤◌, ◌↔◌, IsErr, IfOk, IsTrue, Some, length, true};
ghost use Rattle.xet_codec.specs.FileReader.{all_faults, bytes_of, lent_disk};
ghost use Rattle.xet_io.specs.Disk.{File, file_at};
ghost use Rattle.xet_io.specs.Faults.{HasCause, one_more};
ghost use Rattle.xet_io.specs.Lent.{IsSameLent};
ghost use Rattle.xet_io.specs.Streams.{ReadsPart};
ghost use Rattle.xet_shard_directory.specs.Sized.{is_observable};

use xet_io::{Disk, Failed, ReadAt, Refusal};

/// A reader over one file of a disk that is lent to it, which does not ask the disk for the file's length. It counts
/// failures as a `FileReader` does. Its bytes are observable if the disk is, and the file has the length that was passed.
#[derive(Drop)]
pub struct SizedFileReader<'a, D: Disk> {
    disk: &'a mut D,
    name: &'a str,
    size: u64,
    shortages: u64,
}

impl<'a, D: Disk> SizedFileReader<'a, D> {
    /// A reader over the file of this name, which has `size` bytes.
    pub fn new(disk: &'a mut D, name: &'a str, size: u64) -> SizedFileReader<'a, D>
        ensures same_disk { result.disk.ghost_name ≡ disk.entry.ghost_name }
        ensures now { result.disk.now ≡ disk.old }
        ensures name { result.name.now ≡ name.now }
        ensures shortages { result.shortages ≡ 0 }
        ensures observable { D.tells disk.old ≡ true → (f : File) → file_at (D.files disk.old) name.now ≡ Some f → length f.bytes ≡ size → is_observable (D.tells result.disk.now) result.size (bytes_of (D.files result.disk.now) result.name.now) ≡ true }
    {
        SizedFileReader {
            disk,
            name,
            size,
            shortages: 0,
        }
    }

    /// Whether the disk was out of memory in a call of this reader.
    pub fn was_out_of_memory(&self) -> bool
        ensures { IsTrue result ↔ 0 < self.now.shortages }
    {
        self.shortages > 0
    }
}

impl<'a, D: Disk> ReadAt for SizedFileReader<'a, D> {
    ghost tells = { λ r. is_observable (D.tells r.disk.now) r.size (bytes_of (D.files r.disk.now) r.name.now) };

    ghost bytes = { λ r. bytes_of (D.files r.disk.now) r.name.now };

    ghost faults = { λ r. all_faults (D.faults r.disk.now) r.shortages };

    ghost lent = { λ r. lent_disk r.disk.ghost_name (D.files r.disk.now) (D.tells r.disk.now) (D.faults r.disk.now) };

    fn length(&mut self) -> Result<u64, Failed> {
        Ok(self.size)
    }

    fn read_at(&mut self, at: u64, buf: &mut [u8]) -> Result<usize, Failed>
        ensures bound { IfOk result (λ count. count ≤ length buf.new) }
        ensures told { is_observable (D.tells self.old.disk.now) self.old.size (bytes_of (D.files self.old.disk.now) self.old.name.now) ≡ true → IfOk result (ReadsPart (bytes_of (D.files self.old.disk.now) self.old.name.now) at buf.new) }
        ensures same { bytes_of (D.files self.new.disk.now) self.new.name.now ≡ bytes_of (D.files self.old.disk.now) self.old.name.now }
        ensures tells { is_observable (D.tells self.new.disk.now) self.new.size (bytes_of (D.files self.new.disk.now) self.new.name.now) ≡ is_observable (D.tells self.old.disk.now) self.old.size (bytes_of (D.files self.old.disk.now) self.old.name.now) }
        ensures lent { IsSameLent (lent_disk self.old.disk.ghost_name (D.files self.old.disk.now) (D.tells self.old.disk.now) (D.faults self.old.disk.now)) (lent_disk self.new.disk.ghost_name (D.files self.new.disk.now) (D.tells self.new.disk.now) (D.faults self.new.disk.now)) }
        ensures cause { HasCause (all_faults (D.faults self.old.disk.now) self.old.shortages) (all_faults (D.faults self.new.disk.now) self.new.shortages) (IsErr result) }
    {
        match self.disk.read_at(self.name, at, buf) {
            Ok(Some(count)) => Ok(count),
            Ok(None) => Ok(0),
            Err(refusal) => Err(failure_of(refusal, &mut self.shortages)),
        }
    }
}

/// The failure that a reader returns where its disk refuses. A shortage of memory is counted.
fn failure_of(refusal: Refusal, shortages: &mut u64) -> Failed
    ensures failed { refusal ≡ Refusal.Failed → shortages.new ≡ shortages.old }
    ensures short { refusal ≡ Refusal.OutOfMemory → shortages.new ≡ one_more shortages.old }
{
    if matches!(refusal, Refusal::OutOfMemory) {
        *shortages = shortages.saturating_add(1);
    }
    Failed
}
