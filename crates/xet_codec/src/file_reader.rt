//! A file of a disk as a reader.

ghost use Rattle.std.specs.Prelude.{◌≡◌, ◌<◌, ◌≤◌, ◌↔◌, IsTrue, IsErr, IfOk, OnOk, OnErr, length, true};
ghost use Rattle.xet_codec.specs.FileReader.{CountsOne, all_faults, bytes_of, lent_disk};
ghost use Rattle.xet_io.specs.Faults.{HasCause, one_more};
ghost use Rattle.xet_io.specs.Lent.{IsSameLent};
ghost use Rattle.xet_io.specs.Streams.{ReadsPart};

use xet_io::{Disk, Failed, ReadAt, Refusal};

/// A reader over one file of a disk that is lent to it. A name that is absent has no bytes. It counts the disk's
/// failures, and beside them how often the disk was out of memory, which it returns as a failure.
#[derive(Drop)]
pub struct FileReader<'a, D: Disk> {
    disk: &'a mut D,
    name: &'a str,
    shortages: u64,
}

impl<'a, D: Disk> FileReader<'a, D> {
    /// A reader over the file of this name.
    pub fn new(disk: &'a mut D, name: &'a str) -> FileReader<'a, D>
        ensures same_disk { result.disk.ghost_name ≡ disk.entry.ghost_name }
        ensures now { result.disk.now ≡ disk.old }
        ensures name { result.name.now ≡ name.now }
        ensures shortages { result.shortages ≡ 0 }
    {
        FileReader {
            disk,
            name,
            shortages: 0,
        }
    }

    /// Whether the disk was out of memory in a call of this reader.
    pub fn was_out_of_memory(&self) -> bool
        ensures { IsTrue result ↔ 0 < self.now.shortages }
    {
        self.shortages > 0
    }
}

impl<'a, D: Disk> ReadAt for FileReader<'a, D> {
    ghost tells = { λ r. D.tells r.disk.now };

    ghost bytes = { λ r. bytes_of (D.files r.disk.now) r.name.now };

    ghost faults = { λ r. all_faults (D.faults r.disk.now) r.shortages };

    ghost lent = { λ r. lent_disk r.disk.ghost_name (D.files r.disk.now) (D.tells r.disk.now) (D.faults r.disk.now) };

    fn length(&mut self) -> Result<u64, Failed>
        ensures told { D.tells self.old.disk.now ≡ true → IfOk result (λ count. count ≡ length (bytes_of (D.files self.old.disk.now) self.old.name.now)) }
        ensures same { bytes_of (D.files self.new.disk.now) self.new.name.now ≡ bytes_of (D.files self.old.disk.now) self.old.name.now }
        ensures tells { D.tells self.new.disk.now ≡ D.tells self.old.disk.now }
        ensures lent { IsSameLent (lent_disk self.old.disk.ghost_name (D.files self.old.disk.now) (D.tells self.old.disk.now) (D.faults self.old.disk.now)) (lent_disk self.new.disk.ghost_name (D.files self.new.disk.now) (D.tells self.new.disk.now) (D.faults self.new.disk.now)) }
        ensures cause { HasCause (all_faults (D.faults self.old.disk.now) self.old.shortages) (all_faults (D.faults self.new.disk.now) self.new.shortages) (IsErr result) }
        ensures counted { OnOk result (self.new.shortages ≡ self.old.shortages) }
        ensures failed { OnErr result (CountsOne (D.faults self.old.disk.now) self.old.shortages (D.faults self.new.disk.now) self.new.shortages) }
    {
        match self.disk.stat(self.name) {
            Ok(Some((length, _))) => Ok(length),
            Ok(None) => Ok(0),
            Err(refusal) => Err(failure_of(refusal, &mut self.shortages)),
        }
    }

    fn read_at(&mut self, at: u64, buf: &mut [u8]) -> Result<usize, Failed>
        ensures bound { IfOk result (λ count. count ≤ length buf.new) }
        ensures told { D.tells self.old.disk.now ≡ true → IfOk result (ReadsPart (bytes_of (D.files self.old.disk.now) self.old.name.now) at buf.new) }
        ensures same { bytes_of (D.files self.new.disk.now) self.new.name.now ≡ bytes_of (D.files self.old.disk.now) self.old.name.now }
        ensures tells { D.tells self.new.disk.now ≡ D.tells self.old.disk.now }
        ensures lent { IsSameLent (lent_disk self.old.disk.ghost_name (D.files self.old.disk.now) (D.tells self.old.disk.now) (D.faults self.old.disk.now)) (lent_disk self.new.disk.ghost_name (D.files self.new.disk.now) (D.tells self.new.disk.now) (D.faults self.new.disk.now)) }
        ensures cause { HasCause (all_faults (D.faults self.old.disk.now) self.old.shortages) (all_faults (D.faults self.new.disk.now) self.new.shortages) (IsErr result) }
        ensures counted { OnOk result (self.new.shortages ≡ self.old.shortages) }
        ensures failed { OnErr result (CountsOne (D.faults self.old.disk.now) self.old.shortages (D.faults self.new.disk.now) self.new.shortages) }
    {
        match self.disk.read_at(self.name, at, buf) {
            Ok(Some(count)) => Ok(count),
            Ok(None) => Ok(0),
            Err(refusal) => Err(failure_of(refusal, &mut self.shortages)),
        }
    }
}

/// The failure that a reader returns where its disk refuses. A shortage of memory is counted.
fn failure_of(refusal: Refusal, shortages: &mut u64) -> Failed
    ensures failed { refusal ≡ Refusal.Failed → shortages.new ≡ shortages.old }
    ensures short { refusal ≡ Refusal.OutOfMemory → shortages.new ≡ one_more shortages.old }
{
    if matches!(refusal, Refusal::OutOfMemory) {
        *shortages = shortages.saturating_add(1);
    }
    Failed
}
