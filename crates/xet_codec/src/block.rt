//! `Block`: bytes of a reader that are read at once, and then taken field by field.

ghost use Rattle.std.specs.Prelude.{◌≡◌, ◌≤◌, ◌<◌, ◌+◌, ◌^◌, ◌⊎◌, ◌↔◌, List, ℕ, true, IfErr, IsErrOf, IsTrue, OnOk, drop, length, take};
ghost use Rattle.xet_hash.specs.declared.error.Place.TheVariants.{Input};
ghost use Rattle.xet_hash.specs.declared.error.StoreError.TheVariants.{Io, OutOfMemory, UnexpectedEof};
ghost use Rattle.xet_codec.specs.Blocks.{EndsBefore, HasBytes, IsPart, Sees};
ghost use Rattle.xet_io.specs.Frame.{ReadFrom};

use crate::read_exact;
use std::alloc::Global;
use xet_hash::StoreError;
use xet_io::ReadAt;

/// The minimum number of bytes that are read at once, if the reader has as many: 64 KiB.
const MIN: usize = 65536;

/// Consecutive bytes of a reader, with their offset: 64 KiB, or more if one load needed more.
#[derive(Drop)]
pub struct Block {
    bytes: Vec<u8>,
    /// The offset of the bytes in the reader.
    from: u64,
}

impl Block {
    /// An empty block. Does not allocate.
    pub fn new(alloc: Global) -> Block
        ensures { (bytes : List ℕ) → IsPart result bytes }
    {
        Block {
            bytes: Vec::new(alloc),
            from: 0,
        }
    }

    /// Makes sure that the block has the `count` bytes from offset `at`. If it lacks some, the bytes that it
    /// has from `at` on are moved to its start, and the bytes after them are read: as many as the block has
    /// room for, or all before offset `end`. The room is 64 KiB at first, and grows to the largest `count`.
    /// So no byte is read twice if the offsets only increase.
    /// The error is `UnexpectedEof` if fewer than `count` bytes are between `at` and `end`. If the reader
    /// fails, the block is empty afterwards.
    pub fn load<R: ReadAt>(
        &mut self,
        reader: &mut R,
        at: u64,
        end: u64,
        count: usize,
    ) -> Result<(), StoreError>
        requires { at ≤ end }
        ensures there { OnOk result (HasBytes self.new at count) }
        ensures part { (bytes : List ℕ) → Sees (R.tells reader.old) (R.bytes reader.old) bytes end self.old → IsPart self.new bytes }
        ensures within { OnOk result (at + count ≤ end) }
        ensures refused { (bytes : List ℕ) → Sees (R.tells reader.old) (R.bytes reader.old) bytes end self.old → IfErr result (EndsBefore bytes at count) }
        ensures kinds { IfErr result (λ e. (e ≡ UnexpectedEof) ⊎ (e ≡ Io Input) ⊎ (e ≡ OutOfMemory)) }
        ensures frame { ReadFrom R.bytes R.tells R.faults R.lent reader.old reader.new (IsErrOf result (Io Input)) }
    {
        if end - at < count as u64 {
            return Err(StoreError::UnexpectedEof);
        }
        if self.has(at, count) {
            return Ok(());
        }
        let room = MIN.max(count).max(self.bytes.len());
        let size = (end - at).min(room as u64) as usize;
        self.read(reader, at, size)
    }

    /// Whether the block has the `count` bytes from offset `at`.
    fn has(&self, at: u64, count: usize) -> bool
        ensures { IsTrue result ↔ HasBytes self.now at count }
    {
        if at < self.from {
            return false;
        }
        let len = self.bytes.len() as u64;
        at - self.from <= len && count as u64 <= len - (at - self.from)
    }

    /// Makes the block the `size` bytes from offset `at`. Only the bytes that it lacks are read. After an
    /// error it is empty.
    fn read<R: ReadAt>(&mut self, reader: &mut R, at: u64, size: usize) -> Result<(), StoreError>
        requires { at + size < 2 ^ 64 }
        ensures from { OnOk result (self.new.from ≡ at) }
        ensures len { OnOk result (length self.new.bytes.items ≡ size) }
        ensures part { R.tells reader.old ≡ true → at + size ≤ length (R.bytes reader.old) → IsPart self.old (R.bytes reader.old) → IsPart self.new (R.bytes reader.old) }
        ensures refused { R.tells reader.old ≡ true → at + size ≤ length (R.bytes reader.old) → IfErr result (λ e. (e ≡ Io Input) ⊎ (e ≡ OutOfMemory)) }
        ensures kinds { IfErr result (λ e. (e ≡ UnexpectedEof) ⊎ (e ≡ Io Input) ⊎ (e ≡ OutOfMemory)) }
        ensures frame { ReadFrom R.bytes R.tells R.faults R.lent reader.old reader.new (IsErrOf result (Io Input)) }
    {
        match self.refill(reader, at, size) {
            Ok(()) => Ok(()),
            Err(error) => {
                self.bytes.clear();
                Err(error)
            }
        }
    }

    /// The same, but after an error the block may have any bytes.
    fn refill<R: ReadAt>(&mut self, reader: &mut R, at: u64, size: usize) -> Result<(), StoreError>
        requires { at + size < 2 ^ 64 }
        ensures from { OnOk result (self.new.from ≡ at) }
        ensures len { OnOk result (length self.new.bytes.items ≡ size) }
        ensures part { R.tells reader.old ≡ true → at + size ≤ length (R.bytes reader.old) → IsPart self.old (R.bytes reader.old) → OnOk result (IsPart self.new (R.bytes reader.old)) }
        ensures refused { R.tells reader.old ≡ true → at + size ≤ length (R.bytes reader.old) → IfErr result (λ e. (e ≡ Io Input) ⊎ (e ≡ OutOfMemory)) }
        ensures kinds { IfErr result (λ e. (e ≡ UnexpectedEof) ⊎ (e ≡ Io Input) ⊎ (e ≡ OutOfMemory)) }
        ensures frame { ReadFrom R.bytes R.tells R.faults R.lent reader.old reader.new (IsErrOf result (Io Input)) }
    {
        let kept = self.keep(at).min(size);
        self.from = at;
        self.bytes.resize(size, 0)?;
        read_exact(reader, at + kept as u64, &mut self.bytes[kept..])?;
        Ok(())
    }

    /// Moves the bytes that the block has from offset `at` on to its start, and returns how many these are.
    fn keep(&mut self, at: u64) -> usize
        ensures kept { (bytes : List ℕ) → IsPart self.old bytes → take result self.new.bytes.items ≡ take result (drop at bytes) }
        ensures few { result ≤ length self.new.bytes.items }
    {
        let len = self.bytes.len();
        if at < self.from || at - self.from >= len as u64 {
            return 0;
        }
        let start = (at - self.from) as usize;
        self.bytes.copy_within(start.., 0);
        len - start
    }

    /// The `count` bytes from offset `at`, which the block must have.
    pub fn part(&self, at: u64, count: usize) -> &[u8]
        requires { HasBytes self.now at count }
        ensures value { (bytes : List ℕ) → IsPart self.now bytes → result.now ≡ take count (drop at bytes) }
        ensures len { length result.now ≡ count }
    {
        let start = (at - self.from) as usize;
        &self.bytes[start..start + count]
    }
}
