//! `BlockReader`: a source is read by blocks, in buffers that chunks may share.

ghost use Rattle.std.specs.Prelude.{◌≡◌, ◌⊎◌, ◌<◌, ◌≤◌, ℕ, IfErr, IfOk, IsOkUnless, drop, false, length, take, true, vec_len};
ghost use Rattle.xet_clean.specs.Sources.{Takes};
ghost use Rattle.xet_hash.specs.declared.error.Place.TheVariants as place;
ghost use Rattle.xet_hash.specs.declared.error.StoreError.TheVariants.{Io, OutOfMemory};
ghost use Rattle.xet_io.specs.Faults.{Rose};
ghost use Rattle.xet_io.specs.Frame.{Stays};

use bytes::Bytes;
use std::alloc::Global;
use std::mem;
use xet_cut::Limits;
use xet_hash::{Place, StoreError};
use xet_io::{Source, read_full};

/// Reads sources by blocks of the length that the limits give. Each block is a buffer of its own.
#[derive(Drop)]
pub(crate) struct BlockReader {
    alloc: Global,
    /// The number of bytes of a full block.
    len: usize,
    /// A buffer of so many bytes for the next block, or an empty one.
    spare: Vec<u8>,
    ghost some: { 0 < len },
}

impl BlockReader {
    /// A reader with these limits. It allocates nothing.
    pub(crate) fn new(alloc: Global, limits: &Limits) -> BlockReader {
        limits.recall_invariant();
        BlockReader {
            alloc,
            len: limits.block_bytes() as usize,
            spare: Vec::new(alloc),
        }
    }

    /// Reads until a block is full or the source ends, and returns the block, and whether the source has ended. Errors name the
    /// source by `number`.
    pub(crate) fn read<R: Source>(
        &mut self,
        source: &mut R,
        number: u32,
    ) -> Result<(Bytes, bool), StoreError>
        ensures block { IfOk result (λ r. Takes r.1 (R.tells source.old) (R.left source.old) (R.left source.new) r.0) }
        ensures some { IfOk result (λ r. r.1 ≡ false → 0 < length r.0) }
        ensures lost { IfErr result (λ _. R.tells source.old ≡ true → (n : ℕ) × (R.left source.new ≡ drop n (R.left source.old))) }
        ensures frame { Stays R.tells R.faults source.old source.new }
        ensures reason { IfErr result (λ e. ((e ≡ Io (place.Source number)) × Rose (R.faults source.old) (R.faults source.new)) ⊎ (e ≡ OutOfMemory)) }
    {
        let mut buffer = self.buffer()?;
        match read_full(source, &mut buffer) {
            Ok(count) => {
                let is_last = count < self.len;
                Ok((self.block(buffer, count)?, is_last))
            }
            Err(_) => Err(StoreError::Io(Place::Source(number))),
        }
    }

    /// A buffer for a full block.
    fn buffer(&mut self) -> Result<Vec<u8>, StoreError>
        ensures buffer { IfOk result (λ buffer. vec_len buffer ≡ self.old.len) }
        ensures same { self.new.len ≡ self.old.len }
        ensures memory { IsOkUnless result StoreError.OutOfMemory }
    {
        let mut buffer = mem::replace(&mut self.spare, Vec::new(self.alloc));
        buffer.resize(self.len, 0)?;
        Ok(buffer)
    }

    /// The first `count` bytes of a buffer, as a block. If they are not all of it they are copied, and the buffer is kept for the
    /// next block.
    fn block(&mut self, buffer: Vec<u8>, count: usize) -> Result<Bytes, StoreError>
        requires { count ≤ vec_len buffer }
        ensures block { IfOk result (λ block. block ≡ take count buffer.items) }
        ensures same { self.new.len ≡ self.old.len }
        ensures memory { IsOkUnless result StoreError.OutOfMemory }
    {
        if count == buffer.len() {
            return Ok(Bytes::from_vec(buffer)?);
        }
        let block = Bytes::copy_from_slice(self.alloc, &buffer[..count]);
        self.spare = buffer;
        Ok(block?)
    }
}
