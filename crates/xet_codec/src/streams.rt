//! Sources and sinks, with `StoreError`.

ghost use Rattle.std.specs.Prelude.{◌≡◌, ◌<◌, ◌≤◌, ◌^◌, ◌⊎◌, ℕ, [], true, ◌++◌, IfErr, IfOk, IsErrOf, IsOkUnless, OnOk, length, take, vec_len};
ghost use Rattle.xet_hash.specs.declared.error.StoreError.TheVariants.{Io};
ghost use Rattle.xet_hash.specs.declared.error.Place.TheVariants.{Input, Output};
ghost use Rattle.xet_io.specs.Streams.{Reads};
ghost use Rattle.xet_io.specs.Whole.{Fills};
ghost use Rattle.xet_codec.specs.Stops.{PassesLimit, StopsWriting};
ghost use Rattle.xet_io.specs.Frame.{Called};

use std::alloc::Global;
use xet_hash::{Place, StoreError, What};
use xet_io::{Refusal, Sink, Source, read_full, write_all};

/// The maximum length of a source that is read to its end, in bytes.
pub const MAX: usize = 1 << 63;

/// The maximum number of bytes of one read from such a source.
const BLOCK: usize = 1 << 17;

/// A buffer for one block of bytes. The only error is out of memory.
pub fn new_block(alloc: Global) -> Result<Vec<u8>, StoreError>
    ensures some { IfOk result (λ block. 0 < vec_len block) }
    ensures memory { IsOkUnless result StoreError.OutOfMemory }
{
    let mut block = Vec::new(alloc);
    block.resize(BLOCK, 0)?;
    Ok(block)
}

/// Writes all bytes of a slice. After an error a prefix of it was written.
pub fn write_piece<W: Sink>(sink: &mut W, piece: &[u8]) -> Result<(), StoreError>
    ensures whole { W.tells sink.old ≡ true → OnOk result (W.written sink.new ≡ W.written sink.old ++ piece.now) }
    ensures prefix { W.tells sink.old ≡ true → (n : ℕ) × (W.written sink.new ≡ W.written sink.old ++ take n piece.now) }
    ensures errors { IfErr result StopsWriting }
    ensures frame { Called W.tells W.faults sink.old sink.new (IsErrOf result (Io Output)) }
{
    match write_all(sink, piece) {
        Ok(()) => Ok(()),
        Err(Refusal::Failed) => Err(StoreError::Io(Place::Output)),
        Err(Refusal::OutOfMemory) => Err(StoreError::OutOfMemory),
    }
}

/// Reads the next bytes into the start of `buf`, and returns how many. The only error is `Io(Input)`.
pub fn read_some<R: Source>(source: &mut R, buf: &mut [u8]) -> Result<usize, StoreError>
    ensures told { R.tells source.old ≡ true → Reads (R.left source.old) buf.new result (R.left source.new) }
    ensures bound { IfOk result (λ count. count ≤ length buf.new) }
    ensures errors { IfErr result (λ e. e ≡ Io Input) }
    ensures frame { Called R.tells R.faults source.old source.new (IsErrOf result (Io Input)) }
{
    match source.read(buf) {
        Ok(count) => Ok(count),
        Err(_) => Err(StoreError::Io(Place::Input)),
    }
}

/// Reads until `buf` is full or the source ends, and returns how many bytes it took. The only error is
/// `Io(Input)`.
pub fn read_prefix<R: Source>(source: &mut R, buf: &mut [u8]) -> Result<usize, StoreError>
    ensures told { R.tells source.old ≡ true → Fills (R.left source.old) buf.new result (R.left source.new) }
    ensures bound { IfOk result (λ count. count ≤ length buf.new) }
    ensures errors { IfErr result (λ e. e ≡ Io Input) }
    ensures frame { Called R.tells R.faults source.old source.new (IsErrOf result (Io Input)) }
{
    match read_full(source, buf) {
        Ok(count) => Ok(count),
        Err(_) => Err(StoreError::Io(Place::Input)),
    }
}

/// Writes all that is left in a source, block by block, and returns how many bytes these are. After an error
/// a prefix of them was written. The error is `TooLarge(Input)` if the source has more than 2^63 bytes.
pub fn copy_all<R: Source, W: Sink>(
    r: &mut R,
    w: &mut W,
    block: &mut [u8],
) -> Result<u64, StoreError>
    requires block { 0 < length block.old }
    requires bound { R.tells r.old ≡ true → length (R.left r.old) < 2 ^ 63 }
    ensures count { R.tells r.old ≡ true → IfOk result (λ count. count ≡ length (R.left r.old)) }
    ensures end { R.tells r.old ≡ true → OnOk result (R.left r.new ≡ []) }
    ensures whole { R.tells r.old ≡ true → W.tells w.old ≡ true → OnOk result (W.written w.new ≡ W.written w.old ++ R.left r.old) }
    ensures prefix { R.tells r.old ≡ true → W.tells w.old ≡ true → (n : ℕ) × (W.written w.new ≡ W.written w.old ++ take n (R.left r.old)) }
    ensures errors { R.tells r.old ≡ true → IfErr result (λ e. (e ≡ Io Input) ⊎ StopsWriting e) }
    ensures kinds { IfErr result (λ e. (e ≡ Io Input) ⊎ (StopsWriting e ⊎ PassesLimit e)) }
    ensures source { Called R.tells R.faults r.old r.new (IsErrOf result (Io Input)) }
    ensures sink { Called W.tells W.faults w.old w.new (IsErrOf result (Io Output)) }
{
    let mut total = 0;
    'reads: loop {
        let count = read_some(r, block)?;
        if count == 0 {
            return Ok(total as u64);
        }
        if count > MAX - total {
            return Err(StoreError::TooLarge(What::Input));
        }
        write_piece(w, &block[..count])?;
        total += count;
    }
}
