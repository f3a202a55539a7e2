//! Readers, with `StoreError`.

ghost use Rattle.std.specs.Prelude.{◌≡◌, ◌≤◌, ◌<◌, ◌+◌, ◌-◌, ◌^◌, ◌⊎◌, true, IfErr, IfOk, IsErrOf, OnOk, drop, length, take};
ghost use Rattle.xet_hash.specs.declared.error.Place.TheVariants.{Input};
ghost use Rattle.xet_hash.specs.declared.error.StoreError.TheVariants.{Io, UnexpectedEof};
ghost use Rattle.xet_io.specs.Frame.{ReadFrom};

use xet_hash::{Place, StoreError};
use xet_io::{ReadAt, read_exact_at};

/// The number of bytes of a reader. Does not allocate. The only error is `Io(Input)`.
pub fn reader_length<R: ReadAt>(reader: &mut R) -> Result<u64, StoreError>
    ensures told { R.tells reader.old ≡ true → IfOk result (λ len. len ≡ length (R.bytes reader.old)) }
    ensures fault { IfErr result (λ e. e ≡ Io Input) }
    ensures frame { ReadFrom R.bytes R.tells R.faults R.lent reader.old reader.new (IsErrOf result (Io Input)) }
{
    match reader.length() {
        Ok(len) => Ok(len),
        Err(_) => Err(StoreError::Io(Place::Input)),
    }
}

/// Fills `buf` with a reader's bytes from offset `at`. Does not allocate. If the bytes end before `buf` is
/// full, the call fails; only then the error can be `UnexpectedEof`. It is `Io(Input)` only if the reader
/// failed. After an error `buf` may have any content.
pub fn read_exact<R: ReadAt>(reader: &mut R, at: u64, buf: &mut [u8]) -> Result<(), StoreError>
    requires { at + length buf.old < 2 ^ 64 }
    ensures told { R.tells reader.old ≡ true → at + length buf.old ≤ length (R.bytes reader.old) → OnOk result (buf.new ≡ take (length buf.old) (drop at (R.bytes reader.old))) }
    ensures reached { R.tells reader.old ≡ true → OnOk result (length buf.old ≤ length (R.bytes reader.old) - at) }
    ensures fault { R.tells reader.old ≡ true → at + length buf.old ≤ length (R.bytes reader.old) → IfErr result (λ e. e ≡ Io Input) }
    ensures len { length buf.new ≡ length buf.old }
    ensures kinds { IfErr result (λ e. (e ≡ UnexpectedEof) ⊎ (e ≡ Io Input)) }
    ensures frame { ReadFrom R.bytes R.tells R.faults R.lent reader.old reader.new (IsErrOf result (Io Input)) }
{
    match read_exact_at(reader, at, buf) {
        Ok(true) => Ok(()),
        Ok(false) => Err(StoreError::UnexpectedEof),
        Err(_) => Err(StoreError::Io(Place::Input)),
    }
}
