//! Byte ranges and rows of a reader.

ghost use Rattle.std.specs.Prelude.{◌≡◌, ◌≤◌, ◌<◌, ◌+◌, ◌-◌, ◌*◌, ◌^◌, true, drop, take, length, IfErr, IfNone, IfOk, IfSome, IsErrOf, IsNone, OnOk};
ghost use Rattle.xet_shard.specs.internal.ReaderBytes.{piece_at, rows_at};
ghost use Rattle.xet_shard.specs.Queries.{rows_from};
ghost use Rattle.xet_codec.specs.Parsing.{GivesUnlessFault, IsInputError};
ghost use Rattle.xet_shard_format.specs.Reading.{IsShardError};
ghost use Rattle.xet_shard_format.specs.Rows.{row_of};
ghost use Rattle.xet_io.specs.Frame.{ReadFrom};

use std::alloc::Global;
use xet_codec::{read_exact, reader_length};
use xet_hash::{Place, Reason, StoreError};
use xet_io::ReadAt;
use xet_shard_format::row::{Row, row_of};

/// Fills `buf` with the bytes at offset `at`. The contract says the result if the reader has these bytes.
pub fn fill<R: ReadAt>(reader: &mut R, at: u64, buf: &mut [u8]) -> Result<(), StoreError>
    requires { at + length buf.old < 2 ^ 64 }
    ensures told { R.tells reader.old ≡ true → at + length buf.old ≤ length (R.bytes reader.old) → OnOk result (buf.new ≡ take (length buf.old) (drop at (R.bytes reader.old))) }
    ensures fault { R.tells reader.old ≡ true → at + length buf.old ≤ length (R.bytes reader.old) → IfErr result (λ e. e ≡ StoreError.Io Place.Input) }
    ensures len { length buf.new ≡ length buf.old }
    ensures errors { IfErr result IsShardError }
    ensures input { IfErr result IsInputError }
    ensures frame { ReadFrom R.bytes R.tells R.faults R.lent reader.old reader.new (IsErrOf result (StoreError.Io Place.Input)) }
{
    match read_exact(reader, at, buf) {
        Ok(()) => Ok(()),
        Err(error) => Err(error),
    }
}

/// The bytes of `count` items of `size` bytes each, at offset `at`. `UnexpectedEof` if the reader ends before
/// them.
pub fn piece<R: ReadAt>(
    alloc: Global,
    reader: &mut R,
    at: u64,
    size: u64,
    count: u64,
) -> Result<Vec<u8>, StoreError>
    ensures told { R.tells reader.old ≡ true → GivesUnlessFault (λ v. v.items) result (piece_at at (size * count) (R.bytes reader.old)) }
    ensures long { IfOk result (λ v. length v.items ≡ size * count) }
    ensures errors { IfErr result IsShardError }
    ensures frame { ReadFrom R.bytes R.tells R.faults R.lent reader.old reader.new (IsErrOf result (StoreError.Io Place.Input)) }
{
    let end = reader_length(reader)?;
    match within(at, size, count, end) {
        Some(len) => bytes_at(alloc, reader, at, len),
        None => Err(StoreError::UnexpectedEof),
    }
}

/// The length in bytes of `count` items of `size` bytes each, at offset `at`; none if they pass `end`.
pub fn within(at: u64, size: u64, count: u64, end: u64) -> Option<u64>
    ensures some { IfSome result (λ len. (len ≡ size * count) × (at + size * count ≤ end)) }
    ensures none { IsNone result → end < at + size * count }
{
    let len = size.checked_mul(count)?;
    let to = at.checked_add(len)?;
    if to > end {
        return None;
    }
    Some(len)
}

/// The `len` bytes at offset `at`. The contract says the result if the reader has these bytes.
pub fn bytes_at<R: ReadAt>(
    alloc: Global,
    reader: &mut R,
    at: u64,
    len: u64,
) -> Result<Vec<u8>, StoreError>
    requires { at + len < 2 ^ 64 }
    ensures told { R.tells reader.old ≡ true → at + len ≤ length (R.bytes reader.old) → GivesUnlessFault (λ v. v.items) result (piece_at at len (R.bytes reader.old)) }
    ensures long { IfOk result (λ v. length v.items ≡ len) }
    ensures errors { IfErr result IsShardError }
    ensures frame { ReadFrom R.bytes R.tells R.faults R.lent reader.old reader.new (IsErrOf result (StoreError.Io Place.Input)) }
{
    let mut bytes = vec![in alloc; 0; len as usize]?;
    fill(reader, at, &mut bytes)?;
    Ok(bytes)
}

/// The bytes of the section of `count` rows at offset `at`. `MalformedData(SectionPlace)` if these are 2^32
/// rows or more, `UnexpectedEof` if the reader ends before them.
pub fn rows_at<R: ReadAt>(
    alloc: Global,
    reader: &mut R,
    at: u64,
    count: u64,
) -> Result<Vec<u8>, StoreError>
    ensures told { R.tells reader.old ≡ true → GivesUnlessFault (λ v. v.items) result (rows_at at count (R.bytes reader.old)) }
    ensures few { IfOk result (λ v. count < 2 ^ 32) }
    ensures long { IfOk result (λ v. length v.items ≡ 48 * count) }
    ensures errors { IfErr result IsShardError }
    ensures frame { ReadFrom R.bytes R.tells R.faults R.lent reader.old reader.new (IsErrOf result (StoreError.Io Place.Input)) }
{
    if count >= 1 << 32 {
        return Err(StoreError::MalformedData(Reason::SectionPlace));
    }
    piece(alloc, reader, at, 48, count)
}

/// The number of rows from row `row` on, in the section of `count` rows at offset `at`.
/// `MalformedData(SectionPlace)` if the section has 2^32 rows or more, or has no such row; `UnexpectedEof` if
/// the reader ends before it.
pub fn rows_from<R: ReadAt>(
    reader: &mut R,
    at: u64,
    count: u64,
    row: u64,
) -> Result<u64, StoreError>
    ensures exact { R.tells reader.old ≡ true → GivesUnlessFault (λ n. n) result (rows_from at count row (R.bytes reader.old)) }
    ensures left { IfOk result (λ n. n ≡ count - row) }
    ensures some { OnOk result (row < count) }
    ensures few { OnOk result (count < 2 ^ 32) }
    ensures inside { OnOk result (at + 48 * count < 2 ^ 64) }
    ensures reached { R.tells reader.old ≡ true → OnOk result (at + 48 * count ≤ length (R.bytes reader.old)) }
    ensures errors { IfErr result IsShardError }
    ensures frame { ReadFrom R.bytes R.tells R.faults R.lent reader.old reader.new (IsErrOf result (StoreError.Io Place.Input)) }
{
    if count >= 1 << 32 || row >= count {
        return Err(StoreError::MalformedData(Reason::SectionPlace));
    }
    let end = reader_length(reader)?;
    match within(at, 48, count, end) {
        Some(_) => Ok(count - row),
        None => Err(StoreError::UnexpectedEof),
    }
}

/// The row at offset `at`. The contract says the result if the reader has it.
pub fn row_there<R: ReadAt>(reader: &mut R, at: u64) -> Result<Row, StoreError>
    requires { at + 48 < 2 ^ 64 }
    ensures told { R.tells reader.old ≡ true → at + 48 ≤ length (R.bytes reader.old) → IfOk result (λ r. r ≡ row_of (drop at (R.bytes reader.old))) }
    ensures fault { R.tells reader.old ≡ true → at + 48 ≤ length (R.bytes reader.old) → IfErr result (λ e. e ≡ StoreError.Io Place.Input) }
    ensures errors { IfErr result IsShardError }
    ensures frame { ReadFrom R.bytes R.tells R.faults R.lent reader.old reader.new (IsErrOf result (StoreError.Io Place.Input)) }
{
    let mut bytes = [0; 48];
    fill(reader, at, &mut bytes)?;
    Ok(row_of(&bytes))
}
