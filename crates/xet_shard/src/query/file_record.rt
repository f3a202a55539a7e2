//! Reading of one file record behind a reader, from its own rows alone.

ghost use Rattle.std.specs.Prelude.{◌≡◌, ◌≤◌, ◌<◌, ◌+◌, ◌*◌, ◌^◌, IfErr, IfOk, IsErrOf, length, take, true};
ghost use Rattle.xet_shard.specs.Queries.{file_after, read_in_row};
ghost use Rattle.xet_codec.specs.Parsing.{GivesUnlessFault};
ghost use Rattle.xet_shard_format.specs.Reading.{IsShardError};
ghost use Rattle.xet_shard_format.specs.Records.{IsFile};
ghost use Rattle.xet_shard_format.specs.Rows.{rows_in};
ghost use Rattle.xet_io.specs.Frame.{ReadFrom};

use crate::reader::byte_ranges::{bytes_at, row_there, rows_from};
use std::alloc::Global;
use xet_hash::{Place, StoreError};
use xet_io::ReadAt;
use xet_shard_format::MDBFileInfo;
use xet_shard_format::record_decoding::{file, rows_after_file};
use xet_shard_format::row::Row;
use xet_shard_format::row_cursor::Rows;

/// The file whose header is in row `row` of the section of `count` rows at offset `at`. Only its own rows are
/// read.
pub fn file_in_row<R: ReadAt>(
    alloc: Global,
    reader: &mut R,
    at: u64,
    count: u64,
    row: u32,
) -> Result<MDBFileInfo, StoreError>
    ensures exact { R.tells reader.old ≡ true → GivesUnlessFault (λ x. x) result (read_in_row file_after at count row (R.bytes reader.old)) }
    ensures form { IfOk result IsFile }
    ensures errors { IfErr result IsShardError }
    ensures frame { ReadFrom R.bytes R.tells R.faults R.lent reader.old reader.new (IsErrOf result (StoreError.Io Place.Input)) }
{
    let row = u64::from(row);
    let left = rows_from(reader, at, count, row)?;
    file_from(alloc, reader, at + 48 * row, left)
}

/// The file whose header is the first of `count` rows at offset `at`. The contract says the result if the
/// reader has these rows.
fn file_from<R: ReadAt>(
    alloc: Global,
    reader: &mut R,
    at: u64,
    count: u64,
) -> Result<MDBFileInfo, StoreError>
    requires some { 0 < count }
    requires few { count < 2 ^ 32 }
    requires inside { at + 48 * count < 2 ^ 64 }
    ensures exact { R.tells reader.old ≡ true → at + 48 * count ≤ length (R.bytes reader.old) → GivesUnlessFault (λ x. x) result (read_in_row file_after at count 0 (R.bytes reader.old)) }
    ensures form { IfOk result IsFile }
    ensures errors { IfErr result IsShardError }
    ensures frame { ReadFrom R.bytes R.tells R.faults R.lent reader.old reader.new (IsErrOf result (StoreError.Io Place.Input)) }
{
    let head = row_there(reader, at)?;
    let rest = rows_after_file(&head).min(count - 1);
    let bytes = bytes_at(alloc, reader, at + 48, 48 * rest)?;
    file_of(alloc, &head, &bytes, rest as u32)
}

/// The file with this header, from the `count` rows after it.
fn file_of(alloc: Global, head: &Row, bytes: &[u8], count: u32) -> Result<MDBFileInfo, StoreError>
    requires { 48 * count ≤ length bytes.now }
    ensures gives { GivesUnlessFault (λ x. x) result (file_after head.now (rows_in count bytes.now)) }
    ensures form { IfOk result IsFile }
    ensures errors { IfErr result IsShardError }
    ensures fault { IsErrOf result (StoreError.Io Place.Input) → ⊥ }
{
    let mut rows = Rows::new(bytes, count);
    file(alloc, head, &mut rows)
}
