//! The run of a query in a xorb behind a reader, from the rows that it needs.

ghost use Rattle.std.specs.Prelude.{◌≡◌, ◌≤◌, ◌<◌, ◌+◌, ◌-◌, ◌*◌, ◌^◌, true, drop, length, map, IfErr, IfOk, IfSome, IsErrOf};
ghost use Rattle.xet_shard.specs.Queries.{kept_hash, read_in_row, run_in};
ghost use Rattle.xet_codec.specs.Parsing.{GivesUnlessFault};
ghost use Rattle.xet_shard_format.specs.Reading.{IsShardError};
ghost use Rattle.xet_shard_format.specs.Rows.{row_of, rows_in};
ghost use Rattle.xet_shard.specs.RunForms.{IsRunFor};
ghost use Rattle.xet_shard.specs.Runs.{agreed, end_of_chunk, run_after, run_of};
ghost use Rattle.xet_io.specs.Frame.{ReadFrom};

use crate::query::run::kept_hash;
use crate::reader::byte_ranges::{bytes_at, row_there, rows_from};
use crate::reader::sections::row_count;
use std::alloc::Global;
use xet_hash::{HMACKey, MerkleHash, Place, Reason, StoreError};
use xet_io::ReadAt;
use xet_shard_format::record_decoding::chunk_in;
use xet_shard_format::row::{Row, row_of};
use xet_shard_format::{FileDataSequenceEntry, MDBShardFileFooter};

/// The maximum number of rows in one read: 4,080 bytes.
const AT_ONCE: u32 = 85;

/// The run of a query at index `place` of the xorb whose header is in row `row`. The result depends on the
/// header, and on the chunk rows from `place` on up to the first whose hash differs. Rows are read in blocks,
/// so rows after that one may be read too.
pub fn run_in<R: ReadAt>(
    alloc: Global,
    reader: &mut R,
    f: &MDBShardFileFooter,
    query: &[MerkleHash],
    row: u32,
    place: u32,
) -> Result<Option<(usize, FileDataSequenceEntry)>, StoreError>
    ensures exact { R.tells reader.old ≡ true → GivesUnlessFault (λ x. x) result (run_in f.now query.now row place (R.bytes reader.old)) }
    ensures shape { IfOk result (λ run. IfSome run (IsRunFor query.now)) }
    ensures errors { IfErr result IsShardError }
    ensures frame { ReadFrom R.bytes R.tells R.faults R.lent reader.old reader.new (IsErrOf result (StoreError.Io Place.Input)) }
{
    let at = f.xorb_info_offset;
    let count = row_count(at, f.file_lookup_offset)?;
    let row = u64::from(row);
    let left = rows_from(reader, at, count, row)?;
    let key = &f.chunk_hash_hmac_key;
    run_from(alloc, reader, key, query, at + 48 * row, left, place)
}

/// `run_in` for the xorb whose header is the first of `count` rows at offset `at`. The contract says the
/// result if the reader has these rows.
fn run_from<R: ReadAt>(
    alloc: Global,
    reader: &mut R,
    key: &HMACKey,
    query: &[MerkleHash],
    at: u64,
    count: u64,
    place: u32,
) -> Result<Option<(usize, FileDataSequenceEntry)>, StoreError>
    requires some { 0 < count }
    requires few { count < 2 ^ 32 }
    requires inside { at + 48 * count < 2 ^ 64 }
    ensures exact { R.tells reader.old ≡ true → at + 48 * count ≤ length (R.bytes reader.old) → GivesUnlessFault (λ x. x) result (read_in_row (run_after (map (kept_hash key.now) query.now) place) at count 0 (R.bytes reader.old)) }
    ensures shape { IfOk result (λ run. IfSome run (IsRunFor query.now)) }
    ensures errors { IfErr result IsShardError }
    ensures frame { ReadFrom R.bytes R.tells R.faults R.lent reader.old reader.new (IsErrOf result (StoreError.Io Place.Input)) }
{
    let head = row_there(reader, at)?;
    if u64::from(head.b) > count - 1 {
        return Err(StoreError::MalformedData(Reason::SectionPlace));
    }
    if head.a != 0 || head.d != 0 {
        return Err(StoreError::MalformedData(Reason::SectionEntry));
    }
    if head.b <= place {
        return Ok(None);
    }
    let first = at + 48 + 48 * u64::from(place);
    run_of(alloc, reader, key, query, &head, first, place)
}

/// `run_in` for the xorb with this header, whose row of chunk `place` is at offset `at`.
fn run_of<R: ReadAt>(
    alloc: Global,
    reader: &mut R,
    key: &HMACKey,
    query: &[MerkleHash],
    head: &Row,
    at: u64,
    place: u32,
) -> Result<Option<(usize, FileDataSequenceEntry)>, StoreError>
    requires some { place < head.now.b }
    requires inside { at + 48 * (head.now.b - place) < 2 ^ 64 }
    ensures exact { R.tells reader.old ≡ true → at + 48 * (head.now.b - place) ≤ length (R.bytes reader.old) → GivesUnlessFault (λ x. x) result (run_of (map (kept_hash key.now) query.now) place head.now (rows_in (head.now.b - place) (drop at (R.bytes reader.old)))) }
    ensures shape { IfOk result (λ run. IfSome run (IsRunFor query.now)) }
    ensures errors { IfErr result IsShardError }
    ensures frame { ReadFrom R.bytes R.tells R.faults R.lent reader.old reader.new (IsErrOf result (StoreError.Io Place.Input)) }
{
    let Some((first, rest)) = query.split_first() else {
        return Ok(None);
    };
    let row = row_there(reader, at)?;
    if kept_hash(key, first) != row.hash {
        return Ok(None);
    }
    let to = chunk_end(&row, row.a, head.c)?;
    let left = head.b - place - 1;
    let (more, end) = agreed(alloc, reader, key, rest, at + 48, left, head.c, to)?;
    let count = more + 1;
    let segment = FileDataSequenceEntry::new(head.hash, end - row.a, place, place + count);
    Ok(Some((count as usize, segment)))
}

/// How many first hashes of the query are those of the chunks in the `count` rows at offset `at`, and the
/// uncompressed offset at which the last of these chunks ends. The first chunk starts at `from`; `end` is the
/// end of the xorb. Blocks of rows are read until a hash differs.
fn agreed<R: ReadAt>(
    alloc: Global,
    reader: &mut R,
    key: &HMACKey,
    query: &[MerkleHash],
    at: u64,
    count: u32,
    end: u32,
    from: u32,
) -> Result<(u32, u32), StoreError>
    requires inside { at + 48 * count < 2 ^ 64 }
    ensures exact { R.tells reader.old ≡ true → at + 48 * count ≤ length (R.bytes reader.old) → GivesUnlessFault (λ x. x) result (agreed (map (kept_hash key.now) query.now) end from (rows_in count (drop at (R.bytes reader.old)))) }
    ensures within { IfOk result (λ n. n.0 ≤ count) }
    ensures behind { IfOk result (λ n. from ≤ n.1) }
    ensures hashes { IfOk result (λ n. n.0 ≤ length query.now) }
    ensures errors { IfErr result IsShardError }
    ensures frame { ReadFrom R.bytes R.tells R.faults R.lent reader.old reader.new (IsErrOf result (StoreError.Io Place.Input)) }
{
    let mut done: u32 = 0;
    let mut to = from;
    while done < count && (done as usize) < query.len() {
        let rest = &query[done as usize..];
        let some = at_once(count - done, rest.len());
        let place = at + 48 * u64::from(done);
        let bytes = bytes_at(alloc, reader, place, 48 * u64::from(some))?;
        let (found, next) = agreed_rows(key, rest, &bytes, some, end, to)?;
        done += found;
        to = next;
        if found < some {
            return Ok((done, to));
        }
    }
    Ok((done, to))
}

/// How many rows are read next.
fn at_once(rows: u32, hashes: usize) -> u32
    requires rows { 0 < rows }
    requires hashes { 0 < hashes }
    ensures some { 0 < result }
    ensures rows { result ≤ rows }
    ensures hashes { result ≤ hashes }
    ensures few { result ≤ 85 }
{
    let most = rows.min(AT_ONCE);
    if hashes < most as usize {
        hashes as u32
    } else {
        most
    }
}

/// `agreed` for the first rows of `bytes`.
fn agreed_rows(
    key: &HMACKey,
    query: &[MerkleHash],
    bytes: &[u8],
    count: u32,
    end: u32,
    from: u32,
) -> Result<(u32, u32), StoreError>
    requires { 48 * count ≤ length bytes.now }
    ensures exact { result ≡ agreed (map (kept_hash key.now) query.now) end from (rows_in count bytes.now) }
    ensures within { IfOk result (λ n. n.0 ≤ count) }
    ensures hashes { IfOk result (λ n. n.0 ≤ length query.now) }
    ensures behind { IfOk result (λ n. from ≤ n.1) }
    ensures refused { IfErr result (λ e. e ≡ StoreError.MalformedData Reason.SectionEntry) }
{
    let mut done: u32 = 0;
    let mut to = from;
    while done < count && (done as usize) < query.len() {
        let row = row_of(&bytes[48 * done as usize..]);
        if kept_hash(key, &query[done as usize]) != row.hash {
            return Ok((done, to));
        }
        to = chunk_end(&row, to, end)?;
        done += 1;
    }
    Ok((done, to))
}

/// Where the chunk in a row ends. It must start at `at`, and not pass `end`.
#[tactic(auto, unfolding(crate::specs::Runs::end_of_chunk, xet_shard_format::specs::Reading::chunk_in))]
fn chunk_end(row: &Row, at: u32, end: u32) -> Result<u32, StoreError>
    ensures exact { result ≡ end_of_chunk row.now at end }
    ensures behind { IfOk result (λ to. at ≤ to) }
    ensures refused { IfErr result (λ e. e ≡ StoreError.MalformedData Reason.SectionEntry) }
{
    let _chunk = chunk_in(row, u64::from(at))?;
    let to = u64::from(row.a) + u64::from(row.b);
    if to > u64::from(end) {
        return Err(StoreError::MalformedData(Reason::SectionEntry));
    }
    Ok(to as u32)
}
