//! Decoding of file and xorb records from the rows of a section.

ghost use Rattle.std.specs.Prelude.{◌≡◌, ◌++◌, ◌∷◌, [], List, None, IfErr, OnOk, Result};
ghost use Rattle.xet_hash.specs.declared.error.StoreError.{StoreError};
ghost use Rattle.xet_hash.specs.declared.error.StoreError.TheVariants.{OutOfMemory};
ghost use Rattle.xet_shard_format.specs.declared.row.Row.{Row};
ghost use Rattle.xet_shard_format.specs.Records.{file_record_hash, flags_of, is_after, xorb_record_hash};
ghost use Rattle.xet_codec.specs.Parsing.{Gives};
ghost use Rattle.xet_shard_format.specs.Reading.{chunk_in, chunks_at, end_at, ext_at, file_record_at, has_ext, hash_row_at, hash_in, is_verified, rows_after_file, section_at, segment_at, step_at, times_rows, verification_at, xorb_at};

use crate::record::{
    FileDataSequenceEntry, FileDataSequenceHeader, FileMetadataExt, FileVerificationEntry,
    MDBFileInfo, MDBXorbInfo, XorbChunkSequenceEntry, XorbChunkSequenceHeader,
};
use crate::row::Row;
use crate::row_cursor::Rows;
use crate::section::Record;
use crate::sha256::Sha256;
use std::alloc::Global;
use xet_base::Items;
use xet_hash::{DataHash, Reason, StoreError};

/// The flag of a file with verification rows: bit 31.
const VERIFIED: u32 = 1 << 31;

/// The flag of a file with a metadata row: bit 30.
const WITH_EXT: u32 = 1 << 30;

/// Reads the next row as a segment.
#[tactic(auto, unfolding(crate::specs::Reading::segment_at))]
fn segment(rows: &mut Rows) -> Result<FileDataSequenceEntry, StoreError>
    ensures { Gives (λ s. (s, rows.new)) result (segment_at rows.old) }
{
    let row = rows.next()?;
    if row.a != 0 {
        return Err(StoreError::MalformedData(Reason::SectionEntry));
    }
    Ok(FileDataSequenceEntry {
        xorb_hash: row.hash,
        xorb_flags: row.a,
        unpacked_segment_bytes: row.b,
        chunk_index_start: row.c,
        chunk_index_end: row.d,
    })
}

/// The hash of a row whose four numbers must be 0.
#[tactic(auto, unfolding(crate::specs::Reading::hash_in))]
fn hash_in(row: &Row) -> Result<DataHash, StoreError>
    ensures { Gives (λ h. h) result (hash_in row.now) }
{
    if row.a != 0 || row.b != 0 || row.c != 0 || row.d != 0 {
        return Err(StoreError::MalformedData(Reason::SectionEntry));
    }
    Ok(row.hash)
}

/// Reads the next row, whose four numbers must be 0, and returns its hash.
#[tactic(auto, unfolding(crate::specs::Reading::hash_row_at))]
fn hash_at(rows: &mut Rows) -> Result<DataHash, StoreError>
    ensures { Gives (λ h. (h, rows.new)) result (hash_row_at rows.old) }
{
    let row = rows.next()?;
    let hash = hash_in(&row)?;
    Ok(hash)
}

/// Reads the next row as a verification.
#[tactic(auto, unfolding(crate::specs::Reading::verification_at))]
fn verification(rows: &mut Rows) -> Result<FileVerificationEntry, StoreError>
    ensures { Gives (λ v. (v, rows.new)) result (verification_at rows.old) }
{
    let range_hash = hash_at(rows)?;
    Ok(FileVerificationEntry { range_hash })
}

/// Reads the next row as metadata if `wanted`; otherwise reads nothing.
#[tactic(auto, unfolding(crate::specs::Reading::ext_at))]
fn ext(rows: &mut Rows, wanted: bool) -> Result<Option<FileMetadataExt>, StoreError>
    ensures { Gives (λ v. (v, rows.new)) result (ext_at wanted rows.old) }
{
    if !wanted {
        return Ok(None);
    }
    let hash = hash_at(rows)?;
    Ok(Some(FileMetadataExt {
        sha256: Sha256::from_bytes(*hash.as_bytes()),
    }))
}

/// An entry that is read from one row.
trait FromRow: Copy {
    /// How it is read.
    ghost read_at: { List Row → Result (Self × List Row) StoreError };

    /// Reads the next row as such an entry.
    fn read(rows: &mut Rows) -> Result<Self, StoreError>
        ensures { Gives (λ e. (e, rows.new)) result (read_at rows.old) };
}

impl FromRow for FileDataSequenceEntry {
    ghost read_at = { segment_at };

    fn read(rows: &mut Rows) -> Result<FileDataSequenceEntry, StoreError> {
        segment(rows)
    }
}

impl FromRow for FileVerificationEntry {
    ghost read_at = { verification_at };

    fn read(rows: &mut Rows) -> Result<FileVerificationEntry, StoreError> {
        verification(rows)
    }
}

/// Reads `count` entries.
fn entries<E: FromRow>(alloc: Global, rows: &mut Rows, count: u32) -> Result<Vec<E>, StoreError>
    ensures { Gives (λ v. (v.items, rows.new)) result (times_rows E.read_at count rows.old) }
{
    let mut found = Vec::with_capacity(alloc, count as usize)?;
    for _done in 0..count {
        let next = E::read(rows)?;
        found.push(next)?;
    }
    Ok(found)
}

/// The chunk in a row. The bytes before it in its xorb must be `at`; a row of another form is
/// `MalformedData(SectionEntry)`.
#[tactic(auto, unfolding(crate::specs::Reading::chunk_in))]
pub fn chunk_in(row: &Row, at: u64) -> Result<XorbChunkSequenceEntry, StoreError>
    ensures gives { Gives (λ c. c) result (chunk_in row.now at) }
    ensures exact { result ≡ chunk_in row.now at }
{
    if row.a as u64 != at || row.c != 0 || row.d != 0 {
        return Err(StoreError::MalformedData(Reason::SectionEntry));
    }
    Ok(XorbChunkSequenceEntry {
        chunk_hash: row.hash,
        chunk_byte_range_start: row.a,
        unpacked_segment_bytes: row.b,
    })
}

/// Reads `count` chunks. Also returns the uncompressed offset at which the last one ends.
fn chunks(
    alloc: Global,
    rows: &mut Rows,
    count: u32,
) -> Result<(Vec<XorbChunkSequenceEntry>, u64), StoreError>
    ensures { Gives (λ x. (x.0.items, x.1, rows.new)) result (chunks_at count 0 rows.old) }
{
    let mut found = Vec::with_capacity(alloc, count as usize)?;
    let mut at: u64 = 0;
    for _done in 0..count {
        let row = rows.next()?;
        let chunk = chunk_in(&row, at)?;
        at = row.a as u64 + row.b as u64;
        found.push(chunk)?;
    }
    Ok((found, at))
}

/// The flags of a file header.
fn flags_of(verified: bool, with_ext: bool) -> u32
    ensures { result ≡ flags_of verified with_ext }
{
    match (verified, with_ext) {
        (false, false) => 0,
        (false, true) => WITH_EXT,
        (true, false) => VERIFIED,
        (true, true) => VERIFIED + WITH_EXT,
    }
}

/// Whether these flags say that there are verification rows.
pub fn is_verified(flags: u32) -> bool
    ensures { result ≡ is_verified flags }
{
    flags >= VERIFIED
}

/// Whether these flags say that there is a metadata row.
pub fn has_ext(flags: u32) -> bool
    ensures { result ≡ has_ext flags }
{
    flags % VERIFIED >= WITH_EXT
}

/// The number of rows of a file record after its header.
pub fn rows_after_file(head: &Row) -> u64
    ensures { result ≡ rows_after_file head.now }
{
    let entries = u64::from(head.b);
    let checks = if is_verified(head.a) { entries } else { 0 };
    let ext = if has_ext(head.a) { 1 } else { 0 };
    entries + (checks + ext)
}

/// Reads the file record whose header row is `head`. Memory is reserved only for rows that exist.
#[tactic(auto, unfolding(crate::specs::Reading::file_record_at))]
pub fn file(alloc: Global, head: &Row, rows: &mut Rows) -> Result<MDBFileInfo, StoreError>
    ensures { Gives (λ f. (f, rows.new)) result (file_record_at head.now rows.old) }
{
    if !rows.has(rows_after_file(head)) {
        return Err(StoreError::MalformedData(Reason::SectionPlace));
    }
    let verified = is_verified(head.a);
    let with_ext = has_ext(head.a);
    if head.a != flags_of(verified, with_ext) {
        return Err(StoreError::MalformedData(Reason::SectionEntry));
    }
    if head.c != 0 || head.d != 0 {
        return Err(StoreError::MalformedData(Reason::SectionEntry));
    }
    let segments = entries::<FileDataSequenceEntry>(alloc, rows, head.b)?;
    let checks = if verified { head.b } else { 0 };
    let verification = entries::<FileVerificationEntry>(alloc, rows, checks)?;
    let metadata_ext = ext(rows, with_ext)?;
    Ok(MDBFileInfo {
        metadata: FileDataSequenceHeader {
            file_hash: head.hash,
            file_flags: head.a,
            num_entries: head.b,
        },
        segments: Items::from_vec(segments),
        verification: Items::from_vec(verification),
        metadata_ext,
    })
}

/// Reads the xorb record whose header row is `head`. Memory is reserved only for rows that exist.
#[tactic(auto, unfolding(crate::specs::Reading::xorb_at))]
pub fn xorb(alloc: Global, head: &Row, rows: &mut Rows) -> Result<MDBXorbInfo, StoreError>
    ensures { Gives (λ x. (x, rows.new)) result (xorb_at head.now rows.old) }
{
    if !rows.has(u64::from(head.b)) {
        return Err(StoreError::MalformedData(Reason::SectionPlace));
    }
    if head.a != 0 || head.d != 0 {
        return Err(StoreError::MalformedData(Reason::SectionEntry));
    }
    let (chunks, total) = chunks(alloc, rows, head.b)?;
    if total != head.c as u64 {
        return Err(StoreError::MalformedData(Reason::SectionEntry));
    }
    Ok(MDBXorbInfo {
        metadata: XorbChunkSequenceHeader {
            xorb_hash: head.hash,
            xorb_flags: head.a,
            num_entries: head.b,
            num_bytes_in_xorb: head.c,
            num_bytes_on_disk: head.d,
        },
        chunks: Items::from_vec(chunks),
    })
}

/// Whether a hash is above that of the record before, if there is one.
fn is_after(last: Option<DataHash>, hash: DataHash) -> bool
    ensures { result ≡ is_after last hash }
{
    match last {
        None => true,
        Some(before) => before.cmp(&hash).is_lt(),
    }
}

/// Checks the end row: its numbers are 0, and no row follows it.
#[tactic(auto, unfolding(crate::specs::Reading::end_at))]
fn end(row: &Row, rows: &Rows) -> Result<(), StoreError>
    ensures { Gives (λ _. tt) result (end_at row.now rows.now) }
{
    hash_in(row)?;
    if !rows.is_done() {
        return Err(StoreError::MalformedData(Reason::SectionPlace));
    }
    Ok(())
}

/// Reads the next record; none at the end row. The order of hashes is checked after all else in the record.
#[tactic(auto, unfolding(crate::specs::Reading::step_at))]
fn record_or_end<R: Record>(
    alloc: Global,
    last: Option<DataHash>,
    rows: &mut Rows,
) -> Result<Option<R>, StoreError>
    ensures { Gives (λ x. (x, rows.new)) result (step_at R.record_at last rows.old) }
{
    let row = rows.next()?;
    if row.hash == DataHash::marker() {
        end(&row, rows)?;
        return Ok(None);
    }
    let found = R::read(alloc, &row, rows)?;
    if is_after(last, row.hash) {
        Ok(Some(found))
    } else {
        Err(StoreError::MalformedData(Reason::SectionOrder))
    }
}

/// Appends an item.
fn push<T: Drop>(found: &mut Vec<T>, item: T) -> Result<(), StoreError>
    ensures ok { OnOk result (found.new.items ≡ found.old.items ++ item ∷ []) }
    ensures err { IfErr result (λ e. e ≡ OutOfMemory) }
{
    found.push(item)?;
    Ok(())
}

/// Reads the records of a section of `count` rows.
pub fn records<R: Record>(alloc: Global, rows: &mut Rows, count: u32) -> Result<Vec<R>, StoreError>
    ensures { Gives (λ v. v.items) result (section_at R.record_at R.hash_of count None rows.old) }
{
    let mut found = Vec::new(alloc);
    let mut last = None;
    for _done in 0..count {
        let next: Option<R> = record_or_end(alloc, last, rows)?;
        match next {
            None => return Ok(found),
            Some(record) => {
                let hash = record.hash();
                push(&mut found, record)?;
                last = Some(hash);
            }
        }
    }
    Err(StoreError::MalformedData(Reason::SectionPlace))
}
