//! Decoding of a whole shard.

ghost use Rattle.std.specs.Prelude.{◌≡◌, ◌<◌, ◌≤◌, ◌+◌, ◌*◌, ◌^◌, None, IfOk, Ok, drop, length};
ghost use Rattle.xet_shard_format.specs.Rows.{rows_in};
ghost use Rattle.xet_shard_format.specs.Records.{file_record_hash, file_section, section, xorb_record_hash, xorb_section};
ghost use Rattle.xet_shard_format.specs.Lookups.{Lookups, chunk_items, heads_from, record_items_bytes, chunk_items_bytes};
ghost use Rattle.xet_shard_format.specs.Encoding.{Fits, IsShard, Shard, materialized, shard_bytes, stored};
ghost use Rattle.xet_codec.specs.Parsing.{Gives};
ghost use Rattle.xet_shard_format.specs.Reading.{IsPlaced, IsRead, all_of, file_record_at, file_row_count, lookup_at, shard_parts_of, section_at, totals_at, xorb_at, xorb_row_count};

use crate::header_footer::{MDBShardFileFooter, footer, header};
use crate::lookup::{materialized, push_heads, push_places, stored};
use crate::record::{MDBFileInfo, MDBXorbInfo};
use crate::record_decoding::records;
use crate::row_cursor::Rows;
use crate::section::Record;
use std::alloc::Global;
use xet_hash::{Reason, StoreError};

/// The xorbs and the files of a shard, and its footer.
type Parts = (Vec<MDBXorbInfo>, Vec<MDBFileInfo>, MDBShardFileFooter);

/// Reads a shard, and returns its xorbs, its files and its footer. The error is that of the first check that
/// fails: header, footer, files, xorbs, lookup tables, totals; or it is `StoreError::OutOfMemory`.
pub fn read_shard(alloc: Global, bytes: &[u8]) -> Result<Parts, StoreError>
    // What is read is a well-formed shard with its footer, and the bytes are its encoding.
    ensures found { IfOk result (λ x. IsRead bytes.now (x.0.items, x.1.items, x.2)) }
    // The encoding of a well-formed shard is read, unless memory is out.
    ensures only { (w : Lookups) (s : Shard) → IsShard s → Fits s → bytes.now ≡ shard_bytes w s → Gives (λ x. (x.0.items, x.1.items, x.2)) result (Ok (shard_parts_of w s)) }
    // The error is that of the first check that fails, unless memory is out.
    ensures exact { Gives (λ x. (x.0.items, x.1.items, x.2)) result (all_of bytes.now) }
{
    all(alloc, bytes)
}

/// Makes the checks of `read_shard`, in order.
#[tactic(auto, unfolding(crate::specs::Reading::all_of))]
fn all(alloc: Global, bytes: &[u8]) -> Result<Parts, StoreError>
    ensures { Gives (λ x. (x.0.items, x.1.items, x.2)) result (all_of bytes.now) }
{
    header(bytes)?;
    let f = footer(bytes)?;
    let files = all_files(alloc, bytes, &f)?;
    let blocks = all_xorbs(alloc, bytes, &f)?;
    check_heads(
        alloc,
        bytes,
        f.file_lookup_offset,
        12 * f.file_lookup_num_entry,
        &files,
    )?;
    check_heads(
        alloc,
        bytes,
        f.xorb_lookup_offset,
        12 * f.xorb_lookup_num_entry,
        &blocks,
    )?;
    check_places(
        alloc,
        bytes,
        f.chunk_lookup_offset,
        16 * f.chunk_lookup_num_entry,
        &blocks,
    )?;
    check_totals(&f, &files, &blocks)?;
    Ok((blocks, files, f))
}

/// Reads the file section.
fn all_files(
    alloc: Global,
    bytes: &[u8],
    f: &MDBShardFileFooter,
) -> Result<Vec<MDBFileInfo>, StoreError>
    requires { IsPlaced (length bytes.now) f.now }
    ensures gives { Gives (λ v. v.items) result (section_at file_record_at file_record_hash (file_row_count f.now) None (rows_in (file_row_count f.now) (drop f.now.file_info_offset bytes.now))) }
    ensures few { IfOk result (λ v. length (file_section v.items) < 2 ^ 32) }
    ensures total { IfOk result (λ v. materialized v.items < 2 ^ 64) }
{
    let count = (f.xorb_info_offset - f.file_info_offset) / 48;
    records_at(alloc, bytes, f.file_info_offset, count as u32)
}

/// Reads the xorb section.
fn all_xorbs(
    alloc: Global,
    bytes: &[u8],
    f: &MDBShardFileFooter,
) -> Result<Vec<MDBXorbInfo>, StoreError>
    requires { IsPlaced (length bytes.now) f.now }
    ensures gives { Gives (λ v. v.items) result (section_at xorb_at xorb_record_hash (xorb_row_count f.now) None (rows_in (xorb_row_count f.now) (drop f.now.xorb_info_offset bytes.now))) }
    ensures few { IfOk result (λ v. length (xorb_section v.items) < 2 ^ 32) }
    ensures total { IfOk result (λ v. stored v.items < 2 ^ 64) }
{
    let count = (f.file_lookup_offset - f.xorb_info_offset) / 48;
    records_at(alloc, bytes, f.xorb_info_offset, count as u32)
}

/// Reads the records of the section of `count` rows at offset `at`.
pub fn records_at<R: Record>(
    alloc: Global,
    bytes: &[u8],
    at: u64,
    count: u32,
) -> Result<Vec<R>, StoreError>
    requires { at + 48 * count ≤ length bytes.now }
    ensures { Gives (λ v. v.items) result (section_at R.record_at R.hash_of count None (rows_in count (drop at bytes.now))) }
{
    let (_, rest) = bytes.split_at(at as usize);
    let mut rows = Rows::new(rest, count);
    records(alloc, &mut rows, count)
}

/// Checks that the lookup table of these records, `len` bytes at offset `at`, is omitted or complete.
#[tactic(auto, unfolding(crate::specs::Reading::lookup_at))]
fn check_heads<R: Record>(
    alloc: Global,
    bytes: &[u8],
    at: u64,
    len: u64,
    records: &[R],
) -> Result<(), StoreError>
    requires inside { at + len ≤ length bytes.now }
    requires few { length (section R.rows_of records.now) < 2 ^ 32 }
    ensures { Gives (λ _. tt) result (lookup_at bytes.now at len (record_items_bytes (heads_from R.hash_of R.rows_of 0 records.now))) }
{
    if len == 0 {
        return Ok(());
    }
    let mut encoding = Vec::new(alloc);
    push_heads::<R, R>(&mut encoding, records)?;
    check_lookup(bytes, at, len, &encoding)
}

/// Checks that the chunk lookup table, `len` bytes at offset `at`, is omitted or complete.
#[tactic(auto, unfolding(crate::specs::Reading::lookup_at))]
fn check_places(
    alloc: Global,
    bytes: &[u8],
    at: u64,
    len: u64,
    blocks: &[MDBXorbInfo],
) -> Result<(), StoreError>
    requires inside { at + len ≤ length bytes.now }
    requires few { length (xorb_section blocks.now) < 2 ^ 32 }
    ensures { Gives (λ _. tt) result (lookup_at bytes.now at len (chunk_items_bytes (chunk_items blocks.now))) }
{
    if len == 0 {
        return Ok(());
    }
    let mut encoding = Vec::new(alloc);
    push_places::<MDBXorbInfo>(alloc, &mut encoding, blocks)?;
    check_lookup(bytes, at, len, &encoding)
}

/// Checks that the `len` bytes at offset `at` are `encoding`, or that `len` is 0.
#[tactic(auto, unfolding(crate::specs::Reading::lookup_at))]
fn check_lookup(bytes: &[u8], at: u64, len: u64, encoding: &[u8]) -> Result<(), StoreError>
    requires { at + len ≤ length bytes.now }
    ensures { Gives (λ _. tt) result (lookup_at bytes.now at len encoding.now) }
{
    if len == 0 {
        return Ok(());
    }
    let (_, rest) = bytes.split_at(at as usize);
    let (piece, _) = rest.split_at(len as usize);
    if piece != encoding {
        return Err(StoreError::MalformedData(Reason::Lookup));
    }
    Ok(())
}

/// Checks the totals in the footer.
#[tactic(auto, unfolding(crate::specs::Reading::totals_at))]
fn check_totals(
    f: &MDBShardFileFooter,
    files: &[MDBFileInfo],
    blocks: &[MDBXorbInfo],
) -> Result<(), StoreError>
    requires materialized { materialized files.now < 2 ^ 64 }
    requires stored { stored blocks.now < 2 ^ 64 }
    ensures { Gives (λ _. tt) result (totals_at f.now (materialized files.now) (stored blocks.now)) }
{
    if f.stored_bytes_on_disk != 0
        || f.materialized_bytes != materialized::<MDBFileInfo>(files)
        || f.stored_bytes != stored::<MDBXorbInfo>(blocks)
    {
        return Err(StoreError::MalformedData(Reason::Totals));
    }
    Ok(())
}
