//! Encoding of rows, records, header and footer.

ghost use Rattle.std.specs.Prelude.{◌≡◌, ◌<◌, ◌^◌, ◌++◌, OnOk, length, map};
ghost use Rattle.std.specs.Int.{to_le_bytes, w64};
ghost use Rattle.std.specs.List.{All, AllByRecursion, flat_map};
ghost use Rattle.xet_shard_format.specs.Rows.{RowFits, row_bytes, rows_bytes};
ghost use Rattle.xet_shard_format.specs.Records.{ext_rows, file_rows, section, xorb_rows};
ghost use Rattle.xet_shard_format.specs.Encoding.{shard_footer_bytes, shard_header_bytes};

use crate::header_footer::{MDBShardFileFooter, MDBShardFileHeader};
use crate::record::{FileMetadataExt, MDBFileInfo, MDBXorbInfo};
use crate::row::Row;
use crate::section::{Entry, Lends, Record};
use std::alloc::AllocError;
use xet_hash::DataHash;

/// Appends the section of these records: their rows, and the end row.
pub fn push_section<R: Record, T: Lends<R>>(
    encoding: &mut Vec<u8>,
    records: &[T],
) -> Result<(), AllocError>
    ensures encoding { OnOk result (encoding.new.items ≡ encoding.old.items ++ rows_bytes (section R.rows_of (map T.lent records.now))) }
    ensures fits { OnOk result (AllByRecursion RowFits (section R.rows_of (map T.lent records.now))) }
{
    for item in records {
        item.lend().push(encoding)?;
    }
    push_row(encoding, &Row::of_hash(DataHash::marker()))?;
    Ok(())
}

/// Appends the rows of a file record.
pub fn push_file(encoding: &mut Vec<u8>, file: &MDBFileInfo) -> Result<(), AllocError>
    ensures encoding { OnOk result (encoding.new.items ≡ encoding.old.items ++ rows_bytes (file_rows file.now)) }
    ensures fits { OnOk result (AllByRecursion RowFits (file_rows file.now)) }
{
    let m = &file.metadata;
    let head = Row::new(m.file_hash, m.file_flags, m.num_entries, 0, 0);
    push_row(encoding, &head)?;
    push_entries(encoding, file.segments.as_slice())?;
    push_entries(encoding, file.verification.as_slice())?;
    push_ext(encoding, &file.metadata_ext)?;
    Ok(())
}

/// Appends the rows of a xorb record.
pub fn push_xorb(encoding: &mut Vec<u8>, block: &MDBXorbInfo) -> Result<(), AllocError>
    ensures encoding { OnOk result (encoding.new.items ≡ encoding.old.items ++ rows_bytes (xorb_rows block.now)) }
    ensures fits { OnOk result (AllByRecursion RowFits (xorb_rows block.now)) }
{
    let m = &block.metadata;
    let (len, disk_len) = (m.num_bytes_in_xorb, m.num_bytes_on_disk);
    let head = Row::new(m.xorb_hash, m.xorb_flags, m.num_entries, len, disk_len);
    push_row(encoding, &head)?;
    push_entries(encoding, block.chunks.as_slice())?;
    Ok(())
}

/// Appends the metadata row of a file, if it has one.
fn push_ext(encoding: &mut Vec<u8>, ext: &Option<FileMetadataExt>) -> Result<(), AllocError>
    ensures encoding { OnOk result (encoding.new.items ≡ encoding.old.items ++ rows_bytes (ext_rows ext.now)) }
    ensures fits { OnOk result (AllByRecursion RowFits (ext_rows ext.now)) }
{
    if let Some(m) = ext {
        let row = Row::of_hash(DataHash::from_bytes(*m.sha256.as_bytes()));
        push_row(encoding, &row)?;
    }
    Ok(())
}

/// Appends the rows of these entries.
fn push_entries<E: Entry>(encoding: &mut Vec<u8>, entries: &[E]) -> Result<(), AllocError>
    ensures encoding { OnOk result (encoding.new.items ≡ encoding.old.items ++ rows_bytes (map E.row_of entries.now)) }
    ensures fits { OnOk result (AllByRecursion RowFits (map E.row_of entries.now)) }
{
    for entry in entries {
        push_row(encoding, &entry.row())?;
    }
    Ok(())
}

/// Appends the encoding of a row.
fn push_row(encoding: &mut Vec<u8>, row: &Row) -> Result<(), AllocError>
    ensures encoding { OnOk result (encoding.new.items ≡ encoding.old.items ++ row_bytes row.now) }
    ensures fits { RowFits row.now }
{
    recall_row(row);
    push_fields(encoding, row)?;
    Ok(())
}

/// Appends the fields of a row.
#[tactic(auto, unfolding(crate::specs::Rows::row_bytes))]
fn push_fields(encoding: &mut Vec<u8>, row: &Row) -> Result<(), AllocError>
    ensures { OnOk result (encoding.new.items ≡ encoding.old.items ++ row_bytes row.now) }
{
    encoding.extend_from_slice(row.hash.as_bytes())?;
    encoding.extend_from_slice(&row.a.to_le_bytes())?;
    encoding.extend_from_slice(&row.b.to_le_bytes())?;
    encoding.extend_from_slice(&row.c.to_le_bytes())?;
    encoding.extend_from_slice(&row.d.to_le_bytes())?;
    Ok(())
}

/// Proof aid without effect: the fields of a row fit in their bytes.
fn recall_row(row: &Row)
    ensures { RowFits row.now }
{
    recall_hash(&row.hash);
    recall_numbers(row.a, row.b, row.c, row.d);
}

/// Proof aid without effect: numbers of 32 bits are below 2^32.
fn recall_numbers(a: u32, b: u32, c: u32, d: u32)
    ensures first { a < 2 ^ 32 }
    ensures second { b < 2 ^ 32 }
    ensures third { c < 2 ^ 32 }
    ensures fourth { d < 2 ^ 32 }
{
    let _ = (a, b, c, d);
}

/// Proof aid without effect: a hash is 32 bytes.
pub fn recall_hash(hash: &DataHash)
    ensures length { length hash.now ≡ 32 }
    ensures bytes { All (λ b. b < 256) hash.now }
{
    recall_array(hash.as_bytes());
}

/// Proof aid without effect: such an array is 32 bytes.
fn recall_array(bytes: &[u8; 32])
    ensures length { length bytes.now ≡ 32 }
    ensures bytes { All (λ b. b < 256) bytes.now }
{
    recall_slice(bytes.as_slice());
}

/// Proof aid without effect: the elements of a slice of bytes are below 256.
fn recall_slice(bytes: &[u8])
    ensures { All (λ b. b < 256) bytes.now }
{
    let _ = bytes;
}

/// Appends the encoding of a header.
pub fn push_header(encoding: &mut Vec<u8>, header: &MDBShardFileHeader) -> Result<(), AllocError>
    ensures { OnOk result (encoding.new.items ≡ encoding.old.items ++ shard_header_bytes header.now) }
{
    encoding.extend_from_slice(&header.tag)?;
    encoding.extend_from_slice(&header.version.to_le_bytes())?;
    encoding.extend_from_slice(&header.footer_size.to_le_bytes())?;
    Ok(())
}

/// Appends the encoding of a footer.
pub fn push_footer(encoding: &mut Vec<u8>, f: &MDBShardFileFooter) -> Result<(), AllocError>
    ensures { OnOk result (encoding.new.items ≡ encoding.old.items ++ shard_footer_bytes f.now) }
{
    push_words(
        encoding,
        &[
            f.version,
            f.file_info_offset,
            f.xorb_info_offset,
            f.file_lookup_offset,
            f.file_lookup_num_entry,
            f.xorb_lookup_offset,
            f.xorb_lookup_num_entry,
            f.chunk_lookup_offset,
            f.chunk_lookup_num_entry,
        ],
    )?;
    encoding.extend_from_slice(f.chunk_hash_hmac_key.as_bytes())?;
    push_words(encoding, &[f.shard_creation_timestamp, f.shard_key_expiry])?;
    encoding.extend_from_slice(&[0; 48])?;
    push_words(
        encoding,
        &[
            f.stored_bytes_on_disk,
            f.materialized_bytes,
            f.stored_bytes,
            f.footer_offset,
        ],
    )?;
    Ok(())
}

/// Appends the encodings of these numbers, eight bytes each.
fn push_words(encoding: &mut Vec<u8>, words: &[u64]) -> Result<(), AllocError>
    ensures { OnOk result (encoding.new.items ≡ encoding.old.items ++ flat_map (to_le_bytes w64) words.now) }
{
    for word in words {
        encoding.extend_from_slice(&word.to_le_bytes())?;
    }
    Ok(())
}
