//! Encoding of a whole shard.

ghost use Rattle.std.specs.Prelude.{◌≡◌, ◌<◌, ◌+◌, ◌*◌, ◌^◌, ◌++◌, ℕ, IfErr, IfOk, IsErrOf, IsOkUnless, OnOk, None, cond, length, map, take, true};
ghost use Rattle.xet_shard_format.specs.Records.{file_section, section, xorb_section};
ghost use Rattle.xet_shard_format.specs.Lookups.{chunk_items, file_items, xorb_items};
ghost use Rattle.xet_shard_format.specs.Encoding.{Fits, footer_of, footer_with, shard, shard_bytes};

use crate::encoding::{push_footer, push_header, push_section, recall_hash};
use crate::header_footer::{HEADER, MDBShardFileFooter};
use crate::lookup::{materialized, push_standing_heads, push_standing_places, stored};
use crate::record::{MDBFileInfo, MDBXorbInfo};
use crate::section::{Lends, Record};
use std::alloc::Global;
use xet_hash::{HMACKey, Place, StoreError};

/// The numbers of rows and of lookup items of a shard.
#[derive(Clone, Copy)]
struct Counts {
    /// The rows of the file section, the end row included.
    file_rows: u32,
    /// The rows of the xorb section, the end row included.
    xorb_rows: u32,
    /// The items of the file lookup table.
    files: u32,
    /// The items of the xorb lookup table.
    xorbs: u32,
    /// The items of the chunk lookup table.
    chunks: u32,
}

/// Which lookup tables a shard has. The others are omitted.
#[derive(Clone, Copy)]
pub struct Lookups {
    /// Whether it has the file lookup table.
    pub files: bool,
    /// Whether it has the xorb lookup table.
    pub xorbs: bool,
    /// Whether it has the chunk lookup table.
    pub chunks: bool,
}

/// All lookup tables.
pub const ALL_LOOKUPS: Lookups = Lookups {
    files: true,
    xorbs: true,
    chunks: true,
};

/// Encodes the shard with these xorbs, files and lookup tables, and also returns its footer. The caller
/// ensures that each section has fewer than 2^32 rows, the end row included. The buffer of the result is
/// allocated once, with the exact length. The only error is `StoreError::OutOfMemory`.
pub fn write_with_lookups<B: Lends<MDBXorbInfo>, F: Lends<MDBFileInfo>>(
    alloc: Global,
    lookups: Lookups,
    blocks: &[B],
    files: &[F],
    key: HMACKey,
    creation: u64,
    expiry: u64,
) -> Result<(Vec<u8>, MDBShardFileFooter), StoreError>
    requires few_files { length (file_section (map F.lent files.now)) < 2 ^ 32 }
    requires few_blocks { length (xorb_section (map B.lent blocks.now)) < 2 ^ 32 }
    ensures encoding { IfOk result (λ x. x.0.items ≡ shard_bytes (record { files = lookups.files; xorbs = lookups.xorbs; chunks = lookups.chunks }) (shard (map B.lent blocks.now) (map F.lent files.now) key creation expiry)) }
    ensures footer { IfOk result (λ x. x.1 ≡ footer_of (record { files = lookups.files; xorbs = lookups.xorbs; chunks = lookups.chunks }) (shard (map B.lent blocks.now) (map F.lent files.now) key creation expiry)) }
    ensures fits { OnOk result (Fits (shard (map B.lent blocks.now) (map F.lent files.now) key creation expiry)) }
    ensures memory { IsOkUnless result StoreError.OutOfMemory }
{
    recall_hash(&key);
    let all = count::<B, F>(blocks, files);
    let counts = all.standing(lookups);
    let mut encoding = Vec::with_capacity(alloc, counts.footer_offset() as usize + 200)?;
    push_header(&mut encoding, &HEADER)?;
    push_section::<MDBFileInfo, F>(&mut encoding, files)?;
    push_section::<MDBXorbInfo, B>(&mut encoding, blocks)?;
    push_standing_heads::<MDBFileInfo, F>(&mut encoding, lookups.files, files)?;
    push_standing_heads::<MDBXorbInfo, B>(&mut encoding, lookups.xorbs, blocks)?;
    push_standing_places::<B>(alloc, &mut encoding, lookups.chunks, blocks)?;
    let footer = counts.footer(
        key,
        creation,
        expiry,
        materialized::<F>(files),
        stored::<B>(blocks),
    );
    push_footer(&mut encoding, &footer)?;
    Ok((encoding, footer))
}

/// Counts the rows and the lookup items of the shard of these records, with all lookup tables.
fn count<B: Lends<MDBXorbInfo>, F: Lends<MDBFileInfo>>(blocks: &[B], files: &[F]) -> Counts
    requires few_files { length (file_section (map F.lent files.now)) < 2 ^ 32 }
    requires few_blocks { length (xorb_section (map B.lent blocks.now)) < 2 ^ 32 }
    ensures file_rows { result.file_rows ≡ length (file_section (map F.lent files.now)) }
    ensures xorb_rows { result.xorb_rows ≡ length (xorb_section (map B.lent blocks.now)) }
    ensures files { result.files ≡ length (file_items (map F.lent files.now)) }
    ensures xorbs { result.xorbs ≡ length (xorb_items (map B.lent blocks.now)) }
    ensures chunks { result.chunks ≡ length (chunk_items (map B.lent blocks.now)) }
{
    let xorb_rows = section_rows::<MDBXorbInfo, B>(blocks);
    let xorbs = blocks.len() as u32;
    Counts {
        file_rows: section_rows::<MDBFileInfo, F>(files),
        xorb_rows,
        files: files.len() as u32,
        xorbs,
        // All rows of the xorb section but the headers and the end row are chunks.
        chunks: xorb_rows - 1 - xorbs,
    }
}

/// The number of rows of the section of these records, the end row included.
fn section_rows<R: Record, T: Lends<R>>(records: &[T]) -> u32
    requires { length (section R.rows_of (map T.lent records.now)) < 2 ^ 32 }
    ensures { result ≡ length (section R.rows_of (map T.lent records.now)) }
{
    let mut rows: u32 = 1;
    for item in records {
        rows += item.lend().num_rows();
    }
    rows
}

/// The number of items of a lookup table: `count`, or 0 if it is omitted.
fn count_standing(stands: bool, count: u32) -> u32
    ensures { result ≡ cond stands count 0 }
{
    if stands { count } else { 0 }
}

impl Counts {
    /// The same numbers, with 0 items for each omitted lookup table.
    fn standing(&self, lookups: Lookups) -> Counts
        ensures file_rows { result.file_rows ≡ self.now.file_rows }
        ensures xorb_rows { result.xorb_rows ≡ self.now.xorb_rows }
        ensures files { result.files ≡ cond lookups.files self.now.files 0 }
        ensures xorbs { result.xorbs ≡ cond lookups.xorbs self.now.xorbs 0 }
        ensures chunks { result.chunks ≡ cond lookups.chunks self.now.chunks 0 }
    {
        Counts {
            file_rows: self.file_rows,
            xorb_rows: self.xorb_rows,
            files: count_standing(lookups.files, self.files),
            xorbs: count_standing(lookups.xorbs, self.xorbs),
            chunks: count_standing(lookups.chunks, self.chunks),
        }
    }

    /// The offset of the footer.
    fn footer_offset(&self) -> u64
        ensures { result ≡ 48 + 48 * self.now.file_rows + 48 * self.now.xorb_rows + 12 * self.now.files + 12 * self.now.xorbs + 16 * self.now.chunks }
    {
        48 + 48 * self.file_rows as u64
            + 48 * self.xorb_rows as u64
            + 12 * self.files as u64
            + 12 * self.xorbs as u64
            + 16 * self.chunks as u64
    }

    /// The footer of a shard with these numbers, times and totals.
    fn footer(
        &self,
        key: HMACKey,
        creation: u64,
        expiry: u64,
        materialized_bytes: u64,
        stored_bytes: u64,
    ) -> MDBShardFileFooter
        ensures { result ≡ footer_with self.now.file_rows self.now.xorb_rows self.now.files self.now.xorbs self.now.chunks key creation expiry materialized_bytes stored_bytes }
    {
        let xorb_info_offset = 48 + 48 * self.file_rows as u64;
        let file_lookup_offset = xorb_info_offset + 48 * self.xorb_rows as u64;
        let xorb_lookup_offset = file_lookup_offset + 12 * self.files as u64;
        MDBShardFileFooter {
            version: 1,
            file_info_offset: 48,
            xorb_info_offset,
            file_lookup_offset,
            file_lookup_num_entry: self.files as u64,
            xorb_lookup_offset,
            xorb_lookup_num_entry: self.xorbs as u64,
            chunk_lookup_offset: xorb_lookup_offset + 12 * self.xorbs as u64,
            chunk_lookup_num_entry: self.chunks as u64,
            chunk_hash_hmac_key: key,
            shard_creation_timestamp: creation,
            shard_key_expiry: expiry,
            stored_bytes_on_disk: 0,
            materialized_bytes,
            stored_bytes,
            footer_offset: self.footer_offset(),
        }
    }
}
