//! Reading of the header, the footer and the sections from any reader, each on its own.

ghost use Rattle.std.specs.Prelude.{◌≡◌, ◌≤◌, ◌<◌, ◌+◌, ◌-◌, ◌*◌, ◌^◌, min, None, true, length, IfErr, IfOk, IsErrOf, OnOk};
ghost use Rattle.xet_codec.specs.Parsing.{GivesUnlessFault, IsInputError, IsUnlessFault};
ghost use Rattle.xet_shard_format.specs.Reading.{IsShardError, shard_footer_at, shard_header_at};
ghost use Rattle.xet_shard_format.specs.Records.{AreRecords, IsFile, IsXorb, file_record_hash, file_section, xorb_record_hash, xorb_section};
ghost use Rattle.xet_shard.specs.Sections.{block_heads_in, blocks_in, files_in, info_at, key_of, row_count};
ghost use Rattle.xet_io.specs.Frame.{ReadFrom};

use crate::info::MDBShardInfo;
use crate::reader::byte_ranges::{fill, rows_at};
use crate::reader::lookup_items::heads_of;
use std::alloc::Global;
use xet_codec::reader_length;
use xet_hash::{HMACKey, Place, Reason, StoreError};
use xet_io::ReadAt;
use xet_shard_format::header_footer::{
    HEADER, MDBShardFileFooter, follows, footer_of_last, header_of_first,
};
use xet_shard_format::shard_decoding::records_at;
use xet_shard_format::{MDBFileInfo, MDBXorbInfo, XorbChunkSequenceHeader};

/// The length of a footer in bytes.
const FOOTER_SIZE: u64 = 200;

impl MDBShardInfo {
    /// Reads the header and the footer of a shard. Only the first 48 and the last 200 bytes are read, and
    /// nothing is allocated. If they are malformed, the error is that of the first check that fails. It is
    /// `Io(Input)` if the reader failed.
    pub fn load_from_reader<R: ReadAt>(reader: &mut R) -> Result<MDBShardInfo, StoreError>
        ensures exact { R.tells reader.old ≡ true → IsUnlessFault result (info_at (R.bytes reader.old)) }
        ensures errors { IfErr result IsInputError }
        ensures frame { ReadFrom R.bytes R.tells R.faults R.lent reader.old reader.new (IsErrOf result (StoreError.Io Place.Input)) }
    {
        let len = reader_length(reader)?;
        load(reader, len)
    }

    /// The files, in ascending order of hash, read from the bytes of their section alone. If the section is malformed, the
    /// error is that of the first check that fails. It is `Io(Input)` if the reader failed.
    pub fn read_all_file_info_sections<R: ReadAt>(
        &self,
        alloc: Global,
        reader: &mut R,
    ) -> Result<Vec<MDBFileInfo>, StoreError>
        ensures exact { R.tells reader.old ≡ true → GivesUnlessFault (λ v. v.items) result (files_in self.now.metadata (R.bytes reader.old)) }
        ensures form { IfOk result (λ v. AreRecords file_record_hash IsFile None v.items) }
        ensures few { IfOk result (λ v. length (file_section v.items) < 2 ^ 32) }
        ensures errors { IfErr result IsShardError }
        ensures frame { ReadFrom R.bytes R.tells R.faults R.lent reader.old reader.new (IsErrOf result (StoreError.Io Place.Input)) }
    {
        files(alloc, reader, &self.metadata)
    }

    /// The xorbs, in ascending order of hash, read from the bytes of their section alone. If the section is malformed, the
    /// error is that of the first check that fails. It is `Io(Input)` if the reader failed.
    pub fn read_all_xorb_blocks_full<R: ReadAt>(
        &self,
        alloc: Global,
        reader: &mut R,
    ) -> Result<Vec<MDBXorbInfo>, StoreError>
        ensures exact { R.tells reader.old ≡ true → GivesUnlessFault (λ v. v.items) result (blocks_in self.now.metadata (R.bytes reader.old)) }
        ensures form { IfOk result (λ v. AreRecords xorb_record_hash IsXorb None v.items) }
        ensures few { IfOk result (λ v. length (xorb_section v.items) < 2 ^ 32) }
        ensures errors { IfErr result IsShardError }
        ensures frame { ReadFrom R.bytes R.tells R.faults R.lent reader.old reader.new (IsErrOf result (StoreError.Io Place.Input)) }
    {
        blocks(alloc, reader, &self.metadata)
    }

    /// The header of each xorb, with its row from the start of the section. Reads the same bytes as
    /// `read_all_xorb_blocks_full`, and fails as it does.
    pub fn read_all_xorb_blocks<R: ReadAt>(
        &self,
        alloc: Global,
        reader: &mut R,
    ) -> Result<Vec<(XorbChunkSequenceHeader, u64)>, StoreError>
        ensures exact { R.tells reader.old ≡ true → GivesUnlessFault (λ v. v.items) result (block_heads_in self.now.metadata (R.bytes reader.old)) }
        ensures errors { IfErr result IsShardError }
        ensures frame { ReadFrom R.bytes R.tells R.faults R.lent reader.old reader.new (IsErrOf result (StoreError.Io Place.Input)) }
    {
        let found = blocks(alloc, reader, &self.metadata)?;
        let heads = heads_of(alloc, &found)?;
        Ok(heads)
    }

    /// The length of the shard in bytes: the offset of its footer plus 200, at most 2^64 - 1.
    pub fn num_bytes(&self) -> u64
        ensures { result ≡ min (self.now.metadata.footer_offset + 200) (2 ^ 64 - 1) }
    {
        self.metadata.footer_offset.saturating_add(FOOTER_SIZE)
    }

    /// The uncompressed bytes of all segments of all files, as the footer states them.
    pub fn materialized_bytes(&self) -> u64
        ensures { result ≡ self.now.metadata.materialized_bytes }
    {
        self.metadata.materialized_bytes
    }

    /// The uncompressed bytes of all chunks of all xorbs, as the footer states them.
    pub fn stored_bytes(&self) -> u64
        ensures { result ≡ self.now.metadata.stored_bytes }
    {
        self.metadata.stored_bytes
    }

    /// The key of the chunk hashes; none if it is zero.
    pub fn chunk_hmac_key(&self) -> Option<HMACKey>
        ensures { key_of self.now.metadata result }
    {
        let key = self.metadata.chunk_hash_hmac_key;
        if key == HMACKey::default() {
            None
        } else {
            Some(key)
        }
    }
}

/// The number of rows from one offset to another. `MalformedData(SectionPlace)` if it is not a whole number.
#[tactic(auto, unfolding(crate::specs::Sections::row_count))]
pub fn row_count(from: u64, to: u64) -> Result<u64, StoreError>
    ensures exact { result ≡ row_count from to }
    ensures error { IfErr result (λ e. e ≡ StoreError.MalformedData Reason.SectionPlace) }
{
    let count = to.saturating_sub(from) / 48;
    if !follows(to, from, 48, count) {
        return Err(StoreError::MalformedData(Reason::SectionPlace));
    }
    Ok(count)
}

/// Reads the file section.
pub fn files<R: ReadAt>(
    alloc: Global,
    reader: &mut R,
    f: &MDBShardFileFooter,
) -> Result<Vec<MDBFileInfo>, StoreError>
    ensures exact { R.tells reader.old ≡ true → GivesUnlessFault (λ v. v.items) result (files_in f.now (R.bytes reader.old)) }
    ensures form { IfOk result (λ v. AreRecords file_record_hash IsFile None v.items) }
    ensures few { IfOk result (λ v. length (file_section v.items) < 2 ^ 32) }
    ensures errors { IfErr result IsShardError }
    ensures frame { ReadFrom R.bytes R.tells R.faults R.lent reader.old reader.new (IsErrOf result (StoreError.Io Place.Input)) }
{
    let count = row_count(f.file_info_offset, f.xorb_info_offset)?;
    match rows_at(alloc, reader, f.file_info_offset, count) {
        Ok(bytes) => records_at(alloc, &bytes, 0, count as u32),
        Err(refusal) => Err(refusal),
    }
}

/// Reads the xorb section.
pub fn blocks<R: ReadAt>(
    alloc: Global,
    reader: &mut R,
    f: &MDBShardFileFooter,
) -> Result<Vec<MDBXorbInfo>, StoreError>
    ensures exact { R.tells reader.old ≡ true → GivesUnlessFault (λ v. v.items) result (blocks_in f.now (R.bytes reader.old)) }
    ensures form { IfOk result (λ v. AreRecords xorb_record_hash IsXorb None v.items) }
    ensures few { IfOk result (λ v. length (xorb_section v.items) < 2 ^ 32) }
    ensures errors { IfErr result IsShardError }
    ensures frame { ReadFrom R.bytes R.tells R.faults R.lent reader.old reader.new (IsErrOf result (StoreError.Io Place.Input)) }
{
    let count = row_count(f.xorb_info_offset, f.file_lookup_offset)?;
    match rows_at(alloc, reader, f.xorb_info_offset, count) {
        Ok(bytes) => records_at(alloc, &bytes, 0, count as u32),
        Err(refusal) => Err(refusal),
    }
}

/// Reads the header and the footer of a shard of `len` bytes.
fn load<R: ReadAt>(reader: &mut R, len: u64) -> Result<MDBShardInfo, StoreError>
    ensures exact { R.tells reader.old ≡ true → len ≡ length (R.bytes reader.old) → GivesUnlessFault (λ info. info) result (info_at (R.bytes reader.old)) }
    ensures errors { IfErr result IsInputError }
    ensures frame { ReadFrom R.bytes R.tells R.faults R.lent reader.old reader.new (IsErrOf result (StoreError.Io Place.Input)) }
{
    read_header(reader, len)?;
    let metadata = read_footer(reader, len)?;
    Ok(MDBShardInfo {
        header: HEADER,
        metadata,
    })
}

/// Checks the header of a shard of `len` bytes, and that there is room for a footer after it.
fn read_header<R: ReadAt>(reader: &mut R, len: u64) -> Result<(), StoreError>
    ensures exact { R.tells reader.old ≡ true → len ≡ length (R.bytes reader.old) → GivesUnlessFault (λ _. tt) result (shard_header_at (R.bytes reader.old)) }
    ensures long { OnOk result (248 ≤ len) }
    ensures errors { IfErr result IsInputError }
    ensures frame { ReadFrom R.bytes R.tells R.faults R.lent reader.old reader.new (IsErrOf result (StoreError.Io Place.Input)) }
{
    let mut room = [0; 48];
    let (first, _) = room.split_at_mut(len.min(48) as usize);
    fill(reader, 0, first)?;
    header_of_first(len, first)
}

/// Reads the footer of a shard of `len` bytes.
fn read_footer<R: ReadAt>(reader: &mut R, len: u64) -> Result<MDBShardFileFooter, StoreError>
    requires { 248 ≤ len }
    ensures exact { R.tells reader.old ≡ true → len ≡ length (R.bytes reader.old) → GivesUnlessFault (λ f. f) result (shard_footer_at (R.bytes reader.old)) }
    ensures errors { IfErr result IsInputError }
    ensures frame { ReadFrom R.bytes R.tells R.faults R.lent reader.old reader.new (IsErrOf result (StoreError.Io Place.Input)) }
{
    let mut last = [0; 200];
    fill(reader, len - FOOTER_SIZE, &mut last)?;
    footer_of_last(len, &last)
}
