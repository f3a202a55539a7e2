//! Reading of the lookup tables from any reader, each on its own.

ghost use Rattle.std.specs.Prelude.{◌≡◌, ◌≢◌, true, IfErr, IsErrOf};
ghost use Rattle.xet_shard_format.specs.Lookups.{flat_places};
ghost use Rattle.xet_shard.specs.Queries.{file_items_from};
ghost use Rattle.xet_codec.specs.Parsing.{GivesUnlessFault};
ghost use Rattle.xet_shard_format.specs.Reading.{IsShardError};
ghost use Rattle.xet_shard.specs.Sections.{chunk_lookup_in, xorb_lookup_in};
ghost use Rattle.xet_io.specs.Frame.{ReadFrom};

use crate::info::MDBShardInfo;
use crate::reader::byte_ranges::piece;
use crate::reader::lookup_items::{heads_in, places_in, record_items};
use crate::reader::sections::{blocks, files};
use std::alloc::Global;
use xet_hash::{Place, StoreError};
use xet_io::ReadAt;
use xet_shard_format::MDBShardFileFooter;
use xet_shard_format::lookup::{ChunkItem, RecordItem, chunk_places};

impl MDBShardInfo {
    /// The xorb lookup table: for each xorb the first word of its hash, and the row of its header. An omitted
    /// table is made from the xorbs; a stored one is not compared with them. If bytes are malformed, the
    /// error is that of the first check that fails. It is `Io(Input)` if the reader failed.
    pub fn read_full_xorb_lookup<R: ReadAt>(
        &self,
        alloc: Global,
        reader: &mut R,
    ) -> Result<Vec<(u64, u32)>, StoreError>
        ensures exact { R.tells reader.old ≡ true → GivesUnlessFault (λ v. v.items) result (xorb_lookup_in self.now.metadata (R.bytes reader.old)) }
        ensures errors { IfErr result IsShardError }
        ensures frame { ReadFrom R.bytes R.tells R.faults R.lent reader.old reader.new (IsErrOf result (StoreError.Io Place.Input)) }
    {
        if self.metadata.xorb_lookup_num_entry == 0 {
            made_xorb_lookup(alloc, reader, &self.metadata)
        } else {
            kept_xorb_lookup(alloc, reader, &self.metadata)
        }
    }

    /// The chunk lookup table: for each chunk the first word of its hash, the row of its xorb's header, and
    /// its index in the xorb. An omitted table is made from the xorbs; a stored one is not compared with
    /// them. Errors are those of `read_full_xorb_lookup`.
    pub fn read_all_truncated_hashes<R: ReadAt>(
        &self,
        alloc: Global,
        reader: &mut R,
    ) -> Result<Vec<(u64, (u32, u32))>, StoreError>
        ensures exact { R.tells reader.old ≡ true → GivesUnlessFault (λ v. flat_places v.items) result (chunk_lookup_in self.now.metadata (R.bytes reader.old)) }
        ensures errors { IfErr result IsShardError }
        ensures frame { ReadFrom R.bytes R.tells R.faults R.lent reader.old reader.new (IsErrOf result (StoreError.Io Place.Input)) }
    {
        if self.metadata.chunk_lookup_num_entry == 0 {
            made_chunk_lookup(alloc, reader, &self.metadata)
        } else {
            kept_chunk_lookup(alloc, reader, &self.metadata)
        }
    }
}

/// The items of an omitted file lookup table.
pub fn made_file_lookup<R: ReadAt>(
    alloc: Global,
    reader: &mut R,
    f: &MDBShardFileFooter,
) -> Result<Vec<RecordItem>, StoreError>
    requires { f.now.file_lookup_num_entry ≡ 0 }
    ensures exact { R.tells reader.old ≡ true → GivesUnlessFault (λ v. v.items) result (file_items_from f.now 0 (R.bytes reader.old)) }
    ensures errors { IfErr result IsShardError }
    ensures frame { ReadFrom R.bytes R.tells R.faults R.lent reader.old reader.new (IsErrOf result (StoreError.Io Place.Input)) }
{
    let all = files(alloc, reader, f)?;
    let items = record_items(alloc, &all)?;
    Ok(items)
}

/// The items of an omitted xorb lookup table.
pub fn made_xorb_lookup<R: ReadAt>(
    alloc: Global,
    reader: &mut R,
    f: &MDBShardFileFooter,
) -> Result<Vec<RecordItem>, StoreError>
    requires { f.now.xorb_lookup_num_entry ≡ 0 }
    ensures exact { R.tells reader.old ≡ true → GivesUnlessFault (λ v. v.items) result (xorb_lookup_in f.now (R.bytes reader.old)) }
    ensures errors { IfErr result IsShardError }
    ensures frame { ReadFrom R.bytes R.tells R.faults R.lent reader.old reader.new (IsErrOf result (StoreError.Io Place.Input)) }
{
    let found = blocks(alloc, reader, f)?;
    let items = record_items(alloc, &found)?;
    Ok(items)
}

/// The items of a stored xorb lookup table.
fn kept_xorb_lookup<R: ReadAt>(
    alloc: Global,
    reader: &mut R,
    f: &MDBShardFileFooter,
) -> Result<Vec<RecordItem>, StoreError>
    requires { f.now.xorb_lookup_num_entry ≢ 0 }
    ensures exact { R.tells reader.old ≡ true → GivesUnlessFault (λ v. v.items) result (xorb_lookup_in f.now (R.bytes reader.old)) }
    ensures errors { IfErr result IsShardError }
    ensures frame { ReadFrom R.bytes R.tells R.faults R.lent reader.old reader.new (IsErrOf result (StoreError.Io Place.Input)) }
{
    let count = f.xorb_lookup_num_entry;
    let bytes = piece(alloc, reader, f.xorb_lookup_offset, 12, count)?;
    let items = heads_in(alloc, &bytes, count)?;
    Ok(items)
}

/// The items of an omitted chunk lookup table.
pub fn made_chunk_lookup<R: ReadAt>(
    alloc: Global,
    reader: &mut R,
    f: &MDBShardFileFooter,
) -> Result<Vec<ChunkItem>, StoreError>
    requires { f.now.chunk_lookup_num_entry ≡ 0 }
    ensures exact { R.tells reader.old ≡ true → GivesUnlessFault (λ v. flat_places v.items) result (chunk_lookup_in f.now (R.bytes reader.old)) }
    ensures errors { IfErr result IsShardError }
    ensures frame { ReadFrom R.bytes R.tells R.faults R.lent reader.old reader.new (IsErrOf result (StoreError.Io Place.Input)) }
{
    let found = blocks(alloc, reader, f)?;
    let items = chunk_places(alloc, &found)?;
    Ok(items)
}

/// The items of a stored chunk lookup table.
fn kept_chunk_lookup<R: ReadAt>(
    alloc: Global,
    reader: &mut R,
    f: &MDBShardFileFooter,
) -> Result<Vec<ChunkItem>, StoreError>
    requires { f.now.chunk_lookup_num_entry ≢ 0 }
    ensures exact { R.tells reader.old ≡ true → GivesUnlessFault (λ v. flat_places v.items) result (chunk_lookup_in f.now (R.bytes reader.old)) }
    ensures errors { IfErr result IsShardError }
    ensures frame { ReadFrom R.bytes R.tells R.faults R.lent reader.old reader.new (IsErrOf result (StoreError.Io Place.Input)) }
{
    let count = f.chunk_lookup_num_entry;
    let bytes = piece(alloc, reader, f.chunk_lookup_offset, 16, count)?;
    let items = places_in(alloc, &bytes, count)?;
    Ok(items)
}
