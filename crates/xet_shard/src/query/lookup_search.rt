//! Searches in the lookup tables. A stored table is bisected; an omitted one is made from the records.

ghost use Rattle.std.specs.List.{list_any};
ghost use Rattle.std.specs.Prelude.{◌≡◌, ◌≢◌, ◌==◌, true, nat_le, nat_lt, IfErr, IsErrOf};
ghost use Rattle.xet_shard.specs.Bisection.{AnswersAt};
ghost use Rattle.xet_shard_format.specs.Lookups.{flat_places};
ghost use Rattle.xet_shard.specs.Queries.{chunk_place, chunk_table, file_items_from, file_table, has_head, last_of, xorb_table};
ghost use Rattle.xet_codec.specs.Parsing.{GivesUnlessFault};
ghost use Rattle.xet_shard_format.specs.Reading.{IsShardError};
ghost use Rattle.xet_io.specs.Frame.{ReadFrom};

use crate::query::bisection::{Probe, bisecting_index};
use crate::reader::byte_ranges::{bytes_at, fill};
use crate::reader::lookup_items::heads_in;
use crate::reader::lookups::{made_chunk_lookup, made_file_lookup, made_xorb_lookup};
use std::alloc::Global;
use xet_codec::{half_word, word};
use xet_hash::{Place, StoreError};
use xet_io::ReadAt;
use xet_shard_format::MDBShardFileFooter;
use xet_shard_format::lookup::{ChunkItem, RecordItem};

/// The items of the file lookup table from the index that bisects it by the word `first` on, at most eight;
/// all items if the table is omitted.
pub fn file_items<R: ReadAt>(
    alloc: Global,
    reader: &mut R,
    f: &MDBShardFileFooter,
    first: u64,
) -> Result<Vec<RecordItem>, StoreError>
    ensures exact { R.tells reader.old ≡ true → AnswersAt (λ i. nat_lt i.0 first) (file_table f.now (R.bytes reader.old)) (λ v. v.items) result (λ index. file_items_from f.now index (R.bytes reader.old)) }
    ensures errors { IfErr result IsShardError }
    ensures frame { ReadFrom R.bytes R.tells R.faults R.lent reader.old reader.new (IsErrOf result (StoreError.Io Place.Input)) }
{
    if f.file_lookup_num_entry == 0 {
        made_file_lookup(alloc, reader, f)
    } else {
        kept_file_items(alloc, reader, f, first)
    }
}

/// The row and the index of the last chunk with the word `first`: the row of its xorb's header, and its index
/// in the xorb. None if there is no such chunk.
pub fn chunk_place<R: ReadAt>(
    alloc: Global,
    reader: &mut R,
    f: &MDBShardFileFooter,
    first: u64,
) -> Result<Option<(u32, u32)>, StoreError>
    ensures exact { R.tells reader.old ≡ true → AnswersAt (λ i. nat_le i.0 first) (chunk_table f.now (R.bytes reader.old)) (λ place. place) result (λ index. chunk_place f.now first index (R.bytes reader.old)) }
    ensures errors { IfErr result IsShardError }
    ensures frame { ReadFrom R.bytes R.tells R.faults R.lent reader.old reader.new (IsErrOf result (StoreError.Io Place.Input)) }
{
    if f.chunk_lookup_num_entry == 0 {
        made_chunk_place(alloc, reader, f, first)
    } else {
        kept_chunk_place(reader, f, first)
    }
}

/// Whether the header of a xorb is in row `row`.
pub fn has_head<R: ReadAt>(
    alloc: Global,
    reader: &mut R,
    f: &MDBShardFileFooter,
    row: u32,
) -> Result<bool, StoreError>
    ensures exact { R.tells reader.old ≡ true → AnswersAt (λ i. nat_lt i.1 row) (xorb_table f.now (R.bytes reader.old)) (λ there. there) result (λ index. has_head f.now row index (R.bytes reader.old)) }
    ensures errors { IfErr result IsShardError }
    ensures frame { ReadFrom R.bytes R.tells R.faults R.lent reader.old reader.new (IsErrOf result (StoreError.Io Place.Input)) }
{
    if f.xorb_lookup_num_entry == 0 {
        let items = made_xorb_lookup(alloc, reader, f)?;
        Ok(has_row(&items, row))
    } else {
        kept_head(reader, f, row)
    }
}

/// `file_items` for a stored table.
fn kept_file_items<R: ReadAt>(
    alloc: Global,
    reader: &mut R,
    f: &MDBShardFileFooter,
    first: u64,
) -> Result<Vec<RecordItem>, StoreError>
    requires { f.now.file_lookup_num_entry ≢ 0 }
    ensures exact { R.tells reader.old ≡ true → AnswersAt (λ i. nat_lt i.0 first) (file_table f.now (R.bytes reader.old)) (λ v. v.items) result (λ index. file_items_from f.now index (R.bytes reader.old)) }
    ensures errors { IfErr result IsShardError }
    ensures frame { ReadFrom R.bytes R.tells R.faults R.lent reader.old reader.new (IsErrOf result (StoreError.Io Place.Input)) }
{
    let at = f.file_lookup_offset;
    let count = f.file_lookup_num_entry;
    let index = bisecting_index(reader, at, 12, count, Probe::WordBelow(first))?;
    let few = (count - index).min(8);
    let bytes = bytes_at(alloc, reader, at + 12 * index, 12 * few)?;
    let items = heads_in(alloc, &bytes, few)?;
    Ok(items)
}

/// `chunk_place` for an omitted table.
fn made_chunk_place<R: ReadAt>(
    alloc: Global,
    reader: &mut R,
    f: &MDBShardFileFooter,
    first: u64,
) -> Result<Option<(u32, u32)>, StoreError>
    requires { f.now.chunk_lookup_num_entry ≡ 0 }
    ensures exact { R.tells reader.old ≡ true → GivesUnlessFault (λ place. place) result (chunk_place f.now first 0 (R.bytes reader.old)) }
    ensures errors { IfErr result IsShardError }
    ensures frame { ReadFrom R.bytes R.tells R.faults R.lent reader.old reader.new (IsErrOf result (StoreError.Io Place.Input)) }
{
    let items = made_chunk_lookup(alloc, reader, f)?;
    Ok(last_of(first, &items))
}

/// `chunk_place` for a stored table: the item before the bisecting index, if it has the word.
fn kept_chunk_place<R: ReadAt>(
    reader: &mut R,
    f: &MDBShardFileFooter,
    first: u64,
) -> Result<Option<(u32, u32)>, StoreError>
    requires { f.now.chunk_lookup_num_entry ≢ 0 }
    ensures exact { R.tells reader.old ≡ true → AnswersAt (λ i. nat_le i.0 first) (chunk_table f.now (R.bytes reader.old)) (λ place. place) result (λ index. chunk_place f.now first index (R.bytes reader.old)) }
    ensures errors { IfErr result IsShardError }
    ensures frame { ReadFrom R.bytes R.tells R.faults R.lent reader.old reader.new (IsErrOf result (StoreError.Io Place.Input)) }
{
    let at = f.chunk_lookup_offset;
    let count = f.chunk_lookup_num_entry;
    let index = bisecting_index(reader, at, 16, count, Probe::WordAtMost(first))?;
    if index == 0 {
        return Ok(None);
    }
    let mut item = [0; 16];
    fill(reader, at + 16 * (index - 1), &mut item)?;
    if word(&item, 0) != first {
        return Ok(None);
    }
    Ok(Some((half_word(&item, 8), half_word(&item, 12))))
}

/// `has_head` for a stored table: whether the item at the bisecting index has the row.
fn kept_head<R: ReadAt>(
    reader: &mut R,
    f: &MDBShardFileFooter,
    row: u32,
) -> Result<bool, StoreError>
    requires { f.now.xorb_lookup_num_entry ≢ 0 }
    ensures exact { R.tells reader.old ≡ true → AnswersAt (λ i. nat_lt i.1 row) (xorb_table f.now (R.bytes reader.old)) (λ there. there) result (λ index. has_head f.now row index (R.bytes reader.old)) }
    ensures errors { IfErr result IsShardError }
    ensures frame { ReadFrom R.bytes R.tells R.faults R.lent reader.old reader.new (IsErrOf result (StoreError.Io Place.Input)) }
{
    let (at, count) = (f.xorb_lookup_offset, f.xorb_lookup_num_entry);
    let index = bisecting_index(reader, at, 12, count, Probe::RowBelow(row))?;
    if index >= count {
        return Ok(false);
    }
    let mut item = [0; 12];
    fill(reader, at + 12 * index, &mut item)?;
    Ok(half_word(&item, 8) == row)
}

/// Whether an item of the xorb lookup table has this row.
fn has_row(items: &[RecordItem], row: u32) -> bool
    ensures { result ≡ list_any (λ i. i.1 == row) items.now }
{
    items.iter().any(|item| item.1 == row)
}

/// The row and the index of the last item with this word.
fn last_of(first: u64, items: &[ChunkItem]) -> Option<(u32, u32)>
    ensures { result ≡ last_of first (flat_places items.now) }
{
    let mut found = None;
    for item in items {
        if item.0 == first {
            found = Some(item.1);
        }
    }
    found
}
