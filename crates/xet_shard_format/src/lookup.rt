//! Encoding of the lookup tables of a shard, and its totals.

ghost use Rattle.std.specs.Prelude.{◌≡◌, ◌<◌, ◌^◌, ◌++◌, IfOk, OnOk, length, map};
ghost use Rattle.xet_shard_format.specs.Records.{section, segment_bytes, xorb_section};
ghost use Rattle.xet_shard_format.specs.Sorted.{sorted};
ghost use Rattle.xet_shard_format.specs.Lookups.{chunk_items, chunks_from, flat_place, flat_places, heads_from, record_items_bytes, left_in, place_cmp, chunk_item_bytes, lookup_rows_from, chunk_items_bytes};
ghost use Rattle.xet_shard_format.specs.Encoding.{materialized, stored};

use crate::record::{MDBFileInfo, MDBXorbInfo, XorbChunkSequenceEntry};
use crate::section::{Lends, Record};
use std::alloc::{AllocError, Global};

/// An item of the file or the xorb lookup table: the first word of a hash, and the row of its record's
/// header.
pub type RecordItem = (u64, u32);

/// An item of the chunk lookup table: the first word of a chunk hash, the row of its xorb's header, and the
/// chunk's index in the xorb.
pub type ChunkItem = (u64, (u32, u32));

/// Appends the lookup table of these records. The caller ensures that their section has fewer than 2^32 rows.
pub fn push_heads<R: Record, T: Lends<R>>(
    encoding: &mut Vec<u8>,
    records: &[T],
) -> Result<(), AllocError>
    requires { length (section R.rows_of (map T.lent records.now)) < 2 ^ 32 }
    ensures { OnOk result (encoding.new.items ≡ encoding.old.items ++ record_items_bytes (heads_from R.hash_of R.rows_of 0 (map T.lent records.now))) }
{
    let mut row: u32 = 0;
    for item in records {
        let record = item.lend();
        encoding.extend_from_slice(&record.hash().word(0).to_le_bytes())?;
        encoding.extend_from_slice(&row.to_le_bytes())?;
        row += record.num_rows();
    }
    Ok(())
}

/// Appends the lookup table of these records if `stands`; otherwise it is omitted.
pub fn push_standing_heads<R: Record, T: Lends<R>>(
    encoding: &mut Vec<u8>,
    stands: bool,
    records: &[T],
) -> Result<(), AllocError>
    requires { length (section R.rows_of (map T.lent records.now)) < 2 ^ 32 }
    ensures { OnOk result (encoding.new.items ≡ encoding.old.items ++ record_items_bytes (left_in stands (heads_from R.hash_of R.rows_of 0 (map T.lent records.now)))) }
{
    if stands {
        push_heads::<R, T>(encoding, records)
    } else {
        Ok(())
    }
}

/// Appends the chunk lookup table of these xorbs if `stands`; otherwise it is omitted.
pub fn push_standing_places<T: Lends<MDBXorbInfo>>(
    alloc: Global,
    encoding: &mut Vec<u8>,
    stands: bool,
    blocks: &[T],
) -> Result<(), AllocError>
    requires { length (xorb_section (map T.lent blocks.now)) < 2 ^ 32 }
    ensures { OnOk result (encoding.new.items ≡ encoding.old.items ++ chunk_items_bytes (left_in stands (chunk_items (map T.lent blocks.now)))) }
{
    if stands {
        push_places::<T>(alloc, encoding, blocks)
    } else {
        Ok(())
    }
}

/// Appends the chunk lookup table of these xorbs, sorted by word, row and index.
pub fn push_places<T: Lends<MDBXorbInfo>>(
    alloc: Global,
    encoding: &mut Vec<u8>,
    blocks: &[T],
) -> Result<(), AllocError>
    requires { length (xorb_section (map T.lent blocks.now)) < 2 ^ 32 }
    ensures { OnOk result (encoding.new.items ≡ encoding.old.items ++ chunk_items_bytes (chunk_items (map T.lent blocks.now))) }
{
    let places = chunk_places(alloc, blocks)?;
    for place in &places {
        push_place(encoding, place)?;
    }
    Ok(())
}

/// The chunk lookup table of these xorbs, sorted by word, row and index.
pub fn chunk_places<T: Lends<MDBXorbInfo>>(
    alloc: Global,
    blocks: &[T],
) -> Result<Vec<ChunkItem>, AllocError>
    requires { length (xorb_section (map T.lent blocks.now)) < 2 ^ 32 }
    ensures { IfOk result (λ places. flat_places places.items ≡ chunk_items (map T.lent blocks.now)) }
{
    let found = places(alloc, blocks)?;
    in_order(found)
}

/// The items of all chunks, in the order of the xorbs.
fn places<T: Lends<MDBXorbInfo>>(alloc: Global, blocks: &[T]) -> Result<Vec<ChunkItem>, AllocError>
    requires { length (xorb_section (map T.lent blocks.now)) < 2 ^ 32 }
    ensures { IfOk result (λ places. flat_places places.items ≡ chunks_from 0 (map T.lent blocks.now)) }
{
    let mut found = Vec::new(alloc);
    let mut row: u32 = 0;
    for item in blocks {
        let block = item.lend();
        push_chunks(&mut found, block.chunks.as_slice(), row)?;
        row += block.num_rows();
    }
    Ok(found)
}

/// Appends the items of a xorb's chunks. The xorb's header is in row `row`.
fn push_chunks(
    found: &mut Vec<ChunkItem>,
    chunks: &[XorbChunkSequenceEntry],
    row: u32,
) -> Result<(), AllocError>
    requires { length chunks.now < 2 ^ 32 }
    ensures { OnOk result (flat_places found.new.items ≡ flat_places found.old.items ++ lookup_rows_from row 0 chunks.now) }
{
    let mut place: u32 = 0;
    for chunk in chunks {
        found.push((chunk.chunk_hash.word(0), (row, place)))?;
        place += 1;
    }
    Ok(())
}

/// Sorts the items by word, row and index.
fn in_order(mut places: Vec<ChunkItem>) -> Result<Vec<ChunkItem>, AllocError>
    ensures { IfOk result (λ ordered. flat_places ordered.items ≡ sorted place_cmp (flat_places places.items)) }
{
    places.sort()?;
    Ok(places)
}

/// Appends the encoding of an item of the chunk lookup table.
fn push_place(encoding: &mut Vec<u8>, place: &ChunkItem) -> Result<(), AllocError>
    ensures { OnOk result (encoding.new.items ≡ encoding.old.items ++ chunk_item_bytes (flat_place place.now)) }
{
    encoding.extend_from_slice(&place.0.to_le_bytes())?;
    encoding.extend_from_slice(&place.1.0.to_le_bytes())?;
    encoding.extend_from_slice(&place.1.1.to_le_bytes())?;
    Ok(())
}

/// The uncompressed bytes of all segments of these files. The caller ensures that the sum is below 2^64.
pub fn materialized<T: Lends<MDBFileInfo>>(files: &[T]) -> u64
    requires { materialized (map T.lent files.now) < 2 ^ 64 }
    ensures { result ≡ materialized (map T.lent files.now) }
{
    let mut total: u64 = 0;
    for item in files {
        total += file_bytes(item.lend());
    }
    total
}

/// The uncompressed bytes of all segments of a file.
#[tactic(auto, using(crate::specs::theorems::Steps::sum_step))]
fn file_bytes(file: &MDBFileInfo) -> u64
    requires { segment_bytes file.now.segments < 2 ^ 64 }
    ensures { result ≡ segment_bytes file.now.segments }
{
    let mut total: u64 = 0;
    for segment in file.segments.as_slice() {
        total += segment.unpacked_segment_bytes as u64;
    }
    total
}

/// The uncompressed bytes of all chunks, as the headers of these xorbs state them. The caller ensures that
/// the sum is below 2^64.
pub fn stored<T: Lends<MDBXorbInfo>>(blocks: &[T]) -> u64
    requires { stored (map T.lent blocks.now) < 2 ^ 64 }
    ensures { result ≡ stored (map T.lent blocks.now) }
{
    let mut total: u64 = 0;
    for item in blocks {
        total += item.lend().metadata.num_bytes_in_xorb as u64;
    }
    total
}
