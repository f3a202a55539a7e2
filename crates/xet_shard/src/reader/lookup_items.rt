//! Items of the lookup tables: decoded from bytes, or made from records.

ghost use Rattle.std.specs.Prelude.{◌≡◌, ◌≤◌, ◌<◌, ◌*◌, ◌^◌, IfOk, length};
ghost use Rattle.xet_shard_format.specs.Lookups.{flat_places, heads_from};
ghost use Rattle.xet_shard_format.specs.Records.{section, xorb_section};
ghost use Rattle.xet_shard.specs.Sections.{heads_in, heads_of, places_in};

use std::alloc::{AllocError, Global};
use xet_codec::{half_word, word};
use xet_shard_format::lookup::{ChunkItem, RecordItem};
use xet_shard_format::section::Record;
use xet_shard_format::{MDBXorbInfo, XorbChunkSequenceHeader};

/// Decodes `count` items of 12 bytes.
pub fn heads_in(alloc: Global, bytes: &[u8], count: u64) -> Result<Vec<RecordItem>, AllocError>
    requires { 12 * count ≤ length bytes.now }
    ensures { IfOk result (λ heads. heads.items ≡ heads_in count bytes.now) }
{
    let mut found = Vec::with_capacity(alloc, count as usize)?;
    let mut rest = bytes;
    for _done in 0..count {
        found.push((word(rest, 0), half_word(rest, 8)))?;
        let (_, behind) = rest.split_at(12);
        rest = behind;
    }
    Ok(found)
}

/// Decodes `count` items of 16 bytes.
pub fn places_in(alloc: Global, bytes: &[u8], count: u64) -> Result<Vec<ChunkItem>, AllocError>
    requires { 16 * count ≤ length bytes.now }
    ensures { IfOk result (λ places. flat_places places.items ≡ places_in count bytes.now) }
{
    let mut found = Vec::with_capacity(alloc, count as usize)?;
    let mut rest = bytes;
    for _done in 0..count {
        found.push((word(rest, 0), (half_word(rest, 8), half_word(rest, 12))))?;
        let (_, behind) = rest.split_at(16);
        rest = behind;
    }
    Ok(found)
}

/// The lookup items of these records.
pub fn record_items<X: Record>(alloc: Global, records: &[X]) -> Result<Vec<RecordItem>, AllocError>
    requires { length (section X.rows_of records.now) < 2 ^ 32 }
    ensures { IfOk result (λ items. items.items ≡ heads_from X.hash_of X.rows_of 0 records.now) }
{
    let mut found = Vec::with_capacity(alloc, records.len())?;
    let mut row: u32 = 0;
    for record in records {
        found.push((record.hash().word(0), row))?;
        row += record.num_rows();
    }
    Ok(found)
}

/// The header of each of these xorbs, with its row.
pub fn heads_of(
    alloc: Global,
    blocks: &[MDBXorbInfo],
) -> Result<Vec<(XorbChunkSequenceHeader, u64)>, AllocError>
    requires { length (xorb_section blocks.now) < 2 ^ 32 }
    ensures { IfOk result (λ heads. heads.items ≡ heads_of 0 blocks.now) }
{
    let mut found = Vec::with_capacity(alloc, blocks.len())?;
    let mut row: u64 = 0;
    for block in blocks {
        found.push((block.metadata, row))?;
        row += block.num_rows() as u64;
    }
    Ok(found)
}
