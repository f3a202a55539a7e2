//! The map from chunk hashes to their last positions in a shard in memory.

ghost use Rattle.std.specs.Prelude.{◌≡◌, ◌<◌, ◌≤◌, ◌^◌, ℕ, List, [], None, IsOk, OnErr, OnOk, length, nat_eq};
ghost use Rattle.std.specs.Cmp.Lexicographic.{pointwise};
ghost use Rattle.indexmap.specs.IndexMap.{get, spare, values};
ghost use Rattle.xet_shard.specs.Held.{DifferBy, Keyed, with_last};
ghost use Rattle.xet_shard.specs.LastPlaces.{HasPlaces};
ghost use Rattle.xet_shard.specs.internal.LastPlaces.{noted};
ghost use Rattle.xet_shard_format.specs.Records.{xorb_record_hash, xorb_section};

use super::put_last;
use indexmap::IndexMap;
use std::alloc::AllocError;
use std::mem;
use xet_hash::MerkleHash;
use xet_shard_format::{MDBXorbInfo, XorbChunkSequenceEntry};

/// For each chunk hash: the index of the last xorb that has it, and its last index in this xorb.
pub(super) type LastPlaces = IndexMap<MerkleHash, (u32, u32)>;

/// Adds a xorb at the end, removes one of an equal hash, and updates the map, with the memory of `spare` if it has to be
/// built anew.
pub(super) fn put_block(
    blocks: &mut IndexMap<MerkleHash, MDBXorbInfo>,
    places: &mut LastPlaces,
    spare: &mut LastPlaces,
    block: MDBXorbInfo,
) -> Result<(), AllocError>
    requires keyed { Keyed xorb_record_hash blocks.old.entries }
    requires differ { DifferBy xorb_record_hash (values blocks.old) }
    requires places { HasPlaces places.old.entries (values blocks.old) }
    requires few { length (xorb_section (with_last xorb_record_hash (values blocks.old) block)) < 2 ^ 32 }
    ensures keyed { Keyed xorb_record_hash blocks.new.entries }
    ensures places { HasPlaces places.new.entries (values blocks.new) }
    ensures put { OnOk result (values blocks.new ≡ with_last xorb_record_hash (values blocks.old) block) }
    ensures kept { OnErr result (values blocks.new ≡ values blocks.old) }
{
    if blocks.contains_key(&block.hash()) {
        put_again(blocks, places, spare, block)
    } else {
        put_new(blocks, places, block)
    }
}

/// Adds a xorb whose hash is new. It is then the last xorb, so its chunks replace equal ones in the map.
fn put_new(
    blocks: &mut IndexMap<MerkleHash, MDBXorbInfo>,
    places: &mut LastPlaces,
    block: MDBXorbInfo,
) -> Result<(), AllocError>
    requires keyed { Keyed xorb_record_hash blocks.old.entries }
    requires differ { DifferBy xorb_record_hash (values blocks.old) }
    requires places { HasPlaces places.old.entries (values blocks.old) }
    requires few { length (xorb_section (with_last xorb_record_hash (values blocks.old) block)) < 2 ^ 32 }
    requires absent { get (pointwise nat_eq) blocks.old (xorb_record_hash block) ≡ None }
    ensures keyed { Keyed xorb_record_hash blocks.new.entries }
    ensures places { HasPlaces places.new.entries (values blocks.new) }
    ensures put { OnOk result (values blocks.new ≡ with_last xorb_record_hash (values blocks.old) block) }
    ensures kept { OnErr result (values blocks.new ≡ values blocks.old) }
{
    let chunks = block.chunks.as_slice();
    blocks.reserve(1)?;
    places.reserve(chunks.len())?;
    note_chunks(places, blocks.len() as u32, chunks)?;
    match blocks.insert(block.hash(), block) {
        Ok(_) => Ok(()),
        Err(failed) => Err(failed.into()),
    }
}

/// Adds a xorb at the end, and removes the one of its hash. The map is built anew, since chunks of the
/// removed xorb may also be in other xorbs; it allocates nothing if `spare` has room for the chunks of both.
fn put_again(
    blocks: &mut IndexMap<MerkleHash, MDBXorbInfo>,
    places: &mut LastPlaces,
    spare: &mut LastPlaces,
    block: MDBXorbInfo,
) -> Result<(), AllocError>
    requires keyed { Keyed xorb_record_hash blocks.old.entries }
    requires differ { DifferBy xorb_record_hash (values blocks.old) }
    requires places { HasPlaces places.old.entries (values blocks.old) }
    requires few { length (xorb_section (with_last xorb_record_hash (values blocks.old) block)) < 2 ^ 32 }
    ensures keyed { Keyed xorb_record_hash blocks.new.entries }
    ensures places { HasPlaces places.new.entries (values blocks.new) }
    ensures put { OnOk result (values blocks.new ≡ with_last xorb_record_hash (values blocks.old) block) }
    ensures kept { OnErr result (values blocks.new ≡ values blocks.old) }
{
    spare.clear();
    spare.reserve(places.len())?;
    note_all(spare, blocks, &block)?;
    put_last(blocks, block)?;
    mem::swap(places, spare);
    Ok(())
}

/// Adds the chunks of all xorbs to an empty map, with `block` at the end in place of the one of its hash.
fn note_all(
    found: &mut LastPlaces,
    blocks: &IndexMap<MerkleHash, MDBXorbInfo>,
    block: &MDBXorbInfo,
) -> Result<(), AllocError>
    requires empty { found.old.entries ≡ [] }
    requires few { length (xorb_section (with_last xorb_record_hash (values blocks.now) block.now)) < 2 ^ 32 }
    ensures { OnOk result (HasPlaces found.new.entries (with_last xorb_record_hash (values blocks.now) block.now)) }
{
    let hash = block.hash();
    let mut index: u32 = 0;
    for other in blocks.values() {
        if other.hash() != hash {
            note_chunks(found, index, other.chunks.as_slice())?;
            index += 1;
        }
    }
    note_chunks(found, index, block.chunks.as_slice())?;
    Ok(())
}

/// Adds the chunks of the xorb with this index to the map.
fn note_chunks(
    places: &mut LastPlaces,
    index: u32,
    chunks: &[XorbChunkSequenceEntry],
) -> Result<(), AllocError>
    requires { length chunks.now < 2 ^ 32 }
    ensures noted { OnOk result ((h : List ℕ) → get (pointwise nat_eq) places.new h ≡ noted index chunks.now h (get (pointwise nat_eq) places.old h)) }
    ensures room { length chunks.now ≤ spare places.old → IsOk result }
{
    let mut place: u32 = 0;
    for chunk in chunks {
        places.insert(chunk.chunk_hash, (index, place))?;
        place += 1;
    }
    Ok(())
}
