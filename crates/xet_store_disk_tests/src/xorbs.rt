//! The bytes of xorbs.

ghost use Rattle.std.specs.Prelude.{map};
ghost use Rattle.xet_xorb_chunk.specs.Chunks.{bytes_of_chunk};
ghost use Rattle.xet_xorb.specs.Raw.{ArePartsOfXorb};

use std::alloc::Global;
use xet_hash::StoreError;
use xet_xorb::{RawXorbData, SerializedXorbObject};
use xet_xorb_chunk::Chunk;

/// The bytes of the xorb of these chunks.
pub(crate) fn xorb_bytes(alloc: Global, chunks: &[Chunk]) -> Result<Vec<u8>, StoreError>
    requires { ArePartsOfXorb (map bytes_of_chunk chunks.now) }
{
    let raw = RawXorbData::from_chunks(alloc, chunks, Vec::new(alloc))?;
    let built = SerializedXorbObject::from_xorb(alloc, raw, true)?;
    Ok(built.serialized_data.into_vec())
}
