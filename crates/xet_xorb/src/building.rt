//! Construction of xorbs: encoded chunks, with or without a footer.

ghost use Rattle.std.specs.Prelude.{◌≡◌, ◌⊎◌, ◌<◌, ◌≤◌, ◌+◌, ◌*◌, ◌^◌, ◌++◌, [], Err, true, IfErr, IfOk, IsOkUnless, OnOk, length, map};
ghost use Rattle.std.specs.List.{AllByRecursion, flat_map};
ghost use Rattle.xet_hash.specs.Merkle.{leaves_of, xorb_hash};
ghost use Rattle.xet_hash.specs.declared.error.StoreError.{StoreError};
ghost use Rattle.xet_hash.specs.declared.error.StoreError.TheVariants.{OutOfMemory};
ghost use Rattle.xet_xorb_chunk.specs.Scheme.{compressed};
ghost use Rattle.xet_xorb_chunk.specs.ChunkEncoding.{encoded_chunk};
ghost use Rattle.xet_xorb.specs.Building.{built_of, ending};
ghost use Rattle.xet_xorb.specs.Raw.{IsRaw, raw_leaves};
ghost use Rattle.xet_xorb.specs.Xorb.{IsXorbEncoding};

use crate::footers::new_footer;
use crate::object::XorbObject;
use crate::raw::RawXorbData;
use bytes::Bytes;
use std::alloc::Global;
use xet_base::Items;
use xet_hash::{MerkleHash, StoreError};
use xet_io::MemorySink;
use xet_shard_format::MDBXorbInfo;
use xet_xorb_chunk::{CompressionScheme, XORB_CHUNK_HEADER_LENGTH, serialize_chunk};

/// An encoded xorb, with or without a footer.
#[derive(Debug, Drop)]
pub struct SerializedXorbObject {
    /// The encoding.
    pub serialized_data: Items<u8>,
    /// Xorb hash.
    pub hash: MerkleHash,
    /// Number of uncompressed bytes of all chunks.
    pub raw_num_bytes: u64,
    /// Number of chunks.
    pub num_chunks: usize,
    /// Offset of the footer in the encoding, or none if there is no footer.
    pub footer_start: Option<u64>,
}

impl SerializedXorbObject {
    /// Encodes a raw xorb: its chunks, uncompressed, and if `footer` is set a footer of version 1 and its
    /// length. With a footer the result is a well-formed xorb, if there is a chunk and the recorded hashes
    /// are those of the chunks.
    ///
    /// The memory for the encoding is allocated once. The only error is `OutOfMemory`.
    pub fn from_xorb(alloc: Global, xorb: RawXorbData, footer: bool) -> Result<Self, StoreError>
        requires { IsRaw xorb }
        ensures built { IfOk result (λ made. made ≡ built_of xorb footer) }
        ensures grammar { footer ≡ true → 0 < length xorb.parts → raw_leaves xorb ≡ leaves_of xorb.parts → xorb.xorb_info.metadata.xorb_hash ≡ xorb_hash (leaves_of xorb.parts)
            → IfOk result (λ made. IsXorbEncoding made.serialized_data xorb.parts) }
        ensures memory { IsOkUnless result StoreError.OutOfMemory }
    {
        SerializedXorbObject::from_xorb_in(alloc, Vec::new(alloc), xorb, footer)
    }

    /// Encodes a raw xorb as `from_xorb` does, into the memory of `buffer`, whose bytes are dropped. It is
    /// enlarged once, to the length of the encoding, if that does not fit. The only error is `OutOfMemory`.
    pub fn from_xorb_in(
        alloc: Global,
        mut buffer: Vec<u8>,
        xorb: RawXorbData,
        footer: bool,
    ) -> Result<Self, StoreError>
        requires { IsRaw xorb }
        ensures built { IfOk result (λ made. made ≡ built_of xorb footer) }
        ensures grammar { footer ≡ true → 0 < length xorb.parts → raw_leaves xorb ≡ leaves_of xorb.parts → xorb.xorb_info.metadata.xorb_hash ≡ xorb_hash (leaves_of xorb.parts)
            → IfOk result (λ made. IsXorbEncoding made.serialized_data xorb.parts) }
        ensures memory { IsOkUnless result StoreError.OutOfMemory }
    {
        let parts = xorb.parts.as_slice();
        let plain = xorb.num_bytes();
        let stored = plain + XORB_CHUNK_HEADER_LENGTH * parts.len();
        let room = stored + ending_length(parts.len(), footer);
        buffer.clear();
        buffer.reserve_exact(room)?;
        let mut sink = MemorySink::from_vec(buffer);
        write_parts(parts, &mut sink)?;
        write_ending(alloc, &xorb, footer, &mut sink)?;
        Ok(SerializedXorbObject {
            serialized_data: Items::from_vec(sink.into_bytes()),
            hash: xorb.hash(),
            raw_num_bytes: plain as u64,
            num_chunks: parts.len(),
            footer_start: footer.then_some(stored as u64),
        })
    }

    /// Encodes a raw xorb under a scheme: as `from_xorb` does for `None` and `Auto`. The other schemes fail
    /// with `CompressionError` of their number.
    pub fn from_xorb_with_compression(
        alloc: Global,
        xorb: RawXorbData,
        scheme: CompressionScheme,
        footer: bool,
    ) -> Result<SerializedXorbObject, StoreError>
        requires { IsRaw xorb }
        ensures built { IfOk result (λ made. made ≡ built_of xorb footer) }
        ensures grammar { footer ≡ true → 0 < length xorb.parts → raw_leaves xorb ≡ leaves_of xorb.parts → xorb.xorb_info.metadata.xorb_hash ≡ xorb_hash (leaves_of xorb.parts)
            → IfOk result (λ made. IsXorbEncoding made.serialized_data xorb.parts) }
        ensures scheme { (e : StoreError) → compressed scheme [] ≡ Err e → result ≡ Err e }
        ensures errors { IfErr result (λ e. (compressed scheme [] ≡ Err e) ⊎ (e ≡ OutOfMemory)) }
    {
        scheme.compress_from_slice(&[])?;
        SerializedXorbObject::from_xorb(alloc, xorb, footer)
    }
}

/// Number of bytes after `count` stored chunks: those of the footer and of its length.
fn ending_length(count: usize, footer: bool) -> usize
    requires { count ≤ 65536 }
    ensures { result ≤ 96 + 40 * count }
{
    if footer { 96 + 40 * count } else { 0 }
}

/// Writes each part as a stored chunk. The only error is `OutOfMemory`.
fn write_parts(parts: &[Bytes], sink: &mut MemorySink) -> Result<(), StoreError>
    requires { AllByRecursion (λ p. length p < 2 ^ 24) parts.now }
    ensures written { OnOk result (sink.new ≡ sink.old ++ flat_map encoded_chunk parts.now) }
    ensures memory { IsOkUnless result StoreError.OutOfMemory }
{
    for part in parts {
        serialize_chunk(part.as_slice(), sink, CompressionScheme::None)?;
    }
    Ok(())
}

/// Writes the footer of the recorded chunks and its length, if `footer` is set. The only error is
/// `OutOfMemory`.
fn write_ending(
    alloc: Global,
    xorb: &RawXorbData,
    footer: bool,
    sink: &mut MemorySink,
) -> Result<(), StoreError>
    requires { IsRaw xorb.now }
    ensures written { OnOk result (sink.new ≡ sink.old ++ ending footer xorb.now.xorb_info.metadata.xorb_hash (raw_leaves xorb.now)) }
    ensures memory { IsOkUnless result StoreError.OutOfMemory }
{
    if !footer {
        return Ok(());
    }
    let leaves = listed_leaves(alloc, &xorb.xorb_info)?;
    let info = new_footer(alloc, &xorb.hash(), &leaves, [0; 16])?;
    XorbObject::serialize_given_info(sink, info)?;
    Ok(())
}

/// The (hash, length) pair of each recorded chunk. The only error is `OutOfMemory`.
fn listed_leaves(
    alloc: Global,
    xorb_info: &MDBXorbInfo,
) -> Result<Vec<(MerkleHash, u64)>, StoreError>
    ensures leaves { IfOk result (λ leaves. leaves.items ≡ map (λ c. (c.chunk_hash, c.unpacked_segment_bytes)) xorb_info.now.chunks) }
    ensures memory { IsOkUnless result StoreError.OutOfMemory }
{
    let chunks = xorb_info.chunks.as_slice();
    let mut leaves = Vec::with_capacity(alloc, chunks.len())?;
    for chunk in chunks {
        leaves.push((chunk.chunk_hash, u64::from(chunk.unpacked_segment_bytes)))?;
    }
    Ok(leaves)
}
