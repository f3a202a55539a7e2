//! A reference encoder that writes xorbs from their parts. Tests compare built xorbs with it.

ghost use Rattle.std.specs.Prelude.{◌≡◌, ◌↔◌, ◌⊎◌, ◌+◌, ◌*◌, ◌≤◌, ◌++◌, [], ℕ, Err, true, IfErr, IfOk, IsErrOf, IsOkUnless, IsTrue, OnErr, OnOk, length, take};
ghost use Rattle.std.specs.List.{flat_map};
ghost use Rattle.xet_hash.specs.declared.error.Place.TheVariants.{Output};
ghost use Rattle.xet_hash.specs.declared.error.StoreError.{StoreError};
ghost use Rattle.xet_hash.specs.declared.error.StoreError.TheVariants.{Io, OutOfMemory};
ghost use Rattle.xet_codec.specs.Stops.{StopsWriting};
ghost use Rattle.xet_xorb_chunk.specs.Scheme.{compressed};
ghost use Rattle.xet_xorb_chunk.specs.ChunkEncoding.{encoded_chunk};
ghost use Rattle.xet_xorb.specs.Building.{built, built_of, no_spare};
ghost use Rattle.xet_xorb.specs.Footer.{V1};
ghost use Rattle.xet_xorb.specs.Object.{object_of};
ghost use Rattle.xet_xorb.specs.Raw.{IsRaw};
ghost use Rattle.xet_xorb_samples.specs.Samples.{AreAlike, AreBoundaries, leaves_from, parts_from};
ghost use Rattle.xet_xorb_samples.specs.internal.Samples.{DoRise};
ghost use Rattle.xet_xorb.specs.Xorb.{xorb_bytes};
ghost use Rattle.xet_io.specs.Frame.{Called};

use std::alloc::Global;
use xet_base::Items;
use xet_hash::{MerkleHash, StoreError};
use xet_io::{MemorySink, Sink};
use xet_xorb::{RawXorbData, SerializedXorbObject, XorbObject, new_footer, raw_xorb_to_vec};
use xet_xorb_chunk::{CompressionScheme, XORB_CHUNK_HEADER_LENGTH, serialize_chunk};

/// Bytes that a chunk adds to a xorb besides its content: header, hash, and two boundary offsets.
const MAX_PER_CHUNK: usize = 48;

/// Length of a footer without chunks, and of the length after it.
const EMPTY_FOOTER: usize = 96;

/// The (hash, length) pairs of chunks that are given by their hashes and end offsets. The only error is
/// `OutOfMemory`.
pub(crate) fn boundary_leaves(
    alloc: Global,
    chunks: &[(MerkleHash, u32)],
) -> Result<Vec<(MerkleHash, u64)>, StoreError>
    requires { DoRise chunks.now }
    ensures leaves { IfOk result (λ leaves. leaves.items ≡ leaves_from 0 chunks.now) }
    ensures memory { IsOkUnless result StoreError.OutOfMemory }
{
    let mut leaves = Vec::with_capacity(alloc, chunks.len())?;
    let mut start: u32 = 0;
    for chunk in chunks {
        leaves.push((chunk.0, (chunk.1 - start) as u64))?;
        start = chunk.1;
    }
    Ok(leaves)
}

/// Writes the parts of `bytes` between the offsets as stored chunks, and returns the number of bytes written.
/// The schemes that compress fail with `CompressionError` of their number. The other errors are `Io(Output)`
/// and `OutOfMemory`. After an error a prefix of the bytes was written.
fn write_parts<W: Sink>(
    sink: &mut W,
    bytes: &[u8],
    chunks: &[(MerkleHash, u32)],
    scheme: CompressionScheme,
) -> Result<usize, StoreError>
    requires { AreBoundaries bytes.now chunks.now }
    ensures count { IfOk result (λ count. count ≡ length (flat_map encoded_chunk (parts_from 0 chunks.now bytes.now))) }
    ensures written { W.tells sink.old ≡ true → OnOk result (W.written sink.new ≡ W.written sink.old ++ flat_map encoded_chunk (parts_from 0 chunks.now bytes.now)) }
    ensures prefix { W.tells sink.old ≡ true → OnErr result ((n : ℕ) × (W.written sink.new ≡ W.written sink.old ++ take n (flat_map encoded_chunk (parts_from 0 chunks.now bytes.now)))) }
    ensures errors { IfErr result (λ e. (compressed scheme [] ≡ Err e) ⊎ StopsWriting e) }
    ensures frame { Called W.tells W.faults sink.old sink.new (IsErrOf result (Io Output)) }
{
    let mut count = 0;
    let mut start = 0;
    for chunk in chunks {
        let end = chunk.1 as usize;
        count += serialize_chunk(&bytes[start..end], sink, scheme)?;
        start = end;
    }
    Ok(count)
}

/// Writes the xorb with this hash from its uncompressed bytes, and the hash and end offset of each chunk: the
/// stored chunks, the footer of version 1, and its length. Returns the footer with its length, the number of
/// bytes written, and the offset of the footer. The offsets must not fall or pass the end of `bytes`, and
/// must divide them into chunks within the limits of a xorb.
///
/// The schemes that compress fail with `CompressionError` of their number, before anything is written. The
/// other errors are `Io(Output)` and `OutOfMemory`, with a prefix of the xorb written.
pub fn serialize_xorb_to_stream_reference<W: Sink>(
    alloc: Global,
    sink: &mut W,
    hash: &MerkleHash,
    bytes: &[u8],
    chunks: &[(MerkleHash, u32)],
    scheme: CompressionScheme,
) -> Result<(XorbObject, usize, u64), StoreError>
    requires { AreBoundaries bytes.now chunks.now }
    ensures object { IfOk result (λ made. made.0 ≡ object_of V1 hash.now (leaves_from 0 chunks.now) no_spare) }
    ensures count { IfOk result (λ made. made.1 ≡ length (xorb_bytes V1 hash.now (leaves_from 0 chunks.now) (parts_from 0 chunks.now bytes.now) no_spare)) }
    ensures start { IfOk result (λ made. made.2 ≡ length (flat_map encoded_chunk (parts_from 0 chunks.now bytes.now))) }
    ensures written { W.tells sink.old ≡ true → OnOk result (W.written sink.new ≡ W.written sink.old ++ xorb_bytes V1 hash.now (leaves_from 0 chunks.now) (parts_from 0 chunks.now bytes.now) no_spare) }
    ensures prefix { W.tells sink.old ≡ true → (n : ℕ) × (W.written sink.new ≡ W.written sink.old ++ take n (xorb_bytes V1 hash.now (leaves_from 0 chunks.now) (parts_from 0 chunks.now bytes.now) no_spare)) }
    ensures nothing { W.tells sink.old ≡ true → (e : StoreError) → compressed scheme [] ≡ Err e → W.written sink.new ≡ W.written sink.old }
    ensures scheme { (e : StoreError) → compressed scheme [] ≡ Err e → result ≡ Err e }
    ensures errors { IfErr result (λ e. (compressed scheme [] ≡ Err e) ⊎ StopsWriting e) }
    ensures frame { Called W.tells W.faults sink.old sink.new (IsErrOf result (Io Output)) }
{
    scheme.compress_from_slice(&[])?;
    let leaves = boundary_leaves(alloc, chunks)?;
    let info = new_footer(alloc, hash, &leaves, [0; 16])?;
    let start = write_parts(sink, bytes, chunks, scheme)?;
    let (object, footer) = XorbObject::serialize_given_info(sink, info)?;
    Ok((object, start + footer, start as u64))
}

/// Length of the xorb with these chunks and a footer, in bytes.
fn xorb_length(bytes: &[u8], chunks: &[(MerkleHash, u32)]) -> usize
    requires { length chunks.now ≤ 65536 }
    ensures { result ≡ length bytes.now + 48 * length chunks.now + 96 }
{
    bytes.len() + MAX_PER_CHUNK * chunks.len() + EMPTY_FOOTER
}

/// The xorb that `serialize_xorb_to_stream_reference` writes, in memory. The schemes that compress fail with
/// `CompressionError` of their number; the other error is `OutOfMemory`.
pub fn serialized_xorb_object_from_components(
    alloc: Global,
    hash: &MerkleHash,
    bytes: Vec<u8>,
    chunks: Vec<(MerkleHash, u32)>,
    scheme: CompressionScheme,
) -> Result<SerializedXorbObject, StoreError>
    requires { AreBoundaries bytes.items chunks.items }
    ensures built { IfOk result (λ made. made ≡ built hash.now (leaves_from 0 chunks.items) (parts_from 0 chunks.items bytes.items) true) }
    ensures scheme { (e : StoreError) → compressed scheme [] ≡ Err e → result ≡ Err e }
    ensures errors { IfErr result (λ e. (compressed scheme [] ≡ Err e) ⊎ (e ≡ OutOfMemory)) }
{
    scheme.compress_from_slice(&[])?;
    let room = Vec::with_capacity(alloc, xorb_length(&bytes, &chunks))?;
    let mut sink = MemorySink::from_vec(room);
    let (_, _, start) = serialize_xorb_to_stream_reference(
        alloc, &mut sink, hash, &bytes, &chunks, scheme,
    )?;
    Ok(SerializedXorbObject {
        serialized_data: Items::from_vec(sink.into_bytes()),
        hash: *hash,
        raw_num_bytes: start - (XORB_CHUNK_HEADER_LENGTH * chunks.len()) as u64,
        num_chunks: chunks.len(),
        footer_start: Some(start),
    })
}

/// Whether both have the same bytes, uncompressed length and number of chunks.
fn are_alike(one: &SerializedXorbObject, other: &SerializedXorbObject) -> bool
    ensures { IsTrue result ↔ AreAlike one.now other.now }
{
    one.serialized_data == other.serialized_data
        && one.raw_num_bytes == other.raw_num_bytes
        && one.num_chunks == other.num_chunks
}

/// Whether a built xorb has the bytes, the uncompressed length and the number of chunks of the one that the
/// reference encoder makes of `xorb`. The schemes that compress fail with `CompressionError` of their number;
/// the other error is `OutOfMemory`.
pub fn verify_serialized_xorb_object(
    alloc: Global,
    xorb: &RawXorbData,
    scheme: CompressionScheme,
    serialized: &SerializedXorbObject,
) -> Result<bool, StoreError>
    requires { IsRaw xorb.now }
    ensures verified { IfOk result (λ same. IsTrue same ↔ AreAlike serialized.now (built_of xorb.now true)) }
    ensures scheme { (e : StoreError) → compressed scheme [] ≡ Err e → result ≡ Err e }
    ensures errors { IfErr result (λ e. (compressed scheme [] ≡ Err e) ⊎ (e ≡ OutOfMemory)) }
{
    scheme.compress_from_slice(&[])?;
    let chunks = xorb.xorb_info.chunks_and_boundaries(alloc)?;
    let bytes = raw_xorb_to_vec(alloc, xorb)?;
    let reference = serialized_xorb_object_from_components(
        alloc,
        &xorb.hash(),
        bytes,
        chunks,
        scheme,
    )?;
    Ok(are_alike(serialized, &reference))
}

/// Encodes a raw xorb with a footer, and compares the result with that of the reference encoder. They never
/// differ. The schemes that compress fail with `CompressionError` of their number; the other error is
/// `OutOfMemory`.
pub fn build_and_verify_xorb_object(
    alloc: Global,
    xorb: RawXorbData,
    scheme: CompressionScheme,
) -> Result<SerializedXorbObject, StoreError>
    requires { IsRaw xorb }
    ensures built { IfOk result (λ made. made ≡ built_of xorb true) }
    ensures scheme { (e : StoreError) → compressed scheme [] ≡ Err e → result ≡ Err e }
    ensures errors { IfErr result (λ e. (compressed scheme [] ≡ Err e) ⊎ (e ≡ OutOfMemory)) }
{
    scheme.compress_from_slice(&[])?;
    let serialized = SerializedXorbObject::from_xorb(alloc, xorb.clone(alloc)?, true)?;
    let same = verify_serialized_xorb_object(alloc, &xorb, scheme, &serialized)?;
    prove!(same);
    Ok(serialized)
}
