//! Single chunks: written to a sink and read from a source.

ghost use Rattle.std.specs.Prelude.{◌≡◌, ◌<◌, ◌≤◌, ◌+◌, ◌^◌, ◌++◌, ◌⊎◌, [], ℕ, Ok, Err, true, IfErr, IfOk, IsErrOf, OnErr, OnOk, drop, length, take, vec_len};
ghost use Rattle.xet_hash.specs.declared.error.StoreError.{StoreError};
ghost use Rattle.xet_hash.specs.declared.error.StoreError.TheVariants.{Io, UnexpectedEof};
ghost use Rattle.xet_hash.specs.declared.error.Place.TheVariants.{Input, Output};
ghost use Rattle.xet_io.specs.Whole.{Fills};
ghost use Rattle.xet_xorb_chunk.specs.Checks.{IsCheck};
ghost use Rattle.xet_codec.specs.Stops.{StopsReading, StopsWriting};
ghost use Rattle.xet_xorb_chunk.specs.Scheme.{compressed};
ghost use Rattle.xet_xorb_chunk.specs.ChunkEncoding.{encoded_chunk};
ghost use Rattle.xet_xorb_chunk.specs.Stream.{chunk_at};
ghost use Rattle.xet_xorb_chunk.specs.Taking.{TakesFailedChunk, TakesFailedHeader, TakesPrefix, WritesChunk, WritesChunkPrefix, header_in};
ghost use Rattle.xet_io.specs.Frame.{Called};

use crate::header::{
    XORB_CHUNK_HEADER_LENGTH, XorbChunkHeader, parse_chunk_header, write_chunk_header,
};
use crate::scheme::CompressionScheme;
use std::alloc::Global;
use xet_codec::{read_prefix, write_piece};
use xet_hash::StoreError;
use xet_io::{Sink, Source};

/// Maximum number of body bytes read at once, so that memory grows with the bytes that arrive, not with the
/// length that a header claims.
const BLOCK: usize = 1 << 17;

/// Writes a chunk of fewer than 2^24 bytes, header first, and returns the number of bytes written. `Auto` is
/// stored as `None`.
///
/// The schemes that compress fail with `CompressionError` of their number, before anything is written. The
/// other errors are `Io(Output)` and `OutOfMemory`; a prefix of the encoding was written then.
pub fn serialize_chunk<W: Sink>(
    chunk: &[u8],
    w: &mut W,
    scheme: CompressionScheme,
) -> Result<usize, StoreError>
    requires { length chunk.now < 2 ^ 24 }
    ensures count { IfOk result (λ count. count ≡ 8 + length chunk.now) }
    ensures whole { W.tells w.old ≡ true → OnOk result (W.written w.new ≡ W.written w.old ++ encoded_chunk chunk.now) }
    ensures prefix { W.tells w.old ≡ true → OnErr result ((n : ℕ) × (W.written w.new ≡ W.written w.old ++ take n (encoded_chunk chunk.now))) }
    ensures refused { (e : StoreError) → compressed scheme chunk.now ≡ Err e → result ≡ Err e }
    ensures nothing { W.tells w.old ≡ true → (e : StoreError) → compressed scheme chunk.now ≡ Err e → W.written w.new ≡ W.written w.old }
    ensures errors { IfErr result (λ e. (compressed scheme chunk.now ≡ Err e) ⊎ StopsWriting e) }
    ensures frame { Called W.tells W.faults w.old w.new (IsErrOf result (Io Output)) }
{
    scheme.compress_from_slice(chunk)?;
    let length = chunk.len() as u32;
    let header = XorbChunkHeader::new(CompressionScheme::None, length, length);
    write_chunk_header(w, &header)?;
    write_piece(w, chunk)?;
    Ok(XORB_CHUNK_HEADER_LENGTH + chunk.len())
}

/// Reads a chunk header from a source. The chunk may have at most `max_chunk` bytes, which is below 2^23.
///
/// Errors: `UnexpectedEof` if fewer than eight bytes are left, those of `parse_chunk_header`, `Io(Input)` and
/// `OutOfMemory`. After a failed check the eight bytes were taken, or all if fewer were left.
pub fn deserialize_chunk_header<R: Source>(
    r: &mut R,
    max_chunk: u32,
) -> Result<XorbChunkHeader, StoreError>
    requires { max_chunk < 2 ^ 23 }
    ensures header { R.tells r.old ≡ true → IfOk result (λ header. header_in max_chunk (R.left r.old) ≡ Ok header) }
    ensures taken { R.tells r.old ≡ true → OnOk result (R.left r.new ≡ drop 8 (R.left r.old)) }
    ensures rest { R.tells r.old ≡ true → IfErr result (TakesFailedHeader max_chunk (R.left r.old) (R.left r.new)) }
    ensures errors { R.tells r.old ≡ true → IfErr result (λ e. (header_in max_chunk (R.left r.old) ≡ Err e) ⊎ StopsReading e) }
    ensures kinds { IfErr result (λ e. IsCheck e ⊎ StopsReading e) }
    ensures frame { Called R.tells R.faults r.old r.new (IsErrOf result (Io Input)) }
{
    let mut bytes = [0; 8];
    let count = read_prefix(r, &mut bytes)?;
    if count < bytes.len() {
        return Err(StoreError::UnexpectedEof);
    }
    parse_chunk_header(bytes, max_chunk)
}

/// Reads exactly `wanted` bytes. Errors: `UnexpectedEof` if there are fewer, `Io(Input)` and `OutOfMemory`.
fn take_bytes<R: Source>(alloc: Global, r: &mut R, wanted: usize) -> Result<Vec<u8>, StoreError>
    requires { wanted < 2 ^ 32 }
    ensures bytes { R.tells r.old ≡ true → IfOk result (λ bytes. R.left r.old ≡ bytes.items ++ R.left r.new) }
    ensures length { IfOk result (λ bytes. vec_len bytes ≡ wanted) }
    ensures consumed { R.tells r.old ≡ true → TakesPrefix (R.left r.old) (R.left r.new) }
    ensures ended { R.tells r.old ≡ true → IfErr result (λ e. IsCheck e → R.left r.new ≡ []) }
    ensures errors { R.tells r.old ≡ true → IfErr result (λ e. ((e ≡ UnexpectedEof) × (length (R.left r.old) < wanted)) ⊎ StopsReading e) }
    ensures kinds { IfErr result (λ e. IsCheck e ⊎ StopsReading e) }
    ensures frame { Called R.tells R.faults r.old r.new (IsErrOf result (Io Input)) }
{
    let mut bytes = Vec::new(alloc);
    'reads: while bytes.len() < wanted {
        let filled = bytes.len();
        bytes.resize(wanted.min(filled + BLOCK), 0)?;
        let count = fill_behind(r, &mut bytes, filled)?;
        if count < bytes.len() - filled {
            return Err(StoreError::UnexpectedEof);
        }
    }
    Ok(bytes)
}

/// Reads into `bytes`, after the first `filled`, until they are full or the source ends. Returns the number
/// of bytes read.
fn fill_behind<R: Source>(
    source: &mut R,
    bytes: &mut [u8],
    filled: usize,
) -> Result<usize, StoreError>
    requires { filled ≤ length bytes.old }
    ensures told { R.tells source.old ≡ true → Fills (R.left source.old) (drop filled bytes.new) result (R.left source.new) }
    ensures before { take filled bytes.new ≡ take filled bytes.old }
    ensures bound { IfOk result (λ count. filled + count ≤ length bytes.new) }
    ensures errors { IfErr result (λ e. e ≡ Io Input) }
    ensures frame { Called R.tells R.faults source.old source.new (IsErrOf result (Io Input)) }
{
    read_prefix(source, &mut bytes[filled..])
}

/// Reads the next chunk of a source. It may have at most `max_chunk` bytes, which is below 2^23. Returns its
/// bytes, its stored size with the header, and its uncompressed length.
///
/// Errors: the first check that fails, `UnexpectedEof` if the bytes end inside the chunk, `Io(Input)` and
/// `OutOfMemory`. After a failed check of the header the header was taken; after one of the body, the body
/// too.
pub fn deserialize_chunk<R: Source>(
    alloc: Global,
    r: &mut R,
    max_chunk: u32,
) -> Result<(Vec<u8>, usize, u32), StoreError>
    requires { max_chunk < 2 ^ 23 }
    ensures chunk { R.tells r.old ≡ true → IfOk result (λ read. chunk_at max_chunk (R.left r.old) ≡ Ok read.0.items) }
    ensures sizes { IfOk result (λ read. (read.1 ≡ 8 + length read.0.items) × (read.2 ≡ length read.0.items)) }
    ensures taken { R.tells r.old ≡ true → IfOk result (λ read. R.left r.new ≡ drop read.1 (R.left r.old)) }
    ensures rest { R.tells r.old ≡ true → IfErr result (TakesFailedChunk max_chunk (R.left r.old) (R.left r.new)) }
    ensures errors { R.tells r.old ≡ true → IfErr result (λ e. (chunk_at max_chunk (R.left r.old) ≡ Err e) ⊎ StopsReading e) }
    ensures kinds { IfErr result (λ e. IsCheck e ⊎ StopsReading e) }
    ensures frame { Called R.tells R.faults r.old r.new (IsErrOf result (Io Input)) }
{
    let header = deserialize_chunk_header(r, max_chunk)?;
    let bytes = take_bytes(alloc, r, header.get_compressed_length() as usize)?;
    header.check_body()?;
    let stored = XORB_CHUNK_HEADER_LENGTH + bytes.len();
    Ok((bytes, stored, header.get_uncompressed_length()))
}

/// Reads the next chunk of a source, as `deserialize_chunk` does, and writes its bytes to a sink once it is
/// whole and has passed every check. Returns its stored size with the header, and its uncompressed length.
///
/// Errors: those of `deserialize_chunk`, and `Io(Output)`. After a failed check or `Io(Input)` nothing was
/// written; after another error at most a prefix of the chunk.
pub fn deserialize_chunk_to_writer<R: Source, W: Sink>(
    alloc: Global,
    r: &mut R,
    w: &mut W,
    max_chunk: u32,
) -> Result<(usize, u32), StoreError>
    requires { max_chunk < 2 ^ 23 }
    ensures whole { R.tells r.old ≡ true → W.tells w.old ≡ true → OnOk result (WritesChunk max_chunk (R.left r.old) (W.written w.old) (W.written w.new)) }
    ensures prefix { R.tells r.old ≡ true → W.tells w.old ≡ true → OnErr result (WritesChunkPrefix max_chunk (R.left r.old) (W.written w.old) (W.written w.new)) }
    ensures nothing { W.tells w.old ≡ true → IfErr result (λ e. IsCheck e ⊎ (e ≡ Io Input) → W.written w.new ≡ W.written w.old) }
    ensures sizes { IfOk result (λ read. read.0 ≡ 8 + read.1) }
    ensures plain { R.tells r.old ≡ true → IfOk result (λ read. IfOk (chunk_at max_chunk (R.left r.old)) (λ chunk. read.1 ≡ length chunk)) }
    ensures written { W.tells w.old ≡ true → IfOk result (λ read. length (W.written w.new) ≡ length (W.written w.old) + read.1) }
    ensures taken { R.tells r.old ≡ true → IfOk result (λ read. R.left r.new ≡ drop read.0 (R.left r.old)) }
    ensures consumed { R.tells r.old ≡ true → TakesPrefix (R.left r.old) (R.left r.new) }
    ensures rest { R.tells r.old ≡ true → IfErr result (λ e. StopsWriting e ⊎ TakesFailedChunk max_chunk (R.left r.old) (R.left r.new) e) }
    ensures errors { R.tells r.old ≡ true → IfErr result (λ e. (chunk_at max_chunk (R.left r.old) ≡ Err e) ⊎ (StopsReading e ⊎ StopsWriting e)) }
    ensures kinds { IfErr result (λ e. IsCheck e ⊎ (StopsReading e ⊎ StopsWriting e)) }
    ensures source { Called R.tells R.faults r.old r.new (IsErrOf result (Io Input)) }
    ensures sink { Called W.tells W.faults w.old w.new (IsErrOf result (Io Output)) }
{
    let (bytes, stored, plain) = deserialize_chunk(alloc, r, max_chunk)?;
    write_piece(w, &bytes)?;
    Ok((stored, plain))
}
