//! Adds a footer to stored chunks.

ghost use Rattle.std.specs.Prelude.{◌≡◌, ◌⊎◌, ◌<◌, ◌≤◌, ◌+◌, ◌*◌, ◌^◌, ◌++◌, ℕ, true, IfErr, IfOk, IfSome, IsErrOf, OnErr, OnOk, length, take};
ghost use Rattle.std.specs.List.{AllByRecursion};
ghost use Rattle.xet_hash.specs.declared.error.Place.TheVariants.{Output};
ghost use Rattle.xet_hash.specs.declared.error.Reason.TheVariants.{ChunkCount};
ghost use Rattle.xet_hash.specs.declared.error.StoreError.TheVariants.{Io, MalformedData, OutOfMemory};
ghost use Rattle.xet_hash.specs.Merkle.{total_len};
ghost use Rattle.xet_xorb_footer.specs.FooterEncoding.{HasLists, HasShortLists, length_of, max_chunks, footer_bytes_v1};
ghost use Rattle.xet_codec.specs.Numbers.{number};
ghost use Rattle.xet_xorb_chunk.specs.Checks.{IsCheck};
ghost use Rattle.xet_codec.specs.Stops.{StopsWriting};
ghost use Rattle.xet_xorb.specs.Building.{IsNoRebuild, IsRebuildCheck, Rebuilds, RebuildsPrefix};
ghost use Rattle.xet_xorb.specs.internal.Copying.{IsCopied, IsNoCopy, ShowsNext};
ghost use Rattle.xet_io.specs.Frame.{Called};

use crate::footers::new_footer;
use crate::object::XorbObject;
use std::alloc::Global;
use xet_codec::write_piece;
use xet_hash::{MerkleHash, Reason, StoreError, compute_data_hash, xorb_hash};
use xet_io::Sink;
use xet_xorb_chunk::{XORB_CHUNK_HEADER_LENGTH, chunk_len};
use xet_xorb_footer::XorbObjectInfoV1;

/// Maximum number of chunks of a footer. A footer of version 1 then has fewer than 2^32 bytes.
const MAX_CHUNKS: usize = 107_374_180;

/// Copies the stored chunks in `raw` to the sink, up to their end or to a footer, and writes the footer of
/// version 1 that they have. `raw` must have fewer than 2^32 bytes, and each chunk at most `max_chunk`, which
/// is below 2^23. A footer in `raw` is not read. Returns the new footer and the xorb hash. What was written
/// is a well-formed xorb if there is a chunk and it has fewer than 2^32 bytes.
///
/// Errors: the first check of the chunks that fails, or `MalformedData(ChunkCount)` at chunk 107,374,181,
/// both with nothing written; `Io(Output)` or `OutOfMemory`, with a prefix of the xorb written.
pub fn reconstruct_xorb_with_footer<W: Sink>(
    alloc: Global,
    sink: &mut W,
    raw: &[u8],
    max_chunk: u32,
) -> Result<(XorbObject, MerkleHash), StoreError>
    requires max_chunk { max_chunk < 2 ^ 23 }
    requires bound { length raw.now < 2 ^ 32 }
    ensures rebuilt { IfOk result (Rebuilds max_chunk raw.now (W.tells sink.old ≡ true) (W.written sink.old) (W.written sink.new)) }
    ensures refused { IfErr result (IsNoRebuild max_chunk raw.now) }
    ensures nothing { W.tells sink.old ≡ true → IfErr result (λ e. IsRebuildCheck e → W.written sink.new ≡ W.written sink.old) }
    ensures prefix { W.tells sink.old ≡ true → OnErr result (RebuildsPrefix max_chunk raw.now (W.written sink.old) (W.written sink.new)) }
    ensures frame { Called W.tells W.faults sink.old sink.new (IsErrOf result (Io Output)) }
{
    let (leaves, end) = read_leaves(alloc, raw, max_chunk)?;
    let hash = xorb_hash(alloc, &leaves)?;
    let footer = new_footer(alloc, &hash, &leaves, [0; 16])?;
    let object = write_with_footer(sink, &raw[..end], footer)?;
    Ok((object, hash))
}

/// Hashes the stored chunks. Returns their (hash, length) pairs, and the offset at which they end: the end of
/// `raw`, or the start of a footer.
fn read_leaves(
    alloc: Global,
    raw: &[u8],
    max_chunk: u32,
) -> Result<(Vec<(MerkleHash, u64)>, usize), StoreError>
    requires max_chunk { max_chunk < 2 ^ 23 }
    requires bound { length raw.now < 2 ^ 32 }
    ensures copied { IfOk result (λ read. IsCopied max_chunk raw.now read.0.items read.1) }
    ensures few { IfOk result (λ read. length read.0.items ≤ max_chunks) }
    ensures each { IfOk result (λ read. AllByRecursion (λ m. m.1 < 2 ^ 24) read.0.items) }
    ensures small { IfOk result (λ read. total_len read.0.items + 8 * length read.0.items < 2 ^ 32) }
    ensures end { IfOk result (λ read. read.1 ≤ length raw.now) }
    ensures refused { IfErr result (IsNoCopy max_chunk raw.now) }
    ensures kinds { IfErr result (λ e. IsRebuildCheck e ⊎ (e ≡ OutOfMemory)) }
{
    let mut leaves = Vec::new(alloc);
    let mut at = 0;
    'chunks: while let Some(length) = next_chunk(&raw[at..], max_chunk)? {
        check_count(leaves.len())?;
        let start = at + XORB_CHUNK_HEADER_LENGTH;
        let end = start + length;
        leaves.push((compute_data_hash(&raw[start..end]), length as u64))?;
        at = end;
    }
    Ok((leaves, at))
}

/// Fails with `MalformedData(ChunkCount)` if a footer cannot list one chunk more than `count`.
fn check_count(count: usize) -> Result<(), StoreError>
    ensures few { OnOk result (count < max_chunks) }
    ensures full { OnErr result (max_chunks ≤ count) }
    ensures kind { IfErr result (λ e. e ≡ MalformedData ChunkCount) }
{
    if count >= MAX_CHUNKS {
        return Err(StoreError::MalformedData(Reason::ChunkCount));
    }
    Ok(())
}

/// The body length of the next chunk, or none if the bytes end or a footer begins. Errors: the first check
/// that fails, and `UnexpectedEof` inside a chunk.
fn next_chunk(bytes: &[u8], max_chunk: u32) -> Result<Option<usize>, StoreError>
    requires { max_chunk < 2 ^ 23 }
    ensures next { ShowsNext max_chunk bytes.now result }
    ensures small { IfOk result (λ length. IfSome length (λ n. n < 2 ^ 24)) }
    ensures check { IfErr result IsCheck }
{
    match chunk_len(bytes, max_chunk) {
        Ok(Some(length)) => Ok(Some(length)),
        Ok(None) if bytes.is_empty() => Ok(None),
        Ok(None) => Err(StoreError::UnexpectedEof),
        Err(StoreError::ChunkHeaderParse) => Ok(None),
        Err(error) => Err(error),
    }
}

/// Writes stored chunks, then a footer and its length. Returns the footer with its length. Errors:
/// `Io(Output)` and `OutOfMemory`, with a prefix of the bytes written.
fn write_with_footer<W: Sink>(
    sink: &mut W,
    stored: &[u8],
    footer: XorbObjectInfoV1,
) -> Result<XorbObject, StoreError>
    requires short { HasShortLists footer }
    requires lists { HasLists footer }
    ensures object { IfOk result (λ object. object ≡ record { info = footer; info_length = length_of footer }) }
    ensures written { W.tells sink.old ≡ true → OnOk result (W.written sink.new ≡ W.written sink.old ++ (stored.now ++ (footer_bytes_v1 footer ++ number (length_of footer)))) }
    ensures prefix { W.tells sink.old ≡ true → (n : ℕ) × (W.written sink.new ≡ W.written sink.old ++ take n (stored.now ++ (footer_bytes_v1 footer ++ number (length_of footer)))) }
    ensures refused { IfErr result StopsWriting }
    ensures frame { Called W.tells W.faults sink.old sink.new (IsErrOf result (Io Output)) }
{
    write_piece(sink, stored)?;
    let (object, _) = XorbObject::serialize_given_info(sink, footer)?;
    Ok(object)
}
