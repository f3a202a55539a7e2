//! The first stored chunk of a byte slice.

ghost use Rattle.std.specs.Prelude.{◌≡◌, ◌<◌, ◌≤◌, ◌+◌, ◌^◌, Ok, Err, IfErr, IfOk, IfSome, IsNone, Some, length, take};
ghost use Rattle.xet_xorb_chunk.specs.Header.{Header};
ghost use Rattle.xet_xorb_chunk.specs.Checks.{IsCheck};
ghost use Rattle.xet_xorb_chunk.specs.Passing.{ShowsPrefix};
ghost use Rattle.xet_xorb_chunk.specs.Stream.{Fails, prefix_of};
ghost use Rattle.xet_xorb_chunk.specs.Taking.{header_in};

use crate::header::{XORB_CHUNK_HEADER_LENGTH, XorbChunkHeader, parse_chunk_header};
use xet_hash::StoreError;

/// The header in the first eight bytes, or none if there are fewer.
fn header_at_prefix(bytes: &[u8], max_chunk: u32) -> Result<Option<XorbChunkHeader>, StoreError>
    requires { max_chunk < 2 ^ 23 }
    ensures none { IfOk result (λ header. IsNone header → length bytes.now < 8) }
    ensures some { IfOk result (λ header. IfSome header (λ header. (header_in max_chunk bytes.now ≡ Ok header) × (8 ≤ length bytes.now) × (header.stored < 2 ^ 24))) }
    ensures refused { IfErr result (λ e. header_in max_chunk bytes.now ≡ Err e) }
    ensures refused_whole { IfErr result (λ e. 8 ≤ length bytes.now) }
    ensures check { IfErr result IsCheck }
{
    let &[a, b, c, d, e, f, g, h, ..] = bytes else {
        return Ok(None);
    };
    Ok(Some(parse_chunk_header([a, b, c, d, e, f, g, h], max_chunk)?))
}

/// Where the first chunk ends according to its header, or none if there are fewer than eight bytes.
pub(crate) fn body_end(bytes: &[u8], max_chunk: u32) -> Result<Option<usize>, StoreError>
    requires { max_chunk < 2 ^ 23 }
    ensures none { IfOk result (λ end. IsNone end → length bytes.now < 8) }
    ensures some { IfOk result (λ end. IfSome end (λ end. (header : Header) × (header_in max_chunk bytes.now ≡ Ok header) × (end ≡ 8 + header.stored) × (8 ≤ length bytes.now))) }
    ensures bound { IfOk result (λ end. IfSome end (λ end. end < 2 ^ 32)) }
    ensures refused { IfErr result (λ e. prefix_of max_chunk bytes.now ≡ Fails e) }
    ensures check { IfErr result IsCheck }
{
    let Some(header) = header_at_prefix(bytes, max_chunk)? else {
        return Ok(None);
    };
    Ok(Some(XORB_CHUNK_HEADER_LENGTH + header.get_compressed_length() as usize))
}

/// The body length of the first stored chunk, in bytes without its header, or none if the bytes end inside
/// the chunk. A chunk may have at most `max_chunk` bytes, which is below 2^23.
///
/// Fails with the error of the first check that fails.
pub fn chunk_len(bytes: &[u8], max_chunk: u32) -> Result<Option<usize>, StoreError>
    requires { max_chunk < 2 ^ 23 }
    ensures prefix { ShowsPrefix max_chunk bytes.now result }
    ensures small { IfOk result (λ len. IfSome len (λ len. len < 2 ^ 24)) }
    ensures check { IfErr result IsCheck }
{
    let Some(header) = header_at_prefix(bytes, max_chunk)? else {
        return Ok(None);
    };
    let stored = header.get_compressed_length() as usize;
    if bytes.len() - XORB_CHUNK_HEADER_LENGTH < stored {
        return Ok(None);
    }
    header.check_body()?;
    Ok(Some(stored))
}
