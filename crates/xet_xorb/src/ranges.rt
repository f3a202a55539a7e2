//! Reads of chunks at the offsets that a footer lists.

ghost use Rattle.std.specs.Prelude.{◌≡◌, ◌<◌, ◌≤◌, ◌^◌, ◌++◌, ◌⊎◌, [], ℕ, List, Ok, Err, true, IfErr, IfOk, IsErrOf, IsOkUnless, OnOk, length, nat_le, slice_range, vec_len};
ghost use Rattle.std.specs.List.{concat};
ghost use Rattle.xet_hash.specs.declared.error.Place.TheVariants.{Input, Output};
ghost use Rattle.xet_hash.specs.declared.error.Reason.TheVariants.{Offsets};
ghost use Rattle.xet_hash.specs.declared.error.StoreError.{StoreError};
ghost use Rattle.xet_hash.specs.declared.error.StoreError.TheVariants.{Io, UnexpectedEof};
ghost use Rattle.xet_xorb_chunk.specs.Decoder.{WasFed, fed_len, max_chunk_of, is_intact};
ghost use Rattle.xet_xorb_chunk.specs.Checks.{IsCheck};
ghost use Rattle.xet_codec.specs.Stops.{StopsReading, StopsWriting};
ghost use Rattle.xet_xorb_chunk.specs.Stream.{Decodes};
ghost use Rattle.xet_codec.specs.Parsing.{wants};
ghost use Rattle.xet_xorb.specs.Ranges.{ReadsPlain, in_file, listed_contents, listed_range};
ghost use Rattle.xet_io.specs.Frame.{Called, ReadFrom};

use crate::object::XorbObject;
use std::alloc::Global;
use xet_codec::{read_exact, reader_length};
use xet_hash::{Reason, StoreError};
use xet_io::{MemorySink, ReadAt, Sink};
use xet_xorb_chunk::ChunkDecoder;

/// Maximum number of bytes read at once.
const BLOCK: usize = 1 << 17;

impl XorbObject {
    /// Reads the uncompressed bytes of all chunks of the xorb with this footer. A chunk may have at most
    /// `max_chunk` bytes, which is below 2^23.
    ///
    /// Errors: `MalformedData(Incomplete)` if the footer does not list all its chunks; `UnexpectedEof`,
    /// before any chunk is read, if the last listed offset is after the last byte; the first check of the
    /// chunks that fails; `Io(Input)` and `OutOfMemory`.
    pub fn get_all_bytes<R: ReadAt>(
        &self,
        alloc: Global,
        reader: &mut R,
        max_chunk: u32,
    ) -> Result<Vec<u8>, StoreError>
        requires max_chunk { max_chunk < 2 ^ 23 }
        ensures bytes { R.tells reader.old ≡ true → IfOk result (λ plain. ReadsPlain max_chunk (R.bytes reader.old) (in_file (length (R.bytes reader.old)) (listed_contents self.now.info)) (Ok plain.items)) }
        ensures listed { (e : StoreError) → listed_contents self.now.info ≡ Err e → IsErrOf result e }
        ensures refused { R.tells reader.old ≡ true → IfErr result (λ e. ReadsPlain max_chunk (R.bytes reader.old) (in_file (length (R.bytes reader.old)) (listed_contents self.now.info)) (Err e) ⊎ StopsReading e) }
        ensures kinds { IfErr result (λ e. (listed_contents self.now.info ≡ Err e) ⊎ ((e ≡ UnexpectedEof) ⊎ (IsCheck e ⊎ StopsReading e))) }
        ensures frame { ReadFrom R.bytes R.tells R.faults R.lent reader.old reader.new (IsErrOf result (Io Input)) }
    {
        let end = self.get_contents_length()?;
        read_plain(alloc, reader, (0, end), max_chunk)
    }

    /// Reads the uncompressed bytes of the chunks `start..end`, as `get_all_bytes` does. Only the two offsets
    /// of the range are used.
    ///
    /// Further errors: `InvalidArguments` if the range is empty or passes the last chunk, and
    /// `MalformedData(Offsets)` if its end is listed before its start.
    pub fn get_bytes_by_chunk_range<R: ReadAt>(
        &self,
        alloc: Global,
        reader: &mut R,
        start: u32,
        end: u32,
        max_chunk: u32,
    ) -> Result<Vec<u8>, StoreError>
        requires max_chunk { max_chunk < 2 ^ 23 }
        ensures bytes { R.tells reader.old ≡ true → IfOk result (λ plain. ReadsPlain max_chunk (R.bytes reader.old) (in_file (length (R.bytes reader.old)) (listed_range self.now.info start end)) (Ok plain.items)) }
        ensures listed { (e : StoreError) → listed_range self.now.info start end ≡ Err e → IsErrOf result e }
        ensures refused { R.tells reader.old ≡ true → IfErr result (λ e. ReadsPlain max_chunk (R.bytes reader.old) (in_file (length (R.bytes reader.old)) (listed_range self.now.info start end)) (Err e) ⊎ StopsReading e) }
        ensures kinds { IfErr result (λ e. (listed_range self.now.info start end ≡ Err e) ⊎ ((e ≡ UnexpectedEof) ⊎ (IsCheck e ⊎ StopsReading e))) }
        ensures frame { ReadFrom R.bytes R.tells R.faults R.lent reader.old reader.new (IsErrOf result (Io Input)) }
    {
        let (from, to) = self.get_byte_offset(start, end)?;
        check_order(from, to)?;
        read_plain(alloc, reader, (from, to), max_chunk)
    }
}

/// Fails with `MalformedData(Offsets)` if `to` is below `from`.
fn check_order(from: u32, to: u32) -> Result<(), StoreError>
    ensures { result ≡ wants (nat_le from to) Offsets }
{
    if from <= to {
        Ok(())
    } else {
        Err(StoreError::MalformedData(Reason::Offsets))
    }
}

/// Reads the uncompressed bytes of the chunks that are stored between two offsets. Errors: `UnexpectedEof` if
/// the reader ends before the second, the first check of the chunks that fails, `Io(Input)` and `OutOfMemory`.
fn read_plain<R: ReadAt>(
    alloc: Global,
    reader: &mut R,
    range: (u32, u32),
    max_chunk: u32,
) -> Result<Vec<u8>, StoreError>
    requires max_chunk { max_chunk < 2 ^ 23 }
    requires order { range.0 ≤ range.1 }
    ensures bytes { R.tells reader.old ≡ true → IfOk result (λ plain. ReadsPlain max_chunk (R.bytes reader.old) (in_file (length (R.bytes reader.old)) (Ok (range.0, range.1))) (Ok plain.items)) }
    ensures refused { R.tells reader.old ≡ true → IfErr result (λ e. ReadsPlain max_chunk (R.bytes reader.old) (in_file (length (R.bytes reader.old)) (Ok (range.0, range.1))) (Err e) ⊎ StopsReading e) }
    ensures kinds { IfErr result (λ e. IsCheck e ⊎ StopsReading e) }
    ensures frame { ReadFrom R.bytes R.tells R.faults R.lent reader.old reader.new (IsErrOf result (Io Input)) }
{
    let (from, to) = range;
    if reader_length(reader)? < to as u64 {
        return Err(StoreError::UnexpectedEof);
    }
    let stored = (to - from) as usize;
    let mut block = new_block(alloc, stored)?;
    let mut decoder = ChunkDecoder::new(alloc, max_chunk);
    let mut sink = MemorySink::from_vec(Vec::with_capacity(alloc, stored)?);
    feed_between(
        &mut decoder,
        reader,
        &mut sink,
        from as u64,
        to as u64,
        &mut block,
    )?;
    decoder.finish()?;
    Ok(sink.into_bytes())
}

/// A block for reads of `count` bytes in all. The only error is `OutOfMemory`.
fn new_block(alloc: Global, count: usize) -> Result<Vec<u8>, StoreError>
    ensures some { IfOk result (λ block. 0 < count → 0 < vec_len block) }
    ensures memory { IsOkUnless result StoreError.OutOfMemory }
{
    let mut block = Vec::new(alloc);
    block.resize(count.min(BLOCK), 0)?;
    Ok(block)
}

/// Feeds a new decoder the reader's bytes between two offsets, block by block. Errors: the first check of the
/// chunks that fails, `Io(Input)`, `Io(Output)` and `OutOfMemory`.
fn feed_between<R: ReadAt, W: Sink>(
    decoder: &mut ChunkDecoder,
    reader: &mut R,
    w: &mut W,
    from: u64,
    to: u64,
    block: &mut [u8],
) -> Result<(), StoreError>
    requires whole { is_intact decoder.old ≡ true }
    requires new { WasFed decoder.old [] [] }
    requires len { fed_len decoder.old ≡ 0 }
    requires block { from < to → 0 < length block.old }
    requires order { from ≤ to }
    requires bound { to < 2 ^ 32 }
    ensures fed { R.tells reader.old ≡ true → to ≤ length (R.bytes reader.old) → OnOk result ((chunks : List (List ℕ)) × WasFed decoder.new (slice_range (R.bytes reader.old) from to) chunks × (W.tells w.old ≡ true → W.written w.new ≡ W.written w.old ++ concat chunks)) }
    ensures whole { OnOk result (is_intact decoder.new ≡ true) }
    ensures max_chunk { max_chunk_of decoder.new ≡ max_chunk_of decoder.old }
    ensures refused { R.tells reader.old ≡ true → to ≤ length (R.bytes reader.old) → IfErr result (λ e. ((chunks : List (List ℕ)) × Decodes (max_chunk_of decoder.old) 0 (slice_range (R.bytes reader.old) from to) chunks (Err e)) ⊎ (StopsWriting e ⊎ (e ≡ Io Input))) }
    ensures kinds { IfErr result (λ e. IsCheck e ⊎ (StopsWriting e ⊎ (e ≡ Io Input))) }
    ensures reader { ReadFrom R.bytes R.tells R.faults R.lent reader.old reader.new (IsErrOf result (Io Input)) }
    ensures sink { Called W.tells W.faults w.old w.new (IsErrOf result (Io Output)) }
{
    let mut at = from;
    'reads: while at < to {
        let count = block.len().min((to - at) as usize);
        let (piece, _) = block.split_at_mut(count);
        read_exact(reader, at, piece)?;
        decoder.feed(piece, w)?;
        at += count as u64;
    }
    Ok(())
}
