//! Streams of chunks that are read to their end.

ghost use Rattle.std.specs.Prelude.{◌≡◌, ◌<◌, ◌≤◌, ◌^◌, ◌++◌, ◌⊎◌, [], ℕ, List, Ok, Err, true, IfErr, IfOk, IsErrOf, OnOk, length};
ghost use Rattle.std.specs.List.{concat};
ghost use Rattle.xet_hash.specs.declared.error.StoreError.TheVariants.{Io};
ghost use Rattle.xet_hash.specs.declared.error.Place.TheVariants.{Input, Output};
ghost use Rattle.xet_xorb_chunk.specs.Decoder.{WasFed, fed_len, max_chunk_of, is_intact};
ghost use Rattle.xet_xorb_chunk.specs.Checks.{IsCheck};
ghost use Rattle.xet_codec.specs.Stops.{PassesLimit, StopsReading, StopsWriting};
ghost use Rattle.xet_xorb_chunk.specs.Passing.{FailsPassing, RefusesStream, WritesStream, WritesWhole};
ghost use Rattle.xet_xorb_chunk.specs.Stream.{IsStream, offsets_from, stored_bytes};
ghost use Rattle.xet_xorb_chunk.specs.Taking.{TakesPrefix};
ghost use Rattle.xet_io.specs.Frame.{Called};

use crate::decoder::ChunkDecoder;
use std::alloc::Global;
use xet_codec::{MAX, new_block, read_some};
use xet_hash::{StoreError, What};
use xet_io::{MemorySink, Sink, Source};

/// Reads a stream of chunks to its end, each of at most `max_chunk` bytes, which is below 2^23. Returns their
/// uncompressed bytes, and the offset of each chunk among these, followed by the total length. An observable
/// source must have fewer than 2^63 bytes left.
///
/// Errors: the first check that fails, `UnexpectedEof` if the stream ends inside a chunk, `Io(Input)`,
/// `OutOfMemory`, and `TooLarge(Input)` after 2^63 bytes, which only a source that is not observable can
/// have.
pub fn deserialize_chunks<R: Source>(
    alloc: Global,
    r: &mut R,
    max_chunk: u32,
) -> Result<(Vec<u8>, Vec<u32>), StoreError>
    requires max_chunk { max_chunk < 2 ^ 23 }
    requires bound { R.tells r.old ≡ true → length (R.left r.old) < 2 ^ 63 }
    ensures stream { R.tells r.old ≡ true → IfOk result (λ read. (chunks : List (List ℕ)) × IsStream max_chunk (R.left r.old) chunks (Ok tt) × (read.0.items ≡ concat chunks) × (read.1.items ≡ offsets_from 0 chunks)) }
    ensures end { R.tells r.old ≡ true → OnOk result (R.left r.new ≡ []) }
    ensures consumed { R.tells r.old ≡ true → TakesPrefix (R.left r.old) (R.left r.new) }
    ensures errors { R.tells r.old ≡ true → IfErr result (λ e. ((chunks : List (List ℕ)) × IsStream max_chunk (R.left r.old) chunks (Err e)) ⊎ StopsReading e) }
    ensures kinds { IfErr result (λ e. IsCheck e ⊎ (StopsReading e ⊎ PassesLimit e)) }
    ensures frame { Called R.tells R.faults r.old r.new (IsErrOf result (Io Input)) }
{
    let mut sink = MemorySink::new(alloc);
    let (_, places) = deserialize_chunks_to_writer(alloc, r, &mut sink, max_chunk)?;
    Ok((sink.into_bytes(), places))
}

/// Reads a stream of chunks, as `deserialize_chunks` does, and writes each chunk as soon as it is whole.
/// Returns the number of bytes read, headers included, and the offset of each chunk among the written bytes,
/// followed by the total length.
///
/// Errors: those of `deserialize_chunks`, and `Io(Output)`. After a failed check all chunks before it were
/// written, and after `Io(Input)` some whole chunks. `Io(Output)` and `OutOfMemory` leave a prefix of the
/// whole chunks written.
pub fn deserialize_chunks_to_writer<R: Source, W: Sink>(
    alloc: Global,
    r: &mut R,
    w: &mut W,
    max_chunk: u32,
) -> Result<(usize, Vec<u32>), StoreError>
    requires max_chunk { max_chunk < 2 ^ 23 }
    requires bound { R.tells r.old ≡ true → length (R.left r.old) < 2 ^ 63 }
    ensures stream { R.tells r.old ≡ true → IfOk result (λ read. WritesStream max_chunk (R.left r.old) (W.tells w.old ≡ true) (W.written w.old) (W.written w.new) (λ chunks. (read.0 ≡ stored_bytes chunks) × (read.1.items ≡ offsets_from 0 chunks))) }
    ensures end { R.tells r.old ≡ true → OnOk result (R.left r.new ≡ []) }
    ensures consumed { R.tells r.old ≡ true → TakesPrefix (R.left r.old) (R.left r.new) }
    ensures errors { R.tells r.old ≡ true → IfErr result (RefusesStream max_chunk (R.left r.old) (W.tells w.old ≡ true) (W.written w.old) (W.written w.new)) }
    ensures kinds { IfErr result (λ e. IsCheck e ⊎ (StopsWriting e ⊎ ((e ≡ Io Input) ⊎ PassesLimit e))) }
    ensures source { Called R.tells R.faults r.old r.new (IsErrOf result (Io Input)) }
    ensures sink { Called W.tells W.faults w.old w.new (IsErrOf result (Io Output)) }
{
    let mut block = new_block(alloc)?;
    let mut decoder = ChunkDecoder::new(alloc, max_chunk);
    feed_all(&mut decoder, r, w, &mut block)?;
    decoder.finish()
}

/// Feeds a new decoder all that is left in a source, block by block.
fn feed_all<R: Source, W: Sink>(
    decoder: &mut ChunkDecoder,
    r: &mut R,
    w: &mut W,
    block: &mut [u8],
) -> Result<(), StoreError>
    requires whole { is_intact decoder.old ≡ true }
    requires new { WasFed decoder.old [] [] }
    requires len { fed_len decoder.old ≡ 0 }
    requires block { 0 < length block.old }
    requires bound { R.tells r.old ≡ true → length (R.left r.old) < 2 ^ 63 }
    ensures fed { R.tells r.old ≡ true → OnOk result ((chunks : List (List ℕ)) × WasFed decoder.new (R.left r.old) chunks × (W.tells w.old ≡ true → W.written w.new ≡ W.written w.old ++ concat chunks)) }
    ensures end { R.tells r.old ≡ true → OnOk result (R.left r.new ≡ []) }
    ensures consumed { R.tells r.old ≡ true → TakesPrefix (R.left r.old) (R.left r.new) }
    ensures whole { OnOk result (is_intact decoder.new ≡ true) }
    ensures max_chunk { max_chunk_of decoder.new ≡ max_chunk_of decoder.old }
    ensures errors { R.tells r.old ≡ true → IfErr result (λ e. FailsPassing (max_chunk_of decoder.old) 0 (R.left r.old) (W.tells w.old ≡ true) (W.written w.old) (W.written w.new) e ⊎ ((e ≡ Io Input) × (W.tells w.old ≡ true → WritesWhole (max_chunk_of decoder.old) (R.left r.old) (W.written w.old) (W.written w.new)))) }
    ensures kinds { IfErr result (λ e. IsCheck e ⊎ (StopsWriting e ⊎ ((e ≡ Io Input) ⊎ PassesLimit e))) }
    ensures source { Called R.tells R.faults r.old r.new (IsErrOf result (Io Input)) }
    ensures sink { Called W.tells W.faults w.old w.new (IsErrOf result (Io Output)) }
{
    'reads: loop {
        let count = read_some(r, block)?;
        if count == 0 {
            return Ok(());
        }
        if count > MAX - decoder.fed_len() {
            return Err(StoreError::TooLarge(What::Input));
        }
        decoder.feed(&block[..count], w)?;
    }
}
