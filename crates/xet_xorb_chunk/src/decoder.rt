//! Incremental decoder of a stream of chunks that arrives in parts.

ghost use Rattle.std.specs.Prelude.{◌≡◌, ◌≤◌, ◌<◌, ◌+◌, ◌^◌, ◌⊎◌, ◌++◌, true, IfErr, IfOk, length, take, vec_len};
ghost use Rattle.xet_hash.specs.declared.error.StoreError.TheVariants.{OutOfMemory};
ghost use Rattle.xet_xorb_chunk.specs.Checks.{IsCheck};
ghost use Rattle.xet_xorb_chunk.specs.internal.Passing.{Gathers};
ghost use Rattle.xet_xorb_chunk.specs.Stream.{Fails, Short, prefix_of};
ghost use Rattle.xet_io.specs.Frame.{Called};

use crate::chunk_prefix::{body_end, chunk_len};
use crate::header::XORB_CHUNK_HEADER_LENGTH;
use std::alloc::{AllocError, Global};
use xet_codec::write_piece;
use xet_hash::{Reason, StoreError};
use xet_io::Sink;

/// Totals of the chunks forwarded so far: the offset of each among the uncompressed bytes (`starts`), and the
/// number of uncompressed bytes (`total`) and of stored bytes, headers included (`stored`).
#[derive(Debug, Drop)]
pub(crate) struct Tally {
    starts: Vec<u32>,
    total: u32,
    stored: usize,
}

impl Tally {
    ghost use Rattle.std.specs.Prelude.{◌≡◌, ◌≤◌, ◌<◌, ◌+◌, ◌^◌, ◌⊎◌, ◌++◌, ◌∷◌, [], List, ℕ, true, IfErr, IfOk, IsErrOf, OnOk, drop, length, take, vec_len};
    ghost use Rattle.std.specs.List.{concat};
    ghost use Rattle.xet_hash.specs.declared.error.StoreError.TheVariants.{Io, MalformedData};
    ghost use Rattle.xet_hash.specs.declared.error.Place.TheVariants.{Output};
    ghost use Rattle.xet_hash.specs.declared.error.Reason.TheVariants.{TotalLength};
    ghost use Rattle.xet_xorb_chunk.specs.Decoder.{Counts, Forwards};
    ghost use Rattle.xet_xorb_chunk.specs.Checks.{IsCheck};
    ghost use Rattle.xet_codec.specs.Stops.{StopsWriting};
    ghost use Rattle.xet_xorb_chunk.specs.Passing.{FailsPassing, RefusesOne};
    ghost use Rattle.xet_xorb_chunk.specs.Stream.{Short, prefix_of};
    ghost use Rattle.xet_io.specs.Frame.{Called};

    /// No chunk has been forwarded. Does not allocate.
    fn new(alloc: Global) -> Tally
        ensures counts { Counts result [] }
        ensures stored { result.stored ≡ 0 }
        ensures total { result.total ≡ 0 }
    {
        Tally {
            starts: Vec::new(alloc),
            total: 0,
            stored: 0,
        }
    }

    /// Writes a chunk and counts it. Fails with `TotalLength`, before it writes, if all chunks together would
    /// have 2^32 bytes or more.
    fn pass<W: Sink>(&mut self, chunk: &[u8], w: &mut W) -> Result<(), StoreError>
        requires small { length chunk.now < 2 ^ 24 }
        requires room { self.old.stored + (8 + length chunk.now) ≤ 2 ^ 63 }
        ensures counts { OnOk result ((chunks : List (List ℕ)) → Counts self.old chunks → Counts self.new (chunks ++ chunk.now ∷ [])) }
        ensures stored { OnOk result (self.new.stored ≡ self.old.stored + (8 + length chunk.now)) }
        ensures total { OnOk result ((self.old.total + length chunk.now < 2 ^ 32) × (self.new.total ≡ self.old.total + length chunk.now)) }
        ensures whole { W.tells w.old ≡ true → OnOk result (W.written w.new ≡ W.written w.old ++ chunk.now) }
        ensures errors { IfErr result (RefusesOne self.old.total chunk.now (W.tells w.old ≡ true) (W.written w.old) (W.written w.new)) }
        ensures frame { Called W.tells W.faults w.old w.new (IsErrOf result (Io Output)) }
    {
        let Some(total) = self.total.checked_add(chunk.len() as u32) else {
            return Err(StoreError::MalformedData(Reason::TotalLength));
        };
        write_piece(w, chunk)?;
        self.starts.push(self.total)?;
        self.total = total;
        self.stored += XORB_CHUNK_HEADER_LENGTH + chunk.len();
        Ok(())
    }

    /// Forwards the whole chunks at the start of `piece`, without buffering them, and returns the number of
    /// bytes consumed.
    fn pass_whole<W: Sink>(
        &mut self,
        piece: &[u8],
        max_chunk: u32,
        w: &mut W,
    ) -> Result<usize, StoreError>
        requires max_chunk { max_chunk < 2 ^ 23 }
        requires room { self.old.stored + length piece.now ≤ 2 ^ 63 }
        ensures within { IfOk result (λ n. n ≤ length piece.now) }
        ensures passed { IfOk result (λ n. (chunks : List (List ℕ)) × Forwards max_chunk self.old self.new piece.now (drop n piece.now) chunks × (W.tells w.old ≡ true → W.written w.new ≡ W.written w.old ++ concat chunks)) }
        ensures rest { IfOk result (λ n. prefix_of max_chunk (drop n piece.now) ≡ Short) }
        ensures errors { IfErr result (FailsPassing max_chunk self.old.total piece.now (W.tells w.old ≡ true) (W.written w.old) (W.written w.new)) }
        ensures kinds { IfErr result (λ e. IsCheck e ⊎ StopsWriting e) }
        ensures frame { Called W.tells W.faults w.old w.new (IsErrOf result (Io Output)) }
    {
        let mut at = 0;
        'chunks: while let Some(len) = chunk_len(&piece[at..], max_chunk)? {
            let start = at + XORB_CHUNK_HEADER_LENGTH;
            self.pass(&piece[start..start + len], w)?;
            at = start + len;
        }
        Ok(at)
    }

    /// Completes the buffered chunk from the start of `piece` and forwards it once it is whole. Returns the
    /// number of bytes consumed: all of `piece` if the chunk is still incomplete.
    fn complete<W: Sink>(
        &mut self,
        held: &mut Vec<u8>,
        piece: &[u8],
        max_chunk: u32,
        w: &mut W,
    ) -> Result<usize, StoreError>
        requires max_chunk { max_chunk < 2 ^ 23 }
        requires short { prefix_of max_chunk held.old.items ≡ Short }
        requires room { self.old.stored + vec_len held.old + length piece.now ≤ 2 ^ 63 }
        ensures within { IfOk result (λ n. n ≤ length piece.now) }
        ensures passed { IfOk result (λ n. (chunks : List (List ℕ)) × Forwards max_chunk self.old self.new (held.old.items ++ piece.now) (held.new.items ++ drop n piece.now) chunks × (W.tells w.old ≡ true → W.written w.new ≡ W.written w.old ++ concat chunks)) }
        ensures rest { IfOk result (λ n. (prefix_of max_chunk held.new.items ≡ Short) × (n < length piece.now → held.new.items ≡ [])) }
        ensures errors { IfErr result (FailsPassing max_chunk self.old.total (held.old.items ++ piece.now) (W.tells w.old ≡ true) (W.written w.old) (W.written w.new)) }
        ensures kinds { IfErr result (λ e. IsCheck e ⊎ StopsWriting e) }
        ensures frame { Called W.tells W.faults w.old w.new (IsErrOf result (Io Output)) }
    {
        let taken = gather(held, piece, max_chunk)?;
        let Some(len) = chunk_len(held, max_chunk)? else {
            return Ok(taken);
        };
        let end = XORB_CHUNK_HEADER_LENGTH + len;
        self.pass(&held[XORB_CHUNK_HEADER_LENGTH..end], w)?;
        held.clear();
        Ok(taken)
    }
}

/// Appends bytes from the start of `piece` until there are `len`, and returns the number appended.
fn fill(bytes: &mut Vec<u8>, piece: &[u8], len: usize) -> Result<usize, AllocError>
    ensures within { IfOk result (λ n. n ≤ length piece.now) }
    ensures bytes { IfOk result (λ n. bytes.new.items ≡ bytes.old.items ++ take n piece.now) }
    ensures len { IfOk result (λ n. vec_len bytes.new ≡ vec_len bytes.old + n) }
    ensures filled { IfOk result (λ n. n < length piece.now → len ≤ vec_len bytes.new) }
    ensures max_chunk { IfOk result (λ n. vec_len bytes.old ≤ len → vec_len bytes.new ≤ len) }
    ensures full { IfOk result (λ n. len ≤ vec_len bytes.old → n ≡ 0) }
{
    let count = piece.len().min(len.saturating_sub(bytes.len()));
    bytes.extend_from_slice(&piece[..count])?;
    Ok(count)
}

/// Appends bytes from the start of `piece` until `held` is a whole chunk, and returns the number appended.
fn gather(held: &mut Vec<u8>, piece: &[u8], max_chunk: u32) -> Result<usize, StoreError>
    requires { max_chunk < 2 ^ 23 }
    ensures within { IfOk result (λ n. n ≤ length piece.now) }
    ensures bytes { IfOk result (λ n. held.new.items ≡ held.old.items ++ take n piece.now) }
    ensures gathered { prefix_of max_chunk held.old.items ≡ Short → IfOk result (Gathers max_chunk held.new.items piece.now) }
    ensures errors { IfErr result (λ e. (prefix_of max_chunk (held.old.items ++ piece.now) ≡ Fails e) ⊎ (e ≡ OutOfMemory)) }
    ensures kinds { IfErr result (λ e. IsCheck e ⊎ (e ≡ OutOfMemory)) }
{
    let first = fill(held, piece, XORB_CHUNK_HEADER_LENGTH)?;
    let Some(end) = body_end(held, max_chunk)? else {
        return Ok(first);
    };
    Ok(first + fill(held, &piece[first..], end)?)
}

/// Incremental decoder of a stream of chunks that arrives in parts of any lengths. Each chunk is written as
/// soon as it is whole.
#[derive(Debug, Drop)]
pub struct ChunkDecoder {
    /// Maximum chunk size, in bytes.
    max_chunk: u32,
    /// Buffered bytes of a chunk that is not yet whole.
    held: Vec<u8>,
    passed: Tally,
    /// No call has failed.
    whole: bool,
    ghost small: { max_chunk < 2 ^ 23 },
    ghost short: { whole ≡ true → prefix_of max_chunk held.items ≡ Short },
    ghost fits: { whole ≡ true → passed.stored + vec_len held ≤ 2 ^ 63 },
}

impl ChunkDecoder {
    ghost use Rattle.std.specs.Prelude.{◌≡◌, ◌≤◌, ◌<◌, ◌+◌, ◌^◌, ◌⊎◌, ◌↔◌, ◌++◌, [], List, ℕ, true, false, Err, IfErr, IfOk, IsErrOf, IsOk, IsTrue, MatchResult, Ok, OnOk, length};
    ghost use Rattle.std.specs.List.{concat};
    ghost use Rattle.xet_hash.specs.declared.error.StoreError.TheVariants.{Io, OutOfMemory, UnexpectedEof};
    ghost use Rattle.xet_hash.specs.declared.error.Place.TheVariants.{Output};
    ghost use Rattle.xet_xorb_chunk.specs.Decoder.{FinishesStream, WasFed, Forwards, fed_len, max_chunk_of, is_intact};
    ghost use Rattle.xet_xorb_chunk.specs.Checks.{IsCheck};
    ghost use Rattle.xet_codec.specs.Stops.{StopsWriting};
    ghost use Rattle.xet_xorb_chunk.specs.Passing.{FailsPassing, RefusesMore};
    ghost use Rattle.xet_xorb_chunk.specs.Stream.{Short, prefix_of};
    ghost use Rattle.xet_io.specs.Frame.{Called};

    /// A decoder of chunks of at most `max_chunk` bytes each, which is below 2^23. Does not allocate.
    pub fn new(alloc: Global, max_chunk: u32) -> ChunkDecoder
        requires { max_chunk < 2 ^ 23 }
        ensures max_chunk { max_chunk_of result ≡ max_chunk }
        ensures whole { is_intact result ≡ true }
        ensures len { fed_len result ≡ 0 }
        ensures holds { WasFed result [] [] }
    {
        ChunkDecoder {
            max_chunk: max_chunk,
            held: Vec::new(alloc),
            passed: Tally::new(alloc),
            whole: true,
        }
    }

    /// Whether no call has failed. A decoder that has failed must not be used further.
    pub fn is_whole(&self) -> bool
        ensures { result ≡ is_intact self.now }
    {
        self.whole
    }

    /// Number of bytes fed, headers included: at most 2^63. Not available after an error.
    pub fn fed_len(&self) -> usize
        requires { is_intact self.now ≡ true }
        ensures value { result ≡ fed_len self.now }
        ensures bound { result ≤ 2 ^ 63 }
    {
        self.passed.stored + self.held.len()
    }

    /// Decodes the next part of the stream, and writes each chunk that is whole now. All parts together may
    /// have at most 2^63 bytes (see `fed_len`). After an error nothing may be fed.
    ///
    /// Fails with the error of the first check that fails, as soon as it is decided; all chunks before it
    /// were written. `Io(Output)` and `OutOfMemory` leave a prefix of the whole chunks written.
    pub fn feed<W: Sink>(&mut self, piece: &[u8], w: &mut W) -> Result<(), StoreError>
        requires whole { is_intact self.old ≡ true }
        requires len { fed_len self.old + length piece.now ≤ 2 ^ 63 }
        ensures fed { OnOk result ((fed : List ℕ) (before : List (List ℕ)) → WasFed self.old fed before → (more : List (List ℕ)) × WasFed self.new (fed ++ piece.now) (before ++ more) × (W.tells w.old ≡ true → W.written w.new ≡ W.written w.old ++ concat more)) }
        ensures errors { IfErr result (λ e. (fed : List ℕ) (before : List (List ℕ)) → WasFed self.old fed before → RefusesMore (max_chunk_of self.old) (fed ++ piece.now) before (W.tells w.old ≡ true) (W.written w.old) (W.written w.new) e) }
        ensures kinds { IfErr result (λ e. IsCheck e ⊎ StopsWriting e) }
        ensures len { OnOk result (fed_len self.new ≡ fed_len self.old + length piece.now) }
        ensures whole { IsTrue (is_intact self.new) ↔ IsOk result }
        ensures max_chunk { max_chunk_of self.new ≡ max_chunk_of self.old }
        ensures frame { Called W.tells W.faults w.old w.new (IsErrOf result (Io Output)) }
    {
        self.whole = false;
        self.absorb(piece, w)?;
        self.whole = true;
        Ok(())
    }

    /// `feed` without the bookkeeping of errors: the caller sets `whole`.
    fn absorb<W: Sink>(&mut self, piece: &[u8], w: &mut W) -> Result<(), StoreError>
        requires refused { self.old.whole ≡ false }
        requires short { prefix_of self.old.max_chunk self.old.held.items ≡ Short }
        requires len { fed_len self.old + length piece.now ≤ 2 ^ 63 }
        ensures fed { OnOk result ((chunks : List (List ℕ)) × Forwards self.old.max_chunk self.old.passed self.new.passed (self.old.held.items ++ piece.now) self.new.held.items chunks × (W.tells w.old ≡ true → W.written w.new ≡ W.written w.old ++ concat chunks)) }
        ensures rest { OnOk result (prefix_of self.old.max_chunk self.new.held.items ≡ Short) }
        ensures errors { IfErr result (FailsPassing self.old.max_chunk self.old.passed.total (self.old.held.items ++ piece.now) (W.tells w.old ≡ true) (W.written w.old) (W.written w.new)) }
        ensures kinds { IfErr result (λ e. IsCheck e ⊎ StopsWriting e) }
        ensures whole { self.new.whole ≡ false }
        ensures max_chunk { self.new.max_chunk ≡ self.old.max_chunk }
        ensures frame { Called W.tells W.faults w.old w.new (IsErrOf result (Io Output)) }
    {
        if self.held.is_empty() {
            return self.pass_whole(piece, w);
        }
        let taken = self
            .passed
            .complete(&mut self.held, piece, self.max_chunk, w)?;
        if taken == piece.len() {
            return Ok(());
        }
        self.pass_whole(&piece[taken..], w)
    }

    /// Decodes the next part when nothing is buffered: forwards its whole chunks, and buffers the rest.
    fn pass_whole<W: Sink>(&mut self, piece: &[u8], w: &mut W) -> Result<(), StoreError>
        requires refused { self.old.whole ≡ false }
        requires empty { self.old.held.items ≡ [] }
        requires len { self.old.passed.stored + length piece.now ≤ 2 ^ 63 }
        ensures fed { OnOk result ((chunks : List (List ℕ)) × Forwards self.old.max_chunk self.old.passed self.new.passed piece.now self.new.held.items chunks × (W.tells w.old ≡ true → W.written w.new ≡ W.written w.old ++ concat chunks)) }
        ensures rest { OnOk result (prefix_of self.old.max_chunk self.new.held.items ≡ Short) }
        ensures errors { IfErr result (FailsPassing self.old.max_chunk self.old.passed.total piece.now (W.tells w.old ≡ true) (W.written w.old) (W.written w.new)) }
        ensures kinds { IfErr result (λ e. IsCheck e ⊎ StopsWriting e) }
        ensures whole { self.new.whole ≡ false }
        ensures max_chunk { self.new.max_chunk ≡ self.old.max_chunk }
        ensures frame { Called W.tells W.faults w.old w.new (IsErrOf result (Io Output)) }
    {
        let taken = self.passed.pass_whole(piece, self.max_chunk, w)?;
        self.held.extend_from_slice(&piece[taken..])?;
        Ok(())
    }

    /// Ends the stream. Returns the number of bytes fed, headers included, and the offset of each chunk among
    /// the uncompressed bytes, followed by their total length.
    ///
    /// Errors: `UnexpectedEof` if the stream ends inside a chunk, and `OutOfMemory`.
    pub fn finish(self) -> Result<(usize, Vec<u32>), StoreError>
        requires { is_intact self ≡ true }
        ensures ends { (fed : List ℕ) (chunks : List (List ℕ)) → WasFed self fed chunks → FinishesStream (max_chunk_of self) fed chunks result }
        ensures kinds { IfErr result (λ e. (e ≡ UnexpectedEof) ⊎ (e ≡ OutOfMemory)) }
    {
        if !self.held.is_empty() {
            return Err(StoreError::UnexpectedEof);
        }
        let ChunkDecoder { passed, .. } = self;
        let Tally {
            mut starts,
            total,
            stored,
        } = passed;
        starts.push(total)?;
        Ok((stored, starts))
    }
}
