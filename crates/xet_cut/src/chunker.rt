//! `Chunker`: content-defined chunking of a stream whose bytes arrive in pieces.

ghost use Rattle.std.specs.Prelude.{◌≡◌, ◌+◌, ◌≤◌, ◌<◌, ◌++◌, ◌∷◌, [], false, length, drop, map, Some, None, IfOk, IfSome, IsOkUnless, OnErr, OnOk, option_map, vec_capacity, vec_len};
ghost use Rattle.std.specs.List.{slice_range};
ghost use Rattle.std.specs.Option.{ForSome, option_to_list};
ghost use Rattle.xet_xorb_chunk.specs.Chunks.{chunk_of};
ghost use Rattle.xet_cut.specs.Streams.{IsBlock, boundary_in, if_any, step};
ghost use Rattle.xet_cut.specs.internal.Cutting.{IsCut, left, unsplit};

use crate::boundary::boundary;
use crate::limits::Limits;
use bytes::Bytes;
use std::alloc::Global;
use std::marker::Model;
use xet_hash::StoreError;
use xet_xorb_chunk::Chunk;

/// Splits a stream into chunks as its bytes arrive. It buffers the bytes since the last boundary: fewer than the
/// maximum chunk, for which it takes the room at once. Contracts see a `Splitting`.
#[derive(Drop)]
pub struct Chunker {
    limits: Limits,
    /// The bytes since the last boundary, with capacity for the maximum chunk.
    buffered: Vec<u8>,
    alloc: Global,
}

impl Model for Chunker {
    ghost use Rattle.std.specs.Prelude.{◌≡◌, ◌≤◌, None, vec_capacity};
    ghost use Rattle.xet_cut.specs.Limits.{AreInRange};
    ghost use Rattle.xet_cut.specs.Streams.{Splitting, boundary_in};

    ghost Value = { Splitting };

    ghost view = { λ c. record { settings = c.limits; buffered = c.buffered.items } };

    ghost invariant = { λ c. (AreInRange c.limits) × (boundary_in c.limits c.buffered.items ≡ None) × (c.limits.maximum_chunk ≤ vec_capacity c.buffered) };
}

impl Chunker {
    /// A chunker with these limits, at the start of a stream. The only error is `StoreError::OutOfMemory`.
    pub fn new(alloc: Global, limits: &Limits) -> Result<Chunker, StoreError>
        ensures new { IfOk result (λ chunker. chunker ≡ record { settings = limits.now; buffered = [] }) }
        ensures memory { IsOkUnless result StoreError.OutOfMemory }
    {
        limits.recall_invariant();
        let buffered = Vec::with_capacity(alloc, limits.maximum_chunk() as usize)?;
        Ok(Chunker {
            limits: *limits,
            buffered,
            alloc,
        })
    }

    /// Proof aid without effect: makes it available to the caller that no boundary is within the buffered bytes, which are
    /// fewer than the maximum chunk.
    pub fn recall_invariant(&self)
        ensures none { boundary_in self.now.settings self.now.buffered ≡ None }
        ensures few { length self.now.buffered < self.now.settings.maximum_chunk }
    {
        let _ = &self.buffered;
    }

    /// The first boundary in `bytes` if they follow the buffered ones, as the number of bytes of `bytes` before it. Nothing
    /// is allocated. Of the buffered bytes at most 63 are looked at.
    pub fn next_boundary(&self, bytes: &[u8]) -> Option<usize>
        ensures value { boundary_in self.now.settings (self.now.buffered ++ bytes.now) ≡ option_map (λ n. length self.now.buffered + n) result }
        ensures within { IfSome result (λ n. (1 ≤ n) × (n ≤ length bytes.now)) }
    {
        boundary(&self.limits, &self.buffered, bytes)
    }

    /// Takes `bytes` up to the first boundary, and returns the chunk that ends there; if there is no boundary, takes all
    /// bytes, and returns what is then buffered as a chunk if these are the `last` ones and it is not empty. The second
    /// value is the number of bytes taken. The only error is `StoreError::OutOfMemory`; the chunker is then as before.
    pub fn next(&mut self, bytes: &[u8], last: bool) -> Result<(Option<Chunk>, usize), StoreError>
        ensures chunk { IfOk result (λ next. next.0 ≡ option_map chunk_of (step self.old.settings self.old.buffered bytes.now last).chunk) }
        ensures taken { IfOk result (λ next. next.1 ≡ (step self.old.settings self.old.buffered bytes.now last).taken) }
        ensures buffered { OnOk result (self.new ≡ record { settings = self.old.settings; buffered = (step self.old.settings self.old.buffered bytes.now last).buffered }) }
        ensures kept { OnErr result (self.new ≡ self.old) }
        ensures memory { IsOkUnless result StoreError.OutOfMemory }
    {
        let Some(taken) = self.next_boundary(bytes) else {
            if last {
                return Ok((self.end(bytes)?, bytes.len()));
            }
            self.append(bytes);
            return Ok((None, bytes.len()));
        };
        let chunk = joined(self.alloc, &self.buffered, &bytes[..taken])?;
        self.clear();
        Ok((Some(chunk), taken))
    }

    /// The chunks that end in `bytes`. The bytes after them stay buffered, unless these are the `last` bytes: then they
    /// are a chunk too, and the next bytes begin a new stream. Each chunk is scanned, digested and copied once. The only
    /// error is `StoreError::OutOfMemory`; the chunker is then as before.
    pub fn next_block(&mut self, bytes: &[u8], last: bool) -> Result<Vec<Chunk>, StoreError>
        ensures block { IfOk result (λ chunks. IsBlock self.old.settings (self.old.buffered ++ bytes.now) last chunks.items self.new.buffered) }
        ensures settings { self.new.settings ≡ self.old.settings }
        ensures kept { OnErr result (self.new ≡ self.old) }
        ensures memory { IsOkUnless result StoreError.OutOfMemory }
    {
        self.block(bytes, None, last)
    }

    /// The same chunks as `next_block`. Those that begin in `bytes` share them, and are not copied.
    pub fn next_block_bytes(&mut self, bytes: &Bytes, last: bool) -> Result<Vec<Chunk>, StoreError>
        ensures block { IfOk result (λ chunks. IsBlock self.old.settings (self.old.buffered ++ bytes.now) last chunks.items self.new.buffered) }
        ensures settings { self.new.settings ≡ self.old.settings }
        ensures kept { OnErr result (self.new ≡ self.old) }
        ensures memory { IsOkUnless result StoreError.OutOfMemory }
    {
        self.block(bytes.as_slice(), Some(bytes), last)
    }

    /// Ends the stream: what is buffered, as a chunk, or none if nothing is. Nothing is buffered then. The only error is
    /// `StoreError::OutOfMemory`; the chunker is then as before.
    pub fn finish(&mut self) -> Result<Option<Chunk>, StoreError>
        ensures chunk { IfOk result (λ chunk. chunk ≡ option_map chunk_of (if_any self.old.buffered)) }
        ensures buffered { OnOk result (self.new ≡ record { settings = self.old.settings; buffered = [] }) }
        ensures kept { OnErr result (self.new ≡ self.old) }
        ensures memory { IsOkUnless result StoreError.OutOfMemory }
    {
        self.end(&[])
    }

    /// What is buffered and then `bytes`, as a chunk, or none if both are empty. Nothing is buffered then.
    fn end(&mut self, bytes: &[u8]) -> Result<Option<Chunk>, StoreError>
        ensures chunk { IfOk result (λ chunk. chunk ≡ option_map chunk_of (if_any (self.old.buffered ++ bytes.now))) }
        ensures buffered { OnOk result (self.new ≡ record { settings = self.old.settings; buffered = [] }) }
        ensures kept { OnErr result (self.new ≡ self.old) }
        ensures memory { IsOkUnless result StoreError.OutOfMemory }
    {
        if self.buffered.len() + bytes.len() == 0 {
            return Ok(None);
        }
        let chunk = joined(self.alloc, &self.buffered, bytes)?;
        self.clear();
        Ok(Some(chunk))
    }

    /// The chunks of a block. They share `shared`, which is `bytes`, where they can.
    fn block(
        &mut self,
        bytes: &[u8],
        shared: Option<&Bytes>,
        last: bool,
    ) -> Result<Vec<Chunk>, StoreError>
        requires { ForSome shared (λ whole. whole.now ≡ bytes.now) }
        ensures block { IfOk result (λ chunks. IsBlock self.old.settings (self.old.buffered ++ bytes.now) last chunks.items self.new.buffered) }
        ensures settings { self.new.settings ≡ self.old.settings }
        ensures kept { OnErr result (self.new ≡ self.old) }
        ensures memory { IsOkUnless result StoreError.OutOfMemory }
    {
        let mut chunks = Vec::new(self.alloc);
        let taken = self.cut(bytes, shared, &mut chunks)?;
        if last {
            self.push_rest(bytes, shared, taken, &mut chunks)?;
            self.clear();
        } else {
            self.keep(bytes, taken);
        }
        Ok(chunks)
    }

    /// The buffered bytes that are in no chunk yet, if the chunks of a block took so many of its bytes.
    fn unsplit(&self, taken: usize) -> &[u8]
        ensures { result.now ≡ unsplit self.now.buffered taken }
    {
        if taken == 0 { &self.buffered } else { &[] }
    }

    /// Appends the chunks that end in `bytes`, and returns the number of bytes up to the last of them.
    fn cut(
        &self,
        bytes: &[u8],
        shared: Option<&Bytes>,
        chunks: &mut Vec<Chunk>,
    ) -> Result<usize, StoreError>
        requires shared { ForSome shared (λ whole. whole.now ≡ bytes.now) }
        requires none { chunks.old.items ≡ [] }
        ensures cut { IfOk result (λ taken. IsCut self.now.settings self.now.buffered bytes.now taken chunks.new.items) }
        ensures unended { IfOk result (λ taken. boundary_in self.now.settings (left self.now.buffered bytes.now taken) ≡ None) }
        ensures memory { IsOkUnless result StoreError.OutOfMemory }
    {
        let mut taken = 0;
        'chunks: while let Some(n) = boundary(&self.limits, self.unsplit(taken), &bytes[taken..]) {
            let before = self.unsplit(taken);
            chunks.push(chunk(self.alloc, before, bytes, shared, taken, taken + n)?)?;
            taken += n;
        }
        Ok(taken)
    }

    /// Appends the bytes that are in no chunk yet as a chunk, if there are any.
    fn push_rest(
        &self,
        bytes: &[u8],
        shared: Option<&Bytes>,
        taken: usize,
        chunks: &mut Vec<Chunk>,
    ) -> Result<(), StoreError>
        requires shared { ForSome shared (λ whole. whole.now ≡ bytes.now) }
        requires within { taken ≤ length bytes.now }
        ensures chunks { OnOk result (chunks.new.items ≡ chunks.old.items ++ map chunk_of (option_to_list (if_any (left self.now.buffered bytes.now taken)))) }
        ensures memory { IsOkUnless result StoreError.OutOfMemory }
    {
        let before = self.unsplit(taken);
        if before.len() + (bytes.len() - taken) > 0 {
            chunks.push(chunk(self.alloc, before, bytes, shared, taken, bytes.len())?)?;
        }
        Ok(())
    }

    /// Buffers the bytes that are in no chunk yet.
    fn keep(&mut self, bytes: &[u8], taken: usize)
        requires within { taken ≤ length bytes.now }
        requires unended { boundary_in self.old.settings (left self.old.buffered bytes.now taken) ≡ None }
        ensures { self.new ≡ record { settings = self.old.settings; buffered = left self.old.buffered bytes.now taken } }
    {
        if taken > 0 {
            self.clear();
        }
        self.append(&bytes[taken..]);
    }

    /// Buffers these bytes after those that are buffered, for which it has the room.
    fn append(&mut self, bytes: &[u8])
        requires { boundary_in self.old.settings (self.old.buffered ++ bytes.now) ≡ None }
        ensures { self.new ≡ record { settings = self.old.settings; buffered = self.old.buffered ++ bytes.now } }
    {
        let _ = self.buffered.extend_from_slice(bytes);
    }

    /// Nothing is buffered afterwards.
    fn clear(&mut self)
        ensures { self.new ≡ record { settings = self.old.settings; buffered = [] } }
    {
        self.buffered.clear();
    }
}

/// The chunk of `before`, and then bytes FROM..TO of `bytes`, TO excluded. It shares `shared`, which is `bytes`, if
/// `before` is empty.
fn chunk(
    alloc: Global,
    before: &[u8],
    bytes: &[u8],
    shared: Option<&Bytes>,
    from: usize,
    to: usize,
) -> Result<Chunk, StoreError>
    requires shared { ForSome shared (λ whole. whole.now ≡ bytes.now) }
    requires order { from ≤ to }
    requires within { to ≤ length bytes.now }
    ensures chunk { IfOk result (λ chunk. chunk ≡ chunk_of (before.now ++ slice_range bytes.now from to)) }
    ensures memory { IsOkUnless result StoreError.OutOfMemory }
{
    match shared {
        Some(whole) if before.is_empty() => Ok(Chunk::new(whole.slice(from..to)?)),
        _ => joined(alloc, before, &bytes[from..to]),
    }
}

/// The chunk of `before` and then `bytes`, copied.
fn joined(alloc: Global, before: &[u8], bytes: &[u8]) -> Result<Chunk, StoreError>
    ensures chunk { IfOk result (λ chunk. chunk ≡ chunk_of (before.now ++ bytes.now)) }
    ensures memory { IsOkUnless result StoreError.OutOfMemory }
{
    let mut whole = Vec::with_capacity(alloc, before.len() + bytes.len())?;
    whole.extend_from_slice(before)?;
    whole.extend_from_slice(bytes)?;
    Ok(Chunk::new(Bytes::from_vec(whole)?))
}
