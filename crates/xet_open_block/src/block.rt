//! `OpenBlock`.

ghost use Rattle.std.specs.Prelude.{◌≡◌, ◌+◌, ◌<◌, ◌≤◌, ◌↔◌, ◌^◌, [], ◌∷◌, ◌++◌, None, Some, IfOk, IfSome, IsOkUnless, IsTrue, OnErr, OnOk, drop, length, map, take};
ghost use Rattle.xet_choices.specs.Choices.{fits};
ghost use Rattle.xet_open_block.specs.OpenBlock.{first_place, open_run, run_from};
ghost use Rattle.xet_xorb.specs.Raw.{ArePartsOfXorb, IsRaw, raw_leaves, raw_of};
ghost use Rattle.xet_xorb_chunk.specs.Chunks.{bytes_of_chunk, chunk_leaf, total};

use bytes::Bytes;
use indexmap::IndexMap;
use std::alloc::Global;
use std::marker::Model;
use xet_cut::Limits;
use xet_hash::{MerkleHash, StoreError};
use xet_xorb::RawXorbData;
use xet_xorb_chunk::Chunk;

/// The chunks of the xorb that is being filled. Contracts see the list of the chunks.
#[derive(Drop)]
pub struct OpenBlock {
    chunks: Vec<Chunk>,
    /// The number of bytes of all chunks.
    bytes: u64,
    /// The last index of each chunk hash.
    places: IndexMap<MerkleHash, usize>,
    /// At least this many of the first chunks were there at the last `release`.
    released: usize,
}

impl Model for OpenBlock {
    ghost use Rattle.std.specs.Prelude.{List};
    ghost use Rattle.xet_open_block.specs.OpenBlock.{IsTracked};
    ghost use Rattle.xet_xorb_chunk.specs.declared.chunk.Chunk.{Chunk};

    ghost Value = { List Chunk };

    ghost view = { λ b. b.chunks.items };

    ghost invariant = { λ b. IsTracked b.chunks.items b.bytes b.places.entries };
}

impl OpenBlock {
    /// A block of no chunks. Does not allocate.
    pub fn new(alloc: Global) -> OpenBlock
        ensures { result ≡ [] }
    {
        OpenBlock {
            chunks: Vec::new(alloc),
            bytes: 0,
            places: IndexMap::new(alloc),
            released: 0,
        }
    }

    /// Number of chunks.
    pub fn len(&self) -> usize
        ensures { result ≡ length self.now }
    {
        self.chunks.len()
    }

    /// Whether there are no chunks.
    pub fn is_empty(&self) -> bool
        ensures { IsTrue result ↔ (self.now ≡ []) }
    {
        self.chunks.is_empty()
    }

    /// Number of uncompressed bytes of all chunks, in constant time.
    pub fn num_bytes(&self) -> u64
        ensures value { result ≡ total self.now }
        ensures bound { result < 2 ^ 63 }
    {
        self.bytes
    }

    /// The chunks, in order.
    pub fn chunks(&self) -> &[Chunk]
        ensures { result.now ≡ self.now }
    {
        self.chunks.as_slice()
    }

    /// Whether one more chunk of so many bytes stays within the limits of a xorb. Does not allocate, and takes constant
    /// time.
    pub fn fits(&self, limits: &Limits, bytes: usize) -> bool
        ensures { result ≡ fits limits.now (map chunk_leaf self.now) bytes }
    {
        let cut_bytes = u64::from(limits.cut_bytes());
        self.bytes <= cut_bytes
            && bytes as u64 <= cut_bytes - self.bytes
            && self.chunks.len() < limits.cut_chunks() as usize
    }

    /// The run of a query: the last index of its first hash, and how many of its hashes, from the first on, have their
    /// last indices there and at the indices after it, one after the other. None if no chunk has the first hash, or if
    /// the query is empty. Does not allocate. Looks up each hash of the run once, and the first hash after it.
    #[tactic(auto, unfolding(crate::specs::OpenBlock::open_run))]
    pub fn find_run(&self, hashes: &[MerkleHash]) -> Option<(usize, usize)>
        ensures exact { result ≡ open_run hashes.now (map chunk_leaf self.now) }
        ensures none { result ≡ None → first_place hashes.now (map chunk_leaf self.now) ≡ None }
        ensures start { IfSome result (λ run. first_place hashes.now (map chunk_leaf self.now) ≡ Some run.0) }
        ensures some { IfSome result (λ run. 0 < run.1) }
        ensures few { IfSome result (λ run. run.1 ≤ length hashes.now) }
        ensures within { IfSome result (λ run. run.0 + run.1 ≤ length self.now) }
        ensures same { IfSome result (λ run. map (λ c. c.hash) (take run.1 (drop run.0 self.now)) ≡ take run.1 hashes.now) }
    {
        let (first, rest) = hashes.split_first()?;
        let start = *self.places.get(first)?;
        Some((start, 1 + self.run_length(rest, start + 1)))
    }

    /// How many of these hashes, from the first on, have their last indices at `start`, `start + 1` and so on.
    fn run_length(&self, hashes: &[MerkleHash], start: usize) -> usize
        requires { start ≤ length self.now }
        ensures value { result ≡ run_from hashes.now start (map chunk_leaf self.now) }
        ensures few { result ≤ length hashes.now }
    {
        let mut count = 0;
        while count < hashes.len()
            && self.places.get(&hashes[count]).copied() == Some(start + count)
        {
            count += 1;
        }
        count
    }

    /// Number of uncompressed bytes of `count` chunks from index `start` on. The caller ensures that there are as many.
    pub fn bytes_of(&self, start: usize, count: usize) -> u64
        requires { start + count ≤ length self.now }
        ensures value { result ≡ total (take count (drop start self.now)) }
        ensures bound { result ≤ total self.now }
    {
        total_bytes(&self.chunks[start..start + count])
    }

    /// Adds a chunk at the end, with the hash that it carries, in amortized constant time. The caller ensures that all
    /// chunks together have fewer than 2^63 bytes. The only error is `StoreError::OutOfMemory`; the block is then
    /// unchanged.
    pub fn push(&mut self, chunk: Chunk) -> Result<(), StoreError>
        requires { total self.old + length chunk.bytes < 2 ^ 63 }
        ensures pushed { OnOk result (self.new ≡ self.old ++ chunk ∷ []) }
        ensures kept { OnErr result (self.new ≡ self.old) }
        ensures memory { IsOkUnless result StoreError.OutOfMemory }
    {
        self.chunks.reserve(1)?;
        self.places.insert(chunk.hash, self.chunks.len())?;
        self.bytes += chunk.bytes.len() as u64;
        self.chunks.push_reserved(chunk);
        Ok(())
    }

    /// The xorb of the chunks; index 0 is its only file boundary. Shares their bytes. The caller ensures that they are
    /// within the limits of `RawXorbData::from_chunks`. The only error is `StoreError::OutOfMemory`.
    pub fn xorb(&self, alloc: Global) -> Result<RawXorbData, StoreError>
        requires { ArePartsOfXorb (map bytes_of_chunk self.now) }
        ensures exact { IfOk result (λ raw. raw ≡ raw_of self.now (0 ∷ [])) }
        ensures leaves { IfOk result (λ raw. raw_leaves raw ≡ map chunk_leaf self.now) }
        ensures raw { IfOk result IsRaw }
        ensures memory { IsOkUnless result StoreError.OutOfMemory }
    {
        let boundaries = vec![in alloc; 0]?;
        RawXorbData::from_chunks(alloc, self.chunks.as_slice(), boundaries)
    }

    /// Removes all chunks, and keeps the capacity. Does not allocate.
    pub fn clear(&mut self)
        ensures { self.new ≡ [] }
    {
        self.chunks.clear();
        self.places.clear();
        self.bytes = 0;
        self.released = 0;
    }

    /// Gives the chunks since the last call memory of their own, if they take less than half of a buffer of `len` bytes which
    /// they may share: so the buffer can be freed. Where memory is out, chunks go on sharing it. No chunk changes.
    pub fn release(&mut self, alloc: Global, len: usize)
        ensures { self.new ≡ self.old }
    {
        let count = self.chunks.len();
        let from = self.released.min(count);
        if self.bytes_of(from, count - from) < len as u64 / 2 {
            copy_each(alloc, &mut self.chunks[from..]);
        }
        self.released = count;
    }

    /// The chunks, in order. Does not allocate.
    pub fn into_chunks(self) -> Vec<Chunk>
        ensures { result.items ≡ self }
    {
        self.chunks
    }
}

/// Gives each chunk memory of its own, as far as there is any.
fn copy_each(alloc: Global, chunks: &mut [Chunk])
    ensures { chunks.new ≡ chunks.old }
{
    for chunk in chunks.iter_mut() {
        copy(alloc, chunk);
    }
}

/// Gives a chunk memory of its own, if there is any.
fn copy(alloc: Global, chunk: &mut Chunk)
    ensures { chunk.new ≡ chunk.old }
{
    if let Ok(bytes) = Bytes::copy_from_slice(alloc, chunk.bytes.as_slice()) {
        chunk.bytes = bytes;
    }
}

/// Number of uncompressed bytes of these chunks.
fn total_bytes(chunks: &[Chunk]) -> u64
    requires { total chunks.now < 2 ^ 63 }
    ensures { result ≡ total chunks.now }
{
    chunks.iter().map(|chunk| chunk.bytes.len() as u64).sum()
}
