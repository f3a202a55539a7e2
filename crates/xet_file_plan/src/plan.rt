//! `FilePlan`.

ghost use Rattle.std.specs.Prelude.{◌≡◌, ◌≢◌, ◌<◌, ◌≤◌, ◌+◌, ◌^◌, ◌∷◌, [], ℕ, None, Some, IfOk, IfSome, IsOkUnless, OnOk, drop, false, length, map, option_map, take, true};
ghost use Rattle.xet_choices.specs.Choices.{fits, hashes_of, last_place};
ghost use Rattle.xet_dedup_queries.specs.Interface.{run_len};
ghost use Rattle.xet_dedup_queries.specs.Registering.{max_chunk_len};
ghost use Rattle.xet_file_plan.specs.Kept.{IsBlockWithin, IsBlockRun, joined_bytes, max_chunks};
ghost use Rattle.xet_cut.specs.Limits.{AreInRange};
ghost use Rattle.xet_file_plan.specs.Moves.{PlanState, block_run, closed, continues, empty_plan, is_open, joined, rejected, stored};
ghost use Rattle.xet_fragmentation.specs.Fragmentation.{chunks_in, is_allowed, with_longer_range, with_range};
ghost use Rattle.xet_hash.specs.Hash.{sentinel};
ghost use Rattle.xet_open_block.specs.OpenBlock.{first_place, open_run};
ghost use Rattle.xet_xorb.specs.Raw.{IsRaw, raw_leaves, raw_of};
ghost use Rattle.xet_xorb_chunk.specs.Chunks.{chunk_leaf};

use crate::segments::{add_run, continues, fill};
use std::alloc::Global;
use std::marker::Model;
use xet_choices::Choice;
use xet_cut::Limits;
use xet_fragmentation::DefragPrevention;
use xet_fragmentation::laws::chunks_are_bounded;
use xet_hash::{MerkleHash, StoreError};
use xet_open_block::OpenBlock;
use xet_shard_format::FileDataSequenceEntry;
use xet_xorb::RawXorbData;
use xet_xorb_chunk::Chunk;

/// The plan of a file so far: its chunks, the segments in which they lie, and why each was stored or found. Chunks that
/// are stored are in the open block until it is registered as a xorb. Contracts see a `PlanState`. After an error of a
/// call that changes it, the plan is of no use.
#[derive(Drop)]
pub struct FilePlan {
    limits: Limits,
    /// The hash and length of each chunk.
    leaves: Vec<(MerkleHash, u64)>,
    segments: Vec<FileDataSequenceEntry>,
    block: OpenBlock,
    choices: Vec<Choice>,
    guard: DefragPrevention,
    /// This many of the first segments are not open.
    closed: usize,
}

impl Model for FilePlan {
    ghost use Rattle.std.specs.Prelude.{length};
    ghost use Rattle.xet_file_plan.specs.internal.Invariant.{IsKept};
    ghost use Rattle.xet_file_plan.specs.Moves.{PlanState};

    ghost Value = { PlanState };

    ghost view = { λ p. record { settings = p.limits; leaves = p.leaves.items; segments = p.segments.items; block = p.block; choices = p.choices.items; guard = p.guard } };

    ghost invariant = { λ p. IsKept p.limits p.leaves.items p.segments.items p.block p.guard p.closed };
}

/// The parts of a plan.
#[derive(Drop)]
pub struct PlanParts {
    /// The hash and length of each chunk.
    pub leaves: Vec<(MerkleHash, u64)>,
    /// The segments, in order. Those of the open block have the sentinel for their xorb hash.
    pub segments: Vec<FileDataSequenceEntry>,
    /// The chunks of the open block.
    pub block: Vec<Chunk>,
    /// Why each chunk was stored or found.
    pub choices: Vec<Choice>,
}

impl FilePlan {
    /// The plan of no chunks. The only error is `StoreError::OutOfMemory`.
    pub fn new(alloc: Global, limits: &Limits) -> Result<FilePlan, StoreError>
        ensures new { IfOk result (λ plan. plan ≡ empty_plan limits.now) }
        ensures memory { IsOkUnless result StoreError.OutOfMemory }
    {
        limits.recall_invariant();
        let guard = DefragPrevention::new(alloc, limits)?;
        Ok(FilePlan {
            limits: *limits,
            leaves: Vec::new(alloc),
            segments: Vec::new(alloc),
            block: OpenBlock::new(alloc),
            choices: Vec::new(alloc),
            guard,
            closed: 0,
        })
    }

    /// Proof aid without effect: makes it available to the caller that the open block is within the limits of a xorb, and
    /// that the limits are in their ranges.
    pub fn recall_invariant(&self)
        ensures block { IsBlockWithin self.now.settings self.now.block }
        ensures range { AreInRange self.now.settings }
        ensures few { length self.now.leaves ≤ max_chunks }
    {
        let _ = &self.leaves;
    }

    /// Number of chunks.
    pub fn len(&self) -> usize
        ensures value { result ≡ length self.now.leaves }
        ensures few { result ≤ max_chunks }
    {
        self.leaves.len()
    }

    /// The hash and length of each chunk.
    pub fn leaves(&self) -> &[(MerkleHash, u64)]
        ensures { result.now ≡ self.now.leaves }
    {
        &self.leaves
    }

    /// Why each chunk was stored or found.
    pub fn choices(&self) -> &[Choice]
        ensures { result.now ≡ self.now.choices }
    {
        &self.choices
    }

    /// The longest run of the open block that begins at the last index of the first of these hashes and goes on through
    /// last indices: its number of chunks, and the run. `None` if no chunk of the block has this hash.
    pub fn find_run(&self, hashes: &[MerkleHash]) -> Option<(usize, FileDataSequenceEntry)>
        ensures exact { option_map (λ r. (r.1.chunk_index_start, r.0)) result ≡ open_run hashes.now (map chunk_leaf self.now.block) }
        ensures none { result ≡ None → first_place hashes.now (map chunk_leaf self.now.block) ≡ None }
        ensures first { IfSome result (λ r. first_place hashes.now (map chunk_leaf self.now.block) ≡ Some r.1.chunk_index_start) }
        ensures counted { IfSome result (λ r. (0 < r.0) × (r.0 ≤ length hashes.now) × (run_len r.1 ≡ r.0)) }
        ensures open { IfSome result (λ r. is_open r.1 ≡ true) }
        ensures run { IfSome result (λ r. IsBlockRun self.now.block r.1) }
        ensures same { IfSome result (λ r. take r.0 (drop r.1.chunk_index_start (hashes_of (map chunk_leaf self.now.block))) ≡ take r.0 hashes.now) }
    {
        let (start, count) = self.block.find_run(hashes)?;
        let bytes = self.block.bytes_of(start, count);
        Some((
            count,
            FileDataSequenceEntry::new(
                MerkleHash::marker(),
                bytes as u32,
                start as u32,
                (start + count) as u32,
            ),
        ))
    }

    /// Lets the run that was found for chunks with these leaves join the plan, and returns `true`; or `false` if the
    /// guard rejects it. A run that goes on where the last segment ends is not rejected.
    pub fn try_join(
        &mut self,
        run: FileDataSequenceEntry,
        leaves: &[(MerkleHash, u64)],
    ) -> Result<bool, StoreError>
        requires some { 0 < length leaves.now }
        requires room { length self.old.leaves + length leaves.now ≤ max_chunks }
        requires bytes { joined_bytes self.old.segments run < 2 ^ 32 }
        requires open { is_open run ≡ true → IsBlockRun self.old.block run }
        ensures joined { IfOk result (λ is. is ≡ true → self.new ≡ joined self.old run leaves.now) }
        ensures allowed { IfOk result (λ is. is ≡ true → continues self.old.segments run ≡ false → is_allowed self.old.guard (length leaves.now) ≡ true) }
        ensures rejected { IfOk result (λ is. is ≡ false → self.new ≡ rejected self.old (length leaves.now)) }
        ensures refused { IfOk result (λ is. is ≡ false → (continues self.old.segments run ≡ false) × (is_allowed self.old.guard (length leaves.now) ≡ false)) }
        ensures memory { IsOkUnless result StoreError.OutOfMemory }
    {
        let count = leaves.len() as u64;
        if !self.may_join(&run, count) {
            return Ok(false);
        }
        self.leaves.extend_from_slice(leaves)?;
        let continued = add_run(&mut self.segments, run)?;
        let segment = (self.segments.len() - 1) as u64;
        self.choices.resize(
            self.choices.len() + leaves.len(),
            Choice::Reused { segment },
        )?;
        add_range(&mut self.guard, continued, count);
        Ok(true)
    }

    /// Whether a run of so many chunks may join the plan: it goes on where the last segment ends, or the guard allows it.
    fn may_join(&mut self, run: &FileDataSequenceEntry, count: u64) -> bool
        ensures continued { continues self.old.segments run.now ≡ true → (result ≡ true) × (self.new ≡ self.old) }
        ensures asked { continues self.old.segments run.now ≡ false → (result ≡ is_allowed self.old.guard count) × (self.new ≡ rejected self.old count) }
    {
        chunks_are_bounded();
        continues(&self.segments, run) || self.guard.allow_dedup_on_next_range(count)
    }

    /// Whether a chunk of so many bytes joins the open block within the limits of a xorb.
    pub fn fits(&self, length: usize) -> bool
        ensures { result ≡ fits self.now.settings (map chunk_leaf self.now.block) length }
    {
        self.block.fits(&self.limits, length)
    }

    /// Stores a chunk in the open block, into which it must fit, for this reason.
    pub fn store_chunk(&mut self, chunk: Chunk, choice: Choice) -> Result<(), StoreError>
        requires fits { fits self.old.settings (map chunk_leaf self.old.block) (length chunk.bytes) ≡ true }
        requires small { length chunk.bytes ≤ max_chunk_len }
        requires room { length self.old.leaves + 1 ≤ max_chunks }
        ensures stored { OnOk result (self.new ≡ stored self.old chunk choice) }
        ensures memory { IsOkUnless result StoreError.OutOfMemory }
    {
        let start = self.block.len() as u32;
        let length = chunk.bytes.len();
        let run = FileDataSequenceEntry::new(MerkleHash::marker(), length as u32, start, start + 1);
        self.leaves.push((chunk.hash, length as u64))?;
        self.choices.push(choice)?;
        self.block.push(chunk)?;
        let continued = add_run(&mut self.segments, run)?;
        add_range(&mut self.guard, continued, 1);
        Ok(())
    }

    /// The xorb of the open block's chunks, which shares their bytes. The only error is `StoreError::OutOfMemory`.
    pub fn xorb(&self, alloc: Global) -> Result<RawXorbData, StoreError>
        ensures exact { IfOk result (λ raw. raw ≡ raw_of self.now.block (0 ∷ [])) }
        ensures leaves { IfOk result (λ raw. raw_leaves raw ≡ map chunk_leaf self.now.block) }
        ensures raw { IfOk result IsRaw }
        ensures memory { IsOkUnless result StoreError.OutOfMemory }
    {
        self.block.xorb(alloc)
    }

    /// Empties the open block, which was registered as the xorb with this hash. Allocates nothing.
    pub fn close_block(&mut self, hash: &MerkleHash)
        requires { hash.now ≢ sentinel }
        ensures { self.new ≡ closed self.old hash.now }
    {
        fill(&mut self.segments[self.closed..], hash);
        self.closed = self.segments.len();
        self.block.clear();
    }

    /// Gives the chunks of the open block since the last call memory of their own, if they take less than half of a buffer of
    /// `len` bytes which they may share, as `OpenBlock::release` does. The plan is unchanged.
    pub fn release(&mut self, alloc: Global, len: usize)
        ensures { self.new ≡ self.old }
    {
        self.block.release(alloc, len);
    }

    /// The parts. Allocates nothing.
    pub fn into_parts(self) -> PlanParts
        ensures leaves { result.leaves.items ≡ self.leaves }
        ensures segments { result.segments.items ≡ self.segments }
        ensures block { result.block.items ≡ self.block }
        ensures choices { result.choices.items ≡ self.choices }
    {
        PlanParts {
            leaves: self.leaves,
            segments: self.segments,
            block: self.block.into_chunks(),
            choices: self.choices,
        }
    }
}

/// Takes note of a range of so many chunks, or of a last range that is longer by so many.
fn add_range(guard: &mut DefragPrevention, continued: bool, count: u64)
    requires { chunks_in guard.old + count < 2 ^ 40 }
    ensures range { continued ≡ false → guard.new ≡ with_range guard.old count }
    ensures longer { continued ≡ true → guard.new ≡ with_longer_range guard.old count }
    ensures bound { chunks_in guard.new ≤ chunks_in guard.old + count }
{
    chunks_are_bounded();
    if continued {
        guard.increment_last_range_in_fragmentation_estimate(count);
    } else {
        guard.add_range_to_fragmentation_estimate(count);
    }
}
