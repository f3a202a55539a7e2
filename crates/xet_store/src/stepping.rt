//! `Stepping`: who makes the steps of a store.

ghost use Rattle.std.specs.Prelude.{◌≡◌, ◌⊎◌, ◌++◌, ◌∷◌, [], ℕ, List, IfErr, IfOk};
ghost use Rattle.xet_choices.specs.Calls.{entries_of};
ghost use Rattle.xet_store.specs.Holders.{Holder, IsHolder, calls_of, xorb_limits};
ghost use Rattle.xet_store.specs.Stepping.{SawComplete, SawError, SawOther, SawQuery, SawRegister, cut_to_complete, no_cut, cut_to_register};
ghost use Rattle.xet_dedup_queries.specs.Registering.{IsDue, IsNewXorb};
ghost use Rattle.xet_shard_format.specs.Records.{IsFile};
ghost use Rattle.xet_xorb.specs.Raw.{raw_leaves};

use xet_cut::Limits;
use xet_hash::{MerkleHash, StoreError};
use xet_history::StepKind;
use xet_shard_format::{FileDataSequenceEntry, MDBFileInfo};
use xet_xorb::RawXorbData;

/// Who makes the steps of a store: a caller that has it alone, or one of several that share it. A step that fails is the
/// last one: each later call fails too, with `OutOfMemory`, and does nothing.
pub trait Stepping {
    /// What it has seen of the history, and which entries are its own.
    ghost holder: { Self → Holder };

    /// Proof aid without effect: makes it available to the caller that its own entries stand in what it has seen.
    fn recall_invariant(&self)
        ensures { IsHolder (holder self.now) };

    /// The limits of the store.
    fn limits(&self) -> &Limits
        ensures { result.now ≡ (holder self.now).limits };

    /// The number of the history entry of its latest query, whatever came after it. If there was none it is any number.
    fn last_query(&self) -> u64
        ensures { (before : List ℕ) (entry : ℕ) → entries_of (calls_of (holder self.now)) ≡ before ++ entry ∷ [] → result ≡ entry };

    /// How many of the first hashes of a query are those of consecutive chunks of a listed xorb, and the segment of these
    /// chunks. None, without an entry, if the query is empty.
    fn query(
        &mut self,
        hashes: &[MerkleHash],
    ) -> Result<Option<(usize, FileDataSequenceEntry)>, StoreError>
        ensures saw { IfOk result (SawQuery hashes.now (holder self.old) (holder self.new)) }
        ensures refused { IfErr result (SawError StepKind.Query no_cut (holder self.old) (holder self.new)) };

    /// Stores a xorb and lists it, unless one of its hash is listed. Returns whether none was. `next` lists the chunks that
    /// did not fit into the xorb. `OutOfMemory` is also returned if a xorb of its hash is listed with other chunks, or if its
    /// hash is the sentinel.
    fn register(
        &mut self,
        xorb: RawXorbData,
        next: &[(MerkleHash, u64)],
    ) -> Result<bool, StoreError>
        requires new { IsNewXorb (xorb_limits (holder self.old).limits) xorb }
        requires due { IsDue (xorb_limits (holder self.old).limits) (raw_leaves xorb) next.now }
        ensures saw { IfOk result (SawRegister (raw_leaves xorb) next.now (holder self.old) (holder self.new)) }
        ensures refused { IfErr result (SawError StepKind.Register (cut_to_register (holder self.old) (raw_leaves xorb)) (holder self.old) (holder self.new)) };

    /// Records a file, unless its hash is recorded. Returns whether none was. A file that may not be recorded over the listed
    /// xorbs is refused as `MalformedData(OtherFileHash)`.
    fn complete(&mut self, file: MDBFileInfo) -> Result<bool, StoreError>
        requires form { IsFile file }
        ensures saw { IfOk result (SawComplete file (holder self.old) (holder self.new)) }
        ensures refused { IfErr result (λ e. SawOther file (holder self.old) (holder self.new) e ⊎ SawError StepKind.Complete (cut_to_complete (holder self.old) file) (holder self.old) (holder self.new) e) };
}
