//! `DeduplicationDataInterface`: what the deduplication of a file asks of a store.

ghost use Rattle.std.specs.Prelude.{◌≡◌, ◌≢◌, ◌<◌, ◌++◌, ◌∷◌, All, Bool, ℕ, List, [], length, map, Option, Some, option_map, false, true, IfErr, IfOk, IfSome, OnErr, OnOk};
ghost use Rattle.xet_choices.specs.Calls.{Call, entries_of};
ghost use Rattle.xet_choices.specs.Calls.Call.{Registered};
ghost use Rattle.xet_dedup_queries.specs.Acts.{Act};
ghost use Rattle.xet_dedup_queries.specs.Acts.Act.{Begun, Ended, Noted, Queried, Stored};
ghost use Rattle.xet_dedup_queries.specs.Interface.{Extends, IsFoundRun, asked};
ghost use Rattle.xet_dedup_queries.specs.Registering.{EachPartStands, IsDue, IsNewXorb};
ghost use Rattle.xet_hash.specs.Hash.{sentinel};
ghost use Rattle.xet_shard_format.specs.declared.record.FileDataSequenceEntry.{FileDataSequenceEntry as Segment};
ghost use Rattle.xet_xorb.specs.Raw.{raw_leaves};

use xet_hash::MerkleHash;
use xet_shard_format::FileDataSequenceEntry;
use xet_xorb::RawXorbData;

/// That a file uses a xorb.
#[derive(Clone, Copy, PartialEq, Eq, Debug)]
pub struct FileXorbDependency {
    /// The number by which the caller knows the file.
    pub file_id: u64,
    /// The xorb hash.
    pub xorb_hash: MerkleHash,
    /// The number of the file's bytes that were found in the xorb, or all bytes of the xorb if it is new.
    pub n_bytes: u64,
    /// Whether the xorb was known before the store was opened, as the query answered.
    pub is_external: bool,
}

/// The store, as the deduplication of a file sees it. Any call may fail with an error of the store.
pub trait DeduplicationDataInterface {
    type ErrorType: Drop;

    /// The lengths in bytes of the chunks of each xorb that is known, by its hash. No call removes one. Each hash has at
    /// most one list: a store that knows two for one hash, which is a collision, fails or finds no run in that xorb.
    ghost lists: { Self → List ℕ → Option (List ℕ) };

    /// That chunks with these hashes are those of a run. What stands in a run stays.
    ghost stands: { Self → List (List ℕ) → Segment → Type 0 };

    /// The queries and registrations through this value, in order.
    ghost calls: { Self → List Call };

    /// That a call between an earlier and a later state failed with this error.
    ghost refused: { Self → Self → Self.ErrorType → Type 0 };

    /// The calls of this value that did not fail, in order, each with its arguments and its answer; all but `last_query`,
    /// which changes nothing.
    ghost acts: { Self → List Act };

    /// Whether a call has failed.
    ghost failed: { Self → Bool };

    /// The maximum numbers of bytes and of chunks of a xorb. No call changes them.
    ghost cut_limits: { Self → ℕ × ℕ };

    /// Whether queries may be sent elsewhere, and find runs later.
    ghost is_global: { Bool };

    /// Looks up a run that begins with the first of these chunk hashes and goes on with the next ones; not always the
    /// longest. Returns its number of chunks, the run, and whether it is external; `None` if nothing was found.
    fn chunk_hash_dedup_query(
        &mut self,
        hashes: &[MerkleHash],
    ) -> Result<Option<(usize, FileDataSequenceEntry, bool)>, Self::ErrorType>
        ensures found { IfOk result (λ reply. IfSome reply (λ r. IsFoundRun (lists self.new) (stands self.new) hashes.now r.0 r.1)) }
        ensures acted { IfOk result (λ reply. acts self.new ≡ acts self.old ++ Queried hashes.now (option_map (λ r. (r.1, r.2)) reply) ∷ []) }
        ensures kept_acts { OnErr result (acts self.new ≡ acts self.old) }
        ensures asked { IfOk result (λ reply. (entry : ℕ) × All (λ n. n < entry) (entries_of (calls self.old)) × (calls self.new ≡ calls self.old ++ asked entry hashes.now (option_map (λ r. r.0) reply))) }
        ensures kept { OnErr result (calls self.new ≡ calls self.old) }
        ensures refused { IfErr result (λ e. refused self.old self.new e) }
        ensures passed { OnOk result (failed self.new ≡ failed self.old) }
        ensures failed { OnErr result (failed self.new ≡ true) }
        ensures extends { Extends lists stands refused cut_limits self.old self.new };

    /// The number of the history entry of the latest query, whatever came after it. If there was none it is any number.
    fn last_query(&self) -> u64
        ensures { (before : List ℕ) (entry : ℕ) → entries_of (calls self.now) ≡ before ++ entry ∷ [] → result ≡ entry };

    /// Begins a query for a chunk hash elsewhere.
    fn register_global_dedup_query(&mut self, hash: MerkleHash) -> Result<(), Self::ErrorType>
        ensures acted { OnOk result (acts self.new ≡ acts self.old ++ Begun hash ∷ []) }
        ensures kept_acts { OnErr result (acts self.new ≡ acts self.old) }
        ensures calls { calls self.new ≡ calls self.old }
        ensures refused { IfErr result (λ e. refused self.old self.new e) }
        ensures passed { OnOk result (failed self.new ≡ failed self.old) }
        ensures failed { OnErr result (failed self.new ≡ true) }
        ensures extends { Extends lists stands refused cut_limits self.old self.new };

    /// Ends the queries elsewhere. Returns whether they found something, so that queries are worth repeating.
    fn complete_global_dedup_queries(&mut self) -> Result<bool, Self::ErrorType>
        ensures acted { IfOk result (λ found. acts self.new ≡ acts self.old ++ Ended found ∷ []) }
        ensures kept_acts { OnErr result (acts self.new ≡ acts self.old) }
        ensures none { is_global ≡ false → IfOk result (λ found. found ≡ false) }
        ensures calls { calls self.new ≡ calls self.old }
        ensures refused { IfErr result (λ e. refused self.old self.new e) }
        ensures passed { OnOk result (failed self.new ≡ failed self.old) }
        ensures failed { OnErr result (failed self.new ≡ true) }
        ensures extends { Extends lists stands refused cut_limits self.old self.new };

    /// Stores a xorb. `next` lists the chunks that did not fit into it; it is empty if there are none.
    fn register_new_xorb(
        &mut self,
        xorb: RawXorbData,
        next: &[(MerkleHash, u64)],
    ) -> Result<(), Self::ErrorType>
        requires new { IsNewXorb (cut_limits self.old) xorb }
        requires due { IsDue (cut_limits self.old) (raw_leaves xorb) next.now }
        ensures listed { OnOk result (lists self.new xorb.xorb_info.metadata.xorb_hash ≡ Some (map (λ m. m.1) (raw_leaves xorb))) }
        ensures stands { OnOk result (EachPartStands (stands self.new) xorb) }
        ensures named { OnOk result (xorb.xorb_info.metadata.xorb_hash ≢ sentinel) }
        ensures acted { OnOk result (acts self.new ≡ acts self.old ++ Stored xorb next.now ∷ []) }
        ensures kept_acts { OnErr result (acts self.new ≡ acts self.old) }
        ensures registered { OnOk result (calls self.new ≡ calls self.old ++ Registered (raw_leaves xorb) next.now ∷ []) }
        ensures kept { OnErr result (calls self.new ≡ calls self.old) }
        ensures refused { IfErr result (λ e. refused self.old self.new e) }
        ensures passed { OnOk result (failed self.new ≡ failed self.old) }
        ensures failed { OnErr result (failed self.new ≡ true) }
        ensures extends { Extends lists stands refused cut_limits self.old self.new };

    /// Takes note of the xorbs that files use.
    fn register_xorb_dependencies(&mut self, dependencies: &[FileXorbDependency])
        ensures acted { acts self.new ≡ acts self.old ++ Noted dependencies.now ∷ [] }
        ensures calls { calls self.new ≡ calls self.old }
        ensures passed { failed self.new ≡ failed self.old }
        ensures extends { Extends lists stands refused cut_limits self.old self.new };
}
