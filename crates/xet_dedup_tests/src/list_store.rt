//! `ListStore`: a store in memory behind the interface of deduplication.

ghost use Rattle.std.specs.Prelude.{◌≡◌, ◌≢◌, ◌<◌, ◌+◌, ◌++◌, ◌∷◌, [], List, ℕ, All, IfOk, IfSome, OnErr, OnOk, Option, Some, length, map, option_map, take, true};
ghost use Rattle.xet_dedup_queries.specs.Interface.{IsFoundRun, asked, found_count};
ghost use Rattle.xet_dedup_tests.specs.Listing.{listing};
ghost use Rattle.xet_dedup_tests.specs.Logged.{calls_from};
ghost use Rattle.xet_choices.specs.Calls.{Call, entries_of};
ghost use Rattle.xet_hash.specs.Hash.{sentinel};
ghost use Rattle.xet_xorb.specs.Raw.{raw_leaves};

use crate::errors::TestError;
use crate::finding::{find_run, have_same_lengths, index_of};
use crate::known::KnownXorb;
use std::alloc::Global;
use xet_base::Items;
use xet_dedup_queries::{Acts, DeduplicationDataInterface, FileXorbDependency};
use xet_hash::MerkleHash;
use xet_shard_format::FileDataSequenceEntry;
use xet_xorb::RawXorbData;

/// A call that takes a number in the history.
#[derive(PartialEq, Eq, Debug, Drop)]
pub enum LoggedCall {
    /// A query of at least one hash.
    Asked {
        /// The hashes of the run that was found, and the next one if there is one; if none was found, the first hash.
        hashes: Items<MerkleHash>,
        /// The number of chunks of the run that was found.
        reply: Option<usize>,
    },
    /// The registration of a xorb.
    Registered {
        /// The hash and the length in bytes of each chunk.
        leaves: Items<(MerkleHash, u64)>,
        /// Those of the chunks that did not fit.
        next: Items<(MerkleHash, u64)>,
    },
}

/// A store that knows a list of xorbs, and logs the calls that it got. The number of a history entry is its index in the
/// log.
#[derive(Debug, Drop)]
pub struct ListStore {
    alloc: Global,
    /// The xorbs that queries look at, in order.
    pub xorbs: Vec<KnownXorb>,
    /// The xorbs that are known once the queries elsewhere have ended.
    pub elsewhere: Vec<KnownXorb>,
    /// The queries and registrations.
    pub log: Vec<LoggedCall>,
    /// The hashes for which queries elsewhere began.
    pub global_queries: Vec<MerkleHash>,
    /// The dependencies that were noted.
    pub dependencies: Vec<FileXorbDependency>,
    /// Whether memory was out when dependencies were to be noted.
    pub is_out_of_memory: bool,
    /// The maximum numbers of bytes and of chunks of a xorb.
    pub cut_limits: (u32, u32),
    /// The number of calls so far that may fail.
    pub calls: u64,
    /// The number, from 0, of the call that fails.
    pub fails_at: Option<u64>,
    /// Whether a call has failed.
    pub has_failed: bool,
    /// The calls that did not fail, for clauses.
    pub acts: Acts,
}

impl ListStore {
    /// A store that knows nothing, with the maximum numbers of bytes and of chunks of a xorb. Does not allocate.
    pub fn new(alloc: Global, cut_limits: (u32, u32)) -> ListStore
        ensures limits { result.cut_limits ≡ cut_limits }
        ensures empty { (result.xorbs.items ≡ []) × (result.log.items ≡ []) × (result.acts.items ≡ []) }
    {
        ListStore {
            alloc,
            xorbs: Vec::new(alloc),
            elsewhere: Vec::new(alloc),
            log: Vec::new(alloc),
            global_queries: Vec::new(alloc),
            dependencies: Vec::new(alloc),
            is_out_of_memory: false,
            cut_limits,
            calls: 0,
            fails_at: None,
            has_failed: false,
            acts: Acts::new(),
        }
    }

    /// Counts a call. It fails if it is the one that is to fail.
    fn count(&mut self) -> Result<(), TestError>
        ensures same { self.new ≡ record self.old { calls = self.new.calls } }
    {
        let call = self.calls;
        self.calls = call.saturating_add(1);
        if self.fails_at == Some(call) {
            return Err(TestError::Refused(call));
        }
        Ok(())
    }

    /// Knows a xorb from now on. If its hash is known already, its chunks must have the known lengths.
    fn learn(&mut self, xorb: KnownXorb) -> Result<(), TestError>
        ensures same { self.new ≡ record self.old { xorbs = self.new.xorbs } }
        ensures listed { OnOk result (listing self.new.xorbs.items xorb.hash ≡ Some (map (λ m. m.1) xorb.leaves)) }
        ensures keeps { (h lengths : List ℕ) → listing self.old.xorbs.items h ≡ Some lengths → listing self.new.xorbs.items h ≡ Some lengths }
    {
        match index_of(&self.xorbs, &xorb.hash) {
            Some(at) => {
                if !have_same_lengths(self.xorbs[at].leaves.as_slice(), xorb.leaves.as_slice()) {
                    return Err(TestError::OtherXorb);
                }
            }
            None => self.xorbs.push(xorb)?,
        }
        Ok(())
    }

    /// Knows the xorbs of elsewhere from now on.
    fn learn_all(&mut self) -> Result<(), TestError>
        ensures same { self.new ≡ record self.old { xorbs = self.new.xorbs; elsewhere = self.new.elsewhere } }
        ensures keeps { (h lengths : List ℕ) → listing self.old.xorbs.items h ≡ Some lengths → listing self.new.xorbs.items h ≡ Some lengths }
    {
        self.xorbs.append(&mut self.elsewhere)?;
        Ok(())
    }

    /// Logs the registration of a xorb.
    fn log_registration(
        &mut self,
        leaves: Vec<(MerkleHash, u64)>,
        next: &[(MerkleHash, u64)],
    ) -> Result<(), TestError>
        ensures same { self.new ≡ record self.old { log = self.new.log } }
        ensures logged { OnOk result (calls_from 0 self.new.log.items ≡ calls_from 0 self.old.log.items ++ Call.Registered leaves.items next.now ∷ []) }
        ensures kept { OnErr result (self.new.log.items ≡ self.old.log.items) }
    {
        let next = Vec::from_slice(self.alloc, next)?;
        self.log.push(LoggedCall::Registered {
            leaves: Items::from_vec(leaves),
            next: Items::from_vec(next),
        })?;
        Ok(())
    }

    /// Logs a query of at least one hash.
    fn log_query(&mut self, hashes: &[MerkleHash], reply: Option<usize>) -> Result<(), TestError>
        requires { 0 < length hashes.now }
        ensures same { self.new ≡ record self.old { log = self.new.log } }
        ensures logged { OnOk result (calls_from 0 self.new.log.items ≡ calls_from 0 self.old.log.items ++ asked (length self.old.log.items) hashes.now reply) }
        ensures kept { OnErr result (self.new.log.items ≡ self.old.log.items) }
    {
        let hashes = Vec::from_slice(self.alloc, logged_hashes(hashes, reply))?;
        self.log.push(LoggedCall::Asked {
            hashes: Items::from_vec(hashes),
            reply,
        })?;
        Ok(())
    }

    /// Notes that a call failed. Returns its error.
    fn fail(&mut self, error: TestError) -> TestError
        ensures same { self.new ≡ record self.old { has_failed = true } }
    {
        self.has_failed = true;
        error
    }

    /// Finds the run of the first xorb that has the first hash.
    fn query(
        &mut self,
        hashes: &[MerkleHash],
    ) -> Result<Option<(usize, FileDataSequenceEntry, bool)>, TestError>
        ensures same { self.new ≡ record self.old { calls = self.new.calls; log = self.new.log } }
        ensures found { IfOk result (λ reply. IfSome reply (λ r. IsFoundRun (listing self.old.xorbs.items) (λ _ _. Unit {0}) hashes.now r.0 r.1)) }
        ensures asked { IfOk result (λ reply. (entry : ℕ) × All (λ n. n < entry) (entries_of (calls_from 0 self.old.log.items)) × (calls_from 0 self.new.log.items ≡ calls_from 0 self.old.log.items ++ asked entry hashes.now (option_map (λ r. r.0) reply))) }
        ensures kept { OnErr result (self.new.log.items ≡ self.old.log.items) }
    {
        self.count()?;
        if hashes.is_empty() {
            return Ok(None);
        }
        let found = find_run(&self.xorbs, hashes);
        self.log_query(hashes, count_of(&found))?;
        Ok(found)
    }

    /// Notes a hash for which queries elsewhere began.
    fn begin_query(&mut self, hash: MerkleHash) -> Result<(), TestError>
        ensures same { self.new ≡ record self.old { calls = self.new.calls; global_queries = self.new.global_queries } }
    {
        self.count()?;
        self.global_queries.push(hash)?;
        Ok(())
    }

    /// Knows the xorbs of elsewhere from now on. Returns whether there were any.
    fn end_queries(&mut self) -> Result<bool, TestError>
        ensures same { self.new ≡ record self.old { calls = self.new.calls; xorbs = self.new.xorbs; elsewhere = self.new.elsewhere } }
        ensures keeps { (h lengths : List ℕ) → listing self.old.xorbs.items h ≡ Some lengths → listing self.new.xorbs.items h ≡ Some lengths }
    {
        self.count()?;
        let found = !self.elsewhere.is_empty();
        self.learn_all()?;
        Ok(found)
    }

    /// Knows a xorb from now on, and logs its registration.
    fn register(&mut self, xorb: &RawXorbData, next: &[(MerkleHash, u64)]) -> Result<(), TestError>
        ensures same { self.new ≡ record self.old { calls = self.new.calls; xorbs = self.new.xorbs; log = self.new.log } }
        ensures listed { OnOk result (listing self.new.xorbs.items xorb.now.xorb_info.metadata.xorb_hash ≡ Some (map (λ m. m.1) (raw_leaves xorb.now))) }
        ensures named { OnOk result (xorb.now.xorb_info.metadata.xorb_hash ≢ sentinel) }
        ensures registered { OnOk result (calls_from 0 self.new.log.items ≡ calls_from 0 self.old.log.items ++ Call.Registered (raw_leaves xorb.now) next.now ∷ []) }
        ensures kept { OnErr result (self.new.log.items ≡ self.old.log.items) }
        ensures keeps { (h lengths : List ℕ) → listing self.old.xorbs.items h ≡ Some lengths → listing self.new.xorbs.items h ≡ Some lengths }
    {
        self.count()?;
        let leaves = recorded_leaves(self.alloc, xorb)?;
        let copy = Vec::from_slice(self.alloc, &leaves)?;
        self.learn(KnownXorb::new(xorb.hash(), copy, false)?)?;
        self.log_registration(leaves, next)
    }
}

/// The hash and the length in bytes of each chunk of a xorb.
fn recorded_leaves(alloc: Global, xorb: &RawXorbData) -> Result<Vec<(MerkleHash, u64)>, TestError>
    ensures { IfOk result (λ leaves. leaves.items ≡ raw_leaves xorb.now) }
{
    let entries = xorb.xorb_info.chunks.as_slice();
    let mut leaves = Vec::with_capacity(alloc, entries.len())?;
    for entry in entries {
        leaves.push((entry.chunk_hash, u64::from(entry.unpacked_segment_bytes)))?;
    }
    Ok(leaves)
}

impl DeduplicationDataInterface for ListStore {
    type ErrorType = TestError;

    ghost lists = { λ s. listing s.xorbs.items };

    ghost stands = { λ _ _ _. Unit {0} };

    ghost calls = { λ s. calls_from 0 s.log.items };

    ghost refused = { λ _ _ _. Unit {0} };

    ghost acts = { λ s. s.acts.items };

    ghost failed = { λ s. s.has_failed };

    ghost cut_limits = { λ s. s.cut_limits };

    ghost is_global = { true };

    /// Finds the run of the first xorb that has the first hash, from its first index on, as far as the hashes agree.
    fn chunk_hash_dedup_query(
        &mut self,
        hashes: &[MerkleHash],
    ) -> Result<Option<(usize, FileDataSequenceEntry, bool)>, TestError> {
        match self.query(hashes) {
            Ok(found) => {
                self.acts = self.acts.queried(hashes, &found);
                Ok(found)
            }
            Err(error) => Err(self.fail(error)),
        }
    }

    fn last_query(&self) -> u64 {
        last_query_of(&self.log)
    }

    /// Notes the hash.
    fn register_global_dedup_query(&mut self, hash: MerkleHash) -> Result<(), TestError> {
        match self.begin_query(hash) {
            Ok(()) => {
                self.acts = self.acts.begun(&hash);
                Ok(())
            }
            Err(error) => Err(self.fail(error)),
        }
    }

    /// Knows the xorbs of elsewhere from now on. Returns whether there were any.
    fn complete_global_dedup_queries(&mut self) -> Result<bool, TestError> {
        match self.end_queries() {
            Ok(found) => {
                self.acts = self.acts.ended(found);
                Ok(found)
            }
            Err(error) => Err(self.fail(error)),
        }
    }

    /// Knows the xorb from now on. The error is `OtherXorb` if its hash is the sentinel, or is known with chunks of other
    /// lengths.
    fn register_new_xorb(
        &mut self,
        xorb: RawXorbData,
        next: &[(MerkleHash, u64)],
    ) -> Result<(), TestError> {
        match self.register(&xorb, next) {
            Ok(()) => {
                self.acts = self.acts.stored(&xorb, next);
                Ok(())
            }
            Err(error) => Err(self.fail(error)),
        }
    }

    /// Notes the dependencies, or that memory was out.
    fn register_xorb_dependencies(&mut self, dependencies: &[FileXorbDependency]) {
        if self.dependencies.extend_from_slice(dependencies).is_err() {
            self.is_out_of_memory = true;
        }
        self.acts = self.acts.noted(dependencies);
    }
}

/// The hashes of a query that the log states.
fn logged_hashes(hashes: &[MerkleHash], reply: Option<usize>) -> &[MerkleHash]
    requires { 0 < length hashes.now }
    ensures { result.now ≡ take (found_count reply + 1) hashes.now }
{
    match reply {
        Some(count) if count < hashes.len() => &hashes[..count + 1],
        Some(_) => hashes,
        None => &hashes[..1],
    }
}

/// The number of chunks of a run that was found.
fn count_of(found: &Option<(usize, FileDataSequenceEntry, bool)>) -> Option<usize>
    ensures { result ≡ option_map (λ r. r.0) found.now }
{
    match found {
        Some((count, _, _)) => Some(*count),
        None => None,
    }
}

/// The index of the last query of a log; 0 if there is none.
fn last_query_of(log: &[LoggedCall]) -> u64
    ensures { (before : List ℕ) (entry : ℕ) → entries_of (calls_from 0 log.now) ≡ before ++ entry ∷ [] → result ≡ entry }
{
    let mut at = log.len();
    while at > 0 {
        at -= 1;
        if let LoggedCall::Asked { .. } = &log[at] {
            return at as u64;
        }
    }
    0
}
