//! `Asking`: the maker of steps, behind the interface of deduplication.

ghost use Rattle.std.specs.Prelude.{◌≡◌, [], false, option_map};

use crate::stepping::Stepping;
use xet_dedup_queries::{Acts, DeduplicationDataInterface, FileXorbDependency};
use xet_hash::{MerkleHash, StoreError};
use xet_shard_format::FileDataSequenceEntry;
use xet_xorb::RawXorbData;

/// A maker of steps, as the deduplication of a file sees it. Queries are sent nowhere else, and dependencies are only noted
/// for contracts.
pub struct Asking<S: Stepping> {
    /// The maker of steps.
    pub steps: S,
    /// The calls that did not fail, for contracts alone.
    pub acts: Acts,
}

impl<S: Stepping> Asking<S> {
    /// Begins with a maker of steps.
    pub fn new(steps: S) -> Asking<S>
        ensures { (result.steps ≡ steps) × (result.acts.items ≡ []) }
    {
        Asking {
            steps,
            acts: Acts::new(),
        }
    }

    /// The maker of steps.
    pub fn into_steps(self) -> S
        ensures { result ≡ self.steps }
    {
        let Asking { steps, acts: _ } = self;
        steps
    }
}

impl<S: Stepping> DeduplicationDataInterface for Asking<S> {
    ghost use Rattle.xet_store.specs.Interface.{IsRefused, Stands};
    ghost use Rattle.xet_store.specs.Holders.{calls_of, core_at, xorb_limits, lengths_in};

    type ErrorType = StoreError;

    ghost lists = { λ a h. lengths_in (core_at (S.holder a.steps)) h };

    ghost stands = { λ a hashes run. Stands (S.holder a.steps) hashes run };

    ghost calls = { λ a. calls_of (S.holder a.steps) };

    ghost refused = { λ old new e. IsRefused (S.holder old.steps) (S.holder new.steps) e };

    ghost acts = { λ a. a.acts.items };

    ghost failed = { λ a. (S.holder a.steps).stopped };

    ghost cut_limits = { λ a. xorb_limits (S.holder a.steps).limits };

    ghost is_global = { false };

    /// The run of the query, which is not external.
    fn chunk_hash_dedup_query(
        &mut self,
        hashes: &[MerkleHash],
    ) -> Result<Option<(usize, FileDataSequenceEntry, bool)>, StoreError> {
        self.steps.recall_invariant();
        match self.steps.query(hashes) {
            Ok(run) => {
                let found = own_run(run);
                self.acts = self.acts.queried(hashes, &found);
                Ok(found)
            }
            Err(error) => Err(error),
        }
    }

    fn last_query(&self) -> u64 {
        self.steps.last_query()
    }

    /// Does nothing.
    fn register_global_dedup_query(&mut self, hash: MerkleHash) -> Result<(), StoreError> {
        self.acts = self.acts.begun(&hash);
        Ok(())
    }

    /// Nothing was found.
    fn complete_global_dedup_queries(&mut self) -> Result<bool, StoreError> {
        self.acts = self.acts.ended(false);
        Ok(false)
    }

    /// Registers the xorb.
    fn register_new_xorb(
        &mut self,
        xorb: RawXorbData,
        next: &[(MerkleHash, u64)],
    ) -> Result<(), StoreError> {
        self.steps.recall_invariant();
        let acts = self.acts.stored(&xorb, next);
        match self.steps.register(xorb, next) {
            Ok(_) => {
                self.acts = acts;
                Ok(())
            }
            Err(error) => Err(error),
        }
    }

    /// Does nothing.
    fn register_xorb_dependencies(&mut self, dependencies: &[FileXorbDependency]) {
        self.acts = self.acts.noted(dependencies);
    }
}

/// A run that was found, which is not external.
fn own_run(
    run: Option<(usize, FileDataSequenceEntry)>,
) -> Option<(usize, FileDataSequenceEntry, bool)>
    ensures { result ≡ option_map (λ r. (r.0, r.1, false)) run }
{
    match run {
        Some((count, segment)) => Some((count, segment, false)),
        None => None,
    }
}
