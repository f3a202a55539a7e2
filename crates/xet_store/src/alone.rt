//! `Alone`: a store that one caller has alone makes steps as pass 0.

ghost use Rattle.std.specs.Prelude.{◌≡◌, ◌++◌, ◌∷◌, [], ℕ, List, false, length};
ghost use Rattle.xet_choices.specs.Calls.{entries_of};
ghost use Rattle.xet_store.specs.Alone.{IsAlone, alone_of};
ghost use Rattle.xet_store.specs.Holders.{calls_in, numbered};

use crate::stepping::Stepping;
use crate::store::Store;
use std::marker::Model;
use xet_cut::Limits;
use xet_ghost::Ghost;
use xet_hash::{MerkleHash, StoreError};
use xet_history::Entry;
use xet_io::Disk;
use xet_shard_format::{FileDataSequenceEntry, MDBFileInfo};
use xet_xorb::RawXorbData;

/// A store that makes steps as pass 0. Contracts see an `AloneState`.
pub struct Alone<D: Disk> {
    store: Store<D>,
    /// The store when it began, for contracts alone.
    start: Ghost<Store<D>>,
    /// Whether a step has failed. No step is made then.
    stopped: bool,
}

impl<D: Disk> Model for Alone<D> {
    ghost use Rattle.xet_store.specs.Alone.{AloneState, IsAlone, alone_state};
    ghost use Rattle.xet_store.specs.HolderCoding.{alone_code};

    ghost Value = { AloneState };

    ghost coded = { alone_code };

    ghost view = { λ s. alone_state s.start.value s.store s.stopped };

    ghost invariant = { λ s. IsAlone s.start.value s.store s.stopped };
}

impl<D: Disk> Alone<D> {
    /// Begins with a store.
    pub fn new(store: Store<D>) -> Alone<D>
        ensures { (result.start ≡ store) × (result.store ≡ store) × (result.stopped ≡ false) }
    {
        let start = Ghost::of(&store);
        Alone {
            store,
            start,
            stopped: false,
        }
    }

    /// Proof aid without effect: makes available to the caller what was done with the store since it began.
    pub fn recall_steps(&self)
        ensures { IsAlone self.now.start self.now.store self.now.stopped }
    {
        let _ = &self.store;
    }

    /// The store.
    pub fn into_store(self) -> Store<D>
        ensures { result ≡ self.store }
    {
        let Alone {
            store,
            start: _,
            stopped: _,
        } = self;
        store
    }
}

impl<D: Disk> Stepping for Alone<D> {
    ghost holder = { λ a. alone_of a.start a.store a.stopped };

    fn recall_invariant(&self) {
        let _ = &self.store;
    }

    fn limits(&self) -> &Limits {
        self.store.limits()
    }

    fn last_query(&self) -> u64 {
        last_query_of(self.store.history())
    }

    fn query(
        &mut self,
        hashes: &[MerkleHash],
    ) -> Result<Option<(usize, FileDataSequenceEntry)>, StoreError> {
        if self.stopped {
            return Err(StoreError::OutOfMemory);
        }
        self.store.recall_invariant();
        self.store.recall_sound();
        match self.store.query(hashes) {
            Ok(run) => Ok(run),
            Err(error) => {
                self.stopped = true; // Each later call fails too.
                Err(error)
            }
        }
    }

    fn register(
        &mut self,
        xorb: RawXorbData,
        next: &[(MerkleHash, u64)],
    ) -> Result<bool, StoreError> {
        if self.stopped {
            return Err(StoreError::OutOfMemory);
        }
        self.store.recall_invariant();
        match self.store.register_xorb(xorb, next) {
            Ok(is_new) => Ok(is_new),
            Err(error) => {
                self.stopped = true;
                Err(error)
            }
        }
    }

    fn complete(&mut self, file: MDBFileInfo) -> Result<bool, StoreError> {
        if self.stopped {
            return Err(StoreError::OutOfMemory);
        }
        self.store.recall_invariant();
        match self.store.complete_file(file) {
            Ok(added) => Ok(added),
            Err(error) => {
                self.stopped = true;
                Err(error)
            }
        }
    }
}

/// The number of the last query of a history; 0 if there is none.
fn last_query_of(history: &[Entry]) -> u64
    ensures { (older newer : List Entry) (before : List ℕ) (entry : ℕ) → history.now ≡ older ++ newer → entries_of (calls_in (numbered (length older) newer)) ≡ before ++ entry ∷ [] → result ≡ entry }
{
    let mut at = history.len();
    while at > 0 {
        at -= 1;
        if let Entry::Query { .. } = &history[at] {
            return at as u64;
        }
    }
    0
}
