//! `Passing`: a pass of a session makes steps.

ghost use Rattle.std.specs.Prelude.{◌≡◌, false};
ghost use Rattle.xet_locked_session.specs.Passes.{IsPassOf};
ghost use Rattle.xet_locked_session.specs.Passing.{IsPassing, passing_of};

use crate::naming::Naming;
use crate::session::{LockedSession, Pass, SharedStore, StoppingSession};
use std::marker::Model;
use std::sync::Wait;
use xet_cut::Limits;
use xet_ghost::Ghost;
use xet_hash::{MerkleHash, StoreError};
use xet_io::Disk;
use xet_shard_format::{FileDataSequenceEntry, MDBFileInfo};
use xet_store::Stepping;
use xet_xorb::RawXorbData;

/// A pass of a session, which makes steps of its store, each in one hold of the lock. Contracts see a `PassingState`.
pub struct Passing<'a, D: Disk, J: Naming, R: Wait> {
    session: &'a SharedStore<D, J>,
    rt: &'a R,
    pass: Pass<J>,
    /// The pass when it began, for contracts alone.
    start: Ghost<Pass<J>>,
    /// The number of the history entry of its latest query since then; 0 if there is none.
    last: u64,
    /// Whether a step has failed. No step is made then.
    stopped: bool,
}

impl<'a, D: Disk, J: Naming, R: Wait> Model for Passing<'a, D, J, R> {
    ghost use Rattle.xet_locked_session.specs.Passing.{PassingState, passing_state};
    ghost use Rattle.xet_locked_session.specs.PassingCoding.{passing_code};
    ghost use Rattle.xet_locked_session.specs.internal.Kept.{IsKept};

    ghost Value = { PassingState };

    ghost coded = { passing_code };

    ghost view = { λ s. passing_state s.start.value s.pass s.stopped };

    ghost invariant = { λ s. IsKept J.store s.start.value s.pass s.stopped s.last };
}

impl<'a, D: Disk, J: Naming, R: Wait> Passing<'a, D, J, R> {
    /// Begins with a pass of the session. `rt` is what waits for the lock.
    pub fn new(rt: &'a R, session: &'a LockedSession<D, J>, pass: Pass<J>) -> Passing<'a, D, J, R>
        ensures { (result.start ≡ pass) × (result.pass ≡ pass) × (result.stopped ≡ false) }
    {
        Passing::of(rt, session.shared(), pass)
    }

    /// The same, in a session whose first failed step is the last one: after it, or after `stop`, each step fails with
    /// `OutOfMemory` and does nothing.
    pub fn new_stopping(
        rt: &'a R,
        session: &'a StoppingSession<D, J>,
        pass: Pass<J>,
    ) -> Passing<'a, D, J, R>
        ensures { (result.start ≡ pass) × (result.pass ≡ pass) × (result.stopped ≡ false) }
    {
        Passing::of(rt, session.shared(), pass)
    }

    /// Begins with a pass of a shared store.
    fn of(rt: &'a R, session: &'a SharedStore<D, J>, pass: Pass<J>) -> Passing<'a, D, J, R>
        ensures { (result.start ≡ pass) × (result.pass ≡ pass) × (result.stopped ≡ false) }
    {
        pass.recall_invariant();
        let start = Ghost::of(&pass);
        Passing {
            session,
            rt,
            pass,
            start,
            last: 0,
            stopped: false,
        }
    }

    /// Proof aid without effect: makes available to the caller what the pass has done since it began, and of which session
    /// it is.
    pub fn recall_passing(&self)
        ensures passing { IsPassing self.now.start self.now.pass self.now.stopped }
        ensures start { IsPassOf J.store self.now.start }
        ensures pass { IsPassOf J.store self.now.pass }
    {
        self.pass.recall_invariant();
    }

    /// The pass.
    pub fn into_pass(self) -> Pass<J>
        ensures { result ≡ self.entry.pass }
    {
        let Passing {
            session: _,
            rt: _,
            pass,
            start: _,
            last: _,
            stopped: _,
        } = self;
        pass
    }
}

impl<'a, D: Disk, J: Naming, R: Wait> Stepping for Passing<'a, D, J, R> {
    ghost holder = { λ a. passing_of a.start a.pass a.stopped };

    fn recall_invariant(&self) {
        let _ = &self.pass;
    }

    fn limits(&self) -> &Limits {
        self.session.limits()
    }

    fn last_query(&self) -> u64 {
        self.last
    }

    fn query(
        &mut self,
        hashes: &[MerkleHash],
    ) -> Result<Option<(usize, FileDataSequenceEntry)>, StoreError> {
        if self.stopped {
            return Err(StoreError::OutOfMemory);
        }
        let result = self.session.query(self.rt, &mut self.pass, hashes);
        self.pass.recall_invariant();
        match result {
            Ok(run) => {
                if !hashes.is_empty() {
                    self.last = self.pass.seen() - 1; // The entry of the query is the last one that it has seen.
                }
                Ok(run)
            }
            Err(error) => {
                self.stopped = true; // Each later call fails too.
                Err(error)
            }
        }
    }

    fn register(
        &mut self,
        xorb: RawXorbData,
        next: &[(MerkleHash, u64)],
    ) -> Result<bool, StoreError> {
        if self.stopped {
            return Err(StoreError::OutOfMemory);
        }
        let result = self
            .session
            .register_xorb(self.rt, &mut self.pass, xorb, next);
        self.pass.recall_invariant();
        match result {
            Ok(is_new) => Ok(is_new),
            Err(error) => {
                self.stopped = true;
                Err(error)
            }
        }
    }

    fn complete(&mut self, file: MDBFileInfo) -> Result<bool, StoreError> {
        if self.stopped {
            return Err(StoreError::OutOfMemory);
        }
        let result = self.session.complete_file(self.rt, &mut self.pass, file);
        self.pass.recall_invariant();
        match result {
            Ok(added) => Ok(added),
            Err(error) => {
                self.stopped = true;
                Err(error)
            }
        }
    }
}
