//! `SingleFileCleaner`: one file is cleaned as its bytes come, over a pass of a session.

ghost use Rattle.std.specs.Prelude.{◌≡◌, ◌++◌, ◌+◌, ◌<◌, [], Err, IfErr, IfOk, Ok, OnErr, OnOk, false, length, true};
ghost use Rattle.std.specs.Option.{ForSome};
ghost use Rattle.xet_clean.specs.Planning.{IsFew, IsFinished};
ghost use Rattle.xet_clean.specs.Policies.{sha256_by};
ghost use Rattle.xet_locked_session.specs.Passing.{passing_of};
ghost use Rattle.xet_single_file.specs.Single.{IsSingleError};
ghost use Rattle.xet_store.specs.Interface.{IsErrorSince};
ghost use Rattle.xet_store.specs.Holders.{Follows};

use crate::ghost_bytes::GhostBytes;
use crate::pieces::add_all;
use bytes::Bytes;
use std::alloc::Global;
use std::marker::Model;
use std::sync::Wait;
use xet_clean::{FileCleaner, FinishedFile, Sha256Generator, Sha256Policy};
use xet_hash::{StoreError, What};
use xet_io::Disk;
use xet_locked_session::{LockedSession, Naming, Pass, Passing};
use xet_store::Asking;

/// One file that is cleaned as its bytes come, over a pass of a session. Each step is made in one hold of the session's lock,
/// and waits for it. No file is recorded: whoever has what `finish` returns registers the xorb that has its last chunks, and then
/// records the file. After an error of `add_data` the file is of no use, but the pass is. Contracts see a `SingleFileState`.
pub struct SingleFileCleaner<'a, D: Disk, J: Naming, R: Wait> {
    cleaner: FileCleaner<Passing<'a, D, J, R>>,
    generator: Sha256Generator,
    policy: Sha256Policy,
    /// The bytes so far, for contracts alone.
    bytes: GhostBytes,
    /// Whether each call so far returned Ok.
    whole: bool,
}

impl<'a, D: Disk, J: Naming, R: Wait> Model for SingleFileCleaner<'a, D, J, R> {
    ghost use Rattle.std.specs.Prelude.{◌≡◌, true};
    ghost use Rattle.xet_single_file.specs.Coding.{single_code};
    ghost use Rattle.xet_single_file.specs.Single.{SingleFileState, single_state};
    ghost use Rattle.xet_single_file.specs.internal.Kept.{IsKept, IsWhole};

    ghost Value = { SingleFileState };

    ghost coded = { single_code };

    ghost view = { λ s. single_state s.cleaner.deduper.start.value.steps.start s.cleaner.deduper.interface.steps.pass s.cleaner.number s.policy s.bytes.value s.whole };

    ghost invariant = { λ s. IsKept J.store s.cleaner.deduper.start.value.steps s.cleaner.deduper.interface.steps s.cleaner.deduper.file_id s.cleaner.number
        × (s.whole ≡ true → IsWhole s.cleaner.deduper.start.value.steps s.cleaner.deduper.interface.steps s.cleaner.deduper.whole s.cleaner.deduper.plan s.cleaner.deduper.global s.cleaner.chunker s.cleaner.byte_count s.policy s.generator s.bytes.value) };
}

impl<'a, D: Disk, J: Naming, R: Wait> SingleFileCleaner<'a, D, J, R> {
    /// Begins with a file of no bytes, over a pass of the session. Errors name it as source `source`. The SHA-256 comes by the
    /// policy. `rt` is what waits for the lock. The only error is `OutOfMemory`, and returns the pass.
    pub fn new(
        alloc: Global,
        rt: &'a R,
        session: &'a LockedSession<D, J>,
        pass: Pass<J>,
        source: u32,
        policy: Sha256Policy,
    ) -> Result<SingleFileCleaner<'a, D, J, R>, (Pass<J>, StoreError)>
        ensures begins { IfOk result (λ c. c ≡ record { start = pass; pass = pass; source = source; policy = policy; bytes = []; whole = true }) }
        ensures back { IfErr result (λ e. (e.0 ≡ pass) × (e.1 ≡ StoreError.OutOfMemory)) }
    {
        let passing = Passing::new(rt, session, pass);
        passing.recall_passing();
        match FileCleaner::new(alloc, Asking::new(passing), source) {
            Ok(cleaner) => Ok(SingleFileCleaner {
                cleaner,
                generator: Sha256Generator::new(),
                policy,
                bytes: GhostBytes::new(),
                whole: true,
            }),
            Err((asking, error)) => Err((asking.into_steps().into_pass(), error)),
        }
    }

    /// Whether each call so far returned Ok. If not, bytes can no longer be added, and the file cannot be finished.
    pub fn is_whole(&self) -> bool
        ensures { result ≡ self.now.whole }
    {
        self.whole
    }

    /// Takes the next bytes of the file, in pieces of the block length of the limits: the chunks that end in a piece are one
    /// batch of the deduplication. `TooLarge` with the number of the source is returned if and only if the file would have more
    /// bytes than the limits allow, and then nothing is done. Other errors are those of the steps. After an error the cleaner is
    /// not whole.
    pub fn add_data(&mut self, bytes: &[u8]) -> Result<(), StoreError>
        requires whole { self.old.whole ≡ true }
        ensures added { OnOk result ((self.new.whole ≡ true) × (self.new.bytes ≡ self.old.bytes ++ bytes.now)) }
        ensures broken { OnErr result (self.new.whole ≡ false) }
        ensures same { (self.new.start ≡ self.old.start) × (self.new.source ≡ self.old.source) × (self.new.policy ≡ self.old.policy) }
        ensures follows { Follows self.old.pass self.new.pass }
        ensures long { self.old.start.limits.max_source_bytes < length self.old.bytes + length bytes.now → result ≡ Err (StoreError.TooLarge (What.Source self.old.source)) }
        ensures few { OnErr result (IsFew (passing_of self.old.start self.old.start false) (passing_of self.old.start self.new.pass true) (self.old.bytes ++ bytes.now)) }
        ensures refused { IfErr result (IsSingleError self.old bytes.now self.new.pass) }
    {
        self.add(bytes, None)
    }

    /// Takes the bytes of a shared buffer, as `add_data` does. The chunks that begin in a piece share the buffer, and are not
    /// copied, unless those that wait for their xorb are less than half of it. If the bytes are a part of a larger buffer, all of
    /// that may stay as long as one of its chunks.
    pub fn add_data_from_bytes(&mut self, bytes: Bytes) -> Result<(), StoreError>
        requires whole { self.old.whole ≡ true }
        ensures added { OnOk result ((self.new.whole ≡ true) × (self.new.bytes ≡ self.old.bytes ++ bytes)) }
        ensures broken { OnErr result (self.new.whole ≡ false) }
        ensures same { (self.new.start ≡ self.old.start) × (self.new.source ≡ self.old.source) × (self.new.policy ≡ self.old.policy) }
        ensures follows { Follows self.old.pass self.new.pass }
        ensures long { self.old.start.limits.max_source_bytes < length self.old.bytes + length bytes → result ≡ Err (StoreError.TooLarge (What.Source self.old.source)) }
        ensures few { OnErr result (IsFew (passing_of self.old.start self.old.start false) (passing_of self.old.start self.new.pass true) (self.old.bytes ++ bytes)) }
        ensures refused { IfErr result (IsSingleError self.old bytes self.new.pass) }
    {
        self.add(bytes.as_slice(), Some(&bytes))
    }

    /// Takes the next bytes of the file, which are those of `shared` if there is such a buffer.
    fn add(&mut self, bytes: &[u8], shared: Option<&Bytes>) -> Result<(), StoreError>
        requires shared { ForSome shared (λ whole. whole.now ≡ bytes.now) }
        requires whole { self.old.whole ≡ true }
        ensures added { OnOk result ((self.new.whole ≡ true) × (self.new.bytes ≡ self.old.bytes ++ bytes.now)) }
        ensures broken { OnErr result (self.new.whole ≡ false) }
        ensures same { (self.new.start ≡ self.old.start) × (self.new.source ≡ self.old.source) × (self.new.policy ≡ self.old.policy) }
        ensures follows { Follows self.old.pass self.new.pass }
        ensures long { self.old.start.limits.max_source_bytes < length self.old.bytes + length bytes.now → result ≡ Err (StoreError.TooLarge (What.Source self.old.source)) }
        ensures few { OnErr result (IsFew (passing_of self.old.start self.old.start false) (passing_of self.old.start self.new.pass true) (self.old.bytes ++ bytes.now)) }
        ensures refused { IfErr result (IsSingleError self.old bytes.now self.new.pass) }
    {
        let result = add_all(
            &mut self.cleaner,
            &mut self.generator,
            &self.policy,
            bytes,
            shared,
        );
        self.cleaner.deduper.interface.steps.recall_passing();
        self.bytes = self.bytes.more(bytes);
        self.whole = result.is_ok();
        result
    }

    /// Does nothing: each chunk so far has its choice when `add_data` returns. Only the bytes after the last boundary are in no
    /// chunk yet.
    pub fn checkpoint(&mut self) -> Result<(), StoreError>
        requires whole { self.old.whole ≡ true }
        ensures { (result ≡ Ok tt) × (self.new ≡ self.old) }
    {
        let _ = &self.whole;
        Ok(())
    }

    /// Ends the file: the bytes after the last boundary are its last chunk, a batch of its own. The pass is returned in any case,
    /// as the last step left it. The errors are those of the steps.
    pub fn finish(self) -> (Pass<J>, Result<FinishedFile, StoreError>)
        requires whole { self.whole ≡ true }
        ensures finished { IfOk result.1 (λ f. IsFinished (passing_of self.entry.start self.entry.start false) (passing_of self.entry.start result.0 false) self.entry.source (sha256_by self.entry.policy self.entry.bytes) self.entry.bytes f.info f.metrics f.choices f.rest) }
        ensures few { OnErr result.1 (IsFew (passing_of self.entry.start self.entry.start false) (passing_of self.entry.start result.0 true) self.entry.bytes) }
        ensures follows { Follows self.entry.pass result.0 }
        ensures refused { IfErr result.1 (IsErrorSince (passing_of self.entry.start self.entry.pass false) (passing_of self.entry.start result.0 true)) }
    {
        let SingleFileCleaner {
            cleaner,
            generator,
            policy,
            bytes: _,
            whole: _,
        } = self;
        let (asking, file) = cleaner.finish(generator.finalize_by(&policy));
        asking.steps.recall_passing();
        (asking.into_steps().into_pass(), file)
    }

    /// The pass, as the last step left it.
    pub fn into_pass(self) -> Pass<J>
        ensures { result ≡ self.entry.pass }
    {
        let SingleFileCleaner {
            cleaner,
            generator: _,
            policy: _,
            bytes: _,
            whole: _,
        } = self;
        cleaner.into_asking().into_steps().into_pass()
    }
}
