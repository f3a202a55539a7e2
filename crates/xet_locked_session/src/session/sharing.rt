//! The steps of passes, each in one hold of the lock, where the first one that fails may be the last one.

ghost use Rattle.std.specs.Prelude.{◌≡◌, ◌⊎◌, IfErr, IfOk, false, true};
ghost use Rattle.xet_dedup_queries.specs.Registering.{IsDue, IsNewXorb};
ghost use Rattle.xet_locked_session.specs.Passes.{FlushFailed, OtherFile, SawFlush, StepFailed};
ghost use Rattle.xet_shard_format.specs.Records.{IsFile};
ghost use Rattle.xet_store.specs.Holders.{xorb_limits};
ghost use Rattle.xet_store.specs.Stepping.{SawComplete, SawQuery, SawRegister, cut_to_complete, cut_to_register, no_cut};
ghost use Rattle.xet_xorb.specs.Raw.{raw_leaves};

use super::{Pass, SharedStore};
use crate::naming::Naming;
use std::sync::Wait;
use xet_cut::Limits;
use xet_hash::{MerkleHash, StoreError};
use xet_history::StepKind;
use xet_io::Disk;
use xet_shard_format::{FileDataSequenceEntry, MDBFileInfo};
use xet_xorb::RawXorbData;

/// Each step is that of `Guarded`, once the lock is free.
impl<D: Disk, J: Naming> SharedStore<D, J> {
    pub(crate) fn query<R: Wait>(
        &self,
        rt: &R,
        pass: &mut Pass<J>,
        hashes: &[MerkleHash],
    ) -> Result<Option<(usize, FileDataSequenceEntry)>, StoreError>
        ensures saw { IfOk result (SawQuery hashes.now pass.old pass.new) }
        ensures refused { IfErr result (StepFailed StepKind.Query no_cut pass.old pass.new) }
    {
        self.desk.lock(rt).query(&self.word, pass, hashes)
    }

    pub(crate) fn register_xorb<R: Wait>(
        &self,
        rt: &R,
        pass: &mut Pass<J>,
        xorb: RawXorbData,
        next: &[(MerkleHash, u64)],
    ) -> Result<bool, StoreError>
        requires new { IsNewXorb (xorb_limits pass.old.limits) xorb }
        requires due { J.stops ≡ true → IsDue (xorb_limits pass.old.limits) (raw_leaves xorb) next.now }
        ensures saw { IfOk result (SawRegister (raw_leaves xorb) next.now pass.old pass.new) }
        ensures refused { IfErr result (StepFailed StepKind.Register (cut_to_register pass.old (raw_leaves xorb)) pass.old pass.new) }
    {
        self.desk
            .lock(rt)
            .register_xorb(&self.word, pass, xorb, next)
    }

    pub(crate) fn complete_file<R: Wait>(
        &self,
        rt: &R,
        pass: &mut Pass<J>,
        file: MDBFileInfo,
    ) -> Result<bool, StoreError>
        requires form { IsFile file }
        ensures saw { IfOk result (SawComplete file pass.old pass.new) }
        ensures refused { IfErr result (λ e. OtherFile file pass.old pass.new e ⊎ StepFailed StepKind.Complete (cut_to_complete pass.old file) pass.old pass.new e) }
    {
        self.desk.lock(rt).complete_file(&self.word, pass, file)
    }

    pub(crate) fn flush<R: Wait>(
        &self,
        rt: &R,
        pass: &mut Pass<J>,
    ) -> Result<Option<MerkleHash>, StoreError>
        requires going { J.stops ≡ false }
        ensures saw { IfOk result (SawFlush pass.old pass.new) }
        ensures refused { IfErr result (FlushFailed pass.old pass.new) }
    {
        self.desk.lock(rt).flush(&self.word, pass)
    }

    /// If the first step that fails is the last one, no later call of a step does anything.
    pub(crate) fn stop<R: Wait>(&self, rt: &R) {
        self.desk.lock(rt).stop();
    }

    /// The limits of the store. It does not wait.
    pub(crate) fn limits(&self) -> &Limits
        ensures { result.now ≡ J.store.store.limits }
    {
        &self.limits
    }
}
