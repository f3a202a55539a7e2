//! The steps of passes, until the one that is the last.

ghost use Rattle.std.specs.Prelude.{◌≡◌, ◌⊎◌, IfErr, IfOk, false, true};
ghost use Rattle.xet_dedup_queries.specs.Registering.{IsDue, IsNewXorb};
ghost use Rattle.xet_locked_session.specs.Passes.{FlushFailed, OtherFile, SawFlush, StepFailed};
ghost use Rattle.xet_shard_format.specs.Records.{IsFile};
ghost use Rattle.xet_store.specs.Holders.{xorb_limits};
ghost use Rattle.xet_store.specs.Stepping.{SawComplete, SawQuery, SawRegister, cut_to_complete, cut_to_register, no_cut};
ghost use Rattle.xet_xorb.specs.Raw.{raw_leaves};

use super::{Guarded, Pass};
use crate::naming::Naming;
use xet_hash::{MerkleHash, StoreError};
use xet_history::StepKind;
use xet_io::Disk;
use xet_shard_format::{FileDataSequenceEntry, MDBFileInfo};
use xet_shared_history::HistoryWord;
use xet_xorb::RawXorbData;

/// Each step is the desk's. After the last one nothing is done, and the error is `OutOfMemory`. Where there is a last one, a flush
/// is no step of its own.
impl<D: Disk, J: Naming> Guarded<D, J> {
    pub fn query(
        &mut self,
        word: &HistoryWord,
        pass: &mut Pass<J>,
        hashes: &[MerkleHash],
    ) -> Result<Option<(usize, FileDataSequenceEntry)>, StoreError>
        requires { word.now ≡ J.table }
        ensures saw { IfOk result (SawQuery hashes.now pass.old pass.new) }
        ensures refused { IfErr result (StepFailed StepKind.Query no_cut pass.old pass.new) }
    {
        if self.stopped {
            return Err(StoreError::OutOfMemory);
        }
        self.desk.store.recall_invariant();
        let result = self.desk.query(word, pass, hashes);
        self.stopped = self.stops && result.is_err();
        result
    }

    pub fn register_xorb(
        &mut self,
        word: &HistoryWord,
        pass: &mut Pass<J>,
        xorb: RawXorbData,
        next: &[(MerkleHash, u64)],
    ) -> Result<bool, StoreError>
        requires word { word.now ≡ J.table }
        requires new { IsNewXorb (xorb_limits pass.old.limits) xorb }
        requires due { J.stops ≡ true → IsDue (xorb_limits pass.old.limits) (raw_leaves xorb) next.now }
        ensures saw { IfOk result (SawRegister (raw_leaves xorb) next.now pass.old pass.new) }
        ensures refused { IfErr result (StepFailed StepKind.Register (cut_to_register pass.old (raw_leaves xorb)) pass.old pass.new) }
    {
        if self.stopped {
            return Err(StoreError::OutOfMemory);
        }
        self.desk.store.recall_invariant();
        let result = self.desk.register_xorb(word, pass, xorb, next);
        self.stopped = self.stops && result.is_err();
        result
    }

    pub fn complete_file(
        &mut self,
        word: &HistoryWord,
        pass: &mut Pass<J>,
        file: MDBFileInfo,
    ) -> Result<bool, StoreError>
        requires word { word.now ≡ J.table }
        requires form { IsFile file }
        ensures saw { IfOk result (SawComplete file pass.old pass.new) }
        ensures refused { IfErr result (λ e. OtherFile file pass.old pass.new e ⊎ StepFailed StepKind.Complete (cut_to_complete pass.old file) pass.old pass.new e) }
    {
        if self.stopped {
            return Err(StoreError::OutOfMemory);
        }
        self.desk.store.recall_invariant();
        let result = self.desk.complete_file(word, pass, file);
        self.stopped = self.stops && result.is_err();
        result
    }

    pub fn flush(
        &mut self,
        word: &HistoryWord,
        pass: &mut Pass<J>,
    ) -> Result<Option<MerkleHash>, StoreError>
        requires word { word.now ≡ J.table }
        requires going { J.stops ≡ false }
        ensures saw { IfOk result (SawFlush pass.old pass.new) }
        ensures refused { IfErr result (FlushFailed pass.old pass.new) }
    {
        self.desk.flush(word, pass)
    }

    /// If the first step that fails is the last one, no step is made from now on. Otherwise nothing changes.
    pub fn stop(&mut self)
        ensures { self.new ≡ self.old }
    {
        self.stopped = self.stops;
    }
}
