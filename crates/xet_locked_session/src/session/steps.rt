//! The steps of passes, under the lock.

ghost use Rattle.std.specs.Prelude.{◌≡◌, ◌⊎◌, IfErr, IfOk, OnOk, true};
ghost use Rattle.xet_dedup_queries.specs.Registering.{IsDue, IsNewXorb};
ghost use Rattle.xet_locked_session.specs.Passes.{FlushFailed, OtherFile, SawFlush, StepFailed};
ghost use Rattle.xet_locked_session.specs.internal.Guarded.{HasFailed, HasStep};
ghost use Rattle.xet_shard_format.specs.Records.{IsFile};
ghost use Rattle.xet_store.specs.Holders.{xorb_limits};
ghost use Rattle.xet_store.specs.Stepping.{SawComplete, SawQuery, SawRegister, cut_to_complete, cut_to_register, no_cut};
ghost use Rattle.xet_xorb.specs.Raw.{raw_leaves};

use super::telling::tell;
use super::{Desk, Pass};
use crate::naming::Naming;
use xet_hash::{MerkleHash, StoreError};
use xet_history::StepKind;
use xet_io::Disk;
use xet_shard_format::{FileDataSequenceEntry, MDBFileInfo};
use xet_shared_history::HistoryWord;
use xet_xorb::RawXorbData;

/// Each step compares the pass with the history, makes the store's step, and lets the pass see all of the history.
impl<D: Disk, J: Naming> Desk<D, J> {
    pub fn query(
        &mut self,
        word: &HistoryWord,
        pass: &mut Pass<J>,
        hashes: &[MerkleHash],
    ) -> Result<Option<(usize, FileDataSequenceEntry)>, StoreError>
        requires { word.now ≡ J.table }
        ensures saw { IfOk result (SawQuery hashes.now pass.old pass.new) }
        ensures refused { IfErr result (StepFailed StepKind.Query no_cut pass.old pass.new) }
        ensures made { OnOk result (HasStep pass.old.number self.old self.new) }
        ensures failed { IfErr result (HasFailed pass.old.number self.old self.new) }
    {
        word.compare(&mut self.log.writer, &mut pass.known.reader);
        self.store.recall_invariant();
        let from = self.store.history().len();
        let result = self
            .store
            .query_by(&mut pass.known.own, pass.number, hashes);
        self.store.recall_invariant();
        tell(
            word,
            self.store.history(),
            from,
            &mut self.log,
            &mut pass.known,
        );
        result
    }

    pub fn register_xorb(
        &mut self,
        word: &HistoryWord,
        pass: &mut Pass<J>,
        xorb: RawXorbData,
        next: &[(MerkleHash, u64)],
    ) -> Result<bool, StoreError>
        requires word { word.now ≡ J.table }
        requires new { IsNewXorb (xorb_limits pass.old.limits) xorb }
        requires due { J.stops ≡ true → IsDue (xorb_limits pass.old.limits) (raw_leaves xorb) next.now }
        ensures saw { IfOk result (SawRegister (raw_leaves xorb) next.now pass.old pass.new) }
        ensures refused { IfErr result (StepFailed StepKind.Register (cut_to_register pass.old (raw_leaves xorb)) pass.old pass.new) }
        ensures made { J.stops ≡ true → OnOk result (HasStep pass.old.number self.old self.new) }
        ensures failed { IfErr result (HasFailed pass.old.number self.old self.new) }
    {
        word.compare(&mut self.log.writer, &mut pass.known.reader);
        self.store.recall_invariant();
        let from = self.store.history().len();
        let result = self
            .store
            .register_by(&mut pass.known.own, pass.number, xorb, next);
        self.store.recall_invariant();
        tell(
            word,
            self.store.history(),
            from,
            &mut self.log,
            &mut pass.known,
        );
        result
    }

    pub fn complete_file(
        &mut self,
        word: &HistoryWord,
        pass: &mut Pass<J>,
        file: MDBFileInfo,
    ) -> Result<bool, StoreError>
        requires word { word.now ≡ J.table }
        requires form { IsFile file }
        ensures saw { IfOk result (SawComplete file pass.old pass.new) }
        ensures refused { IfErr result (λ e. OtherFile file pass.old pass.new e ⊎ StepFailed StepKind.Complete (cut_to_complete pass.old file) pass.old pass.new e) }
        ensures made { OnOk result (HasStep pass.old.number self.old self.new) }
        ensures failed { IfErr result (HasFailed pass.old.number self.old self.new) }
    {
        word.compare(&mut self.log.writer, &mut pass.known.reader);
        self.store.recall_invariant();
        let from = self.store.history().len();
        let result = self
            .store
            .complete_by(&mut pass.known.own, pass.number, file);
        self.store.recall_invariant();
        tell(
            word,
            self.store.history(),
            from,
            &mut self.log,
            &mut pass.known,
        );
        result
    }

    pub fn flush(
        &mut self,
        word: &HistoryWord,
        pass: &mut Pass<J>,
    ) -> Result<Option<MerkleHash>, StoreError>
        requires { word.now ≡ J.table }
        ensures saw { IfOk result (SawFlush pass.old pass.new) }
        ensures refused { IfErr result (FlushFailed pass.old pass.new) }
    {
        word.compare(&mut self.log.writer, &mut pass.known.reader);
        self.store.recall_invariant();
        let from = self.store.history().len();
        let result = self.store.flush_by(&mut pass.known.own, pass.number);
        self.store.recall_invariant();
        tell(
            word,
            self.store.history(),
            from,
            &mut self.log,
            &mut pass.known,
        );
        result
    }
}
