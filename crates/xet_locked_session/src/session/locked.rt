//! The steps of the passes of a session, each in one hold of the lock, and its end.

ghost use Rattle.std.specs.Prelude.{◌≡◌, ◌⊎◌, ◌+◌, IfErr, IfOk, length};
ghost use Rattle.std.specs.List.{AllByRecursion};
ghost use mathlib.Core.List.{IsPrefix};
ghost use Rattle.xet_dedup_queries.specs.Registering.{IsNewXorb};
ghost use Rattle.xet_locked_session.specs.Passes.{FlushFailed, IsSeen, NumbersDiffer, OtherFile, SawFlush, StepFailed, own_numbers};
ghost use Rattle.xet_locked_session.specs.Session.{IsSince};
ghost use Rattle.xet_shard_format.specs.Records.{IsFile};
ghost use Rattle.xet_shared_history.specs.Owned.{HasEachOnce};
ghost use Rattle.xet_store.specs.Holders.{seen, xorb_limits};
ghost use Rattle.xet_store.specs.Stepping.{SawComplete, SawQuery, SawRegister, cut_to_complete, cut_to_register, no_cut};
ghost use Rattle.xet_xorb.specs.Raw.{raw_leaves};

use super::{LockedSession, Pass, SharedStore};
use crate::naming::Naming;
use std::sync::Wait;
use xet_cut::Limits;
use xet_hash::{MerkleHash, StoreError};
use xet_history::StepKind;
use xet_io::Disk;
use xet_shard_format::{FileDataSequenceEntry, MDBFileInfo};
use xet_store::Store;
use xet_xorb::RawXorbData;

impl<D: Disk, J: Naming> LockedSession<D, J> {
    /// How many of the first hashes of a query are those of consecutive chunks of a listed xorb, and the segment of these
    /// chunks. None, without an entry, if the query is empty. It waits for the lock, as each step does. The pass
    /// has then seen the history up to the entry. `Io(Disk)` has an entry, and the disk's count of failures rises by at least
    /// as many as there are such entries. `MalformedData` is returned only on a disk that is not observable. Any other error is
    /// `OutOfMemory`.
    pub fn query<R: Wait>(
        &self,
        rt: &R,
        pass: &mut Pass<J>,
        hashes: &[MerkleHash],
    ) -> Result<Option<(usize, FileDataSequenceEntry)>, StoreError>
        ensures saw { IfOk result (SawQuery hashes.now pass.old pass.new) }
        ensures refused { IfErr result (StepFailed StepKind.Query no_cut pass.old pass.new) }
    {
        self.shared.query(rt, pass, hashes)
    }

    /// Stores a xorb and lists it, unless one of its hash is listed; its record is then pending. Returns whether none was. If
    /// something is pending and its shard would be longer than the target with this xorb, it is flushed first. `next` lists
    /// the chunks that did not fit into the xorb. The call fails if a xorb of its hash is listed with other chunks, or if its
    /// hash is the sentinel. The errors are `OutOfMemory`, `TooLarge(Shards)`, which is returned only if a flush is due and
    /// 2^32 - 1 shards are registered, and `Io(Disk)`, which has an entry.
    pub fn register_xorb<R: Wait>(
        &self,
        rt: &R,
        pass: &mut Pass<J>,
        xorb: RawXorbData,
        next: &[(MerkleHash, u64)],
    ) -> Result<bool, StoreError>
        requires new { IsNewXorb (xorb_limits pass.old.limits) xorb }
        ensures saw { IfOk result (SawRegister (raw_leaves xorb) next.now pass.old pass.new) }
        ensures refused { IfErr result (StepFailed StepKind.Register (cut_to_register pass.old (raw_leaves xorb)) pass.old pass.new) }
    {
        self.shared.register_xorb(rt, pass, xorb, next)
    }

    /// Records a file, unless its hash is recorded; its record is then pending. Returns whether none was. If something is
    /// pending and its shard would be longer than the target with this record, it is flushed first. A file that may not be
    /// recorded over the listed xorbs is rejected with `MalformedData(OtherFileHash)`, and no entry is added. The other errors
    /// are those of `register_xorb`.
    pub fn complete_file<R: Wait>(
        &self,
        rt: &R,
        pass: &mut Pass<J>,
        file: MDBFileInfo,
    ) -> Result<bool, StoreError>
        requires form { IsFile file }
        ensures saw { IfOk result (SawComplete file pass.old pass.new) }
        ensures refused { IfErr result (λ e. OtherFile file pass.old pass.new e ⊎ StepFailed StepKind.Complete (cut_to_complete pass.old file) pass.old pass.new e) }
    {
        self.shared.complete_file(rt, pass, file)
    }

    /// Flushes all that is pending as one shard, and returns its hash; returns none, and adds no entry, if nothing is pending.
    /// After an error all of it is still pending. The error is `TooLarge(Shards)`, which is returned only if something is
    /// pending and 2^32 - 1 shards are registered, `OutOfMemory`, or `Io(Disk)`, which has an entry. The clauses say what is then
    /// pending and registered; that the shard's file is durable is by the code.
    pub fn flush<R: Wait>(
        &self,
        rt: &R,
        pass: &mut Pass<J>,
    ) -> Result<Option<MerkleHash>, StoreError>
        ensures saw { IfOk result (SawFlush pass.old pass.new) }
        ensures refused { IfErr result (FlushFailed pass.old pass.new) }
    {
        self.shared.flush(rt, pass)
    }

    pub(crate) fn shared(&self) -> &SharedStore<D, J> {
        &self.shared
    }

    /// The limits of the store. It does not wait.
    pub fn limits(&self) -> &Limits
        ensures { result.now ≡ J.store.store.limits }
    {
        self.shared.limits()
    }

    /// The store, once all passes are back. The history begins with what each of them has seen, and their own entries are
    /// together those that were added since the session was made.
    pub fn close(self, passes: Vec<Pass<J>>) -> Store<D>
        requires all { length passes.items + 1 ≡ J.parts }
        requires differ { NumbersDiffer passes.items }
        ensures since { IsSince J.store result }
        ensures known { AllByRecursion IsSeen passes.items }
        ensures seen { AllByRecursion (λ p. IsPrefix (seen p) result.history) passes.items }
        ensures own { HasEachOnce (length J.store.history) (length result.history) (own_numbers passes.items) }
    {
        self.shared.close_stopped(passes).0
    }

    /// The store, whether or not passes are left. That passes made the entries which were added since is promised by `close`
    /// alone.
    pub fn abandon(self) -> Store<D>
        ensures since { IsSince J.store result }
    {
        self.shared.abandon()
    }

    /// The same, after one of the passes. The history begins with what that pass has seen.
    pub fn abandon_after(self, pass: Pass<J>) -> Store<D>
        ensures since { IsSince J.store result }
        ensures known { IsSeen pass }
        ensures seen { IsPrefix (seen pass) result.history }
    {
        self.shared.abandon_after(pass)
    }
}
