//! The steps of the store of a session, once there is room for the numbers of their entries.

ghost use Rattle.std.specs.Prelude.{◌≡◌, ◌⊎◌, ◌-◌, ◌+◌, ◌≤◌, [], IfErr, IfOk, OnErr, length, vec_capacity, vec_len};
ghost use Rattle.xet_dedup_queries.specs.Registering.{IsNewXorb};
ghost use Rattle.xet_history.specs.History.{complete_cut, complete_entries, register_cut, register_entries};
ghost use Rattle.xet_locked_session.specs.Session.{IsSince};
ghost use Rattle.xet_locked_session.specs.internal.Made.{Completed, Flushed, Grew, Queried, Registered};
ghost use Rattle.xet_shard_format.specs.Records.{IsFile};
ghost use Rattle.xet_store.specs.Changes.{ChangesFiles, Tries};
ghost use Rattle.xet_store.specs.Recorded.{IsRecorded, core_of};
ghost use Rattle.xet_store.specs.Steps.{FailsAsking, IsOtherFile, Refuses};
ghost use Rattle.xet_store.specs.Holders.{xorb_limits};
ghost use Rattle.xet_store_disk.specs.Store.{Sound};
ghost use Rattle.xet_xorb.specs.Raw.{raw_leaves};

use super::NamedStore;
use crate::naming::Naming;
use xet_hash::{MerkleHash, StoreError};
use xet_history::{Entry, StepKind};
use xet_io::Disk;
use xet_shard_format::{FileDataSequenceEntry, MDBFileInfo};
use xet_xorb::RawXorbData;

impl<D: Disk, J: Naming> NamedStore<D, J> {
    pub(super) fn history(&self) -> &[Entry]
        ensures { result.now ≡ self.now.history }
    {
        self.store.history()
    }

    /// Proof aid without effect: makes the invariants available to the caller.
    pub(super) fn recall_invariant(&self)
        ensures since { IsSince J.store self.now }
        ensures recorded { IsRecorded self.now }
        ensures sound { Sound self.now.store }
    {
        self.store.recall_invariant();
        self.store.recall_sound();
    }

    pub(super) fn query_by(
        &mut self,
        own: &mut Vec<u64>,
        pass: u32,
        hashes: &[MerkleHash],
    ) -> Result<Option<(usize, FileDataSequenceEntry)>, StoreError>
        ensures queried { IfOk result (Queried pass hashes.now self.old self.new) }
        ensures refused { IfErr result (FailsAsking pass self.old self.new) }
        ensures unread { OnErr result (ChangesFiles [] self.old self.new []) }
        ensures grew { Grew pass result self.old self.new }
        ensures room { vec_len own.new + (length self.new.history - length self.old.history) ≤ vec_capacity own.new }
        ensures own { own.new.items ≡ own.old.items }
    {
        own.reserve(2)?;
        self.store.query_by(pass, hashes)
    }

    pub(super) fn register_by(
        &mut self,
        own: &mut Vec<u64>,
        pass: u32,
        xorb: RawXorbData,
        next: &[(MerkleHash, u64)],
    ) -> Result<bool, StoreError>
        requires new { IsNewXorb (xorb_limits J.store.store.limits) xorb }
        ensures registered { IfOk result (Registered pass (raw_leaves xorb) next.now self.old self.new) }
        ensures refused { IfErr result (Refuses pass StepKind.Register (register_cut pass (core_of self.old) self.old.store.limits.shard_target (raw_leaves xorb)) self.old self.new) }
        ensures tries { OnErr result (Tries self.old self.new (register_entries pass (core_of self.old) self.old.store.limits.shard_target (raw_leaves xorb) next.now)) }
        ensures grew { Grew pass result self.old self.new }
        ensures room { vec_len own.new + (length self.new.history - length self.old.history) ≤ vec_capacity own.new }
        ensures own { own.new.items ≡ own.old.items }
    {
        own.reserve(2)?;
        self.store.register_xorb_by(pass, xorb, next)
    }

    pub(super) fn complete_by(
        &mut self,
        own: &mut Vec<u64>,
        pass: u32,
        file: MDBFileInfo,
    ) -> Result<bool, StoreError>
        requires form { IsFile file }
        ensures completed { IfOk result (Completed pass file self.old self.new) }
        ensures refused { IfErr result (λ e. IsOtherFile self.old self.new file e ⊎ Refuses pass StepKind.Complete (complete_cut pass (core_of self.old) self.old.store.limits.shard_target file) self.old self.new e) }
        ensures tries { OnErr result (Tries self.old self.new (complete_entries pass (core_of self.old) self.old.store.limits.shard_target file)) }
        ensures grew { Grew pass result self.old self.new }
        ensures room { vec_len own.new + (length self.new.history - length self.old.history) ≤ vec_capacity own.new }
        ensures own { own.new.items ≡ own.old.items }
    {
        own.reserve(2)?;
        self.store.complete_file_by(pass, file)
    }

    pub(super) fn flush_by(
        &mut self,
        own: &mut Vec<u64>,
        pass: u32,
    ) -> Result<Option<MerkleHash>, StoreError>
        ensures flushed { IfOk result (Flushed pass self.old self.new) }
        ensures refused { IfErr result (Refuses pass StepKind.Flush [] self.old self.new) }
        ensures grew { Grew pass result self.old self.new }
        ensures room { vec_len own.new + (length self.new.history - length self.old.history) ≤ vec_capacity own.new }
        ensures own { own.new.items ≡ own.old.items }
    {
        own.reserve(2)?;
        self.store.flush_by(pass)
    }
}
