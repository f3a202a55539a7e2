//! The store is taken out of the lock.

ghost use Rattle.std.specs.Prelude.{◌≡◌, ◌⊎◌, ◌≤◌, ◌+◌, ◌++◌, false, length, true};
ghost use Rattle.std.specs.List.{AllByRecursion};
ghost use mathlib.Core.List.{IsPrefix};
ghost use Rattle.xet_shared_history.specs.Owned.{HasEachOnce};
ghost use Rattle.xet_store.specs.Holders.{seen};
ghost use Rattle.xet_locked_session.specs.Passes.{IsSeen, NumbersDiffer, own_numbers};
ghost use Rattle.xet_locked_session.specs.Session.{IsSince, fault_count};
ghost use Rattle.xet_locked_session.specs.Shared.{HaveEnded, HaveMade};
ghost use Rattle.xet_locked_session.specs.internal.Returned.{IsReturned};

use super::{Desk, Guarded, Known, Log, NamedStore, Pass, SharedStore};
use crate::naming::Naming;
use std::sync::ledger::Share;
use xet_io::Disk;
use xet_shared_history::{HistoryWord, Writer};
use xet_store::Store;

impl<D: Disk, J: Naming> SharedStore<D, J> {
    /// The store, whether or not passes are left. That passes made the entries which were added since is promised by
    /// `close_stopped` alone.
    pub(crate) fn abandon(self) -> Store<D>
        ensures since { IsSince J.store result }
        ensures made { J.stops ≡ true → HaveMade J.store result ⊎ HaveEnded J.store result }
        ensures one { J.stops ≡ true → fault_count result.history ≤ fault_count J.store.history + 1 }
    {
        let SharedStore {
            word: _,
            limits: _,
            desk,
        } = self;
        let Guarded {
            desk,
            stops: _,
            stopped: _,
        } = desk.into_inner();
        let Desk { store, log: _ } = desk;
        store.recall_invariant();
        let NamedStore { store, of: _ } = store;
        store
    }

    /// The same, after one of the passes. The history begins with what that pass has seen.
    pub(crate) fn abandon_after(self, pass: Pass<J>) -> Store<D>
        ensures since { IsSince J.store result }
        ensures known { IsSeen pass }
        ensures seen { IsPrefix (seen pass) result.history }
    {
        let SharedStore {
            word,
            limits: _,
            desk,
        } = self;
        let Guarded {
            desk,
            stops: _,
            stopped: _,
        } = desk.into_inner();
        let Desk { store, log } = desk;
        let Log {
            mut writer,
            count: _,
            book: _,
            mut rest,
        } = log;
        store.recall_invariant();
        return_pass::<J>(&word, &mut writer, &mut rest, pass);
        let NamedStore { store, of: _ } = store;
        store
    }

    /// The store, once all passes are back, and whether the last step was made. The history begins with what each of them has seen,
    /// and their own entries are together those that were added since the session was made.
    pub(crate) fn close_stopped(self, passes: Vec<Pass<J>>) -> (Store<D>, bool)
        requires all { length passes.items + 1 ≡ J.parts }
        requires differ { NumbersDiffer passes.items }
        ensures since { IsSince J.store result.0 }
        ensures known { AllByRecursion IsSeen passes.items }
        ensures seen { AllByRecursion (λ p. IsPrefix (seen p) result.0.history) passes.items }
        ensures own { HasEachOnce (length J.store.history) (length result.0.history) (own_numbers passes.items) }
        ensures going { J.stops ≡ true → result.1 ≡ false → HaveMade J.store result.0 }
        ensures made { J.stops ≡ true → HaveMade J.store result.0 ⊎ HaveEnded J.store result.0 }
        ensures one { J.stops ≡ true → fault_count result.0.history ≤ fault_count J.store.history + 1 }
    {
        let SharedStore {
            word,
            limits: _,
            desk,
        } = self;
        let Guarded {
            desk,
            stops: _,
            stopped,
        } = desk.into_inner();
        let Desk { store, log } = desk;
        let Log {
            mut writer,
            count: _,
            mut book,
            mut rest,
        } = log;
        store.recall_invariant();
        let mut left = passes;
        'passes: while let Some(pass) = left.pop() {
            return_pass::<J>(&word, &mut writer, &mut rest, pass);
        }
        book.audit(&mut rest);
        let NamedStore { store, of: _ } = store;
        (store, stopped)
    }
}

/// The parts that a pass has of the table and of the ledger are returned.
fn return_pass<J: Naming>(
    word: &HistoryWord,
    writer: &mut Writer,
    rest: &mut Share<J>,
    pass: Pass<J>,
)
    requires tables { (word.now ≡ J.table) × (writer.old.table ≡ J.table) }
    ensures returned { IsReturned J.store (J.store.history ++ writer.old.seen) pass }
    ensures writer { writer.new ≡ writer.old }
    ensures rest { (rest.new.parts ≡ rest.old.parts + 1) × (rest.new.amount ≡ rest.old.amount + length pass.own) }
{
    let Pass { number: _, known } = pass;
    let Known {
        mut reader,
        seen: _,
        own: _,
        share,
    } = known;
    word.compare(writer, &mut reader);
    rest.merge(share);
}
