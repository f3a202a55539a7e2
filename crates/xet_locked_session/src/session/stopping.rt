//! What a session whose first failed step is the last one has beside the steps of its passes, and its end.

ghost use Rattle.std.specs.Prelude.{◌≡◌, ◌⊎◌, ◌≤◌, ◌+◌, false, length};
ghost use Rattle.std.specs.List.{AllByRecursion};
ghost use mathlib.Core.List.{IsPrefix};
ghost use Rattle.xet_locked_session.specs.Passes.{IsSeen, NumbersDiffer, own_numbers};
ghost use Rattle.xet_locked_session.specs.Session.{IsSince, fault_count};
ghost use Rattle.xet_locked_session.specs.Shared.{HaveEnded, HaveMade};
ghost use Rattle.xet_shared_history.specs.Owned.{HasEachOnce};
ghost use Rattle.xet_store.specs.Holders.{seen};

use super::{Pass, SharedStore, StoppingSession};
use crate::naming::Naming;
use std::sync::Wait;
use xet_cut::Limits;
use xet_io::Disk;
use xet_store::Store;

impl<D: Disk, J: Naming> StoppingSession<D, J> {
    /// No later step does anything, as after one that failed. It waits for the lock.
    pub fn stop<R: Wait>(&self, rt: &R) {
        self.shared.stop(rt);
    }

    pub(crate) fn shared(&self) -> &SharedStore<D, J> {
        &self.shared
    }

    /// The limits of the store. It does not wait.
    pub fn limits(&self) -> &Limits
        ensures { result.now ≡ J.store.store.limits }
    {
        self.shared.limits()
    }

    /// The store, once all passes are back. The history begins with what each of them has seen, and their own entries are
    /// together those that were added since the session was made: by completed steps, and at most one that failed, the last.
    pub fn close(self, passes: Vec<Pass<J>>) -> Store<D>
        requires all { length passes.items + 1 ≡ J.parts }
        requires differ { NumbersDiffer passes.items }
        ensures since { IsSince J.store result }
        ensures known { AllByRecursion IsSeen passes.items }
        ensures seen { AllByRecursion (λ p. IsPrefix (seen p) result.history) passes.items }
        ensures own { HasEachOnce (length J.store.history) (length result.history) (own_numbers passes.items) }
        ensures made { HaveMade J.store result ⊎ HaveEnded J.store result }
        ensures one { fault_count result.history ≤ fault_count J.store.history + 1 }
    {
        self.close_stopped(passes).0
    }

    /// The same, and whether the last step was made: a step failed, or `stop` was called.
    pub fn close_stopped(self, passes: Vec<Pass<J>>) -> (Store<D>, bool)
        requires all { length passes.items + 1 ≡ J.parts }
        requires differ { NumbersDiffer passes.items }
        ensures since { IsSince J.store result.0 }
        ensures known { AllByRecursion IsSeen passes.items }
        ensures seen { AllByRecursion (λ p. IsPrefix (seen p) result.0.history) passes.items }
        ensures own { HasEachOnce (length J.store.history) (length result.0.history) (own_numbers passes.items) }
        ensures going { result.1 ≡ false → HaveMade J.store result.0 }
        ensures made { HaveMade J.store result.0 ⊎ HaveEnded J.store result.0 }
        ensures one { fault_count result.0.history ≤ fault_count J.store.history + 1 }
    {
        self.shared.close_stopped(passes)
    }

    /// The store, whether or not passes are left. That passes made the entries which were added since is promised by `close`
    /// and `close_stopped`.
    pub fn abandon(self) -> Store<D>
        ensures since { IsSince J.store result }
        ensures made { HaveMade J.store result ⊎ HaveEnded J.store result }
        ensures one { fault_count result.history ≤ fault_count J.store.history + 1 }
    {
        self.shared.abandon()
    }
}
