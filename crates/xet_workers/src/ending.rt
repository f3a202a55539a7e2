//! How a session of workers ends: its store is taken out of the lock, and what is left of the parts is merged.

ghost use Rattle.std.specs.Prelude.{◌≡◌, ◌≤◌, ◌<◌, ◌+◌, ◌^◌, Err, IfErr, IfOk, List, false, length};
ghost use Rattle.std.specs.List.{sum_by};
ghost use Rattle.xet_clean.specs.Merging.{MayMergeAll, Part};
ghost use Rattle.xet_locked_session.specs.Passes.{NumbersDiffer};
ghost use Rattle.xet_store.specs.Alone.{alone_of};
ghost use Rattle.xet_workers.specs.internal.Ending.{HasMerged, IsLeftWith, IsUnended, MergedAlone, UnmergedAlone};
ghost use Rattle.xet_workers.specs.internal.Parts.{ArePartsBy, all_worked};

use xet_clean::{Cleaned, Working, merge_all};
use xet_hash::StoreError;
use xet_io::Disk;
use xet_locked_session::{Naming, Pass, StoppingSession};
use xet_store::{Alone, Store};

/// The store, once all workers are done, and what was made of all sources: what is left of the parts is merged in order. Or the
/// error of a worker.
pub(crate) fn close_and_merge<D: Disk, J: Naming>(
    session: StoppingSession<D, J>,
    passes: Vec<Pass<J>>,
    made: Result<Vec<Working>, StoreError>,
) -> (Store<D>, Result<Cleaned, StoreError>)
    requires all { length passes.items + 1 ≡ J.parts }
    requires differ { NumbersDiffer passes.items }
    requires count { IfOk made (λ ws. (0 < length ws.items) × (length ws.items ≡ length passes.items) × (sum_by (λ w. length w.cleaned.infos.items) ws.items ≤ 2 ^ 20)) }
    requires parts { IfOk made (λ ws. (ps : List Part) × ArePartsBy J.store 1 (all_worked passes.items ws.items) ps) }
    ensures merged { IfOk made (λ ws. (ps : List Part) → ArePartsBy J.store 1 (all_worked passes.items ws.items) ps
        → IfOk result.1 (λ c. HasMerged J.store result.0 passes.items ps c.infos.items c.choices.items c.metrics)) }
    ensures unmerged { IfOk made (λ ws. (ps : List Part) → ArePartsBy J.store 1 (all_worked passes.items ws.items) ps
        → IfErr result.1 (IsUnended J.store result.0 passes.items ps ws.items)) }
    ensures failed { IfErr made (λ e. (result.1 ≡ Err e) × IsLeftWith J.store result.0 passes.items) }
{
    let (store, stopped) = session.close_stopped(passes);
    match made {
        Ok(workings) => {
            if stopped {
                return (store, Err(StoreError::OutOfMemory)); // Does not occur: whoever stops a session has an error.
            }
            merge_alone(store, workings)
        }
        Err(error) => (store, Err(error)),
    }
}

/// Merges what workers made, alone over the store.
fn merge_alone<D: Disk>(
    store: Store<D>,
    workings: Vec<Working>,
) -> (Store<D>, Result<Cleaned, StoreError>)
    requires some { 0 < length workings.items }
    requires count { sum_by (λ w. length w.cleaned.infos.items) workings.items ≤ 2 ^ 20 }
    requires parts { (ps : List Part) × MayMergeAll (alone_of store store false) ps workings.items }
    ensures merged { (ps : List Part) → MayMergeAll (alone_of store store false) ps workings.items → IfOk result.1 (λ c. MergedAlone store result.0 ps c.infos.items c.choices.items c.metrics) }
    ensures unmerged { (ps : List Part) → MayMergeAll (alone_of store store false) ps workings.items → IfErr result.1 (UnmergedAlone store result.0 ps workings.items) }
{
    let mut alone = Alone::new(store);
    let cleaned = merge_all(&mut alone, workings);
    alone.recall_steps();
    (alone.into_store(), cleaned)
}
