//! What was made of parts of the sources is merged, and what is left of it is closed.

ghost use Rattle.std.specs.Prelude.{◌≤◌, ◌<◌, ◌+◌, ◌*◌, ◌^◌, [], List, IfErr, IfOk, OnOk, length};
ghost use Rattle.std.specs.List.{sum_by};
ghost use Rattle.xet_clean.specs.Closing.{IsAtMost};
ghost use Rattle.xet_clean.specs.Merging.{IsUnmerged, MayMergeAll, MergesAll, Part};
ghost use Rattle.xet_clean.specs.internal.Merging.{IsMerging};
ghost use Rattle.xet_store.specs.Holders.{Follows, Holder};

use crate::info::Cleaned;
use crate::working::Working;
use xet_hash::StoreError;
use xet_store::Stepping;

/// Merges what was made of parts of the sources, in order: what is left of a part joins what is left of those before it, and if it
/// does not fit, that is closed first. At the end what is left is closed. There is at least one part, and there are at most 2^20
/// files in all. After an error the steps before it stand. Whatever the result, at most two entries were added for each chunk
/// and each file that was left of a part.
pub fn merge_all<S: Stepping>(steps: &mut S, parts: Vec<Working>) -> Result<Cleaned, StoreError>
    requires some { 0 < length parts.items }
    requires count { sum_by (λ w. length w.cleaned.infos.items) parts.items ≤ 2 ^ 20 }
    requires parts { (ps : List Part) × MayMergeAll (S.holder steps.old) ps parts.items }
    ensures merged { (ps : List Part) → MayMergeAll (S.holder steps.old) ps parts.items → IfOk result (λ cleaned. MergesAll ps (S.holder steps.old) (S.holder steps.new) cleaned.infos.items cleaned.choices.items cleaned.metrics) }
    ensures follows { Follows (S.holder steps.old) (S.holder steps.new) }
    ensures few { IsAtMost (sum_by (λ w. 2 * length w.aggregate.chunks + 2 * length w.aggregate.files) parts.items) (S.holder steps.old) (S.holder steps.new) }
    ensures refused { (ps : List Part) → MayMergeAll (S.holder steps.old) ps parts.items → IfErr result (IsUnmerged ps (S.holder steps.old) (S.holder steps.new)) }
{
    steps.limits().recall_invariant();
    let mut rest = parts;
    let mut whole = rest.remove(0);
    match merge_rest(steps, &mut whole, rest) {
        Ok(()) => whole.end(steps),
        Err(error) => Err(error),
    }
}

/// Merges further parts into the whole, in order.
fn merge_rest<S: Stepping>(
    steps: &mut S,
    whole: &mut Working,
    rest: Vec<Working>,
) -> Result<(), StoreError>
    requires merging { (ps : List Part) × (start : Holder) × IsMerging ps rest.items start (S.holder steps.old) whole.old.cleaned.infos.items whole.old.cleaned.choices.items whole.old.cleaned.metrics whole.old.aggregate }
    ensures merged { (ps : List Part) (start : Holder) → IsMerging ps rest.items start (S.holder steps.old) whole.old.cleaned.infos.items whole.old.cleaned.choices.items whole.old.cleaned.metrics whole.old.aggregate
        → OnOk result (IsMerging ps [] start (S.holder steps.new) whole.new.cleaned.infos.items whole.new.cleaned.choices.items whole.new.cleaned.metrics whole.new.aggregate) }
    ensures follows { Follows (S.holder steps.old) (S.holder steps.new) }
    ensures few { (ps : List Part) (start : Holder) → IsMerging ps rest.items start (S.holder steps.old) whole.old.cleaned.infos.items whole.old.cleaned.choices.items whole.old.cleaned.metrics whole.old.aggregate
        → IsAtMost (sum_by (λ p. 2 * length p.left.chunks + 2 * length p.left.files) ps) start (S.holder steps.new) }
    ensures refused { (ps : List Part) (start : Holder) → IsMerging ps rest.items start (S.holder steps.old) whole.old.cleaned.infos.items whole.old.cleaned.choices.items whole.old.cleaned.metrics whole.old.aggregate
        → IfErr result (IsUnmerged ps start (S.holder steps.new)) }
{
    for part in rest {
        whole.merge(steps, part)?;
    }
    Ok(())
}
