//! The aggregate of files that share a xorb is registered, and its files are recorded.

ghost use Rattle.std.specs.Prelude.{◌≡◌, ◌≢◌, ◌+◌, ◌*◌, IfErr, OnOk, false, length, map, true};
ghost use Rattle.xet_aggregate.specs.Aggregate.{IsAggregate};
ghost use Rattle.xet_clean.specs.Planning.{IsWithin};
ghost use Rattle.xet_store.specs.Holders.{Follows, xorb_limits};
ghost use Rattle.xet_clean.specs.Closing.{Closes, Completes, HaveForm, IsAtMost, IsClosingError, IsUnclosed, NoCalls, RecordsFirst, RegistersAtMost};
ghost use Rattle.std.specs.List.{AllByRecursion};
ghost use Rattle.xet_dedup_queries.specs.Registering.{IsDue};
ghost use Rattle.xet_shard_format.specs.Records.{IsFile};
ghost use Rattle.xet_xorb_chunk.specs.Chunks.{chunk_leaf};

use xet_dedup::DataAggregator;
use xet_hash::{MerkleHash, StoreError};
use xet_shard_format::MDBFileInfo;
use xet_store::Stepping;

/// Registers the xorb of the chunks, if there are any, with those that did not fit into it, and then records the files. After
/// an error the first of them may be recorded.
pub(crate) fn close<S: Stepping>(
    steps: &mut S,
    aggregate: DataAggregator,
    next: &[(MerkleHash, u64)],
) -> Result<(), StoreError>
    requires aggregate { IsAggregate aggregate }
    requires within { IsWithin (S.holder steps.old).limits aggregate.chunks }
    requires forms { HaveForm aggregate.files }
    requires due { IsDue (xorb_limits (S.holder steps.old).limits) (map chunk_leaf aggregate.chunks) next.now }
    ensures closes { OnOk result (Closes aggregate next.now (S.holder steps.old) (S.holder steps.new)) }
    ensures follows { Follows (S.holder steps.old) (S.holder steps.new) }
    ensures few { IsAtMost (2 * length aggregate.chunks + 2 * length aggregate.files) (S.holder steps.old) (S.holder steps.new) }
    ensures refused { IfErr result (IsUnclosed (RegistersAtMost aggregate next.now) aggregate next.now (S.holder steps.old) (S.holder steps.new)) }
{
    let is_empty = has_no_chunks(&aggregate);
    let (xorb, files) = aggregate.finalize()?;
    if !is_empty {
        let _added = steps.register(xorb, next)?;
    }
    complete_all(steps, files)
}

/// Whether an aggregate has no chunks.
fn has_no_chunks(aggregate: &DataAggregator) -> bool
    ensures none { result ≡ true → length aggregate.now.chunks ≡ 0 }
    ensures some { result ≡ false → length aggregate.now.chunks ≢ 0 }
{
    aggregate.num_chunks() == 0
}

/// Records files, in order.
fn complete_all<S: Stepping>(
    steps: &mut S,
    files: Vec<(u64, MDBFileInfo, u64)>,
) -> Result<(), StoreError>
    requires forms { AllByRecursion (λ f. IsFile f.1) files.items }
    ensures completed { OnOk result (Completes (map (λ f. f.1) files.items) (S.holder steps.old) (S.holder steps.new)) }
    ensures follows { Follows (S.holder steps.old) (S.holder steps.new) }
    ensures few { IsAtMost (2 * length files.items) (S.holder steps.old) (S.holder steps.new) }
    ensures first { RecordsFirst NoCalls (map (λ f. f.1) files.items) (S.holder steps.old) (S.holder steps.new) }
    ensures refused { IfErr result (IsClosingError (map (λ f. f.1) files.items) (S.holder steps.old) (S.holder steps.new)) }
{
    for (_, file, _) in files {
        let _added = steps.complete(file)?;
    }
    Ok(())
}
